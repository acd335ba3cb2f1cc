//! The colours of a picture.

use std::alloc::AllocError;

/// Which colours a picture has.
#[derive(Clone, Copy)]
pub enum Theme {
    /// Light or dark, as the reader's machine asks for.
    Auto,
    Light,
    Dark,
}

/// The colours of Okabe and Ito, which colour-blind people can tell apart, on a light ground: for each class those of
/// its areas, its lines and its words.
const LIGHT: &str =
    ".ra .paper{fill:#ffffff;stroke:none}.ra .paper text,.ra text.paper{fill:#1f2328;stroke:none}
.ra .quiet{fill:#59636e;stroke:none}.ra .quiet text,.ra text.quiet{fill:#59636e;stroke:none}
.ra .stripe{fill:#f3f5f8;stroke:none}.ra .stripe text,.ra text.stripe{fill:#59636e;stroke:none}
.ra .band{fill:#fcebe2;stroke:none}.ra .band text,.ra text.band{fill:#1f2328;stroke:none}
.ra .edge{fill:none;stroke:#818b98}.ra .edge text,.ra text.edge{fill:#1f2328;stroke:none}
.ra .drop{fill:none;stroke:#59636e}.ra .drop text,.ra text.drop{fill:#1f2328;stroke:none}
.ra .arrow{fill:none;stroke:#1f2328}.ra .arrow text,.ra text.arrow{fill:#1f2328;stroke:none}
.ra .head{fill:#1f2328;stroke:none}.ra .head text,.ra text.head{fill:#1f2328;stroke:none}
.ra .plain.write{fill:#d5dbe2;stroke:#818b98}.ra .plain.write text,.ra text.plain.write{fill:#1f2328;stroke:none}
.ra .plain.read{fill:#ffffff;stroke:#818b98}.ra .plain.read text,.ra text.plain.read{fill:#4d5661;stroke:none}
.ra .one.write{fill:#0072b2;stroke:#0072b2}.ra .one.write text,.ra text.one.write{fill:#ffffff;stroke:none}
.ra .one.read{fill:#ddedf7;stroke:#0072b2}.ra .one.read text,.ra text.one.read{fill:#00436a;stroke:none}
.ra .two.write{fill:#e69f00;stroke:#a87200}.ra .two.write text,.ra text.two.write{fill:#1c1400;stroke:none}
.ra .two.read{fill:#fdf1d8;stroke:#a87200}.ra .two.read text,.ra text.two.read{fill:#573c00;stroke:none}
.ra .wrong{fill:#fbe2d6;stroke:#c64c00}.ra .wrong text,.ra text.wrong{fill:#7f3100;stroke:none}
";

const DARK: &str =
    ".ra .paper{fill:#0d1117;stroke:none}.ra .paper text,.ra text.paper{fill:#e6edf3;stroke:none}
.ra .quiet{fill:#939ca6;stroke:none}.ra .quiet text,.ra text.quiet{fill:#939ca6;stroke:none}
.ra .stripe{fill:#161c24;stroke:none}.ra .stripe text,.ra text.stripe{fill:#939ca6;stroke:none}
.ra .band{fill:#2a180e;stroke:none}.ra .band text,.ra text.band{fill:#e6edf3;stroke:none}
.ra .edge{fill:none;stroke:#737c87}.ra .edge text,.ra text.edge{fill:#e6edf3;stroke:none}
.ra .drop{fill:none;stroke:#939ca6}.ra .drop text,.ra text.drop{fill:#e6edf3;stroke:none}
.ra .arrow{fill:none;stroke:#e6edf3}.ra .arrow text,.ra text.arrow{fill:#e6edf3;stroke:none}
.ra .head{fill:#e6edf3;stroke:none}.ra .head text,.ra text.head{fill:#e6edf3;stroke:none}
.ra .plain.write{fill:#353d47;stroke:#737c87}.ra .plain.write text,.ra text.plain.write{fill:#e6edf3;stroke:none}
.ra .plain.read{fill:#0d1117;stroke:#737c87}.ra .plain.read text,.ra text.plain.read{fill:#a3adb8;stroke:none}
.ra .one.write{fill:#56b4e9;stroke:#56b4e9}.ra .one.write text,.ra text.one.write{fill:#04141f;stroke:none}
.ra .one.read{fill:#10293a;stroke:#56b4e9}.ra .one.read text,.ra text.one.read{fill:#abdcf8;stroke:none}
.ra .two.write{fill:#efb22a;stroke:#efb22a}.ra .two.write text,.ra text.two.write{fill:#1c1400;stroke:none}
.ra .two.read{fill:#32270b;stroke:#efb22a}.ra .two.read text,.ra text.two.read{fill:#f8d88c;stroke:none}
.ra .wrong{fill:#3a1d0d;stroke:#ff8f52}.ra .wrong text,.ra text.wrong{fill:#ffc5a4;stroke:none}
";

/// What does not depend on the colours: a font of one width, and what is thick or dashed.
const SHAPES: &str =
    ".ra text{font-family:ui-monospace,SFMono-Regular,Menlo,Consolas,\"DejaVu Sans Mono\",monospace;font-size:10px;white-space:pre}
.ra .title{font-size:15px;font-weight:600}
.ra .told{stroke-width:2}
.ra .told text,.ra .bold{font-weight:700}
.ra .drop,.ra .endless.read path{stroke-dasharray:2 2}
.ra .cross{stroke-width:2.5}
.ra .arrow{stroke-width:1.5}
";

/// Adds the rules for how a picture looks.
pub fn push_style(text: &mut String, theme: Theme) -> Result<(), AllocError> {
    text.push_str("<style>")?;
    text.push_str(SHAPES)?;
    push_colours(text, theme)?;
    text.push_str("</style>\n")
}

fn push_colours(text: &mut String, theme: Theme) -> Result<(), AllocError> {
    match theme {
        Theme::Light => text.push_str(LIGHT),
        Theme::Dark => text.push_str(DARK),
        Theme::Auto => {
            text.push_str(LIGHT)?;
            text.push_str("@media (prefers-color-scheme:dark){\n")?;
            text.push_str(DARK)?;
            text.push_str("}\n")
        }
    }
}
