//! A page of pictures, as HTML.

ghost use Rattle.std.specs.Prelude.{◌≡◌, ◌++◌, OnOk, string_bytes};
ghost use Rattle.show.specs.Svg.{quoted_text, part_head_text};

use crate::escape::push_element;
use crate::scene::Sketch;
use crate::style::{Theme, push_style};
use crate::subject::Subject;
use crate::svg::{Sheet, push_headed};
use crate::title::heading_of;
use std::alloc::{AllocError, Global};

/// What comes before the title of a page.
const BEGINNING: &str =
    "<!DOCTYPE html>\n<html xmlns=\"http://www.w3.org/1999/xhtml\" lang=\"en\">\n<head>\n<meta charset=\"utf-8\"/>\n<title>";

/// The rules for what is around the pictures.
const PAGE: &str = "<style>:root{color-scheme:light dark}
body{margin:1.5em;font-family:system-ui,sans-serif}
summary{cursor:pointer;padding:.3em 0;font-weight:600}
svg{max-width:100%;height:auto}
pre{overflow-x:auto}
footer{opacity:.7;font-size:.85em}
</style>
";

/// The rules of the light theme alone.
const LIGHT: &str = "<style>:root{color-scheme:light;background:#ffffff;color:#1f2328}</style>\n";

/// The rules of the dark theme alone.
const DARK: &str = "<style>:root{color-scheme:dark;background:#0d1117;color:#e6edf3}</style>\n";

/// Begins a page, with this line as its title and heading.
pub fn push_page_head(text: &mut String, theme: Theme, line: &str) -> Result<(), AllocError> {
    push_element(text, BEGINNING, line, "</title>\n")?;
    text.push_str(PAGE)?;
    text.push_str(ground_of(theme))?;
    push_style(text, theme)?;
    push_element(text, "</head>\n<body>\n<h1>", line, "</h1>\n")
}

/// The rules for the ground of a page of one theme; none where the reader's machine chooses.
fn ground_of(theme: Theme) -> &'static str {
    match theme {
        Theme::Auto => "",
        Theme::Light => LIGHT,
        Theme::Dark => DARK,
    }
}

/// Adds a register to a page: its picture, which is seen at once where it is unfolded, and what the report says of it.
pub fn push_page_part(
    text: &mut String,
    alloc: Global,
    sketch: &Sketch,
    sheet: &Sheet,
    is_unfolded: bool,
    report: &str,
) -> Result<(), AllocError> {
    let opened = if is_unfolded { " open=\"open\"" } else { "" };
    write!(text, "<details id=\"register-{}\"{opened}>\n", sheet.number)?;
    push_sketch(text, alloc, sketch, sheet)?;
    push_quoted(text, report)?;
    text.push_str("</details>\n")
}

/// Adds the heading of a register and its picture.
fn push_sketch(
    text: &mut String,
    alloc: Global,
    sketch: &Sketch,
    sheet: &Sheet,
) -> Result<(), AllocError> {
    let heading = heading_of(alloc, &sketch.subject)?;
    push_part_head(text, &heading)?;
    push_headed(text, alloc, sketch, &heading, sheet)
}

fn push_part_head(text: &mut String, heading: &str) -> Result<(), AllocError>
    ensures { OnOk result (string_bytes text.new ≡ string_bytes text.old ++ part_head_text heading.now) }
{
    push_element(text, "<summary>", heading, "</summary>\n")
}

fn push_quoted(text: &mut String, report: &str) -> Result<(), AllocError>
    ensures { OnOk result (string_bytes text.new ≡ string_bytes text.old ++ quoted_text report.now) }
{
    push_element(text, "<pre>", report, "</pre>\n")
}

/// Adds an item of the list of links: to the register of this number, by its heading.
pub fn push_page_link(
    text: &mut String,
    alloc: Global,
    subject: &Subject,
    number: u32,
) -> Result<(), AllocError> {
    write!(text, "<li><a href=\"#register-{number}\">")?;
    push_element(text, "", &heading_of(alloc, subject)?, "</a></li>\n")
}

/// Adds lines as they are.
pub fn push_page_lines(text: &mut String, lines: &str) -> Result<(), AllocError> {
    push_quoted(text, lines)
}

/// Ends a page, with this line at its foot.
pub fn push_page_end(text: &mut String, line: &str) -> Result<(), AllocError> {
    push_element(text, "<footer>", line, "</footer>\n</body>\n</html>\n")
}
