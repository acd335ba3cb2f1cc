//! A text within XML.

ghost use Rattle.std.specs.Prelude.{◌≡◌, ◌++◌, OnOk, string_bytes};
ghost use Rattle.ci_forms.specs.Xml.{xml_allowed, xml_char, xml_text};

use bstr::ByteSlice;
use std::alloc::AllocError;

/// Adds a text so that it reads as itself, on one line: what would be markup becomes an entity, what XML does not allow
/// becomes a blank or U+FFFD.
#[tactic(auto, unfolding(crate::specs::Xml::xml_text))]
pub fn push_xml(text: &mut String, plain: &[u8]) -> Result<(), AllocError>
    ensures { OnOk result (string_bytes text.new ≡ string_bytes text.old ++ xml_text plain.now) }
{
    for character in plain.chars() {
        push_character(text, character)?;
    }
    Ok(())
}

fn push_character(text: &mut String, character: char) -> Result<(), AllocError>
    ensures { OnOk result (string_bytes text.new ≡ string_bytes text.old ++ xml_char character) }
{
    match character {
        '&' => text.push_str("&amp;"),
        '<' => text.push_str("&lt;"),
        '>' => text.push_str("&gt;"),
        '"' => text.push_str("&quot;"),
        _ => text.push(allowed(character)),
    }
}

/// The character where XML allows it, else a blank or U+FFFD.
fn allowed(character: char) -> char
    ensures { result ≡ xml_allowed character }
{
    if character < ' ' {
        ' '
    } else if character == '\u{FFFE}' || character == '\u{FFFF}' {
        '\u{FFFD}'
    } else {
        character
    }
}
