//! A text within SVG and HTML.

ghost use Rattle.std.specs.Prelude.{◌≡◌, ◌++◌, OnOk, string_bytes};
ghost use Rattle.show.specs.Escape.{allowed, element_text, escaped, escaped_char};

use bstr::ByteSlice;
use std::alloc::AllocError;

/// Adds words between an opening and a closing markup.
pub fn push_element(
    text: &mut String,
    opening: &str,
    words: &str,
    closing: &str,
) -> Result<(), AllocError>
    ensures { OnOk result (string_bytes text.new ≡ string_bytes text.old ++ element_text opening.now words.now closing.now) }
{
    text.push_str(opening)?;
    push_escaped(text, words.as_bytes())?;
    text.push_str(closing)
}

/// Adds a text so that it reads as itself: what would be markup becomes an entity, what XML does not allow becomes a
/// blank or U+FFFD.
fn push_escaped(text: &mut String, plain: &[u8]) -> Result<(), AllocError>
    ensures { OnOk result (string_bytes text.new ≡ string_bytes text.old ++ escaped plain.now) }
{
    for character in plain.chars() {
        push_character(text, character)?;
    }
    Ok(())
}

fn push_character(text: &mut String, character: char) -> Result<(), AllocError>
    ensures { OnOk result (string_bytes text.new ≡ string_bytes text.old ++ escaped_char character) }
{
    match character {
        '&' => text.push_str("&amp;"),
        '<' => text.push_str("&lt;"),
        '>' => text.push_str("&gt;"),
        '"' => text.push_str("&quot;"),
        _ => text.push(allowed(character)),
    }
}

/// The character where XML allows it, else a blank or U+FFFD.
fn allowed(character: char) -> char
    ensures { result ≡ allowed character }
{
    if character < ' ' && character != '\n' {
        ' '
    } else if character == '\u{FFFE}' || character == '\u{FFFF}' {
        '\u{FFFD}'
    } else {
        character
    }
}
