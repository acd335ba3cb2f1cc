//! Bytes as a string of JSON.

ghost use Rattle.std.specs.Prelude.{◌≡◌, ◌++◌, OnOk, encode_utf8_all, string_bytes};
ghost use Rattle.lint.specs.Quoted.{quoted_character, quoted};

use bstr::ByteSlice;
use std::alloc::AllocError;

/// The bytes as a string of JSON. Bytes that are no UTF-8 become U+FFFD, and control characters blanks.
pub fn push_quoted(text: &mut String, bytes: &[u8]) -> Result<(), AllocError>
    ensures { OnOk result (string_bytes text.new ≡ string_bytes text.old ++ quoted bytes.now) }
{
    text.push_str("\"")?;
    for character in bytes.chars() {
        push_escaped(text, character)?;
    }
    text.push_str("\"")
}

fn push_escaped(text: &mut String, character: char) -> Result<(), AllocError>
    ensures { OnOk result (string_bytes text.new ≡ string_bytes text.old ++ encode_utf8_all (quoted_character character)) }
{
    if character == '"' {
        return text.push_str("\\\"");
    }
    if character == '\\' {
        return text.push_str("\\\\");
    }
    if character < ' ' {
        return text.push_str(" ");
    }
    text.push(character)
}
