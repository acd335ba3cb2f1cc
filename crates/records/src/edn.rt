//! Records in EDN.

ghost use Rattle.std.specs.Prelude.{◌≡◌, ◌++◌, OnOk, codes, encode_utf8_all, string_bytes};
ghost use Rattle.records.specs.Symbol.{place, symbol_of, symbols_of};
ghost use Rattle.records.specs.Edn.{begins, blank_before, edn_from, edn_text, ends, edn_char, string_text, symbol_text};

use crate::token::RecordToken;
use bstr::ByteSlice;
use phrases::printed_char;
use std::alloc::AllocError;

/// Adds a record in EDN. Where memory is refused, the text may have got a prefix of it.
#[tactic(auto, unfolding(crate::specs::Edn::edn_from))]
pub fn push_edn(text: &mut String, tokens: &[RecordToken]) -> Result<(), AllocError>
    ensures { OnOk result (string_bytes text.new ≡ string_bytes text.old ++ edn_text (symbols_of tokens.now)) }
{
    let mut ended = false;
    for token in tokens {
        push_blank(text, ended, token)?;
        push_token(text, token)?;
        ended = ends(token);
    }
    Ok(())
}

fn push_blank(text: &mut String, ended: bool, token: &RecordToken) -> Result<(), AllocError>
    ensures { OnOk result (string_bytes text.new ≡ string_bytes text.old ++ blank_before ended (symbol_of token.now)) }
{
    if ended && begins(token) {
        text.push_str(" ")?;
    }
    Ok(())
}

fn begins(token: &RecordToken) -> bool
    ensures { result ≡ begins (symbol_of token.now) }
{
    !matches!(token, RecordToken::EndRecord | RecordToken::EndList)
}

fn ends(token: &RecordToken) -> bool
    ensures { result ≡ ends (symbol_of token.now) }
{
    !matches!(
        token,
        RecordToken::BeginRecord | RecordToken::BeginList | RecordToken::Key(_)
    )
}

fn push_token(text: &mut String, token: &RecordToken) -> Result<(), AllocError>
    ensures { OnOk result (string_bytes text.new ≡ string_bytes text.old ++ symbol_text (symbol_of token.now)) }
{
    match token {
        RecordToken::BeginRecord => text.push_str("{"),
        RecordToken::EndRecord => text.push_str("}"),
        RecordToken::BeginList => text.push_str("["),
        RecordToken::EndList => text.push_str("]"),
        RecordToken::Key(name) => push_key(text, name),
        RecordToken::Word(word) => push_word(text, word),
        RecordToken::Text(bytes) => push_text(text, bytes),
        RecordToken::Id(id) => push_place(text, u64::from(id.feeder), id.event),
        RecordToken::Place(feeder, event) => push_place(text, *feeder, *event),
        RecordToken::Number(number) => write!(text, "{number}"),
        RecordToken::Integer(number) => write!(text, "{number}"),
        RecordToken::Flag(true) => text.push_str("true"),
        RecordToken::Flag(false) => text.push_str("false"),
        RecordToken::Nothing => text.push_str("nil"),
    }
}

fn push_place(text: &mut String, feeder: u64, event: u64) -> Result<(), AllocError>
    ensures { OnOk result (string_bytes text.new ≡ string_bytes text.old ++ symbol_text (place feeder event)) }
{
    write!(text, "\"{feeder}:{event}\"")
}

fn push_key(text: &mut String, name: &str) -> Result<(), AllocError>
    ensures { OnOk result (string_bytes text.new ≡ string_bytes text.old ++ codes ":" ++ name.now ++ codes " ") }
{
    push_word(text, name)?;
    text.push_str(" ")
}

fn push_word(text: &mut String, word: &str) -> Result<(), AllocError>
    ensures { OnOk result (string_bytes text.new ≡ string_bytes text.old ++ codes ":" ++ word.now) }
{
    text.push_str(":")?;
    text.push_str(word)
}

fn push_text(text: &mut String, bytes: &[u8]) -> Result<(), AllocError>
    ensures { OnOk result (string_bytes text.new ≡ string_bytes text.old ++ string_text bytes.now) }
{
    text.push_str("\"")?;
    for character in bytes.chars() {
        push_escaped(text, printed_char(character))?;
    }
    text.push_str("\"")
}

fn push_escaped(text: &mut String, character: char) -> Result<(), AllocError>
    ensures { OnOk result (string_bytes text.new ≡ string_bytes text.old ++ encode_utf8_all (edn_char character)) }
{
    if character == '"' || character == '\\' {
        text.push('\\')?;
    }
    text.push(character)
}
