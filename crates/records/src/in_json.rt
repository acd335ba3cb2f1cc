//! Records in JSON.

ghost use Rattle.std.specs.Prelude.{◌≡◌, ◌++◌, ◌∷◌, [], OnOk, IfOk, map, string_bytes};
ghost use Rattle.json.specs.Print.{print};
ghost use Rattle.records.specs.Symbol.{place, symbol_of, symbols_of};
ghost use Rattle.records.specs.Json.{json_text, json_token};

use crate::token::RecordToken;
use json::Writer;
use phrases::push_printed;
use std::alloc::{AllocError, Global};

/// Adds a record in JSON.
pub fn with_json(
    alloc: Global,
    text: Vec<u8>,
    tokens: &[RecordToken],
) -> Result<Vec<u8>, AllocError>
    ensures { IfOk result (λ more. more.items ≡ text.items ++ json_text (symbols_of tokens.now)) }
{
    let mut writer = Writer::new(text);
    for token in tokens {
        write_token(alloc, &mut writer, token)?;
    }
    Ok(writer.into_inner())
}

fn write_token(alloc: Global, writer: &mut Writer, token: &RecordToken) -> Result<(), AllocError>
    ensures before { writer.new.before ≡ writer.old.before }
    ensures tokens { OnOk result (writer.new.tokens ≡ writer.old.tokens ++ json_token (symbol_of token.now) ∷ []) }
{
    match token {
        RecordToken::BeginRecord => writer.begin_object(),
        RecordToken::EndRecord => writer.end_object(),
        RecordToken::BeginList => writer.begin_array(),
        RecordToken::EndList => writer.end_array(),
        RecordToken::Key(name) => writer.key(name),
        RecordToken::Word(word) => writer.string(word),
        RecordToken::Text(bytes) => {
            let mut printed = String::new(alloc);
            push_printed(&mut printed, bytes)?;
            writer.string(&printed)
        }
        RecordToken::Id(id) => write_place(alloc, writer, u64::from(id.feeder), id.event),
        RecordToken::Place(feeder, event) => write_place(alloc, writer, *feeder, *event),
        RecordToken::Number(number) => writer.u64(*number),
        RecordToken::Integer(number) => writer.i64(*number),
        RecordToken::Flag(flag) => writer.boolean(*flag),
        RecordToken::Nothing => writer.null(),
    }
}

fn write_place(
    alloc: Global,
    writer: &mut Writer,
    feeder: u64,
    event: u64,
) -> Result<(), AllocError>
    ensures before { writer.new.before ≡ writer.old.before }
    ensures tokens { OnOk result (writer.new.tokens ≡ writer.old.tokens ++ json_token (place feeder event) ∷ []) }
{
    let place = format!(in alloc; "{feeder}:{event}")?;
    writer.string(&place)
}
