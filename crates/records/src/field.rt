//! The beginning of a record, and fields.

ghost use Rattle.std.specs.Prelude.{◌≡◌, ◌++◌, OnOk};
ghost use Rattle.records.specs.Field.{end_symbols, flag_symbols, list_symbols, number_symbols, place_symbols, text_field, type_symbols, word_symbols};
ghost use Rattle.records.specs.Symbol.{symbols_of};

use crate::token::RecordToken;
use std::alloc::AllocError;

/// The beginning of a record, with what it is of.
#[tactic(auto, unfolding(crate::specs::Field::type_symbols))]
pub fn add_type<'a>(tokens: &mut Vec<RecordToken<'a>>, what: &'static str) -> Result<(), AllocError>
    ensures { OnOk result (symbols_of tokens.new.items ≡ symbols_of tokens.old.items ++ type_symbols what.now) }
{
    tokens.extend_from_slice(&[
        RecordToken::BeginRecord,
        RecordToken::Key("t"),
        RecordToken::Word(what),
    ])
}

#[tactic(auto, unfolding(crate::specs::Field::number_symbols))]
pub fn add_number<'a>(
    tokens: &mut Vec<RecordToken<'a>>,
    name: &'static str,
    number: u64,
) -> Result<(), AllocError>
    ensures { OnOk result (symbols_of tokens.new.items ≡ symbols_of tokens.old.items ++ number_symbols name.now number) }
{
    tokens.extend_from_slice(&[RecordToken::Key(name), RecordToken::Number(number)])
}

#[tactic(auto, unfolding(crate::specs::Field::text_field))]
pub fn add_text<'a>(
    tokens: &mut Vec<RecordToken<'a>>,
    name: &'static str,
    text: &'a [u8],
) -> Result<(), AllocError>
    ensures { OnOk result (symbols_of tokens.new.items ≡ symbols_of tokens.old.items ++ text_field name.now text.now) }
{
    tokens.extend_from_slice(&[RecordToken::Key(name), RecordToken::Text(text)])
}

#[tactic(auto, unfolding(crate::specs::Field::word_symbols))]
pub fn add_word<'a>(
    tokens: &mut Vec<RecordToken<'a>>,
    name: &'static str,
    word: &'static str,
) -> Result<(), AllocError>
    ensures { OnOk result (symbols_of tokens.new.items ≡ symbols_of tokens.old.items ++ word_symbols name.now word.now) }
{
    tokens.extend_from_slice(&[RecordToken::Key(name), RecordToken::Word(word)])
}

#[tactic(auto, unfolding(crate::specs::Field::flag_symbols))]
pub fn add_flag<'a>(
    tokens: &mut Vec<RecordToken<'a>>,
    name: &'static str,
    flag: bool,
) -> Result<(), AllocError>
    ensures { OnOk result (symbols_of tokens.new.items ≡ symbols_of tokens.old.items ++ flag_symbols name.now flag) }
{
    tokens.extend_from_slice(&[RecordToken::Key(name), RecordToken::Flag(flag)])
}

/// The place of an element.
#[tactic(auto, unfolding(crate::specs::Field::place_symbols))]
pub fn add_place<'a>(
    tokens: &mut Vec<RecordToken<'a>>,
    feeder: u64,
    event: u64,
) -> Result<(), AllocError>
    ensures { OnOk result (symbols_of tokens.new.items ≡ symbols_of tokens.old.items ++ place_symbols feeder event) }
{
    tokens.extend_from_slice(&[RecordToken::Key("id"), RecordToken::Place(feeder, event)])
}

/// The beginning of a list.
#[tactic(auto, unfolding(crate::specs::Field::list_symbols))]
pub fn add_list<'a>(tokens: &mut Vec<RecordToken<'a>>, name: &'static str) -> Result<(), AllocError>
    ensures { OnOk result (symbols_of tokens.new.items ≡ symbols_of tokens.old.items ++ list_symbols name.now) }
{
    tokens.extend_from_slice(&[RecordToken::Key(name), RecordToken::BeginList])
}

/// The end of a list, and of its record.
#[tactic(auto, unfolding(crate::specs::Field::end_symbols))]
pub fn add_end<'a>(tokens: &mut Vec<RecordToken<'a>>) -> Result<(), AllocError>
    ensures { OnOk result (symbols_of tokens.new.items ≡ symbols_of tokens.old.items ++ end_symbols) }
{
    tokens.extend_from_slice(&[RecordToken::EndList, RecordToken::EndRecord])
}
