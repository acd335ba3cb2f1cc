//! Values, moments, texts and holders as tokens.

ghost use Rattle.std.specs.Prelude.{◌≡◌};
ghost use Rattle.std.specs.Fmt.{signed_decimal};
ghost use Rattle.records.specs.Symbol.{number, symbol_of};
ghost use Rattle.records.specs.Value.{end_symbol, holder_symbol, part_symbol, value_symbol};

use crate::token::RecordToken;
use intervals::{Holder, Moment, Value};

/// A register's value.
pub fn value_token<'a>(value: Value) -> RecordToken<'a>
    ensures { symbol_of result ≡ value_symbol value }
{
    match value {
        Value::Nil => RecordToken::Nothing,
        Value::Int(integer) => RecordToken::Integer(integer),
    }
}

/// An integer.
pub fn integer_token<'a>(integer: i64) -> RecordToken<'a>
    ensures { symbol_of result ≡ number (signed_decimal integer) }
{
    RecordToken::Integer(integer)
}

/// The moment at which an operation ended.
pub fn end_token<'a>(end: Option<Moment>) -> RecordToken<'a>
    ensures { symbol_of result ≡ end_symbol end }
{
    match end {
        Some(moment) => RecordToken::Number(moment.0),
        None => RecordToken::Nothing,
    }
}

/// An optional lent text.
pub fn part_token<'a>(part: Option<&'a [u8]>) -> RecordToken<'a>
    ensures { symbol_of result ≡ part_symbol part.entry }
{
    match part {
        Some(part) => RecordToken::Text(part),
        None => RecordToken::Nothing,
    }
}

/// What holds a value.
pub fn holder_token<'a>(holder: Holder) -> RecordToken<'a>
    ensures { symbol_of result ≡ holder_symbol holder }
{
    match holder {
        Holder::Op(id) => RecordToken::Id(id),
        Holder::Initial => RecordToken::Word("initial"),
    }
}
