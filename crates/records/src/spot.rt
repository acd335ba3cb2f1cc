//! The lines and the bytes of elements.

ghost use Rattle.std.specs.Prelude.{◌≡◌, ◌++◌, OnOk, Option};
ghost use Rattle.records.specs.Spot.{byte_symbol, holder_record, holder_spot, known_symbol, line_symbol, spot_record, spot_symbols};
ghost use Rattle.records.specs.Symbol.{symbol_of, symbols_of};

use crate::token::RecordToken;
use intervals::Holder;
use places::{Location, Places};
use std::alloc::AllocError;

/// Adds the line of an element and its first byte.
#[tactic(auto, unfolding(crate::specs::Spot::spot_symbols))]
pub fn add_spot<'a>(
    tokens: &mut Vec<RecordToken<'a>>,
    spot: Option<Location>,
) -> Result<(), AllocError>
    ensures { OnOk result (symbols_of tokens.new.items ≡ symbols_of tokens.old.items ++ spot_symbols spot) }
{
    tokens.extend_from_slice(&[
        RecordToken::Key("line"),
        line_token(spot),
        RecordToken::Key("byte"),
        byte_token(spot),
    ])
}

fn line_token<'a>(spot: Option<Location>) -> RecordToken<'a>
    ensures { symbol_of result ≡ line_symbol spot }
{
    match spot {
        Some(spot) => RecordToken::Number(spot.place.line as u64),
        None => RecordToken::Nothing,
    }
}

fn byte_token<'a>(spot: Option<Location>) -> RecordToken<'a>
    ensures { symbol_of result ≡ byte_symbol spot }
{
    match spot {
        Some(spot) => RecordToken::Number(spot.start as u64),
        None => RecordToken::Nothing,
    }
}

/// A number that may not be known.
pub fn known_token<'a>(number: Option<usize>) -> RecordToken<'a>
    ensures { symbol_of result ≡ known_symbol number }
{
    match number {
        Some(number) => RecordToken::Number(number as u64),
        None => RecordToken::Nothing,
    }
}

/// Adds where the element is that holds a value, as a record.
pub fn add_holder_place<'a>(
    tokens: &mut Vec<RecordToken<'a>>,
    places: &Places,
    holder: Holder,
) -> Result<(), AllocError>
    ensures { OnOk result (symbols_of tokens.new.items ≡ symbols_of tokens.old.items ++ holder_record places.now holder) }
{
    add_spot_record(tokens, spot_of_holder(places, holder))
}

fn spot_of_holder(places: &Places, holder: Holder) -> Option<Location>
    ensures { result ≡ holder_spot places.now holder }
{
    match holder {
        Holder::Op(id) => places.locate(u64::from(id.feeder), id.event),
        Holder::Initial => None,
    }
}

fn add_spot_record<'a>(
    tokens: &mut Vec<RecordToken<'a>>,
    spot: Option<Location>,
) -> Result<(), AllocError>
    ensures { OnOk result (symbols_of tokens.new.items ≡ symbols_of tokens.old.items ++ spot_record spot) }
{
    match spot {
        Some(spot) => tokens.extend_from_slice(&[
            RecordToken::BeginRecord,
            RecordToken::Key("line"),
            RecordToken::Number(spot.place.line as u64),
            RecordToken::Key("byte"),
            RecordToken::Number(spot.start as u64),
            RecordToken::EndRecord,
        ]),
        None => {
            tokens.push(RecordToken::Nothing)?;
            Ok(())
        }
    }
}
