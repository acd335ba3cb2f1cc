//! The values that a wrong read might have returned.

ghost use Rattle.std.specs.Prelude.{◌≡◌, ◌++◌, ◌∷◌, [], IfOk, OnOk, List, flat_map, map, option_map};
ghost use Rattle.intervals.specs.declared.operation.Value.{Value as AValue};
ghost use Rattle.records.specs.Allowed.{allowed_by, allowed_symbols, may_return_any, of_domain, of_initial, of_last, of_write, source_spot, source_symbol, value_fields};
ghost use Rattle.records.specs.Symbol.{symbol_of, symbols_of};

use crate::spot::add_spot;
use crate::token::RecordToken;
use crate::value::value_token;
use intervals::{Kind, Op, OpId, Value};
use places::{Location, Places};
use std::alloc::{AllocError, Global};

/// Where a value comes from: a write, the register before any write, or its domain.
#[derive(Clone, Copy)]
pub enum ValueSource {
    Write(OpId),
    Initial,
    Domain,
}

/// A value that a wrong read might have returned.
#[derive(Clone, Copy)]
pub struct Allowed {
    pub value: Value,
    pub source: ValueSource,
}

/// The values that a wrong read might have returned, by the last write that precedes it and the writes that overlap it.
pub fn allowed_by(
    alloc: Global,
    kind: Kind,
    initial: Value,
    domain: &[Value],
    last: &Option<Op>,
    over: &[Op],
) -> Result<Vec<Allowed>, AllocError>
    ensures { IfOk result (λ allowed. allowed.items ≡ allowed_by kind initial domain.now last.now over.now) }
{
    let mut allowed = Vec::new(alloc);
    if may_return_any(kind, over) {
        add_domain(&mut allowed, domain)?;
        allowed.push(of_initial(initial))?;
    } else {
        allowed.push(of_last(initial, last))?;
        add_writes(&mut allowed, over)?;
    }
    Ok(allowed)
}

/// On a safe register a read that overlaps a write may return any value of the domain.
fn may_return_any(kind: Kind, over: &[Op]) -> bool
    ensures { result ≡ may_return_any kind over.now }
{
    match kind {
        Kind::Safe => !over.is_empty(),
        Kind::Regular | Kind::Atomic => false,
    }
}

fn add_domain(allowed: &mut Vec<Allowed>, domain: &[Value]) -> Result<(), AllocError>
    ensures { OnOk result (allowed.new.items ≡ allowed.old.items ++ of_domain domain.now) }
{
    for value in domain {
        allowed.push(Allowed {
            value: *value,
            source: ValueSource::Domain,
        })?;
    }
    Ok(())
}

fn add_writes(allowed: &mut Vec<Allowed>, writes: &[Op]) -> Result<(), AllocError>
    ensures { OnOk result (allowed.new.items ≡ allowed.old.items ++ map of_write writes.now) }
{
    for write in writes {
        allowed.push(of_write(write))?;
    }
    Ok(())
}

fn of_write(write: &Op) -> Allowed
    ensures { result ≡ of_write write.now }
{
    Allowed {
        value: write.value(),
        source: ValueSource::Write(write.id),
    }
}

fn of_initial(value: Value) -> Allowed
    ensures { result ≡ of_initial value }
{
    Allowed {
        value,
        source: ValueSource::Initial,
    }
}

fn of_last(initial: Value, last: &Option<Op>) -> Allowed
    ensures { result ≡ of_last initial last.now }
{
    match last {
        Some(write) => of_write(write),
        None => of_initial(initial),
    }
}

/// Adds the records of values.
pub fn add_allowed<'a>(
    tokens: &mut Vec<RecordToken<'a>>,
    places: &Places,
    allowed: &[Allowed],
) -> Result<(), AllocError>
    ensures { OnOk result (symbols_of tokens.new.items ≡ symbols_of tokens.old.items ++ flat_map (allowed_symbols places.now) allowed.now) }
{
    for one in allowed {
        add_one(tokens, places, one)?;
    }
    Ok(())
}

fn add_one<'a>(
    tokens: &mut Vec<RecordToken<'a>>,
    places: &Places,
    one: &Allowed,
) -> Result<(), AllocError>
    ensures { OnOk result (symbols_of tokens.new.items ≡ symbols_of tokens.old.items ++ allowed_symbols places.now one.now) }
{
    tokens.push(RecordToken::BeginRecord)?;
    add_value(tokens, one)?;
    add_spot(tokens, spot_of_source(places, one.source))?;
    tokens.push(RecordToken::EndRecord)?;
    Ok(())
}

fn add_value<'a>(tokens: &mut Vec<RecordToken<'a>>, one: &Allowed) -> Result<(), AllocError>
    ensures { OnOk result (symbols_of tokens.new.items ≡ symbols_of tokens.old.items ++ value_fields one.now) }
{
    tokens.extend_from_slice(&[
        RecordToken::Key("value"),
        value_token(one.value),
        RecordToken::Key("id"),
        source_token(one.source),
    ])
}

fn spot_of_source(places: &Places, source: ValueSource) -> Option<Location>
    ensures { result ≡ source_spot places.now source }
{
    match source {
        ValueSource::Write(id) => places.locate(u64::from(id.feeder), id.event),
        ValueSource::Initial | ValueSource::Domain => None,
    }
}

fn source_token<'a>(source: ValueSource) -> RecordToken<'a>
    ensures { symbol_of result ≡ source_symbol source }
{
    match source {
        ValueSource::Write(id) => RecordToken::Id(id),
        ValueSource::Initial => RecordToken::Word("initial"),
        ValueSource::Domain => RecordToken::Word("domain"),
    }
}
