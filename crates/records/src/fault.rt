//! The records of faults.

ghost use Rattle.std.specs.Prelude.{◌≡◌, ◌++◌, OnOk};
ghost use Rattle.records.specs.Fault.{allowed_list, conflict_symbols, fault_symbols, fault_head, kind_symbols, pair_symbols, read_symbols, rest_symbols, side_value, two_symbols, values_symbols};
ghost use Rattle.records.specs.Symbol.{symbols_of};

use crate::allowed::{Allowed, add_allowed};
use crate::field::{add_end, add_list};
use crate::token::RecordToken;
use crate::value::{holder_token, value_token};
use intervals::{Holder, OpId, Value};
use places::Places;
use register_book::{Fault, Side, Witness};
use std::alloc::AllocError;

/// Adds the record of a fault, with what a wrong read might have returned.
pub fn add_fault<'a>(
    tokens: &mut Vec<RecordToken<'a>>,
    places: &Places,
    allowed: &[Allowed],
    witness: &Witness,
) -> Result<(), AllocError>
    ensures { OnOk result (symbols_of tokens.new.items ≡ symbols_of tokens.old.items ++ fault_symbols places.now allowed.now witness.now) }
{
    add_fault_head(tokens, witness.ids())?;
    add_rest(tokens, places, allowed, witness)
}

/// Adds the beginning of a fault's record: its kind, and the ids of the operations that show it.
pub fn add_fault_head<'a>(tokens: &mut Vec<RecordToken<'a>>, fault: Fault) -> Result<(), AllocError>
    ensures { OnOk result (symbols_of tokens.new.items ≡ symbols_of tokens.old.items ++ fault_head fault) }
{
    match fault {
        Fault::Wrong(read) => add_read(tokens, "wrong", read),
        Fault::Unwritten(read) => add_read(tokens, "unwritten", read),
        Fault::Split { first, second } => {
            add_two(tokens, "split", "first", first, "second", second)
        }
        Fault::Early { read, write } => add_two(tokens, "early", "read", read, "write", write),
        Fault::Crossing { a, b, c, d } => add_conflict(tokens, a, b, c, d),
    }
}

fn add_read<'a>(
    tokens: &mut Vec<RecordToken<'a>>,
    kind: &'static str,
    read: OpId,
) -> Result<(), AllocError>
    ensures { OnOk result (symbols_of tokens.new.items ≡ symbols_of tokens.old.items ++ read_symbols kind.now read) }
{
    tokens.extend_from_slice(&[
        RecordToken::BeginRecord,
        RecordToken::Key("kind"),
        RecordToken::Word(kind),
        RecordToken::Key("read"),
        RecordToken::Id(read),
    ])
}

fn add_two<'a>(
    tokens: &mut Vec<RecordToken<'a>>,
    kind: &'static str,
    name: &'static str,
    one: OpId,
    other_name: &'static str,
    other: OpId,
) -> Result<(), AllocError>
    ensures { OnOk result (symbols_of tokens.new.items ≡ symbols_of tokens.old.items ++ two_symbols kind.now name.now one other_name.now other) }
{
    tokens.extend_from_slice(&[
        RecordToken::BeginRecord,
        RecordToken::Key("kind"),
        RecordToken::Word(kind),
        RecordToken::Key(name),
        RecordToken::Id(one),
        RecordToken::Key(other_name),
        RecordToken::Id(other),
    ])
}

fn add_conflict<'a>(
    tokens: &mut Vec<RecordToken<'a>>,
    a: Holder,
    b: Holder,
    c: Holder,
    d: Holder,
) -> Result<(), AllocError>
    ensures { OnOk result (symbols_of tokens.new.items ≡ symbols_of tokens.old.items ++ conflict_symbols a b c d) }
{
    add_kind(tokens, "conflict")?;
    add_pair(tokens, "a", a, "b", b)?;
    add_pair(tokens, "c", c, "d", d)
}

fn add_kind<'a>(tokens: &mut Vec<RecordToken<'a>>, kind: &'static str) -> Result<(), AllocError>
    ensures { OnOk result (symbols_of tokens.new.items ≡ symbols_of tokens.old.items ++ kind_symbols kind.now) }
{
    tokens.extend_from_slice(&[
        RecordToken::BeginRecord,
        RecordToken::Key("kind"),
        RecordToken::Word(kind),
    ])
}

/// Two sides of a conflict.
fn add_pair<'a>(
    tokens: &mut Vec<RecordToken<'a>>,
    name: &'static str,
    one: Holder,
    other_name: &'static str,
    other: Holder,
) -> Result<(), AllocError>
    ensures { OnOk result (symbols_of tokens.new.items ≡ symbols_of tokens.old.items ++ pair_symbols name.now one other_name.now other) }
{
    tokens.extend_from_slice(&[
        RecordToken::Key(name),
        holder_token(one),
        RecordToken::Key(other_name),
        holder_token(other),
    ])
}

/// Adds the end of a fault's record.
fn add_rest<'a>(
    tokens: &mut Vec<RecordToken<'a>>,
    places: &Places,
    allowed: &[Allowed],
    witness: &Witness,
) -> Result<(), AllocError>
    ensures { OnOk result (symbols_of tokens.new.items ≡ symbols_of tokens.old.items ++ rest_symbols places.now allowed.now witness.now) }
{
    match witness {
        Witness::Wrong(_) => add_allowed_list(tokens, places, allowed),
        Witness::Crossing { b, d, .. } => add_values(tokens, d, b),
        _ => tokens.extend_from_slice(&[RecordToken::EndRecord]),
    }
}

fn add_allowed_list<'a>(
    tokens: &mut Vec<RecordToken<'a>>,
    places: &Places,
    allowed: &[Allowed],
) -> Result<(), AllocError>
    ensures { OnOk result (symbols_of tokens.new.items ≡ symbols_of tokens.old.items ++ allowed_list places.now allowed.now) }
{
    add_list(tokens, "allowed")?;
    add_allowed(tokens, places, allowed)?;
    add_end(tokens)
}

/// The values of a conflict, with which its record ends.
fn add_values<'a>(
    tokens: &mut Vec<RecordToken<'a>>,
    first: &Side,
    second: &Side,
) -> Result<(), AllocError>
    ensures { OnOk result (symbols_of tokens.new.items ≡ symbols_of tokens.old.items ++ values_symbols first.now second.now) }
{
    tokens.extend_from_slice(&[
        RecordToken::Key("first"),
        value_token(side_value(first)),
        RecordToken::Key("second"),
        value_token(side_value(second)),
        RecordToken::EndRecord,
    ])
}

fn side_value(side: &Side) -> Value
    ensures { result ≡ side_value side.now }
{
    match side {
        Side::Op(op) => op.value(),
        Side::Initial => Value::Nil,
    }
}
