//! The records of operations.

ghost use Rattle.std.specs.Prelude.{◌≡◌, ◌++◌, OnOk, flat_map};
ghost use Rattle.intervals.specs.Operation.{is_write};
ghost use Rattle.register_book.specs.Fault.{ops_in_roles};
ghost use Rattle.records.specs.Symbol.{symbols_of};
ghost use Rattle.records.specs.Operation.{act_symbols, act_word, head_symbols, moment_symbols, op_spot, op_symbols, part_symbols, process_symbols, text_symbols};

use crate::spot::add_spot;
use crate::token::RecordToken;
use crate::value::{end_token, integer_token, part_token, value_token};
use intervals::{Op, OpId};
use places::{Location, Places};
use register_book::InRole;
use std::alloc::AllocError;

/// Adds the record of each operation in the slots.
pub fn add_ops<'a>(
    tokens: &mut Vec<RecordToken<'a>>,
    places: &Places,
    slots: &[Option<InRole<'a>>],
) -> Result<(), AllocError>
    ensures { OnOk result (symbols_of tokens.new.items ≡ symbols_of tokens.old.items ++ flat_map (op_symbols places.now) (ops_in_roles slots.now)) }
{
    for slot in slots {
        if let Some(one) = slot {
            add_op(tokens, places, &one.op)?;
        }
    }
    Ok(())
}

#[tactic(auto, unfolding(crate::specs::Operation::op_symbols))]
fn add_op<'a>(
    tokens: &mut Vec<RecordToken<'a>>,
    places: &Places,
    op: &Op<'a>,
) -> Result<(), AllocError>
    ensures { OnOk result (symbols_of tokens.new.items ≡ symbols_of tokens.old.items ++ op_symbols places.now op.now) }
{
    add_head(tokens, op.id)?;
    add_process(tokens, op.process)?;
    add_act(tokens, op)?;
    add_moments(tokens, op)?;
    add_texts(tokens, op)?;
    add_spot(tokens, spot_of(places, op))?;
    tokens.push(RecordToken::EndRecord)?;
    Ok(())
}

/// Where the invocation of an operation is.
fn spot_of(places: &Places, op: &Op) -> Option<Location>
    ensures { result ≡ op_spot places.now op.now }
{
    places.locate(u64::from(op.id.feeder), op.id.event)
}

fn add_head<'a>(tokens: &mut Vec<RecordToken<'a>>, id: OpId) -> Result<(), AllocError>
    ensures { OnOk result (symbols_of tokens.new.items ≡ symbols_of tokens.old.items ++ head_symbols id) }
{
    tokens.extend_from_slice(&[
        RecordToken::BeginRecord,
        RecordToken::Key("id"),
        RecordToken::Id(id),
    ])
}

fn add_process<'a>(tokens: &mut Vec<RecordToken<'a>>, process: i64) -> Result<(), AllocError>
    ensures { OnOk result (symbols_of tokens.new.items ≡ symbols_of tokens.old.items ++ process_symbols process) }
{
    tokens.extend_from_slice(&[RecordToken::Key("process"), integer_token(process)])
}

fn add_act<'a>(tokens: &mut Vec<RecordToken<'a>>, op: &Op) -> Result<(), AllocError>
    ensures { OnOk result (symbols_of tokens.new.items ≡ symbols_of tokens.old.items ++ act_symbols op.now) }
{
    tokens.extend_from_slice(&[
        RecordToken::Key("f"),
        RecordToken::Word(act_word(op)),
        RecordToken::Key("value"),
        value_token(op.value()),
    ])
}

fn add_moments<'a>(tokens: &mut Vec<RecordToken<'a>>, op: &Op) -> Result<(), AllocError>
    ensures { OnOk result (symbols_of tokens.new.items ≡ symbols_of tokens.old.items ++ moment_symbols op.now) }
{
    tokens.extend_from_slice(&[
        RecordToken::Key("begin"),
        RecordToken::Number(op.begin.0),
        RecordToken::Key("end"),
        end_token(op.end),
    ])
}

fn add_texts<'a>(tokens: &mut Vec<RecordToken<'a>>, op: &Op<'a>) -> Result<(), AllocError>
    ensures { OnOk result (symbols_of tokens.new.items ≡ symbols_of tokens.old.items ++ text_symbols op.now) }
{
    tokens.extend_from_slice(&[
        RecordToken::Key("invocation"),
        RecordToken::Text(op.parts.invocation),
    ])?;
    add_part(tokens, "answer", op.parts.answer)?;
    add_part(tokens, "amendment", op.parts.amendment)
}

fn add_part<'a>(
    tokens: &mut Vec<RecordToken<'a>>,
    name: &'static str,
    part: Option<&'a [u8]>,
) -> Result<(), AllocError>
    ensures { OnOk result (symbols_of tokens.new.items ≡ symbols_of tokens.old.items ++ part_symbols name.now part.entry) }
{
    tokens.extend_from_slice(&[RecordToken::Key(name), part_token(part)])
}

fn act_word(op: &Op) -> &'static str
    ensures { result.now ≡ act_word (is_write op.now) }
{
    if op.is_write() { "write" } else { "read" }
}
