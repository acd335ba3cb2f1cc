//! The records of what a watcher is told.

ghost use Rattle.std.specs.Prelude.{◌≡◌, ◌++◌, ◌∷◌, [], OnOk};
ghost use Rattle.phrases.specs.Names.{register_name};
ghost use Rattle.records.specs.Json.{json_text};
ghost use Rattle.records.specs.Notice.{change_end, change_symbols, changed_symbols, ended_symbols, fault_field, fault_ids_symbols, notice_symbols, optional_fault_symbols};
ghost use Rattle.records.specs.Symbol.{symbols_of};

use crate::fault::add_fault_head;
use crate::field::{add_flag, add_number, add_place, add_text, add_type, add_word};
use crate::line::{Notation, push_record};
use crate::log::{add_broken, add_refused};
use crate::register::add_doubt_list;
use crate::token::RecordToken;
use logs::Notice;
use phrases::{kind_word, name_of};
use register_book::Fault;
use report::Doubt;
use shards::VerdictChange;
use std::alloc::{AllocError, Global};
use tower_file::Tower;

/// Adds the record of a notice in JSON, with its line end. What is in doubt is of the register whose verdict changed.
pub fn push_notice(
    alloc: Global,
    text: &mut Vec<u8>,
    tower: &Tower,
    notice: &Notice,
    doubt: &Doubt,
) -> Result<(), AllocError>
    ensures { OnOk result (text.new.items ≡ text.old.items ++ json_text (notice_symbols tower.now.registers notice.now doubt.now.left_out.items doubt.now.rests_on.items) ++ 10 ∷ []) }
{
    let mut tokens = Vec::new(alloc);
    add_notice(&mut tokens, tower, notice, doubt)?;
    push_record(alloc, Notation::Json, text, &tokens)
}

fn add_notice<'a>(
    tokens: &mut Vec<RecordToken<'a>>,
    tower: &'a Tower,
    notice: &Notice,
    doubt: &Doubt,
) -> Result<(), AllocError>
    ensures { OnOk result (symbols_of tokens.new.items ≡ symbols_of tokens.old.items ++ notice_symbols tower.now.registers notice.now doubt.now.left_out.items doubt.now.rests_on.items) }
{
    match notice {
        Notice::Changed {
            feeder,
            place,
            line,
            change,
        } => {
            let name = name_of(tower, change.register);
            add_change(tokens, name, u64::from(*feeder), *place, change)?;
            let left_out = doubt.left_out.as_slice();
            add_change_end(tokens, left_out, doubt.rests_on.as_slice(), *line)
        }
        Notice::Refused {
            feeder,
            place,
            line,
            left_out,
        } => add_refused(tokens, u64::from(*feeder), *place, *line, &left_out.code),
        Notice::Broke {
            feeder,
            broken,
            line,
        } => add_broken(tokens, u64::from(*feeder), *broken, *line),
        Notice::Ended { feeder, elements } => add_ended(tokens, u64::from(*feeder), *elements),
    }
}

/// The record of a change of a verdict, up to what is in doubt.
#[tactic(auto, unfolding(crate::specs::Notice::change_symbols))]
fn add_change<'a>(
    tokens: &mut Vec<RecordToken<'a>>,
    name: &'a [u8],
    feeder: u64,
    event: u64,
    change: &VerdictChange,
) -> Result<(), AllocError>
    ensures { OnOk result (symbols_of tokens.new.items ≡ symbols_of tokens.old.items ++ change_symbols name.now feeder event change.now) }
{
    add_type(tokens, "change")?;
    add_place(tokens, feeder, event)?;
    add_changed(tokens, name, change)?;
    add_fault_field(tokens, change.fault)
}

/// What is in doubt of the register of a change, and the line of its element, with which the record ends.
#[tactic(auto, unfolding(crate::specs::Notice::change_end))]
fn add_change_end<'a>(
    tokens: &mut Vec<RecordToken<'a>>,
    left_out: &[(usize, u64)],
    rests_on: &[(usize, u64)],
    line: u64,
) -> Result<(), AllocError>
    ensures { OnOk result (symbols_of tokens.new.items ≡ symbols_of tokens.old.items ++ change_end left_out.now rests_on.now line) }
{
    add_doubt_list(tokens, left_out, rests_on)?;
    tokens.push(RecordToken::EndList)?;
    add_number(tokens, "line", line)?;
    tokens.push(RecordToken::EndRecord)?;
    Ok(())
}

/// A register as a change of its verdict left it.
#[tactic(auto, unfolding(crate::specs::Notice::changed_symbols))]
fn add_changed<'a>(
    tokens: &mut Vec<RecordToken<'a>>,
    name: &'a [u8],
    change: &VerdictChange,
) -> Result<(), AllocError>
    ensures { OnOk result (symbols_of tokens.new.items ≡ symbols_of tokens.old.items ++ changed_symbols name.now change.now) }
{
    add_text(tokens, "register", name)?;
    add_word(tokens, "kind", kind_word(change.kind))?;
    add_flag(tokens, "holds", change.holds)?;
    add_number(tokens, "operations", change.operations)
}

#[tactic(auto, unfolding(crate::specs::Notice::fault_field))]
fn add_fault_field<'a>(
    tokens: &mut Vec<RecordToken<'a>>,
    fault: Option<Fault>,
) -> Result<(), AllocError>
    ensures { OnOk result (symbols_of tokens.new.items ≡ symbols_of tokens.old.items ++ fault_field fault) }
{
    tokens.push(RecordToken::Key("fault"))?;
    add_optional_fault(tokens, fault)
}

fn add_optional_fault<'a>(
    tokens: &mut Vec<RecordToken<'a>>,
    fault: Option<Fault>,
) -> Result<(), AllocError>
    ensures { OnOk result (symbols_of tokens.new.items ≡ symbols_of tokens.old.items ++ optional_fault_symbols fault) }
{
    match fault {
        Some(fault) => add_fault_ids(tokens, fault),
        None => {
            tokens.push(RecordToken::Nothing)?;
            Ok(())
        }
    }
}

fn add_fault_ids<'a>(tokens: &mut Vec<RecordToken<'a>>, fault: Fault) -> Result<(), AllocError>
    ensures { OnOk result (symbols_of tokens.new.items ≡ symbols_of tokens.old.items ++ fault_ids_symbols fault) }
{
    add_fault_head(tokens, fault)?;
    tokens.push(RecordToken::EndRecord)?;
    Ok(())
}

/// Adds the record of the end of a trace.
#[tactic(auto, unfolding(crate::specs::Notice::ended_symbols))]
fn add_ended<'a>(
    tokens: &mut Vec<RecordToken<'a>>,
    feeder: u64,
    elements: u64,
) -> Result<(), AllocError>
    ensures { OnOk result (symbols_of tokens.new.items ≡ symbols_of tokens.old.items ++ ended_symbols feeder elements) }
{
    add_type(tokens, "ended")?;
    add_number(tokens, "trace", feeder)?;
    add_number(tokens, "elements", elements)?;
    tokens.push(RecordToken::EndRecord)?;
    Ok(())
}
