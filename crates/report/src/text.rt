//! The report of a run.

ghost use Rattle.std.specs.Prelude.{◌≡◌, ◌<◌, Err, IfErr, IfOk, IfSome, IsSome, OnOk, List, Option, ℕ, flat_map, ◌++◌, string_bytes, length};
ghost use Rattle.std.specs.Io.KnownBytes.{Appends};
ghost use Rattle.shards.specs.Closing.{book_of};
ghost use Rattle.report.specs.Finding.{IsOfTower};
ghost use Rattle.report.specs.Order.{IsAsked, order_line};
ghost use Rattle.report.specs.Report.{IsReport, culprit_line};

use crate::batch::{Batch, sections};
use crate::culprit::culprits_in;
use crate::fault::ReportFault;
use crate::notes::push_logs;
use crate::order::{order_of, push_order};
use intervals::{OpId, RegId};
use logs::Run;
use phrases::{name_of, push_printed};
use shards::Closed;
use std::alloc::{AllocError, Global};
use std::io::Write;
use std::thread::Threads;
use tower_file::Tower;

/// Writes the report of a run over the registers of a tower, with the order of a register where one is asked for,
/// in one write and one flush. The run and the register have to be of the tower.
pub fn report<R: Threads + Sync, W: Write>(
    rt: &R,
    alloc: Global,
    tower: &Tower,
    run: &Run,
    order: Option<RegId>,
    out: &mut W,
) -> Result<(), ReportFault>
    requires of_tower { IsOfTower tower.now run.now.closed }
    requires order { IfSome order (λ id. id.0 < length tower.now.registers) }
    ensures report { OnOk result ((text : List ℕ) × IsReport tower.now run.now.closed run.now.logs.items order text × Appends (W.contents out.old) (W.contents out.new) text) }
    ensures memory { result ≡ Err ReportFault.Memory → out.new ≡ out.old }
{
    let text = report_text(rt, alloc, tower, run, order)?;
    write_whole(&text, out)
}

/// Writes a text in one write and one flush.
pub fn write_whole<W: Write>(text: &String, out: &mut W) -> Result<(), ReportFault>
    ensures text { OnOk result (Appends (W.contents out.old) (W.contents out.new) (string_bytes text.now)) }
    ensures write { IfErr result (λ fault. fault ≡ ReportFault.Write) }
{
    out.write_all(text.as_bytes())?;
    out.flush()?;
    Ok(())
}

fn report_text(
    rt: &(impl Threads + Sync),
    alloc: Global,
    tower: &Tower,
    run: &Run,
    order: Option<RegId>,
) -> Result<String, ReportFault>
    requires of_tower { IsOfTower tower.now run.now.closed }
    requires order { IfSome order (λ id. id.0 < length tower.now.registers) }
    ensures report { IfOk result (λ text. IsReport tower.now run.now.closed run.now.logs.items order (string_bytes text)) }
    ensures memory { IfErr result (λ fault. fault ≡ ReportFault.Memory) }
{
    let Batch { mut text, failing } = sections(rt, alloc, tower, &run.closed)?;
    let culprits = culprits_in(alloc, tower, &failing)?;
    push_culprits(&mut text, tower, &culprits)?;
    push_logs(&mut text, tower, &run.logs)?;
    push_asked(&mut text, alloc, tower, &run.closed, order)?;
    Ok(text)
}

fn push_asked(
    text: &mut String,
    alloc: Global,
    tower: &Tower,
    closed: &Closed,
    order: Option<RegId>,
) -> Result<(), ReportFault>
    requires there { IfSome order (λ id. IsSome (book_of closed.now id.0)) }
    ensures asked { OnOk result ((asked : Option (RegId × Option (List OpId))) × IsAsked closed.now order asked × (string_bytes text.new ≡ string_bytes text.old ++ order_line tower.now.registers asked)) }
    ensures memory { IfErr result (λ fault. fault ≡ ReportFault.Memory) }
{
    let Some(id) = order else {
        return Ok(());
    };
    let found = order_of(alloc, closed, id)?;
    push_order(text, tower, id, &found)?;
    Ok(())
}

fn push_culprits(text: &mut String, tower: &Tower, culprits: &[RegId]) -> Result<(), AllocError>
    ensures { OnOk result (string_bytes text.new ≡ string_bytes text.old ++ flat_map (culprit_line tower.now.registers) culprits.now) }
{
    for culprit in culprits {
        text.push_str("culprit ")?;
        push_printed(text, name_of(tower, *culprit))?;
        text.push_str("\n")?;
    }
    Ok(())
}
