//! The trace of the operations that show how the registers of a run fail.

ghost use Rattle.std.specs.Prelude.{◌≡◌, ◌≢◌, ◌++◌, IfErr, IfOk, List, OnOk, flat_map, length, true, ℕ};
ghost use Rattle.std.specs.List.{slice_get};
ghost use Rattle.intervals.specs.Table.{ops_in_slots};
ghost use Rattle.report.specs.Finding.{IsOfTower};
ghost use Rattle.shards.specs.Closing.{book_of};
ghost use Rattle.excerpt.specs.Event.{operation_events};
ghost use Rattle.excerpt.specs.Excerpt.{AreParts, FailsAlike, IsTextOfExcerpt, IsPartBy, IsPartIn};

use crate::alike::all_alike;
use crate::event::{Shared, push_claim, push_operation};
use crate::fault::ExcerptFault;
use crate::shown::shown_of;
use feeders::{Pages, RunFault, Setup, run_in_turn};
use intervals::{Kind, Op, RegId};
use jepsen_form::MomentField;
use phrases::kind_word;
use report::laws::a_run_is_of_its_tower;
use report::{Finding, count_broken, count_refused, find_all};
use shards::{Closed, NoGate};
use std::alloc::{AllocError, Global};
use std::sync::Wait;
use tower_file::Tower;

/// The trace of the operations that show how the registers of a run fail; empty where none fails. The run has to be of
/// the tower.
pub fn excerpt_of<R: Wait>(
    rt: &R,
    alloc: Global,
    tower: &Tower,
    closed: &Closed,
    moments: MomentField,
) -> Result<Vec<u8>, ExcerptFault>
    requires of_tower { IsOfTower tower.now closed.now }
    ensures text { IfOk result (λ text. IsTextOfExcerpt tower.now moments closed.now text.items) }
{
    let findings = find_all(alloc, tower, closed)?;
    let text = parts_of(alloc, tower, closed, &findings, moments)?;
    if fails_alike(rt, alloc, tower, &text, &findings, moments)? {
        Ok(text)
    } else {
        Err(ExcerptFault::Unlike)
    }
}

/// Whether in a run of this text alone, on this thread, each register fails in the same way or holds, and the text is taken
/// whole.
fn fails_alike<R: Wait>(
    rt: &R,
    alloc: Global,
    tower: &Tower,
    text: &[u8],
    findings: &[Finding],
    moments: MomentField,
) -> Result<bool, RunFault>
    ensures { IfOk result (λ alike. alike ≡ true → FailsAlike tower.now moments text.now findings.now) }
{
    a_run_is_of_its_tower();
    let pages = Pages::new(alloc)?;
    let readers = Vec::from_slice(alloc, &[text])?;
    let setup = Setup {
        rt,
        alloc,
        tower,
        field: moments,
        shards: 1,
    };
    let run = run_in_turn(setup, readers, &pages, &NoGate)?;
    let again = find_all(alloc, tower, &run.closed)?;
    Ok(all_alike(findings, &again) && count_broken(&run.logs) == 0 && count_refused(&run.logs) == 0)
}

/// The events of the operations that show how the registers fail, by number.
fn parts_of(
    alloc: Global,
    tower: &Tower,
    closed: &Closed,
    findings: &[Finding],
    moments: MomentField,
) -> Result<Vec<u8>, AllocError>
    requires many { length findings.now ≡ length tower.now.registers }
    ensures { IfOk result (λ text. AreParts moments tower.now closed.now 0 findings.now text.items) }
{
    let mut text = Vec::new(alloc);
    for number in 0..tower.len() {
        push_part(
            alloc,
            &mut text,
            tower,
            closed,
            RegId(number as u32),
            &findings[number],
            moments,
        )?;
    }
    Ok(text)
}

/// Adds the events of the operations that show how a register fails; nothing where there is none of that number.
fn push_part(
    alloc: Global,
    text: &mut Vec<u8>,
    tower: &Tower,
    closed: &Closed,
    id: RegId,
    finding: &Finding,
    moments: MomentField,
) -> Result<(), AllocError>
    ensures { OnOk result ((part : List ℕ) × IsPartIn moments (slice_get tower.now.registers id.0) (book_of closed.now id.0) finding.now part × (text.new.items ≡ text.old.items ++ part)) }
{
    match (tower.name(id), tower.claim(id), closed.book(id)) {
        (Some(name), Some(claim), Some(book)) => {
            let shared = Shared { name, moments };
            push_failure(alloc, text, shared, claim.kind, book.slots(), finding)
        }
        _ => Ok(()),
    }
}

/// Adds the claim of another kind than the tower says, and the events; nothing where the register holds.
fn push_failure(
    alloc: Global,
    text: &mut Vec<u8>,
    shared: Shared,
    claimed: Kind,
    slots: &[Option<Op>],
    finding: &Finding,
) -> Result<(), AllocError>
    ensures { OnOk result ((part : List ℕ) × IsPartBy shared.entry.moments shared.entry.name.now claimed (ops_in_slots slots.now) finding.now.kind finding.now.witness part × (text.new.items ≡ text.old.items ++ part)) }
{
    let Some(witness) = &finding.witness else {
        return Ok(());
    };
    if kind_word(finding.kind) != kind_word(claimed) {
        push_claim(alloc, text, shared.name, finding.kind)?;
    }
    let shown = shown_of(alloc, slots, witness)?;
    push_operations(alloc, text, shared, &shown)
}

fn push_operations(
    alloc: Global,
    text: &mut Vec<u8>,
    shared: Shared,
    ops: &[Op],
) -> Result<(), AllocError>
    ensures { OnOk result (text.new.items ≡ text.old.items ++ flat_map (operation_events shared.entry.moments shared.entry.name.now) ops.now) }
{
    for op in ops {
        push_operation(alloc, text, shared, op)?;
    }
    Ok(())
}
