//! The registers whose failures rest on elements that were left out, and what a summary says of them.

ghost use Rattle.std.specs.Prelude.{◌≡◌, ◌++◌, IfOk, OnOk, flat_map, is_none, is_some, length, string_bytes};
ghost use Rattle.std.specs.List.{slice_get};
ghost use Rattle.report.specs.Doubt.{rests_at, witness_at};
ghost use Rattle.report.specs.Finding.{IsOfTower};
ghost use Rattle.report.specs.Doubted.{AreAllInDoubt, any_for_sure, doubted_count_text, doubted_name, doubted_names, doubted_of, doubted_text, fails_for_sure, first_rested, first_text, is_doubted};

use crate::doubt::{Doubt, doubts_of};
use crate::failing::{at_most, push_more};
use crate::finding::{Finding, find_all};
use intervals::RegId;
use logs::Run;
use phrases::{name_of, push_printed};
use std::alloc::{AllocError, Global};
use tower_file::Tower;

/// How many registers are named.
const NAMED: usize = 10;

/// The line of the registers in doubt: how many, and which, each with the first element on which its failure rests.
pub fn push_doubted(
    text: &mut String,
    alloc: Global,
    tower: &Tower,
    doubts: &[Doubt],
) -> Result<(), AllocError>
    ensures { OnOk result (string_bytes text.new ≡ string_bytes text.old ++ doubted_text tower.now doubts.now) }
{
    let doubted = doubted_in(alloc, tower, doubts)?;
    if doubted.len() == 0 {
        return Ok(());
    }
    push_count(text, doubted.len())?;
    push_first(text, tower, doubts, &doubted)?;
    text.push_str("\n")
}

/// The registers whose failures rest on elements that were left out, by number.
fn doubted_in(alloc: Global, tower: &Tower, doubts: &[Doubt]) -> Result<Vec<RegId>, AllocError>
    ensures { IfOk result (λ doubted. doubted.items ≡ doubted_of tower.now doubts.now) }
{
    (0..tower.len() as u32)
        .map(|number| RegId(number))
        .filter(|id| is_doubted(doubts, *id))
        .collect(alloc)
}

/// Whether of each register that fails, if any does, the failure rests on elements that were left out. The run has to be of
/// the tower.
pub fn are_all_in_doubt(alloc: Global, tower: &Tower, run: &Run) -> Result<bool, AllocError>
    requires of_tower { IsOfTower tower.now run.now.closed }
    ensures { IfOk result (AreAllInDoubt tower.now run.now.closed run.now.logs.items) }
{
    let each = find_all(alloc, tower, &run.closed)?;
    let doubts = doubts_of(alloc, &each, &run.logs)?;
    Ok(!any_for_sure(&each, &doubts))
}

fn any_for_sure(findings: &[Finding], doubts: &[Doubt]) -> bool
    ensures { result ≡ any_for_sure findings.now doubts.now }
{
    (0..findings.len()).any(|number| fails_for_sure(findings, doubts, number))
}

/// Whether the register of this number fails, and its failure rests on no element that was left out.
fn fails_for_sure(findings: &[Finding], doubts: &[Doubt], number: usize) -> bool
    ensures { result ≡ fails_for_sure findings.now doubts.now number }
{
    has_witness(findings, number) && rests_on_nothing(doubts, number)
}

fn rests_on_nothing(doubts: &[Doubt], number: usize) -> bool
    ensures { result ≡ is_none (slice_get (rests_at doubts.now number) 0) }
{
    match doubts.get(number) {
        Some(doubt) => doubt.rests_on.first().is_none(),
        None => true,
    }
}

fn has_witness(findings: &[Finding], number: usize) -> bool
    ensures { result ≡ is_some (witness_at findings.now number) }
{
    match findings.get(number) {
        Some(finding) => finding.witness.is_some(),
        None => false,
    }
}

/// Whether the failure of a register rests on an element that was left out.
pub fn is_doubted(doubts: &[Doubt], id: RegId) -> bool
    ensures { result ≡ is_doubted doubts.now id }
{
    first_rested(doubts, id).is_some()
}

/// The first element on which the failure of a register rests.
fn first_rested(doubts: &[Doubt], id: RegId) -> Option<(usize, u64)>
    ensures { result ≡ first_rested doubts.now id }
{
    match doubts.get(id.0 as usize) {
        Some(doubt) => doubt.rests_on.first().copied(),
        None => None,
    }
}

fn push_count(text: &mut String, many: usize) -> Result<(), AllocError>
    ensures { OnOk result (string_bytes text.new ≡ string_bytes text.old ++ doubted_count_text many) }
{
    write!(text, "in doubt {many}, since elements were left out:")
}

fn push_first(
    text: &mut String,
    tower: &Tower,
    doubts: &[Doubt],
    ids: &[RegId],
) -> Result<(), AllocError>
    ensures { OnOk result (string_bytes text.new ≡ string_bytes text.old ++ doubted_names tower.now doubts.now ids.now) }
{
    push_names(text, tower, doubts, at_most(ids, NAMED))?;
    push_more(text, " and ", NAMED, ids.len(), " more")
}

fn push_names(
    text: &mut String,
    tower: &Tower,
    doubts: &[Doubt],
    ids: &[RegId],
) -> Result<(), AllocError>
    ensures { OnOk result (string_bytes text.new ≡ string_bytes text.old ++ flat_map (doubted_name tower.now.registers doubts.now) ids.now) }
{
    for id in ids {
        push_name(text, tower, doubts, *id)?;
    }
    Ok(())
}

fn push_name(
    text: &mut String,
    tower: &Tower,
    doubts: &[Doubt],
    id: RegId,
) -> Result<(), AllocError>
    ensures { OnOk result (string_bytes text.new ≡ string_bytes text.old ++ doubted_name tower.now.registers doubts.now id) }
{
    text.push_str(" ")?;
    push_printed(text, name_of(tower, id))?;
    push_place(text, first_rested(doubts, id))
}

/// The place of an element, as the first of some; nothing where there is none.
pub(crate) fn push_place(text: &mut String, first: Option<(usize, u64)>) -> Result<(), AllocError>
    ensures { OnOk result (string_bytes text.new ≡ string_bytes text.old ++ first_text first) }
{
    match first {
        Some((feeder, event)) => write!(text, " (first {feeder}:{event})"),
        None => Ok(()),
    }
}
