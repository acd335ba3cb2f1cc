//! What the failures of registers rest on: elements that were left out.

ghost use Rattle.std.specs.Prelude.{◌≡◌, ◌==◌, ◌&&◌, ◌<◌, ◌++◌, ◌∷◌, [], ℕ, Bool, List, IfOk, OnOk, length, flat_map, if◌then◌else◌};
ghost use Rattle.std.specs.List.{list_any};
ghost use Rattle.pairing.specs.declared.about.About.{About as AnAbout};
ghost use Rattle.report.specs.Doubt.{AreDoubts, change_rests_on, is_of_operation, is_slot_of, is_unread, is_value_of, left_at, place_left, left_in, left_out_at, rests_at, rests_on, touches, touches_one, would_write};
ghost use Rattle.report.specs.Doubting.{AreNotedSoFar, touches_slot};
ghost use Rattle.register_book.specs.Fault.{operations_in, ops_in_roles, roles_of};

use crate::finding::Finding;
use intervals::{Op, OpId, Value};
use jepsen_form::Written;
use logs::{Line, Log, What};
use pairing::About;
use register_book::{Fault, InRole, Witness};
use shards::VerdictChange;
use std::alloc::{AllocError, Global};

/// The elements that were left out and are of a register, and those of them on which its failure rests. An element is
/// given by the number of its trace and its place there.
#[derive(Drop)]
pub struct Doubt {
    pub left_out: Vec<(usize, u64)>,
    pub rests_on: Vec<(usize, u64)>,
}

/// What is in doubt of each register, by number and by what is found of it. The logs are gone over once.
pub fn doubts_of(
    alloc: Global,
    findings: &[Finding],
    logs: &[Log],
) -> Result<Vec<Doubt>, AllocError>
    ensures { IfOk result (λ doubts. AreDoubts findings.now logs.now doubts.items) }
{
    let mut doubts = no_doubts(alloc, findings)?;
    for feeder in 0..logs.len() {
        note_log(&mut doubts, findings, feeder, &logs[feeder])?;
    }
    Ok(doubts)
}

/// Of each register that nothing was left out.
fn no_doubts(alloc: Global, findings: &[Finding]) -> Result<Vec<Doubt>, AllocError>
    ensures { IfOk result (λ doubts. AreNotedSoFar findings.now doubts.items (λ test. [])) }
{
    let mut doubts = Vec::new(alloc);
    for _ in findings {
        doubts.push(Doubt {
            left_out: Vec::new(alloc),
            rests_on: Vec::new(alloc),
        })?;
    }
    Ok(doubts)
}

fn note_log(
    doubts: &mut Vec<Doubt>,
    findings: &[Finding],
    feeder: usize,
    log: &Log,
) -> Result<(), AllocError>
    ensures { OnOk result ((left : (AnAbout → Bool) → List (ℕ × ℕ)) → AreNotedSoFar findings.now doubts.old.items left → AreNotedSoFar findings.now doubts.new.items (λ test. left test ++ left_in test feeder log.now)) }
{
    for line in &log.lines {
        note_line(doubts, findings, feeder, line)?;
    }
    Ok(())
}

fn note_line(
    doubts: &mut Vec<Doubt>,
    findings: &[Finding],
    feeder: usize,
    line: &Line,
) -> Result<(), AllocError>
    ensures { OnOk result ((left : (AnAbout → Bool) → List (ℕ × ℕ)) → AreNotedSoFar findings.now doubts.old.items left → AreNotedSoFar findings.now doubts.new.items (λ test. left test ++ left_at test feeder line.now)) }
{
    match &line.what {
        What::Refused(left_out) => note(doubts, findings, (feeder, line.event), &left_out.about),
        What::Answered(..) => Ok(()),
    }
}

/// Notes an element that was left out, where it is of a register.
fn note(
    doubts: &mut Vec<Doubt>,
    findings: &[Finding],
    at: (usize, u64),
    about: &About,
) -> Result<(), AllocError>
    ensures { OnOk result ((left : (AnAbout → Bool) → List (ℕ × ℕ)) → AreNotedSoFar findings.now doubts.old.items left → AreNotedSoFar findings.now doubts.new.items (λ test. left test ++ (if test about.now then at ∷ [] else []))) }
{
    let Some(register) = about.register else {
        return Ok(());
    };
    let number = register.0 as usize;
    match (findings.get(number), doubts.get(number)) {
        (Some(finding), Some(_)) => add(doubts, number, at, rests_on(&finding.witness, about)),
        _ => Ok(()),
    }
}

/// Adds an element to those of the register of this number.
fn add(
    doubts: &mut Vec<Doubt>,
    number: usize,
    at: (usize, u64),
    rests: bool,
) -> Result<(), AllocError>
    requires there { number < length doubts.old.items }
    ensures many { OnOk result (length doubts.new.items ≡ length doubts.old.items) }
    ensures left_out { OnOk result ((other : ℕ) → left_out_at doubts.new.items other ≡ left_out_at doubts.old.items other ++ (if number == other then at ∷ [] else [])) }
    ensures rests_on { OnOk result ((other : ℕ) → rests_at doubts.new.items other ≡ rests_at doubts.old.items other ++ (if (number == other) && rests then at ∷ [] else [])) }
{
    let doubt = &mut doubts[number];
    doubt.left_out.push(at)?;
    if rests {
        doubt.rests_on.push(at)?;
    }
    Ok(())
}

/// Whether the failure of a register, if it fails, rests on an element of it that was left out.
pub fn rests_on(witness: &Option<Witness>, about: &About) -> bool
    ensures { result ≡ rests_on witness.now about.now }
{
    match witness {
        Some(witness) => touches_one(&witness.roles(), about),
        None => false,
    }
}

#[tactic(auto, using(crate::proofs::Doubts::any_slot))]
fn touches_one(slots: &[Option<InRole>], about: &About) -> bool
    ensures { result ≡ touches_one (ops_in_roles slots.now) about.now }
{
    about.claims || is_unread(about.written) || touches_any(slots, about)
}

/// Whether a failure rests on an element that was left out of its register, by the change of a verdict that tells of it.
pub fn change_rests_on(change: &VerdictChange, about: &About) -> bool
    ensures { result ≡ change_rests_on change.now about.now }
{
    match change.fault {
        Some(fault) => {
            about.claims
                || is_unread(about.written)
                || is_of_any(fault, about.operation)
                || would_write_any(&change.values, about.written)
        }
        None => false,
    }
}

/// Whether an operation is one of a fault.
fn is_of_any(fault: Fault, operation: Option<OpId>) -> bool
    ensures { result ≡ list_any (is_slot_of operation) (operations_in fault) }
{
    fault
        .operations()
        .iter()
        .any(|slot| is_slot_of(operation, *slot))
}

fn is_slot_of(operation: Option<OpId>, slot: Option<OpId>) -> bool
    ensures { result ≡ is_slot_of operation slot }
{
    match slot {
        Some(id) => is_of_operation(id, operation),
        None => false,
    }
}

fn would_write_any(values: &[Option<Value>], written: Written) -> bool
    ensures { result ≡ list_any (is_value_of written) values.now }
{
    values.iter().any(|slot| is_value_of(written, *slot))
}

fn is_value_of(written: Written, slot: Option<Value>) -> bool
    ensures { result ≡ is_value_of written slot }
{
    match slot {
        Some(value) => would_write(value, written),
        None => false,
    }
}

fn touches_any(slots: &[Option<InRole>], about: &About) -> bool
    ensures { result ≡ list_any (touches_slot about.now) slots.now }
{
    slots.iter().any(|slot| touches_slot(about, slot))
}

fn touches_slot(about: &About, slot: &Option<InRole>) -> bool
    ensures { result ≡ touches_slot about.now slot.now }
{
    match slot {
        Some(one) => touches(about, &one.op),
        None => false,
    }
}

fn touches(about: &About, op: &Op) -> bool
    ensures { result ≡ touches about.now op.now }
{
    is_of_operation(op.id, about.operation) || would_write(op.value(), about.written)
}

fn is_of_operation(id: OpId, operation: Option<OpId>) -> bool
    ensures { result ≡ is_of_operation id operation }
{
    match operation {
        Some(edited) => edited == id,
        None => false,
    }
}

/// Whether an element would have written this value, where it can be read.
pub fn would_write(value: Value, written: Written) -> bool
    ensures { result ≡ would_write value written }
{
    match written {
        Written::Known(written) => written == value,
        Written::Nothing | Written::Unread => false,
    }
}

fn is_unread(written: Written) -> bool
    ensures { result ≡ is_unread written }
{
    match written {
        Written::Unread => true,
        Written::Nothing | Written::Known(_) => false,
    }
}
