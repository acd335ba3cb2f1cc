//! The unanswered invocations of a trace, by process.
//!
//! Processes 0 to 1,023 have a slot each, by their number, all others an entry in a map. The number of slots is
//! the least power of two that has room for the greatest of these processes so far: 1,024 slots take 40 KB.

ghost use Rattle.std.specs.Prelude.{◌≡◌, ◌<◌, ◌==◌, ℕ, ℤ, length, Some, None, OnOk, OnErr, if◌then◌else◌, ◌+◌, ◌*◌, ◌≤◌, max};
ghost use Rattle.std.specs.Ordering.{int_cmp, int_eq};
ghost use Rattle.std.specs.BTreeMap.{get};
ghost use Rattle.pairing.specs.Waiting.{slot_of, in_slot, waits_at};

use crate::invocation::Invocation;
use std::alloc::{AllocError, Global};
use std::collections::BTreeMap;
use std::marker::Model;

/// The unanswered invocation of each process.
#[derive(Drop)]
pub struct Unanswered {
    by_number: Vec<Option<Invocation>>,
    others: BTreeMap<i64, Invocation>,
}

impl Model for Unanswered {
    ghost use Rattle.pairing.specs.Waiting.{Waiting};

    ghost Value = { Waiting };

    ghost view = { λ u. record { by_number = u.by_number.items; others = u.others.entries } };
}

impl Unanswered {
    pub fn new(alloc: Global) -> Unanswered
        ensures { (process : ℤ) → waits_at result process ≡ None }
    {
        Unanswered {
            by_number: Vec::new(alloc),
            others: BTreeMap::new(alloc),
        }
    }

    pub fn get(&self, process: i64) -> Option<Invocation>
        ensures { result ≡ waits_at self.now process }
    {
        match slot_of(process) {
            Some(slot) => in_slot(&self.by_number, slot),
            None => self.others.get(&process).copied(),
        }
    }

    pub fn put(&mut self, process: i64, invocation: Invocation) -> Result<(), AllocError>
        ensures ok { OnOk result ((other : ℤ) → waits_at self.new other ≡ (if int_eq other process then Some invocation else waits_at self.old other)) }
        ensures err { OnErr result (self.new ≡ self.old) }
    {
        match slot_of(process) {
            Some(slot) => fill(&mut self.by_number, slot, invocation),
            None => insert(&mut self.others, process, invocation),
        }
    }

    pub fn remove(&mut self, process: i64)
        ensures { (other : ℤ) → waits_at self.new other ≡ (if int_eq other process then None else waits_at self.old other) }
    {
        match slot_of(process) {
            Some(slot) => empty(&mut self.by_number, slot),
            None => {
                self.others.remove(&process);
            }
        }
    }
}

/// The slot of a process, or none.
fn slot_of(process: i64) -> Option<usize>
    ensures { result ≡ slot_of process }
{
    match usize::try_from(process) {
        Ok(number) if number < 1_024 => Some(number),
        _ => None,
    }
}

fn in_slot(slots: &[Option<Invocation>], slot: usize) -> Option<Invocation>
    ensures { result ≡ in_slot slots.now slot }
{
    match slots.get(slot) {
        Some(said) => *said,
        None => None,
    }
}

fn fill(
    slots: &mut Vec<Option<Invocation>>,
    slot: usize,
    invocation: Invocation,
) -> Result<(), AllocError>
    requires { slot < 1024 }
    ensures ok { OnOk result ((other : ℕ) → in_slot slots.new.items other ≡ (if other == slot then Some invocation else in_slot slots.old.items other)) }
    ensures err { OnErr result (slots.new.items ≡ slots.old.items) }
{
    reach(slots, slot)?;
    slots[slot] = Some(invocation);
    Ok(())
}

/// Adds empty slots until there is this one.
fn reach(slots: &mut Vec<Option<Invocation>>, slot: usize) -> Result<(), AllocError>
    requires { slot < 1024 }
    ensures ok { OnOk result (slot < length slots.new.items) }
    ensures few { length slots.new.items ≤ max (length slots.old.items) (2 * (slot + 1)) }
    ensures kept { (other : ℕ) → in_slot slots.new.items other ≡ in_slot slots.old.items other }
    ensures err { OnErr result (slots.new.items ≡ slots.old.items) }
{
    if slots.len() <= slot {
        slots.resize((slot + 1).next_power_of_two(), None)?;
    }
    Ok(())
}

fn empty(slots: &mut Vec<Option<Invocation>>, slot: usize)
    ensures { (other : ℕ) → in_slot slots.new.items other ≡ (if other == slot then None else in_slot slots.old.items other) }
{
    if slot < slots.len() {
        slots[slot] = None;
    }
}

fn insert(
    others: &mut BTreeMap<i64, Invocation>,
    process: i64,
    invocation: Invocation,
) -> Result<(), AllocError>
    ensures ok { OnOk result ((other : ℤ) → get int_cmp others.new other ≡ (if int_eq other process then Some invocation else get int_cmp others.old other)) }
    ensures err { OnErr result (others.new.entries ≡ others.old.entries) }
{
    others.insert(process, invocation)?;
    Ok(())
}
