//! The writes around a wrong read, which say what it might have returned and where what it returned came from.

ghost use Rattle.std.specs.Prelude.{◌≡◌, IfOk, IsPermutation, filter, find, reverse};
ghost use Rattle.std.specs.List.Sorted.{IsNonDecreasingBy};
ghost use Rattle.intervals.specs.Operation.{overlaps, precedes, writes};
ghost use Rattle.intervals.specs.Table.{ops_in_slots};
ghost use Rattle.register_book.specs.Around.{AreAround, is_later_source, is_of_its_value, is_source};

use intervals::{Op, is_same_value, overlaps, precedes};
use std::alloc::{AllocError, Global};

/// The writes around a wrong read.
#[derive(Drop)]
pub struct WritesAround<'t> {
    /// The last write that precedes the read.
    pub last: Option<Op<'t>>,
    /// The writes that overlap the read, by beginning.
    pub over: Vec<Op<'t>>,
    /// The last write of the value of the read that precedes it.
    pub source: Option<Op<'t>>,
    /// The first write of the value of the read that the read precedes.
    pub later: Option<Op<'t>>,
}

/// The writes around a wrong read, of the operations that stand.
pub fn writes_around<'t>(
    alloc: Global,
    slots: &[Option<Op<'t>>],
    read: &Op,
) -> Result<WritesAround<'t>, AllocError>
    ensures { IfOk result (AreAround (ops_in_slots slots.now) read.now) }
{
    let writes = writes_by_beginning(alloc, slots)?;
    Ok(WritesAround {
        last: last_before(&writes, read),
        over: over_of(alloc, &writes, read)?,
        source: source_of(&writes, read),
        later: later_source_of(&writes, read),
    })
}

fn writes_by_beginning<'t>(
    alloc: Global,
    slots: &[Option<Op<'t>>],
) -> Result<Vec<Op<'t>>, AllocError>
    ensures once { IfOk result (λ sorted. IsPermutation (writes (ops_in_slots slots.now)) sorted.items) }
    ensures in_order { IfOk result (λ sorted. IsNonDecreasingBy (λ op. op.begin.0) sorted.items) }
{
    let mut writes = writes_in(alloc, slots)?;
    writes.sort_unstable_by_key(|write| write.begin.0);
    Ok(writes)
}

fn writes_in<'t>(alloc: Global, slots: &[Option<Op<'t>>]) -> Result<Vec<Op<'t>>, AllocError>
    ensures { IfOk result (λ found. found.items ≡ writes (ops_in_slots slots.now)) }
{
    let mut writes = Vec::new(alloc);
    for slot in slots {
        if let Some(op) = slot {
            if op.is_write() {
                writes.push(*op)?;
            }
        }
    }
    Ok(writes)
}

/// The last of the writes that precedes the read.
fn last_before<'t>(writes: &[Op<'t>], read: &Op) -> Option<Op<'t>>
    ensures { result ≡ find (λ write. precedes write read.now) (reverse writes.now) }
{
    writes
        .iter()
        .rev()
        .find(|write| precedes(write, read))
        .copied()
}

/// The writes that overlap the read.
fn over_of<'t>(alloc: Global, writes: &[Op<'t>], read: &Op) -> Result<Vec<Op<'t>>, AllocError>
    ensures { IfOk result (λ over. over.items ≡ filter (λ write. overlaps write read.now) writes.now) }
{
    let mut over = Vec::new(alloc);
    for write in writes {
        if overlaps(write, read) {
            over.push(*write)?;
        }
    }
    Ok(over)
}

/// The last write of the value of the read that precedes it.
fn source_of<'t>(writes: &[Op<'t>], read: &Op) -> Option<Op<'t>>
    ensures { result ≡ find (is_source read.now) (reverse writes.now) }
{
    writes
        .iter()
        .rev()
        .find(|write| is_source(write, read))
        .copied()
}

/// The first write of the value of the read that the read precedes.
fn later_source_of<'t>(writes: &[Op<'t>], read: &Op) -> Option<Op<'t>>
    ensures { result ≡ find (is_later_source read.now) writes.now }
{
    writes
        .iter()
        .find(|write| is_later_source(write, read))
        .copied()
}

fn is_source(write: &Op, read: &Op) -> bool
    ensures { result ≡ is_source read.now write.now }
{
    precedes(write, read) && is_of_its_value(write, read)
}

fn is_later_source(write: &Op, read: &Op) -> bool
    ensures { result ≡ is_later_source read.now write.now }
{
    precedes(read, write) && is_of_its_value(write, read)
}

fn is_of_its_value(write: &Op, read: &Op) -> bool
    ensures { result ≡ is_of_its_value read.now write.now }
{
    is_same_value(write.value(), read.value())
}
