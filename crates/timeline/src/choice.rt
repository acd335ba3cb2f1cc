//! Which operations of a register a picture shows.

ghost use Rattle.std.specs.Prelude.{◌≡◌, IfOk, length, map, not};
ghost use Rattle.std.specs.List.Sorted.{IsNonDecreasingBy};
ghost use Rattle.intervals.specs.Operation.{same_id};
ghost use Rattle.intervals.specs.Table.{ops_in_slots};
ghost use Rattle.timeline.specs.Choice.{IsByBeginning, IsChosen, are_near, is_among, is_far_from, is_folded, is_near, is_shown, picked, places_of};

use intervals::{Moment, Op, OpId};
use std::alloc::{AllocError, Global};

/// How much of a history is shown.
#[derive(Clone, Copy)]
pub enum Extent {
    /// Each operation.
    All,
    /// The operations that are asked for, and this many before and after each of them, by beginning. Where no more
    /// than two in a row would be left out, they are shown too.
    Around(usize),
}

/// The operations of a register that are shown, and the beginnings of the others, both in the order of beginnings.
#[derive(Drop)]
pub struct Chosen<'t> {
    pub shown: Vec<Op<'t>>,
    pub hidden: Vec<Moment>,
}

/// Chooses which of the operations that stand are shown. Those of the ids always are.
pub fn choose<'t>(
    alloc: Global,
    slots: &[Option<Op<'t>>],
    ids: &[OpId],
    extent: Extent,
) -> Result<Chosen<'t>, AllocError>
    ensures chosen { IfOk result (IsChosen (ops_in_slots slots.now) ids.now extent) }
    ensures shown { IfOk result (λ chosen. IsNonDecreasingBy (λ op. op.begin.0) chosen.shown.items) }
    ensures hidden { IfOk result (λ chosen. IsNonDecreasingBy (λ moment. moment.0) chosen.hidden.items) }
{
    let ops = by_beginning(alloc, slots)?;
    let centres = places_of(alloc, &ops, ids)?;
    let chosen = split(alloc, &ops, &centres, extent)?;
    Ok(chosen)
}

/// The operations that stand, in the order of their beginnings.
fn by_beginning<'t>(alloc: Global, slots: &[Option<Op<'t>>]) -> Result<Vec<Op<'t>>, AllocError>
    ensures { IfOk result (λ ops. IsByBeginning (ops_in_slots slots.now) ops.items) }
{
    let mut ops = standing_in(alloc, slots)?;
    ops.sort_unstable_by_key(|op| op.begin.0);
    Ok(ops)
}

fn standing_in<'t>(alloc: Global, slots: &[Option<Op<'t>>]) -> Result<Vec<Op<'t>>, AllocError>
    ensures { IfOk result (λ ops. ops.items ≡ ops_in_slots slots.now) }
{
    let mut ops = Vec::new(alloc);
    for slot in slots {
        if let Some(op) = slot {
            ops.push(*op)?;
        }
    }
    Ok(ops)
}

/// The places of the operations that have one of the ids.
fn places_of(alloc: Global, ops: &[Op], ids: &[OpId]) -> Result<Vec<usize>, AllocError>
    ensures { IfOk result (λ places. places.items ≡ places_of ids.now 0 ops.now) }
{
    let mut places = Vec::new(alloc);
    for place in 0..ops.len() {
        if is_among(ids, ops[place].id) {
            places.push(place)?;
        }
    }
    Ok(places)
}

fn is_among(ids: &[OpId], id: OpId) -> bool
    ensures { result ≡ is_among ids.now id }
{
    ids.iter().any(|other| is_same_id(*other, id))
}

fn is_same_id(a: OpId, b: OpId) -> bool
    ensures { result ≡ same_id a b }
{
    a.feeder == b.feeder && a.event == b.event
}

/// The operations that are shown, and the beginnings of the others.
fn split<'t>(
    alloc: Global,
    ops: &[Op<'t>],
    centres: &[usize],
    extent: Extent,
) -> Result<Chosen<'t>, AllocError>
    ensures shown { IfOk result (λ chosen. chosen.shown.items ≡ picked (is_shown extent (length ops.now) centres.now) 0 ops.now) }
    ensures hidden { IfOk result (λ chosen. chosen.hidden.items ≡ map (λ op. op.begin) (picked (λ place. not (is_shown extent (length ops.now) centres.now place)) 0 ops.now)) }
{
    let mut shown = Vec::new(alloc);
    let mut hidden = Vec::new(alloc);
    for place in 0..ops.len() {
        if is_shown(extent, ops.len(), centres, place) {
            shown.push(ops[place])?;
        } else {
            hidden.push(ops[place].begin)?;
        }
    }
    Ok(Chosen { shown, hidden })
}

/// Whether the operation at that place of so many is shown.
fn is_shown(extent: Extent, many: usize, centres: &[usize], place: usize) -> bool
    ensures { result ≡ is_shown extent many centres.now place }
{
    match extent {
        Extent::All => true,
        Extent::Around(around) => !is_folded(many, around, centres, place),
    }
}

/// Whether the place is one of three in a row that are far from all centres.
fn is_folded(many: usize, around: usize, centres: &[usize], place: usize) -> bool
    ensures { result ≡ is_folded many around centres.now place }
{
    is_far_from(many, around, centres, place.saturating_sub(2))
        || is_far_from(many, around, centres, place.saturating_sub(1))
        || is_far_from(many, around, centres, place)
}

/// Whether the three places from that one on are there, and far from all centres.
fn is_far_from(many: usize, around: usize, centres: &[usize], place: usize) -> bool
    ensures { result ≡ is_far_from many around centres.now place }
{
    many.saturating_sub(place) > 2
        && !is_near(around, centres, place)
        && !is_near(around, centres, place + 1)
        && !is_near(around, centres, place + 2)
}

/// Whether a centre is at most `around` places away.
fn is_near(around: usize, centres: &[usize], place: usize) -> bool
    ensures { result ≡ is_near around centres.now place }
{
    centres
        .iter()
        .any(|centre| are_within(around, *centre, place))
}

fn are_within(around: usize, a: usize, b: usize) -> bool
    ensures { result ≡ are_near around a b }
{
    a.saturating_sub(b) <= around && b.saturating_sub(a) <= around
}
