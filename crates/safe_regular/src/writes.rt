//! The writes by their beginnings, and the check of one more write beside them.

ghost use Rattle.std.specs.Prelude.{◌≡◌, ◌≢◌, [], List, IfSome, OnOk, OnErr, None, Some, false, true, if◌then◌else◌};
ghost use Rattle.std.specs.List.{cons_option};
ghost use Rattle.intervals.specs.declared.operation.Op.{Op as AnOp};
ghost use Rattle.intervals.specs.declared.ordered_index.Spot.{Spot as ASpot};
ghost use Rattle.intervals.specs.Terms.{terms_of};
ghost use Rattle.intervals.specs.Least.{least_by, least_from, less_of};
ghost use Rattle.intervals.specs.Refusal.{write_refusal, ok_unless, is_overlapped};
ghost use Rattle.intervals.specs.OrderedIndex.{id_at, is_spot, place_at, same_spot};
ghost use Rattle.intervals.specs.Standing.{HasDistinctIds};
ghost use Rattle.intervals.specs.Table.{prepared_after};
ghost use Rattle.safe_regular.specs.Apart.{AreSequential};
ghost use Rattle.safe_regular.specs.LookUp.{BeginsBefore, BeginsFrom, BeginsAfter, IsLastOf, IsFirstWriteOf, IsBeyondOf};
ghost use Rattle.safe_regular.specs.Writes.{AreWrites, HasPlace, HasPlaceFor, HasPlaceIn, IsAdded, IsAddedOf, spot_by_begin, StandAlike, StandAlikeIn, ReservesOnlyForWrite, op_of_found};

use intervals::{
    Claim, Kind, Memory, Moment, Op, OpId, OpTable, OrderedIndex, Refusal, Spot, Value, overlaps,
};
use std::alloc::Global;

/// The ids of the writes by beginning.
#[derive(Drop)]
pub struct Writes {
    begins: OrderedIndex,
}

impl Writes {
    pub fn new(alloc: Global) -> Self
        ensures writes { AreWrites [] result }
        ensures only { ReservesOnlyForWrite None result }
    {
        Writes {
            begins: OrderedIndex::new(alloc),
        }
    }

    /// Holds a place in the index for the operation, if that is a write.
    pub fn hold(&mut self, op: &Op) -> Result<(), Memory>
        ensures place { OnOk result (HasPlaceFor op.now self.new) }
        ensures only { ReservesOnlyForWrite None self.old → ReservesOnlyForWrite (Some op.now) self.new }
        ensures err { OnErr result ((spot : ASpot) → place_at self.new.begins spot ≡ place_at self.old.begins spot) }
        ensures writes { (ops : List AnOp) → AreWrites ops self.old → AreWrites ops self.new }
    {
        hold(&mut self.begins, spot_of_write(op))
    }

    /// Frees the place that was held for the operation, unless a write is in it.
    pub fn release(&mut self, op: &Op)
        ensures only { ReservesOnlyForWrite (Some op.now) self.old → ReservesOnlyForWrite None self.new }
        ensures writes { (ops : List AnOp) → AreWrites ops self.old → AreWrites ops self.new }
    {
        release(&mut self.begins, spot_of_write(op));
    }

    /// Takes out `old`, and puts in `new`, which is prepared. The place of the prepared operation stays. A write
    /// that keeps its id and beginning is not touched.
    pub fn change(&mut self, old: &Option<Op>, new: &Option<Op>, prepared: &Option<Op>)
        requires new { IfSome new.now (λ op. prepared.now ≡ Some op) }
        requires place { HasPlaceIn prepared.now self.old }
        ensures writes { (before others after : List AnOp) → AreWrites before self.old → IsAddedOf others old.now before → IsAddedOf others new.now after → AreWrites after self.new }
        ensures place { HasPlaceIn prepared.now self.new }
        ensures only { (before others : List AnOp) → AreWrites before self.old → IsAddedOf others old.now before → ReservesOnlyForWrite prepared.now self.old → ReservesOnlyForWrite (prepared_after new.now prepared.now) self.new }
    {
        if !keeps_its_spot(old, new) {
            self.exchange(old, new, prepared);
        }
    }

    fn exchange(&mut self, old: &Option<Op>, new: &Option<Op>, prepared: &Option<Op>)
        requires new { IfSome new.now (λ op. prepared.now ≡ Some op) }
        requires place { HasPlaceIn prepared.now self.old }
        ensures writes { (before others after : List AnOp) → AreWrites before self.old → IsAddedOf others old.now before → IsAddedOf others new.now after → AreWrites after self.new }
        ensures place { HasPlaceIn prepared.now self.new }
        ensures only { ReservesOnlyForWrite prepared.now self.old → ReservesOnlyForWrite (prepared_after new.now prepared.now) self.new }
    {
        if let Some(op) = old {
            self.take_out(op, prepared);
        }
        if let Some(op) = new {
            self.put_in(op);
        }
    }

    fn take_out(&mut self, op: &Op, prepared: &Option<Op>)
        requires { HasPlaceIn prepared.now self.old }
        ensures writes { (others ops : List AnOp) → AreWrites ops self.old → IsAdded others op.now ops → AreWrites others self.new }
        ensures place { HasPlaceIn prepared.now self.new }
        ensures only { ReservesOnlyForWrite prepared.now self.old → ReservesOnlyForWrite prepared.now self.new }
    {
        take_out(&mut self.begins, spot_of_write(op), held_by(prepared));
    }

    fn put_in(&mut self, op: &Op)
        requires { HasPlaceFor op.now self.old }
        ensures writes { (others ops : List AnOp) → AreWrites others self.old → IsAdded others op.now ops → AreWrites ops self.new }
        ensures place { HasPlaceFor op.now self.new }
        ensures only { ReservesOnlyForWrite (Some op.now) self.old → ReservesOnlyForWrite None self.new }
    {
        put_in(&mut self.begins, spot_of_write(op), op.id);
    }
}

/// Whether both are there, and are writes of one id and beginning.
fn keeps_its_spot(old: &Option<Op>, new: &Option<Op>) -> bool
    ensures { result ≡ true → StandAlikeIn old.now new.now }
{
    match (old, new) {
        (Some(old), Some(new)) => stand_alike(old, new),
        _ => false,
    }
}

/// Whether both are writes of one id and beginning.
pub fn stand_alike(old: &Op, new: &Op) -> bool
    ensures { result ≡ true → StandAlike old.now new.now }
{
    old.is_write() && new.is_write() && old.has_id(new.id) && old.begin.0 == new.begin.0
}

/// The first of `NotAWriter`, `WritesOverlap` and `OutOfDomain` that holds of the write; none holds of a read. An
/// operation of its own id is no other write.
pub fn check_write(claim: &Claim, writes: &Writes, table: &OpTable, op: &Op) -> Result<(), Refusal>
    requires { claim.now.kind ≢ Kind.Atomic }
    ensures { AreWrites table.now.ops writes.now → AreSequential table.now.ops → HasDistinctIds table.now.ops
        → result ≡ ok_unless (write_refusal (terms_of claim.now) table.now.ops op.now) }
{
    if !op.is_write() {
        return Ok(());
    }
    if !claim.may_write(op.process) {
        return Err(Refusal::NotAWriter);
    }
    if let Some(other) = first_overlapped(writes, table, op) {
        return Err(Refusal::WritesOverlap(other.id));
    }
    if !claim.has_in_domain(op.value()) {
        return Err(Refusal::OutOfDomain);
    }
    Ok(())
}

/// Of the other writes that overlap this one, the one that began first. Three at most are looked at, since the
/// writes in the index do not overlap each other.
fn first_overlapped<'t>(writes: &Writes, table: &OpTable<'t>, op: &Op) -> Option<Op<'t>>
    ensures { AreWrites table.now.ops writes.now → AreSequential table.now.ops → HasDistinctIds table.now.ops
        → result ≡ least_by (λ other. other.begin.0) (is_overlapped op.now) table.now.ops }
{
    let below = last_before(writes, table, op.begin);
    let above = first_from(writes, table, op.begin);
    let beyond = first_beyond(writes, table, op, above);
    first_of_three(op, below, above, beyond)
}

fn first_of_three<'t>(
    op: &Op,
    below: Option<Op<'t>>,
    above: Option<Op<'t>>,
    beyond: Option<Op<'t>>,
) -> Option<Op<'t>>
    ensures { result ≡ least_by (λ other. other.begin.0) (is_overlapped op.now) (cons_option below.entry (cons_option above.entry (cons_option beyond.entry []))) }
{
    first_with(
        op,
        first_with(op, first_with(op, None, below), above),
        beyond,
    )
}

fn first_with<'t>(op: &Op, found: Option<Op<'t>>, other: Option<Op<'t>>) -> Option<Op<'t>>
    ensures { result ≡ least_from (λ other. other.begin.0) (is_overlapped op.now) found.entry (cons_option other.entry []) }
{
    match other {
        Some(other) => first_of(op, found, &other),
        None => found,
    }
}

fn first_of<'t>(op: &Op, found: Option<Op<'t>>, other: &Op<'t>) -> Option<Op<'t>>
    ensures { result ≡ less_of (λ other. other.begin.0) (is_overlapped op.now) found.entry other.now }
{
    let is_first = match found {
        Some(earlier) => other.begin.0 < earlier.begin.0,
        None => true,
    };
    if is_overlapped(op, other) && is_first {
        Some(*other)
    } else {
        found
    }
}

fn is_overlapped(op: &Op, other: &Op) -> bool
    ensures { result ≡ is_overlapped op.now other.now }
{
    !other.has_id(op.id) && other.is_write() && overlaps(other, op)
}

/// The next write after the one above, where that one has the id of the operation, and else `None`.
fn first_beyond<'t>(
    writes: &Writes,
    table: &OpTable<'t>,
    op: &Op,
    above: Option<Op<'t>>,
) -> Option<Op<'t>>
    ensures { AreWrites table.now.ops writes.now → HasDistinctIds table.now.ops → IsBeyondOf table.now.ops op.now above.entry result }
{
    let above = above?;
    if above.has_id(op.id) {
        first_after(writes, table, above.begin)
    } else {
        None
    }
}

/// The last write to begin before the moment.
pub fn last_before<'t>(writes: &Writes, table: &OpTable<'t>, limit: Moment) -> Option<Op<'t>>
    ensures { AreWrites table.now.ops writes.now → HasDistinctIds table.now.ops → IsLastOf (BeginsBefore limit.0) table.now.ops result }
{
    op_at(table, writes.begins.last_before(Value::Nil, limit))
}

/// The first write to begin at the moment or later.
pub fn first_from<'t>(writes: &Writes, table: &OpTable<'t>, from: Moment) -> Option<Op<'t>>
    ensures { AreWrites table.now.ops writes.now → HasDistinctIds table.now.ops → IsFirstWriteOf (BeginsFrom from.0) table.now.ops result }
{
    op_at(table, writes.begins.first_from(Value::Nil, from))
}

/// The first write to begin after the moment.
pub fn first_after<'t>(writes: &Writes, table: &OpTable<'t>, after: Moment) -> Option<Op<'t>>
    ensures { AreWrites table.now.ops writes.now → HasDistinctIds table.now.ops → IsFirstWriteOf (BeginsAfter after.0) table.now.ops result }
{
    op_at(table, writes.begins.first_after(Value::Nil, after))
}

fn op_at<'t>(table: &OpTable<'t>, found: Option<(Moment, OpId)>) -> Option<Op<'t>>
    ensures { result ≡ op_of_found table.now.ops found }
{
    let (_, id) = found?;
    table.get(id).copied()
}

fn spot_of_write(op: &Op) -> Option<Spot>
    ensures { result ≡ spot_by_begin op.now }
{
    if op.is_write() {
        Some(Spot {
            value: Value::Nil,
            moment: op.begin,
        })
    } else {
        None
    }
}

fn held_by(op: &Option<Op>) -> Option<Spot>
    ensures none { op.now ≡ None → result ≡ None }
    ensures some { IfSome op.now (λ o. result ≡ spot_by_begin o) }
{
    match op {
        Some(op) => spot_of_write(op),
        None => None,
    }
}

fn hold(shelf: &mut OrderedIndex, spot: Option<Spot>) -> Result<(), Memory>
    ensures place { OnOk result (HasPlace shelf.new spot) }
    ensures ids { (other : ASpot) → id_at shelf.new other ≡ id_at shelf.old other }
    ensures others { (other : ASpot) → is_spot spot other ≡ false → place_at shelf.new other ≡ place_at shelf.old other }
    ensures err { OnErr result ((other : ASpot) → place_at shelf.new other ≡ place_at shelf.old other) }
{
    if let Some(spot) = spot {
        shelf.hold(spot)?;
    }
    Ok(())
}

fn release(shelf: &mut OrderedIndex, spot: Option<Spot>)
    ensures gone { IfSome spot (λ s. id_at shelf.old s ≡ None → place_at shelf.new s ≡ None) }
    ensures others { (other : ASpot) → is_spot spot other ≡ false → place_at shelf.new other ≡ place_at shelf.old other }
    ensures ids { (other : ASpot) → id_at shelf.new other ≡ id_at shelf.old other }
{
    if let Some(spot) = spot {
        shelf.release(spot);
    }
}

/// Takes out the id at the spot. Its place goes too, unless it is the one that is held.
fn take_out(shelf: &mut OrderedIndex, spot: Option<Spot>, held: Option<Spot>)
    requires { HasPlace shelf.old held }
    ensures gone { IfSome spot (λ s. id_at shelf.new s ≡ None) }
    ensures ids { (other : ASpot) → IfSome spot (λ s. same_spot s other ≡ false) → id_at shelf.new other ≡ id_at shelf.old other }
    ensures held { HasPlace shelf.new held }
    ensures places { (other : ASpot) → place_at shelf.new other ≡ (if is_spot spot other then (if is_spot held other then Some None else None) else place_at shelf.old other) }
{
    match (spot, held) {
        (Some(spot), Some(held)) if spot == held => shelf.vacate(spot),
        (Some(spot), _) => shelf.take(spot),
        _ => {}
    }
}

/// Puts an id at the spot, whose place is held.
fn put_in(shelf: &mut OrderedIndex, spot: Option<Spot>, id: OpId)
    requires { HasPlace shelf.old spot }
    ensures there { IfSome spot (λ s. id_at shelf.new s ≡ Some id) }
    ensures ids { (other : ASpot) → IfSome spot (λ s. same_spot s other ≡ false) → id_at shelf.new other ≡ id_at shelf.old other }
    ensures place { HasPlace shelf.new spot }
    ensures places { (other : ASpot) → place_at shelf.new other ≡ (if is_spot spot other then Some (Some id) else place_at shelf.old other) }
{
    if let Some(spot) = spot {
        shelf.put(spot, id);
    }
}
