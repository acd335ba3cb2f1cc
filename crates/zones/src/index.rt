//! The indexes of the judged reads of each value: by their ends, and by their beginnings.

ghost use Rattle.std.specs.Prelude.{◌≡◌, ◌≢◌, ◌≤◌, ◌<◌, [], List, All, Contains, IfSome, IfOk, MatchOption, OnOk, OnErr, None, Some, is_some, true, false};
ghost use Rattle.intervals.specs.declared.operation.Op.{Op as AnOp};
ghost use Rattle.intervals.specs.declared.ordered_index.Spot.{Spot as ASpot};
ghost use Rattle.intervals.specs.OrderedIndex.{place_at, id_at, is_spot};
ghost use Rattle.intervals.specs.Table.{prepared_after};
ghost use Rattle.zones.specs.Members.{IsChange, EndsFirstOf, BeginsLastOf, HasNoRead};
ghost use Rattle.zones.specs.Index.{AreMembers, HasPlaces, HasPlacesOf, HasPlaceAt, HaveSamePlaces, ReservesOnlyForMember, IsInTime, IsMade, IsStill, spot_on, spot_in, taken_at, placed_at, come_at};

use intervals::{Memory, Moment, Op, OpId, OrderedIndex, Spot, Value};
use std::alloc::Global;

/// Which of the two indexes.
#[derive(Clone, Copy)]
pub enum IndexKind {
    Ends,
    Begins,
}

/// The ids of the judged reads by value and end, and by value and beginning. An operation has a spot in neither or
/// in both.
#[derive(Drop)]
pub struct Members {
    ends: OrderedIndex,
    begins: OrderedIndex,
}

impl Members {
    pub fn new(alloc: Global) -> Self
        ensures members { AreMembers [] result }
        ensures only { ReservesOnlyForMember None result }
    {
        Members {
            ends: OrderedIndex::new(alloc),
            begins: OrderedIndex::new(alloc),
        }
    }

    /// Sees to it that each index has a place at the operation's spot. Where memory is refused neither changes.
    pub fn hold(&mut self, op: &Op) -> Result<(), Memory>
        ensures places { OnOk result (HasPlaces op.now self.new) }
        ensures only { OnOk result (ReservesOnlyForMember None self.old → ReservesOnlyForMember (Some op.now) self.new) }
        ensures err { OnErr result (HaveSamePlaces self.old self.new) }
        ensures members { (ops : List AnOp) → AreMembers ops self.old → AreMembers ops self.new }
    {
        let ends = hold(&mut self.ends, spot_on(IndexKind::Ends, op))?;
        if let Err(memory) = hold(&mut self.begins, spot_on(IndexKind::Begins, op)) {
            release(&mut self.ends, ends);
            return Err(memory);
        }
        Ok(())
    }

    /// Drops the places at the operation's spots that have no id.
    pub fn release(&mut self, op: &Op)
        ensures only { ReservesOnlyForMember (Some op.now) self.old → ReservesOnlyForMember None self.new }
        ensures members { (ops : List AnOp) → AreMembers ops self.old → AreMembers ops self.new }
    {
        release(&mut self.ends, spot_on(IndexKind::Ends, op));
        release(&mut self.begins, spot_on(IndexKind::Begins, op));
    }

    /// Takes `old` out and puts `new` in, whose places are there. The places of `prepared` stay.
    pub fn change(&mut self, old: &Option<Op>, new: &Option<Op>, prepared: &Option<Op>)
        requires prepared { IfSome new.now (λ op. prepared.now ≡ Some op) }
        requires places { HasPlacesOf prepared.now self.old }
        ensures members { (before after : List AnOp) → AreMembers before self.old → IsChange before old.now new.now after → AreMembers after self.new }
        ensures places { HasPlacesOf prepared.now self.new }
        ensures only { ReservesOnlyForMember prepared.now self.old → ReservesOnlyForMember (prepared_after new.now prepared.now) self.new }
    {
        change_row(&mut self.ends, IndexKind::Ends, old, new, prepared);
        change_row(&mut self.begins, IndexKind::Begins, old, new, prepared);
    }

    /// The end and the id of the judged read of the value that ended first.
    pub fn first_to_end(&self, value: Value) -> Option<(Moment, OpId)>
        ensures { (ops : List AnOp) → AreMembers ops self.now → MatchOption result (HasNoRead ops value) (λ found. EndsFirstOf ops value found.0 found.1) }
    {
        self.ends.first_from(value, Moment(0))
    }

    /// The beginning and the id of the judged read of the value that began last.
    pub fn last_to_begin(&self, value: Value) -> Option<(Moment, OpId)>
        ensures { (ops : List AnOp) → AreMembers ops self.now → MatchOption result (HasNoRead ops value) (λ found. BeginsLastOf ops value found.0 found.1) }
    {
        self.begins.last_up_to(value, Moment(u64::MAX))
    }
}

/// The spot of the operation in that index; a write and a read that has no end have none.
pub fn spot_on(row: IndexKind, op: &Op) -> Option<Spot>
    ensures { result ≡ spot_on row op.now }
{
    match row {
        IndexKind::Ends if !op.is_write() => {
            let end = op.end?;
            Some(Spot {
                value: op.value(),
                moment: end,
            })
        }
        IndexKind::Begins if !op.is_write() => {
            let _ = op.end?;
            Some(Spot {
                value: op.value(),
                moment: op.begin,
            })
        }
        _ => None,
    }
}

/// Sees to it that there is a place at the spot. Returns the spot where the place was made, and none where it was
/// there.
fn hold(shelf: &mut OrderedIndex, spot: Option<Spot>) -> Result<Option<Spot>, Memory>
    ensures there { OnOk result (IfSome spot (λ s. is_some (place_at shelf.new s) ≡ true)) }
    ensures ids { (other : ASpot) → id_at shelf.new other ≡ id_at shelf.old other }
    ensures made { IfOk result (IsMade shelf.old shelf.new) }
    ensures others { (other : ASpot) → is_spot spot other ≡ false → place_at shelf.new other ≡ place_at shelf.old other }
    ensures err { OnErr result ((other : ASpot) → place_at shelf.new other ≡ place_at shelf.old other) }
{
    let Some(spot) = spot else {
        return Ok(None);
    };
    if shelf.hold(spot)? {
        Ok(Some(spot))
    } else {
        Ok(None)
    }
}

/// Drops the place at the spot where it has no id.
fn release(shelf: &mut OrderedIndex, spot: Option<Spot>)
    ensures gone { IfSome spot (λ s. id_at shelf.old s ≡ None → place_at shelf.new s ≡ None) }
    ensures ids { (other : ASpot) → id_at shelf.new other ≡ id_at shelf.old other }
    ensures others { (other : ASpot) → is_spot spot other ≡ false → place_at shelf.new other ≡ place_at shelf.old other }
{
    if let Some(spot) = spot {
        shelf.release(spot);
    }
}

/// Takes `old` out and puts `new` in, whose place is there. The place of `prepared` stays. An id that keeps its
/// spot is not touched.
#[inline(always)]
fn change_row(
    shelf: &mut OrderedIndex,
    row: IndexKind,
    old: &Option<Op>,
    new: &Option<Op>,
    prepared: &Option<Op>,
)
    requires prepared { IfSome new.now (λ op. prepared.now ≡ Some op) }
    requires place { HasPlaceAt shelf.old (spot_in row prepared.now) }
    ensures in_time { IsInTime (spot_in row new.now) }
    ensures places { (other : ASpot) → place_at shelf.new other ≡ come_at row new.now other (taken_at (spot_in row old.now) (spot_in row prepared.now) other (place_at shelf.old other)) }
{
    let spot = spot_in(row, old);
    let Some(op) = new else {
        take_out(shelf, spot, spot_in(row, prepared));
        return;
    };
    let place = spot_on(row, op);
    if !has_at(shelf, spot, place, op.id) {
        take_out(shelf, spot, place);
        put_in(shelf, place, op.id);
    }
}

/// Whether the two are one spot, and the id is there.
fn has_at(shelf: &OrderedIndex, spot: Option<Spot>, place: Option<Spot>, id: OpId) -> bool
    ensures { result ≡ true → IsStill shelf.now spot place id }
{
    match (spot, place) {
        (Some(spot), Some(place)) => spot == place && shelf.get(spot) == Some(id),
        _ => false,
    }
}

/// The spot of the optional operation in that index.
fn spot_in(row: IndexKind, op: &Option<Op>) -> Option<Spot>
    ensures { result ≡ spot_in row op.now }
{
    match op {
        Some(op) => spot_on(row, op),
        None => None,
    }
}

/// Takes the id at the spot out. The place is dropped too, unless it is the held one.
fn take_out(shelf: &mut OrderedIndex, spot: Option<Spot>, held: Option<Spot>)
    requires { HasPlaceAt shelf.old held }
    ensures { (other : ASpot) → place_at shelf.new other ≡ taken_at spot held other (place_at shelf.old other) }
{
    match (spot, held) {
        (Some(spot), Some(held)) if spot == held => shelf.vacate(spot),
        (Some(spot), _) => shelf.take(spot),
        _ => {}
    }
}

fn put_in(shelf: &mut OrderedIndex, spot: Option<Spot>, id: OpId)
    requires { HasPlaceAt shelf.old spot }
    ensures in_time { IsInTime spot }
    ensures places { (other : ASpot) → place_at shelf.new other ≡ placed_at spot id other (place_at shelf.old other) }
{
    if let Some(spot) = spot {
        shelf.put(spot, id);
    }
}
