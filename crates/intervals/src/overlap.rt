//! The first overlap of writes: what is in the way of a claim to be safe or regular.

ghost use Rattle.std.specs.Prelude.{◌≡◌, ◌<◌, ◌≤◌, ◌++◌, ◌∷◌, [], List, true, false, None, Some, MatchOption, IfOk, IfSome, IsSomeAnd, OnOk};
ghost use Rattle.intervals.specs.declared.operation.Moment.{Moment as AMoment};
ghost use Rattle.intervals.specs.declared.operation.Op.{Op as AnOp};
ghost use Rattle.intervals.specs.InTurn.{AreWritesByBegin, IsNextWrite, spot_then};
ghost use Rattle.intervals.specs.Moments.{IsLaterThan};
ghost use Rattle.intervals.specs.Operation.{IsWrite};
ghost use Rattle.intervals.specs.Refusal.{first_overlap};
ghost use Rattle.intervals.specs.OrderedIndex.{id_at};
ghost use Rattle.intervals.specs.Standing.{HasDistinctIds, HasDistinctMoments, HasEndsAfterBeginnings};
ghost use Rattle.intervals.specs.Table.{ops_in_slots};

use crate::{Memory, Moment, Op, OpId, OpTable, OrderedIndex, Spot, Value, precedes};
use std::alloc::Global;

impl<'t> OpTable<'t> {
    /// Of the writes that overlap another one the one that begins first, and of those that overlap it the one that
    /// begins first. It takes a look-up for each write; where memory is refused each next write is looked for
    /// among all operations.
    pub fn first_overlap(&self, alloc: Global) -> Option<(OpId, OpId)>
        requires ids { HasDistinctIds self.now.ops }
        requires moments { HasDistinctMoments self.now.ops }
        requires ends { HasEndsAfterBeginnings self.now.ops }
        ensures { result ≡ first_overlap self.now.ops }
    {
        self.first_in_turn(&turn_of(alloc, self.slots()))
    }

    /// The first overlap, by an optional index of the writes by beginning. Each write is compared with the next
    /// alone.
    fn first_in_turn(&self, turn: &Option<OrderedIndex>) -> Option<(OpId, OpId)>
        requires turn { IfSome turn.now (λ turn. AreWritesByBegin turn self.now.ops) }
        requires ids { HasDistinctIds self.now.ops }
        requires moments { HasDistinctMoments self.now.ops }
        requires ends { HasEndsAfterBeginnings self.now.ops }
        ensures { result ≡ first_overlap self.now.ops }
    {
        let mut write = self.next_write(turn, None)?;
        while let Some(next) = self.next_write(turn, Some(write.begin)) {
            if !precedes(&write, &next) {
                return Some((write.id, next.id));
            }
            write = next;
        }
        None
    }

    /// Of the writes that begin after the moment the one that begins first; of all where none is given.
    fn next_write(&self, turn: &Option<OrderedIndex>, after: Option<Moment>) -> Option<Op<'t>>
        requires turn { IfSome turn.now (λ turn. AreWritesByBegin turn self.now.ops) }
        requires ids { HasDistinctIds self.now.ops }
        ensures { IsNextWrite self.now.ops after result }
    {
        match turn {
            Some(turn) => {
                let (_, id) = first_following(turn, after)?;
                self.get(id).copied()
            }
            None => next_among(self.slots(), after),
        }
    }
}

/// An index of the writes by beginning, or none where memory is refused.
fn turn_of(alloc: Global, slots: &[Option<Op>]) -> Option<OrderedIndex>
    ensures { IfSome result (λ turn. AreWritesByBegin turn (ops_in_slots slots.now)) }
{
    match writes_in_turn(alloc, slots) {
        Ok(turn) => Some(turn),
        Err(_) => None,
    }
}

fn writes_in_turn(alloc: Global, slots: &[Option<Op>]) -> Result<OrderedIndex, Memory>
    ensures { IfOk result (λ turn. AreWritesByBegin turn (ops_in_slots slots.now)) }
{
    let mut turn = OrderedIndex::new(alloc);
    for slot in slots {
        if let Some(op) = slot {
            put_in_turn(&mut turn, op)?;
        }
    }
    Ok(turn)
}

/// Puts the operation into the index at its beginning, where it is a write.
fn put_in_turn(turn: &mut OrderedIndex, op: &Op) -> Result<(), Memory>
    ensures { (before : List AnOp) → AreWritesByBegin turn.old before → OnOk result (AreWritesByBegin turn.new (before ++ op.now ∷ [])) }
{
    let spot = Spot {
        value: Value::Nil,
        moment: op.begin,
    };
    if op.is_write() && turn.get(spot).is_none() {
        turn.hold(spot)?;
        turn.put(spot, op.id);
    }
    Ok(())
}

/// The first id after the moment, or of all where none is given, with its moment; in an index of moments alone.
fn first_following(turn: &OrderedIndex, after: Option<Moment>) -> Option<(Moment, OpId)>
    ensures { MatchOption result
        ((m : AMoment) → IsLaterThan after m → id_at turn.now (spot_then m) ≡ None)
        (λ found. IsLaterThan after found.0 × (id_at turn.now (spot_then found.0) ≡ Some found.1)
        × ((m : AMoment) → IsLaterThan after m → m.0 < found.0.0 → id_at turn.now (spot_then m) ≡ None)) }
{
    match after {
        Some(moment) => turn.first_after(Value::Nil, moment),
        None => turn.first_from(Value::Nil, Moment(0)),
    }
}

/// Of the writes in the slots that begin after the moment the one that begins first.
fn next_among<'t>(slots: &[Option<Op<'t>>], after: Option<Moment>) -> Option<Op<'t>>
    ensures { IsNextWrite (ops_in_slots slots.now) after result }
{
    let mut next: Option<Op<'t>> = None;
    for slot in slots {
        if let Some(op) = slot {
            if comes_sooner(op, after, &next) {
                next = Some(*op);
            }
        }
    }
    next
}

/// Whether the operation is a write that begins after the moment, and before the next write found so far.
fn comes_sooner(op: &Op, after: Option<Moment>, next: &Option<Op>) -> bool
    ensures sooner { result ≡ true → IsWrite op.now × IsLaterThan after op.now.begin × IfSome next.now (λ n. op.now.begin.0 < n.begin.0) }
    ensures not { result ≡ false → IsWrite op.now → IsLaterThan after op.now.begin → IsSomeAnd next.now (λ n. n.begin.0 ≤ op.now.begin.0) }
{
    let is_following = match after {
        Some(after) => after.0 < op.begin.0,
        None => true,
    };
    let is_before = match next {
        Some(next) => op.begin.0 < next.begin.0,
        None => true,
    };
    op.is_write() && is_following && is_before
}
