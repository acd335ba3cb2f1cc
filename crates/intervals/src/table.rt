//! The operations that stand, by their ids and by their moments, and room for one more.

ghost use Rattle.std.specs.Prelude.{◌≡◌, ◌↔◌, ◌<◌, ◌≤◌, ℕ, [], length, None, Some, OnOk, OnErr, IfSome, IsSome, IsTrue, option_copied, option_map, vec_len, vec_capacity, ◌-◌, ◌≢◌, Option, slice_get};
ghost use Rattle.intervals.specs.declared.edit.Change.{Change as AChange};
ghost use Rattle.intervals.specs.declared.operation.Op.{Op as AnOp};
ghost use Rattle.intervals.specs.declared.operation.Moment.{Moment as AMoment};
ghost use Rattle.intervals.specs.declared.operation.OpId.{OpId as AnId};
ghost use Rattle.intervals.specs.Edit.{op_of, found_by, edited, new_op};
ghost use Rattle.intervals.specs.Refusal.{first_refusal, moments_refusal, ok_unless, find_other_with};
ghost use Rattle.intervals.specs.Target.{IsTargetOf};
ghost use Rattle.intervals.specs.Table.{AreSlots, IsIndexed, admitted, slot_of_id, prepared_after, ops_in_slots, slot_at};

use crate::moments::{ends_too_early, is_too_large, move_moments, put_moments, take_moments};
use crate::rising::RisingMap;
use crate::target::{Target, new_op};
use crate::{Edit, Memory, Moment, Op, OpId, Refusal};
use std::alloc::Global;
use std::marker::Model;

/// The operations of one register that stand, in the order of their appends, and prepared room for one more.
#[derive(Drop)]
pub struct OpTable<'t> {
    slots: Vec<Option<Op<'t>>>,
    places: RisingMap<OpId, usize>,
    moments: RisingMap<Moment, OpId>,
    count: usize,
    prepared: Option<Op<'t>>,
}

impl<'t> Model for OpTable<'t> {
    ghost use Rattle.std.specs.Prelude.{◌≡◌, IfSome, length};
    ghost use Rattle.intervals.specs.Moments.{AreMoments, holder_at};
    ghost use Rattle.intervals.specs.Table.{AreSlots, HasSlotRoom, IsIndexed, TableModel, slot_of_id, slot_at, ops_in_slots};

    ghost Value = { TableModel };

    ghost view = { λ t. record { ops = ops_in_slots t.slots.items; prepared = t.prepared } };

    ghost invariant = { λ t.
        IsIndexed (slot_at t.slots.items) (slot_of_id t.places) (holder_at t.moments)
        × (t.count ≡ length (ops_in_slots t.slots.items))
        × AreSlots t.places
        × AreMoments t.moments
        × IfSome t.prepared (λ op. HasSlotRoom t.slots t.places t.moments) };
}

impl<'t> OpTable<'t> {
    /// A table without operations.
    pub fn new(alloc: Global) -> Self
        ensures { result ≡ record { ops = []; prepared = None } }
    {
        OpTable {
            slots: Vec::new(alloc),
            places: RisingMap::new(alloc),
            moments: RisingMap::new(alloc),
            count: 0,
            prepared: None,
        }
    }

    pub fn len(&self) -> usize
        ensures { result ≡ length self.now.ops }
    {
        self.count
    }

    pub fn is_empty(&self) -> bool
        ensures { IsTrue result ↔ (self.now.ops ≡ []) }
    {
        self.count == 0
    }

    /// The operations in the order of their appends. A slot is empty where an operation was withdrawn.
    pub fn slots(&self) -> &[Option<Op<'t>>]
        ensures { ops_in_slots result.now ≡ self.now.ops }
    {
        self.slots.as_slice()
    }

    /// The operation of that id.
    pub fn get(&self, id: OpId) -> Option<&Op<'t>>
        ensures { option_copied result ≡ op_of self.now.ops id }
    {
        let (_, op) = find_slot(self.slots.as_slice(), &self.places, id)?;
        Some(op)
    }

    /// The operation of the optional id.
    pub fn find(&self, id: Option<OpId>) -> Option<Op<'t>>
        ensures { result ≡ found_by self.now.ops id }
    {
        self.get(id?).copied()
    }

    /// The operations that the edit is about, found once for the check, the judge and the table.
    pub fn target(&self, edit: &Edit<'t>) -> Target<'t>
        ensures { IsTargetOf self.now.ops edit.now result }
    {
        target_in(self.slots.as_slice(), &self.places, edit)
    }

    /// The first refusal, from `UnknownOp` to `MomentTooLarge`, that the edit meets. The others depend on the
    /// claim, which the table does not know.
    pub fn check(&self, edit: &Edit<'t>, target: &Target<'t>) -> Result<(), Refusal>
        requires { IsTargetOf self.now.ops edit.now target.now }
        ensures { result ≡ ok_unless (first_refusal self.now.ops edit.now) }
    {
        match edit {
            Edit::Append(op) => match &target.old {
                Some(_) => Err(Refusal::OpTaken),
                None => self.check_moments(op),
            },
            Edit::Amend(..) => match &target.new {
                Some(op) => self.check_moments(op),
                None => Err(Refusal::UnknownOp),
            },
            Edit::Withdraw(_) => match &target.old {
                Some(_) => Ok(()),
                None => Err(Refusal::UnknownOp),
            },
            Edit::Claim(_) => Ok(()),
        }
    }

    /// The operation that there is room for.
    pub fn prepared(&self) -> Option<Op<'t>>
        ensures { result ≡ self.now.prepared }
    {
        self.prepared
    }

    /// Makes room for the operation: to admit the edit that makes it takes no memory then, even after withdrawals.
    pub fn prepare(&mut self, op: &Op<'t>) -> Result<(), Memory>
        requires { self.old.prepared ≡ None }
        ensures ok { OnOk result (self.new ≡ record self.old { prepared = Some op.now }) }
        ensures err { OnErr result (self.new ≡ self.old) }
    {
        self.slots.reserve(1)?;
        self.places.reserve(1)?;
        self.moments.reserve(2)?;
        self.prepared = Some(*op);
        Ok(())
    }

    /// Forgets the prepared operation. The table keeps the memory.
    pub fn release(&mut self)
        ensures { self.new ≡ record self.old { prepared = None } }
    {
        self.prepared = None;
    }

    /// Carries out an edit that `check` accepts. The operation that it appends or changes was prepared.
    pub fn admit(&mut self, edit: &Edit<'t>, target: &Target<'t>)
        requires accepted { first_refusal self.old.ops edit.now ≡ None }
        requires target { IsTargetOf self.old.ops edit.now target.now }
        requires room { IfSome (new_op self.old.ops edit.now) (λ op. self.old.prepared ≡ Some op) }
        ensures { self.new ≡ record { ops = edited self.old.ops edit.now; prepared = prepared_after (new_op self.old.ops edit.now) self.old.prepared } }
    {
        match edit {
            Edit::Append(op) => self.append(op),
            Edit::Amend(..) => {
                let Some(op) = &target.new else {
                    unreachable!()
                };
                self.amend(op, target.place);
            }
            Edit::Withdraw(id) => self.withdraw(*id, target.place),
            Edit::Claim(_) => {}
        }
    }

    fn append(&mut self, op: &Op<'t>)
        requires accepted { first_refusal self.old.ops (Edit.Append op.now) ≡ None }
        requires room { self.old.prepared ≡ Some op.now }
        ensures { self.new ≡ admitted self.old (Edit.Append op.now) }
    {
        let place = self.slots.len();
        self.slots.push_reserved(Some(*op));
        self.places.put(op.id, place);
        put_moments(&mut self.moments, op);
        self.count += 1;
        self.prepared = None;
    }

    /// Puts the operation in the slot of the one of its id. The slot `first` is tried before the id is looked up.
    fn amend(&mut self, op: &Op<'t>, first: usize)
        requires present { IsSome (op_of self.old.ops op.now.id) }
        requires accepted { moments_refusal self.old.ops op.now ≡ None }
        requires room { self.old.prepared ≡ Some op.now }
        ensures { (id : AnId) (change : AChange) → new_op self.old.ops (Edit.Amend id change) ≡ Some op.now → self.new ≡ admitted self.old (Edit.Amend id change) }
    {
        let Some((place, old)) = find_slot_from(self.slots.as_slice(), &self.places, op.id, first)
        else {
            unreachable!()
        };
        move_moments(&mut self.moments, old, op);
        self.slots[place] = Some(*op);
        self.prepared = None;
    }

    /// Takes the operation of that id out. The slot `first` is tried before the id is looked up.
    fn withdraw(&mut self, id: OpId, first: usize)
        requires { first_refusal self.old.ops (Edit.Withdraw id) ≡ None }
        ensures { self.new ≡ admitted self.old (Edit.Withdraw id) }
    {
        let Some((place, op)) = find_slot_from(self.slots.as_slice(), &self.places, id, first)
        else {
            unreachable!()
        };
        take_moments(&mut self.moments, op);
        self.places.remove(id);
        self.slots[place] = None;
        self.count -= 1;
        drop_empty_end(&mut self.slots);
    }

    fn check_moments(&self, op: &Op<'t>) -> Result<(), Refusal>
        ensures { result ≡ ok_unless (moments_refusal self.now.ops op.now) }
    {
        if ends_too_early(op) {
            return Err(Refusal::EndNotAfterBegin);
        }
        if let Some(other) = self.other_with(op.id, op.begin) {
            return Err(Refusal::MomentTaken(op.begin, other));
        }
        if let Some(end) = op.end {
            if let Some(other) = self.other_with(op.id, end) {
                return Err(Refusal::MomentTaken(end, other));
            }
        }
        if is_too_large(op) {
            return Err(Refusal::MomentTooLarge);
        }
        Ok(())
    }

    /// The id of the other operation that has the moment.
    fn other_with(&self, id: OpId, moment: Moment) -> Option<OpId>
        ensures { result ≡ option_map (λ op. op.id) (find_other_with self.now.ops id moment) }
    {
        let holder = self.moments.get(moment)?;
        if holder == id { None } else { Some(holder) }
    }
}

/// The target of the edit among the operations in the slots. Its place is the slot of the operation that stands.
fn target_in<'t>(
    slots: &[Option<Op<'t>>],
    places: &RisingMap<OpId, usize>,
    edit: &Edit<'t>,
) -> Target<'t>
    requires { AreSlots places.now }
    ensures target { (holder : AMoment → Option AnId) → IsIndexed (slot_at slots.now) (slot_of_id places.now) holder → IsTargetOf (ops_in_slots slots.now) edit.now result }
    ensures place { IfSome result.old (λ op. slot_at slots.now result.place ≡ Some op) }
{
    match look_up(slots, places, edit.id()) {
        Some((place, op)) => Target {
            place,
            old: Some(*op),
            new: new_op(edit, Some(op)),
        },
        None => Target {
            place: 0,
            old: None,
            new: new_op(edit, None),
        },
    }
}

/// The slot of the optional id, and the operation in it.
fn look_up<'b, 't>(
    slots: &'b [Option<Op<'t>>],
    places: &RisingMap<OpId, usize>,
    id: Option<OpId>,
) -> Option<(usize, &'b Op<'t>)>
    requires { AreSlots places.now }
    ensures slot { IfSome result (λ found. slot_at slots.now found.0 ≡ Some found.1.now) }
    ensures found { (holder : AMoment → Option AnId) → IsIndexed (slot_at slots.now) (slot_of_id places.now) holder → option_map (λ found. found.1.now) result ≡ found_by (ops_in_slots slots.now) id }
{
    find_slot(slots, places, id?)
}

/// The slot of that id, and the operation in it.
fn find_slot<'b, 't>(
    slots: &'b [Option<Op<'t>>],
    places: &RisingMap<OpId, usize>,
    id: OpId,
) -> Option<(usize, &'b Op<'t>)>
    requires { AreSlots places.now }
    ensures place { IfSome result (λ found. slot_of_id places.now id ≡ Some found.0) }
    ensures slot { IfSome result (λ found. slot_at slots.now found.0 ≡ Some found.1.now) }
    ensures within { IfSome result (λ found. found.0 < length slots.now) }
    ensures none { result ≡ None → (i : ℕ) → slot_of_id places.now id ≡ Some i → slot_at slots.now i ≡ None }
{
    let place = places.get(id)?;
    let op = slots.get(place)?.as_ref()?;
    Some((place, op))
}

/// The slot of that id and the operation in it. The slot `first` is tried before the id is looked up.
fn find_slot_from<'b, 't>(
    slots: &'b [Option<Op<'t>>],
    places: &RisingMap<OpId, usize>,
    id: OpId,
    first: usize,
) -> Option<(usize, &'b Op<'t>)>
    requires order { AreSlots places.now }
    requires placed { (i : ℕ) (op : AnOp) → slot_at slots.now i ≡ Some op → slot_of_id places.now op.id ≡ Some i }
    ensures place { IfSome result (λ found. slot_of_id places.now id ≡ Some found.0) }
    ensures slot { IfSome result (λ found. slot_at slots.now found.0 ≡ Some found.1.now) }
    ensures within { IfSome result (λ found. found.0 < length slots.now) }
    ensures none { result ≡ None → (i : ℕ) → slot_of_id places.now id ≡ Some i → slot_at slots.now i ≡ None }
{
    if let Some(Some(op)) = slots.get(first) {
        if op.has_id(id) {
            return Some((first, op));
        }
    }
    find_slot(slots, places, id)
}

/// Drops the empty slots at the end.
fn drop_empty_end(slots: &mut Vec<Option<Op>>)
    ensures standing { ops_in_slots slots.new.items ≡ ops_in_slots slots.old.items }
    ensures slots { (i : ℕ) → slot_at slots.new.items i ≡ slot_at slots.old.items i }
    ensures len { vec_len slots.new ≤ vec_len slots.old }
    ensures end { slice_get slots.new.items (vec_len slots.new - 1) ≢ Some None }
    ensures capacity { vec_capacity slots.new ≡ vec_capacity slots.old }
{
    while let Some(None) = slots.last() {
        slots.pop();
    }
}
