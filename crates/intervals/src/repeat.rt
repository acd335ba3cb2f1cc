//! The first write that repeats a value: what is in the way of a claim to be atomic.

ghost use Rattle.std.specs.Prelude.{◌≡◌, ◌++◌, ◌∷◌, [], List, None, Ok, Err, IfOk, OnErr};
ghost use Rattle.intervals.specs.declared.operation.Op.{Op};
ghost use Rattle.intervals.specs.Edit.{op_of};
ghost use Rattle.intervals.specs.Refusal.{holder_of, is_holder};
ghost use Rattle.intervals.specs.FirstWrites.{AreFirst};
ghost use Rattle.intervals.specs.Refusal.{first_repeat, repeat_of};
ghost use Rattle.intervals.specs.Standing.{HasDistinctIds};
ghost use Rattle.intervals.specs.Table.{ops_in_slots};
ghost use Rattle.intervals.specs.Terms.{terms_of};

use crate::{Claim, Holder, Memory, Moment, Op, OpId, OpTable, OrderedIndex, Spot, is_same_value};
use std::alloc::Global;

impl<'t> OpTable<'t> {
    /// The first write, in the order of the appends, of a value that the register is known to have at first or
    /// that a write before it has, and what has it. It takes a look-up for each write. Where memory is refused
    /// each write is looked for among those before it, so there is an error only where no value is repeated.
    pub fn first_repeat(
        &self,
        alloc: Global,
        claim: &Claim,
    ) -> Result<Option<(OpId, Holder)>, Memory>
        requires { HasDistinctIds self.now.ops }
        ensures found { IfOk result (λ found. found ≡ first_repeat (terms_of claim.now) [] self.now.ops) }
        ensures memory { OnErr result (first_repeat (terms_of claim.now) [] self.now.ops ≡ None) }
    {
        match repeat_by_value(alloc, self.slots(), claim) {
            Ok(found) => Ok(found),
            Err(memory) => match repeat_by_pairs(self.slots(), claim) {
                Some(found) => Ok(Some(found)),
                None => Err(memory),
            },
        }
    }
}

/// The first repeat, found by an index of the values that were met.
fn repeat_by_value(
    alloc: Global,
    slots: &[Option<Op>],
    claim: &Claim,
) -> Result<Option<(OpId, Holder)>, Memory>
    requires { HasDistinctIds (ops_in_slots slots.now) }
    ensures { IfOk result (λ found. found ≡ first_repeat (terms_of claim.now) [] (ops_in_slots slots.now)) }
{
    let mut first = OrderedIndex::new(alloc);
    for slot in slots {
        if let Some(op) = slot {
            if let Some(repeat) = repeat_of(&mut first, claim, op)? {
                return Ok(Some(repeat));
            }
        }
    }
    Ok(None)
}

/// The id of the operation and the holder of its value, where it repeats a value of the index `first`, which has
/// the first write of each value. A write that repeats none is put there.
fn repeat_of(
    first: &mut OrderedIndex,
    claim: &Claim,
    op: &Op,
) -> Result<Option<(OpId, Holder)>, Memory>
    ensures repeat { (before : List Op) → AreFirst first.old before → op_of before op.now.id ≡ None
        → IfOk result (λ found. found ≡ repeat_of (terms_of claim.now) before op.now) }
    ensures first { (before : List Op) → AreFirst first.old before → result ≡ Ok None → AreFirst first.new (before ++ op.now ∷ []) }
{
    if !op.is_write() {
        return Ok(None);
    }
    if claim.is_initial(op.value()) {
        return Ok(Some((op.id, Holder::Initial)));
    }
    let spot = Spot {
        value: op.value(),
        moment: Moment(0),
    };
    if let Some(id) = first.get(spot) {
        return Ok(Some((op.id, Holder::Op(id))));
    }
    first.hold(spot)?;
    first.put(spot, op.id);
    Ok(None)
}

/// The first repeat, found without memory: each write is compared with those before it.
fn repeat_by_pairs(slots: &[Option<Op>], claim: &Claim) -> Option<(OpId, Holder)>
    ensures { result ≡ first_repeat (terms_of claim.now) [] (ops_in_slots slots.now) }
{
    for place in 0..slots.len() {
        if let Some(op) = &slots[place] {
            if op.is_write() {
                if let Some(holder) = holder_among(&slots[..place], claim, op) {
                    return Some((op.id, holder));
                }
            }
        }
    }
    None
}

/// What has the operation's value already: the register at first, or another write in the slots.
fn holder_among(slots: &[Option<Op>], claim: &Claim, op: &Op) -> Option<Holder>
    ensures { result ≡ holder_of (terms_of claim.now) (ops_in_slots slots.now) op.now }
{
    if claim.is_initial(op.value()) {
        return Some(Holder::Initial);
    }
    for slot in slots {
        if let Some(other) = slot {
            if is_holder(op, other) {
                return Some(Holder::Op(other.id));
            }
        }
    }
    None
}

/// Whether the second operation is another write and has the value of the first.
fn is_holder(op: &Op, other: &Op) -> bool
    ensures { result ≡ is_holder op.now other.now }
{
    !other.has_id(op.id) && other.is_write() && is_same_value(other.value(), op.value())
}
