//! The order in which the operations of a faultless register are given.

ghost use Rattle.std.specs.Prelude.{◌≡◌, ◌++◌, ◌∷◌, [], ◌↔◌, Contains, IfOk, IfSome, IsNone, OnOk, OnErr, map, is_some, ◌||◌};
ghost use Rattle.intervals.specs.Operation.{judged, value_of, is_write};
ghost use Rattle.intervals.specs.Kind.{Arranges, IsAtomic};
ghost use Rattle.intervals.specs.Table.{ops_in_slots};
ghost use Rattle.intervals.specs.Terms.{state_of};
ghost use Rattle.zones.specs.AtFirst.{initial_of, start_of, with_start};
ghost use Rattle.zones.specs.Cluster.{values_from};
ghost use Rattle.zones.specs.Fault.{IsFaultless};
ghost use Rattle.zones.specs.Turn.{IsInTurn, IsOrder};
ghost use Rattle.zones.specs.Order.{turn_of, placed_of};

use crate::register::Clusters;
use intervals::{Memory, Moment, Op, OpId};
use std::alloc::Global;
use zone_tree::Edge;

/// What the operations are sorted by: the left edge of the zone of the value, a write before reads, the beginning.
#[derive(Clone, Copy, PartialEq, Eq, PartialOrd, Ord)]
struct TurnKey {
    left: Edge,
    is_read: bool,
    begin: Moment,
}

#[derive(Clone, Copy)]
struct OpInTurn<'t> {
    turn: TurnKey,
    op: Op<'t>,
}

impl<'t> Clusters<'t> {
    /// The ids of the judged operations in an order that keeps precedence and lets every read return the latest
    /// write before it, where there is one: the clusters by the left edges of their zones, in each the write and
    /// then its reads by their beginnings. Takes memory for the ids and, while it sorts, for the operations.
    pub fn order(&self, alloc: Global) -> Result<Option<Vec<OpId>>, Memory>
        ensures order { IfOk result (λ found. IfSome found (λ ids. IsOrder (with_start (state_of self.now.claim self.now.ops)) self.now.ops ids.items)) }
        ensures none { IfOk result (λ found. IsNone found ↔ ¬ IsAtomic self.now.claim self.now.ops) }
        ensures memory { OnErr result (IsAtomic self.now.claim self.now.ops) }
    {
        if !self.holds() {
            return Ok(None);
        }
        let placed = self.in_turn(alloc)?;
        let ids = ids_of(alloc, &placed)?;
        Ok(Some(ids))
    }

    /// The judged operations in turn.
    fn in_turn(&self, alloc: Global) -> Result<Vec<OpInTurn<'t>>, Memory>
        requires { IsFaultless (start_of self.now.claim self.now.ops) self.now.ops }
        ensures arranges { IfOk result (λ placed. Arranges (with_start (state_of self.now.claim self.now.ops)) self.now.ops (map (λ p. p.op) placed.items)) }
        ensures in_turn { IfOk result (λ placed. IsInTurn (start_of self.now.claim self.now.ops) self.now.ops (map (λ p. p.op) placed.items)) }
    {
        let mut placed = self.placed(alloc, self.operations().slots())?;
        placed.sort_unstable_by_key(|p| p.turn);
        Ok(placed)
    }

    /// The judged operations, each with its key.
    fn placed(&self, alloc: Global, slots: &[Option<Op<'t>>]) -> Result<Vec<OpInTurn<'t>>, Memory>
        requires all { ops_in_slots slots.now ≡ self.now.ops }
        requires faultless { IsFaultless (start_of self.now.claim self.now.ops) self.now.ops }
        ensures { IfOk result (λ placed. placed.items ≡ map (placed_of (start_of self.now.claim self.now.ops) self.now.ops) (judged self.now.ops)) }
    {
        let mut placed = Vec::new(alloc);
        for slot in slots {
            self.place_slot(&mut placed, *slot)?;
        }
        Ok(placed)
    }

    /// Adds the operation in the slot, if there is one and it is judged.
    fn place_slot(&self, placed: &mut Vec<OpInTurn<'t>>, slot: Option<Op<'t>>) -> Result<(), Memory>
        requires faultless { IsFaultless (start_of self.now.claim self.now.ops) self.now.ops }
        requires present { IfSome slot (Contains self.now.ops) }
        ensures { OnOk result (placed.new.items ≡ placed.old.items ++ map (placed_of (start_of self.now.claim self.now.ops) self.now.ops) (judged (ops_in_slots (slot.entry ∷ [])))) }
    {
        match slot {
            Some(op) => self.place(placed, &op),
            None => Ok(()),
        }
    }

    /// Adds the operation where it is judged.
    fn place(&self, placed: &mut Vec<OpInTurn<'t>>, op: &Op<'t>) -> Result<(), Memory>
        requires faultless { IsFaultless (start_of self.now.claim self.now.ops) self.now.ops }
        requires present { Contains self.now.ops op.now }
        ensures { OnOk result (placed.new.items ≡ placed.old.items ++ map (placed_of (start_of self.now.claim self.now.ops) self.now.ops) (judged (op.now ∷ []))) }
    {
        if is_judged(op) {
            let turn = self.turn_of(op);
            placed.push(OpInTurn { turn, op: *op })?;
        }
        Ok(())
    }

    fn turn_of(&self, op: &Op) -> TurnKey
        requires { Contains (values_from (initial_of self.now.claim self.now.ops) self.now.ops) (value_of op.now.act) }
        ensures { result ≡ turn_of (start_of self.now.claim self.now.ops) self.now.ops op.now }
    {
        let Some(zone) = self.zone_of(op.value()) else {
            unreachable!()
        };
        TurnKey {
            left: zone.left,
            is_read: !op.is_write(),
            begin: op.begin,
        }
    }
}

fn is_judged(op: &Op) -> bool
    ensures { result ≡ (is_write op.now || is_some op.now.end) }
{
    op.is_write() || op.end.is_some()
}

fn ids_of(alloc: Global, placed: &[OpInTurn]) -> Result<Vec<OpId>, Memory>
    ensures { IfOk result (λ ids. ids.items ≡ map (λ p. p.op.id) placed.now) }
{
    let ids = placed.iter().map(|place| place.op.id).collect(alloc)?;
    Ok(ids)
}
