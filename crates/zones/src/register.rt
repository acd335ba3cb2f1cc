//! The calls of an atomic register's judge.

ghost use Rattle.std.specs.Prelude.{◌≡◌, ◌↔◌, ◌||◌, ◌+◌, ◌*◌, ◌≤◌, All, length, IsOk, ◌++◌, ◌∷◌, [], Contains, IfOk, IfSome, IsSome, IsNone, IsSomeAnd, IsTrue, OnOk, OnErr, None, Some, is_some, option_map};
ghost use Rattle.intervals.specs.Operation.{IsWrite, writes};
ghost use Rattle.intervals.specs.Edit.{op_of, edited};
ghost use Rattle.intervals.specs.Target.{IsTargetOf};
ghost use Rattle.intervals.specs.Terms.{terms_of, state_of};
ghost use Rattle.intervals.specs.Kind.{IsAtomic};
ghost use Rattle.intervals.specs.Refusal.{first_refusal, write_refusal, reply_to, ok_unless};
ghost use Rattle.intervals.specs.Standing.{HasDistinctMoments, HasEndsAfterBeginnings};
ghost use Rattle.intervals.specs.Table.{prepared_after};
ghost use Rattle.zone_tree.specs.Conflict.{IsClean};
ghost use Rattle.zone_tree.specs.Digits.{binary_digits};
ghost use Rattle.zones.specs.AtFirst.{first_split, initial_of, start_of, unwritten_of};
ghost use Rattle.zones.specs.Cluster.{values_from, zone_of, zones_from};
ghost use Rattle.zones.specs.Crossing.{HasFirstConflictFrom, IsFirstCrossingFrom};
ghost use Rattle.zones.specs.Fault.{IsFaultless, first_early};
ghost use Rattle.zones.specs.Index.{AreMembers};
ghost use Rattle.zones.specs.Members.{IsChange};
ghost use Rattle.zones.specs.Zoned.{judged_part, value_in, other_value};

use crate::crossing::{Crossing, extremes, is_initial};
use crate::edges::edges_after;
use crate::index::Members;
use crate::laws::{faultless_exactly_where_arranged, faultless_where_no_fault_is_first};
use crate::moves::exchange;
use crate::records::Records;
use crate::stretch::{
    first_early, first_split, first_writeless, has_early, has_split, has_writeless, sole_value,
    stretches_in,
};
use crate::stretch_moves::exchange_stretches;
use crate::writes::check_write;
use crate::zone_in::{initial_zone, zone_in, zones_in};
use intervals::{
    Claim, Edit, Kind, Memory, Op, OpId, OpTable, Refusal, Target, Value, is_same_value,
};
use std::alloc::Global;
use std::marker::Model;
use zone_tree::{StretchTree, Zone, ZoneTree};

/// The operations of one atomic register, with the clusters of their values.
#[derive(Drop)]
pub struct Clusters<'t> {
    claim: Claim,
    table: OpTable<'t>,
    members: Members,
    records: Records,
    zones: ZoneTree,
    stretches: StretchTree,
}

impl<'t> Model for Clusters<'t> {
    ghost use Rattle.intervals.specs.Terms.{terms_of};
    ghost use Rattle.zones.specs.Together.{ClustersModel, AreOfOneRegister};

    ghost Value = { ClustersModel };

    ghost view = { λ c. record { claim = terms_of c.claim; ops = c.table.ops; prepared = c.table.prepared; steps = c.zones.steps } };

    ghost invariant = { λ c. AreOfOneRegister (terms_of c.claim) c.table c.members c.records c.zones c.stretches };
}

impl<'t> Clusters<'t> {
    /// A judge of no operations. Takes memory for the claim and for two stretches.
    pub fn new(alloc: Global, claim: &Claim) -> Result<Self, Memory>
        requires { claim.now.kind ≡ Kind.Atomic }
        ensures made { IfOk result (λ clusters. clusters ≡ record { claim = terms_of claim.now; ops = []; prepared = None; steps = 0 }) }
    {
        let claim = claim.try_clone(alloc)?;
        let table = OpTable::new(alloc);
        let members = Members::new(alloc);
        let records = Records::new(alloc);
        let zones = ZoneTree::new(alloc);
        let mut stretches = StretchTree::new(alloc);
        stretches.reserve(2)?;
        Ok(Clusters {
            claim,
            table,
            members,
            records,
            zones,
            stretches,
        })
    }

    /// The claim that the judge keeps.
    pub fn claim(&self) -> &Claim
        ensures { terms_of result.now ≡ self.now.claim }
    {
        &self.claim
    }

    /// The operations that stand, unfinished reads among them.
    pub fn operations(&self) -> &OpTable<'t>
        ensures operations { result.now.ops ≡ self.now.ops }
        ensures apart { HasDistinctMoments self.now.ops × HasEndsAfterBeginnings self.now.ops }
    {
        &self.table
    }

    /// How many levels the tree of zones has gone down for edits so far.
    pub fn steps(&self) -> u64
        ensures { result ≡ self.now.steps }
    {
        self.zones.steps()
    }

    /// The first of `NotAWriter`, `ValueTaken` and `OutOfDomain` that holds of the write. A write that has the id
    /// of `op` does not take its value.
    pub fn check_write(&self, op: &Op) -> Result<(), Refusal>
        ensures { result ≡ ok_unless (write_refusal self.now.claim self.now.ops op.now) }
    {
        check_write(&self.claim, &self.records, &self.table, op)
    }

    /// The operation that there is room for.
    pub fn prepared(&self) -> Option<Op<'t>>
        ensures { result ≡ self.now.prepared }
    {
        self.table.prepared()
    }

    /// Makes room for an operation: to drop any operations and then to admit this one takes no memory.
    pub fn prepare(&mut self, op: &Op<'t>) -> Result<(), Memory>
        requires { self.old.prepared ≡ None }
        ensures ok { OnOk result (self.new ≡ record self.old { prepared = Some op.now }) }
        ensures err { OnErr result (self.new ≡ self.old) }
    {
        self.zones.reserve(2)?;
        // Once its write is withdrawn a value that is read is at fault, and a withdrawal takes no memory: so there
        // is a place for a stretch of each write, beside those of this edit.
        let places = self.zones.len().checked_add(6).ok_or(Memory)?;
        self.stretches.reserve(places)?;
        self.records.reserve()?;
        self.members.hold(op)?;
        if let Err(refused) = self.table.prepare(op) {
            self.members.release(op);
            return Err(refused);
        }
        Ok(())
    }

    /// Drops the room for the prepared operation.
    pub fn release(&mut self, op: &Op<'t>)
        requires { self.old.prepared ≡ Some op.now }
        ensures { self.new ≡ record self.old { prepared = None } }
    {
        self.members.release(op);
        self.table.release();
    }

    /// Carries out an edit that nothing refuses. It takes no memory where the new operation is prepared or there
    /// is none.
    pub fn admit(&mut self, edit: &Edit<'t>, target: &Target<'t>) -> Result<(), Memory>
        requires accepted { reply_to (state_of self.old.claim self.old.ops) edit.now ≡ None }
        requires target { IsTargetOf self.old.ops edit.now target.now }
        requires prepared { IfSome self.old.prepared (λ op. IfSome target.now.new (λ new. new ≡ op)) }
        ensures ok { OnOk result (self.new ≡ record self.old { ops = edited self.old.ops edit.now; prepared = prepared_after target.now.new self.old.prepared; steps = self.new.steps }) }
        ensures err { OnErr result (self.new ≡ self.old) }
        ensures memory { OnErr result (IsSome target.now.new × (self.old.prepared ≡ None)) }
        ensures steps { self.new.steps ≤ self.old.steps + 4 * (2 * binary_digits (length (writes self.old.ops) + 1) + 1) }
        ensures rises { self.old.steps ≤ self.new.steps }
    {
        if let Some(op) = &target.new {
            if self.table.prepared().is_none() {
                self.prepare(op)?;
            }
        }
        self.settle(edit, target);
        Ok(())
    }

    /// Carries out an edit whose new operation is prepared. Where neither the old operation nor the new one is
    /// judged, the indexes and the trees stay as they are.
    fn settle(&mut self, edit: &Edit<'t>, target: &Target<'t>)
        requires accepted { reply_to (state_of self.old.claim self.old.ops) edit.now ≡ None }
        requires target { IsTargetOf self.old.ops edit.now target.now }
        requires prepared { IfSome target.now.new (λ op. self.old.prepared ≡ Some op) }
        ensures edited { self.new ≡ record self.old { ops = edited self.old.ops edit.now; prepared = prepared_after target.now.new self.old.prepared; steps = self.new.steps } }
        ensures steps { self.new.steps ≤ self.old.steps + 4 * (2 * binary_digits (length (writes self.old.ops) + 1) + 1) }
        ensures rises { self.old.steps ≤ self.new.steps }
    {
        let none = None;
        let old = judged(&target.old, &none);
        let new = judged(&target.new, &none);
        if old.is_some() || new.is_some() {
            self.settle_judged(edit, target, old, new);
            return;
        }
        self.table.admit(edit, target);
    }

    /// Carries out an edit whose new operation is prepared. `old` and `new` are the operations of `target` that
    /// are judged. It is a function of its own, so that no edges are looked up where neither is judged.
    #[inline(never)]
    fn settle_judged(
        &mut self,
        edit: &Edit<'t>,
        target: &Target<'t>,
        old: &Option<Op<'t>>,
        new: &Option<Op<'t>>,
    )
        requires accepted { reply_to (state_of self.old.claim self.old.ops) edit.now ≡ None }
        requires target { IsTargetOf self.old.ops edit.now target.now }
        requires prepared { IfSome target.now.new (λ op. self.old.prepared ≡ Some op) }
        requires old { old.now ≡ judged_part target.now.old }
        requires new { new.now ≡ judged_part target.now.new }
        ensures edited { self.new ≡ record self.old { ops = edited self.old.ops edit.now; prepared = prepared_after target.now.new self.old.prepared; steps = self.new.steps } }
        ensures steps { self.new.steps ≤ self.old.steps + 4 * (2 * binary_digits (length (writes self.old.ops) + 1) + 1) }
        ensures rises { self.old.steps ≤ self.new.steps }
    {
        // That the zones are in order is known once the tree is iterated.
        let _ = self.zones.iter();
        let first = value_in(old);
        let second = other_value(first, value_in(new));
        let edges = self.records.edges_in(first, second);
        self.members.change(old, new, &self.table.prepared());
        self.table.admit(edit, target);
        let after = edges_after(&edges, &self.members, old, new);
        self.records.put_both(&after);
        let zones = zones_in(&edges);
        let zones_after = zones_in(&after);
        let stretches = stretches_in(&edges, &self.claim);
        let stretches_after = stretches_in(&after, &self.claim);
        exchange(&mut self.zones, &zones, &zones_after);
        exchange_stretches(&mut self.stretches, &stretches, &stretches_after);
    }

    /// Appends a write that nothing refuses; where an operation is prepared it takes no memory.
    pub fn admit_write(&mut self, write: &Op<'t>) -> Result<(), Memory>
        requires write { IsWrite write.now }
        requires accepted { reply_to (state_of self.old.claim self.old.ops) (Edit.Append write.now) ≡ None }
        requires prepared { IfSome self.old.prepared (λ op. write.now ≡ op) }
        ensures succeeds { IsSome self.old.prepared → IsOk result }
        ensures ok { OnOk result (self.new ≡ record self.old { ops = self.old.ops ++ write.now ∷ []; prepared = None; steps = self.new.steps }) }
        ensures err { OnErr result (self.new ≡ self.old) }
        ensures steps { self.new.steps ≤ self.old.steps + 4 * (2 * binary_digits (length (writes self.old.ops) + 1) + 1) }
        ensures rises { self.old.steps ≤ self.new.steps }
    {
        let edit = Edit::Append(*write);
        let target = self.table.target(&edit);
        self.admit(&edit, &target)
    }

    /// Appends a read that nothing refuses; where an operation is prepared it takes no memory. A read that has no
    /// end is kept, and judged once it has one.
    pub fn admit_read(&mut self, read: &Op<'t>) -> Result<(), Memory>
        requires read { ¬ IsWrite read.now }
        requires accepted { reply_to (state_of self.old.claim self.old.ops) (Edit.Append read.now) ≡ None }
        requires prepared { IfSome self.old.prepared (λ op. read.now ≡ op) }
        ensures succeeds { IsSome self.old.prepared → IsOk result }
        ensures ok { OnOk result (self.new ≡ record self.old { ops = self.old.ops ++ read.now ∷ []; prepared = None; steps = self.new.steps }) }
        ensures err { OnErr result (self.new ≡ self.old) }
        ensures steps { self.new.steps ≤ self.old.steps + 4 * (2 * binary_digits (length (writes self.old.ops) + 1) + 1) }
        ensures rises { self.old.steps ≤ self.new.steps }
    {
        let edit = Edit::Append(*read);
        let target = self.table.target(&edit);
        self.admit(&edit, &target)
    }

    /// Withdraws a write. It takes no memory.
    pub fn drop_write(&mut self, id: OpId)
        requires { IsSomeAnd (op_of self.old.ops id) IsWrite }
        ensures dropped { self.new ≡ record self.old { ops = edited self.old.ops (Edit.Withdraw id); steps = self.new.steps } }
        ensures steps { self.new.steps ≤ self.old.steps + 4 * (2 * binary_digits (length (writes self.old.ops) + 1) + 1) }
        ensures rises { self.old.steps ≤ self.new.steps }
    {
        let edit = Edit::Withdraw(id);
        let target = self.table.target(&edit);
        // A withdrawal takes no memory.
        let _ = self.admit(&edit, &target);
    }

    /// Withdraws a read. It takes no memory.
    pub fn drop_read(&mut self, id: OpId)
        requires { IsSomeAnd (op_of self.old.ops id) (λ op. ¬ IsWrite op) }
        ensures dropped { self.new ≡ record self.old { ops = edited self.old.ops (Edit.Withdraw id); steps = self.new.steps } }
        ensures steps { self.new.steps ≤ self.old.steps + 4 * (2 * binary_digits (length (writes self.old.ops) + 1) + 1) }
        ensures rises { self.old.steps ≤ self.new.steps }
    {
        let edit = Edit::Withdraw(id);
        let target = self.table.target(&edit);
        // A withdrawal takes no memory.
        let _ = self.admit(&edit, &target);
    }

    /// The initial value: the known one, or the one that all reads of values without a write return, if they
    /// agree.
    fn initial(&self) -> Option<Value>
        ensures { result ≡ initial_of self.now.claim self.now.ops }
    {
        if self.claim.has_known_initial() {
            return Some(self.claim.at_first());
        }
        sole_value(&self.stretches)
    }

    /// The zone of a value that has a write or is the initial one; none of any other value.
    pub fn zone_of(&self, value: Value) -> Option<Zone>
        ensures zone { IfSome result (λ zone. zone ≡ zone_of (start_of self.now.claim self.now.ops) self.now.ops value) }
        ensures written { IsSome result ↔ Contains (values_from (initial_of self.now.claim self.now.ops) self.now.ops) value }
    {
        if is_initial(self.initial(), value) {
            return Some(initial_zone(&self.records, value));
        }
        zone_in(&self.records.edges_at(value))
    }

    /// Where the initial value is known, the unwritten read that ended first.
    pub fn first_unwritten(&self) -> Option<OpId>
        ensures { result ≡ option_map (λ op. op.id) (unwritten_of self.now.claim self.now.ops) }
    {
        if !self.claim.has_known_initial() {
            return None;
        }
        let read = first_writeless(&self.stretches, &self.members, &self.table)?;
        Some(read.id)
    }

    /// Where nobody knows the initial value, two reads of different values without a write: of all such reads the
    /// one that ended first, and of those of another value the one that ended first.
    pub fn first_split(&self) -> Option<(OpId, OpId)>
        ensures { result ≡ option_map (λ pair. (pair.0.id, pair.1.id)) (first_split self.now.claim self.now.ops) }
    {
        if self.claim.has_known_initial() {
            return None;
        }
        let (first, other) = first_split(&self.stretches, &self.members, &self.table)?;
        Some((first.id, other.id))
    }

    /// The early read that ended first, and the write of its value.
    pub fn first_early(&self) -> Option<(OpId, OpId)>
        ensures { result ≡ option_map (λ pair. (pair.0.id, pair.1.id)) (first_early self.now.ops) }
    {
        let (read, write) = first_early(
            &self.stretches,
            &self.members,
            &self.records,
            &self.table,
        )?;
        Some((read.id, write.id))
    }

    /// Whether no two zones conflict.
    pub fn clean(&self) -> bool
        ensures { IsTrue result ↔ IsClean (zones_from (initial_of self.now.claim self.now.ops) self.now.ops) }
    {
        // That the zones are in order is known once the tree is iterated.
        let _ = self.zones.iter();
        match self.initial() {
            Some(initial) => self
                .zones
                .clean_after(&initial_zone(&self.records, initial)),
            None => self.zones.clean(),
        }
    }

    /// The first conflict: the second zone is the first by left edge that conflicts with an earlier forward one,
    /// the first zone is of the earlier forward ones that of greatest right edge.
    pub fn first_conflict(&self) -> Option<(Zone, Zone)>
        ensures first { IfSome result (λ pair. HasFirstConflictFrom (initial_of self.now.claim self.now.ops) self.now.ops pair.0 pair.1) }
        ensures none { IsNone result ↔ IsClean (zones_from (initial_of self.now.claim self.now.ops) self.now.ops) }
    {
        // That the zones are in order is known once the tree is iterated.
        let _ = self.zones.iter();
        match self.initial() {
            Some(initial) => self
                .zones
                .first_conflict_after(&initial_zone(&self.records, initial)),
            None => self.zones.first_conflict(),
        }
    }

    /// Of the two clusters of the first conflict the operations that end first and those that begin last.
    pub fn crossing(&self) -> Option<Crossing<'t>>
        ensures first { IfSome result (λ x. IsFirstCrossingFrom (initial_of self.now.claim self.now.ops) (start_of self.now.claim self.now.ops) self.now.ops x.a x.b x.c x.d) }
        ensures none { IsNone result ↔ IsClean (zones_from (initial_of self.now.claim self.now.ops) self.now.ops) }
    {
        let (first, second) = self.first_conflict()?;
        extremes(
            &self.members,
            &self.records,
            &self.table,
            self.initial(),
            first.value,
            second.value,
        )
    }

    /// Whether some order of the judged operations keeps precedence and lets every read return the latest write
    /// before it: no read is unwritten or early, there is no split, and no zones conflict.
    pub fn holds(&self) -> bool
        ensures atomic { IsTrue result ↔ IsAtomic self.now.claim self.now.ops }
        ensures faultless { IsTrue result ↔ IsFaultless (start_of self.now.claim self.now.ops) self.now.ops }
    {
        // What the law asks of the operations is known of the table.
        let _ = &self.table;
        faultless_exactly_where_arranged();
        self.is_faultless()
    }

    /// Whether the register has no fault.
    fn is_faultless(&self) -> bool
        ensures { IsTrue result ↔ IsFaultless (start_of self.now.claim self.now.ops) self.now.ops }
    {
        faultless_where_no_fault_is_first();
        !self.has_faulty_read() && self.clean()
    }

    /// Whether a read is unwritten or early, or there is a split.
    fn has_faulty_read(&self) -> bool
        ensures { result ≡ (is_some (unwritten_of self.now.claim self.now.ops) || is_some (first_split self.now.claim self.now.ops)) || is_some (first_early self.now.ops) }
    {
        let is_unwritten = if self.claim.has_known_initial() {
            has_writeless(&self.stretches)
        } else {
            has_split(&self.stretches)
        };
        is_unwritten || has_early(&self.stretches)
    }
}

/// `op` where it is a write or has an end, else `none`, which is lent for that.
fn judged<'b, 't>(op: &'b Option<Op<'t>>, none: &'b Option<Op<'t>>) -> &'b Option<Op<'t>>
    requires { none.now ≡ None }
    ensures { result.now ≡ judged_part op.now }
{
    match op {
        Some(found) if found.is_write() || found.end.is_some() => op,
        _ => none,
    }
}

fn value_in(op: &Option<Op>) -> Option<Value>
    ensures { result ≡ value_in op.now }
{
    match op {
        Some(op) => Some(op.value()),
        None => None,
    }
}

/// The second value, where it is not the first.
fn other_value(first: Option<Value>, second: Option<Value>) -> Option<Value>
    ensures { result ≡ other_value first second }
{
    match (first, second) {
        (Some(first), Some(second)) if is_same_value(first, second) => None,
        (_, second) => second,
    }
}
