//! The judge of one writer's register: its calls, and what they promise.

ghost use Rattle.std.specs.Prelude.{◌≡◌, ◌≢◌, ◌↔◌, ◌++◌, ◌∷◌, [], None, Some, IfOk, IfSome, OnOk, OnErr, IsNone, IsSome, IsSomeAnd, IsOk, IsTrue, not, option_map};
ghost use Rattle.intervals.specs.Edit.{edited, op_of};
ghost use Rattle.intervals.specs.Operation.{IsWrite, IsJudgedRead, is_write};
ghost use Rattle.intervals.specs.Table.{prepared_after};
ghost use Rattle.intervals.specs.Target.{IsTargetOf};
ghost use Rattle.intervals.specs.Terms.{terms_of, state_of};
ghost use Rattle.intervals.specs.Kind.{IsSafe, IsRegular, Holds};
ghost use Rattle.intervals.specs.Refusal.{write_refusal, reply_to, ok_unless};
ghost use Rattle.intervals.specs.Judging.{first_wrong};
ghost use Rattle.safe_regular.specs.Judge.{without_write, without_read};

use crate::reads::Reads;
use crate::writes::{Writes, check_write};
use intervals::laws::{regular_without_wrong_reads, safe_without_wrong_reads};
use intervals::{Claim, Edit, Kind, Memory, Op, OpId, OpTable, Refusal, Target};
use std::alloc::Global;
use std::marker::Model;

/// The operations of one register that claims to be safe or regular, with the verdict on its reads.
#[derive(Drop)]
pub struct SingleWriterJudge<'t> {
    claim: Claim,
    table: OpTable<'t>,
    writes: Writes,
    reads: Reads,
}

impl<'t> Model for SingleWriterJudge<'t> {
    ghost use Rattle.intervals.specs.Terms.{terms_of};
    ghost use Rattle.safe_regular.specs.Held.{JudgeModel, AreOfOneJudge};

    ghost Value = { JudgeModel };

    ghost view = { λ j. record { claim = terms_of j.claim; ops = j.table.ops; prepared = j.table.prepared } };

    ghost invariant = { λ j. AreOfOneJudge (terms_of j.claim) j.table j.writes j.reads };
}

impl<'t> SingleWriterJudge<'t> {
    /// A judge of no operations. The error says that memory was refused.
    pub fn new(alloc: Global, claim: &Claim) -> Result<Self, Memory>
        requires kind { claim.now.kind ≢ Kind.Atomic }
        requires known { IsTrue (terms_of claim.now).known }
        ensures { IfOk result (λ judge. judge ≡ record { claim = terms_of claim.now; ops = []; prepared = None }) }
    {
        Ok(SingleWriterJudge {
            claim: claim.try_clone(alloc)?,
            table: OpTable::new(alloc),
            writes: Writes::new(alloc),
            reads: Reads::new(alloc)?,
        })
    }

    /// The claim that the register is judged by.
    pub fn claim(&self) -> &Claim
        ensures { terms_of result.now ≡ self.now.claim }
    {
        &self.claim
    }

    /// The operations that stand, unfinished reads among them.
    pub fn operations(&self) -> &OpTable<'t>
        ensures { result.now.ops ≡ self.now.ops }
    {
        &self.table
    }

    /// The first of `NotAWriter`, `WritesOverlap` and `OutOfDomain` that holds of the write; none holds of a read.
    /// An operation of its own id is no other write, so an amended write does not overlap what it was.
    pub fn check_write(&self, op: &Op) -> Result<(), Refusal>
        ensures { result ≡ ok_unless (write_refusal self.now.claim self.now.ops op.now) }
    {
        check_write(&self.claim, &self.writes, &self.table, op)
    }

    /// The operation that room was made for, if there is one.
    pub fn prepared(&self) -> Option<Op<'t>>
        ensures { result ≡ self.now.prepared }
    {
        self.table.prepared()
    }

    /// Makes room for an operation. After that, to drop any operations and then to admit this one takes no memory.
    pub fn prepare(&mut self, op: &Op<'t>) -> Result<(), Memory>
        requires { self.old.prepared ≡ None }
        ensures ok { OnOk result (self.new ≡ record self.old { prepared = Some op.now }) }
        ensures err { OnErr result (self.new ≡ self.old) }
    {
        self.reads.prepare(&self.table)?;
        self.writes.hold(op)?;
        if let Err(refused) = self.table.prepare(op) {
            self.writes.release(op);
            return Err(refused);
        }
        Ok(())
    }

    /// Gives up the room for the prepared operation.
    pub fn release(&mut self, op: &Op<'t>)
        requires { self.old.prepared ≡ Some op.now }
        ensures { self.new ≡ record self.old { prepared = None } }
    {
        self.writes.release(op);
        self.table.release();
    }

    /// Carries out an edit that nothing refuses. It takes no memory where the new operation is prepared or where
    /// there is none.
    pub fn admit(&mut self, edit: &Edit<'t>, target: &Target<'t>) -> Result<(), Memory>
        requires accepted { reply_to (state_of self.old.claim self.old.ops) edit.now ≡ None }
        requires target { IsTargetOf self.old.ops edit.now target.now }
        requires prepared { IfSome self.old.prepared (λ op. IfSome target.now.new (λ new. new ≡ op)) }
        ensures ok { OnOk result (self.new ≡ record self.old { ops = edited self.old.ops edit.now; prepared = prepared_after target.now.new self.old.prepared }) }
        ensures err { OnErr result (self.new ≡ self.old) }
        ensures memory { OnErr result (IsSome target.now.new × (self.old.prepared ≡ None)) }
    {
        if let Some(op) = &target.new {
            if self.table.prepared().is_none() {
                self.prepare(op)?;
            }
        }
        self.settle(edit, target);
        Ok(())
    }

    /// Carries out an edit whose new operation, if it has one, is prepared.
    fn settle(&mut self, edit: &Edit<'t>, target: &Target<'t>)
        requires accepted { reply_to (state_of self.old.claim self.old.ops) edit.now ≡ None }
        requires target { IsTargetOf self.old.ops edit.now target.now }
        requires prepared { IfSome target.now.new (λ op. self.old.prepared ≡ Some op) }
        ensures { self.new ≡ record self.old { ops = edited self.old.ops edit.now; prepared = prepared_after target.now.new self.old.prepared } }
    {
        let old = &target.old;
        let new = &target.new;
        self.writes.change(old, new, &self.table.prepared());
        self.table.admit(edit, target);
        self.reads
            .change(&self.claim, &self.writes, &self.table, old, new);
    }

    /// Appends a write that nothing refuses.
    pub fn admit_write(&mut self, write: &Op<'t>) -> Result<(), Memory>
        requires write { IsWrite write.now }
        requires accepted { reply_to (state_of self.old.claim self.old.ops) (Edit.Append write.now) ≡ None }
        requires prepared { IfSome self.old.prepared (λ op. write.now ≡ op) }
        ensures succeeds { IsSome self.old.prepared → IsOk result }
        ensures ok { OnOk result (self.new ≡ record self.old { ops = self.old.ops ++ write.now ∷ []; prepared = None }) }
        ensures err { OnErr result (self.new ≡ self.old) }
    {
        let edit = Edit::Append(*write);
        let target = self.table.target(&edit);
        self.admit(&edit, &target)
    }

    /// Appends a read that has an end and that nothing refuses.
    pub fn admit_read(&mut self, read: &Op<'t>) -> Result<(), Memory>
        requires read { IsJudgedRead read.now }
        requires accepted { reply_to (state_of self.old.claim self.old.ops) (Edit.Append read.now) ≡ None }
        requires prepared { IfSome self.old.prepared (λ op. read.now ≡ op) }
        ensures succeeds { IsSome self.old.prepared → IsOk result }
        ensures ok { OnOk result (self.new ≡ record self.old { ops = self.old.ops ++ read.now ∷ []; prepared = None }) }
        ensures err { OnErr result (self.new ≡ self.old) }
    {
        let edit = Edit::Append(*read);
        let target = self.table.target(&edit);
        self.admit(&edit, &target)
    }

    /// Withdraws the write of that id. Where the id is that of a read, or of nothing, all is left alone.
    pub fn drop_write(&mut self, id: OpId)
        ensures { self.new ≡ record self.old { ops = without_write self.old.ops id } }
    {
        if is_write_in(&self.table, id) {
            self.withdraw(id);
        }
    }

    /// Withdraws the read of that id. Where the id is that of a write, or of nothing, all is left alone.
    pub fn drop_read(&mut self, id: OpId)
        ensures { self.new ≡ record self.old { ops = without_read self.old.ops id } }
    {
        if is_read_in(&self.table, id) {
            self.withdraw(id);
        }
    }

    fn withdraw(&mut self, id: OpId)
        requires { IsSome (op_of self.old.ops id) }
        ensures { self.new ≡ record self.old { ops = edited self.old.ops (Edit.Withdraw id) } }
    {
        let edit = Edit::Withdraw(id);
        let target = self.table.target(&edit);
        self.settle(&edit, &target);
    }

    /// The id of the first fault: of the reads that break the sentence of the claimed kind, the one that ended
    /// first.
    pub fn first_fault(&self) -> Option<OpId>
        ensures fault { result ≡ option_map (λ op. op.id) (first_wrong self.now.claim self.now.ops) }
        ensures safe { self.now.claim.kind ≡ Kind.Safe → (IsNone result ↔ IsSafe self.now.claim self.now.ops) }
        ensures regular { self.now.claim.kind ≡ Kind.Regular → (IsNone result ↔ IsRegular self.now.claim self.now.ops) }
    {
        safe_without_wrong_reads();
        regular_without_wrong_reads();
        self.first_wrong().map(|op| op.id)
    }

    /// The read of the first fault, as an operation.
    pub fn first_wrong(&self) -> Option<Op<'t>>
        ensures { result ≡ first_wrong self.now.claim self.now.ops }
    {
        self.reads.first_wrong(&self.table)
    }

    /// Whether no read is wrong.
    pub fn holds(&self) -> bool
        ensures { IsTrue result ↔ Holds (state_of self.now.claim self.now.ops) }
    {
        safe_without_wrong_reads();
        regular_without_wrong_reads();
        self.reads.holds()
    }
}

fn is_write_in(table: &OpTable, id: OpId) -> bool
    ensures { IsTrue result ↔ IsSomeAnd (op_of table.now.ops id) IsWrite }
{
    match table.get(id) {
        Some(op) => op.is_write(),
        None => false,
    }
}

fn is_read_in(table: &OpTable, id: OpId) -> bool
    ensures { IsTrue result ↔ IsSomeAnd (op_of table.now.ops id) (λ op. IsTrue (not (is_write op))) }
{
    match table.get(id) {
        Some(op) => !op.is_write(),
        None => false,
    }
}
