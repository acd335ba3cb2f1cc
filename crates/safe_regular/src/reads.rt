//! The reads of a register and their verdicts: judged one by one at first, later by one tree.

ghost use Rattle.std.specs.Prelude.{◌≡◌, ◌↔◌, ◌+◌, ◌≤◌, [], List, length, None, Some, IfOk, IfSome, IsSome, IsTrue, OnOk};
ghost use Rattle.intervals.specs.Judging.{first_wrong};
ghost use Rattle.intervals.specs.Terms.{ClaimModel, terms_of};
ghost use Rattle.intervals.specs.declared.operation.Op.{Op as AnOp};
ghost use Rattle.safe_regular.specs.Change.{IsChangeOf};
ghost use Rattle.safe_regular.specs.Held.{AreOneWriters, AreReads, CanJudge, HasReadRoom};
ghost use Rattle.safe_regular.specs.Rows.{AreJudged, HasRowRoom};

use crate::judged::JudgedReads;
use crate::row_items::{change, first_wrong, holds, lay};
use crate::writes::Writes;
use intervals::{Claim, Memory, Op, OpTable};
use read_tree::ReadTree;
use std::alloc::Global;

/// Rows of reads that are judged one by one, and a tree that has room for all items. Once an edit would take too
/// many looks the rows are dropped, all items are put into the tree, and it serves from then on.
#[derive(Drop)]
pub struct Reads {
    judged: Option<JudgedReads>,
    line: ReadTree,
}

impl Reads {
    pub fn new(alloc: Global) -> Result<Self, Memory>
        ensures { IfOk result (λ reads. (claim : ClaimModel) → AreReads claim [] reads) }
    {
        let mut line = ReadTree::new(alloc);
        line.reserve(1)?;
        Ok(Reads {
            judged: Some(JudgedReads::new(alloc)),
            line,
        })
    }

    /// Makes room for one operation more, in the rows and in the tree.
    pub fn prepare(&mut self, table: &OpTable) -> Result<(), Memory>
        ensures reads { (claim : ClaimModel) (ops : List AnOp) → AreReads claim ops self.old → AreReads claim ops self.new }
        ensures ok { OnOk result (HasReadRoom table.now.ops self.new) }
    {
        match &mut self.judged {
            Some(judged) => {
                self.line.reserve(places_for(table))?;
                judged.reserve()
            }
            None => self.line.reserve(1),
        }
    }

    /// After an edit that took `old` out and put `new` in, judges again the reads that it can change, by `writes`
    /// and `table` as they are now.
    pub fn change(
        &mut self,
        claim: &Claim,
        writes: &Writes,
        table: &OpTable,
        old: &Option<Op>,
        new: &Option<Op>,
    )
        requires judged { CanJudge table.now.ops writes.now }
        requires change { (ops : List AnOp) × IsChangeOf (terms_of claim.now) ops table.now.ops old.now new.now × AreReads (terms_of claim.now) ops self.old × (IsSome new.now → HasReadRoom ops self.old) }
        ensures reads { AreReads (terms_of claim.now) table.now.ops self.new }
        ensures room { (ops : List AnOp) → length table.now.ops ≤ length ops → new.now ≡ None → HasReadRoom ops self.old → HasReadRoom table.now.ops self.new }
    {
        if self.judged.is_none() {
            change(&mut self.line, claim, writes, table, old, new);
            return;
        }
        judge_again(&mut self.judged, claim, writes, table, old, new);
        if self.judged.is_none() {
            lay(&mut self.line, claim, writes, table);
        }
    }

    /// The wrong read that ended first.
    pub fn first_wrong<'t>(&self, table: &OpTable<'t>) -> Option<Op<'t>>
        ensures { (claim : ClaimModel) → AreOneWriters claim table.now.ops → AreReads claim table.now.ops self.now → result ≡ first_wrong claim table.now.ops }
    {
        match &self.judged {
            Some(judged) => judged.first_wrong(table),
            None => first_wrong(&self.line, table),
        }
    }

    /// Whether no read is wrong.
    pub fn holds(&self) -> bool
        ensures { (claim : ClaimModel) (ops : List AnOp) → AreOneWriters claim ops → AreReads claim ops self.now → IsTrue result ↔ (first_wrong claim ops ≡ None) }
    {
        match &self.judged {
            Some(judged) => judged.holds(),
            None => holds(&self.line),
        }
    }
}

/// Judges again the reads that an edit can change. Where that takes too many looks their rows are dropped.
fn judge_again(
    judged: &mut Option<JudgedReads>,
    claim: &Claim,
    writes: &Writes,
    table: &OpTable,
    old: &Option<Op>,
    new: &Option<Op>,
)
    requires judged { CanJudge table.now.ops writes.now }
    requires room { IfSome judged.old (λ rows. IsSome new.now → HasRowRoom rows) }
    ensures judged { (ops : List AnOp) → IsChangeOf (terms_of claim.now) ops table.now.ops old.now new.now → IfSome judged.old (AreJudged (terms_of claim.now) ops)
        → IfSome judged.new (AreJudged (terms_of claim.now) table.now.ops) }
    ensures room { new.now ≡ None → IfSome judged.old HasRowRoom → IfSome judged.new HasRowRoom }
{
    if let Some(rows) = judged {
        if rows.change(claim, writes, table, old, new) {
            return;
        }
    }
    *judged = None;
}

/// Places for the items of all operations, for that of one more and for the cover of the initial value.
fn places_for(table: &OpTable) -> usize
    ensures { length table.now.ops + 2 ≤ result }
{
    table.slots().len() + 2
}
