//! The judge of a register, for one writer or for many, with the same calls for both.

ghost use Rattle.std.specs.Prelude.{◌≡◌, ◌≢◌, ◌↔◌, ◌+◌, ◌≤◌, [], None, IfOk, IfSome, OnOk, OnErr, IsNone, IsSome, IsTrue, ◌*◌, length};
ghost use Rattle.intervals.specs.Terms.{terms_of, IsKnownUnlessAtomic};
ghost use Rattle.intervals.specs.Edit.{edited};
ghost use Rattle.intervals.specs.Target.{IsTargetOf};
ghost use Rattle.intervals.specs.Refusal.{reply_to, to_kind_refusal, write_refusal, ok_unless};
ghost use Rattle.intervals.specs.Standing.{HasDistinctIds, StandApart};
ghost use Rattle.intervals.specs.Kind.{Holds};
ghost use Rattle.zones.specs.AtFirst.{with_start};
ghost use Rattle.zones.specs.Turn.{IsOrder};
ghost use Rattle.register_book.specs.Judge.{held_by, IsOfItsKind, HasNonePrepared};
ghost use Rattle.register_book.specs.BookModel.{claimed_of, most_steps};
ghost use Rattle.register_book.specs.Fault.{IsWitness};

use crate::Witness;
use crate::many_writers::witness_of;
use crate::one_writer::wrong_read_of;
use intervals::{Claim, Edit, Kind, Memory, Op, OpId, OpTable, Refusal, Target};
use safe_regular::SingleWriterJudge;
use std::alloc::Global;
use zones::Clusters;

/// The operations of a register, with what judges them: `One` where it claims to be safe or regular, else `Many`.
#[derive(Drop)]
pub enum Judge<'t> {
    One(SingleWriterJudge<'t>),
    Many(Clusters<'t>),
}

impl<'t> Judge<'t> {
    pub fn new(alloc: Global, claim: &Claim) -> Result<Self, Memory>
        requires { IsKnownUnlessAtomic (terms_of claim.now) }
        ensures held { IfOk result (λ judge. held_by judge ≡ record { claim = terms_of claim.now; ops = []; steps = (held_by judge).steps }) }
        ensures steps { IfOk result (λ judge. (held_by judge).steps ≡ 0) }
        ensures kind { IfOk result IsOfItsKind }
        ensures none_prepared { IfOk result HasNonePrepared }
    {
        if claim.kind == Kind::Atomic {
            Ok(Judge::Many(Clusters::new(alloc, claim)?))
        } else {
            Ok(Judge::One(SingleWriterJudge::new(alloc, claim)?))
        }
    }

    /// A judge of the same operations under another kind. They are appended to it again, in their order.
    pub fn as_kind(&self, alloc: Global, kind: Kind) -> Result<Self, Memory>
        requires apart { StandApart (claimed_of (held_by self.now)) }
        requires accepted { to_kind_refusal kind (held_by self.now).claim (held_by self.now).ops ≡ None }
        ensures held { IfOk result (λ judge. claimed_of (held_by judge) ≡ record { claim = record (held_by self.now).claim { kind = kind }; ops = (held_by self.now).ops }) }
        ensures steps { IfOk result (λ judge. (held_by judge).steps ≤ length (held_by self.now).ops * most_steps (held_by self.now).ops) }
        ensures kind { IfOk result IsOfItsKind }
        ensures none_prepared { IfOk result HasNonePrepared }
    {
        let mut claim = self.claim().try_clone(alloc)?;
        claim.kind = kind;
        let mut judge = Judge::new(alloc, &claim)?;
        for slot in self.operations().slots() {
            if let Some(op) = slot {
                let edit = Edit::Append(*op);
                let target = judge.operations().target(&edit);
                judge.admit(&edit, &target)?;
            }
        }
        Ok(judge)
    }

    pub fn claim(&self) -> &Claim
        ensures { terms_of result.now ≡ (held_by self.now).claim }
    {
        match self {
            Judge::One(judge) => judge.claim(),
            Judge::Many(clusters) => clusters.claim(),
        }
    }

    pub fn operations(&self) -> &OpTable<'t>
        ensures { result.now.ops ≡ (held_by self.now).ops }
    {
        match self {
            Judge::One(judge) => judge.operations(),
            Judge::Many(clusters) => clusters.operations(),
        }
    }

    /// The first of X6 to X9 that the write meets; a read meets none.
    pub fn check_write(&self, op: &Op) -> Result<(), Refusal>
        ensures { result ≡ ok_unless (write_refusal (held_by self.now).claim (held_by self.now).ops op.now) }
    {
        match self {
            Judge::One(judge) => judge.check_write(op),
            Judge::Many(clusters) => clusters.check_write(op),
        }
    }

    /// Carries out an edit that nothing refuses. The room that it needs is made first, so where memory is refused
    /// nothing has changed.
    pub fn admit(&mut self, edit: &Edit<'t>, target: &Target<'t>) -> Result<(), Memory>
        requires accepted { reply_to (claimed_of (held_by self.old)) edit.now ≡ None }
        requires target { IsTargetOf (held_by self.old).ops edit.now target.now }
        requires none_prepared { HasNonePrepared self.old }
        ensures ok { OnOk result (held_by self.new ≡ record (held_by self.old) { ops = edited (held_by self.old).ops edit.now; steps = (held_by self.new).steps }) }
        ensures err { OnErr result (self.new ≡ self.old) }
        ensures memory { OnErr result (IsSome target.now.new) }
        ensures kind { IsOfItsKind self.old → IsOfItsKind self.new }
        ensures left { HasNonePrepared self.new }
        ensures steps { (held_by self.new).steps ≤ (held_by self.old).steps + most_steps (held_by self.old).ops }
        ensures rises { (held_by self.old).steps ≤ (held_by self.new).steps }
    {
        match self {
            Judge::One(judge) => judge.admit(edit, target),
            Judge::Many(clusters) => clusters.admit(edit, target),
        }
    }

    pub fn steps(&self) -> u64
        requires { IsOfItsKind self.now }
        ensures steps { result ≡ (held_by self.now).steps }
        ensures none { (held_by self.now).claim.kind ≢ Kind.Atomic → result ≡ 0 }
    {
        match self {
            Judge::One(_) => 0,
            Judge::Many(clusters) => clusters.steps(),
        }
    }

    pub fn holds(&self) -> bool
        requires { IsOfItsKind self.now }
        ensures { IsTrue result ↔ Holds (claimed_of (held_by self.now)) }
    {
        match self {
            Judge::One(judge) => judge.holds(),
            Judge::Many(clusters) => clusters.holds(),
        }
    }

    pub fn witness(&self) -> Option<Witness<'t>>
        requires kind { IsOfItsKind self.now }
        requires ids { HasDistinctIds (held_by self.now).ops }
        ensures witness { IfSome result (IsWitness (held_by self.now).claim (held_by self.now).ops) }
        ensures none { IsNone result ↔ Holds (claimed_of (held_by self.now)) }
    {
        match self {
            Judge::One(judge) => wrong_read_of(judge),
            Judge::Many(clusters) => witness_of(clusters),
        }
    }

    pub fn order(&self, alloc: Global) -> Result<Option<Vec<OpId>>, Memory>
        requires { IsOfItsKind self.now }
        ensures order { IfOk result (λ found. IfSome found (λ ids. IsOrder (with_start (claimed_of (held_by self.now))) (held_by self.now).ops ids.items)) }
        ensures none { IfOk result (λ found. IsNone found ↔ ¬ (((held_by self.now).claim.kind ≡ Kind.Atomic) × Holds (claimed_of (held_by self.now)))) }
        ensures memory { OnErr result (((held_by self.now).claim.kind ≡ Kind.Atomic) × Holds (claimed_of (held_by self.now))) }
    {
        match self {
            Judge::One(_) => Ok(None),
            Judge::Many(clusters) => clusters.order(alloc),
        }
    }
}
