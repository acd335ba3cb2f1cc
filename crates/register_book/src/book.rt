//! The book of one register: its calls, and what they promise.

ghost use Rattle.std.specs.Prelude.{◌≡◌, ◌≢◌, ◌↔◌, ◌+◌, ◌≤◌, [], All, Some, None, false, length, IfOk, IfSome, OnOk, OnErr, IsNone, IsTrue, option_copied, ◌*◌, true};
ghost use Rattle.intervals.specs.Terms.{terms_of, IsKnownUnlessAtomic};
ghost use Rattle.intervals.specs.Edit.{op_of, is_claim};
ghost use Rattle.intervals.specs.Target.{IsTargetOf};
ghost use Rattle.intervals.specs.Refusal.{reply_to, to_kind_refusal, carried_out, after_edit};
ghost use Rattle.intervals.specs.Kind.{Holds};
ghost use Rattle.intervals.specs.Table.{ops_in_slots};
ghost use Rattle.zones.specs.AtFirst.{with_start};
ghost use Rattle.zones.specs.Turn.{IsOrder};
ghost use Rattle.register_book.specs.BookModel.{claimed_of, most_steps};
ghost use Rattle.register_book.specs.Reply.{IsReply, TakesMemory};
ghost use Rattle.register_book.specs.declared.fault.Witness.{Witness as AWitness};
ghost use Rattle.register_book.specs.Fault.{IsWitness, ids_of, operations_of};

use crate::judge::Judge;
use crate::laws::a_witness_is_present;
use crate::refused::refusal_of;
use crate::{Fault, Reply, Witness};
use intervals::{Claim, Edit, Kind, Memory, Op, OpId, Target};
use std::alloc::Global;
use std::marker::Model;

/// One register: its claim, the operations that stand, and the verdict.
#[derive(Drop)]
pub struct RegisterBook<'t> {
    alloc: Global,
    judge: Judge<'t>,
    /// The steps of the judges that claims have replaced.
    gone: u64,
}

impl<'t> Model for RegisterBook<'t> {
    ghost use Rattle.register_book.specs.BookModel.{BookModel};

    ghost Value = { BookModel };

    ghost use Rattle.intervals.specs.Standing.{StandApart};
    ghost use Rattle.register_book.specs.BookModel.{claimed_of};
    ghost use Rattle.register_book.specs.Judge.{held_by, kept_by, IsOfItsKind, HasNonePrepared};

    ghost view = { λ b. kept_by b.judge b.gone };

    ghost invariant = { λ b. IsOfItsKind b.judge × HasNonePrepared b.judge × StandApart (claimed_of (held_by b.judge)) };
}

impl<'t> RegisterBook<'t> {
    /// A book of no operations, with a copy of the claim. The initial value of a safe or regular register must be
    /// known. An error says that memory was refused, as in the other calls.
    pub fn new(alloc: Global, claim: &Claim) -> Result<Self, Memory>
        requires { IsKnownUnlessAtomic (terms_of claim.now) }
        ensures made { IfOk result (λ book. book ≡ record { claim = terms_of claim.now; ops = []; steps = 0 }) }
    {
        Ok(RegisterBook {
            alloc,
            judge: Judge::new(alloc, claim)?,
            gone: 0,
        })
    }

    /// The kind that the register claims to be.
    pub fn kind(&self) -> Kind
        ensures { result ≡ self.now.claim.kind }
    {
        self.judge.claim().kind
    }

    /// How many operations stand, unfinished ones among them.
    pub fn len(&self) -> usize
        ensures { result ≡ length self.now.ops }
    {
        self.judge.operations().len()
    }

    /// The operations in the order of their appends; the slot of a withdrawn one is empty.
    pub fn slots(&self) -> &[Option<Op<'t>>]
        ensures { ops_in_slots result.now ≡ self.now.ops }
    {
        self.judge.operations().slots()
    }

    /// The operation of that id, if it stands.
    pub fn get(&self, id: OpId) -> Option<&Op<'t>>
        ensures { option_copied result ≡ op_of self.now.ops id }
    {
        self.judge.operations().get(id)
    }

    /// Carries an edit out and returns whether the register holds after it, or returns why the edit is refused. A
    /// withdrawal takes no memory, and neither does a claim of the kind that the register has already, which only
    /// asks for the verdict. A claim of another kind judges all operations again, in as many steps as it takes to append
    /// them; the old judge is kept until that is done.
    pub fn apply(&mut self, edit: Edit<'t>) -> Result<Reply, Memory>
        ensures reply { IfOk result (λ reply. IsReply (claimed_of self.old) edit.entry reply) }
        ensures after { OnOk result (claimed_of self.new ≡ after_edit (claimed_of self.old) edit.entry) }
        ensures err { OnErr result (self.new ≡ self.old) }
        ensures memory { OnErr result (reply_to (claimed_of self.old) edit.entry ≡ None) }
        ensures withdrawal { OnErr result (TakesMemory (claimed_of self.old) edit.entry) }
        ensures steps { is_claim edit.entry ≡ false → self.new.steps ≤ self.old.steps + most_steps self.old.ops }
        ensures rises { self.old.steps ≤ self.new.steps }
        ensures none { is_claim edit.entry ≡ false → self.old.claim.kind ≢ Kind.Atomic → self.new.steps ≡ self.old.steps }
        ensures again { edit.entry ≡ Edit.Claim self.old.claim.kind → self.new.steps ≡ self.old.steps }
        ensures claims { is_claim edit.entry ≡ true → self.new.steps ≤ self.old.steps + length self.old.ops * most_steps self.old.ops }
    {
        let target = self.judge.operations().target(&edit);
        if let Some(refusal) = refusal_of(self.alloc, &self.judge, &edit, &target)? {
            return Ok(Reply::Refused(refusal));
        }
        self.apply_accepted(&edit, &target)?;
        Ok(Reply::Accepted {
            holds: self.holds(),
        })
    }

    fn apply_accepted(&mut self, edit: &Edit<'t>, target: &Target<'t>) -> Result<(), Memory>
        requires accepted { reply_to (claimed_of self.old) edit.now ≡ None }
        requires target { IsTargetOf self.old.ops edit.now target.now }
        ensures ok { OnOk result (claimed_of self.new ≡ carried_out (claimed_of self.old) edit.now) }
        ensures err { OnErr result (self.new ≡ self.old) }
        ensures memory { OnErr result (TakesMemory (claimed_of self.old) edit.now) }
        ensures steps { is_claim edit.now ≡ false → self.new.steps ≤ self.old.steps + most_steps self.old.ops }
        ensures rises { self.old.steps ≤ self.new.steps }
        ensures none { is_claim edit.now ≡ false → self.old.claim.kind ≢ Kind.Atomic → self.new.steps ≡ self.old.steps }
        ensures again { edit.now ≡ Edit.Claim self.old.claim.kind → self.new.steps ≡ self.old.steps }
        ensures claims { is_claim edit.now ≡ true → self.new.steps ≤ self.old.steps + length self.old.ops * most_steps self.old.ops }
    {
        match edit {
            Edit::Claim(kind) => self.change_kind(*kind),
            _ => self.judge.admit(edit, target),
        }
    }

    fn change_kind(&mut self, kind: Kind) -> Result<(), Memory>
        requires { to_kind_refusal kind self.old.claim self.old.ops ≡ None }
        ensures ok { OnOk result (claimed_of self.new ≡ record { claim = record self.old.claim { kind = kind }; ops = self.old.ops }) }
        ensures err { OnErr result (self.new ≡ self.old) }
        ensures memory { OnErr result (kind ≢ self.old.claim.kind) }
        ensures rises { self.old.steps ≤ self.new.steps }
        ensures again { kind ≡ self.old.claim.kind → self.new.steps ≡ self.old.steps }
        ensures claims { self.new.steps ≤ self.old.steps + length self.old.ops * most_steps self.old.ops }
    {
        if self.kind() == kind {
            return Ok(());
        }
        let judge = self.judge.as_kind(self.alloc, kind)?;
        self.gone = self.gone.saturating_add(self.judge.steps());
        self.judge = judge;
        Ok(())
    }

    /// How many levels edits have gone down trees of zones since the book began, in the judge of each claim to be
    /// atomic; at most `u64::MAX`.
    pub fn steps(&self) -> u64
        ensures { result ≡ self.now.steps }
    {
        self.gone.saturating_add(self.judge.steps())
    }

    /// Whether the register keeps the sentence of its kind; where its initial value is unknown, whether it does
    /// for some initial value that no write carries.
    pub fn holds(&self) -> bool
        ensures { IsTrue result ↔ Holds (claimed_of self.now) }
    {
        self.judge.holds()
    }

    /// The operations that show that the register fails, by their ids; `None` where it holds.
    pub fn fault(&self) -> Option<Fault>
        ensures fault { IfSome result (λ fault. (witness : AWitness) × IsWitness self.now.claim self.now.ops witness × (ids_of witness ≡ fault)) }
        ensures none { IsNone result ↔ Holds (claimed_of self.now) }
    {
        let witness = self.witness()?;
        Some(witness.ids())
    }

    /// The operations that show that the register fails; `None` where it holds. They are lent as long as the
    /// trace, and not by the book.
    pub fn witness(&self) -> Option<Witness<'t>>
        ensures witness { IfSome result (IsWitness self.now.claim self.now.ops) }
        ensures none { IsNone result ↔ Holds (claimed_of self.now) }
        ensures stand { IfSome result (λ witness. All (λ op. op_of self.now.ops op.id ≡ Some op) (operations_of witness)) }
    {
        a_witness_is_present();
        self.judge.witness()
    }

    /// An order of the operations that shows that an atomic register holds, by their ids: the clusters by the left
    /// edges of their zones, in each the write and then its reads by their beginnings. `None` where the register
    /// is not atomic or does not hold.
    pub fn order(&self, alloc: Global) -> Result<Option<Vec<OpId>>, Memory>
        ensures order { IfOk result (λ found. IfSome found (λ ids. IsOrder (with_start (claimed_of self.now)) self.now.ops ids.items)) }
        ensures none { IfOk result (λ found. IsNone found ↔ ¬ ((self.now.claim.kind ≡ Kind.Atomic) × Holds (claimed_of self.now))) }
        ensures memory { OnErr result ((self.now.claim.kind ≡ Kind.Atomic) × Holds (claimed_of self.now)) }
    {
        self.judge.order(alloc)
    }
}
