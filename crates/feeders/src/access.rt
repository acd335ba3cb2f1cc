//! How a feeder reaches the registers: with a pass of an auditor, or in its turn on a thread that has them for itself.

ghost use Rattle.std.specs.Prelude.{◌≡◌, ◌≢◌, ◌<◌, ℕ, List, IfOk, IfErr, IfSome, IsNone, IsSome, None, OnErr, OnOk, Some, length, ◌↔◌};
ghost use Rattle.shards.specs.declared.entry.Entry.{Entry};
ghost use Rattle.shards.specs.declared.fault.ShardFault.TheVariants.{Memory};
ghost use Rattle.shards.specs.Alone.{pass_alone, AreJournals};
ghost use Rattle.shards.specs.Pass.{own_entries};
ghost use Rattle.shards.specs.Steps.{entered, IsLive, IsRefusal, IsSubmitted};
ghost use Rattle.feeders.specs.Access.{access_alone, IsStillInTurn, KeepsOthers};

use intervals::{Edit, RegId};
use shards::laws::a_feeder_alone_is_served_as_with_a_pass;
use shards::{Answer, Auditor, Gate, LoneAuditor, Opening, Pass, Receipt, ShardFault};
use std::marker::Model;
use std::sync::Wait;

/// One way or the other.
#[derive(Drop)]
pub enum By<P, T> {
    WithPass(P),
    InTurn(T),
}

/// A pass, with the auditor that it is of.
#[derive(Drop)]
pub struct Guest<'a, 't, O: Opening> {
    auditor: &'a Auditor<'t, O>,
    pass: Pass<'t>,
}

impl<'a, 't, O: Opening> Model for Guest<'a, 't, O> {
    ghost use Rattle.shards.specs.Pass.{PassModel};

    ghost Value = { PassModel };

    ghost view = { λ guest. guest.pass };
}

/// The turn of one of the feeders that an auditor serves on this thread.
#[derive(Drop)]
pub struct Turn<'t, O: Opening> {
    auditor: LoneAuditor<'t, O>,
    feeder: u32,
}

impl<'t, O: Opening> Model for Turn<'t, O> {
    ghost use Rattle.std.specs.Prelude.{◌<◌};
    ghost use Rattle.feeders.specs.Access.{TurnModel};

    ghost Value = { TurnModel };

    ghost view = { λ turn. record { feeder = turn.feeder; journals = turn.auditor } };

    ghost invariant = { λ turn. turn.feeder < O.plan.feeders };
}

/// How a feeder reaches the registers. It is seen as the feeder's pass, which in a turn is there in proofs alone, with the
/// journals that the thread then has for itself.
#[derive(Drop)]
pub struct Access<'a, 't, O: Opening> {
    by: By<Guest<'a, 't, O>, Turn<'t, O>>,
}

impl<'a, 't, O: Opening> Model for Access<'a, 't, O> {
    ghost use Rattle.feeders.specs.Access.{AccessModel, access_by};

    ghost Value = { AccessModel };

    ghost view = { λ access. access_by O.plan access.by };
}

impl<'a, 't, O: Opening> Access<'a, 't, O> {
    /// That of a feeder with a pass.
    pub fn with_pass(auditor: &'a Auditor<'t, O>, pass: Pass<'t>) -> Self
        ensures { (result.pass ≡ pass.entry) × (result.journals ≡ None) }
    {
        Access {
            by: By::WithPass(Guest { auditor, pass }),
        }
    }

    /// That of the feeder of this number, on a thread that has the auditor for itself.
    pub fn in_turn(auditor: LoneAuditor<'t, O>, feeder: u32) -> Self
        requires { feeder < O.plan.feeders }
        ensures { result ≡ access_alone O.plan feeder auditor.entry }
    {
        Access {
            by: By::InTurn(Turn { auditor, feeder }),
        }
    }

    /// The pass; none of a turn.
    pub fn into_pass(self) -> Option<Pass<'t>>
        ensures some { IfSome result (λ pass. pass ≡ self.entry.pass) }
        ensures none { IsNone result ↔ IsSome self.entry.journals }
    {
        match self.by {
            By::WithPass(guest) => Some(guest.into_pass()),
            By::InTurn(_) => None,
        }
    }

    /// The auditor that the thread has for itself; none of a feeder with a pass.
    pub fn into_auditor(self) -> Option<LoneAuditor<'t, O>>
        ensures journals { result ≡ self.entry.journals }
        ensures turn { IfSome result (λ auditor. self.entry ≡ access_alone O.plan self.entry.pass.feeder auditor) }
    {
        match self.by {
            By::WithPass(_) => None,
            By::InTurn(turn) => Some(turn.into_auditor()),
        }
    }

    /// Goes to the turn of the feeder of this number. One with a pass has no turns, and nothing is changed.
    pub fn turn_to(&mut self, feeder: u32)
        requires { feeder < O.plan.feeders }
        ensures { (journals : List (List Entry)) → self.old.journals ≡ Some journals → self.new ≡ access_alone O.plan feeder journals }
    {
        match &mut self.by {
            By::WithPass(_) => {}
            By::InTurn(turn) => turn.feeder = feeder,
        }
    }

    /// The feeder.
    pub fn feeder(&self) -> u32
        ensures { result ≡ self.now.pass.feeder }
    {
        match &self.by {
            By::WithPass(guest) => guest.pass.feeder(),
            By::InTurn(turn) => turn.feeder,
        }
    }

    /// How many edits the feeder submitted in a shard; 0 where there is no such shard.
    pub fn submitted(&self, shard: u32) -> u64
        ensures { result ≡ length (own_entries self.now.pass shard) }
    {
        match &self.by {
            By::WithPass(guest) => guest.pass.submitted(shard),
            By::InTurn(turn) => turn.auditor.submitted(turn.feeder, shard),
        }
    }

    /// Carries an edit of a register out, or has the register refuse it, and enters it either way. An error enters
    /// nothing.
    pub fn submit<R: Wait, G: Gate>(
        &mut self,
        rt: &R,
        gate: &G,
        register: RegId,
        edit: &Edit<'t>,
    ) -> Result<Receipt, ShardFault>
        ensures submitted { IfOk result (IsSubmitted O.plan self.old.pass register edit.now) }
        ensures told { IfOk result (λ receipt. self.new.pass ≡ entered self.old.pass register edit.now receipt) }
        ensures others { OnOk result (KeepsOthers O.plan self.old self.new) }
        ensures refused { IfErr result (IsRefusal O.plan self.old.pass register.0) }
        ensures err { OnErr result (self.new ≡ self.old) }
    {
        match &mut self.by {
            By::WithPass(guest) => guest.submit(rt, gate, register, edit),
            By::InTurn(turn) => submit_in_turn(turn, gate, register, edit),
        }
    }

    /// The verdict on a register as it is now, with how many operations stand. It takes no memory.
    pub fn standing<R: Wait, G: Gate>(
        &mut self,
        rt: &R,
        gate: &G,
        register: RegId,
    ) -> Result<Answer<'t>, ShardFault>
        ensures live { IfOk result (IsLive O.plan self.old.pass self.new.pass register.0) }
        ensures others { OnOk result (KeepsOthers O.plan self.old self.new) }
        ensures refused { IfErr result (λ fault. IsRefusal O.plan self.old.pass register.0 fault × (fault ≢ Memory)) }
        ensures err { OnErr result (self.new ≡ self.old) }
    {
        match &mut self.by {
            By::WithPass(guest) => guest.standing(rt, gate, register),
            By::InTurn(turn) => standing_in_turn(turn, gate, register),
        }
    }
}

impl<'a, 't, O: Opening> Guest<'a, 't, O> {
    fn into_pass(self) -> Pass<'t>
        ensures { result ≡ self.entry }
    {
        let Guest { auditor: _, pass } = self;
        pass
    }

    fn submit<R: Wait, G: Gate>(
        &mut self,
        rt: &R,
        gate: &G,
        register: RegId,
        edit: &Edit<'t>,
    ) -> Result<Receipt, ShardFault>
        ensures submitted { IfOk result (IsSubmitted O.plan self.old register edit.now) }
        ensures told { IfOk result (λ receipt. self.new ≡ entered self.old register edit.now receipt) }
        ensures refused { IfErr result (IsRefusal O.plan self.old register.0) }
        ensures err { OnErr result (self.new ≡ self.old) }
    {
        let auditor = self.auditor;
        auditor.submit(rt, gate, &mut self.pass, register, *edit)
    }

    fn standing<R: Wait, G: Gate>(
        &mut self,
        rt: &R,
        gate: &G,
        register: RegId,
    ) -> Result<Answer<'t>, ShardFault>
        ensures live { IfOk result (IsLive O.plan self.old self.new register.0) }
        ensures refused { IfErr result (λ fault. IsRefusal O.plan self.old register.0 fault × (fault ≢ Memory)) }
        ensures err { OnErr result (self.new ≡ self.old) }
    {
        let auditor = self.auditor;
        auditor.standing(rt, gate, &mut self.pass, register)
    }
}

impl<'t, O: Opening> Turn<'t, O> {
    fn into_auditor(self) -> LoneAuditor<'t, O>
        ensures { result ≡ self.entry.journals }
    {
        let Turn { auditor, feeder: _ } = self;
        auditor
    }
}

/// Submits an edit of the feeder whose turn it is.
fn submit_in_turn<'t, O: Opening, G: Gate>(
    turn: &mut Turn<'t, O>,
    gate: &G,
    register: RegId,
    edit: &Edit<'t>,
) -> Result<Receipt, ShardFault>
    ensures submitted { IfOk result (IsSubmitted O.plan (pass_alone O.plan turn.old.feeder turn.old.journals) register edit.now) }
    ensures told { IfOk result (λ receipt. pass_alone O.plan turn.new.feeder turn.new.journals ≡ entered (pass_alone O.plan turn.old.feeder turn.old.journals) register edit.now receipt) }
    ensures others { OnOk result (IsStillInTurn O.plan turn.old.feeder turn.old.journals (access_alone O.plan turn.new.feeder turn.new.journals)) }
    ensures refused { IfErr result (IsRefusal O.plan (pass_alone O.plan turn.old.feeder turn.old.journals) register.0) }
    ensures err { OnErr result (turn.new ≡ turn.old) }
{
    a_feeder_alone_is_served_as_with_a_pass();
    turn.auditor.submit(gate, turn.feeder, register, edit)
}

/// Answers a question of the feeder whose turn it is.
fn standing_in_turn<'t, O: Opening, G: Gate>(
    turn: &Turn<'t, O>,
    gate: &G,
    register: RegId,
) -> Result<Answer<'t>, ShardFault>
    ensures live { IfOk result (IsLive O.plan (pass_alone O.plan turn.now.feeder turn.now.journals) (pass_alone O.plan turn.now.feeder turn.now.journals) register.0) }
    ensures refused { IfErr result (λ fault. IsRefusal O.plan (pass_alone O.plan turn.now.feeder turn.now.journals) register.0 fault × (fault ≢ Memory)) }
{
    a_feeder_alone_is_served_as_with_a_pass();
    turn.auditor.standing(gate, turn.feeder, register)
}
