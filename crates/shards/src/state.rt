//! The value under the lock of a shard.

ghost use Rattle.std.specs.Prelude.{◌≡◌, ◌<◌, ◌%◌, ◌++◌, ◌∷◌, [], IfOk, IfErr, OnOk, OnErr, length};
ghost use Rattle.shards.specs.Journal.{IsAnswered, IsJournalOf};
ghost use Rattle.shards.specs.Pass.{IsInKeeping, IsPassOf, with_seen};
ghost use Rattle.shards.specs.Shard.{IsKeptShardOf, held_of};
ghost use Rattle.shards.specs.Steps.{entered, IsQuestionRefusal, IsStanding, IsStateRefusal, entry_of, last_entry};
ghost use Rattle.shards.specs.VerdictChange.{IsChangeIfAny};

use crate::keeping::first_lack;
use crate::shard::Shard;
use crate::{Answer, Entry, Opening, Pass, Receipt, ShardFault};
use intervals::{Edit, RegId};
use std::marker::{Model, PhantomData};

/// The registers of one shard of an auditor, with its journal. Its invariant says that the journal is legal and each
/// entry of one of the feeders, that each book is what the journal leaves of its register, and that each
/// feeder's count is the number of its entries.
#[derive(Drop)]
pub struct ShardState<'t, O: Opening> {
    shard: Shard<'t>,
    of: PhantomData<O>,
}

impl<'t, O: Opening> Model for ShardState<'t, O> {
    ghost use Rattle.shards.specs.Closing.{ShardModel};
    ghost use Rattle.shards.specs.Shard.{IsKeptShardOf, held_of};

    ghost Value = { ShardModel };

    ghost view = { λ s. held_of s.shard };

    ghost invariant = { λ s. IsKeptShardOf O.plan s.shard };
}

impl<'t, O: Opening> ShardState<'t, O> {
    pub(crate) fn new(shard: Shard<'t>) -> Self
        requires { IsKeptShardOf O.plan shard }
        ensures { result ≡ held_of shard.entry }
    {
        ShardState {
            shard,
            of: PhantomData,
        }
    }

    pub(crate) fn into_shard(self) -> Shard<'t>
        ensures kept { IsKeptShardOf O.plan result }
        ensures shard { held_of result ≡ self.entry }
    {
        let ShardState { shard, of: _ } = self;
        shard
    }

    /// The number of the shard.
    pub fn at(&self) -> u32
        ensures at { result ≡ self.now.at }
        ensures bound { result < O.plan.shards }
    {
        self.shard.at
    }

    /// The edits that were answered in the shard, with their replies, in order.
    pub fn journal(&self) -> &[Entry<'t>]
        ensures journal { result.now ≡ self.now.journal }
        ensures of_shard { IsJournalOf O.plan self.now.at result.now }
    {
        self.shard.kept::<O>()
    }

    /// Carries an edit out, or has the register refuse it, and enters it in the journal. S3 where the journal is not
    /// in keeping with the pass.
    pub fn submit(
        &mut self,
        pass: &mut Pass<'t>,
        register: RegId,
        edit: Edit<'t>,
    ) -> Result<Receipt, ShardFault>
        requires here { register.0 % O.plan.shards ≡ self.old.at }
        requires known { register.0 < length O.plan.claims }
        requires pass { IsPassOf O.plan pass.old }
        ensures journal { IfOk result (λ receipt. self.new ≡ record { at = self.old.at; journal = self.old.journal ++ entry_of pass.old.feeder register edit.entry receipt.reply ∷ [] }) }
        ensures of_shard { IsJournalOf O.plan self.new.at self.new.journal }
        ensures answered { IfOk result (λ receipt. IsAnswered O.plan self.old.at self.old.journal (entry_of pass.old.feeder register edit.entry receipt.reply)) }
        ensures receipt { IfOk result (λ receipt. (receipt.shard ≡ self.old.at) × (receipt.number ≡ length self.old.journal)) }
        ensures change { IfOk result (λ receipt. IsChangeIfAny O.plan self.old.journal (entry_of pass.old.feeder register edit.entry receipt.reply) receipt.change) }
        ensures told { IfOk result (λ receipt. pass.new ≡ entered pass.old register edit.entry receipt) }
        ensures keeping { OnOk result (IsInKeeping self.old.at pass.old self.old.journal) }
        ensures refused { IfErr result (IsStateRefusal self.old.at pass.old self.old.journal) }
        ensures err { OnErr result ((self.new ≡ self.old) × (pass.new ≡ pass.old)) }
    {
        self.check(pass)?;
        pass.submit_to::<O>(&mut self.shard, register, &edit)
    }

    /// The verdict on a register, with how many operations stand. The pass has then seen the whole journal. S3 where
    /// the journal is not in keeping with the pass.
    pub fn standing(&self, pass: &mut Pass<'t>, register: RegId) -> Result<Answer<'t>, ShardFault>
        requires here { register.0 % O.plan.shards ≡ self.now.at }
        requires known { register.0 < length O.plan.claims }
        requires pass { IsPassOf O.plan pass.old }
        ensures of_shard { IsJournalOf O.plan self.now.at self.now.journal }
        ensures answer { IfOk result (IsStanding O.plan register.0 self.now.journal) }
        ensures seen { OnOk result (pass.new ≡ with_seen pass.old self.now.at (last_entry self.now.journal)) }
        ensures keeping { OnOk result (IsInKeeping self.now.at pass.old self.now.journal) }
        ensures refused { IfErr result (IsQuestionRefusal self.now.at pass.old self.now.journal) }
        ensures err { OnErr result (pass.new ≡ pass.old) }
    {
        self.check(pass)?;
        pass.see(self.shard.at, self.shard.kept::<O>());
        Ok(self.shard.answer::<O>(register))
    }

    /// Refuses a pass that the journal is not in keeping with: S3.
    fn check(&self, pass: &Pass<'t>) -> Result<(), ShardFault>
        requires { IsPassOf O.plan pass.now }
        ensures of_shard { IsJournalOf O.plan self.now.at self.now.journal }
        ensures ok { OnOk result (IsInKeeping self.now.at pass.now self.now.journal) }
        ensures refused { IfErr result (IsQuestionRefusal self.now.at pass.now self.now.journal) }
    {
        let shard = self.shard.at;
        let count = self.shard.count::<O>(pass.feeder());
        match first_lack(pass, shard, self.shard.kept::<O>(), count) {
            Some(seen) => Err(ShardFault::JournalBehind {
                shard,
                seen,
                found: self.shard.many,
            }),
            None => Ok(()),
        }
    }
}
