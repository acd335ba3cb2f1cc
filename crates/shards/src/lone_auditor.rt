//! The auditor of one thread: the registers of a tower in shards, without locks and without a kept journal, for feeders
//! that take turns.

ghost use Rattle.std.specs.Prelude.{◌≡◌, ◌<◌, ◌≤◌, ◌%◌, ◌∷◌, [], ℕ, IfOk, IfErr, OnErr, length, map, replicate};
ghost use Rattle.shards.specs.declared.fault.ShardFault.TheVariants.{Memory, UnknownRegister};
ghost use Rattle.shards.specs.Alone.{AreJournals, IsEnteredAlone, IsRefusalAlone, journal_in, pass_alone, passes_alone, with_entry};
ghost use Rattle.shards.specs.Closing.{IsClosed};
ghost use Rattle.shards.specs.Pass.{own_entries};
ghost use Rattle.shards.specs.Plan.{plan_of};
ghost use Rattle.shards.specs.Shard.{AreShardsAlone, entries_of_each};
ghost use Rattle.shards.specs.Steps.{IsStanding};

use crate::gate::tell_change;
use crate::shard::Shard;
use crate::{Answer, Closed, Gate, Opening, Receipt, ShardFault};
use intervals::{Edit, RegId};
use std::alloc::Global;
use std::marker::{Model, PhantomData};
use tower_file::Tower;

/// The registers of a tower, which one thread has for itself; its feeders take turns. Register `r` is in shard `r` modulo
/// the number of shards. After each call the journal of a shard has exactly the edits that were submitted for its
/// registers, in their order, with their feeders and their replies; the journals are there in proofs alone.
#[derive(Drop)]
pub struct LoneAuditor<'t, O: Opening> {
    registers: usize,
    shards: Vec<Shard<'t>>,
    of: PhantomData<O>,
}

impl<'t, O: Opening> Model for LoneAuditor<'t, O> {
    ghost use Rattle.std.specs.Prelude.{◌≡◌, List, length};
    ghost use Rattle.shards.specs.declared.entry.Entry.{Entry};
    ghost use Rattle.shards.specs.Shard.{AreShardsAlone, entries_of_each};

    ghost Value = { List (List Entry) };

    ghost view = { λ auditor. entries_of_each auditor.shards.items };

    ghost invariant = { λ auditor. AreShardsAlone O.plan auditor.shards.items × (auditor.registers ≡ length O.plan.claims) };
}

impl<'t, O: Opening> LoneAuditor<'t, O> {
    /// An auditor for the registers of a tower before any edit.
    pub fn open(alloc: Global, tower: &Tower, shards: u32, feeders: u32) -> Result<Self, ShardFault>
        requires opening { (name : ℕ) × (O.plan ≡ plan_of name tower.now shards feeders) }
        requires shards { (1 ≤ shards) × (shards ≤ 64) }
        ensures fresh { IfOk result (λ auditor. auditor ≡ replicate shards []) }
        ensures memory { IfErr result (λ fault. fault ≡ Memory) }
    {
        Ok(LoneAuditor {
            registers: tower.len(),
            shards: open_shards(alloc, tower, shards, feeders)?,
            of: PhantomData,
        })
    }

    /// Carries a feeder's edit of a register out, or has the register refuse it, and enters it either way. An error enters
    /// nothing. The gate is called as at a lock.
    pub fn submit<G: Gate>(
        &mut self,
        gate: &G,
        feeder: u32,
        register: RegId,
        edit: &Edit<'t>,
    ) -> Result<Receipt, ShardFault>
        requires feeder { feeder < O.plan.feeders }
        ensures entered { IfOk result (IsEnteredAlone O.plan self.old feeder register edit.now) }
        ensures journals { IfOk result (λ receipt. self.new ≡ with_entry self.old feeder register edit.now receipt) }
        ensures legal { AreJournals O.plan self.old × AreJournals O.plan self.new }
        ensures refused { IfErr result (IsRefusalAlone O.plan register.0) }
        ensures err { OnErr result (self.new ≡ self.old) }
    {
        if self.registers <= register.0 as usize {
            return Err(ShardFault::UnknownRegister);
        }
        let answered = enter_in::<O, G>(self.shards.as_mut_slice(), gate, feeder, register, edit);
        gate.outside(feeder);
        answered
    }

    /// The verdict on a register as it is now, with how many operations stand. It takes no memory. The gate is told that
    /// this feeder asks.
    pub fn standing<G: Gate>(
        &self,
        gate: &G,
        feeder: u32,
        register: RegId,
    ) -> Result<Answer<'t>, ShardFault>
        ensures standing { IfOk result (IsStanding O.plan register.0 (journal_in self.now (register.0 % O.plan.shards))) }
        ensures legal { AreJournals O.plan self.now }
        ensures refused { IfErr result (λ fault. (fault ≡ UnknownRegister) × (length O.plan.claims ≤ register.0)) }
    {
        if self.registers <= register.0 as usize {
            return Err(ShardFault::UnknownRegister);
        }
        let answer = answer_in::<O, G>(self.shards.as_slice(), gate, feeder, register);
        gate.outside(feeder);
        Ok(answer)
    }

    /// How many edits of a feeder were entered in a shard; 0 where there is no such shard.
    pub fn submitted(&self, feeder: u32, shard: u32) -> u64
        requires { feeder < O.plan.feeders }
        ensures { result ≡ length (own_entries (pass_alone O.plan feeder self.now) shard) }
    {
        match self.shards.get(shard as usize) {
            Some(shard) => shard.count::<O>(feeder),
            None => 0,
        }
    }

    /// What the registers are at the end.
    pub fn close(self) -> Closed<'t>
        ensures journals { map (λ shard. shard.journal) result ≡ self.entry }
        ensures closed { IsClosed O.plan (passes_alone O.plan self.entry) result }
    {
        let LoneAuditor {
            registers: _,
            shards,
            of: _,
        } = self;
        Closed::new(shards)
    }
}

/// Enters a feeder's edit in the shard of its register.
fn enter_in<'t, O: Opening, G: Gate>(
    shards: &mut [Shard<'t>],
    gate: &G,
    feeder: u32,
    register: RegId,
    edit: &Edit<'t>,
) -> Result<Receipt, ShardFault>
    requires alone { AreShardsAlone O.plan shards.old }
    requires known { register.0 < length O.plan.claims }
    requires feeder { feeder < O.plan.feeders }
    ensures alone { AreShardsAlone O.plan shards.new }
    ensures entered { IfOk result (IsEnteredAlone O.plan (entries_of_each shards.old) feeder register edit.now) }
    ensures journals { IfOk result (λ receipt. entries_of_each shards.new ≡ with_entry (entries_of_each shards.old) feeder register edit.now receipt) }
    ensures memory { IfErr result (λ fault. fault ≡ Memory) }
    ensures err { OnErr result (entries_of_each shards.new ≡ entries_of_each shards.old) }
{
    let at = register.0 % shards.len() as u32;
    gate.inside(at, feeder);
    let answered = shards[at as usize].enter::<O>(feeder, register, edit);
    tell_change(gate, feeder, &answered);
    answered
}

/// Answers a question from the shard of its register.
fn answer_in<'t, O: Opening, G: Gate>(
    shards: &[Shard<'t>],
    gate: &G,
    feeder: u32,
    register: RegId,
) -> Answer<'t>
    requires alone { AreShardsAlone O.plan shards.now }
    requires known { register.0 < length O.plan.claims }
    ensures { IsStanding O.plan register.0 (journal_in (entries_of_each shards.now) (register.0 % O.plan.shards)) result }
{
    let at = register.0 % shards.len() as u32;
    gate.inside(at, feeder);
    shards[at as usize].answer::<O>(register)
}

/// The shards of a tower, by number, before any edit.
fn open_shards<'t>(
    alloc: Global,
    tower: &Tower,
    shards: u32,
    feeders: u32,
) -> Result<Vec<Shard<'t>>, ShardFault>
    requires shards { (1 ≤ shards) × (shards ≤ 64) }
    ensures alone { IfOk result (λ own. (name : ℕ) → AreShardsAlone (plan_of name tower.now shards feeders) own.items) }
    ensures fresh { IfOk result (λ own. entries_of_each own.items ≡ replicate shards []) }
    ensures memory { IfErr result (λ fault. fault ≡ Memory) }
{
    let mut own = Vec::with_capacity(alloc, shards as usize)?;
    for at in 0..shards {
        own.push_reserved(Shard::new(alloc, tower, at, shards, feeders, false)?);
    }
    Ok(own)
}
