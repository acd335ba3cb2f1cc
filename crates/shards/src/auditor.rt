//! An auditor: the registers of a tower in shards, each shard under a lock.

ghost use Rattle.std.specs.Prelude.{◌≡◌, ◌⊎◌, ◌<◌, ◌≤◌, ◌%◌, ◌^◌, ◌≢◌, ℕ, List, map, IfOk, IfErr, OnOk, OnErr, length, vec_capacity, vec_len};
ghost use Rattle.std.specs.List.{range_with_len};
ghost use Rattle.intervals.specs.Terms.{ClaimModel};
ghost use Rattle.shards.specs.declared.fault.ShardFault.TheVariants.{ForeignPass, JournalBehind as IsJournalBehind, Memory, UnknownRegister};
ghost use Rattle.shards.specs.Closing.{AreComplete, IsClosed, IsClosedWithSome, IsUnfinished};
ghost use Rattle.shards.specs.Pass.{IsPassOf, new_pass};
ghost use Rattle.shards.specs.Plan.{plan_of};
ghost use Rattle.shards.specs.Steps.{entered, IsLive, IsRefusal, IsSubmitted};

use crate::closing::closing_fault;
use crate::gate::tell_change;
use crate::parts::{put_together, take_apart};
use crate::shard::Shard;
use crate::state::ShardState;
use crate::{Answer, Closed, Gate, Opening, Pass, Receipt, ShardFault};
use intervals::{Edit, RegId};
use std::alloc::Global;
use std::sync::{Mutex, Wait};
use tower_file::Tower;

/// The registers of a tower in shards, each shard under a lock of its own. Register `r` is in shard `r` modulo
/// the number of shards.
#[derive(Drop)]
pub struct Auditor<'t, O: Opening> {
    name: u64,
    feeders: u32,
    registers: usize,
    locks: Vec<Mutex<ShardState<'t, O>>>,
    /// Room for what is under the locks, so that finishing takes no memory.
    room: Vec<Shard<'t>>,
    ghost name_is: { name ≡ O.plan.name },
    ghost feeders_is: { feeders ≡ O.plan.feeders },
    ghost registers_is: { registers ≡ length O.plan.claims },
    ghost locks_is: { vec_len locks ≡ O.plan.shards },
    ghost some: { 0 < O.plan.shards },
    ghost bound: { O.plan.shards < 2 ^ 32 },
    ghost few: { O.plan.feeders ≤ 256 },
    ghost empty: { vec_len room ≡ 0 },
    ghost enough: { O.plan.shards ≤ vec_capacity room },
}

/// An auditor that could not be closed, with the passes that were given, and why it could not.
#[derive(Drop)]
pub struct Unfinished<'t, O: Opening> {
    pub fault: ShardFault,
    pub auditor: Auditor<'t, O>,
    pub passes: Vec<Pass<'t>>,
}

impl<'t, O: Opening> Auditor<'t, O> {
    /// An auditor for the registers of a tower, with a pass for each feeder, by number. The name
    /// distinguishes these passes from those of other auditors, so each auditor needs a name of its own.
    pub fn open(
        alloc: Global,
        name: u64,
        tower: &Tower,
        shards: u32,
        feeders: u32,
    ) -> Result<(Auditor<'t, O>, Vec<Pass<'t>>), ShardFault>
        requires opening { O.plan ≡ plan_of name tower.now shards feeders }
        requires shards { (1 ≤ shards) × (shards ≤ 64) }
        requires feeders { (1 ≤ feeders) × (feeders ≤ 256) }
        ensures passes { IfOk result (λ opened. opened.1.items ≡ map (new_pass O.plan) (range_with_len 0 feeders)) }
        ensures memory { IfErr result (λ fault. fault ≡ Memory) }
    {
        let passes = open_passes(alloc, name, shards, feeders)?;
        let auditor = Auditor {
            name,
            feeders,
            registers: tower.len(),
            locks: open_locks(alloc, tower, shards, feeders)?,
            room: Vec::with_capacity(alloc, shards as usize)?,
        };
        Ok((auditor, passes))
    }

    /// Carries an edit of a register out, or has the register refuse it, and enters it in the journal of the
    /// register's shard either way. An error enters nothing. It waits for that shard's lock alone.
    pub fn submit<R: Wait, G: Gate>(
        &self,
        rt: &R,
        gate: &G,
        pass: &mut Pass<'t>,
        register: RegId,
        edit: Edit<'t>,
    ) -> Result<Receipt, ShardFault>
        ensures submitted { IfOk result (IsSubmitted O.plan pass.old register edit.entry) }
        ensures told { IfOk result (λ receipt. pass.new ≡ entered pass.old register edit.entry receipt) }
        ensures refused { IfErr result (IsRefusal O.plan pass.old register.0) }
        ensures err { OnErr result (pass.new ≡ pass.old) }
    {
        let shard = self.shard_of(pass, register)?;
        let sharded = Sharded { shard, register };
        let answered = self.submit_inside(rt, gate, sharded, pass, &edit);
        gate.outside(pass.feeder());
        answered
    }

    /// The verdict on a register as it is now, with how many operations stand. It waits for the lock of the
    /// register's shard alone, and takes no memory.
    pub fn standing<R: Wait, G: Gate>(
        &self,
        rt: &R,
        gate: &G,
        pass: &mut Pass<'t>,
        register: RegId,
    ) -> Result<Answer<'t>, ShardFault>
        ensures live { IfOk result (IsLive O.plan pass.old pass.new register.0) }
        ensures refused { IfErr result (λ fault. IsRefusal O.plan pass.old register.0 fault × (fault ≢ Memory)) }
        ensures err { OnErr result (pass.new ≡ pass.old) }
    {
        let shard = self.shard_of(pass, register)?;
        let sharded = Sharded { shard, register };
        let answered = self.standing_inside(rt, gate, sharded, pass);
        gate.outside(pass.feeder());
        answered
    }

    /// Closes the auditor with the pass of each feeder. Where it refuses, it returns the auditor and the passes. It
    /// takes no memory.
    pub fn finish(self, passes: Vec<Pass<'t>>) -> Result<Closed<'t>, Unfinished<'t, O>>
        ensures closed { IfOk result (IsClosed O.plan passes.entry.items) }
        ensures unfinished { IfErr result (λ unfinished. IsUnfinished O.plan O.plan.feeders passes.entry.items unfinished.fault) }
        ensures passes { IfErr result (λ unfinished. unfinished.passes.items ≡ passes.entry.items) }
    {
        let wanted = self.feeders;
        self.close(wanted, passes)
    }

    /// Closes the auditor with the passes that are left, maybe none, where some are lost. The entries of
    /// feeders without a pass are taken as the journals have them. Where it refuses, it returns the auditor and the
    /// passes. It takes no memory.
    pub fn finish_some(self, passes: Vec<Pass<'t>>) -> Result<Closed<'t>, Unfinished<'t, O>>
        ensures closed { IfOk result (IsClosedWithSome O.plan passes.entry.items) }
        ensures unfinished { IfErr result (λ unfinished. IsUnfinished O.plan 0 passes.entry.items unfinished.fault) }
        ensures passes { IfErr result (λ unfinished. unfinished.passes.items ≡ passes.entry.items) }
    {
        self.close(0, passes)
    }

    /// Closes the auditor with passes; each feeder below `wanted` must have one.
    fn close(self, wanted: u32, passes: Vec<Pass<'t>>) -> Result<Closed<'t>, Unfinished<'t, O>>
        ensures closed { IfOk result (IsClosedWithSome O.plan passes.entry.items) }
        ensures complete { OnOk result (AreComplete wanted passes.entry.items) }
        ensures unfinished { IfErr result (λ unfinished. IsUnfinished O.plan wanted passes.entry.items unfinished.fault) }
        ensures passes { IfErr result (λ unfinished. unfinished.passes.items ≡ passes.entry.items) }
    {
        let Auditor {
            name,
            feeders,
            registers,
            mut locks,
            room: mut shards,
        } = self;
        take_apart(&mut locks, &mut shards);
        match closing_fault::<O>(name, feeders, wanted, shards.as_slice(), passes.as_slice()) {
            None => Ok(Closed::new(shards)),
            Some(fault) => {
                put_together(&mut locks, &mut shards);
                let auditor = Auditor {
                    name,
                    feeders,
                    registers,
                    locks,
                    room: shards,
                };
                Err(Unfinished {
                    fault,
                    auditor,
                    passes,
                })
            }
        }
    }

    /// The shard of a register. S6 where the pass is not one of the auditor's, S1 where there is no such register.
    fn shard_of(&self, pass: &Pass<'t>, register: RegId) -> Result<u32, ShardFault>
        ensures ok { IfOk result (λ shard. IsPassOf O.plan pass.now × (register.0 < length O.plan.claims) × (shard ≡ register.0 % O.plan.shards)) }
        ensures err { IfErr result (λ fault. ((fault ≡ ForeignPass) × (¬ IsPassOf O.plan pass.now)) ⊎ ((fault ≡ UnknownRegister) × IsPassOf O.plan pass.now × (length O.plan.claims ≤ register.0))) }
    {
        let shards = self.locks.len();
        if !pass.is_of::<O>(self.name, shards, self.feeders) {
            return Err(ShardFault::ForeignPass);
        }
        if self.registers <= register.0 as usize {
            return Err(ShardFault::UnknownRegister);
        }
        Ok(register.0 % shards as u32)
    }

    /// Submits an edit to a shard, whose lock it holds meanwhile.
    fn submit_inside<R: Wait, G: Gate>(
        &self,
        rt: &R,
        gate: &G,
        sharded: Sharded,
        pass: &mut Pass<'t>,
        edit: &Edit<'t>,
    ) -> Result<Receipt, ShardFault>
        requires here { sharded.shard ≡ sharded.register.0 % O.plan.shards }
        requires known { sharded.register.0 < length O.plan.claims }
        requires pass { IsPassOf O.plan pass.old }
        ensures submitted { IfOk result (IsSubmitted O.plan pass.old sharded.register edit.now) }
        ensures told { IfOk result (λ receipt. pass.new ≡ entered pass.old sharded.register edit.now receipt) }
        ensures refused { IfErr result (IsRefusal O.plan pass.old sharded.register.0) }
        ensures err { OnErr result (pass.new ≡ pass.old) }
    {
        let mut state = self.locks[sharded.shard as usize].lock(rt);
        gate.inside(sharded.shard, pass.feeder());
        if state.at() != sharded.shard {
            return Err(misplaced(sharded.shard));
        }
        let answered = state.submit(pass, sharded.register, *edit);
        tell_change(gate, pass.feeder(), &answered);
        answered
    }

    /// Answers a question from a shard, whose lock it holds meanwhile.
    fn standing_inside<R: Wait, G: Gate>(
        &self,
        rt: &R,
        gate: &G,
        sharded: Sharded,
        pass: &mut Pass<'t>,
    ) -> Result<Answer<'t>, ShardFault>
        requires here { sharded.shard ≡ sharded.register.0 % O.plan.shards }
        requires known { sharded.register.0 < length O.plan.claims }
        requires pass { IsPassOf O.plan pass.old }
        ensures live { IfOk result (IsLive O.plan pass.old pass.new sharded.register.0) }
        ensures refused { IfErr result (λ fault. IsRefusal O.plan pass.old sharded.register.0 fault × (fault ≢ Memory)) }
        ensures err { OnErr result (pass.new ≡ pass.old) }
    {
        let state = self.locks[sharded.shard as usize].lock(rt);
        gate.inside(sharded.shard, pass.feeder());
        if state.at() != sharded.shard {
            return Err(misplaced(sharded.shard));
        }
        state.standing(pass, sharded.register)
    }
}

/// A register, and the shard that has it.
#[derive(Clone, Copy)]
struct Sharded {
    shard: u32,
    register: RegId,
}

/// The fault where a lock guards another shard than the one of its place.
fn misplaced(shard: u32) -> ShardFault
    ensures { result ≡ IsJournalBehind shard 0 0 }
{
    ShardFault::JournalBehind {
        shard,
        seen: 0,
        found: 0,
    }
}

/// The pass of each feeder, by number.
fn open_passes<'t>(
    alloc: Global,
    name: u64,
    shards: u32,
    feeders: u32,
) -> Result<Vec<Pass<'t>>, ShardFault>
    ensures passes { IfOk result (λ passes. (claims : List ClaimModel) → passes.items ≡ map (new_pass (record { name = name; shards = shards; feeders = feeders; claims = claims })) (range_with_len 0 feeders)) }
    ensures memory { IfErr result (λ fault. fault ≡ Memory) }
{
    let mut passes = Vec::with_capacity(alloc, feeders as usize)?;
    for feeder in 0..feeders {
        passes.push_reserved(Pass::new(alloc, name, shards, feeder)?);
    }
    Ok(passes)
}

/// The lock of each shard, by number.
fn open_locks<'t, O: Opening>(
    alloc: Global,
    tower: &Tower,
    shards: u32,
    feeders: u32,
) -> Result<Vec<Mutex<ShardState<'t, O>>>, ShardFault>
    requires opening { (name : ℕ) × (O.plan ≡ plan_of name tower.now shards feeders) }
    ensures many { IfOk result (λ locks. vec_len locks ≡ shards) }
    ensures memory { IfErr result (λ fault. fault ≡ Memory) }
{
    let mut locks = Vec::with_capacity(alloc, shards as usize)?;
    for at in 0..shards {
        let shard = Shard::new(alloc, tower, at, shards, feeders, true)?;
        locks.push_reserved(Mutex::new(ShardState::new(shard)));
    }
    Ok(locks)
}
