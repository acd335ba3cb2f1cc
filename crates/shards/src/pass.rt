//! The pass of a feeder: what it submitted, and what it has seen.

ghost use Rattle.std.specs.Prelude.{◌≡◌, ◌<◌, ◌%◌, ◌↔◌, ◌++◌, ◌∷◌, [], replicate, IfOk, IfErr, IfSome, OnOk, OnErr, IsTrue, length, option_map};
ghost use Rattle.std.specs.List.{slice_get};
ghost use Rattle.shards.specs.declared.fault.ShardFault.TheVariants.{ForeignPass, Memory};
ghost use Rattle.shards.specs.Journal.{IsAnswered};
ghost use Rattle.shards.specs.Pass.{AreOfOneAuditor, IsInKeeping, IsPassOf, farthest_of, last_in, learnt, own_entries, unseen, with_seen};
ghost use Rattle.shards.specs.Shard.{IsShardOf, IsReached, Rises, held_of};
ghost use Rattle.shards.specs.Steps.{entered, entry_of, last_entry};
ghost use Rattle.shards.specs.VerdictChange.{IsChangeIfAny};

use crate::shard::Shard;
use crate::submitted::Submitted;
use crate::{Entry, NumberedEntry, Opening, Receipt, Seen, ShardFault};
use intervals::{Edit, RegId};
use std::alloc::Global;
use std::marker::Model;

/// The pass of a feeder. It keeps the entries that the feeder submitted, with the numbers of their receipts, and
/// for each shard the farthest entry that it knows, which is the one of greatest number.
#[derive(Drop)]
pub struct Pass<'t> {
    feeder: u32,
    own: Vec<Submitted<'t>>,
    seen: Seen<'t>,
}

impl<'t> Model for Pass<'t> {
    ghost use Rattle.std.specs.Prelude.{map};
    ghost use Rattle.shards.specs.Pass.{PassModel};
    ghost use Rattle.shards.specs.Compact.{entries_by};
    ghost use Rattle.shards.specs.Shard.{AreInStep};

    ghost Value = { PassModel };

    ghost view = { λ p. record { feeder = p.feeder; own = map (λ own. entries_by p.feeder own.whole.items own.rows.items) p.own.items; seen = p.seen } };

    ghost invariant = { λ p. AreInStep (map (λ own. entries_by p.feeder own.whole.items own.rows.items) p.own.items) p.seen.farthest };
}

impl<'t> Pass<'t> {
    /// A pass before anything is done with it.
    pub(crate) fn new(
        alloc: Global,
        auditor: u64,
        shards: u32,
        feeder: u32,
    ) -> Result<Self, ShardFault>
        ensures fresh { IfOk result (λ pass. pass ≡ record { feeder = feeder; own = replicate shards []; seen = unseen auditor shards }) }
        ensures memory { IfErr result (λ fault. fault ≡ Memory) }
    {
        let mut own = Vec::with_capacity(alloc, shards as usize)?;
        for _ in 0..shards {
            own.push_reserved(Submitted::new(alloc));
        }
        Ok(Pass {
            feeder,
            own,
            seen: Seen::new(alloc, auditor, shards)?,
        })
    }

    /// The feeder whose pass it is.
    pub fn feeder(&self) -> u32
        ensures { result ≡ self.now.feeder }
    {
        self.feeder
    }

    /// How many entries the feeder submitted in a shard; 0 where there is no such shard.
    pub fn submitted(&self, shard: u32) -> u64
        ensures { result ≡ length (own_entries self.now shard) }
    {
        match self.own.get(shard as usize) {
            Some(own) => own.len() as u64,
            None => 0,
        }
    }

    /// What the feeder has seen of the journals, for other feeders to learn.
    pub fn seen(&self) -> &Seen<'t>
        ensures { result.now ≡ self.now.seen }
    {
        &self.seen
    }

    /// Takes over what another feeder of the same auditor has seen: in each shard the later entry, its own where
    /// the numbers are equal.
    pub fn learn(&mut self, seen: &Seen<'t>) -> Result<(), ShardFault>
        ensures ok { OnOk result (self.new ≡ learnt self.old seen.now) }
        ensures refused { IfErr result (λ fault. fault ≡ ForeignPass) }
        ensures foreign { OnErr result (¬ (AreOfOneAuditor seen.now self.old.seen)) }
        ensures known { OnOk result (AreOfOneAuditor seen.now self.old.seen) }
        ensures err { OnErr result (self.new ≡ self.old) }
    {
        if seen.auditor() != self.seen.auditor() || seen.shards() != self.seen.shards() {
            return Err(ShardFault::ForeignPass);
        }
        self.seen.join(seen);
        Ok(())
    }

    /// Whether the pass is of an auditor of this name, number of shards and number of feeders.
    pub(crate) fn is_of<O: Opening>(&self, name: u64, shards: usize, feeders: u32) -> bool
        requires name { name ≡ O.plan.name }
        requires shards { shards ≡ O.plan.shards }
        requires feeders { feeders ≡ O.plan.feeders }
        ensures { IsTrue result ↔ IsPassOf O.plan self.now }
    {
        self.seen.auditor() == name && self.seen.shards() == shards && self.feeder < feeders
    }

    /// The number of the entry at a place among those that the feeder submitted in a shard.
    pub(crate) fn number_at(&self, shard: u32, place: usize) -> Option<u64>
        ensures number { result ≡ option_map (λ own. own.number) (slice_get (own_entries self.now shard) place) }
        ensures rises { Rises (own_entries self.now shard) }
        ensures reached { IfSome (last_in (own_entries self.now shard)) (IsReached (farthest_of self.now shard)) }
    {
        match self.own.get(shard as usize) {
            Some(own) => own.number(place),
            None => None,
        }
    }

    /// The entry at a place among those that the feeder submitted in a shard.
    pub(crate) fn entry_at(&self, shard: u32, place: usize) -> Option<NumberedEntry<'t>>
        ensures entry { result ≡ slice_get (own_entries self.now shard) place }
        ensures rises { Rises (own_entries self.now shard) }
    {
        match self.own.get(shard as usize) {
            Some(own) => own.entry(self.feeder, place),
            None => None,
        }
    }

    /// Has a shard enter an edit, where its journal is in keeping with the pass, and notes the entry. All growths
    /// come first.
    pub(crate) fn submit_to<O: Opening>(
        &mut self,
        shard: &mut Shard<'t>,
        register: RegId,
        edit: &Edit<'t>,
    ) -> Result<Receipt, ShardFault>
        requires kept { IsShardOf O.plan shard.old }
        requires here { register.0 % O.plan.shards ≡ shard.old.at }
        requires known { register.0 < length O.plan.claims }
        requires pass { IsPassOf O.plan self.old }
        requires keeping { IsInKeeping shard.old.at self.old shard.old.entries }
        ensures kept { IsShardOf O.plan shard.new }
        ensures keeps { shard.new.keeps ≡ shard.old.keeps }
        ensures journal { IfOk result (λ receipt. held_of shard.new ≡ record { at = shard.old.at; journal = shard.old.entries ++ entry_of self.old.feeder register edit.now receipt.reply ∷ [] }) }
        ensures answered { IfOk result (λ receipt. IsAnswered O.plan shard.old.at shard.old.entries (entry_of self.old.feeder register edit.now receipt.reply)) }
        ensures receipt { IfOk result (λ receipt. (receipt.shard ≡ shard.old.at) × (receipt.number ≡ length shard.old.entries)) }
        ensures change { IfOk result (λ receipt. IsChangeIfAny O.plan shard.old.entries (entry_of self.old.feeder register edit.now receipt.reply) receipt.change) }
        ensures told { IfOk result (λ receipt. self.new ≡ entered self.old register edit.now receipt) }
        ensures memory { IfErr result (λ fault. fault ≡ Memory) }
        ensures err { OnErr result ((held_of shard.new ≡ held_of shard.old) × (self.new ≡ self.old)) }
    {
        let at = shard.at;
        self.own[at as usize].reserve()?;
        let receipt = shard.enter::<O>(self.feeder, register, edit)?;
        let known = NumberedEntry {
            number: receipt.number,
            entry: Entry {
                feeder: self.feeder,
                register,
                edit: *edit,
                reply: receipt.reply,
            },
        };
        self.own[at as usize].add(&known);
        self.seen.see(at, known);
        Ok(receipt)
    }

    /// Notes the last entry of a journal, which is in keeping with the pass, as the farthest known in its shard.
    pub(crate) fn see(&mut self, shard: u32, journal: &[Entry<'t>])
        requires there { shard < length self.old.seen.farthest }
        requires keeping { IsInKeeping shard self.old journal.now }
        ensures { self.new ≡ with_seen self.old shard (last_entry journal.now) }
    {
        if let Some(entry) = journal.last() {
            let last = NumberedEntry {
                number: (journal.len() - 1) as u64,
                entry: *entry,
            };
            self.seen.see(shard, last);
        }
    }
}
