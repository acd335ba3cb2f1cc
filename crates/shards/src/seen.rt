//! What a feeder has seen of the journals.

ghost use Rattle.std.specs.Prelude.{◌≡◌, ◌<◌, IfOk, IfErr, length, option_copied};
ghost use Rattle.shards.specs.declared.fault.ShardFault.TheVariants.{Memory};
ghost use Rattle.shards.specs.Pass.{farther, farther_each, farthest_in, unseen, with_farthest};

use crate::{NumberedEntry, ShardFault};
use std::alloc::Global;
use std::marker::Model;

/// For each shard of an auditor the farthest entry that is known, which is the one of greatest number. The passes of
/// other feeders learn from it.
#[derive(Drop)]
pub struct Seen<'t> {
    auditor: u64,
    farthest: Vec<Option<NumberedEntry<'t>>>,
}

impl<'t> Model for Seen<'t> {
    ghost use Rattle.shards.specs.Pass.{SeenModel};

    ghost Value = { SeenModel };

    ghost view = { λ s. record { auditor = s.auditor; farthest = s.farthest.items } };
}

impl<'t> Seen<'t> {
    /// Nothing known of an auditor's shards.
    pub(crate) fn new(alloc: Global, auditor: u64, shards: u32) -> Result<Self, ShardFault>
        ensures unseen { IfOk result (λ seen. seen ≡ unseen auditor shards) }
        ensures memory { IfErr result (λ fault. fault ≡ Memory) }
    {
        Ok(Seen {
            auditor,
            farthest: vec![in alloc; None; shards as usize]?,
        })
    }

    /// A copy of it.
    pub fn copy(&self, alloc: Global) -> Result<Seen<'t>, ShardFault>
        ensures copy { IfOk result (λ copy. copy ≡ self.now) }
        ensures memory { IfErr result (λ fault. fault ≡ Memory) }
    {
        Ok(Seen {
            auditor: self.auditor,
            farthest: Vec::from_slice(alloc, self.farthest.as_slice())?,
        })
    }

    pub(crate) fn auditor(&self) -> u64
        ensures { result ≡ self.now.auditor }
    {
        self.auditor
    }

    pub(crate) fn shards(&self) -> usize
        ensures { result ≡ length self.now.farthest }
    {
        self.farthest.len()
    }

    /// The farthest entry known in a shard; none where there is no such shard.
    pub fn farthest(&self, shard: u32) -> Option<&NumberedEntry<'t>>
        ensures { option_copied result ≡ farthest_in self.now.farthest shard }
    {
        match self.farthest.get(shard as usize) {
            Some(Some(known)) => Some(known),
            _ => None,
        }
    }

    /// Notes an entry as the farthest known in a shard.
    pub(crate) fn see(&mut self, shard: u32, known: NumberedEntry<'t>)
        requires { shard < length self.old.farthest }
        ensures { self.new ≡ with_farthest self.old shard known.entry }
    {
        self.farthest[shard as usize] = Some(known);
    }

    /// Takes the later entry of each shard, its own where the numbers are equal.
    pub(crate) fn join(&mut self, other: &Seen<'t>)
        requires { length self.old.farthest ≡ length other.now.farthest }
        ensures { self.new ≡ record self.old { farthest = farther_each self.old.farthest other.now.farthest } }
    {
        take_farther(self.farthest.as_mut_slice(), other.farthest.as_slice());
    }
}

fn take_farther<'t>(mine: &mut [Option<NumberedEntry<'t>>], others: &[Option<NumberedEntry<'t>>])
    requires { length mine.old ≡ length others.now }
    ensures { mine.new ≡ farther_each mine.old others.now }
{
    for at in 0..mine.len() {
        mine[at] = farther_of(mine[at], others[at]);
    }
}

fn farther_of<'t>(
    a: Option<NumberedEntry<'t>>,
    b: Option<NumberedEntry<'t>>,
) -> Option<NumberedEntry<'t>>
    ensures { result ≡ farther a.entry b.entry }
{
    match (a, b) {
        (a, None) => a,
        (None, Some(b)) => Some(b),
        (Some(a), Some(b)) => Some(if a.number < b.number { b } else { a }),
    }
}
