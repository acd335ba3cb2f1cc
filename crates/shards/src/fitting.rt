//! Whether the passes are those of the auditor, and fit its shards.

ghost use Rattle.std.specs.Prelude.{◌≡◌, ◌↔◌, ◌<◌, ◌^◌, ℕ, All, Contains, IfSome, IsNone, IsTrue, length, map};
ghost use Rattle.shards.specs.Closing.{AreComplete, AreFit, AreItsPasses, Fits, HasPassOf, IsFirstMissing, IsFirstUnfit, IsUnfit};
ghost use Rattle.shards.specs.Pass.{own_entries};
ghost use Rattle.shards.specs.Shard.{IsKeptShardOf, Rises, held_of};

use crate::keeping::first_lack;
use crate::shard::Shard;
use crate::{Opening, Pass};

/// Whether each pass is of the plan, and no two are of one feeder.
pub fn are_its_passes<O: Opening>(name: u64, feeders: u32, shards: usize, passes: &[Pass]) -> bool
    requires name { name ≡ O.plan.name }
    requires feeders { feeders ≡ O.plan.feeders }
    requires shards { shards ≡ O.plan.shards }
    ensures { IsTrue result ↔ AreItsPasses O.plan passes.now }
{
    for i in 0..passes.len() {
        let pass = &passes[i];
        if !pass.is_of::<O>(name, shards, feeders) {
            return false;
        }
        if pass_of(&passes[..i], pass.feeder()).is_some() {
            return false;
        }
    }
    true
}

/// The pass of a feeder. It is looked for at the feeder's number first, since passes mostly come in that order.
pub fn pass_of<'a, 't>(passes: &'a [Pass<'t>], feeder: u32) -> Option<&'a Pass<'t>>
    ensures found { IfSome result (λ pass. (pass.now.feeder ≡ feeder) × Contains passes.now pass.now) }
    ensures none { IsNone result → ¬ HasPassOf passes.now feeder }
{
    if let Some(pass) = passes.get(feeder as usize) {
        if pass.feeder() == feeder {
            return Some(pass);
        }
    }
    for pass in passes {
        if pass.feeder() == feeder {
            return Some(pass);
        }
    }
    None
}

/// The least feeder below `feeders` that has no pass.
pub fn first_missing(feeders: u32, passes: &[Pass]) -> Option<u32>
    ensures missing { IfSome result (IsFirstMissing feeders passes.now) }
    ensures none { IsNone result → AreComplete feeders passes.now }
{
    for feeder in 0..feeders {
        if pass_of(passes, feeder).is_none() {
            return Some(feeder);
        }
    }
    None
}

/// The least shard that does not fit the passes, with the two numbers that show it.
pub fn first_unfit<O: Opening>(
    feeders: u32,
    shards: &[Shard],
    passes: &[Pass],
) -> Option<(u32, u64, u64)>
    requires feeders { feeders ≡ O.plan.feeders }
    requires many { length shards.now ≡ O.plan.shards }
    requires kept { All (IsKeptShardOf O.plan) shards.now }
    requires passes { AreItsPasses O.plan passes.now }
    requires bound { O.plan.shards < 2 ^ 32 }
    ensures unfit { IfSome result (λ found. IsFirstUnfit passes.now (map held_of shards.now) found.0 found.1 found.2) }
    ensures none { IsNone result → AreFit passes.now (map held_of shards.now) }
    ensures rises { IsNone result → (place : ℕ) → place < length shards.now → All (λ pass. Rises (own_entries pass place)) passes.now }
{
    for place in 0..shards.len() {
        if let Some((seen, found)) = lack_of::<O>(feeders, place as u32, &shards[place], passes) {
            return Some((place as u32, seen, found));
        }
    }
    None
}

/// The two numbers that show that the shard at a place does not fit the passes; none where it fits.
fn lack_of<O: Opening>(
    feeders: u32,
    place: u32,
    shard: &Shard,
    passes: &[Pass],
) -> Option<(u64, u64)>
    requires feeders { feeders ≡ O.plan.feeders }
    requires kept { IsKeptShardOf O.plan shard.now }
    requires passes { AreItsPasses O.plan passes.now }
    ensures unfit { IfSome result (λ lack. IsUnfit passes.now place (held_of shard.now) lack.0 lack.1) }
    ensures none { IsNone result → Fits passes.now place (held_of shard.now) }
    ensures rises { IsNone result → All (λ pass. Rises (own_entries pass place)) passes.now }
{
    if shard.at != place {
        return Some((0, 0));
    }
    let journal = shard.kept::<O>();
    for feeder in 0..feeders {
        if let Some(pass) = pass_of(passes, feeder) {
            if let Some(seen) = first_lack(pass, place, journal, shard.count::<O>(feeder)) {
                return Some((seen, journal.len() as u64));
            }
        }
    }
    None
}
