//! Why an auditor cannot be closed with the passes that are given.

ghost use Rattle.std.specs.Prelude.{◌≡◌, ◌≢◌, ◌↔◌, ◌<◌, ◌≤◌, ◌^◌, ℕ, All, IfSome, IsNone, IsTrue, MatchBool, Some, length, map};
ghost use Rattle.std.specs.List.{AllPairs, slice_get};
ghost use Rattle.std.specs.List.Sorted.{IsPartitionPoint};
ghost use Rattle.shards.specs.Closing.{AreComplete, AreItsPasses, ShardModel, IsClosingFault, IsFirstStranger, IsFirstWithStranger};
ghost use Rattle.shards.specs.Merge.{IsStranger, SubmittedAt};
ghost use Rattle.shards.specs.Pass.{own_entries};
ghost use Rattle.shards.specs.Shard.{AreOwned, AreStarts, IsKeptShardOf, IsOwned, IsSettledFor, AreNumberedBelow, held_of};
ghost use Rattle.shards.specs.Steps.{numbered_entry};

use crate::fitting::{are_its_passes, first_missing, first_unfit, pass_of};
use crate::same::is_same;
use crate::shard::Shard;
use crate::{Entry, NumberedEntry, Opening, Pass, ShardFault};

/// The first fault: S6, S4, S3, S5 in this order, of the least shard, and there of the least feeder or number.
/// Each feeder below `wanted` must have a pass.
pub fn closing_fault<'t, O: Opening>(
    name: u64,
    feeders: u32,
    wanted: u32,
    shards: &[Shard<'t>],
    passes: &[Pass<'t>],
) -> Option<ShardFault>
    requires name { name ≡ O.plan.name }
    requires feeders { feeders ≡ O.plan.feeders }
    requires many { length shards.now ≡ O.plan.shards }
    requires kept { All (IsKeptShardOf O.plan) shards.now }
    requires bound { O.plan.shards < 2 ^ 32 }
    requires few { O.plan.feeders ≤ 256 }
    ensures fault { IfSome result (IsClosingFault O.plan wanted passes.now (map held_of shards.now)) }
    ensures passes { IsNone result → AreItsPasses O.plan passes.now × AreComplete wanted passes.now }
    ensures none { IsNone result → (place : ℕ) (shard : ShardModel) → slice_get (map held_of shards.now) place ≡ Some shard → (shard.at ≡ place) × IsSettledFor O.plan passes.now place shard.journal }
{
    if !are_its_passes::<O>(name, feeders, shards.len(), passes) {
        return Some(ShardFault::ForeignPass);
    }
    if let Some(feeder) = first_missing(wanted, passes) {
        return Some(ShardFault::PassMissing(feeder));
    }
    if let Some((shard, seen, found)) = first_unfit::<O>(feeders, shards, passes) {
        return Some(ShardFault::JournalBehind { shard, seen, found });
    }
    let (shard, known) = first_stranger::<O>(shards, passes)?;
    Some(ShardFault::Stranger {
        shard,
        feeder: known.entry.feeder,
        number: known.number,
    })
}

/// The least shard with a stranger, which is an entry that its feeder's pass did not submit, and the first there.
fn first_stranger<'t, O: Opening>(
    shards: &[Shard<'t>],
    passes: &[Pass<'t>],
) -> Option<(u32, NumberedEntry<'t>)>
    requires kept { All (IsKeptShardOf O.plan) shards.now }
    requires apart { AllPairs (λ a b. a.feeder ≢ b.feeder) passes.now }
    requires few { All (λ pass. pass.feeder < 256) passes.now }
    requires bound { length shards.now < 2 ^ 32 }
    ensures stranger { IfSome result (λ found. IsFirstWithStranger passes.now (map held_of shards.now) found.0 found.1) }
    ensures none { IsNone result → (place : ℕ) (shard : ShardModel) → slice_get (map held_of shards.now) place ≡ Some shard → AreOwned passes.now place shard.journal }
{
    for place in 0..shards.len() {
        let shard = &shards[place];
        if let Some(known) = stranger_in(shard.kept::<O>(), place as u32, passes) {
            return Some((place as u32, known));
        }
    }
    None
}

/// The first stranger of a journal. The entries of each pass are gone over once, beside the journal: those before
/// the start of its feeder have lesser numbers than the entry that the journal is at.
fn stranger_in<'t>(
    journal: &[Entry<'t>],
    place: u32,
    passes: &[Pass<'t>],
) -> Option<NumberedEntry<'t>>
    requires apart { AllPairs (λ a b. a.feeder ≢ b.feeder) passes.now }
    requires few { All (λ pass. pass.feeder < 256) passes.now }
    ensures stranger { IfSome result (IsFirstStranger passes.now place journal.now) }
    ensures none { IsNone result → AreOwned passes.now place journal.now }
{
    let mut starts = [0; 256];
    for number in 0..journal.len() {
        let entry = &journal[number];
        if !is_owned(passes, place, number as u64, entry, &mut starts) {
            return Some(NumberedEntry {
                number: number as u64,
                entry: *entry,
            });
        }
    }
    None
}

/// Whether the pass of the entry's feeder submitted it at its number; true where there is no such pass. The
/// feeder's start moves on to that number.
fn is_owned(
    passes: &[Pass],
    place: u32,
    number: u64,
    entry: &Entry,
    starts: &mut [usize; 256],
) -> bool
    requires apart { AllPairs (λ a b. a.feeder ≢ b.feeder) passes.now }
    requires few { All (λ pass. pass.feeder < 256) passes.now }
    requires starts { AreStarts passes.now place number starts.old }
    ensures owned { MatchBool result (IsOwned passes.now place (numbered_entry number entry.now)) (IsStranger passes.now place (numbered_entry number entry.now)) }
    ensures starts { AreStarts passes.now place number starts.new }
{
    let feeder = entry.feeder;
    match pass_of(passes, feeder) {
        Some(pass) => {
            let start = start_from(pass, place, starts[feeder as usize], number);
            starts[feeder as usize] = start;
            is_told(pass, place, start, number, entry)
        }
        None => true,
    }
}

/// The first place, from `place` on, of an own entry of the pass whose number is not less than `number`.
fn start_from(pass: &Pass, shard: u32, place: usize, number: u64) -> usize
    requires { AreNumberedBelow (own_entries pass.now shard) number place }
    ensures { IsPartitionPoint (λ own. own.number < number) (λ own. number ≤ own.number) (own_entries pass.now shard) result }
{
    let many = pass.submitted(shard) as usize;
    let mut start = place;
    while start < many {
        match pass.number_at(shard, start) {
            Some(own) if own < number => start += 1,
            _ => return start,
        }
    }
    start
}

/// Whether the pass submitted the entry at `number`. Its own entries before `start` have lesser numbers, the others
/// do not.
fn is_told(pass: &Pass, shard: u32, start: usize, number: u64, entry: &Entry) -> bool
    requires { IsPartitionPoint (λ own. own.number < number) (λ own. number ≤ own.number) (own_entries pass.now shard) start }
    ensures { IsTrue result ↔ SubmittedAt pass.now shard (numbered_entry number entry.now) }
{
    match pass.entry_at(shard, start) {
        Some(own) => own.number == number && is_same(&own.entry, entry),
        None => false,
    }
}
