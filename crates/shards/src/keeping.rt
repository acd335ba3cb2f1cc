//! Whether a journal is in keeping with a pass.

ghost use Rattle.std.specs.Prelude.{◌≡◌, ◌↔◌, ◌-◌, IsTrue, IfSome, IsNone, length};
ghost use Rattle.shards.specs.Journal.{count_by};
ghost use Rattle.shards.specs.Pass.{HasEntry, HasFarthest, HasLastOwn, IsBehind, IsInKeeping, own_entries};
ghost use Rattle.shards.specs.Shard.{Rises};

use crate::same::is_same;
use crate::{Entry, NumberedEntry, Pass};

/// The number that shows that a journal of a shard is not in keeping with a pass; none where it is. `count` is how
/// many of its entries are the feeder's.
pub fn first_lack(pass: &Pass, shard: u32, journal: &[Entry], count: u64) -> Option<u64>
    requires { count ≡ count_by pass.now.feeder journal.now }
    ensures following { IfSome result (IsBehind shard pass.now journal.now) }
    ensures keeping { IsNone result → IsInKeeping shard pass.now journal.now }
    ensures rises { IsNone result → Rises (own_entries pass.now shard) }
{
    if let Some(known) = pass.seen().farthest(shard) {
        if !has_entry(journal, known) {
            return Some(known.number);
        }
    }
    let submitted = pass.submitted(shard);
    let last = submitted.saturating_sub(1) as usize;
    if !has_last(pass, shard, last, journal) {
        return pass.number_at(shard, last);
    }
    if count == submitted {
        None
    } else {
        Some(submitted)
    }
}

/// Whether the journal has the last entry that the pass submitted, which is at place `last` of its own ones. The
/// journal has the farthest entry that the pass knows. Mostly both have one number: then they read the same, and
/// nothing is compared.
fn has_last(pass: &Pass, shard: u32, last: usize, journal: &[Entry]) -> bool
    requires last { last ≡ length (own_entries pass.now shard) - 1 }
    requires farthest { HasFarthest shard pass.now journal.now }
    ensures last { IsTrue result ↔ HasLastOwn shard pass.now journal.now }
    ensures rises { Rises (own_entries pass.now shard) }
{
    let Some(number) = pass.number_at(shard, last) else {
        return true;
    };
    if let Some(known) = pass.seen().farthest(shard) {
        if known.number == number {
            return true;
        }
    }
    match pass.entry_at(shard, last) {
        Some(own) => has_entry(journal, &own),
        None => true,
    }
}

/// Whether the journal has the entry at its number.
fn has_entry(journal: &[Entry], known: &NumberedEntry) -> bool
    ensures { IsTrue result ↔ HasEntry journal.now known.now }
{
    match journal.get(known.number as usize) {
        Some(entry) => is_same(entry, &known.entry),
        None => false,
    }
}
