//! What a feeder submitted in one shard.

ghost use Rattle.std.specs.Prelude.{◌≡◌, ◌<◌, ◌++◌, ◌∷◌, [], ℕ, IfErr, OnOk, length, vec_capacity, vec_len, option_map};
ghost use Rattle.std.specs.List.{slice_get};
ghost use Rattle.shards.specs.declared.fault.ShardFault.TheVariants.{Memory};
ghost use Rattle.shards.specs.Compact.{AreWithin, entries_by};

use crate::compact::CompactEntry;
use crate::{NumberedEntry, ShardFault};
use std::alloc::Global;

/// The entries that a feeder submitted in one shard: a row for each, in order, and the entries that no row can keep
/// by their parts, whole.
#[derive(Drop)]
pub struct Submitted<'t> {
    rows: Vec<CompactEntry<'t>>,
    whole: Vec<NumberedEntry<'t>>,
    ghost within: { AreWithin (length whole.items) rows.items },
}

impl<'t> Submitted<'t> {
    pub fn new(alloc: Global) -> Self
        ensures { result.rows.items ≡ [] }
    {
        Submitted {
            rows: Vec::new(alloc),
            whole: Vec::new(alloc),
        }
    }

    pub fn len(&self) -> usize
        ensures { result ≡ length self.now.rows.items }
    {
        self.rows.len()
    }

    /// Makes room for one entry more.
    pub fn reserve(&mut self) -> Result<(), ShardFault>
        ensures room { OnOk result ((vec_len self.new.rows < vec_capacity self.new.rows) × (vec_len self.new.whole < vec_capacity self.new.whole)) }
        ensures rows { self.new.rows.items ≡ self.old.rows.items }
        ensures whole { self.new.whole.items ≡ self.old.whole.items }
        ensures memory { IfErr result (λ fault. fault ≡ Memory) }
    {
        self.rows.reserve(1)?;
        self.whole.reserve(1)?;
        Ok(())
    }

    /// Adds an entry, into the room that `reserve` made.
    pub fn add(&mut self, known: &NumberedEntry<'t>)
        requires room { (vec_len self.old.rows < vec_capacity self.old.rows) × (vec_len self.old.whole < vec_capacity self.old.whole) }
        ensures { entries_by known.now.entry.feeder self.new.whole.items self.new.rows.items ≡ entries_by known.now.entry.feeder self.old.whole.items self.old.rows.items ++ known.now ∷ [] }
    {
        match CompactEntry::by_parts(known) {
            Some(row) => self.rows.push_reserved(row),
            None => {
                let place = self.whole.len();
                self.whole.push_reserved(*known);
                self.rows.push_reserved(CompactEntry::Whole(place));
            }
        }
    }

    /// The number of the entry at a place.
    pub fn number(&self, place: usize) -> Option<u64>
        ensures { (feeder : ℕ) → result ≡ option_map (λ own. own.number) (slice_get (entries_by feeder self.now.whole.items self.now.rows.items) place) }
    {
        match self.rows.get(place) {
            Some(row) => Some(row.number(self.whole.as_slice())),
            None => None,
        }
    }

    /// The entry at a place; `feeder` is the one that submitted it.
    pub fn entry(&self, feeder: u32, place: usize) -> Option<NumberedEntry<'t>>
        ensures { result ≡ slice_get (entries_by feeder self.now.whole.items self.now.rows.items) place }
    {
        match self.rows.get(place) {
            Some(row) => Some(row.entry(feeder, self.whole.as_slice())),
            None => None,
        }
    }
}
