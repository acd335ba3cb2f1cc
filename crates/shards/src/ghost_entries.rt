//! A list of entries that is there in proofs alone.

ghost use Rattle.std.specs.Prelude.{◌≡◌, ◌∷◌, ◌++◌, []};

use crate::Entry;
use std::marker::Model;
use std::mem::replace;
use std::snapshot::Snapshot;

/// Entries, the last one outside. What is before it is a snapshot, which has no bytes.
#[derive(Drop)]
pub enum EntryChain<'t> {
    Empty,
    Last(Snapshot<EntryChain<'t>>, Entry<'t>),
}

/// A list of entries that is there in proofs alone: it has no bytes, and nothing can read it when the program runs.
#[derive(Drop)]
pub struct GhostEntries<'t> {
    chain: Snapshot<EntryChain<'t>>,
}

impl<'t> Model for GhostEntries<'t> {
    ghost use Rattle.std.specs.Prelude.{List};
    ghost use Rattle.shards.specs.GhostEntries.{entries_in};
    ghost use Rattle.shards.specs.declared.entry.Entry.{Entry};

    ghost Value = { List Entry };

    ghost view = { λ entries. entries_in entries.chain.value };
}

impl<'t> GhostEntries<'t> {
    /// No entries.
    pub fn new() -> Self
        ensures { result ≡ [] }
    {
        GhostEntries {
            chain: Snapshot::of(&EntryChain::Empty),
        }
    }

    /// Adds an entry as the last one.
    #[inline(always)]
    pub fn add(&mut self, entry: &Entry<'t>)
        ensures { self.new ≡ self.old ++ entry.now ∷ [] }
    {
        let before = replace(&mut self.chain, Snapshot::of(&EntryChain::Empty));
        self.chain = Snapshot::of(&EntryChain::Last(before, *entry));
    }
}
