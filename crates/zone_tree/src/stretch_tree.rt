//! The tree of stretches: room is made in it before stretches are inserted, and it finds the first of each kind.

ghost use Rattle.std.specs.Prelude.{◌≡◌, ◌+◌, ◌<◌, ◌&&◌, not, [], find, is_some, if◌then◌else◌, OnOk, OnErr, max};
ghost use Rattle.intervals.specs.Operation.{same_value};
ghost use Rattle.zone_tree.specs.StretchOrder.{AreByEnd, HasNoStretchAt, with_stretch, without_stretch_at, stretch_at};

use crate::stretch_summary::StretchSummary;
use crate::{Stretch, stretch_look};
use intervals::{Memory, Moment, Value};
use std::alloc::Global;
use std::marker::Model;
use summary_tree::{Subtree, SummaryTree};

/// Stretches of different ends, and reserved places for more. The levels that its calls go down are not counted:
/// the bound on the steps of an edit is that of the tree of zones.
#[derive(Drop)]
pub struct StretchTree {
    tree: SummaryTree<Stretch, StretchSummary>,
}

impl Model for StretchTree {
    ghost use Rattle.zone_tree.specs.StretchOrder.{StretchContents};

    ghost Value = { StretchContents };

    ghost view = { λ t. record { stretches = t.tree.items; free = t.tree.free } };
}

impl StretchTree {
    /// A tree without stretches and without places.
    pub fn new(alloc: Global) -> Self
        ensures stretches { result.stretches ≡ [] }
        ensures free { result.free ≡ 0 }
    {
        StretchTree {
            tree: SummaryTree::new(alloc),
        }
    }

    /// How many stretches can be inserted without memory.
    pub fn free(&self) -> usize
        ensures { result ≡ self.now.free }
    {
        self.tree.free()
    }

    /// Makes sure that there are places for at least this many more stretches.
    pub fn reserve(&mut self, places: usize) -> Result<(), Memory>
        ensures stretches { self.new.stretches ≡ self.old.stretches }
        ensures free { OnOk result (self.new.free ≡ max self.old.free places) }
        ensures err { OnErr result (self.new ≡ self.old) }
        ensures memory { OnErr result (self.old.free < places) }
    {
        self.tree.reserve(places)
    }

    /// Puts a stretch of a new end into a reserved place.
    pub fn insert(&mut self, stretch: Stretch)
        requires room { 0 < self.old.free }
        requires new_end { HasNoStretchAt stretch.end self.old.stretches }
        ensures stretches { self.new.stretches ≡ with_stretch stretch self.old.stretches }
        ensures free { self.new.free + 1 ≡ self.old.free }
    {
        self.tree.insert(stretch);
    }

    /// Takes the stretch of that end out. Its place stays reserved.
    pub fn remove(&mut self, end: Moment) -> Option<Stretch>
        ensures stretch { result ≡ stretch_at end self.old.stretches }
        ensures stretches { self.new.stretches ≡ without_stretch_at end self.old.stretches }
        ensures free { self.new.free ≡ (if is_some result then self.old.free + 1 else self.old.free) }
    {
        self.tree.remove(end)
    }

    /// The writeless stretch that ends first.
    pub fn first_writeless(&self) -> Option<Stretch>
        ensures first { result ≡ find (λ s. not s.written) self.now.stretches }
        ensures order { AreByEnd self.now.stretches }
    {
        stretch_look::first_writeless(self.all())
    }

    /// The writeless stretch of another value than `value` that ends first.
    pub fn first_writeless_but(&self, value: Value) -> Option<Stretch>
        ensures first { result ≡ find (λ s. not s.written && not (same_value s.value value)) self.now.stretches }
        ensures order { AreByEnd self.now.stretches }
    {
        stretch_look::first_writeless_but(self.all(), value)
    }

    /// The early stretch that ends first.
    pub fn first_early(&self) -> Option<Stretch>
        ensures first { result ≡ find (λ s. s.written) self.now.stretches }
        ensures order { AreByEnd self.now.stretches }
    {
        stretch_look::first_early(self.all())
    }

    fn all(&self) -> Subtree<'_, Stretch, StretchSummary>
        ensures stretches { result.tree.now.items ≡ self.now.stretches }
        ensures order { AreByEnd self.now.stretches }
    {
        Subtree {
            tree: self.tree.tree(),
        }
    }
}
