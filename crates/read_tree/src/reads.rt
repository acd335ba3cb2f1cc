//! The calls: a tree of reads and covers, and its reserved places.

ghost use Rattle.std.specs.Prelude.{◌≡◌, ◌+◌, ◌<◌, [], is_some, if◌then◌else◌, None, OnOk, OnErr, max};
ghost use Rattle.read_tree.specs.Items.{AreItemsInOrder, spot_of_item, with_read_item, item_at_spot, without_read_item, renewed, is_some_uncovered, first_uncovered};

use crate::RowItem;
use crate::look::{earliest, has_uncovered};
use crate::summary::ReadSummary;
use intervals::{Memory, Spot};
use std::alloc::Global;
use std::marker::Model;
use summary_tree::{Subtree, SummaryTree};

/// Items at different spots, and reserved places for more.
#[derive(Drop)]
pub struct ReadTree {
    tree: SummaryTree<RowItem, ReadSummary>,
}

impl Model for ReadTree {
    ghost use Rattle.read_tree.specs.Items.{ReadContents};

    ghost Value = { ReadContents };

    ghost view = { λ t. record { items = t.tree.items; free = t.tree.free } };
}

impl ReadTree {
    /// A tree of no items and no places.
    pub fn new(alloc: Global) -> Self
        ensures items { result.items ≡ [] }
        ensures free { result.free ≡ 0 }
    {
        ReadTree {
            tree: SummaryTree::new(alloc),
        }
    }

    /// How many items can be inserted without memory.
    pub fn free(&self) -> usize
        ensures { result ≡ self.now.free }
    {
        self.tree.free()
    }

    /// Makes room for that many more items. It fails where memory is refused, or where so many places cannot be
    /// counted.
    pub fn reserve(&mut self, places: usize) -> Result<(), Memory>
        ensures items { self.new.items ≡ self.old.items }
        ensures free { OnOk result (self.new.free ≡ max self.old.free places) }
        ensures err { OnErr result (self.new ≡ self.old) }
        ensures memory { OnErr result (self.old.free < places) }
    {
        self.tree.reserve(places)
    }

    /// Puts an item at a new spot into a reserved place.
    #[tactic(auto, using(crate::proofs::InOrder::none_at))]
    pub fn insert(&mut self, item: RowItem)
        requires room { 0 < self.old.free }
        requires new_spot { item_at_spot (spot_of_item item) self.old.items ≡ None }
        ensures items { self.new.items ≡ with_read_item item self.old.items }
        ensures free { self.new.free + 1 ≡ self.old.free }
    {
        self.tree.insert(item);
    }

    /// Takes the item at the spot out. Its place stays reserved.
    pub fn remove(&mut self, spot: Spot) -> Option<RowItem>
        ensures item { result ≡ item_at_spot spot self.old.items }
        ensures items { self.new.items ≡ without_read_item spot self.old.items }
        ensures free { self.new.free ≡ (if is_some result then self.old.free + 1 else self.old.free) }
    {
        self.tree.remove(spot)
    }

    /// Puts the item in the place of the one at its spot; where there is none nothing changes.
    pub fn renew(&mut self, item: RowItem)
        ensures items { self.new.items ≡ renewed item self.old.items }
        ensures free { self.new.free ≡ self.old.free }
    {
        self.tree.replace(item);
    }

    /// The item at the spot.
    pub fn get(&self, spot: Spot) -> Option<RowItem>
        ensures { result ≡ item_at_spot spot self.now.items }
    {
        self.tree.get(spot)
    }

    /// Whether some read is uncovered by the last cover before it.
    #[tactic(auto, using(crate::proofs::InOrder::from_tree))]
    pub fn has_uncovered(&self) -> bool
        ensures uncovered { result ≡ is_some_uncovered None self.now.items }
        ensures order { AreItemsInOrder self.now.items }
    {
        has_uncovered(self.tree.tree(), None)
    }

    /// Of the uncovered reads the one that ended first.
    #[tactic(auto, using(crate::proofs::InOrder::from_tree))]
    pub fn first_uncovered(&self) -> Option<RowItem>
        ensures first { result ≡ first_uncovered None self.now.items }
        ensures order { AreItemsInOrder self.now.items }
    {
        earliest(
            Subtree {
                tree: self.tree.tree(),
            },
            None,
            None,
        )
    }
}
