//! The calls: a tree, its reserved places and its count of steps.

ghost use Rattle.std.specs.Prelude.{◌≡◌, ◌+◌, ◌*◌, ◌^◌, ◌<◌, ◌≤◌, ℕ, [], length, is_some, if◌then◌else◌, OnOk, OnErr, max, ◌-◌, min};
ghost use Rattle.summary_tree.specs.Order.{AreInOrder, HasNoneAt, with_item, without_item, item_at, with_replaced};

use crate::node::Tree;
use crate::node_pool::NodePool;
use crate::{Keyed, Summarizes};
use intervals::Memory;
use std::alloc::Global;
use std::marker::Model;

/// Items of different keys, and reserved places for more.
#[derive(Drop)]
pub struct SummaryTree<T: Keyed, S: Summarizes<T>> {
    tree: Tree<T, S>,
    places: NodePool<T, S>,
    steps: u64,
}

impl<T: Keyed, S: Summarizes<T>> Model for SummaryTree<T, S> {
    ghost use Rattle.summary_tree.specs.Order.{TreeContents, IsTreeOf};

    ghost Value = { TreeContents T };

    ghost view = { λ t. record { items = t.tree.items; free = t.places.free; steps = t.steps } };

    ghost invariant = { λ t. IsTreeOf T.key T.comes_before t.tree.items t.places.taken };
}

impl<T: Keyed, S: Summarizes<T>> SummaryTree<T, S> {
    /// A tree of no items and no places.
    pub fn new(alloc: Global) -> Self
        ensures items { result.items ≡ [] }
        ensures free { result.free ≡ 0 }
        ensures steps { result.steps ≡ 0 }
    {
        SummaryTree {
            tree: Tree::new(),
            places: NodePool::new(alloc),
            steps: 0,
        }
    }

    /// How many items it holds.
    pub fn len(&self) -> usize
        ensures { result ≡ length self.now.items }
    {
        self.places.taken()
    }

    /// How many items can be inserted without memory.
    pub fn free(&self) -> usize
        ensures { result ≡ self.now.free }
    {
        self.places.free()
    }

    /// How many times insertions, removals and replacements went from a node to one of its sides; the count ends
    /// at `u64::MAX`.
    pub fn steps(&self) -> u64
        ensures { result ≡ self.now.steps }
    {
        self.steps
    }

    /// The tree of boxes, to look things up in.
    pub fn tree(&self) -> &Tree<T, S>
        ensures items { result.now.items ≡ self.now.items }
        ensures order { AreInOrder T.key T.comes_before self.now.items }
    {
        &self.tree
    }

    /// The item of that key.
    pub fn get(&self, key: T::Key) -> Option<T>
        ensures { result ≡ item_at T.key T.same key self.now.items }
    {
        self.tree.get(key)
    }

    /// Makes room for that many more items. It fails where memory is refused, or where so many places cannot be
    /// counted.
    pub fn reserve(&mut self, places: usize) -> Result<(), Memory>
        ensures items { self.new.items ≡ self.old.items }
        ensures steps { self.new.steps ≡ self.old.steps }
        ensures free { OnOk result (self.new.free ≡ max self.old.free places) }
        ensures err { OnErr result (self.new ≡ self.old) }
        ensures memory { OnErr result (self.old.free < places) }
    {
        self.places.reserve(places)
    }

    /// Puts an item of a new key into a reserved place.
    #[tactic(auto, using(crate::proofs::Low::low_within))]
    pub fn insert(&mut self, item: T)
        requires room { 0 < self.old.free }
        requires new_key { HasNoneAt T.key (T.key item) self.old.items }
        ensures items { self.new.items ≡ with_item T.key T.comes_before item self.old.items }
        ensures free { self.new.free + 1 ≡ self.old.free }
        ensures steps { (d : ℕ) → length self.old.items < 2 ^ d → self.new.steps ≤ self.old.steps + 2 * d }
        ensures rises { self.old.steps ≤ self.new.steps }
        ensures counts { 0 < length self.old.items → min (self.old.steps + 1) (2 ^ 64 - 1) ≤ self.new.steps }
    {
        T::keys_are_in_one_order();
        // The number of places bounds the items, and so the height.
        let _ = (self.tree.height(), self.places.taken());
        let place = self.places.take(item);
        let _ = self.tree.insert(place, &mut self.steps);
    }

    /// Takes the item of that key out. Its place stays reserved.
    pub fn remove(&mut self, key: T::Key) -> Option<T>
        ensures item { result ≡ item_at T.key T.same key self.old.items }
        ensures items { self.new.items ≡ without_item T.key T.same key self.old.items }
        ensures free { self.new.free ≡ (if is_some result then self.old.free + 1 else self.old.free) }
        ensures steps { (d : ℕ) → length self.old.items < 2 ^ d → self.new.steps ≤ self.old.steps + 2 * d }
        ensures rises { self.old.steps ≤ self.new.steps }
    {
        T::keys_are_in_one_order();
        let _ = self.tree.height();
        let (taken, _) = self.tree.remove(key, &mut self.steps);
        let Some(place) = taken else {
            return None;
        };
        let item = place.item;
        self.places.give(place);
        Some(item)
    }

    /// Puts an item in the place of the one that has its key; where there is none nothing changes.
    pub fn replace(&mut self, item: T)
        ensures items { self.new.items ≡ with_replaced T.key T.same item self.old.items }
        ensures free { self.new.free ≡ self.old.free }
        ensures steps { (d : ℕ) → length self.old.items < 2 ^ d → self.new.steps ≤ self.old.steps + 2 * d }
        ensures rises { self.old.steps ≤ self.new.steps }
    {
        T::keys_are_in_one_order();
        let _ = self.tree.height();
        let _ = self.tree.replace(&item, &mut self.steps);
    }
}
