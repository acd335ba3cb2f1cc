//! Insertions, removals and replacements: each goes one way down and settles the nodes on the way back up. Nodes
//! are edited in place, and each step down is one of `go_left` or `go_right`, which count it.

ghost use Rattle.std.specs.Prelude.{◌≡◌, ◌+◌, ◌-◌, ◌^◌, ◌<◌, ◌≤◌, ◌++◌, None, min, max, IsTrue, MatchOption, length};
ghost use Rattle.std.specs.Borrow.{Lends, sem};
ghost use Rattle.summary_tree.specs.contracts.node.Node.{the_row};
ghost use Rattle.summary_tree.specs.contracts.node.Tree.{the_row as the_tree};
ghost use Rattle.summary_tree.specs.Order.{AreInOrder, HasNoneAt, with_item, without_item, item_at, with_replaced};
ghost use Rattle.summary_tree.specs.Layers.{no_layers, DifferByAtMost, KeepsLayers};
ghost use Rattle.summary_tree.specs.Node.{items_of, HasSidesInOrder, IsAlone, HasTakenFirst, HasTakenItem};

use crate::balance::settle;
use crate::node::{Node, Tree, close, keep};
use crate::{Keyed, Summarizes};
use std::mem;

impl<T: Copy, S: Summarizes<T>> Node<T, S> {
    fn go_left(&mut self, steps: &mut u64) -> &mut Tree<T, S>
        ensures* lent { sem 𝓛 (Lends (the_row T.row S.row S.Summarizes) (the_tree T.row S.row S.Summarizes) self.entry result (λ w. record self.entry.now { left = w })) }
        ensures value { result.now ≡ self.old.left }
        ensures counted { steps.new ≡ min (steps.old + 1) (2 ^ 64 - 1) }
        ensures rises { steps.old ≤ steps.new }
    {
        *steps = steps.saturating_add(1);
        &mut self.left
    }

    fn go_right(&mut self, steps: &mut u64) -> &mut Tree<T, S>
        ensures* lent { sem 𝓛 (Lends (the_row T.row S.row S.Summarizes) (the_tree T.row S.row S.Summarizes) self.entry result (λ w. record self.entry.now { right = w })) }
        ensures value { result.now ≡ self.old.right }
        ensures counted { steps.new ≡ min (steps.old + 1) (2 ^ 64 - 1) }
        ensures rises { steps.old ≤ steps.new }
    {
        *steps = steps.saturating_add(1);
        &mut self.right
    }
}

impl<T: Keyed, S: Summarizes<T>> Node<T, S> {
    /// The law of items in order: those of each side are in order. It does nothing: a proof that needs the law has
    /// it by a call.
    #[inline(always)]
    #[tactic(auto, using(crate::proofs::Sides::sides_in_order))]
    fn sides_are_in_order(&self)
        requires { AreInOrder T.key T.comes_before (items_of self.now) }
        ensures { HasSidesInOrder T.key T.comes_before self.now }
    {}
}

impl<T: Keyed, S: Summarizes<T>> Tree<T, S> {
    /// Puts a node that has nothing on its sides in its place. Returns whether the tree keeps its height and its
    /// summary: then the trees above it do too.
    #[tactic(auto, using(crate::proofs::Sides::with_left, crate::proofs::Sides::with_right, crate::proofs::Sides::none_left, crate::proofs::Sides::none_right))]
    pub(crate) fn insert(&mut self, place: Box<Node<T, S>>, steps: &mut u64) -> bool
        requires order { AreInOrder T.key T.comes_before self.old.items }
        requires new_key { HasNoneAt T.key (T.key place.value.item) self.old.items }
        requires alone { IsAlone place.value }
        requires room { self.old.height < 255 }
        ensures items { self.new.items ≡ with_item T.key T.comes_before place.value.item self.old.items }
        ensures not_lower { self.old.height ≤ self.new.height }
        ensures at_most_one_higher { self.new.height ≤ self.old.height + 1 }
        ensures stays { IsTrue result → KeepsLayers self.old self.new }
        ensures steps { steps.new ≤ steps.old + self.old.height }
        ensures rises { steps.old ≤ steps.new }
        ensures counts { 0 < length self.old.items → min (steps.old + 1) (2 ^ 64 - 1) ≤ steps.new }
    {
        T::keys_are_in_one_order();
        let Some(top) = &mut self.top else {
            *self = close(place);
            return false;
        };
        top.sides_are_in_order();
        if T::comes_before(place.item.key(), top.item.key()) {
            let stays = top.go_left(steps).insert(place, steps);
            settle(top, stays)
        } else {
            let stays = top.go_right(steps).insert(place, steps);
            settle(top, stays)
        }
    }

    /// Takes the node of that key out. Returns also whether the tree keeps its height and its summary.
    #[tactic(auto, using(crate::proofs::Sides::at_left, crate::proofs::Sides::at_right, crate::proofs::Sides::at_here, crate::proofs::Sides::without_left, crate::proofs::Sides::without_right, crate::proofs::Sides::without_here))]
    pub(crate) fn remove(&mut self, key: T::Key, steps: &mut u64) -> (Option<Box<Node<T, S>>>, bool)
        requires order { AreInOrder T.key T.comes_before self.old.items }
        ensures item { MatchOption result.0 (item_at T.key T.same key self.old.items ≡ None) (λ node. HasTakenItem T.key T.same node.value key self.old.items) }
        ensures items { self.new.items ≡ without_item T.key T.same key self.old.items }
        ensures not_higher { self.new.height ≤ self.old.height }
        ensures at_most_one_lower { self.old.height ≤ self.new.height + 1 }
        ensures stays { IsTrue result.1 → KeepsLayers self.old self.new }
        ensures steps { steps.new ≤ steps.old + self.old.height }
        ensures rises { steps.old ≤ steps.new }
    {
        T::keys_are_in_one_order();
        let Some(top) = &mut self.top else {
            return (None, true);
        };
        top.sides_are_in_order();
        if T::comes_before(key, top.item.key()) {
            let (taken, stays) = top.go_left(steps).remove(key, steps);
            return (taken, settle(top, stays));
        }
        if T::comes_before(top.item.key(), key) {
            let (taken, stays) = top.go_right(steps).remove(key, steps);
            return (taken, settle(top, stays));
        }
        let Some(top) = self.top.take() else {
            unreachable!()
        };
        let (others, alone) = join_sides(top, steps);
        *self = others;
        (Some(alone), false)
    }

    /// Puts an item in the place of the one that has its key, if there is one. Returns whether the tree keeps its
    /// summary.
    #[tactic(auto, using(crate::proofs::Sides::replaced_left, crate::proofs::Sides::replaced_right, crate::proofs::Sides::replaced_here))]
    pub(crate) fn replace(&mut self, item: &T, steps: &mut u64) -> bool
        requires order { AreInOrder T.key T.comes_before self.old.items }
        ensures items { self.new.items ≡ with_replaced T.key T.same item.now self.old.items }
        ensures height { self.new.height ≡ self.old.height }
        ensures stays { IsTrue result → KeepsLayers self.old self.new }
        ensures steps { steps.new ≤ steps.old + self.old.height }
        ensures rises { steps.old ≤ steps.new }
    {
        T::keys_are_in_one_order();
        let Some(top) = &mut self.top else {
            return true;
        };
        top.sides_are_in_order();
        let stays = if T::comes_before(item.key(), top.item.key()) {
            top.go_left(steps).replace(item, steps)
        } else if T::comes_before(top.item.key(), item.key()) {
            top.go_right(steps).replace(item, steps)
        } else {
            top.item = *item;
            false
        };
        settle(top, stays)
    }

    /// Takes the first node out.
    fn take_first(&mut self, steps: &mut u64) -> Option<Box<Node<T, S>>>
        ensures first { MatchOption result ((self.old ≡ no_layers) × (self.new ≡ no_layers)) (λ node. HasTakenFirst node.value self.old.items self.new.items) }
        ensures not_higher { self.new.height ≤ self.old.height }
        ensures at_most_one_lower { self.old.height ≤ self.new.height + 1 }
        ensures steps { steps.new ≤ steps.old + self.old.height }
        ensures rises { steps.old ≤ steps.new }
    {
        let Some(top) = &mut self.top else {
            return None;
        };
        if let Some(first) = top.go_left(steps).take_first(steps) {
            let _ = settle(top, false);
            return Some(first);
        }
        let Some(mut top) = self.top.take() else {
            unreachable!()
        };
        *self = mem::replace(&mut top.right, Tree::new());
        Some(top)
    }
}

/// The tree of both sides of a node, and the node with nothing on its sides.
fn join_sides<T: Keyed, S: Summarizes<T>>(
    mut top: Box<Node<T, S>>,
    steps: &mut u64,
) -> (Tree<T, S>, Box<Node<T, S>>)
    requires near { DifferByAtMost 1 top.value.left.height top.value.right.height }
    requires room { max top.value.left.height top.value.right.height < 255 }
    ensures items { result.0.items ≡ top.value.left.items ++ top.value.right.items }
    ensures item { result.1.value.item ≡ top.value.item }
    ensures alone { IsAlone result.1.value }
    ensures not_lower { max top.value.left.height top.value.right.height ≤ result.0.height }
    ensures at_most_one_higher { result.0.height ≤ max top.value.left.height top.value.right.height + 1 }
    ensures steps { steps.new ≤ steps.old + (max top.value.left.height top.value.right.height + 1) }
    ensures rises { steps.old ≤ steps.new }
{
    let left = mem::replace(&mut top.left, Tree::new());
    let Some(mut first) = top.go_right(steps).take_first(steps) else {
        return (left, top);
    };
    first.left = left;
    first.right = mem::replace(&mut top.right, Tree::new());
    let _ = settle(&mut first, false);
    (keep(first), top)
}
