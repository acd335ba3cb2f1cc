//! The tree of boxes. Each node is as `specs/Node.antt` says: `keep` alone makes trees of nodes and asks for that,
//! and `edit` changes nodes in place.

ghost use Rattle.std.specs.Prelude.{◌≡◌, ◌+◌, ◌<◌, max, IsTrue, MatchOption};
ghost use Rattle.summary_tree.specs.Layers.{no_layers, DifferByAtMost, IsLow, IsSummed, with_first, joined};
ghost use Rattle.summary_tree.specs.Node.{items_of, summary_around, layers_of, IsRightNode, IsBalanced, IsBalancedNode, IsTop, KeepsNode};

use crate::Summarizes;
use std::marker::Model;

/// A tree of boxes: a node at the top, or nothing.
#[cycle(tree)]
#[derive(Drop)]
pub struct Tree<T: Copy, S: Summarizes<T>> {
    pub(crate) top: Option<Box<Node<T, S>>>,
}

/// An item between those of its sides, and the summary of all of them.
#[cycle(tree)]
#[derive(Drop)]
pub struct Node<T: Copy, S: Summarizes<T>> {
    pub left: Tree<T, S>,
    pub item: T,
    pub right: Tree<T, S>,
    pub height: u8,
    pub summary: S,
}

impl<T: Copy, S: Summarizes<T>> Model for Tree<T, S> {
    ghost use Rattle.std.specs.Prelude.{length};
    ghost use Rattle.summary_tree.specs.Layers.{Layers};

    ghost Value = { Layers T S };

    ghost use Rattle.summary_tree.specs.Node.{layers_of, IsBalanced};

    ghost view = { λ t. layers_of t.top };

    ghost invariant = { λ t. IsBalanced S.one S.join S.IsOf t.top };

    ghost size = { λ layers. length layers.items };

    ghost use Rattle.std.proofs.Common.{arith, length-append};

    ghost size_decreases = { λ t h. Prim.grind (arith, length-append) };
}

impl<T: Copy, S: Summarizes<T>> Tree<T, S> {
    pub(crate) fn new() -> Self
        ensures { result ≡ no_layers }
    {
        Tree { top: None }
    }

    #[tactic(auto, using(crate::proofs::Low::low_empty))]
    pub(crate) fn height(&self) -> u8
        ensures height { result ≡ self.now.height }
        ensures low { IsLow self.now.items self.now.height }
        ensures summed { IsSummed S.IsOf self.now.summary self.now.items }
    {
        match &self.top {
            Some(top) => top.height,
            None => 0,
        }
    }

    /// The top node, with what is known of its items and its summary.
    pub fn top(&self) -> Option<&Node<T, S>>
        ensures { MatchOption result (self.now ≡ no_layers) (λ node. IsTop S.IsOf node.now self.now.items) }
    {
        match &self.top {
            Some(top) => Some(top),
            None => None,
        }
    }

    /// Takes the top out with all that is below it.
    pub(crate) fn take(&mut self) -> Option<Box<Node<T, S>>>
        ensures same { layers_of result ≡ self.old }
        ensures balanced { IsBalanced S.one S.join S.IsOf result }
        ensures empty { self.new ≡ no_layers }
    {
        self.top.take()
    }

    /// The summary of the items of this tree and of those after them.
    #[inline(always)]
    #[tactic(auto, unfolding(crate::specs::Layers::joined))]
    fn before(&self, later: S) -> S
        ensures { result ≡ joined S.join self.now.summary later }
    {
        match &self.top {
            Some(top) => top.summary.join(&later),
            None => later,
        }
    }

    /// The summary of an item and of those of this tree after it.
    #[inline(always)]
    #[tactic(auto, unfolding(crate::specs::Layers::with_first))]
    fn with_first(&self, item: &T) -> S
        ensures { result ≡ with_first S.one S.join item.now self.now.summary }
    {
        match &self.top {
            Some(top) => top.summary.with_first(item),
            None => S::of_one(item),
        }
    }
}

impl<T: Copy, S: Summarizes<T>> Node<T, S> {
    /// The summary of its items, made of those of its sides.
    #[inline(always)]
    fn sum(&self) -> S
        ensures { result ≡ summary_around S.one S.join self.now }
    {
        self.left.before(self.right.with_first(&self.item))
    }

    /// Makes its height and its summary again. Returns whether both stay.
    #[inline(always)]
    pub(crate) fn renew(&mut self) -> bool
        requires near { DifferByAtMost 1 self.old.left.height self.old.right.height }
        requires room { max self.old.left.height self.old.right.height < 255 }
        ensures balanced { IsBalancedNode S.one S.join S.IsOf self.new }
        ensures items { items_of self.new ≡ items_of self.old }
        ensures height { self.new.height ≡ max self.old.left.height self.old.right.height + 1 }
        ensures stays { IsTrue result → KeepsNode self.old self.new }
    {
        let height = self.left.height().max(self.right.height()) + 1;
        let summary = self.sum();
        let stays = self.height == height && self.summary.is_same(&summary);
        self.height = height;
        self.summary = summary;
        self.sides_are_balanced();
        stays
    }

    /// The law of a node whose height and summary are right: it is balanced, since its sides are. It does nothing:
    /// a proof that needs the law has it by a call.
    #[inline(always)]
    pub(crate) fn sides_are_balanced(&self)
        requires { IsRightNode S.one S.join self.now }
        ensures { IsBalancedNode S.one S.join S.IsOf self.now }
    {
        S::summaries_add_up();
        let _ = (self.left.height(), self.right.height());
    }
}

/// The tree of a node, once its height and its summary are made again.
pub(crate) fn close<T: Copy, S: Summarizes<T>>(mut node: Box<Node<T, S>>) -> Tree<T, S>
    requires near { DifferByAtMost 1 node.value.left.height node.value.right.height }
    requires room { max node.value.left.height node.value.right.height < 255 }
    ensures items { result.items ≡ items_of node.value }
    ensures height { result.height ≡ max node.value.left.height node.value.right.height + 1 }
{
    let _ = node.renew();
    keep(node)
}

/// The tree of a node that is balanced.
#[inline(always)]
pub(crate) fn keep<T: Copy, S: Summarizes<T>>(node: Box<Node<T, S>>) -> Tree<T, S>
    requires { IsBalancedNode S.one S.join S.IsOf node.value }
    ensures { result ≡ layers_of (Some node) }
{
    Tree { top: Some(node) }
}
