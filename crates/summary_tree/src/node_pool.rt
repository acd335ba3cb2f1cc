//! The node pool: spare nodes, one for each reserved place, and room to take back those that are in the tree.

ghost use Rattle.std.specs.Prelude.{◌≡◌, ◌+◌, ◌<◌, ◌≤◌, max, All, OnOk, OnErr, vec_len, vec_capacity};
ghost use Rattle.summary_tree.specs.Node.{IsAlone};

use crate::node::{Node, Tree};
use crate::{Keyed, Summarizes};
use intervals::Memory;
use std::alloc::Global;
use std::marker::Model;

#[derive(Drop)]
pub struct NodePool<T: Keyed, S: Summarizes<T>> {
    spare: Vec<Box<Node<T, S>>>,
    taken: usize,
    alloc: Global,
}

impl<T: Keyed, S: Summarizes<T>> Model for NodePool<T, S> {
    ghost use Rattle.std.specs.Prelude.{◌+◌, ◌≤◌, All, vec_len, vec_capacity};
    ghost use Rattle.summary_tree.specs.NodePool.{PoolPlaces};

    ghost Value = { PoolPlaces };

    ghost view = { λ s. record { free = vec_len s.spare; taken = s.taken } };

    ghost use Rattle.summary_tree.specs.Node.{IsAlone};

    ghost invariant = { λ s. (s.taken + vec_len s.spare ≤ vec_capacity s.spare) × All (λ n. IsAlone n.value) s.spare.items };
}

impl<T: Keyed, S: Summarizes<T>> NodePool<T, S> {
    pub fn new(alloc: Global) -> Self
        ensures free { result.free ≡ 0 }
        ensures taken { result.taken ≡ 0 }
    {
        NodePool {
            spare: Vec::new(alloc),
            taken: 0,
            alloc,
        }
    }

    /// How many spare nodes there are.
    pub fn free(&self) -> usize
        ensures { result ≡ self.now.free }
    {
        self.spare.len()
    }

    /// How many nodes are in the tree.
    pub fn taken(&self) -> usize
        ensures { result ≡ self.now.taken }
    {
        self.taken
    }

    /// Makes spare nodes until there are that many.
    pub fn reserve(&mut self, places: usize) -> Result<(), Memory>
        ensures taken { self.new.taken ≡ self.old.taken }
        ensures free { OnOk result (self.new.free ≡ max self.old.free places) }
        ensures err { OnErr result (self.new.free ≡ self.old.free) }
        ensures memory { OnErr result (self.old.free < places) }
    {
        let free = self.spare.len();
        if places <= free {
            return Ok(());
        }
        // Where the sum is past the greatest number, the vector cannot grow so far.
        let more = self.taken.saturating_add(places - free);
        self.spare.reserve(more)?;
        let filled = fill(self.alloc, &mut self.spare, places);
        if filled.is_err() {
            self.spare.truncate(free);
        }
        filled
    }

    /// A spare node, with this item.
    pub fn take(&mut self, item: T) -> Box<Node<T, S>>
        requires { 0 < self.old.free }
        ensures free { self.new.free + 1 ≡ self.old.free }
        ensures taken { self.new.taken ≡ self.old.taken + 1 }
        ensures alone { IsAlone result.value }
        ensures item { result.value.item ≡ item }
    {
        let Some(mut node) = self.spare.pop() else {
            unreachable!()
        };
        self.taken += 1;
        node.item = item;
        node
    }

    /// Takes a node that has nothing on its sides back.
    pub fn give(&mut self, node: Box<Node<T, S>>)
        requires alone { IsAlone node.value }
        requires taken { 0 < self.old.taken }
        ensures free { self.new.free ≡ self.old.free + 1 }
        ensures taken { self.new.taken + 1 ≡ self.old.taken }
    {
        self.taken -= 1;
        self.spare.push_reserved(node);
    }
}

/// Adds spare nodes up to that many.
fn fill<T: Keyed, S: Summarizes<T>>(
    alloc: Global,
    spare: &mut Vec<Box<Node<T, S>>>,
    places: usize,
) -> Result<(), Memory>
    requires fewer { vec_len spare.old ≤ places }
    requires room { places ≤ vec_capacity spare.old }
    requires alone { All (λ n. IsAlone n.value) spare.old.items }
    ensures ok { OnOk result (vec_len spare.new ≡ places) }
    ensures kept { vec_len spare.old ≤ vec_len spare.new }
    ensures capacity { vec_capacity spare.new ≡ vec_capacity spare.old }
    ensures alone { All (λ n. IsAlone n.value) spare.new.items }
{
    for _ in spare.len()..places {
        let Ok(node) = Box::new(alloc, empty()) else {
            return Err(Memory);
        };
        spare.push_reserved(node);
    }
    Ok(())
}

/// A spare node, whose item is `Keyed::spare`.
fn empty<T: Keyed, S: Summarizes<T>>() -> Node<T, S>
    ensures { IsAlone result }
{
    let item = T::spare();
    Node {
        left: Tree::new(),
        item,
        right: Tree::new(),
        height: 0,
        summary: S::of_one(&item),
    }
}
