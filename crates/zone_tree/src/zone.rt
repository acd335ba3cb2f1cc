//! A zone, and its key in a tree: its left edge.

ghost use Rattle.std.specs.Prelude.{◌≡◌, ◌↔◌, IsTrue};
ghost use Rattle.zone_tree.specs.Edge.{edge_before, same_edge};
ghost use Rattle.zone_tree.specs.Zone.{HasOrderedEdges, least_end, greatest_begin};

use crate::Edge;
use intervals::Value;
use summary_tree::Keyed;

/// The part of the clock between the least end and the greatest beginning in the cluster of a value. Where the end
/// comes first the zone is forward and runs from it to the beginning, else it is backward and runs from the
/// beginning to the end.
#[derive(Clone, Copy)]
pub struct Zone {
    pub left: Edge,
    pub right: Edge,
    pub forward: bool,
    pub value: Value,
}

impl Zone {
    /// Whether the left edge comes before the right one, or, in a backward zone, not after it.
    pub fn has_ordered_edges(&self) -> bool
        ensures { IsTrue result ↔ HasOrderedEdges self.now }
    {
        if self.forward {
            self.left.comes_before(self.right)
        } else {
            !self.right.comes_before(self.left)
        }
    }

    pub(crate) fn least_end(&self) -> Edge
        ensures { result ≡ least_end self.now }
    {
        if self.forward { self.left } else { self.right }
    }

    pub(crate) fn greatest_begin(&self) -> Edge
        ensures { result ≡ greatest_begin self.now }
    {
        if self.forward { self.right } else { self.left }
    }
}

impl Keyed for Zone {
    type Key = Edge;

    ghost key = { λ z. z.left };

    ghost comes_before = { edge_before };

    ghost same = { same_edge };

    fn spare() -> Self {
        Zone {
            left: Edge::Before,
            right: Edge::Before,
            forward: false,
            value: Value::Nil,
        }
    }

    #[inline(always)]
    fn key(&self) -> Edge {
        self.left
    }

    #[inline(always)]
    fn comes_before(a: Edge, b: Edge) -> bool {
        a.comes_before(b)
    }

    #[inline(always)]
    fn keys_are_in_one_order() {}
}
