//! The edges of zones, and their order.

ghost use Rattle.std.specs.Prelude.{◌≡◌};
ghost use Rattle.zone_tree.specs.Edge.{earlier_edge, edge_before, later_edge, rank, same_edge};

use intervals::Moment;

/// The left or the right end of a zone. A write that ended before all events has its edges at `Before`, a write
/// without an end has its end at `Never`.
#[derive(Clone, Copy, PartialEq, Eq, PartialOrd, Ord)]
pub enum Edge {
    Before,
    At(Moment),
    Never,
}

impl Edge {
    /// Edges are in one order: `Before`, the moments one after another, `Never`.
    #[inline(always)]
    pub fn comes_before(self, other: Edge) -> bool
        ensures { result ≡ edge_before self other }
    {
        match (self, other) {
            (Edge::At(earlier), Edge::At(later)) => earlier.0 < later.0,
            _ => self.rank() < other.rank(),
        }
    }

    /// The earlier of the two.
    #[inline(always)]
    pub fn min(self, other: Edge) -> Edge
        ensures { result ≡ earlier_edge self other }
    {
        if other.comes_before(self) {
            other
        } else {
            self
        }
    }

    /// The later of the two.
    #[inline(always)]
    pub fn max(self, other: Edge) -> Edge
        ensures { result ≡ later_edge self other }
    {
        if self.comes_before(other) {
            other
        } else {
            self
        }
    }

    /// Whether the two are one.
    #[inline(always)]
    pub fn is_same(self, other: Edge) -> bool
        ensures { result ≡ same_edge self other }
    {
        self == other
    }

    #[inline(always)]
    fn rank(self) -> u8
        ensures { result ≡ rank self }
    {
        match self {
            Edge::Before => 0,
            Edge::At(_) => 1,
            Edge::Never => 2,
        }
    }
}
