//! What each node keeps of the zones below it.

ghost use Rattle.std.specs.Prelude.{◌≡◌};
ghost use Rattle.zone_tree.specs.Summary.{no_zones, one_zone, join_zones, summary_of_zones, meets};

use crate::{Edge, Zone};
use summary_tree::Summarizes;

/// The edges that decide whether zones conflict with zones before or after them, and whether two of them conflict.
#[derive(Clone, Copy)]
pub struct ZoneSummary {
    /// The greatest right edge of a forward zone; `Before` where there is none.
    pub last_forward: Edge,
    /// The least left edge of a forward zone; `Never` where there is none.
    pub first_forward: Edge,
    /// The least right edge of a backward zone; `Never` where there is none.
    pub first_backward: Edge,
    /// Whether two zones conflict.
    pub conflict: bool,
}

impl ZoneSummary {
    #[tactic(auto, unfolding(crate::specs::Summary::no_zones))]
    pub fn none() -> Self
        ensures { result ≡ no_zones }
    {
        ZoneSummary {
            last_forward: Edge::Before,
            first_forward: Edge::Never,
            first_backward: Edge::Never,
            conflict: false,
        }
    }

    /// Whether a forward zone of these conflicts with one of the later zones.
    #[inline(always)]
    fn meets(&self, later: &ZoneSummary) -> bool
        ensures { result ≡ meets self.now later.now }
    {
        later.first_forward.comes_before(self.last_forward)
            || later.first_backward.comes_before(self.last_forward)
    }
}

impl Summarizes<Zone> for ZoneSummary {
    ghost one = { one_zone };

    ghost join = { join_zones };

    ghost IsOf = { λ s zones. s ≡ summary_of_zones zones };

    #[inline(always)]
    #[tactic(auto, unfolding(crate::specs::Summary::one_zone))]
    fn of_one(zone: &Zone) -> Self {
        if zone.forward {
            ZoneSummary {
                last_forward: zone.right,
                first_forward: zone.left,
                first_backward: Edge::Never,
                conflict: false,
            }
        } else {
            ZoneSummary {
                last_forward: Edge::Before,
                first_forward: Edge::Never,
                first_backward: zone.right,
                conflict: false,
            }
        }
    }

    #[inline(always)]
    fn is_same(&self, other: &ZoneSummary) -> bool {
        self.last_forward.is_same(other.last_forward)
            && self.first_forward.is_same(other.first_forward)
            && self.first_backward.is_same(other.first_backward)
            && self.conflict == other.conflict
    }

    #[inline(always)]
    #[tactic(auto, unfolding(crate::specs::Summary::join_zones))]
    fn join(&self, later: &ZoneSummary) -> Self {
        ZoneSummary {
            last_forward: self.last_forward.max(later.last_forward),
            first_forward: self.first_forward.min(later.first_forward),
            first_backward: self.first_backward.min(later.first_backward),
            conflict: self.conflict || later.conflict || self.meets(later),
        }
    }

    /// A backward zone conflicts with no later one, so of it only the right edge counts.
    #[inline(always)]
    #[tactic(auto, using(crate::proofs::Summaries::backward_first))]
    fn with_first(&self, zone: &Zone) -> Self {
        if zone.forward {
            return ZoneSummary::of_one(zone).join(self);
        }
        ZoneSummary {
            last_forward: self.last_forward,
            first_forward: self.first_forward,
            first_backward: zone.right.min(self.first_backward),
            conflict: self.conflict,
        }
    }

    #[inline(always)]
    fn summaries_add_up() {}
}
