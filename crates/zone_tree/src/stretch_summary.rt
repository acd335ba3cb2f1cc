//! What each node keeps of the stretches below it.

ghost use Rattle.std.specs.Prelude.{◌≡◌};
ghost use Rattle.zone_tree.specs.StretchSummary.{one_stretch, join_stretches, summary_of_stretches};

use crate::Stretch;
use summary_tree::Summarizes;

/// Which kinds of stretches there are in a list.
#[derive(Clone, Copy)]
pub struct StretchSummary {
    /// Some stretch is writeless.
    pub writeless: bool,
    /// Some stretch is early.
    pub early: bool,
}

impl Summarizes<Stretch> for StretchSummary {
    ghost one = { one_stretch };

    ghost join = { join_stretches };

    ghost IsOf = { λ s stretches. s ≡ summary_of_stretches stretches };

    #[inline(always)]
    fn of_one(stretch: &Stretch) -> Self {
        StretchSummary {
            writeless: !stretch.written,
            early: stretch.written,
        }
    }

    #[inline(always)]
    fn join(&self, later: &StretchSummary) -> Self {
        StretchSummary {
            writeless: self.writeless || later.writeless,
            early: self.early || later.early,
        }
    }

    #[inline(always)]
    fn with_first(&self, stretch: &Stretch) -> Self {
        StretchSummary::of_one(stretch).join(self)
    }

    #[inline(always)]
    fn is_same(&self, other: &StretchSummary) -> bool {
        self.writeless == other.writeless && self.early == other.early
    }

    #[inline(always)]
    fn summaries_add_up() {}
}
