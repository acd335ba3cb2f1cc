//! A stretch: a value that is at fault, by the end of its first read.

ghost use Rattle.intervals.specs.Moments.{same_moment};
ghost use Rattle.zone_tree.specs.StretchOrder.{moment_before};

use intervals::{Moment, Value};
use summary_tree::Keyed;

/// A value whose first read has no write, or ended before its write begins.
#[derive(Clone, Copy)]
pub struct Stretch {
    /// When the first read of the value ended.
    pub end: Moment,
    /// Whether the value has a write. Then the stretch is early, else it is writeless.
    pub written: bool,
    pub value: Value,
}

impl Keyed for Stretch {
    type Key = Moment;

    ghost key = { λ s. s.end };

    ghost comes_before = { moment_before };

    ghost same = { same_moment };

    fn spare() -> Self {
        Stretch {
            end: Moment(0),
            written: false,
            value: Value::Nil,
        }
    }

    #[inline(always)]
    fn key(&self) -> Moment {
        self.end
    }

    #[inline(always)]
    fn comes_before(a: Moment, b: Moment) -> bool {
        a.0 < b.0
    }

    #[inline(always)]
    fn keys_are_in_one_order() {}
}
