//! What a node keeps of the items below it: enough to say after any cover whether some read of them is uncovered.

ghost use Rattle.std.specs.Prelude.{◌≡◌, ◌↔◌, ◌||◌, IsTrue, if◌then◌else◌};
ghost use Rattle.read_tree.specs.Summary.{is_prefix_uncovered, with_others, merged, prefix_of, meets_uncovered, no_prefix, no_summary, summary_of_item, join_reads, IsSummaryOf};

use crate::{Cover, RowItem};
use intervals::{Value, is_same_value};
use summary_tree::Summarizes;

/// What is kept of the reads before the first cover: the greatest reach (`far`) with its `value`, and the greatest
/// reach of a read of another value (`other`).
#[derive(Clone, Copy)]
pub struct Prefix {
    pub value: Value,
    pub far: u64,
    pub other: u64,
}

/// What a node keeps of the items below it.
#[derive(Clone, Copy)]
pub struct ReadSummary {
    pub prefix: Prefix,
    /// The last cover.
    pub last: Option<Cover>,
    /// Whether some read after a cover of these items is uncovered.
    pub uncovered: bool,
    /// The least moment of an item, and `u64::MAX` where there is none.
    pub least: u64,
}

impl Prefix {
    fn none() -> Prefix
        ensures { result ≡ no_prefix }
    {
        Prefix {
            value: Value::Nil,
            far: 0,
            other: 0,
        }
    }

    /// Whether some read is uncovered after that cover.
    #[tactic(auto, unfolding(crate::specs::Summary::is_prefix_uncovered))]
    pub fn is_uncovered(&self, before: Option<Cover>) -> bool
        ensures { result ≡ is_prefix_uncovered before self.now }
    {
        let Some(cover) = before else {
            return 0 < self.far;
        };
        if !is_same_value(self.value, cover.value) {
            return far_limit(&cover) < self.far;
        }
        if cover.by_value {
            cover.reach < self.far || 0 < self.other
        } else {
            cover.reach < self.other
        }
    }

    /// The prefix of both, where `less` reaches no further.
    fn with_others(self, less: Prefix) -> Prefix
        ensures { result ≡ with_others self less }
    {
        let other = if is_same_value(less.value, self.value) {
            less.other
        } else {
            less.far
        };
        Prefix {
            value: self.value,
            far: self.far,
            other: self.other.max(other),
        }
    }

    #[tactic(auto, using(crate::proofs::Same::one_prefix, crate::proofs::Same::same_itself))]
    fn is_same(&self, other: &Prefix) -> bool
        ensures { IsTrue result ↔ (self.now ≡ other.now) }
    {
        self.far == other.far && self.other == other.other && is_same_value(self.value, other.value)
    }

    /// The prefix of both.
    fn merge(self, more: Prefix) -> Prefix
        ensures { result ≡ merged self more }
    {
        if more.far <= self.far {
            self.with_others(more)
        } else {
            more.with_others(self)
        }
    }
}

impl ReadSummary {
    pub fn none() -> ReadSummary
        ensures { result ≡ no_summary }
    {
        ReadSummary {
            prefix: Prefix::none(),
            last: None,
            uncovered: false,
            least: u64::MAX,
        }
    }

    #[tactic(auto, unfolding(crate::specs::Summary::summary_of_item, crate::specs::Summary::least_moment))]
    fn of_item(item: RowItem) -> ReadSummary
        ensures { result ≡ summary_of_item item }
    {
        if item.covers {
            return ReadSummary {
                prefix: Prefix::none(),
                last: Some(item.cover()),
                uncovered: false,
                least: item.moment.0,
            };
        }
        ReadSummary {
            prefix: Prefix {
                value: item.value,
                far: item.reach,
                other: 0,
            },
            last: None,
            uncovered: false,
            least: item.moment.0,
        }
    }

    /// Whether some read of the items is uncovered after that cover.
    pub fn is_uncovered(&self, before: Option<Cover>) -> bool
        ensures { result ≡ (is_prefix_uncovered before self.now.prefix || self.now.uncovered) }
    {
        self.prefix.is_uncovered(before) | self.uncovered
    }
}

impl Summarizes<RowItem> for ReadSummary {
    ghost one = { summary_of_item };

    ghost join = { join_reads };

    ghost IsOf = { IsSummaryOf };

    fn of_one(item: &RowItem) -> Self {
        ReadSummary::of_item(*item)
    }

    #[tactic(auto, unfolding(crate::specs::Summary::join_reads))]
    fn join(&self, following: &ReadSummary) -> Self {
        let prefix = join_prefixes(self.last, self.prefix, following.prefix);
        let meets = is_uncovered_after(self.last, following.prefix);
        ReadSummary {
            prefix,
            last: following.last.or(self.last),
            uncovered: (self.uncovered | following.uncovered) | meets,
            least: self.least.min(following.least),
        }
    }

    fn with_first(&self, item: &RowItem) -> Self {
        ReadSummary::of_one(item).join(self)
    }

    #[tactic(auto, using(crate::proofs::Same::one_summary))]
    fn is_same(&self, other: &ReadSummary) -> bool {
        self.least == other.least
            && self.uncovered == other.uncovered
            && self.prefix.is_same(&other.prefix)
            && is_same_last(&self.last, &other.last)
    }

    #[inline(always)]
    fn summaries_add_up() {}
}

#[tactic(auto, using(crate::proofs::Same::one_cover, crate::proofs::Same::same_itself))]
fn is_same_cover(a: &Cover, b: &Cover) -> bool
    ensures { IsTrue result ↔ (a.now ≡ b.now) }
{
    a.reach == b.reach && a.by_value == b.by_value && is_same_value(a.value, b.value)
}

fn is_same_last(a: &Option<Cover>, b: &Option<Cover>) -> bool
    ensures { IsTrue result ↔ (a.now ≡ b.now) }
{
    match (a, b) {
        (Some(a), Some(b)) => is_same_cover(a, b),
        (None, None) => true,
        _ => false,
    }
}

/// The prefix of two lists: the reads of the second list are before the first cover only where the first list has
/// none.
fn join_prefixes(last: Option<Cover>, prefix: Prefix, following: Prefix) -> Prefix
    ensures { result ≡ prefix_of last prefix following }
{
    match last {
        None => prefix.merge(following),
        Some(_) => prefix,
    }
}

/// Whether some read in the second list's prefix is uncovered after the first list's last cover.
fn is_uncovered_after(last: Option<Cover>, following: Prefix) -> bool
    ensures { result ≡ meets_uncovered last following }
{
    match last {
        None => false,
        Some(_) => following.is_uncovered(last),
    }
}

/// The greatest reach of a read of another value that the cover covers.
pub fn far_limit(cover: &Cover) -> u64
    ensures { result ≡ (if cover.now.by_value then 0 else cover.now.reach) }
{
    if cover.by_value { 0 } else { cover.reach }
}
