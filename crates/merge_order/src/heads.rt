//! Whose element comes next, by the heads of the traces.

ghost use Rattle.std.specs.Prelude.{◌≡◌, ◌↔◌, All, None, Option, Some, ℕ};
ghost use Rattle.intervals.specs.declared.operation.Moment.{Moment as AMoment};
ghost use Rattle.merge_order.specs.Order.{IsNextHead, goes_before, goes_first};
ghost use Rattle.merge_order.specs.declared.heads.TraceHead.TheVariants.{Ended};

use intervals::Moment;

/// What is left of a trace: nothing, or elements of which the first waits, with the moment that it carries, if any.
#[derive(Clone, Copy)]
pub enum TraceHead {
    Ended,
    Waiting(Option<Moment>),
}

/// The number of the trace whose element comes next, or none where all have ended.
pub fn next_head(heads: &[TraceHead]) -> Option<usize>
    ensures next { (at : ℕ) → (result ≡ Some at) ↔ ((moment : Option AMoment) × IsNextHead heads.now at moment) }
    ensures none { (result ≡ None) ↔ All (λ head. head ≡ Ended) heads.now }
{
    let mut next = None;
    let mut least = TraceHead::Ended;
    for (at, head) in heads.iter().enumerate() {
        if goes_before(*head, least) {
            next = Some(at);
            least = *head;
        }
    }
    next
}

/// Whether what waits at the first head goes before what waits at the second.
fn goes_before(a: TraceHead, b: TraceHead) -> bool
    ensures { result ≡ goes_before a b }
{
    match (a, b) {
        (TraceHead::Ended, _) => false,
        (TraceHead::Waiting(_), TraceHead::Ended) => true,
        (TraceHead::Waiting(a), TraceHead::Waiting(b)) => goes_first(a, b),
    }
}

/// Whether an element with the first moment, if any, goes before one with the second.
fn goes_first(a: Option<Moment>, b: Option<Moment>) -> bool
    ensures { result ≡ goes_first a b }
{
    match (a, b) {
        (_, None) => false,
        (None, Some(_)) => true,
        (Some(a), Some(b)) => a < b,
    }
}
