//! Where a picture that is too wide goes on in a new row.

ghost use Rattle.std.specs.Prelude.{◌≡◌, ◌+◌, ◌-◌, ◌^◌, ◌≤◌, ◌<◌, ◌⊎◌, IfOk, length, slice_index};
ghost use Rattle.std.specs.List.Sorted.{IsNonDecreasing};
ghost use Rattle.timeline.specs.Axis.{ongoing_before, ongoing_after};
ghost use Rattle.timeline.specs.Row.{AreRowsUpTo, FitsRow};

use crate::axis::Mark;
use std::alloc::{AllocError, Global};

/// The numbers of the marks with which rows begin. A row is no wider than `width`, or has one mark. Each but the
/// last ends where the fewest operations are ongoing, looked for in the last seventh of the width.
pub fn rows(
    alloc: Global,
    marks: &[Mark],
    places: &[u128],
    width: u32,
) -> Result<Vec<usize>, AllocError>
    requires rising { IsNonDecreasing places.now }
    requires many { length marks.now ≤ length places.now }
    ensures { IfOk result (λ starts. AreRowsUpTo places.now width starts.items (length marks.now)) }
{
    let ongoing = ongoing(alloc, marks)?;
    let mut starts = Vec::new(alloc);
    let mut start = 0;
    while start < marks.len() {
        starts.push(start)?;
        start = end_of_row(places, &ongoing, start, width);
    }
    Ok(starts)
}

/// How many operations have begun before each mark and not ended.
fn ongoing(alloc: Global, marks: &[Mark]) -> Result<Vec<usize>, AllocError>
    ensures many { IfOk result (λ found. length found.items ≡ length marks.now) }
    ensures each { IfOk result (λ found. found.items ≡ ongoing_before 0 marks.now) }
{
    let mut ongoing = Vec::with_capacity(alloc, marks.len())?;
    let mut many: usize = 0;
    for mark in marks {
        ongoing.push(many)?;
        many = after(*mark, many);
    }
    Ok(ongoing)
}

/// How many operations are ongoing after the mark, where `many` are ongoing before it.
fn after(mark: Mark, many: usize) -> usize
    requires { many + 1 < 2 ^ 64 }
    ensures { result ≡ ongoing_after mark many }
{
    if mark.is_end {
        many.saturating_sub(1)
    } else {
        many + 1
    }
}

/// The number of the first mark after the row that begins with `start`.
fn end_of_row(places: &[u128], ongoing: &[usize], start: usize, width: u32) -> usize
    requires within { start < length ongoing.now }
    requires rising { IsNonDecreasing places.now }
    requires many { length ongoing.now ≤ length places.now }
    ensures following { start < result }
    ensures within { result ≤ length ongoing.now }
    ensures row { FitsRow places.now width start result }
{
    let farthest = places[start].saturating_add(u128::from(width));
    let end = end_within(places, ongoing.len(), start, farthest);
    if end == ongoing.len() {
        return end;
    }
    let near = places[start].saturating_add(u128::from(width - width / 7));
    best_end(places, ongoing, start, end, near)
}

/// The number of the first mark after `start` that is further right than `farthest`, or `many` where none is.
fn end_within(places: &[u128], many: usize, start: usize, farthest: u128) -> usize
    requires within { (start < many) × (many ≤ length places.now) }
    ensures following { start < result }
    ensures within { result ≤ many }
    ensures row { (result ≡ start + 1) ⊎ (slice_index places.now (result - 1) ≤ farthest) }
{
    let mut end = start + 1;
    while end < many && places[end] <= farthest {
        end += 1;
    }
    end
}

/// Of `end` and the earlier ends of the row whose last mark is not left of `near`, the one before which the fewest
/// operations are ongoing.
fn best_end(places: &[u128], ongoing: &[usize], start: usize, end: usize, near: u128) -> usize
    requires following { start < end }
    requires within { end < length ongoing.now }
    requires many { length ongoing.now ≤ length places.now }
    ensures following { start < result }
    ensures within { result ≤ end }
{
    let mut best = end;
    for other in start + 1..end {
        if places[other - 1] >= near && ongoing[other] < ongoing[best] {
            best = other;
        }
    }
    best
}
