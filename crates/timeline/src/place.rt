//! How far right each mark is, by the distances that are wanted between marks.

ghost use Rattle.std.specs.Prelude.{◌≡◌, ◌+◌, ◌≤◌, ◌<◌, ◌⊎◌, All, IfOk, length};
ghost use Rattle.std.specs.List.{AllWithin};
ghost use Rattle.std.specs.List.Sorted.{IsNonDecreasing, IsNonDecreasingBy};
ghost use Rattle.timeline.specs.Place.{AreSpaced, AreBounded, AreTight, IsBounded, IsDistanceKept, IsPutBefore, IsPutBy, IsWithin, before, wanted_by};

use std::alloc::{AllocError, Global};

/// The least distance that is wanted between two marks, by their numbers, `from` the earlier.
#[derive(Clone, Copy)]
pub struct Want {
    pub from: usize,
    pub to: usize,
    pub least: u32,
}

/// The place of each mark, as far left as the steps and the wants allow. A step is the least distance from the
/// mark before it, the first from the left edge.
pub fn places(alloc: Global, steps: &[u32], wants: Vec<Want>) -> Result<Vec<u128>, AllocError>
    requires { All (IsWithin steps.now) wants.items }
    ensures many { IfOk result (λ places. length places.items ≡ length steps.now) }
    ensures apart { IfOk result (λ places. AreSpaced steps.now places.items) }
    ensures rising { IfOk result (λ places. IsNonDecreasing places.items) }
    ensures kept { IfOk result (λ places. All (IsDistanceKept places.items) wants.items) }
    ensures tight { IfOk result (λ places. AreTight steps.now wants.items places.items) }
{
    let mut sorted = wants;
    sorted.sort_unstable_by_key(|want| want.to);
    let places = place_all(alloc, steps, &sorted)?;
    Ok(places)
}

fn place_all(alloc: Global, steps: &[u32], wants: &[Want]) -> Result<Vec<u128>, AllocError>
    requires within { All (IsWithin steps.now) wants.now }
    requires sorted { IsNonDecreasingBy (λ want. want.to) wants.now }
    ensures many { IfOk result (λ places. length places.items ≡ length steps.now) }
    ensures apart { IfOk result (λ places. AreSpaced steps.now places.items) }
    ensures kept { IfOk result (λ places. All (IsDistanceKept places.items) wants.now) }
    ensures tight { IfOk result (λ places. AreTight steps.now wants.now places.items) }
{
    let mut places = Vec::with_capacity(alloc, steps.len())?;
    let mut next = 0;
    for number in 0..steps.len() {
        let end = end_of(wants, next, number);
        let least = following(&places, steps[number]);
        places.push(farthest(&places, wants, next, end, least))?;
        next = end;
    }
    Ok(places)
}

/// The index of the first want, from that one on, that is for a later mark than this.
fn end_of(wants: &[Want], from: usize, mark: usize) -> usize
    requires within { from ≤ length wants.now }
    requires sorted { IsNonDecreasingBy (λ want. want.to) wants.now }
    requires left { AllWithin (λ want. mark ≤ want.to) wants.now from (length wants.now) }
    ensures within { (from ≤ result) × (result ≤ length wants.now) }
    ensures here { AllWithin (λ want. want.to ≡ mark) wants.now from result }
    ensures left { AllWithin (λ want. mark < want.to) wants.now result (length wants.now) }
{
    let mut end = from;
    while end < wants.len() && wants[end].to == mark {
        end += 1;
    }
    end
}

/// The place that is the step right of the last place, or of the left edge where there is none.
fn following(places: &[u128], step: u32) -> u128
    requires { AreBounded places.now }
    ensures value { result ≡ before places.now (length places.now) + step }
    ensures bounded { IsBounded (length places.now) result }
{
    match places.last() {
        Some(last) => *last + u128::from(step),
        None => u128::from(step),
    }
}

/// The greatest of `least` and the places where the wants from one index up to the other put their mark.
fn farthest(places: &[u128], wants: &[Want], from: usize, to: usize, least: u128) -> u128
    requires order { (from ≤ to) × (to ≤ length wants.now) }
    requires within { AllWithin (λ want. want.from < length places.now) wants.now from to }
    requires bounded { AreBounded places.now × IsBounded (length places.now) least }
    ensures following { least ≤ result }
    ensures kept { AllWithin (IsPutBefore places.now result) wants.now from to }
    ensures tight { (result ≡ least) ⊎ IsPutBy places.now wants.now from to result }
    ensures bounded { IsBounded (length places.now) result }
{
    let mut place = least;
    for number in from..to {
        place = place.max(wanted(places, &wants[number]));
    }
    place
}

/// The place where the want puts its mark.
fn wanted(places: &[u128], want: &Want) -> u128
    requires within { want.now.from < length places.now }
    requires bounded { AreBounded places.now }
    ensures value { result ≡ wanted_by places.now want.now }
    ensures bounded { IsBounded (length places.now) result }
{
    places[want.from] + u128::from(want.least)
}
