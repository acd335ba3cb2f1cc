//! The distances that a picture needs.

ghost use Rattle.std.specs.Prelude.{◌≡◌, ◌+◌, ◌++◌, ◌<◌, ◌≤◌, All, IfOk, List, OnOk, drop, length};
ghost use Rattle.std.specs.List.{slice_get};
ghost use Rattle.std.specs.Option.{option_map_or};
ghost use Rattle.timeline.specs.declared.place.Want.{Want as AWant};
ghost use Rattle.show.specs.Measure.{IsWanted, span_end_mark, label_width, wanted_between, wanted_of, width_of};

use crate::scene::Scene;
use std::alloc::{AllocError, Global};
use timeline::{BarSpan, Want};

/// How wide things are, in cells or units.
#[derive(Clone, Copy)]
pub struct Measure {
    /// The least distance between two marks.
    pub gap: u32,
    /// The width of a character.
    pub character: u32,
    /// The width of a bar beyond the characters of its label.
    pub label: u32,
    /// The width that the number of operations left out between two marks takes beyond its digits and its sign.
    pub fold: u32,
    /// The distance from the left edge to the first mark.
    pub first: u32,
    /// The distance from the last mark to the right edge.
    pub last: u32,
    /// Whether a moment is written with its middle below its mark, and not right of it.
    pub is_centred: bool,
}

/// The step to each mark, and last the step to the right edge.
pub fn steps_of(alloc: Global, scene: &Scene, measure: &Measure) -> Result<Vec<u32>, AllocError>
    ensures many { IfOk result (λ steps. length steps.items ≡ length scene.now.marks.items + 1) }
    ensures positive { IfOk result (λ steps. 0 < measure.now.gap → 0 < measure.now.last → All (λ step. 0 < step) (drop 1 steps.items)) }
{
    let mut steps = Vec::with_capacity(alloc, scene.marks.len() + 1)?;
    for number in 0..scene.marks.len() {
        steps.push(step_to(scene, measure, number))?;
    }
    steps.push(measure.last)?;
    Ok(steps)
}

fn step_to(scene: &Scene, measure: &Measure, number: usize) -> u32
    ensures { 0 < number → measure.now.gap ≤ result }
{
    if number == 0 {
        return measure.first;
    }
    match scene.folded.get(number) {
        Some(many) if *many > 0 => measure.gap.saturating_add(fold_width(measure, *many)),
        _ => measure.gap,
    }
}

/// The width of the number of operations that are left out.
fn fold_width(measure: &Measure, many: usize) -> u32 {
    measure
        .fold
        .saturating_add(width_of(measure, digits_of(many).saturating_add(1)))
}

/// The measure with room for the moment of the last mark, and for a blank after it, left of the right edge.
pub fn with_last_moment(measure: &Measure, scene: &Scene) -> Measure
    ensures last { measure.now.last ≤ result.last }
    ensures others { result ≡ record measure.now { last = result.last } }
{
    let last = match scene.marks.len().checked_sub(1) {
        Some(number) => moment_width(scene, measure, number).max(measure.last),
        None => measure.last,
    };
    Measure { last, ..*measure }
}

/// The distances that the labels need in their bars, and the moments that the caption speaks of between each other.
pub fn wants_of(
    alloc: Global,
    scene: &Scene,
    measure: &Measure,
    told: &[usize],
) -> Result<Vec<Want>, AllocError>
    ensures within { IfOk result (λ wants. All (IsWanted (length scene.now.marks.items)) wants.items) }
    ensures labels { IfOk result (λ wants. (others : List AWant) × (wants.items ≡ wanted_of measure.now (length scene.now.marks.items) scene.now.labels.items 0 scene.now.spans.items ++ others)) }
{
    let mut wants = label_wants(alloc, scene, measure)?;
    let between = told_wants(alloc, scene, measure, told)?;
    wants.extend_from_slice(&between)?;
    let beside = fold_wants(alloc, scene, measure, told)?;
    wants.extend_from_slice(&beside)?;
    Ok(wants)
}

/// The distances that the labels need in their bars.
fn label_wants(alloc: Global, scene: &Scene, measure: &Measure) -> Result<Vec<Want>, AllocError>
    ensures within { IfOk result (λ wants. All (IsWanted (length scene.now.marks.items)) wants.items) }
    ensures labels { IfOk result (λ wants. wants.items ≡ wanted_of measure.now (length scene.now.marks.items) scene.now.labels.items 0 scene.now.spans.items) }
{
    let mut wants = Vec::new(alloc);
    for number in 0..scene.spans.len() {
        let span = scene.spans[number];
        let to = end_of(scene, span);
        let least = label_width(scene, measure, number);
        want(&mut wants, scene, span.begin, to, least)?;
    }
    Ok(wants)
}

/// The mark at which a span ends; the right edge where it has no end.
fn end_of(scene: &Scene, span: BarSpan) -> usize
    ensures { result ≡ span_end_mark (length scene.now.marks.items) span }
{
    match span.end {
        Some(end) => end,
        None => scene.marks.len(),
    }
}

/// The distances that the moments that the caption speaks of need between each other.
fn told_wants(
    alloc: Global,
    scene: &Scene,
    measure: &Measure,
    told: &[usize],
) -> Result<Vec<Want>, AllocError>
    ensures { IfOk result (λ wants. All (IsWanted (length scene.now.marks.items)) wants.items) }
{
    let mut wants = Vec::new(alloc);
    for number in 1..told.len() {
        let wide = moment_width(scene, measure, told[number - 1]);
        want(&mut wants, scene, told[number - 1], told[number], wide)?;
    }
    Ok(wants)
}

/// The distances that the moments that the caption speaks of need from the numbers of operations left out beside them,
/// where moments are written below their marks.
fn fold_wants(
    alloc: Global,
    scene: &Scene,
    measure: &Measure,
    told: &[usize],
) -> Result<Vec<Want>, AllocError>
    ensures { IfOk result (λ wants. All (IsWanted (length scene.now.marks.items)) wants.items) }
{
    let mut wants = Vec::new(alloc);
    if measure.is_centred {
        for number in told {
            want_fold(&mut wants, scene, measure, *number, *number)?;
            want_fold(
                &mut wants,
                scene,
                measure,
                *number,
                number.saturating_add(1),
            )?;
        }
    }
    Ok(wants)
}

/// The distance to the mark of the number `to` from the one before it, where operations are left out between the two, and
/// the moment of the mark `told`, one of them, is written.
fn want_fold(
    wants: &mut Vec<Want>,
    scene: &Scene,
    measure: &Measure,
    told: usize,
    to: usize,
) -> Result<(), AllocError>
    ensures { OnOk result (All (IsWanted (length scene.now.marks.items)) wants.old.items → All (IsWanted (length scene.now.marks.items)) wants.new.items) }
{
    match scene.folded.get(to) {
        Some(many) if *many > 0 => {
            let least = moment_width(scene, measure, told).saturating_add(fold_width(
                measure, *many,
            ));
            want(wants, scene, to.saturating_sub(1), to, least)
        }
        _ => Ok(()),
    }
}

fn want(
    wants: &mut Vec<Want>,
    scene: &Scene,
    from: usize,
    to: usize,
    least: u32,
) -> Result<(), AllocError>
    ensures within { OnOk result (All (IsWanted (length scene.now.marks.items)) wants.old.items → All (IsWanted (length scene.now.marks.items)) wants.new.items) }
    ensures added { OnOk result (wants.new.items ≡ wants.old.items ++ wanted_between (length scene.now.marks.items) from to least) }
{
    if from < to && to <= scene.marks.len() {
        wants.push(Want { from, to, least })?;
    }
    Ok(())
}

fn label_width(scene: &Scene, measure: &Measure, number: usize) -> u32
    ensures { result ≡ option_map_or (λ label. label_width measure.now label) (slice_get scene.now.labels.items number) 0 }
{
    match scene.labels.get(number) {
        Some(label) => width_of(measure, label.as_str().len()).saturating_add(measure.label),
        None => 0,
    }
}

/// The width of the label of the moment of a mark, and of a blank after it.
fn moment_width(scene: &Scene, measure: &Measure, number: usize) -> u32 {
    match scene.moments.get(number) {
        Some(label) => width_of(measure, label.as_str().len().saturating_add(1)),
        None => 0,
    }
}

/// The width of so many characters.
pub fn width_of(measure: &Measure, characters: usize) -> u32
    ensures { result ≡ width_of measure.now characters }
{
    match u32::try_from(characters) {
        Ok(many) => many.saturating_mul(measure.character),
        Err(_) => u32::MAX,
    }
}

/// How many decimal digits a number has.
pub fn digits_of(number: usize) -> usize {
    digits_of_moment(number as u64)
}

pub fn digits_of_moment(number: u64) -> usize {
    let mut digits: usize = 1;
    let mut left = number / 10;
    while left > 0 {
        digits = digits.saturating_add(1);
        left /= 10;
    }
    digits
}
