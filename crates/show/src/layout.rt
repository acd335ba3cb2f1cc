//! How far right things are in a picture, whatever it is drawn with.

ghost use Rattle.std.specs.Prelude.{IfOk};
ghost use Rattle.show.specs.Layout.{ArePlaced, IsLayout};

use crate::label::push_value;
use crate::measure::{Measure, digits_of_moment, steps_of, wants_of, width_of};
use crate::scene::Scene;
use crate::subject::Subject;
use crate::told::{begin_mark, end_mark, told_of};
use intervals::{Initial, Op, Value};
use register_book::{Side, Witness};
use std::alloc::{AllocError, Global};
use timeline::{Seat, places, rows};

/// A scene, with the places of its marks.
#[derive(Drop)]
pub struct Layout<'s, 't> {
    pub scene: &'s Scene<'t>,
    /// The place of each mark, and last of the right edge.
    pub places: Vec<u128>,
    /// The numbers of the marks with which rows begin.
    pub starts: Vec<usize>,
    /// The numbers of the marks that the caption speaks of.
    pub told: Vec<usize>,
    /// The label of the box of the value at first; empty where the caption does not speak of it.
    pub at_first: String,
    /// For each lane, the number of the seat after its last.
    pub lane_ends: Vec<usize>,
}

/// A part of what is drawn, from one place up to another.
#[derive(Clone, Copy)]
pub struct Window {
    pub from: u128,
    pub to: u128,
}

impl Window {
    pub fn width(self) -> u128 {
        self.to.saturating_sub(self.from)
    }
}

/// An operation as it is drawn, from its beginning to its end, or to the right edge where it has none.
#[derive(Clone, Copy)]
pub struct Bar<'s, 't> {
    pub op: &'s Op<'t>,
    pub label: &'s str,
    pub left: u128,
    pub right: u128,
    pub is_finished: bool,
}

/// The scene with places by this measure, in rows of this width.
pub fn layout_of<'s, 't>(
    alloc: Global,
    subject: &Subject,
    scene: &'s Scene<'t>,
    measure: &Measure,
    width: u32,
) -> Result<Layout<'s, 't>, AllocError>
    ensures { IfOk result (IsLayout measure.now width scene.entry.now) }
{
    let told = told_of(alloc, scene)?;
    let at_first = text_at_first(alloc, subject, scene)?;
    let measure = Measure {
        first: first_step(measure, &at_first),
        ..*measure
    };
    let places = placed(alloc, scene, &measure, &told)?;
    let starts = rows(alloc, &scene.marks, &places, width)?;
    let lane_ends = lane_ends(alloc, &scene.seats)?;
    Ok(Layout {
        scene,
        places,
        starts,
        told,
        at_first,
        lane_ends,
    })
}

/// The distance from the left edge to the first mark: right of the box of the value at first, where there is one.
fn first_step(measure: &Measure, at_first: &str) -> u32 {
    if at_first.is_empty() {
        return measure.first;
    }
    width_of(measure, at_first.len())
        .saturating_add(measure.label)
        .saturating_add(measure.gap)
}

/// The place of each mark, and last of the right edge.
fn placed(
    alloc: Global,
    scene: &Scene,
    measure: &Measure,
    told: &[usize],
) -> Result<Vec<u128>, AllocError>
    ensures { IfOk result (λ places. ArePlaced measure.now scene.now places.items) }
{
    let steps = steps_of(alloc, scene, measure)?;
    let wants = wants_of(alloc, scene, measure, told)?;
    let places = places(alloc, &steps, wants)?;
    Ok(places)
}

/// The value at first, where it is a side of a conflict or a wrong read may return it; else empty.
fn text_at_first(alloc: Global, subject: &Subject, scene: &Scene) -> Result<String, AllocError> {
    let mut text = String::new(alloc);
    let before = match &scene.witness {
        Some(
            Witness::Crossing {
                a: Side::Initial,
                ..
            },
        ) => "A initial",
        Some(
            Witness::Crossing {
                c: Side::Initial,
                ..
            },
        ) => "C initial",
        Some(Witness::Wrong(_)) if scene.around.last.is_none() => "initial",
        _ => return Ok(text),
    };
    text.push_str(before)?;
    if let Initial::Known(value) = subject.initial {
        text.push_str(" ")?;
        push_value(&mut text, value)?;
    }
    Ok(text)
}

impl<'s, 't> Layout<'s, 't> {
    /// The place of a mark.
    pub fn place_of(&self, number: usize) -> u128 {
        if number < self.places.len() {
            self.places[number]
        } else {
            0
        }
    }

    pub fn right_edge(&self) -> u128 {
        self.place_of(self.places.len().saturating_sub(1))
    }

    /// How many operations are left out between this mark and the one before it.
    pub fn left_out_before(&self, number: usize) -> usize {
        if number > 0 && number < self.scene.marks.len() {
            many_of(&self.scene.folded, number)
        } else {
            0
        }
    }

    /// How many operations are left out before all marks.
    pub fn earlier(&self) -> usize {
        earlier(self.scene)
    }

    /// How many operations are left out after all marks.
    pub fn later(&self) -> usize {
        let folded = self.scene.folded.as_slice();
        many_of(folded, folded.len().saturating_sub(1))
    }

    /// The middle between a mark and the one before it.
    pub fn middle_before(&self, number: usize) -> u128 {
        let left = self.place_of(number.saturating_sub(1));
        let right = self.place_of(number);
        left.saturating_add(right.saturating_sub(left) / 2)
    }

    /// The label of the moment of a mark; empty where there is no such mark.
    pub fn moment(&self, number: usize) -> &'s str {
        match self.scene.moments.get(number) {
            Some(label) => label.as_str(),
            None => "",
        }
    }

    /// Where an operation begins; the left edge where it is not shown.
    pub fn begin_of(&self, op: &Op) -> u128 {
        match begin_mark(self.scene, op) {
            Some(mark) => self.place_of(mark),
            None => 0,
        }
    }

    /// Where an operation ends; the right edge where it has no end.
    pub fn end_of(&self, op: &Op) -> u128 {
        match end_mark(self.scene, op) {
            Some(mark) => self.place_of(mark),
            None => self.right_edge(),
        }
    }

    /// Where a side begins; the left edge for the value at first.
    pub fn begin_place(&self, side: &Side) -> u128 {
        match side {
            Side::Initial => 0,
            Side::Op(op) => self.begin_of(op),
        }
    }

    /// Where a side ends; the left edge for the value at first.
    pub fn end_place(&self, side: &Side) -> u128 {
        match side {
            Side::Initial => 0,
            Side::Op(op) => self.end_of(op),
        }
    }

    /// The bar of the operation of this number among those that are shown.
    pub fn bar(&self, number: usize) -> Option<Bar<'s, 't>> {
        let op = self.scene.ops.get(number)?;
        let span = self.scene.spans.get(number)?;
        let label = self.scene.labels.get(number)?;
        Some(Bar {
            op,
            label: label.as_str(),
            left: self.place_of(span.begin),
            right: match span.end {
                Some(end) => self.place_of(end),
                None => self.right_edge(),
            },
            is_finished: span.end.is_some(),
        })
    }
}

/// How many operations are left out before all marks.
pub fn earlier(scene: &Scene) -> usize {
    many_of(&scene.folded, 0)
}

fn many_of(folded: &[usize], number: usize) -> usize {
    if number < folded.len() {
        folded[number]
    } else {
        0
    }
}

/// For each lane, the number of the seat after its last.
fn lane_ends(alloc: Global, seats: &[Seat]) -> Result<Vec<usize>, AllocError> {
    let mut ends = Vec::new(alloc);
    for number in 0..seats.len() {
        if is_last_of_lane(seats, number) {
            ends.push(number + 1)?;
        }
    }
    Ok(ends)
}

fn is_last_of_lane(seats: &[Seat], number: usize) -> bool {
    let next = number.saturating_add(1);
    next >= seats.len() || seats[number].lane != seats[next].lane
}

/// Adds the process of a seat after a word, and its trace where several traces have a process of that number.
pub fn push_lane_name(
    text: &mut String,
    word: &str,
    seats: &[Seat],
    number: usize,
) -> Result<(), AllocError> {
    if number >= seats.len() {
        return Ok(());
    }
    let seat = &seats[number];
    if is_of_several(seats, seat.process) {
        write!(text, "{word}{} of {}", seat.process, seat.feeder)
    } else {
        write!(text, "{word}{}", seat.process)
    }
}

/// Whether several traces have a process of this number. The seats of one process are together, by trace.
fn is_of_several(seats: &[Seat], process: i64) -> bool {
    let first = seats_below(seats, process as i128);
    let end = seats_below(seats, (process as i128).saturating_add(1));
    first < end && end <= seats.len() && seats[first].feeder != seats[end - 1].feeder
}

/// How many seats are of processes of lower numbers.
fn seats_below(seats: &[Seat], process: i128) -> usize {
    seats.partition_point(|seat| (seat.process as i128) < process)
}

/// How many characters the widest name beside a row has: that of a lane, after this word, or of a zone of a conflict.
pub fn widest_name(scene: &Scene, word: &str) -> usize {
    let mut widest = 0;
    for number in 0..scene.seats.len() {
        if is_last_of_lane(&scene.seats, number) {
            let wide = lane_name_width(&scene.seats, number);
            widest = widest.max(wide.saturating_add(word.len()));
        }
    }
    if let Some(Witness::Crossing { b, d, .. }) = &scene.witness {
        widest = widest.max(side_name_width(b)).max(side_name_width(d));
    }
    widest
}

/// How many characters the name of a lane has after its word.
pub fn lane_name_width(seats: &[Seat], number: usize) -> usize {
    if number >= seats.len() {
        return 0;
    }
    let seat = &seats[number];
    let process = digits_of_signed(seat.process);
    if is_of_several(seats, seat.process) {
        process
            .saturating_add(4)
            .saturating_add(digits_of_moment(seat.feeder as u64))
    } else {
        process
    }
}

fn side_name_width(side: &Side) -> usize {
    match side {
        Side::Op(op) => zone_name_width(op.value()),
        Side::Initial => 0,
    }
}

/// How many characters the name of the zone of a value has.
pub fn zone_name_width(value: Value) -> usize {
    match value {
        Value::Nil => 11,
        Value::Int(number) => digits_of_signed(number).saturating_add(8),
    }
}

/// How many characters a number has, with its sign.
fn digits_of_signed(number: i64) -> usize {
    let digits = digits_of_moment(number.unsigned_abs());
    if number < 0 {
        digits.saturating_add(1)
    } else {
        digits
    }
}
