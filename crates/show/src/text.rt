//! A picture in lines of a terminal.

use crate::caption::push_caption;
use crate::front::push_front;
use crate::glyphs::{ASCII, DRAWN, Glyphs};
use crate::label::push_value;
use crate::layout::{
    Bar, Layout, Window, earlier, lane_name_width, layout_of, push_lane_name, widest_name,
    zone_name_width,
};
use crate::letter::{is_wrong, letter_for, short_label};
use crate::line::TextLine;
use crate::measure::{Measure, digits_of, with_last_moment};
use crate::scene::{Scene, Sketch};
use crate::subject::Subject;
use crate::title::push_title;
use crate::zone::{DrawnZone, conflict_in};
use std::alloc::{AllocError, Global};

/// How a timeline looks: how many cells a line may have, and whether its characters are all of ASCII.
#[derive(Clone, Copy)]
pub struct Look {
    pub width: u32,
    pub is_ascii: bool,
}

/// What is drawn, and with which characters.
#[derive(Drop)]
struct Drawing<'s, 't> {
    layout: Layout<'s, 't>,
    glyphs: &'static Glyphs,
    /// How many cells come before the lines of lanes.
    margin: usize,
    /// The zones of the two values of a conflict.
    conflict: Vec<DrawnZone>,
}

/// Cells from one place up to another, and marks from one number up to another.
#[derive(Drop)]
struct Cells {
    from: u128,
    to: u128,
    first: usize,
    end: usize,
}

const MEASURE: Measure = Measure {
    gap: 2,
    character: 1,
    label: 1,
    fold: 2,
    first: 0,
    last: 4,
    is_centred: false,
};

/// Adds a timeline to a text: its title, the lanes by process, and the sentences.
pub fn push_timeline(
    text: &mut String,
    alloc: Global,
    sketch: &Sketch,
    look: &Look,
) -> Result<(), AllocError> {
    let (subject, scene) = (&sketch.subject, &sketch.scene);
    push_title(text, alloc, subject, scene, look.is_ascii)?;
    push_front(text, "moments: ", &scene.front, ".. and the digits below\n")?;
    if !scene.ops.is_empty() {
        push_drawing(text, alloc, subject, scene, look)?;
    }
    text.push_str("\n")?;
    push_caption(text, subject, scene)
}

fn push_drawing(
    text: &mut String,
    alloc: Global,
    subject: &Subject,
    scene: &Scene,
    look: &Look,
) -> Result<(), AllocError> {
    let margin = margin_of(scene);
    let width = room_beside(look.width, margin);
    let measure = with_last_moment(&MEASURE, scene);
    let layout = layout_of(alloc, subject, scene, &measure, width)?;
    let conflict = conflict_in(alloc, &layout)?;
    let drawing = Drawing {
        layout,
        glyphs: if look.is_ascii { &ASCII } else { &DRAWN },
        margin,
        conflict,
    };
    push_rows(text, alloc, &drawing)
}

/// The cells for the widest name, or for the number of operations left out before all, and two more.
fn margin_of(scene: &Scene) -> usize {
    let many = match earlier(scene) {
        0 => 0,
        many => digits_of(many).saturating_add(2),
    };
    widest_name(scene, "p").max(many).saturating_add(2)
}

/// The cells that are left beside the names of lanes, at least 20.
fn room_beside(width: u32, margin: usize) -> u32 {
    let beside = match u32::try_from(margin) {
        Ok(margin) => width.saturating_sub(margin),
        Err(_) => 0,
    };
    beside.max(20)
}

fn push_rows(text: &mut String, alloc: Global, drawing: &Drawing) -> Result<(), AllocError> {
    let mut nexts = first_seats(alloc, &drawing.layout.lane_ends)?;
    for row in 0..drawing.layout.starts.len() {
        push_row(
            text,
            alloc,
            drawing,
            &window_of(&drawing.layout, row),
            &mut nexts,
        )?;
    }
    Ok(())
}

/// The lines of a row. `nexts` has the first seat of each lane that does not end in an earlier row.
fn push_row(
    text: &mut String,
    alloc: Global,
    drawing: &Drawing,
    window: &Cells,
    nexts: &mut [usize],
) -> Result<(), AllocError> {
    text.push_str("\n")?;
    push_zones(text, alloc, drawing, window)?;
    push_at_first(text, alloc, drawing, window)?;
    push_lanes(text, alloc, drawing, window, nexts)?;
    push_axis(text, alloc, drawing, window)
}

fn window_of(layout: &Layout, row: usize) -> Cells {
    let next = row.saturating_add(1);
    let (to, end) = if next < layout.starts.len() {
        let end = layout.starts[next];
        (layout.place_of(end).saturating_sub(1), end)
    } else {
        let edge = layout.right_edge().saturating_add(tail_width(layout));
        (edge, layout.scene.marks.len())
    };
    if row > 0 && row < layout.starts.len() {
        let first = layout.starts[row];
        let from = layout.place_of(first).saturating_sub(1);
        Cells {
            from,
            to,
            first,
            end,
        }
    } else {
        Cells {
            from: 0,
            to,
            first: 0,
            end,
        }
    }
}

fn tail_width(layout: &Layout) -> u128 {
    match layout.later() {
        0 => 1,
        many => digits_of(many) as u128 + 4,
    }
}

/// A line with the moments that the caption speaks of, and with where operations are left out. What is left out before
/// the first mark of a row is at the end of the row above.
fn new_line(alloc: Global, drawing: &Drawing, window: &Cells) -> Result<TextLine, AllocError> {
    let mut line = blank_line(alloc, window)?;
    put_folds_and_drops(&mut line, drawing, window);
    Ok(line)
}

fn put_folds_and_drops(line: &mut TextLine, drawing: &Drawing, window: &Cells) {
    let layout = &drawing.layout;
    for number in window.first..window.end {
        let number = number.saturating_add(1);
        if layout.left_out_before(number) > 0 {
            line.put(layout.middle_before(number), drawing.glyphs.fold);
        }
    }
    for number in &layout.told {
        line.put(layout.place_of(*number), drawing.glyphs.drop);
    }
}

fn blank_line(alloc: Global, window: &Cells) -> Result<TextLine, AllocError> {
    let width = match usize::try_from(window.to.saturating_sub(window.from)) {
        Ok(width) => width,
        Err(_) => 0,
    };
    TextLine::blank(alloc, window.from, width)
}

/// Adds a line after a name that takes so many cells, and blanks up to the margin.
fn push_after(
    text: &mut String,
    name: usize,
    margin: usize,
    line: &TextLine,
) -> Result<(), AllocError> {
    if line.has_some() {
        for _ in name..margin {
            text.push_str(" ")?;
        }
    }
    line.push(text)
}

/// The zones of a conflict that are in the window, and a line without a zone below them.
fn push_zones(
    text: &mut String,
    alloc: Global,
    drawing: &Drawing,
    window: &Cells,
) -> Result<(), AllocError> {
    let mut is_there = false;
    for zone in &drawing.conflict {
        if is_zone_in(window, zone) {
            push_zone(text, alloc, drawing, window, zone)?;
            is_there = true;
        }
    }
    if is_there {
        push_after(text, 0, drawing.margin, &new_line(alloc, drawing, window)?)?;
    }
    Ok(())
}

/// Whether some of a zone is in the window.
fn is_zone_in(window: &Cells, zone: &DrawnZone) -> bool {
    zone.left < window.to && window.from <= zone.right
}

/// A line with the zone of a value.
fn push_zone(
    text: &mut String,
    alloc: Global,
    drawing: &Drawing,
    window: &Cells,
    zone: &DrawnZone,
) -> Result<(), AllocError> {
    let mut line = new_line(alloc, drawing, window)?;
    draw_zone(&mut line, zone, drawing.glyphs);
    text.push_str("zone of ")?;
    push_value(text, zone.value)?;
    push_after(text, zone_name_width(zone.value), drawing.margin, &line)
}

fn draw_zone(line: &mut TextLine, zone: &DrawnZone, glyphs: &Glyphs) {
    let (between, left, right) = if zone.is_forward {
        (glyphs.forward, glyphs.left_end, glyphs.right_head)
    } else {
        (glyphs.backward, glyphs.left_head, glyphs.right_end)
    };
    line.fill(zone.left, zone.right, between);
    line.put(zone.left, left);
    line.put(zone.right, right);
}

/// A line with the box of the value at first, left of all moments.
fn push_at_first(
    text: &mut String,
    alloc: Global,
    drawing: &Drawing,
    window: &Cells,
) -> Result<(), AllocError> {
    let at_first = &drawing.layout.at_first;
    if at_first.is_empty() || window.from > 0 {
        return Ok(());
    }
    let mut line = new_line(alloc, drawing, window)?;
    line.put(0, '[');
    line.put_text(1, at_first.as_str());
    line.put((at_first.len() as u128).saturating_add(1), ']');
    push_after(text, 0, drawing.margin, &line)
}

/// The first seat of each lane.
fn first_seats(alloc: Global, lane_ends: &[usize]) -> Result<Vec<usize>, AllocError> {
    let mut firsts = Vec::new(alloc);
    let mut from = 0;
    for end in lane_ends {
        firsts.push(from)?;
        from = *end;
    }
    Ok(firsts)
}

/// The lanes. `nexts` has the first seat of each that does not end in an earlier row.
fn push_lanes(
    text: &mut String,
    alloc: Global,
    drawing: &Drawing,
    window: &Cells,
    nexts: &mut [usize],
) -> Result<(), AllocError> {
    let ends = drawing.layout.lane_ends.as_slice();
    for lane in 0..ends.len() {
        if lane < nexts.len() {
            let mut line = new_line(alloc, drawing, window)?;
            let from = nexts[lane];
            let (next, end) = draw_lane(&mut line, drawing, window, from, ends[lane]);
            if next < end {
                push_lane(text, drawing, from.min(ends[lane].saturating_sub(1)), &line)?;
            }
            nexts[lane] = next;
        }
    }
    Ok(())
}

/// A lane after the name of the process of this seat.
fn push_lane(
    text: &mut String,
    drawing: &Drawing,
    number: usize,
    line: &TextLine,
) -> Result<(), AllocError> {
    let seats = drawing.layout.scene.seats.as_slice();
    push_lane_name(text, "p", seats, number)?;
    let name = lane_name_width(seats, number).saturating_add(1);
    push_after(text, name, drawing.margin, line)
}

/// Draws those of the seats from one number up to another that are in the window. Returns the first that does not end
/// before the window, and the first that begins after it.
fn draw_lane(
    line: &mut TextLine,
    drawing: &Drawing,
    window: &Cells,
    from: usize,
    to: usize,
) -> (usize, usize) {
    let mut next = from;
    for number in from..to {
        let Some(bar) = bar_at(&drawing.layout, number) else {
            return (next, number);
        };
        if bar.right < window.from {
            next = number.saturating_add(1);
        } else if bar.left < window.to {
            draw_bar(line, drawing, window, &bar);
        } else {
            return (next, number);
        }
    }
    (next, to)
}

/// The bar of the operation in a seat.
fn bar_at<'s, 't>(layout: &Layout<'s, 't>, number: usize) -> Option<Bar<'s, 't>> {
    let seat = layout.scene.seats.get(number)?;
    layout.bar(seat.op)
}

fn draw_bar(line: &mut TextLine, drawing: &Drawing, window: &Cells, bar: &Bar) {
    let scene = drawing.layout.scene;
    let part = part_in(window, bar);
    let label = label_within(scene, bar, part.width());
    if bar.is_finished {
        let is_told = letter_for(&scene.letters, bar.op.id).is_some();
        draw_whole(line, bar, is_told, drawing.glyphs);
        let spare = part.width().saturating_sub(label.len() as u128);
        line.put_text(part.from.saturating_add(spare / 2), label);
    } else {
        draw_endless(line, bar, drawing.glyphs);
        line.put_text(part.from, label);
        line.put(part.from.saturating_add(label.len() as u128), ' ');
    }
    if is_wrong(&scene.letters, bar.op.id) {
        line.put(bar.right.saturating_add(1), drawing.glyphs.cross);
    }
}

/// The cells of a bar within the window, without its ends.
fn part_in(window: &Cells, bar: &Bar) -> Window {
    Window {
        from: bar.left.saturating_add(1).max(window.from),
        to: bar.right.min(window.to),
    }
}

/// The label of a bar, or what stands for it, whichever is no wider than this; else nothing.
fn label_within<'s>(scene: &Scene, bar: &Bar<'s, '_>, width: u128) -> &'s str {
    if bar.label.len() as u128 <= width {
        return bar.label;
    }
    let short = short_label(&scene.letters, bar.op);
    if short.len() as u128 <= width {
        short
    } else {
        ""
    }
}

/// A finished bar.
fn draw_whole(line: &mut TextLine, bar: &Bar, is_told: bool, glyphs: &Glyphs) {
    line.fill(
        bar.left,
        bar.right,
        if is_told { glyphs.bold } else { glyphs.thin },
    );
    line.put(bar.left, opening(bar));
    line.put(bar.right, if bar.op.is_write() { ']' } else { ')' });
}

fn opening(bar: &Bar) -> char {
    if bar.op.is_write() { '[' } else { '(' }
}

/// An unfinished bar, which goes on to the right edge.
fn draw_endless(line: &mut TextLine, bar: &Bar, glyphs: &Glyphs) {
    line.fill(bar.left, bar.right, glyphs.dots);
    line.put(bar.left, opening(bar));
}

/// The moments, first those that the caption speaks of, and the numbers of operations left out.
fn push_axis(
    text: &mut String,
    alloc: Global,
    drawing: &Drawing,
    window: &Cells,
) -> Result<(), AllocError> {
    let mut line = blank_line(alloc, window)?;
    draw_axis(&mut line, drawing, window);
    let many = drawing.layout.earlier();
    if window.from > 0 || many == 0 {
        return push_after(text, 0, drawing.margin, &line);
    }
    let sign = drawing.glyphs.earlier;
    write!(text, "{sign}{many}")?;
    let name = digits_of(many).saturating_add(sign.chars().count());
    push_after(text, name, drawing.margin, &line)
}

fn draw_axis(line: &mut TextLine, drawing: &Drawing, window: &Cells) {
    let layout = &drawing.layout;
    for number in &layout.told {
        put_moment(line, layout, window, *number);
    }
    for number in window.first..window.end {
        put_left_out(line, layout, window, number.saturating_add(1));
    }
    for number in window.first..window.end {
        put_moment(line, layout, window, number);
    }
    let many = layout.later();
    if many > 0 {
        let end = line.put_number(layout.right_edge().saturating_add(1), many as u64);
        line.put_text(end, drawing.glyphs.later);
    }
}

/// The moment of a mark of this row, where there is room for it: from the mark on, or up to the end of the row.
fn put_moment(line: &mut TextLine, layout: &Layout, window: &Cells, number: usize) {
    if number < window.first || number >= window.end || number >= layout.scene.marks.len() {
        return;
    }
    let moment = layout.moment(number);
    let wide = moment.len() as u128;
    let place = layout.place_of(number).min(window.to.saturating_sub(wide));
    if has_room(line, window, place, wide) {
        line.put_text(place, moment);
    }
}

/// Whether so many cells from a place on are in the window, blank, and between blanks.
fn has_room(line: &TextLine, window: &Cells, place: u128, wide: u128) -> bool {
    let end = place.saturating_add(wide);
    window.from <= place
        && end <= window.to
        && line.is_blank(place.saturating_sub(1), end.saturating_add(1))
}

/// How many operations are left out before a mark, if any are: in the middle, or up to two cells right of it, where
/// there is room.
fn put_left_out(line: &mut TextLine, layout: &Layout, window: &Cells, number: usize) {
    let many = layout.left_out_before(number);
    if many == 0 {
        return;
    }
    let wide = (digits_of(many) as u128).saturating_add(1);
    let left = layout.middle_before(number).saturating_sub(wide / 2);
    for shift in 0..3usize {
        let place = left.saturating_add(shift as u128);
        if has_room(line, window, place, wide) {
            line.put(place, '+');
            line.put_number(place.saturating_add(1), many as u64);
            return;
        }
    }
}
