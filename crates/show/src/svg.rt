//! A picture as SVG.

ghost use Rattle.std.specs.Prelude.{◌≡◌, ◌++◌, OnOk, string_bytes};
ghost use Rattle.show.specs.Svg.{heading_text, spoken_text};

use crate::canvas::{
    Canvas, LANE, LINE, ZONE, ZONE_ROW, canvas_of, lane_top, row_top, strip_height, wide, window_of,
};
use crate::caption::push_caption;
use crate::colour::{Colour, caption_colours};
use crate::escape::push_element;
use crate::filled::{Filling, ops_word, push_filled, push_numbers};
use crate::front::push_front;
use crate::layout::{Window, push_lane_name};
use crate::measure::digits_of;
use crate::scene::{Scene, Sketch};
use crate::strip::push_strip;
use crate::style::{Theme, push_style};
use crate::title::heading_of;
use crate::zone::DrawnZone;
use std::alloc::{AllocError, Global};
use timeline::Seat;

/// How a picture looks: how many units wide its rows are, its colours, whether it has the rules for them itself, and a
/// number by which its ids differ from those of the other pictures of a page.
#[derive(Clone, Copy)]
pub struct Sheet {
    pub width: u32,
    pub theme: Theme,
    pub has_style: bool,
    pub number: u32,
}

/// Adds a picture of a register to a text, as SVG.
pub fn push_picture(
    text: &mut String,
    alloc: Global,
    sketch: &Sketch,
    sheet: &Sheet,
) -> Result<(), AllocError> {
    let heading = heading_of(alloc, &sketch.subject)?;
    push_headed(text, alloc, sketch, &heading, sheet)
}

/// Adds a picture with this heading.
pub fn push_headed(
    text: &mut String,
    alloc: Global,
    sketch: &Sketch,
    heading: &str,
    sheet: &Sheet,
) -> Result<(), AllocError> {
    let mut caption = String::new(alloc);
    push_caption(&mut caption, &sketch.subject, &sketch.scene)?;
    let canvas = canvas_of(alloc, sketch, sheet.width)?;
    push_canvas(text, alloc, &canvas, heading, &caption, sheet)
}

fn push_canvas(
    text: &mut String,
    alloc: Global,
    canvas: &Canvas,
    heading: &str,
    caption: &str,
    sheet: &Sheet,
) -> Result<(), AllocError> {
    push_root(text, canvas, heading, caption)?;
    if sheet.has_style {
        push_style(text, sheet.theme)?;
    }
    text.push_str("<rect class=\"paper\" width=\"100%\" height=\"100%\"/>\n")?;
    push_head(text, heading)?;
    push_count(text, canvas.layout.scene)?;
    push_rows(text, alloc, canvas, sheet.number as u128)?;
    push_sentences(text, canvas, caption)?;
    text.push_str("</svg>\n")
}

/// Opens the picture, with its title and description for those who do not see it.
fn push_root(
    text: &mut String,
    canvas: &Canvas,
    heading: &str,
    caption: &str,
) -> Result<(), AllocError> {
    let width = picture_width(canvas, heading, caption);
    let height = picture_height(canvas, caption);
    push_numbers(
        text,
        "<svg xmlns=\"http://www.w3.org/2000/svg\" class=\"ra\" role=\"img\" width=\"@\" height=\"@\" viewBox=\"0 0 @ @\">\n",
        &[enlarged(width), enlarged(height), width, height],
    )?;
    push_spoken(text, heading, caption)
}

fn push_spoken(text: &mut String, heading: &str, caption: &str) -> Result<(), AllocError>
    ensures { OnOk result (string_bytes text.new ≡ string_bytes text.old ++ spoken_text heading.now caption.now) }
{
    push_element(text, "<title>", heading, "</title>\n")?;
    push_element(text, "<desc>", caption, "</desc>\n")
}

/// A length as it is shown, three tenths more than its units.
fn enlarged(units: u128) -> u128 {
    units.saturating_mul(13) / 10
}

fn picture_height(canvas: &Canvas, caption: &str) -> u128 {
    row_top(canvas, canvas.layout.starts.len())
        .saturating_add((caption.lines().count() as u128).saturating_mul(LINE))
        .saturating_add(8)
}

fn picture_width(canvas: &Canvas, heading: &str, caption: &str) -> u128 {
    words_width(heading, caption)
        .max(front_width(canvas.layout.scene))
        .saturating_add(32)
        .max(rows_width(canvas))
}

fn words_width(heading: &str, caption: &str) -> u128 {
    let mut width = (heading.chars().count() as u128)
        .saturating_mul(9)
        .max(wide(SCALE.len() + 40));
    for line in caption.lines() {
        width = width.max(wide(line.chars().count()).saturating_add(20));
    }
    width
}

/// The width of the line above the picture, where it has the front of the moments.
fn front_width(scene: &Scene) -> u128 {
    if scene.front.is_empty() {
        return 0;
    }
    let numbers = digits_of(scene.all)
        .saturating_mul(2)
        .saturating_add(scene.front.len());
    wide(numbers.saturating_add(SCALE.len() + MOMENTS.len() + BELOW.len() + 17))
}

/// The width of the widest row, with the names of lanes.
fn rows_width(canvas: &Canvas) -> u128 {
    let mut width: u128 = 0;
    for row in 0..canvas.layout.starts.len() {
        width = width.max(window_of(&canvas.layout, row).width());
    }
    width.saturating_add(canvas.margin).saturating_add(12)
}

const SCALE: &str = "Left to right by the order of moments, not to scale.";

/// What is said of the front of the moments, where they have one.
const MOMENTS: &str = " Moments: ";

const BELOW: &str = ".. and the digits below.";

fn push_head(text: &mut String, heading: &str) -> Result<(), AllocError>
    ensures { OnOk result (string_bytes text.new ≡ string_bytes text.old ++ heading_text heading.now) }
{
    push_element(
        text,
        "<g class=\"paper\"><text class=\"title\" x=\"16\" y=\"24\">",
        heading,
        "</text></g>\n",
    )
}

/// Adds how many operations are shown, of how many.
fn push_count(text: &mut String, scene: &Scene) -> Result<(), AllocError> {
    let (shown, all) = (scene.ops.len() as u128, scene.all as u128);
    if shown == all {
        push_numbers(
            text,
            "<text class=\"quiet\" x=\"16\" y=\"40\">@ operations. ",
            &[all],
        )?;
    } else {
        push_numbers(
            text,
            "<text class=\"quiet\" x=\"16\" y=\"40\">@ of @ operations. ",
            &[shown, all],
        )?;
    }
    text.push_str(SCALE)?;
    push_front(text, MOMENTS, &scene.front, BELOW)?;
    text.push_str("</text>\n")
}

/// Adds the strip, once where it has one row, and for each row a window on it.
fn push_rows(
    text: &mut String,
    alloc: Global,
    canvas: &Canvas,
    number: u128,
) -> Result<(), AllocError> {
    let rows = canvas.layout.starts.len();
    if rows > 1 {
        push_numbers(text, "<defs><g class=\"ra\" id=\"strip@\">\n", &[number])?;
        push_strip(text, alloc, canvas)?;
        text.push_str("</g></defs>\n")?;
    }
    for row in 0..rows {
        push_row(text, alloc, canvas, row, number)?;
    }
    Ok(())
}

fn push_row(
    text: &mut String,
    alloc: Global,
    canvas: &Canvas,
    row: usize,
    number: u128,
) -> Result<(), AllocError> {
    let window = window_of(&canvas.layout, row);
    let top = row_top(canvas, row);
    push_zone_names(text, canvas, &window, top)?;
    push_lane_names(text, canvas, row, top)?;
    push_window(text, canvas, &window, top)?;
    if canvas.layout.starts.len() > 1 {
        push_numbers(text, "<use href=\"#strip@\"/>", &[number])?;
    } else {
        push_strip(text, alloc, canvas)?;
    }
    text.push_str("</svg>\n")
}

fn push_window(
    text: &mut String,
    canvas: &Canvas,
    window: &Window,
    top: u128,
) -> Result<(), AllocError> {
    let (width, height) = (window.width(), strip_height(canvas));
    push_numbers(
        text,
        "<svg x=\"@\" y=\"@\" width=\"@\" height=\"@\" viewBox=\"@ 0 @ @\">\n",
        &[
            canvas.margin,
            top,
            width,
            height,
            window.from,
            width,
            height,
        ],
    )
}

/// The names beside the lanes of a row, and a stripe under every other lane.
fn push_lane_names(
    text: &mut String,
    canvas: &Canvas,
    row: usize,
    top: u128,
) -> Result<(), AllocError> {
    let mut from = 0;
    for lane in 0..canvas.layout.lane_ends.len() {
        let y = top.saturating_add(lane_top(canvas, lane));
        push_stripe(text, lane, y)?;
        push_process(text, &canvas.layout.scene.seats, from, y.saturating_add(16))?;
        from = canvas.layout.lane_ends[lane];
    }
    let many = canvas.layout.earlier();
    if row > 0 || many == 0 {
        return Ok(());
    }
    let y = top.saturating_add(canvas.bottom).saturating_add(18);
    push_filled(
        text,
        "<text class=\"quiet\" x=\"16\" y=\"@\">← @ @</text>\n",
        &[
            Filling::Number(y),
            Filling::Number(many as u128),
            Filling::Word(ops_word(many)),
        ],
    )
}

fn push_stripe(text: &mut String, lane: usize, y: u128) -> Result<(), AllocError> {
    if lane % 2 == 1 {
        return Ok(());
    }
    push_numbers(
        text,
        "<rect class=\"stripe\" x=\"12\" y=\"@\" width=\"100%\" height=\"@\"/>\n",
        &[y, LANE],
    )
}

/// The process of a lane that begins with this seat, unless it is that of the lane above it.
fn push_process(
    text: &mut String,
    seats: &[Seat],
    number: usize,
    y: u128,
) -> Result<(), AllocError> {
    if is_same_process(seats, number) {
        return Ok(());
    }
    push_numbers(text, "<text class=\"quiet\" x=\"16\" y=\"@\">", &[y])?;
    push_lane_name(text, "process ", seats, number)?;
    text.push_str("</text>\n")
}

/// Whether a seat is of the process of the seat before it, in one trace.
fn is_same_process(seats: &[Seat], number: usize) -> bool {
    if number == 0 || number >= seats.len() {
        return false;
    }
    let (before, seat) = (&seats[number - 1], &seats[number]);
    before.process == seat.process && before.feeder == seat.feeder
}

/// The names beside the zones: `forward` and `backward`, or those of a conflict's zones that are in the window.
fn push_zone_names(
    text: &mut String,
    canvas: &Canvas,
    window: &Window,
    top: u128,
) -> Result<(), AllocError> {
    let mut y = top.saturating_add(10);
    for zone in &canvas.conflict {
        push_zone_name(text, window, zone, y)?;
        y = y.saturating_add(ZONE);
    }
    if canvas.forward_rows > 0 {
        push_numbers(
            text,
            "<text class=\"quiet\" x=\"16\" y=\"@\">forward</text>\n",
            &[y],
        )?;
    }
    if canvas.backward_rows == 0 {
        return Ok(());
    }
    push_numbers(
        text,
        "<text class=\"quiet\" x=\"16\" y=\"@\">backward</text>\n",
        &[
            canvas
                .forward_rows
                .saturating_mul(ZONE_ROW)
                .saturating_add(y),
        ],
    )
}

fn push_zone_name(
    text: &mut String,
    window: &Window,
    zone: &DrawnZone,
    y: u128,
) -> Result<(), AllocError> {
    if zone.left >= window.to || window.from > zone.right {
        return Ok(());
    }
    push_filled(
        text,
        "<text class=\"quiet\" x=\"16\" y=\"@\">zone of @</text>\n",
        &[Filling::Number(y), Filling::Value(zone.value)],
    )
}

/// The sentences, each after a square of the colour of what it is about.
fn push_sentences(text: &mut String, canvas: &Canvas, caption: &str) -> Result<(), AllocError> {
    let mut y = row_top(canvas, canvas.layout.starts.len());
    let colours = caption_colours(&canvas.layout.scene.witness);
    let mut number = 0;
    for line in caption.lines() {
        if number < colours.len() {
            push_square(text, colours[number], y)?;
            number += 1;
        }
        push_sentence(text, line, y.saturating_add(8))?;
        y = y.saturating_add(LINE);
    }
    Ok(())
}

fn push_square(text: &mut String, colour: Colour, y: u128) -> Result<(), AllocError> {
    push_filled(
        text,
        "<rect class=\"@ write\" x=\"16\" y=\"@\" width=\"9\" height=\"9\"/>",
        &[Filling::Word(colour.word()), Filling::Number(y)],
    )
}

fn push_sentence(text: &mut String, line: &str, y: u128) -> Result<(), AllocError> {
    push_numbers(text, "<g class=\"paper\"><text x=\"30\" y=\"@\"", &[y])?;
    push_element(text, ">", line, "</text></g>\n")
}
