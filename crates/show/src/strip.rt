//! What is in a picture: the time in which a read was wrong, bars, arrows, zones and moments.

use crate::axis::push_axis;
use crate::bar::{push_bars, push_words};
use crate::canvas::{BAR, Canvas, ZONE, ZONE_ROW, box_width, middle_of};
use crate::colour::{Colour, colour_of_value};
use crate::filled::{Filling, ops_word, push_filled, push_numbers};
use crate::letter::is_wrong;
use crate::zone::DrawnZone;
use register_book::{Side, Witness};
use std::alloc::{AllocError, Global};

/// The whole strip.
pub fn push_strip(text: &mut String, alloc: Global, canvas: &Canvas) -> Result<(), AllocError> {
    push_band(text, canvas)?;
    push_told(text, canvas)?;
    push_folds(text, canvas)?;
    push_at_first(text, canvas)?;
    push_arrows(text, canvas)?;
    push_bars(text, alloc, canvas)?;
    push_zones(text, canvas)?;
    push_axis(text, canvas)
}

/// The time in which a read was wrong by itself, as a band under the lanes: that between the moments that the caption
/// speaks of.
fn push_band(text: &mut String, canvas: &Canvas) -> Result<(), AllocError> {
    let layout = &canvas.layout;
    let letters = layout.scene.letters.as_slice();
    let is_of_one = letters
        .iter()
        .any(|lettered| is_wrong(letters, lettered.id));
    match (layout.told.first(), layout.told.last()) {
        (Some(first), Some(last)) if is_of_one => {
            push_band_between(
                text,
                canvas,
                layout.place_of(*first),
                layout.place_of(*last),
            )
        }
        _ => Ok(()),
    }
}

fn push_band_between(
    text: &mut String,
    canvas: &Canvas,
    from: u128,
    to: u128,
) -> Result<(), AllocError> {
    let height = canvas.bottom.saturating_sub(canvas.top);
    push_numbers(
        text,
        "<rect class=\"band\" x=\"@\" y=\"@\" width=\"@\" height=\"@\"/>\n",
        &[from, canvas.top, to.saturating_sub(from), height],
    )
}

/// A dotted line at each moment that the caption speaks of.
fn push_told(text: &mut String, canvas: &Canvas) -> Result<(), AllocError> {
    let to = canvas.bottom.saturating_add(4);
    for number in &canvas.layout.told {
        push_numbers(
            text,
            "<path class=\"drop\" d=\"M@ 0V@\"/>\n",
            &[canvas.layout.place_of(*number), to],
        )?;
    }
    Ok(())
}

fn push_folds(text: &mut String, canvas: &Canvas) -> Result<(), AllocError> {
    for number in 1..canvas.layout.scene.marks.len() {
        let many = canvas.layout.left_out_before(number);
        if many > 0 {
            push_fold(text, canvas, canvas.layout.middle_before(number), many)?;
        }
    }
    Ok(())
}

/// A jagged line where operations are left out, with how many.
fn push_fold(text: &mut String, canvas: &Canvas, x: u128, many: usize) -> Result<(), AllocError> {
    push_numbers(text, "<path class=\"edge\" d=\"M@ @", &[x, canvas.top])?;
    for _ in 0..canvas.layout.lane_ends.len() {
        text.push_str("l3 3-6 6 6 6-6 6 3 3")?;
    }
    push_filled(
        text,
        "\"/>\n<text class=\"quiet\" x=\"@\" y=\"@\" text-anchor=\"middle\">+@ @</text>\n",
        &[
            Filling::Number(x),
            Filling::Number(canvas.bottom.saturating_add(18)),
            Filling::Number(many as u128),
            Filling::Word(ops_word(many)),
        ],
    )
}

/// The box of the value at first, and right of it a line, before which there was nothing.
fn push_at_first(text: &mut String, canvas: &Canvas) -> Result<(), AllocError> {
    let at_first = &canvas.layout.at_first;
    if at_first.is_empty() {
        return Ok(());
    }
    let width = box_width(at_first);
    let y = canvas.top.saturating_add(5);
    push_filled(
        text,
        "<g class=\"@ write told\"><rect x=\"0\" y=\"@\" width=\"@\" height=\"@\"/>",
        &[
            Filling::Word(colour_at_first(&canvas.layout.scene.witness).word()),
            Filling::Number(y),
            Filling::Number(width),
            Filling::Number(BAR),
        ],
    )?;
    push_words(text, width / 2, y, "middle", at_first)?;
    push_numbers(
        text,
        "</g><path class=\"edge\" d=\"M@ @V@\"/>\n",
        &[width.saturating_add(4), canvas.top, canvas.bottom],
    )
}

/// The colour of the value at first.
fn colour_at_first(witness: &Option<Witness>) -> Colour {
    match witness {
        Some(Witness::Crossing { a: Side::Op(_), .. }) => Colour::Two,
        _ => Colour::One,
    }
}

/// The zones of all values, or of the two of a conflict.
fn push_zones(text: &mut String, canvas: &Canvas) -> Result<(), AllocError> {
    for zone in &canvas.zones {
        let before = if zone.is_forward {
            0
        } else {
            canvas.forward_rows
        };
        let rows = before.saturating_add(zone.row as u128);
        push_zone(text, canvas, zone, rows.saturating_mul(ZONE_ROW))?;
    }
    let mut y = 0;
    for zone in &canvas.conflict {
        push_zone(text, canvas, zone, y)?;
        y = y.saturating_add(ZONE);
    }
    Ok(())
}

/// A forward zone points to the right and is filled, a backward one points to the left and is hollow.
fn push_zone(
    text: &mut String,
    canvas: &Canvas,
    zone: &DrawnZone,
    y: u128,
) -> Result<(), AllocError> {
    let colour = colour_of_value(&canvas.layout.scene.witness, zone.value);
    let (left, right) = (zone.left, zone.right);
    let (form, from, tip, to) = if zone.is_forward {
        ("write", left, right.saturating_sub(6).max(left), right)
    } else {
        ("read", right, left.saturating_add(6).min(right), left)
    };
    push_filled(
        text,
        "<path class=\"@ @\" d=\"M@ @H@L@ @L@ @H@z\"><title>zone of @</title></path>\n",
        &[
            Filling::Word(colour.word()),
            Filling::Word(form),
            Filling::Number(from),
            Filling::Number(y),
            Filling::Number(tip),
            Filling::Number(to),
            Filling::Number(y.saturating_add(6)),
            Filling::Number(tip),
            Filling::Number(y.saturating_add(12)),
            Filling::Number(from),
            Filling::Value(zone.value),
        ],
    )
}

/// An arrow from each operation of a conflict to the next that it precedes.
fn push_arrows(text: &mut String, canvas: &Canvas) -> Result<(), AllocError> {
    let Some(Witness::Crossing { a, b, c, d }) = &canvas.layout.scene.witness else {
        return Ok(());
    };
    push_arrow(text, canvas, a, b)?;
    push_arrow(text, canvas, c, d)
}

fn push_arrow(
    text: &mut String,
    canvas: &Canvas,
    from: &Side,
    to: &Side,
) -> Result<(), AllocError> {
    let x = match from {
        Side::Initial => box_width(&canvas.layout.at_first),
        Side::Op(op) => canvas.layout.end_of(op),
    };
    let (y, to_y) = (middle_of(canvas, from), middle_of(canvas, to));
    let to_x = canvas.layout.begin_place(to);
    let (tip, base) = (to_x.saturating_sub(1), to_x.saturating_sub(8));
    let half = x.saturating_add(base.saturating_sub(x) / 2);
    push_numbers(
        text,
        "<path class=\"arrow\" d=\"M@ @C@ @ @ @ @ @\"/><path class=\"head\" d=\"M@ @l-8-4v8z\"/>\n",
        &[x, y, half, y, half, to_y, base, to_y, tip, to_y],
    )
}
