//! The bars of operations in a picture, and the line through those that have an order.

use crate::canvas::{BAR, Canvas, lane_of, lane_top, row_at, wide, window_of};
use crate::colour::colour_of;
use crate::filled::{Filling, push_filled, push_numbers};
use crate::layout::{Bar, Layout, Window};
use crate::letter::{is_wrong, letter_for, short_label};
use crate::scene::Scene;
use std::alloc::{AllocError, Global};

/// The width of the part of an unfinished write that fades.
const FADE: u128 = 36;

/// Adds the bars of all operations, over the line through those that have an order and under its points.
pub fn push_bars(text: &mut String, alloc: Global, canvas: &Canvas) -> Result<(), AllocError> {
    let points = points_of(alloc, canvas)?;
    push_order(text, &points)?;
    for number in 0..canvas.layout.scene.ops.len() {
        push_bar(text, canvas, number)?;
    }
    push_dots(text, &points)
}

/// Adds the bar of an operation, with its id and its moments as a tooltip.
fn push_bar(text: &mut String, canvas: &Canvas, number: usize) -> Result<(), AllocError> {
    let Some(bar) = canvas.layout.bar(number) else {
        return Ok(());
    };
    let scene = canvas.layout.scene;
    let y = lane_top(canvas, lane_of(canvas, number)).saturating_add(5);
    push_group(text, scene, &bar)?;
    push_tip(text, &bar)?;
    if bar.is_finished {
        push_whole(text, &bar, y)?;
    } else {
        push_endless(text, &bar, y)?;
    }
    push_bar_label(text, canvas, &bar, y)?;
    text.push_str("</g>\n")?;
    if is_wrong(&scene.letters, bar.op.id) {
        push_cross(text, bar.right.saturating_add(8), y.saturating_add(3))?;
    }
    Ok(())
}

/// Opens the group of a bar, with its classes.
fn push_group(text: &mut String, scene: &Scene, bar: &Bar) -> Result<(), AllocError> {
    let is_told = letter_for(&scene.letters, bar.op.id).is_some();
    push_filled(
        text,
        "<g class=\"@ @@@\">",
        &[
            Filling::Word(colour_of(scene, bar.op).word()),
            Filling::Word(if bar.op.is_write() { "write" } else { "read" }),
            Filling::Word(if is_told { " told" } else { "" }),
            Filling::Word(if bar.is_finished { "" } else { " endless" }),
        ],
    )
}

fn push_tip(text: &mut String, bar: &Bar) -> Result<(), AllocError> {
    push_filled(
        text,
        "<title>@:@ @, ",
        &[
            Filling::Number(bar.op.id.feeder as u128),
            Filling::Number(bar.op.id.event as u128),
            Filling::Word(bar.label),
        ],
    )?;
    let begin = bar.op.begin.0 as u128;
    match bar.op.end {
        Some(end) => push_numbers(text, "@ to @</title>", &[begin, end.0 as u128]),
        None => push_numbers(text, "from @, without an end</title>", &[begin]),
    }
}

fn push_whole(text: &mut String, bar: &Bar, y: u128) -> Result<(), AllocError> {
    let (x, width) = (bar.left, bar.right.saturating_sub(bar.left));
    let form = if bar.op.is_write() {
        "<rect x=\"@\" y=\"@\" width=\"@\" height=\"@\"/>"
    } else {
        "<rect x=\"@\" y=\"@\" width=\"@\" height=\"@\" rx=\"7\"/>"
    };
    push_numbers(text, form, &[x, y, width, BAR])
}

/// A bar without a right edge: that of a write fades, that of a read is dashed.
fn push_endless(text: &mut String, bar: &Bar, y: u128) -> Result<(), AllocError> {
    let (x, right) = (bar.left, bar.right.saturating_sub(FADE).max(bar.left));
    if bar.op.is_write() {
        push_numbers(text, "<path d=\"M@ @H@v@H@\"/>", &[right, y, x, BAR, right])?;
        push_fading(text, right, y)
    } else {
        let at = x.saturating_add(7);
        push_numbers(
            text,
            "<path d=\"M@ @H@a7 7 0 0 0 0 @H@\"/>",
            &[right, y, at, BAR, right],
        )
    }
}

/// The label of a bar, in the middle of what one row has of it, or at its beginning where the bar has no end; where no
/// row has room for the label, what stands for it.
fn push_bar_label(
    text: &mut String,
    canvas: &Canvas,
    bar: &Bar,
    y: u128,
) -> Result<(), AllocError> {
    let part = labelled_part(&canvas.layout, bar);
    let label = if width_beside(bar.label) <= part.width() {
        bar.label
    } else {
        short_label(&canvas.layout.scene.letters, bar.op)
    };
    if bar.is_finished {
        let middle = part.from.saturating_add(part.width() / 2);
        push_words(text, middle, y, "middle", label)
    } else {
        push_words(text, part.from.saturating_add(5), y, "start", label)
    }
}

/// The part of a bar that one row has: the first with room for the label, else the widest.
fn labelled_part(layout: &Layout, bar: &Bar) -> Window {
    let mut widest = Window {
        from: bar.left,
        to: bar.left,
    };
    for row in row_at(layout, bar.left)..layout.starts.len() {
        let window = window_of(layout, row);
        let part = Window {
            from: bar.left.max(window.from),
            to: bar.right.min(window.to),
        };
        if width_beside(bar.label) <= part.width() {
            return part;
        }
        if part.width() > widest.width() {
            widest = part;
        }
        if bar.right <= window.to {
            return widest;
        }
    }
    widest
}

/// The width of a label, and of some room on both sides.
fn width_beside(label: &str) -> u128 {
    wide(label.len()).saturating_add(8)
}

fn push_fading(text: &mut String, right: u128, y: u128) -> Result<(), AllocError> {
    for number in 0..6usize {
        let step = number as u128;
        let x = right.saturating_add(step * 6);
        push_numbers(
            text,
            "<rect x=\"@\" y=\"@\" width=\"6\" height=\"@\" style=\"stroke:none\" opacity=\".@\"/>",
            &[x, y, BAR, 6 - step],
        )?;
    }
    Ok(())
}

/// Adds the label of a bar, by its middle or its beginning.
pub fn push_words<'a>(
    text: &mut String,
    x: u128,
    y: u128,
    anchor: &'a str,
    label: &'a str,
) -> Result<(), AllocError> {
    push_filled(
        text,
        "<text x=\"@\" y=\"@\" text-anchor=\"@\" textLength=\"@\">@</text>",
        &[
            Filling::Number(x),
            Filling::Number(y.saturating_add(11)),
            Filling::Word(anchor),
            Filling::Number(wide(label.len())),
            Filling::Word(label),
        ],
    )
}

fn push_cross(text: &mut String, x: u128, y: u128) -> Result<(), AllocError> {
    push_numbers(
        text,
        "<path class=\"wrong cross\" d=\"M@ @l8 8m0-8l-8 8\"/>\n",
        &[x, y],
    )
}

/// The points of the operations of a register that holds, in an order that explains the reads: each as far left as the
/// operation's beginning and the point before it allow.
fn points_of(alloc: Global, canvas: &Canvas) -> Result<Vec<(u128, u128)>, AllocError> {
    let mut points = Vec::new(alloc);
    let mut least = 0;
    for (_, number) in &by_rank(alloc, canvas.layout.scene)? {
        if let Some(bar) = canvas.layout.bar(*number) {
            let x = bar.left.saturating_add(3).max(least).min(bar.right);
            let y = lane_top(canvas, lane_of(canvas, *number)).saturating_add(5 + BAR);
            points.push((x, y))?;
            least = x.saturating_add(3);
        }
    }
    Ok(points)
}

/// Adds a line from point to point.
fn push_order(text: &mut String, points: &[(u128, u128)]) -> Result<(), AllocError> {
    for number in 1..points.len() {
        let (from, to) = (&points[number - 1], &points[number]);
        push_numbers(
            text,
            "<path class=\"arrow\" d=\"M@ @L@ @\"/>\n",
            &[from.0, from.1, to.0, to.1],
        )?;
    }
    Ok(())
}

/// Adds a dot at each point.
fn push_dots(text: &mut String, points: &[(u128, u128)]) -> Result<(), AllocError> {
    for point in points {
        push_numbers(
            text,
            "<circle class=\"head\" cx=\"@\" cy=\"@\" r=\"2.5\"/>\n",
            &[point.0, point.1],
        )?;
    }
    Ok(())
}

/// The ranks of the operations that have one, each with the operation's number, in order.
fn by_rank(alloc: Global, scene: &Scene) -> Result<Vec<(usize, usize)>, AllocError> {
    let mut ranked = Vec::new(alloc);
    for number in 0..scene.ranks.len() {
        if let Some(rank) = scene.ranks[number] {
            ranked.push((rank, number))?;
        }
    }
    ranked.sort_unstable();
    Ok(ranked)
}
