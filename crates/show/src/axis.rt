//! The moments below a picture.

use crate::canvas::{Canvas, wide, window_of};
use crate::filled::{Filling, ops_word, push_filled, push_numbers};
use crate::layout::{Layout, Window};
use crate::measure::digits_of;
use std::alloc::AllocError;

/// The line below the lanes, and the moments: first those that the caption speaks of, then each other that has room.
pub fn push_axis(text: &mut String, canvas: &Canvas) -> Result<(), AllocError> {
    let (edge, y) = (canvas.layout.right_edge(), canvas.bottom.saturating_add(4));
    push_numbers(text, "<path class=\"edge\" d=\"M0 @H@\"/>\n", &[y, edge])?;
    push_told(text, canvas)?;
    push_others(text, canvas)?;
    let many = canvas.layout.later();
    if many == 0 {
        return Ok(());
    }
    push_filled(
        text,
        "<text class=\"quiet\" x=\"@\" y=\"@\">@ @ →</text>\n",
        &[
            Filling::Number(edge.saturating_add(4)),
            Filling::Number(y.saturating_add(14)),
            Filling::Number(many as u128),
            Filling::Word(ops_word(many)),
        ],
    )
}

/// The moments that the caption speaks of, from left to right, but for one that has no room in its row, right of another,
/// or beside the numbers of operations left out.
fn push_told(text: &mut String, canvas: &Canvas) -> Result<(), AllocError> {
    let mut free = 0;
    for number in &canvas.layout.told {
        let (left, right) = room_of(&canvas.layout, *number);
        if free <= left && has_room(&canvas.layout, *number, left, right) {
            push_moment(text, canvas, *number, true)?;
            free = right.saturating_add(6);
        }
    }
    Ok(())
}

/// The moments that the caption does not speak of, from left to right.
fn push_others(text: &mut String, canvas: &Canvas) -> Result<(), AllocError> {
    let mut free = 0;
    for number in 0..canvas.layout.scene.marks.len() {
        let (left, right) = room_of(&canvas.layout, number);
        if free <= left
            && has_room(&canvas.layout, number, left, right)
            && !is_taken(&canvas.layout, left, right)
        {
            push_moment(text, canvas, number, false)?;
            free = right.saturating_add(6);
        }
    }
    Ok(())
}

fn push_moment(
    text: &mut String,
    canvas: &Canvas,
    number: usize,
    is_told: bool,
) -> Result<(), AllocError> {
    let (left, right) = room_of(&canvas.layout, number);
    let length = right.saturating_sub(left);
    push_filled(
        text,
        "<g class=\"@\"><text class=\"@\" x=\"@\" y=\"@\" text-anchor=\"middle\" textLength=\"@\">@</text></g>\n",
        &[
            Filling::Word(if is_told { "paper" } else { "quiet" }),
            Filling::Word(if is_told { "bold" } else { "quiet" }),
            Filling::Number(left.saturating_add(length / 2)),
            Filling::Number(canvas.bottom.saturating_add(18)),
            Filling::Number(length),
            Filling::Word(canvas.layout.moment(number)),
        ],
    )
}

/// Where the moment of a mark is written, from left to right: with its middle below the mark, but within its row.
fn room_of(layout: &Layout, number: usize) -> (u128, u128) {
    let length = wide(layout.moment(number).len());
    let window = row_of(layout, number);
    let left = layout
        .place_of(number)
        .saturating_sub(length / 2)
        .min(window.to.saturating_sub(length))
        .max(window.from);
    (left, left.saturating_add(length))
}

/// The window of the row of a mark.
fn row_of(layout: &Layout, number: usize) -> Window {
    let row = layout.starts.partition_point(|start| *start <= number);
    window_of(layout, row.saturating_sub(1))
}

/// Whether the row of a mark is wide enough for its moment, and no number of operations left out is in the way.
fn has_room(layout: &Layout, number: usize, left: u128, right: u128) -> bool {
    right <= row_of(layout, number).to && !is_in_folds(layout, number, left, right)
}

/// Whether a moment that the caption speaks of is in the way.
fn is_taken(layout: &Layout, left: u128, right: u128) -> bool {
    for told in &layout.told {
        let (from, to) = room_of(layout, *told);
        if left <= to.saturating_add(6) && from <= right.saturating_add(6) {
            return true;
        }
    }
    false
}

/// Whether the number of operations left out before some mark is in the way of the moment of this one. A moment of twenty
/// digits reaches over fewer marks than these.
fn is_in_folds(layout: &Layout, number: usize, left: u128, right: u128) -> bool {
    for near in number.saturating_sub(12)..number.saturating_add(13) {
        if is_in_fold(layout, near, left, right) {
            return true;
        }
    }
    false
}

/// Whether the number of operations left out before a mark is in the way.
fn is_in_fold(layout: &Layout, number: usize, left: u128, right: u128) -> bool {
    let many = layout.left_out_before(number);
    if many == 0 {
        return false;
    }
    let half = wide(digits_of(many).saturating_add(5)) / 2;
    let middle = layout.middle_before(number);
    left <= middle.saturating_add(half).saturating_add(6)
        && middle.saturating_sub(half) <= right.saturating_add(6)
}
