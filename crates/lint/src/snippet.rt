//! A line of a file, with a mark under some of its bytes.

use bstr::ByteSlice;
use memchr::memchr;
use places::Location;
use std::alloc::AllocError;
use unicode_width::UnicodeWidthChar;

/// How many bytes of a line are shown.
const WIDTH: usize = 160;

/// How many bytes before the marked one are shown of a line that is cut at its beginning.
const BEFORE: usize = 40;

/// The greatest length of a mark.
const LONGEST: usize = 24;

/// The line of a mark from `start` to `end`, what is shown of it from `from` to `to`, and the byte that is marked.
#[derive(Clone, Copy)]
struct Excerpt {
    start: usize,
    from: usize,
    at: usize,
    to: usize,
    end: usize,
}

/// How many digits a line number has.
pub fn width_of(line: usize) -> usize {
    let mut width: usize = 1;
    let mut rest = line / 10;
    while rest > 0 {
        rest /= 10;
        width = width.saturating_add(1);
    }
    width
}

/// The line of a spot, and signs under the spot, without a line end.
pub fn push_mark(
    text: &mut String,
    width: usize,
    bytes: &[u8],
    spot: &Location,
    sign: char,
) -> Result<(), AllocError> {
    let window = window_of(bytes, spot);
    write!(text, "{:width$} | ", spot.place.line)?;
    push_shown(text, bytes, &window)?;
    write!(text, "\n{:width$} | ", "")?;
    push_under(text, bytes, &window)?;
    push_times(text, sign, length_of(bytes, &window, spot.end))
}

/// What is shown of a line: as much as there is room for, with some bytes before the marked one.
fn window_of(text: &[u8], spot: &Location) -> Excerpt {
    let at = spot.start.min(text.len());
    let start = at - at.min(spot.place.column.saturating_sub(1));
    let end = match memchr(b'\n', &text[at..]) {
        Some(found) => at + found,
        None => text.len(),
    };
    let from = if at - start < WIDTH - BEFORE {
        start
    } else {
        at - BEFORE
    };
    Excerpt {
        start,
        from,
        at,
        to: end.min(from.saturating_add(WIDTH)),
        end,
    }
}

/// How many columns a mark takes: those of its element, or 1 where that is longer than a mark may be or is cut.
fn length_of(text: &[u8], window: &Excerpt, end: usize) -> usize {
    if end > window.to {
        return 1;
    }
    let mut length: usize = 0;
    for character in part_of(text, window.at, end).chars() {
        length = length.saturating_add(columns_of(character));
    }
    if length <= LONGEST { length.max(1) } else { 1 }
}

/// How many columns a character takes when it is shown. A control character is shown as a blank.
fn columns_of(character: char) -> usize {
    if character.is_control() {
        return 1;
    }
    character.width().unwrap_or(0)
}

/// The bytes from one place to another; none where they are not all there.
pub fn part_of(text: &[u8], from: usize, to: usize) -> &[u8] {
    match text.get(from..to) {
        Some(part) => part,
        None => b"",
    }
}

fn push_shown(text: &mut String, bytes: &[u8], window: &Excerpt) -> Result<(), AllocError> {
    if window.start < window.from {
        text.push_str("..")?;
    }
    push_plain(text, part_of(bytes, window.from, window.to))?;
    if window.to < window.end {
        text.push_str("..")?;
    }
    Ok(())
}

/// Adds bytes of a file on one line. Control characters other than tabs become blanks.
pub fn push_plain(text: &mut String, bytes: &[u8]) -> Result<(), AllocError> {
    for character in bytes.chars() {
        let is_shown = character == '\t' || !character.is_control();
        text.push(if is_shown { character } else { ' ' })?;
    }
    Ok(())
}

/// As many columns as what is shown before the marked byte takes: a tab is a tab, and any other character as many
/// blanks as it has columns.
fn push_under(text: &mut String, bytes: &[u8], window: &Excerpt) -> Result<(), AllocError> {
    if window.start < window.from {
        text.push_str("  ")?;
    }
    for character in part_of(bytes, window.from, window.at).chars() {
        if character == '\t' {
            text.push(character)?;
        } else {
            push_times(text, ' ', columns_of(character))?;
        }
    }
    Ok(())
}

fn push_times(text: &mut String, character: char, many: usize) -> Result<(), AllocError> {
    for _ in 0..many {
        text.push(character)?;
    }
    Ok(())
}
