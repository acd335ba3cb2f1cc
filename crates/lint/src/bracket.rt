//! Which bracket is open at a byte of a text, by a plain scan. It is printed beside a break; no clause speaks of it.

ghost use Rattle.std.specs.Prelude.{◌≤◌, ◌<◌, ◌+◌, length};

use memchr::memchr;
use memchr::memmem::find;
use std::alloc::{AllocError, Global};

/// The innermost bracket that opens at `from` or after it, and is not closed before `to`.
pub fn innermost_open(
    alloc: Global,
    text: &[u8],
    from: usize,
    to: usize,
) -> Result<Option<usize>, AllocError> {
    let mut open: Vec<usize> = Vec::new(alloc);
    let end = to.min(text.len());
    let mut at = from;
    while at < end {
        match text[at] {
            b'(' | b'[' | b'{' => open.push(at)?,
            b')' | b']' | b'}' => {
                let _ = open.pop();
            }
            _ => {}
        }
        at = after(text, at);
    }
    Ok(open.last().copied())
}

/// The first byte after a bracket at which a line begins with `{`, or none.
pub fn next_map_line(text: &[u8], open: usize) -> Option<usize> {
    let from = open.min(text.len());
    match find(&text[from..], b"\n{") {
        Some(found) => Some((from + found).saturating_add(1)),
        None => None,
    }
}

/// The byte after what begins here: a string, a comment, a character or a single byte.
fn after(text: &[u8], at: usize) -> usize
    requires { at < length text.now }
    ensures { at < result }
{
    match text[at] {
        b'"' => after_quoted(text, at + 1),
        b';' => match memchr(b'\n', &text[at..]) {
            Some(found) => at + found + 1,
            None => text.len(),
        },
        b'\\' => at + 2,
        _ => at + 1,
    }
}

/// The byte after the closing quote, from a byte inside a string; the end of the text where there is none.
fn after_quoted(text: &[u8], from: usize) -> usize
    requires { from ≤ length text.now }
    ensures { from ≤ result }
{
    let mut at = from;
    while at < text.len() {
        match text[at] {
            b'"' => return at + 1,
            b'\\' => at += 2,
            _ => at += 1,
        }
    }
    at
}
