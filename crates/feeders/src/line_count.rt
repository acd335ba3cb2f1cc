//! At which line an element begins.

use crate::tail_buffer::TailBuffer;
use memchr::memchr_iter;

/// How many lines of a trace have ended, where that is wanted. A line ends with its byte 10.
#[derive(Clone, Copy)]
pub struct LineCount {
    is_wanted: bool,
    /// In all bytes so far.
    ended: u64,
    /// Before the bytes that are kept.
    before_kept: u64,
    /// Before the element that ended last, or before the byte where the trace broke.
    before_last: u64,
}

impl LineCount {
    /// The count before the first byte.
    pub fn new() -> LineCount {
        LineCount {
            is_wanted: false,
            ended: 0,
            before_kept: 0,
            before_last: 0,
        }
    }

    /// Says whether lines are wanted. It is said before the first byte, and always the same.
    pub fn want(&mut self, is_wanted: bool) {
        self.is_wanted = is_wanted;
    }

    /// The line, from 1, at which the element begins that ended last, or at which the trace broke.
    pub fn line(&self) -> u64 {
        self.before_last.saturating_add(1)
    }

    /// Takes a chunk in which no element ended. It comes at the place `at`, and where `keep` is not before that, the bytes
    /// from the place `keep` on are kept then.
    #[inline]
    pub fn count_past(&mut self, chunk: &[u8], at: usize, keep: usize) {
        if self.is_wanted {
            if at <= keep {
                let dropped = first_bytes(chunk, keep.saturating_sub(at));
                self.before_kept = self.ended.saturating_add(lines_in(dropped));
            }
            self.ended = self.ended.saturating_add(lines_in(chunk));
        }
    }

    /// Takes a chunk with which an element ended that begins at the place `start`. It comes at the place `at`, after the
    /// bytes that are kept.
    #[inline]
    pub fn count_to(&mut self, kept: &TailBuffer, chunk: &[u8], at: usize, start: usize) {
        if self.is_wanted {
            self.before_last = self.before(kept, chunk, at, start);
            self.ended = self.ended.saturating_add(lines_in(chunk));
        }
    }

    /// Takes bytes up to the beginning of an element, or up to where the trace broke.
    pub fn count(&mut self, bytes: &[u8]) {
        if self.is_wanted {
            self.ended = self.ended.saturating_add(lines_in(bytes));
            self.before_last = self.ended;
        }
    }

    fn before(&self, kept: &TailBuffer, chunk: &[u8], at: usize, place: usize) -> u64 {
        if place < at {
            self.before_kept.saturating_add(lines_in(kept.front(place)))
        } else {
            self.ended
                .saturating_add(lines_in(first_bytes(chunk, place.saturating_sub(at))))
        }
    }
}

/// The first `many` bytes, or all where there are fewer.
pub fn first_bytes(bytes: &[u8], many: usize) -> &[u8] {
    match bytes.get(..many) {
        Some(front) => front,
        None => bytes,
    }
}

/// How many lines end in these bytes.
fn lines_in(bytes: &[u8]) -> u64 {
    let mut many = 0u64;
    for _ in memchr_iter(b'\n', bytes) {
        many = many.saturating_add(1);
    }
    many
}
