//! Lines and columns of the bytes of a text.

ghost use Rattle.std.specs.Prelude.{◌≡◌, ◌+◌, ◌≤◌, ◌<◌, ◌^◌, length};
ghost use Rattle.places.specs.LineColumn.{place_after, first_place, place_of_byte};

/// A line, from 1, and a column in it, from 1. A line ends with its byte 10, and each byte is a column.
#[derive(Clone, Copy)]
pub struct LineColumn {
    pub line: usize,
    pub column: usize,
}

impl LineColumn {
    fn first() -> LineColumn
        ensures { result ≡ first_place }
    {
        LineColumn { line: 1, column: 1 }
    }

    /// The place after a byte at this place.
    fn after(self, byte: u8) -> LineColumn
        requires line { self.line + 1 < 2 ^ 64 }
        requires column { self.column + 1 < 2 ^ 64 }
        ensures { result ≡ place_after self byte }
    {
        if byte == b'\n' {
            LineColumn {
                line: self.line + 1,
                column: 1,
            }
        } else {
            LineColumn {
                line: self.line,
                column: self.column + 1,
            }
        }
    }
}

/// Goes through a text and finds the places of its bytes; bytes in order all together cost one pass.
#[derive(Clone, Copy)]
pub struct Cursor<'t> {
    text: &'t [u8],
    at: usize,
    place: LineColumn,
    ghost within: { at ≤ length text.now },
    ghost of_text: { place ≡ place_of_byte text.now at },
    ghost line: { place.line ≤ at + 1 },
    ghost column: { place.column ≤ at + 1 },
}

impl<'t> Cursor<'t> {
    pub fn new(text: &'t [u8]) -> Cursor<'t>
        ensures text { result.text ≡ text.entry }
        ensures start { result.at ≡ 0 }
    {
        Cursor {
            text,
            at: 0,
            place: LineColumn::first(),
        }
    }

    /// The place of a byte, or the end of the text where there is no such byte. For a byte before the last one that was
    /// asked for, the cursor begins again at the first byte.
    pub fn go_to(&mut self, at: usize) -> LineColumn
        ensures place { result ≡ place_of_byte self.old.text.now at }
        ensures text { self.new.text ≡ self.old.text }
    {
        let to = at.min(self.text.len());
        let from = self.before(to);
        let place = place_on(self.text, from.at, from.place, to);
        *self = Cursor {
            text: self.text,
            at: to,
            place,
        };
        place
    }

    /// The cursor, or a new one where it is after this byte.
    fn before(&self, at: usize) -> Cursor<'t>
        ensures text { result.text ≡ self.now.text }
        ensures before { result.at ≤ at }
    {
        if at < self.at {
            Cursor::new(self.text)
        } else {
            *self
        }
    }
}

/// The place of a byte, from the place of an earlier one.
fn place_on(text: &[u8], from: usize, place: LineColumn, to: usize) -> LineColumn
    requires order { from ≤ to }
    requires within { to ≤ length text.now }
    requires from { place ≡ place_of_byte text.now from }
    requires line { place.line ≤ from + 1 }
    requires column { place.column ≤ from + 1 }
    ensures place { result ≡ place_of_byte text.now to }
    ensures line { result.line ≤ to + 1 }
    ensures column { result.column ≤ to + 1 }
{
    let mut place = place;
    for byte in &text[from..to] {
        place = place.after(*byte);
    }
    place
}
