//! The classes of bytes, and where a stretch of bytes of one kind ends: white bytes, a run, a comment.

ghost use Rattle.std.specs.Prelude.{◌≡◌, ◌+◌, ◌≤◌, length, drop};
ghost use Rattle.edn_reader.specs.Bytes.{class_of, is_run, is_plain, is_white, is_in_comment, stretch};

use memchr::memchr;

#[derive(Clone, Copy)]
pub enum Bracket {
    Round,
    Square,
    Curly,
}

#[derive(Clone, Copy)]
pub enum ByteClass {
    White,
    Plain,
    Hash,
    Backslash,
    Semicolon,
    Quote,
    Opens(Bracket),
    Closes(Bracket),
}

#[inline(always)]
#[tactic(auto, unfolding(crate::specs::Bytes::class_of))]
pub fn classify(byte: u8) -> ByteClass
    ensures { result ≡ class_of byte }
{
    match byte {
        9..=13 | 32 | 44 => ByteClass::White,
        b'#' => ByteClass::Hash,
        b'\\' => ByteClass::Backslash,
        b';' => ByteClass::Semicolon,
        b'"' => ByteClass::Quote,
        b'(' => ByteClass::Opens(Bracket::Round),
        b'[' => ByteClass::Opens(Bracket::Square),
        b'{' => ByteClass::Opens(Bracket::Curly),
        b')' => ByteClass::Closes(Bracket::Round),
        b']' => ByteClass::Closes(Bracket::Square),
        b'}' => ByteClass::Closes(Bracket::Curly),
        _ => ByteClass::Plain,
    }
}

/// By the value of a byte: `+` for a plain byte, `*` for the other run bytes, `.` for a white byte, and `-` for
/// the other delimiters. `*` and `+` are the least of the four, so one comparison finds a run byte.
static MARKS: [u8; 256] = *b"\
    +++++++++.....++++++++++++++++++\
    .+-*++++--++.++++++++++++++-++++\
    +++++++++++++++++++++++++++-*-++\
    +++++++++++++++++++++++++++-+-++\
    ++++++++++++++++++++++++++++++++\
    ++++++++++++++++++++++++++++++++\
    ++++++++++++++++++++++++++++++++\
    ++++++++++++++++++++++++++++++++";

#[inline(always)]
fn is_run_byte(byte: u8) -> bool
    ensures { result ≡ is_run byte }
{
    MARKS[byte as usize] <= b'+'
}

#[inline(always)]
pub fn is_plain(byte: u8) -> bool
    ensures { result ≡ is_plain byte }
{
    MARKS[byte as usize] == b'+'
}

#[inline(always)]
pub fn is_white(byte: u8) -> bool
    ensures { result ≡ is_white byte }
{
    MARKS[byte as usize] == b'.'
}

/// Where the white bytes end that go on at an index.
#[inline(always)]
#[tactic(auto, using(crate::proofs::Stretches::stretch_goes, crate::proofs::Stretches::stretch_stops, crate::proofs::Stretches::stretch_past))]
pub fn white_end(input: &[u8], at: usize) -> usize
    requires { at ≤ length input.now }
    ensures end { result ≡ at + stretch is_white (drop at input.now) }
    ensures within { result ≤ length input.now }
{
    let mut end = at;
    while end < input.len() && is_white(input[end]) {
        end += 1;
    }
    end
}

/// Where the run ends that goes on at an index. The length is compared once for four bytes.
#[inline(always)]
#[tactic(auto, using(crate::proofs::Stretches::stretch_goes, crate::proofs::Stretches::stretch_stops, crate::proofs::Stretches::stretch_past))]
pub fn run_end(input: &[u8], at: usize) -> usize
    requires { at ≤ length input.now }
    ensures end { result ≡ at + stretch is_run (drop at input.now) }
    ensures within { result ≤ length input.now }
{
    let mut end = at;
    while input.len() - end >= 4 {
        if !is_run_byte(input[end]) {
            return end;
        }
        if !is_run_byte(input[end + 1]) {
            return end + 1;
        }
        if !is_run_byte(input[end + 2]) {
            return end + 2;
        }
        if !is_run_byte(input[end + 3]) {
            return end + 3;
        }
        end += 4;
    }
    while end < input.len() && is_run_byte(input[end]) {
        end += 1;
    }
    end
}

/// Where the comment ends that goes on at an index: at the next line end, or at the end of the bytes.
pub fn comment_end(input: &[u8], at: usize) -> usize
    requires { at ≤ length input.now }
    ensures end { result ≡ at + stretch is_in_comment (drop at input.now) }
    ensures within { result ≤ length input.now }
{
    match memchr(b'\n', &input[at..]) {
        Some(length) => at + length,
        None => input.len(),
    }
}
