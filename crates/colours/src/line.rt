//! How a line is painted.

ghost use Rattle.std.specs.Prelude.{◌≤◌, ◌<◌, IsTrue, length};
ghost use Rattle.colours.specs.declared.line.TheConstants.{HEAD_WIDTH};

use crate::escapes::TextColour;
use memchr::{memchr, memmem};

/// A line in two parts, with blanks between them: its head, and the rest. A part without a colour stays as it is.
#[derive(Clone, Copy)]
pub(crate) struct LineCut {
    /// How many bytes the head has.
    pub(crate) head: usize,
    pub(crate) colour: Option<TextColour>,
    pub(crate) rest: Option<TextColour>,
}

/// How lines are painted that begin alike.
struct Rule {
    begins: &'static [u8],
    /// Whether the head goes up to the first colon; else it has no byte.
    up_to_colon: bool,
    colour: Option<TextColour>,
    rest: Option<TextColour>,
}

/// A head up to the first colon, of which nothing else is said.
const HEAD: Rule = Rule {
    begins: b"",
    up_to_colon: true,
    colour: Some(TextColour::Bold),
    rest: None,
};

static RULES: [Rule; 11] = [
    Rule {
        begins: b"error[",
        colour: Some(TextColour::Red),
        ..HEAD
    },
    Rule {
        begins: b"error:",
        colour: Some(TextColour::Red),
        ..HEAD
    },
    Rule {
        begins: b"warning[",
        colour: Some(TextColour::Yellow),
        ..HEAD
    },
    Rule {
        begins: b"note[",
        colour: Some(TextColour::Blue),
        ..HEAD
    },
    Rule {
        begins: b"help[",
        colour: Some(TextColour::Green),
        ..HEAD
    },
    Rule {
        begins: b"Mostly: ",
        ..HEAD
    },
    Rule {
        begins: b"Tower: ",
        rest: Some(TextColour::Dim),
        ..HEAD
    },
    Rule {
        begins: b"Example: ",
        rest: Some(TextColour::Dim),
        ..HEAD
    },
    Rule {
        begins: b"Mend: ",
        ..HEAD
    },
    Rule {
        begins: b"See: ",
        ..HEAD
    },
    Rule {
        begins: b"         {",
        up_to_colon: false,
        rest: Some(TextColour::Dim),
        ..HEAD
    },
];

/// The columns in which `explain` prints a code, and its name.
const CODE_WIDTH: usize = 11;

const HEAD_WIDTH: usize = 30;

/// With what the gutter of an excerpt ends.
static SIGNS: [&[u8]; 4] = [b"-->", b":::", b"|", b"="];

/// How a line is painted: by a rule, as the line of a register, by its gutter, or by the word with which it begins.
pub(crate) fn cut_of(line: &[u8]) -> LineCut
    ensures { result.head ≤ length line.now }
{
    for rule in &RULES {
        if line.starts_with(rule.begins) {
            return cut_by(rule, line);
        }
    }
    if line.starts_with(b"register ") {
        return cut_of_register(line);
    }
    let gutter = gutter_of(line);
    if gutter > 0 {
        return cut_at_gutter(line, gutter);
    }
    LineCut {
        head: named_in(line),
        colour: Some(TextColour::Bold),
        rest: None,
    }
}

fn cut_by(rule: &Rule, line: &[u8]) -> LineCut
    ensures { result.head ≤ length line.now }
{
    let head = match memchr(b':', line) {
        Some(colon) if rule.up_to_colon => colon,
        _ => 0,
    };
    LineCut {
        head,
        colour: rule.colour,
        rest: rule.rest,
    }
}

/// The line of a register, with its verdict.
fn cut_of_register(line: &[u8]) -> LineCut
    ensures { result.head ≤ length line.now }
{
    let colour = match memmem::find(line, b"  fails: ") {
        Some(_) => TextColour::Red,
        None => TextColour::Green,
    };
    LineCut {
        head: line.len(),
        colour: Some(colour),
        rest: None,
    }
}

/// A line of an excerpt. Under a line of a file, which has its number in the gutter, are marks.
fn cut_at_gutter(line: &[u8], gutter: usize) -> LineCut
    requires { gutter ≤ length line.now }
    ensures { result.head ≤ length line.now }
{
    LineCut {
        head: gutter,
        colour: Some(TextColour::Blue),
        rest: marks_colour(&line[..gutter], &line[gutter..]),
    }
}

/// The colour of what comes after a gutter, if it is a mark.
fn marks_colour(gutter: &[u8], rest: &[u8]) -> Option<TextColour> {
    let blanks = blanks_in(gutter);
    if !gutter[blanks..].starts_with(b"|") {
        return None;
    }
    match rest.get(blanks_in(rest)) {
        Some(b'^') => Some(TextColour::Red),
        Some(b'-') => Some(TextColour::Blue),
        _ => None,
    }
}

/// How many bytes the gutter has with which a line begins: blanks, the number of a line, and a sign; 0 without a sign.
fn gutter_of(line: &[u8]) -> usize
    ensures { result ≤ length line.now }
{
    let mut at = 0;
    while at < line.len() && (is_blank(line[at]) || line[at].is_ascii_digit()) {
        at += 1;
    }
    for sign in &SIGNS {
        if is_sign(sign, &line[at..]) {
            return at + sign.len();
        }
    }
    0
}

/// Whether this sign comes first, alone or before a blank.
fn is_sign(sign: &[u8], bytes: &[u8]) -> bool
    ensures { IsTrue result → length sign.now ≤ length bytes.now }
{
    match bytes.strip_prefix(sign) {
        Some(after) => after.is_empty() || after.starts_with(b" "),
        None => false,
    }
}

/// How many bytes are bold with which a line begins: a code and its name, or the word of a process or an operation.
fn named_in(line: &[u8]) -> usize
    ensures { result ≤ length line.now }
{
    if is_of_code(line) {
        HEAD_WIDTH
    } else {
        word_in(line)
    }
}

/// Whether a line begins with a code and its name, as `explain` prints them.
fn is_of_code(line: &[u8]) -> bool
    ensures { IsTrue result → HEAD_WIDTH ≤ length line.now }
{
    line.len() > HEAD_WIDTH
        && is_column_at(line, 0)
        && is_column_at(line, CODE_WIDTH)
        && is_column_at(line, HEAD_WIDTH)
}

/// Whether a column begins at a place: what is there is no blank, and before it is nothing, or one.
fn is_column_at(line: &[u8], at: usize) -> bool
    requires { at < length line.now }
{
    !is_blank(line[at]) && (at == 0 || is_blank(line[at - 1]))
}

/// How many bytes the word has that begins a line, before two blanks, and names a process or operations.
fn word_in(line: &[u8]) -> usize
    ensures { result ≤ length line.now }
{
    let mut at = 0;
    while at < line.len() && is_of_word(line[at], at) {
        at += 1;
    }
    if line[at..].starts_with(b"  ") { at } else { 0 }
}

/// A word is a capital or a `p`, and then capitals and digits.
fn is_of_word(byte: u8, at: usize) -> bool {
    if at == 0 {
        byte == b'p' || byte.is_ascii_uppercase()
    } else {
        byte.is_ascii_uppercase() || byte.is_ascii_digit()
    }
}

/// How many blanks and tabs come first.
pub(crate) fn blanks_in(bytes: &[u8]) -> usize
    ensures { result ≤ length bytes.now }
{
    let mut at = 0;
    while at < bytes.len() && is_blank(bytes[at]) {
        at += 1;
    }
    at
}

fn is_blank(byte: u8) -> bool {
    byte == b' ' || byte == b'\t'
}
