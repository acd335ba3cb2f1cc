//! The log of a trace: what is noted of its elements, and where it broke.

ghost use Rattle.std.specs.Prelude.{◌≡◌};
ghost use Rattle.logs.specs.Broken.{broken_by};
ghost use Rattle.logs.specs.Code.{break_code_of, refused_code};

use edn_reader::EdnFault;
use intervals::{Refusal, RegId};
use jepsen_form::FormFault;
use pairing::{About, PairFault};
use shards::Answer;

/// Why an element of a trace was refused: by its form, by the pairing, or by its register.
#[derive(Clone, Copy)]
pub enum Code {
    Form(FormFault),
    Pair(PairFault),
    Register(Refusal),
}

impl Code {
    /// The code that users see.
    pub fn code(&self) -> &'static str
        ensures { result.now ≡ refused_code self.now }
    {
        match self {
            Code::Form(fault) => fault.code(),
            Code::Pair(fault) => fault.code(),
            Code::Register(refusal) => refusal.code(),
        }
    }
}

/// An element that was left out: why it was refused, and what it is about.
#[derive(Clone, Copy)]
pub struct LeftOut {
    pub code: Code,
    pub about: About,
}

/// What is noted of an element: that it was left out, or the answer to its question.
#[derive(Clone, Copy)]
pub enum What<'t> {
    Refused(LeftOut),
    Answered(RegId, Answer<'t>),
}

/// A log line: a refusal or an answer, with the place of the element among those of its trace, from 0.
#[derive(Clone, Copy)]
pub struct Line<'t> {
    pub event: u64,
    pub what: What<'t>,
}

/// Why a trace broke: by a fault of its text (E), or because its reading broke off before its end (N).
#[derive(Clone, Copy, Debug)]
pub enum BreakCode {
    /// E1: it ends inside an element or a discard.
    Truncated,
    /// E2: a closing bracket while none is open.
    StrayClose,
    /// E3: a closing bracket that does not fit.
    WrongClose,
    /// E4: something opens while 64 are open.
    TooDeep,
    /// E5: a map closes after an odd number of elements.
    OddMap,
    /// E6: a bracket closes while a tag or discard in it waits for its element.
    TagWithoutElement,
    /// N1: a read call failed.
    ReadFailed,
    /// N2: more than 1,073,741,824 bytes, or more than 16,777,216 read calls.
    TooLong,
}

impl BreakCode {
    /// The code that users see.
    pub fn code(self) -> &'static str
        ensures { result.now ≡ break_code_of self }
    {
        match self {
            BreakCode::Truncated => "E1",
            BreakCode::StrayClose => "E2",
            BreakCode::WrongClose => "E3",
            BreakCode::TooDeep => "E4",
            BreakCode::OddMap => "E5",
            BreakCode::TagWithoutElement => "E6",
            BreakCode::ReadFailed => "N1",
            BreakCode::TooLong => "N2",
        }
    }
}

/// Why a trace broke, and at which byte of it, from 0.
#[derive(Clone, Copy)]
pub struct Broken {
    pub code: BreakCode,
    pub place: u64,
}

/// What is noted of a trace, in the order of its elements, and where it broke, if it did.
#[derive(Drop)]
pub struct Log<'t> {
    pub lines: Vec<Line<'t>>,
    pub broken: Option<Broken>,
}

/// The break of a trace by a fault of its text; none where the fault is that memory was refused.
pub fn broken_by(fault: EdnFault) -> Option<Broken>
    ensures { result ≡ broken_by fault }
{
    let (code, place) = match fault {
        EdnFault::Truncated(place) => (BreakCode::Truncated, place),
        EdnFault::StrayClose(place) => (BreakCode::StrayClose, place),
        EdnFault::WrongClose(place) => (BreakCode::WrongClose, place),
        EdnFault::TooDeep(place) => (BreakCode::TooDeep, place),
        EdnFault::OddMap(place) => (BreakCode::OddMap, place),
        EdnFault::TagWithoutElement(place) => (BreakCode::TagWithoutElement, place),
        EdnFault::Memory(_) => return None,
    };
    Some(Broken {
        code,
        place: place as u64,
    })
}
