//! Operations: ids, moments, values and texts; which of two precedes the other, and whether they overlap.

ghost use Rattle.std.specs.Prelude.{◌≡◌, ◌↔◌, IsTrue};
ghost use Rattle.intervals.specs.Operation.{Precedes, Overlaps, is_write, is_judged_read, same_id, same_value, value_of, precedes, overlaps};
ghost use Rattle.intervals.specs.Judging.{end_number};

use std::alloc::{AllocError, AllocFailed};
use thiserror::Error;

/// Out of memory: an allocation was refused.
#[derive(Clone, Copy, Debug, PartialEq, Eq, Error)]
#[error("out of memory")]
pub struct Memory;

impl From<AllocError> for Memory {
    fn from(_e: AllocError) -> Memory {
        Memory
    }
}

impl<T: Drop> From<AllocFailed<T>> for Memory {
    fn from(_e: AllocFailed<T>) -> Memory {
        Memory
    }
}

/// A point of the one clock that all operations are timed by.
#[derive(Clone, Copy, Debug, PartialEq, Eq, PartialOrd, Ord, Hash)]
pub struct Moment(pub u64);

/// What a register holds: nil, or an integer.
#[derive(Clone, Copy, PartialEq, Eq, PartialOrd, Ord)]
pub enum Value {
    Nil,
    Int(i64),
}

/// A register's number in its tower, from 0 in file order.
#[derive(Clone, Copy, PartialEq, Eq)]
pub struct RegId(pub u32);

/// An operation's id: its trace, and the place of its invocation there, both counted from 0.
#[derive(Clone, Copy, Debug, PartialEq, Eq, PartialOrd, Ord, Hash)]
pub struct OpId {
    pub feeder: u32,
    pub event: u64,
}

/// What an operation does. A read that has not been answered carries `Nil`.
#[derive(Clone, Copy, PartialEq, Eq)]
pub enum Act {
    Read(Value),
    Write(Value),
}

/// The elements of the trace that an operation was read from, as text, tags included.
#[derive(Clone, Copy)]
pub struct OpParts<'t> {
    pub invocation: &'t [u8],
    pub answer: Option<&'t [u8]>,
    pub amendment: Option<&'t [u8]>,
}

/// A read or a write of one register: an interval of the clock. Without an end it is unfinished.
#[derive(Clone, Copy)]
pub struct Op<'t> {
    pub id: OpId,
    pub process: i64,
    pub act: Act,
    pub begin: Moment,
    pub end: Option<Moment>,
    pub parts: OpParts<'t>,
}

impl Op<'_> {
    /// Whether the operation has that id.
    pub fn has_id(&self, id: OpId) -> bool
        ensures { result ≡ same_id self.now.id id }
    {
        self.id == id
    }

    /// Whether the operation is a write.
    pub fn is_write(&self) -> bool
        ensures { result ≡ is_write self.now }
    {
        match self.act {
            Act::Write(_) => true,
            Act::Read(_) => false,
        }
    }

    /// The value that is read or written.
    pub fn value(&self) -> Value
        ensures { result ≡ value_of self.now.act }
    {
        match self.act {
            Act::Write(value) => value,
            Act::Read(value) => value,
        }
    }

    /// Whether the operation is a read that has an end: such a read alone is judged.
    pub fn is_judged_read(&self) -> bool
        ensures { result ≡ is_judged_read self.now }
    {
        !self.is_write() && self.end.is_some()
    }

    /// The number of the moment at which the operation ended, 0 where it has no end.
    pub fn end_number(&self) -> u64
        ensures { result ≡ end_number self.now }
    {
        match self.end {
            Some(end) => end.0,
            None => 0,
        }
    }
}

/// Whether two values are equal.
pub fn is_same_value(a: Value, b: Value) -> bool
    ensures { result ≡ same_value a b }
{
    a == b
}

/// Whether the first operation ended before the second began.
pub fn precedes(a: &Op, b: &Op) -> bool
    ensures precedes { IsTrue result ↔ Precedes a.now b.now }
    ensures test { result ≡ precedes a.now b.now }
{
    match a.end {
        Some(end) => end.0 < b.begin.0,
        None => false,
    }
}

/// Whether neither operation ended before the other began.
pub fn overlaps(a: &Op, b: &Op) -> bool
    ensures overlaps { IsTrue result ↔ Overlaps a.now b.now }
    ensures test { result ≡ overlaps a.now b.now }
{
    !precedes(a, b) && !precedes(b, a)
}
