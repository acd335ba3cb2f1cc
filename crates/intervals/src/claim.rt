//! What a register claims: its kind, its writers, its initial value and its domain.

ghost use Rattle.std.specs.Prelude.{◌≡◌, Vec, IfOk, option_map};
ghost use Rattle.std.specs.declared.alloc.Global.{Global};
ghost use Rattle.intervals.specs.declared.operation.Value.{Value};
ghost use Rattle.std.specs.List.{list_any};
ghost use Rattle.std.specs.Ordering.{int_eq};
ghost use Rattle.intervals.specs.Operation.{same_value};
ghost use Rattle.intervals.specs.Refusal.{may_write, is_in_domain, is_initial, is_one_writer};
ghost use Rattle.intervals.specs.Terms.{terms_of, writers_of};

use crate::{Memory, OpId, Value, is_same_value};
use std::alloc::Global;

/// What a register claims to be (Lamport 1986).
#[derive(Clone, Copy, Debug, PartialEq, Eq)]
pub enum Kind {
    Safe,
    Regular,
    Atomic,
}

/// The processes that may write a register, by number.
#[derive(Drop)]
pub enum Writers {
    Any,
    Listed(Vec<i64>),
}

/// What a register holds before any write, as far as anybody knows it.
#[derive(Clone, Copy, PartialEq, Eq)]
pub enum Initial {
    Known(Value),
    Unknown,
}

/// A register's claimed kind, its writers, its value before any write, its domain (none: all values), and whether
/// its kind is fixed.
#[derive(Drop)]
pub struct Claim {
    pub kind: Kind,
    pub writers: Writers,
    pub initial: Initial,
    pub domain: Option<Vec<Value>>,
    pub fixed: bool,
}

/// What has a value: a write, or the register before any write.
#[derive(Clone, Copy, Debug, PartialEq, Eq)]
pub enum Holder {
    Op(OpId),
    Initial,
}

impl Writers {
    /// Whether they are a list of exactly one process.
    pub fn is_one(&self) -> bool
        ensures { result ≡ is_one_writer (writers_of self.now) }
    {
        match self {
            Writers::Any => false,
            Writers::Listed(processes) => processes.len() == 1,
        }
    }
}

impl Claim {
    /// A copy of the claim; an error where memory is refused.
    pub fn try_clone(&self, alloc: Global) -> Result<Claim, Memory>
        ensures { IfOk result (λ copy. terms_of copy ≡ terms_of self.now) }
    {
        Ok(Claim {
            kind: self.kind,
            writers: copy_of_writers(alloc, &self.writers)?,
            initial: self.initial,
            domain: copy_of_domain(alloc, &self.domain)?,
            fixed: self.fixed,
        })
    }

    /// Whether the process is a writer of the register.
    pub fn may_write(&self, process: i64) -> bool
        ensures { result ≡ may_write (terms_of self.now).writers process }
    {
        match &self.writers {
            Writers::Any => true,
            Writers::Listed(processes) => is_listed(processes.as_slice(), process),
        }
    }

    /// Whether the initial value is known.
    pub fn has_known_initial(&self) -> bool
        ensures { result ≡ (terms_of self.now).known }
    {
        match self.initial {
            Initial::Known(_) => true,
            Initial::Unknown => false,
        }
    }

    /// The value before any write; nil where nobody knows it.
    pub fn at_first(&self) -> Value
        ensures { result ≡ (terms_of self.now).initial }
    {
        match self.initial {
            Initial::Known(value) => value,
            Initial::Unknown => Value::Nil,
        }
    }

    /// Whether the value is the initial one, and that is known.
    pub fn is_initial(&self, value: Value) -> bool
        ensures { result ≡ is_initial (terms_of self.now) value }
    {
        self.has_known_initial() && is_same_value(self.at_first(), value)
    }

    /// Whether the value is in the domain, or there is no domain.
    pub fn has_in_domain(&self, value: Value) -> bool
        ensures { result ≡ is_in_domain (terms_of self.now).domain value }
    {
        match &self.domain {
            None => true,
            Some(values) => is_among(values.as_slice(), value),
        }
    }
}

fn is_listed(processes: &[i64], process: i64) -> bool
    ensures { result ≡ list_any (λ p. int_eq p process) processes.now }
{
    processes.iter().any(|p| is_process(*p, process))
}

fn is_process(a: i64, b: i64) -> bool
    ensures { result ≡ int_eq a b }
{
    a == b
}

fn is_among(values: &[Value], value: Value) -> bool
    ensures { result ≡ list_any (λ v. same_value v value) values.now }
{
    values.iter().any(|v| is_same_value(*v, value))
}

fn copy_of_writers(alloc: Global, writers: &Writers) -> Result<Writers, Memory>
    ensures { IfOk result (λ copy. writers_of copy ≡ writers_of writers.now) }
{
    match writers {
        Writers::Any => Ok(Writers::Any),
        Writers::Listed(processes) => {
            Ok(Writers::Listed(Vec::from_slice(alloc, processes.as_slice())?))
        }
    }
}

fn copy_of_domain(alloc: Global, domain: &Option<Vec<Value>>) -> Result<Option<Vec<Value>>, Memory>
    ensures { IfOk result (λ copy. option_map (λ (values : Vec Value Global). values.items) copy ≡ option_map (λ (values : Vec Value Global). values.items) domain.now) }
{
    match domain {
        None => Ok(None),
        Some(values) => Ok(Some(Vec::from_slice(alloc, values.as_slice())?)),
    }
}
