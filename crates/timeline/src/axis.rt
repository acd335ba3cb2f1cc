//! The marks of a picture, in the order of their moments, and how many operations are left out between them.

ghost use Rattle.std.specs.Prelude.{◌≡◌, ◌<◌, Contains, IfOk, IfSome, IsSorted, Some, length};
ghost use Rattle.std.specs.List.{slice_get};
ghost use Rattle.std.specs.List.Sorted.{IsNonDecreasingBy};
ghost use Rattle.intervals.specs.declared.operation.Op.{Op as AnOp};
ghost use Rattle.timeline.specs.Axis.{AreMarks, AreSpans, IsSpan, began, begin_mark, end_mark, folded_of, mark_cmp, marks_from};

use intervals::{Moment, Op};
use std::alloc::{AllocError, Global};
use std::unreachable;

/// Where an operation begins or ends. At one moment beginnings come before ends.
#[derive(Clone, Copy, PartialEq, Eq, PartialOrd, Ord)]
pub struct Mark {
    pub moment: Moment,
    pub is_end: bool,
    /// The number of the operation among those that are shown.
    pub op: usize,
}

/// The indices of the marks at which an operation begins and ends; an unfinished one has no end.
#[derive(Clone, Copy)]
pub struct BarSpan {
    pub begin: usize,
    pub end: Option<usize>,
}

/// The marks of the operations in the order of their moments.
pub fn marks(alloc: Global, ops: &[Op]) -> Result<Vec<Mark>, AllocError>
    ensures { IfOk result (λ marks. AreMarks ops.now marks.items) }
{
    let mut marks = unsorted_marks(alloc, ops)?;
    marks.sort_unstable();
    Ok(marks)
}

fn unsorted_marks(alloc: Global, ops: &[Op]) -> Result<Vec<Mark>, AllocError>
    ensures { IfOk result (λ marks. marks.items ≡ marks_from 0 ops.now) }
{
    let mut marks = Vec::new(alloc);
    for number in 0..ops.len() {
        marks.push(begin_mark(number, &ops[number]))?;
        if let Some(end) = ops[number].end {
            marks.push(end_mark(number, end))?;
        }
    }
    Ok(marks)
}

fn begin_mark(number: usize, op: &Op) -> Mark
    ensures { result ≡ begin_mark number op.now }
{
    Mark {
        moment: op.begin,
        is_end: false,
        op: number,
    }
}

fn end_mark(number: usize, end: Moment) -> Mark
    ensures { result ≡ end_mark number end }
{
    Mark {
        moment: end,
        is_end: true,
        op: number,
    }
}

/// The marks at which each operation begins and ends, in the order of the operations.
pub fn spans(alloc: Global, ops: &[Op], marks: &[Mark]) -> Result<Vec<BarSpan>, AllocError>
    requires { AreMarks ops.now marks.now }
    ensures { IfOk result (λ spans. AreSpans ops.now marks.now spans.items) }
{
    let mut spans = Vec::new(alloc);
    for number in 0..ops.len() {
        spans.push(span_at(ops, marks, number))?;
    }
    Ok(spans)
}

fn span_at(ops: &[Op], marks: &[Mark], number: usize) -> BarSpan
    requires marks { AreMarks ops.now marks.now }
    requires within { number < length ops.now }
    ensures { (op : AnOp) → slice_get ops.now number ≡ Some op → IsSpan marks.now number op result }
{
    match ops.get(number) {
        Some(op) => span_of(marks, number, op),
        None => unreachable!(),
    }
}

fn span_of(marks: &[Mark], number: usize, op: &Op) -> BarSpan
    requires sorted { IsSorted mark_cmp marks.now }
    requires begin { Contains marks.now (begin_mark number op.now) }
    requires end { IfSome op.now.end (λ end. Contains marks.now (end_mark number end)) }
    ensures { IsSpan marks.now number op.now result }
{
    BarSpan {
        begin: number_of(marks, begin_mark(number, op)),
        end: match op.end {
            Some(end) => Some(number_of(marks, end_mark(number, end))),
            None => None,
        },
    }
}

/// The index of the mark.
fn number_of(marks: &[Mark], mark: Mark) -> usize
    requires sorted { IsSorted mark_cmp marks.now }
    requires present { Contains marks.now mark }
    ensures { slice_get marks.now result ≡ Some mark }
{
    match marks.binary_search(&mark) {
        Ok(number) => number,
        Err(_) => unreachable!(),
    }
}

/// How many of the operations that are left out began before each mark, without those that began before the mark
/// that precedes it; and last how many are left. `hidden` has their beginnings.
pub fn folded(alloc: Global, marks: &[Mark], hidden: &[Moment]) -> Result<Vec<usize>, AllocError>
    requires { IsNonDecreasingBy (λ moment. moment.0) hidden.now }
    ensures { IfOk result (λ folded. folded.items ≡ folded_of 0 marks.now hidden.now) }
{
    let mut folded = Vec::new(alloc);
    let mut before = 0;
    for mark in marks {
        let began = began(hidden, mark.moment);
        folded.push(began.saturating_sub(before))?;
        before = began;
    }
    folded.push(hidden.len().saturating_sub(before))?;
    Ok(folded)
}

/// How many of the operations that are left out began before the moment.
fn began(hidden: &[Moment], moment: Moment) -> usize
    requires { IsNonDecreasingBy (λ moment. moment.0) hidden.now }
    ensures { result ≡ began hidden.now moment }
{
    hidden.partition_point(|began| began.0 < moment.0)
}
