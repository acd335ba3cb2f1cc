//! The elements that were left out with a refused invocation, since the operation that they answer or edit does not
//! stand for it.

ghost use Rattle.std.specs.Prelude.{◌≡◌, ◌<◌, ◌++◌, ◌∷◌, [], List, All, IfOk, OnOk, false, get_or, length, option_and_then};
ghost use Rattle.std.specs.List.{flat_map};
ghost use Rattle.logs.specs.declared.log.Line.{Line as ALine};
ghost use Rattle.report.specs.Refused.{is_refused_line};
ghost use Rattle.lint.specs.LeftWith.{if_refused, left_with_line, missing_of};
ghost use Rattle.lint.specs.Marked.{AreMarked};

use intervals::Refusal;
use logs::{Code, LeftOut, Line, What};
use std::alloc::{AllocError, Global};

/// For each refusal of these lines, the invocation with which the element was left out. The lines are of the first
/// `many` elements.
pub fn left_with_each(
    alloc: Global,
    lines: &[Line],
    many: usize,
) -> Result<Vec<Option<u64>>, AllocError>
    requires named { All (λ line. line.event < many) lines.now }
    ensures { IfOk result (λ each. each.items ≡ flat_map (left_with_line lines.now) lines.now) }
{
    let marks = marks_of(alloc, lines, many)?;
    let mut each = Vec::new(alloc);
    for line in lines {
        push_left_with(&mut each, marks.as_slice(), line)?;
    }
    Ok(each)
}

/// Adds of a refusal the invocation with which the element was left out, if it was left out with one.
fn push_left_with(
    each: &mut Vec<Option<u64>>,
    marks: &[bool],
    line: &Line,
) -> Result<(), AllocError>
    ensures { OnOk result ((lines : List ALine) → AreMarked marks.now lines → each.new.items ≡ each.old.items ++ left_with_line lines line.now) }
{
    if let What::Refused(left_out) = &line.what {
        each.push(if_marked(marks, missing_of(left_out)))?;
    }
    Ok(())
}

/// The number, where the element of it is marked.
fn if_marked(marks: &[bool], missing: Option<u64>) -> Option<u64>
    ensures { (lines : List ALine) → AreMarked marks.now lines → result ≡ option_and_then (if_refused lines) missing }
{
    match missing {
        Some(number) if is_marked(marks, number) => Some(number),
        _ => None,
    }
}

fn is_marked(marks: &[bool], number: u64) -> bool
    ensures { result ≡ get_or marks.now number false }
{
    match marks.get(number as usize) {
        Some(mark) => *mark,
        None => false,
    }
}

/// The place of the operation that an element answers or edits, and that does not stand.
fn missing_of(left_out: &LeftOut) -> Option<u64>
    ensures { result ≡ missing_of left_out.now }
{
    match (left_out.code, left_out.about.operation) {
        (Code::Register(Refusal::UnknownOp), Some(operation)) => Some(operation.event),
        _ => None,
    }
}

/// For each element, whether a line refuses it.
fn marks_of(alloc: Global, lines: &[Line], many: usize) -> Result<Vec<bool>, AllocError>
    requires named { All (λ line. line.event < many) lines.now }
    ensures { IfOk result (λ marks. AreMarked marks.items lines.now) }
{
    let mut marks = Vec::new(alloc);
    marks.resize(many, false)?;
    for line in lines {
        mark(&mut marks, line);
    }
    Ok(marks)
}

/// Marks the element of a line, if the line refuses it.
fn mark(marks: &mut Vec<bool>, line: &Line)
    requires within { line.now.event < length marks.old.items }
    ensures many { length marks.new.items ≡ length marks.old.items }
    ensures marked { (lines : List ALine) → AreMarked marks.old.items lines → AreMarked marks.new.items (lines ++ line.now ∷ []) }
{
    if is_refused(line) {
        marks[line.event as usize] = true;
    }
}

fn is_refused(line: &Line) -> bool
    ensures { result ≡ is_refused_line line.now }
{
    match line.what {
        What::Refused(_) => true,
        What::Answered(..) => false,
    }
}
