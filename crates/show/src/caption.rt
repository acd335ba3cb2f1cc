//! The sentences below a picture.

ghost use Rattle.std.specs.Prelude.{◌≡◌, ◌++◌, OnOk, string_bytes};
ghost use Rattle.show.specs.Caption.{before_text, holds_text, second_letter, side_text, third_letter};

use crate::filled::{Filling, push_filled, push_numbers};
use crate::label::push_value;
use crate::letter::over_letter;
use crate::scene::Scene;
use crate::subject::Subject;
use intervals::{Initial, Kind, Op, Value, is_same_value};
use register_book::{Side, Witness, WritesAround, is_one};
use std::alloc::AllocError;

/// What the zones of a conflict are.
const ZONES: &str =
    "A zone goes from the first end to the last beginning of the operations of a value: forward, it was
there all that time; backward, the other way round, at some moment of it.
";

/// Adds what there is to say of the register, a sentence a line, and its notes.
pub fn push_caption(text: &mut String, subject: &Subject, scene: &Scene) -> Result<(), AllocError> {
    push_verdict(text, subject, scene)?;
    text.push_str(subject.notes)
}

fn push_verdict(text: &mut String, subject: &Subject, scene: &Scene) -> Result<(), AllocError> {
    match &scene.witness {
        Some(witness) => push_fault(text, subject, witness, &scene.around),
        None if scene.all == 0 => text.push_str("No operation stands.\n"),
        None => push_holds(text, subject.kind),
    }
}

/// Adds why a register fails.
fn push_fault(
    text: &mut String,
    subject: &Subject,
    witness: &Witness,
    around: &WritesAround,
) -> Result<(), AllocError> {
    match witness {
        Witness::Wrong(read) => push_wrong(text, subject, read, around),
        Witness::Unwritten(read) => push_unwritten(text, subject.initial, read),
        Witness::Split { first, second } => push_split(text, first, second),
        Witness::Early { read, write } => push_early(text, read, write),
        Witness::Crossing { a, b, c, d } => push_crossing(text, a, b, c, d),
    }
}

fn push_holds(text: &mut String, kind: Kind) -> Result<(), AllocError>
    ensures { OnOk result (string_bytes text.new ≡ string_bytes text.old ++ holds_text kind) }
{
    match kind {
        Kind::Atomic => {
            text.push_str("Each number is a place in an order that explains what was read.\n")
        }
        Kind::Safe | Kind::Regular => text.push_str("Each read returned what it may return.\n"),
    }
}

fn push_wrong(
    text: &mut String,
    subject: &Subject,
    read: &Op,
    around: &WritesAround,
) -> Result<(), AllocError> {
    push_filled(text, "R returned @", &[Filling::Value(read.value())])?;
    push_source(text, subject.initial, read, around)?;
    if subject.kind == Kind::Safe && !around.over.is_empty() {
        return text.push_str(
            "It overlaps a write, so it may return any value of the register's :domain, and this is none.\n",
        );
    }
    push_last(text, subject.initial, &around.last)?;
    push_over(text, &around.over)?;
    text.push_str(".\n")
}

/// The values of the writes that a read overlaps, the first three with their letters.
fn push_over(text: &mut String, over: &[Op]) -> Result<(), AllocError> {
    for number in 0..over.len() {
        let left = over.len() - number;
        match over_letter(number) {
            Some(letter) => push_one_over(text, &over[number], letter.word(), left == 1)?,
            None => {
                return push_numbers(
                    text,
                    ", or what one of @ more wrote that overlap it",
                    &[left as u128],
                );
            }
        }
    }
    Ok(())
}

fn push_one_over(
    text: &mut String,
    write: &Op,
    letter: &str,
    is_last: bool,
) -> Result<(), AllocError> {
    push_filled(
        text,
        "@ @ (@, overlaps it)",
        &[
            Filling::Word(if is_last { " or" } else { "," }),
            Filling::Value(write.value()),
            Filling::Word(letter),
        ],
    )
}

/// The value of the last write before a read, or the value at first.
fn push_last(text: &mut String, initial: Initial, last: &Option<Op>) -> Result<(), AllocError> {
    match (last, initial) {
        (Some(last), _) => push_filled(
            text,
            "It may return @ (W1, the last write before it)",
            &[Filling::Value(last.value())],
        ),
        (None, Initial::Known(value)) => push_filled(
            text,
            "It may return @ (the value at first)",
            &[Filling::Value(value)],
        ),
        (None, Initial::Unknown) => text.push_str("It may return the value at first"),
    }
}

/// Where the value that a read returned came from.
fn push_source(
    text: &mut String,
    initial: Initial,
    read: &Op,
    around: &WritesAround,
) -> Result<(), AllocError> {
    match (&around.source, &around.later) {
        (Some(source), _) => {
            push_id(text, ", which @:@ wrote and ", source)?;
            text.push_str(overwritten_text(&around.last))
        }
        (None, _) if is_at_first(initial, read.value()) => {
            text.push_str(", the value at first, which ")?;
            text.push_str(overwritten_text(&around.last))
        }
        (None, Some(later)) => push_id(
            text,
            ". @:@, which wrote it, began after R ended.\n",
            later,
        ),
        (None, None) => text.push_str(". No write of it stands.\n"),
    }
}

/// The write that came between.
fn overwritten_text(last: &Option<Op>) -> &'static str {
    match last {
        Some(_) => "W1 overwrote before R began.\n",
        None => "another write overwrote before R began.\n",
    }
}

/// Adds words with the id of an operation.
fn push_id(text: &mut String, form: &str, op: &Op) -> Result<(), AllocError> {
    push_numbers(text, form, &[op.id.feeder as u128, op.id.event as u128])
}

fn is_at_first(initial: Initial, value: Value) -> bool {
    match initial {
        Initial::Known(first) => is_same_value(first, value),
        Initial::Unknown => false,
    }
}

fn push_unwritten(text: &mut String, initial: Initial, read: &Op) -> Result<(), AllocError> {
    let returned = Filling::Value(read.value());
    match initial {
        Initial::Known(value) => push_filled(
            text,
            "R returned @. No write of it stands, and at first it held @.\n",
            &[returned, Filling::Value(value)],
        ),
        Initial::Unknown => push_filled(
            text,
            "R returned @. No write of it stands.\n",
            &[returned],
        ),
    }
}

fn push_split(text: &mut String, first: &Op, second: &Op) -> Result<(), AllocError> {
    push_filled(
        text,
        "R1 returned @ and R2 returned @. No write of either stands, and at first there was one value.\n",
        &[
            Filling::Value(first.value()),
            Filling::Value(second.value()),
        ],
    )
}

fn push_early(text: &mut String, read: &Op, write: &Op) -> Result<(), AllocError> {
    push_filled(
        text,
        "R returned @ and ended at @.\nW, the only write of @, began at @.\n",
        &[
            Filling::Value(read.value()),
            Filling::Number(read.end_number() as u128),
            Filling::Value(write.value()),
            Filling::Number(write.begin.0 as u128),
        ],
    )
}

fn push_crossing(
    text: &mut String,
    a: &Side,
    b: &Side,
    c: &Side,
    d: &Side,
) -> Result<(), AllocError> {
    push_before(text, "A", a, second_letter(b, c))?;
    push_written(text, a, d, b)?;
    push_before(text, third_letter(b, c), c, "D")?;
    push_written(text, c, b, d)?;
    text.push_str("Both cannot be: no order explains the reads.\n")?;
    text.push_str(ZONES)
}

fn second_letter(b: &Side, c: &Side) -> &'static str
    ensures { result.now ≡ second_letter b.now c.now }
{
    if is_one(b, c) { "BC" } else { "B" }
}

fn third_letter(b: &Side, c: &Side) -> &'static str
    ensures { result.now ≡ third_letter b.now c.now }
{
    if is_one(b, c) { "BC" } else { "C" }
}

/// One side ended before the other began, or is the value at first.
fn push_before(text: &mut String, before: &str, side: &Side, after: &str) -> Result<(), AllocError>
    ensures { OnOk result (string_bytes text.new ≡ string_bytes text.old ++ before_text before.now side.now after.now) }
{
    match side {
        Side::Op(_) => write!(text, "{before} ended before {after} began, so "),
        Side::Initial => write!(text, "{before} is the value at first, so "),
    }
}

/// What follows for the values: one was written before the other, or was there before it.
fn push_written(
    text: &mut String,
    before: &Side,
    one: &Side,
    other: &Side,
) -> Result<(), AllocError> {
    push_side(text, one)?;
    text.push_str(match before {
        Side::Op(_) => " was written before ",
        Side::Initial => " was there before ",
    })?;
    push_side(text, other)?;
    text.push_str(".\n")
}

/// The value of a side as it is printed.
fn push_side(text: &mut String, side: &Side) -> Result<(), AllocError>
    ensures { OnOk result (string_bytes text.new ≡ string_bytes text.old ++ side_text side.now) }
{
    match side {
        Side::Op(op) => push_value(text, op.value()),
        Side::Initial => text.push_str("the value at first"),
    }
}
