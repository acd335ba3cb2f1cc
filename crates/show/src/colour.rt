//! The colours of operations, by what they are to the reason why a register fails.

use crate::letter::{Letter, letter_for};
use crate::scene::Scene;
use intervals::{Op, Value, is_same_value, overlaps};
use register_book::{Role, Side, Witness, WritesAround};

/// The colour of an operation.
#[derive(Clone, Copy)]
pub enum Colour {
    /// Of the first value of a conflict; a write whose value a wrong read may return; the write that a read came too
    /// early for; the first of two reads that cannot both be right.
    One,
    /// Of the second value of a conflict; the second of two reads that cannot both be right.
    Two,
    /// A read that returned what it may not, and the other writes of what it returned.
    Wrong,
    Plain,
}

impl Colour {
    /// The class of what is drawn in this colour.
    pub fn word(self) -> &'static str {
        match self {
            Colour::One => "one",
            Colour::Two => "two",
            Colour::Wrong => "wrong",
            Colour::Plain => "plain",
        }
    }
}

/// The colour of an operation that is shown.
pub fn colour_of(scene: &Scene, op: &Op) -> Colour {
    match &scene.witness {
        Some(Witness::Wrong(read)) => colour_around(read, &scene.around, op),
        Some(Witness::Crossing { .. }) => colour_of_value(&scene.witness, op.value()),
        _ => match letter_for(&scene.letters, op.id) {
            Some(Letter::OfRole(role)) => colour_in(role),
            _ => Colour::Plain,
        },
    }
}

/// The colour of the operations of a value: that of its side of a conflict.
pub fn colour_of_value(witness: &Option<Witness>, value: Value) -> Colour {
    match witness {
        Some(Witness::Crossing { d, .. }) if is_of_side(value, d) => Colour::One,
        Some(Witness::Crossing { b, .. }) if is_of_side(value, b) => Colour::Two,
        _ => Colour::Plain,
    }
}

fn colour_in(role: Role) -> Colour {
    match role {
        Role::Read | Role::EarlyRead => Colour::Wrong,
        Role::FirstRead | Role::LateWrite | Role::A | Role::D => Colour::One,
        Role::SecondRead | Role::B | Role::C | Role::Bc => Colour::Two,
    }
}

/// The colour of an operation beside a wrong read.
fn colour_around(read: &Op, around: &WritesAround, op: &Op) -> Colour {
    if op.has_id(read.id) {
        return Colour::Wrong;
    }
    if !op.is_write() {
        return Colour::Plain;
    }
    if is_that(&around.last, op) || overlaps(op, read) {
        return Colour::One;
    }
    if is_same_value(op.value(), read.value()) {
        Colour::Wrong
    } else {
        Colour::Plain
    }
}

fn is_that(found: &Option<Op>, op: &Op) -> bool {
    match found {
        Some(found) => op.has_id(found.id),
        None => false,
    }
}

/// Whether a side is an operation of a value.
fn is_of_side(value: Value, side: &Side) -> bool {
    match side {
        Side::Op(op) => is_same_value(value, op.value()),
        Side::Initial => false,
    }
}

static CONFLICT: [Colour; 2] = [Colour::One, Colour::Two];

static READ: [Colour; 2] = [Colour::Wrong, Colour::One];

static NONE: [Colour; 0] = [];

/// The colours of what the lines of a caption are about, from the first line on.
pub fn caption_colours(witness: &Option<Witness>) -> &'static [Colour] {
    match witness {
        Some(Witness::Crossing { .. }) => CONFLICT.as_slice(),
        None | Some(Witness::Split { .. }) => NONE.as_slice(),
        Some(_) => READ.as_slice(),
    }
}
