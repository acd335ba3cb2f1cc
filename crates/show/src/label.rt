//! The labels of bars.

ghost use Rattle.std.specs.Prelude.{◌≡◌, ◌++◌, OnOk, string_bytes};
ghost use Rattle.show.specs.Label.{act_text, head_for, label_head_text, label_text, read_text, value_text};

use crate::letter::Letter;
use intervals::{Moment, Op, Value};
use std::alloc::AllocError;

/// What a label begins with: what the operation is to the reason why its register fails, or its place in an order that
/// explains the reads.
#[derive(Clone, Copy)]
pub enum Head {
    Letter(Letter),
    Rank(usize),
}

/// The letter, where there is one, else the rank.
pub fn head_of(letter: Option<Letter>, rank: Option<usize>) -> Option<Head>
    ensures { result ≡ head_for letter rank }
{
    match (letter, rank) {
        (Some(letter), _) => Some(Head::Letter(letter)),
        (None, Some(rank)) => Some(Head::Rank(rank)),
        (None, None) => None,
    }
}

/// Adds a label: its head, `w` or `r`, and the value; `?` where a read has no answer.
pub fn push_label(text: &mut String, head: Option<Head>, op: &Op) -> Result<(), AllocError>
    ensures { OnOk result (string_bytes text.new ≡ string_bytes text.old ++ label_text head op.now) }
{
    push_head(text, head)?;
    push_act(text, op)
}

fn push_head(text: &mut String, head: Option<Head>) -> Result<(), AllocError>
    ensures { OnOk result (string_bytes text.new ≡ string_bytes text.old ++ label_head_text head) }
{
    match head {
        Some(Head::Letter(letter)) => {
            text.push_str(letter.word())?;
            text.push_str(" ")
        }
        Some(Head::Rank(rank)) => write!(text, "{rank} "),
        None => Ok(()),
    }
}

fn push_act(text: &mut String, op: &Op) -> Result<(), AllocError>
    ensures { OnOk result (string_bytes text.new ≡ string_bytes text.old ++ act_text op.now) }
{
    if op.is_write() {
        text.push_str("w ")?;
        push_value(text, op.value())
    } else {
        text.push_str("r ")?;
        push_read(text, op.end, op.value())
    }
}

fn push_read(text: &mut String, end: Option<Moment>, value: Value) -> Result<(), AllocError>
    ensures { OnOk result (string_bytes text.new ≡ string_bytes text.old ++ read_text end value) }
{
    match end {
        Some(_) => push_value(text, value),
        None => text.push_str("?"),
    }
}

/// A value as it is printed.
pub fn push_value(text: &mut String, value: Value) -> Result<(), AllocError>
    ensures { OnOk result (string_bytes text.new ≡ string_bytes text.old ++ value_text value) }
{
    match value {
        Value::Nil => text.push_str("nil"),
        Value::Int(number) => write!(text, "{number}"),
    }
}
