//! A fault, by its word and the ids of the operations that show it.

ghost use Rattle.std.specs.Prelude.{◌≡◌, ◌++◌, OnOk, string_bytes, codes};
ghost use Rattle.phrases.specs.Names.{id_text};
ghost use Rattle.phrases.specs.Fault.{fault_line, fault_text, holder_text};

use crate::names::push_id;
use intervals::{Holder, OpId};
use register_book::Fault;
use std::alloc::AllocError;

/// The line of a fault. Where memory is refused, the text may have got a prefix of it.
pub fn push_fault(text: &mut String, fault: Fault) -> Result<(), AllocError>
    ensures { OnOk result (string_bytes text.new ≡ string_bytes text.old ++ fault_line fault) }
{
    text.push_str("  ")?;
    push_fault_text(text, fault)?;
    text.push_str("\n")
}

/// A fault as it is printed: its word, and the ids of the operations that show it. Where memory is refused, the text
/// may have got a prefix of it.
pub fn push_fault_text(text: &mut String, fault: Fault) -> Result<(), AllocError>
    ensures { OnOk result (string_bytes text.new ≡ string_bytes text.old ++ fault_text fault) }
{
    match fault {
        Fault::Wrong(read) => push_read(text, "wrong ", read),
        Fault::Unwritten(read) => push_read(text, "unwritten ", read),
        Fault::Split { first, second } => push_two(text, "unwritten ", first, " and ", second),
        Fault::Early { read, write } => push_two(text, "early ", read, " before ", write),
        Fault::Crossing { a, b, c, d } => push_conflict(text, a, b, c, d),
    }
}

fn push_read(text: &mut String, word: &str, read: OpId) -> Result<(), AllocError>
    ensures { OnOk result (string_bytes text.new ≡ string_bytes text.old ++ word.now ++ id_text read) }
{
    text.push_str(word)?;
    push_id(text, read)
}

fn push_two(
    text: &mut String,
    word: &str,
    one: OpId,
    between: &str,
    other: OpId,
) -> Result<(), AllocError>
    ensures { OnOk result (string_bytes text.new ≡ string_bytes text.old ++ word.now ++ id_text one ++ between.now ++ id_text other) }
{
    text.push_str(word)?;
    push_id(text, one)?;
    text.push_str(between)?;
    push_id(text, other)
}

fn push_conflict(
    text: &mut String,
    a: Holder,
    b: Holder,
    c: Holder,
    d: Holder,
) -> Result<(), AllocError>
    ensures { OnOk result (string_bytes text.new ≡ string_bytes text.old ++ fault_text (Fault.Crossing a b c d)) }
{
    text.push_str("conflict ")?;
    push_pair(text, a, b)?;
    text.push_str(" ")?;
    push_pair(text, c, d)
}

fn push_pair(text: &mut String, a: Holder, b: Holder) -> Result<(), AllocError>
    ensures { OnOk result (string_bytes text.new ≡ string_bytes text.old ++ holder_text a ++ codes " " ++ holder_text b) }
{
    push_holder(text, a)?;
    text.push_str(" ")?;
    push_holder(text, b)
}

fn push_holder(text: &mut String, holder: Holder) -> Result<(), AllocError>
    ensures { OnOk result (string_bytes text.new ≡ string_bytes text.old ++ holder_text holder) }
{
    match holder {
        Holder::Op(id) => push_id(text, id),
        Holder::Initial => text.push_str("initial"),
    }
}
