//! The first line of a picture.

use crate::scene::Scene;
use crate::subject::Subject;
use phrases::{kind_word, push_fault_text, push_printed};
use register_book::Witness;
use std::alloc::{AllocError, Global};

/// What the heading of a register in doubt ends with.
const IN_DOUBT: &str = "; in doubt, since elements were left out";

/// Adds the register, its kind, why it fails or that it holds, and how many of its operations are shown.
pub fn push_title(
    text: &mut String,
    alloc: Global,
    subject: &Subject,
    scene: &Scene,
    is_ascii: bool,
) -> Result<(), AllocError> {
    text.push_str("register ")?;
    if is_ascii {
        push_ascii(text, alloc, subject.name)?;
    } else {
        push_printed(text, subject.name)?;
    }
    write!(text, "  {}  ", kind_word(subject.kind))?;
    push_verdict(text, subject)?;
    write!(
        text,
        "   {} of {} operations, by order of moments\n",
        scene.ops.len(),
        scene.all
    )
}

/// Adds a name as it is printed, with `?` for each character past U+007E.
fn push_ascii(text: &mut String, alloc: Global, name: &[u8]) -> Result<(), AllocError> {
    let mut printed = String::new(alloc);
    push_printed(&mut printed, name)?;
    for character in printed.chars() {
        text.push(if character > '~' { '?' } else { character })?;
    }
    Ok(())
}

/// Adds that the register holds, or its fault.
fn push_verdict(text: &mut String, subject: &Subject) -> Result<(), AllocError> {
    match &subject.witness {
        Some(witness) => {
            text.push_str(if subject.in_doubt {
                "fails, in doubt: "
            } else {
                "fails: "
            })?;
            push_fault_text(text, witness.ids())
        }
        None => text.push_str("holds"),
    }
}

/// The register and why it fails, in words.
pub fn heading_of(alloc: Global, subject: &Subject) -> Result<String, AllocError> {
    let mut heading = String::new(alloc);
    push_heading(&mut heading, subject)?;
    Ok(heading)
}

fn push_heading(text: &mut String, subject: &Subject) -> Result<(), AllocError> {
    text.push_str(kind_word(subject.kind))?;
    text.push_str(" register ")?;
    push_printed(text, subject.name)?;
    text.push_str(match &subject.witness {
        Some(witness) => reason_for(witness),
        None => " holds",
    })?;
    text.push_str(if subject.in_doubt { IN_DOUBT } else { "" })
}

fn reason_for(witness: &Witness) -> &'static str {
    match witness {
        Witness::Wrong(_) => " fails: a read returned what it may not",
        Witness::Unwritten(_) => " fails: a read returned what nothing wrote",
        Witness::Split { .. } => " fails: two reads returned values that nothing wrote",
        Witness::Early { .. } => " fails: a read returned what was not yet written",
        Witness::Crossing { .. } => " fails: no order explains its reads",
    }
}
