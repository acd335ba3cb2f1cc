//! What people read in the block of another finding, and not in one of its own: an element that was left out with a
//! refused invocation is in the block of that invocation, and a key that may be meant for the field that a refused
//! element lacks in the block of that element.

use crate::finding::{Amiss, Findings, Note, Problem, TraceFindings};
use crate::message::field_word;
use crate::suggest::lacked;
use jepsen_form::FormField;
use std::alloc::{AllocError, Global};
use std::collections::BTreeMap;

/// What was left out with an invocation: the line of its answer, how many edits of it, and the line of the last.
#[derive(Clone, Copy)]
pub struct LeftWith {
    answer: Option<usize>,
    edits: usize,
    last: usize,
}

/// What of one trace is in other blocks.
#[derive(Drop)]
pub struct Together {
    /// What was left out with each invocation.
    left: BTreeMap<u64, LeftWith>,
    /// For each note, whether it is in another block.
    notes: Vec<bool>,
}

/// What of each trace is in other blocks.
pub fn together_in(alloc: Global, found: &Findings) -> Result<Vec<Together>, AllocError> {
    let mut together = Vec::new(alloc);
    for trace in &found.traces {
        together.push(Together::of(alloc, trace)?)?;
    }
    Ok(together)
}

impl Together {
    fn of(alloc: Global, found: &TraceFindings) -> Result<Together, AllocError> {
        let mut together = Together {
            left: BTreeMap::new(alloc),
            notes: notes_in(alloc, found)?,
        };
        for at in 0..found.findings.len() {
            if let Some(invocation) = invocation_with(found, at) {
                together.leave_out(found, invocation, &found.findings[at])?;
            }
        }
        Ok(together)
    }

    /// Adds an element that was left out with this invocation.
    fn leave_out(
        &mut self,
        found: &TraceFindings,
        invocation: u64,
        finding: &Problem,
    ) -> Result<(), AllocError> {
        let mut left = self.left_with(invocation).unwrap_or(LeftWith::none());
        left.add(finding.spot.place.line, is_answer(found, finding));
        self.left.insert(invocation, left)?;
        Ok(())
    }

    /// What was left out with the element of this number.
    pub fn left_with(&self, event: u64) -> Option<LeftWith> {
        self.left.get(&event).copied()
    }

    fn has_note(&self, at: usize) -> bool {
        match self.notes.get(at) {
            Some(is_said) => *is_said,
            None => false,
        }
    }
}

/// Whether the note of a trace at this place is in the block of a refusal.
pub fn is_in_block(together: &[Together], trace: usize, at: usize) -> bool {
    match together.get(trace) {
        Some(together) => together.has_note(at),
        None => false,
    }
}

/// For each note of a trace, whether it is in another block.
fn notes_in(alloc: Global, found: &TraceFindings) -> Result<Vec<bool>, AllocError> {
    let mut lacking = lacking_in(alloc, found)?;
    let mut notes = Vec::new(alloc);
    for note in &found.notes {
        notes.push(is_said(&mut lacking, note))?;
    }
    Ok(notes)
}

/// The field that each element lacks, where it is refused for that and other keys may be near it.
fn lacking_in(
    alloc: Global,
    found: &TraceFindings,
) -> Result<BTreeMap<u64, FormField>, AllocError> {
    let mut lacking = BTreeMap::new(alloc);
    for finding in &found.findings {
        if let Amiss::Refused(event, code) = &finding.what {
            if let Some(field) = lacked(code) {
                lacking.insert(*event, field)?;
            }
        }
    }
    Ok(lacking)
}

/// Whether the block of a refused element has this note: it is the first of the key that may be meant for what the
/// element lacks.
fn is_said(lacking: &mut BTreeMap<u64, FormField>, note: &Problem) -> bool {
    let Amiss::Noted(Some(event), Note::NearField(field)) = &note.what else {
        return false;
    };
    let Some(lacked) = lacking.get(event).copied() else {
        return false;
    };
    if field_word(lacked) != field_word(*field) {
        return false;
    }
    let _ = lacking.remove(event);
    true
}

/// The invocation with which the element of this finding was left out, in whose block it is then.
pub fn invocation_with(found: &TraceFindings, at: usize) -> Option<u64> {
    *found.left_with.get(at)?
}

/// Whether the refused element answers an operation: its process waited for an answer then. Else it edits one.
fn is_answer(found: &TraceFindings, finding: &Problem) -> bool {
    let Amiss::Refused(event, _) = &finding.what else {
        return false;
    };
    match found.waiting.get(*event as usize) {
        Some(waiting) => waiting.is_some(),
        None => false,
    }
}

impl LeftWith {
    fn none() -> LeftWith {
        LeftWith {
            answer: None,
            edits: 0,
            last: 0,
        }
    }

    /// Adds an answer on this line, or an edit.
    fn add(&mut self, line: usize, is_answer: bool) {
        if is_answer {
            self.answer = Some(line);
        } else {
            self.edits = self.edits.saturating_add(1);
            self.last = line;
        }
    }

    /// Adds the words for it, behind the mark of the invocation.
    pub fn push(&self, text: &mut String) -> Result<(), AllocError> {
        text.push_str(", and with it its ")?;
        if let Some(line) = self.answer {
            write!(text, "answer at line {line}")?;
            if self.edits > 0 {
                text.push_str(" and its ")?;
            }
        }
        self.push_edits(text)?;
        text.push_str(" (X1)")
    }

    fn push_edits(&self, text: &mut String) -> Result<(), AllocError> {
        let (many, line) = (self.edits, self.last);
        match many {
            0 => Ok(()),
            1 => write!(text, "edit at line {line}"),
            _ => write!(text, "{many} edits, the last at line {line}"),
        }
    }
}
