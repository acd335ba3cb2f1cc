//! What the failures of registers rest on, among the elements that were left out.

use crate::finding::Note;
use intervals::{OpId, RegId};
use pairing::About;
use register_book::Witness;
use report::{rests_on, would_write};
use shards::Closed;
use std::alloc::{AllocError, Global};
use tower_file::Tower;

/// What shows that each register fails, by number; none where it holds.
#[derive(Drop)]
pub struct Suspects<'t> {
    witnesses: Vec<Option<Witness<'t>>>,
}

impl<'t> Suspects<'t> {
    pub fn of(
        alloc: Global,
        tower: &Tower,
        closed: &Closed<'t>,
    ) -> Result<Suspects<'t>, AllocError> {
        let mut witnesses = Vec::new(alloc);
        for number in 0..tower.len() {
            let witness = match closed.book(RegId(number as u32)) {
                Some(book) => book.witness(),
                None => None,
            };
            witnesses.push(witness)?;
        }
        Ok(Suspects { witnesses })
    }

    /// The note on an element that was left out, where the failure of its register rests on it. An edit is one that has
    /// the field `:edit`.
    pub fn note_of(&self, about: &About, is_edit: bool) -> Option<Note> {
        let register = about.register?;
        let slot = self.witnesses.get(register.0 as usize)?;
        if !rests_on(slot, about) {
            return None;
        }
        match slot {
            Some(witness) => note_beside(witness, about, is_edit),
            None => None,
        }
    }
}

/// The note on an element on which this failure rests, with the operation that it touches, a read before a write, or
/// else with the first one that shows the failure.
fn note_beside(witness: &Witness, about: &About, is_edit: bool) -> Option<Note> {
    let mut first = None;
    let mut write = None;
    for slot in &witness.roles() {
        if let Some(one) = slot {
            if about.operation == Some(one.op.id) {
                return Some(note_on(one.op.id, is_edit));
            }
            if would_write(one.op.value(), about.written) {
                if !one.op.is_write() {
                    return Some(Note::Rests(one.op.id));
                }
                write = Some(one.op.id);
            }
            if first.is_none() {
                first = Some(one.op.id);
            }
        }
    }
    match write {
        Some(id) => Some(Note::Rests(id)),
        None => Some(note_by_first(first?, about)),
    }
}

fn note_on(id: OpId, is_edit: bool) -> Note {
    if is_edit {
        Note::RestsOnEdit(id)
    } else {
        Note::RestsOnAnswer(id)
    }
}

fn note_by_first(first: OpId, about: &About) -> Note {
    if about.claims {
        Note::RestsOnEdit(first)
    } else {
        Note::RestsOnUnread(first)
    }
}
