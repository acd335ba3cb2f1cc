//! Names of fields that are near others.

use crate::message::field_word;
use edn_reader::{Element, Field, MapView};
use jepsen_form::FormField;
use std::alloc::{AllocError, Global};
use std::str::from_utf8;
use strsim::osa_distance;

/// The fields that are read of some element.
const READ: &[&str] = &[
    ":process",
    ":type",
    ":f",
    ":value",
    ":index",
    ":time",
    ":edit",
    ":of",
    ":begin",
    ":end",
    ":ask",
    ":register",
    ":kind",
];

/// The one of these fields that is absent from the map and for which a key that is not read may have been meant: its
/// name is one or two edits away.
pub fn meant_by(
    alloc: Global,
    key: &Element,
    map: &MapView,
    fields: &[FormField],
) -> Result<Option<FormField>, AllocError> {
    let Some(word) = key.as_keyword() else {
        return Ok(None);
    };
    if is_read(word) {
        return Ok(None);
    }
    for field in fields {
        if is_near(alloc, word, field_word(*field), map)? {
            return Ok(Some(*field));
        }
    }
    Ok(None)
}

/// Whether a field of this name is read of some element.
fn is_read(word: &[u8]) -> bool {
    for name in READ {
        if name.as_bytes() == word {
            return true;
        }
    }
    false
}

/// Whether the map has no field of this name, and the word is one or two edits away from it.
pub fn is_near(alloc: Global, word: &[u8], name: &str, map: &MapView) -> Result<bool, AllocError> {
    if !is_absent(&map.field(name.as_bytes())) {
        return Ok(false);
    }
    is_close(alloc, word, name)
}

/// Whether the word is one or two edits away from a name.
pub fn is_close(alloc: Global, word: &[u8], name: &str) -> Result<bool, AllocError> {
    Ok(distance(alloc, word, name.as_bytes())? <= 2)
}

pub fn is_absent(field: &Field) -> bool {
    match field {
        Field::Absent => true,
        Field::Once(_) | Field::Twice => false,
    }
}

/// How many letters have to be changed, added, left out or exchanged; 3 where the lengths differ by more than 2.
pub fn distance(alloc: Global, word: &[u8], name: &[u8]) -> Result<usize, AllocError> {
    if word.len().abs_diff(name.len()) > 2 {
        return Ok(3);
    }
    match (from_utf8(word), from_utf8(name)) {
        (Ok(word), Ok(name)) => osa_distance(alloc, word, name),
        _ => Ok(3),
    }
}
