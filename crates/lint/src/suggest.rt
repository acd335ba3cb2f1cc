//! Words that may have been meant where another one is written.

use crate::message::{field_word, tower_word};
use crate::nearest::{distance, is_close, meant_by};
use crate::snippet::part_of;
use crate::tower::names_in;
use edn_reader::{Element, Field, Reader};
use jepsen_form::{FormFault, FormField};
use logs::Code;
use places::Location;
use std::alloc::{AllocError, Global};
use tower_file::{TowerFault, TowerField};

const ACTIONS: &[&[u8]] = &[b":read", b":write"];

const STAGES: &[&[u8]] = &[b":invoke", b":ok", b":fail", b":info"];

const EDITS: &[&[u8]] = &[b":amend", b":withdraw", b":claim"];

const KINDS: &[&[u8]] = &[b":safe", b":regular", b":atomic"];

const WRITERS: &[&[u8]] = &[b":any"];

const INITIAL: &[&[u8]] = &[b":unknown"];

const FIXED: &[&[u8]] = &[b"true", b"false"];

const NONE: &[&[u8]] = &[];

/// What a refused element may have meant, by its own text and by that of the tower file.
pub fn meant_in_element<'t>(
    alloc: Global,
    text: &[u8],
    code: &Code,
    tower: &'t [u8],
) -> Result<Option<&'t [u8]>, AllocError> {
    let Some(element) = element_in(alloc, text) else {
        return Ok(None);
    };
    match code {
        Code::Form(FormFault::NoRegister) => meant_name(alloc, &element, tower),
        Code::Form(FormFault::BadType) => meant_type(alloc, &element),
        Code::Form(FormFault::UnsupportedF) => meant_under(alloc, &element, b":f", ACTIONS),
        _ => Ok(None),
    }
}

/// What a refused element has where what it lacks is looked for, or what it is to have there; empty where nothing is
/// known.
pub fn instead_in_element(alloc: Global, text: &[u8], code: &Code) -> &'static str {
    let Some(element) = element_in(alloc, text) else {
        return "";
    };
    match code {
        Code::Form(FormFault::MissingField(FormField::Moment)) => other_moment(&element),
        Code::Form(FormFault::NoRegister) => unnamed(&element),
        _ => "",
    }
}

fn unnamed(element: &Element) -> &'static str {
    match name_in(element) {
        Some(_) => "",
        None => ": its value names no register, as [NAME VALUE] does",
    }
}

/// The field of moments that an element has without the one that is read.
fn other_moment(element: &Element) -> &'static str {
    if under(element, b":time").is_some() {
        return ": it has :time; try --moment time";
    }
    if under(element, b":index").is_some() {
        return ": it has :index; try --moment index";
    }
    ""
}

/// The name of a register of the tower that may have been meant by an element.
fn meant_name<'t>(
    alloc: Global,
    element: &Element,
    tower: &'t [u8],
) -> Result<Option<&'t [u8]>, AllocError> {
    match name_in(element) {
        Some(name) => nearest_name(alloc, name, &names_in(alloc, tower)?),
        None => Ok(None),
    }
}

fn meant_type<'t>(alloc: Global, element: &Element) -> Result<Option<&'t [u8]>, AllocError> {
    if let Some(stage) = meant_under(alloc, element, b":type", STAGES)? {
        return Ok(Some(stage));
    }
    if let Some(edit) = meant_under(alloc, element, b":edit", EDITS)? {
        return Ok(Some(edit));
    }
    meant_under(alloc, element, b":kind", KINDS)
}

/// The word that may have been meant by the value of a key.
fn meant_under<'t>(
    alloc: Global,
    element: &Element,
    key: &[u8],
    words: &'static [&'static [u8]],
) -> Result<Option<&'t [u8]>, AllocError> {
    match under(element, key) {
        Some(word) => nearest_word(alloc, word.text(), words),
        None => Ok(None),
    }
}

/// The nearest of words that are always there.
fn nearest_word<'t>(
    alloc: Global,
    word: &[u8],
    words: &'static [&'static [u8]],
) -> Result<Option<&'t [u8]>, AllocError> {
    match nearest(alloc, word, words)? {
        Some(found) => Ok(Some(found)),
        None => Ok(None),
    }
}

/// What may have been meant by the bytes of a tower file that are wrong.
pub fn meant_in_tower<'t>(
    alloc: Global,
    text: &'t [u8],
    fault: TowerFault,
    spot: &Location,
) -> Result<Option<&'t [u8]>, AllocError> {
    let word = part_of(text, spot.start, spot.end);
    match fault {
        TowerFault::Shape(field) => nearest_word(alloc, word, words_for(field)),
        TowerFault::UnknownPart => nearest(alloc, word, &names_in(alloc, text)?),
        _ => Ok(None),
    }
}

/// The words that a field of a tower file may have, where it has words.
fn words_for(field: TowerField) -> &'static [&'static [u8]] {
    match field {
        TowerField::Kind => KINDS,
        TowerField::Writers => WRITERS,
        TowerField::Initial => INITIAL,
        TowerField::Fixed => FIXED,
        _ => NONE,
    }
}

/// The key of a wrong map that may have been meant for the missing field, and that field.
pub fn meant_key<'t>(
    alloc: Global,
    text: &'t [u8],
    fault: TowerFault,
    spot: &Location,
) -> Result<Option<(&'t [u8], &'static str)>, AllocError> {
    let TowerFault::Shape(field) = fault else {
        return Ok(None);
    };
    let Some(element) = element_in(alloc, part_of(text, spot.start, spot.end)) else {
        return Ok(None);
    };
    let Some(mut left) = element.as_map() else {
        return Ok(None);
    };
    let missing = tower_word(field);
    while let Some((key, _)) = left.next_pair() {
        if is_close(alloc, key.text(), missing)? {
            return Ok(Some((key.text(), missing)));
        }
    }
    Ok(None)
}

/// The key of a refused element that may have been meant for the field that it lacks, and that field.
pub fn meant_key_of<'t>(
    alloc: Global,
    text: &'t [u8],
    code: &Code,
) -> Result<Option<(&'t [u8], &'static str)>, AllocError> {
    let (Some(field), Some(element)) = (lacked(code), element_in(alloc, text)) else {
        return Ok(None);
    };
    let Some(map) = element.as_map() else {
        return Ok(None);
    };
    let mut left = map;
    while let Some((key, _)) = left.next_pair() {
        if meant_by(alloc, &key, &map, &[field])?.is_some() {
            return Ok(Some((key.text(), field_word(field))));
        }
    }
    Ok(None)
}

/// The field that an element lacks by its code, where other keys may be near it.
pub fn lacked(code: &Code) -> Option<FormField> {
    match code {
        Code::Form(
            FormFault::MissingField(
                field @ (FormField::Process | FormField::Stage | FormField::Value),
            ),
        ) => Some(*field),
        _ => None,
    }
}

/// The first element of a text.
pub fn element_in<'t>(alloc: Global, text: &'t [u8]) -> Option<Element<'t>> {
    match Reader::new(alloc, text).next() {
        Ok(element) => element,
        Err(_) => None,
    }
}

/// The name of a register that an element gives.
fn name_in<'t>(element: &Element<'t>) -> Option<&'t [u8]> {
    if let Some(name) = under(element, b":ask") {
        return Some(name.untagged().text());
    }
    if let Some(name) = under(element, b":register") {
        return Some(name.untagged().text());
    }
    let Some(mut members) = under(element, b":value")?.as_vector() else {
        return None;
    };
    match members.next() {
        Some(name) => Some(name.untagged().text()),
        None => None,
    }
}

/// The value of a key that a map has once.
pub fn under<'t>(element: &Element<'t>, key: &[u8]) -> Option<Element<'t>> {
    match element.as_map()?.field(key) {
        Field::Once(value) => Some(value),
        Field::Absent | Field::Twice => None,
    }
}

/// The name that is this one without its quotes or its colon, or else the nearest one.
fn nearest_name<'t>(
    alloc: Global,
    name: &[u8],
    names: &[&'t [u8]],
) -> Result<Option<&'t [u8]>, AllocError> {
    if let Some(inner) = plain(name) {
        for other in names {
            if *other == inner {
                return Ok(Some(*other));
            }
        }
    }
    nearest(alloc, name, names)
}

/// What is between the quotes of a string, or after the colon of a keyword.
fn plain(name: &[u8]) -> Option<&[u8]> {
    if let Some(word) = name.strip_prefix(b":") {
        return Some(word);
    }
    name.strip_prefix(b"\"")?.strip_suffix(b"\"")
}

/// The nearest of the words that are one or two edits away, unless all of its letters have to be changed.
fn nearest<'t>(
    alloc: Global,
    word: &[u8],
    words: &[&'t [u8]],
) -> Result<Option<&'t [u8]>, AllocError> {
    let mut found = None;
    let mut least = 3;
    for other in words {
        let far = distance(alloc, word, other)?;
        if far > 0 && far < least && far < other.len() {
            least = far;
            found = Some(*other);
        }
    }
    Ok(found)
}
