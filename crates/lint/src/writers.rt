//! Where a tower file says who may write a register.

use crate::suggest::{element_in, under};
use crate::tower::members_of;
use edn_reader::Element;
use places::{Cursor, Location, spot_in};
use std::alloc::Global;

/// The writers of the register to which an element writes, by the element's text and that of the tower file; none where
/// that is no tower file.
pub fn writers_in(alloc: Global, tower: &[u8], element: &[u8]) -> Option<Location> {
    let (element, file) = (element_in(alloc, element)?, element_in(alloc, tower)?);
    let writers = writers_of(&file, named_in(&element))?;
    Some(spot_in(&mut Cursor::new(tower), &writers))
}

/// The name in the pair that is the value of an element, if it is one.
fn named_in<'t>(element: &Element<'t>) -> Option<&'t [u8]> {
    let mut members = under(element, b":value")?.as_vector()?;
    Some(members.next()?.untagged().text())
}

fn writers_of<'t>(file: &Element<'t>, name: Option<&[u8]>) -> Option<Element<'t>> {
    let mut levels = members_of(file, b":levels")?;
    while let Some(level) = levels.next() {
        if let Some(writers) = writers_on(&level, name) {
            return Some(writers);
        }
    }
    None
}

fn writers_on<'t>(level: &Element<'t>, name: Option<&[u8]>) -> Option<Element<'t>> {
    let mut registers = members_of(level, b":registers")?;
    while let Some(register) = registers.next() {
        if is_named(&register, name) {
            return under(&register, b":writers");
        }
    }
    None
}

/// Whether it is the register of this name. Where none is given the tower has one register alone.
fn is_named(register: &Element, name: Option<&[u8]>) -> bool {
    let Some(name) = name else {
        return true;
    };
    match under(register, b":name") {
        Some(own) => own.untagged().text() == name,
        None => false,
    }
}
