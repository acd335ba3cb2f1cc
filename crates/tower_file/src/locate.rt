//! Finds what of a map or of a register a fault is about.

ghost use Rattle.std.specs.Prelude.{◌≡◌, List};
ghost use Rattle.edn_reader.specs.Grammar.{ElementModel};
ghost use Rattle.edn_reader.specs.Lent.{piece_of, PairsLeft, MembersLeft};
ghost use Rattle.tower_file.specs.Located.{at_key, pairs_under, key_of, key_of_field, is_wrong, is_misformed, first_wrong_element, IsInValue, IsInRegister};
ghost use Rattle.tower_file.specs.Stated.{NextUnder};

use crate::element::{process_of, value_of};
use crate::fault::{TowerFault, TowerField};
use crate::place::part_of;
use crate::registers::Registers;
use edn_reader::{Element, Field, MapView, VectorView};

/// The next pair under a key. What comes after it is then left in the view.
fn next_under<'t>(view: &mut MapView<'t>, key: &[u8]) -> Option<(Element<'t>, Element<'t>)>
    ensures { (pairs : List (ElementModel × ElementModel)) → PairsLeft view.old pairs → NextUnder key.now result view.new pairs }
{
    while let Some((name, value)) = view.next_pair() {
        if name.is_keyword(key) {
            return Some((name, value));
        }
    }
    None
}

/// The value where a key is there once, the second key where it is there again, and the whole map where it is
/// missing.
pub fn at_key<'t>(whole: &Element<'t>, map: &MapView<'t>, key: &[u8]) -> Element<'t>
    ensures { (pairs : List (ElementModel × ElementModel)) → PairsLeft map.now pairs → piece_of result ≡ at_key (piece_of whole.now) (pairs_under key.now pairs) }
{
    let mut view = *map;
    let Some((_, value)) = next_under(&mut view, key) else {
        return *whole;
    };
    match next_under(&mut view, key) {
        Some((name, _)) => name,
        None => value,
    }
}

/// What of a register a fault is about.
pub fn in_register<'t>(
    element: &Element<'t>,
    fault: TowerFault,
    first: usize,
    registers: &Registers,
) -> Element<'t>
    ensures { IsInRegister first registers.now fault (piece_of element.now) (piece_of result) }
{
    let Some(map) = element.as_map() else {
        return *element;
    };
    let key = key_of(fault);
    match map.field(key) {
        Field::Once(value) => in_value(&value, fault, first, registers),
        Field::Absent | Field::Twice => at_key(element, &map, key),
    }
}

/// The first element of a vector that is wrong; the whole value where none is, or where it is no vector.
fn in_value<'t>(
    value: &Element<'t>,
    fault: TowerFault,
    first: usize,
    registers: &Registers,
) -> Element<'t>
    ensures { IsInValue first registers.now fault (piece_of value.now) (piece_of result) }
{
    match value.as_vector() {
        Some(view) => first_wrong(value, view, fault, first, registers),
        None => *value,
    }
}

fn first_wrong<'t>(
    whole: &Element<'t>,
    view: VectorView<'t>,
    fault: TowerFault,
    first: usize,
    registers: &Registers,
) -> Element<'t>
    ensures { (members : List ElementModel) → MembersLeft view.entry members
        → piece_of result ≡ first_wrong_element (is_wrong fault first registers.now) (piece_of whole.now) members }
{
    let mut left = view;
    while let Some(element) = left.next() {
        if is_wrong(fault, &element, first, registers) {
            return element;
        }
    }
    *whole
}

/// Whether an element of a vector is what a fault is about: it has another form, or names no register of an earlier
/// level.
fn is_wrong(fault: TowerFault, element: &Element, first: usize, registers: &Registers) -> bool
    ensures { result ≡ is_wrong fault first registers.now (piece_of element.now) }
{
    match fault {
        TowerFault::Shape(field) => is_misformed(field, element),
        TowerFault::UnknownPart => part_of(element, first, registers).is_err(),
        _ => false,
    }
}

fn is_misformed(field: TowerField, element: &Element) -> bool
    ensures { result ≡ is_misformed field (piece_of element.now) }
{
    match field {
        TowerField::Writers => process_of(element).is_err(),
        TowerField::Domain => value_of(element).is_err(),
        _ => false,
    }
}

/// The key of a register that a fault is about; empty where it is about the whole register.
fn key_of(fault: TowerFault) -> &'static [u8]
    ensures { result.now ≡ key_of fault }
{
    match fault {
        TowerFault::Shape(field) => key_of_field(field),
        TowerFault::NameTaken => b":name",
        TowerFault::WriterCount => b":writers",
        TowerFault::UnknownPart => b":of",
        TowerFault::EmptyDomain => b":domain",
        TowerFault::InitialOutOfDomain | TowerFault::UnknownInitial => b":initial",
        TowerFault::Edn(_) | TowerFault::TooMany | TowerFault::Memory => b"",
    }
}

fn key_of_field(field: TowerField) -> &'static [u8]
    ensures { result.now ≡ key_of_field field }
{
    match field {
        TowerField::Name => b":name",
        TowerField::Kind => b":kind",
        TowerField::Writers => b":writers",
        TowerField::Initial => b":initial",
        TowerField::Domain => b":domain",
        TowerField::Parts => b":of",
        TowerField::Fixed => b":fixed",
        TowerField::File | TowerField::Levels | TowerField::Registers => b"",
    }
}
