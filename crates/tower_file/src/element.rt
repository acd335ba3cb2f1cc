//! Reads what single elements of a tower file say.

ghost use Rattle.std.specs.Prelude.{◌≡◌};
ghost use Rattle.edn_reader.specs.Grammar.{ElementModel};
ghost use Rattle.edn_reader.specs.Lent.{piece_of};
ghost use Rattle.edn_reader.specs.Given.{seen};
ghost use Rattle.tower_file.specs.Stating.{stated_value, stated_initial, stated_kind};
ghost use Rattle.tower_file.specs.Reading.{domain_value, process_of, name_of, needed, name_in, kind_in, initial_in, fixed_in, fixed_of};
ghost use Rattle.tower_file.specs.Steps.{GivesSeen};

use crate::fault::{TowerFault, TowerField};
use edn_reader::{Element, Field};
use intervals::{Initial, Kind, Value};

/// The element in a field that must be there once.
pub fn needed<'t>(field: &Field<'t>, name: TowerField) -> Result<Element<'t>, TowerFault>
    ensures { GivesSeen piece_of result (needed name (seen field.now)) }
{
    match field {
        Field::Once(element) => Ok(*element),
        Field::Absent | Field::Twice => Err(TowerFault::Shape(name)),
    }
}

/// The bytes of an element without its tags.
pub fn name_of<'t>(element: &Element<'t>) -> &'t [u8]
    ensures { result.now ≡ name_of (piece_of element.now) }
{
    element.untagged().text()
}

pub fn read_name<'t>(field: &Field<'t>) -> Result<&'t [u8], TowerFault>
    ensures { GivesSeen (λ name. name.now) result (name_in TowerField.Name (seen field.now)) }
{
    Ok(name_of(&needed(field, TowerField::Name)?))
}

pub fn read_kind(field: &Field) -> Result<Kind, TowerFault>
    ensures { result ≡ kind_in (seen field.now) }
{
    match kind_of(&needed(field, TowerField::Kind)?) {
        Some(kind) => Ok(kind),
        None => Err(TowerFault::Shape(TowerField::Kind)),
    }
}

/// The kind that an element names, tags before it or not: `:safe`, `:regular` or `:atomic`; none for another
/// element.
pub fn kind_of(element: &Element) -> Option<Kind>
    ensures { result ≡ stated_kind (piece_of element.now) }
{
    if element.is_keyword(b":safe") {
        Some(Kind::Safe)
    } else if element.is_keyword(b":regular") {
        Some(Kind::Regular)
    } else if element.is_keyword(b":atomic") {
        Some(Kind::Atomic)
    } else {
        None
    }
}

/// The optional initial value.
pub fn read_initial(field: &Field) -> Result<Option<Initial>, TowerFault>
    ensures { result ≡ initial_in (seen field.now) }
{
    match field {
        Field::Absent => Ok(None),
        Field::Once(element) => match stated_initial(element) {
            Some(initial) => Ok(Some(initial)),
            None => Err(TowerFault::Shape(TowerField::Initial)),
        },
        Field::Twice => Err(TowerFault::Shape(TowerField::Initial)),
    }
}

/// The initial value that an element states, tags before it or not: a value, or unknown for `:unknown`; none for
/// another element.
fn stated_initial(element: &Element) -> Option<Initial>
    ensures { result ≡ stated_initial (piece_of element.now) }
{
    if element.is_keyword(b":unknown") {
        return Some(Initial::Unknown);
    }
    Some(Initial::Known(stated_value(element)?))
}

/// Whether the kind is fixed: by the word `true` or `false`; false where there is none.
pub fn read_fixed(field: &Field) -> Result<bool, TowerFault>
    ensures { result ≡ fixed_in (seen field.now) }
{
    match field {
        Field::Absent => Ok(false),
        Field::Once(element) => fixed_of(element),
        Field::Twice => Err(TowerFault::Shape(TowerField::Fixed)),
    }
}

fn fixed_of(element: &Element) -> Result<bool, TowerFault>
    ensures { result ≡ fixed_of (piece_of element.now) }
{
    let word = name_of(element);
    if word == b"true".as_slice() {
        Ok(true)
    } else if word == b"false".as_slice() {
        Ok(false)
    } else {
        Err(TowerFault::Shape(TowerField::Fixed))
    }
}

/// The value that an element states: nil, or an integer of 64 bits; none for another element.
fn stated_value(element: &Element) -> Option<Value>
    ensures { result ≡ stated_value (piece_of element.now) }
{
    if element.is_nil() {
        return Some(Value::Nil);
    }
    Some(Value::Int(element.as_int()?))
}

/// A value of a domain: nil, or an integer of 64 bits.
pub fn value_of(element: &Element) -> Result<Value, TowerFault>
    ensures { result ≡ domain_value (piece_of element.now) }
{
    match stated_value(element) {
        Some(value) => Ok(value),
        None => Err(TowerFault::Shape(TowerField::Domain)),
    }
}

/// A process: an integer of 64 bits.
pub fn process_of(element: &Element) -> Result<i64, TowerFault>
    ensures { result ≡ process_of (piece_of element.now) }
{
    match element.as_int() {
        Some(number) => Ok(number),
        None => Err(TowerFault::Shape(TowerField::Writers)),
    }
}
