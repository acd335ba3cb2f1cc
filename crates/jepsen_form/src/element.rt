//! What single fields and elements say.

ghost use Rattle.std.specs.Prelude.{◌≡◌};
ghost use Rattle.edn_reader.specs.Lent.{piece_of};
ghost use Rattle.edn_reader.specs.Given.{seen};
ghost use Rattle.jepsen_form.specs.Item.{the_one, at_most_one, is_there, stage_of, action_of, value_stated, moment_of, end_of, place_of, kind_stated};
ghost use Rattle.tower_file.specs.Steps.{GivesSeen};

use crate::fault::{FormFault, FormField};
use crate::form::is;
use crate::item::{Action, Stage};
use edn_reader::{Element, Field};
use intervals::{Kind, Moment, Value};
use tower_file::kind_of;

pub fn is_given(field: &Field) -> bool
    ensures { result ≡ is_there (seen field.now) }
{
    match field {
        Field::Absent => false,
        Field::Once(_) | Field::Twice => true,
    }
}

pub fn needed<'t>(field: &Field<'t>, name: FormField) -> Result<Element<'t>, FormFault>
    ensures { GivesSeen piece_of result (the_one name (seen field.now)) }
{
    match field {
        Field::Absent => Err(FormFault::MissingField(name)),
        Field::Once(element) => Ok(*element),
        Field::Twice => Err(FormFault::DuplicateField(name)),
    }
}

pub fn given_value(field: &Field) -> Result<Option<Value>, FormFault>
    ensures { result ≡ at_most_one FormField.Value value_stated (seen field.now) }
{
    match field {
        Field::Absent => Ok(None),
        Field::Once(element) => Ok(Some(read_value(element)?)),
        Field::Twice => Err(FormFault::DuplicateField(FormField::Value)),
    }
}

pub fn given_begin(field: &Field) -> Result<Option<Moment>, FormFault>
    ensures { result ≡ at_most_one FormField.Begin moment_of (seen field.now) }
{
    match field {
        Field::Absent => Ok(None),
        Field::Once(element) => Ok(Some(read_moment(element)?)),
        Field::Twice => Err(FormFault::DuplicateField(FormField::Begin)),
    }
}

pub fn given_end(field: &Field) -> Result<Option<Option<Moment>>, FormFault>
    ensures { result ≡ at_most_one FormField.End end_of (seen field.now) }
{
    match field {
        Field::Absent => Ok(None),
        Field::Once(element) => Ok(Some(read_end(element)?)),
        Field::Twice => Err(FormFault::DuplicateField(FormField::End)),
    }
}

pub fn read_stage(element: &Element) -> Result<Stage, FormFault>
    ensures { result ≡ stage_of (piece_of element.now) }
{
    match element.as_keyword() {
        Some(word) if is(word, b":invoke") => Ok(Stage::Invoke),
        Some(word) if is(word, b":ok") => Ok(Stage::Ok),
        Some(word) if is(word, b":fail") => Ok(Stage::Fail),
        Some(word) if is(word, b":info") => Ok(Stage::Info),
        _ => Err(FormFault::BadType),
    }
}

pub fn read_action(element: &Element) -> Result<Action, FormFault>
    ensures { result ≡ action_of (piece_of element.now) }
{
    match element.as_keyword() {
        Some(word) if is(word, b":read") => Ok(Action::Read),
        Some(word) if is(word, b":write") => Ok(Action::Write),
        _ => Err(FormFault::UnsupportedF),
    }
}

pub fn read_value(element: &Element) -> Result<Value, FormFault>
    ensures { result ≡ value_stated (piece_of element.now) }
{
    if element.is_nil() {
        return Ok(Value::Nil);
    }
    match element.as_int() {
        Some(number) => Ok(Value::Int(number)),
        None => Err(FormFault::BadValue),
    }
}

pub fn read_moment(element: &Element) -> Result<Moment, FormFault>
    ensures { result ≡ moment_of (piece_of element.now) }
{
    match element.as_int() {
        Some(number) if number >= 0 => Ok(Moment(number as u64)),
        _ => Err(FormFault::BadMoment),
    }
}

/// A moment, or nil, which reopens the operation.
fn read_end(element: &Element) -> Result<Option<Moment>, FormFault>
    ensures { result ≡ end_of (piece_of element.now) }
{
    if element.is_nil() {
        return Ok(None);
    }
    Ok(Some(read_moment(element)?))
}

/// The kind that a claim names, by the keyword that a tower file has for it.
pub fn read_kind(element: &Element) -> Result<Kind, FormFault>
    ensures { result ≡ kind_stated (piece_of element.now) }
{
    match kind_of(element) {
        Some(kind) => Ok(kind),
        None => Err(FormFault::BadType),
    }
}

pub fn read_place(element: &Element) -> Result<u64, FormFault>
    ensures { result ≡ place_of (piece_of element.now) }
{
    match element.as_int() {
        Some(number) if number >= 0 => Ok(number as u64),
        _ => Err(FormFault::BadValue),
    }
}
