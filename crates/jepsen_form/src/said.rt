//! What an event says under `:value`, and the register that it names.

ghost use Rattle.std.specs.Prelude.{◌≡◌, List};
ghost use Rattle.std.specs.Option.{option_map};
ghost use Rattle.edn_reader.specs.Grammar.{ElementModel};
ghost use Rattle.edn_reader.specs.Given.{One, seen};
ghost use Rattle.edn_reader.specs.Lent.{piece_of, MembersLeft};
ghost use Rattle.jepsen_form.specs.Fields.{UnderValue, IsUnderValue, two_of};
ghost use Rattle.jepsen_form.specs.Form.{under_value};
ghost use Rattle.jepsen_form.specs.Item.{register_named, only_register, the_register, the_value, inner_field, value_told};

use crate::element::read_value;
use crate::fault::{FormFault, FormField};
use crate::item::{Action, Stage};
use edn_reader::{Element, Field, VectorView};
use intervals::{RegId, Value};
use tower_file::Tower;

/// What is under `:value`.
#[derive(Clone, Copy)]
pub enum ParsedValue<'t> {
    Nothing,
    /// A value of the tower's only register.
    Plain(Element<'t>),
    /// A register's name and a value.
    Named(Element<'t>, Element<'t>),
    Repeated,
}

pub fn said_by<'t>(field: &Field<'t>) -> ParsedValue<'t>
    ensures { (said : UnderValue) → IsUnderValue (seen field.now) said → under_value result ≡ said }
{
    match field {
        Field::Absent => ParsedValue::Nothing,
        Field::Once(element) => said_in(element),
        Field::Twice => ParsedValue::Repeated,
    }
}

fn said_in<'t>(element: &Element<'t>) -> ParsedValue<'t>
    ensures { (said : UnderValue) → IsUnderValue (One (piece_of element.now)) said → under_value result ≡ said }
{
    let Some(vector) = element.as_vector() else {
        return ParsedValue::Plain(*element);
    };
    match the_two(&vector) {
        Some((name, value)) => ParsedValue::Named(name, value),
        None => ParsedValue::Plain(*element),
    }
}

/// The elements of a vector of exactly two; none of any other.
fn the_two<'t>(vector: &VectorView<'t>) -> Option<(Element<'t>, Element<'t>)>
    ensures { (members : List ElementModel) → MembersLeft vector.now members → option_map (λ two. (piece_of two.0, piece_of two.1)) result ≡ two_of members }
{
    let mut ahead = *vector;
    let Some(first) = ahead.next() else {
        return None;
    };
    let Some(second) = ahead.next() else {
        return None;
    };
    match ahead.next() {
        Some(_) => None,
        None => Some((first, second)),
    }
}

/// What the value is that is said, with a register's name or without.
pub fn inner_of<'t>(said: &ParsedValue<'t>) -> ParsedValue<'t>
    ensures { (inner : UnderValue) → IsUnderValue (inner_field (under_value said.now)) inner → under_value result ≡ inner }
{
    match said {
        ParsedValue::Nothing => ParsedValue::Nothing,
        ParsedValue::Plain(value) | ParsedValue::Named(_, value) => said_in(value),
        ParsedValue::Repeated => ParsedValue::Repeated,
    }
}

/// The register that an event is about.
pub fn register_by(said: &ParsedValue, tower: &Tower) -> Result<RegId, FormFault>
    ensures { result ≡ the_register tower.now (under_value said.now) }
{
    match said {
        ParsedValue::Nothing | ParsedValue::Plain(_) => sole_register(tower),
        ParsedValue::Named(name, _) => find_register(name, tower),
        ParsedValue::Repeated => Err(FormFault::DuplicateField(FormField::Value)),
    }
}

/// The register of a tower of one register.
pub fn sole_register(tower: &Tower) -> Result<RegId, FormFault>
    ensures { result ≡ only_register tower.now }
{
    if tower.len() == 1 {
        Ok(RegId(0))
    } else {
        Err(FormFault::NoRegister)
    }
}

/// The register whose name is the element's text without its tags.
pub fn find_register(name: &Element, tower: &Tower) -> Result<RegId, FormFault>
    ensures { result ≡ register_named tower.now (piece_of name.now) }
{
    match tower.find(name.untagged().text()) {
        Some(id) => Ok(id),
        None => Err(FormFault::NoRegister),
    }
}

/// The value of an event; `Nil` of an invoked read, of `:fail` and of `:info`, of which it is not read.
pub fn value_by(said: &ParsedValue, stage: Stage, action: Action) -> Result<Value, FormFault>
    ensures { result ≡ value_told stage action (under_value said.now) }
{
    match (stage, action) {
        (Stage::Invoke, Action::Read) | (Stage::Fail | Stage::Info, _) => Ok(Value::Nil),
        (Stage::Invoke, Action::Write) | (Stage::Ok, _) => given_by(said),
    }
}

/// The value that is said, whatever register it is of.
pub fn given_by(said: &ParsedValue) -> Result<Value, FormFault>
    ensures { result ≡ the_value (under_value said.now) }
{
    match said {
        ParsedValue::Nothing => Ok(Value::Nil),
        ParsedValue::Plain(value) | ParsedValue::Named(_, value) => read_value(value),
        ParsedValue::Repeated => Err(FormFault::DuplicateField(FormField::Value)),
    }
}
