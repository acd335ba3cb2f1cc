//! What can be read of an element that its form refuses.

ghost use Rattle.std.specs.Prelude.{◌≡◌, Err, IfOk};
ghost use Rattle.edn_reader.specs.Given.{seen};
ghost use Rattle.jepsen_form.specs.Fields.{IsUnderValue, UnderValue};
ghost use Rattle.jepsen_form.specs.Form.{seen_all, under_value};
ghost use Rattle.jepsen_form.specs.Whole.{IsWhole};
ghost use Rattle.jepsen_form.specs.Item.{edit_gist, event_gist, gist_of, inner_field, known_or_unread, no_gist, process_answered, process_said, register_of_pair, register_or, register_given, says_claim, with_gist, written_if, written_of_event, written_said};

use crate::edit::{place_edited, register_claimed};
use crate::element::{given_value, is_given};
use crate::event::{action_in, stage_in};
use crate::fault::FormFault;
use crate::form::EventFields;
use crate::item::{Action, Item, Stage};
use crate::said::{ParsedValue, given_by, inner_of, register_by, said_by, sole_register};
use edn_reader::Field;
use intervals::{RegId, Value};
use tower_file::Tower;

/// What an element would have written to its register.
#[derive(Clone, Copy)]
pub enum Written {
    Nothing,
    Known(Value),
    /// A value that cannot be read.
    Unread,
}

/// What can be read of an element that its form refuses. All is as in an item, where it is there; what cannot be read
/// is as if it were not there, but for what the element would have written.
#[derive(Clone, Copy)]
pub struct Gist {
    /// The process whose invocation it answers.
    pub answers: Option<i64>,
    /// The place of the invocation whose operation it edits.
    pub of: Option<u64>,
    pub register: Option<RegId>,
    pub written: Written,
    /// Whether it claims a kind for its register.
    pub claims: bool,
}

/// An element that its form refuses: its first fault, and what can be read of it all the same.
#[derive(Clone, Copy)]
pub struct RefusedForm {
    pub fault: FormFault,
    pub gist: Gist,
}

/// The item as it is; or its fault, with what can be read of the map's fields.
pub fn with_gist<'t>(
    item: Result<Item<'t>, FormFault>,
    form: &EventFields,
    tower: &Tower,
) -> Result<Item<'t>, RefusedForm>
    ensures item { (said inner : UnderValue) → IsUnderValue (seen form.now.value) said → IsUnderValue (inner_field said) inner
        → result ≡ with_gist (gist_of tower.now (seen_all form.now) said inner) item.entry }
    ensures whole { IfOk item.entry IsWhole → IfOk result IsWhole }
{
    match item {
        Ok(item) => Ok(item),
        Err(fault) => Err(RefusedForm {
            fault,
            gist: gist_of(form, tower),
        }),
    }
}

/// An element that is no map.
pub fn no_map<'t>() -> Result<Item<'t>, RefusedForm>
    ensures { result ≡ with_gist no_gist (Err FormFault.NotAMap) }
{
    Err(RefusedForm {
        fault: FormFault::NotAMap,
        gist: no_gist(),
    })
}

fn no_gist() -> Gist
    ensures { result ≡ no_gist }
{
    Gist {
        answers: None,
        of: None,
        register: None,
        written: Written::Nothing,
        claims: false,
    }
}

fn gist_of(form: &EventFields, tower: &Tower) -> Gist
    ensures { (said inner : UnderValue) → IsUnderValue (seen form.now.value) said → IsUnderValue (inner_field said) inner
        → result ≡ gist_of tower.now (seen_all form.now) said inner }
{
    if is_given(&form.edit) {
        return edit_gist(form, tower);
    }
    if is_given(&form.ask) {
        return no_gist();
    }
    let said = said_by(&form.value);
    event_gist(form, tower, &said, &inner_of(&said))
}

fn edit_gist(form: &EventFields, tower: &Tower) -> Gist
    ensures { result ≡ edit_gist tower.now (seen_all form.now) }
{
    Gist {
        answers: None,
        of: place_edited(form).ok(),
        register: register_claimed(form, tower).ok(),
        written: written_if(given_value(&form.value)),
        claims: says_claim(&form.edit),
    }
}

fn written_if(value: Result<Option<Value>, FormFault>) -> Written
    ensures { result ≡ written_if value }
{
    match value {
        Ok(None) => Written::Nothing,
        Ok(Some(value)) => Written::Known(value),
        Err(_) => Written::Unread,
    }
}

fn says_claim(edit: &Field) -> bool
    ensures { result ≡ says_claim (seen edit.now) }
{
    match edit {
        Field::Once(keyword) => keyword.is_keyword(b":claim"),
        Field::Absent | Field::Twice => false,
    }
}

fn event_gist(form: &EventFields, tower: &Tower, said: &ParsedValue, inner: &ParsedValue) -> Gist
    ensures { result ≡ event_gist tower.now (seen_all form.now) (under_value said.now) (under_value inner.now) }
{
    let stage = stage_in(&form.stage);
    let action = action_in(&form.action);
    Gist {
        answers: process_answered(stage, process_said(&form.process)),
        of: None,
        register: register_given(tower, action, said, inner),
        written: written_of_event(stage, action, inner),
        claims: false,
    }
}

pub fn process_said(process: &Field) -> Option<i64>
    ensures { result ≡ process_said (seen process.now) }
{
    match process {
        Field::Once(process) => process.as_int(),
        Field::Absent | Field::Twice => None,
    }
}

/// The process, where an event of this stage is an answer.
fn process_answered(stage: Result<Stage, FormFault>, process: Option<i64>) -> Option<i64>
    ensures { result ≡ process_answered stage process }
{
    match stage {
        Ok(Stage::Ok | Stage::Fail | Stage::Info) => process,
        Ok(Stage::Invoke) | Err(_) => None,
    }
}

fn register_given(
    tower: &Tower,
    action: Result<Action, FormFault>,
    said: &ParsedValue,
    inner: &ParsedValue,
) -> Option<RegId>
    ensures { result ≡ register_given tower.now action (under_value said.now) (under_value inner.now) }
{
    match (action, said) {
        (Err(_), ParsedValue::Nothing) => None,
        _ => register_or(tower, action, inner, register_by(said, tower)),
    }
}

/// The register that was read. Where the tower has none of this name and the operation is neither a read nor a write, what
/// is there may be a pair of two values, which is of the tower's only register.
fn register_or(
    tower: &Tower,
    action: Result<Action, FormFault>,
    inner: &ParsedValue,
    register: Result<RegId, FormFault>,
) -> Option<RegId>
    ensures { result ≡ register_or tower.now action (under_value inner.now) register }
{
    match (register, action) {
        (Ok(register), _) => Some(register),
        (Err(_), Err(FormFault::UnsupportedF)) => register_of_pair(tower, inner),
        _ => None,
    }
}

/// The tower's only register, where the value is no pair itself.
fn register_of_pair(tower: &Tower, inner: &ParsedValue) -> Option<RegId>
    ensures { result ≡ register_of_pair tower.now (under_value inner.now) }
{
    match inner {
        ParsedValue::Plain(_) => sole_register(tower).ok(),
        ParsedValue::Nothing | ParsedValue::Named(..) | ParsedValue::Repeated => None,
    }
}

fn written_of_event(
    stage: Result<Stage, FormFault>,
    action: Result<Action, FormFault>,
    inner: &ParsedValue,
) -> Written
    ensures { result ≡ written_of_event stage action (under_value inner.now) }
{
    match (stage, action) {
        (Ok(Stage::Fail | Stage::Info), _) | (_, Ok(Action::Read)) => Written::Nothing,
        (_, Ok(Action::Write)) => known_or_unread(given_by(inner)),
        (_, Err(_)) => written_said(inner),
    }
}

/// What an event that is neither a read nor a write would have written.
fn written_said(inner: &ParsedValue) -> Written
    ensures { result ≡ written_said (under_value inner.now) }
{
    match inner {
        ParsedValue::Nothing => Written::Nothing,
        _ => known_or_unread(given_by(inner)),
    }
}

fn known_or_unread(value: Result<Value, FormFault>) -> Written
    ensures { result ≡ known_or_unread value }
{
    match value {
        Ok(value) => Written::Known(value),
        Err(_) => Written::Unread,
    }
}
