//! From the fields of a map to an event.

ghost use Rattle.std.specs.Prelude.{◌≡◌, IfOk};
ghost use Rattle.edn_reader.specs.Given.{seen};
ghost use Rattle.jepsen_form.specs.Fields.{UnderValue, IsUnderValue};
ghost use Rattle.jepsen_form.specs.Item.{the_stage, the_action, the_register, the_moment, if_told, by_process, event_of};
ghost use Rattle.jepsen_form.specs.Form.{under_value, seen_all};
ghost use Rattle.jepsen_form.specs.Whole.{IsWhole};

use crate::element::{needed, read_action, read_moment, read_stage};
use crate::fault::{FormFault, FormField};
use crate::form::EventFields;
use crate::item::{Action, Event, Item, Stage};
use crate::said::{ParsedValue, register_by, said_by, value_by};
use edn_reader::Field;
use intervals::{Moment, RegId};
use tower_file::Tower;

/// The event of a process; skipped where the process is no integer of 64 bits.
pub fn read_event<'t>(
    form: &EventFields<'t>,
    process: Option<i64>,
    text: &'t [u8],
    tower: &Tower,
) -> Result<Item<'t>, FormFault>
    ensures item { (said : UnderValue) → IsUnderValue (seen form.now.value) said → result ≡ by_process tower.now (seen_all form.now) said text.entry process }
    ensures whole { IfOk result IsWhole }
{
    match process {
        Some(process) => event_by(form, process, text, tower),
        None => Ok(Item::Skipped),
    }
}

fn event_by<'t>(
    form: &EventFields<'t>,
    process: i64,
    text: &'t [u8],
    tower: &Tower,
) -> Result<Item<'t>, FormFault>
    ensures item { (said : UnderValue) → IsUnderValue (seen form.now.value) said → result ≡ event_of tower.now (seen_all form.now) said text.entry process }
    ensures whole { IfOk result IsWhole }
{
    let stage = stage_in(&form.stage)?;
    let action = action_in(&form.action)?;
    let said = said_by(&form.value);
    let register = register_in(stage, &said, tower)?;
    let value = value_by(&said, stage, action)?;
    let moment = moment_in(stage, &form.moment)?;
    Ok(Item::Event(Event {
        process,
        answer: stage,
        action,
        register,
        value,
        moment,
        text,
    }))
}

pub fn stage_in(field: &Field) -> Result<Stage, FormFault>
    ensures { result ≡ the_stage (seen field.now) }
{
    read_stage(&needed(field, FormField::Stage)?)
}

pub fn action_in(field: &Field) -> Result<Action, FormFault>
    ensures { result ≡ the_action (seen field.now) }
{
    read_action(&needed(field, FormField::Action)?)
}

/// The register of an invocation or of an answer that is `:ok`; of other events it is not read.
fn register_in(stage: Stage, said: &ParsedValue, tower: &Tower) -> Result<Option<RegId>, FormFault>
    ensures { result ≡ if_told stage (the_register tower.now (under_value said.now)) }
{
    match stage {
        Stage::Invoke | Stage::Ok => Ok(Some(register_by(said, tower)?)),
        Stage::Fail | Stage::Info => Ok(None),
    }
}

/// The moment of an invocation or of an answer that is `:ok`; of other events it is not read.
fn moment_in(stage: Stage, field: &Field) -> Result<Option<Moment>, FormFault>
    ensures { result ≡ if_told stage (the_moment (seen field.now)) }
{
    match stage {
        Stage::Invoke | Stage::Ok => Ok(Some(read_moment(&needed(field, FormField::Moment)?)?)),
        Stage::Fail | Stage::Info => Ok(None),
    }
}
