//! What an element says of a register, without a tower.

ghost use Rattle.std.specs.Prelude.{◌≡◌};
ghost use Rattle.std.specs.Option.{option_map};
ghost use Rattle.edn_reader.specs.Given.{seen};
ghost use Rattle.edn_reader.specs.Lent.{piece_of};
ghost use Rattle.jepsen_form.specs.Fields.{IsUnderValue, UnderValue};
ghost use Rattle.jepsen_form.specs.Form.{seen_all, under_value};
ghost use Rattle.jepsen_form.specs.Mention.{IsMention, is_told, mention_by, mention_seen, name_said, writer_by};

use crate::element::is_given;
use crate::event::{action_in, stage_in};
use crate::fault::FormFault;
use crate::form::{EventFields, fill, no_fields};
use crate::gist::process_said;
use crate::item::{Action, MomentField, Stage};
use crate::said::{ParsedValue, said_by};
use edn_reader::Element;
use edn_reader::laws::{members_of_vector, pairs_of_map};

/// What a read or a write says of its register.
#[derive(Clone, Copy)]
pub struct Mention<'t> {
    /// The register's name; none where the value is of a tower's only register.
    pub name: Option<&'t [u8]>,
    /// The process, where it writes.
    pub writer: Option<i64>,
}

/// What an element says of a register: a read or a write of a process that invokes or is `:ok`, whatever else is wrong
/// with it. None of any other element. It takes no memory.
pub fn mention_of<'t>(element: &Element<'t>) -> Option<Mention<'t>>
    ensures { IsMention (piece_of element.now) (option_map mention_seen result) }
{
    pairs_of_map();
    members_of_vector();
    match element.as_map() {
        Some(map) => {
            let mut form = no_fields();
            fill(&mut form, &map, MomentField::Index);
            mention_in(&form)
        }
        None => None,
    }
}

fn mention_in<'t>(form: &EventFields<'t>) -> Option<Mention<'t>>
    ensures { (said : UnderValue) → IsUnderValue (seen form.now.value) said → option_map mention_seen result ≡ mention_by (seen_all form.now) said }
{
    if is_given(&form.edit) || is_given(&form.ask) {
        return None;
    }
    let process = process_said(&form.process)?;
    if !is_told(stage_in(&form.stage)) {
        return None;
    }
    let Ok(action) = action_in(&form.action) else {
        return None;
    };
    let name = name_said(&said_by(&form.value))?;
    Some(Mention {
        name,
        writer: writer_by(action, process),
    })
}

/// Whether the register of an event of this stage is read.
fn is_told(stage: Result<Stage, FormFault>) -> bool
    ensures { result ≡ is_told stage }
{
    match stage {
        Ok(Stage::Invoke | Stage::Ok) => true,
        Ok(Stage::Fail | Stage::Info) | Err(_) => false,
    }
}

fn name_said<'t>(said: &ParsedValue<'t>) -> Option<Option<&'t [u8]>>
    ensures { option_map (option_map (λ name. name.now)) result ≡ name_said (under_value said.now) }
{
    match said {
        ParsedValue::Nothing | ParsedValue::Plain(_) => Some(None),
        ParsedValue::Named(name, _) => Some(Some(name.untagged().text())),
        ParsedValue::Repeated => None,
    }
}

fn writer_by(action: Action, process: i64) -> Option<i64>
    ensures { result ≡ writer_by action process }
{
    match action {
        Action::Read => None,
        Action::Write => Some(process),
    }
}
