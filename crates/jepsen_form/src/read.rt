//! From an element to an item.

ghost use Rattle.std.specs.Prelude.{◌≡◌, ◌+◌, ◌<◌, ◌^◌, length, IfOk, IfSome};
ghost use Rattle.edn_reader.specs.Flat.{BeginsWithElement};
ghost use Rattle.edn_reader.specs.Given.{seen};
ghost use Rattle.edn_reader.specs.Lent.{piece_of};
ghost use Rattle.jepsen_form.specs.Fields.{UnderValue, IsUnderValue};
ghost use Rattle.jepsen_form.specs.Item.{IsItem, item_of, question_of};
ghost use Rattle.jepsen_form.specs.Form.{seen_all};
ghost use Rattle.jepsen_form.specs.Whole.{IsWhole};

use crate::edit::read_edit;
use crate::element::{is_given, needed};
use crate::event::read_event;
use crate::fault::{FormFault, FormField};
use crate::form::{EventFields, fill, no_fields, note};
use crate::gist::{RefusedForm, no_map, with_gist};
use crate::item::{Item, MomentField};
use crate::said::find_register;
use edn_reader::laws::{members_of_vector, pairs_of_map};
use edn_reader::{Element, FlatMap, FlatPart};
use tower_file::Tower;

/// The item of an element, or the first fault that it has in reading order, with what can be read all the same. It takes
/// no memory.
pub fn read_item<'t>(
    element: Element<'t>,
    field: MomentField,
    tower: &Tower,
) -> Result<Item<'t>, RefusedForm>
    ensures item { IsItem tower.now field (piece_of element.entry) result }
    ensures whole { IfOk result IsWhole }
{
    pairs_of_map();
    members_of_vector();
    match element.as_map() {
        Some(map) => {
            let mut form = no_fields();
            fill(&mut form, &map, field);
            with_gist(item_in(&form, element.text(), tower), &form, tower)
        }
        None => no_map(),
    }
}

/// The element that bytes begin with, after white bytes, and its item, in one pass over them. It reads a map with at
/// most one tag, whose keys are words and whose values are words and vectors of words, with white bytes between
/// them. Where the bytes begin with anything else, or end within the map, it returns none, and says nothing of what
/// they are. The first of the bytes has this `place`.
pub fn read_first<'t>(
    bytes: &'t [u8],
    place: usize,
    field: MomentField,
    tower: &Tower,
) -> Option<(Element<'t>, Result<Item<'t>, RefusedForm>)>
    requires { place + length bytes.now < 2 ^ 64 }
    ensures first { IfSome result (λ found. BeginsWithElement bytes.entry.now place (piece_of found.0)) }
    ensures item { IfSome result (λ found. IsItem tower.now field (piece_of found.0) found.1) }
    ensures whole { IfSome result (λ found. IfOk found.1 IsWhole) }
{
    pairs_of_map();
    members_of_vector();
    let mut map = FlatMap::open(bytes, place)?;
    let mut form = no_fields();
    loop {
        match map.next_part() {
            FlatPart::Pair(key, value) => note(&mut form, &key, value, field),
            FlatPart::End(element) => {
                let item = item_in(&form, element.text(), tower);
                return Some((element, with_gist(item, &form, tower)));
            }
            FlatPart::Other => return None,
        }
    }
}

fn item_in<'t>(form: &EventFields<'t>, text: &'t [u8], tower: &Tower) -> Result<Item<'t>, FormFault>
    ensures item { (said : UnderValue) → IsUnderValue (seen form.now.value) said → result ≡ item_of tower.now (seen_all form.now) said text.entry }
    ensures whole { IfOk result IsWhole }
{
    if is_given(&form.edit) {
        let keyword = needed(&form.edit, FormField::Edit)?;
        return read_edit(form, &keyword, text, tower);
    }
    if is_given(&form.ask) {
        let name = needed(&form.ask, FormField::Ask)?;
        return question(&name, tower);
    }
    let process = needed(&form.process, FormField::Process)?;
    read_event(form, process.as_int(), text, tower)
}

fn question<'t>(name: &Element, tower: &Tower) -> Result<Item<'t>, FormFault>
    ensures item { result ≡ question_of tower.now (piece_of name.now) }
    ensures whole { IfOk result IsWhole }
{
    Ok(Item::Ask(find_register(name, tower)?))
}
