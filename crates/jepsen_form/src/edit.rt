//! From the fields of a map to an edit.

ghost use Rattle.std.specs.Prelude.{◌≡◌, IfOk};
ghost use Rattle.edn_reader.specs.Lent.{piece_of};
ghost use Rattle.jepsen_form.specs.Item.{edit_by, edited_place, change_of, claimed_register};
ghost use Rattle.jepsen_form.specs.Form.{seen_all};
ghost use Rattle.jepsen_form.specs.Whole.{IsWhole};

use crate::element::{given_begin, given_end, given_value, needed, read_kind, read_place};
use crate::fault::{FormFault, FormField};
use crate::form::EventFields;
use crate::item::Item;
use crate::said::find_register;
use edn_reader::Element;
use intervals::{Change, Lent, RegId};
use tower_file::Tower;

/// The edit that a keyword names, or its first fault.
pub fn read_edit<'t>(
    form: &EventFields<'t>,
    keyword: &Element<'t>,
    text: &'t [u8],
    tower: &Tower,
) -> Result<Item<'t>, FormFault>
    ensures item { result ≡ edit_by tower.now (seen_all form.now) text.entry (piece_of keyword.now) }
    ensures whole { IfOk result IsWhole }
{
    if keyword.is_keyword(b":amend") {
        let of = place_edited(form)?;
        let change = read_change(form, text)?;
        Ok(Item::Amend { of, change })
    } else if keyword.is_keyword(b":withdraw") {
        let of = place_edited(form)?;
        Ok(Item::Withdraw { of })
    } else if keyword.is_keyword(b":claim") {
        let register = register_claimed(form, tower)?;
        let kind = read_kind(&needed(&form.claimed, FormField::Claimed)?)?;
        Ok(Item::Claim(register, kind))
    } else {
        Err(FormFault::BadType)
    }
}

/// The place of the invocation that an edit names.
pub fn place_edited(form: &EventFields) -> Result<u64, FormFault>
    ensures { result ≡ edited_place (seen_all form.now) }
{
    read_place(&needed(&form.of, FormField::Of)?)
}

/// The register that a claim names.
pub fn register_claimed(form: &EventFields, tower: &Tower) -> Result<RegId, FormFault>
    ensures { result ≡ claimed_register tower.now (seen_all form.now) }
{
    find_register(&needed(&form.register, FormField::Register)?, tower)
}

fn read_change<'t>(form: &EventFields<'t>, text: &'t [u8]) -> Result<Change<'t>, FormFault>
    ensures { result ≡ change_of (seen_all form.now) text.entry }
{
    let value = given_value(&form.value)?;
    let begin = given_begin(&form.begin)?;
    let end = given_end(&form.end)?;
    Ok(Change {
        value,
        begin,
        end,
        lent: Lent::Amendment(text),
    })
}
