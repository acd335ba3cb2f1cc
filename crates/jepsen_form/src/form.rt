//! What a map has under the keys that are read, found in one pass.

ghost use Rattle.std.specs.Prelude.{◌≡◌, List, Some};
ghost use Rattle.std.specs.Str.{bytes_eq};
ghost use Rattle.edn_reader.specs.Grammar.{ElementModel};
ghost use Rattle.edn_reader.specs.Given.{one_more, seen};
ghost use Rattle.edn_reader.specs.Pairs.{keyword_of};
ghost use Rattle.edn_reader.specs.Lent.{piece_of, PairsLeft};
ghost use Rattle.jepsen_form.specs.Fields.{fields_of, moment_key};
ghost use Rattle.jepsen_form.specs.Form.{seen_all, nothing, noted, field_of, with_more};

use crate::fault::FormField;
use crate::item::MomentField;
use edn_reader::{Element, Field, MapView};

/// What was found so far under the keys of events, edits and questions.
#[derive(Clone, Copy)]
pub struct EventFields<'t> {
    pub process: Field<'t>,
    pub stage: Field<'t>,
    pub action: Field<'t>,
    pub value: Field<'t>,
    pub moment: Field<'t>,
    pub edit: Field<'t>,
    pub of: Field<'t>,
    pub begin: Field<'t>,
    pub end: Field<'t>,
    pub ask: Field<'t>,
    pub register: Field<'t>,
    pub claimed: Field<'t>,
}

/// Goes over the pairs of a map once, and notes each in `form`.
pub fn fill<'t>(form: &mut EventFields<'t>, map: &MapView<'t>, chosen: MomentField)
    requires { seen_all form.old ≡ nothing }
    ensures { (pairs : List (ElementModel × ElementModel)) → PairsLeft map.now pairs → seen_all form.new ≡ fields_of chosen pairs }
{
    let mut left = *map;
    while let Some((key, value)) = left.next_pair() {
        note(form, &key, value, chosen);
    }
}

#[inline(always)]
pub fn no_fields<'t>() -> EventFields<'t>
    ensures { seen_all result ≡ nothing }
{
    EventFields {
        process: Field::Absent,
        stage: Field::Absent,
        action: Field::Absent,
        value: Field::Absent,
        moment: Field::Absent,
        edit: Field::Absent,
        of: Field::Absent,
        begin: Field::Absent,
        end: Field::Absent,
        ask: Field::Absent,
        register: Field::Absent,
        claimed: Field::Absent,
    }
}

/// Notes one more pair of a map.
pub fn note<'t>(
    form: &mut EventFields<'t>,
    key: &Element<'t>,
    value: Element<'t>,
    chosen: MomentField,
)
    ensures { seen_all form.new ≡ noted chosen (seen_all form.old) (keyword_of (piece_of key.now)) (piece_of value.entry) }
{
    let Some(word) = key.as_keyword() else {
        return;
    };
    match field_of(word, chosen) {
        Some(field) => put(form, field, value),
        None => {}
    }
}

/// Adds one value under a field.
#[inline(always)]
fn put<'t>(form: &mut EventFields<'t>, field: FormField, value: Element<'t>)
    ensures { seen_all form.new ≡ with_more (Some field) (seen_all form.old) (piece_of value.entry) }
{
    match field {
        FormField::Process => add(&mut form.process, value),
        FormField::Stage => add(&mut form.stage, value),
        FormField::Action => add(&mut form.action, value),
        FormField::Value => add(&mut form.value, value),
        FormField::Moment => add(&mut form.moment, value),
        FormField::Edit => add(&mut form.edit, value),
        FormField::Of => add(&mut form.of, value),
        FormField::Begin => add(&mut form.begin, value),
        FormField::End => add(&mut form.end, value),
        FormField::Ask => add(&mut form.ask, value),
        FormField::Register => add(&mut form.register, value),
        FormField::Claimed => add(&mut form.claimed, value),
    }
}

/// Adds one value. It is not inlined: within the loop over the pairs it would take `EventFields` to pieces.
#[inline(never)]
fn add<'t>(field: &mut Field<'t>, value: Element<'t>)
    ensures { seen field.new ≡ one_more (seen field.old) (piece_of value.entry) }
{
    if let Field::Absent = *field {
        *field = Field::Once(value);
    } else {
        *field = Field::Twice;
    }
}

/// The field that a keyword names, or none. The length of a keyword leaves few that it can be.
fn field_of(word: &[u8], chosen: MomentField) -> Option<FormField>
    ensures { result ≡ field_of chosen word.now }
{
    if is(word, moment_key(chosen)) {
        return Some(FormField::Moment);
    }
    match word.len() {
        2 => is(word, b":f").then_some(FormField::Action),
        3 => is(word, b":of").then_some(FormField::Of),
        4 if is(word, b":end") => Some(FormField::End),
        4 => is(word, b":ask").then_some(FormField::Ask),
        5 if is(word, b":type") => Some(FormField::Stage),
        5 if is(word, b":edit") => Some(FormField::Edit),
        5 => is(word, b":kind").then_some(FormField::Claimed),
        6 if is(word, b":value") => Some(FormField::Value),
        6 => is(word, b":begin").then_some(FormField::Begin),
        8 => is(word, b":process").then_some(FormField::Process),
        9 => is(word, b":register").then_some(FormField::Register),
        _ => None,
    }
}

/// Whether a word is this key. It is inlined: the few bytes of a key that is written at the call are compared there.
#[inline(always)]
pub fn is(word: &[u8], key: &[u8]) -> bool
    ensures { result ≡ bytes_eq word.now key.now }
{
    if word.len() != key.len() {
        return false;
    }
    let mut at = 0;
    while at < key.len() {
        if word[at] != key[at] {
            return false;
        }
        at += 1;
    }
    true
}

fn moment_key(chosen: MomentField) -> &'static [u8]
    ensures { result.now ≡ moment_key chosen }
{
    match chosen {
        MomentField::Index => b":index",
        MomentField::Time => b":time",
    }
}
