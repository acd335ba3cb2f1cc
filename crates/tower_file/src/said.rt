//! Reads what a register says by itself.

ghost use Rattle.std.specs.Prelude.{◌≡◌, List, Option};
ghost use Rattle.edn_reader.specs.Grammar.{ElementModel};
ghost use Rattle.edn_reader.specs.Given.{Given, seen};
ghost use Rattle.edn_reader.specs.Lent.{PairsLeft as PairsOfView, MembersLeft};
ghost use Rattle.intervals.specs.Terms.{writers_of};
ghost use Rattle.tower_file.specs.Form.{Sequence, RegisterForm, AreRegisterFields, IsGiven, IsSequence, AreVectorElements};
ghost use Rattle.tower_file.specs.Reading.{each, domain_value, process_of, writers_in, domain_in, parts_in, said_by};
ghost use Rattle.tower_file.specs.Views.{GivesOrMemory};
ghost use Rattle.tower_file.specs.Stated.{AreFieldsOf, NamesLeft, IsSaid, ShowsOrMemory, domain_items};

use crate::element::{
    needed, process_of, read_fixed, read_initial, read_kind, read_name, value_of,
};
use crate::fault::{TowerFault, TowerField};
use edn_reader::{Field, MapView, VectorView};
use intervals::{Initial, Kind, Value, Writers};
use std::alloc::Global;

/// What a register has under each key that is read.
#[derive(Clone, Copy)]
pub struct Fields<'t> {
    name: Field<'t>,
    kind: Field<'t>,
    writers: Field<'t>,
    initial: Field<'t>,
    domain: Field<'t>,
    parts: Field<'t>,
    fixed: Field<'t>,
}

/// What a register says by itself, before it is placed among the others.
#[derive(Drop)]
pub struct RegisterFields<'t> {
    pub name: &'t [u8],
    pub kind: Kind,
    pub writers: Writers,
    pub initial: Option<Initial>,
    pub domain: Option<Vec<Value>>,
    pub parts: Option<VectorView<'t>>,
    pub fixed: bool,
}

pub fn look_up<'t>(map: &MapView<'t>) -> Fields<'t>
    ensures { (pairs : List (ElementModel × ElementModel)) (form : RegisterForm) → PairsOfView map.now pairs → AreRegisterFields pairs form → AreFieldsOf result form }
{
    Fields {
        name: map.field(b":name"),
        kind: map.field(b":kind"),
        writers: map.field(b":writers"),
        initial: map.field(b":initial"),
        domain: map.field(b":domain"),
        parts: map.field(b":of"),
        fixed: map.field(b":fixed"),
    }
}

pub fn read_said<'t>(alloc: Global, fields: &Fields<'t>) -> Result<RegisterFields<'t>, TowerFault>
    ensures { (form : RegisterForm) → AreFieldsOf fields.now form → ShowsOrMemory IsSaid result (said_by form) }
{
    let name = read_name(&fields.name)?;
    let kind = read_kind(&fields.kind)?;
    let writers = read_writers(alloc, &fields.writers)?;
    let initial = read_initial(&fields.initial)?;
    let domain = read_domain(alloc, &fields.domain)?;
    let parts = read_parts(&fields.parts)?;
    let fixed = read_fixed(&fields.fixed)?;
    Ok(RegisterFields {
        name,
        kind,
        writers,
        initial,
        domain,
        parts,
        fixed,
    })
}

fn read_writers(alloc: Global, field: &Field) -> Result<Writers, TowerFault>
    ensures { (given : Given Sequence) → IsGiven IsSequence (seen field.now) given → GivesOrMemory writers_of result (writers_in given) }
{
    let element = needed(field, TowerField::Writers)?;
    if element.is_keyword(b":any") {
        return Ok(Writers::Any);
    }
    match element.as_vector() {
        Some(view) => Ok(Writers::Listed(processes_of(alloc, view)?)),
        None => Err(TowerFault::Shape(TowerField::Writers)),
    }
}

fn processes_of(alloc: Global, view: VectorView) -> Result<Vec<i64>, TowerFault>
    ensures { (members : List ElementModel) → MembersLeft view.entry members → GivesOrMemory (λ found. found.items) result (each process_of members) }
{
    let mut left = view;
    let mut processes = Vec::new(alloc);
    while let Some(element) = left.next() {
        processes.push(process_of(&element)?)?;
    }
    Ok(processes)
}

fn read_domain(alloc: Global, field: &Field) -> Result<Option<Vec<Value>>, TowerFault>
    ensures { (given : Given (Option (List ElementModel))) → IsGiven AreVectorElements (seen field.now) given → GivesOrMemory domain_items result (domain_in given) }
{
    let element = match field {
        Field::Absent => return Ok(None),
        Field::Once(element) => *element,
        Field::Twice => return Err(TowerFault::Shape(TowerField::Domain)),
    };
    match element.as_vector() {
        Some(view) => Ok(Some(values_of(alloc, view)?)),
        None => Err(TowerFault::Shape(TowerField::Domain)),
    }
}

fn values_of(alloc: Global, view: VectorView) -> Result<Vec<Value>, TowerFault>
    ensures { (members : List ElementModel) → MembersLeft view.entry members → GivesOrMemory (λ found. found.items) result (each domain_value members) }
{
    let mut left = view;
    let mut values = Vec::new(alloc);
    while let Some(element) = left.next() {
        values.push(value_of(&element)?)?;
    }
    Ok(values)
}

fn read_parts<'t>(field: &Field<'t>) -> Result<Option<VectorView<'t>>, TowerFault>
    ensures { (given : Given (Option (List ElementModel))) → IsGiven AreVectorElements (seen field.now) given → ShowsOrMemory NamesLeft result (parts_in given) }
{
    let element = match field {
        Field::Absent => return Ok(None),
        Field::Once(element) => *element,
        Field::Twice => return Err(TowerFault::Shape(TowerField::Parts)),
    };
    match element.as_vector() {
        Some(view) => Ok(Some(view)),
        None => Err(TowerFault::Shape(TowerField::Parts)),
    }
}
