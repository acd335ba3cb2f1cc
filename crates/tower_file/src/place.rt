//! Places a register among those before it.

ghost use Rattle.std.specs.Prelude.{◌≡◌, ◌<◌, List, Option, None, IfOk, OnOk, length, not};
ghost use Rattle.edn_reader.specs.Grammar.{ElementModel};
ghost use Rattle.edn_reader.specs.Lent.{piece_of, MembersLeft};
ghost use Rattle.std.specs.List.{list_any};
ghost use Rattle.intervals.specs.Operation.{same_value};
ghost use Rattle.intervals.specs.Terms.{writers_of, terms_of, IsKnownUnlessAtomic};
ghost use Rattle.tower_file.specs.Contents.{number_of};
ghost use Rattle.tower_file.specs.Reading.{each, RegisterFields as SaidBy, has_its_writers, has_its_initial, part_of, is_empty_domain, is_outside, stated_or_nil, register_among};
ghost use Rattle.tower_file.specs.Views.{kept_register, GivesOrMemory};
ghost use Rattle.tower_file.specs.Stated.{NamesLeft, IsSaid, domain_items};

use crate::element::name_of;
use crate::fault::TowerFault;
use crate::registers::{NameEntry, Registers};
use crate::said::RegisterFields;
use edn_reader::{Element, VectorView};
use intervals::{Claim, Initial, Kind, RegId, Value, Writers};
use std::alloc::Global;

/// The most registers that a tower may have.
const MOST_REGISTERS: usize = 65_536;

/// The name and the entry of the register that says this, on a level whose first register has the number `first`.
pub fn place(
    alloc: Global,
    said: RegisterFields,
    level: usize,
    first: usize,
    registers: &Registers,
) -> Result<(Vec<u8>, NameEntry), TowerFault>
    ensures placed { (form : SaidBy) → IsSaid said.entry form → GivesOrMemory kept_register result (register_among level first registers.now form) }
    ensures new { IfOk result (λ entry. number_of registers.now entry.0.items ≡ None) }
    ensures room { OnOk result (length registers.now < 65536) }
    ensures known { IfOk result (λ entry. IsKnownUnlessAtomic (terms_of entry.1.claim)) }
{
    let RegisterFields {
        name,
        kind,
        writers,
        initial,
        domain,
        parts,
        fixed,
    } = said;
    if registers.find(name).is_some() {
        return Err(TowerFault::NameTaken);
    }
    if !has_its_writers(kind, &writers) {
        return Err(TowerFault::WriterCount);
    }
    if !has_its_initial(kind, initial) {
        return Err(TowerFault::UnknownInitial);
    }
    let parts = read_parts(alloc, parts, first, registers)?;
    if is_empty(&domain) {
        return Err(TowerFault::EmptyDomain);
    }
    if is_outside(initial, &domain) {
        return Err(TowerFault::InitialOutOfDomain);
    }
    if registers.len() >= MOST_REGISTERS {
        return Err(TowerFault::TooMany);
    }
    let entry = NameEntry {
        claim: Claim {
            kind,
            writers,
            initial: initial_of(initial),
            domain,
            fixed,
        },
        level,
        parts,
    };
    Ok((Vec::from_slice(alloc, name)?, entry))
}

/// Whether a register has the writers that its kind allows: one if safe or regular, any if atomic.
fn has_its_writers(kind: Kind, writers: &Writers) -> bool
    ensures { result ≡ has_its_writers kind (writers_of writers.now) }
{
    match (kind, writers) {
        (Kind::Atomic, _) => true,
        (_, writers) => writers.is_one(),
    }
}

/// Whether a register has an initial value that its kind allows: a known one if safe or regular, any if atomic.
fn has_its_initial(kind: Kind, initial: Option<Initial>) -> bool
    ensures { result ≡ has_its_initial kind initial }
{
    match (kind, initial) {
        (Kind::Atomic, _) => true,
        (_, Some(Initial::Unknown)) => false,
        _ => true,
    }
}

fn is_empty(domain: &Option<Vec<Value>>) -> bool
    ensures { result ≡ is_empty_domain (domain_items domain.now) }
{
    match domain {
        Some(values) => values.len() == 0,
        None => false,
    }
}

/// Whether there are a known initial value and a domain, and the value is not in the domain.
fn is_outside(initial: Option<Initial>, domain: &Option<Vec<Value>>) -> bool
    ensures { result ≡ is_outside initial (domain_items domain.now) }
{
    match (initial, domain) {
        (Some(Initial::Known(value)), Some(values)) => !is_among(values.as_slice(), value),
        _ => false,
    }
}

fn is_among(values: &[Value], value: Value) -> bool
    ensures { result ≡ list_any (λ other. same_value other value) values.now }
{
    values.iter().any(|other| is_same(*other, value))
}

fn is_same(a: Value, b: Value) -> bool
    ensures { result ≡ same_value a b }
{
    a == b
}

/// The stated initial value; nil where none is stated.
fn initial_of(initial: Option<Initial>) -> Initial
    ensures { result ≡ stated_or_nil initial }
{
    match initial {
        Some(initial) => initial,
        None => Initial::Known(Value::Nil),
    }
}

fn read_parts(
    alloc: Global,
    parts: Option<VectorView>,
    first: usize,
    registers: &Registers,
) -> Result<Vec<RegId>, TowerFault>
    ensures { (members : List ElementModel) → NamesLeft parts.entry members → GivesOrMemory (λ found. found.items) result (each (part_of first registers.now) members) }
{
    match parts {
        Some(view) => parts_of(alloc, view, first, registers),
        None => Ok(Vec::new(alloc)),
    }
}

fn parts_of(
    alloc: Global,
    view: VectorView,
    first: usize,
    registers: &Registers,
) -> Result<Vec<RegId>, TowerFault>
    ensures { (members : List ElementModel) → MembersLeft view.entry members → GivesOrMemory (λ found. found.items) result (each (part_of first registers.now) members) }
{
    let mut left = view;
    let mut parts = Vec::new(alloc);
    while let Some(element) = left.next() {
        parts.push(part_of(&element, first, registers)?)?;
    }
    Ok(parts)
}

/// The register of an earlier level, with a number below `first`, that an element names.
pub fn part_of(element: &Element, first: usize, registers: &Registers) -> Result<RegId, TowerFault>
    ensures { result ≡ part_of first registers.now (piece_of element.now) }
{
    match registers.find(name_of(element)) {
        Some(number) if (number.0 as usize) < first => Ok(number),
        _ => Err(TowerFault::UnknownPart),
    }
}
