//! Reads the levels of a tower.

ghost use Rattle.std.specs.Prelude.{◌≡◌, ◌≢◌, List, Option, Some, Ok, Err, IfOk, IfErr, OnOk, codes};
ghost use Rattle.edn_reader.specs.Grammar.{ElementModel};
ghost use Rattle.edn_reader.specs.Pairs.{HasMembers};
ghost use Rattle.edn_reader.specs.Lent.{piece_of, PairsLeft, MembersLeft};
ghost use Rattle.edn_reader.specs.Given.{Given, One, seen};
ghost use Rattle.tower_file.specs.Form.{under, RegisterForm, LevelForm, IsGiven, IsVectorOf, IsRegister, IsLevel};
ghost use Rattle.tower_file.specs.Steps.{GivesSeen};
ghost use Rattle.tower_file.specs.Located.{at_key, pairs_under, byte_span_of, fault_alone, NoneForMemory, IsInLevel, IsAmongLevels};
ghost use Rattle.tower_file.specs.Reading.{name_in, vector_in, level_after, levels_after};
ghost use Rattle.tower_file.specs.Keeping.{IsLevelKept, ReachesKept};
ghost use Rattle.tower_file.specs.Views.{contents_with};
ghost use Rattle.tower_file.specs.Stated.{FormsLeft, ShowsOrMemory, IsSpanned, IsVectorAt};
ghost use Rattle.tower_file.specs.declared.fault.TowerFault.TheVariants.{Memory};

use crate::element::{needed, read_name};
use crate::fault::{TowerFault, TowerField};
use crate::locate::at_key;
use crate::located::{LocatedFault, located};
use crate::register::read_registers;
use crate::registers::Registers;
use edn_reader::{Element, Field, MapView, VectorView};
use std::alloc::Global;

/// Reads levels, and adds them and their registers to those before.
pub fn read_levels(
    alloc: Global,
    view: VectorView,
    levels: &mut Vec<Vec<u8>>,
    registers: &mut Registers,
) -> Result<(), LocatedFault>
    ensures ok { OnOk result ((forms : List (Option LevelForm)) → FormsLeft IsLevel view.entry forms
        → levels_after (contents_with levels.old registers.old) forms ≡ Ok (contents_with levels.new registers.new)) }
    ensures err { IfErr result (λ located. located.fault ≢ Memory → (forms : List (Option LevelForm)) → FormsLeft IsLevel view.entry forms
        → levels_after (contents_with levels.old registers.old) forms ≡ Err located.fault) }
    ensures span { IfErr result (λ located. located.fault ≢ Memory → (forms : List (Option LevelForm)) (are : FormsLeft IsLevel view.entry forms)
        → IsSpanned (IsAmongLevels (contents_with levels.old registers.old) located.fault are.0) located.span) }
    ensures nowhere { IfErr result (λ located. NoneForMemory located) }
    ensures memory { IfErr result (λ located. located.fault ≡ Memory → (forms : List (Option LevelForm)) → FormsLeft IsLevel view.entry forms
        → ReachesKept (contents_with levels.old registers.old) forms) }
{
    let mut left = view;
    while let Some(element) = left.next() {
        read_level(alloc, &element, levels, registers)?;
    }
    Ok(())
}

fn read_level(
    alloc: Global,
    element: &Element,
    levels: &mut Vec<Vec<u8>>,
    registers: &mut Registers,
) -> Result<(), LocatedFault>
    ensures ok { OnOk result ((form : Option LevelForm) → IsLevel (piece_of element.now) form
        → level_after (contents_with levels.old registers.old) form ≡ Ok (contents_with levels.new registers.new)) }
    ensures err { IfErr result (λ located. located.fault ≢ Memory → (form : Option LevelForm) → IsLevel (piece_of element.now) form
        → level_after (contents_with levels.old registers.old) form ≡ Err located.fault) }
    ensures span { IfErr result (λ located. located.fault ≢ Memory → (form : Option LevelForm) → IsLevel (piece_of element.now) form
        → IsSpanned (IsInLevel (contents_with levels.old registers.old) located.fault (piece_of element.now)) located.span) }
    ensures nowhere { IfErr result (λ located. NoneForMemory located) }
    ensures memory { IfErr result (λ located. located.fault ≡ Memory → (form : Option LevelForm) → IsLevel (piece_of element.now) form → IsLevelKept form) }
{
    let Some(map) = element.as_map() else {
        return Err(located(TowerFault::Shape(TowerField::Levels), element));
    };
    let name = level_name(element, &map)?;
    let view = vector_under(element, &map, b":registers", TowerField::Registers)?;
    read_registers(alloc, view, levels.len(), registers)?;
    levels.push(Vec::from_slice(alloc, name)?)?;
    Ok(())
}

fn level_name<'t>(element: &Element<'t>, map: &MapView<'t>) -> Result<&'t [u8], LocatedFault>
    ensures name { (pairs : List (ElementModel × ElementModel)) → PairsLeft map.now pairs
        → GivesSeen (λ name. name.now) (fault_alone result) (name_in TowerField.Name (under (codes ":name") pairs)) }
    ensures span { IfErr result (λ located. (pairs : List (ElementModel × ElementModel)) → PairsLeft map.now pairs
        → located.span ≡ Some (byte_span_of (at_key (piece_of element.now) (pairs_under (codes ":name") pairs)))) }
    ensures shape { IfErr result (λ located. located.fault ≢ Memory) }
{
    match read_name(&map.field(b":name")) {
        Ok(name) => Ok(name),
        Err(fault) => Err(located(fault, &at_key(element, map, b":name"))),
    }
}

/// The vector under a key that a map must have once; a fault has the span of what is wrong at the key.
pub fn vector_under<'t>(
    element: &Element<'t>,
    map: &MapView<'t>,
    key: &[u8],
    name: TowerField,
) -> Result<VectorView<'t>, LocatedFault>
    ensures registers { (pairs : List (ElementModel × ElementModel)) (given : Given (Option (List (Option RegisterForm)))) → PairsLeft map.now pairs
        → IsGiven (IsVectorOf IsRegister) (under key.now pairs) given → ShowsOrMemory (FormsLeft IsRegister) (fault_alone result) (vector_in name given) }
    ensures levels { (pairs : List (ElementModel × ElementModel)) (given : Given (Option (List (Option LevelForm)))) → PairsLeft map.now pairs
        → IsGiven (IsVectorOf IsLevel) (under key.now pairs) given → ShowsOrMemory (FormsLeft IsLevel) (fault_alone result) (vector_in name given) }
    ensures shape { IfErr result (λ located. located.fault ≡ TowerFault.Shape name) }
    ensures vector { IfOk result (λ view. (pairs : List (ElementModel × ElementModel)) → PairsLeft map.now pairs → IsVectorAt (pairs_under key.now pairs) view) }
    ensures span { IfErr result (λ located. (pairs : List (ElementModel × ElementModel)) → PairsLeft map.now pairs
        → located.span ≡ Some (byte_span_of (at_key (piece_of element.now) (pairs_under key.now pairs)))) }
{
    match read_vector(&map.field(key), name) {
        Ok(view) => Ok(view),
        Err(fault) => Err(located(fault, &at_key(element, map, key))),
    }
}

/// The vector in a field that must be there once.
fn read_vector<'t>(field: &Field<'t>, name: TowerField) -> Result<VectorView<'t>, TowerFault>
    ensures registers { (given : Given (Option (List (Option RegisterForm)))) → IsGiven (IsVectorOf IsRegister) (seen field.now) given
        → ShowsOrMemory (FormsLeft IsRegister) result (vector_in name given) }
    ensures levels { (given : Given (Option (List (Option LevelForm)))) → IsGiven (IsVectorOf IsLevel) (seen field.now) given
        → ShowsOrMemory (FormsLeft IsLevel) result (vector_in name given) }
    ensures shape { IfErr result (λ fault. fault ≡ TowerFault.Shape name) }
    ensures vector { IfOk result (λ view. (value : ElementModel) × (seen field.now ≡ One value) × ((members : List ElementModel) → MembersLeft view members → HasMembers value members)) }
{
    match needed(field, name)?.as_vector() {
        Some(view) => Ok(view),
        None => Err(TowerFault::Shape(name)),
    }
}
