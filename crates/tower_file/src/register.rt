//! Reads the registers of a level.

ghost use Rattle.std.specs.Prelude.{◌≡◌, ◌≢◌, ◌<◌, List, Option, None, Ok, Err, IfOk, IfErr, OnOk, length};
ghost use Rattle.edn_reader.specs.Lent.{piece_of};
ghost use Rattle.intervals.specs.Terms.{terms_of, IsKnownUnlessAtomic};
ghost use Rattle.tower_file.specs.Form.{RegisterForm, IsRegister};
ghost use Rattle.tower_file.specs.Contents.{number_of};
ghost use Rattle.tower_file.specs.Reading.{register_read, with_registers};
ghost use Rattle.tower_file.specs.Views.{kept_register, GivesOrMemory};
ghost use Rattle.tower_file.specs.Located.{IsInRegister, IsAmongRegisters, fault_alone, NoneForMemory};
ghost use Rattle.tower_file.specs.Stated.{FormsLeft, IsSpanned};
ghost use Rattle.tower_file.specs.declared.fault.TowerFault.TheVariants.{Memory};

use crate::fault::{TowerFault, TowerField};
use crate::locate::in_register;
use crate::located::{LocatedFault, located};
use crate::place::place;
use crate::registers::{NameEntry, Registers};
use crate::said::{look_up, read_said};
use edn_reader::{Element, VectorView};
use std::alloc::Global;

/// Reads the registers of a level, and adds them to those before.
pub fn read_registers(
    alloc: Global,
    view: VectorView,
    level: usize,
    registers: &mut Registers,
) -> Result<(), LocatedFault>
    ensures ok { OnOk result ((forms : List (Option RegisterForm)) → FormsLeft IsRegister view.entry forms
        → with_registers level registers.old forms ≡ Ok registers.new) }
    ensures err { IfErr result (λ located. located.fault ≢ Memory → (forms : List (Option RegisterForm)) → FormsLeft IsRegister view.entry forms
        → with_registers level registers.old forms ≡ Err located.fault) }
    ensures span { IfErr result (λ located. located.fault ≢ Memory → (forms : List (Option RegisterForm)) (are : FormsLeft IsRegister view.entry forms)
        → IsSpanned (IsAmongRegisters level (length registers.old) registers.old located.fault are.0) located.span) }
    ensures nowhere { IfErr result (λ located. NoneForMemory located) }
{
    let first = registers.len();
    let mut left = view;
    while let Some(element) = left.next() {
        let (name, entry) = locate_register(alloc, &element, level, first, registers)?;
        registers.push(name, entry)?;
    }
    Ok(())
}

/// Reads a register; its fault has the span of what it is about.
fn locate_register(
    alloc: Global,
    element: &Element,
    level: usize,
    first: usize,
    registers: &Registers,
) -> Result<(Vec<u8>, NameEntry), LocatedFault>
    ensures register { (form : Option RegisterForm) → IsRegister (piece_of element.now) form
        → GivesOrMemory kept_register (fault_alone result) (register_read level first registers.now form) }
    ensures new { IfOk result (λ entry. number_of registers.now entry.0.items ≡ None) }
    ensures room { OnOk result (length registers.now < 65536) }
    ensures known { IfOk result (λ entry. IsKnownUnlessAtomic (terms_of entry.1.claim)) }
    ensures span { IfErr result (λ located. located.fault ≢ Memory
        → IsSpanned (IsInRegister first registers.now located.fault (piece_of element.now)) located.span) }
    ensures nowhere { IfErr result (λ located. NoneForMemory located) }
{
    match read_register(alloc, element, level, first, registers) {
        Ok(found) => Ok(found),
        Err(fault) => Err(located(fault, &in_register(element, fault, first, registers))),
    }
}

fn read_register(
    alloc: Global,
    element: &Element,
    level: usize,
    first: usize,
    registers: &Registers,
) -> Result<(Vec<u8>, NameEntry), TowerFault>
    ensures register { (form : Option RegisterForm) → IsRegister (piece_of element.now) form → GivesOrMemory kept_register result (register_read level first registers.now form) }
    ensures new { IfOk result (λ entry. number_of registers.now entry.0.items ≡ None) }
    ensures room { OnOk result (length registers.now < 65536) }
    ensures known { IfOk result (λ entry. IsKnownUnlessAtomic (terms_of entry.1.claim)) }
{
    match element.as_map() {
        Some(map) => {
            let said = read_said(alloc, &look_up(&map))?;
            place(alloc, said, level, first, registers)
        }
        None => Err(TowerFault::Shape(TowerField::Registers)),
    }
}
