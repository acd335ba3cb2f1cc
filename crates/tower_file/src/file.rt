//! Reads the map that a tower file is.

ghost use Rattle.std.specs.Prelude.{◌≡◌, ◌≢◌, Option, IfErr};
ghost use Rattle.edn_reader.specs.Lent.{piece_of};
ghost use Rattle.tower_file.specs.Form.{FileForm, IsMapOf, AreFileFields};
ghost use Rattle.tower_file.specs.Reading.{contents_of};
ghost use Rattle.tower_file.specs.Keeping.{KeepsALevel};
ghost use Rattle.tower_file.specs.Views.{contents_with, GivesOrMemory};
ghost use Rattle.tower_file.specs.Located.{IsInFile, fault_alone, NoneForMemory};
ghost use Rattle.tower_file.specs.Stated.{IsSpanned};

use crate::fault::{TowerFault, TowerField};
use crate::level::{read_levels, vector_under};
use crate::located::{LocatedFault, located};
use crate::registers::Registers;
use edn_reader::Element;
use std::alloc::Global;

/// Reads the map that a file is: the names of its levels, and its registers.
pub fn read_file(
    alloc: Global,
    element: &Element,
) -> Result<(Vec<Vec<u8>>, Registers), LocatedFault>
    ensures says { (form : Option FileForm) → IsMapOf AreFileFields (piece_of element.now) form
        → GivesOrMemory (λ read. contents_with read.0 read.1) (fault_alone result) (contents_of form) }
    ensures span { IfErr result (λ located. located.fault ≢ TowerFault.Memory → (form : Option FileForm) → IsMapOf AreFileFields (piece_of element.now) form
        → IsSpanned (IsInFile located.fault (piece_of element.now)) located.span) }
    ensures nowhere { IfErr result (λ located. NoneForMemory located) }
    ensures memory { IfErr result (λ located. located.fault ≡ TowerFault.Memory → (form : Option FileForm) → IsMapOf AreFileFields (piece_of element.now) form → KeepsALevel form) }
{
    let Some(map) = element.as_map() else {
        return Err(located(TowerFault::Shape(TowerField::File), element));
    };
    let view = vector_under(element, &map, b":levels", TowerField::Levels)?;
    let mut levels = Vec::new(alloc);
    let mut registers = Registers::new(alloc);
    read_levels(alloc, view, &mut levels, &mut registers)?;
    Ok((levels, registers))
}
