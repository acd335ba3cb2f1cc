//! Reads the text of a tower file to its end.

ghost use Rattle.std.specs.Prelude.{◌≡◌, List, IfOk, IfErr};
ghost use Rattle.edn_reader.specs.Grammar.{ElementModel};
ghost use Rattle.edn_reader.specs.Text.{IsText};
ghost use Rattle.edn_reader.specs.Fault.{IsMemory};
ghost use Rattle.edn_reader.specs.Given.{given, seen};
ghost use Rattle.tower_file.specs.Located.{text_span, NoneForMemory, fault_place};
ghost use Rattle.tower_file.specs.Stated.{IsTextFault};

use crate::fault::TowerFault;
use crate::located::LocatedFault;
use edn_reader::{EdnFault, Field, Reader};
use std::alloc::Global;

/// What the text is made of: nothing, one element, or more.
fn read_text(alloc: Global, bytes: &[u8]) -> Result<Field<'_>, TowerFault>
    ensures text { IfOk result (λ found. (pieces : List ElementModel) × IsText bytes.now pieces × (seen found ≡ given pieces)) }
    ensures fault { IfErr result (IsTextFault bytes.now) }
{
    let mut reader = Reader::new(alloc, bytes);
    let mut found = Field::Absent;
    loop {
        match reader.next() {
            Ok(Some(element)) => found = found.one_more(element),
            Ok(None) => return Ok(found),
            Err(fault) => return Err(fault_of(fault)),
        }
    }
}

/// What the text is made of: nothing, one element, or more; or its fault, with its place.
pub fn locate_text(alloc: Global, bytes: &[u8]) -> Result<Field<'_>, LocatedFault>
    ensures text { IfOk result (λ found. (pieces : List ElementModel) × IsText bytes.now pieces × (seen found ≡ given pieces)) }
    ensures fault { IfErr result (λ located. IsTextFault bytes.now located.fault) }
    ensures span { IfErr result (λ located. located.span ≡ text_span located.fault) }
    ensures nowhere { IfErr result (λ located. NoneForMemory located) }
{
    match read_text(alloc, bytes) {
        Ok(found) => Ok(found),
        Err(fault) => Err(LocatedFault {
            fault,
            span: span_of(fault),
        }),
    }
}

/// The span of a fault of the text: no bytes, at its place; none for any other fault.
fn span_of(fault: TowerFault) -> Option<(usize, usize)>
    ensures { result ≡ text_span fault }
{
    match fault {
        TowerFault::Edn(fault) => {
            let place = place_of(fault);
            Some((place, place))
        }
        _ => None,
    }
}

fn place_of(fault: EdnFault) -> usize
    ensures { result ≡ fault_place fault }
{
    match fault {
        EdnFault::Truncated(place) => place,
        EdnFault::StrayClose(place) => place,
        EdnFault::WrongClose(place) => place,
        EdnFault::TooDeep(place) => place,
        EdnFault::OddMap(place) => place,
        EdnFault::TagWithoutElement(place) => place,
        EdnFault::Memory(place) => place,
    }
}

/// A fault of the text as one of a tower file: V1, or V9 where memory was refused.
fn fault_of(fault: EdnFault) -> TowerFault
    ensures memory { IsMemory fault → result ≡ TowerFault.Memory }
    ensures text { (IsMemory fault → ⊥) → result ≡ TowerFault.Edn fault }
{
    match fault {
        EdnFault::Memory(_) => TowerFault::Memory,
        _ => TowerFault::Edn(fault),
    }
}
