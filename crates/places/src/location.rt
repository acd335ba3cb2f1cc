//! Where the elements of a text are.

ghost use Rattle.std.specs.Prelude.{◌≡◌, ◌+◌, IfOk, IsTrue, ◌↔◌, length, map};
ghost use Rattle.edn_reader.specs.Fault.{IsMemory, AreElementsBefore};
ghost use Rattle.edn_reader.specs.Lent.{piece_of};
ghost use Rattle.places.specs.Location.{element_spot, spot_of_byte};

use crate::line_column::{Cursor, LineColumn};
use edn_reader::laws::elements_of_a_prefix;
use edn_reader::{EdnFault, Element, Reader};
use std::alloc::{AllocError, Global};

/// The place of a first byte and the place after a last one, and the line and the column of the first.
#[derive(Clone, Copy)]
pub struct Location {
    pub start: usize,
    pub end: usize,
    pub place: LineColumn,
}

/// The elements of a text, or those before its fault, with their spots, by number.
#[derive(Drop)]
pub struct Elements<'t> {
    pub elements: Vec<Element<'t>>,
    pub spots: Vec<Location>,
}

/// The elements of a text, or those before its fault.
pub fn elements_of<'t>(alloc: Global, text: &'t [u8]) -> Result<Elements<'t>, AllocError>
    ensures elements { IfOk result (λ found. AreElementsBefore text.entry.now (map piece_of found.elements.items)) }
    ensures spots { IfOk result (λ found. found.spots.items ≡ map (element_spot text.entry.now) (map piece_of found.elements.items)) }
    ensures each { IfOk result (λ found. length found.elements.items ≡ length found.spots.items) }
{
    elements_of_a_prefix();
    let mut reader = Reader::new(alloc, text);
    let mut cursor = Cursor::new(text);
    let mut spots = Vec::new(alloc);
    let mut elements = Vec::new(alloc);
    loop {
        match reader.next() {
            Ok(Some(element)) => {
                spots.push(spot_in(&mut cursor, &element))?;
                elements.push(element)?;
            }
            Ok(None) => return Ok(Elements { elements, spots }),
            Err(fault) => {
                if is_memory(fault) {
                    return Err(AllocError);
                }
                return Ok(Elements { elements, spots });
            }
        }
    }
}

/// The spot of an element of the cursor's text.
pub fn spot_in(cursor: &mut Cursor, element: &Element) -> Location
    ensures spot { result ≡ element_spot cursor.old.text.now (piece_of element.now) }
    ensures text { cursor.new.text ≡ cursor.old.text }
{
    let (start, end) = element.span();
    Location {
        start,
        end,
        place: cursor.go_to(start),
    }
}

/// The spot of one byte; an empty spot at the end of the text where there is no such byte.
pub fn spot_of_one(text: &[u8], at: usize) -> Location
    ensures { result ≡ spot_of_byte text.now at }
{
    let start = at.min(text.len());
    Location {
        start,
        end: (start + 1).min(text.len()),
        place: Cursor::new(text).go_to(at),
    }
}

fn is_memory(fault: EdnFault) -> bool
    ensures { IsTrue result ↔ IsMemory fault }
{
    match fault {
        EdnFault::Memory(_) => true,
        EdnFault::Truncated(_)
        | EdnFault::StrayClose(_)
        | EdnFault::WrongClose(_)
        | EdnFault::TooDeep(_)
        | EdnFault::OddMap(_)
        | EdnFault::TagWithoutElement(_) => false,
    }
}
