//! Where the elements of several texts are.

ghost use Rattle.std.specs.Prelude.{◌≡◌, IfOk, Option, map, Vec};
ghost use Rattle.places.specs.Spots.{AreSpotsOf, HasSpots, line_of_byte, located};

use crate::location::{Location, elements_of, spot_of_one};
use std::alloc::{AllocError, Global};
use std::marker::Model;

/// Some texts, and where the elements of each are, by number.
#[derive(Drop)]
pub struct Places<'t> {
    texts: &'t [Vec<u8>],
    spots: Vec<Vec<Location>>,
}

impl<'t> Model for Places<'t> {
    ghost use Rattle.std.specs.Prelude.{map};
    ghost use Rattle.places.specs.Spots.{PlacesModel};

    ghost Value = { PlacesModel };

    ghost view = { λ a. record { texts = map (λ text. text.items) a.texts.now; spots = map (λ spots. spots.items) a.spots.items } };
}

impl<'t> Places<'t> {
    /// The texts, with no element's place known.
    pub fn unknown(alloc: Global, texts: &'t [Vec<u8>]) -> Places<'t>
        ensures { result.texts ≡ map (λ text. text.items) texts.entry.now }
    {
        Places {
            texts,
            spots: Vec::new(alloc),
        }
    }

    /// The texts, with the place of each element: of all of a text, or of those before its fault.
    pub fn of(alloc: Global, texts: &'t [Vec<u8>]) -> Result<Places<'t>, AllocError>
        ensures { IfOk result (λ places. (places.texts ≡ map (λ text. text.items) texts.entry.now) × HasSpots places) }
    {
        let mut spots = Vec::new(alloc);
        for text in texts {
            spots.push(spots_of(alloc, text)?)?;
        }
        Ok(Places { texts, spots })
    }

    /// The spot of an element, by the number of its text and its number there; none where it is not known.
    pub fn locate(&self, text: u64, number: u64) -> Option<Location>
        ensures { result ≡ located self.now text number }
    {
        let spots = self.spots.get(text as usize)?;
        spots.get(number as usize).copied()
    }

    /// The line of a byte of the text of this number, or that of its end where there is no such byte; none where there is
    /// no such text.
    pub fn line_of(&self, text: u64, byte: u64) -> Option<usize>
        ensures { result ≡ line_of_byte self.now text byte }
    {
        let text = self.texts.get(text as usize)?;
        Some(spot_of_one(text, byte as usize).place.line)
    }
}

/// The spots of the elements of a text, or of those before its fault.
fn spots_of(alloc: Global, text: &[u8]) -> Result<Vec<Location>, AllocError>
    ensures { IfOk result (λ spots. AreSpotsOf text.now spots.items) }
{
    let found = elements_of(alloc, text)?;
    Ok(found.spots)
}
