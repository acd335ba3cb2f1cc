//! Texts that outlive the chunk in which they came.

ghost use Rattle.std.specs.Prelude.{◌≡◌, ◌-◌, ◌≤◌, ℕ, List, take, drop, IfOk, IfSome};
ghost use Rattle.feeders.specs.Pending.{IsPageOf};

use intervals::Memory;
use std::alloc::Global;
use std::sync::Wait;

/// Texts that stay where they were put for as long as the pages exist. Any number of threads may put texts there
/// at once.
#[derive(Drop)]
pub struct Pages {
    texts: boxcar::Vec<Vec<u8>>,
}

impl Pages {
    /// Pages without a text.
    pub fn new(alloc: Global) -> Result<Pages, Memory> {
        Ok(Pages {
            texts: boxcar::Vec::new(alloc)?,
        })
    }

    /// Copies the bytes, and lends the copy. It may wait for another push.
    pub fn push<R: Wait>(&self, rt: &R, alloc: Global, bytes: &[u8]) -> Result<&[u8], Memory>
        ensures { IfOk result (λ text. text.now ≡ bytes.now) }
    {
        match self.texts.push_shown(rt, Vec::from_slice(alloc, bytes)?) {
            Ok(shown) => Ok(self.texts.value(&shown).as_slice()),
            Err(_) => Err(Memory),
        }
    }
}

/// The bytes of a page from the place `from` to the place `to`, where there is a page that has these.
pub fn part_of<'t>(page: Option<&'t [u8]>, from: usize, to: usize) -> Option<&'t [u8]>
    ensures { (bytes : List ℕ) → IsPageOf page.entry bytes → IsPageOf result (take (to - from) (drop from bytes)) }
{
    page?.get(from..to)
}

/// The text, on a page, of an element that begins at the place `start` of the trace and ends with the page's first
/// `used` bytes. The page's first byte has the place `base`; there is no text where the element begins before
/// that.
pub fn text_on<'t>(
    page: Option<&'t [u8]>,
    base: usize,
    start: usize,
    used: usize,
) -> Option<&'t [u8]>
    ensures { (bytes : List ℕ) → IsPageOf page.entry bytes → IfSome result (λ text. (base ≤ start) × (text.now ≡ take (used - (start - base)) (drop (start - base) bytes))) }
{
    part_of(page, start.checked_sub(base)?, used)
}
