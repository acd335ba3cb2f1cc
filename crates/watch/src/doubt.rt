//! The elements that were left out so far, and what of them is in doubt when a verdict changes.

ghost use Rattle.std.specs.Prelude.{◌≡◌, ◌<◌, ◌++◌, ◌==◌, ◌∷◌, [], ℕ, List, IfOk, OnOk, if◌then◌else◌, length, map};
ghost use Rattle.logs.specs.declared.notice.Notice.{Notice as ANotice};
ghost use Rattle.watch.specs.Doubt.{AreLeft, element_of, kept_at, left_out_before, of_register, element_place, rested_among, rested_before};

use intervals::RegId;
use logs::Notice;
use pairing::About;
use report::{Doubt, change_rests_on};
use shards::VerdictChange;
use std::alloc::{AllocError, Global};

/// An element that was left out: its trace and its place there, and what it is about.
#[derive(Clone, Copy)]
pub struct LeftElement {
    pub at: (usize, u64),
    pub about: About,
}

/// The elements that were left out so far, by the number of the register that they are of. There may be fewer lists than
/// registers.
#[derive(Drop)]
pub struct LeftSoFar {
    by_register: Vec<Vec<LeftElement>>,
}

impl LeftSoFar {
    pub fn new(alloc: Global) -> Self
        ensures { AreLeft [] result }
    {
        LeftSoFar {
            by_register: Vec::new(alloc),
        }
    }

    /// Notes the element that a notice says was left out, if it does.
    pub fn note(&mut self, alloc: Global, notice: &Notice) -> Result<(), AllocError>
        ensures { OnOk result ((earlier : List ANotice) → AreLeft earlier self.old → AreLeft (earlier ++ notice.now ∷ []) self.new) }
    {
        match element_of(notice) {
            Some(element) => self.note_element(alloc, element),
            None => Ok(()),
        }
    }

    /// Notes an element, where it is of a register.
    fn note_element(&mut self, alloc: Global, element: LeftElement) -> Result<(), AllocError>
        ensures { OnOk result ((number : ℕ) → kept_at self.new number ≡ kept_at self.old number ++ of_register number element) }
    {
        match element.about.register {
            Some(register) => self.add(alloc, register.0 as usize, element),
            None => Ok(()),
        }
    }

    /// Adds an element to those of the register of this number.
    fn add(&mut self, alloc: Global, number: usize, element: LeftElement) -> Result<(), AllocError>
        ensures { OnOk result ((other : ℕ) → kept_at self.new other ≡ kept_at self.old other ++ (if number == other then element ∷ [] else [])) }
    {
        self.reach(alloc, number)?;
        self.by_register[number].push(element)?;
        Ok(())
    }

    /// Sees to it that there is a list of this number.
    fn reach(&mut self, alloc: Global, number: usize) -> Result<(), AllocError>
        ensures reached { OnOk result (number < length self.new.by_register.items) }
        ensures same { OnOk result ((other : ℕ) → kept_at self.new other ≡ kept_at self.old other) }
    {
        while self.by_register.len() <= number {
            self.by_register.push(Vec::new(alloc))?;
        }
        Ok(())
    }

    /// What is in doubt at a notice: the elements left out of the register whose verdict it says has changed, and those
    /// of them on which its failure rests.
    pub fn doubt(&self, alloc: Global, notice: &Notice) -> Result<Doubt, AllocError>
        ensures { IfOk result (λ doubt. (earlier : List ANotice) → AreLeft earlier self.now → (doubt.left_out.items ≡ left_out_before earlier notice.now) × (doubt.rests_on.items ≡ rested_before earlier notice.now)) }
    {
        match notice {
            Notice::Changed { change, .. } => doubt_of(alloc, self.of(change.register), change),
            Notice::Refused { .. } | Notice::Broke { .. } | Notice::Ended { .. } => {
                Ok(Doubt {
                    left_out: Vec::new(alloc),
                    rests_on: Vec::new(alloc),
                })
            }
        }
    }

    /// The elements of a register.
    fn of(&self, register: RegId) -> &[LeftElement]
        ensures { result.now ≡ kept_at self.now register.0 }
    {
        match self.by_register.get(register.0 as usize) {
            Some(elements) => elements.as_slice(),
            None => &[],
        }
    }
}

/// The element that a notice says was left out, if it does.
fn element_of(notice: &Notice) -> Option<LeftElement>
    ensures { result ≡ element_of notice.now }
{
    match notice {
        Notice::Refused {
            feeder,
            place,
            left_out,
            ..
        } => Some(LeftElement {
            at: (*feeder as usize, *place),
            about: left_out.about,
        }),
        Notice::Changed { .. } | Notice::Broke { .. } | Notice::Ended { .. } => None,
    }
}

/// What is in doubt where the verdict changes of a register of which these elements were left out.
fn doubt_of(
    alloc: Global,
    left: &[LeftElement],
    change: &VerdictChange,
) -> Result<Doubt, AllocError>
    ensures left_out { IfOk result (λ doubt. doubt.left_out.items ≡ map element_place left.now) }
    ensures rests_on { IfOk result (λ doubt. doubt.rests_on.items ≡ map element_place (rested_among change.now left.now)) }
{
    let mut doubt = Doubt {
        left_out: Vec::new(alloc),
        rests_on: Vec::new(alloc),
    };
    for element in left {
        doubt.left_out.push(element.at)?;
        if change_rests_on(change, &element.about) {
            doubt.rests_on.push(element.at)?;
        }
    }
    Ok(doubt)
}
