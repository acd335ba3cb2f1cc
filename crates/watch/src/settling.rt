//! What is held back of the changes that are told, until it is settled.

ghost use Rattle.std.specs.Prelude.{◌≡◌, ◌++◌, ◌∷◌, [], List, IfOk, IfSome, IsNone, OnOk, false, replicate};
ghost use Rattle.std.specs.Option.{option_to_list};
ghost use Rattle.watch.specs.Settling.{notices_of};
ghost use Rattle.watch.specs.declared.settling.Held.{Held as AHeld};
ghost use Rattle.watch.specs.Due.{AreHeldFrom, advanced, advanced_at, has_come, is_due, until_of, held_notice, held_notices, notice_of};
ghost use Rattle.watch.specs.Teller.{ArePassedOn};

use intervals::RegId;
use logs::Notice;
use shards::VerdictChange;
use std::alloc::{AllocError, Global};

/// How far a feeder has come.
#[derive(Clone, Copy)]
pub struct FeederProgress {
    /// How many elements it took.
    pub taken: u64,
    /// Whether its trace ended or broke.
    pub over: bool,
}

/// What a feeder did.
#[derive(Clone, Copy)]
pub enum Advance {
    /// It took one more element.
    Took,
    /// Its trace ended or broke.
    Over,
}

/// A change, with the place of the element whose edit made it, and the line at which that element begins.
#[derive(Clone, Copy)]
pub struct PlacedChange {
    pub feeder: u32,
    pub place: u64,
    pub line: u64,
    pub change: VerdictChange,
}

impl PlacedChange {
    fn notice(self) -> Notice
        ensures { result ≡ notice_of self }
    {
        Notice::Changed {
            feeder: self.feeder,
            place: self.place,
            line: self.line,
            change: self.change,
        }
    }
}

/// A change to `fails` that is held back.
#[derive(Drop)]
pub struct Held {
    placed: PlacedChange,
    /// How many elements each feeder is to have taken, or to be over, before it is written.
    until: Vec<u64>,
}

impl Held {
    /// Its notice.
    pub fn notice(&self) -> Notice
        ensures { result ≡ held_notice self.now }
    {
        self.placed.notice()
    }

    /// Whether each feeder has come as far as it is waited for.
    pub fn is_due(&self, progress: &[FeederProgress]) -> bool
        ensures { result ≡ is_due self.now.until.items progress.now }
    {
        progress
            .iter()
            .zip(self.until.iter())
            .all(|(one, least)| has_come(*one, *least))
    }
}

fn has_come(progress: FeederProgress, least: u64) -> bool
    ensures { result ≡ has_come progress least }
{
    progress.over || least <= progress.taken
}

/// So many feeders that have taken nothing.
pub fn at_the_beginning(alloc: Global, feeders: usize) -> Result<Vec<FeederProgress>, AllocError>
    ensures { IfOk result (λ progress. progress.items ≡ replicate feeders (record { taken = 0; over = false })) }
{
    let mut progress = Vec::new(alloc);
    for _ in 0..feeders {
        progress.push(FeederProgress {
            taken: 0,
            over: false,
        })?;
    }
    Ok(progress)
}

/// Notes that a feeder went on; where there is none of this number nothing changes.
pub fn note_advance(progress: &mut [FeederProgress], feeder: u32, by: Advance)
    ensures { progress.new ≡ advanced_at progress.old feeder by }
{
    let at = feeder as usize;
    if at < progress.len() {
        progress[at] = advanced(progress[at], by);
    }
}

fn advanced(progress: FeederProgress, by: Advance) -> FeederProgress
    ensures { result ≡ advanced progress by }
{
    match by {
        Advance::Took => FeederProgress {
            taken: progress.taken.saturating_add(1),
            over: progress.over,
        },
        Advance::Over => FeederProgress {
            taken: progress.taken,
            over: true,
        },
    }
}

/// What is to be written now that this notice comes: it, or a failure of the same register that was held back, or
/// nothing. A failure is held back, until each feeder has taken `settle` more elements, where that is not 0; and where
/// the register holds again before, both are forgotten.
pub fn passed_on(
    alloc: Global,
    held: &mut Vec<Held>,
    progress: &[FeederProgress],
    settle: u64,
    notice: Notice,
) -> Result<Option<Notice>, AllocError>
    ensures passed_on { IfOk result (λ now. ArePassedOn settle (held_notices held.old.items) (notice ∷ []) (option_to_list now) (held_notices held.new.items)) }
    ensures held { OnOk result (AreHeldFrom progress.now settle notice held.old.items held.new.items) }
{
    match notice {
        Notice::Changed {
            feeder,
            place,
            line,
            change,
        } => {
            let placed = PlacedChange {
                feeder,
                place,
                line,
                change,
            };
            change_passed_on(alloc, held, progress, settle, placed)
        }
        Notice::Refused { .. } | Notice::Broke { .. } | Notice::Ended { .. } => Ok(Some(notice)),
    }
}

/// `passed_on` for a change of a verdict. Verdicts alternate: were a register to fail twice, the first failure would be
/// written then.
fn change_passed_on(
    alloc: Global,
    held: &mut Vec<Held>,
    progress: &[FeederProgress],
    settle: u64,
    placed: PlacedChange,
) -> Result<Option<Notice>, AllocError>
    ensures passed_on { IfOk result (λ now. ArePassedOn settle (held_notices held.old.items) (notice_of placed ∷ []) (option_to_list now) (held_notices held.new.items)) }
    ensures held { OnOk result (AreHeldFrom progress.now settle (notice_of placed) held.old.items held.new.items) }
{
    let change = placed.change;
    match taken_out(held, change.register) {
        Some(before) => {
            if change.holds {
                return Ok(None);
            }
            hold(alloc, held, progress, settle, placed)?;
            Ok(Some(before.notice()))
        }
        None => {
            if change.holds || settle == 0 {
                return Ok(Some(placed.notice()));
            }
            hold(alloc, held, progress, settle, placed)?;
            Ok(None)
        }
    }
}

/// Takes the change of this register out of those that are held back, where there is one.
fn taken_out(held: &mut Vec<Held>, register: RegId) -> Option<Held>
    ensures some { IfSome result (λ one. (front back : List AHeld) × (held.old.items ≡ front ++ one ∷ back) × (held.new.items ≡ front ++ back) × (one.placed.change.register ≡ register)) }
    ensures none { IsNone result → (held.new.items ≡ held.old.items) × (notices_of register.0 (held_notices held.old.items) ≡ []) }
{
    for at in 0..held.len() {
        if held[at].placed.change.register == register {
            return Some(held.remove(at));
        }
    }
    None
}

/// Holds a change back, after all others.
fn hold(
    alloc: Global,
    held: &mut Vec<Held>,
    progress: &[FeederProgress],
    settle: u64,
    placed: PlacedChange,
) -> Result<(), AllocError>
    ensures held { OnOk result (held_notices held.new.items ≡ held_notices held.old.items ++ notice_of placed ∷ []) }
    ensures until { OnOk result ((one : AHeld) × (held.new.items ≡ held.old.items ++ one ∷ []) × (held_notice one ≡ notice_of placed) × (one.until.items ≡ until_of progress.now settle one.placed.feeder)) }
{
    let until = until_settled(alloc, progress, settle, placed.feeder)?;
    held.push(Held { placed, until })?;
    Ok(())
}

/// How many elements each feeder is to have taken when it has taken so many more: of the element that is being taken
/// now, its own feeder has still to be counted.
fn until_settled(
    alloc: Global,
    progress: &[FeederProgress],
    settle: u64,
    feeder: u32,
) -> Result<Vec<u64>, AllocError>
    ensures { IfOk result (λ until. until.items ≡ until_of progress.now settle feeder) }
{
    let mut until = Vec::new(alloc);
    for one in progress {
        until.push(one.taken.saturating_add(settle))?;
    }
    let own = feeder as usize;
    if own < until.len() {
        until[own] = until[own].saturating_add(1);
    }
    Ok(until)
}
