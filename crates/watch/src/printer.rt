//! A printer: an output, and how notices are written on it.

ghost use Rattle.std.specs.Prelude.{◌≡◌, ◌⊎◌, ◌<◌, ◌++◌, ◌∷◌, [], true, List, Err, IfOk, OnOk, IsTrue, length, vec_len};
ghost use Rattle.std.specs.Option.{option_to_list};
ghost use Rattle.std.specs.Io.KnownBytes.{Appends};
ghost use Rattle.logs.specs.declared.notice.Notice.{Notice as ANotice};
ghost use Rattle.watch.specs.declared.settling.Held.{Held as AHeld};
ghost use Rattle.watch.specs.Due.{AreDueFirst, AreHeldFrom, has_due, held_notices};
ghost use Rattle.watch.specs.Teller.{HasTold, HasWrittenDue, ArePassedOn, WritesOn, state_after};
ghost use Rattle.watch.specs.Doubt.{AreLeftFor};
ghost use Rattle.watch.specs.Text.{text_of_notice};
ghost use Rattle.watch.specs.Watched.{ends_at};
ghost use Rattle.watch.specs.declared.printer.Unwritten.TheVariants.{Memory as OutOfMemory, Write as Refused};

use crate::doubt::LeftSoFar;
use crate::run::Terms;
use crate::settling::{FeederProgress, Held, passed_on};
use crate::teller::{TellerState, has_told, is_going};
use crate::text::{NoticeForm, notice_text};
use logs::Notice;
use std::alloc::{AllocError, Global};
use std::io::{Error, Write};
use std::marker::{Brand, Model, PhantomData};
use tower_file::Tower;

/// What a lock forgets of a teller: which output it has and what that had before the first notice, whose registers the
/// notices are about, and how they are watched. So it is in the type of a teller, and whoever makes one picks it.
pub trait Beginning {
    ghost use Rattle.std.specs.Borrow.{GName};
    ghost use Rattle.std.specs.Prelude.{ℕ, List, Option};
    ghost use Rattle.tower_file.specs.Contents.{Register};
    ghost use Rattle.watch.specs.declared.run.Terms.{Terms as ATerms};

    ghost output: { GName };

    ghost before: { Option (List ℕ) };

    ghost registers: { List Register };

    ghost terms: { ATerms };
}

impl Beginning for Brand {
    ghost use Rattle.std.specs.Prelude.{None, [], false};
    ghost use Rattle.jepsen_form.specs.declared.item.MomentField.TheVariants.{Index};
    ghost use Rattle.watch.specs.declared.text.NoticeForm.TheVariants.{Line};

    ghost output = { 0 };

    ghost before = { None };

    ghost registers = { [] };

    ghost terms = { record { field = Index; shards = 1; form = Line; until_fail = false; settle = 0 } };
}

/// An output that is lent.
#[derive(Drop)]
pub struct Output<'a, W: Write> {
    pub out: &'a mut W,
}

/// An output, and how notices are written on it, with the elements that they say were left out.
#[derive(Drop)]
pub struct Printer<'a, 't, W: Write, B: Beginning> {
    out: &'a mut W,
    left: LeftSoFar,
    tower: &'t Tower,
    terms: Terms,
    alloc: Global,
    of: PhantomData<B>,
}

impl<'a, 't, W: Write, B: Beginning> Model for Printer<'a, 't, W, B> {
    ghost use Rattle.std.specs.Prelude.{◌≡◌};
    ghost use Rattle.watch.specs.Teller.{PrinterModel};

    ghost Value = { PrinterModel };

    ghost view = { λ p. record { out = W.contents p.out.now; left = p.left } };

    ghost invariant = { λ p. (p.out.ghost_name ≡ B.output) × (p.tower.now.registers ≡ B.registers) × (p.terms ≡ B.terms) };
}

impl<'a, 't, W: Write, B: Beginning> Printer<'a, 't, W, B> {
    /// A printer over an output, before the first notice.
    pub fn new(alloc: Global, tower: &'t Tower, terms: Terms, output: Output<'a, W>) -> Self
        requires output { output.out.ghost_name ≡ B.output }
        requires before { W.contents output.out.now ≡ B.before }
        requires registers { tower.now.registers ≡ B.registers }
        requires terms { terms ≡ B.terms }
        ensures before { result.out ≡ B.before }
        ensures left { AreLeftFor B.terms.form [] result.left }
    {
        let Output { out } = output;
        Printer {
            out,
            left: LeftSoFar::new(alloc),
            tower,
            terms,
            alloc,
            of: PhantomData,
        }
    }

    /// Its output.
    pub fn into_output(self) -> Output<'a, W>
        ensures output { result.out.ghost_name ≡ B.output }
        ensures contents { W.contents result.out.now ≡ self.entry.out }
    {
        let Printer { out, .. } = self;
        Output { out }
    }

    /// Notes a notice, and writes what is to be written now that it comes.
    pub fn take(
        &mut self,
        told: &mut Vec<Notice>,
        held: &mut Vec<Held>,
        progress: &[FeederProgress],
        notice: Notice,
    ) -> TellerState
        ensures told { HasTold result → told.new.items ≡ told.old.items ++ notice ∷ [] }
        ensures written { (written : List ANotice) × WritesOn B.terms B.registers written result self.old self.new
            × (HasTold result → ArePassedOn B.terms.settle (held_notices held.old.items) (notice ∷ []) written (held_notices held.new.items)) }
        ensures held { HasTold result → AreHeldFrom progress.now B.terms.settle notice held.old.items held.new.items }
    {
        match self.noted(told, held, progress, notice) {
            Ok(Some(now)) => self.write_one(&now),
            Ok(None) => TellerState::Going,
            Err(_) => TellerState::OutOfMemory,
        }
    }

    /// Notes a notice, and finds what is to be written now that it comes.
    fn noted(
        &self,
        told: &mut Vec<Notice>,
        held: &mut Vec<Held>,
        progress: &[FeederProgress],
        notice: Notice,
    ) -> Result<Option<Notice>, AllocError>
        ensures told { OnOk result (told.new.items ≡ told.old.items ++ notice ∷ []) }
        ensures passed_on { IfOk result (λ now. ArePassedOn B.terms.settle (held_notices held.old.items) (notice ∷ []) (option_to_list now) (held_notices held.new.items)) }
        ensures held { OnOk result (AreHeldFrom progress.now B.terms.settle notice held.old.items held.new.items) }
    {
        told.reserve(1)?;
        let now = passed_on(self.alloc, held, progress, self.terms.settle, notice)?;
        told.push_reserved(notice);
        Ok(now)
    }

    /// Writes what is due of what is held back, the oldest first, up to the first that is not due.
    pub fn write_due(&mut self, held: &mut Vec<Held>, progress: &[FeederProgress]) -> TellerState
        ensures written { (written : List AHeld) × (held.old.items ≡ written ++ held.new.items) × WritesOn B.terms B.registers (held_notices written) result self.old self.new }
        ensures due { AreDueFirst progress.now held.old.items held.new.items }
        ensures none { HasWrittenDue result progress.now held.new.items }
    {
        let most = held.len();
        for _ in 0..most {
            if !has_due(held.as_slice(), progress) {
                return TellerState::Going;
            }
            let state = self.write_first(held);
            if !is_going(state) {
                return state;
            }
        }
        TellerState::Going
    }

    /// Writes all that is held back where the run is over, and nothing where it broke off.
    pub fn write_last(&mut self, held: &mut Vec<Held>, finished: bool) -> TellerState
        ensures written { (written : List AHeld) × (held.old.items ≡ written ++ held.new.items) × WritesOn B.terms B.registers (held_notices written) result self.old self.new }
        ensures all { finished ≡ true → result ≡ TellerState.Going → held.new.items ≡ [] }
    {
        if finished {
            self.write_left(held)
        } else {
            TellerState::Going
        }
    }

    /// Writes all that is held back, the oldest first.
    fn write_left(&mut self, held: &mut Vec<Held>) -> TellerState
        ensures written { (written : List AHeld) × (held.old.items ≡ written ++ held.new.items) × WritesOn B.terms B.registers (held_notices written) result self.old self.new }
        ensures all { result ≡ TellerState.Going → held.new.items ≡ [] }
    {
        let many = held.len();
        for _ in 0..many {
            let state = self.write_first(held);
            if !is_going(state) {
                return state;
            }
        }
        TellerState::Going
    }

    /// Writes the oldest of what is held back, which is then not held any longer.
    fn write_first(&mut self, held: &mut Vec<Held>) -> TellerState
        requires some { 0 < vec_len held.old }
        ensures written { (written : List AHeld) × (held.old.items ≡ written ++ held.new.items) × WritesOn B.terms B.registers (held_notices written) result self.old self.new
            × (HasTold result → length written ≡ 1) }
        ensures first { (held.new.items ≡ held.old.items) ⊎ ((one : AHeld) × (held.old.items ≡ one ∷ held.new.items)) }
    {
        let state = self.write_one(&held[0].notice());
        if has_told(state) {
            held.remove(0);
        }
        state
    }

    /// Writes a notice.
    fn write_one(&mut self, notice: &Notice) -> TellerState
        ensures told { HasTold result → WritesOn B.terms B.registers (notice.now ∷ []) result self.old self.new }
        ensures none { (¬ HasTold result) → WritesOn B.terms B.registers [] result self.old self.new }
    {
        let written = self.write_notice(notice);
        state_after(written, self.terms.until_fail, notice)
    }

    /// Writes a notice in one write, and flushes it.
    fn write_notice(&mut self, notice: &Notice) -> Result<(), Unwritten>
        ensures written { OnOk result ((earlier : List ANotice) → AreLeftFor B.terms.form earlier self.old.left → Appends self.old.out self.new.out (text_of_notice B.terms.form B.registers earlier notice.now)) }
        ensures left { OnOk result ((earlier : List ANotice) → AreLeftFor B.terms.form earlier self.old.left → AreLeftFor B.terms.form (earlier ++ notice.now ∷ []) self.new.left) }
        ensures memory { result ≡ Err Unwritten.Memory → self.new.out ≡ self.old.out }
    {
        let text = notice_text(self.alloc, self.tower, self.terms.form, &self.left, notice)?;
        note_left(self.alloc, self.terms.form, &mut self.left, notice)?;
        self.out.write_all(text.as_slice())?;
        self.out.flush()?;
        Ok(())
    }
}

/// Notes what a notice says was left out, where a later record may tell of it.
fn note_left(
    alloc: Global,
    form: NoticeForm,
    left: &mut LeftSoFar,
    notice: &Notice,
) -> Result<(), AllocError>
    ensures { OnOk result ((earlier : List ANotice) → AreLeftFor form earlier left.old → AreLeftFor form (earlier ++ notice.now ∷ []) left.new) }
{
    match form {
        NoticeForm::Record => left.note(alloc, notice),
        NoticeForm::Line => Ok(()),
    }
}

/// Whether the oldest of what is held back is due.
fn has_due(held: &[Held], progress: &[FeederProgress]) -> bool
    ensures due { result ≡ has_due held.now progress.now }
    ensures some { IsTrue result → 0 < length held.now }
{
    match held.first() {
        Some(first) => first.is_due(progress),
        None => false,
    }
}

/// The state of a teller that took a notice and wrote it, or could not.
fn state_after(written: Result<(), Unwritten>, until_fail: bool, notice: &Notice) -> TellerState
    ensures { result ≡ state_after written until_fail notice.now }
{
    match written {
        Ok(()) => {
            if ends_at(until_fail, notice) {
                TellerState::Stopped
            } else {
                TellerState::Going
            }
        }
        Err(Unwritten::Memory) => TellerState::OutOfMemory,
        Err(Unwritten::Write) => TellerState::Unwritable,
    }
}

/// Whether a watch ends at this notice.
fn ends_at(until_fail: bool, notice: &Notice) -> bool
    ensures { result ≡ ends_at until_fail notice.now }
{
    match notice {
        Notice::Changed { change, .. } => until_fail && !change.holds,
        Notice::Refused { .. } | Notice::Broke { .. } | Notice::Ended { .. } => false,
    }
}

/// Why a notice was not written.
#[derive(Clone, Copy)]
enum Unwritten {
    Memory,
    Write,
}

impl From<AllocError> for Unwritten {
    ghost from_gives = { λ _ unwritten. unwritten ≡ OutOfMemory };

    fn from(_fault: AllocError) -> Unwritten {
        Unwritten::Memory
    }
}

impl From<Error> for Unwritten {
    ghost from_gives = { λ _ unwritten. unwritten ≡ Refused };

    fn from(_fault: Error) -> Unwritten {
        Unwritten::Write
    }
}
