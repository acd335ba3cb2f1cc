//! A teller: a printer, with what it was told and what of that it holds back.

ghost use Rattle.std.specs.Prelude.{◌≡◌, ◌≢◌, ◌++◌, ◌∷◌, [], All, false, List, IsTrue, ◌↔◌};
ghost use Rattle.watch.specs.declared.settling.Held.{Held as AHeld};
ghost use Rattle.watch.specs.declared.settling.FeederProgress.{FeederProgress as AProgress};
ghost use Rattle.watch.specs.Doubt.{AreLeftFor};
ghost use Rattle.watch.specs.Due.{AreDueFirst, AreHeldFrom, advanced_at, held_notices, is_due};
ghost use Rattle.watch.specs.Teller.{HasTold, HasWrittenDue, IsToldAll};

use crate::printer::{Beginning, Output, Printer};
use crate::settling::{Advance, FeederProgress, Held, note_advance};
use logs::Notice;
use std::alloc::Global;
use std::io::Write;
use std::marker::Model;

/// Whether a teller takes notices.
#[derive(Clone, Copy)]
pub enum TellerState {
    /// It takes any.
    Going,
    /// It was to end at the first register that fails, and did.
    Stopped,
    /// Memory was refused for a notice.
    OutOfMemory,
    /// The output refused a notice.
    Unwritable,
}

/// A printer, with what was told of and what is held back.
#[derive(Drop)]
pub struct Teller<'a, 't, W: Write, B: Beginning> {
    printer: Printer<'a, 't, W, B>,
    told: Vec<Notice>,
    held: Vec<Held>,
    progress: Vec<FeederProgress>,
    state: TellerState,
}

impl<'a, 't, W: Write, B: Beginning> Model for Teller<'a, 't, W, B> {
    ghost use Rattle.watch.specs.Teller.{HasWrittenDue, HoldsInTurn, IsTold, TellerModel};
    ghost use Rattle.watch.specs.Due.{held_notices};

    ghost Value = { TellerModel };

    ghost view = { λ t. record { told = t.told.items; held = t.held.items; progress = t.progress.items; state = t.state } };

    ghost invariant = { λ t. IsTold B.terms B.registers B.before t.printer t.told.items (held_notices t.held.items) t.state
        × HasWrittenDue t.state t.progress.items t.held.items × HoldsInTurn t.state B.terms.settle t.progress.items t.held.items };
}

impl<'a, 't, W: Write, B: Beginning> Teller<'a, 't, W, B> {
    /// A teller over a printer, before the first notice, for feeders that have come so far.
    pub fn new(alloc: Global, printer: Printer<'a, 't, W, B>, progress: Vec<FeederProgress>) -> Self
        requires before { printer.out ≡ B.before }
        requires left { AreLeftFor B.terms.form [] printer.left }
        ensures { result ≡ record { told = []; held = []; progress = progress.items; state = TellerState.Going } }
    {
        Teller {
            printer,
            told: Vec::new(alloc),
            held: Vec::new(alloc),
            progress,
            state: TellerState::Going,
        }
    }

    /// Takes a notice, and writes what is to be written then, and what is then due of what is held back. Where it takes
    /// none nothing changes. Of one trace none that is held back is due by then, so what the notice heals failed at most
    /// `settle` elements before.
    pub fn tell(&mut self, notice: Notice)
        ensures told { self.old.state ≡ TellerState.Going → HasTold self.new.state → self.new.told ≡ self.old.told ++ notice ∷ [] }
        ensures progress { self.new.progress ≡ self.old.progress }
        ensures held { self.old.state ≡ TellerState.Going → HasTold self.new.state → (held : List AHeld) × AreHeldFrom self.old.progress B.terms.settle notice self.old.held held × AreDueFirst self.old.progress held self.new.held }
        ensures soon { self.old.state ≡ TellerState.Going → (one : AProgress) → self.old.progress ≡ one ∷ [] → All (λ held. held.placed.feeder ≡ 0 → is_due held.until.items self.old.progress ≡ false) self.old.held }
        ensures over { self.old.state ≢ TellerState.Going → self.new ≡ self.old }
    {
        if !self.goes_on() {
            return;
        }
        let state = self.printer.take(
            &mut self.told,
            &mut self.held,
            self.progress.as_slice(),
            notice,
        );
        self.state = if is_going(state) {
            self.printer
                .write_due(&mut self.held, self.progress.as_slice())
        } else {
            state
        };
    }

    /// Notes that a feeder took one more element or is over, and writes what is then due of what is held back.
    pub fn advance(&mut self, feeder: u32, by: Advance)
        ensures told { self.new.told ≡ self.old.told }
        ensures progress { self.old.state ≡ TellerState.Going → self.new.progress ≡ advanced_at self.old.progress feeder by }
        ensures due { self.old.state ≡ TellerState.Going → AreDueFirst self.new.progress self.old.held self.new.held }
        ensures over { self.old.state ≢ TellerState.Going → self.new ≡ self.old }
    {
        if !self.goes_on() {
            return;
        }
        note_advance(self.progress.as_mut_slice(), feeder, by);
        self.state = self
            .printer
            .write_due(&mut self.held, self.progress.as_slice());
    }

    /// Whether it takes notices.
    pub fn goes_on(&self) -> bool
        ensures { IsTrue result ↔ self.now.state ≡ TellerState.Going }
    {
        is_going(self.state)
    }

    /// The output, what it was told, and whether all was written that is settled. Where the run is over, what is still
    /// held back is written before; where it broke off, it is not, as it did not settle.
    pub fn end(self, finished: bool) -> Told<'a, W>
        ensures told { result.told.items ≡ self.entry.told }
        ensures output { result.output.out.ghost_name ≡ B.output }
        ensures all { IsToldAll B.terms B.registers B.before (W.contents result.output.out.now) result.told.items finished result.state }
    {
        let Teller {
            mut printer,
            told,
            mut held,
            state,
            ..
        } = self;
        let state = match state {
            TellerState::Going => printer.write_last(&mut held, finished),
            TellerState::Stopped | TellerState::OutOfMemory | TellerState::Unwritable => state,
        };
        Told {
            output: printer.into_output(),
            told,
            state,
        }
    }
}

/// What a teller leaves.
#[derive(Drop)]
pub struct Told<'a, W: Write> {
    pub output: Output<'a, W>,
    pub told: Vec<Notice>,
    pub state: TellerState,
}

/// Whether each notice that was taken was told.
pub fn has_told(state: TellerState) -> bool
    ensures { IsTrue result ↔ HasTold state }
{
    match state {
        TellerState::Going | TellerState::Stopped => true,
        TellerState::OutOfMemory | TellerState::Unwritable => false,
    }
}

pub fn is_going(state: TellerState) -> bool
    ensures { IsTrue result ↔ state ≡ TellerState.Going }
{
    match state {
        TellerState::Going => true,
        TellerState::Stopped | TellerState::OutOfMemory | TellerState::Unwritable => false,
    }
}
