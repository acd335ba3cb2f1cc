//! The pairing of one trace: takes its items in order, and returns the step of each.

ghost use Rattle.std.specs.Prelude.{◌≡◌, ◌≢◌, ◌<◌, ◌++◌, ◌∷◌, ℤ, List, [], Some, None, Err, IsSome, IsOk, IfErr, OnOk, OnErr, if◌then◌else◌};
ghost use Rattle.std.specs.Option.{ForSome};
ghost use Rattle.std.specs.Ordering.{int_eq};
ghost use Rattle.pairing.specs.Invocation.{invocation_of};
ghost use Rattle.pairing.specs.Accepted.{Placed, accepted, is_event_of};
ghost use Rattle.pairing.specs.Step.{step_of};
ghost use Rattle.pairing.specs.About.{about_gist, target_of};
ghost use Rattle.pairing.specs.Known.{KnowsItems};
ghost use Rattle.pairing.specs.Waiting.{waits_at};
ghost use Rattle.pairing.specs.Registers.{with_row, answer_beside};

use crate::about::{About, about_by, target_beside};
use crate::fault::PairFault;
use crate::invocation::{Invocation, invocation_of};
use crate::registers::register_at;
use crate::step::{Step, edit_answer, event_answer, id};
use crate::waiting::Unanswered;
use intervals::{Edit, RegId};
use jepsen_form::{Event, Gist, Item};
use std::alloc::Global;
use std::marker::Model;

/// The unanswered invocations of one trace, by process, and the registers of its accepted invocations, by place.
#[derive(Drop)]
pub struct Pairing {
    feeder: u32,
    last: Option<u64>,
    unanswered: Unanswered,
    registers: Vec<(u64, RegId)>,
}

impl Model for Pairing {
    ghost use Rattle.std.specs.Prelude.{All};
    ghost use Rattle.pairing.specs.Known.{PairingModel, IsUpTo};
    ghost use Rattle.pairing.specs.Registers.{IsRising};

    ghost Value = { PairingModel };

    ghost view = { λ p. record { feeder = p.feeder; last = p.last; unanswered = p.unanswered; registers = p.registers.items } };

    ghost invariant = { λ p. IsRising p.registers.items × All (λ row. IsUpTo p.last row.0) p.registers.items };
}

impl Pairing {
    /// The pairing of the trace of this feeder, before its first item.
    pub fn new(alloc: Global, feeder: u32) -> Pairing
        ensures feeder { result.feeder ≡ feeder }
        ensures last { result.last ≡ None }
        ensures present { KnowsItems result [] }
    {
        Pairing {
            feeder,
            last: None,
            unanswered: Unanswered::new(alloc),
            registers: Vec::new(alloc),
        }
    }

    /// The place of the last item that was accepted, or refused with another fault than P4.
    pub fn last(&self) -> Option<u64>
        ensures { result ≡ self.now.last }
    {
        self.last
    }

    /// The step of the item at place `event` of the trace, or none where it gives none. A refused item counts as
    /// not there. After P4, which an invocation alone can meet, the call can be made again.
    pub fn take<'t>(&mut self, item: Item<'t>, event: u64) -> Result<Option<Step<'t>>, PairFault>
        requires rises { ForSome self.old.last (λ last. last < event) }
        ensures step { result ≢ Err PairFault.Memory → (items : List Placed) → KnowsItems self.old items
            → result ≡ step_of self.old.feeder (accepted items) event item.entry }
        ensures present { result ≢ Err PairFault.Memory → (items : List Placed) → KnowsItems self.old items
            → KnowsItems self.new (items ++ record { place = event; item = item.entry } ∷ []) }
        ensures last { result ≢ Err PairFault.Memory → self.new.last ≡ Some event }
        ensures feeder { self.new.feeder ≡ self.old.feeder }
        ensures memory { result ≡ Err PairFault.Memory → self.new ≡ self.old }
        ensures invocation { result ≡ Err PairFault.Memory → (items : List Placed) → KnowsItems self.old items
            → IsOk (step_of self.old.feeder (accepted items) event item.entry) × IsSome (invocation_of event item.entry) }
    {
        let answer = self.answer(&item, event);
        if answer.is_err() {
            self.last = Some(event);
            return answer;
        }
        remember(&mut self.unanswered, &mut self.registers, &item, event)?;
        self.last = Some(event);
        answer
    }

    /// What an element is about after the items so far, by what can be read of it.
    pub fn about(&self, gist: &Gist) -> About
        ensures { (items : List Placed) → KnowsItems self.now items → result ≡ about_gist self.now.feeder (accepted items) gist.now }
    {
        about_by(self.feeder, gist, self.target(gist))
    }

    /// The place and the register of the operation that an element answers or edits.
    fn target(&self, gist: &Gist) -> Option<(u64, RegId)>
        ensures { (items : List Placed) → KnowsItems self.now items → result ≡ target_of (accepted items) gist.now }
    {
        let answers = match gist.answers {
            Some(process) => self.unanswered.get(process),
            None => None,
        };
        let register = match gist.of {
            Some(of) => register_at(&self.registers, of),
            None => None,
        };
        target_beside(answers, gist.of, register)
    }

    /// The step of an item, or why it is refused. Nothing is noted of it.
    fn answer<'t>(&self, item: &Item<'t>, place: u64) -> Result<Option<Step<'t>>, PairFault>
        ensures { result ≡ answer_beside self.now place item.now }
    {
        match item {
            Item::Event(event) => {
                let unanswered = self.unanswered.get(event.process);
                event_answer(self.feeder, unanswered, place, event)
            }
            Item::Amend { of, change } => {
                let register = register_at(&self.registers, *of);
                edit_answer(register, Edit::Amend(id(self.feeder, *of), *change))
            }
            Item::Withdraw { of } => {
                let register = register_at(&self.registers, *of);
                edit_answer(register, Edit::Withdraw(id(self.feeder, *of)))
            }
            Item::Claim(register, kind) => Ok(Some(Step::Edit(*register, Edit::Claim(*kind)))),
            Item::Ask(register) => Ok(Some(Step::Ask(*register))),
            Item::Skipped => Ok(None),
        }
    }
}

/// Notes an accepted item: its process has an unanswered invocation after an invocation, and none after an answer.
fn remember(
    unanswered: &mut Unanswered,
    registers: &mut Vec<(u64, RegId)>,
    item: &Item,
    place: u64,
) -> Result<(), PairFault>
    ensures unanswered { OnOk result ((process : ℤ) → waits_at unanswered.new process
        ≡ (if is_event_of process item.now then invocation_of place item.now else waits_at unanswered.old process)) }
    ensures registers { OnOk result (registers.new.items ≡ with_row registers.old.items (invocation_of place item.now)) }
    ensures err { OnErr result ((unanswered.new ≡ unanswered.old) × (registers.new.items ≡ registers.old.items)) }
    ensures memory { OnErr result (IsSome (invocation_of place item.now)) }
    ensures fault { IfErr result (λ fault. fault ≡ PairFault.Memory) }
{
    let Item::Event(event) = item else {
        return Ok(());
    };
    match invocation_of(place, item) {
        Some(invocation) => open(unanswered, registers, event.process, invocation),
        None => {
            unanswered.remove(event.process);
            Ok(())
        }
    }
}

/// Adds an unanswered invocation. Both growths come before the first change.
fn open(
    unanswered: &mut Unanswered,
    registers: &mut Vec<(u64, RegId)>,
    process: i64,
    invocation: Invocation,
) -> Result<(), PairFault>
    ensures unanswered { OnOk result ((other : ℤ) → waits_at unanswered.new other
        ≡ (if int_eq other process then Some invocation else waits_at unanswered.old other)) }
    ensures registers { OnOk result (registers.new.items ≡ with_row registers.old.items (Some invocation)) }
    ensures err { OnErr result ((unanswered.new ≡ unanswered.old) × (registers.new.items ≡ registers.old.items)) }
    ensures fault { IfErr result (λ fault. fault ≡ PairFault.Memory) }
{
    registers.reserve(1)?;
    unanswered.put(process, invocation)?;
    registers.push_reserved((invocation.place, invocation.register));
    Ok(())
}
