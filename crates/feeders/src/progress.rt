//! What a feeder knows between two elements.

ghost use Rattle.std.specs.Prelude.{◌≡◌, ◌+◌, ◌<◌, ◌^◌, ◌∷◌, ◌++◌, [], List, Result, IfErr, IfOk, OnErr, OnOk, Err, None, IsTrue, ◌↔◌};
ghost use Rattle.jepsen_form.specs.declared.gist.RefusedForm.{RefusedForm as ARefusedForm};
ghost use Rattle.jepsen_form.specs.declared.item.Item.{Item as AnItem};
ghost use Rattle.pairing.specs.About.{about_gist, gist_of_item};
ghost use Rattle.pairing.specs.Accepted.{Placed, accepted};
ghost use Rattle.pairing.specs.Known.{KnowsItems};
ghost use Rattle.shards.specs.Pass.{IsPassOf, PassModel};
ghost use Rattle.shards.specs.Plan.{Plan};
ghost use Rattle.feeders.specs.Access.{KeepsOthers};
ghost use Rattle.feeders.specs.Ending.{MayStop};
ghost use Rattle.feeders.specs.Progress.{IsAhead, IsAt, IsPaired, PairedUpTo, IsKnownStep};
ghost use Rattle.feeders.specs.Setting.{IsAtStart};
ghost use Rattle.logs.specs.Start.{Start};
ghost use Rattle.logs.specs.Steps.{by_pairing};

use crate::access::Access;
use crate::fault::RunFault;
use crate::noting::{carry_out, leave_out};
use crate::site::Site;
use crate::watcher::Watcher;
use intervals::Memory;
use jepsen_form::{Item, RefusedForm};
use logs::{Broken, Code, LeftOut, Log, Notice};
use pairing::laws::a_refused_item_is_not_accepted;
use pairing::{PairFault, Pairing, Step, gist_of_item};
use shards::Opening;
use std::alloc::Global;
use std::sync::Wait;

/// What a feeder knows after the elements so far.
#[derive(Drop)]
pub struct Progress<'t> {
    /// The place of the next element.
    pub place: u64,
    pub pairing: Pairing,
    pub log: Log<'t>,
}

impl<'t> Progress<'t> {
    /// What it knows before the first element.
    pub fn new(alloc: Global, feeder: u32) -> Self
        ensures place { result.place ≡ 0 }
        ensures unbroken { result.log.broken ≡ None }
        ensures ahead { IsAhead result }
        ensures at { (plan : Plan) (start : Start) (pass : PassModel) → IsAtStart plan start pass → start.feeder ≡ feeder → IsAt plan start [] result pass }
    {
        Progress {
            place: 0,
            pairing: Pairing::new(alloc, feeder),
            log: Log {
                lines: Vec::new(alloc),
                broken: None,
            },
        }
    }

    /// Pairs the next element, of which this is the item or the fault of its form: its step, or why it is refused.
    pub fn pair<'p>(
        &mut self,
        item: Result<Item<'p>, RefusedForm>,
    ) -> Result<Result<Option<Step<'p>>, LeftOut>, Memory>
        requires ahead { IsAhead self.old }
        ensures place { self.new.place ≡ self.old.place }
        ensures last { OnOk result (PairedUpTo self.new) }
        ensures paired { IfOk result (λ step. (plan : Plan) (start : Start) (items : List (Result AnItem ARefusedForm)) (pass : PassModel) → IsAt plan start items self.old pass → IsPaired plan start items item.entry step self.new pass) }
        ensures log { self.new.log ≡ self.old.log }
        ensures kept { OnErr result (self.new ≡ self.old) }
    {
        a_refused_item_is_not_accepted();
        match item {
            Err(refused) => Ok(Err(LeftOut {
                code: Code::Form(refused.fault),
                about: self.pairing.about(&refused.gist),
            })),
            Ok(item) => {
                let step = self.pairing.take(item, self.place);
                if wants_memory(&step) {
                    return Err(Memory);
                }
                Ok(taken_by(&self.pairing, step, &item))
            }
        }
    }

    /// Carries out the step of the element that was paired last, which begins at `line`, or notes why it is refused.
    pub fn take_step<O: Opening, R: Wait, G: Watcher>(
        &mut self,
        site: Site<'_, '_, R, G>,
        access: &mut Access<'_, 't, O>,
        line: u64,
        step: Result<Option<Step<'t>>, LeftOut>,
    ) -> Result<(), RunFault>
        requires some { 0 < O.plan.shards }
        requires place { self.old.place + 1 < 2 ^ 64 }
        requires last { PairedUpTo self.old }
        ensures place { OnOk result (self.new.place ≡ self.old.place + 1) }
        ensures ahead { OnOk result (IsAhead self.new) }
        ensures done { OnOk result ((start : Start) (items : List (Result AnItem ARefusedForm)) (item : Result AnItem ARefusedForm) → IsPaired O.plan start items item step.entry self.old access.old.pass → IsAt O.plan start (items ++ item ∷ []) self.new access.new.pass) }
        ensures kept { OnErr result ((start : Start) (items : List (Result AnItem ARefusedForm)) (item : Result AnItem ARefusedForm) → IsPaired O.plan start items item step.entry self.old access.old.pass → IsPaired O.plan start items item step.entry self.new access.new.pass) }
        ensures refused { OnErr result ((self.new.place ≡ self.old.place) × PairedUpTo self.new) }
        ensures others { OnOk result (KeepsOthers O.plan access.old access.new) }
        ensures broken { self.new.log.broken ≡ self.old.log.broken }
        ensures fault { IfErr result (λ fault. IsPassOf O.plan access.old.pass → IsKnownStep O.plan step.entry → MayStop O.plan access.new.pass fault) }
    {
        match step {
            Ok(step) => carry_out(&mut self.log, site, access, self.place, line, step)?,
            Err(left_out) => {
                leave_out::<O>(&mut self.log, self.place, left_out)?;
                site.gate.told(Notice::Refused {
                    feeder: access.feeder(),
                    place: self.place,
                    line,
                    left_out,
                });
            }
        }
        self.place += 1;
        site.gate.took(access.feeder());
        Ok(())
    }

    /// The log, at the end of the trace or where it broke.
    pub fn into_log(self, broken: Option<Broken>) -> Log<'t>
        ensures lines { result.lines ≡ self.entry.log.lines }
        ensures broken { result.broken ≡ broken }
    {
        Log {
            lines: self.log.lines,
            broken,
        }
    }
}

fn wants_memory(step: &Result<Option<Step>, PairFault>) -> bool
    ensures { IsTrue result ↔ step.now ≡ Err PairFault.Memory }
{
    matches!(step, Err(PairFault::Memory))
}

/// What the pairing answered to an item; a refusal with what the item is about.
fn taken_by<'p>(
    pairing: &Pairing,
    step: Result<Option<Step<'p>>, PairFault>,
    item: &Item,
) -> Result<Option<Step<'p>>, LeftOut>
    ensures { (items : List Placed) → KnowsItems pairing.now items → result ≡ by_pairing (about_gist pairing.now.feeder (accepted items) (gist_of_item item.now)) step.entry }
{
    match step {
        Ok(step) => Ok(step),
        Err(fault) => Err(LeftOut {
            code: Code::Pair(fault),
            about: pairing.about(&gist_of_item(item)),
        }),
    }
}
