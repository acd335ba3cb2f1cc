//! Carries out the step of an element, and notes in the log of its trace what comes of it.

ghost use Rattle.std.specs.Prelude.{◌≡◌, ◌≢◌, ◌<◌, IfErr, OnErr, OnOk, Ok, Err, Some, vec_capacity, vec_len};
ghost use Rattle.pairing.specs.declared.step.Step.TheVariants.{Edit as ToEdit, Ask};
ghost use Rattle.shards.specs.Pass.{IsPassOf, PassModel};
ghost use Rattle.feeders.specs.Access.{KeepsOthers};
ghost use Rattle.feeders.specs.Ending.{IsEndedBy, MayStop};
ghost use Rattle.feeders.specs.declared.fault.RunFault.TheVariants.{Memory};
ghost use Rattle.feeders.specs.Progress.{GoesOn, HasSameLines, IsKnownStep};

use crate::access::Access;
use crate::fault::RunFault;
use crate::site::Site;
use crate::watcher::{Placed, Watcher};
use intervals::{Edit, RegId};
use logs::{Code, LeftOut, Line, Log, Notice, What};
use pairing::{Step, about_edit};
use register_book::Reply;
use shards::Opening;
use shards::laws::what_was_told_stays;
use std::alloc::AllocError;
use std::sync::Wait;

/// Carries out the step of the element at `place`, which begins at `line`, where it has one, and notes a refusal or an answer. Room for the line
/// is made first, since nothing may fail once an edit is entered.
pub fn carry_out<'t, O: Opening, R: Wait, G: Watcher>(
    log: &mut Log<'t>,
    site: Site<'_, '_, R, G>,
    access: &mut Access<'_, 't, O>,
    place: u64,
    line: u64,
    step: Option<Step<'t>>,
) -> Result<(), RunFault>
    requires some { 0 < O.plan.shards }
    ensures done { OnOk result (GoesOn O.plan access.old.pass log.old access.new.pass log.new place (Ok step.entry)) }
    ensures others { OnOk result (KeepsOthers O.plan access.old access.new) }
    ensures kept { OnErr result (HasSameLines log.old log.new × (access.new ≡ access.old)) }
    ensures broken { log.new.broken ≡ log.old.broken }
    ensures fault { IfErr result (λ fault. IsPassOf O.plan access.old.pass → IsKnownStep O.plan (Ok step.entry) → MayStop O.plan access.new.pass fault) }
{
    let Some(step) = step else {
        return Ok(());
    };
    log.lines.reserve(1)?;
    match step {
        Step::Edit(register, edit) => submit(log, site, access, place, line, register, edit),
        Step::Ask(register) => ask(log, site, access, place, register),
    }
}

/// Notes that the element at `place` is refused before it reaches a register.
pub fn leave_out<O: Opening>(log: &mut Log, place: u64, left_out: LeftOut) -> Result<(), AllocError>
    ensures done { OnOk result ((pass : PassModel) → GoesOn O.plan pass log.old pass log.new place (Err left_out)) }
    ensures kept { OnErr result (HasSameLines log.old log.new) }
    ensures broken { log.new.broken ≡ log.old.broken }
{
    log.lines.push(Line {
        event: place,
        what: What::Refused(left_out),
    })?;
    Ok(())
}

/// Submits an edit, and notes a refusal by its register in the room that there is for it.
fn submit<'t, O: Opening, R: Wait, G: Watcher>(
    log: &mut Log<'t>,
    site: Site<'_, '_, R, G>,
    access: &mut Access<'_, 't, O>,
    place: u64,
    line: u64,
    register: RegId,
    edit: Edit<'t>,
) -> Result<(), RunFault>
    requires some { 0 < O.plan.shards }
    requires room { vec_len log.old.lines < vec_capacity log.old.lines }
    ensures done { OnOk result (GoesOn O.plan access.old.pass log.old access.new.pass log.new place (Ok (Some (ToEdit register edit.entry)))) }
    ensures others { OnOk result (KeepsOthers O.plan access.old access.new) }
    ensures kept { OnErr result ((log.new ≡ log.old) × (access.new ≡ access.old)) }
    ensures broken { log.new.broken ≡ log.old.broken }
    ensures fault { IfErr result (IsEndedBy O.plan access.old.pass register.0) }
{
    what_was_told_stays();
    let gate = Placed::new(site.gate, place, line);
    let receipt = access.submit(site.rt, &gate, register, &edit)?;
    if let Reply::Refused(refusal) = receipt.reply {
        let left_out = LeftOut {
            code: Code::Register(refusal),
            about: about_edit(register, &edit),
        };
        log.lines.push_reserved(Line {
            event: place,
            what: What::Refused(left_out),
        });
        site.gate.told(Notice::Refused {
            feeder: access.feeder(),
            place,
            line,
            left_out,
        });
    }
    Ok(())
}

/// Asks whether a register holds, and notes the answer in the room that there is for it. It takes no memory.
fn ask<'t, O: Opening, R: Wait, G: Watcher>(
    log: &mut Log<'t>,
    site: Site<'_, '_, R, G>,
    access: &mut Access<'_, 't, O>,
    place: u64,
    register: RegId,
) -> Result<(), RunFault>
    requires some { 0 < O.plan.shards }
    requires room { vec_len log.old.lines < vec_capacity log.old.lines }
    ensures done { OnOk result (GoesOn O.plan access.old.pass log.old access.new.pass log.new place (Ok (Some (Ask register)))) }
    ensures others { OnOk result (KeepsOthers O.plan access.old access.new) }
    ensures kept { OnErr result ((log.new ≡ log.old) × (access.new ≡ access.old)) }
    ensures broken { log.new.broken ≡ log.old.broken }
    ensures fault { IfErr result (λ fault. IsEndedBy O.plan access.old.pass register.0 fault × (fault ≢ Memory)) }
{
    what_was_told_stays();
    let answer = access.standing(site.rt, site.gate, register)?;
    log.lines.push_reserved(Line {
        event: place,
        what: What::Answered(register, answer),
    });
    Ok(())
}
