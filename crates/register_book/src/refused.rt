//! Why an edit is refused.

ghost use Rattle.std.specs.Prelude.{◌≡◌, ◌≢◌, [], None, IfOk, OnErr, option_map};
ghost use Rattle.intervals.specs.Target.{IsTargetOf};
ghost use Rattle.intervals.specs.Refusal.{reply_to, first_refusal, new_write_refusal, write_refusal, claim_refusal, one_writer_refusal, repeat_claimed, first_repeat};
ghost use Rattle.intervals.specs.Standing.{StandApart};
ghost use Rattle.register_book.specs.Judge.{held_by};
ghost use Rattle.register_book.specs.Reply.{IsTurn};
ghost use Rattle.register_book.specs.BookModel.{claimed_of};

use crate::judge::Judge;
use intervals::laws::{first_overlap_began_first, first_repeat_was_appended_first};
use intervals::{Edit, Kind, Memory, Op, OpTable, Refusal, Target};
use std::alloc::Global;

/// The first refusal that the edit meets. Memory may be refused only where a register that is not atomic is
/// claimed to be atomic, and then the edit meets no refusal.
pub fn refusal_of<'t>(
    alloc: Global,
    judge: &Judge<'t>,
    edit: &Edit<'t>,
    target: &Target<'t>,
) -> Result<Option<Refusal>, Memory>
    requires apart { StandApart (claimed_of (held_by judge.now)) }
    requires target { IsTargetOf (held_by judge.now).ops edit.now target.now }
    ensures refusal { IfOk result (λ refusal. refusal ≡ reply_to (claimed_of (held_by judge.now)) edit.now) }
    ensures memory { OnErr result (reply_to (claimed_of (held_by judge.now)) edit.now ≡ None) }
    ensures turn { OnErr result (IsTurn (held_by judge.now).claim.kind edit.now) }
{
    let refusal = list_refusal(judge.operations(), edit, target);
    if refusal.is_some() {
        return Ok(refusal);
    }
    let refusal = new_write_refusal_of(judge, &target.new);
    if refusal.is_some() {
        return Ok(refusal);
    }
    claim_refusal_of(alloc, judge, edit)
}

/// The first of X1 to X5, those that depend on the operations alone.
#[tactic(auto, using(crate::proofs::Refusals::err_ok_unless))]
fn list_refusal<'t>(ops: &OpTable<'t>, edit: &Edit<'t>, target: &Target<'t>) -> Option<Refusal>
    requires { IsTargetOf ops.now.ops edit.now target.now }
    ensures { result ≡ first_refusal ops.now.ops edit.now }
{
    ops.check(edit, target).err()
}

/// The first of X6 to X9 that the new operation of an edit meets, if there is one.
fn new_write_refusal_of<'t>(judge: &Judge<'t>, new: &Option<Op<'t>>) -> Option<Refusal>
    ensures { result ≡ new_write_refusal (held_by judge.now).claim (held_by judge.now).ops new.now }
{
    match new {
        Some(op) => judged_refusal(judge, op),
        None => None,
    }
}

#[tactic(auto, using(crate::proofs::Refusals::err_ok_unless))]
fn judged_refusal(judge: &Judge, op: &Op) -> Option<Refusal>
    ensures { result ≡ write_refusal (held_by judge.now).claim (held_by judge.now).ops op.now }
{
    judge.check_write(op).err()
}

/// The first of X10, X11, X14, X12 and X13 that a claim meets; another edit meets none of them.
fn claim_refusal_of<'t>(
    alloc: Global,
    judge: &Judge<'t>,
    edit: &Edit<'t>,
) -> Result<Option<Refusal>, Memory>
    requires { StandApart (claimed_of (held_by judge.now)) }
    ensures refusal { IfOk result (λ refusal. refusal ≡ claim_refusal (held_by judge.now).claim (held_by judge.now).ops edit.now) }
    ensures memory { OnErr result (claim_refusal (held_by judge.now).claim (held_by judge.now).ops edit.now ≡ None) }
    ensures turn { OnErr result (IsTurn (held_by judge.now).claim.kind edit.now) }
{
    let Edit::Claim(kind) = edit else {
        return Ok(None);
    };
    if judge.claim().fixed {
        return Ok(Some(Refusal::ClaimFixed));
    }
    match kind {
        Kind::Safe | Kind::Regular => Ok(refusal_of_one_writer(alloc, judge)),
        Kind::Atomic => refusal_of_atomic(alloc, judge),
    }
}

/// The first of X11, X14 and X12 that a claim to be safe or regular meets. A register that is so already has no
/// writes that overlap, so X12 is not asked.
fn refusal_of_one_writer(alloc: Global, judge: &Judge) -> Option<Refusal>
    requires { StandApart (claimed_of (held_by judge.now)) }
    ensures { result ≡ one_writer_refusal (held_by judge.now).claim (held_by judge.now).ops }
{
    first_overlap_began_first();
    if !judge.claim().writers.is_one() {
        return Some(Refusal::ClaimWriters);
    }
    if !judge.claim().has_known_initial() {
        return Some(Refusal::ClaimInitial);
    }
    if judge.claim().kind != Kind::Atomic {
        return None;
    }
    let (write, other) = judge.operations().first_overlap(alloc)?;
    Some(Refusal::ClaimOverlap(write, other))
}

/// X13, where a claim to be atomic meets it. A register that is atomic already has no value that is repeated.
fn refusal_of_atomic(alloc: Global, judge: &Judge) -> Result<Option<Refusal>, Memory>
    requires { StandApart (claimed_of (held_by judge.now)) }
    ensures refusal { IfOk result (λ refusal. refusal ≡ option_map repeat_claimed (first_repeat (held_by judge.now).claim [] (held_by judge.now).ops)) }
    ensures memory { OnErr result (first_repeat (held_by judge.now).claim [] (held_by judge.now).ops ≡ None) }
    ensures turn { OnErr result ((held_by judge.now).claim.kind ≢ Kind.Atomic) }
{
    first_repeat_was_appended_first();
    if judge.claim().kind == Kind::Atomic {
        return Ok(None);
    }
    match judge.operations().first_repeat(alloc, judge.claim())? {
        Some((write, holder)) => Ok(Some(Refusal::ClaimRepeats(write, holder))),
        None => Ok(None),
    }
}
