//! The command `safe`.

ghost use Rattle.std.specs.Prelude.{◌≡◌, ◌≢◌, ◌↔◌, ◌∷◌, [], IfOk, IfErr, IfSome, IsSome, Some, IsTrue, length, string_bytes};
ghost use Rattle.intervals.specs.Kind.{Holds};
ghost use Rattle.intervals.specs.Terms.{RegisterState};
ghost use Rattle.shards.specs.Closing.{book_of};
ghost use Rattle.logs.specs.declared.log.Log.{Log as ALog};
ghost use Rattle.check_command.specs.Audit.{IsAudit};
ghost use Rattle.command_parts.specs.Status.{has_refused};
ghost use Rattle.check_command.specs.Verdict.{IsAudited, verdict_line};

use command_parts::{CommandFault, Job, is_refused, status_of, the_tower, write_text};
use feeders::Pages;
use intervals::laws::texts_decide_nothing;
use intervals::{Kind, RegId};
use jepsen_form::MomentField;
use logs::{Broken, Run};
use phrases::push_register;
use shards::laws::what_is_present_after_all_edits;
use std::alloc::{AllocError, Global};
use std::io::{Read, Write};
use std::mem::forget;
use std::sync::Wait;
use std::thread::Threads;
use std::unreachable;

/// What is found of the one register: the kind that it claims to be, whether it holds, how many operations stand,
/// whether an element was refused, and where the trace broke.
#[derive(Clone, Copy)]
pub struct Audit {
    pub kind: Kind,
    pub holds: bool,
    pub operations: u64,
    pub refused: bool,
    pub broken: Option<Broken>,
}

/// Judges a trace while it is read, and writes the line of its register, also where the reading breaks off.
pub fn safe<'a, A: AllocGlobal + Threads + Wait + Sync, S: Read + Drop + Send, W: Write>(
    rt: &A,
    reader: S,
    out: &mut W,
) -> Result<u8, CommandFault<'a>>
    ensures audited { IfOk result (λ status. IfSome (S.remaining reader) (λ bytes. IsAudited bytes status (W.contents out.old) (W.contents out.new))) }
    ensures quiet { IfErr result (λ fault. fault ≢ CommandFault.Unwritable → out.new ≡ out.old) }
{
    let audit = audit_trace(rt, reader)?;
    let Ok(line) = verdict_text(rt.alloc(), &audit) else {
        return Err(CommandFault::Memory);
    };
    match write_text(out, line.as_str()) {
        Ok(()) => Ok(status_of(audit.broken.is_some(), !audit.holds, audit.refused, false)),
        Err(_) => Err(CommandFault::Unwritable),
    }
}

/// Reads a trace up to its end or to where it breaks, as the only feeder of the register, in one shard, and judges the
/// operations that stand then.
fn audit_trace<'a, A: AllocGlobal + Threads + Wait + Sync, S: Read + Drop + Send>(
    rt: &A,
    reader: S,
) -> Result<Audit, CommandFault<'a>>
    ensures audit { IfOk result (IsAudit (S.remaining reader)) }
    ensures quiet { IfErr result (λ fault. fault ≢ CommandFault.Unwritable) }
{
    what_is_present_after_all_edits();
    texts_decide_nothing();
    let alloc = rt.alloc();
    let Some(tower) = the_tower(alloc) else {
        return Err(CommandFault::Memory);
    };
    let Ok(pages) = Pages::new(alloc) else {
        return Err(CommandFault::Memory);
    };
    let Ok(mut readers) = Vec::with_capacity(alloc, 1) else {
        return Err(CommandFault::Memory);
    };
    readers.push_reserved(reader);
    let job = Job {
        rt,
        tower: &tower,
        pages: &pages,
        moments: MomentField::Index,
        shards: 1,
    };
    let run = match job.run(readers) {
        Ok(run) => run,
        Err(fault) => return Err(CommandFault::of_run(fault)),
    };
    let audit = verdict_of(&run);
    // As in `check`, the run is not freed.
    forget(run);
    forget(pages);
    Ok(audit)
}

/// What is found of the one register by a run of one trace.
fn verdict_of(run: &Run) -> Audit
    requires one { length run.now.logs.items ≡ 1 }
    requires there { IsSome (book_of run.now.closed 0) }
    ensures kind { (held : RegisterState) → book_of run.now.closed 0 ≡ Some held → result.kind ≡ held.claim.kind }
    ensures holds { (held : RegisterState) → book_of run.now.closed 0 ≡ Some held → IsTrue result.holds ↔ Holds held }
    ensures operations { (held : RegisterState) → book_of run.now.closed 0 ≡ Some held → result.operations ≡ length held.ops }
    ensures refused { (log : ALog) → run.now.logs.items ≡ log ∷ [] → result.refused ≡ has_refused log }
    ensures broken { (log : ALog) → run.now.logs.items ≡ log ∷ [] → result.broken ≡ log.broken }
{
    let log = &run.logs[0];
    let Some(book) = run.closed.book(RegId(0)) else {
        unreachable!();
    };
    Audit {
        kind: book.kind(),
        holds: book.holds(),
        operations: book.len() as u64,
        refused: is_refused(log),
        broken: log.broken,
    }
}

/// The line of the one register.
fn verdict_text(alloc: Global, audit: &Audit) -> Result<String, AllocError>
    ensures { IfOk result (λ text. string_bytes text ≡ verdict_line audit.now.kind audit.now.holds audit.now.operations) }
{
    let mut text = String::new(alloc);
    push_register(&mut text, b"r", audit.kind, audit.holds, audit.operations)?;
    Ok(text)
}
