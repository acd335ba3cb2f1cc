//! The command `watch`.

ghost use Rattle.std.specs.Prelude.{◌≡◌, ◌≢◌, ◌≤◌, ◌<◌, ℕ, List, IfOk, IfErr, IfSome, length, map};
ghost use Rattle.words.specs.Words.{asked_tower, asked_watch};
ghost use Rattle.command_parts.specs.Files.{AreHeld};
ghost use Rattle.command_parts.specs.Tower.{OfTower};
ghost use Rattle.report.specs.Finding.{IsOfTower};
ghost use Rattle.watch_command.specs.Watching.{HasWholeNotices, IsFollowed, IsWatchStatus, notice_form, unfollowed, watch_terms};

use command_parts::{CommandFault, Files, OpenedRun, open_run, status_after};
use report::laws::a_run_is_of_its_tower;
use std::alloc::{AllocError, Global};
use std::io::Write;
use std::mem::forget;
use std::sync::Wait;
use std::thread::Threads;
use tower_file::Tower;
use watch::{NoticeForm, Terms, WatchFault, Watched, watch_readers};
use words::{Demand, LineForm, Watch};

/// Watches the registers of a tower while traces are read. The faults come in this order: too many traces, the tower
/// file, or a trace that cannot be read for what it names, a trace that cannot be opened, the run and the writing. All
/// traces are opened before any is fed.
pub fn follow<'a, A: AllocGlobal + Threads + Wait + Sync, F: Files, W: Write + Send>(
    rt: &A,
    asked: &Watch<'a>,
    files: &mut F,
    out: &mut W,
) -> Result<u8, CommandFault<'a>>
    requires shards { (1 ≤ asked.now.shards) × (asked.now.shards ≤ 64) }
    requires traces { 0 < length asked.now.traces.items }
    ensures followed { IfOk result (λ status. OfTower (asked_tower asked.entry.now.tower) (F.held files.old) (map (λ name. name.now) asked.entry.now.traces.items) (λ file. (traces : List (List ℕ))
        → AreHeld (F.held files.old) (map (λ name. name.now) asked.entry.now.traces.items) traces
        → IsFollowed (asked_watch asked.entry.now) file traces status (W.contents out.old) (W.contents out.new))) }
    ensures whole { IfErr result (λ fault. fault ≢ CommandFault.Unwritable → HasWholeNotices (asked_watch asked.entry.now) (F.held files.old) (W.contents out.old) (W.contents out.new)) }
{
    let alloc = rt.alloc();
    let OpenedRun {
        tower,
        readers,
        pages,
        ..
    } = open_run(alloc, files, asked.tower, None, &asked.traces)?;
    a_run_is_of_its_tower();
    let terms = watch_terms(asked);
    let watched = match watch_readers(rt, &tower, readers, &pages, &terms, out) {
        Ok(watched) => watched,
        Err(fault) => return Err(unfollowed(fault)),
    };
    let Ok(status) = watch_status(alloc, asked.demand, &tower, &watched) else {
        return Err(CommandFault::Memory);
    };
    // As in `check`, the run is not freed.
    forget(watched);
    forget(pages);
    Ok(status)
}

/// The fault of a command whose watch broke off.
fn unfollowed<'a>(fault: WatchFault) -> CommandFault<'a>
    ensures own { result ≡ unfollowed fault }
    ensures write { result ≢ CommandFault.Unwritable → fault ≢ WatchFault.Write }
{
    match fault {
        WatchFault::Memory => CommandFault::Memory,
        WatchFault::Write => CommandFault::Unwritable,
        WatchFault::Shard(fault) => CommandFault::Shard(fault),
        WatchFault::Untold => CommandFault::Untold,
    }
}

fn watch_terms(asked: &Watch<'_>) -> Terms
    ensures { result ≡ watch_terms (asked_watch asked.now) }
{
    Terms {
        field: asked.moments,
        shards: asked.shards,
        form: notice_form(asked.form),
        until_fail: asked.until_fail,
        settle: asked.settle,
    }
}

fn notice_form(form: LineForm) -> NoticeForm
    ensures { result ≡ notice_form form }
{
    match form {
        LineForm::Text => NoticeForm::Line,
        LineForm::Json => NoticeForm::Record,
    }
}

/// The status of a watch: 1 where a register that failed stopped it, else that of its run.
fn watch_status(
    alloc: Global,
    demand: Demand,
    tower: &Tower,
    watched: &Watched,
) -> Result<u8, AllocError>
    requires of_tower { IsOfTower tower.now watched.now.run.closed }
    ensures { IfOk result (IsWatchStatus tower.now watched.now.run.closed watched.now.run.logs.items demand watched.now.stopped) }
{
    if watched.stopped {
        return Ok(1);
    }
    status_after(alloc, demand, tower, &watched.run)
}
