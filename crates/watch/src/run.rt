//! A watch, from its readers to its end.

ghost use Rattle.std.specs.Prelude.{◌≡◌, ◌≢◌, ◌≤◌, ℕ, Bool, List, Ok, IfErr, IfOk, map, vec_len};
ghost use Rattle.std.specs.Io.KnownBytes.{Appends};
ghost use Rattle.logs.specs.declared.notice.Notice.{Notice as ANotice};
ghost use Rattle.feeders.specs.Readers.{AreReadOf};
ghost use Rattle.logs.specs.Run.{IsRun};
ghost use Rattle.watch.specs.Due.{progress_begun};
ghost use Rattle.watch.specs.Noted.{AreNoted};
ghost use Rattle.watch.specs.Teller.{AreWrittenIn, HasWritten, IsStateAfter};
ghost use Rattle.watch.specs.Settling.{AreWrittenOf};
ghost use Rattle.watch.specs.Text.{text_of_notices};
ghost use Rattle.watch.specs.Watched.{AreByEntries, AreTold, IsEnd, IsWatched};

use crate::compare::are_told;
use crate::fault::WatchFault;
use crate::live::Live;
use crate::noted::are_noted;
use crate::printer::{Beginning, Output, Printer};
use crate::settling::{FeederProgress, at_the_beginning};
use crate::stoppable::stopped_by;
use crate::teller::{Teller, TellerState};
use crate::text::NoticeForm;
use feeders::{Pages, RunFault, Setup, run_readers};
use jepsen_form::MomentField;
use logs::{Notice, Run};
use std::alloc::{AllocError, Global};
use std::io::{Read, Write};
use std::marker::Brand;
use std::sync::atomic::AtomicBool;
use std::sync::{Mutex, Wait};
use std::thread::Threads;
use tower_file::Tower;

/// How registers are watched.
#[derive(Clone, Copy)]
pub struct Terms {
    /// The field that has the moments.
    pub field: MomentField,
    /// From 1 to 64.
    pub shards: u32,
    pub form: NoticeForm,
    /// Whether the first register that fails ends the watch.
    pub until_fail: bool,
    /// For how many more elements of each trace a failure is held back.
    pub settle: u64,
}

/// What a watch leaves: the run over what was read, and whether a register that failed ended it.
#[derive(Drop)]
pub struct Watched<'t> {
    pub run: Run<'t>,
    pub stopped: bool,
}

/// Feeds what each reader gives, each by a thread of its own, and writes a notice, flushed, as soon as the verdict on a
/// register changes, an element is refused, or a trace breaks or ends. A register that fails has its notice once each
/// feeder has taken `settle` more elements or is over, and not before one that failed earlier; where it holds again
/// before, neither has one. A feeder that waits in a read call is not woken: where the watch is over its thread ends
/// when that call returns.
pub fn watch_readers<
    't,
    R: AllocGlobal + Threads + Wait + Sync,
    S: Read + Drop + Send,
    W: Write + Send,
>(
    rt: &R,
    tower: &'t Tower,
    readers: Vec<S>,
    pages: &'t Pages,
    terms: &Terms,
    out: &mut W,
) -> Result<Watched<'t>, WatchFault>
    requires readers { (1 ≤ vec_len readers) × (vec_len readers ≤ 256) }
    requires shards { (1 ≤ terms.now.shards) × (terms.now.shards ≤ 64) }
    ensures watched { IfOk result (λ watched. IsWatched tower.now terms.now (map S.remaining readers.items) watched.run.closed watched.run.logs.items watched.stopped (W.contents out.old) (W.contents out.new)) }
    ensures whole { IfErr result (λ fault. fault ≢ WatchFault.Write → (notices : List ANotice) × Appends (W.contents out.old) (W.contents out.new) (text_of_notices terms.now.form tower.now.registers notices)) }
{
    let progress = begun(rt.alloc(), terms.settle, readers.len())?;
    let start = Start {
        tower,
        terms: *terms,
        progress,
    };
    let mut outcome = Err(WatchFault::Memory);
    let _output = watch_in::<R, S, W, Brand>(
        rt,
        readers,
        pages,
        start,
        Output { out },
        &mut outcome,
    );
    outcome
}

/// What is watched and how, and how far each feeder has come.
#[derive(Drop)]
struct Start<'t> {
    tower: &'t Tower,
    terms: Terms,
    progress: Vec<FeederProgress>,
}

/// Feeders that have taken nothing; none are wanted where no failure is held back.
fn begun(alloc: Global, settle: u64, feeders: usize) -> Result<Vec<FeederProgress>, AllocError>
    ensures { IfOk result (λ progress. progress.items ≡ progress_begun settle feeders) }
{
    if settle == 0 {
        Ok(Vec::new(alloc))
    } else {
        at_the_beginning(alloc, feeders)
    }
}

/// `watch_readers` from the beginning `B`.
fn watch_in<
    'a,
    't,
    R: AllocGlobal + Threads + Wait + Sync,
    S: Read + Drop + Send,
    W: Write + Send,
    B: Beginning + Send + Sync,
>(
    rt: &R,
    readers: Vec<S>,
    pages: &'t Pages,
    start: Start<'t>,
    output: Output<'a, W>,
    outcome: &mut Result<Watched<'t>, WatchFault>,
) -> Output<'a, W>
    requires readers { (1 ≤ vec_len readers) × (vec_len readers ≤ 256) }
    requires shards { (1 ≤ start.terms.shards) × (start.terms.shards ≤ 64) }
    requires output { output.out.ghost_name ≡ B.output }
    requires before { W.contents output.out.now ≡ B.before }
    requires registers { start.tower.now.registers ≡ B.registers }
    requires terms { start.terms ≡ B.terms }
    ensures same_reference { result.out.ghost_name ≡ output.entry.out.ghost_name }
    ensures watched { IfOk outcome.new (λ watched. IsWatched start.entry.tower.now start.entry.terms (map S.remaining readers.items) watched.run.closed watched.run.logs.items watched.stopped B.before (W.contents result.out.now)) }
    ensures whole { IfErr outcome.new (λ fault. fault ≢ WatchFault.Write → (notices : List ANotice) × Appends B.before (W.contents result.out.now) (text_of_notices start.entry.terms.form start.entry.tower.now.registers notices)) }
{
    let Start {
        tower,
        terms,
        progress,
    } = start;
    let alloc = rt.alloc();
    let printer = Printer::new(alloc, tower, terms, output);
    let teller: Mutex<Teller<'a, 't, W, B>> = Mutex::new(Teller::new(alloc, printer, progress));
    let run = run_told(rt, tower, readers, pages, &terms, &teller);
    let finished = run.is_ok();
    let told = teller.into_inner().end(finished);
    *outcome = concluded(run, told.told.as_slice(), told.state, terms.shards);
    told.output
}

/// Feeds what each reader gives, with a teller that is told what happens.
fn run_told<
    'a,
    't,
    R: AllocGlobal + Threads + Wait + Sync,
    S: Read + Drop + Send,
    W: Write + Send,
    B: Beginning + Send + Sync,
>(
    rt: &R,
    tower: &'t Tower,
    readers: Vec<S>,
    pages: &'t Pages,
    terms: &Terms,
    teller: &Mutex<Teller<'a, 't, W, B>>,
) -> Result<Run<'t>, RunFault>
    requires readers { (1 ≤ vec_len readers) × (vec_len readers ≤ 256) }
    requires shards { (1 ≤ terms.now.shards) × (terms.now.shards ≤ 64) }
    ensures run { IfOk result (λ run. (traces : List (List ℕ)) × AreReadOf (map S.remaining readers.items) run.logs.items traces × IsRun tower.now terms.now.field terms.now.shards traces run.closed run.logs.items) }
{
    let alloc = rt.alloc();
    let over = AtomicBool::new(false);
    let live = Live::new(rt, teller, &over, terms.settle != 0, terms.form.has_lines());
    let readers = stopped_by(alloc, readers, &over)?;
    let setup = Setup {
        rt,
        alloc,
        tower,
        field: terms.field,
        shards: terms.shards,
    };
    run_readers(setup, readers, pages, &live)
}

/// What a watch leaves, given its run and what was told of it; or why it broke off.
fn concluded<'t>(
    run: Result<Run<'t>, RunFault>,
    notices: &[Notice],
    state: TellerState,
    shards: u32,
) -> Result<Watched<'t>, WatchFault>
    requires some { 1 ≤ shards }
    ensures run { IfOk result (λ watched. run.entry ≡ Ok watched.run) }
    ensures told { IfOk result (λ watched. AreTold shards watched.run.closed watched.stopped notices.now × AreByEntries shards watched.run.closed notices.now × AreNoted watched.run.logs.items watched.stopped notices.now) }
    ensures end { IfOk result (λ watched. (until_fail : Bool) (written : List ANotice) → IsStateAfter until_fail written state → IsEnd until_fail written watched.stopped) }
    ensures settled { IfOk result (λ watched. (settle : ℕ) (written : List ANotice) → AreWrittenIn state settle notices.now written → AreWrittenOf settle watched.stopped notices.now written) }
    ensures state { IfOk result (λ watched. HasWritten state) }
    ensures write { IfErr result (λ fault. fault ≢ WatchFault.Write → HasWritten state) }
{
    let stopped = match state {
        TellerState::Going => false,
        TellerState::Stopped => true,
        TellerState::OutOfMemory => return Err(WatchFault::Memory),
        TellerState::Unwritable => return Err(WatchFault::Write),
    };
    let run = run?;
    if !are_told(notices, &run.closed, shards, stopped)
        || !are_noted(notices, run.logs.as_slice(), stopped)
    {
        return Err(WatchFault::Untold);
    }
    Ok(Watched { run, stopped })
}
