//! A run over several traces.

ghost use Rattle.std.specs.Prelude.{◌≡◌, ◌≤◌, ◌∷◌, [], ℕ, List, All, IfErr, IfOk, length, map, vec_len};
ghost use Rattle.shards.specs.Plan.{plan_of};
ghost use Rattle.shards.specs.Closing.{IsClosed};
ghost use Rattle.feeders.specs.Ending.{IsEndedAtClose, MayEnd};
ghost use Rattle.feeders.specs.Readers.{AreReadOf, IsNotOfReading};
ghost use Rattle.logs.specs.Run.{IsRun};

use crate::access::Access;
use crate::fault::RunFault;
use crate::pages::Pages;
use crate::setup::Setup;
use crate::several::{feed_all, read_all, read_in_turn, unzipped};
use crate::stream::feed_access;
use crate::watcher::Watcher;
use logs::{Log, Run};
use shards::laws::a_feeder_alone_is_served_as_with_a_pass;
use shards::{Auditor, LoneAuditor, Opening, Pass};
use std::alloc::{AllocError, Global};
use std::io::Read;
use std::marker::Brand;
use std::sync::Wait;
use std::thread::Threads;

/// Feeds traces to the registers of a tower, each by a thread of its own, this one among them: feeder `i` has
/// trace `i`. It waits for the shards' locks. Where feeders fail, the fault is that of the one with the least number.
pub fn run_traces<'t, R: Threads + Wait + Sync, G: Watcher>(
    setup: Setup<'_, '_, R>,
    traces: &[&'t [u8]],
    gate: &G,
) -> Result<Run<'t>, RunFault>
    requires traces { (1 ≤ length traces.now) × (length traces.now ≤ 256) }
    requires shards { (1 ≤ setup.shards) × (setup.shards ≤ 64) }
    ensures run { IfOk result (λ run. IsRun setup.entry.tower.now setup.entry.field setup.entry.shards (map (λ trace. trace.now) traces.entry.now) run.closed run.logs.items) }
    ensures by_text { IfOk result (λ run. All IsNotOfReading run.logs.items) }
    ensures fault { IfErr result (MayEnd (plan_of 0 setup.entry.tower.now setup.entry.shards (length traces.now))) }
{
    run_in::<Brand, R, G>(setup, traces, gate)
}

/// Feeds what each reader gives, in pieces as they come, each by a thread of its own, this one among them: feeder `i` has
/// reader `i`. The texts that steps lend are copied to `pages`, one by one or with a whole piece. A trace whose
/// reading fails (N1), or takes more than 1,073,741,824 bytes or 16,777,216 read calls (N2), ends with the bytes
/// that were read. An interrupted call is made again, and counts. It waits for the shards' locks and for other
/// pushes to the pages.
pub fn run_readers<'t, R: Threads + Wait + Sync, S: Read + Drop + Send, G: Watcher>(
    setup: Setup<'_, 't, R>,
    readers: Vec<S>,
    pages: &'t Pages,
    gate: &G,
) -> Result<Run<'t>, RunFault>
    requires readers { (1 ≤ vec_len readers) × (vec_len readers ≤ 256) }
    requires shards { (1 ≤ setup.shards) × (setup.shards ≤ 64) }
    ensures run { IfOk result (λ run. (traces : List (List ℕ)) × AreReadOf (map S.remaining readers.items) run.logs.items traces × IsRun setup.entry.tower.now setup.entry.field setup.entry.shards traces run.closed run.logs.items) }
    ensures fault { IfErr result (MayEnd (plan_of 0 setup.entry.tower.now setup.entry.shards (vec_len readers))) }
{
    if readers.len() == 1 {
        return read_alone(setup, readers, pages, gate);
    }
    read_in::<Brand, R, S, G>(setup, readers, pages, gate)
}

/// Feeds what readers give, as `run_readers` does, but on this thread alone, one reader after another: so where
/// traces meet on a register, each run refuses the same edits.
pub fn run_in_turn<'t, R: Wait, S: Read + Drop, G: Watcher>(
    setup: Setup<'_, 't, R>,
    readers: Vec<S>,
    pages: &'t Pages,
    gate: &G,
) -> Result<Run<'t>, RunFault>
    requires readers { (1 ≤ vec_len readers) × (vec_len readers ≤ 256) }
    requires shards { (1 ≤ setup.shards) × (setup.shards ≤ 64) }
    ensures run { IfOk result (λ run. (traces : List (List ℕ)) × AreReadOf (map S.remaining readers.items) run.logs.items traces × IsRun setup.entry.tower.now setup.entry.field setup.entry.shards traces run.closed run.logs.items) }
    ensures fault { IfErr result (MayEnd (plan_of 0 setup.entry.tower.now setup.entry.shards (vec_len readers))) }
{
    if readers.len() == 1 {
        return read_alone(setup, readers, pages, gate);
    }
    turn_in::<Brand, R, S, G>(setup, readers, pages, gate)
}

/// Feeds what the one reader gives to registers that the feeder has for itself: no thread, no lock and no kept journal.
fn read_alone<'t, R: Wait, S: Read + Drop, G: Watcher>(
    setup: Setup<'_, 't, R>,
    readers: Vec<S>,
    pages: &'t Pages,
    gate: &G,
) -> Result<Run<'t>, RunFault>
    requires one { vec_len readers ≡ 1 }
    requires shards { (1 ≤ setup.shards) × (setup.shards ≤ 64) }
    ensures run { IfOk result (λ run. (traces : List (List ℕ)) × AreReadOf (map S.remaining readers.items) run.logs.items traces × IsRun setup.entry.tower.now setup.entry.field setup.entry.shards traces run.closed run.logs.items) }
    ensures fault { IfErr result (MayEnd (plan_of 0 setup.entry.tower.now setup.entry.shards (vec_len readers))) }
{
    let mut readers = readers;
    match readers.pop() {
        Some(reader) => alone_in::<Brand, R, S, G>(setup, reader, pages, gate),
        None => Err(RunFault::Memory),
    }
}

/// `read_alone` for the plan of the opening `O`.
fn alone_in<'t, O: Opening, R: Wait, S: Read + Drop, G: Watcher>(
    setup: Setup<'_, 't, R>,
    reader: S,
    pages: &'t Pages,
    gate: &G,
) -> Result<Run<'t>, RunFault>
    requires opening { O.plan ≡ plan_of 0 setup.tower.now setup.shards 1 }
    requires shards { (1 ≤ setup.shards) × (setup.shards ≤ 64) }
    ensures run { IfOk result (λ run. (traces : List (List ℕ)) × AreReadOf (S.remaining reader ∷ []) run.logs.items traces × IsRun setup.entry.tower.now setup.entry.field setup.entry.shards traces run.closed run.logs.items) }
    ensures fault { IfErr result (MayEnd O.plan) }
{
    a_feeder_alone_is_served_as_with_a_pass();
    let auditor = LoneAuditor::<O>::open(setup.alloc, setup.tower, setup.shards, 1)?;
    let mut access = Access::in_turn(auditor, 0);
    let log = feed_access(setup.site(gate), pages, &mut access, reader)?;
    let logs = one_log(setup.alloc, log)?;
    match access.into_auditor() {
        Some(auditor) => Ok(Run {
            closed: auditor.close(),
            logs,
        }),
        None => Err(RunFault::Memory),
    }
}

fn one_log<'t>(alloc: Global, log: Log<'t>) -> Result<Vec<Log<'t>>, AllocError>
    ensures { IfOk result (λ logs. logs.items ≡ log.entry ∷ []) }
{
    let mut logs = Vec::with_capacity(alloc, 1)?;
    logs.push_reserved(log);
    Ok(logs)
}

/// `run_readers` for the plan of the opening `O`.
fn read_in<
    't,
    O: Opening + Send + Sync,
    R: Threads + Wait + Sync,
    S: Read + Drop + Send,
    G: Watcher,
>(setup: Setup<'_, 't, R>, readers: Vec<S>, pages: &'t Pages, gate: &G) -> Result<Run<'t>, RunFault>
    requires opening { O.plan ≡ plan_of 0 setup.tower.now setup.shards (vec_len readers) }
    requires readers { (1 ≤ vec_len readers) × (vec_len readers ≤ 256) }
    requires shards { (1 ≤ setup.shards) × (setup.shards ≤ 64) }
    ensures run { IfOk result (λ run. (traces : List (List ℕ)) × AreReadOf (map S.remaining readers.items) run.logs.items traces × IsRun setup.entry.tower.now setup.entry.field setup.entry.shards traces run.closed run.logs.items) }
    ensures fault { IfErr result (MayEnd O.plan) }
{
    let feeders = readers.len() as u32;
    let (auditor, passes) = Auditor::<O>::open(setup.alloc, 0, setup.tower, setup.shards, feeders)?;
    let outcomes = read_all(setup.shared_site(&auditor, gate), pages, passes, readers)?;
    let (passes, logs) = unzipped(setup.alloc, outcomes)?;
    closed_run(auditor, passes, logs)
}

/// `run_traces` for the plan of the opening `O`.
fn run_in<'t, O: Opening + Send + Sync, R: Threads + Wait + Sync, G: Watcher>(
    setup: Setup<'_, '_, R>,
    traces: &[&'t [u8]],
    gate: &G,
) -> Result<Run<'t>, RunFault>
    requires opening { O.plan ≡ plan_of 0 setup.tower.now setup.shards (length traces.now) }
    requires traces { (1 ≤ length traces.now) × (length traces.now ≤ 256) }
    requires shards { (1 ≤ setup.shards) × (setup.shards ≤ 64) }
    ensures run { IfOk result (λ run. IsRun setup.entry.tower.now setup.entry.field setup.entry.shards (map (λ trace. trace.now) traces.entry.now) run.closed run.logs.items) }
    ensures by_text { IfOk result (λ run. All IsNotOfReading run.logs.items) }
    ensures fault { IfErr result (MayEnd O.plan) }
{
    let feeders = traces.len() as u32;
    let (auditor, passes) = Auditor::<O>::open(setup.alloc, 0, setup.tower, setup.shards, feeders)?;
    let outcomes = feed_all(setup.shared_site(&auditor, gate), passes, traces)?;
    let (passes, logs) = unzipped(setup.alloc, outcomes)?;
    closed_run(auditor, passes, logs)
}

/// `run_in_turn` for the plan of the opening `O`.
fn turn_in<'t, O: Opening, R: Wait, S: Read + Drop, G: Watcher>(
    setup: Setup<'_, 't, R>,
    readers: Vec<S>,
    pages: &'t Pages,
    gate: &G,
) -> Result<Run<'t>, RunFault>
    requires opening { O.plan ≡ plan_of 0 setup.tower.now setup.shards (vec_len readers) }
    requires readers { (1 ≤ vec_len readers) × (vec_len readers ≤ 256) }
    requires shards { (1 ≤ setup.shards) × (setup.shards ≤ 64) }
    ensures run { IfOk result (λ run. (traces : List (List ℕ)) × AreReadOf (map S.remaining readers.items) run.logs.items traces × IsRun setup.entry.tower.now setup.entry.field setup.entry.shards traces run.closed run.logs.items) }
    ensures fault { IfErr result (MayEnd O.plan) }
{
    let feeders = readers.len() as u32;
    let (auditor, passes) = Auditor::<O>::open(setup.alloc, 0, setup.tower, setup.shards, feeders)?;
    let outcomes = read_in_turn(setup.shared_site(&auditor, gate), pages, passes, readers)?;
    let (passes, logs) = unzipped(setup.alloc, outcomes)?;
    closed_run(auditor, passes, logs)
}

/// Closes the auditor with the passes of its feeders, which takes no memory, and gives what it leaves with the logs.
fn closed_run<'t, O: Opening>(
    auditor: Auditor<'t, O>,
    passes: Vec<Pass<'t>>,
    logs: Vec<Log<'t>>,
) -> Result<Run<'t>, RunFault>
    ensures run { IfOk result (λ run. IsClosed O.plan passes.entry.items run.closed × (run.logs ≡ logs.entry)) }
    ensures fault { IfErr result (IsEndedAtClose O.plan passes.entry.items) }
{
    match auditor.finish(passes) {
        Ok(closed) => Ok(Run { closed, logs }),
        Err(unfinished) => Err(RunFault::from(unfinished.fault)),
    }
}
