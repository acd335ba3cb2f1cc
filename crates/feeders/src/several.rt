//! Feeds several traces, in threads or in turn.

ghost use Rattle.std.specs.Prelude.{◌≡◌, ◌<◌, ◌≤◌, [], All, IfErr, IfOk, Ok, length, map, vec_capacity, vec_len};
ghost use Rattle.shards.specs.Plan.{claims_of};
ghost use Rattle.feeders.specs.Ending.{MayEnd};
ghost use Rattle.feeders.specs.Progress.{AreFed, AreFresh, AreReadAndFed, IsFed, IsFirstFault, IsFresh, IsReadAndFed};
ghost use Rattle.logs.specs.Start.{first_start};
ghost use Rattle.feeders.specs.Setting.{setting_of};
ghost use Rattle.feeders.specs.Readers.{IsNotOfReading};

use crate::fault::RunFault;
use crate::outcome::FeederOutcome;
use crate::pages::Pages;
use crate::site::SharedSite;
use crate::stream::feed_reader;
use crate::trace::feed_trace;
use crate::watcher::Watcher;
use logs::Log;
use shards::{Opening, Pass};
use std::alloc::{AllocError, Global};
use std::io::Read;
use std::sync::Wait;
use std::thread::{Threads, map_vec};

/// Feeds each trace with its pass, by threads as they can be made. Where several feeders fail the answer is the fault
/// of the one with the least number, after all have ended.
pub fn feed_all<'t, O: Opening + Send + Sync, R: Threads + Wait + Sync, G: Watcher>(
    site: SharedSite<'_, '_, 't, O, R, G>,
    passes: Vec<Pass<'t>>,
    traces: &[&'t [u8]],
) -> Result<Vec<FeederOutcome<'t>>, RunFault>
    requires some { 0 < O.plan.shards }
    requires of_tower { O.plan.claims ≡ claims_of site.tower.now }
    requires fresh { AreFresh O.plan passes.items }
    requires each { vec_len passes ≡ length traces.now }
    ensures fed { IfOk result (λ outcomes. AreFed O.plan site.entry.tower.now site.entry.field passes.entry.items traces.entry.now outcomes.items) }
    ensures by_text { IfOk result (λ outcomes. All (λ fed. IsNotOfReading fed.log) outcomes.items) }
    ensures fault { IfErr result (MayEnd O.plan) }
{
    let pairs = paired(site.alloc, passes, Vec::from_slice(site.alloc, traces)?)?;
    let ended = map_vec(
        site.rt,
        pairs,
        &|pair: (Pass, &[u8])| -> Result<FeederOutcome, RunFault>
            requires { (0 < O.plan.shards) × (O.plan.claims ≡ claims_of site.tower.now) × IsFresh O.plan pair.0 }
            ensures fed { IfOk result (λ fed. IsFed (setting_of O.plan site.entry.tower.now site.entry.field (first_start pair.entry.0.feeder)) pair.entry.1.now fed × IsNotOfReading fed.log) }
            ensures fault { IfErr result (MayEnd O.plan) }
        { feed_trace(site, pair.0, pair.1) },
    )?;
    let room = Vec::with_capacity(site.alloc, ended.len())?;
    gathered(room, ended)
}

/// Feeds what each reader gives with its pass, in threads as `feed_all` does.
pub fn read_all<
    't,
    O: Opening + Send + Sync,
    R: Threads + Wait + Sync,
    G: Watcher,
    S: Read + Drop + Send,
>(
    site: SharedSite<'_, 't, 't, O, R, G>,
    pages: &'t Pages,
    passes: Vec<Pass<'t>>,
    readers: Vec<S>,
) -> Result<Vec<FeederOutcome<'t>>, RunFault>
    requires some { 0 < O.plan.shards }
    requires of_tower { O.plan.claims ≡ claims_of site.tower.now }
    requires fresh { AreFresh O.plan passes.items }
    requires each { vec_len passes ≡ vec_len readers }
    ensures fed { IfOk result (λ outcomes. AreReadAndFed O.plan site.entry.tower.now site.entry.field passes.entry.items (map S.remaining readers.items) outcomes.items) }
    ensures fault { IfErr result (MayEnd O.plan) }
{
    let SharedSite {
        rt,
        alloc,
        auditor,
        gate,
        tower,
        field,
    } = site;
    let pairs = paired(alloc, passes, readers)?;
    let ended = map_vec(
        rt,
        pairs,
        &|pair: (Pass, S)| -> Result<FeederOutcome, RunFault>
            requires { (0 < O.plan.shards) × (O.plan.claims ≡ claims_of tower.now) × IsFresh O.plan pair.0 }
            ensures fed { IfOk result (λ fed. IsReadAndFed (setting_of O.plan tower.entry.now field (first_start pair.entry.0.feeder)) (S.remaining pair.entry.1) fed) }
            ensures fault { IfErr result (MayEnd O.plan) }
        {
            let site = SharedSite {
                rt,
                alloc,
                auditor,
                gate,
                tower,
                field,
            };
            feed_reader(site, pages, pair.0, pair.1)
        },
    )?;
    let room = Vec::with_capacity(alloc, ended.len())?;
    gathered(room, ended)
}

/// Feeds what each reader gives with its pass, on this thread alone, one after another.
pub fn read_in_turn<'t, O: Opening, R: Wait, G: Watcher, S: Read + Drop>(
    site: SharedSite<'_, 't, 't, O, R, G>,
    pages: &'t Pages,
    passes: Vec<Pass<'t>>,
    readers: Vec<S>,
) -> Result<Vec<FeederOutcome<'t>>, RunFault>
    requires some { 0 < O.plan.shards }
    requires of_tower { O.plan.claims ≡ claims_of site.tower.now }
    requires fresh { AreFresh O.plan passes.items }
    requires each { vec_len passes ≡ vec_len readers }
    ensures fed { IfOk result (λ outcomes. AreReadAndFed O.plan site.entry.tower.now site.entry.field passes.entry.items (map S.remaining readers.items) outcomes.items) }
    ensures fault { IfErr result (MayEnd O.plan) }
{
    let pairs = paired(site.alloc, passes, readers)?;
    let mut outcomes = Vec::with_capacity(site.alloc, pairs.len())?;
    for pair in pairs {
        outcomes.push_reserved(feed_reader(site, pages, pair.0, pair.1)?);
    }
    Ok(outcomes)
}

/// Each pass with what its feeder is given, in order.
fn paired<'t, X: Drop>(
    alloc: Global,
    passes: Vec<Pass<'t>>,
    given: Vec<X>,
) -> Result<Vec<(Pass<'t>, X)>, AllocError>
    requires each { vec_len passes ≡ vec_len given }
    ensures passes { IfOk result (λ pairs. map (λ pair. pair.0) pairs.items ≡ passes.entry.items) }
    ensures given { IfOk result (λ pairs. map (λ pair. pair.1) pairs.items ≡ given.items) }
{
    let mut pairs = Vec::with_capacity(alloc, passes.len())?;
    let mut rest = given.into_iter();
    for pass in passes {
        let Some(one) = rest.next() else {
            break;
        };
        pairs.push_reserved((pass, one));
    }
    Ok(pairs)
}

/// What the feeders left, in order, in room that there is for it; where some failed, the fault of the one with the least
/// number. It takes no memory.
fn gathered<'t>(
    room: Vec<FeederOutcome<'t>>,
    ended: Vec<Result<FeederOutcome<'t>, RunFault>>,
) -> Result<Vec<FeederOutcome<'t>>, RunFault>
    requires empty { room.items ≡ [] }
    requires enough { vec_len ended ≤ vec_capacity room }
    ensures all { IfOk result (λ outcomes. map Ok outcomes.items ≡ ended.entry.items) }
    ensures first { IfErr result (IsFirstFault ended.entry.items) }
{
    let mut outcomes = room;
    for one in ended {
        outcomes.push_reserved(one?);
    }
    Ok(outcomes)
}

/// The passes and the logs of these outcomes, each in order.
pub fn unzipped<'t>(
    alloc: Global,
    outcomes: Vec<FeederOutcome<'t>>,
) -> Result<(Vec<Pass<'t>>, Vec<Log<'t>>), AllocError>
    ensures passes { IfOk result (λ parts. parts.0.items ≡ map (λ fed. fed.pass) outcomes.entry.items) }
    ensures logs { IfOk result (λ parts. parts.1.items ≡ map (λ fed. fed.log) outcomes.entry.items) }
{
    let mut passes = Vec::with_capacity(alloc, outcomes.len())?;
    let mut logs = Vec::with_capacity(alloc, outcomes.len())?;
    for fed in outcomes {
        passes.push_reserved(fed.pass);
        logs.push_reserved(fed.log);
    }
    Ok((passes, logs))
}
