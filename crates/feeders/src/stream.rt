//! Feeds what a reader gives, chunk after chunk.

ghost use Rattle.std.specs.Prelude.{◌≡◌, ◌<◌, IfErr, IfOk};
ghost use Rattle.shards.specs.Pass.{new_pass};
ghost use Rattle.shards.specs.Plan.{claims_of};
ghost use Rattle.feeders.specs.Ending.{MayEnd};
ghost use Rattle.feeders.specs.Progress.{IsReadAndFed};
ghost use Rattle.logs.specs.Start.{first_start};
ghost use Rattle.feeders.specs.Setting.{setting_of};

use crate::access::Access;
use crate::fault::RunFault;
use crate::feeder::Feeder;
use crate::outcome::{FeederOutcome, outcome_of};
use crate::pages::Pages;
use crate::site::{SharedSite, Site};
use crate::source::Source;
use crate::watcher::{Watcher, tell_end};
use logs::Log;
use shards::laws::what_was_told_stays;
use shards::{Opening, Pass};
use std::io::Read;
use std::sync::Wait;

/// How many bytes are asked for in one read call.
const PIECE: usize = 65_536;

/// Reads a trace with a pass, as `feed_access` does.
pub fn feed_reader<'t, O: Opening, R: Wait, G: Watcher, S: Read + Drop>(
    site: SharedSite<'_, 't, 't, O, R, G>,
    pages: &'t Pages,
    pass: Pass<'t>,
    reader: S,
) -> Result<FeederOutcome<'t>, RunFault>
    requires some { 0 < O.plan.shards }
    requires of_tower { O.plan.claims ≡ claims_of site.tower.now }
    requires fresh { pass ≡ new_pass O.plan pass.feeder }
    requires known { pass.feeder < O.plan.feeders }
    ensures fed { IfOk result (IsReadAndFed (setting_of O.plan site.entry.tower.now site.entry.field (first_start pass.entry.feeder)) (S.remaining reader)) }
    ensures fault { IfErr result (MayEnd O.plan) }
{
    let mut access = Access::with_pass(site.auditor, pass);
    let log = feed_access(site.site(), pages, &mut access, reader)?;
    outcome_of(access, log)
}

/// Reads a trace up to its end, to where it breaks or to where its reading breaks off, and carries its steps out in
/// order, each as soon as its element has ended.
pub fn feed_access<'t, O: Opening, R: Wait, G: Watcher, S: Read + Drop>(
    site: Site<'_, 't, R, G>,
    pages: &'t Pages,
    access: &mut Access<'_, 't, O>,
    reader: S,
) -> Result<Log<'t>, RunFault>
    requires some { 0 < O.plan.shards }
    requires of_tower { O.plan.claims ≡ claims_of site.tower.now }
    requires fresh { access.old.pass ≡ new_pass O.plan access.old.pass.feeder }
    requires known { access.old.pass.feeder < O.plan.feeders }
    ensures fed { IfOk result (λ log. IsReadAndFed (setting_of O.plan site.entry.tower.now site.entry.field (first_start access.old.pass.feeder)) (S.remaining reader) (record { pass = access.new.pass; log = log })) }
    ensures fault { IfErr result (MayEnd O.plan) }
{
    what_was_told_stays();
    let mut room = Vec::new(site.alloc);
    room.resize(PIECE, 0)?;
    let buffer = room.as_mut_slice();
    let mut source = Source::new(reader);
    let mut feeder = Feeder::new(site.alloc, access.feeder(), site.field, site.tower, pages);
    loop {
        match source.next(buffer) {
            Ok(count) => {
                if count == 0 {
                    feeder.end(site.rt, site.gate, access)?;
                    return Ok(close(site.gate, feeder, access.feeder()));
                }
                let piece = &buffer[..count];
                if let Err(failed) = feeder.feed(site.rt, site.gate, access, piece) {
                    return Err(failed.fault);
                }
                if feeder.has_broken() {
                    return Ok(close(site.gate, feeder, access.feeder()));
                }
            }
            Err(code) => {
                feeder.break_off(code);
                return Ok(close(site.gate, feeder, access.feeder()));
            }
        }
    }
}

/// Tells a watcher that the feeder's trace is over, and gives what was noted.
fn close<'t, G: Watcher>(gate: &G, feeder: Feeder<'t>, number: u32) -> Log<'t>
    ensures { result ≡ feeder.entry.intake.progress.log }
{
    let broken = feeder.log().broken;
    tell_end(gate, number, broken, feeder.line(), feeder.elements());
    feeder.into_log()
}
