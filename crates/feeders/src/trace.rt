//! Feeds a trace that is in memory as a whole.

ghost use Rattle.std.specs.Prelude.{◌≡◌, ◌<◌, IfErr, IfOk};
ghost use Rattle.shards.specs.Pass.{new_pass};
ghost use Rattle.shards.specs.Plan.{claims_of};
ghost use Rattle.feeders.specs.Ending.{MayEnd};
ghost use Rattle.feeders.specs.Progress.{IsFed};
ghost use Rattle.feeders.specs.Readers.{IsNotOfReading};
ghost use Rattle.logs.specs.Start.{first_start};
ghost use Rattle.feeders.specs.Setting.{setting_of};

use crate::access::Access;
use crate::fault::RunFault;
use crate::line_count::LineCount;
use crate::outcome::{FeederOutcome, outcome_of};
use crate::progress::Progress;
use crate::site::{SharedSite, Site};
use crate::watcher::{Watcher, tell_end};
use edn_reader::Reader;
use jepsen_form::laws::items_name_registers_of_the_tower;
use jepsen_form::read_item;
use logs::{Log, broken_by};
use pairing::laws::steps_are_on_named_registers;
use shards::laws::what_was_told_stays;
use shards::{Opening, Pass};
use std::sync::Wait;

/// Reads a trace with a pass, as `feed_text` does.
pub fn feed_trace<'t, O: Opening, R: Wait, G: Watcher>(
    site: SharedSite<'_, '_, 't, O, R, G>,
    pass: Pass<'t>,
    trace: &'t [u8],
) -> Result<FeederOutcome<'t>, RunFault>
    requires some { 0 < O.plan.shards }
    requires of_tower { O.plan.claims ≡ claims_of site.tower.now }
    requires fresh { pass ≡ new_pass O.plan pass.feeder }
    requires known { pass.feeder < O.plan.feeders }
    ensures fed { IfOk result (IsFed (setting_of O.plan site.entry.tower.now site.entry.field (first_start pass.entry.feeder)) trace.entry.now) }
    ensures by_text { IfOk result (λ fed. IsNotOfReading fed.log) }
    ensures fault { IfErr result (MayEnd O.plan) }
{
    let mut access = Access::with_pass(site.auditor, pass);
    let log = feed_text(site.site(), &mut access, trace)?;
    outcome_of(access, log)
}

/// Reads a trace up to its end or to where it breaks, and carries its steps out in order.
fn feed_text<'t, O: Opening, R: Wait, G: Watcher>(
    site: Site<'_, '_, R, G>,
    access: &mut Access<'_, 't, O>,
    trace: &'t [u8],
) -> Result<Log<'t>, RunFault>
    requires some { 0 < O.plan.shards }
    requires of_tower { O.plan.claims ≡ claims_of site.tower.now }
    requires fresh { access.old.pass ≡ new_pass O.plan access.old.pass.feeder }
    requires known { access.old.pass.feeder < O.plan.feeders }
    ensures fed { IfOk result (λ log. IsFed (setting_of O.plan site.entry.tower.now site.entry.field (first_start access.old.pass.feeder)) trace.entry.now (record { pass = access.new.pass; log = log })) }
    ensures by_text { IfOk result IsNotOfReading }
    ensures fault { IfErr result (MayEnd O.plan) }
{
    what_was_told_stays();
    items_name_registers_of_the_tower();
    steps_are_on_named_registers();
    let mut reader = Reader::new(site.alloc, trace);
    let mut progress = Progress::new(site.alloc, access.feeder());
    let mut lines = LineCount::new();
    lines.want(site.gate.wants_lines());
    let mut counted = 0;
    loop {
        match reader.next() {
            Ok(Some(element)) => {
                let (start, _) = element.span();
                lines.count(between(trace, counted, start));
                counted = start;
                let step = progress.pair(read_item(element, site.field, site.tower))?;
                if let Err(fault) = progress.take_step(site, access, lines.line(), step) {
                    return Err(fault);
                }
            }
            Ok(None) => {
                tell_end(
                    site.gate,
                    access.feeder(),
                    None,
                    lines.line(),
                    progress.place,
                );
                return Ok(progress.into_log(None));
            }
            Err(fault) => {
                let Some(broken) = broken_by(fault) else {
                    return Err(RunFault::Memory);
                };
                lines.count(between(trace, counted, broken.place as usize));
                tell_end(
                    site.gate,
                    access.feeder(),
                    Some(broken),
                    lines.line(),
                    progress.place,
                );
                return Ok(progress.into_log(Some(broken)));
            }
        }
    }
}

/// The bytes from one place up to another; none where there are no such bytes.
fn between(bytes: &[u8], from: usize, to: usize) -> &[u8] {
    match bytes.get(from..to) {
        Some(part) => part,
        None => &[],
    }
}
