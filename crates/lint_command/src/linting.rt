//! The run of which `lint` tells.

ghost use Rattle.std.specs.Prelude.{◌≤◌, ℕ, List, Some, IfErr, IfOk, length, map};
ghost use Rattle.shards.specs.Closing.{ClosedShard};
ghost use Rattle.shards.specs.Plan.{plan_of};
ghost use Rattle.logs.specs.declared.log.Log.{Log};
ghost use Rattle.feeders.specs.Ending.{MayEnd};
ghost use Rattle.feeders.specs.Readers.{AreReadOf};
ghost use Rattle.logs.specs.Run.{IsRun};
ghost use Rattle.lint.specs.Found.{AreFoundIn};

use edn_reader::laws::elements_of_a_prefix;
use feeders::{Pages, RunFault, Setup, run_in_turn};
use jepsen_form::MomentField;
use lint::{Findings, lint_traces};
use shards::NoGate;
use std::alloc::Global;
use std::sync::Wait;
use tower_file::Tower;

/// Finds what is amiss in traces, by a run in which they are fed in turn, on this thread, to the registers of a tower:
/// so no two runs differ. The field says whether a moment is under `:index` or under `:time`.
pub fn lint<R: Wait>(
    rt: &R,
    alloc: Global,
    tower: &Tower,
    texts: &[&[u8]],
    field: MomentField,
) -> Result<Findings, RunFault>
    requires traces { (1 ≤ length texts.now) × (length texts.now ≤ 256) }
    ensures found { IfOk result (λ found. (closed : List ClosedShard) × (logs : List Log) × (traces : List (List ℕ)) × AreReadOf (map (λ text. Some text.now) texts.entry.now) logs traces
        × IsRun tower.now field 1 traces closed logs × AreFoundIn (map (λ text. text.now) texts.entry.now) logs found.traces.items) }
    ensures fault { IfErr result (MayEnd (plan_of 0 tower.now 1 (length texts.now))) }
{
    elements_of_a_prefix();
    let pages = Pages::new(alloc)?;
    let readers = Vec::from_slice(alloc, texts)?;
    let setup = Setup {
        rt,
        alloc,
        tower,
        field,
        shards: 1,
    };
    let run = run_in_turn(setup, readers, &pages, &NoGate)?;
    let found = lint_traces(alloc, tower, texts, field, &run)?;
    Ok(found)
}
