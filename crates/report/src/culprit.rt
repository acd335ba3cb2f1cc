//! Which registers are to blame.

ghost use Rattle.std.specs.Prelude.{◌≡◌, IfOk, false};
ghost use Rattle.std.specs.List.{list_all, slice_get};
ghost use Rattle.std.specs.Option.{option_map_or};
ghost use Rattle.report.specs.Culprit.{AreCulprits, culprits_from, is_culprit};
ghost use Rattle.report.specs.Finding.{IsOfTower, holds_in};

use crate::finding::{fails, find_failing, holds};
use crate::laws::the_culprits_are_those;
use intervals::{Memory, RegId};
use shards::Closed;
use std::alloc::{AllocError, Global};
use tower_file::Tower;

/// The registers that fail while all that they are built of hold, by number. They have to be of the tower.
pub fn culprits(alloc: Global, tower: &Tower, closed: &Closed) -> Result<Vec<RegId>, Memory>
    requires of_tower { IsOfTower tower.now closed.now }
    ensures { IfOk result (λ culprits. AreCulprits tower.now closed.now culprits.items) }
{
    the_culprits_are_those();
    let Ok(failing) = find_failing(alloc, tower, closed) else {
        return Err(Memory);
    };
    match culprits_in(alloc, tower, &failing) {
        Ok(culprits) => Ok(culprits),
        Err(_) => Err(Memory),
    }
}

/// The culprits, by number, where `failing` says which registers fail.
pub fn culprits_in(alloc: Global, tower: &Tower, failing: &[bool]) -> Result<Vec<RegId>, AllocError>
    ensures { IfOk result (λ culprits. culprits.items ≡ culprits_from failing.now 0 tower.now.registers) }
{
    let mut culprits = Vec::new(alloc);
    for number in 0..tower.len() {
        let id = RegId(number as u32);
        if is_culprit(tower, failing, id) {
            culprits.push(id)?;
        }
    }
    Ok(culprits)
}

/// Whether the register fails while all its parts hold, by `failing`.
pub fn is_culprit(tower: &Tower, failing: &[bool], id: RegId) -> bool
    ensures { result ≡ option_map_or (is_culprit failing.now id.0) (slice_get tower.now.registers id.0) false }
{
    match tower.parts_of(id) {
        Some(parts) => fails(failing, id.0 as usize) && all_hold(failing, parts),
        None => false,
    }
}

fn all_hold(failing: &[bool], parts: &[RegId]) -> bool
    ensures { result ≡ list_all (λ part. holds_in failing.now part.0) parts.now }
{
    for part in parts {
        if !holds(failing, part.0 as usize) {
            return false;
        }
    }
    true
}
