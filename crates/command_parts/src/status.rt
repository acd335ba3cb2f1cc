//! The status of a run.

ghost use Rattle.std.specs.Prelude.{◌≡◌, ◌↔◌, ◌⊎◌, IfOk, IsTrue, false, nat_lt};
ghost use Rattle.std.specs.List.{list_any};
ghost use Rattle.std.specs.Option.{option_map_or};
ghost use Rattle.report.specs.Culprit.{Fails};
ghost use Rattle.report.specs.Doubted.{AreAllInDoubt};
ghost use Rattle.report.specs.Finding.{IsOfTower};
ghost use Rattle.report.specs.Refused.{is_refused_line};
ghost use Rattle.report.specs.Summary.{is_broken};
ghost use Rattle.command_parts.specs.Status.{HasFailing, HasTooFew, IsStatus, failing_status, has_refused, status_by, status_of};

use intervals::RegId;
use logs::{Line, Log, Run, What};
use report::{are_all_in_doubt, standing_counts};
use shards::Closed;
use std::alloc::{AllocError, Global};
use tower_file::Tower;
use words::Demand;

/// The status of a run whose trace broke, or that could not read, write or go on.
pub const BROKEN: u8 = 2;

/// The status of a run of which this is so.
pub fn status_of(broken: bool, fails: bool, refused: bool, few: bool) -> u8
    ensures { result ≡ status_of broken fails refused few }
{
    status_by(1, broken, fails, refused, few)
}

/// The status of a run of which this is so, where it is `failing` if a register fails.
fn status_by(failing: u8, broken: bool, fails: bool, refused: bool, few: bool) -> u8
    ensures { result ≡ status_by failing broken fails refused few }
{
    if broken {
        BROKEN
    } else if fails {
        failing
    } else if refused {
        3
    } else if few {
        4
    } else {
        0
    }
}

/// Whether one of the traces broke.
pub fn any_broken(logs: &[Log]) -> bool
    ensures { result ≡ list_any is_broken logs.now }
{
    logs.iter().any(|log| log.broken.is_some())
}

/// Whether an element of one of the traces was refused.
pub fn any_refused(logs: &[Log]) -> bool
    ensures { result ≡ list_any has_refused logs.now }
{
    logs.iter().any(is_refused)
}

/// Whether an element of the trace was refused.
pub fn is_refused(log: &Log) -> bool
    ensures { result ≡ has_refused log.now }
{
    log.lines.iter().any(is_refused_in)
}

fn is_refused_in(line: &Line) -> bool
    ensures { result ≡ is_refused_line line.now }
{
    match line.what {
        What::Refused(_) => true,
        What::Answered(..) => false,
    }
}

/// Whether fewer operations stand in all registers together than `least`, or in some register than `least_each`.
pub fn has_too_few(
    alloc: Global,
    tower: &Tower,
    closed: &Closed,
    least: u64,
    least_each: u64,
) -> Result<bool, AllocError>
    ensures { IfOk result (λ few. IsTrue few ↔ HasTooFew tower.now closed.now least least_each) }
{
    if least == 0 && least_each == 0 {
        return Ok(false);
    }
    let counts = standing_counts(alloc, tower, closed)?;
    Ok(counts.all < u128::from(least) || is_below(counts.least, least_each))
}

fn is_below(least: Option<u64>, least_each: u64) -> bool
    ensures { result ≡ option_map_or (λ least. nat_lt least least_each) least false }
{
    match least {
        Some(least) => least < least_each,
        None => false,
    }
}

/// Whether a register of the tower fails.
pub fn any_fails(tower: &Tower, closed: &Closed) -> bool
    ensures { IsTrue result ↔ HasFailing tower.now closed.now }
{
    for number in 0..tower.len() {
        if is_failing(closed, RegId(number as u32)) {
            return true;
        }
    }
    false
}

fn is_failing(closed: &Closed, id: RegId) -> bool
    ensures { IsTrue result ↔ Fails closed.now id.0 }
{
    match closed.book(id) {
        Some(book) => !book.holds(),
        None => false,
    }
}

/// Whether each failure of a register rests on elements that were left out; not looked at where the status is 1 all the same.
fn are_in_doubt(alloc: Global, doubt: u8, tower: &Tower, run: &Run) -> Result<bool, AllocError>
    requires of_tower { IsOfTower tower.now run.now.closed }
    ensures { IfOk result (λ in_doubt. (doubt ≡ 1) ⊎ AreAllInDoubt tower.now run.now.closed run.now.logs.items in_doubt) }
{
    if doubt == 1 {
        return Ok(false);
    }
    are_all_in_doubt(alloc, tower, run)
}

fn failing_status(doubt: u8, in_doubt: bool) -> u8
    ensures { result ≡ failing_status doubt in_doubt }
{
    if in_doubt { doubt } else { 1 }
}

/// The status of a run over the registers of a tower, by what it has to meet.
pub fn status_after(
    alloc: Global,
    demand: Demand,
    tower: &Tower,
    run: &Run,
) -> Result<u8, AllocError>
    requires of_tower { IsOfTower tower.now run.now.closed }
    ensures { IfOk result (IsStatus tower.now run.now.closed run.now.logs.items demand) }
{
    let few = has_too_few(alloc, tower, &run.closed, demand.least, demand.least_each)?;
    let in_doubt = are_in_doubt(alloc, demand.doubt, tower, run)?;
    Ok(status_by(
        failing_status(demand.doubt, in_doubt),
        any_broken(&run.logs),
        any_fails(tower, &run.closed),
        any_refused(&run.logs),
        few,
    ))
}
