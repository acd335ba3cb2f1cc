//! How many operations stand in the registers of a tower.

ghost use Rattle.std.specs.Prelude.{◌≡◌, ◌≤◌, ◌↔◌, [], All, Contains, IfOk, IfSome, IsNone, sum};
ghost use Rattle.report.specs.Counts.{AreCounts, standing_counts, standing_in};

use intervals::RegId;
use shards::Closed;
use std::alloc::{AllocError, Global};
use tower_file::Tower;

/// How many operations stand in all registers together, and how many in the one that has the fewest, where there is a
/// register; unfinished operations count.
#[derive(Clone, Copy)]
pub struct Counts {
    pub all: u128,
    pub least: Option<u64>,
}

/// Counts the operations that stand in the registers of a tower.
pub fn standing_counts(alloc: Global, tower: &Tower, closed: &Closed) -> Result<Counts, AllocError>
    ensures { IfOk result (AreCounts (standing_counts tower.now closed.now)) }
{
    let each = count_each(alloc, tower, closed)?;
    Ok(counts_of(&each))
}

fn counts_of(each: &[u64]) -> Counts
    ensures { AreCounts each.now result }
{
    Counts {
        all: total(each),
        least: least_of(each),
    }
}

fn total(each: &[u64]) -> u128
    ensures { result ≡ sum each.now }
{
    each.iter().map(|many| u128::from(*many)).sum()
}

fn least_of(each: &[u64]) -> Option<u64>
    ensures none { IsNone result ↔ (each.now ≡ []) }
    ensures one { IfSome result (Contains each.now) }
    ensures least { IfSome result (λ least. All (λ many. least ≤ many) each.now) }
{
    each.iter().copied().min()
}

/// How many operations stand in each register, by number.
fn count_each(alloc: Global, tower: &Tower, closed: &Closed) -> Result<Vec<u64>, AllocError>
    ensures { IfOk result (λ each. each.items ≡ standing_counts tower.now closed.now) }
{
    let mut each = Vec::new(alloc);
    for number in 0..tower.len() {
        each.push(count_of(closed, number as u32))?;
    }
    Ok(each)
}

fn count_of(closed: &Closed, number: u32) -> u64
    ensures { result ≡ standing_in closed.now number }
{
    match closed.book(RegId(number)) {
        Some(book) => book.len() as u64,
        None => 0,
    }
}
