//! What a run has to meet, for its status.

ghost use Rattle.std.specs.Prelude.{◌≡◌, codes};
ghost use Rattle.clap.specs.Words.{found_of, rows_of};
ghost use Rattle.words.specs.Words.{demand_by, said_in, status_in};

use crate::check::count_of;
use clap::ArgMatches;

/// What a run has to meet, for its status.
#[derive(Clone, Copy)]
pub struct Demand {
    /// How many operations have to stand in all registers together, at least.
    pub least: u64,
    /// How many operations have to stand in each register, at least.
    pub least_each: u64,
    /// The status where registers fail, and each of these failures rests on elements that were left out.
    pub doubt: u8,
}

/// What has to be met by the arguments that `clap` found, or none.
pub(crate) fn demand_of(found: &ArgMatches<'_>) -> Option<Demand>
    ensures { result ≡ demand_by (rows_of (found_of found.now)) }
{
    let least = count_of(found, "least")?;
    let least_each = count_of(found, "least-each")?;
    let doubt = doubt_of(found)?;
    Some(Demand {
        least,
        least_each,
        doubt,
    })
}

fn doubt_of(found: &ArgMatches<'_>) -> Option<u8>
    ensures { result ≡ said_in status_in (codes "doubt") (rows_of (found_of found.now)) }
{
    status_in(found.get_str("doubt")?)
}

fn status_in(text: &str) -> Option<u8>
    ensures { result ≡ status_in text.now }
{
    match text.parse::<u8>() {
        Ok(status) => Some(status),
        Err(_) => None,
    }
}
