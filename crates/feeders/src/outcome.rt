//! What a feeder leaves.

ghost use Rattle.std.specs.Prelude.{◌≡◌, IfErr, IfOk};
ghost use Rattle.feeders.specs.declared.fault.RunFault.TheVariants.{Memory};

use crate::access::Access;
use crate::fault::RunFault;
use logs::Log;
use shards::{Opening, Pass};

/// A feeder's pass, and its log.
#[derive(Drop)]
pub struct FeederOutcome<'t> {
    pub pass: Pass<'t>,
    pub log: Log<'t>,
}

/// What a feeder with a pass leaves. A lone feeder has none; it is never asked.
pub fn outcome_of<'t, O: Opening>(
    access: Access<'_, 't, O>,
    log: Log<'t>,
) -> Result<FeederOutcome<'t>, RunFault>
    ensures outcome { IfOk result (λ fed. fed ≡ record { pass = access.entry.pass; log = log.entry }) }
    ensures fault { IfErr result (λ fault. fault ≡ Memory) }
{
    match access.into_pass() {
        Some(pass) => Ok(FeederOutcome { pass, log }),
        None => Err(RunFault::Memory),
    }
}
