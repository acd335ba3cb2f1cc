//! Hooks at the shards, from which a caller may watch a feeder or hold it, and is told of each change of a verdict.

use crate::{Receipt, ShardFault, VerdictChange};

/// Hooks that are called while a feeder holds a shard's lock, and after it has released it. Where `inside` or `changed`
/// calls the auditor for a register of a locked shard, the call waits for ever. A `LoneAuditor` has no lock, since its
/// thread has it for itself, and calls the hooks in the same order.
pub trait Gate: Sync {
    /// Called once while the feeder holds the shard's lock, before the call is carried out.
    fn inside(&self, shard: u32, feeder: u32);

    /// Called while the feeder still holds the shard's lock, once for each change of a verdict that its edit made: so
    /// the changes in a shard come in the order of its journal.
    fn changed(&self, _feeder: u32, _change: &VerdictChange) {}

    /// Called once after the feeder has released the lock; where there is none, after the call was carried out.
    fn outside(&self, feeder: u32);
}

/// A gate that lets everyone through.
pub struct NoGate;

impl Gate for NoGate {
    fn inside(&self, _shard: u32, _feeder: u32) {}

    fn outside(&self, _feeder: u32) {}
}

/// Tells a gate the change of a verdict that an edit made, where it made one.
pub fn tell_change<G: Gate>(gate: &G, feeder: u32, answered: &Result<Receipt, ShardFault>) {
    if let Ok(receipt) = answered {
        if let Some(change) = &receipt.change {
            gate.changed(feeder, change);
        }
    }
}
