//! Why a run ends without its logs and journals.

ghost use Rattle.std.specs.Prelude.{◌≡◌};
ghost use Rattle.feeders.specs.declared.fault.RunFault.TheVariants.{Memory as NoMemory};

use intervals::Memory;
use shards::ShardFault;
use std::alloc::{AllocError, AllocFailed};
use thiserror::Error;

/// Why a run ends without its logs and journals.
#[derive(Clone, Copy, Debug, PartialEq, Eq, Error)]
pub enum RunFault {
    /// Memory was refused.
    #[error("Memory")]
    Memory,
    /// A shard refused an edit, a question or the end.
    #[error("{0}")]
    Shard(ShardFault),
}

/// Why a chunk of a trace was not taken whole, or why its end was not taken.
#[derive(Clone, Copy, Debug, Error)]
#[error("{fault} after {used} bytes")]
pub struct FeedFault {
    pub fault: RunFault,
    /// How many bytes of the chunk were taken: the feeder goes on with the byte after them. 0 at the end of a trace.
    pub used: usize,
}

impl From<FeedFault> for RunFault {
    ghost from_gives = { λ failed fault. fault ≡ failed.fault };

    fn from(failed: FeedFault) -> RunFault {
        failed.fault
    }
}

impl From<AllocError> for RunFault {
    ghost from_gives = { λ _ fault. fault ≡ NoMemory };

    fn from(_e: AllocError) -> RunFault {
        RunFault::Memory
    }
}

impl<T: Drop> From<AllocFailed<T>> for RunFault {
    ghost from_gives = { λ _ fault. fault ≡ NoMemory };

    fn from(_e: AllocFailed<T>) -> RunFault {
        RunFault::Memory
    }
}

impl From<Memory> for RunFault {
    ghost from_gives = { λ _ fault. fault ≡ NoMemory };

    fn from(_e: Memory) -> RunFault {
        RunFault::Memory
    }
}

/// A shard that was out of memory gives `Memory`, any other fault `Shard`.
impl From<ShardFault> for RunFault {
    ghost use Rattle.feeders.specs.Ending.{ended_by};

    ghost from_gives = { λ fault ended. ended ≡ ended_by fault };

    fn from(fault: ShardFault) -> RunFault {
        match fault {
            ShardFault::Memory => RunFault::Memory,
            other => RunFault::Shard(other),
        }
    }
}
