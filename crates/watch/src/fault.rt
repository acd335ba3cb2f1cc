//! Why a watch broke off.

ghost use Rattle.std.specs.Prelude.{◌≡◌};

use feeders::RunFault;
use shards::ShardFault;
use std::alloc::AllocError;
use thiserror::Error;

/// Why a watch broke off.
#[derive(Clone, Copy, Debug, Error)]
pub enum WatchFault {
    /// Memory was refused.
    #[error("Memory")]
    Memory,
    /// The output refused a notice: whoever read it may have gone away.
    #[error("Write")]
    Write,
    /// A shard refused an edit, a question or the end.
    #[error("{0}")]
    Shard(ShardFault),
    /// The notices are not those of the closed journals, or of the logs.
    #[error("Untold")]
    Untold,
}

impl From<AllocError> for WatchFault {
    ghost use Rattle.watch.specs.declared.fault.WatchFault.TheVariants.{Memory as NoMemory};

    ghost from_gives = { λ _ fault. fault ≡ NoMemory };

    fn from(_fault: AllocError) -> WatchFault {
        WatchFault::Memory
    }
}

impl From<RunFault> for WatchFault {
    ghost use Rattle.watch.specs.Watched.{unwatched};

    ghost from_gives = { λ fault watch. watch ≡ unwatched fault };

    fn from(fault: RunFault) -> WatchFault {
        match fault {
            RunFault::Memory => WatchFault::Memory,
            RunFault::Shard(fault) => WatchFault::Shard(fault),
        }
    }
}
