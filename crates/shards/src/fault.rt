//! Why a call of an auditor or a pass is refused.

ghost use Rattle.std.specs.Prelude.{◌≡◌};
ghost use Rattle.shards.specs.Code.{shard_fault_code};
ghost use Rattle.shards.specs.declared.fault.ShardFault.TheVariants.{Memory as NoMemory};

use std::alloc::{AllocError, AllocFailed};
use thiserror::Error;

/// Why a call is refused: S1 to S6.
#[derive(Clone, Copy, Debug, PartialEq, Eq, Error)]
pub enum ShardFault {
    /// The tower has no register of that number.
    #[error("S1 UnknownRegister")]
    UnknownRegister,
    /// Out of memory.
    #[error("S2 Memory")]
    Memory,
    /// The journal of the shard has `found` entries. It does not have, at number `seen`, the entry that the pass
    /// knows there; or the pass submitted `seen` entries, and the journal has more or fewer of its feeder. Both
    /// numbers are 0 where the lock of the shard guards another one.
    #[error("S3 JournalBehind in shard {shard} at {seen} of {found}")]
    JournalBehind {
        shard: u32,
        seen: u64,
        found: u64,
    },
    /// The feeder has none of the passes that are given.
    #[error("S4 PassMissing of feeder {0}")]
    PassMissing(u32),
    /// The journal's entry at this number is the feeder's, and the feeder's pass did not submit it there.
    #[error("S5 Stranger of feeder {feeder} in shard {shard} at {number}")]
    Stranger {
        shard: u32,
        feeder: u32,
        number: u64,
    },
    /// The pass, or what it is to learn, is of an auditor of another name or number of shards; or the pass is of a
    /// feeder that the auditor does not have; or two passes are of one feeder.
    #[error("S6 ForeignPass")]
    ForeignPass,
}

impl ShardFault {
    /// The code that users see: S1 to S6.
    pub fn code(&self) -> &'static str
        ensures { result.now ≡ shard_fault_code self.now }
    {
        match self {
            ShardFault::UnknownRegister => "S1",
            ShardFault::Memory => "S2",
            ShardFault::JournalBehind { .. } => "S3",
            ShardFault::PassMissing(_) => "S4",
            ShardFault::Stranger { .. } => "S5",
            ShardFault::ForeignPass => "S6",
        }
    }
}

impl From<AllocError> for ShardFault {
    ghost from_gives = { λ _ fault. fault ≡ NoMemory };

    fn from(_e: AllocError) -> ShardFault {
        ShardFault::Memory
    }
}

impl<T: Drop> From<AllocFailed<T>> for ShardFault {
    ghost from_gives = { λ _ fault. fault ≡ NoMemory };

    fn from(_e: AllocFailed<T>) -> ShardFault {
        ShardFault::Memory
    }
}

impl From<intervals::Memory> for ShardFault {
    ghost from_gives = { λ _ fault. fault ≡ NoMemory };

    fn from(_e: intervals::Memory) -> ShardFault {
        ShardFault::Memory
    }
}
