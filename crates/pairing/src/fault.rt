//! Why an item of a trace is refused.

ghost use Rattle.std.specs.Prelude.{◌≡◌};
ghost use Rattle.pairing.specs.Code.{pair_fault_code};
ghost use Rattle.pairing.specs.declared.fault.PairFault.TheVariants.{Memory};

use std::alloc::{AllocError, AllocFailed};
use thiserror::Error;

/// Why an item of a trace is refused: P1 to P4.
#[derive(Clone, Copy, Debug, Error)]
pub enum PairFault {
    /// An invocation of a process whose last invocation has no answer yet.
    #[error("P1 ProcessBusy")]
    ProcessBusy,
    /// An answer of a process that has no unanswered invocation, or an edit that names a place where no
    /// accepted invocation is.
    #[error("P2 NoInvocation")]
    NoInvocation,
    /// An `:ok` of another action, register or written value than its invocation.
    #[error("P3 AnswerMismatch")]
    AnswerMismatch,
    /// Out of memory.
    #[error("P4 Memory")]
    Memory,
}

impl PairFault {
    /// The code that users see: P1 to P4.
    pub fn code(&self) -> &'static str
        ensures { result.now ≡ pair_fault_code self.now }
    {
        match self {
            PairFault::ProcessBusy => "P1",
            PairFault::NoInvocation => "P2",
            PairFault::AnswerMismatch => "P3",
            PairFault::Memory => "P4",
        }
    }
}

impl From<AllocError> for PairFault {
    ghost from_gives = { λ _ fault. fault ≡ Memory };

    fn from(_e: AllocError) -> PairFault {
        PairFault::Memory
    }
}

impl<T: Drop> From<AllocFailed<T>> for PairFault {
    ghost from_gives = { λ _ fault. fault ≡ Memory };

    fn from(_e: AllocFailed<T>) -> PairFault {
        PairFault::Memory
    }
}
