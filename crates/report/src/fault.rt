//! Why a report is not written.

ghost use Rattle.std.specs.Prelude.{◌≡◌};
ghost use Rattle.report.specs.declared.fault.ReportFault.TheVariants.{Memory as NoMemory, Write as NotWritten};

use std::alloc::{AllocError, AllocFailed};
use std::io;
use thiserror::Error;

#[derive(Clone, Copy, Debug, Error)]
pub enum ReportFault {
    /// Out of memory. Nothing was written.
    #[error("Memory")]
    Memory,
    /// The writer failed. How much it took is not known.
    #[error("Write")]
    Write,
}

impl From<AllocError> for ReportFault {
    ghost from_gives = { λ _ fault. fault ≡ NoMemory };

    fn from(_e: AllocError) -> ReportFault {
        ReportFault::Memory
    }
}

impl<T: Drop> From<AllocFailed<T>> for ReportFault {
    ghost from_gives = { λ _ fault. fault ≡ NoMemory };

    fn from(_e: AllocFailed<T>) -> ReportFault {
        ReportFault::Memory
    }
}

impl From<intervals::Memory> for ReportFault {
    ghost from_gives = { λ _ fault. fault ≡ NoMemory };

    fn from(_e: intervals::Memory) -> ReportFault {
        ReportFault::Memory
    }
}

impl From<io::Error> for ReportFault {
    ghost from_gives = { λ _ fault. fault ≡ NotWritten };

    fn from(_e: io::Error) -> ReportFault {
        ReportFault::Write
    }
}
