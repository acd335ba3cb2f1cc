//! Why a text is no tower file.

ghost use Rattle.std.specs.Prelude.{◌≡◌};
ghost use Rattle.tower_file.specs.Tower.{tower_fault_code};
ghost use Rattle.tower_file.specs.declared.fault.TowerFault.TheVariants.{Memory};

use edn_reader::EdnFault;
use std::alloc::{AllocError, AllocFailed};
use thiserror::Error;

/// The part of a tower file that is missing, is there twice or has another form.
#[derive(Clone, Copy, Debug, PartialEq, Eq)]
pub enum TowerField {
    /// The file: one map and nothing else.
    File,
    Levels,
    Name,
    Registers,
    Kind,
    Writers,
    Initial,
    Domain,
    /// What is under `:of`.
    Parts,
    Fixed,
}

/// The first fault of a tower file: that of the text as EDN, else the first in reading order.
#[derive(Clone, Copy, Debug, PartialEq, Eq, Error)]
pub enum TowerFault {
    /// The text has a fault as EDN, anywhere in the file.
    #[error("V1 Edn {0}")]
    Edn(EdnFault),
    /// A part of the file is missing, is there twice or has another form.
    #[error("V2 Shape of {0:?}")]
    Shape(TowerField),
    /// An earlier register has the name.
    #[error("V3 NameTaken")]
    NameTaken,
    /// A safe or regular register has not exactly one writer.
    #[error("V4 WriterCount")]
    WriterCount,
    /// A part of a register is no register of an earlier level.
    #[error("V5 UnknownPart")]
    UnknownPart,
    /// A domain without a value.
    #[error("V6 EmptyDomain")]
    EmptyDomain,
    /// The initial value is not in the domain.
    #[error("V7 InitialOutOfDomain")]
    InitialOutOfDomain,
    /// 65,536 registers come before this one.
    #[error("V8 TooMany")]
    TooMany,
    /// Memory was refused.
    #[error("V9 Memory")]
    Memory,
    /// The initial value of a safe or regular register is unknown.
    #[error("V10 UnknownInitial")]
    UnknownInitial,
}

impl TowerFault {
    /// The code that users see.
    pub fn code(&self) -> &'static str
        ensures { result.now ≡ tower_fault_code self.now }
    {
        match self {
            TowerFault::Edn(_) => "V1",
            TowerFault::Shape(_) => "V2",
            TowerFault::NameTaken => "V3",
            TowerFault::WriterCount => "V4",
            TowerFault::UnknownPart => "V5",
            TowerFault::EmptyDomain => "V6",
            TowerFault::InitialOutOfDomain => "V7",
            TowerFault::TooMany => "V8",
            TowerFault::Memory => "V9",
            TowerFault::UnknownInitial => "V10",
        }
    }
}

impl From<AllocError> for TowerFault {
    ghost from_gives = { λ _ fault. fault ≡ Memory };

    fn from(_e: AllocError) -> TowerFault {
        TowerFault::Memory
    }
}

impl<T: Drop> From<AllocFailed<T>> for TowerFault {
    ghost from_gives = { λ _ fault. fault ≡ Memory };

    fn from(_e: AllocFailed<T>) -> TowerFault {
        TowerFault::Memory
    }
}
