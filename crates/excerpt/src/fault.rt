//! Why there is no excerpt.

ghost use Rattle.std.specs.Prelude.{◌≡◌};
ghost use Rattle.feeders.specs.declared.fault.RunFault.TheVariants.{Memory as NoMemory};
ghost use Rattle.excerpt.specs.declared.fault.ExcerptFault.TheVariants.{Broken as IsBroken};

use feeders::RunFault;
use std::alloc::AllocError;

/// Why there is no excerpt.
#[derive(Clone, Copy)]
pub enum ExcerptFault {
    /// Memory was refused, or the run of the trace that was made broke off.
    Broken(RunFault),
    /// The trace that was made does not fail in the same ways, which no run is known to lead to.
    Unlike,
}

impl From<RunFault> for ExcerptFault {
    ghost from_gives = { λ fault given. given ≡ IsBroken fault };

    fn from(fault: RunFault) -> ExcerptFault {
        ExcerptFault::Broken(fault)
    }
}

impl From<AllocError> for ExcerptFault {
    ghost from_gives = { λ _ given. given ≡ IsBroken NoMemory };

    fn from(_e: AllocError) -> ExcerptFault {
        ExcerptFault::Broken(RunFault::Memory)
    }
}
