//! A fault of a tower file with its place in the text.

ghost use Rattle.std.specs.Prelude.{◌≡◌, ◌≢◌, Some, None};
ghost use Rattle.edn_reader.specs.Lent.{piece_of};
ghost use Rattle.tower_file.specs.Located.{byte_span_of, wanting, NoneForMemory};
ghost use Rattle.tower_file.specs.declared.fault.TowerFault.TheVariants.{Memory};

use crate::fault::TowerFault;
use edn_reader::Element;
use std::alloc::{AllocError, AllocFailed};

/// A fault, and the span of the bytes that are wrong: the place of the first one, and the place after the last one.
/// Both are the place of the fault where it is one of the text (V1). Where memory was refused (V9) there is no span.
#[derive(Clone, Copy)]
pub struct LocatedFault {
    pub fault: TowerFault,
    pub span: Option<(usize, usize)>,
}

impl From<AllocError> for LocatedFault {
    ghost from_gives = { λ _ located. located ≡ wanting };

    fn from(_e: AllocError) -> LocatedFault {
        wanting()
    }
}

impl<T: Drop> From<AllocFailed<T>> for LocatedFault {
    ghost from_gives = { λ _ located. located ≡ wanting };

    fn from(_e: AllocFailed<T>) -> LocatedFault {
        wanting()
    }
}

fn wanting() -> LocatedFault
    ensures { result ≡ wanting }
{
    LocatedFault {
        fault: TowerFault::Memory,
        span: None,
    }
}

/// The fault, with the span of an element; without one where memory was refused.
pub fn located(fault: TowerFault, element: &Element) -> LocatedFault
    ensures fault { result.fault ≡ fault }
    ensures nowhere { NoneForMemory result }
    ensures span { fault ≢ Memory → result.span ≡ Some (byte_span_of (piece_of element.now)) }
{
    match fault {
        TowerFault::Memory => wanting(),
        _ => LocatedFault {
            fault,
            span: Some(element.span()),
        },
    }
}
