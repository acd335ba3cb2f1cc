//! The first fault of an input, or the refusal of memory, with its place.

ghost use Rattle.std.specs.Prelude.{◌≡◌};
ghost use Rattle.edn_reader.specs.Fault.{wanted_at};

use thiserror::Error;

/// Why an input could not be read further (docs/FORMATS.md, Faults). Each place is a number of bytes from its start.
#[derive(Clone, Copy, Debug, PartialEq, Eq, Error)]
pub enum EdnFault {
    /// The input ends inside an element or a discard: its length.
    #[error("E1 Truncated at {0}")]
    Truncated(usize),
    /// A closing bracket while none is open.
    #[error("E2 StrayClose at {0}")]
    StrayClose(usize),
    /// A closing bracket that does not fit the innermost open one.
    #[error("E3 WrongClose at {0}")]
    WrongClose(usize),
    /// A bracket, tag or discard that begins while 64 are open: its first byte.
    #[error("E4 TooDeep at {0}")]
    TooDeep(usize),
    /// A map closes after an odd number of elements.
    #[error("E5 OddMap at {0}")]
    OddMap(usize),
    /// A bracket closes while a tag or a discard in it waits for its element: the `#` of the innermost that waits.
    #[error("E6 TagWithoutElement at {0}")]
    TagWithoutElement(usize),
    /// Memory was refused for what begins at this byte. [`Splitter::take`](crate::Splitter::take) names the byte
    /// that it goes on with: this one, or the first of its chunk where what was refused began in an earlier one.
    #[error("E7 Memory at {0}")]
    Memory(usize),
}

/// The byte at which memory was refused; none for a fault of the input.
pub fn wanted_at(fault: EdnFault) -> Option<usize>
    ensures { result ≡ wanted_at fault }
{
    match fault {
        EdnFault::Memory(place) => Some(place),
        _ => None,
    }
}
