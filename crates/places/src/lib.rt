//! Where the elements of traces are: their first bytes, with the lines and the columns of these.
//!
//!     let places = Places::of(alloc, &texts)?;
//!     places.locate(0, 6)                     // the spot of element 6 of trace 0, which is its seventh
//!     places.line_of(0, 150)                  // the line of its byte 150
//!
//! Where texts are read while they are judged, as pipes are, `Copies` keeps what the readers give:
//!
//!     let copies = Copies::new(alloc, readers.len())?;
//!     let readers = copied_to(rt, alloc, readers, &copies)?;
//!     // ..and once all is read
//!     let kept = copies.into_kept(alloc)?;    // of each text its bytes, and whether it ended after them
//!
//! `specs/LineColumn.antt` has lines and columns, `specs/Location.antt` the spot of an element, `specs/Spots.antt`
//! those of several texts, and `specs/Copied.antt` what is kept of texts.
#![tactic(auto)]

mod copying;
mod line_column;
mod location;
mod spots;

pub use copying::{Copies, Copying, Kept, Originals, copied_to};
pub use line_column::{Cursor, LineColumn};
pub use location::{Elements, Location, elements_of, spot_in, spot_of_one};
pub use spots::Places;
