//! Where the operations of a register are drawn in a picture, by the order of their moments alone.
//!
//! ```text
//! let chosen = choose(alloc, slots, &asked, Extent::Around(3))?;   // those that are shown, and when the others began
//! let marks = marks(alloc, &chosen.shown)?;                        // where they begin and end, in order
//! let spans = spans(alloc, &chosen.shown, &marks)?;                // the marks of each
//! let folded = folded(alloc, &marks, &chosen.hidden)?;             // how many of the others began between two marks
//! let places = places(alloc, &steps, wants)?;                      // how far right each mark is
//! let starts = rows(alloc, &marks, &places, 100)?;                 // with which marks new rows begin
//! let seats = seats(alloc, &chosen.shown)?;                        // lanes by process, in which no two overlap
//! ```
//!
//! The caller chooses how wide a step is and how much room a label wants, in units of a drawing or in cells of a
//! terminal. All numbers are integers.
//!
//! Begin with `laws.rt`: of two operations that are shown the first ends left of where the second begins exactly
//! when it precedes it; an operation that is asked for is shown; each that is not shown is counted once. Then come
//! the calls: `choice.rt`, `axis.rt`, `place.rt`, `row.rt` and `seat.rt`, each with its words in `specs/`.
#![tactic(auto)]

mod axis;
mod choice;
pub mod laws;
mod place;
mod row;
mod seat;

pub use axis::{BarSpan, Mark, folded, marks, spans};
pub use choice::{Chosen, Extent, choose};
pub use place::{Want, places};
pub use row::rows;
pub use seat::{Seat, seats};
