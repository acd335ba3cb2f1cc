//! Colours for lines that a terminal shows.
//!
//!     paint(alloc, b"error[E1]: the text ends inside an element\n")
//!     // "\u{1b}[1;31merror[E1]\u{1b}[0m: the text ends inside an element\n"
//!
//! How a line is painted follows from the line alone, mostly from how it begins (`line`). `specs/Painted.antt` says what
//! a painted text is.
#![tactic(auto)]

mod escapes;
mod line;
mod painting;

pub use escapes::TextColour;
pub use painting::paint;
