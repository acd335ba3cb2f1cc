//! The rows of data that the program `rows` goes over: what a text says of a row, and texts that come in pieces.
//!
//!     let row = row_of(alloc, text)?;             // its name, words, inputs and files, and what has to be written
//!     let input = Pieces::new(bytes, Cut::at(3)); // gives three bytes, and then the others
//!
//! The head of `rows/src/main.rt` says how a row is written. Nothing here makes a run, so this is proved beside the
//! program's crates and not after them.
#![tactic(auto)]

mod pieces;
mod row;

pub use pieces::{Cut, Pieces};
pub use row::{Named, Row, Spoil, row_of};
