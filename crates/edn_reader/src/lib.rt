//! Lends the elements of a text, one after another, and names its first fault.
//!
//! The texts are EDN in this project's profile (docs/FORMATS.md). An element is its bytes in the input with its
//! kind and its place, and so is each element in a map or a vector: nothing is copied. The reader makes no tree,
//! and no values but keywords and integers of 64 bits; what a Text escapes is not resolved.
//!
//! ```text
//! let mut reader = Reader::new(alloc, b"{:f :write :k 7}");
//! let element = reader.next()?;                 // Some: a Map from 0 to 16
//! let map = element.as_map()?;                  // two pairs
//! let field = map.field(b":k");                 // Field::Once(seven): an Atom from 14 to 15
//! let number = seven.as_int();                  // Some(7)
//! let end = reader.next()?;                     // None, and None again
//! ```
//!
//! A [`Splitter`] finds the same elements where the text comes in chunks, and reports their places:
//!
//! ```text
//! let mut splitter = Splitter::new(alloc);
//! let taken = splitter.take(b"{:f :wri")?;      // all 8 bytes used, and no element has ended
//! let taken = splitter.take(b"te :k 7} a")?;    // 8 of them used: an element from 0 to 16
//! let element = splitter.lend(b"{:f :write :k 7}"); // that element, from its bytes
//! let kept = splitter.keep_from();              // 16: no later element begins before it
//! let taken = splitter.take(b" a")?;            // all used; the Atom may go on
//! let last = splitter.end()?;                   // an element from 17 to 18
//! ```
//!
//! The first row of `tests/form_tests/elements.rattle` is the first text; its other rows have each form and each
//! fault. Begin with `Reader::next`: its clauses name the grammar (specs/Grammar.antt), the texts (Text.antt) and the
//! first fault (Fault.antt); those of `Splitter` are in Splitting.antt. `laws` has what follows: an input is a text,
//! with one division into elements, or has one first fault.
#![tactic(auto)]

mod bytes;
mod element;
mod fault;
mod field;
mod flat;
mod integer;
pub mod laws;
mod lookahead;
mod nesting;
mod parts;
mod plain;
mod reader;
mod resume;
mod splitter;
mod step;
mod token;
mod tokens;
mod view;

pub use element::{Element, ElementKind};
pub use fault::EdnFault;
pub use field::Field;
pub use flat::{FlatMap, FlatPart};
pub use reader::Reader;
pub use splitter::{Splitter, Taken};
pub use view::{MapView, VectorView};
