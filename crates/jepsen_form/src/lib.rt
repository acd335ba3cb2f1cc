//! Reads one element of a trace: an event of a process, an edit, a question, or nothing.
//!
//! A trace is EDN as Jepsen writes histories, in this project's profile (docs/FORMATS.md). The fields of a
//! map are read in one fixed order, and the first that is wrong gives the fault, from F1 to F8; with it comes the gist
//! of the element, which is what can be read of it all the same. Tags and fields of other names change nothing; events
//! of a process that is no integer are skipped. An item lends the text of its element, and no call takes memory.
//!
//! ```text
//! let element = reader.next()?;        // {:process 0 :type :invoke :f :write :value 5 :index 2}
//! let item = read_item(element, MomentField::Index, &tower)?;
//!                                      // an Event: process 0 invokes a write of 5 on register 0 at 2
//! ```
//!
//! The first row of `tests/form_tests/items.rattle` is this element; its other rows have each form and each
//! fault. Begin with `read_item`: its clauses name the item of an element (`specs/Item.antt`, over the fields of
//! `Fields.antt`) and what each item has (`Whole.antt`). `mention_of` says which register an element names where there is
//! no tower yet (`Mention.antt`). `Form.antt` serves private clauses alone. `laws` says that each element has one item.
#![tactic(auto)]

mod edit;
mod element;
mod event;
mod fault;
mod form;
mod gist;
mod item;
pub mod laws;
mod mention;
mod read;
mod said;

pub use fault::{FormFault, FormField};
pub use gist::{Gist, RefusedForm, Written};
pub use item::{Action, Event, Item, MomentField, Stage};
pub use mention::{Mention, mention_of};
pub use read::{read_first, read_item};
