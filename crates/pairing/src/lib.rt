//! Pairs the answers of a trace with their invocations: from an item at its place to a step on a register.
//!
//! A process has one unanswered invocation at most, and its next accepted event is the answer. An invocation
//! appends an unfinished operation, an `:ok` gives it its end and a read its value, a `:fail` withdraws it, an
//! `:info` leaves it unfinished. An edit names an accepted invocation by its place. What does not fit is refused
//! with P1, P2 or P3, and counts as not there.
//!
//! ```text
//! let mut pairing = Pairing::new(alloc, 7);
//! let opened = pairing.take(invoked, 0)?;      // append operation 7:0, a write of 1 from 100 on
//! let ended = pairing.take(answered, 1)?;      // amend 7:0: its end is 170
//! let fault = pairing.take(answered, 2);       // P2: no invocation waits for this answer
//! ```
//!
//! The first trace of `tests/form_tests/steps.rattle` makes these calls; its other traces have each step and each
//! fault. Begin with `Pairing::take`: its clauses name the accepted items (`specs/Accepted.antt`), the step of an item
//! (`Step.antt`) and what a pairing knows (`Known.antt`, and `Waiting.antt` for what waits for an answer). What a
//! refused element is about, its register, what it would have written and its operation, is in `About.antt`.
//! `Registers.antt` serves private clauses alone. `laws` says which answer belongs to which invocation.
#![tactic(auto)]

mod about;
mod fault;
mod invocation;
pub mod laws;
mod pairing;
mod registers;
mod step;
mod waiting;

pub use about::{About, about_edit, gist_of_item};
pub use fault::PairFault;
pub use pairing::Pairing;
pub use step::Step;
