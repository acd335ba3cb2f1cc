//! Operations of registers on one clock: what stands after edits, which edits are refused, and what
//! each kind of register promises of the operations that stand (Lamport 1986).
//!
//! An edit appends an operation, changes one or takes one out, or claims another kind. A book is first asked whether
//! it accepts an edit, and then carries it out:
//!
//! ```text
//! let mut book = OpBook::new(alloc);
//! book.admit(write)?;                  // of 1, from 0 to 1
//! book.admit(read)?;                   // from 5 on, with no end yet
//! book.check(&another_read)            // Err(MomentTaken(5, ..)): it ends at 5
//! book.check(&ends_at_6)               // Ok: the amendment gives the read its end
//! book.admit(ends_at_6)?;
//! book.slots()                         // the write, and the read from 5 to 6
//! ```
//!
//! `laws::worked_replies` computes these replies and others from the definitions, and `laws::worked_edits` what
//! stands after edits. The tests in `tests/judge_tests` make these calls.
//!
//! An edit takes the time of a few look-ups, however many operations stand: `OpTable` finds them by their ids and
//! by their moments, each in a `RisingMap` (`rising.rt`), and can make room for an operation before it is admitted.
//! An `OpBook` is a table in which nothing is prepared. `overlap.rt` and `repeat.rt` find what is in the way of a
//! claim. An `OrderedIndex` has ids by value and moment; a place in it may be held before its id comes.
//!
//! Begin with `specs/Operation.antt`, then `Edit.antt` and `Refusal.antt` (what stands, and the reply to an edit),
//! then `Kind.antt` (what is promised). The calls are in `table.rt`; `laws` has theorems about the definitions.
#![tactic(auto)]

mod book;
mod claim;
mod edit;
pub mod laws;
mod moments;
mod operation;
mod ordered_index;
mod overlap;
mod refusal;
mod repeat;
mod rising;
mod table;
mod target;

pub use book::OpBook;
pub use claim::{Claim, Holder, Initial, Kind, Writers};
pub use edit::{Change, Edit, Lent, changed};
pub use operation::{
    Act, Memory, Moment, Op, OpId, OpParts, RegId, Value, is_same_value, overlaps, precedes,
};
pub use ordered_index::{OrderedIndex, Spot};
pub use refusal::Refusal;
pub use table::OpTable;
pub use target::Target;
