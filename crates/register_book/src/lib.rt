//! One register: the operations that stand after any edits, the edits that are refused, and whether the
//! register keeps what it claims, be it safe, regular or atomic.
//!
//! A book begins with a claim and takes edits one by one:
//!
//!     let mut book = RegisterBook::new(alloc, &claim)?;   // safe, 0 at first, of the digits
//!     book.apply(write)?                  // Accepted { holds: true }: of 1, and it has no end yet
//!     book.apply(read)?                   // Accepted { holds: true }: within the write
//!     book.apply(read_returns_12)?        // Accepted { holds: false }: 12 is none of the digits
//!     book.fault()                        // Some(Fault::Wrong(..)): the read, by its id
//!     book.witness()                      // the read itself, lent as long as the trace
//!
//! The second row of `tests/judge_tests/books.rattle` is this history, and the rows below it show each
//! refusal. An atomic register that holds gives an order of its operations too. One that fails names an unwritten
//! read, an early one, or four operations that no order has room for: the rows that begin with `atomic`. A claim of
//! another kind is an edit like the others: the operations are judged by it from then on.
//!
//! The initial value of an atomic register may be unknown: the rows that begin with `atomic unknown`. Such a
//! register holds where there is an order for some initial value that no write carries. So all reads of values
//! that nothing wrote must return one value, which is then the initial one, and two that differ are its fault.
//! It cannot be claimed to be safe or regular.
//!
//! Begin with `specs/Reply.antt` and `specs/Fault.antt`: the reply to an edit, and which operations show that
//! a register fails, with their roles. They use the words of `intervals` and `zones`. Then come the calls, in `book.rt`,
//! the writes that say what a wrong read might have returned, in `around.rt`, and what follows from the words, in
//! `laws.rt`.
//!
//! The rest is private. `judge.rt` has the judge of the claimed kind: `zones::Clusters` of an atomic register,
//! `safe_regular::SingleWriterJudge` of the other two. Both keep the operations; they make room for an edit
//! first and change in place then. `refused.rt` asks the judge and its table why an edit is refused.
//! `many_writers.rt` and `one_writer.rt` find the operations of a fault.
#![tactic(auto)]

mod around;
mod book;
mod fault;
mod judge;
pub mod laws;
mod many_writers;
mod one_writer;
mod refused;
mod reply;

pub use around::{WritesAround, writes_around};
pub use book::RegisterBook;
pub use fault::{Fault, InRole, Role, Side, Witness, is_one};
pub use reply::Reply;
