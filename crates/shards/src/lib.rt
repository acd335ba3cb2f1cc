//! Shards: the registers of a tower, with a journal of the edits that were answered in each: under locks for feeders in
//! threads, or without for feeders that take turns on one thread.
//!
//! An auditor is opened for a tower, a number of shards and a number of feeders. Register `r` is in
//! shard `r` modulo the number of shards. Each feeder has a pass, with which it submits edits and asks
//! questions, from any thread:
//!
//!     let (auditor, mut passes) = Auditor::open(alloc, 7, &tower, 2, 2)?;
//!     auditor.submit(rt, &NoGate, &mut pass, RegId(0), edit)?   // number 0, Accepted { holds: true }
//!     auditor.standing(rt, &NoGate, &mut pass, RegId(0))?       // holds, 1 operation, of a journal of 1 entry
//!     other.learn(pass.seen())?                                 // the other pass now knows of that entry
//!     auditor.finish(passes)?                                   // the journals and the books
//!
//! One thread that has an auditor for itself needs no pass and no lock, and its journals are there in proofs alone. Each
//! call names the feeder whose turn it is:
//!
//!     let mut auditor = LoneAuditor::open(alloc, &tower, 2, 2)?;
//!     auditor.submit(&NoGate, 0, RegId(0), &edit)?;             // number 0, Accepted { holds: true }
//!     auditor.standing(&NoGate, 1, RegId(0))?;                  // holds, 1 operation
//!     auditor.submitted(0, 0);                                  // 1
//!     auditor.close()                                           // the books, the feeders and the changes of verdicts
//!
//! Begin with `specs/Journal.antt`: a legal journal, in which each entry has the reply of its register as the
//! entries before leave it. `specs/Pass.antt` has what a feeder knows, and which journals are in keeping with
//! that; `specs/Steps.antt` what an edit and a question come to; `specs/Merge.antt` and `specs/Closing.antt`
//! what is left at the end; `specs/Alone.antt` what calls without locks come to. `laws.rt` has what follows from these
//! definitions.
//!
//! The value under a shard's lock is a `ShardState`: its invariant says that the journal is legal and each entry of
//! one of the feeders, that each book is what the journal leaves of its register, and that each feeder's count
//! is the number of its entries. A lock forgets all of a value but its type, so the plan that the journal is
//! legal for is a parameter of the type: an `Opening`, of which a caller picks one (`opening.rt`).
#![tactic(auto)]

mod auditor;
mod closed;
mod closing;
mod compact;
mod entry;
mod fault;
mod fitting;
mod gate;
mod ghost_entries;
mod keeping;
pub mod laws;
mod lone_auditor;
mod opening;
mod parts;
mod pass;
mod same;
mod seen;
mod shard;
mod state;
mod submitted;

pub use auditor::{Auditor, Unfinished};
pub use closed::Closed;
pub use entry::{Answer, Entry, NumberedEntry, Receipt, VerdictChange};
pub use fault::ShardFault;
pub use gate::{Gate, NoGate};
pub use lone_auditor::LoneAuditor;
pub use opening::Opening;
pub use pass::Pass;
pub use seen::Seen;
pub use state::ShardState;
