//! Feeds traces, each in a thread of its own, to the registers of a tower.
//!
//!     let setup = Setup { rt, alloc, tower: &tower, field: MomentField::Index, shards: 2 };
//!     let run = run_traces(setup, &[first, second], &NoGate)?;
//!     // run.closed.book(register), run.closed.changes(shard), run.logs[0].lines, run.logs[1].broken
//!
//!     let pages = Pages::new(alloc)?;
//!     let run = run_readers(setup, readers, &pages, &NoGate)?;
//!
//! Begin with `trace`, and with `feeder` for a trace that comes in chunks: an element becomes an item, an item a
//! step, and a step an entry of a journal or a question. The crate `logs` says which steps a trace has, what is done
//! for them and noted, and what a run leaves; `noting` does and notes it. `laws` has what follows from these.
#![tactic(auto)]

mod access;
mod fault;
mod feeder;
mod intake;
pub mod laws;
mod line_count;
mod next;
mod noting;
mod outcome;
mod pages;
mod paging;
mod pending;
mod progress;
mod run;
mod setup;
mod several;
mod site;
mod source;
mod stream;
mod tail_buffer;
mod trace;
mod watcher;
mod whole;

pub use access::Access;
pub use fault::{FeedFault, RunFault};
pub use feeder::Feeder;
pub use pages::Pages;
pub use run::{run_in_turn, run_readers, run_traces};
pub use setup::Setup;
pub use watcher::Watcher;
pub use whole::{InputFault, read_whole};
