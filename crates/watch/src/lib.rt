//! Watches registers while their traces are read: a notice is written, and flushed, as soon as a verdict changes, an
//! element is refused, or a trace breaks or ends.
//!
//!     let watched = watch_readers(rt, &tower, readers, &pages, &terms, &mut out)?
//!
//! `specs/Watched.antt` says what was written when a watch is over. A teller has the output under a lock of its own,
//! which is taken after that of a shard: so an output that waits slows the feeders. Its invariant says that the output
//! is what it was before, and then the texts of the notices that were told, less failures that it holds back and those
//! that healed before they were written (`specs/Settling.antt`); and, while it takes notices, that the first of what it
//! holds back is not due (`specs/Due.antt`). When the run is closed what was told is compared with the changes of
//! verdicts in its journals, and with the refusals, the break and the end in each log. `laws` has what a watcher of one
//! trace may rely on.
#![tactic(auto)]

mod compare;
mod doubt;
mod fault;
pub mod laws;
mod live;
mod noted;
mod printer;
mod run;
mod same;
mod settling;
mod stoppable;
mod teller;
mod text;

pub use fault::WatchFault;
pub use run::{Terms, Watched, watch_readers};
pub use text::NoticeForm;
