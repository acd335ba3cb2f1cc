//! What is noted while traces are fed to the registers of a tower: their logs, what a watcher is told, and what a run
//! leaves.
//!
//!     // run.logs[0].lines: the refusals and answers of trace 0, each with the place of its element; a refusal has its
//!     // code, and what the element is about: its register, what it would have written, the operation that it is of
//!     // run.logs[1].broken: where trace 1 broke, if it did
//!     // run.closed: the journals, and the operations of each register
//!
//! The crate `feeders` makes them. `specs/Steps.antt` says which steps a trace has, `specs/Doings.antt` what is done
//! for them and noted, and `specs/Run.antt` what a run leaves; `specs/Broken.antt` which elements a broken trace has,
//! and `specs/Code.antt` the codes that users see.
#![tactic(auto)]

mod log;
mod notice;
mod run;

pub use log::{BreakCode, Broken, Code, LeftOut, Line, Log, What, broken_by};
pub use notice::Notice;
pub use run::Run;
