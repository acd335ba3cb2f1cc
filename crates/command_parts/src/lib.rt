//! What the commands of the program share.
//!
//!     let opened = open_run(alloc, files, tower, None, &traces)?;   // the tower, and a reader for each trace
//!     let judged = judge(&job, keeps, opened.readers)?;             // what they give, fed to the tower's registers
//!     let status = status_after(alloc, demand, &opened.tower, &judged.run)?; // by what broke, failed or was refused
//!     say(alloc, fault, err)                                        // why a command broke off, as it is printed
//!
//! `Files` opens files by their names: those of the machine (`HostFiles`), or others. Begin with `specs/Complaint.antt`
//! (what is printed of a fault), `specs/Status.antt`, `specs/Job.antt` (a run over readers) and `specs/Kept.antt` (the
//! texts that are kept of traces).
#![tactic(auto)]

mod call;
mod fault;
mod files;
mod job;
mod judging;
mod kept;
mod naming;
mod opening;
mod status;
mod tower;
mod write;

pub use call::{push_moment_words, push_option, push_tower_words, push_trace_words};
pub use fault::{CommandFault, say};
pub use files::{Cause, Files, HostFiles, Missing, open_file, open_files, read_file, read_files};
pub use job::{Job, TRACE_LIMIT};
pub use judging::{Judged, judge};
pub use naming::{WrittenNames, has_fault, say_faults, write_names};
pub use opening::{OpenedRun, open_run};
pub use status::{BROKEN, is_refused, status_after, status_of};
pub use tower::{named, read_tower, the_tower, tower_in};
pub use write::{write_bytes, write_text};
