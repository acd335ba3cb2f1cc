//! The records of a run, in JSON or in EDN: one a line, for programs to read.
//!
//!     write_records(alloc, &form, &tower, &run, &texts, &mut out)?
//!     push_notice(alloc, &mut text, &tower, &notice)?     // one record, of what a watcher is told
//!
//! `specs/Run.antt` says which records a run has, `specs/Notice.antt` which a notice has, `specs/Symbol.antt` what a
//! record is (a list of symbols), and `specs/Json.antt` and `specs/Edn.antt` how it is written.
#![tactic(auto)]

mod allowed;
mod edn;
mod ends;
mod explained;
mod fault;
mod field;
mod in_json;
pub mod laws;
mod line;
mod log;
mod notice;
mod operation;
mod register;
mod run;
mod spot;
mod token;
mod value;

pub use line::Notation;
pub use notice::push_notice;
pub use run::{Form, write_records};
