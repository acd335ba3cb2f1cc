//! The program's commands, over files, a standard input and two outputs.
//!
//! ```text
//! let files = &mut HostFiles::new(rt);
//! let shows = shows_colours(rt, &out);
//! let status = run(rt, words_of(rt), shows, files, &mut input, &mut out, &mut err);
//! ```
//!
//! The program `regaudit` is this call over the machine, and `rows` makes it for each row of data. Begin with
//! `commands`: `run_words` carries out what words ask for, by the crate of each command, and `conclude` reports why that
//! broke off. `specs/Run.antt` says what a run did.
#![tactic(auto)]

mod commands;
mod print;

pub use commands::{conclude, run, run_safe, run_words, shows_colours, words_of};
