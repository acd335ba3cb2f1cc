//! The command `watch`, which writes a line as soon as a verdict changes.
//!
//! `specs/Watching.antt` says what it wrote.
#![tactic(auto)]

mod watching;

pub use watching::follow;
