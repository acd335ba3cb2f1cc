//! The command `show`, which judges the registers of a tower as `check` does and draws one of them, or those that fail.
//!
//! `specs/Shown.antt` says what it did.
#![tactic(auto)]

mod call;
mod drawing;
mod picture;
mod sources;

pub use drawing::draw;
