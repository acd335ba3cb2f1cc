//! The commands that judge registers by traces and report that: `check` of a tower, and `safe` of one register.
//!
//! `specs/Checked.antt` says what `check` did, and `specs/Verdict.antt` what `safe` printed of its register.
#![tactic(auto)]

mod checking;
pub mod laws;
mod one_register;

pub use checking::check;
pub use one_register::safe;
