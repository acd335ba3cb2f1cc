//! The command `lint`, which writes what is amiss in a tower file and in traces.
//!
//! `specs/Looked.antt` says what it did, and `specs/Denied.antt` which notes it counts as warnings.
#![tactic(auto)]

mod deny;
mod linting;
mod looking;

pub use looking::look;
