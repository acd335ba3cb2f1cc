//! What is amiss in a run, as CI servers read it: GitHub's workflow commands, or the XML of JUnit.
//!
//!     write_for_ci(alloc, &form, &tower, &run, &texts, &mut out)?
//!
//! `specs/Ci.antt` says what is written, `specs/GitHub.antt` and `specs/Junit.antt` in which lines, and
//! `specs/Facts.antt` has what both say in the same words.
#![tactic(auto)]

mod facts;
mod few;
mod github;
mod junit;
pub mod laws;
mod run;
mod told;
mod xml;

pub use run::write_for_ci;
pub use told::{CiForm, CiServer};
