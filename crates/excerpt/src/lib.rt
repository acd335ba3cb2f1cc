//! The trace of the operations that show how the registers of a run fail: the small log that fails in the same ways.
//!
//! ```text
//! let text = excerpt_of(rt, alloc, tower, &run.closed, moments)?;    // the events, to be checked by the same tower
//! ```
//!
//! Of an atomic register these are the operations of the witness, which excludes every order by itself, and the writes of
//! their values; of another one the wrong read, the write of what it returned and the write that it missed. The text is fed
//! to the registers of the tower again, and given where they fail alike: `specs/Excerpt.antt` says so.
#![tactic(auto)]

mod alike;
mod event;
mod excerpt;
mod fault;
mod shown;

pub use excerpt::excerpt_of;
pub use fault::ExcerptFault;
