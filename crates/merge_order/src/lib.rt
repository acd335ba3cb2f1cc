//! In which order one thread feeds the elements of several traces: by their moments, and at one moment by the order of
//! the traces. An element that carries no moment comes before all that carry one. So the order is a function of what
//! the traces say, and not of when they are read.
//!
//! Of each trace it takes the first element that is left, and of that its moment alone:
//!
//!     let heads = [TraceHead::Waiting(Some(Moment(4))), TraceHead::Ended, TraceHead::Waiting(Some(Moment(4)))];
//!     next_head(&heads)   // Some(0): of two at one moment the element of the earlier trace comes next
//!
//! Begin with `specs/Order.antt`: which element comes next, and the one order of all. `laws.rt` has what follows: there
//! is one such order, and each trace keeps its own in it.
#![tactic(auto)]

mod heads;
pub mod laws;

pub use heads::{TraceHead, next_head};
