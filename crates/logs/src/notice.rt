//! What a watcher is told while traces are read.

use crate::log::{Broken, LeftOut};
use shards::VerdictChange;

/// What a watcher is told while traces are read. A trace is given by its number, and an element by its place in it and by
/// the line at which it begins, from 1.
#[derive(Clone, Copy)]
pub enum Notice {
    /// An edit by this element changed the verdict on a register.
    Changed {
        feeder: u32,
        place: u64,
        line: u64,
        change: VerdictChange,
    },
    /// This element was left out.
    Refused {
        feeder: u32,
        place: u64,
        line: u64,
        left_out: LeftOut,
    },
    /// The trace broke, at this line.
    Broke {
        feeder: u32,
        broken: Broken,
        line: u64,
    },
    /// The trace ended or broke, after so many elements.
    Ended {
        feeder: u32,
        elements: u64,
    },
}
