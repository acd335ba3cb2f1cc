//! A watcher: a gate that is told what happens while traces are read.

use logs::{Broken, Notice};
use shards::{Gate, NoGate, VerdictChange};

/// A gate that is told what happens while traces are read.
pub trait Watcher: Gate {
    /// Called once for each notice, by the feeder that it is of: for a change of a verdict while that feeder holds the
    /// lock of the register's shard, so that the changes in a shard come in the order of its journal; for all else
    /// while it holds none.
    fn told(&self, _notice: Notice) {}

    /// Whether notices are to have the lines of elements; else their lines mean nothing. Always the same.
    fn wants_lines(&self) -> bool {
        false
    }

    /// Called once for each element, by its feeder, after all that was told of it and while that holds no lock.
    fn took(&self, _feeder: u32) {}
}

impl Watcher for NoGate {}

/// Tells that a trace broke, if it did, at this line, and then that it is over, after so many elements.
pub(crate) fn tell_end<G: Watcher>(
    gate: &G,
    feeder: u32,
    broken: Option<Broken>,
    line: u64,
    elements: u64,
) {
    if let Some(broken) = broken {
        gate.told(Notice::Broke {
            feeder,
            broken,
            line,
        });
    }
    gate.told(Notice::Ended { feeder, elements });
}

/// The gate of one edit: it gives the place of the edit's element, and its line, to a watcher.
#[derive(Drop)]
pub(crate) struct Placed<'a, G> {
    gate: &'a G,
    place: u64,
    line: u64,
}

impl<'a, G: Watcher> Placed<'a, G> {
    /// The gate of an edit whose element is at this place, and begins at this line.
    pub(crate) fn new(gate: &'a G, place: u64, line: u64) -> Placed<'a, G> {
        Placed { gate, place, line }
    }
}

impl<G: Watcher> Gate for Placed<'_, G> {
    fn inside(&self, shard: u32, feeder: u32) {
        self.gate.inside(shard, feeder);
    }

    fn changed(&self, feeder: u32, change: &VerdictChange) {
        self.gate.told(Notice::Changed {
            feeder,
            place: self.place,
            line: self.line,
            change: *change,
        });
    }

    fn outside(&self, feeder: u32) {
        self.gate.outside(feeder);
    }
}
