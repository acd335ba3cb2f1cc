//! The watcher of a run, which tells what it is told.

use crate::printer::Beginning;
use crate::settling::Advance;
use crate::teller::Teller;
use feeders::Watcher;
use logs::Notice;
use shards::Gate;
use std::io::Write;
use std::sync::atomic::{AtomicBool, Ordering};
use std::sync::{Mutex, Wait};

/// A watcher that tells each notice by a teller under a lock. Where that takes no more, it is over.
#[derive(Drop)]
pub struct Live<'r, 'a, 't, R, W: Write, B: Beginning> {
    rt: &'r R,
    teller: &'r Mutex<Teller<'a, 't, W, B>>,
    over: &'r AtomicBool,
    /// Whether failures are held back.
    settles: bool,
    /// Whether notices are to have lines.
    has_lines: bool,
}

impl<'r, 'a, 't, R, W: Write, B: Beginning> Live<'r, 'a, 't, R, W, B> {
    pub fn new(
        rt: &'r R,
        teller: &'r Mutex<Teller<'a, 't, W, B>>,
        over: &'r AtomicBool,
        settles: bool,
        has_lines: bool,
    ) -> Self {
        Live {
            rt,
            teller,
            over,
            settles,
            has_lines,
        }
    }
}

impl<R: Wait + Sync, W: Write + Send, B: Beginning + Send> Gate for Live<'_, '_, '_, R, W, B> {
    fn inside(&self, _shard: u32, _feeder: u32) {}

    fn outside(&self, _feeder: u32) {}
}

impl<R: Wait + Sync, W: Write + Send, B: Beginning + Send> Watcher for Live<'_, '_, '_, R, W, B> {
    fn told(&self, notice: Notice) {
        let mut teller = self.teller.lock(self.rt);
        teller.tell(notice);
        if let Notice::Ended { feeder, .. } = notice {
            teller.advance(feeder, Advance::Over);
        }
        if !teller.goes_on() {
            self.over.store(true, Ordering::SeqCst);
        }
    }

    fn wants_lines(&self) -> bool {
        self.has_lines
    }

    /// Where no failure is held back it counts nothing, and takes no lock.
    fn took(&self, feeder: u32) {
        if !self.settles {
            return;
        }
        let mut teller = self.teller.lock(self.rt);
        teller.advance(feeder, Advance::Took);
        if !teller.goes_on() {
            self.over.store(true, Ordering::SeqCst);
        }
    }
}
