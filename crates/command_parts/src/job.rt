//! A run over readers, whose traces are fed to the registers of a tower.

ghost use Rattle.std.specs.Prelude.{◌≡◌, ◌≤◌, IfOk, map, vec_len};
ghost use Rattle.command_parts.specs.Job.{IsRunOver};

use feeders::{Pages, RunFault, Setup, run_readers};
use jepsen_form::MomentField;
use logs::Run;
use shards::NoGate;
use std::io::Read;
use std::sync::Wait;
use std::thread::Threads;
use tower_file::Tower;

/// The most traces of one run.
pub const TRACE_LIMIT: usize = 256;

/// What readers are fed to, and how.
#[derive(Drop)]
pub struct Job<'j, 'x, A> {
    pub rt: &'j A,
    pub tower: &'x Tower,
    pub pages: &'x Pages,
    pub moments: MomentField,
    /// From 1 to 64.
    pub shards: u32,
    ghost within: { (1 ≤ shards) × (shards ≤ 64) },
}

impl<'x, A: AllocGlobal + Threads + Wait + Sync> Job<'_, 'x, A> {
    /// Feeds what each reader gives to the registers of the tower.
    pub fn run<S: Read + Drop + Send>(&self, readers: Vec<S>) -> Result<Run<'x>, RunFault>
        requires readers { (1 ≤ vec_len readers) × (vec_len readers ≤ 256) }
        ensures run { IfOk result (λ run. IsRunOver self.now.tower.now self.now.moments self.now.shards (map S.remaining readers.items) run.closed run.logs.items) }
    {
        let setup = Setup {
            rt: self.rt,
            alloc: self.rt.alloc(),
            tower: self.tower,
            field: self.moments,
            shards: self.shards,
        };
        run_readers(setup, readers, self.pages, &NoGate)
    }
}
