//! Judges the registers of a tower by what readers give, and keeps that where it is asked for.

ghost use Rattle.std.specs.Prelude.{◌≡◌, ◌≤◌, IfOk, map, vec_len};
ghost use Rattle.command_parts.specs.Job.{IsRunOver};
ghost use Rattle.command_parts.specs.Kept.{AreKeptIf, AreTracesKept};

use crate::job::Job;
use crate::kept::texts_of;
use feeders::RunFault;
use logs::Run;
use places::{Copies, Originals, copied_to};
use std::io::Read;
use std::marker::Brand;
use std::sync::Wait;
use std::thread::Threads;

/// A run, and the texts of its traces, by number, where they are kept; else none.
#[derive(Drop)]
pub struct Judged<'x> {
    pub run: Run<'x>,
    pub texts: Vec<Vec<u8>>,
}

/// Feeds what each reader gives to the registers of the tower, and keeps it where `keeps` is set, for the lines and the
/// bytes of elements.
pub fn judge<'x, A: AllocGlobal + Threads + Wait + Sync, S: Read + Drop + Send>(
    job: &Job<'_, 'x, A>,
    keeps: bool,
    readers: Vec<S>,
) -> Result<Judged<'x>, RunFault>
    requires readers { (1 ≤ vec_len readers) × (vec_len readers ≤ 256) }
    ensures run { IfOk result (λ judged. IsRunOver job.now.tower.now job.now.moments job.now.shards (map S.remaining readers.items) judged.run.closed judged.run.logs.items) }
    ensures kept { IfOk result (λ judged. AreKeptIf keeps (map S.remaining readers.items) judged.run.logs.items (map (λ text. text.items) judged.texts.items)) }
{
    if keeps {
        judge_copied::<A, S, Brand>(job, readers)
    } else {
        judge_uncopied(job, readers)
    }
}

/// Feeds what each reader gives, and keeps nothing of it.
fn judge_uncopied<'x, A: AllocGlobal + Threads + Wait + Sync, S: Read + Drop + Send>(
    job: &Job<'_, 'x, A>,
    readers: Vec<S>,
) -> Result<Judged<'x>, RunFault>
    requires readers { (1 ≤ vec_len readers) × (vec_len readers ≤ 256) }
    ensures run { IfOk result (λ judged. IsRunOver job.now.tower.now job.now.moments job.now.shards (map S.remaining readers.items) judged.run.closed judged.run.logs.items) }
{
    let run = job.run(readers)?;
    Ok(Judged {
        run,
        texts: Vec::new(job.rt.alloc()),
    })
}

/// Feeds what each reader gives, and keeps it. Where memory is refused for that, the run goes on to its end.
fn judge_copied<
    'x,
    A: AllocGlobal + Threads + Wait + Sync,
    S: Read + Drop + Send,
    B: Originals + Send + Sync,
>(job: &Job<'_, 'x, A>, readers: Vec<S>) -> Result<Judged<'x>, RunFault>
    requires texts { B.texts ≡ map S.remaining readers.items }
    requires readers { (1 ≤ vec_len readers) × (vec_len readers ≤ 256) }
    ensures run { IfOk result (λ judged. IsRunOver job.now.tower.now job.now.moments job.now.shards (map S.remaining readers.items) judged.run.closed judged.run.logs.items) }
    ensures kept { IfOk result (λ judged. AreTracesKept (map S.remaining readers.items) judged.run.logs.items (map (λ text. text.items) judged.texts.items)) }
{
    let alloc = job.rt.alloc();
    let copies: Copies<B> = Copies::new(alloc, readers.len())?;
    let copying = copied_to(job.rt, alloc, readers, &copies)?;
    let run = job.run(copying)?;
    let texts = texts_of(alloc, copies.into_kept(alloc)?, run.logs.as_slice())?;
    Ok(Judged { run, texts })
}
