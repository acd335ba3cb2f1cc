//! The lines of the registers, made in batches side by side.

ghost use Rattle.std.specs.Prelude.{◌≡◌, ◌≤◌, ◌<◌, ◌+◌, ◌/◌, ℕ, List, IfOk, OnOk, length};
ghost use Rattle.tower_file.specs.Contents.{TowerModel};
ghost use Rattle.shards.specs.Closing.{ClosedShard};
ghost use Rattle.report.specs.Finding.{IsOfTower};
ghost use Rattle.report.specs.Batch.{AreBatches, IsBatch, IsBatchOf, first_register};

use crate::finding::finding_of;
use crate::section::push_section;
use intervals::RegId;
use rayon::prelude::*;
use shards::Closed;
use std::alloc::{AllocError, Global};
use std::thread::Threads;
use tower_file::Tower;

/// How many registers a batch has, but for the last.
const LEN: usize = 32;

/// The lines of some registers in turn, and which of these fail.
#[derive(Drop)]
pub struct Batch {
    pub text: String,
    pub failing: Vec<bool>,
}

impl Batch {
    fn new(alloc: Global) -> Self
        ensures { (tower : TowerModel) (closed : List ClosedShard) (first : ℕ) → IsBatch tower closed first first result }
    {
        Batch {
            text: String::new(alloc),
            failing: Vec::new(alloc),
        }
    }

    /// Adds the next register.
    fn add(&mut self, tower: &Tower, closed: &Closed, number: usize) -> Result<(), AllocError>
        requires of_tower { IsOfTower tower.now closed.now }
        requires within { number < length tower.now.registers }
        requires most { number < 65536 }
        ensures { OnOk result ((first : ℕ) → IsBatch tower.now closed.now first number self.old → IsBatch tower.now closed.now first (number + 1) self.new) }
    {
        let id = RegId(number as u32);
        let finding = finding_of(closed, id);
        push_section(&mut self.text, tower, id, &finding)?;
        self.failing.push(finding.witness.is_some())?;
        Ok(())
    }

    /// Adds the next batch; an error where memory was refused for it.
    fn append(&mut self, batch: &Result<Batch, AllocError>) -> Result<(), AllocError>
        ensures { OnOk result ((tower : TowerModel) (closed : List ClosedShard) (first middle last : ℕ) → IsBatch tower closed first middle self.old → IfOk batch.now (IsBatch tower closed middle last) → IsBatch tower closed first last self.new) }
    {
        match batch {
            Ok(batch) => {
                self.text.push_str(batch.text.as_str())?;
                self.failing.extend_from_slice(&batch.failing)?;
                Ok(())
            }
            Err(_) => Err(AllocError),
        }
    }
}

/// The lines of all registers, by number. Their batches are made side by side, on as many threads as there are to use.
pub fn sections(
    rt: &(impl Threads + Sync),
    alloc: Global,
    tower: &Tower,
    closed: &Closed,
) -> Result<Batch, AllocError>
    requires of_tower { IsOfTower tower.now closed.now }
    ensures { IfOk result (IsBatch tower.now closed.now 0 (length tower.now.registers)) }
{
    let batches = batches(rt, alloc, tower, closed)?;
    let mut whole = Batch::new(alloc);
    for batch in &batches {
        whole.append(batch)?;
    }
    Ok(whole)
}

/// The batches, in order. Each is worth a thread of its own.
fn batches(
    rt: &(impl Threads + Sync),
    alloc: Global,
    tower: &Tower,
    closed: &Closed,
) -> Result<Vec<Result<Batch, AllocError>>, AllocError>
    requires of_tower { IsOfTower tower.now closed.now }
    ensures many { IfOk result (λ batches. length batches.items ≡ (length tower.now.registers + 31) / 32) }
    ensures each { IfOk result (λ batches. AreBatches tower.now closed.now 0 batches.items) }
{
    (0..tower.len().div_ceil(LEN))
        .into_par_iter()
        .with_min_len(1)
        .map(
            |number: usize| -> Result<Batch, AllocError>
                requires { IsOfTower tower.now closed.now × (number ≤ 65536) }
                ensures { IfOk result (IsBatchOf tower.entry.now closed.entry.now number) }
            { batch_of(alloc, tower, closed, number) },
        )
        .collect(rt, alloc)
}

/// The batch of this number, whose registers are taken one after another.
fn batch_of(
    alloc: Global,
    tower: &Tower,
    closed: &Closed,
    number: usize,
) -> Result<Batch, AllocError>
    requires of_tower { IsOfTower tower.now closed.now }
    requires few { number ≤ 65536 }
    ensures { IfOk result (IsBatchOf tower.now closed.now number) }
{
    let mut batch = Batch::new(alloc);
    for register in first(tower, number)..first(tower, number + 1) {
        batch.add(tower, closed, register)?;
    }
    Ok(batch)
}

/// The number of a batch's first register; the number of all registers where there is no such batch.
fn first(tower: &Tower, batch: usize) -> usize
    requires { batch ≤ 65537 }
    ensures number { result ≡ first_register (length tower.now.registers) batch }
    ensures most { result ≤ 65536 }
{
    (batch * LEN).min(tower.len())
}
