//! The judge of a register with one writer: Lamport's sentence for its kind, safe or regular, over
//! the operations that stand.
//!
//! ```text
//! let mut judge = SingleWriterJudge::new(alloc, &claim)?;     // safe, 0 at first
//! judge.admit_write(&write)?;          // of 1, from 0 to 3
//! judge.admit_read(&within)?;          // of 7, from 1 to 2
//! judge.first_fault()                  // None: within a write a read returns anything
//! judge.admit_read(&late)?;            // of 5, from 9 to 11
//! judge.first_fault()                  // Some: the late read, by its id
//! judge.check_write(&second)           // Err(WritesOverlap(..)): from 1 on, over the first
//! ```
//!
//! `intervals::laws::worked_faults` and `worked_writes` are such histories, computed from the
//! definitions; the rows of `tests/judge_tests/one_writer.rattle` run these calls.
//!
//! Begin with `judge.rt`: its clauses are the whole promise, in the words of `intervals`. Which writes
//! are allowed is in `writes.rt`, the verdicts on the reads in `reads.rt`. A read is judged once, when it
//! gets its end, by a few writes: those looked at from that end back (`sentence.rt`). Its row keeps the
//! verdict, and an edit of a write judges again the reads that it can change (`judged.rt`). Once that would
//! take more than 64 looks, the items of all operations go into one tree of reads and covers
//! (`row_items.rt`), which serves from then on: a write covers the reads that it makes right, so an edit
//! changes a few items, however many reads it makes right or wrong.
#![tactic(auto)]

mod judge;
mod judged;
mod reads;
mod row_items;
mod sentence;
mod writes;

pub use judge::SingleWriterJudge;
