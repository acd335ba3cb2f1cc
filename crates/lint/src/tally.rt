//! How many findings of each code there are, and how many of them were shown in a block of their own.

use crate::finding::{Findings, Grade, Problem, TraceFindings};
use crate::together::{Together, invocation_with, is_in_block};
use std::alloc::{AllocError, Global};

/// The findings of one code: how many there are, how many have a block of their own, and how many of these were shown.
#[derive(Clone, Copy)]
pub struct Count {
    pub code: &'static str,
    pub grade: Grade,
    pub many: usize,
    pub apart: usize,
    pub shown: usize,
    /// The line of the last one that has a block of its own.
    pub last: usize,
}

impl Count {
    /// How many findings that have a block of their own were not shown.
    pub fn left(&self) -> usize {
        self.apart.saturating_sub(self.shown)
    }

    fn add(&mut self, finding: &Problem, is_apart: bool) {
        self.many = self.many.saturating_add(1);
        if is_apart {
            self.apart = self.apart.saturating_add(1);
            self.last = finding.spot.place.line;
        }
    }
}

/// The counts of all codes, in the order of their first findings.
#[derive(Drop)]
pub struct Tally {
    pub counts: Vec<Count>,
}

impl Tally {
    /// The counts of all findings, of which these are in other blocks, by trace.
    pub fn of(alloc: Global, found: &Findings, together: &[Together]) -> Result<Tally, AllocError> {
        let mut tally = Tally {
            counts: Vec::new(alloc),
        };
        for trace in 0..found.traces.len() {
            tally.add_findings(&found.traces[trace])?;
            tally.add_notes(&found.traces[trace], together, trace)?;
        }
        Ok(tally)
    }

    fn add_findings(&mut self, found: &TraceFindings) -> Result<(), AllocError> {
        for at in 0..found.findings.len() {
            self.add(&found.findings[at], invocation_with(found, at).is_none())?;
        }
        Ok(())
    }

    fn add_notes(
        &mut self,
        found: &TraceFindings,
        together: &[Together],
        trace: usize,
    ) -> Result<(), AllocError> {
        for at in 0..found.notes.len() {
            self.add(&found.notes[at], !is_in_block(together, trace, at))?;
        }
        Ok(())
    }

    fn add(&mut self, finding: &Problem, is_apart: bool) -> Result<(), AllocError> {
        let code = finding.what.code();
        for count in self.counts.iter_mut() {
            if count.code == code {
                count.add(finding, is_apart);
                return Ok(());
            }
        }
        let mut count = Count {
            code,
            grade: finding.what.grade(),
            many: 0,
            apart: 0,
            shown: 0,
            last: 0,
        };
        count.add(finding, is_apart);
        self.counts.push(count)?;
        Ok(())
    }

    /// Counts one more finding of this code as shown, unless `most` were shown before; 0 is no limit.
    pub fn show(&mut self, code: &str, most: usize) -> Option<Count> {
        for count in self.counts.iter_mut() {
            if count.code == code {
                if most != 0 && count.shown >= most {
                    return None;
                }
                count.shown = count.shown.saturating_add(1);
                return Some(*count);
            }
        }
        None
    }

    /// How many findings of this grade there are.
    pub fn of_grade(&self, grade: Grade) -> usize {
        let mut many: usize = 0;
        for count in &self.counts {
            if count.grade == grade {
                many = many.saturating_add(count.many);
            }
        }
        many
    }
}
