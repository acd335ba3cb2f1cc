//! Where what is shown comes from: the files, the lines of their elements, and what was left out of them.

use intervals::OpId;
use logs::{Log, What};
use phrases::push_printed;
use places::{Location, elements_of};
use report::{CodeTally, Doubt, count_refused, first_refused, push_broken, tallies_of};
use show::Lettered;
use std::alloc::{AllocError, Global};

/// How many traces, and how many elements on which a failure rests, are named.
const NAMED: usize = 10;

/// Traces by their names, with their texts, where these were kept, and where the elements of each are.
#[derive(Drop)]
pub struct Sources<'n, 's, 't> {
    names: &'n [&'s str],
    texts: &'t [Vec<u8>],
    spots: Vec<Vec<Location>>,
}

impl<'n, 's, 't> Sources<'n, 's, 't> {
    pub fn of(
        alloc: Global,
        names: &'n [&'s str],
        texts: &'t [Vec<u8>],
    ) -> Result<Sources<'n, 's, 't>, AllocError> {
        let mut spots = Vec::new(alloc);
        for text in texts {
            let found = elements_of(alloc, text)?;
            spots.push(found.spots)?;
        }
        Ok(Sources {
            names,
            texts,
            spots,
        })
    }

    fn spot_of(&self, trace: usize, number: u64) -> Option<Location> {
        self.spots.get(trace)?.get(number as usize).copied()
    }

    /// The file and the line of an element; where these are not known, its trace and its number there.
    fn push_place(&self, text: &mut String, trace: usize, number: u64) -> Result<(), AllocError> {
        match (self.names.get(trace), self.spot_of(trace, number)) {
            (Some(name), Some(spot)) => {
                push_printed(text, name.as_bytes())?;
                write!(text, ":{}", spot.place.line)
            }
            _ => write!(text, "{trace}:{number}"),
        }
    }

    /// The element, on one line.
    fn push_element(&self, text: &mut String, trace: usize, number: u64) -> Result<(), AllocError> {
        let (Some(bytes), Some(spot)) = (self.texts.get(trace), self.spot_of(trace, number)) else {
            return Ok(());
        };
        match bytes.get(spot.start..spot.end) {
            Some(element) => push_printed(text, element),
            None => Ok(()),
        }
    }

    /// A line for each letter: the file, the line and the element of the invocation.
    pub fn push_letters(&self, text: &mut String, letters: &[Lettered]) -> Result<(), AllocError> {
        for lettered in letters {
            self.push_letter(text, lettered.letter.word(), lettered.id)?;
        }
        Ok(())
    }

    fn push_letter(&self, text: &mut String, letter: &str, id: OpId) -> Result<(), AllocError> {
        let trace = id.feeder as usize;
        if self.spot_of(trace, id.event).is_none() {
            return Ok(());
        }
        write!(text, "{letter:<3} ")?;
        self.push_place(text, trace, id.event)?;
        text.push_str("  ")?;
        self.push_element(text, trace, id.event)?;
        text.push_str("\n")
    }

    /// A line for each trace: how many elements it has, and how many of them were left out.
    pub fn push_traces(&self, text: &mut String, logs: &[Log]) -> Result<(), AllocError> {
        for trace in 0..self.spots.len().min(NAMED) {
            if let Some(log) = logs.get(trace) {
                self.push_trace(text, trace, log)?;
            }
        }
        match self.spots.len().saturating_sub(NAMED) {
            0 => Ok(()),
            more => write!(text, "and {more} more traces\n"),
        }
    }

    fn push_trace(&self, text: &mut String, trace: usize, log: &Log) -> Result<(), AllocError> {
        let (Some(name), Some(spots)) = (self.names.get(trace), self.spots.get(trace)) else {
            return Ok(());
        };
        push_printed(text, name.as_bytes())?;
        push_many(text, ": ", spots.len(), "element")?;
        match count_refused_in(log) {
            0 => text.push_str(", none refused\n"),
            many => write!(text, ", {many} refused\n"),
        }
    }

    /// What was not judged: the elements that were left out, by code, the most frequent first, with the first of each,
    /// and where traces broke. Nothing where all was judged.
    pub fn push_left_out(
        &self,
        text: &mut String,
        alloc: Global,
        logs: &[Log],
    ) -> Result<(), AllocError> {
        let tallies = tallies_of(alloc, logs)?;
        if !tallies.is_empty() {
            write!(text, "refused {}", count_refused(logs))?;
            for at in 0..tallies.len() {
                text.push_str(if at == 0 { ": " } else { ", " })?;
                self.push_tally(text, logs, &tallies[at])?;
            }
            text.push_str("\n")?;
        }
        for trace in 0..logs.len() {
            push_broken(text, trace, logs[trace].broken)?;
        }
        Ok(())
    }

    fn push_tally(
        &self,
        text: &mut String,
        logs: &[Log],
        tally: &CodeTally,
    ) -> Result<(), AllocError> {
        write!(text, "{} {} {}", tally.code, tally.name, tally.many)?;
        let Some((trace, number)) = first_refused(logs, tally.code) else {
            return Ok(());
        };
        text.push_str(" (first ")?;
        self.push_place(text, trace, number)?;
        text.push_str(")")
    }

    /// What was left out of a register, and what of that its failure rests on, a sentence a line.
    pub fn push_doubt(
        &self,
        text: &mut String,
        logs: &[Log],
        doubt: &Doubt,
    ) -> Result<(), AllocError> {
        if let Some((trace, number)) = doubt.left_out.first().copied() {
            write!(
                text,
                "Elements of it that were left out: {}, the first is ",
                doubt.left_out.len()
            )?;
            self.push_refused(text, logs, trace, number)?;
            text.push_str(".\n")?;
        }
        if doubt.rests_on.is_empty() {
            return Ok(());
        }
        text.push_str("In doubt: the failure rests on")?;
        self.push_some(text, logs, &doubt.rests_on)?;
        text.push_str(", left out of the log that was judged.\n")
    }

    fn push_some(
        &self,
        text: &mut String,
        logs: &[Log],
        elements: &[(usize, u64)],
    ) -> Result<(), AllocError> {
        for at in 0..elements.len().min(NAMED) {
            let (trace, number) = elements[at];
            text.push_str(if at == 0 { " " } else { ", " })?;
            self.push_refused(text, logs, trace, number)?;
        }
        match elements.len().saturating_sub(NAMED) {
            0 => Ok(()),
            more => write!(text, " and {more} more"),
        }
    }

    /// An element that was left out, with its code.
    fn push_refused(
        &self,
        text: &mut String,
        logs: &[Log],
        trace: usize,
        number: u64,
    ) -> Result<(), AllocError> {
        self.push_place(text, trace, number)?;
        match code_of(logs, trace, number) {
            Some(code) => write!(text, " ({code})"),
            None => Ok(()),
        }
    }
}

/// A number and a word, which gets an s unless the number is 1.
pub fn push_many(
    text: &mut String,
    before: &str,
    many: usize,
    word: &str,
) -> Result<(), AllocError> {
    write!(text, "{before}{many} {word}")?;
    text.push_str(if many == 1 { "" } else { "s" })
}

/// The code for which an element was left out, if it was.
fn code_of(logs: &[Log], trace: usize, number: u64) -> Option<&'static str> {
    for line in &logs.get(trace)?.lines {
        if line.event == number {
            return match &line.what {
                What::Refused(left_out) => Some(left_out.code.code()),
                What::Answered(..) => None,
            };
        }
    }
    None
}

fn count_refused_in(log: &Log) -> u64 {
    let mut many: u64 = 0;
    for line in &log.lines {
        if let What::Refused(_) = &line.what {
            many = many.saturating_add(1);
        }
    }
    many
}
