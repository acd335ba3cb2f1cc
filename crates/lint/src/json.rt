//! Findings as JSON records, one a line.

use crate::finding::{Amiss, Findings, Note, Problem};
use crate::message::push_message;
use crate::quoted::push_quoted;
use crate::snippet::part_of;
use crate::source::SourceText;
use logs::{BreakCode, Code};
use places::Location;
use std::alloc::{AllocError, Global};

/// A record for each finding, by trace and place. The fields come in a fixed order.
pub fn push_json(
    text: &mut String,
    alloc: Global,
    sources: &[SourceText],
    found: &Findings,
) -> Result<(), AllocError> {
    let traces = found.traces.as_slice();
    for trace in 0..traces.len() {
        let Some(source) = sources.get(trace) else {
            return Ok(());
        };
        push_records(
            text,
            alloc,
            source,
            trace,
            traces[trace].findings.as_slice(),
        )?;
        push_records(text, alloc, source, trace, traces[trace].notes.as_slice())?;
    }
    Ok(())
}

fn push_records(
    text: &mut String,
    alloc: Global,
    source: &SourceText,
    trace: usize,
    findings: &[Problem],
) -> Result<(), AllocError> {
    for finding in findings {
        push_record(text, alloc, source, trace, finding)?;
    }
    Ok(())
}

fn push_record(
    text: &mut String,
    alloc: Global,
    source: &SourceText,
    trace: usize,
    finding: &Problem,
) -> Result<(), AllocError> {
    let what = &finding.what;
    push_names(text, alloc, what)?;
    let mut message = String::new(alloc);
    push_message(&mut message, what)?;
    push_quoted(text, message.as_bytes())?;
    text.push_str(",\"file\":")?;
    push_quoted(text, source.name.as_bytes())?;
    push_spot(text, &finding.spot)?;
    push_id(text, trace, what)?;
    push_quoted(
        text,
        part_of(source.text, finding.spot.start, finding.spot.end),
    )?;
    text.push_str("}\n")
}

/// The grade, the code and the name of what is amiss; a printed fault has its name after its code.
fn push_names(text: &mut String, alloc: Global, what: &Amiss) -> Result<(), AllocError> {
    let mut printed = String::new(alloc);
    push_printed(&mut printed, what)?;
    let (grade, code) = (what.grade().word(), what.code());
    let name = name_in(printed.as_str());
    write!(
        text,
        "{{\"t\":\"finding\",\"grade\":\"{grade}\",\"code\":\"{code}\",\"name\":\"{name}\",\"message\":"
    )
}

fn push_printed(text: &mut String, what: &Amiss) -> Result<(), AllocError> {
    match what {
        Amiss::Refused(_, Code::Form(fault)) => write!(text, "{fault}"),
        Amiss::Refused(_, Code::Pair(fault)) => write!(text, "{fault}"),
        Amiss::Refused(_, Code::Register(refusal)) => write!(text, "{refusal}"),
        Amiss::Tower(fault) => write!(text, "{fault}"),
        Amiss::Broken(code) => text.push_str(name_of_break(*code)),
        Amiss::Noted(_, note) => text.push_str(name_of_note(note)),
    }
}

fn name_in(printed: &str) -> &str {
    match printed.split_once(' ') {
        Some((_, name)) => name,
        None => printed,
    }
}

fn name_of_break(code: BreakCode) -> &'static str {
    match code {
        BreakCode::Truncated => "Truncated",
        BreakCode::StrayClose => "StrayClose",
        BreakCode::WrongClose => "WrongClose",
        BreakCode::TooDeep => "TooDeep",
        BreakCode::OddMap => "OddMap",
        BreakCode::TagWithoutElement => "TagWithoutElement",
        BreakCode::ReadFailed => "ReadFailed",
        BreakCode::TooLong => "TooLong",
    }
}

fn name_of_note(note: &Note) -> &'static str {
    match note {
        Note::Skipped => "Skipped",
        Note::NoOperation => "NoOperation",
        Note::Unused => "Unused",
        Note::NoValue => "NoValue",
        Note::NearField(_) => "NearField",
        Note::Unread(_) => "Unread",
        Note::Unanswered => "Unanswered",
        Note::SilentWriter(_) => "SilentWriter",
        Note::SameMoment(..) => "SameMoment",
        Note::OutOfProportion(_) => "OutOfProportion",
        Note::Rests(_) => "Rests",
        Note::RestsOnEdit(_) => "RestsOnEdit",
        Note::RestsOnAnswer(_) => "RestsOnAnswer",
        Note::RestsOnUnread(_) => "RestsOnUnread",
    }
}

fn push_spot(text: &mut String, spot: &Location) -> Result<(), AllocError> {
    let place = &spot.place;
    write!(
        text,
        ",\"line\":{},\"column\":{},\"byte\":{},\"end\":{}",
        place.line, place.column, spot.start, spot.end
    )
}

/// The trace and the number of the element; null where the finding is of none.
fn push_id(text: &mut String, trace: usize, what: &Amiss) -> Result<(), AllocError> {
    match what {
        Amiss::Refused(event, _) | Amiss::Noted(Some(event), _) => {
            write!(text, ",\"id\":\"{trace}:{event}\",\"text\":")
        }
        Amiss::Noted(None, _) | Amiss::Broken(_) | Amiss::Tower(_) => {
            text.push_str(",\"id\":null,\"text\":")
        }
    }
}
