//! Findings as GitHub's workflow commands, which annotate files.

use crate::finding::{Findings, Grade, Problem};
use crate::message::push_message;
use crate::source::SourceText;
use std::alloc::AllocError;

/// A command for each finding, by trace and place: `::warning file=run.edn,line=3,col=1,title=X7::..`.
pub fn push_github(
    text: &mut String,
    sources: &[SourceText],
    found: &Findings,
) -> Result<(), AllocError> {
    let traces = found.traces.as_slice();
    for trace in 0..traces.len() {
        let Some(source) = sources.get(trace) else {
            return Ok(());
        };
        push_commands(text, source, traces[trace].findings.as_slice())?;
        push_commands(text, source, traces[trace].notes.as_slice())?;
    }
    Ok(())
}

fn push_commands(
    text: &mut String,
    source: &SourceText,
    findings: &[Problem],
) -> Result<(), AllocError> {
    for finding in findings {
        push_command(text, source, finding)?;
    }
    Ok(())
}

fn push_command(
    text: &mut String,
    source: &SourceText,
    finding: &Problem,
) -> Result<(), AllocError> {
    let (what, place) = (&finding.what, &finding.spot.place);
    write!(text, "::{} file=", command_of(what.grade()))?;
    push_property(text, source.name)?;
    write!(
        text,
        ",line={},col={},title={}::",
        place.line,
        place.column,
        what.code()
    )?;
    push_message(text, what)?;
    text.push_str("\n")
}

fn command_of(grade: Grade) -> &'static str {
    match grade {
        Grade::Error => "error",
        Grade::Warning => "warning",
        Grade::Note => "notice",
    }
}

/// A property, with what would end it as a percent sign and two digits.
fn push_property(text: &mut String, property: &str) -> Result<(), AllocError> {
    for character in property.chars() {
        match character {
            '%' => text.push_str("%25")?,
            '\r' => text.push_str("%0D")?,
            '\n' => text.push_str("%0A")?,
            ':' => text.push_str("%3A")?,
            ',' => text.push_str("%2C")?,
            other => text.push(other)?,
        }
    }
    Ok(())
}
