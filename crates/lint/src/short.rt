//! A line for each finding, as editors read them.

ghost use Rattle.std.specs.Prelude.{◌≡◌, ◌++◌, OnOk, length, string_bytes};
ghost use Rattle.lint.specs.Short.{short_line, short_lines, short_text};

use crate::finding::{Findings, Problem};
use crate::head::{push_head, push_place};
use crate::source::SourceText;
use std::alloc::AllocError;

/// A line for each finding, by trace and place: `run.edn:3:1: warning[X7]: a write that overlaps the write 0:0`.
pub fn push_short(
    text: &mut String,
    sources: &[SourceText],
    findings: &Findings,
) -> Result<(), AllocError>
    requires each { length sources.now ≡ length findings.now.traces.items }
    ensures { OnOk result (string_bytes text.new ≡ string_bytes text.old ++ short_text sources.now findings.now.traces.items) }
{
    let traces = findings.traces.as_slice();
    for number in 0..traces.len() {
        push_lines(text, &sources[number], traces[number].findings.as_slice())?;
        push_lines(text, &sources[number], traces[number].notes.as_slice())?;
    }
    Ok(())
}

fn push_lines(
    text: &mut String,
    source: &SourceText,
    findings: &[Problem],
) -> Result<(), AllocError>
    ensures { OnOk result (string_bytes text.new ≡ string_bytes text.old ++ short_lines source.now.name.now findings.now) }
{
    for finding in findings {
        push_line(text, source, finding)?;
    }
    Ok(())
}

fn push_line(text: &mut String, source: &SourceText, finding: &Problem) -> Result<(), AllocError>
    ensures { OnOk result (string_bytes text.new ≡ string_bytes text.old ++ short_line source.now.name.now finding.now) }
{
    push_place(text, source, &finding.spot)?;
    text.push_str(": ")?;
    push_head(text, &finding.what)?;
    text.push_str("\n")
}
