//! The findings of traces, by the logs of a run over them.

ghost use Rattle.std.specs.Prelude.{◌≡◌, ◌<◌, ◌++◌, All, IfOk, OnOk, length, map};
ghost use Rattle.std.specs.List.{AllZip, flat_map};
ghost use Rattle.std.specs.Option.{option_to_list};
ghost use Rattle.shards.specs.Closing.{book_of};
ghost use Rattle.lint.specs.Idle.{is_unused, unused_among};
ghost use Rattle.lint.specs.Found.{AreFoundIn, IsFoundIn, NamesElements, found_of_break, found_of_line};

use crate::finding::{Amiss, Findings, Problem, TraceFindings};
use crate::missing::left_with_each;
use crate::notes::{Context, Noted, notes_of};
use crate::suspect::Suspects;
use intervals::RegId;
use jepsen_form::MomentField;
use logs::{Broken, Line, Log, Run, What};
use places::{Location, elements_of, spot_of_one};
use shards::Closed;
use std::alloc::{AllocError, Global};
use tower_file::Tower;

/// Finds what is amiss in traces, by what a run over them left. The field says whether a moment is under `:index` or
/// under `:time`.
///
/// The run is over these texts: it has a log for each of them, in their order, and each line of a log is of an element
/// of its text.
pub fn lint_traces(
    alloc: Global,
    tower: &Tower,
    texts: &[&[u8]],
    field: MomentField,
    run: &Run,
) -> Result<Findings, AllocError>
    requires each { length run.now.logs.items ≡ length texts.now }
    requires named { AllZip NamesElements (map (λ text. text.now) texts.now) run.now.logs.items }
    ensures found { IfOk result (λ found. AreFoundIn (map (λ text. text.now) texts.entry.now) run.now.logs.items found.traces.items) }
    ensures unused { IfOk result (λ found. found.unused.items ≡ unused_among run.now.closed (length tower.now.registers)) }
{
    let suspects = Suspects::of(alloc, tower, &run.closed)?;
    let context = Context {
        alloc,
        tower,
        field,
        suspects: &suspects,
    };
    let traces = find_all(&context, texts, run.logs.as_slice())?;
    let unused = unused_in(alloc, tower, &run.closed)?;
    Ok(Findings { traces, unused })
}

/// For each register of the tower, whether none of its operations stands.
fn unused_in(alloc: Global, tower: &Tower, closed: &Closed) -> Result<Vec<bool>, AllocError>
    ensures { IfOk result (λ unused. unused.items ≡ unused_among closed.now (length tower.now.registers)) }
{
    let mut unused = Vec::new(alloc);
    for number in 0..tower.len() {
        unused.push(is_unused(closed, RegId(number as u32)))?;
    }
    Ok(unused)
}

fn is_unused(closed: &Closed, id: RegId) -> bool
    ensures { result ≡ is_unused (book_of closed.now id.0) }
{
    match closed.book(id) {
        Some(book) => book.len() == 0,
        None => false,
    }
}

/// The findings of each trace, by its log.
fn find_all(
    context: &Context,
    texts: &[&[u8]],
    logs: &[Log],
) -> Result<Vec<TraceFindings>, AllocError>
    requires each { length logs.now ≡ length texts.now }
    requires named { AllZip NamesElements (map (λ text. text.now) texts.now) logs.now }
    ensures found { IfOk result (λ traces. AreFoundIn (map (λ text. text.now) texts.entry.now) logs.now traces.items) }
{
    let mut traces = Vec::new(context.alloc);
    for number in 0..texts.len() {
        traces.push(find_in(context, texts[number], &logs[number])?)?;
    }
    Ok(traces)
}

/// The findings of one trace: its refusals in the order of its elements, and where it broke.
fn find_in(context: &Context, text: &[u8], log: &Log) -> Result<TraceFindings, AllocError>
    requires named { NamesElements text.now log.now }
    ensures found { IfOk result (IsFoundIn text.now log.now) }
{
    let found = elements_of(context.alloc, text)?;
    let mut findings = Vec::new(context.alloc);
    push_lines(&mut findings, found.spots.as_slice(), log.lines.as_slice())?;
    push_break(&mut findings, text, log.broken)?;
    let left_with = left_with_each(context.alloc, log.lines.as_slice(), found.spots.len())?;
    let Noted {
        notes,
        unfinished,
        processes,
        waiting,
    } = notes_of(context, text, &found, log.lines.as_slice())?;
    Ok(TraceFindings {
        spots: found.spots,
        findings,
        notes,
        unfinished,
        processes,
        waiting,
        left_with,
    })
}

fn push_lines(
    findings: &mut Vec<Problem>,
    spots: &[Location],
    lines: &[Line],
) -> Result<(), AllocError>
    requires named { All (λ line. line.event < length spots.now) lines.now }
    ensures { OnOk result (findings.new.items ≡ findings.old.items ++ flat_map (found_of_line spots.now) lines.now) }
{
    for line in lines {
        if let Some(finding) = finding_of_line(spots, line) {
            findings.push(finding)?;
        }
    }
    Ok(())
}

/// The finding of a log line: a refusal is one, an answer is none.
fn finding_of_line(spots: &[Location], line: &Line) -> Option<Problem>
    requires named { line.now.event < length spots.now }
    ensures { option_to_list result ≡ found_of_line spots.now line.now }
{
    match line.what {
        What::Refused(left_out) => Some(Problem {
            what: Amiss::Refused(line.event, left_out.code),
            spot: spots[line.event as usize],
        }),
        What::Answered(..) => None,
    }
}

fn push_break(
    findings: &mut Vec<Problem>,
    text: &[u8],
    broken: Option<Broken>,
) -> Result<(), AllocError>
    ensures { OnOk result (findings.new.items ≡ findings.old.items ++ found_of_break text.now broken) }
{
    if let Some(broken) = broken {
        findings.push(Problem {
            what: Amiss::Broken(broken.code),
            spot: spot_of_one(text, broken.place as usize),
        })?;
    }
    Ok(())
}
