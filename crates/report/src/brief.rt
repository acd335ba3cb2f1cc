//! The summary of a run.

ghost use Rattle.std.specs.Prelude.{◌≡◌, ◌++◌, ◌∷◌, Err, IfOk, OnOk, List, ℕ, count_by, flat_map, length, string_bytes};
ghost use Rattle.std.specs.Io.KnownBytes.{Appends};
ghost use Rattle.intervals.specs.declared.claim.Kind.{Kind};
ghost use Rattle.report.specs.Culprit.{culprits_of};
ghost use Rattle.report.specs.Doubted.{doubted_text};
ghost use Rattle.report.specs.Finding.{IsOfTower};
ghost use Rattle.report.specs.Summary.{IsSummary, amiss_text, culprit_count_text, breaks_text, break_line, breaks_at, broken_of, broken_text, counted, ends_text, failed_text, failing_lines, failing_text, first_line, held_text, holding_text, holds_as, idle_count_text, idle_of, idle_text, is_broken, is_failing, is_idle, kinds_text, many_held_as, name_text, names_text, over_text, refusals_text, same_kind, some_kinds_text, summary_text};

use crate::culprit::culprits_in;
use crate::doubt::doubts_of;
use crate::doubted::push_doubted;
use crate::failing::{at_most, others_in, push_blamed, push_more, push_others};
use crate::fault::ReportFault;
use crate::few::{Least, count_operations, push_few};
use crate::finding::{Finding, failing_of, find_all};
use crate::findings::RunFindings;
use crate::notes::push_broken;
use crate::refused::{count_refused, push_refused};
use crate::text::write_whole;
use intervals::{Kind, RegId};
use logs::{Log, Run};
use phrases::{kind_word, name_of, push_printed};
use std::alloc::{AllocError, Global};
use std::io::Write;
use tower_file::Tower;

/// How many registers without operations, and how many broken traces, are named.
const NAMED: usize = 10;

/// Writes the summary of a run over the registers of a tower, in one write and one flush: at most 59 lines, however
/// many registers fail and traces break. The run has to be of the tower. It ends with what is too few, where fewer
/// operations stand than `least` says. After it comes `advice`, a line of its own or nothing.
pub fn summary<'x, W: Write>(
    alloc: Global,
    tower: &'x Tower,
    run: &Run<'x>,
    least: Least,
    advice: &str,
    out: &mut W,
) -> Result<(), ReportFault>
    requires of_tower { IsOfTower tower.now run.now.closed }
    ensures summary { OnOk result ((text : List ℕ) × IsSummary tower.now least run.now.closed run.now.logs.items text × Appends (W.contents out.old) (W.contents out.new) (text ++ advice.now)) }
    ensures memory { result ≡ Err ReportFault.Memory → out.new ≡ out.old }
{
    let mut text = summary_text(alloc, tower, run, least)?;
    text.push_str(advice)?;
    write_whole(&text, out)
}

fn summary_text<'x>(
    alloc: Global,
    tower: &'x Tower,
    run: &Run<'x>,
    least: Least,
) -> Result<String, AllocError>
    requires of_tower { IsOfTower tower.now run.now.closed }
    ensures { IfOk result (λ text. IsSummary tower.now least run.now.closed run.now.logs.items (string_bytes text)) }
{
    let each = find_all(alloc, tower, &run.closed)?;
    let failing = failing_of(alloc, &each)?;
    let culprits = culprits_in(alloc, tower, &failing)?;
    let doubts = doubts_of(alloc, &each, &run.logs)?;
    let findings = RunFindings {
        tower,
        run,
        each: &each,
        failing: &failing,
        culprits: &culprits,
        doubts: &doubts,
    };
    let mut text = String::new(alloc);
    push_summary(&mut text, alloc, &findings, least)?;
    Ok(text)
}

fn push_summary(
    text: &mut String,
    alloc: Global,
    findings: &RunFindings,
    least: Least,
) -> Result<(), AllocError>
    ensures { OnOk result (string_bytes text.new ≡ string_bytes text.old ++ summary_text findings.now.tower.now least findings.now.each.now findings.now.doubts.now findings.now.run.now.logs.items) }
{
    push_registers(text, alloc, findings)?;
    push_ends(text, alloc, findings, least)
}

/// The lines below those of the registers.
fn push_ends(
    text: &mut String,
    alloc: Global,
    findings: &RunFindings,
    least: Least,
) -> Result<(), AllocError>
    ensures { OnOk result (string_bytes text.new ≡ string_bytes text.old ++ ends_text least findings.now.each.now findings.now.run.now.logs.items) }
{
    push_refused(text, alloc, &findings.run.logs)?;
    push_breaks(text, alloc, &findings.run.logs)?;
    push_few(text, least, findings.each)
}

/// The first line, and the lines of the registers that fail, that are in doubt, and that hold.
fn push_registers(
    text: &mut String,
    alloc: Global,
    findings: &RunFindings,
) -> Result<(), AllocError>
    ensures { OnOk result (string_bytes text.new ≡ string_bytes text.old ++ first_line findings.now.tower.now findings.now.each.now (length (culprits_of findings.now.tower.now findings.now.each.now)) findings.now.run.now.logs.items ++ failing_text findings.now.tower.now findings.now.each.now ++ doubted_text findings.now.tower.now findings.now.doubts.now ++ holding_text findings.now.tower.now findings.now.each.now) }
{
    push_first(text, findings)?;
    push_failing(text, alloc, findings)?;
    push_doubted(text, alloc, findings.tower, findings.doubts)?;
    push_holding(text, alloc, findings.tower, findings.each)
}

/// The lines of the registers that fail: the culprits, and then the others.
fn push_failing(text: &mut String, alloc: Global, findings: &RunFindings) -> Result<(), AllocError>
    ensures { OnOk result (string_bytes text.new ≡ string_bytes text.old ++ failing_text findings.now.tower.now findings.now.each.now) }
{
    push_blamed(text, findings)?;
    let others = others_in(alloc, findings.tower, findings.failing)?;
    push_others(text, findings, &others)
}

fn push_first(text: &mut String, findings: &RunFindings) -> Result<(), AllocError>
    ensures { OnOk result (string_bytes text.new ≡ string_bytes text.old ++ first_line findings.now.tower.now findings.now.each.now (length (culprits_of findings.now.tower.now findings.now.each.now)) findings.now.run.now.logs.items) }
{
    push_failed(text, count_failing(findings.each), findings.tower.len())?;
    push_blamed_count(text, findings.culprits.len())?;
    push_over(text, findings.each, &findings.run.logs)?;
    push_amiss(text, &findings.run.logs)
}

fn push_failed(text: &mut String, failing: usize, many: usize) -> Result<(), AllocError>
    ensures { OnOk result (string_bytes text.new ≡ string_bytes text.old ++ failed_text failing many) }
{
    write!(text, "{failing} of {many} registers fail, ")
}

fn push_blamed_count(text: &mut String, blamed: usize) -> Result<(), AllocError>
    ensures { OnOk result (string_bytes text.new ≡ string_bytes text.old ++ culprit_count_text blamed) }
{
    write!(text, "{blamed} to blame; ")
}

/// How many registers fail, by what is found of them.
pub fn count_failing(findings: &[Finding]) -> usize
    ensures { result ≡ count_by is_failing findings.now }
{
    findings
        .iter()
        .filter(|finding| finding.witness.is_some())
        .count()
}

/// How many operations the run judged, and in how many traces.
fn push_over(text: &mut String, findings: &[Finding], logs: &[Log]) -> Result<(), AllocError>
    ensures { OnOk result (string_bytes text.new ≡ string_bytes text.old ++ over_text findings.now logs.now) }
{
    push_counted(text, count_operations(findings), "operation")?;
    text.push_str(" in ")?;
    push_counted(text, logs.len() as u128, "trace")
}

/// How many elements were refused and how many traces broke.
fn push_amiss(text: &mut String, logs: &[Log]) -> Result<(), AllocError>
    ensures { OnOk result (string_bytes text.new ≡ string_bytes text.old ++ amiss_text logs.now) }
{
    push_refusals(text, count_refused(logs))?;
    push_breaks_count(text, count_broken(logs))?;
    text.push_str("\n")
}

/// A number and a word, which gets an s unless the number is 1.
fn push_counted(text: &mut String, many: u128, word: &str) -> Result<(), AllocError>
    ensures { OnOk result (string_bytes text.new ≡ string_bytes text.old ++ counted many word.now) }
{
    write!(text, "{many} ")?;
    text.push_str(word)?;
    if many == 1 {
        return Ok(());
    }
    text.push_str("s")
}

fn push_refusals(text: &mut String, many: u128) -> Result<(), AllocError>
    ensures { OnOk result (string_bytes text.new ≡ string_bytes text.old ++ refusals_text many) }
{
    if many == 0 {
        return text.push_str(", none refused");
    }
    write!(text, ", {many} refused")
}

fn push_breaks_count(text: &mut String, many: usize) -> Result<(), AllocError>
    ensures { OnOk result (string_bytes text.new ≡ string_bytes text.old ++ breaks_text many) }
{
    if many == 0 {
        return Ok(());
    }
    text.push_str(", ")?;
    push_counted(text, many as u128, "trace")?;
    text.push_str(" broken")
}

/// How many traces broke.
pub fn count_broken(logs: &[Log]) -> usize
    ensures { result ≡ count_by is_broken logs.now }
{
    logs.iter().filter(|log| log.broken.is_some()).count()
}

/// The line of the registers that hold.
fn push_holding(
    text: &mut String,
    alloc: Global,
    tower: &Tower,
    findings: &[Finding],
) -> Result<(), AllocError>
    ensures { OnOk result (string_bytes text.new ≡ string_bytes text.old ++ holding_text tower.now findings.now) }
{
    push_held(text, findings)?;
    push_kinds(text, findings)?;
    let idle = idle_in(alloc, tower, findings)?;
    push_idle(text, tower, &idle)?;
    text.push_str("\n")
}

/// How many registers hold.
fn push_held(text: &mut String, findings: &[Finding]) -> Result<(), AllocError>
    ensures { OnOk result (string_bytes text.new ≡ string_bytes text.old ++ held_text findings.now) }
{
    let holding = findings
        .iter()
        .filter(|finding| finding.witness.is_none())
        .count();
    write!(text, "{holding} hold")
}

/// How many registers of each kind hold, where any does.
fn push_kinds(text: &mut String, findings: &[Finding]) -> Result<(), AllocError>
    ensures { OnOk result (string_bytes text.new ≡ string_bytes text.old ++ kinds_text findings.now) }
{
    let before = push_kind(text, ": ", findings, Kind::Safe)?;
    let before = push_kind(text, before, findings, Kind::Regular)?;
    push_kind(text, before, findings, Kind::Atomic)?;
    Ok(())
}

/// How many registers of a kind hold, where any does, after a text; and what comes before the next kind.
fn push_kind(
    text: &mut String,
    before: &'static str,
    findings: &[Finding],
    kind: Kind,
) -> Result<&'static str, AllocError>
    ensures { IfOk result (λ next. (kinds : List Kind) → string_bytes text.new ++ some_kinds_text findings.now next.now kinds ≡ string_bytes text.old ++ some_kinds_text findings.now before.now (kind ∷ kinds)) }
{
    let many = count_held_as(findings, kind);
    if many == 0 {
        return Ok(before);
    }
    text.push_str(before)?;
    write!(text, "{many} ")?;
    text.push_str(kind_word(kind))?;
    Ok(", ")
}

/// How many registers of a kind hold.
fn count_held_as(findings: &[Finding], kind: Kind) -> usize
    ensures { result ≡ many_held_as findings.now kind }
{
    findings
        .iter()
        .filter(|finding| holds_as(finding, kind))
        .count()
}

fn holds_as(finding: &Finding, kind: Kind) -> bool
    ensures { result ≡ holds_as kind finding.now }
{
    finding.witness.is_none() && is_kind(finding.kind, kind)
}

fn is_kind(kind: Kind, other: Kind) -> bool
    ensures { result ≡ same_kind kind other }
{
    match (kind, other) {
        (Kind::Safe, Kind::Safe) => true,
        (Kind::Regular, Kind::Regular) => true,
        (Kind::Atomic, Kind::Atomic) => true,
        _ => false,
    }
}

/// The registers without any operation, by number.
fn idle_in(alloc: Global, tower: &Tower, findings: &[Finding]) -> Result<Vec<RegId>, AllocError>
    ensures { IfOk result (λ idle. idle.items ≡ idle_of tower.now findings.now) }
{
    (0..tower.len() as u32)
        .map(|number| RegId(number))
        .filter(|id| is_idle(findings, *id))
        .collect(alloc)
}

fn is_idle(findings: &[Finding], id: RegId) -> bool
    ensures { result ≡ is_idle findings.now id }
{
    match findings.get(id.0 as usize) {
        Some(finding) => finding.operations == 0,
        None => false,
    }
}

/// How many registers have no operation, and which.
fn push_idle(text: &mut String, tower: &Tower, idle: &[RegId]) -> Result<(), AllocError>
    ensures { OnOk result (string_bytes text.new ≡ string_bytes text.old ++ idle_text tower.now idle.now) }
{
    if idle.len() == 0 {
        return Ok(());
    }
    push_idle_names(text, tower, idle)
}

fn push_idle_names(text: &mut String, tower: &Tower, idle: &[RegId]) -> Result<(), AllocError>
    ensures { OnOk result (string_bytes text.new ≡ string_bytes text.old ++ idle_count_text (length idle.now) ++ names_text tower.now idle.now) }
{
    push_idle_count(text, idle.len())?;
    push_first_names(text, tower, idle)
}

fn push_idle_count(text: &mut String, many: usize) -> Result<(), AllocError>
    ensures { OnOk result (string_bytes text.new ≡ string_bytes text.old ++ idle_count_text many) }
{
    write!(text, "; {many} without any operation:")
}

/// The names of the first 10 registers, and how many more there are.
fn push_first_names(text: &mut String, tower: &Tower, ids: &[RegId]) -> Result<(), AllocError>
    ensures { OnOk result (string_bytes text.new ≡ string_bytes text.old ++ names_text tower.now ids.now) }
{
    push_names(text, tower, at_most(ids, NAMED))?;
    push_more(text, " and ", NAMED, ids.len(), " more")
}

fn push_names(text: &mut String, tower: &Tower, ids: &[RegId]) -> Result<(), AllocError>
    ensures { OnOk result (string_bytes text.new ≡ string_bytes text.old ++ flat_map (name_text tower.now.registers) ids.now) }
{
    for id in ids {
        text.push_str(" ")?;
        push_printed(text, name_of(tower, *id))?;
    }
    Ok(())
}

/// The lines of the first 10 traces that broke, and how many more there are.
fn push_breaks(text: &mut String, alloc: Global, logs: &[Log]) -> Result<(), AllocError>
    ensures { OnOk result (string_bytes text.new ≡ string_bytes text.old ++ broken_text logs.now) }
{
    let broken = broken_in(alloc, logs)?;
    push_break_lines(text, logs, at_most(&broken, NAMED))?;
    push_more(text, "and ", NAMED, broken.len(), " more\n")
}

/// The traces that broke, by number.
fn broken_in(alloc: Global, logs: &[Log]) -> Result<Vec<usize>, AllocError>
    ensures { IfOk result (λ broken. broken.items ≡ broken_of logs.now) }
{
    (0..logs.len())
        .filter(|feeder| is_broken(logs, *feeder))
        .collect(alloc)
}

fn is_broken(logs: &[Log], feeder: usize) -> bool
    ensures { result ≡ breaks_at logs.now feeder }
{
    match logs.get(feeder) {
        Some(log) => log.broken.is_some(),
        None => false,
    }
}

fn push_break_lines(text: &mut String, logs: &[Log], feeders: &[usize]) -> Result<(), AllocError>
    ensures { OnOk result (string_bytes text.new ≡ string_bytes text.old ++ flat_map (break_line logs.now) feeders.now) }
{
    for feeder in feeders {
        push_break(text, logs, *feeder)?;
    }
    Ok(())
}

fn push_break(text: &mut String, logs: &[Log], feeder: usize) -> Result<(), AllocError>
    ensures { OnOk result (string_bytes text.new ≡ string_bytes text.old ++ break_line logs.now feeder) }
{
    match logs.get(feeder) {
        Some(log) => push_broken(text, feeder, log.broken),
        None => Ok(()),
    }
}
