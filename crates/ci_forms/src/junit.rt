//! What is found of a run as the XML of JUnit: a test case for each register.

ghost use Rattle.std.specs.Prelude.{◌≡◌, ◌≤◌, ◌++◌, ◌<◌, OnOk, flat_map, string_bytes};
ghost use Rattle.register_book.specs.Fault.{ops_in_roles};
ghost use Rattle.ci_forms.specs.Facts.{facts_of, concatenated};
ghost use Rattle.ci_forms.specs.Junit.{break_case, break_case_of, break_cases, break_part, case_head, cases_for_few, errors_of, failure_head, failure_part, failure_type, failures_of, few_case, junit_text, level_at, line_part, with_number, place_line, register_case, register_cases, shown_part, shown_part_of, shown_parts, shown_text, suite_head, tests_of, type_part, verdict_part};

use crate::facts::{first_rested, is_to_blame, op_line, push_break, push_why, trace_name};
use crate::few::few_lines;
use crate::told::CiRun;
use crate::xml::push_xml;
use intervals::{Kind, Op, RegId};
use logs::Broken;
use phrases::name_of;
use register_book::{InRole, Witness};
use report::{Finding, count_broken, count_failing, level_name};
use std::alloc::{AllocError, Global};
use tower_file::Tower;

/// The beginning of the suite, up to each of its numbers, and after the last.
pub const TESTS: &str =
    "<?xml version=\"1.0\" encoding=\"UTF-8\"?>\n<testsuite name=\"regaudit\" tests=\"";

pub const FAILURES: &str = "\" failures=\"";

pub const ERRORS: &str = "\" errors=\"";

pub const SKIPPED: &str = "\" skipped=\"0\">\n";

/// The class of the cases of traces.
pub const TRACES: &str = "traces";

/// The class and the name of the case of what is too few, and the beginning of its failure.
pub const PROGRAM: &str = "regaudit";

pub const ENOUGH: &str = "enough operations";

pub const FEW: &str = ">\n    <failure type=\"too few\" message=\"too few operations stand\">\n";

/// A failure and an error, up to what it is, then up to its message, and after that; and their ends.
pub const FAILURE: &str = ">\n    <failure type=\"";

pub const ERROR: &str = ">\n    <error type=\"";

pub const MESSAGE: &str = "\" message=\"";

pub const OPENED: &str = "\">\n";

pub const FAILURE_END: &str = "</failure>\n  </testcase>\n";

pub const ERROR_END: &str = "</error>\n  </testcase>\n";

/// Adds the suite: a case for each register, for each trace that broke, and for what is too few.
pub fn push_junit(text: &mut String, alloc: Global, run: &CiRun) -> Result<(), AllocError>
    ensures { OnOk result (string_bytes text.new ≡ string_bytes text.old ++ junit_text (facts_of run.now)) }
{
    let few = few_lines(alloc, run.each, run.form.least)?;
    push_head(text, run, cases_for_few(&few))?;
    push_registers(text, run)?;
    push_breaks(text, run)?;
    push_few(text, &few)?;
    text.push_str("</testsuite>\n")
}

/// How many cases there are for what is too few, by the lines of it.
fn cases_for_few(few: &str) -> u128
    ensures cases { result ≡ cases_for_few few.now }
    ensures most { result ≤ 1 }
{
    if few.len() == 0 { 0 } else { 1 }
}

/// The beginning of the suite, where so many cases are for what is too few.
fn push_head(text: &mut String, run: &CiRun, few: u128) -> Result<(), AllocError>
    requires most { few ≤ 1 }
    ensures { OnOk result (string_bytes text.new ≡ string_bytes text.old ++ suite_head (tests_of (facts_of run.now) few) (failures_of (facts_of run.now) few) (errors_of (facts_of run.now))) }
{
    let failing = count_failing(run.each) as u128;
    let broken = count_broken(run.logs) as u128;
    let registers = run.each.len() as u128;
    push_counts(text, registers + broken + few, failing + few, broken)
}

#[tactic(auto, unfolding(crate::specs::Junit::suite_head))]
fn push_counts(
    text: &mut String,
    tests: u128,
    failures: u128,
    errors: u128,
) -> Result<(), AllocError>
    ensures { OnOk result (string_bytes text.new ≡ string_bytes text.old ++ suite_head tests failures errors) }
{
    push_with_number(text, TESTS, tests)?;
    push_with_number(text, FAILURES, failures)?;
    push_with_number(text, ERRORS, errors)?;
    text.push_str(SKIPPED)
}

/// A text, and a number after it.
fn push_with_number(text: &mut String, before: &str, number: u128) -> Result<(), AllocError>
    ensures { OnOk result (string_bytes text.new ≡ string_bytes text.old ++ with_number before.now number) }
{
    text.push_str(before)?;
    write!(text, "{number}")
}

/// The cases of the registers, by number.
fn push_registers(text: &mut String, run: &CiRun) -> Result<(), AllocError>
    ensures { OnOk result (string_bytes text.new ≡ string_bytes text.old ++ concatenated (register_cases (facts_of run.now) 0 run.now.each.now)) }
{
    for number in 0..run.tower.len() {
        push_register(text, run, number, &run.each[number])?;
    }
    Ok(())
}

#[tactic(auto, unfolding(crate::specs::Junit::register_case))]
fn push_register(
    text: &mut String,
    run: &CiRun,
    number: usize,
    finding: &Finding,
) -> Result<(), AllocError>
    requires few { number < 65536 }
    ensures { OnOk result (string_bytes text.new ≡ string_bytes text.old ++ register_case (facts_of run.now) (record { 0 = number }) finding.now) }
{
    let id = RegId(number as u32);
    push_case(
        text,
        level_name(run.tower, level_at(run.tower, id)),
        name_of(run.tower, id),
    )?;
    push_verdict(text, run, id, finding)
}

/// The number of a register's level; 0 where there is no such register.
fn level_at(tower: &Tower, id: RegId) -> usize
    ensures { result ≡ level_at tower.now id }
{
    match tower.level_of(id) {
        Some(level) => level,
        None => 0,
    }
}

/// The beginning of a case.
#[tactic(auto, unfolding(crate::specs::Junit::case_head))]
fn push_case(text: &mut String, class: &[u8], name: &[u8]) -> Result<(), AllocError>
    ensures { OnOk result (string_bytes text.new ≡ string_bytes text.old ++ case_head class.now name.now) }
{
    text.push_str("  <testcase classname=\"")?;
    push_xml(text, class)?;
    text.push_str("\" name=\"")?;
    push_xml(text, name)?;
    text.push_str("\"")
}

/// The end of the case of a register.
fn push_verdict(
    text: &mut String,
    run: &CiRun,
    id: RegId,
    finding: &Finding,
) -> Result<(), AllocError>
    ensures { OnOk result (string_bytes text.new ≡ string_bytes text.old ++ verdict_part (facts_of run.now) id finding.now.kind finding.now.witness) }
{
    match &finding.witness {
        Some(witness) => push_failure(text, run, id, finding.kind, witness),
        None => text.push_str("/>\n"),
    }
}

#[tactic(auto, unfolding(crate::specs::Junit::failure_part))]
fn push_failure(
    text: &mut String,
    run: &CiRun,
    id: RegId,
    kind: Kind,
    witness: &Witness,
) -> Result<(), AllocError>
    ensures { OnOk result (string_bytes text.new ≡ string_bytes text.old ++ failure_part (facts_of run.now) id kind witness.now) }
{
    push_failure_head(
        text,
        is_to_blame(run, id),
        kind,
        witness,
        first_rested(run.doubts, id),
    )?;
    push_shown(text, run, &witness.roles())?;
    text.push_str(FAILURE_END)
}

/// An opening and what it is that is opened, up to its message.
fn push_type(text: &mut String, opening: &str, what: &str) -> Result<(), AllocError>
    ensures { OnOk result (string_bytes text.new ≡ string_bytes text.old ++ type_part opening.now what.now) }
{
    text.push_str(opening)?;
    text.push_str(what)?;
    text.push_str(MESSAGE)
}

/// The beginning of a failure: what it is, and why.
#[tactic(auto, unfolding(crate::specs::Junit::failure_head))]
fn push_failure_head(
    text: &mut String,
    culprit: bool,
    kind: Kind,
    witness: &Witness,
    rests: Option<(usize, u64)>,
) -> Result<(), AllocError>
    ensures { OnOk result (string_bytes text.new ≡ string_bytes text.old ++ failure_head culprit kind witness.now rests) }
{
    push_type(text, FAILURE, failure_type(culprit))?;
    push_why(text, kind, witness, rests)?;
    text.push_str(OPENED)
}

fn failure_type(culprit: bool) -> &'static str
    ensures { result.now ≡ failure_type culprit }
{
    if culprit {
        "culprit"
    } else {
        "fails over a part"
    }
}

/// The operations of a failure.
fn push_shown(text: &mut String, run: &CiRun, slots: &[Option<InRole>]) -> Result<(), AllocError>
    ensures { OnOk result (string_bytes text.new ≡ string_bytes text.old ++ flat_map (shown_text (facts_of run.now)) (ops_in_roles slots.now)) }
{
    for slot in slots {
        if let Some(one) = slot {
            push_operation(text, run, &one.op)?;
        }
    }
    Ok(())
}

/// Where an operation is, and its texts.
#[tactic(auto, unfolding(crate::specs::Junit::shown_text))]
fn push_operation(text: &mut String, run: &CiRun, op: &Op) -> Result<(), AllocError>
    ensures { OnOk result (string_bytes text.new ≡ string_bytes text.old ++ shown_text (facts_of run.now) op.now) }
{
    let name = trace_name(run.form.traces, op.id.feeder as usize);
    push_place(text, name, op_line(run.places, op.id))?;
    push_parts(text, op)
}

/// The texts that an operation lends: its invocation, its answer and its last amendment.
fn push_parts(text: &mut String, op: &Op) -> Result<(), AllocError>
    ensures { OnOk result (string_bytes text.new ≡ string_bytes text.old ++ shown_parts op.now) }
{
    push_part(text, op.parts.invocation)?;
    push_part_of(text, op.parts.answer)?;
    push_part_of(text, op.parts.amendment)
}

fn push_part_of(text: &mut String, part: Option<&[u8]>) -> Result<(), AllocError>
    ensures { OnOk result (string_bytes text.new ≡ string_bytes text.old ++ shown_part_of part.entry) }
{
    match part {
        Some(part) => push_part(text, part),
        None => Ok(()),
    }
}

fn push_part(text: &mut String, part: &[u8]) -> Result<(), AllocError>
    ensures { OnOk result (string_bytes text.new ≡ string_bytes text.old ++ shown_part part.now) }
{
    text.push_str("  | ")?;
    push_xml(text, part)?;
    text.push_str("\n")
}

/// A file, and the line in it where that is known, on a line of its own.
fn push_place(text: &mut String, name: &str, line: Option<usize>) -> Result<(), AllocError>
    ensures { OnOk result (string_bytes text.new ≡ string_bytes text.old ++ place_line name.now line) }
{
    push_xml(text, name.as_bytes())?;
    push_line(text, line)?;
    text.push_str("\n")
}

fn push_line(text: &mut String, line: Option<usize>) -> Result<(), AllocError>
    ensures { OnOk result (string_bytes text.new ≡ string_bytes text.old ++ line_part line) }
{
    match line {
        Some(line) => write!(text, ":{line}"),
        None => Ok(()),
    }
}

/// The cases of the traces that broke, by number.
fn push_breaks(text: &mut String, run: &CiRun) -> Result<(), AllocError>
    ensures { OnOk result (string_bytes text.new ≡ string_bytes text.old ++ concatenated (break_cases (facts_of run.now) 0 run.now.logs.now)) }
{
    for feeder in 0..run.logs.len() {
        push_break_of(text, run, feeder, run.logs[feeder].broken)?;
    }
    Ok(())
}

fn push_break_of(
    text: &mut String,
    run: &CiRun,
    feeder: usize,
    broken: Option<Broken>,
) -> Result<(), AllocError>
    ensures { OnOk result (string_bytes text.new ≡ string_bytes text.old ++ concatenated (break_case_of (facts_of run.now) feeder broken)) }
{
    match broken {
        Some(broken) => push_break_case(text, run, feeder, broken),
        None => Ok(()),
    }
}

#[tactic(auto, unfolding(crate::specs::Junit::break_case))]
fn push_break_case(
    text: &mut String,
    run: &CiRun,
    feeder: usize,
    broken: Broken,
) -> Result<(), AllocError>
    ensures { OnOk result (string_bytes text.new ≡ string_bytes text.old ++ break_case (facts_of run.now) feeder broken) }
{
    let name = trace_name(run.form.traces, feeder);
    push_case(text, TRACES.as_bytes(), name.as_bytes())?;
    push_break_head(text, feeder, broken)?;
    push_place(text, name, run.places.line_of(feeder as u64, broken.place))?;
    text.push_str(ERROR_END)
}

#[tactic(auto, unfolding(crate::specs::Junit::break_part))]
fn push_break_head(text: &mut String, feeder: usize, broken: Broken) -> Result<(), AllocError>
    ensures { OnOk result (string_bytes text.new ≡ string_bytes text.old ++ break_part feeder broken) }
{
    push_type(text, ERROR, broken.code.code())?;
    push_break(text, feeder, broken)?;
    text.push_str(OPENED)
}

/// The case of what is too few, by the lines of it; nothing where nothing is.
#[tactic(auto, unfolding(crate::specs::Junit::few_case))]
fn push_few(text: &mut String, few: &str) -> Result<(), AllocError>
    ensures { OnOk result (string_bytes text.new ≡ string_bytes text.old ++ few_case few.now) }
{
    if few.len() == 0 {
        return Ok(());
    }
    push_case(text, PROGRAM.as_bytes(), ENOUGH.as_bytes())?;
    text.push_str(FEW)?;
    text.push_str(few)?;
    text.push_str(FAILURE_END)
}
