//! What is amiss in a run as GitHub's workflow commands, which annotate files.

ghost use Rattle.std.specs.Prelude.{◌≡◌, ◌++◌, ◌<◌, OnOk, string_bytes};
ghost use Rattle.ci_forms.specs.Facts.{facts_of, few_of_all, few_of_each, concatenated};
ghost use Rattle.ci_forms.specs.GitHub.{break_command, break_command_of, break_commands, break_end, command_word, failure_command, failure_command_of, failure_commands, few_command, file_property, first_properties, github_text, name_property, place_properties, property_char, refused_command, title_property};

use crate::facts::{
    first_rested, first_shown, is_to_blame, op_line, push_break, push_why, trace_name,
};
use crate::few::{few_of_all, few_of_each};
use crate::told::CiRun;
use bstr::ByteSlice;
use intervals::{Kind, OpId, RegId};
use logs::Broken;
use phrases::{name_of, printed_char};
use register_book::Witness;
use report::{Finding, count_refused};
use std::alloc::{AllocError, Global};

/// What comes before the name of a register that fails, and after it.
pub const TITLE: &str = "title=register ";

pub const FAILS: &str = " fails::";

/// Adds a command for each register that fails, for each trace that broke, for what is too few, and for the refusals.
pub fn push_github(text: &mut String, alloc: Global, run: &CiRun) -> Result<(), AllocError>
    ensures { OnOk result (string_bytes text.new ≡ string_bytes text.old ++ github_text (facts_of run.now)) }
{
    push_failures(text, run)?;
    push_breaks(text, run)?;
    push_few_of_all(text, alloc, run)?;
    push_few_of_each(text, alloc, run)?;
    push_refused(text, count_refused(run.logs))
}

/// The commands of the registers that fail, by number.
fn push_failures(text: &mut String, run: &CiRun) -> Result<(), AllocError>
    ensures { OnOk result (string_bytes text.new ≡ string_bytes text.old ++ concatenated (failure_commands (facts_of run.now) 0 run.now.each.now)) }
{
    for number in 0..run.tower.len() {
        push_failure_of(text, run, number, &run.each[number])?;
    }
    Ok(())
}

/// The command of a register, where it fails.
fn push_failure_of(
    text: &mut String,
    run: &CiRun,
    number: usize,
    finding: &Finding,
) -> Result<(), AllocError>
    requires few { number < 65536 }
    ensures { OnOk result (string_bytes text.new ≡ string_bytes text.old ++ concatenated (failure_command_of (facts_of run.now) number finding.now)) }
{
    match &finding.witness {
        Some(witness) => push_failure(text, run, RegId(number as u32), finding.kind, witness),
        None => Ok(()),
    }
}

#[tactic(auto, unfolding(crate::specs::GitHub::failure_command))]
fn push_failure(
    text: &mut String,
    run: &CiRun,
    id: RegId,
    kind: Kind,
    witness: &Witness,
) -> Result<(), AllocError>
    ensures { OnOk result (string_bytes text.new ≡ string_bytes text.old ++ failure_command (facts_of run.now) id kind witness.now) }
{
    text.push_str(command_word(is_to_blame(run, id)))?;
    push_first(text, run, first_shown(witness))?;
    push_title(text, name_of(run.tower, id))?;
    push_why(text, kind, witness, first_rested(run.doubts, id))?;
    text.push_str("\n")
}

fn command_word(culprit: bool) -> &'static str
    ensures { result.now ≡ command_word culprit }
{
    if culprit { "::error " } else { "::warning " }
}

/// Where the first operation of a failure is.
fn push_first(text: &mut String, run: &CiRun, first: Option<OpId>) -> Result<(), AllocError>
    ensures { OnOk result (string_bytes text.new ≡ string_bytes text.old ++ first_properties (facts_of run.now) first) }
{
    let Some(id) = first else {
        return Ok(());
    };
    let name = trace_name(run.form.traces, id.feeder as usize);
    push_place(text, name, op_line(run.places, id))
}

/// The properties of an element or a byte: its file and its line.
fn push_place(text: &mut String, name: &str, line: Option<usize>) -> Result<(), AllocError>
    ensures { OnOk result (string_bytes text.new ≡ string_bytes text.old ++ place_properties name.now line) }
{
    let Some(line) = line else {
        return Ok(());
    };
    text.push_str("file=")?;
    push_file(text, name.as_bytes())?;
    write!(text, ",line={line},")
}

/// The title of a register that fails.
#[tactic(auto, unfolding(crate::specs::GitHub::title_property))]
fn push_title(text: &mut String, name: &[u8]) -> Result<(), AllocError>
    ensures { OnOk result (string_bytes text.new ≡ string_bytes text.old ++ title_property name.now) }
{
    text.push_str(TITLE)?;
    push_name(text, name)?;
    text.push_str(FAILS)
}

/// The name of a file as a property.
#[tactic(auto, unfolding(crate::specs::GitHub::file_property))]
fn push_file(text: &mut String, name: &[u8]) -> Result<(), AllocError>
    ensures { OnOk result (string_bytes text.new ≡ string_bytes text.old ++ file_property name.now) }
{
    for character in name.chars() {
        push_character(text, character)?;
    }
    Ok(())
}

/// A name as it is printed, as a property.
#[tactic(auto, unfolding(crate::specs::GitHub::name_property))]
fn push_name(text: &mut String, name: &[u8]) -> Result<(), AllocError>
    ensures { OnOk result (string_bytes text.new ≡ string_bytes text.old ++ name_property name.now) }
{
    for character in name.chars() {
        push_character(text, printed_char(character))?;
    }
    Ok(())
}

/// A character of a property: one that would end it as a percent sign and two digits.
fn push_character(text: &mut String, character: char) -> Result<(), AllocError>
    ensures { OnOk result (string_bytes text.new ≡ string_bytes text.old ++ property_char character) }
{
    match character {
        '%' => text.push_str("%25"),
        '\r' => text.push_str("%0D"),
        '\n' => text.push_str("%0A"),
        ':' => text.push_str("%3A"),
        ',' => text.push_str("%2C"),
        _ => text.push(character),
    }
}

/// The commands of the traces that broke, by number.
fn push_breaks(text: &mut String, run: &CiRun) -> Result<(), AllocError>
    ensures { OnOk result (string_bytes text.new ≡ string_bytes text.old ++ concatenated (break_commands (facts_of run.now) 0 run.now.logs.now)) }
{
    for feeder in 0..run.logs.len() {
        push_break_of(text, run, feeder, run.logs[feeder].broken)?;
    }
    Ok(())
}

fn push_break_of(
    text: &mut String,
    run: &CiRun,
    feeder: usize,
    broken: Option<Broken>,
) -> Result<(), AllocError>
    ensures { OnOk result (string_bytes text.new ≡ string_bytes text.old ++ concatenated (break_command_of (facts_of run.now) feeder broken)) }
{
    match broken {
        Some(broken) => push_break_command(text, run, feeder, broken),
        None => Ok(()),
    }
}

#[tactic(auto, unfolding(crate::specs::GitHub::break_command))]
fn push_break_command(
    text: &mut String,
    run: &CiRun,
    feeder: usize,
    broken: Broken,
) -> Result<(), AllocError>
    ensures { OnOk result (string_bytes text.new ≡ string_bytes text.old ++ break_command (facts_of run.now) feeder broken) }
{
    let name = trace_name(run.form.traces, feeder);
    text.push_str("::error ")?;
    push_place(text, name, run.places.line_of(feeder as u64, broken.place))?;
    push_break_end(text, feeder, broken)
}

/// The title of a break, and its message.
#[tactic(auto, unfolding(crate::specs::GitHub::break_end))]
fn push_break_end(text: &mut String, feeder: usize, broken: Broken) -> Result<(), AllocError>
    ensures { OnOk result (string_bytes text.new ≡ string_bytes text.old ++ break_end feeder broken) }
{
    text.push_str("title=")?;
    text.push_str(broken.code.code())?;
    text.push_str("::")?;
    push_break(text, feeder, broken)?;
    text.push_str("\n")
}

fn push_few_of_all(text: &mut String, alloc: Global, run: &CiRun) -> Result<(), AllocError>
    ensures { OnOk result (string_bytes text.new ≡ string_bytes text.old ++ few_command (few_of_all run.now.form.now.least run.now.each.now)) }
{
    let line = few_of_all(alloc, run.each, run.form.least)?;
    push_few(text, &line)
}

fn push_few_of_each(text: &mut String, alloc: Global, run: &CiRun) -> Result<(), AllocError>
    ensures { OnOk result (string_bytes text.new ≡ string_bytes text.old ++ few_command (few_of_each run.now.form.now.least run.now.each.now)) }
{
    let line = few_of_each(alloc, run.each, run.form.least)?;
    push_few(text, &line)
}

/// The command of a line that says what is too few; nothing where there is no line.
#[tactic(auto, unfolding(crate::specs::GitHub::few_command))]
fn push_few(text: &mut String, line: &str) -> Result<(), AllocError>
    ensures { OnOk result (string_bytes text.new ≡ string_bytes text.old ++ few_command line.now) }
{
    if line.len() == 0 {
        return Ok(());
    }
    text.push_str("::error title=too few::")?;
    text.push_str(line)
}

#[tactic(auto, unfolding(crate::specs::GitHub::refused_command))]
fn push_refused(text: &mut String, many: u128) -> Result<(), AllocError>
    ensures { OnOk result (string_bytes text.new ≡ string_bytes text.old ++ refused_command many) }
{
    if many == 0 {
        return Ok(());
    }
    write!(
        text,
        "::notice title=refused::elements refused: {many}; regaudit lint --as github has each at its line\n"
    )
}
