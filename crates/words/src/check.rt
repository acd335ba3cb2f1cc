//! What `check` asks for.

ghost use Rattle.std.specs.Prelude.{◌≡◌, ◌<◌, ◌≤◌, IfOk, IfSome, codes, length, map};
ghost use Rattle.std.specs.Option.{option_map};
ghost use Rattle.clap.specs.Words.{found_of, rows_of};
ghost use Rattle.words.specs.Words.{asked_check, check_by, count_in, form_in, has_records, moments_in, names_lines, only_by, only_in, said_in, shards_in, traces_in};

use crate::demand::{Demand, demand_of};
use crate::tower::{TowerWord, tower_of};
use clap::ArgMatches;
use jepsen_form::MomentField;
use std::alloc::{AllocError, Global};

/// What is printed of a check.
#[derive(Clone, Copy)]
pub enum ReportForm {
    /// The report, line by line.
    Report,
    /// Counts, and what fails.
    Summary,
    /// A record a line, in JSON.
    Json,
    /// A record a line, in EDN.
    Edn,
    /// Workflow commands of GitHub Actions.
    GitHub,
    /// The XML of JUnit.
    Junit,
    /// The events of the operations that show how registers fail, as a trace.
    Trace,
}

impl ReportForm {
    /// Whether records are printed.
    pub fn has_records(self) -> bool
        ensures { result ≡ has_records self }
    {
        match self {
            ReportForm::Report
            | ReportForm::Summary
            | ReportForm::GitHub
            | ReportForm::Junit
            | ReportForm::Trace => false,
            ReportForm::Json | ReportForm::Edn => true,
        }
    }

    /// Whether the lines of elements are printed.
    pub fn names_lines(self) -> bool
        ensures { result ≡ names_lines self }
    {
        match self {
            ReportForm::Report | ReportForm::Summary | ReportForm::Trace => false,
            ReportForm::Json | ReportForm::Edn | ReportForm::GitHub | ReportForm::Junit => true,
        }
    }
}

/// What `check` asks for.
#[derive(Drop)]
pub struct Check<'a> {
    pub tower: TowerWord<'a>,
    /// From 1 to 64.
    pub shards: u32,
    pub moments: MomentField,
    /// The name of the register whose order is asked for.
    pub order: Option<&'a str>,
    pub form: ReportForm,
    /// Whether only the registers that fail have a record.
    pub only_failing: bool,
    pub demand: Demand,
    /// One or more.
    pub traces: Vec<&'a str>,
}

/// What `check` asks for by the arguments that `clap` found, or none.
pub(crate) fn check_of<'a>(
    alloc: Global,
    found: &ArgMatches<'a>,
) -> Result<Option<Check<'a>>, AllocError>
    ensures asks { IfOk result (λ check. option_map asked_check check ≡ check_by (rows_of (found_of found.now))) }
    ensures shards { IfOk result (λ check. IfSome check (λ check. (1 ≤ check.shards) × (check.shards ≤ 64))) }
    ensures traces { IfOk result (λ check. IfSome check (λ check. 0 < length check.traces.items)) }
{
    let Some(tower) = tower_of(found) else {
        return Ok(None);
    };
    let Some(shards) = shards_of(found) else {
        return Ok(None);
    };
    let Some(moments) = moments_of(found) else {
        return Ok(None);
    };
    let Some(form) = form_of(found) else {
        return Ok(None);
    };
    let Some(only_failing) = only_of(form, found) else {
        return Ok(None);
    };
    let Some(demand) = demand_of(found) else {
        return Ok(None);
    };
    let traces = traces_of(alloc, found)?;
    if traces.is_empty() {
        return Ok(None);
    }
    Ok(Some(Check {
        tower,
        shards,
        moments,
        order: found.get_str("order"),
        form,
        only_failing,
        demand,
        traces,
    }))
}

pub(crate) fn shards_of(found: &ArgMatches<'_>) -> Option<u32>
    ensures asks { result ≡ said_in shards_in (codes "shards") (rows_of (found_of found.now)) }
    ensures range { IfSome result (λ shards. (1 ≤ shards) × (shards ≤ 64)) }
{
    shards_in(found.get_str("shards")?)
}

fn shards_in(text: &str) -> Option<u32>
    ensures asks { result ≡ shards_in text.now }
    ensures range { IfSome result (λ shards. (1 ≤ shards) × (shards ≤ 64)) }
{
    match text.parse::<u32>() {
        Ok(shards) => {
            if 1 <= shards && shards <= 64 {
                Some(shards)
            } else {
                None
            }
        }
        Err(_) => None,
    }
}

pub(crate) fn moments_of(found: &ArgMatches<'_>) -> Option<MomentField>
    ensures { result ≡ said_in moments_in (codes "moment") (rows_of (found_of found.now)) }
{
    moments_in(found.get_str("moment")?)
}

fn moments_in(text: &str) -> Option<MomentField>
    ensures { result ≡ moments_in text.now }
{
    if text == "index" {
        Some(MomentField::Index)
    } else if text == "time" {
        Some(MomentField::Time)
    } else {
        None
    }
}

fn form_of(found: &ArgMatches<'_>) -> Option<ReportForm>
    ensures { result ≡ said_in form_in (codes "as") (rows_of (found_of found.now)) }
{
    form_in(found.get_str("as")?)
}

fn form_in(text: &str) -> Option<ReportForm>
    ensures { result ≡ form_in text.now }
{
    if text == "text" {
        Some(ReportForm::Report)
    } else if text == "summary" {
        Some(ReportForm::Summary)
    } else if text == "json" {
        Some(ReportForm::Json)
    } else if text == "edn" {
        Some(ReportForm::Edn)
    } else if text == "github" {
        Some(ReportForm::GitHub)
    } else if text == "junit" {
        Some(ReportForm::Junit)
    } else if text == "trace" {
        Some(ReportForm::Trace)
    } else {
        None
    }
}

fn only_of(form: ReportForm, found: &ArgMatches<'_>) -> Option<bool>
    ensures { result ≡ only_by form (rows_of (found_of found.now)) }
{
    match found.get_str("only") {
        Some(text) => only_in(form, text),
        None => Some(false),
    }
}

fn only_in(form: ReportForm, text: &str) -> Option<bool>
    ensures { result ≡ only_in form text.now }
{
    if text == "failing" && form.has_records() {
        Some(true)
    } else {
        None
    }
}

/// The number of the argument of this name.
pub(crate) fn count_of(found: &ArgMatches<'_>, name: &str) -> Option<u64>
    ensures { result ≡ said_in count_in name.now (rows_of (found_of found.now)) }
{
    count_in(found.get_str(name)?)
}

fn count_in(text: &str) -> Option<u64>
    ensures { result ≡ count_in text.now }
{
    match text.parse::<u64>() {
        Ok(count) => Some(count),
        Err(_) => None,
    }
}

pub(crate) fn traces_of<'a>(
    alloc: Global,
    found: &ArgMatches<'a>,
) -> Result<Vec<&'a str>, AllocError>
    ensures { IfOk result (λ traces. map (λ name. name.now) traces.items ≡ traces_in (rows_of (found_of found.now))) }
{
    match found.get_strs("TRACE") {
        Some(names) => copied(alloc, names),
        None => Ok(Vec::new(alloc)),
    }
}

fn copied<'a>(alloc: Global, names: &[&'a str]) -> Result<Vec<&'a str>, AllocError>
    ensures { IfOk result (λ copied. copied.items ≡ names.now) }
{
    let mut copied = Vec::new(alloc);
    copied.extend_from_slice(names)?;
    Ok(copied)
}
