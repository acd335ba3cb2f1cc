//! Writes what is amiss in a run for a CI server.

ghost use Rattle.std.specs.Prelude.{◌≡◌, ◌++◌, Err, IfOk, List, OnOk, ℕ, map, string_bytes};
ghost use Rattle.std.specs.Io.KnownBytes.{Appends};
ghost use Rattle.std.specs.List.{list_any};
ghost use Rattle.report.specs.Finding.{IsOfTower};
ghost use Rattle.report.specs.Summary.{is_failing};
ghost use Rattle.ci_forms.specs.Ci.{AreFailurePlaces, IsTextForCi, ci_text};
ghost use Rattle.ci_forms.specs.Facts.{facts_of};

use crate::github::push_github;
use crate::junit::push_junit;
use crate::told::{CiForm, CiRun, CiServer};
use logs::Run;
use places::Places;
use report::{Finding, ReportFault, doubts_of, failing_of, find_all};
use std::alloc::{AllocError, Global};
use std::io::Write;
use tower_file::Tower;

/// Writes what is amiss in a run over the registers of a tower, in one write and one flush. The run has to be of the
/// tower. The texts are those of the traces, by number, and give the lines of elements.
pub fn write_for_ci<'x, W: Write>(
    alloc: Global,
    form: &CiForm,
    tower: &Tower,
    run: &Run<'x>,
    texts: &[Vec<u8>],
    out: &mut W,
) -> Result<(), ReportFault>
    requires of_tower { IsOfTower tower.now run.now.closed }
    ensures text { OnOk result ((text : List ℕ) × IsTextForCi form.now.server (map (λ name. name.now) form.now.traces.now) form.now.least tower.now run.now.closed run.now.logs.items (map (λ text. text.items) texts.now) text × Appends (W.contents out.old) (W.contents out.new) text) }
    ensures memory { result ≡ Err ReportFault.Memory → out.new ≡ out.old }
{
    let text = text_for_ci(alloc, form, tower, run, texts)?;
    out.write_all(text.as_bytes())?;
    out.flush()?;
    Ok(())
}

fn text_for_ci<'x>(
    alloc: Global,
    form: &CiForm,
    tower: &Tower,
    run: &Run<'x>,
    texts: &[Vec<u8>],
) -> Result<String, AllocError>
    requires of_tower { IsOfTower tower.now run.now.closed }
    ensures { IfOk result (λ text. IsTextForCi form.now.server (map (λ name. name.now) form.now.traces.now) form.now.least tower.now run.now.closed run.now.logs.items (map (λ text. text.items) texts.now) (string_bytes text)) }
{
    let each = find_all(alloc, tower, &run.closed)?;
    let failing = failing_of(alloc, &each)?;
    let doubts = doubts_of(alloc, &each, &run.logs)?;
    let places = places_of(alloc, texts, &each)?;
    let told = CiRun {
        form,
        tower,
        each: &each,
        failing: &failing,
        doubts: &doubts,
        logs: &run.logs,
        places: &places,
    };
    let mut text = String::new(alloc);
    push_told(&mut text, alloc, form.server, &told)?;
    Ok(text)
}

fn push_told(
    text: &mut String,
    alloc: Global,
    server: CiServer,
    run: &CiRun,
) -> Result<(), AllocError>
    ensures { OnOk result (string_bytes text.new ≡ string_bytes text.old ++ ci_text server (facts_of run.now)) }
{
    match server {
        CiServer::GitHub => push_github(text, alloc, run),
        CiServer::Junit => push_junit(text, alloc, run),
    }
}

/// The places of elements in the texts; none where no register fails.
fn places_of<'t>(
    alloc: Global,
    texts: &'t [Vec<u8>],
    findings: &[Finding],
) -> Result<Places<'t>, AllocError>
    ensures { IfOk result (λ places. AreFailurePlaces (map (λ text. text.items) texts.entry.now) findings.now places) }
{
    if any_fails(findings) {
        Places::of(alloc, texts)
    } else {
        Ok(Places::unknown(alloc, texts))
    }
}

fn any_fails(findings: &[Finding]) -> bool
    ensures { result ≡ list_any is_failing findings.now }
{
    findings.iter().any(is_failing)
}

fn is_failing(finding: &Finding) -> bool
    ensures { result ≡ is_failing finding.now }
{
    finding.witness.is_some()
}
