//! The command `check`.

ghost use Rattle.std.specs.Prelude.{◌≡◌, ◌≢◌, ◌≤◌, ◌<◌, ℕ, List, Err, IfOk, IfErr, IfSome, IsOk, OnOk, length, map, string_bytes};
ghost use Rattle.std.specs.Io.KnownBytes.{Appends};
ghost use Rattle.report.specs.Finding.{IsOfTower};
ghost use Rattle.words.specs.Words.{asked_check, asked_tower};
ghost use Rattle.excerpt.specs.Excerpt.{IsTextOfExcerpt};
ghost use Rattle.records.specs.Run.{names_of};
ghost use Rattle.check_command.specs.Checked.{ArePrinted, IsChecked, IsPrintedForCi, IsPrintedIn, IsSummarised, advice_text, least_asked, moment_word, record_names, unreported};
ghost use Rattle.command_parts.specs.Files.{AreHeld};
ghost use Rattle.command_parts.specs.Tower.{OfTower};

use ci_forms::{CiForm, CiServer, write_for_ci};
use command_parts::{
    CommandFault, Files, Job, Judged, OpenedRun, judge, open_run, push_moment_words,
    push_tower_words, push_trace_words, status_after, write_bytes,
};
use excerpt::{ExcerptFault, excerpt_of};
use intervals::RegId;
use jepsen_form::MomentField;
use logs::Log;
use records::{Form, Notation, write_records};
use report::laws::a_run_is_of_its_tower;
use report::{Least, ReportFault, count_broken, count_refused, report, summary};
use std::alloc::{AllocError, Global};
use std::io::Write;
use std::mem::forget;
use std::sync::Wait;
use std::thread::Threads;
use tower_file::Tower;
use words::{Check, Demand, ReportForm};

/// Judges the registers of a tower by traces while these are read, and writes the report, also where a trace or its
/// reading breaks off. The faults come in this order: too many traces, the tower file, or a trace that cannot be read for
/// what it names, the register whose order is asked for, a trace that cannot be opened, the run, the writing. All traces
/// are opened before any is fed.
pub fn check<'a, A: AllocGlobal + Threads + Wait + Sync, F: Files, W: Write>(
    rt: &A,
    asked: &Check<'a>,
    files: &mut F,
    out: &mut W,
) -> Result<u8, CommandFault<'a>>
    requires shards { (1 ≤ asked.now.shards) × (asked.now.shards ≤ 64) }
    requires traces { 0 < length asked.now.traces.items }
    ensures checked { IfOk result (λ status. OfTower (asked_tower asked.entry.now.tower) (F.held files.old) (map (λ name. name.now) asked.entry.now.traces.items) (λ file. (traces : List (List ℕ))
        → AreHeld (F.held files.old) (map (λ name. name.now) asked.entry.now.traces.items) traces
        → IsChecked (asked_check asked.entry.now) file traces status (W.contents out.old) (W.contents out.new))) }
    ensures quiet { IfErr result (λ fault. fault ≢ CommandFault.Unwritable → out.new ≡ out.old) }
{
    let alloc = rt.alloc();
    let OpenedRun {
        tower,
        register,
        readers,
        pages,
    } = open_run(alloc, files, asked.tower, asked.order, &asked.traces)?;
    a_run_is_of_its_tower();
    let job = Job {
        rt,
        tower: &tower,
        pages: &pages,
        moments: asked.moments,
        shards: asked.shards,
    };
    let judged = match judge(&job, asked.form.names_lines(), readers) {
        Ok(judged) => judged,
        Err(fault) => return Err(CommandFault::of_run(fault)),
    };
    let Ok(status) = status_after(alloc, asked.demand, &tower, &judged.run) else {
        return Err(CommandFault::Memory);
    };
    let outcome = Outcome {
        tower: &tower,
        judged: &judged,
        status,
        order: register,
    };
    match print(rt, asked.form, asked, &outcome, out) {
        Ok(()) => {
            // The command is over: to free the run, node by node, would cost a tenth of its time.
            forget(judged);
            forget(pages);
            Ok(status)
        }
        Err(fault) => Err(fault),
    }
}

/// What comes of a report that was written, or was not.
fn reported<'a>(written: Result<(), ReportFault>) -> Result<(), CommandFault<'a>>
    ensures written { OnOk result (IsOk written) }
    ensures fault { IfErr result (λ fault. IfErr written (λ of. fault ≡ unreported of)) }
    ensures memory { IfErr result (λ fault. fault ≢ CommandFault.Unwritable → written ≡ Err ReportFault.Memory) }
{
    match written {
        Ok(()) => Ok(()),
        Err(fault) => Err(unreported(fault)),
    }
}

/// The fault of a command whose report was not written.
fn unreported<'a>(fault: ReportFault) -> CommandFault<'a>
    ensures own { result ≡ unreported fault }
    ensures quiet { result ≢ CommandFault.Unwritable → fault ≡ ReportFault.Memory }
{
    match fault {
        ReportFault::Memory => CommandFault::Memory,
        ReportFault::Write => CommandFault::Unwritable,
    }
}

/// What is printed: a run over the registers of a tower, the status, and the register whose order is asked for.
#[derive(Clone, Copy)]
struct Outcome<'f, 'x> {
    tower: &'x Tower,
    judged: &'f Judged<'x>,
    status: u8,
    order: Option<RegId>,
}

/// Writes what is asked for of a run: the report, the summary, the records, what a CI server reads, or the small trace.
fn print<'a, A: AllocGlobal + Threads + Wait + Sync, W: Write>(
    rt: &A,
    form: ReportForm,
    asked: &Check<'a>,
    outcome: &Outcome,
    out: &mut W,
) -> Result<(), CommandFault<'a>>
    requires of_tower { IsOfTower outcome.now.tower.now outcome.now.judged.now.run.closed }
    requires order { IfSome outcome.now.order (λ id. id.0 < length outcome.now.tower.now.registers) }
    ensures printed { OnOk result ((text : List ℕ) × IsPrintedIn form (asked_check asked.now) outcome.now.status outcome.now.tower.now outcome.now.judged.now.run.closed outcome.now.judged.now.run.logs.items outcome.now.order (map (λ text. text.items) outcome.now.judged.now.texts.items) text × Appends (W.contents out.old) (W.contents out.new) text) }
    ensures quiet { IfErr result (λ fault. fault ≢ CommandFault.Unwritable → out.new ≡ out.old) }
{
    let alloc = rt.alloc();
    let run = &outcome.judged.run;
    match form {
        ReportForm::Report => reported(report(rt, alloc, outcome.tower, run, outcome.order, out)),
        ReportForm::Summary => reported(print_summary(alloc, asked, outcome, out)),
        ReportForm::Json => reported(print_records(alloc, Notation::Json, asked, outcome, out)),
        ReportForm::Edn => reported(print_records(alloc, Notation::Edn, asked, outcome, out)),
        ReportForm::GitHub => reported(print_for_ci(alloc, CiServer::GitHub, asked, outcome, out)),
        ReportForm::Junit => reported(print_for_ci(alloc, CiServer::Junit, asked, outcome, out)),
        ReportForm::Trace => print_excerpt(rt, asked.moments, outcome, out),
    }
}

/// Writes the summary of a run, and the line that names a call of `lint`.
fn print_summary<W: Write>(
    alloc: Global,
    asked: &Check<'_>,
    outcome: &Outcome,
    out: &mut W,
) -> Result<(), ReportFault>
    requires of_tower { IsOfTower outcome.now.tower.now outcome.now.judged.now.run.closed }
    ensures printed { OnOk result ((text : List ℕ) × IsSummarised (asked_check asked.now) outcome.now.tower.now outcome.now.judged.now.run.closed outcome.now.judged.now.run.logs.items text × Appends (W.contents out.old) (W.contents out.new) text) }
    ensures memory { result ≡ Err ReportFault.Memory → out.new ≡ out.old }
{
    let run = &outcome.judged.run;
    let advice = advice_of(alloc, asked, &run.logs)?;
    let least = least_asked(asked.demand);
    summary(alloc, outcome.tower, run, least, &advice, out)
}

/// The line that names the call of `lint` which shows what was refused and what broke; empty where nothing was.
fn advice_of(alloc: Global, asked: &Check<'_>, logs: &[Log]) -> Result<String, AllocError>
    ensures { IfOk result (λ text. string_bytes text ≡ advice_text (asked_check asked.now) logs.now) }
{
    let mut text = String::new(alloc);
    if count_refused(logs) == 0 && count_broken(logs) == 0 {
        return Ok(text);
    }
    text.push_str("see: regaudit lint")?;
    push_tower_words(&mut text, asked.tower)?;
    push_moment_words(&mut text, asked.moments)?;
    push_trace_words(&mut text, &asked.traces)?;
    text.push_str("\n")?;
    Ok(text)
}

/// Writes the trace of the operations that show how the registers fail.
fn print_excerpt<'a, A: AllocGlobal + Wait, W: Write>(
    rt: &A,
    moments: MomentField,
    outcome: &Outcome,
    out: &mut W,
) -> Result<(), CommandFault<'a>>
    requires of_tower { IsOfTower outcome.now.tower.now outcome.now.judged.now.run.closed }
    ensures printed { OnOk result ((text : List ℕ) × IsTextOfExcerpt outcome.now.tower.now moments outcome.now.judged.now.run.closed text × Appends (W.contents out.old) (W.contents out.new) text) }
    ensures quiet { IfErr result (λ fault. fault ≢ CommandFault.Unwritable → out.new ≡ out.old) }
{
    let made = excerpt_of(
        rt,
        rt.alloc(),
        outcome.tower,
        &outcome.judged.run.closed,
        moments,
    );
    match made {
        Ok(text) => match write_bytes(out, &text) {
            Ok(()) => Ok(()),
            Err(_) => Err(CommandFault::Unwritable),
        },
        Err(ExcerptFault::Broken(fault)) => Err(CommandFault::of_run(fault)),
        Err(ExcerptFault::Unlike) => Err(CommandFault::Unlike),
    }
}

fn least_asked(demand: Demand) -> Least
    ensures { result ≡ least_asked demand }
{
    Least {
        all: demand.least,
        each: demand.least_each,
    }
}

/// Writes the records of a run.
fn print_records<W: Write>(
    alloc: Global,
    notation: Notation,
    asked: &Check<'_>,
    outcome: &Outcome,
    out: &mut W,
) -> Result<(), ReportFault>
    requires of_tower { IsOfTower outcome.now.tower.now outcome.now.judged.now.run.closed }
    requires order { IfSome outcome.now.order (λ id. id.0 < length outcome.now.tower.now.registers) }
    ensures printed { OnOk result ((text : List ℕ) × ArePrinted notation (asked_check asked.now) outcome.now.status outcome.now.tower.now outcome.now.judged.now.run.closed outcome.now.judged.now.run.logs.items outcome.now.order (map (λ text. text.items) outcome.now.judged.now.texts.items) text × Appends (W.contents out.old) (W.contents out.new) text) }
    ensures memory { result ≡ Err ReportFault.Memory → out.new ≡ out.old }
{
    let form = form_of(asked, notation, outcome);
    let judged = outcome.judged;
    write_records(alloc, &form, outcome.tower, &judged.run, &judged.texts, out)
}

/// Writes what a CI server reads of a run.
fn print_for_ci<W: Write>(
    alloc: Global,
    server: CiServer,
    asked: &Check<'_>,
    outcome: &Outcome,
    out: &mut W,
) -> Result<(), ReportFault>
    requires of_tower { IsOfTower outcome.now.tower.now outcome.now.judged.now.run.closed }
    ensures printed { OnOk result ((text : List ℕ) × IsPrintedForCi server (asked_check asked.now) outcome.now.tower.now outcome.now.judged.now.run.closed outcome.now.judged.now.run.logs.items (map (λ text. text.items) outcome.now.judged.now.texts.items) text × Appends (W.contents out.old) (W.contents out.new) text) }
    ensures memory { result ≡ Err ReportFault.Memory → out.new ≡ out.old }
{
    let form = ci_form_of(asked, server);
    let judged = outcome.judged;
    write_for_ci(alloc, &form, outcome.tower, &judged.run, &judged.texts, out)
}

fn ci_form_of<'b>(asked: &'b Check<'_>, server: CiServer) -> CiForm<'b>
    ensures server { result.server ≡ server }
    ensures traces { map (λ name. name.now) result.traces.now ≡ (asked_check asked.now).traces }
    ensures least { result.least ≡ least_asked asked.now.demand }
{
    CiForm {
        server,
        traces: &asked.traces,
        least: least_asked(asked.demand),
    }
}

fn form_of<'b>(asked: &'b Check<'_>, notation: Notation, outcome: &Outcome) -> Form<'b>
    ensures names { names_of result ≡ record_names (asked_check asked.now) }
    ensures notation { result.notation ≡ notation }
    ensures only { result.only_failing ≡ (asked_check asked.now).only_failing }
    ensures order { result.order ≡ outcome.now.order }
    ensures status { result.status ≡ outcome.now.status }
{
    Form {
        notation,
        only_failing: asked.only_failing,
        tower: asked.tower.file(),
        traces: &asked.traces,
        moments: moment_word(asked.moments),
        order: outcome.order,
        status: outcome.status,
        least: least_asked(asked.demand),
    }
}

fn moment_word(moments: MomentField) -> &'static str
    ensures { result.now ≡ moment_word moments }
{
    match moments {
        MomentField::Index => "index",
        MomentField::Time => "time",
    }
}
