//! The command `lint`.

ghost use Rattle.std.specs.Prelude.{◌≡◌, ◌≢◌, ◌≤◌, ◌⊎◌, ◌+◌, ◌++◌, ◌∷◌, [], ℕ, List, IfOk, IfErr, IfSome, Some, length, map, string_bytes, vec_len};
ghost use Rattle.clap.specs.Words.{Text};
ghost use Rattle.words.specs.Words.{asked_lint};
ghost use Rattle.lint_command.specs.Looked.{AreFindingsOfRun, AreOfNames, AreOfTower, IsLooked, IsOfFault, IsPrintedAsAsked, format_by};
ghost use Rattle.lint.specs.Tower.{HasNotesAlone, IsOneFault};
ghost use Rattle.lint.specs.declared.finding.TraceFindings.{TraceFindings};
ghost use Rattle.command_parts.specs.Complaint.{IsWithCause};
ghost use Rattle.command_parts.specs.Files.{AreHeld};

use crate::deny::denied_codes;
use crate::linting::lint;
use command_parts::{
    CommandFault, Files, TRACE_LIMIT, read_file, read_files, tower_in, write_text,
};
use intervals::Kind;
use lint::{Findings, Format, SourceText, lint_fault, lint_tower, push_findings};
use std::alloc::{AllocError, Global};
use std::io::Write;
use std::sync::Wait;
use tower_file::{LocatedFault, Tower, TowerFault};
use words::{Lint, LintForm, TowerWord};

/// What is printed, and the status.
#[derive(Drop)]
struct Printout {
    text: String,
    status: u8,
}

/// Finds what is amiss in a tower file and in traces, which are read in turn, and writes it. Where the tower file has a
/// fault, no trace is looked at, though all are read. The faults come in this order: too many traces, a code that is no
/// note's, the tower file or a trace that cannot be read, the run, the writing.
pub fn look<'a, A: AllocGlobal + Wait, F: Files, W: Write>(
    rt: &A,
    asked: &Lint<'a>,
    files: &mut F,
    out: &mut W,
) -> Result<u8, CommandFault<'a>>
    ensures looked { IfOk result (λ status. (traces : List (List ℕ)) → AreHeld (F.held files.old) (map (λ name. name.now) asked.entry.now.traces.items) traces
        → IsLooked (asked_lint asked.entry.now) (F.held files.old) traces status (W.contents out.old) (W.contents out.new)) }
    ensures quiet { IfErr result (λ fault. fault ≢ CommandFault.Unwritable → out.new ≡ out.old) }
{
    if asked.traces.len() > TRACE_LIMIT {
        return Err(CommandFault::TooManyTraces);
    }
    let alloc = rt.alloc();
    let denied = denied_codes(alloc, asked.denied)?;
    let file = read_named(alloc, files, asked.tower.file())?;
    let texts = read_traces(alloc, files, &asked.traces)?;
    let Ok(slices) = slices_of(alloc, &texts) else {
        return Err(CommandFault::Memory);
    };
    let told = match asked.tower {
        TowerWord::Each(kind) => tell_named(rt, asked, kind, &slices, &denied)?,
        TowerWord::File(name) => {
            let file = SourceText { name, text: &file };
            tell_by(rt, asked, &file, &slices, &denied)?
        }
    };
    match write_text(out, told.text.as_str()) {
        Ok(()) => Ok(told.status),
        Err(_) => Err(CommandFault::Unwritable),
    }
}

/// The bytes of the file that is named; empty where none is.
fn read_named<'a, F: Files>(
    alloc: Global,
    files: &mut F,
    name: Option<&'a str>,
) -> Result<Vec<u8>, CommandFault<'a>>
    ensures held { IfOk result (λ bytes. IfSome name.entry (λ name. IfSome (F.held files.old name.now) (λ known. bytes.items ≡ known))) }
    ensures stays { F.held files.new ≡ F.held files.old }
    ensures quiet { IfErr result (λ fault. fault ≢ CommandFault.Unwritable) }
{
    let Some(name) = name else {
        return Ok(Vec::new(alloc));
    };
    match read_file(alloc, files, name) {
        Ok(bytes) => Ok(bytes),
        Err(fault) => Err(with_cause(files, fault)),
    }
}

/// All the bytes of each trace, in order.
fn read_traces<'a, F: Files>(
    alloc: Global,
    files: &mut F,
    names: &[&'a str],
) -> Result<Vec<Vec<u8>>, CommandFault<'a>>
    ensures held { IfOk result (λ texts. (known : List (List ℕ)) → AreHeld (F.held files.old) (map (λ name. name.now) names.entry.now) known → map (λ text. Some text.items) texts.items ≡ map (λ text. Some text) known) }
    ensures many { IfOk result (λ texts. vec_len texts ≡ length names.entry.now) }
    ensures stays { F.held files.new ≡ F.held files.old }
    ensures quiet { IfErr result (λ fault. fault ≢ CommandFault.Unwritable) }
{
    match read_files(alloc, files, names) {
        Ok(texts) => Ok(texts),
        Err(fault) => Err(with_cause(files, fault)),
    }
}

/// The fault, with why the file cannot be read where it is that, and the machine knows.
fn with_cause<'a, F: Files>(files: &mut F, fault: CommandFault<'a>) -> CommandFault<'a>
    ensures told { IsWithCause fault.entry result }
    ensures stays { F.held files.new ≡ F.held files.old }
{
    match fault {
        CommandFault::Unreadable(name) => match files.cause(name) {
            Some(cause) => CommandFault::UnreadableFor(name, cause),
            None => CommandFault::Unreadable(name),
        },
        fault => fault,
    }
}

/// What is found in the traces by the tower of the registers that they name, each of this kind.
fn tell_named<'a, A: AllocGlobal + Wait>(
    rt: &A,
    asked: &Lint<'a>,
    kind: Kind,
    slices: &[&[u8]],
    denied: &[&str],
) -> Result<Printout, CommandFault<'a>>
    requires most { length slices.now ≤ 256 }
    requires names { length asked.now.traces.items ≡ length slices.now }
    ensures told { IfOk result (λ told. (found : List TraceFindings)
        × AreOfNames kind asked.now.moments (map (λ slice. slice.now) slices.entry.now) found
        × IsPrintedAsAsked (asked_lint asked.now) denied.entry.now (asked_lint asked.now).traces found (string_bytes told.text) told.status) }
    ensures quiet { IfErr result (λ fault. fault ≢ CommandFault.Unwritable) }
{
    let alloc = rt.alloc();
    let tower = tower_in(alloc, kind, slices)?;
    let found = findings(rt, asked, &tower, slices)?;
    let Ok(sources) = sources_of(alloc, &asked.traces, slices) else {
        return Err(CommandFault::Memory);
    };
    tell(alloc, asked, &sources, &found, denied)
}

/// What is found in the traces by the tower that a file says, and in that file; or the file's fault.
fn tell_by<'a, A: AllocGlobal + Wait>(
    rt: &A,
    asked: &Lint<'a>,
    file: &SourceText,
    slices: &[&[u8]],
    denied: &[&str],
) -> Result<Printout, CommandFault<'a>>
    requires most { length slices.now ≤ 256 }
    requires names { length asked.now.traces.items ≡ length slices.now }
    ensures told { IfOk result (λ told. (names : List Text) × (found : List TraceFindings)
        × (AreOfTower (asked_lint asked.now) file.now.name.now file.now.text.now (map (λ slice. slice.now) slices.entry.now) names found ⊎ IsOfFault file.now.name.now file.now.text.now names found)
        × IsPrintedAsAsked (asked_lint asked.now) denied.entry.now names found (string_bytes told.text) told.status) }
    ensures quiet { IfErr result (λ fault. fault ≢ CommandFault.Unwritable) }
{
    match Tower::read_located(rt.alloc(), file.text) {
        Ok(tower) => tell_tower(rt, asked, &tower, file, slices, denied),
        Err(located) => tell_fault(rt.alloc(), asked, located, file, denied),
    }
}

/// What is found in the traces by a tower, and the notes on its file.
fn tell_tower<'a, A: AllocGlobal + Wait>(
    rt: &A,
    asked: &Lint<'a>,
    tower: &Tower,
    file: &SourceText,
    slices: &[&[u8]],
    denied: &[&str],
) -> Result<Printout, CommandFault<'a>>
    requires most { length slices.now ≤ 256 }
    requires names { length asked.now.traces.items ≡ length slices.now }
    ensures told { IfOk result (λ told. (in_traces : List TraceFindings) × (in_file : List TraceFindings)
        × AreFindingsOfRun tower.now asked.now.moments (map (λ slice. slice.now) slices.entry.now) in_traces × HasNotesAlone in_file
        × IsPrintedAsAsked (asked_lint asked.now) denied.entry.now ((asked_lint asked.now).traces ++ file.now.name.now ∷ []) (in_traces ++ in_file) (string_bytes told.text) told.status) }
    ensures quiet { IfErr result (λ fault. fault ≢ CommandFault.Unwritable) }
{
    let alloc = rt.alloc();
    let mut found = findings(rt, asked, tower, slices)?;
    let Ok(in_file) = lint_tower(alloc, file.text, &found) else {
        return Err(CommandFault::Memory);
    };
    let Ok(()) = found.append(in_file) else {
        return Err(CommandFault::Memory);
    };
    let Ok(sources) = with_file(alloc, &asked.traces, slices, file) else {
        return Err(CommandFault::Memory);
    };
    tell(alloc, asked, &sources, &found, denied)
}

/// The fault of a tower file, which is all that is found.
fn tell_fault<'a>(
    alloc: Global,
    asked: &Lint<'a>,
    located: LocatedFault,
    file: &SourceText,
    denied: &[&str],
) -> Result<Printout, CommandFault<'a>>
    ensures told { IfOk result (λ told. (found : List TraceFindings) × (located.fault ≢ TowerFault.Memory) × IsOneFault file.now.text.now located.fault located.span found
        × IsPrintedAsAsked (asked_lint asked.now) denied.entry.now (file.now.name.now ∷ []) found (string_bytes told.text) told.status) }
    ensures quiet { IfErr result (λ fault. fault ≢ CommandFault.Unwritable) }
{
    if located.fault == TowerFault::Memory {
        return Err(CommandFault::Memory);
    }
    let Ok(found) = lint_fault(alloc, file.text, located.fault, located.span) else {
        return Err(CommandFault::Memory);
    };
    let Ok(sources) = sources_of(alloc, &[file.name], &[file.text]) else {
        return Err(CommandFault::Memory);
    };
    tell(alloc, asked, &sources, &found, denied)
}

/// The findings in these files in the form that is asked for, and the status.
fn tell<'a>(
    alloc: Global,
    asked: &Lint<'a>,
    sources: &[SourceText],
    found: &Findings,
    denied: &[&str],
) -> Result<Printout, CommandFault<'a>>
    requires each { length sources.now ≡ length found.now.traces.items }
    ensures told { IfOk result (λ told. IsPrintedAsAsked (asked_lint asked.now) denied.entry.now (map (λ source. source.name.now) sources.now) found.now.traces.items (string_bytes told.text) told.status) }
    ensures quiet { IfErr result (λ fault. fault ≢ CommandFault.Unwritable) }
{
    let mut text = String::new(alloc);
    let form = form_of(asked.form, asked.most as usize);
    match push_findings(&mut text, alloc, sources, found, form) {
        Ok(()) => Ok(Printout {
            text,
            status: found.status(denied),
        }),
        Err(_) => Err(CommandFault::Memory),
    }
}

/// What is found in the traces, of which there may be none.
fn findings<'a, A: AllocGlobal + Wait>(
    rt: &A,
    asked: &Lint<'a>,
    tower: &Tower,
    slices: &[&[u8]],
) -> Result<Findings, CommandFault<'a>>
    requires most { length slices.now ≤ 256 }
    ensures found { IfOk result (λ found. AreFindingsOfRun tower.now asked.now.moments (map (λ slice. slice.now) slices.entry.now) found.traces.items) }
    ensures quiet { IfErr result (λ fault. fault ≢ CommandFault.Unwritable) }
{
    let alloc = rt.alloc();
    if slices.is_empty() {
        return Ok(Findings {
            traces: Vec::new(alloc),
            unused: Vec::new(alloc),
        });
    }
    match lint(rt, alloc, tower, slices, asked.moments) {
        Ok(found) => Ok(found),
        Err(fault) => Err(CommandFault::of_run(fault)),
    }
}

fn slices_of(alloc: Global, texts: &[Vec<u8>]) -> Result<Vec<&[u8]>, AllocError>
    ensures { IfOk result (λ slices. map (λ slice. slice.now) slices.items ≡ map (λ text. text.items) texts.now) }
{
    let mut slices = Vec::new(alloc);
    for number in 0..texts.len() {
        slices.push(texts[number].as_slice())?;
    }
    Ok(slices)
}

/// The files with their names, and this file after them.
fn with_file<'t>(
    alloc: Global,
    names: &[&'t str],
    slices: &[&'t [u8]],
    file: &SourceText<'t>,
) -> Result<Vec<SourceText<'t>>, AllocError>
    requires { length names.now ≡ length slices.now }
    ensures many { IfOk result (λ sources. length sources.items ≡ length slices.entry.now + 1) }
    ensures names { IfOk result (λ sources. map (λ source. source.name.now) sources.items ≡ map (λ name. name.now) names.entry.now ++ file.now.name.now ∷ []) }
{
    let mut sources = sources_of(alloc, names, slices)?;
    sources.push(*file)?;
    Ok(sources)
}

/// The files with their names.
fn sources_of<'t>(
    alloc: Global,
    names: &[&'t str],
    slices: &[&'t [u8]],
) -> Result<Vec<SourceText<'t>>, AllocError>
    requires { length names.now ≡ length slices.now }
    ensures many { IfOk result (λ sources. length sources.items ≡ length slices.entry.now) }
    ensures names { IfOk result (λ sources. map (λ source. source.name.now) sources.items ≡ map (λ name. name.now) names.entry.now) }
{
    let mut sources = Vec::new(alloc);
    for number in 0..names.len() {
        sources.push(SourceText {
            name: names[number],
            text: slices[number],
        })?;
    }
    Ok(sources)
}

/// The form that is asked for; that for people with the limit that is asked for.
fn form_of(form: LintForm, most: usize) -> Format
    ensures { result ≡ format_by form most }
{
    match form {
        LintForm::Human => Format::Human(most),
        LintForm::Short => Format::Short,
        LintForm::GitHub => Format::Github,
        LintForm::Json => Format::Json,
    }
}
