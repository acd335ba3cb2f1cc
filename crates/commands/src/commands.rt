//! A run of the program: its words, its command and its status.

ghost use Rattle.std.specs.Prelude.{◌≡◌, ◌≢◌, ℕ, List, IsErr, IfOk, IfErr, IfSome, MatchResult, None, false, is_some, map};
ghost use Rattle.std.specs.List.{list_any};
ghost use Rattle.std.specs.Result.{IsOkAnd};
ghost use Rattle.std.specs.Io.KnownBytes.{Keeps};
ghost use Rattle.words.specs.Words.{HasShards, HasTraces, Safe, asked, asked_keys, asked_of, colours_asked};
ghost use Rattle.command_parts.specs.Files.{AreHeld};
ghost use Rattle.command_parts.specs.Status.{status_of};
ghost use Rattle.check_command.specs.Verdict.{IsAudited};
ghost use Rattle.commands.specs.Run.{IsListed, IsNaming, IsCarriedOut, IsDone, IsInColours, IsCarriedOutIn, IsWatch, WantInput, WritesWhole, is_coloured};

use crate::print::{explain, print, print_manual};
use check_command::{check, safe};
use colours::paint;
use command_parts::{
    BROKEN, CommandFault, Files, has_fault, open_file, read_tower, say, say_faults, status_of,
    write_bytes, write_names,
};
use edn_reader::EdnFault;
use keys::NameClaim;
use lint_command::look;
use report::tower_text;
use show_command::draw;
use std::alloc::Global;
use std::convert::AsStr;
use std::env::VarError;
use std::io::{IsTerminal, Read, Write};
use std::rt::Env;
use std::sync::Wait;
use std::thread::Threads;
use std::{env, io};
use texts::VERSION;
use watch_command::follow;
use words::{ColourWord, Command, Keys, read_words};

/// Carries out the command that the words ask for. The words are as the system hands them over; the first is the
/// program's name. What is found goes to `out`; `shows` is whether that shows colours, as a terminal does. The status is
/// 2 where a trace or its reading broke off, whose line or report is written nevertheless, else 1 where a register fails,
/// else 3 where an element was refused, else 4 where fewer operations stand than are asked for, else 0; that of `lint`
/// goes by the grades of what it found. It is 2, too, where `err` says why there is no report: the words ask for no
/// command or are no text, a file cannot be opened or read or has a fault, memory was refused, or `out` could not be
/// written. The memory of the run is left to the process, which is to end next.
pub fn run<
    A: AllocGlobal + Threads + Wait + Sync,
    S: AsStr + Drop,
    F: Files,
    R: Read + Send,
    W: Write + Send,
    E: Write,
>(
    rt: &A,
    words: io::Result<Vec<S>>,
    shows: bool,
    files: &mut F,
    input: &mut R,
    out: &mut W,
    err: &mut E,
) -> u8
    ensures done { result ≢ BROKEN → IsOkAnd words (λ words. IsDone (map S.text words.items) shows (F.held files.old) (R.remaining input.old) result (W.contents out.old) (W.contents out.new)) }
    ensures silent { result ≢ BROKEN → Keeps (E.contents err.old) (E.contents err.new) }
    ensures input { IfOk words (λ words. ¬ WantInput (map S.text words.items) → input.new ≡ input.old) }
    ensures unread { IsErr words → (out.new ≡ out.old) × (input.new ≡ input.old) }
{
    match words {
        Ok(words) => {
            let outcome = run_words(rt, words.as_slice(), shows, files, input, out, err);
            conclude(rt, outcome, err)
        }
        Err(error) => conclude(rt, Err(CommandFault::of_unread(rt.alloc(), error)), err),
    }
}

/// Carries out `safe` on standard input.
pub fn run_safe<A: AllocGlobal + Threads + Wait + Sync, R: Read + Send, W: Write, E: Write>(
    rt: &A,
    input: &mut R,
    out: &mut W,
    err: &mut E,
) -> u8
    ensures line { result ≢ BROKEN → IfSome (R.remaining input.old) (λ bytes. IsAudited bytes result (W.contents out.old) (W.contents out.new)) }
    ensures silent { result ≢ BROKEN → Keeps (E.contents err.old) (E.contents err.new) }
{
    let outcome = safe(rt, input, out);
    conclude(rt, outcome, err)
}

/// The status of a run. Why a run broke off is written to standard error.
pub fn conclude<'a, A: AllocGlobal, E: Write>(
    rt: &A,
    outcome: Result<u8, CommandFault<'a>>,
    err: &mut E,
) -> u8
    ensures { MatchResult outcome.entry (λ status. (result ≡ status) × Keeps (E.contents err.old) (E.contents err.new)) (λ fault. result ≡ BROKEN) }
{
    match outcome {
        Ok(status) => status,
        Err(fault) => {
            say(rt.alloc(), fault, err);
            BROKEN
        }
    }
}

/// Carries out what the words ask for. Where the run breaks off `out` is as it was, unless `out` could not be written, or
/// a watch wrote whole notices before; why is left to say. Which traces `keys` names in part alone goes to `err`.
pub fn run_words<
    'a,
    A: AllocGlobal + Threads + Wait + Sync,
    S: AsStr,
    F: Files,
    R: Read + Send,
    W: Write + Send,
    E: Write,
>(
    rt: &A,
    words: &'a [S],
    shows: bool,
    files: &mut F,
    input: &mut R,
    out: &mut W,
    err: &mut E,
) -> Result<u8, CommandFault<'a>>
    ensures done { IfOk result (λ status. IsDone (map S.text words.entry.now) shows (F.held files.old) (R.remaining input.old) status (W.contents out.old) (W.contents out.new)) }
    ensures silent { IfOk result (λ status. status ≢ BROKEN → Keeps (E.contents err.old) (E.contents err.new)) }
    ensures input { ¬ WantInput (map S.text words.entry.now) → input.new ≡ input.old }
    ensures quiet { IfErr result (λ fault. fault ≢ CommandFault.Unwritable → IfSome (asked (map S.text words.entry.now)) (λ command. ¬ IsWatch command) → out.new ≡ out.old) }
    ensures whole { IfErr result (λ fault. fault ≢ CommandFault.Unwritable → IfSome (asked (map S.text words.entry.now)) (λ command. WritesWhole command (F.held files.old) (W.contents out.old) (W.contents out.new))) }
{
    match read_words(rt.alloc(), words) {
        Ok(command) => run_command(rt, command, shows, files, input, out, err),
        Err(error) => Err(CommandFault::of_words(error)),
    }
}

#[tactic(auto, using(crate::proofs::Endings::as_before))]
fn run_command<
    'a,
    A: AllocGlobal + Threads + Wait + Sync,
    F: Files,
    R: Read + Send,
    W: Write + Send,
    E: Write,
>(
    rt: &A,
    command: Command<'a>,
    shows: bool,
    files: &mut F,
    input: &mut R,
    out: &mut W,
    err: &mut E,
) -> Result<u8, CommandFault<'a>>
    requires shards { HasShards command }
    requires traces { HasTraces command }
    ensures done { IfOk result (λ status. IsCarriedOutIn (is_coloured shows (colours_asked (asked_of command.entry))) (asked_of command.entry) (F.held files.old) (R.remaining input.old) status (W.contents out.old) (W.contents out.new)) }
    ensures silent { IfOk result (λ status. status ≢ BROKEN → Keeps (E.contents err.old) (E.contents err.new)) }
    ensures input { asked_of command.entry ≢ Safe None → input.new ≡ input.old }
    ensures quiet { IfErr result (λ fault. fault ≢ CommandFault.Unwritable → ¬ IsWatch (asked_of command.entry) → out.new ≡ out.old) }
    ensures whole { IfErr result (λ fault. fault ≢ CommandFault.Unwritable → WritesWhole (asked_of command.entry) (F.held files.old) (W.contents out.old) (W.contents out.new)) }
{
    if is_coloured(shows, command.colours()) {
        run_in_colours(rt, command, files, input, out, err)
    } else {
        carry_out(rt, command, files, input, out, err)
    }
}

/// Whether what is printed is in colours, to an output that shows them or not.
fn is_coloured(shows: bool, asked: ColourWord) -> bool
    ensures { result ≡ is_coloured shows asked }
{
    match asked {
        ColourWord::Auto => shows,
        ColourWord::Always => true,
        ColourWord::Never => false,
    }
}

/// Carries out a command, and writes what it printed in colours.
#[tactic(auto, using(crate::proofs::Colouring::in_colours))]
fn run_in_colours<
    'a,
    A: AllocGlobal + Threads + Wait + Sync,
    F: Files,
    R: Read + Send,
    W: Write,
    E: Write,
>(
    rt: &A,
    command: Command<'a>,
    files: &mut F,
    input: &mut R,
    out: &mut W,
    err: &mut E,
) -> Result<u8, CommandFault<'a>>
    requires shards { HasShards command }
    requires traces { HasTraces command }
    ensures done { IfOk result (λ status. IsInColours (asked_of command.entry) (F.held files.old) (R.remaining input.old) status (W.contents out.old) (W.contents out.new)) }
    ensures silent { IfOk result (λ status. status ≢ BROKEN → Keeps (E.contents err.old) (E.contents err.new)) }
    ensures input { asked_of command.entry ≢ Safe None → input.new ≡ input.old }
    ensures quiet { IfErr result (λ fault. fault ≢ CommandFault.Unwritable → out.new ≡ out.old) }
{
    let mut text = Vec::new(rt.alloc());
    let status = match carry_out(rt, command, files, input, &mut text, err) {
        Ok(status) => status,
        Err(CommandFault::Unwritable) => return Err(CommandFault::Memory),
        Err(fault) => return Err(fault),
    };
    let Ok(painted) = paint(rt.alloc(), &text) else {
        return Err(CommandFault::Memory);
    };
    match write_bytes(out, &painted) {
        Ok(()) => Ok(status),
        Err(_) => Err(CommandFault::Unwritable),
    }
}

fn carry_out<
    'a,
    A: AllocGlobal + Threads + Wait + Sync,
    F: Files,
    R: Read + Send,
    W: Write + Send,
    E: Write,
>(
    rt: &A,
    command: Command<'a>,
    files: &mut F,
    input: &mut R,
    out: &mut W,
    err: &mut E,
) -> Result<u8, CommandFault<'a>>
    requires shards { HasShards command }
    requires traces { HasTraces command }
    ensures done { IfOk result (λ status. IsCarriedOut (asked_of command.entry) (F.held files.old) (R.remaining input.old) status (W.contents out.old) (W.contents out.new)) }
    ensures silent { IfOk result (λ status. status ≢ BROKEN → Keeps (E.contents err.old) (E.contents err.new)) }
    ensures input { asked_of command.entry ≢ Safe None → input.new ≡ input.old }
    ensures quiet { IfErr result (λ fault. fault ≢ CommandFault.Unwritable → ¬ IsWatch (asked_of command.entry) → out.new ≡ out.old) }
    ensures whole { IfErr result (λ fault. fault ≢ CommandFault.Unwritable → WritesWhole (asked_of command.entry) (F.held files.old) (W.contents out.old) (W.contents out.new)) }
{
    match &command {
        Command::Safe(None) => safe(rt, input, out),
        Command::Safe(Some(name)) => safe(rt, open_file(files, name)?, out),
        Command::Check(asked) => check(rt, asked, files, out),
        Command::Watch(asked) => follow(rt, asked, files, out),
        Command::Show(asked) => draw(rt, asked, files, out),
        Command::Lint(asked) => look(rt, asked, files, out),
        Command::Keys(asked) => name_keys(rt, asked, files, out, err),
        Command::Tower(name) => list(rt, name, files, out),
        Command::Explain(code, _) => explain(rt.alloc(), *code, out),
        Command::Version => print(VERSION, out),
        Command::Manual => print_manual(rt.alloc(), out),
        Command::Completion(shell) => print(shell.script(), out),
    }
}

/// Writes the tower file of the registers that traces name, and a line for each trace that is named in part alone.
fn name_keys<'a, A: AllocGlobal, F: Files, W: Write, E: Write>(
    rt: &A,
    asked: &Keys<'a>,
    files: &mut F,
    out: &mut W,
    err: &mut E,
) -> Result<u8, CommandFault<'a>>
    ensures naming { IfOk result (λ status. (traces : List (List ℕ)) → AreHeld (F.held files.old) (map (λ name. name.now) asked.entry.now.traces.items) traces
        → IsNaming (asked_keys asked.entry.now) traces status (W.contents out.old) (W.contents out.new)) }
    ensures silent { IfOk result (λ status. status ≢ BROKEN → Keeps (E.contents err.old) (E.contents err.new)) }
    ensures quiet { IfErr result (λ fault. fault ≢ CommandFault.Unwritable → out.new ≡ out.old) }
{
    let claim = NameClaim {
        kind: asked.kind,
        initial: asked.initial,
        any_writes: asked.any_writes,
    };
    let written = write_names(rt.alloc(), files, &claim, &asked.traces)?;
    match write_bytes(out, &written.file) {
        Ok(()) => Ok(status_of_names(rt.alloc(), &asked.traces, &written.faults, err)),
        Err(_) => Err(CommandFault::Unwritable),
    }
}

/// The status by the first faults of the traces, each of which gets a line.
fn status_of_names<E: Write>(
    alloc: Global,
    traces: &[&str],
    faults: &[Option<EdnFault>],
    err: &mut E,
) -> u8
    ensures status { result ≡ status_of (list_any is_some faults.now) false false false }
    ensures silent { result ≢ BROKEN → err.new ≡ err.old }
{
    if has_fault(faults) {
        say_faults(alloc, traces, faults, err);
        return BROKEN;
    }
    status_of(false, false, false, false)
}

/// Reads a tower file and writes the lines of its registers.
fn list<'a, A: AllocGlobal, F: Files, W: Write>(
    rt: &A,
    name: &'a str,
    files: &mut F,
    out: &mut W,
) -> Result<u8, CommandFault<'a>>
    ensures listed { IfOk result (λ status. IfSome (F.held files.old name.entry.now) (λ bytes. IsListed bytes status (W.contents out.old) (W.contents out.new))) }
    ensures quiet { IfErr result (λ fault. fault ≢ CommandFault.Unwritable → out.new ≡ out.old) }
{
    let tower = read_tower(rt.alloc(), files, name)?;
    let Ok(text) = tower_text(rt.alloc(), &tower) else {
        return Err(CommandFault::Memory);
    };
    print(text.as_str(), out)
}

/// The words of the command line; the first is the program's name.
pub fn words_of<R: Env + AllocGlobal>(rt: &R) -> io::Result<Vec<String>> {
    Ok(env::args(rt)?.collect(rt.alloc())?)
}

/// Whether an output shows colours: it is a terminal, and `NO_COLOR` is not set, or empty.
pub fn shows_colours<R: Env + AllocGlobal, T: IsTerminal>(rt: &R, out: &T) -> bool {
    out.is_terminal()
        && match env::var(rt, "NO_COLOR") {
            Ok(value) => value.is_empty(),
            Err(error) => matches!(error, VarError::NotPresent),
        }
}
