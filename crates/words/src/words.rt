//! Reads the words of the command line.

ghost use Rattle.std.specs.Prelude.{◌≡◌, ◌⊎◌, [], true, false, None, Some, IfOk, IfErr, IfSome, codes, map};
ghost use Rattle.std.specs.Option.{option_map};
ghost use Rattle.std.specs.Str.{bytes_eq};
ghost use Rattle.clap.specs.Words.{found_of, rows_of, subcommand_of, subcommand_rows_of, takes};
ghost use Rattle.clap.specs.Values.{kind_of};
ghost use Rattle.clap.specs.Faults.{fault_of};
ghost use Rattle.clap.specs.declared.error.kind.ErrorKind.TheVariants.{OutOfMemory};
ghost use Rattle.words.specs.Completion.{shell_named};
ghost use Rattle.words.specs.Words.{Check as ACheck, HasShards, HasTraces, IsWellFormed, Keys as AKeys, Lint as ALint, Show as AShow, Watch as AWatch, ask_version, asked, asked_by, asked_of, check_by, colours_asked, command_by, command_line, is_version_word, keys_by, lint_by, said_in, show_by, watch_by};

use crate::check::{Check, check_of};
use crate::cli::{Vocabulary, command_line, command_named};
use crate::colour::{ColourWord, colours_of};
use crate::completion::Shell;
use crate::keys::{Keys, keys_initial, keys_of};
use crate::lint::{Lint, is_for_people, lint_form_of, lint_of};
use crate::show::{Show, show_of};
use crate::watch::{Watch, watch_of};
use clap::error::ErrorKind;
use clap::{ArgMatches, Error};
use std::alloc::{AllocError, Global};
use std::convert::AsStr;

/// A command with what it asks for.
#[derive(Drop)]
pub enum Command<'a> {
    /// Judges the trace that is named, or standard input.
    Safe(Option<&'a str>),
    /// Judges traces by a tower.
    Check(Check<'a>),
    /// Judges traces by a tower while they are read.
    Watch(Watch<'a>),
    /// Draws a register.
    Show(Show<'a>),
    /// Finds what is amiss in a tower file and in traces.
    Lint(Lint<'a>),
    /// Writes the tower file of the registers that traces name.
    Keys(Keys<'a>),
    /// Lists the registers of the tower file that is named.
    Tower(&'a str),
    /// Says what a code or a word of the report means, or lists all of them.
    Explain(Option<&'a str>, ColourWord),
    Version,
    /// Prints the help of all commands.
    Manual,
    Completion(Shell),
}

impl Command<'_> {
    /// The colours that the command asks for; none but `show`, `lint` and `explain` has any.
    pub fn colours(&self) -> ColourWord
        ensures { result ≡ colours_asked (asked_of self.now) }
    {
        match self {
            Command::Show(show) => show.colours,
            Command::Lint(lint) => lint.colours,
            Command::Explain(_, colours) => *colours,
            _ => ColourWord::Never,
        }
    }
}

/// The command that words ask for; the first word is the program's name. The error's text is for standard error.
pub fn read_words<'a, S: AsStr>(alloc: Global, words: &'a [S]) -> Result<Command<'a>, Error>
    ensures asks { IfOk result (λ command. asked (map S.text words.entry.now) ≡ Some (asked_of command)) }
    ensures passes { IfErr result (λ error. takes command_line (map S.text words.entry.now) ≡ true → (asked (map S.text words.entry.now) ≡ None) ⊎ (kind_of error ≡ OutOfMemory)) }
    ensures refuses { IfOk result (λ command. IsWellFormed (map S.text words.entry.now)) }
    ensures shards { IfOk result HasShards }
    ensures traces { IfOk result HasTraces }
{
    if is_for_version(words) {
        return Ok(Command::Version);
    }
    read_command(alloc, words)
}

/// Whether the one word after the program's name asks for the version.
fn is_for_version<S: AsStr>(words: &[S]) -> bool
    ensures { result ≡ ask_version (map S.text words.now) }
{
    match words {
        [_, word] => is_version_word(word.as_str()),
        _ => false,
    }
}

fn is_version_word(word: &str) -> bool
    ensures { result ≡ is_version_word word.now }
{
    word == "--version" || word == "-V"
}

/// The command that `clap` finds in words.
fn read_command<'a, S: AsStr>(alloc: Global, words: &'a [S]) -> Result<Command<'a>, Error>
    ensures asks { IfOk result (λ command. asked_by (subcommand_of command_line (map S.text words.entry.now)) ≡ Some (asked_of command)) }
    ensures passes { IfErr result (λ error. takes command_line (map S.text words.entry.now) ≡ true → (asked_by (subcommand_of command_line (map S.text words.entry.now)) ≡ None) ⊎ (kind_of error ≡ OutOfMemory)) }
    ensures refuses { IfOk result (λ command. fault_of command_line (map S.text words.entry.now) ≡ []) }
    ensures shards { IfOk result HasShards }
    ensures traces { IfOk result HasTraces }
{
    let mut line = command_line(alloc, Vocabulary::Open)?;
    let matches = match line.try_get_matches_from_mut(words) {
        Ok(matches) => matches,
        Err(error) => return Err(error),
    };
    match command_of(alloc, &matches)? {
        Some(command) => Ok(command),
        None => Err(refused(alloc, words)?),
    }
}

/// The fault where a word is not UTF-8.
pub fn no_text(alloc: Global) -> Error {
    match usage_fault(alloc, "invalid UTF-8 was detected in one or more arguments") {
        Ok(error) => error,
        Err(error) => Error::from(error),
    }
}

fn usage_fault(alloc: Global, message: &str) -> Result<Error, AllocError> {
    command_line(alloc, Vocabulary::Open)?.error(ErrorKind::InvalidValue, message)
}

/// The fault of words that `clap` takes and that ask for nothing. Where an argument has none of its few words, or two
/// that do not go together are given, `clap` reports that in its own text, by a line that takes only these words and no
/// such two; else `check` has `--only` and prints no records, `keys` has words that do not fit its kind, or `lint` is given
/// nothing to read. That line holds the words as they were lent to it, so no line of `specs/` is equal to it, and words are
/// not read by it.
fn refused<'a, S: AsStr>(alloc: Global, words: &'a [S]) -> Result<Error, AllocError> {
    let mut line = command_line(alloc, Vocabulary::Closed)?;
    match line.try_get_matches_from_mut(words) {
        Err(error) => Ok(error),
        Ok(matches) => {
            let name = matches.subcommand_name();
            let (kind, message) = complaint(&matches);
            command_named(alloc, name.unwrap_or(""))?.error(kind, message)
        }
    }
}

/// What is amiss with words that ask for nothing.
fn complaint(matches: &ArgMatches<'_>) -> (ErrorKind, &'static str) {
    match matches.subcommand() {
        Some(("check", _)) => (
            ErrorKind::ArgumentConflict,
            "--only needs --as json or --as edn",
        ),
        Some(("keys", found)) => keys_complaint(found),
        Some(("show", _)) => (
            ErrorKind::ArgumentConflict,
            "--colour always does not go with --svg or --html",
        ),
        Some(("lint", found)) => lint_complaint(found),
        _ => (
            ErrorKind::MissingRequiredArgument,
            "a tower file or a trace is required",
        ),
    }
}

/// What is amiss with the words of `lint`: the colours, or else that there is nothing to read.
fn lint_complaint(found: &ArgMatches<'_>) -> (ErrorKind, &'static str) {
    match lint_colours(found) {
        Some(_) => (
            ErrorKind::MissingRequiredArgument,
            "a tower file or a trace is required",
        ),
        None => (
            ErrorKind::ArgumentConflict,
            "--colour always needs --as human",
        ),
    }
}

fn lint_colours(found: &ArgMatches<'_>) -> Option<ColourWord> {
    colours_of(found, is_for_people(lint_form_of(found)?))
}

/// What is amiss with the words of `keys`: the initial value, or else the writers.
fn keys_complaint(found: &ArgMatches<'_>) -> (ErrorKind, &'static str) {
    match keys_initial(found) {
        Some(_) => (
            ErrorKind::ArgumentConflict,
            "--writers any is for atomic registers; a safe or regular one has one writer",
        ),
        None => (
            ErrorKind::InvalidValue,
            "--initial takes nil, an integer of 64 bits or, for atomic registers, unknown",
        ),
    }
}

fn command_of<'a>(
    alloc: Global,
    matches: &ArgMatches<'a>,
) -> Result<Option<Command<'a>>, AllocError>
    ensures asks { IfOk result (λ command. option_map asked_of command ≡ asked_by (subcommand_rows_of matches.now)) }
    ensures shards { IfOk result (λ command. IfSome command HasShards) }
    ensures traces { IfOk result (λ command. IfSome command HasTraces) }
{
    let Some((name, found)) = matches.subcommand() else {
        return Ok(None);
    };
    if name == "check" {
        return check_command(alloc, found);
    }
    if name == "watch" {
        return watch_command(alloc, found);
    }
    if name == "show" {
        return show_command(alloc, found);
    }
    if name == "lint" {
        return lint_command(alloc, found);
    }
    if name == "keys" {
        return keys_command(alloc, found);
    }
    Ok(other_command(name, found))
}

fn check_command<'a>(
    alloc: Global,
    found: &ArgMatches<'a>,
) -> Result<Option<Command<'a>>, AllocError>
    ensures asks { IfOk result (λ command. option_map asked_of command ≡ option_map ACheck (check_by (rows_of (found_of found.now)))) }
    ensures shards { IfOk result (λ command. IfSome command HasShards) }
    ensures traces { IfOk result (λ command. IfSome command HasTraces) }
{
    match check_of(alloc, found)? {
        Some(check) => Ok(Some(Command::Check(check))),
        None => Ok(None),
    }
}

fn watch_command<'a>(
    alloc: Global,
    found: &ArgMatches<'a>,
) -> Result<Option<Command<'a>>, AllocError>
    ensures asks { IfOk result (λ command. option_map asked_of command ≡ option_map AWatch (watch_by (rows_of (found_of found.now)))) }
    ensures shards { IfOk result (λ command. IfSome command HasShards) }
    ensures traces { IfOk result (λ command. IfSome command HasTraces) }
{
    match watch_of(alloc, found)? {
        Some(watch) => Ok(Some(Command::Watch(watch))),
        None => Ok(None),
    }
}

fn show_command<'a>(
    alloc: Global,
    found: &ArgMatches<'a>,
) -> Result<Option<Command<'a>>, AllocError>
    ensures asks { IfOk result (λ command. option_map asked_of command ≡ option_map AShow (show_by (rows_of (found_of found.now)))) }
    ensures shards { IfOk result (λ command. IfSome command HasShards) }
    ensures traces { IfOk result (λ command. IfSome command HasTraces) }
{
    match show_of(alloc, found)? {
        Some(show) => Ok(Some(Command::Show(show))),
        None => Ok(None),
    }
}

fn lint_command<'a>(
    alloc: Global,
    found: &ArgMatches<'a>,
) -> Result<Option<Command<'a>>, AllocError>
    ensures asks { IfOk result (λ command. option_map asked_of command ≡ option_map ALint (lint_by (rows_of (found_of found.now)))) }
    ensures shards { IfOk result (λ command. IfSome command HasShards) }
    ensures traces { IfOk result (λ command. IfSome command HasTraces) }
{
    match lint_of(alloc, found)? {
        Some(lint) => Ok(Some(Command::Lint(lint))),
        None => Ok(None),
    }
}

fn keys_command<'a>(
    alloc: Global,
    found: &ArgMatches<'a>,
) -> Result<Option<Command<'a>>, AllocError>
    ensures asks { IfOk result (λ command. option_map asked_of command ≡ option_map AKeys (keys_by (rows_of (found_of found.now)))) }
    ensures shards { IfOk result (λ command. IfSome command HasShards) }
    ensures traces { IfOk result (λ command. IfSome command HasTraces) }
{
    match keys_of(alloc, found)? {
        Some(keys) => Ok(Some(Command::Keys(keys))),
        None => Ok(None),
    }
}

/// The command of this name, other than `check`, `watch`, `show`, `lint` and `keys`.
fn other_command<'a>(name: &str, found: &ArgMatches<'a>) -> Option<Command<'a>>
    requires check { bytes_eq name.now (codes "check") ≡ false }
    requires watch { bytes_eq name.now (codes "watch") ≡ false }
    requires show { bytes_eq name.now (codes "show") ≡ false }
    requires lint { bytes_eq name.now (codes "lint") ≡ false }
    requires keys { bytes_eq name.now (codes "keys") ≡ false }
    ensures asks { option_map asked_of result ≡ command_by name.now (rows_of (found_of found.now)) }
    ensures shards { IfSome result HasShards }
    ensures traces { IfSome result HasTraces }
{
    match name {
        "safe" => Some(Command::Safe(found.get_str("TRACE"))),
        "tower" => Some(Command::Tower(found.get_str("FILE")?)),
        "explain" => Some(Command::Explain(found.get_str("CODE"), colours_of(found, true)?)),
        "version" => Some(Command::Version),
        "manual" => Some(Command::Manual),
        _ => Some(Command::Completion(shell_of(found)?)),
    }
}

fn shell_of(found: &ArgMatches<'_>) -> Option<Shell>
    ensures { result ≡ said_in shell_named (codes "SHELL") (rows_of (found_of found.now)) }
{
    Shell::named(found.get_str("SHELL")?)
}
