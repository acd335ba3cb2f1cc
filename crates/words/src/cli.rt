//! The command line, as `clap` is given it: the commands with their arguments, as a table.

ghost use Rattle.std.specs.Prelude.{◌≡◌, false, IfOk};
ghost use Rattle.clap.specs.Words.{app_of, rule_of};
ghost use Rattle.words.specs.declared.cli.Vocabulary.TheVariants.{Open};
ghost use Rattle.words.specs.Entries.{IsArgument, IsLine, entry_rule, fields_of, line_of, plain_rule, with_arguments, with_commands, with_takes};
ghost use Rattle.words.specs.Words.{command_line, program_line};

use crate::argument::{Argument, ArgumentEntry, Takes};
use clap::builder::ValueParser;
use clap::{Arg, ArgAction, Command};
use std::alloc::{AllocError, Global};

/// What an argument takes that has one of a few words.
#[derive(Clone, Copy)]
pub(crate) enum Vocabulary {
    /// Any word, and any flags of pictures together: words are read by this line.
    Open,
    /// Those few words, and one flag of a picture: `clap` reports the fault of words by this line.
    Closed,
}

/// A command of the program, and what its help says of it.
struct CommandEntry {
    name: &'static str,
    about: &'static str,
    /// What the long help says in place of `about`.
    long_about: Option<&'static str>,
    /// The end of the help.
    after_help: Option<&'static str>,
    arguments: &'static [Argument],
}

static COMMANDS: [CommandEntry; 11] = [
    CommandEntry {
        name: "check",
        about: "Judges the registers of a tower by the operations that traces tell of them",
        long_about: Some(CHECK),
        after_help: Some(STATUSES),
        arguments: &[
            Argument::Tower,
            Argument::Each,
            Argument::Shards,
            Argument::Moment,
            Argument::Order,
            Argument::Form,
            Argument::Only,
            Argument::Least,
            Argument::LeastEach,
            Argument::Doubt,
            Argument::Traces,
        ],
    },
    CommandEntry {
        name: "watch",
        about: "Judges the registers while traces are read, and says when a verdict changes",
        long_about: Some(WATCH),
        after_help: Some(WATCH_STATUSES),
        arguments: &[
            Argument::Tower,
            Argument::Each,
            Argument::Moment,
            Argument::Shards,
            Argument::LineForm,
            Argument::UntilFail,
            Argument::Settle,
            Argument::Least,
            Argument::LeastEach,
            Argument::Doubt,
            Argument::Traces,
        ],
    },
    CommandEntry {
        name: "show",
        about: "Draws a register: why it fails, or an order of its operations",
        long_about: None,
        after_help: Some(STATUSES),
        arguments: &[
            Argument::Tower,
            Argument::Each,
            Argument::Moment,
            Argument::Register,
            Argument::Svg,
            Argument::Html,
            Argument::Ascii,
            Argument::Around,
            Argument::All,
            Argument::Width,
            Argument::ThemeWord,
            Argument::Colour,
            Argument::Least,
            Argument::LeastEach,
            Argument::Doubt,
            Argument::Traces,
        ],
    },
    CommandEntry {
        name: "lint",
        about: "Says what is amiss in a tower file and in traces, with file, line and column",
        long_about: None,
        after_help: Some(LINT_STATUSES),
        arguments: &[
            Argument::Tower,
            Argument::Each,
            Argument::Moment,
            Argument::LintForm,
            Argument::Most,
            Argument::Denied,
            Argument::Colour,
            Argument::AnyTraces,
        ],
    },
    CommandEntry {
        name: "keys",
        about: "Writes the tower file of the registers that traces name",
        long_about: Some(KEYS),
        after_help: Some(KEYS_STATUSES),
        arguments: &[
            Argument::Kind,
            Argument::Initial,
            Argument::Writers,
            Argument::Traces,
        ],
    },
    CommandEntry {
        name: "safe",
        about: "Judges a trace of one safe register, r, at first 0, written by process 0",
        long_about: None,
        after_help: Some(STATUSES),
        arguments: &[Argument::Trace],
    },
    CommandEntry {
        name: "tower",
        about: "Lists the registers of a tower: number, level, name and kind",
        long_about: None,
        after_help: Some(STATUSES),
        arguments: &[Argument::TowerFile],
    },
    CommandEntry {
        name: "explain",
        about: "Says what a code or a word of the report means, and how to mend it",
        long_about: None,
        after_help: None,
        arguments: &[Argument::Colour, Argument::Code],
    },
    CommandEntry {
        name: "version",
        about: "Prints the version, as --version does",
        long_about: None,
        after_help: None,
        arguments: &[],
    },
    CommandEntry {
        name: "manual",
        about: "Prints the help of all commands, and what each code means in a line",
        long_about: None,
        after_help: None,
        arguments: &[],
    },
    CommandEntry {
        name: "completion",
        about: "Prints the script by which a shell completes the words of this program",
        long_about: None,
        after_help: None,
        arguments: &[Argument::Shell],
    },
];

/// The end of the help of the program and of most commands: the statuses, and where the formats are described.
const STATUSES: &str = "Exit status:
  0  every register holds and nothing was refused, or the tower is listed
  1  a register fails, or as --doubt says
  2  a trace is broken, or nothing could be read, judged or written
  3  no register fails, and an element was refused
  4  no register fails, and fewer operations stand than --least or --least-each says

docs/FORMATS.md describes traces, tower files and what is printed.";

/// What `check` does, what a tower file is, and what the lines of the report mean.
const CHECK: &str = "Judges the registers of a tower by the operations that traces tell of them

A tower file names the registers and says of each what it claims to be, safe, regular or
atomic, and who writes it. One to try is examples/tower.edn; docs/FORMATS.md describes them.
Without one the registers are those that the traces name, as keys writes them, and the traces
are files that can be read twice.

The lines of the report:
  register NAME KIND holds N   its N operations are as that kind of register allows
  register NAME KIND fails N   they are not, and the lines below it say why:
    wrong, unwritten, early or conflict, with the operations that show it
    | TEXT                     one of these operations, as its trace has it
  culprit NAME                 it fails, and each register that it is made of holds
  answer ID NAME holds N       what was so when a trace asked; or fails N
  refused ID CODE              an element of a trace that was not taken, and why
  broken TRACE CODE at BYTE    a trace that could not be read on, and why
  order NAME ID..              the operations in an order that explains them; or none

An ID is TRACE:PLACE, the number of a trace and of an element in it, each from 0.";

/// What `watch` does, and what its lines mean.
const WATCH: &str =
    "Judges the registers of a tower while traces are read, and says when a verdict changes

At first every register holds. Each line is written as soon as what it says is known:
  fails NAME KIND N at ID: FAULT   a register fails, and why, in the words of the report
  holds NAME KIND N at ID          a register that failed holds again
  refused ID CODE                  an element that was not taken, and why
  broken TRACE CODE at BYTE        a trace that could not be read on, and why
  end TRACE N                      a trace ended or broke after N elements

In the first two lines N operations stand in the register, and ID is the element whose edit
changed the verdict. An ID is TRACE:PLACE, the number of a trace and of an element in it, each
from 0. The tower file, KIND, FAULT and CODE are those of check.

A trace is read to its end. A file that still grows comes through a pipe:
  tail -n +1 -F run.edn | regaudit watch --tower tower.edn /dev/stdin";

/// The end of the help of `watch`.
const WATCH_STATUSES: &str =
    "Exit status, which is 1 at the first register that fails where --until-fail is given:
  0  every register holds and nothing was refused
  1  a register fails, or as --doubt says
  2  a trace is broken, or nothing could be read, judged or written
  3  no register fails, and an element was refused
  4  no register fails, and fewer operations stand than --least or --least-each says

docs/FORMATS.md describes traces, tower files and what is printed.";

/// What `keys` does.
const KEYS: &str = "Writes the tower file of the registers that traces name

Each key k of a value [k v] of a read or a write is a register, in the order in which they come;
where no value is such a pair, there is the one register r. Each claims the same; edit the file
where yours are other. check, watch, show and lint take such a tower themselves where no tower
file is named.";

/// The end of the help of `keys`.
const KEYS_STATUSES: &str = "Exit status:
  0  the traces were read to their ends
  2  a trace is broken, and the registers are those named up to there; or nothing could be read
     or written";

/// The end of the help of `lint`.
const LINT_STATUSES: &str = "Exit status:
  0  nothing is amiss, or notes alone are
  2  the tower file or a trace has a fault, or something could not be read or written
  3  no fault, and an element was refused, or a note is denied";

/// The whole command line.
pub(crate) fn command_line<'a>(
    alloc: Global,
    vocabulary: Vocabulary,
) -> Result<Command<'a>, AllocError>
    ensures { vocabulary ≡ Open → IfOk result (λ line. app_of line ≡ command_line) }
{
    let line = Command::new(alloc, "regaudit")
        .about("Audits the histories of registers")
        .after_help(STATUSES)
        .subcommand_required(true);
    with_commands(alloc, line, commands(), vocabulary)
}

/// The command of this name, as the fault of its words is reported; where there is none, the whole line.
pub(crate) fn command_named<'a>(alloc: Global, name: &str) -> Result<Command<'a>, AllocError> {
    for entry in commands() {
        if entry.name == name {
            let mut words = String::from_str(alloc, "regaudit ")?;
            words.push_str(name)?;
            return line_of(alloc, entry, Vocabulary::Closed)?.bin_name(&words);
        }
    }
    command_line(alloc, Vocabulary::Closed)
}

/// The table of commands.
fn commands() -> &'static [CommandEntry]
    ensures { with_commands program_line result.now ≡ command_line }
{
    &COMMANDS
}

fn with_commands<'a>(
    alloc: Global,
    line: Command<'a>,
    entries: &'static [CommandEntry],
    vocabulary: Vocabulary,
) -> Result<Command<'a>, AllocError>
    ensures { vocabulary ≡ Open → IfOk result (λ new. app_of new ≡ with_commands (app_of line.entry) entries.now) }
{
    let mut line = line;
    for entry in entries {
        let command = line_of(alloc, entry, vocabulary)?;
        line = line.subcommand(command)?;
    }
    Ok(line)
}

fn line_of<'a>(
    alloc: Global,
    entry: &'static CommandEntry,
    vocabulary: Vocabulary,
) -> Result<Command<'a>, AllocError>
    ensures { vocabulary ≡ Open → IfOk result (IsLine (line_of entry.now)) }
{
    let line = Command::new(alloc, entry.name).about(entry.about);
    let line = with_texts(line, entry);
    with_arguments(alloc, line, entry.arguments, vocabulary)
}

/// Gives a command what only some commands say in their help.
fn with_texts<'a>(line: Command<'a>, entry: &'static CommandEntry) -> Command<'a>
    ensures app { app_of result ≡ app_of line.entry }
    ensures local { (fields_of result).has_globals ≡ (fields_of line.entry).has_globals }
{
    let line = match entry.long_about {
        Some(text) => line.long_about(text),
        None => line,
    };
    match entry.after_help {
        Some(text) => line.after_help(text),
        None => line,
    }
}

fn with_arguments<'a>(
    alloc: Global,
    line: Command<'a>,
    arguments: &'static [Argument],
    vocabulary: Vocabulary,
) -> Result<Command<'a>, AllocError>
    ensures { vocabulary ≡ Open → (fields_of line.entry).has_globals ≡ false → IfOk result (IsLine (with_arguments (app_of line.entry) arguments.now)) }
{
    let mut line = line;
    for argument in arguments {
        let arg = arg_of(alloc, argument.entry(), vocabulary)?;
        line = line.arg(arg)?;
    }
    Ok(line)
}

fn arg_of<'a>(
    alloc: Global,
    entry: &'static ArgumentEntry,
    vocabulary: Vocabulary,
) -> Result<Arg<'a>, AllocError>
    ensures { vocabulary ≡ Open → IfOk result (IsArgument (entry_rule entry.now)) }
{
    let arg = taking(plain(alloc, entry), entry);
    match vocabulary {
        Vocabulary::Open => Ok(arg),
        Vocabulary::Closed => closed(arg, entry),
    }
}

/// The argument, but for what it takes.
fn plain<'a>(alloc: Global, entry: &'static ArgumentEntry) -> Arg<'a>
    ensures rule { rule_of result ≡ plain_rule entry.now }
    ensures local { result.global ≡ false }
{
    Arg::new(alloc, entry.name)
        .value_names(entry.value_names)
        .default_values(entry.defaults)
        .required(entry.is_required)
        .help(entry.help)
}

/// The argument, with what it takes.
fn taking<'a>(arg: Arg<'a>, entry: &'static ArgumentEntry) -> Arg<'a>
    ensures rule { rule_of result ≡ with_takes entry.now.takes entry.now.name.now (rule_of arg.entry) }
    ensures local { result.global ≡ arg.entry.global }
{
    match entry.takes {
        Takes::Nothing => arg.long(entry.name).action(ArgAction::SetTrue),
        Takes::Text => arg.long(entry.name),
        Takes::Number(least, most) => {
            arg.long(entry.name)
                .value_parser(ValueParser::unsigned(least, most))
        }
        Takes::Place => arg,
        Takes::Places => arg.num_args(1..),
    }
}

/// The argument, with the few words that it takes and the flags that it does not go with.
fn closed<'a>(arg: Arg<'a>, entry: &'static ArgumentEntry) -> Result<Arg<'a>, AllocError> {
    let arg = arg.conflicts_with_all(entry.without)?;
    if entry.words.is_empty() {
        Ok(arg)
    } else {
        Ok(arg.value_parser(entry.words))
    }
}
