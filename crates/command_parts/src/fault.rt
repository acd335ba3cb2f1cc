//! Why a run of the program broke off, and what is printed of it.

ghost use Rattle.std.specs.Prelude.{◌≡◌, ◌≢◌, ◌∷◌, ◌++◌, [], Some, IfOk, IfSome, OnOk, codes, string_bytes};
ghost use Rattle.tower_file.specs.Tower.{tower_fault_code};
ghost use Rattle.phrases.specs.Names.{printed};
ghost use Rattle.command_parts.specs.Complaint.{broken_off, complaint_of, named_before, unread};

use crate::files::Cause;
use feeders::{InputFault, RunFault};
use logs::Broken;
use phrases::push_printed;
use shards::ShardFault;
use std::alloc::{AllocError, Global};
use std::io::{self, Write};
use tower_file::TowerFault;
use words::no_text;

/// Why a run broke off.
#[derive(Drop)]
pub enum CommandFault<'a> {
    /// The words ask for no command, or for help.
    Usage(clap::Error),
    TooManyTraces,
    /// A file that cannot be opened; or one that has to be read whole, a tower file or a trace of `lint`, and cannot be
    /// or is too long.
    Unreadable(&'a str),
    /// The same, with why.
    UnreadableFor(&'a str, Cause),
    /// A trace that has to be read twice, first for what it names, and is a pipe or the like.
    ReadOnce(&'a str),
    /// A tower file with a fault, by its code.
    Tower(&'static str),
    /// The tower file of what traces name says another tower than that of the names.
    Misnamed,
    /// A trace of which only what is before its first fault is named.
    Named(&'a str, Broken),
    /// The tower has no register of the name that `--order` or `--register` gives.
    NoRegister(&'a str),
    /// The name is that of no code and no word of a report.
    NoCode(&'a str),
    /// A word of `--deny`, maybe an empty one, that is the code of no note.
    NoNote(&'a str),
    /// A shard refused an edit, a question or the end.
    Shard(ShardFault),
    Memory,
    Unwritable,
    /// The trace that was made of what fails does not fail alike.
    Unlike,
    /// The notices of a watch are not those of the closed journals, or of the logs.
    Untold,
}

impl<'a> CommandFault<'a> {
    /// Words that could not be read: memory was refused, or one is no text.
    pub fn of_unread(alloc: Global, error: io::Error) -> CommandFault<'a> {
        if error.kind() == io::ErrorKind::OutOfMemory {
            CommandFault::Memory
        } else {
            CommandFault::of_words(no_text(alloc))
        }
    }

    /// The fault of words that ask for no command, or for which memory was refused.
    pub fn of_words(error: clap::Error) -> CommandFault<'a> {
        if error.kind() == clap::error::ErrorKind::OutOfMemory {
            CommandFault::Memory
        } else {
            CommandFault::Usage(error)
        }
    }

    pub fn of_input(fault: InputFault, name: &'a str) -> CommandFault<'a>
        ensures own { result ≡ unread name.entry fault }
        ensures quiet { result ≢ CommandFault.Unwritable }
    {
        match fault {
            InputFault::Memory => CommandFault::Memory,
            InputFault::Failed | InputFault::TooLong | InputFault::TooManyCalls => {
                CommandFault::Unreadable(name)
            }
        }
    }

    pub fn of_tower(fault: TowerFault) -> CommandFault<'a>
        ensures code { fault ≢ TowerFault.Memory → complaint_of result ≡ Some (codes "regaudit: tower " ++ tower_fault_code fault ++ 10 ∷ []) }
        ensures memory { fault ≡ TowerFault.Memory → result ≡ CommandFault.Memory }
    {
        match fault {
            TowerFault::Memory => CommandFault::Memory,
            _ => CommandFault::Tower(fault.code()),
        }
    }

    pub fn of_run(fault: RunFault) -> CommandFault<'a>
        ensures own { result ≡ broken_off fault }
        ensures quiet { result ≢ CommandFault.Unwritable }
    {
        match fault {
            RunFault::Memory => CommandFault::Memory,
            RunFault::Shard(fault) => CommandFault::Shard(fault),
        }
    }
}

/// Writes why a run broke off, in one write. Where memory is refused for that, it writes that the run is out of memory.
pub fn say<E: Write>(alloc: Global, fault: CommandFault<'_>, err: &mut E) {
    let _ = match complaint(alloc, &fault) {
        Ok(text) => err.write_all(text.as_bytes()),
        Err(_) => err.write_all(b"regaudit: out of memory\n"),
    };
}

/// The text that is written to standard error.
fn complaint(alloc: Global, fault: &CommandFault<'_>) -> Result<String, AllocError>
    ensures { IfOk result (λ text. IfSome (complaint_of fault.now) (λ said. string_bytes text ≡ said)) }
{
    let mut text = String::new(alloc);
    match fault {
        CommandFault::Usage(error) => write!(text, "{error}")?,
        CommandFault::TooManyTraces => text.push_str("regaudit: too many traces\n")?,
        CommandFault::Unreadable(name) => push_line(&mut text, "regaudit: cannot read ", name, "")?,
        CommandFault::UnreadableFor(name, cause) => {
            push_line(&mut text, "regaudit: cannot read ", name, cause.words())?
        }
        CommandFault::ReadOnce(name) => push_line(
            &mut text,
            "regaudit: ",
            name,
            " can be read only once: name a tower file by --tower; regaudit keys writes one",
        )?,
        CommandFault::Tower(code) => {
            text.push_str("regaudit: tower ")?;
            text.push_str(code)?;
            text.push_str("\n")?;
        }
        CommandFault::Misnamed => {
            text.push_str("regaudit: the tower file does not say what the traces name\n")?
        }
        CommandFault::Named(name, broken) => push_broken_line(&mut text, name, *broken)?,
        CommandFault::NoRegister(name) => push_line(&mut text, "regaudit: no register ", name, "")?,
        CommandFault::NoCode(name) => push_line(
            &mut text,
            "regaudit: no code ",
            name,
            "; regaudit explain lists them",
        )?,
        CommandFault::NoNote(name) => push_line(
            &mut text,
            "regaudit: '",
            name,
            "' is no note; --deny takes L1 to L8",
        )?,
        CommandFault::Shard(fault) => {
            text.push_str("regaudit: ")?;
            text.push_str(fault.code())?;
            text.push_str("\n")?;
        }
        CommandFault::Memory => text.push_str("regaudit: out of memory\n")?,
        CommandFault::Unwritable => text.push_str("regaudit: cannot write\n")?,
        CommandFault::Unlike => {
            text.push_str("regaudit: the trace that was made does not fail alike\n")?
        }
        CommandFault::Untold => {
            text.push_str("regaudit: what was written is not what the registers did\n")?
        }
    }
    Ok(text)
}

/// Adds the line of a trace of which only what is before its first fault is named.
fn push_broken_line(text: &mut String, name: &str, broken: Broken) -> Result<(), AllocError>
    ensures { OnOk result (string_bytes text.new ≡ string_bytes text.old ++ named_before name.now broken) }
{
    text.push_str("regaudit: ")?;
    push_printed(text, name.as_bytes())?;
    text.push_str(" breaks at byte ")?;
    write!(text, "{}: ", broken.place)?;
    text.push_str(broken.code.code())?;
    text.push_str("; what comes before is named, and regaudit lint shows where it is\n")
}

/// Adds a line with a name in it, between these words.
fn push_line(text: &mut String, before: &str, name: &str, after: &str) -> Result<(), AllocError>
    ensures { OnOk result (string_bytes text.new ≡ string_bytes text.old ++ before.now ++ printed name.now ++ after.now ++ 10 ∷ []) }
{
    text.push_str(before)?;
    push_printed(text, name.as_bytes())?;
    text.push_str(after)?;
    text.push_str("\n")
}
