//! The help of the program and of each of its commands.

use crate::cli::{Vocabulary, command_line};
use clap::Error;
use clap::error::ErrorKind;
use std::alloc::{AllocError, Global};

static COMMANDS: [&str; 10] = [
    "check",
    "watch",
    "show",
    "lint",
    "safe",
    "tower",
    "explain",
    "version",
    "manual",
    "completion",
];

/// The long help of the program and of each command, in turn, as `clap` writes it.
pub fn help_of_all(alloc: Global) -> Result<String, AllocError> {
    let mut text = String::new(alloc);
    push_help(alloc, &mut text, &["regaudit", "--help"])?;
    for name in COMMANDS {
        text.push_str("\n")?;
        push_help(alloc, &mut text, &["regaudit", name, "--help"])?;
    }
    Ok(text)
}

fn push_help(alloc: Global, text: &mut String, words: &[&str]) -> Result<(), AllocError> {
    let mut line = command_line(alloc, Vocabulary::Open)?;
    if let Err(help) = line.try_get_matches_from_mut(words) {
        push_text(text, &help)?;
    }
    Ok(())
}

/// Adds what `clap` says, unless it says that memory was refused.
fn push_text(text: &mut String, help: &Error) -> Result<(), AllocError> {
    if help.kind() == ErrorKind::OutOfMemory {
        return Err(AllocError);
    }
    write!(text, "{help}")
}
