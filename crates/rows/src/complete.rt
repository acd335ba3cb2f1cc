//! Whether a text names each command and each option that the manual has.

use crate::outcome::carried_out;
use row_data::{Cut, row_of};
use std::alloc::{AllocError, Global};
use std::io;
use std::rt::Files;
use std::sync::Wait;
use std::thread::Threads;

/// What the manual names and a text does not, a line each: commands, and options, which the text has with a prefix in
/// place of their two hyphens.
pub fn missing<R: Files + AllocGlobal + Threads + Wait + Sync>(
    rt: &R,
    text: &[u8],
    prefix: &str,
) -> io::Result<Vec<u8>>
where
    R::File: Send,
{
    let manual = row_of(rt.alloc(), "the manual\n= word manual")?;
    let printed = carried_out(rt, &manual, &[], Cut::WHOLE, manual.room)?;
    let manual = String::from_utf8_lossy(rt.alloc(), &printed.out)?;
    let text = String::from_utf8_lossy(rt.alloc(), text)?;
    let mut missing = Vec::new(rt.alloc());
    for line in manual.lines() {
        if let Some(name) = named_in(rt.alloc(), line, prefix)? {
            if !text.contains(name.as_str()) {
                missing.extend_from_slice(name.as_bytes())?;
                missing.push(b'\n')?;
            }
        }
    }
    Ok(missing)
}

/// The command or the option that a line of the manual is about, as the text has to name it.
fn named_in(alloc: Global, line: &str, prefix: &str) -> Result<Option<String>, AllocError> {
    let (before, after) = match line.strip_prefix("Usage: regaudit ") {
        Some(usage) => ("", usage),
        None => match line.split_once("--") {
            Some((_, option)) => (prefix, option),
            None => return Ok(None),
        },
    };
    match after.split_whitespace().next() {
        Some(word) if !word.starts_with("<") => {
            let mut name = String::from_str(alloc, before)?;
            name.push_str(word)?;
            Ok(Some(name))
        }
        _ => Ok(None),
    }
}
