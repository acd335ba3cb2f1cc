//! The commands that print a text.

ghost use Rattle.std.specs.Prelude.{◌≡◌, ◌≢◌, IfOk, IfErr, None, Some, option_map, string_bytes};
ghost use Rattle.commands.specs.Printed.{IsExplained, IsManual, IsManualText, IsPrintedText};

use command_parts::{CommandFault, write_text};
use std::alloc::{AllocError, Global};
use std::io::Write;
use texts::{explanation_of, push_entry, push_list};
use words::help_of_all;

/// Writes a text.
pub fn print<'a, W: Write>(text: &str, out: &mut W) -> Result<u8, CommandFault<'a>>
    ensures printed { IfOk result (λ status. IsPrintedText text.now status (W.contents out.old) (W.contents out.new)) }
    ensures quiet { IfErr result (λ fault. fault ≡ CommandFault.Unwritable) }
{
    match write_text(out, text) {
        Ok(()) => Ok(0),
        Err(_) => Err(CommandFault::Unwritable),
    }
}

/// Writes what a code or a word of a report means, or a line of each where no code is given.
pub fn explain<'a, W: Write>(
    alloc: Global,
    code: Option<&'a str>,
    out: &mut W,
) -> Result<u8, CommandFault<'a>>
    ensures explained { IfOk result (λ status. IsExplained (option_map (λ code. code.now) code.entry) status (W.contents out.old) (W.contents out.new)) }
    ensures quiet { IfErr result (λ fault. fault ≢ CommandFault.Unwritable → out.new ≡ out.old) }
{
    match code {
        Some(code) => explain_code(alloc, code, out),
        None => explain_all(alloc, out),
    }
}

fn explain_code<'a, W: Write>(
    alloc: Global,
    code: &'a str,
    out: &mut W,
) -> Result<u8, CommandFault<'a>>
    ensures explained { IfOk result (λ status. IsExplained (Some code.entry.now) status (W.contents out.old) (W.contents out.new)) }
    ensures quiet { IfErr result (λ fault. fault ≢ CommandFault.Unwritable → out.new ≡ out.old) }
{
    let Some(entry) = explanation_of(code) else {
        return Err(CommandFault::NoCode(code));
    };
    let mut text = String::new(alloc);
    match push_entry(&mut text, entry) {
        Ok(()) => print(&text, out),
        Err(_) => Err(CommandFault::Memory),
    }
}

fn explain_all<'a, W: Write>(alloc: Global, out: &mut W) -> Result<u8, CommandFault<'a>>
    ensures explained { IfOk result (λ status. IsExplained None status (W.contents out.old) (W.contents out.new)) }
    ensures quiet { IfErr result (λ fault. fault ≢ CommandFault.Unwritable → out.new ≡ out.old) }
{
    let mut text = String::new(alloc);
    match push_list(&mut text) {
        Ok(()) => print(&text, out),
        Err(_) => Err(CommandFault::Memory),
    }
}

/// Writes the help of all commands, and then a line of each code.
pub fn print_manual<'a, W: Write>(alloc: Global, out: &mut W) -> Result<u8, CommandFault<'a>>
    ensures printed { IfOk result (λ status. IsManual status (W.contents out.old) (W.contents out.new)) }
    ensures quiet { IfErr result (λ fault. fault ≢ CommandFault.Unwritable → out.new ≡ out.old) }
{
    match manual(alloc) {
        Ok(text) => print(&text, out),
        Err(_) => Err(CommandFault::Memory),
    }
}

fn manual(alloc: Global) -> Result<String, AllocError>
    ensures { IfOk result (λ text. IsManualText (string_bytes text)) }
{
    let mut text = help_of_all(alloc)?;
    text.push_str("\nCodes, and words of a report:\n\n")?;
    push_list(&mut text)?;
    Ok(text)
}
