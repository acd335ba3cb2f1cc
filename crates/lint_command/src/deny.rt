//! The codes of notes that are to count as warnings.

ghost use Rattle.std.specs.Prelude.{◌≡◌, ◌≢◌, ◌++◌, ◌∷◌, [], IfOk, IfErr, OnOk, map, option_map};
ghost use Rattle.clap.specs.Words.{Text};
ghost use Rattle.lint_command.specs.Denied.{AreDenied, IsNoteNamed};

use command_parts::CommandFault;
use std::alloc::Global;
use texts::note_of;

/// The codes of the notes that a text names, with commas between them. A word that names no note is a fault.
pub fn denied_codes<'a>(
    alloc: Global,
    text: Option<&'a str>,
) -> Result<Vec<&'static str>, CommandFault<'a>>
    ensures denied { IfOk result (λ denied. AreDenied (option_map (λ text. text.now) text.entry) (map (λ code. code.now) denied.items)) }
    ensures quiet { IfErr result (λ fault. fault ≢ CommandFault.Unwritable) }
{
    let mut denied = Vec::new(alloc);
    let Some(whole) = text else {
        return Ok(denied);
    };
    let mut rest = whole;
    while let Some((word, more)) = rest.split_once(',') {
        push_code(&mut denied, word)?;
        rest = more;
    }
    push_code(&mut denied, rest)?;
    Ok(denied)
}

/// Adds the code of the note that a word names.
fn push_code<'a>(denied: &mut Vec<&'static str>, word: &'a str) -> Result<(), CommandFault<'a>>
    ensures named { OnOk result ((code : Text) × IsNoteNamed word.entry.now code × (map (λ code. code.now) denied.new.items ≡ map (λ code. code.now) denied.old.items ++ code ∷ [])) }
    ensures quiet { IfErr result (λ fault. fault ≢ CommandFault.Unwritable) }
{
    let Some(note) = note_of(word) else {
        return Err(CommandFault::NoNote(word));
    };
    match denied.push(note.code) {
        Ok(()) => Ok(()),
        Err(_) => Err(CommandFault::Memory),
    }
}
