//! The tower file of what traces name, and the tower that it says.

ghost use Rattle.std.specs.Prelude.{◌≡◌, ◌≢◌, ◌∷◌, ◌++◌, [], ℕ, List, Option, IfOk, IfErr, OnOk, is_some, map};
ghost use Rattle.std.specs.List.{list_any};
ghost use Rattle.edn_reader.specs.declared.fault.EdnFault.{EdnFault};
ghost use Rattle.tower_file.specs.Tower.{IsTowerOf};
ghost use Rattle.keys.specs.File.{file_text};
ghost use Rattle.keys.specs.Named.{AreNamesAfter, NamesAfter, no_names};
ghost use Rattle.keys.specs.Tower.{tower_of_names};
ghost use Rattle.command_parts.specs.Files.{AreHeld};
ghost use Rattle.command_parts.specs.Tower.{IsFileOfNames, IsWrittenOf};

use crate::fault::{CommandFault, say};
use crate::files::{Files, read_file};
use crate::tower::tower_of;
use edn_reader::EdnFault;
use keys::{NameClaim, TraceNames, is_tower_of, push_tower};
use logs::broken_by;
use std::alloc::{AllocError, Global};
use std::io::Write;
use tower_file::Tower;

/// A tower file of what traces name, the tower that it says, and the first fault of each trace, where it has one.
#[derive(Drop)]
pub struct WrittenNames {
    pub file: Vec<u8>,
    pub tower: Tower,
    pub faults: Vec<Option<EdnFault>>,
}

/// The tower file of what the traces name, which are read in turn, each up to its end or its first fault.
pub fn write_names<'a, F: Files>(
    alloc: Global,
    files: &mut F,
    claim: &NameClaim,
    traces: &[&'a str],
) -> Result<WrittenNames, CommandFault<'a>>
    ensures file { IfOk result (λ written. (texts : List (List ℕ)) → AreHeld (F.held files.old) (map (λ name. name.now) traces.entry.now) texts → IsFileOfNames claim.now texts written.faults.items written.file.items) }
    ensures tower { IfOk result (λ written. IsTowerOf written.file.items written.tower) }
    ensures stays { F.held files.new ≡ F.held files.old }
    ensures quiet { IfErr result (λ fault. fault ≢ CommandFault.Unwritable) }
{
    let mut named = TraceNames::new(alloc);
    let faults = add_traces(alloc, files, &mut named, traces)?;
    written_of(alloc, claim, &named, faults)
}

/// The tower file of what these texts name.
pub fn names_of<'a>(
    alloc: Global,
    claim: &NameClaim,
    texts: &[&[u8]],
) -> Result<WrittenNames, CommandFault<'a>>
    ensures file { IfOk result (λ written. IsFileOfNames claim.now (map (λ text. text.now) texts.now) written.faults.items written.file.items) }
    ensures tower { IfOk result (λ written. IsTowerOf written.file.items written.tower) }
    ensures quiet { IfErr result (λ fault. fault ≢ CommandFault.Unwritable) }
{
    let mut named = TraceNames::new(alloc);
    match add_texts(alloc, &mut named, texts) {
        Ok(faults) => written_of(alloc, claim, &named, faults),
        Err(_) => Err(CommandFault::Memory),
    }
}

/// The tower file of what is named, which is read to see that it says the tower of the names.
fn written_of<'a>(
    alloc: Global,
    claim: &NameClaim,
    named: &TraceNames,
    faults: Vec<Option<EdnFault>>,
) -> Result<WrittenNames, CommandFault<'a>>
    ensures written { IfOk result (λ written. IsWrittenOf claim.now named.now written.file.items written.tower) }
    ensures faults { IfOk result (λ written. written.faults ≡ faults) }
    ensures quiet { IfErr result (λ fault. fault ≢ CommandFault.Unwritable) }
{
    let Ok(file) = file_of(alloc, claim, named) else {
        return Err(CommandFault::Memory);
    };
    let tower = tower_of(alloc, &file)?;
    if !is_tower_of(&tower, claim, named) {
        return Err(CommandFault::Misnamed);
    }
    Ok(WrittenNames {
        file,
        tower,
        faults,
    })
}

fn file_of(alloc: Global, claim: &NameClaim, named: &TraceNames) -> Result<Vec<u8>, AllocError>
    ensures { IfOk result (λ file. file.items ≡ file_text claim.now named.now) }
{
    let mut file = Vec::new(alloc);
    push_tower(alloc, &mut file, claim, named)?;
    Ok(file)
}

/// Adds what the traces name, and answers the first fault of each, where it has one.
fn add_traces<'a, F: Files>(
    alloc: Global,
    files: &mut F,
    named: &mut TraceNames,
    traces: &[&'a str],
) -> Result<Vec<Option<EdnFault>>, CommandFault<'a>>
    ensures named { IfOk result (λ faults. (texts : List (List ℕ)) → AreHeld (F.held files.old) (map (λ name. name.now) traces.entry.now) texts → AreNamesAfter named.old texts faults.items named.new) }
    ensures stays { F.held files.new ≡ F.held files.old }
    ensures quiet { IfErr result (λ fault. fault ≢ CommandFault.Unwritable) }
{
    let mut faults = Vec::new(alloc);
    for name in traces {
        let text = read_file(alloc, files, name)?;
        match add_text(named, &mut faults, &text) {
            Ok(()) => {}
            Err(_) => return Err(CommandFault::Memory),
        }
    }
    Ok(faults)
}

/// Adds what the texts name, and answers the first fault of each, where it has one.
fn add_texts(
    alloc: Global,
    named: &mut TraceNames,
    texts: &[&[u8]],
) -> Result<Vec<Option<EdnFault>>, AllocError>
    ensures { IfOk result (λ faults. AreNamesAfter named.old (map (λ text. text.now) texts.now) faults.items named.new) }
{
    let mut faults = Vec::new(alloc);
    for text in texts {
        add_text(named, &mut faults, text)?;
    }
    Ok(faults)
}

/// Adds what a text names, and its first fault or that it has none.
fn add_text(
    named: &mut TraceNames,
    faults: &mut Vec<Option<EdnFault>>,
    text: &[u8],
) -> Result<(), AllocError>
    ensures { OnOk result ((fault : Option EdnFault) × NamesAfter named.old text.now fault named.new × (faults.new.items ≡ faults.old.items ++ fault ∷ [])) }
{
    let fault = named.add_trace(text)?;
    faults.push(fault)?;
    Ok(())
}

/// Whether a trace has a fault.
pub fn has_fault(faults: &[Option<EdnFault>]) -> bool
    ensures { result ≡ list_any is_some faults.now }
{
    faults.iter().any(|fault| fault.is_some())
}

/// Writes a line for each trace that has a fault, of which only what comes before is named.
pub fn say_faults<E: Write>(
    alloc: Global,
    traces: &[&str],
    faults: &[Option<EdnFault>],
    err: &mut E,
) {
    for number in 0..faults.len() {
        if let (Some(name), Some(fault)) = (traces.get(number), faults[number]) {
            say_fault(alloc, name, fault, err);
        }
    }
}

fn say_fault<E: Write>(alloc: Global, name: &str, fault: EdnFault, err: &mut E) {
    if let Some(broken) = broken_by(fault) {
        say(alloc, CommandFault::Named(name, broken), err);
    }
}
