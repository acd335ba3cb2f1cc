//! The line of a record.

ghost use Rattle.std.specs.Prelude.{◌≡◌, ◌++◌, IfOk, OnOk};
ghost use Rattle.records.specs.Line.{record_line, record_text};
ghost use Rattle.records.specs.Symbol.{symbols_of};

use crate::edn::push_edn;
use crate::in_json::with_json;
use crate::token::RecordToken;
use std::alloc::{AllocError, Global};

/// How records are written: each on a line of its own.
#[derive(Clone, Copy)]
pub enum Notation {
    Json,
    Edn,
}

/// Adds a record, on a line of its own.
pub fn push_record(
    alloc: Global,
    notation: Notation,
    text: &mut Vec<u8>,
    tokens: &[RecordToken],
) -> Result<(), AllocError>
    ensures { OnOk result (text.new.items ≡ text.old.items ++ record_line notation (symbols_of tokens.now)) }
{
    let line = with_line(alloc, notation, Vec::new(alloc), tokens)?;
    text.extend_from_slice(&line)
}

/// The text with the line of a record added.
fn with_line(
    alloc: Global,
    notation: Notation,
    text: Vec<u8>,
    tokens: &[RecordToken],
) -> Result<Vec<u8>, AllocError>
    ensures { IfOk result (λ more. more.items ≡ text.items ++ record_line notation (symbols_of tokens.now)) }
{
    let mut text = with_record(alloc, notation, text, tokens)?;
    text.push(b'\n')?;
    Ok(text)
}

fn with_record(
    alloc: Global,
    notation: Notation,
    text: Vec<u8>,
    tokens: &[RecordToken],
) -> Result<Vec<u8>, AllocError>
    ensures { IfOk result (λ more. more.items ≡ text.items ++ record_text notation (symbols_of tokens.now)) }
{
    match notation {
        Notation::Json => with_json(alloc, text, tokens),
        Notation::Edn => with_edn(alloc, text, tokens),
    }
}

fn with_edn(alloc: Global, mut text: Vec<u8>, tokens: &[RecordToken]) -> Result<Vec<u8>, AllocError>
    ensures { IfOk result (λ more. more.items ≡ text.items ++ record_text Notation.Edn (symbols_of tokens.now)) }
{
    let mut line = String::new(alloc);
    push_edn(&mut line, tokens)?;
    text.extend_from_slice(line.as_bytes())?;
    Ok(text)
}
