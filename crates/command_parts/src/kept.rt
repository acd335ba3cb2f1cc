//! The texts that are kept of traces, for the places of elements.

ghost use Rattle.std.specs.Prelude.{◌≡◌, ◌↔◌, List, ℕ, Option, Some, IfOk, IsTrue, length, map};
ghost use Rattle.std.specs.List.{slice_get};
ghost use Rattle.logs.specs.declared.log.Log.{Log as ALog};
ghost use Rattle.places.specs.Copied.{AreCopiesOf};
ghost use Rattle.command_parts.specs.Kept.{AreTracesKept, IsEnough, IsTextOf};

use logs::{Broken, Log};
use places::Kept;
use std::alloc::{AllocError, Global};

/// What was kept of the text of each trace, by number; an error where memory was refused for what has a place.
pub fn texts_of(alloc: Global, kept: Vec<Kept>, logs: &[Log]) -> Result<Vec<Vec<u8>>, AllocError>
    ensures { IfOk result (λ texts. (lefts : List (Option (List ℕ))) → length lefts ≡ length kept.items → AreCopiesOf lefts kept.items → AreTracesKept lefts logs.now (map (λ text. text.items) texts.items)) }
{
    let mut texts = Vec::new(alloc);
    for one in kept {
        texts.push(text_of(one, logs, texts.len())?)?;
    }
    Ok(texts)
}

/// What was kept of the text of the trace of this number, where that is enough.
fn text_of(kept: Kept, logs: &[Log], trace: usize) -> Result<Vec<u8>, AllocError>
    ensures { IfOk result (λ text. (log : ALog) → slice_get logs.now trace ≡ Some log → IsTextOf log kept text.items) }
{
    let enough = match logs.get(trace) {
        Some(log) => reaches(&kept, log.broken),
        None => true,
    };
    if enough {
        Ok(kept.bytes)
    } else {
        Err(AllocError)
    }
}

/// Whether all of a text was kept, or, where its trace broke, all up to there.
fn reaches(kept: &Kept, broken: Option<Broken>) -> bool
    ensures { IsTrue result ↔ IsEnough kept.now broken }
{
    match broken {
        None => kept.ended,
        Some(broken) => broken.place <= kept.bytes.len() as u64,
    }
}
