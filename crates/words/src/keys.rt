//! What `keys` asks for.

ghost use Rattle.std.specs.Prelude.{◌≡◌, ◌<◌, IfOk, IfSome, codes, length};
ghost use Rattle.std.specs.Option.{option_map};
ghost use Rattle.clap.specs.Words.{found_of, rows_of};
ghost use Rattle.words.specs.Words.{any_by, any_in, asked_keys, initial_named, is_atomic, keys_by, kind_named, said_in, unknown_if};

use crate::check::traces_of;
use crate::tower::kind_named;
use clap::ArgMatches;
use intervals::{Initial, Kind, Value};
use std::alloc::{AllocError, Global};

/// What `keys` asks for.
#[derive(Drop)]
pub struct Keys<'a> {
    /// What each register is to claim.
    pub kind: Kind,
    pub initial: Initial,
    /// Whether any process may write; else the one that writes first.
    pub any_writes: bool,
    /// One or more.
    pub traces: Vec<&'a str>,
}

/// What `keys` asks for by the arguments that `clap` found, or none.
pub(crate) fn keys_of<'a>(
    alloc: Global,
    found: &ArgMatches<'a>,
) -> Result<Option<Keys<'a>>, AllocError>
    ensures asks { IfOk result (λ keys. option_map asked_keys keys ≡ keys_by (rows_of (found_of found.now))) }
    ensures traces { IfOk result (λ keys. IfSome keys (λ keys. 0 < length keys.traces.items)) }
{
    let Some(kind) = kind_of(found) else {
        return Ok(None);
    };
    let Some(initial) = initial_of(kind, found) else {
        return Ok(None);
    };
    let Some(any_writes) = any_of(kind, found) else {
        return Ok(None);
    };
    let traces = traces_of(alloc, found)?;
    if traces.is_empty() {
        return Ok(None);
    }
    Ok(Some(Keys {
        kind,
        initial,
        any_writes,
        traces,
    }))
}

/// The initial value that is asked for, where it is one of the kind.
pub(crate) fn keys_initial(found: &ArgMatches<'_>) -> Option<Initial> {
    initial_of(kind_of(found)?, found)
}

fn kind_of(found: &ArgMatches<'_>) -> Option<Kind>
    ensures { result ≡ said_in kind_named (codes "kind") (rows_of (found_of found.now)) }
{
    kind_named(found.get_str("kind")?)
}

/// The initial value; none where nobody knows it and the kind is not atomic.
fn initial_of(kind: Kind, found: &ArgMatches<'_>) -> Option<Initial>
    ensures { result ≡ said_in (initial_named kind) (codes "initial") (rows_of (found_of found.now)) }
{
    initial_named(kind, found.get_str("initial")?)
}

fn initial_named(kind: Kind, text: &str) -> Option<Initial>
    ensures { result ≡ initial_named kind text.now }
{
    if text == "nil" {
        return Some(Initial::Known(Value::Nil));
    }
    if text == "unknown" {
        return unknown_if(kind);
    }
    match text.parse::<i64>() {
        Ok(number) => Some(Initial::Known(Value::Int(number))),
        Err(_) => None,
    }
}

fn unknown_if(kind: Kind) -> Option<Initial>
    ensures { result ≡ unknown_if kind }
{
    match kind {
        Kind::Atomic => Some(Initial::Unknown),
        Kind::Safe | Kind::Regular => None,
    }
}

/// Whether any process may write: as `--writers` says, else of atomic registers alone. None where the kind has one writer
/// and any is asked for.
fn any_of(kind: Kind, found: &ArgMatches<'_>) -> Option<bool>
    ensures { result ≡ any_by kind (rows_of (found_of found.now)) }
{
    match found.get_str("writers") {
        Some(text) => any_in(kind, text),
        None => Some(is_atomic(kind)),
    }
}

fn any_in(kind: Kind, text: &str) -> Option<bool>
    ensures { result ≡ any_in kind text.now }
{
    if text == "first" {
        Some(false)
    } else if text == "any" && is_atomic(kind) {
        Some(true)
    } else {
        None
    }
}

fn is_atomic(kind: Kind) -> bool
    ensures { result ≡ is_atomic kind }
{
    match kind {
        Kind::Atomic => true,
        Kind::Safe | Kind::Regular => false,
    }
}
