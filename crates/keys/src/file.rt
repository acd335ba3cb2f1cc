//! The tower file of what traces name.

ghost use Rattle.std.specs.Prelude.{◌≡◌, ◌++◌, Some, IfOk, OnOk, codes, flat_map, string_bytes};
ghost use Rattle.std.specs.List.{slice_get};
ghost use Rattle.keys.specs.File.{file_text, initial_text, kind_keyword, register_entry, writers_text};
ghost use Rattle.keys.specs.Named.{NamedModel, registers_named};

use crate::names::TraceNames;
use intervals::{Initial, Kind, Value};
use std::alloc::{AllocError, Global};

/// What each register of a tower claims that is made of what traces name.
#[derive(Clone, Copy)]
pub struct NameClaim {
    pub kind: Kind,
    pub initial: Initial,
    /// Whether any process may write; else the one alone that writes first in the traces, 0 where none does.
    pub any_writes: bool,
}

/// Adds the tower file of what is named.
pub fn push_tower(
    alloc: Global,
    text: &mut Vec<u8>,
    claim: &NameClaim,
    named: &TraceNames,
) -> Result<(), AllocError>
    ensures { OnOk result (text.new.items ≡ text.old.items ++ file_text claim.now named.now) }
{
    text.extend_from_slice(b"{:levels [{:name keys :registers [\n")?;
    push_registers(alloc, text, claim, named)?;
    text.extend_from_slice(b"]}]}\n")
}

/// Adds the lines of the registers.
fn push_registers(
    alloc: Global,
    text: &mut Vec<u8>,
    claim: &NameClaim,
    named: &TraceNames,
) -> Result<(), AllocError>
    ensures { OnOk result (text.new.items ≡ text.old.items ++ flat_map (register_entry claim.now) (registers_named named.now)) }
{
    for number in 0..named.registers() {
        push_entry(alloc, text, claim, named, number)?;
    }
    Ok(())
}

/// Adds the line of the register of this number.
fn push_entry(
    alloc: Global,
    text: &mut Vec<u8>,
    claim: &NameClaim,
    named: &TraceNames,
    number: usize,
) -> Result<(), AllocError>
    ensures { (entry : NamedModel) → slice_get (registers_named named.now) number ≡ Some entry → OnOk result (text.new.items ≡ text.old.items ++ register_entry claim.now entry) }
{
    match named.register(number) {
        Some((name, writer)) => push_register(alloc, text, claim, name, writer),
        None => Ok(()),
    }
}

fn push_register(
    alloc: Global,
    text: &mut Vec<u8>,
    claim: &NameClaim,
    name: &[u8],
    writer: Option<i64>,
) -> Result<(), AllocError>
    ensures { OnOk result (text.new.items ≡ text.old.items ++ register_entry claim.now (record { name = name.now; writer = writer })) }
{
    text.extend_from_slice(b"  {:name ")?;
    text.extend_from_slice(name)?;
    text.extend_from_slice(claim_text(alloc, claim, writer)?.as_bytes())
}

/// What is after the name of a register.
fn claim_text(alloc: Global, claim: &NameClaim, writer: Option<i64>) -> Result<String, AllocError>
    ensures { IfOk result (λ text. string_bytes text ≡ codes " :kind " ++ kind_keyword claim.now.kind ++ codes " :writers " ++ writers_text claim.now.any_writes writer
        ++ codes " :initial " ++ initial_text claim.now.initial ++ codes "}\n") }
{
    let mut text = String::new(alloc);
    text.push_str(" :kind ")?;
    text.push_str(kind_keyword(claim.kind))?;
    text.push_str(" :writers ")?;
    push_writers(&mut text, claim.any_writes, writer)?;
    text.push_str(" :initial ")?;
    push_initial(&mut text, claim.initial)?;
    text.push_str("}\n")?;
    Ok(text)
}

fn kind_keyword(kind: Kind) -> &'static str
    ensures { result.now ≡ kind_keyword kind }
{
    match kind {
        Kind::Safe => ":safe",
        Kind::Regular => ":regular",
        Kind::Atomic => ":atomic",
    }
}

fn push_writers(text: &mut String, any_writes: bool, writer: Option<i64>) -> Result<(), AllocError>
    ensures { OnOk result (string_bytes text.new ≡ string_bytes text.old ++ writers_text any_writes writer) }
{
    if any_writes {
        return text.push_str(":any");
    }
    let process = writer.unwrap_or(0);
    write!(text, "[{process}]")
}

fn push_initial(text: &mut String, initial: Initial) -> Result<(), AllocError>
    ensures { OnOk result (string_bytes text.new ≡ string_bytes text.old ++ initial_text initial) }
{
    match initial {
        Initial::Known(Value::Nil) => text.push_str("nil"),
        Initial::Known(Value::Int(number)) => write!(text, "{number}"),
        Initial::Unknown => text.push_str(":unknown"),
    }
}
