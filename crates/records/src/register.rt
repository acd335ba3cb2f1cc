//! The records of registers.

ghost use Rattle.std.specs.Prelude.{◌≡◌, ◌++◌, OnOk, map};
ghost use Rattle.records.specs.Register.{blame_symbols, doubt_list, doubt_symbols, found_symbols, register_names, register_symbols, verdict_symbols, witness_symbols};
ghost use Rattle.records.specs.Symbol.{place, symbols_of};

use crate::allowed::Allowed;
use crate::fault::add_fault;
use crate::field::{add_end, add_flag, add_list, add_number, add_text, add_type, add_word};
use crate::operation::add_ops;
use crate::token::RecordToken;
use phrases::kind_word;
use places::Places;
use register_book::Witness;
use report::Finding;
use std::alloc::AllocError;

/// How a record names a register: by its number, the name of its level, and its name.
#[derive(Clone, Copy)]
pub struct RegisterNames<'a> {
    pub number: u64,
    pub level: &'a [u8],
    pub name: &'a [u8],
}

/// The elements of a register that were left out, and those on which its failure rests, lent.
#[derive(Clone, Copy)]
pub struct LentDoubt<'d> {
    pub left_out: &'d [(usize, u64)],
    pub rests_on: &'d [(usize, u64)],
}

/// Adds the record of a register: its names, what is found of it, whether it is to blame, what a wrong read might have
/// returned, and what was left out.
#[tactic(auto, unfolding(crate::specs::Register::register_symbols))]
pub fn add_register<'a>(
    tokens: &mut Vec<RecordToken<'a>>,
    places: &Places,
    names: &RegisterNames<'a>,
    finding: &Finding<'a>,
    culprit: bool,
    allowed: &[Allowed],
    doubt: LentDoubt,
) -> Result<(), AllocError>
    ensures { OnOk result (symbols_of tokens.new.items ≡ symbols_of tokens.old.items ++ register_symbols places.now names.now.number names.now.level.now names.now.name.now finding.now culprit allowed.now doubt.entry.left_out.now doubt.entry.rests_on.now) }
{
    add_type(tokens, "register")?;
    add_names(tokens, names.number, names.level, names.name)?;
    add_verdict(tokens, finding)?;
    add_blame(tokens, finding.operations, culprit)?;
    add_found(tokens, places, allowed, &finding.witness)?;
    add_doubt(tokens, doubt.left_out, doubt.rests_on)
}

fn add_names<'a>(
    tokens: &mut Vec<RecordToken<'a>>,
    number: u64,
    level: &'a [u8],
    name: &'a [u8],
) -> Result<(), AllocError>
    ensures { OnOk result (symbols_of tokens.new.items ≡ symbols_of tokens.old.items ++ register_names number level.now name.now) }
{
    add_number(tokens, "number", number)?;
    add_text(tokens, "level", level)?;
    add_text(tokens, "name", name)
}

fn add_verdict<'a>(tokens: &mut Vec<RecordToken<'a>>, finding: &Finding) -> Result<(), AllocError>
    ensures { OnOk result (symbols_of tokens.new.items ≡ symbols_of tokens.old.items ++ verdict_symbols finding.now) }
{
    add_word(tokens, "kind", kind_word(finding.kind))?;
    add_flag(tokens, "holds", finding.witness.is_none())
}

fn add_blame<'a>(
    tokens: &mut Vec<RecordToken<'a>>,
    operations: u64,
    culprit: bool,
) -> Result<(), AllocError>
    ensures { OnOk result (symbols_of tokens.new.items ≡ symbols_of tokens.old.items ++ blame_symbols operations culprit) }
{
    add_number(tokens, "operations", operations)?;
    add_flag(tokens, "culprit", culprit)
}

fn add_found<'a>(
    tokens: &mut Vec<RecordToken<'a>>,
    places: &Places,
    allowed: &[Allowed],
    witness: &Option<Witness<'a>>,
) -> Result<(), AllocError>
    ensures { OnOk result (symbols_of tokens.new.items ≡ symbols_of tokens.old.items ++ found_symbols places.now allowed.now witness.now) }
{
    match witness {
        Some(witness) => add_witness(tokens, places, allowed, witness),
        None => tokens.extend_from_slice(&[
            RecordToken::Key("fault"),
            RecordToken::Nothing,
            RecordToken::Key("witness"),
            RecordToken::BeginList,
            RecordToken::EndList,
        ]),
    }
}

#[tactic(auto, unfolding(crate::specs::Register::witness_symbols))]
fn add_witness<'a>(
    tokens: &mut Vec<RecordToken<'a>>,
    places: &Places,
    allowed: &[Allowed],
    witness: &Witness<'a>,
) -> Result<(), AllocError>
    ensures { OnOk result (symbols_of tokens.new.items ≡ symbols_of tokens.old.items ++ witness_symbols places.now allowed.now witness.now) }
{
    tokens.push(RecordToken::Key("fault"))?;
    add_fault(tokens, places, allowed, witness)?;
    add_list(tokens, "witness")?;
    add_ops(tokens, places, &witness.roles())?;
    tokens.push(RecordToken::EndList)?;
    Ok(())
}

/// Adds what is in doubt of a register, with which its record ends.
#[tactic(auto, unfolding(crate::specs::Register::doubt_symbols))]
pub fn add_doubt<'a>(
    tokens: &mut Vec<RecordToken<'a>>,
    left_out: &[(usize, u64)],
    rests_on: &[(usize, u64)],
) -> Result<(), AllocError>
    ensures { OnOk result (symbols_of tokens.new.items ≡ symbols_of tokens.old.items ++ doubt_symbols left_out.now rests_on.now) }
{
    add_doubt_list(tokens, left_out, rests_on)?;
    add_end(tokens)
}

/// Adds how many elements of a register were left out, and those of them on which its failure rests, in a list that is
/// still open.
#[tactic(auto, unfolding(crate::specs::Register::doubt_list))]
pub fn add_doubt_list<'a>(
    tokens: &mut Vec<RecordToken<'a>>,
    left_out: &[(usize, u64)],
    rests_on: &[(usize, u64)],
) -> Result<(), AllocError>
    ensures { OnOk result (symbols_of tokens.new.items ≡ symbols_of tokens.old.items ++ doubt_list left_out.now rests_on.now) }
{
    add_number(tokens, "left_out", left_out.len() as u64)?;
    add_list(tokens, "rests_on")?;
    add_elements(tokens, rests_on)
}

/// Adds elements, each by the number of its trace and its place there.
fn add_elements<'a>(
    tokens: &mut Vec<RecordToken<'a>>,
    elements: &[(usize, u64)],
) -> Result<(), AllocError>
    ensures { OnOk result (symbols_of tokens.new.items ≡ symbols_of tokens.old.items ++ map (λ at. place at.0 at.1) elements.now) }
{
    for at in elements {
        tokens.push(RecordToken::Place(at.0 as u64, at.1))?;
    }
    Ok(())
}
