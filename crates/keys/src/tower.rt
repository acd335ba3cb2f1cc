//! Whether a tower is that of what traces name.

ghost use Rattle.std.specs.Prelude.{◌≡◌, ◌↔◌, ◌∷◌, [], IsSomeAnd, IsTrue, Some, codes, map, option_map};
ghost use Rattle.std.specs.List.{slice_get};
ghost use Rattle.intervals.specs.Terms.{terms_of, writers_of};
ghost use Rattle.keys.specs.Named.{registers_named};
ghost use Rattle.keys.specs.Tower.{claim_of_named, register_of_named, tower_of_names, writers_claimed};

use crate::file::NameClaim;
use crate::names::TraceNames;
use intervals::{Claim, Initial, Kind, RegId, Writers, is_same_value};
use tower_file::Tower;

/// Whether a tower is that of what is named: one level, and on it a register for each name, in their order.
pub fn is_tower_of(tower: &Tower, claim: &NameClaim, named: &TraceNames) -> bool
    ensures { IsTrue result ↔ tower.now ≡ tower_of_names claim.now named.now }
{
    has_one_level(tower) && has_registers(tower, claim, named)
}

/// Whether `keys` is the one level.
fn has_one_level(tower: &Tower) -> bool
    ensures { IsTrue result ↔ tower.now.levels ≡ codes "keys" ∷ [] }
{
    match (tower.level_name(0), tower.level_name(1)) {
        (Some(name), None) => name == b"keys".as_slice(),
        _ => false,
    }
}

/// Whether the registers are those of the names, in their order.
fn has_registers(tower: &Tower, claim: &NameClaim, named: &TraceNames) -> bool
    ensures { IsTrue result ↔ tower.now.registers ≡ map (register_of_named claim.now) (registers_named named.now) }
{
    if tower.len() != named.registers() {
        return false;
    }
    for number in 0..tower.len() as u32 {
        if !has_register(tower, claim, named, RegId(number)) {
            return false;
        }
    }
    true
}

/// Whether the register of this number is that of the name of this number.
fn has_register(tower: &Tower, claim: &NameClaim, named: &TraceNames, id: RegId) -> bool
    ensures { IsTrue result ↔ IsSomeAnd (slice_get (registers_named named.now) id.0) (λ named. slice_get tower.now.registers id.0 ≡ Some (register_of_named claim.now named)) }
{
    match named.register(id.0 as usize) {
        Some((name, writer)) => is_register_of(tower, id, claim, name, writer),
        None => false,
    }
}

/// Whether the register is that of a name, which this process writes first.
fn is_register_of(
    tower: &Tower,
    id: RegId,
    claim: &NameClaim,
    name: &[u8],
    writer: Option<i64>,
) -> bool
    ensures { IsTrue result ↔ slice_get tower.now.registers id.0 ≡ Some (register_of_named claim.now (record { name = name.now; writer = writer })) }
{
    has_name(tower, id, name) && has_claim(tower, id, claim, writer) && is_made_of_none(tower, id)
}

fn has_name(tower: &Tower, id: RegId, name: &[u8]) -> bool
    ensures { IsTrue result ↔ option_map (λ register. register.name) (slice_get tower.now.registers id.0) ≡ Some name.now }
{
    match tower.name(id) {
        Some(found) => found == name,
        None => false,
    }
}

fn has_claim(tower: &Tower, id: RegId, claim: &NameClaim, writer: Option<i64>) -> bool
    ensures { IsTrue result ↔ option_map (λ register. register.claim) (slice_get tower.now.registers id.0) ≡ Some (claim_of_named claim.now writer) }
{
    match tower.claim(id) {
        Some(found) => is_claim_of(found, claim, writer),
        None => false,
    }
}

/// Whether the register is on the lowest level, and made of no others.
fn is_made_of_none(tower: &Tower, id: RegId) -> bool
    ensures { IsTrue result ↔ (option_map (λ register. register.level) (slice_get tower.now.registers id.0) ≡ Some 0) × (option_map (λ register. register.parts) (slice_get tower.now.registers id.0) ≡ Some []) }
{
    match (tower.level_of(id), tower.parts_of(id)) {
        (Some(level), Some(parts)) => level == 0 && parts.is_empty(),
        _ => false,
    }
}

/// Whether the claim is what each name claims, which this process writes first.
fn is_claim_of(found: &Claim, claim: &NameClaim, writer: Option<i64>) -> bool
    ensures { IsTrue result ↔ terms_of found.now ≡ claim_of_named claim.now writer }
{
    is_kind(found.kind, claim.kind)
        && are_writers(&found.writers, claim.any_writes, writer)
        && is_initial(found.initial, claim.initial)
        && found.domain.is_none()
        && !found.fixed
}

fn is_kind(kind: Kind, other: Kind) -> bool
    ensures { IsTrue result ↔ kind ≡ other }
{
    match (kind, other) {
        (Kind::Safe, Kind::Safe) => true,
        (Kind::Regular, Kind::Regular) => true,
        (Kind::Atomic, Kind::Atomic) => true,
        _ => false,
    }
}

fn are_writers(writers: &Writers, any_writes: bool, writer: Option<i64>) -> bool
    ensures { IsTrue result ↔ writers_of writers.now ≡ writers_claimed any_writes writer }
{
    match writers {
        Writers::Any => any_writes,
        Writers::Listed(processes) => !any_writes && are_only(processes, writer.unwrap_or(0)),
    }
}

fn are_only(processes: &[i64], process: i64) -> bool
    ensures { IsTrue result ↔ processes.now ≡ process ∷ [] }
{
    processes.len() == 1 && processes[0] == process
}

fn is_initial(initial: Initial, other: Initial) -> bool
    ensures { IsTrue result ↔ initial ≡ other }
{
    match (initial, other) {
        (Initial::Known(value), Initial::Known(same)) => is_same_value(value, same),
        (Initial::Unknown, Initial::Unknown) => true,
        _ => false,
    }
}
