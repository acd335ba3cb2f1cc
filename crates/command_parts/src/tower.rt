//! Towers: the one that a file says, or that traces name, with a register by its name; and that of one register.

ghost use Rattle.std.specs.Prelude.{◌≡◌, ◌≢◌, ◌<◌, ℕ, List, IfOk, IfErr, IfSome, length, map, option_map};
ghost use Rattle.tower_file.specs.Alone.{alone_tower};
ghost use Rattle.tower_file.specs.Tower.{IsTowerOf};
ghost use Rattle.words.specs.Words.{asked_tower};
ghost use Rattle.command_parts.specs.Files.{AreHeld};
ghost use Rattle.command_parts.specs.Tower.{IsNamed, OfNames, OfTower, claim_each};

use crate::fault::CommandFault;
use crate::files::{Files, need_again, read_file};
use crate::naming::{names_of, write_names};
use intervals::{Initial, Kind, RegId, Value};
use keys::NameClaim;
use std::alloc::Global;
use tower_file::laws::text_of_one_register;
use tower_file::{Tower, one_register};
use words::TowerWord;

/// The tower that a file says.
pub fn read_tower<'a, F: Files>(
    alloc: Global,
    files: &mut F,
    name: &'a str,
) -> Result<Tower, CommandFault<'a>>
    ensures tower { IfOk result (λ tower. IfSome (F.held files.old name.entry.now) (λ file. IsTowerOf file tower)) }
    ensures stays { F.held files.new ≡ F.held files.old }
    ensures quiet { IfErr result (λ fault. fault ≢ CommandFault.Unwritable) }
{
    let bytes = read_file(alloc, files, name)?;
    tower_of(alloc, &bytes)
}

/// The tower that bytes say.
pub(crate) fn tower_of<'a>(alloc: Global, bytes: &[u8]) -> Result<Tower, CommandFault<'a>>
    ensures tower { IfOk result (λ tower. IsTowerOf bytes.now tower) }
    ensures quiet { IfErr result (λ fault. fault ≢ CommandFault.Unwritable) }
{
    match Tower::read(alloc, bytes) {
        Ok(tower) => Ok(tower),
        Err(fault) => Err(CommandFault::of_tower(fault)),
    }
}

/// The tower that is asked for: that of a file, or that of the registers that the traces name, which are read for that.
pub(crate) fn asked_for<'a, F: Files>(
    alloc: Global,
    files: &mut F,
    tower: TowerWord<'a>,
    traces: &[&'a str],
) -> Result<Tower, CommandFault<'a>>
    ensures tower { IfOk result (λ read. OfTower (asked_tower tower.entry) (F.held files.old) (map (λ name. name.now) traces.entry.now) (λ file. IsTowerOf file read)) }
    ensures stays { F.held files.new ≡ F.held files.old }
    ensures quiet { IfErr result (λ fault. fault ≢ CommandFault.Unwritable) }
{
    match tower {
        TowerWord::File(name) => read_tower(alloc, files, name),
        TowerWord::Each(kind) => tower_named(alloc, files, kind, traces),
    }
}

/// The tower of the registers that the traces name, each of this kind.
fn tower_named<'a, F: Files>(
    alloc: Global,
    files: &mut F,
    kind: Kind,
    traces: &[&'a str],
) -> Result<Tower, CommandFault<'a>>
    ensures tower { IfOk result (λ read. (texts : List (List ℕ)) → AreHeld (F.held files.old) (map (λ name. name.now) traces.entry.now) texts → OfNames kind texts (λ file. IsTowerOf file read)) }
    ensures stays { F.held files.new ≡ F.held files.old }
    ensures quiet { IfErr result (λ fault. fault ≢ CommandFault.Unwritable) }
{
    need_again(files, traces)?;
    let written = write_names(alloc, files, &claim_each(kind), traces)?;
    Ok(written.tower)
}

/// The tower of the registers that these texts name, each of this kind.
pub fn tower_in<'a>(alloc: Global, kind: Kind, texts: &[&[u8]]) -> Result<Tower, CommandFault<'a>>
    ensures tower { IfOk result (λ read. OfNames kind (map (λ text. text.now) texts.now) (λ file. IsTowerOf file read)) }
    ensures quiet { IfErr result (λ fault. fault ≢ CommandFault.Unwritable) }
{
    let written = names_of(alloc, &claim_each(kind), texts)?;
    Ok(written.tower)
}

fn claim_each(kind: Kind) -> NameClaim
    ensures { result ≡ claim_each kind }
{
    NameClaim {
        kind,
        initial: Initial::Known(Value::Nil),
        any_writes: match kind {
            Kind::Atomic => true,
            Kind::Safe | Kind::Regular => false,
        },
    }
}

/// The register of this name, where a name is given.
pub fn named<'a>(tower: &Tower, name: Option<&'a str>) -> Result<Option<RegId>, CommandFault<'a>>
    ensures named { IfOk result (IsNamed tower.now (option_map (λ name. name.now) name.entry)) }
    ensures within { IfOk result (λ found. IfSome found (λ id. id.0 < length tower.now.registers)) }
    ensures quiet { IfErr result (λ fault. fault ≢ CommandFault.Unwritable) }
{
    let Some(name) = name else {
        return Ok(None);
    };
    match tower.find(name.as_bytes()) {
        Some(id) => Ok(Some(id)),
        None => Err(CommandFault::NoRegister(name)),
    }
}

/// The tower of the one register, read from its text; none where memory is refused.
pub fn the_tower(alloc: Global) -> Option<Tower>
    ensures { IfSome result (λ tower. tower ≡ alone_tower) }
{
    text_of_one_register();
    match Tower::read(alloc, one_register()) {
        Ok(tower) => Some(tower),
        Err(_) => None,
    }
}
