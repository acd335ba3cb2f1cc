//! The registers of the accepted invocations, by place.

ghost use Rattle.std.specs.Prelude.{◌≡◌};
ghost use Rattle.pairing.specs.Known.{register_at};
ghost use Rattle.pairing.specs.Registers.{IsRising};

use intervals::RegId;

/// The register of the invocation at this place, by binary search: the places of the rows rise.
pub fn register_at(registers: &[(u64, RegId)], place: u64) -> Option<RegId>
    requires { IsRising registers.now }
    ensures { result ≡ register_at registers.now place }
{
    match registers.binary_search_by_key(&place, |&(other, _)| other) {
        Ok(row) => Some(registers[row].1),
        Err(_) => None,
    }
}
