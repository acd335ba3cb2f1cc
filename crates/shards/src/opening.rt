//! What ties the value under a lock to the auditor that it belongs to.

use std::marker::Brand;

/// The opening of an auditor: a type parameter of the auditor and of the values under its locks. Its plan says what
/// the registers claim, the name, and how many shards and feeders there are. Whoever opens an auditor picks one.
pub trait Opening {
    ghost use Rattle.shards.specs.Plan.{Plan};

    ghost plan: { Plan };
}

impl Opening for Brand {
    ghost use Rattle.std.specs.Prelude.{[]};

    ghost plan = { record { name = 0; shards = 1; feeders = 1; claims = [] } };
}
