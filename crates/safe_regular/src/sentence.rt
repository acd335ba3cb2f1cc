//! Judges one read by the writes, which are looked at from the read's end back.

ghost use Rattle.std.specs.Prelude.{◌≡◌, Contains, IfSome};
ghost use Rattle.intervals.specs.Judging.{is_allowed, is_wrong_read};
ghost use Rattle.intervals.specs.Operation.{IsJudgedRead};
ghost use Rattle.intervals.specs.Terms.{terms_of};
ghost use Rattle.safe_regular.specs.Held.{AreOneWriters};
ghost use Rattle.safe_regular.specs.Looks.{is_wrong_by};
ghost use Rattle.safe_regular.specs.Writes.{AreWrites};

use crate::writes::{Writes, last_before};
use intervals::{Claim, Kind, Moment, Op, OpTable, Value, is_same_value, precedes};

/// How many writes are looked at for one read, and how many steps along the rows one search of an edit takes.
pub const LOOKS: usize = 64;

/// Whether the read breaks the sentence of its register's kind. `None` where that takes more than `LOOKS` writes.
pub fn is_wrong(claim: &Claim, writes: &Writes, table: &OpTable, read: &Op) -> Option<bool>
    ensures { AreWrites table.now.ops writes.now → AreOneWriters (terms_of claim.now) table.now.ops → Contains table.now.ops read.now → IsJudgedRead read.now
        → IfSome result (λ wrong. wrong ≡ is_wrong_read (terms_of claim.now) table.now.ops read.now) }
{
    match claim.kind {
        Kind::Safe => Some(is_wrong_safe(claim, writes, table, read)),
        Kind::Regular => is_wrong_regular(claim, writes, table, read),
        Kind::Atomic => None,
    }
}

/// On a safe register one write decides: the last to begin before the read ends.
fn is_wrong_safe(claim: &Claim, writes: &Writes, table: &OpTable, read: &Op) -> bool
    ensures { AreWrites table.now.ops writes.now → AreOneWriters (terms_of claim.now) table.now.ops → Contains table.now.ops read.now → IsJudgedRead read.now
        → claim.now.kind ≡ Kind.Safe → result ≡ is_wrong_read (terms_of claim.now) table.now.ops read.now }
{
    let last = last_before(writes, table, Moment(read.end_number()));
    is_wrong_by(claim, read, &last)
}

fn is_wrong_by(claim: &Claim, read: &Op, last: &Option<Op>) -> bool
    ensures { result ≡ is_wrong_by (terms_of claim.now) read.now last.now }
{
    match last {
        Some(write) => {
            if is_allowed(claim, read.value()) {
                !is_same_value(read.value(), write.value()) && precedes(write, read)
            } else {
                true
            }
        }
        None => !is_same_value(read.value(), claim.at_first()),
    }
}

/// Whether the value is in the domain or is the initial one. Where no domain is given every value is allowed.
pub fn is_allowed(claim: &Claim, value: Value) -> bool
    ensures { result ≡ is_allowed (terms_of claim.now).domain (terms_of claim.now).initial value }
{
    claim.has_in_domain(value) || is_same_value(claim.at_first(), value)
}

/// On a regular register the writes are passed, from the last to begin before the read ends back, until one has
/// the read's value, so that the read is right, or ended before the read began, so that it is wrong.
fn is_wrong_regular(claim: &Claim, writes: &Writes, table: &OpTable, read: &Op) -> Option<bool>
    ensures { AreWrites table.now.ops writes.now → AreOneWriters (terms_of claim.now) table.now.ops → Contains table.now.ops read.now → IsJudgedRead read.now
        → claim.now.kind ≡ Kind.Regular → IfSome result (λ wrong. wrong ≡ is_wrong_read (terms_of claim.now) table.now.ops read.now) }
{
    let mut last = last_before(writes, table, Moment(read.end_number()));
    for _ in 0..LOOKS {
        let Some(write) = last else {
            return Some(!is_same_value(claim.at_first(), read.value()));
        };
        if is_same_value(write.value(), read.value()) {
            return Some(false);
        }
        if precedes(&write, read) {
            return Some(true);
        }
        last = last_before(writes, table, write.begin);
    }
    None
}
