//! Which operation shows that a safe or regular register fails.

ghost use Rattle.std.specs.Prelude.{◌≢◌, ◌↔◌, IfSome, IsNone};
ghost use Rattle.intervals.specs.Kind.{Holds};
ghost use Rattle.intervals.specs.Terms.{state_of};
ghost use Rattle.register_book.specs.Fault.{IsWitness};

use crate::Witness;
use intervals::Kind;
use intervals::laws::{regular_without_wrong_reads, safe_without_wrong_reads};
use safe_regular::SingleWriterJudge;

/// The wrong read that ended first, or `None` where the register holds.
pub fn wrong_read_of<'t>(judge: &SingleWriterJudge<'t>) -> Option<Witness<'t>>
    requires { judge.now.claim.kind ≢ Kind.Atomic }
    ensures witness { IfSome result (IsWitness judge.now.claim judge.now.ops) }
    ensures none { IsNone result ↔ Holds (state_of judge.now.claim judge.now.ops) }
{
    safe_without_wrong_reads();
    regular_without_wrong_reads();
    let read = judge.first_wrong()?;
    Some(Witness::Wrong(read))
}
