//! Laws of what a watch wrote, and of a register whose edits come in the order of time. Each is the contract of a function
//! that does nothing.

ghost use Rattle.std.specs.List.{slice_get};
ghost use Rattle.std.specs.Prelude.{◌≡◌, ◌⊎◌, ◌<◌, ◌%◌, ◌++◌, ◌∷◌, [], ℕ, All, Bool, List, Option, Result, true, false, None, Some};
ghost use Rattle.intervals.specs.declared.edit.Edit.{Edit};
ghost use Rattle.intervals.specs.declared.edit.Edit.TheVariants.{Withdraw, Claim as ToKind};
ghost use Rattle.intervals.specs.declared.operation.Value.TheVariants.{Nil};
ghost use Rattle.intervals.specs.declared.claim.Kind.TheVariants.{Safe};
ghost use Rattle.intervals.specs.Terms.{ClaimModel, RegisterState, unedited};
ghost use Rattle.intervals.specs.Refusal.{reply_to, carried_out, standing};
ghost use Rattle.intervals.specs.Standing.{StandApart};
ghost use Rattle.intervals.specs.Kind.{Holds};
ghost use Rattle.intervals.specs.Histories.{place};
ghost use Rattle.jepsen_form.specs.declared.gist.RefusedForm.{RefusedForm};
ghost use Rattle.jepsen_form.specs.declared.item.Item.{Item};
ghost use Rattle.tower_file.specs.Contents.{TowerModel};
ghost use Rattle.shards.specs.declared.entry.VerdictChange.{VerdictChange};
ghost use Rattle.shards.specs.Closing.{ClosedShard, journal_of};
ghost use Rattle.shards.specs.Plan.{claims_of};
ghost use Rattle.shards.specs.VerdictChange.{AreVerdictChanges};
ghost use Rattle.logs.specs.declared.log.Log.{Log};
ghost use Rattle.logs.specs.Run.{plan_of_run};
ghost use Rattle.logs.specs.Steps.{edits_among, steps_after, steps_of};
ghost use Rattle.watch.specs.Coming.{ComesLast, ComeInOrder, LeavesReadValues, LeaveReadValues};
ghost use Rattle.watch.specs.Trace.{IsNoFail, IsPlainTrace};
ghost use Rattle.watch.specs.Final.{FailsLast, HasNoFail, IsPlainText};
ghost use Rattle.watch.specs.declared.run.Terms.{Terms};
ghost use Rattle.watch.specs.Settling.{LessPairs, change_fails, changes_on};
ghost use Rattle.watch.specs.Watched.{IsWatched, changes_in};
ghost use Rattle.watch.specs.Healing.{of_unknown_initial, of_one_process, answered_at, read_then_invoked, write_withdrawn, read_of_one, older_write, seven_within_write};

use intervals::laws::texts_decide_nothing;
use shards::laws::{each_front_is_legal, what_is_present_after_all_edits};

/// What was told of a shard is the changes of verdicts by the entries of its journal, in order: all of them, or the
/// first ones where a register that failed ended the watch.
pub fn what_was_told_is_what_changed()
    ensures all { (tower : TowerModel) (terms : Terms) (left : List (Option (List ℕ))) (closed : List ClosedShard) (logs : List Log) (old new : Option (List ℕ))
        → (watched : IsWatched tower terms left closed logs false old new) → (at : ℕ) → at < terms.shards
        → AreVerdictChanges (plan_of_run tower terms.shards watched.traces) (journal_of closed at) (changes_in terms.shards at watched.told) }
    ensures first { (tower : TowerModel) (terms : Terms) (left : List (Option (List ℕ))) (closed : List ClosedShard) (logs : List Log) (old new : Option (List ℕ))
        → (watched : IsWatched tower terms left closed logs true old new) → (at : ℕ) → at < terms.shards
        → (rest : List VerdictChange) × AreVerdictChanges (plan_of_run tower terms.shards watched.traces) (journal_of closed at) (changes_in terms.shards at watched.told ++ rest) }
{}

/// What was written of a register by a watch that no failure ended: the changes of its shard's journal that are its own,
/// less pairs of one to `fails` and the next one, to `holds`. Where no failure is held back it is all changes of the
/// shard.
pub fn only_what_heals_is_left_out()
    ensures settled { (tower : TowerModel) (terms : Terms) (left : List (Option (List ℕ))) (closed : List ClosedShard) (logs : List Log) (old new : Option (List ℕ))
        → (watched : IsWatched tower terms left closed logs false old new) → 0 < terms.shards → (register : ℕ)
        → (changes : List VerdictChange) × AreVerdictChanges (plan_of_run tower terms.shards watched.traces) (journal_of closed (register % terms.shards)) changes
        × LessPairs change_fails (changes_on register changes) (changes_on register (changes_in terms.shards (register % terms.shards) watched.notices)) }
    ensures at_once { (tower : TowerModel) (terms : Terms) (left : List (Option (List ℕ))) (closed : List ClosedShard) (logs : List Log) (old new : Option (List ℕ))
        → (watched : IsWatched tower terms left closed logs false old new) → terms.settle ≡ 0 → (at : ℕ) → at < terms.shards
        → AreVerdictChanges (plan_of_run tower terms.shards watched.traces) (journal_of closed at) (changes_in terms.shards at watched.notices) }
{}

/// A register that fails never holds again under later edits that come in the order of time, whatever the edits
/// before were: where its initial value is known, and else where none of them withdraws a write whose value a
/// finished read returned. Refused edits change nothing.
pub fn a_failed_register_never_holds_again()
    ensures known { (claim : ClaimModel) (edits later : List Edit) → let held = standing (unedited claim) edits in claim.known ≡ true → ComeInOrder held later
        → ¬ Holds held → ¬ Holds (standing (unedited claim) (edits ++ later)) }
    ensures unread { (claim : ClaimModel) (edits later : List Edit) → let held = standing (unedited claim) edits in ComeInOrder held later → LeaveReadValues held later
        → ¬ Holds held → ¬ Holds (standing (unedited claim) (edits ++ later)) }
{}

/// A register that holds after an accepted edit that comes last held before it, where its initial value is known or
/// the edit withdraws no write whose value a finished read returned.
pub fn a_register_that_holds_held_before()
    ensures { (held : RegisterState) (edit : Edit) → StandApart held → reply_to held edit ≡ None → ComesLast held.ops edit
        → (held.claim.known ≡ true) ⊎ LeavesReadValues held.ops edit → Holds (carried_out held edit) → Holds held }
{}

/// The edits of a register among the steps of a plain trace come in the order of time.
pub fn a_plain_trace_comes_in_order()
    ensures { (claim : ClaimModel) (feeder register : ℕ) (items : List (Result Item RefusedForm)) → IsPlainTrace items
        → ComeInOrder (unedited claim) (edits_among register (steps_of feeder items)) }
{}

/// A register that fails after the first elements of a plain trace fails after all longer fronts of it: where its
/// initial value is known, and else where no later element is a `:fail`, or at least none withdraws a write whose value
/// a finished read returned.
pub fn a_trace_that_fails_never_holds_again()
    ensures known { (claim : ClaimModel) (feeder register : ℕ) (items more : List (Result Item RefusedForm)) → claim.known ≡ true → IsPlainTrace (items ++ more)
        → ¬ Holds (standing (unedited claim) (edits_among register (steps_of feeder items)))
        → ¬ Holds (standing (unedited claim) (edits_among register (steps_of feeder (items ++ more)))) }
    ensures without_fail { (claim : ClaimModel) (feeder register : ℕ) (items more : List (Result Item RefusedForm)) → All IsNoFail more → IsPlainTrace (items ++ more)
        → ¬ Holds (standing (unedited claim) (edits_among register (steps_of feeder items)))
        → ¬ Holds (standing (unedited claim) (edits_among register (steps_of feeder (items ++ more)))) }
    ensures unread { (claim : ClaimModel) (feeder register : ℕ) (items more : List (Result Item RefusedForm)) → IsPlainTrace (items ++ more)
        → let held = standing (unedited claim) (edits_among register (steps_of feeder items)) in
        LeaveReadValues held (edits_among register (steps_after feeder items more)) → ¬ Holds held
        → ¬ Holds (standing (unedited claim) (edits_among register (steps_of feeder (items ++ more)))) }
{}

/// Where nobody knows the initial value, a read of 7 that ended before a write of 7 began fails; where that write is
/// then withdrawn, the register may have begun with 7, and holds again.
pub fn a_withdrawn_write_may_heal()
    ensures in_order { ComeInOrder (unedited of_unknown_initial) (read_then_invoked ++ write_withdrawn ∷ []) }
    ensures fails { ¬ Holds (standing (unedited of_unknown_initial) read_then_invoked) }
    ensures holds { Holds (standing (unedited of_unknown_initial) (read_then_invoked ++ write_withdrawn ∷ [])) }
{}

/// Edits that do not come in the order of time may heal too: a write that began before, as of another trace, another
/// value or no end for a read that was finished, its withdrawal, or another claim.
pub fn edits_out_of_order_may_heal()
    ensures fails { ¬ Holds (standing (unedited of_one_process) read_of_one) }
    ensures older { Holds (standing (unedited of_one_process) (read_of_one ++ older_write ∷ [])) }
    ensures value { Holds (standing (unedited of_one_process) (read_of_one ++ answered_at 0 Nil 3 ∷ [])) }
    ensures withdrawn { Holds (standing (unedited of_one_process) (read_of_one ++ Withdraw (place 0) ∷ [])) }
    ensures fails_as_regular { ¬ Holds (standing (unedited of_one_process) seven_within_write) }
    ensures claim { Holds (standing (unedited of_one_process) (seven_within_write ++ ToKind Safe ∷ [])) }
{}

/// In what a watch of one plain trace wrote of a register nothing stands after a change to `fails`: the first failure is
/// final. The register's initial value is known, or no element of the trace is a `:fail`.
pub fn the_first_failure_is_final()
    ensures { (tower : TowerModel) (terms : Terms) (left : List (Option (List ℕ))) (closed : List ClosedShard) (log : Log) (stopped : Bool) (old new : Option (List ℕ))
        → (watched : IsWatched tower terms left closed (log ∷ []) stopped old new) → 0 < terms.shards → All (IsPlainText tower terms.field log.broken) watched.traces
        → (register : ℕ) (claim : ClaimModel) → slice_get (claims_of tower) register ≡ Some claim → (claim.known ≡ true) ⊎ All (HasNoFail tower terms.field log.broken) watched.traces
        → FailsLast change_fails (changes_on register (changes_in terms.shards (register % terms.shards) watched.notices)) }
{
    what_is_present_after_all_edits();
    each_front_is_legal();
    texts_decide_nothing();
}
