//! Laws of the definitions: where a run's texts come from, what the steps of a prefix of a trace are, and what a
//! feeder has added to its pass and its log. Each is the contract of a function that does nothing.

ghost use Rattle.std.specs.Prelude.{◌≡◌, ◌%◌, ◌++◌, ℕ, false, List, Option, Some, Result, length, All};
ghost use Rattle.std.specs.List.{AllByRecursion, slice_get};
ghost use Rattle.intervals.specs.Terms.{RegisterState};
ghost use Rattle.tower_file.specs.Contents.{TowerModel};
ghost use Rattle.edn_reader.specs.Grammar.{ElementModel};
ghost use Rattle.jepsen_form.specs.declared.gist.RefusedForm.{RefusedForm};
ghost use Rattle.jepsen_form.specs.declared.item.Item.{Item};
ghost use Rattle.jepsen_form.specs.declared.item.MomentField.{MomentField};
ghost use Rattle.shards.specs.declared.entry.Entry.{Entry};
ghost use Rattle.shards.specs.Plan.{Plan};
ghost use Rattle.shards.specs.Journal.{IsLegalJournal, standing_of};
ghost use Rattle.shards.specs.Closing.{ClosedShard, book_of, journal_of};
ghost use Rattle.intervals.specs.declared.operation.RegId.{RegId};
ghost use Rattle.shards.specs.declared.entry.Answer.{Answer};
ghost use Rattle.shards.specs.Pass.{PassModel, SeenModel, learnt};
ghost use Rattle.shards.specs.Steps.{IsLive};
ghost use Rattle.feeders.specs.declared.intake.Intake.{Intake};
ghost use Rattle.feeders.specs.Adding.{HasAdded};
ghost use Rattle.logs.specs.Doings.{Doing, IsAnswerAfter, entered_in};
ghost use Rattle.feeders.specs.Feeding.{FeederModel, IsFedUpTo};
ghost use Rattle.feeders.specs.Intake.{HasFed};
ghost use Rattle.feeders.specs.Setting.{Setting};
ghost use Rattle.logs.specs.Start.{Start, first_start};
ghost use Rattle.logs.specs.declared.log.Broken.{Broken};
ghost use Rattle.logs.specs.declared.log.Log.{Log};
ghost use Rattle.logs.specs.Broken.{AreElements};
ghost use Rattle.feeders.specs.Readers.{broke_reading};
ghost use Rattle.logs.specs.Steps.{AreItemsOfTrace};
ghost use Rattle.feeders.specs.Prefixes.{PlainTaken, plain_steps};
ghost use Rattle.logs.specs.Run.{IsRun};
ghost use Rattle.feeders.specs.Texts.{TextKind, text_of, IsLastSettled, IsSlice, TraceReading, IsOfStep, IsLentByTrace};

use edn_reader::laws::{elements_of_a_prefix, told_so_far};
use jepsen_form::laws::one_item;
use shards::laws::{a_lone_feeder_has_all_entries, a_pass_stays_of_its_plan, what_was_told_stays};

/// Of an operation that stands after a legal journal, the text of each kind, or that there is none, is what the
/// last of its accepted edits that makes something of this kind makes of it.
pub fn the_last_edit_settles_a_text()
    ensures { (plan : Plan) (at register : ℕ) (journal : List Entry) → IsLegalJournal plan at journal
        → All (λ op. (part : TextKind) → IsLastSettled register journal op.id part (text_of part op.parts)) (standing_of register journal) }
{}

/// The bytes of each element of a trace are those of the trace from the element's first place on.
pub fn elements_are_slices()
    ensures { (trace : List ℕ) (broken : Option Broken) (pieces : List ElementModel) → AreElements trace broken pieces → AllByRecursion (IsSlice trace) pieces }
{}

/// Each entry of a journal of a run is the edit of a step of its feeder's trace, and a text that it lends is the
/// element at the step's place.
pub fn an_entry_is_the_edit_of_a_step()
    ensures { (tower : TowerModel) (chosen : MomentField) (shards : ℕ) (traces : List (List ℕ)) (closed : List ClosedShard) (logs : List Log) → IsRun tower chosen shards traces closed logs
        → (at number : ℕ) (entry : Entry) → slice_get (journal_of closed at) number ≡ Some entry
        → (reading : TraceReading tower chosen traces logs entry.feeder) × (place : ℕ) × IsOfStep entry.feeder reading.trace reading.are.pieces reading.items entry place }
{}

/// Each text of an operation that stands at the end of a run is an element of its feeder's trace: the invocation
/// the one at the event of its id, the answer and the amendment later ones, each that of the last accepted edit
/// which brings it.
pub fn texts_are_elements_of_their_trace()
    ensures { (tower : TowerModel) (chosen : MomentField) (shards : ℕ) (traces : List (List ℕ)) (closed : List ClosedShard) (logs : List Log) → IsRun tower chosen shards traces closed logs
        → (register : ℕ) (held : RegisterState) → book_of closed register ≡ Some held
        → All (IsLentByTrace tower chosen traces logs register (journal_of closed (register % length closed))) held.ops }
{}

/// The steps of a prefix of a trace, as they read, are the first of the steps of the trace: what comes later
/// changes no earlier step, whether the prefix is a text, breaks in its text or is where the reading broke off.
/// (A trace whose own reading broke off is left out here: it may lack a last Atom that the prefix has.)
pub fn steps_of_a_prefix()
    ensures { (tower : TowerModel) (chosen : MomentField) (feeder : ℕ) (bytes more : List ℕ) (broken later : Option Broken) (items all : List (Result Item RefusedForm))
        → AreItemsOfTrace tower chosen bytes broken items → AreItemsOfTrace tower chosen (bytes ++ more) later all → broke_reading later ≡ false
        → (rest : List PlainTaken) × (plain_steps feeder all ≡ plain_steps feeder items ++ rest) }
{
    elements_of_a_prefix();
    one_item();
}

/// Whether its last call was refused or not, a feeder has added to its pass and its log the steps of the elements
/// that have ended in the bytes which it has taken, but for one at most, which waits.
pub fn what_a_feeder_has_added()
    ensures { (setting : Setting) (bytes next : List ℕ) (intake : Intake) (pass : PassModel) → HasFed setting bytes next intake pass → HasAdded setting bytes next pass intake.progress.log }
{
    told_so_far();
}

/// A pass may ask or learn something between two calls of a feeder: what the feeder has taken stays taken, and it
/// goes on with that pass.
pub fn a_pass_may_ask_and_learn_between_two_calls()
    ensures asked { (plan : Plan) (start : Start) (bytes coming : List ℕ) (feeding : FeederModel) (pass after : PassModel) (register : ℕ) (answer : Answer)
        → IsLive plan pass after register answer → IsFedUpTo plan start bytes coming feeding pass → IsFedUpTo plan start bytes coming feeding after }
    ensures learnt { (plan : Plan) (start : Start) (bytes coming : List ℕ) (feeding : FeederModel) (pass : PassModel) (seen : SeenModel)
        → IsFedUpTo plan start bytes coming feeding pass → IsFedUpTo plan start bytes coming feeding (learnt pass seen) }
{
    what_was_told_stays();
    a_pass_stays_of_its_plan();
}

/// Where there is one feeder, and its pass had no entries before, its questions are answered after exactly as many
/// entries of the shard as it had entered there before.
pub fn one_trace_alone_is_answered_after_its_own_entries()
    ensures { (plan : Plan) (before : List Doing) (register : RegId) (answer : Answer) → plan.feeders ≡ 1 → IsAnswerAfter plan (first_start 0) before register answer
        → answer.number ≡ length (entered_in plan.shards 0 (register.0 % plan.shards) before) }
{
    a_lone_feeder_has_all_entries();
}
