//! Laws of this crate's words, which its users may rely on.

ghost use Rattle.std.specs.Prelude.{◌≡◌, ◌↔◌, IsTrue, ℕ, List, Some, filter, length, sum_by};
ghost use Rattle.intervals.specs.declared.operation.Op.{Op};
ghost use Rattle.intervals.specs.Terms.{ClaimModel};
ghost use Rattle.tower_file.specs.Contents.{TowerModel};
ghost use Rattle.jepsen_form.specs.declared.item.MomentField.{MomentField};
ghost use Rattle.pairing.specs.declared.about.About.{About};
ghost use Rattle.register_book.specs.declared.fault.Witness.{Witness};
ghost use Rattle.register_book.specs.Fault.{IsWitness, ids_of, ops_in_roles, roles_of, values_shown};
ghost use Rattle.shards.specs.declared.entry.VerdictChange.{VerdictChange};
ghost use Rattle.shards.specs.Closing.{ClosedShard};
ghost use Rattle.logs.specs.declared.log.Log.{Log};
ghost use Rattle.logs.specs.Run.{IsRun};
ghost use Rattle.report.specs.declared.finding.Finding.{Finding};
ghost use Rattle.report.specs.Finding.{AreFindings, IsOfTower};
ghost use Rattle.report.specs.Doubt.{RestsOn, change_rests_on, rests_on};
ghost use Rattle.report.specs.Culprit.{AreCulprits, culprits_of};
ghost use Rattle.report.specs.Refused.{IsByFrequency, RefusedCode, by_frequency, is_as_frequent, refused, refused_by};
ghost use Rattle.texts.specs.Codes.{refusal_codes};

/// A run leaves a book for each register of its tower.
pub fn a_run_is_of_its_tower()
    ensures { (tower : TowerModel) (chosen : MomentField) (shards : ℕ) (traces : List (List ℕ)) (closed : List ClosedShard) (logs : List Log)
        → IsRun tower chosen shards traces closed logs → IsOfTower tower closed }
{}

/// The culprits that a report names are the registers that fail while all that they are built of hold.
pub fn the_culprits_are_those()
    ensures { (tower : TowerModel) (closed : List ClosedShard) (findings : List Finding) → IsOfTower tower closed
        → length findings ≡ length tower.registers → AreFindings closed 0 findings → AreCulprits tower closed (culprits_of tower findings) }
{}

/// Each refusal is counted under one code: the numbers by code come to the number of all.
pub fn refusals_by_code_are_all()
    ensures { (logs : List Log) → sum_by (λ code. refused_by code logs) refusal_codes ≡ refused logs }
{}

/// The codes of refusals by frequency are the same codes: none is more frequent than one before it, and of those that
/// are as frequent as each other all are there, in the order that they had.
pub fn refusals_come_by_frequency()
    ensures falls { (listed : List RefusedCode) → IsByFrequency (by_frequency listed) }
    ensures each { (listed : List RefusedCode) (many : ℕ) → filter (is_as_frequent many) (by_frequency listed) ≡ filter (is_as_frequent many) listed }
{}

/// The failure of a register rests on an element of it that was left out exactly where the element claims a kind, would
/// have written a value that cannot be read, answers or edits an operation that shows the failure, or would have
/// written the value that such an operation read or wrote.
pub fn what_a_failure_rests_on()
    ensures { (witness : Witness) (about : About) → IsTrue (rests_on (Some witness) about) ↔ RestsOn (ops_in_roles (roles_of witness)) about }
{}

/// What is said to be what a failure rests on by the change of the verdict that tells of it is what it rests on by the
/// operations that show it.
pub fn what_a_change_rests_on()
    ensures { (claim : ClaimModel) (ops : List Op) (witness : Witness) (change : VerdictChange) (about : About) → IsWitness claim ops witness
        → change.fault ≡ Some (ids_of witness) → change.values ≡ values_shown witness → change_rests_on change about ≡ rests_on (Some witness) about }
{}
