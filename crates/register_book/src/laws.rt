//! Laws of the definitions of faults and witnesses. Each is the contract of a function that does nothing.

ghost use Rattle.std.specs.Prelude.{◌≡◌, All, List, [], ◌∷◌, ◌++◌, Some, None};
ghost use Rattle.intervals.specs.declared.operation.Op.{Op};
ghost use Rattle.intervals.specs.declared.edit.Edit.{Edit};
ghost use Rattle.intervals.specs.declared.claim.Kind.TheVariants.{Atomic};
ghost use Rattle.intervals.specs.declared.operation.Value.TheVariants.{Nil};
ghost use Rattle.intervals.specs.Terms.{ClaimModel, unedited};
ghost use Rattle.intervals.specs.Edit.{op_of};
ghost use Rattle.intervals.specs.Refusal.{standing};
ghost use Rattle.intervals.specs.Standing.{HasDistinctIds, HasDistinctMoments, HasOwnValues};
ghost use Rattle.intervals.specs.Kind.{IsAtomic, Holds};
ghost use Rattle.intervals.specs.Histories.{plain_claim, new_before_old};
ghost use Rattle.zones.specs.Examples.{unwritten_read, read_of_nothing, early_read, late_write, read_before_write, first_write, second_read, first_read, unknown, seven_and_one, read_of_seven, read_of_eight};
ghost use Rattle.register_book.specs.declared.fault.Side.TheVariants as sides;
ghost use Rattle.register_book.specs.declared.fault.Witness.{Witness};
ghost use Rattle.register_book.specs.declared.fault.Witness.TheVariants.{Unwritten, Split, Early, Crossing};
ghost use Rattle.register_book.specs.Fault.{IsWitness, IsExcluding, operations_of};

use intervals::laws::{edits_keep_operations_apart, first_wrong_read_ended_first};
use zones::laws::{
    first_early_ended_first, first_split_ended_first, first_unwritten_ended_first,
    one_fault_excludes_every_arrangement, one_first_crossing, worked_faults, worked_unknown,
};

/// The operations of a witness stand, each found by its id.
pub fn a_witness_is_present()
    ensures { (claim : ClaimModel) (ops : List Op) (witness : Witness) → HasDistinctIds ops → IsWitness claim ops witness
        → All (λ op. op_of ops op.id ≡ Some op) (operations_of witness) }
{
    first_wrong_read_ended_first();
    first_unwritten_ended_first();
    first_split_ended_first();
    first_early_ended_first();
    one_first_crossing();
}

/// The witness of an atomic register is an unwritten read, a split, an early read or a crossing, and each of these
/// alone excludes every arrangement: after any edits, no order of the operations shows that the register holds.
pub fn a_witness_excludes_every_arrangement()
    ensures excluding { (claim : ClaimModel) (ops : List Op) (witness : Witness) → claim.kind ≡ Atomic → IsWitness claim ops witness
        → IsExcluding claim ops witness }
    ensures excludes { (claim : ClaimModel) (ops : List Op) (witness : Witness) → HasOwnValues claim ops → IsExcluding claim ops witness
        → ¬ IsAtomic claim ops }
    ensures after_edits { (claim : ClaimModel) (edits : List Edit) (witness : Witness) → let held = standing (unedited claim) edits in held.claim.kind ≡ Atomic
        → IsExcluding held.claim held.ops witness → ¬ Holds held }
{
    first_unwritten_ended_first();
    first_split_ended_first();
    first_early_ended_first();
    one_first_crossing();
    one_fault_excludes_every_arrangement();
    edits_keep_operations_apart();
}

/// A register has at most one witness.
pub fn one_witness()
    ensures { (claim : ClaimModel) (ops : List Op) (witness other : Witness) → HasDistinctMoments ops → IsWitness claim ops witness → IsWitness claim ops other
        → witness ≡ other }
{
    one_first_crossing();
}

/// For each way in which an atomic register fails, a history and its witness.
pub fn worked_witnesses()
    ensures unwritten { IsWitness (plain_claim Atomic Nil None) read_of_nothing (Unwritten unwritten_read) }
    ensures early { IsWitness (plain_claim Atomic Nil None) read_before_write (Early early_read late_write) }
    ensures crossing { IsWitness (plain_claim Atomic Nil None) new_before_old (Crossing (sides.Op first_write) (sides.Op second_read) (sides.Op second_read) (sides.Op first_read)) }
    ensures split { IsWitness unknown (seven_and_one ++ read_of_eight ∷ []) (Split read_of_seven read_of_eight) }
{
    worked_faults();
    worked_unknown();
}
