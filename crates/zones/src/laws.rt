//! Laws of the definitions. Each is the contract of a function that does nothing.

ghost use Rattle.std.specs.Prelude.{◌≡◌, ◌≢◌, ◌↔◌, ◌⊎◌, All, Contains, IsPermutation, List, [], ◌∷◌, ◌++◌, Option, Some, None, true, false};
ghost use Rattle.std.specs.List.{AllPairs};
ghost use Rattle.intervals.specs.declared.operation.Op.{Op};
ghost use Rattle.intervals.specs.declared.operation.Value.{Value};
ghost use Rattle.intervals.specs.declared.operation.Value.TheVariants.{Nil};
ghost use Rattle.intervals.specs.declared.edit.Edit.{Edit};
ghost use Rattle.intervals.specs.declared.claim.Kind.TheVariants.{Atomic};
ghost use Rattle.intervals.specs.Terms.{ClaimModel, unedited};
ghost use Rattle.intervals.specs.Operation.{value_of, judged};
ghost use Rattle.intervals.specs.Refusal.{standing};
ghost use Rattle.intervals.specs.Standing.{HasDistinctMoments, HasEndsAfterBeginnings, HasDistinctValues, HasOwnValues};
ghost use Rattle.intervals.specs.Kind.{Arranges, HasNoWrite, IsAtomic, Holds};
ghost use Rattle.intervals.specs.Histories.{number, plain_claim, new_before_old, unfinished_write, write_between};
ghost use Rattle.zone_tree.specs.declared.edge.Edge.TheVariants.{Before, At, Never};
ghost use Rattle.zone_tree.specs.declared.zone.Zone.{Zone};
ghost use Rattle.zone_tree.specs.Edge.{ComesBefore};
ghost use Rattle.zone_tree.specs.Conflict.{IsClean};
ghost use Rattle.zone_tree.specs.Zone.{Conflicts, HasOrderedEdges};
ghost use Rattle.zones.specs.Cluster.{edge_of_end, cluster_of, least_end_of, greatest_begin_of, zone_of, zones_from, zones_of};
ghost use Rattle.zones.specs.AtFirst.{IsSplit, IsWriteless, first_split, initial_of, start_of, unwritten_of};
ghost use Rattle.zones.specs.Fault.{IsUnwritten, IsEarly, HasLateWrite, IsFirstOf, IsFaultless, first_unwritten, first_early};
ghost use Rattle.zones.specs.Crossing.{IsCrossing, AreExtremes, HasFirstConflict, IsFirstCrossing, IsFirstCrossingFrom};
ghost use Rattle.zones.specs.Turn.{IsInTurn};
ghost use Rattle.zones.specs.Examples.{at, forward, backward, reads_of_nil, write_alone, read_after, read_within, never_ended, never_ended_and_read, unwritten_read, read_of_nothing, early_read, late_write, read_before_write, first_write, second_read, first_read, nil_read, back_to_nil, unknown, seven_and_one, read_of_seven, read_of_eight, late_seven, one_read, one_written, seven_written};

use zone_tree::laws::{one_first_conflict, zones_have_one_order};

/// A register of many writers has an arrangement exactly where, from the value that it begins with, no read is
/// unwritten, no read is early and no two zones conflict.
pub fn faultless_exactly_where_arranged()
    ensures { (claim : ClaimModel) (ops : List Op) → HasDistinctMoments ops → HasEndsAfterBeginnings ops → HasOwnValues claim ops
        → IsFaultless (start_of claim ops) ops ↔ IsAtomic claim ops }
{}

/// A register whose initial value is known begins with it. Where nobody knows it, it begins with the value of the
/// reads of values without a write, where these have one; where they have none or several, with a value that no
/// operation has.
pub fn a_register_begins_with_its_initial_value()
    ensures known { (claim : ClaimModel) (ops : List Op) → claim.known ≡ true → (initial_of claim ops ≡ Some claim.initial) × (start_of claim ops ≡ claim.initial) }
    ensures read { (claim : ClaimModel) (ops : List Op) (value : Value) → claim.known ≡ false → initial_of claim ops ≡ Some value
        → (start_of claim ops ≡ value) × ((r : Op) × Contains ops r × IsWriteless claim ops r × (value_of r.act ≡ value)) × ((r : Op) → Contains ops r → IsWriteless claim ops r → value_of r.act ≡ value) }
    ensures none { (claim : ClaimModel) (ops : List Op) (op : Op) → initial_of claim ops ≡ None → Contains ops op → value_of op.act ≢ start_of claim ops }
    ensures not_written { (claim : ClaimModel) (ops : List Op) → HasOwnValues claim ops → HasNoWrite ops (start_of claim ops) }
{}

/// After any edits of an atomic register its operations are faultless exactly where the register holds, with
/// nothing asked of the edits.
pub fn faultless_exactly_after_any_edits()
    ensures { (claim : ClaimModel) (edits : List Edit) → let held = standing (unedited claim) edits in held.claim.kind ≡ Atomic
        → IsFaultless (start_of held.claim held.ops) held.ops ↔ Holds held }
{}

/// An unwritten read, two reads of different values without a write where nobody knows the initial value, an early
/// read, or four operations that cross exclude every arrangement, each by itself. The initial write may be the
/// first or the third of the four.
pub fn one_fault_excludes_every_arrangement()
    ensures unwritten { (claim : ClaimModel) (ops : List Op) (r : Op) → claim.known ≡ true → Contains ops r → IsUnwritten claim.initial ops r → ¬ IsAtomic claim ops }
    ensures split { (claim : ClaimModel) (ops : List Op) (a b : Op) → claim.known ≡ false → IsSplit claim ops a b → ¬ IsAtomic claim ops }
    ensures early { (claim : ClaimModel) (ops : List Op) (r w : Op) → HasOwnValues claim ops
        → Contains ops r → Contains ops w → IsEarly r w → ¬ IsAtomic claim ops }
    ensures crossing { (claim : ClaimModel) (ops : List Op) (a : Option Op) (b : Op) (c : Option Op) (d : Op) → HasOwnValues claim ops
        → IsCrossing (start_of claim ops) ops a b c d → ¬ IsAtomic claim ops }
{}

/// Where a register is faultless each order in turn is an arrangement; and there is exactly one order in turn.
pub fn an_order_in_turn_is_an_arrangement()
    ensures arranges { (claim : ClaimModel) (ops order : List Op) → HasDistinctMoments ops → HasEndsAfterBeginnings ops → IsFaultless claim.initial ops
        → IsPermutation (judged ops) order → IsInTurn claim.initial ops order → Arranges claim ops order }
    ensures exists { (initial : Value) (ops : List Op) → (order : List Op) × IsPermutation (judged ops) order × IsInTurn initial ops order }
    ensures one { (initial : Value) (ops order other : List Op) → HasDistinctMoments ops → IsPermutation (judged ops) order → IsPermutation (judged ops) other
        → IsInTurn initial ops order → IsInTurn initial ops other → order ≡ other }
{}

/// A cluster holds the judged operations of its value, and its edges are theirs: none ends before the least end or
/// begins after the greatest beginning, and one of them has it, if there are any. In the cluster of the initial
/// value the initial write has the least end.
pub fn edges_are_those_of_the_cluster()
    ensures members { (ops : List Op) (value : Value) (op : Op) → Contains (cluster_of ops value) op ↔ (Contains (judged ops) op × (value_of op.act ≡ value)) }
    ensures least { (initial : Value) (ops : List Op) (value : Value) (op : Op) → Contains (cluster_of ops value) op
        → ¬ ComesBefore (edge_of_end op.end) (least_end_of initial ops value) }
    ensures greatest { (initial : Value) (ops : List Op) (value : Value) (op : Op) → Contains (cluster_of ops value) op
        → ¬ ComesBefore (greatest_begin_of initial ops value) (At op.begin) }
    ensures least_of_one { (initial : Value) (ops : List Op) (value : Value) → value ≢ initial
        → (least_end_of initial ops value ≡ Never) ⊎ ((op : Op) × Contains (cluster_of ops value) op × (edge_of_end op.end ≡ least_end_of initial ops value)) }
    ensures greatest_of_one { (initial : Value) (ops : List Op) (value : Value)
        → (greatest_begin_of initial ops value ≡ Before) ⊎ ((op : Op) × Contains (cluster_of ops value) op × (At op.begin ≡ greatest_begin_of initial ops value)) }
    ensures initial { (initial : Value) (ops : List Op) → least_end_of initial ops initial ≡ Before }
{}

/// The zones of two values conflict exactly where four operations of these values cross.
pub fn zones_conflict_where_operations_cross()
    ensures conflict { (initial : Value) (ops : List Op) (u v : Value) → u ≢ v → Conflicts (zone_of initial ops u) (zone_of initial ops v)
        → (a : Option Op) × (b : Op) × (c : Option Op) × (d : Op) × IsCrossing initial ops a b c d × (value_of d.act ≡ u) × (value_of b.act ≡ v) }
    ensures crossing { (initial : Value) (ops : List Op) (a : Option Op) (b : Op) (c : Option Op) (d : Op) → IsCrossing initial ops a b c d
        → Conflicts (zone_of initial ops (value_of d.act)) (zone_of initial ops (value_of b.act)) }
{}

/// Of two zones that conflict the operations of least end and greatest beginning cross, and there are such
/// operations, the initial write among them where one of the values is the initial one.
pub fn extremes_of_a_conflict_cross()
    ensures crossing { (initial : Value) (ops : List Op) (u v : Value) (a : Option Op) (b : Op) (c : Option Op) (d : Op) → u ≢ v
        → Conflicts (zone_of initial ops u) (zone_of initial ops v) → AreExtremes initial ops u v a b c d → IsCrossing initial ops a b c d }
    ensures exist { (initial : Value) (ops : List Op) (u v : Value) → Conflicts (zone_of initial ops u) (zone_of initial ops v)
        → (a : Option Op) × (b : Op) × (c : Option Op) × (d : Op) × AreExtremes initial ops u v a b c d }
{}

/// The first unwritten read is the unwritten read that ended first.
pub fn first_unwritten_ended_first()
    ensures first { (initial : Value) (ops : List Op) (r : Op) → first_unwritten initial ops ≡ Some r → IsFirstOf (IsUnwritten initial ops) ops r }
    ensures only { (initial : Value) (ops : List Op) (r : Op) → HasDistinctMoments ops → IsFirstOf (IsUnwritten initial ops) ops r → first_unwritten initial ops ≡ Some r }
    ensures none { (initial : Value) (ops : List Op) → (first_unwritten initial ops ≡ None) ↔ All (λ r. ¬ IsUnwritten initial ops r) ops }
{}

/// The first early read is the early read that ended first, and it comes with the write of its value.
pub fn first_early_ended_first()
    ensures first { (ops : List Op) (r w : Op) → first_early ops ≡ Some (r, w) → IsFirstOf (HasLateWrite ops) ops r × Contains ops w × IsEarly r w }
    ensures only { (initial : Value) (ops : List Op) (r w : Op) → HasDistinctMoments ops → HasDistinctValues initial ops
        → IsFirstOf (HasLateWrite ops) ops r → Contains ops w → IsEarly r w → first_early ops ≡ Some (r, w) }
    ensures none { (ops : List Op) → (first_early ops ≡ None) ↔ All (λ r. All (λ w. ¬ IsEarly r w) ops) ops }
{}

/// The first read of a split is the one that ended first of the reads of values without a write, and the second
/// the one that ended first of those of another such value; and there is none exactly where all such reads return
/// one value.
pub fn first_split_ended_first()
    ensures first { (claim : ClaimModel) (ops : List Op) (a b : Op) → first_split claim ops ≡ Some (a, b) → (claim.known ≡ false)
        × IsFirstOf (IsWriteless claim ops) ops a × IsFirstOf (λ r. IsWriteless claim ops r × (value_of r.act ≢ value_of a.act)) ops b }
    ensures split { (claim : ClaimModel) (ops : List Op) (a b : Op) → first_split claim ops ≡ Some (a, b) → IsSplit claim ops a b }
    ensures none { (claim : ClaimModel) (ops : List Op) → claim.known ≡ false → first_split claim ops ≡ None → (a b : Op) → ¬ IsSplit claim ops a b }
{}

/// From a given value a register is faultless exactly where there is no first unwritten read, no first early read
/// and no conflict; from the value that it begins with exactly where there is no first split either.
pub fn faultless_where_no_fault_is_first()
    ensures initial { (initial : Value) (ops : List Op) → IsFaultless initial ops
        ↔ ((first_unwritten initial ops ≡ None) × (first_early ops ≡ None) × IsClean (zones_of initial ops)) }
    ensures start { (claim : ClaimModel) (ops : List Op) → IsFaultless (start_of claim ops) ops
        ↔ ((unwritten_of claim ops ≡ None) × (first_split claim ops ≡ None) × (first_early ops ≡ None) × IsClean (zones_from (initial_of claim ops) ops)) }
{}

/// Zones have their edges in order, and no two of one register have one left edge.
pub fn zones_stand_apart()
    ensures ordered { (initial : Value) (ops : List Op) → All HasOrderedEdges (zones_of initial ops) }
    ensures left { (initial : Value) (ops : List Op) → HasDistinctMoments ops → HasDistinctValues initial ops
        → AllPairs (λ a b. a.left ≢ b.left) (zones_of initial ops) }
{}

/// Whether zones are clean does not depend on the order in which they are given.
pub fn clean_in_any_order()
    ensures { (zones others : List Zone) → IsPermutation zones others → IsClean zones ↔ IsClean others }
{}

/// A register has at most one first conflict and at most one first crossing, and a first crossing is a crossing.
/// Where the initial value is optional, a first crossing is one from the value that the register begins with.
pub fn one_first_crossing()
    ensures one_conflict { (initial : Value) (ops : List Op) (first second third fourth : Zone) → HasFirstConflict initial ops first second
        → HasFirstConflict initial ops third fourth → (first ≡ third) × (second ≡ fourth) }
    ensures one { (initial : Value) (ops : List Op) (a : Option Op) (b : Op) (c : Option Op) (d : Op) (e : Option Op) (f : Op) (g : Option Op) (h : Op) → HasDistinctMoments ops
        → IsFirstCrossing initial ops a b c d → IsFirstCrossing initial ops e f g h → (a ≡ e) × (b ≡ f) × (c ≡ g) × (d ≡ h) }
    ensures crossing { (initial : Value) (ops : List Op) (a : Option Op) (b : Op) (c : Option Op) (d : Op) → IsFirstCrossing initial ops a b c d → IsCrossing initial ops a b c d }
    ensures start { (claim : ClaimModel) (ops : List Op) (a : Option Op) (b : Op) (c : Option Op) (d : Op)
        → IsFirstCrossingFrom (initial_of claim ops) (start_of claim ops) ops a b c d → IsFirstCrossing (start_of claim ops) ops a b c d }
{
    zones_have_one_order();
    one_first_conflict();
}

/// The zone of a value, from what its cluster holds.
pub fn worked_zones()
    ensures initial { zone_of Nil write_alone Nil ≡ backward Before Before Nil }
    ensures initial_read { zone_of Nil reads_of_nil Nil ≡ forward Before (at 7) Nil }
    ensures write { zone_of Nil write_alone (number 1) ≡ backward (at 0) (at 1) (number 1) }
    ensures read_after { zone_of Nil read_after (number 1) ≡ forward (at 1) (at 6) (number 1) }
    ensures read_within { zone_of Nil read_within (number 1) ≡ backward (at 4) (at 5) (number 1) }
    ensures never_ended { zone_of Nil never_ended (number 1) ≡ backward (at 0) Never (number 1) }
    ensures never_ended_and_read { zone_of Nil never_ended_and_read (number 1) ≡ backward (at 5) (at 6) (number 1) }
{}

/// The histories of those zones hold: the operations, as they are listed, are an arrangement.
pub fn worked_orders()
    ensures reads_of_nil { Arranges (plain_claim Atomic Nil None) reads_of_nil reads_of_nil }
    ensures write { Arranges (plain_claim Atomic Nil None) write_alone write_alone }
    ensures read_after { Arranges (plain_claim Atomic Nil None) read_after read_after }
    ensures read_within { Arranges (plain_claim Atomic Nil None) read_within read_within }
    ensures never_ended { Arranges (plain_claim Atomic Nil None) never_ended never_ended }
    ensures never_ended_and_read { Arranges (plain_claim Atomic Nil None) never_ended_and_read never_ended_and_read }
{}

/// A history for each way to fail, and none of them has an arrangement.
pub fn worked_faults()
    ensures unwritten { IsUnwritten Nil read_of_nothing unwritten_read }
    ensures no_order_with_unwritten { ¬ IsAtomic (plain_claim Atomic Nil None) read_of_nothing }
    ensures first_unwritten { first_unwritten Nil read_of_nothing ≡ Some unwritten_read }
    ensures early { IsEarly early_read late_write }
    ensures first_early { first_early read_before_write ≡ Some (early_read, late_write) }
    ensures no_order_with_early { ¬ IsAtomic (plain_claim Atomic Nil None) read_before_write }
    ensures zones { zones_of Nil new_before_old ≡ backward Before Before Nil ∷ forward (at 1) (at 6) (number 1) ∷ backward (at 4) (at 5) (number 2) ∷ [] }
    ensures conflict { Conflicts (zone_of Nil new_before_old (number 1)) (zone_of Nil new_before_old (number 2)) }
    ensures crossing { IsCrossing Nil new_before_old (Some first_write) second_read (Some second_read) first_read }
    ensures extremes { AreExtremes Nil new_before_old (number 1) (number 2) (Some first_write) second_read (Some second_read) first_read }
    ensures first_conflict { HasFirstConflict Nil new_before_old (forward (at 1) (at 6) (number 1)) (backward (at 4) (at 5) (number 2)) }
    ensures first_crossing { IsFirstCrossing Nil new_before_old (Some first_write) second_read (Some second_read) first_read }
    ensures no_order_with_crossing { ¬ IsAtomic (plain_claim Atomic Nil None) new_before_old }
    ensures initial_first { IsCrossing Nil back_to_nil None first_write (Some first_write) nil_read }
    ensures initial_extreme { AreExtremes Nil back_to_nil Nil (number 1) None first_write (Some first_write) nil_read }
    ensures initial_third { IsCrossing Nil back_to_nil (Some first_write) nil_read None first_write }
    ensures no_order_back_to_initial { ¬ IsAtomic (plain_claim Atomic Nil None) back_to_nil }
{}

/// An unfinished write comes in turn after the read of the initial value, though it began before it.
pub fn worked_turns()
    ensures zones { zones_of Nil unfinished_write ≡ forward Before (at 2) Nil ∷ backward (at 5) (at 6) (number 1) ∷ [] }
    ensures in_turn { IsInTurn Nil unfinished_write write_between }
    ensures by_beginning { ¬ IsInTurn Nil unfinished_write unfinished_write }
{}

/// Where nobody knows the initial value: with a read of 7, a write of 1 and a read of 1 it is 7; with a read of 8
/// after them there is a split, with a second read of 7 after them a crossing; and with a write of 7 after that
/// the first read is early.
pub fn worked_unknown()
    ensures initial { initial_of unknown seven_and_one ≡ Some (number 7) }
    ensures split { first_split unknown (seven_and_one ++ read_of_eight ∷ []) ≡ Some (read_of_seven, read_of_eight) }
    ensures is_split { IsSplit unknown (seven_and_one ++ read_of_eight ∷ []) read_of_seven read_of_eight }
    ensures no_initial { initial_of unknown (seven_and_one ++ read_of_eight ∷ []) ≡ None }
    ensures no_order_with_split { ¬ IsAtomic unknown (seven_and_one ++ read_of_eight ∷ []) }
    ensures zones { zones_from (initial_of unknown (seven_and_one ++ late_seven ∷ [])) (seven_and_one ++ late_seven ∷ []) ≡ forward Before (at 6) (number 7) ∷ forward (at 3) (at 4) (number 1) ∷ [] }
    ensures crossing { IsCrossing (number 7) (seven_and_one ++ late_seven ∷ []) None one_read (Some one_written) late_seven }
    ensures no_order_with_crossing { ¬ IsAtomic unknown (seven_and_one ++ late_seven ∷ []) }
    ensures early { first_early (seven_and_one ++ late_seven ∷ seven_written ∷ []) ≡ Some (read_of_seven, seven_written) }
    ensures nothing_tells { initial_of unknown write_alone ≡ None }
{}
