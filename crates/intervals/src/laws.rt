//! Laws of the definitions. Each is the contract of a function that does nothing.

ghost use Rattle.std.specs.Prelude.{◌≡◌, ◌↔◌, ◌⊎◌, All, Contains, IsTrue, List, [], ◌∷◌, ◌++◌, true, false, map, length, take, drop, None, Some};
ghost use Rattle.intervals.specs.declared.operation.Op.{Op};
ghost use Rattle.intervals.specs.declared.operation.OpId.{OpId};
ghost use Rattle.intervals.specs.declared.operation.Moment.{Moment};
ghost use Rattle.intervals.specs.declared.refusal.Refusal.TheVariants.{UnknownOp, OpTaken, EndNotAfterBegin, MomentTaken, MomentTooLarge, NotAWriter, WritesOverlap, ValueTaken, OutOfDomain, ClaimFixed, ClaimWriters, ClaimInitial, ClaimOverlap, ClaimRepeats};
ghost use Rattle.intervals.specs.declared.claim.Holder.{Holder};
ghost use Rattle.intervals.specs.declared.claim.Holder.TheVariants as holders;
ghost use Rattle.intervals.specs.declared.edit.Edit.{Edit};
ghost use Rattle.intervals.specs.declared.edit.Edit.TheVariants.{Append, Withdraw, Claim as ToKind};
ghost use Rattle.intervals.specs.Terms.{ClaimModel, RegisterState, IsKnownUnlessAtomic, unedited, state_of};
ghost use Rattle.intervals.specs.declared.claim.Kind.TheVariants.{Safe, Regular, Atomic};
ghost use Rattle.intervals.specs.declared.operation.Act.TheVariants.{Read, Write};
ghost use Rattle.intervals.specs.declared.operation.Value.TheVariants.{Nil};
ghost use Rattle.intervals.specs.Operation.{Precedes, Overlaps, IsWrite, IsJudgedRead, value_of, judged, writes};
ghost use Rattle.intervals.specs.Edit.{op_of};
ghost use Rattle.intervals.specs.Bare.{bare_edit, bare_held};
ghost use Rattle.intervals.specs.Refusal.{first_refusal, moments_refusal, moment_taken, write_refusal, overlap_refusal, is_overlapped, value_refusal, holder_of, overlaps_another, first_overlap, first_repeat, reply_to, carried_out, standing};
ghost use Rattle.intervals.specs.Standing.{HasDistinctIds, HasNoOverlappingWrites, HasOwnValues, StandApart, IsHolder, IsInitial, IsMomentHolder};
ghost use Rattle.intervals.specs.Least.{IsLeast, least_by};
ghost use Rattle.intervals.specs.Kind.{IsSafe, IsRegular, IsSafeRead, IsRegularRead, Arranges, Holds};
ghost use Rattle.intervals.specs.Judging.{first_wrong, is_wrong_read, end_number};
ghost use Rattle.intervals.specs.Histories.{number, place, op, from_to, mended, end_at, a_write_and_a_read, edits_with_refused_ones, two_writers, two_writes, written_by, first_wrong_id, late_reads, reads_over_two, faults_one_by_one, plain_claim, claim_of_one, writes_over_writes, claims_and_writes, read_after_write, read_within_write, ten_values, new_before_old, older_of_two, old_before_new, unfinished_write, write_between};

/// The operations are those of a safe register (`IsSafe`) exactly when the test finds no wrong read.
pub fn safe_without_wrong_reads()
    ensures { (claim : ClaimModel) (ops : List Op) → claim.kind ≡ Safe
        → (first_wrong claim ops ≡ None) ↔ IsSafe claim ops }
{}

/// The operations are those of a regular register (`IsRegular`) exactly when the test finds no wrong read.
pub fn regular_without_wrong_reads()
    ensures { (claim : ClaimModel) (ops : List Op) → claim.kind ≡ Regular
        → (first_wrong claim ops ≡ None) ↔ IsRegular claim ops }
{}

/// The first wrong read stands, is wrong, and no other wrong read ended before it.
pub fn first_wrong_read_ended_first()
    ensures { (claim : ClaimModel) (ops : List Op) (r : Op) → first_wrong claim ops ≡ Some r
        → IsLeast end_number (is_wrong_read claim ops) ops r }
{}

/// Where no wrong read is found no read is wrong.
pub fn none_wrong_without_a_first()
    ensures { (claim : ClaimModel) (ops : List Op) → first_wrong claim ops ≡ None
        → All (λ r. ¬ IsTrue (is_wrong_read claim ops r)) ops }
{}

/// A read is wrong exactly when it has an end and is not as the kind of its register promises (`IsSafeRead`,
/// `IsRegularRead`).
pub fn wrong_reads_break_their_sentence()
    ensures safe { (claim : ClaimModel) (ops : List Op) (r : Op) → claim.kind ≡ Safe
        → IsTrue (is_wrong_read claim ops r) ↔ (IsJudgedRead r × ¬ IsSafeRead claim ops r) }
    ensures regular { (claim : ClaimModel) (ops : List Op) (r : Op) → claim.kind ≡ Regular
        → IsTrue (is_wrong_read claim ops r) ↔ (IsJudgedRead r × ¬ IsRegularRead claim ops r) }
{}

/// The write that X7 names stands, overlaps the new one, and of all that do began first; and none is named exactly
/// where none overlaps.
pub fn first_overlapped_write_began_first()
    ensures named { (ops : List Op) (op : Op) (id : OpId) → overlap_refusal ops op ≡ Some (WritesOverlap id)
        → (other : Op) × (other.id ≡ id) × IsLeast (λ o. o.begin.0) (is_overlapped op) ops other }
    ensures none { (ops : List Op) (op : Op) → (overlap_refusal ops op ≡ None) ↔ All (λ other. ¬ IsTrue (is_overlapped op other)) ops }
{}

/// The operation that X4 names is another that stands and has the moment. The beginning is asked about before the
/// end; and none is named exactly where no other operation has the moment.
pub fn taken_moments_have_a_holder()
    ensures named { (ops : List Op) (op : Op) (moment : Moment) (id : OpId) → moments_refusal ops op ≡ Some (MomentTaken moment id)
        → (other : Op) × (other.id ≡ id) × Contains ops other × IsMomentHolder op moment other }
    ensures beginning_first { (ops : List Op) (op : Op) (moment : Moment) (id : OpId) → moments_refusal ops op ≡ Some (MomentTaken moment id)
        → (moment ≡ op.begin) ⊎ ((op.end ≡ Some moment) × All (λ other. ¬ IsMomentHolder op op.begin other) ops) }
    ensures none { (ops : List Op) (op : Op) (moment : Moment) → (moment_taken ops op.id (Some moment) ≡ None) ↔ All (λ other. ¬ IsMomentHolder op moment other) ops }
{}

/// The holder that X8 names has the value: the register at first, where that is known, or another write that
/// stands; and none is named exactly where none has it.
pub fn taken_values_have_a_holder()
    ensures initial { (claim : ClaimModel) (ops : List Op) (op : Op) → (value_refusal claim ops op ≡ Some (ValueTaken holders.Initial)) ↔ IsInitial claim (value_of op.act) }
    ensures write { (claim : ClaimModel) (ops : List Op) (op : Op) (id : OpId) → value_refusal claim ops op ≡ Some (ValueTaken (holders.Op id))
        → (other : Op) × (other.id ≡ id) × Contains ops other × IsHolder op other }
    ensures none { (claim : ClaimModel) (ops : List Op) (op : Op) → (value_refusal claim ops op ≡ None) ↔ ((¬ IsInitial claim (value_of op.act)) × All (λ other. ¬ IsHolder op other) ops) }
{}

/// Of the two writes that X12 names the first is the one that begins first among those that overlap another, and
/// the second the one that begins first among those that overlap the first. Where ids are distinct, none are named
/// exactly where no writes overlap.
pub fn first_overlap_began_first()
    ensures named { (ops : List Op) (a b : OpId) → first_overlap ops ≡ Some (a, b)
        → (w : Op) × (v : Op) × (w.id ≡ a) × (v.id ≡ b) × IsLeast (λ o. o.begin.0) (overlaps_another ops) ops w × IsLeast (λ o. o.begin.0) (is_overlapped w) ops v }
    ensures none { (ops : List Op) → HasDistinctIds ops → (first_overlap ops ≡ None) ↔ HasNoOverlappingWrites ops }
{}

/// The write that X13 names repeats the value of the holder that X13 names: the register at first, or a write that
/// was appended before. No earlier write repeats a value. Where ids are distinct, none is named exactly where no
/// write repeats a value (`HasOwnValues`).
pub fn first_repeat_was_appended_first()
    ensures named { (claim : ClaimModel) (ops : List Op) (id : OpId) (holder : Holder) → first_repeat claim [] ops ≡ Some (id, holder)
        → (front : List Op) × (w : Op) × (rest : List Op) × (ops ≡ front ++ w ∷ rest) × (w.id ≡ id) × IsWrite w × (holder_of claim front w ≡ Some holder) × (first_repeat claim [] front ≡ None) }
    ensures none { (claim : ClaimModel) (ops : List Op) → HasDistinctIds ops → (first_repeat claim [] ops ≡ None) ↔ HasOwnValues claim ops }
{}

/// What is so after any edits of an empty register: ids are distinct, and moments are; each end is after its
/// beginning, and no moment is past the greatest; the claim permits each write; on a safe or regular register no
/// two writes overlap, and on an atomic one no two have the same value, nor one the initial value where that is
/// known. Each accepted edit keeps this under the kind that is claimed then; no safe or regular register comes to
/// have an unknown initial value; and of the claim nothing but the kind changes.
pub fn edits_keep_operations_apart()
    ensures apart { (claim : ClaimModel) (edits : List Edit) → StandApart (standing (unedited claim) edits) }
    ensures carried_out { (held : RegisterState) (edit : Edit) → StandApart held → reply_to held edit ≡ None
        → StandApart (carried_out held edit) }
    ensures known_after { (held : RegisterState) (edit : Edit) → IsKnownUnlessAtomic held.claim → reply_to held edit ≡ None
        → IsKnownUnlessAtomic (carried_out held edit).claim }
    ensures known { (claim : ClaimModel) (edits : List Edit) → IsKnownUnlessAtomic claim → IsKnownUnlessAtomic (standing (unedited claim) edits).claim }
    ensures claim { (claim : ClaimModel) (edits : List Edit) → let after = (standing (unedited claim) edits).claim in after ≡ record claim { kind = after.kind } }
{}

/// Operations for which `StandApart` is true can be appended again in their order, each to those before it.
pub fn operations_apart_are_accepted()
    ensures { (claim : ClaimModel) (front rest : List Op) (op : Op) → StandApart (state_of claim (front ++ op ∷ rest)) → reply_to (state_of claim front) (Append op) ≡ None }
{}

/// Reads without an end change neither the verdict of a safe or regular register nor the refusal of a write.
pub fn judged_operations_alone_count()
    ensures fault { (claim : ClaimModel) (ops : List Op) → first_wrong claim (judged ops) ≡ first_wrong claim ops }
    ensures safe { (claim : ClaimModel) (ops : List Op) → IsSafe claim (judged ops) ↔ IsSafe claim ops }
    ensures regular { (claim : ClaimModel) (ops : List Op) → IsRegular claim (judged ops) ↔ IsRegular claim ops }
    ensures refusal { (claim : ClaimModel) (ops : List Op) (op : Op) → write_refusal claim (judged ops) op ≡ write_refusal claim ops op }
{}

/// The writes alone decide whether a read is wrong, and whether a write is refused.
pub fn writes_alone_decide()
    ensures read { (claim : ClaimModel) (ops : List Op) (r : Op) → is_wrong_read claim (writes ops) r ≡ is_wrong_read claim ops r }
    ensures fault { (claim : ClaimModel) (ops : List Op) → least_by end_number (is_wrong_read claim (writes ops)) ops ≡ first_wrong claim ops }
    ensures refusal { (claim : ClaimModel) (ops : List Op) (op : Op) → write_refusal claim (writes ops) op ≡ write_refusal claim ops op }
{}

/// The texts that operations lend decide no reply and no verdict, and of what stands nothing but its texts.
pub fn texts_decide_nothing()
    ensures reply { (held : RegisterState) (edit : Edit) → reply_to (bare_held held) (bare_edit edit) ≡ reply_to held edit }
    ensures standing { (claim : ClaimModel) (edits : List Edit) → bare_held (standing (unedited claim) (map bare_edit edits)) ≡ bare_held (standing (unedited claim) edits) }
    ensures verdict { (held : RegisterState) → Holds (bare_held held) ↔ Holds held }
    ensures alike { (claim : ClaimModel) (edits others : List Edit) → map bare_edit edits ≡ map bare_edit others
        → let one = standing (unedited claim) edits in let other = standing (unedited claim) others in
        (one.claim ≡ other.claim) × (Holds one ↔ Holds other) × (length one.ops ≡ length other.ops) }
{}

/// Safe registers: which reads are right after a write, and within one.
pub fn safe_histories()
    ensures newest { IsSafe (plain_claim Safe (number 0) None) (read_after_write (number 1)) }
    ensures stale { ¬ IsSafe (plain_claim Safe (number 0) None) (read_after_write (number 0)) }
    ensures anything { IsSafe (plain_claim Safe (number 0) None) (read_within_write (number 7)) }
    ensures in_domain { IsSafe (plain_claim Safe (number 0) (Some ten_values)) (read_within_write (number 7)) }
    ensures out_of_domain { ¬ IsSafe (plain_claim Safe (number 0) (Some ten_values)) (read_within_write (number 12)) }
{}

/// Regular registers: within a write the old value and the new one are right, in any order, and of two overlapped
/// writes the older one's value too.
pub fn regular_histories()
    ensures new_before_old { IsRegular (plain_claim Regular Nil None) new_before_old }
    ensures older_of_two { IsRegular (plain_claim Regular (number 0) None) older_of_two }
    ensures stale { ¬ IsRegular (plain_claim Regular (number 0) None) (read_after_write (number 0)) }
{}

/// Atomic registers: orders that are an arrangement, and orders that are none.
pub fn atomic_histories()
    ensures write_after_read { Arranges (plain_claim Atomic Nil None) unfinished_write write_between }
    ensures by_beginning { ¬ Arranges (plain_claim Atomic Nil None) unfinished_write unfinished_write }
    ensures new_before_old { ¬ Arranges (plain_claim Atomic Nil None) new_before_old new_before_old }
    ensures old_before_new { ¬ Arranges (plain_claim Atomic Nil None) old_before_new old_before_new }
{}

/// The refusals that every kind of register meets (X1 to X5), asked in their order.
pub fn worked_replies()
    ensures unknown { first_refusal a_write_and_a_read (Withdraw (record { feeder = 1; event = 2 })) ≡ Some UnknownOp }
    ensures unknown_change { first_refusal a_write_and_a_read (end_at 3 4) ≡ Some UnknownOp }
    ensures taken { first_refusal a_write_and_a_read (Append (from_to 0 (Read Nil) 9 8)) ≡ Some OpTaken }
    ensures ends_as_it_begins { first_refusal a_write_and_a_read (Append (from_to 7 (Read Nil) 8 8)) ≡ Some EndNotAfterBegin }
    ensures ends_before_it_is_large { first_refusal a_write_and_a_read (Append (from_to 7 (Read Nil) 4611686018427387904 1)) ≡ Some EndNotAfterBegin }
    ensures begins_at_an_end { first_refusal a_write_and_a_read (Append (from_to 7 (Read Nil) 1 4611686018427387904)) ≡ Some (MomentTaken (record { 0 = 1 }) (place 0)) }
    ensures ends_at_a_beginning { first_refusal a_write_and_a_read (Append (from_to 7 (Read Nil) 3 5)) ≡ Some (MomentTaken (record { 0 = 5 }) (place 2)) }
    ensures large { first_refusal a_write_and_a_read (Append (from_to 7 (Read Nil) 3 4611686018427387904)) ≡ Some MomentTooLarge }
    ensures greatest { first_refusal a_write_and_a_read (Append (op 7 (Read Nil) 4611686018427387903 None)) ≡ None }
    ensures own_beginning { first_refusal a_write_and_a_read (end_at 2 5) ≡ Some EndNotAfterBegin }
    ensures later_end { first_refusal a_write_and_a_read (end_at 2 6) ≡ None }
    ensures withdrawn { first_refusal a_write_and_a_read (Withdraw (place 2)) ≡ None }
{}

/// The refusals of a write on a regular register (X6, X7 and X9), asked in their order.
pub fn worked_writes()
    ensures stranger { write_refusal two_writers two_writes (written_by 7 5 3 1) ≡ Some NotAWriter }
    ensures first_overlapped { write_refusal two_writers two_writes (written_by 7 0 3 1) ≡ Some (WritesOverlap (place 0)) }
    ensures second_overlapped { write_refusal two_writers two_writes (written_by 7 0 3 5) ≡ Some (WritesOverlap (place 1)) }
    ensures outside { write_refusal two_writers two_writes (written_by 7 0 3 10) ≡ Some OutOfDomain }
    ensures nil_at_first { write_refusal two_writers two_writes (op 7 (Write Nil) 10 None) ≡ Some OutOfDomain }
    ensures other_writer { write_refusal two_writers two_writes (written_by 7 3 2 10) ≡ None }
    ensures itself { write_refusal two_writers two_writes (written_by 1 0 2 5) ≡ None }
{}

/// The refusals of a claim (X10 to X14), asked in their order, and what is held after claims.
pub fn worked_claims()
    ensures fixed { reply_to (state_of (record (claim_of_one Safe) { fixed = true }) []) (ToKind Safe) ≡ Some ClaimFixed }
    ensures writers { reply_to (state_of (plain_claim Atomic (number 0) None) writes_over_writes) (ToKind Regular) ≡ Some ClaimWriters }
    ensures overlap { reply_to (state_of (claim_of_one Atomic) writes_over_writes) (ToKind Safe) ≡ Some (ClaimOverlap (place 2) (place 3)) }
    ensures other_overlap { reply_to (state_of (claim_of_one Atomic) (take 2 writes_over_writes)) (ToKind Safe) ≡ Some (ClaimOverlap (place 5) (place 6)) }
    ensures no_overlap { reply_to (state_of (claim_of_one Atomic) (take 1 writes_over_writes)) (ToKind Safe) ≡ None }
    ensures repeat { reply_to (state_of (claim_of_one Safe) writes_over_writes) (ToKind Atomic) ≡ Some (ClaimRepeats (place 3) (holders.Op (place 6))) }
    ensures initial { reply_to (state_of (claim_of_one Safe) (from_to 0 (Write (number 0)) 0 1 ∷ [])) (ToKind Atomic) ≡ Some (ClaimRepeats (place 0) holders.Initial) }
    ensures unknown { reply_to (state_of (record (claim_of_one Atomic) { known = false }) writes_over_writes) (ToKind Safe) ≡ Some ClaimInitial }
    ensures unknown_writers { reply_to (state_of (record (plain_claim Atomic Nil None) { known = false }) []) (ToKind Regular) ≡ Some ClaimWriters }
    ensures unknown_value { reply_to (state_of (record (plain_claim Atomic (number 1) None) { known = false }) []) (Append (from_to 0 (Write (number 1)) 0 1)) ≡ None }
    ensures no_repeat { reply_to (state_of (claim_of_one Safe) (take 3 writes_over_writes)) (ToKind Atomic) ≡ None }
    ensures turned { standing (unedited (claim_of_one Atomic)) claims_and_writes ≡ record { claim = claim_of_one Regular; ops = from_to 0 (Write (number 1)) 0 1 ∷ from_to 2 (Write (number 1)) 2 3 ∷ [] } }
{}

/// What stands after edits, of which the refused ones change nothing.
pub fn worked_edits()
    ensures present { (standing (unedited (plain_claim Safe (number 0) None)) edits_with_refused_ones).ops ≡ mended (from_to 0 (Write (number 1)) 0 9) ∷ op 4 (Read Nil) 4 None ∷ [] }
    ensures found { op_of (standing (unedited (plain_claim Safe (number 0) None)) edits_with_refused_ones).ops (place 1) ≡ None }
    ensures overlaps { Overlaps (from_to 0 (Write (number 1)) 0 9) (op 1 (Read Nil) 2 None) }
    ensures precedes { Precedes (from_to 0 (Write (number 1)) 0 9) (op 1 (Read Nil) 10 None) }
{}

/// Which wrong read ended first.
pub fn worked_faults()
    ensures anything_within { first_wrong_id Safe (take 2 late_reads) ≡ None }
    ensures ended_first { first_wrong_id Safe late_reads ≡ Some (place 3) }
    ensures without_it { first_wrong_id Safe (take 3 late_reads) ≡ Some (place 2) }
    ensures without_the_write { first_wrong_id Safe (drop 1 (take 3 late_reads)) ≡ Some (place 1) }
    ensures one_by_one { faults_one_by_one ≡ None ∷ None ∷ Some (place 2) ∷ Some (place 2) ∷ Some (place 2) ∷ Some (place 2) ∷ [] }
    ensures next { first_wrong_id Regular (take 2 reads_over_two ++ drop 3 reads_over_two) ≡ Some (place 4) }
{}
