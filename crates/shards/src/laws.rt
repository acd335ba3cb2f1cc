//! Laws of journals, passes and closing, which hold of any plan. Each is proved, and does nothing.

ghost use Rattle.std.specs.Prelude.{◌≡◌, ◌%◌, ℕ, List, [], ◌++◌, map, Some, All, filter, ◌≢◌, ◌<◌, ◌∷◌, Option, length, ◌≤◌, IfSome, IsSomeAnd, Contains, replicate};
ghost use Rattle.std.specs.List.{AllPairs, slice_get};
ghost use Rattle.intervals.specs.Terms.{ClaimModel, unedited};
ghost use Rattle.intervals.specs.Refusal.{standing};
ghost use Rattle.shards.specs.declared.entry.Entry.{Entry};
ghost use Rattle.shards.specs.Plan.{Plan};
ghost use Rattle.shards.specs.Journal.{IsJournalOf, IsLegalJournal, asked_in, edits_of, left_by, is_by};
ghost use Rattle.shards.specs.declared.entry.VerdictChange.{VerdictChange};
ghost use Rattle.shards.specs.VerdictChange.{AreVerdictChanges, IsAsBefore, IsVerdictChangeBy};
ghost use Rattle.shards.specs.Plain.{plain_entry};
ghost use Rattle.shards.specs.Pass.{PassModel, own_entries, IsPassOf, SeenModel, new_pass, learnt, with_own, with_seen, IsBehind, IsInKeeping, farthest_in, farthest_of};
ghost use Rattle.shards.specs.Merge.{IsMerge};
ghost use Rattle.shards.specs.Steps.{IsLive, IsRefusal, IsStanding, IsSubmitted, entered};
ghost use Rattle.shards.specs.Alone.{AreJournals, IsEnteredAlone, IsRefusalAlone, journal_in, pass_alone, with_entry};
ghost use Rattle.intervals.specs.declared.operation.RegId.{RegId};
ghost use Rattle.intervals.specs.declared.edit.Edit.{Edit};
ghost use Rattle.shards.specs.declared.entry.Answer.{Answer};
ghost use Rattle.shards.specs.declared.entry.NumberedEntry.{NumberedEntry};
ghost use Rattle.shards.specs.declared.entry.Receipt.{Receipt};
ghost use Rattle.shards.specs.declared.fault.ShardFault.{ShardFault};
ghost use Rattle.shards.specs.Closing.{ShardModel, IsClosingFault};

/// Each prefix of a legal journal is legal.
pub fn each_front_is_legal()
    ensures { (plan : Plan) (at : ℕ) (front rest : List Entry) → IsLegalJournal plan at (front ++ rest) → IsLegalJournal plan at front }
{}

/// A legal journal leaves a register as all its edits in order do, whether they were accepted or
/// refused.
pub fn what_is_present_after_all_edits()
    ensures { (plan : Plan) (at register : ℕ) (claim : ClaimModel) (journal : List Entry) → IsLegalJournal plan at journal → slice_get plan.claims register ≡ Some claim
        → left_by journal register claim ≡ standing (unedited claim) (edits_of register journal) }
{}

/// The replies of a legal journal are determined: two legal journals of one shard with the same feeders, registers
/// and edits, in order, are equal.
pub fn one_reply()
    ensures { (plan : Plan) (at : ℕ) (journal other : List Entry) → IsLegalJournal plan at journal → IsLegalJournal plan at other
        → map asked_in journal ≡ map asked_in other → journal ≡ other }
{}

/// Where a journal is a merge, the entries of each pass's feeder, taken out of it in order, read the same as
/// what the pass submitted there, in order.
pub fn entries_are_as_submitted()
    ensures { (at : ℕ) (passes : List PassModel) (journal : List Entry) → IsMerge at passes journal
        → All (λ pass. map plain_entry (filter (is_by pass.feeder) journal) ≡ map (λ own. plain_entry own.entry) (own_entries pass at)) passes }
{}

/// Where there is one feeder, each entry of a journal is by it. A journal that is in keeping with its pass has
/// exactly as many entries as the pass submitted there: an edit is entered at the number of those before it, and
/// a question is answered after exactly so many.
pub fn a_lone_feeder_has_all_entries()
    ensures all { (plan : Plan) (at : ℕ) (journal : List Entry) → plan.feeders ≡ 1 → IsJournalOf plan at journal → filter (is_by 0) journal ≡ journal }
    ensures counted { (plan : Plan) (at : ℕ) (pass : PassModel) (journal : List Entry) → plan.feeders ≡ 1 → IsPassOf plan pass
        → IsJournalOf plan at journal → IsInKeeping at pass journal → length journal ≡ length (own_entries pass at) }
    ensures submitted { (plan : Plan) (pass : PassModel) (register : RegId) (edit : Edit) (receipt : Receipt) → plan.feeders ≡ 1
        → IsSubmitted plan pass register edit receipt → receipt.number ≡ length (own_entries pass receipt.shard) }
    ensures live { (plan : Plan) (pass pass' : PassModel) (register : ℕ) (answer : Answer) → plan.feeders ≡ 1
        → IsLive plan pass pass' register answer → answer.number ≡ length (own_entries pass (register % plan.shards)) }
{}

/// What a feeder without locks enters and asks is what it would with the pass of an auditor that has these journals: an
/// edit that was entered was submitted and told, a refusal is one of the auditor's, and an answer is live. What one feeder
/// enters is no other's own, and before any edit the pass is a new one.
pub fn a_feeder_alone_is_served_as_with_a_pass()
    ensures of_plan { (plan : Plan) (journals : List (List Entry)) (feeder : ℕ)
        → AreJournals plan journals → feeder < plan.feeders → IsPassOf plan (pass_alone plan feeder journals) }
    ensures submitted { (plan : Plan) (journals : List (List Entry)) (feeder : ℕ) (register : RegId) (edit : Edit) (receipt : Receipt)
        → AreJournals plan journals → IsEnteredAlone plan journals feeder register edit receipt
        → IsSubmitted plan (pass_alone plan feeder journals) register edit receipt }
    ensures told { (plan : Plan) (journals : List (List Entry)) (feeder : ℕ) (register : RegId) (edit : Edit) (receipt : Receipt)
        → AreJournals plan journals → IsEnteredAlone plan journals feeder register edit receipt
        → pass_alone plan feeder (with_entry journals feeder register edit receipt) ≡ entered (pass_alone plan feeder journals) register edit receipt }
    ensures others { (plan : Plan) (journals : List (List Entry)) (feeder : ℕ) (register : RegId) (edit : Edit) (receipt : Receipt) (other at : ℕ)
        → other ≢ feeder → AreJournals plan journals → IsEnteredAlone plan journals feeder register edit receipt
        → own_entries (pass_alone plan other (with_entry journals feeder register edit receipt)) at ≡ own_entries (pass_alone plan other journals) at }
    ensures refused { (plan : Plan) (journals : List (List Entry)) (feeder register : ℕ) (fault : ShardFault)
        → AreJournals plan journals → feeder < plan.feeders → IsRefusalAlone plan register fault
        → IsRefusal plan (pass_alone plan feeder journals) register fault }
    ensures live { (plan : Plan) (journals : List (List Entry)) (feeder register : ℕ) (answer : Answer)
        → AreJournals plan journals → feeder < plan.feeders → IsStanding plan register (journal_in journals (register % plan.shards)) answer
        → IsLive plan (pass_alone plan feeder journals) (pass_alone plan feeder journals) register answer }
    ensures fresh { (plan : Plan) (feeder : ℕ) → pass_alone plan feeder (replicate plan.shards []) ≡ new_pass plan feeder }
{}

/// The edits of a register in the journal of its shard are those that feeders without locks submitted for it, in their
/// order: an edit that was entered comes after those of its register, and those of every other register are as before.
pub fn an_edit_alone_is_entered_as_submitted()
    ensures own { (plan : Plan) (journals : List (List Entry)) (feeder : ℕ) (register : RegId) (edit : Edit) (receipt : Receipt)
        → AreJournals plan journals → IsEnteredAlone plan journals feeder register edit receipt
        → edits_of register.0 (journal_in (with_entry journals feeder register edit receipt) (register.0 % plan.shards))
        ≡ edits_of register.0 (journal_in journals (register.0 % plan.shards)) ++ edit ∷ [] }
    ensures others { (plan : Plan) (journals : List (List Entry)) (feeder : ℕ) (register : RegId) (edit : Edit) (receipt : Receipt) (other : ℕ)
        → AreJournals plan journals → IsEnteredAlone plan journals feeder register edit receipt → other ≢ register.0
        → edits_of other (journal_in (with_entry journals feeder register edit receipt) (other % plan.shards))
        ≡ edits_of other (journal_in journals (other % plan.shards)) }
{}

/// The changes of verdicts in a journal are exactly its entries after which the verdict on their register is another
/// than before, in their order: each such entry has its change, each change is by such an entry, and the numbers rise.
pub fn changes_are_the_entries_that_change_a_verdict()
    ensures each { (plan : Plan) (journal : List Entry) (changes : List VerdictChange) → AreVerdictChanges plan journal changes
        → (front rest : List Entry) (entry : Entry) → journal ≡ front ++ entry ∷ rest → ¬ IsAsBefore plan front entry
        → (change : VerdictChange) × Contains changes change × IsVerdictChangeBy plan front entry change }
    ensures only { (plan : Plan) (journal : List Entry) (changes : List VerdictChange) → AreVerdictChanges plan journal changes
        → All (λ change. (front : List Entry) × (rest : List Entry) × (entry : Entry) × (journal ≡ front ++ entry ∷ rest) × IsVerdictChangeBy plan front entry change) changes }
    ensures rise { (plan : Plan) (journal : List Entry) (changes : List VerdictChange) → AreVerdictChanges plan journal changes
        → AllPairs (λ a b. a.number < b.number) changes }
{}

/// A list of shards and a list of passes have at most one closing fault, however many passes are wanted.
pub fn one_closing_fault()
    ensures { (plan : Plan) (wanted : ℕ) (passes : List PassModel) (shards : List ShardModel) (a b : ShardFault)
        → IsClosingFault plan wanted passes shards a → IsClosingFault plan wanted passes shards b → a ≡ b }
{}

/// A pass begins with no entries. An entry that it submits is added after those of its shard, and nothing else that
/// is done with the pass changes its entries.
pub fn what_was_told_stays()
    ensures fresh { (plan : Plan) (feeder at : ℕ) → own_entries (new_pass plan feeder) at ≡ [] }
    ensures own { (pass : PassModel) (at : ℕ) (known : NumberedEntry)
        → at < length pass.own → own_entries (with_own pass at known) at ≡ own_entries pass at ++ known ∷ [] }
    ensures others { (pass : PassModel) (at other : ℕ) (known : NumberedEntry)
        → other ≢ at → own_entries (with_own pass at known) other ≡ own_entries pass other }
    ensures seen { (pass : PassModel) (at other : ℕ) (known : Option NumberedEntry)
        → ((with_seen pass at known).own ≡ pass.own) × (own_entries (with_seen pass at known) other ≡ own_entries pass other) }
    ensures learnt { (pass : PassModel) (seen : SeenModel) (other : ℕ)
        → ((learnt pass seen).own ≡ pass.own) × (own_entries (learnt pass seen) other ≡ own_entries pass other) }
{}

/// Whatever is done with a pass, it stays one of its plan.
pub fn a_pass_stays_of_its_plan()
    ensures fresh { (plan : Plan) (feeder : ℕ) → feeder < plan.feeders → IsPassOf plan (new_pass plan feeder) }
    ensures own { (plan : Plan) (pass : PassModel) (at : ℕ) (known : NumberedEntry)
        → IsPassOf plan pass → IsPassOf plan (with_own pass at known) }
    ensures seen { (plan : Plan) (pass : PassModel) (at : ℕ) (known : Option NumberedEntry)
        → IsPassOf plan pass → IsPassOf plan (with_seen pass at known) }
    ensures learnt { (plan : Plan) (pass : PassModel) (seen : SeenModel)
        → IsPassOf plan pass → IsPassOf plan (learnt pass seen) }
{}

/// A journal is not both behind a pass (`IsBehind`) and in keeping with it, and at most one number shows
/// that it is behind.
pub fn behind_or_in_keeping()
    ensures apart { (at : ℕ) (pass : PassModel) (journal : List Entry) (seen : ℕ) → IsBehind at pass journal seen → ¬ IsInKeeping at pass journal }
    ensures once { (at : ℕ) (pass : PassModel) (journal : List Entry) (a b : ℕ) → IsBehind at pass journal a → IsBehind at pass journal b → a ≡ b }
{}

/// A pass that learns what another feeder has seen knows in each shard an entry of no lesser number than the one
/// that it knew there, and than the one that the other has seen there.
pub fn one_learns_no_less()
    ensures own { (pass : PassModel) (seen : SeenModel) (at : ℕ) → length pass.seen.farthest ≡ length seen.farthest
        → IfSome (farthest_of pass at) (λ known. IsSomeAnd (farthest_of (learnt pass seen) at) (λ after. known.number ≤ after.number)) }
    ensures others { (pass : PassModel) (seen : SeenModel) (at : ℕ) → length pass.seen.farthest ≡ length seen.farthest
        → IfSome (farthest_in seen.farthest at) (λ known. IsSomeAnd (farthest_of (learnt pass seen) at) (λ after. known.number ≤ after.number)) }
{}
