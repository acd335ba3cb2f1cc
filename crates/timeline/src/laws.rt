//! Laws of the definitions. Each is the contract of a function that does nothing.

ghost use Rattle.std.specs.Prelude.{◌≡◌, ◌↔◌, ◌+◌, ◌<◌, ◌≤◌, ℕ, true, All, Contains, IsSorted, List, Some, length, slice_index, sum};
ghost use Rattle.std.specs.List.{slice_get};
ghost use Rattle.intervals.specs.declared.operation.Moment.{Moment};
ghost use Rattle.intervals.specs.declared.operation.Op.{Op};
ghost use Rattle.intervals.specs.declared.operation.OpId.{OpId};
ghost use Rattle.intervals.specs.Operation.{Precedes};
ghost use Rattle.timeline.specs.declared.axis.Mark.{Mark};
ghost use Rattle.timeline.specs.declared.axis.BarSpan.{BarSpan};
ghost use Rattle.timeline.specs.declared.choice.Chosen.{Chosen};
ghost use Rattle.timeline.specs.declared.choice.Extent.{Extent};
ghost use Rattle.timeline.specs.Axis.{AreMarks, AreSpans, folded_of, mark_cmp};
ghost use Rattle.timeline.specs.Choice.{IsChosen, is_among};
ghost use Rattle.timeline.specs.Place.{AreSpaced};

/// The operations that are shown and those that are not are together as many as all.
pub fn each_is_shown_or_counted()
    ensures { (ops : List Op) (ids : List OpId) (extent : Extent) (chosen : Chosen) → IsChosen ops ids extent chosen
        → length chosen.shown.items + length chosen.hidden.items ≡ length ops }
{}

/// An operation that is asked for is shown.
pub fn what_is_asked_for_is_shown()
    ensures { (ops : List Op) (ids : List OpId) (extent : Extent) (chosen : Chosen) (op : Op) → IsChosen ops ids extent chosen → Contains ops op → is_among ids op.id ≡ true
        → Contains chosen.shown.items op }
{}

/// Each operation that is not shown is counted once: before the first mark, between two marks, or after the last.
pub fn each_that_is_left_out_is_counted()
    ensures { (marks : List Mark) (hidden : List Moment) → IsSorted mark_cmp marks → sum (folded_of 0 marks hidden) ≡ length hidden }
{}

/// Of two operations the first ends left of where the second begins exactly when it precedes the second.
pub fn ends_left_of_what_it_precedes()
    ensures { (ops : List Op) (marks : List Mark) (spans : List BarSpan) (steps places : List ℕ) (i j end : ℕ) (a b : Op) (s t : BarSpan)
        → AreMarks ops marks → AreSpans ops marks spans → AreSpaced steps places → length marks ≤ length places → All (λ step. 0 < step) steps → length places ≡ length steps
        → slice_get ops i ≡ Some a → slice_get spans i ≡ Some s → slice_get ops j ≡ Some b → slice_get spans j ≡ Some t → s.end ≡ Some end
        → Precedes a b ↔ (slice_index places end < slice_index places t.begin) }
{}
