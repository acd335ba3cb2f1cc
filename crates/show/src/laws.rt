//! Laws of scenes. Each is the contract of a function that calls no more than the laws of the timeline on which it rests.

ghost use Rattle.std.specs.Prelude.{◌≡◌, ◌↔◌, ◌+◌, ◌++◌, ◌<◌, ◌≤◌, ℕ, All, Contains, IsPermutation, List, Some, drop, length, slice_index, string_bytes, sum};
ghost use Rattle.std.specs.declared.alloc.Global.{Global};
ghost use Rattle.std.specs.declared.string.String.{String};
ghost use Rattle.std.specs.Fmt.{decimal};
ghost use Rattle.std.specs.List.{slice_get};
ghost use Rattle.intervals.specs.declared.operation.Op.{Op};
ghost use Rattle.intervals.specs.Operation.{Precedes};
ghost use Rattle.intervals.specs.Standing.{HasEndsAfterBeginnings};
ghost use Rattle.intervals.specs.Table.{ops_in_slots};
ghost use Rattle.timeline.specs.declared.axis.BarSpan.{BarSpan};
ghost use Rattle.timeline.specs.declared.axis.Mark.{Mark};
ghost use Rattle.timeline.specs.declared.choice.Extent.{Extent};
ghost use Rattle.timeline.specs.declared.place.Want.{Want};
ghost use Rattle.timeline.specs.Place.{AreSpaced, IsDistanceKept};
ghost use Rattle.show.specs.declared.letter.Letter.{Letter};
ghost use Rattle.show.specs.declared.measure.Measure.{Measure};
ghost use Rattle.show.specs.declared.scene.Scene.{Scene};
ghost use Rattle.show.specs.declared.subject.Subject.{Subject};
ghost use Rattle.show.specs.Front.{GoesOnAfter, front_of};
ghost use Rattle.show.specs.Letter.{letter_for};
ghost use Rattle.show.specs.Measure.{span_end_mark, label_width, wanted_of};
ghost use Rattle.show.specs.Scene.{IsScene};

use timeline::laws;

/// What is shown stands, and is shown once: the operations that stand are those that are shown and some others.
pub fn what_is_shown_is_present()
    ensures { (subject : Subject) (extent : Extent) (scene : Scene) → IsScene subject extent scene
        → (others : List Op) × IsPermutation (ops_in_slots subject.slots.now) (scene.ops.items ++ others) }
{}

/// The operations that are shown and those that are counted between marks are together as many as stand.
pub fn what_is_present_is_shown_or_counted()
    ensures { (subject : Subject) (extent : Extent) (scene : Scene) → IsScene subject extent scene
        → length scene.ops.items + sum scene.folded.items ≡ length (ops_in_slots subject.slots.now) }
{
    laws::each_that_is_left_out_is_counted();
}

/// An operation that stands and has a letter is shown.
pub fn what_has_a_letter_is_shown()
    ensures { (subject : Subject) (extent : Extent) (scene : Scene) (op : Op) (letter : Letter) → IsScene subject extent scene
        → Contains (ops_in_slots subject.slots.now) op → letter_for scene.letters.items op.id ≡ Some letter → Contains scene.ops.items op }
{
    laws::what_is_asked_for_is_shown();
}

/// Of two operations that are shown the first ends left of where the second begins exactly where it precedes it. The
/// step from the left edge to the first mark may be 0.
pub fn ends_left_of_what_it_precedes()
    ensures { (subject : Subject) (extent : Extent) (scene : Scene) (steps places : List ℕ) (i j end : ℕ) (a b : Op) (s t : BarSpan)
        → IsScene subject extent scene → AreSpaced steps places → length scene.marks.items ≤ length places → All (λ step. 0 < step) (drop 1 steps) → length places ≡ length steps
        → slice_get scene.ops.items i ≡ Some a → slice_get scene.spans.items i ≡ Some s → slice_get scene.ops.items j ≡ Some b → slice_get scene.spans.items j ≡ Some t → s.end ≡ Some end
        → Precedes a b ↔ (slice_index places end < slice_index places t.begin) }
{
    laws::ends_left_of_what_it_precedes();
}

/// Where each operation that stands ends after its beginning, and the least distances are kept, each label fits between
/// the marks of its operation.
pub fn labels_fit_in_their_bars()
    ensures { (subject : Subject) (extent : Extent) (scene : Scene) (measure : Measure) (wants others : List Want) (places : List ℕ) (i : ℕ) (span : BarSpan) (label : String Global)
        → IsScene subject extent scene → HasEndsAfterBeginnings (ops_in_slots subject.slots.now)
        → wants ≡ wanted_of measure (length scene.marks.items) scene.labels.items 0 scene.spans.items ++ others → All (IsDistanceKept places) wants
        → slice_get scene.spans.items i ≡ Some span → slice_get scene.labels.items i ≡ Some label
        → slice_index places span.begin + label_width measure label ≤ slice_index places (span_end_mark (length scene.marks.items) span) }
{
    laws::ends_left_of_what_it_precedes();
}

/// Each mark of a scene has a label, and the front and the label together are its moment as it is printed.
pub fn a_moment_is_the_front_and_its_label()
    ensures { (subject : Subject) (extent : Extent) (scene : Scene) (number : ℕ) (mark : Mark) → IsScene subject extent scene → slice_get scene.marks.items number ≡ Some mark
        → (label : String Global) × (slice_get scene.moments.items number ≡ Some label) × (string_bytes scene.front ++ string_bytes label ≡ decimal mark.moment.0) }
{}

/// Where moments have a front each goes on after it, and there is no longer one after which each goes on.
pub fn a_front_is_the_longest()
    ensures each { (moments : List (List ℕ)) → 0 < length (front_of moments) → All (GoesOnAfter (front_of moments)) moments }
    ensures longest { (moments : List (List ℕ)) (front : List ℕ) → 0 < length (front_of moments) → All (GoesOnAfter front) moments → length front ≤ length (front_of moments) }
{}
