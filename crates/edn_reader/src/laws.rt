//! Laws of the format, as functions that do nothing: the clauses of each are what is proved.

ghost use Rattle.std.specs.Prelude.{◌≡◌, ◌⊎◌, ◌++◌, ℕ, List, []};
ghost use Rattle.std.specs.List.{AllByRecursion};
ghost use Rattle.edn_reader.specs.declared.fault.EdnFault.{EdnFault};
ghost use Rattle.edn_reader.specs.declared.element.Element.{Element};
ghost use Rattle.edn_reader.specs.declared.element.ElementKind.TheVariants.{Vector, Map};
ghost use Rattle.edn_reader.specs.Lent.{piece_of};
ghost use Rattle.edn_reader.specs.Grammar.{ElementModel, IsElement};
ghost use Rattle.edn_reader.specs.Text.{IsFront, IsText, IsViable};
ghost use Rattle.edn_reader.specs.Fault.{FaultOf, IsBeginning, AreElementsBefore, AreElementsSoFar};
ghost use Rattle.edn_reader.specs.Prefixes.{ArePrefix};
ghost use Rattle.edn_reader.specs.Splitting.{SplitterModel, StandsAfter};
ghost use Rattle.edn_reader.specs.Pairs.{values_of, HasPairs, HasMembers};

/// A text has one division into elements.
pub fn one_division()
    ensures { (input : List ℕ) (firsts seconds : List ElementModel) → IsText input firsts → IsText input seconds → firsts ≡ seconds }
{}

/// An input has one first fault.
pub fn one_fault()
    ensures { (input : List ℕ) (first second : EdnFault) → FaultOf input first → FaultOf input second → first ≡ second }
{}

/// An input is a text or has a fault, and not both.
pub fn text_or_fault()
    ensures one { (input : List ℕ) → ((pieces : List ElementModel) × IsText input pieces) ⊎ ((fault : EdnFault) × FaultOf input fault) }
    ensures not_both { (input : List ℕ) (pieces : List ElementModel) (fault : EdnFault) → IsText input pieces → FaultOf input fault → ⊥ }
{}

/// Each element of a prefix that is gaps and elements (`IsFront`) is an element on its own.
pub fn each_is_element()
    ensures { (input : List ℕ) (pieces : List ElementModel) (at : ℕ) → IsFront input pieces at → AllByRecursion IsElement pieces }
{}

/// Each element that the program lends is an element by the grammar.
pub fn each_lent_is_element()
    ensures { (element : Element) → IsElement (piece_of element) }
{}

/// A map, without its tags, has one list of pairs, and their keys and values are elements.
pub fn pairs_of_map()
    ensures some { (piece : ElementModel) → IsElement piece → piece.core.kind ≡ Map → (pairs : List (ElementModel × ElementModel)) × HasPairs piece pairs }
    ensures one { (piece : ElementModel) (firsts seconds : List (ElementModel × ElementModel)) → HasPairs piece firsts → HasPairs piece seconds → firsts ≡ seconds }
    ensures elements { (piece : ElementModel) (pairs : List (ElementModel × ElementModel)) → HasPairs piece pairs → AllByRecursion (λ pair. IsElement pair.0 × IsElement pair.1) pairs }
    ensures values { (key : List ℕ) (pairs : List (ElementModel × ElementModel)) → AllByRecursion (λ pair. IsElement pair.0 × IsElement pair.1) pairs → AllByRecursion IsElement (values_of key pairs) }
{}

/// A vector, without its tags, has one list of elements.
pub fn members_of_vector()
    ensures some { (piece : ElementModel) → IsElement piece → piece.core.kind ≡ Vector → (members : List ElementModel) × HasMembers piece members }
    ensures one { (piece : ElementModel) (firsts seconds : List ElementModel) → HasMembers piece firsts → HasMembers piece seconds → firsts ≡ seconds }
    ensures elements { (piece : ElementModel) (members : List ElementModel) → HasMembers piece members → AllByRecursion IsElement members }
{}

/// While a splitter has met no fault, the bytes that it has taken are the beginning of some text: a fault of the
/// input comes with a later byte, or with the end.
pub fn no_fault_so_far()
    ensures { (bytes : List ℕ) (pieces : List ElementModel) (splitting : SplitterModel) → StandsAfter bytes [] pieces splitting → IsViable bytes }
{}

/// While a splitter has met no fault, the elements that it gave are those that have ended in the bytes that it has
/// taken, whatever follows them. Where it is known which bytes come next, it may also have given an element that these
/// do not prolong.
pub fn told_so_far()
    ensures { (bytes coming : List ℕ) (pieces : List ElementModel) (splitting : SplitterModel) → StandsAfter bytes coming pieces splitting → AreElementsSoFar bytes coming pieces }
{}

/// The elements of a prefix of an input, whether it is a text or has a fault, are the first of the elements of the
/// whole; the last of them may be longer there, where it is a run. The elements that have ended in the prefix,
/// whatever follows, are the first of the whole as they are.
pub fn elements_of_a_prefix()
    ensures before { (bytes more : List ℕ) (pieces all : List ElementModel) → AreElementsBefore bytes pieces → AreElementsBefore (bytes ++ more) all → ArePrefix pieces all }
    ensures so_far { (bytes more : List ℕ) (pieces all : List ElementModel) → AreElementsSoFar bytes [] pieces → AreElementsBefore (bytes ++ more) all → IsBeginning pieces all }
    ensures text { (input : List ℕ) (pieces : List ElementModel) → IsText input pieces → AreElementsBefore input pieces }
{}
