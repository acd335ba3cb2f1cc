//! Laws of pairing: which answer is whose, and which registers steps are on. Each is proved, and does nothing.

ghost use Rattle.std.specs.Prelude.{◌≡◌, ◌<◌, ◌∷◌, ◌++◌, [], ℕ, ℤ, List, All, Some, Ok, Err, false, not, IsTrue};
ghost use Rattle.pairing.specs.declared.fault.PairFault.{PairFault};
ghost use Rattle.pairing.specs.declared.step.Step.{Step};
ghost use Rattle.pairing.specs.Accepted.{Placed, accepted, is_event_of};
ghost use Rattle.pairing.specs.Step.{step_of, id_of};
ghost use Rattle.pairing.specs.Answering.{IsFirstEvent, IsNext, is_invocation, step_id, step_register};
ghost use Rattle.jepsen_form.specs.declared.item.Item.{Item};
ghost use Rattle.jepsen_form.specs.Whole.{IsWhole, NamesBelow};

/// The accepted events of a process are an invocation, its answer, an invocation, its answer and so
/// on: the answer of an accepted invocation is the first later accepted event of its process.
pub fn answers_come_next()
    ensures first { (items : List Placed) (process : ℤ) (one : Placed) → IsFirstEvent (accepted items) process one → IsTrue (is_invocation one.item) }
    ensures alternate { (items : List Placed) (process : ℤ) (earlier later : Placed) → IsNext (accepted items) process earlier later
        → IsWhole earlier.item → is_invocation later.item ≡ not (is_invocation earlier.item) }
{}

/// Each accepted answer is the first accepted event of its process after an accepted invocation.
pub fn answers_have_an_invocation()
    ensures { (items before after : List Placed) (process : ℤ) (answer : Placed) → accepted items ≡ before ++ answer ∷ after
        → IsTrue (is_event_of process answer.item) → is_invocation answer.item ≡ false
        → (earlier : Placed) × IsNext (accepted items) process earlier answer × IsTrue (is_invocation earlier.item) }
{}

/// The step of an answer edits the operation of the invocation that is the event before it of its process.
pub fn answers_are_of_their_invocation()
    ensures { (feeder : ℕ) (items : List Placed) (process : ℤ) (earlier later : Placed) → (next : IsNext (accepted items) process earlier later)
        → IsWhole earlier.item → IsTrue (is_invocation earlier.item) → (step : Step)
        → step_of feeder (next.before ++ earlier ∷ next.between) later.place later.item ≡ Ok (Some step) → step_id step ≡ Some (id_of feeder earlier.place) }
{}

/// The step of an item is on a register that it or an earlier item names.
pub fn steps_are_on_named_registers()
    ensures { (count feeder place : ℕ) (items : List Placed) (item : Item) (step : Step) → All (λ one. NamesBelow count one.item) items → NamesBelow count item
        → step_of feeder (accepted items) place item ≡ Ok (Some step) → (step_register step).0 < count }
{}

/// An item that is refused changes nothing of which items are accepted.
pub fn a_refused_item_is_not_accepted()
    ensures { (feeder place : ℕ) (items : List Placed) (item : Item) (fault : PairFault) → step_of feeder (accepted items) place item ≡ Err fault
        → accepted (items ++ record { place = place; item = item } ∷ []) ≡ accepted items }
{}
