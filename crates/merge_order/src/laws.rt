//! Laws of the one order of several traces. Each is proved, and does nothing. An element is a number here, and any
//! function may say which moment each carries, if any.

ghost use Rattle.std.specs.Prelude.{◌≡◌, ◌↔◌, ◌<◌, All, List, None, Option, [], length, map, slice_index_or, ℕ, ◌∷◌, ◌++◌};
ghost use Rattle.std.specs.List.{AllByRecursion};
ghost use Rattle.intervals.specs.declared.operation.Moment.{Moment};
ghost use Rattle.merge_order.specs.Order.{AreInOneOrder, ComesNext, IsNextHead, MomentsRise, elements_from, head_of, in_one_order};
ghost use Rattle.merge_order.specs.Worked.{worked_order, worked_traces};
ghost use Rattle.merge_order.specs.declared.heads.TraceHead.{TraceHead};
ghost use Rattle.merge_order.specs.declared.heads.TraceHead.TheVariants.{Ended};

/// Any traces have exactly one order, and it is the one that is computed.
pub fn there_is_one_order()
    ensures some { (moment : ℕ → Option Moment) (traces : List (List ℕ)) → AreInOneOrder moment traces (in_one_order moment traces) }
    ensures one { (moment : ℕ → Option Moment) (traces : List (List ℕ)) (a b : List (ℕ × ℕ))
        → AreInOneOrder moment traces a → AreInOneOrder moment traces b → a ≡ b }
{}

/// The order has of each trace all elements, each once and in the order of the trace, and no others.
pub fn each_trace_keeps_its_order()
    ensures kept { (moment : ℕ → Option Moment) (traces : List (List ℕ)) (order : List (ℕ × ℕ)) (at : ℕ)
        → AreInOneOrder moment traces order → elements_from at order ≡ slice_index_or traces at [] }
    ensures numbered { (moment : ℕ → Option Moment) (traces : List (List ℕ)) (order : List (ℕ × ℕ))
        → AreInOneOrder moment traces order → All (λ one. one.0 < length traces) order }
{}

/// Where the moments of each trace rise, those of the order do.
pub fn the_order_rises_where_each_trace_does()
    ensures { (moment : ℕ → Option Moment) (traces : List (List ℕ)) (order : List (ℕ × ℕ))
        → AreInOneOrder moment traces order → All (MomentsRise moment) traces → MomentsRise moment (map (λ one. one.1) order) }
{}

/// One trace alone is in its own order, whatever moments it has.
pub fn one_trace_is_its_own_order()
    ensures { (moment : ℕ → Option Moment) (trace : List ℕ) → AreInOneOrder moment (trace ∷ []) (map (λ element. (0, element)) trace) }
{}

/// The heads of the traces decide whose element comes next, and nothing is left exactly where all have ended. At most
/// one head comes next.
pub fn first_elements_decide()
    ensures next { (moment : ℕ → Option Moment) (traces : List (List ℕ)) (at element : ℕ)
        → ComesNext moment traces at element → IsNextHead (map (head_of moment) traces) at (moment element) }
    ensures back { (moment : ℕ → Option Moment) (traces : List (List ℕ)) (at : ℕ) (carried : Option Moment)
        → IsNextHead (map (head_of moment) traces) at carried → (element : ℕ) × (moment element ≡ carried) × ComesNext moment traces at element }
    ensures none { (moment : ℕ → Option Moment) (traces : List (List ℕ))
        → AreInOneOrder moment traces [] ↔ All (λ head. head ≡ Ended) (map (head_of moment) traces) }
    ensures one { (heads : List TraceHead) (a b : ℕ) (carried other : Option Moment)
        → IsNextHead heads a carried → IsNextHead heads b other → (a ≡ b) × (carried ≡ other) }
{}

/// An element that carries no moment comes next, whatever waits in later traces, where it does so of its own trace and
/// those before it.
pub fn an_element_without_a_moment_waits_for_no_later_trace()
    ensures { (heads later : List TraceHead) (at : ℕ) → IsNextHead heads at None → IsNextHead (heads ++ later) at None }
{}

/// Worked traces are in their order.
pub fn worked_traces_are_in_order()
    ensures { in_one_order (λ (carried : Option Moment). carried) worked_traces ≡ worked_order }
{}
