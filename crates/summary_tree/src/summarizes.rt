//! What a node keeps of the items below it, made of what its sides keep.

ghost use Rattle.std.specs.Prelude.{◌≡◌, ◌↔◌, IsTrue, List, [], ◌∷◌, ◌++◌};

/// A summary of a list of items. `IsOf` says whether it is one of that list: a list may have several.
pub trait Summarizes<T>: Copy {
    ghost one: { T → Self };

    ghost join: { Self → Self → Self };

    ghost IsOf: { Self → List T → Type 0 };

    /// The summary of one item.
    fn of_one(item: &T) -> Self
        ensures { result ≡ one item.now };

    /// The summary of items and of those after them.
    fn join(&self, later: &Self) -> Self
        ensures { result ≡ join self.now later.now };

    /// The summary of an item and of those after it.
    fn with_first(&self, item: &T) -> Self
        ensures { result ≡ join (one item.now) self.now };

    /// Whether the two are one summary.
    fn is_same(&self, other: &Self) -> bool
        ensures { IsTrue result ↔ (self.now ≡ other.now) };

    /// The law of summaries. It does nothing: a proof that needs the law has it by a call.
    fn summaries_add_up()
        ensures one { (x : T) → IsOf (one x) (x ∷ []) }
        ensures join { (s t : Self) (xs ys : List T) → IsOf s xs → IsOf t ys → IsOf (join s t) (xs ++ ys) };
}
