//! What an item of a tree is: it has a key, and keys are in one strict order.

ghost use Rattle.std.specs.Prelude.{◌≡◌, Bool};
ghost use Rattle.summary_tree.specs.Order.{IsStrictOrder, IsExact};

/// An item of a tree. Each has a key of its own.
pub trait Keyed: Copy {
    type Key: Copy;

    ghost key: { Self → Self.Key };

    ghost comes_before: { Self.Key → Self.Key → Bool };

    ghost same: { Self.Key → Self.Key → Bool };

    /// The item of a spare node, which is in no tree.
    fn spare() -> Self;

    fn key(&self) -> Self::Key
        ensures { result ≡ key self.now };

    fn comes_before(a: Self::Key, b: Self::Key) -> bool
        ensures { result ≡ comes_before a b };

    /// The law of the order. It does nothing: a proof that needs the law has it by a call.
    fn keys_are_in_one_order()
        ensures order { IsStrictOrder comes_before }
        ensures exact { IsExact same };
}
