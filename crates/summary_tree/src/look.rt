//! The look-up of an item by its key. Other look-ups are those of the crates above, which go over a `Subtree`.

ghost use Rattle.std.specs.Prelude.{◌≡◌};
ghost use Rattle.summary_tree.specs.Order.{AreInOrder, item_at};

use crate::node::Tree;
use crate::{Keyed, Summarizes};

/// A tree, or a side of a node.
#[derive(Clone, Copy)]
pub struct Subtree<'s, T: Copy, S: Summarizes<T>> {
    pub tree: &'s Tree<T, S>,
}

impl<T: Keyed, S: Summarizes<T>> Tree<T, S> {
    /// The item of that key.
    #[tactic(auto, using(crate::proofs::Sides::at_left, crate::proofs::Sides::at_right, crate::proofs::Sides::at_here, crate::proofs::Sides::sides_in_order))]
    pub(crate) fn get(&self, key: T::Key) -> Option<T>
        requires { AreInOrder T.key T.comes_before self.now.items }
        ensures { result ≡ item_at T.key T.same key self.now.items }
    {
        T::keys_are_in_one_order();
        let Some(node) = self.top() else {
            return None;
        };
        if T::comes_before(key, node.item.key()) {
            return node.left.get(key);
        }
        if T::comes_before(node.item.key(), key) {
            return node.right.get(key);
        }
        Some(node.item)
    }
}
