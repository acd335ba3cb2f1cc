//! Rotations, and the way back up.

ghost use Rattle.std.specs.Prelude.{◌≡◌, ◌+◌, ◌<◌, max, IsTrue};
ghost use Rattle.summary_tree.specs.Layers.{DifferByAtMost, IsBalancedHeight};
ghost use Rattle.summary_tree.specs.Node.{items_of, IsRightNode, IsBalancedNode, KeepsNode};

use crate::node::{Node, Tree, close};
use crate::{Keyed, Summarizes};
use std::mem;

/// Settles a node of which a side has changed, in place, and returns whether its height and its summary stay.
/// Where the side kept its own (`stays`) nothing is made again. That is the most frequent case, so it is inlined.
#[inline(always)]
pub fn settle<T: Keyed, S: Summarizes<T>>(top: &mut Box<Node<T, S>>, stays: bool) -> bool
    requires near { DifferByAtMost 2 top.old.value.left.height top.old.value.right.height }
    requires room { max top.old.value.left.height top.old.value.right.height < 255 }
    requires stays { IsTrue stays → IsRightNode S.one S.join top.old.value }
    ensures balanced { IsBalancedNode S.one S.join S.IsOf top.new.value }
    ensures items { items_of top.new.value ≡ items_of top.old.value }
    ensures height { IsBalancedHeight top.old.value.left.height top.old.value.right.height top.new.value.height }
    ensures stays { IsTrue result → KeepsNode top.old.value top.new.value }
{
    if stays {
        top.sides_are_balanced();
        return true;
    }
    settle_anew(top)
}

/// Settles a node of which a side has changed: makes its height and its summary again, with a rotation where one
/// is due. It is not inlined, so that the frequent case is a test alone.
#[inline(never)]
fn settle_anew<T: Keyed, S: Summarizes<T>>(top: &mut Box<Node<T, S>>) -> bool
    requires near { DifferByAtMost 2 top.old.value.left.height top.old.value.right.height }
    requires room { max top.old.value.left.height top.old.value.right.height < 255 }
    ensures balanced { IsBalancedNode S.one S.join S.IsOf top.new.value }
    ensures items { items_of top.new.value ≡ items_of top.old.value }
    ensures height { IsBalancedHeight top.old.value.left.height top.old.value.right.height top.new.value.height }
    ensures stays { IsTrue result → KeepsNode top.old.value top.new.value }
{
    let (left, right) = (top.left.height(), top.right.height());
    if left > right + 1 {
        lean_right(top);
        false
    } else if right > left + 1 {
        lean_left(top);
        false
    } else {
        top.renew()
    }
}

/// Rotates a node whose left side is higher by two.
#[inline(never)]
fn lean_right<T: Keyed, S: Summarizes<T>>(top: &mut Box<Node<T, S>>)
    requires higher { top.old.value.left.height ≡ top.old.value.right.height + 2 }
    requires room { top.old.value.left.height < 255 }
    ensures balanced { IsBalancedNode S.one S.join S.IsOf top.new.value }
    ensures items { items_of top.new.value ≡ items_of top.old.value }
    ensures height { IsBalancedHeight top.old.value.left.height top.old.value.right.height top.new.value.height }
{
    let Some(mut side) = top.left.take() else {
        unreachable!()
    };
    if side.right.height() <= side.left.height() {
        top.left = mem::replace(&mut side.right, Tree::new());
        let below = mem::replace(top, side);
        top.right = close(below);
        let _ = top.renew();
        return;
    }
    let Some(mut inner) = side.right.take() else {
        unreachable!()
    };
    side.right = mem::replace(&mut inner.left, Tree::new());
    top.left = mem::replace(&mut inner.right, Tree::new());
    inner.left = close(side);
    let below = mem::replace(top, inner);
    top.right = close(below);
    let _ = top.renew();
}

/// Rotates a node whose right side is higher by two.
#[inline(never)]
fn lean_left<T: Keyed, S: Summarizes<T>>(top: &mut Box<Node<T, S>>)
    requires higher { top.old.value.right.height ≡ top.old.value.left.height + 2 }
    requires room { top.old.value.right.height < 255 }
    ensures balanced { IsBalancedNode S.one S.join S.IsOf top.new.value }
    ensures items { items_of top.new.value ≡ items_of top.old.value }
    ensures height { IsBalancedHeight top.old.value.left.height top.old.value.right.height top.new.value.height }
{
    let Some(mut side) = top.right.take() else {
        unreachable!()
    };
    if side.left.height() <= side.right.height() {
        top.right = mem::replace(&mut side.left, Tree::new());
        let below = mem::replace(top, side);
        top.left = close(below);
        let _ = top.renew();
        return;
    }
    let Some(mut inner) = side.left.take() else {
        unreachable!()
    };
    side.left = mem::replace(&mut inner.right, Tree::new());
    top.right = mem::replace(&mut inner.left, Tree::new());
    inner.right = close(side);
    let below = mem::replace(top, inner);
    top.left = close(below);
    let _ = top.renew();
}
