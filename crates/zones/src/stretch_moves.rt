//! Stretches taken out of a tree, and put in.

ghost use Rattle.std.specs.Prelude.{◌≡◌, ◌+◌, ◌<◌, ◌≤◌, true, IsNone, IsSome};
ghost use Rattle.zones.specs.Faults.{CanStretch, stretch_shape};
ghost use Rattle.zones.specs.Moves.{AreExchanged, IsChangeAt, IsNew, IsThere, with, without};

use intervals::is_same_value;
use zone_tree::{Stretch, StretchTree};

/// Puts two optional stretches in the place of two others. A stretch that does not change is left where it is.
pub fn exchange_stretches(
    tree: &mut StretchTree,
    before: &(Option<Stretch>, Option<Stretch>),
    after: &(Option<Stretch>, Option<Stretch>),
)
    requires room { 2 ≤ tree.old.free }
    requires new { CanStretch tree.old.stretches before.now after.now }
    ensures stretches { AreExchanged stretch_shape before.now after.now tree.old.stretches tree.new.stretches }
    ensures room { tree.old.free ≤ tree.new.free + 2 }
    ensures one { IsNone after.now.1 → tree.old.free ≤ tree.new.free + 1 }
    ensures kept { IsNone after.now.1 → (IsSome after.now.0 → IsThere tree.old.stretches before.now.0) → tree.old.free ≤ tree.new.free }
{
    let (gone, come) = change(&before.0, &after.0);
    let (other_gone, other_come) = change(&before.1, &after.1);
    take(tree, &gone);
    take(tree, &other_gone);
    put(tree, &come);
    put(tree, &other_come);
}

/// What goes and what comes: both, or nothing where they are one stretch.
fn change(before: &Option<Stretch>, after: &Option<Stretch>) -> (Option<Stretch>, Option<Stretch>)
    ensures { IsChangeAt before.now after.now result }
{
    if is_unchanged(before, after) {
        (None, None)
    } else {
        (*before, *after)
    }
}

/// Whether both are one stretch, or neither is there.
fn is_unchanged(before: &Option<Stretch>, after: &Option<Stretch>) -> bool
    ensures { result ≡ true → before.now ≡ after.now }
{
    match (before, after) {
        (Some(old), Some(new)) => is_same(old, new),
        (None, None) => true,
        _ => false,
    }
}

fn is_same(a: &Stretch, b: &Stretch) -> bool
    ensures { result ≡ true → a.now ≡ b.now }
{
    a.end.0 == b.end.0 && a.written == b.written && is_same_value(a.value, b.value)
}

fn take(tree: &mut StretchTree, stretch: &Option<Stretch>)
    ensures stretches { tree.new.stretches ≡ without stretch_shape stretch.now tree.old.stretches }
    ensures kept { tree.old.free ≤ tree.new.free }
    ensures freed { IsThere tree.old.stretches stretch.now → tree.old.free < tree.new.free }
{
    match stretch {
        Some(stretch) => {
            let _ = tree.remove(stretch.end);
        }
        None => {}
    }
}

fn put(tree: &mut StretchTree, stretch: &Option<Stretch>)
    requires room { IsSome stretch.now → 0 < tree.old.free }
    requires new { IsNew stretch_shape tree.old.stretches stretch.now }
    ensures stretches { tree.new.stretches ≡ with stretch_shape stretch.now tree.old.stretches }
    ensures free { tree.old.free ≤ tree.new.free + 1 }
    ensures kept { IsNone stretch.now → tree.old.free ≤ tree.new.free }
{
    match stretch {
        Some(stretch) => tree.insert(*stretch),
        None => {}
    }
}
