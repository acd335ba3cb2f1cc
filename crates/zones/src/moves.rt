//! Zones taken out of a tree, and put in.

ghost use Rattle.std.specs.Prelude.{◌≡◌, ◌⊎◌, ◌+◌, ◌*◌, ◌<◌, ◌≤◌, length, true, IsNone, IsSome, IsTrue};
ghost use Rattle.zone_tree.specs.Digits.{binary_digits};
ghost use Rattle.zone_tree.specs.Order.{zone_at};
ghost use Rattle.zones.specs.Moves.{AreExchanged, IsNew, KeepsRoom, IsThere, with, without, moved};
ghost use Rattle.zones.specs.Zoned.{CanExchange, CanMove, NeedsNoRoom, zone_shape};

use intervals::is_same_value;
use zone_tree::laws::digits_are_the_least_that_hold_a_number;
use zone_tree::{Zone, ZoneTree};

/// Puts two optional zones in the place of two others. A zone that does not change is left where it is.
pub fn exchange(
    tree: &mut ZoneTree,
    before: &(Option<Zone>, Option<Zone>),
    after: &(Option<Zone>, Option<Zone>),
)
    requires { CanExchange tree.old before.now after.now }
    ensures zones { AreExchanged zone_shape before.now after.now tree.old.zones tree.new.zones }
    ensures room { NeedsNoRoom tree.old.zones before.now after.now → tree.old.free ≤ tree.new.free }
    ensures steps { tree.new.steps ≤ tree.old.steps + 4 * (2 * binary_digits (length tree.old.zones + 1) + 1) }
    ensures rises { tree.old.steps ≤ tree.new.steps }
{
    match (
        is_unchanged(&before.0, &after.0),
        is_unchanged(&before.1, &after.1),
    ) {
        (true, true) => {}
        (false, true) => move_zone(tree, &before.0, &after.0),
        (true, false) => move_zone(tree, &before.1, &after.1),
        (false, false) => move_both(tree, before, after),
    }
}

/// Whether both are one zone, or neither is there.
fn is_unchanged(before: &Option<Zone>, after: &Option<Zone>) -> bool
    ensures { result ≡ true → before.now ≡ after.now }
{
    match (before, after) {
        (Some(old), Some(new)) => is_same(old, new),
        (None, None) => true,
        _ => false,
    }
}

/// Puts one optional zone in the place of another. Where the left edge stays the zone is replaced, else it is
/// taken out and put in.
fn move_zone(tree: &mut ZoneTree, gone: &Option<Zone>, come: &Option<Zone>)
    requires room { IsSome come.now → (0 < tree.old.free) ⊎ IsThere tree.old.zones gone.now }
    requires new { IsNew zone_shape (without zone_shape gone.now tree.old.zones) come.now }
    ensures zones { tree.new.zones ≡ with zone_shape come.now (without zone_shape gone.now tree.old.zones) }
    ensures room { (IsSome come.now → IsThere tree.old.zones gone.now) → tree.old.free ≤ tree.new.free }
    ensures steps { tree.new.steps ≤ tree.old.steps + 4 * (2 * binary_digits (length tree.old.zones + 1) + 1) }
    ensures rises { tree.old.steps ≤ tree.new.steps }
{
    digits_are_the_least_that_hold_a_number();
    match (gone, come) {
        (Some(old), Some(new)) if keeps_its_edge(tree, old, new) => tree.replace(*new),
        _ => {
            take(tree, gone);
            put(tree, come);
        }
    }
}

/// Whether the two have one left edge, and the tree has a zone there.
fn keeps_its_edge(tree: &ZoneTree, old: &Zone, new: &Zone) -> bool
    ensures { result ≡ true → (old.now.left ≡ new.now.left) × IsSome (zone_at new.now.left tree.now.zones) }
{
    old.left.is_same(new.left) && tree.get(new.left).is_some()
}

/// Puts two optional zones in the place of two others, each taken out and put in.
fn move_both(
    tree: &mut ZoneTree,
    gone: &(Option<Zone>, Option<Zone>),
    come: &(Option<Zone>, Option<Zone>),
)
    requires { CanMove tree.old gone.now come.now }
    ensures zones { tree.new.zones ≡ moved zone_shape gone.now come.now tree.old.zones }
    ensures room { KeepsRoom tree.old.zones gone.now come.now → tree.old.free ≤ tree.new.free }
    ensures steps { tree.new.steps ≤ tree.old.steps + 4 * (2 * binary_digits (length tree.old.zones + 1) + 1) }
    ensures rises { tree.old.steps ≤ tree.new.steps }
{
    digits_are_the_least_that_hold_a_number();
    take(tree, &gone.0);
    take(tree, &gone.1);
    put(tree, &come.0);
    put(tree, &come.1);
}

fn is_same(a: &Zone, b: &Zone) -> bool
    ensures { IsTrue result → a.now ≡ b.now }
{
    a.left.is_same(b.left)
        && a.right.is_same(b.right)
        && a.forward == b.forward
        && is_same_value(a.value, b.value)
}

fn take(tree: &mut ZoneTree, zone: &Option<Zone>)
    ensures zones { tree.new.zones ≡ without zone_shape zone.now tree.old.zones }
    ensures kept { tree.old.free ≤ tree.new.free }
    ensures freed { IsThere tree.old.zones zone.now → tree.old.free < tree.new.free }
    ensures steps { tree.new.steps ≤ tree.old.steps + (2 * binary_digits (length tree.old.zones) + 1) }
    ensures rises { tree.old.steps ≤ tree.new.steps }
{
    match zone {
        Some(zone) => {
            let _ = tree.remove(zone.left);
        }
        None => {}
    }
}

fn put(tree: &mut ZoneTree, zone: &Option<Zone>)
    requires room { IsSome zone.now → 0 < tree.old.free }
    requires new { IsNew zone_shape tree.old.zones zone.now }
    ensures zones { tree.new.zones ≡ with zone_shape zone.now tree.old.zones }
    ensures free { tree.old.free ≤ tree.new.free + 1 }
    ensures kept { IsNone zone.now → tree.old.free ≤ tree.new.free }
    ensures steps { tree.new.steps ≤ tree.old.steps + (2 * binary_digits (length tree.old.zones) + 1) }
    ensures rises { tree.old.steps ≤ tree.new.steps }
{
    match zone {
        Some(zone) => tree.insert(*zone),
        None => {}
    }
}
