//! Laws of the definitions. Each is the contract of a function that does nothing.

ghost use Rattle.std.specs.Prelude.{◌≡◌, ℕ, ◌-◌, ◌^◌, ◌<◌, ◌≤◌, ◌↔◌, ◌⊎◌, ◌∷◌, Contains, List, Some, None};
ghost use Rattle.zone_tree.specs.declared.edge.Edge.{Edge};
ghost use Rattle.zone_tree.specs.declared.zone.Zone.{Zone};
ghost use Rattle.zone_tree.specs.Edge.{ComesBefore};
ghost use Rattle.zone_tree.specs.Zone.{IsForward, HasOrderedEdges, Conflicts, ZonesOverlap, LiesInside, least_end, greatest_begin};
ghost use Rattle.zone_tree.specs.Conflict.{IsClean, KeepsClearOfForward, IsFirstConflict};
ghost use Rattle.zone_tree.specs.Order.{IsByLeft, StandInOrder, HasNoZoneAt, with_zone, without_zone_at, zone_at};
ghost use Rattle.zone_tree.specs.Digits.{binary_digits};
ghost use Rattle.std.specs.List.Sorted.{IsPermutation};

/// Edges are in one strict order: none comes before itself, and of two different ones exactly one comes before the
/// other.
pub fn edges_are_in_one_order()
    ensures irreflexive { (a : Edge) → ¬ ComesBefore a a }
    ensures transitive { (a b c : Edge) → ComesBefore a b → ComesBefore b c → ComesBefore a c }
    ensures total { (a b : Edge) → ComesBefore a b ⊎ ((a ≡ b) ⊎ ComesBefore b a) }
{}

/// A zone has its edges in order exactly where this holds: it is forward if and only if the least end in its
/// cluster comes before the greatest beginning.
pub fn forward_where_the_least_end_is_first()
    ensures { (z : Zone) → HasOrderedEdges z ↔ (IsForward z ↔ ComesBefore (least_end z) (greatest_begin z)) }
{}

/// Two forward zones conflict exactly where they overlap.
pub fn forward_zones_conflict_where_they_overlap()
    ensures { (a b : Zone) → IsForward a → IsForward b → Conflicts a b ↔ ZonesOverlap a b }
{}

/// A backward zone and a forward one conflict exactly where the backward one lies inside.
pub fn backward_zones_conflict_inside_forward_ones()
    ensures { (a b : Zone) → IsForward a → ¬ IsForward b → Conflicts a b ↔ LiesInside b a }
{}

/// Two backward zones never conflict.
pub fn backward_zones_never_conflict()
    ensures { (a b : Zone) → HasOrderedEdges a → HasOrderedEdges b → ¬ IsForward a → ¬ IsForward b → ¬ Conflicts a b }
{}

/// A conflict has no direction.
pub fn conflicts_go_both_ways()
    ensures { (a b : Zone) → Conflicts a b → Conflicts b a }
{}

/// Zones can be sorted by their left edges in one way alone.
pub fn zones_have_one_order()
    ensures { (zones others : List Zone) → IsByLeft zones → IsByLeft others
        → ((z : Zone) → Contains zones z ↔ Contains others z) → zones ≡ others }
{}

/// In a list in order no two zones conflict exactly where none conflicts with an earlier forward one.
pub fn conflicts_begin_with_forward_zones()
    ensures { (zones : List Zone) → StandInOrder zones → IsClean zones ↔ KeepsClearOfForward zones }
{}

/// A list in order has at most one first conflict, and a list that has one is not clean.
pub fn one_first_conflict()
    ensures one { (zones : List Zone) (a b c d : Zone) → StandInOrder zones
        → IsFirstConflict zones a b → IsFirstConflict zones c d → (a ≡ c) × (b ≡ d) }
    ensures conflict { (zones : List Zone) (a b : Zone) → IsFirstConflict zones a b → ¬ IsClean zones }
{}

/// A list in order of which two zones conflict has a first conflict.
pub fn a_first_conflict_where_zones_conflict()
    ensures { (zones : List Zone) → StandInOrder zones → ¬ IsClean zones → (first second : Zone) × IsFirstConflict zones first second }
{}

/// A zone of a new left edge is added to the others, and none is lost; all are still in order.
pub fn a_new_zone_has_one_place()
    ensures zones { (zone : Zone) (zones : List Zone) → StandInOrder zones → HasNoZoneAt zone.left zones
        → IsPermutation (zone ∷ zones) (with_zone zone zones) }
    ensures order { (zone : Zone) (zones : List Zone) → StandInOrder zones → HasNoZoneAt zone.left zones
        → HasOrderedEdges zone → StandInOrder (with_zone zone zones) }
{}

/// Once the zone of a left edge is removed no zone has that edge, and the others are left in order.
pub fn a_removed_zone_leaves_the_others()
    ensures gone { (left : Edge) (zones : List Zone) → HasNoZoneAt left (without_zone_at left zones) }
    ensures zones { (left : Edge) (zones : List Zone) (zone : Zone) → StandInOrder zones
        → zone_at left zones ≡ Some zone → IsPermutation zones (zone ∷ without_zone_at left zones) }
    ensures order { (left : Edge) (zones : List Zone) → StandInOrder zones → StandInOrder (without_zone_at left zones) }
{}

/// No zone is found at a left edge exactly where none has it, and then there is none to remove.
pub fn nothing_is_removed_where_no_zone_is()
    ensures none { (left : Edge) (zones : List Zone) → (zone_at left zones ≡ None) ↔ HasNoZoneAt left zones }
    ensures kept { (left : Edge) (zones : List Zone) → HasNoZoneAt left zones → without_zone_at left zones ≡ zones }
{}

/// With d the number of binary digits of n, n is less than 2^d, and at least 2^(d - 1) where it is not zero.
pub fn digits_are_the_least_that_hold_a_number()
    ensures above { (n : ℕ) → n < 2 ^ binary_digits n }
    ensures least { (n : ℕ) → 1 ≤ n → 2 ^ (binary_digits n - 1) ≤ n }
    ensures zero { binary_digits 0 ≡ 1 }
    ensures seven { binary_digits 7 ≡ 3 }
    ensures eight { binary_digits 8 ≡ 4 }
{}
