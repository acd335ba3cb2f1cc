//! Laws of the definitions. Each is the contract of a function that does nothing.

ghost use Rattle.std.specs.Prelude.{◌≡◌, ◌↔◌, ◌⊎◌, ◌≤◌, true, false, Contains, List, Option, Some, None, option_map};
ghost use Rattle.intervals.specs.declared.ordered_index.Spot.{Spot};
ghost use Rattle.intervals.specs.OrderedIndex.{same_spot};
ghost use Rattle.read_tree.specs.declared.item.RowItem.{RowItem};
ghost use Rattle.read_tree.specs.Items.{AreItemsInOrder, IsCoverAt, spot_of_item, with_read_item, without_read_item, renewed, item_at_spot, cover_of, is_uncovered, is_some_uncovered, first_uncovered};

/// An item at a new spot is added to the others, and none is lost; all are still in order.
pub fn a_new_item_has_one_place()
    ensures items { (new : RowItem) (items : List RowItem) → item_at_spot (spot_of_item new) items ≡ None
        → (x : RowItem) → Contains (with_read_item new items) x ↔ ((x ≡ new) ⊎ Contains items x) }
    ensures order { (new : RowItem) (items : List RowItem) → AreItemsInOrder items → AreItemsInOrder (with_read_item new items) }
{}

/// Once the item at a spot is removed the others are left, and in order.
pub fn a_removed_item_leaves_the_others()
    ensures items { (spot : Spot) (items : List RowItem) (x : RowItem)
        → Contains (without_read_item spot items) x ↔ (Contains items x × (same_spot (spot_of_item x) spot ≡ false)) }
    ensures order { (spot : Spot) (items : List RowItem) → AreItemsInOrder items → AreItemsInOrder (without_read_item spot items) }
{}

/// A new item takes the place of the one at its spot, if there is one, and the others stay; all are still in
/// order.
pub fn a_renewed_item_is_where_one_was()
    ensures items { (new : RowItem) (items : List RowItem) (x : RowItem)
        → Contains (renewed new items) x ↔ ((Contains items x × (same_spot (spot_of_item x) (spot_of_item new) ≡ false)) ⊎ ((x ≡ new) × ((old : RowItem) × Contains items old × (same_spot (spot_of_item old) (spot_of_item new) ≡ true)))) }
    ensures order { (new : RowItem) (items : List RowItem) → AreItemsInOrder items → AreItemsInOrder (renewed new items) }
{}

/// An item is found by its spot, which no other has.
pub fn items_are_found_by_their_spots()
    ensures found { (spot : Spot) (items : List RowItem) (x : RowItem) → AreItemsInOrder items
        → (item_at_spot spot items ≡ Some x) ↔ (Contains items x × (same_spot (spot_of_item x) spot ≡ true)) }
    ensures none { (spot : Spot) (items : List RowItem)
        → (item_at_spot spot items ≡ None) ↔ ((x : RowItem) → Contains items x → same_spot (spot_of_item x) spot ≡ false) }
{}

/// Each spot has a last cover before it, or no cover before it.
pub fn each_spot_has_a_last_cover()
    ensures { (items : List RowItem) (spot : Spot) → AreItemsInOrder items → (c : Option RowItem) × IsCoverAt items spot c }
{}

/// Where no read is uncovered, each is covered by the last cover before it. The first uncovered read is not
/// covered by the last cover before it, and no other uncovered one ended before it.
pub fn short_reads_are_told()
    ensures none { (items : List RowItem) → AreItemsInOrder items → is_some_uncovered None items ≡ false
        → (r : RowItem) (c : Option RowItem) → Contains items r → r.covers ≡ false → IsCoverAt items (spot_of_item r) c
        → is_uncovered (option_map cover_of c) r ≡ false }
    ensures found { (items : List RowItem) (r : RowItem) → AreItemsInOrder items → first_uncovered None items ≡ Some r
        → Contains items r × (r.covers ≡ false)
        × ((c : Option RowItem) → IsCoverAt items (spot_of_item r) c → is_uncovered (option_map cover_of c) r ≡ true)
        × ((other : RowItem) (c : Option RowItem) → Contains items other → other.covers ≡ false → IsCoverAt items (spot_of_item other) c
        → is_uncovered (option_map cover_of c) other ≡ true → r.moment.0 ≤ other.moment.0) }
    ensures some { (items : List RowItem) → (is_some_uncovered None items ≡ false) ↔ (first_uncovered None items ≡ None) }
{}
