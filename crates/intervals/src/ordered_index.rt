//! An index of ids by value and moment, where places may be held before ids come.

ghost use Rattle.std.specs.Prelude.{◌≡◌, ◌<◌, ◌≤◌, true, false, None, Some, MatchOption, IfOk, OnOk, OnErr, is_some, not, if◌then◌else◌, IsTrue, ◌↔◌};
ghost use Rattle.std.proofs.Common.{rules};
ghost use Rattle.std.specs.BTreeMap.Range.{IsLeBy, IsLtBy};
ghost use Rattle.std.specs.Cmp.{partial_order_from_agreeing_total};
ghost use Rattle.std.specs.Cmp.Rules.{comparing};
ghost use Rattle.std.specs.Ordering.{as_partial_cmp};
ghost use Rattle.intervals.specs.declared.operation.Moment.{Moment as AMoment};
ghost use Rattle.intervals.specs.Operation.{same_value};
ghost use Rattle.intervals.specs.OrderedIndex.{place_at, id_at, same_spot, spot_of};

use crate::{Memory, Moment, OpId, Value, is_same_value};
use std::alloc::Global;
use std::cmp::Ordering;
use std::collections::BTreeMap;
use std::ops::Bound;

/// A value and a moment. The greatest value comes first, and of one value the latest moment: a node of the map is
/// searched from its beginning, and the newest is asked for most.
#[derive(Clone, Copy, PartialEq, Eq)]
pub struct Spot {
    pub value: Value,
    pub moment: Moment,
}

impl Ord for Spot {
    ghost use Rattle.intervals.specs.OrderedIndex.{spot_cmp, spot_total};

    ghost cmp = { spot_cmp };

    ghost total = { spot_total };

    ghost matches_partial_cmp = { Prim.search (comparing, rules) };

    ghost matches_eq = { Prim.search (comparing, rules) };

    fn cmp(&self, other: &Spot) -> Ordering {
        other
            .value
            .cmp(&self.value)
            .then(other.moment.cmp(&self.moment))
    }
}

impl PartialOrd for Spot {
    ghost use Rattle.std.specs.Prelude.{refl};
    ghost use Rattle.intervals.specs.OrderedIndex.{spot_cmp, spot_total};

    ghost partial_cmp = { as_partial_cmp spot_cmp };

    ghost laws = { partial_order_from_agreeing_total spot_cmp spot_total (λ x y. refl) (Prim.search (comparing, rules)) };

    fn partial_cmp(&self, other: &Spot) -> Option<Ordering> {
        Some(self.cmp(other))
    }
}

/// Ids, each at a spot. A place can be held before it has an id, so that to put one there later takes no memory.
#[derive(Drop)]
pub struct OrderedIndex {
    places: BTreeMap<Spot, Option<OpId>>,
}

impl OrderedIndex {
    ghost use Rattle.intervals.specs.declared.ordered_index.Spot.{Spot as ASpot};
    ghost use Rattle.intervals.specs.OrderedIndex.{spot_cmp};

    /// An index without places.
    pub fn new(alloc: Global) -> Self
        ensures { (spot : ASpot) → place_at result spot ≡ None }
    {
        OrderedIndex {
            places: BTreeMap::new(alloc),
        }
    }

    /// The id at the spot.
    pub fn get(&self, spot: Spot) -> Option<OpId>
        ensures { result ≡ id_at self.now spot }
    {
        let found = self.places.get(&spot)?;
        *found
    }

    /// Makes a place at the spot, unless there is one, and returns whether it was made.
    pub fn hold(&mut self, spot: Spot) -> Result<bool, Memory>
        ensures there { OnOk result (is_some (place_at self.new spot) ≡ true) }
        ensures made { IfOk result (λ made. made ≡ not (is_some (place_at self.old spot))) }
        ensures ids { (other : ASpot) → id_at self.new other ≡ id_at self.old other }
        ensures others { (other : ASpot) → is_some (place_at self.old other) ≡ true → place_at self.new other ≡ place_at self.old other }
        ensures new { OnOk result ((other : ASpot) → same_spot spot other ≡ false → place_at self.new other ≡ place_at self.old other) }
        ensures err { OnErr result ((other : ASpot) → place_at self.new other ≡ place_at self.old other) }
    {
        if self.places.contains_key(&spot) {
            return Ok(false);
        }
        self.places.insert(spot, None)?;
        Ok(true)
    }

    /// Drops the place at the spot where it has no id.
    pub fn release(&mut self, spot: Spot)
        ensures gone { id_at self.old spot ≡ None → place_at self.new spot ≡ None }
        ensures ids { (other : ASpot) → id_at self.new other ≡ id_at self.old other }
        ensures others { (other : ASpot) → same_spot spot other ≡ false → place_at self.new other ≡ place_at self.old other }
    {
        if self.get(spot).is_none() {
            self.places.remove(&spot);
        }
    }

    /// Puts the id into the place at the spot, in which another may be.
    pub fn put(&mut self, spot: Spot, id: OpId)
        requires { is_some (place_at self.old spot) ≡ true }
        ensures { (other : ASpot) → place_at self.new other ≡ (if same_spot spot other then Some (Some id) else place_at self.old other) }
    {
        let Ok(_) = self.places.insert(spot, Some(id)) else {
            unreachable!()
        };
    }

    /// Takes the id at the spot out and keeps the place.
    pub fn vacate(&mut self, spot: Spot)
        requires { is_some (place_at self.old spot) ≡ true }
        ensures { (other : ASpot) → place_at self.new other ≡ (if same_spot spot other then Some None else place_at self.old other) }
    {
        let Ok(_) = self.places.insert(spot, None) else {
            unreachable!()
        };
    }

    /// Drops the place at the spot, with its id.
    pub fn take(&mut self, spot: Spot)
        ensures { (other : ASpot) → place_at self.new other ≡ (if same_spot spot other then None else place_at self.old other) }
    {
        self.places.remove(&spot);
    }

    /// The id of the value at the least moment from that one on, with its moment.
    pub fn first_from(&self, value: Value, from: Moment) -> Option<(Moment, OpId)>
        ensures { MatchOption result
            ((m : AMoment) → from.0 ≤ m.0 → id_at self.now (spot_of value m) ≡ None)
            (λ found. (from.0 ≤ found.0.0) × (id_at self.now (spot_of value found.0) ≡ Some found.1)
            × ((m : AMoment) → from.0 ≤ m.0 → m.0 < found.0.0 → id_at self.now (spot_of value m) ≡ None)) }
    {
        let (moment, id) = self.place_from(value, from)?;
        match id {
            Some(id) => Some((moment, id)),
            None => self.first_after(value, moment),
        }
    }

    /// The id of the value at the greatest moment up to that one, with its moment.
    pub fn last_up_to(&self, value: Value, up_to: Moment) -> Option<(Moment, OpId)>
        ensures { MatchOption result
            ((m : AMoment) → m.0 ≤ up_to.0 → id_at self.now (spot_of value m) ≡ None)
            (λ found. (found.0.0 ≤ up_to.0) × (id_at self.now (spot_of value found.0) ≡ Some found.1)
            × ((m : AMoment) → found.0.0 < m.0 → m.0 ≤ up_to.0 → id_at self.now (spot_of value m) ≡ None)) }
    {
        let (moment, id) = self.place_up_to(value, up_to)?;
        match id {
            Some(id) => Some((moment, id)),
            None => self.last_before(value, moment),
        }
    }

    /// The id of the value at the greatest moment before that one, with its moment.
    pub fn last_before(&self, value: Value, limit: Moment) -> Option<(Moment, OpId)>
        ensures { MatchOption result
            ((m : AMoment) → m.0 < limit.0 → id_at self.now (spot_of value m) ≡ None)
            (λ found. (found.0.0 < limit.0) × (id_at self.now (spot_of value found.0) ≡ Some found.1)
            × ((m : AMoment) → found.0.0 < m.0 → m.0 < limit.0 → id_at self.now (spot_of value m) ≡ None)) }
    {
        let mut before = limit;
        while let Some((moment, id)) = self.place_before(value, before) {
            if let Some(id) = id {
                return Some((moment, id));
            }
            before = moment;
        }
        None
    }

    /// The id of the value at the least moment after that one, with its moment.
    pub fn first_after(&self, value: Value, from: Moment) -> Option<(Moment, OpId)>
        ensures { MatchOption result
            ((m : AMoment) → from.0 < m.0 → id_at self.now (spot_of value m) ≡ None)
            (λ found. (from.0 < found.0.0) × (id_at self.now (spot_of value found.0) ≡ Some found.1)
            × ((m : AMoment) → from.0 < m.0 → m.0 < found.0.0 → id_at self.now (spot_of value m) ≡ None)) }
    {
        let mut after = from;
        while let Some((moment, id)) = self.place_after(value, after) {
            if let Some(id) = id {
                return Some((moment, id));
            }
            after = moment;
        }
        None
    }

    /// The first place of the value from the moment on, and its id, if any.
    fn place_from(&self, value: Value, from: Moment) -> Option<(Moment, Option<OpId>)>
        ensures { MatchOption result
            ((m : AMoment) → from.0 ≤ m.0 → place_at self.now (spot_of value m) ≡ None)
            (λ found. (from.0 ≤ found.0.0) × (place_at self.now (spot_of value found.0) ≡ Some found.1)
            × ((m : AMoment) → from.0 ≤ m.0 → m.0 < found.0.0 → place_at self.now (spot_of value m) ≡ None)) }
    {
        let (spot, id) = self.places.range(..=spot_at(value, from)).next_back()?;
        of_value(*spot, *id, value)
    }

    /// The last place of the value up to the moment, and its id, if any.
    fn place_up_to(&self, value: Value, up_to: Moment) -> Option<(Moment, Option<OpId>)>
        ensures { MatchOption result
            ((m : AMoment) → m.0 ≤ up_to.0 → place_at self.now (spot_of value m) ≡ None)
            (λ found. (found.0.0 ≤ up_to.0) × (place_at self.now (spot_of value found.0) ≡ Some found.1)
            × ((m : AMoment) → found.0.0 < m.0 → m.0 ≤ up_to.0 → place_at self.now (spot_of value m) ≡ None)) }
    {
        let from = spot_at(value, up_to);
        if self.has_none_from(from) {
            return None;
        }
        let (spot, id) = self.places.range(from..).next()?;
        of_value(*spot, *id, value)
    }

    /// The last place of the value before the moment, and its id, if any.
    fn place_before(&self, value: Value, limit: Moment) -> Option<(Moment, Option<OpId>)>
        ensures { MatchOption result
            ((m : AMoment) → m.0 < limit.0 → place_at self.now (spot_of value m) ≡ None)
            (λ found. (found.0.0 < limit.0) × (place_at self.now (spot_of value found.0) ≡ Some found.1)
            × ((m : AMoment) → found.0.0 < m.0 → m.0 < limit.0 → place_at self.now (spot_of value m) ≡ None)) }
    {
        let past = (Bound::Excluded(spot_at(value, limit)), Bound::Unbounded);
        let (spot, id) = self.places.range(past).next()?;
        of_value(*spot, *id, value)
    }

    /// The first place of the value after the moment, and its id, if any.
    fn place_after(&self, value: Value, from: Moment) -> Option<(Moment, Option<OpId>)>
        ensures { MatchOption result
            ((m : AMoment) → from.0 < m.0 → place_at self.now (spot_of value m) ≡ None)
            (λ found. (from.0 < found.0.0) × (place_at self.now (spot_of value found.0) ≡ Some found.1)
            × ((m : AMoment) → from.0 < m.0 → m.0 < found.0.0 → place_at self.now (spot_of value m) ≡ None)) }
    {
        let to = spot_at(value, from);
        if self.has_none_in_front(to) {
            return None;
        }
        let (spot, id) = self.places.range(..to).next_back()?;
        of_value(*spot, *id, value)
    }

    /// Whether no place is at the spot or after it in the order of spots: one comparison, with the last place.
    fn has_none_from(&self, spot: Spot) -> bool
        ensures { IsTrue result ↔ ((other : ASpot) → IsLeBy spot_cmp spot other → place_at self.now other ≡ None) }
    {
        match self.places.last_key_value() {
            Some((last, _)) => spot > *last,
            None => true,
        }
    }

    /// Whether no place is before the spot in the order of spots: one comparison, with the first place.
    fn has_none_in_front(&self, spot: Spot) -> bool
        ensures { IsTrue result ↔ ((other : ASpot) → IsLtBy spot_cmp other spot → place_at self.now other ≡ None) }
    {
        match self.places.first_key_value() {
            Some((first, _)) => spot <= *first,
            None => true,
        }
    }
}

fn spot_at(value: Value, moment: Moment) -> Spot
    ensures { result ≡ spot_of value moment }
{
    Spot { value, moment }
}

/// The moment of the spot and the id, where the spot is of the value.
fn of_value(spot: Spot, id: Option<OpId>, value: Value) -> Option<(Moment, Option<OpId>)>
    ensures { result ≡ (if same_value spot.value value then Some (spot.moment, id) else None) }
{
    if is_same_value(spot.value, value) {
        Some((spot.moment, id))
    } else {
        None
    }
}
