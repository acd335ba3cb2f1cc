//! The calls: a tree of zones, and its reserved places.

ghost use Rattle.std.specs.Prelude.{◌≡◌, ◌+◌, ◌*◌, ◌<◌, ◌≤◌, ◌↔◌, All, [], ◌∷◌, length, is_some, if◌then◌else◌, OnOk, OnErr, IsNone, IsSome, IsTrue, IfSome, max, ◌-◌, ◌^◌, min};
ghost use Rattle.zone_tree.specs.Edge.{ComesBefore};
ghost use Rattle.zone_tree.specs.Zone.{HasOrderedEdges};
ghost use Rattle.zone_tree.specs.Conflict.{IsClean, IsFirstConflict};
ghost use Rattle.zone_tree.specs.Order.{StandInOrder, HasNoZoneAt, with_zone, without_zone_at, zone_at};
ghost use Rattle.zone_tree.specs.Digits.{binary_digits};

use crate::summary::ZoneSummary;
use crate::{Edge, Zone, Zones, look};
use intervals::Memory;
use std::alloc::Global;
use std::marker::Model;
use summary_tree::{Subtree, Summarizes, SummaryTree};

/// Zones of different left edges, and reserved places for more.
#[derive(Drop)]
pub struct ZoneTree {
    tree: SummaryTree<Zone, ZoneSummary>,
}

impl Model for ZoneTree {
    ghost use Rattle.zone_tree.specs.Order.{ZoneContents, StandInOrder};

    ghost Value = { ZoneContents };

    ghost view = { λ t. record { zones = t.tree.items; free = t.tree.free; steps = t.tree.steps } };

    ghost invariant = { λ t. StandInOrder t.tree.items };
}

impl ZoneTree {
    /// A tree of no zones and no places.
    pub fn new(alloc: Global) -> Self
        ensures zones { result.zones ≡ [] }
        ensures free { result.free ≡ 0 }
        ensures steps { result.steps ≡ 0 }
    {
        ZoneTree {
            tree: SummaryTree::new(alloc),
        }
    }

    /// How many zones it holds.
    pub fn len(&self) -> usize
        ensures { result ≡ length self.now.zones }
    {
        self.tree.len()
    }

    /// How many zones can be inserted without memory.
    pub fn free(&self) -> usize
        ensures { result ≡ self.now.free }
    {
        self.tree.free()
    }

    /// How many times insertions, removals and replacements went from a node to one of its sides; the count ends
    /// at `u64::MAX`.
    pub fn steps(&self) -> u64
        ensures { result ≡ self.now.steps }
    {
        self.tree.steps()
    }

    /// Makes room for that many more zones. It fails where memory is refused, or where so many places cannot be
    /// counted.
    pub fn reserve(&mut self, places: usize) -> Result<(), Memory>
        ensures zones { self.new.zones ≡ self.old.zones }
        ensures steps { self.new.steps ≡ self.old.steps }
        ensures free { OnOk result (self.new.free ≡ max self.old.free places) }
        ensures err { OnErr result (self.new ≡ self.old) }
        ensures memory { OnErr result (self.old.free < places) }
    {
        self.tree.reserve(places)
    }

    /// The zones by left edge.
    pub fn iter(&self) -> Zones<'_>
        ensures zones { result ≡ self.now.zones }
        ensures order { StandInOrder self.now.zones }
    {
        Zones::over(self.all().tree)
    }

    fn all(&self) -> Subtree<'_, Zone, ZoneSummary>
        ensures zones { result.tree.now.items ≡ self.now.zones }
        ensures order { StandInOrder self.now.zones }
    {
        Subtree {
            tree: self.tree.tree(),
        }
    }

    /// Puts a zone of a new left edge into a reserved place.
    pub fn insert(&mut self, zone: Zone)
        requires room { 0 < self.old.free }
        requires new_edge { HasNoZoneAt zone.left self.old.zones }
        requires edges { HasOrderedEdges zone }
        ensures zones { self.new.zones ≡ with_zone zone self.old.zones }
        ensures free { self.new.free + 1 ≡ self.old.free }
        ensures steps { self.new.steps ≤ self.old.steps + (2 * binary_digits (length self.old.zones) + 1) }
        ensures rises { self.old.steps ≤ self.new.steps }
        ensures counts { 0 < length self.old.zones → min (self.old.steps + 1) (2 ^ 64 - 1) ≤ self.new.steps }
    {
        self.tree.insert(zone);
    }

    /// Takes the zone of that left edge out. Its place stays reserved.
    pub fn remove(&mut self, left: Edge) -> Option<Zone>
        ensures zone { result ≡ zone_at left self.old.zones }
        ensures zones { self.new.zones ≡ without_zone_at left self.old.zones }
        ensures free { self.new.free ≡ (if is_some result then self.old.free + 1 else self.old.free) }
        ensures steps { self.new.steps ≤ self.old.steps + (2 * binary_digits (length self.old.zones) + 1) }
        ensures rises { self.old.steps ≤ self.new.steps }
    {
        self.tree.remove(left)
    }

    /// Puts a zone in the place of the one that has its left edge.
    pub fn replace(&mut self, zone: Zone)
        requires there { IsSome (zone_at zone.left self.old.zones) }
        requires edges { HasOrderedEdges zone }
        ensures zones { self.new.zones ≡ with_zone zone (without_zone_at zone.left self.old.zones) }
        ensures free { self.new.free ≡ self.old.free }
        ensures steps { self.new.steps ≤ self.old.steps + (2 * binary_digits (length self.old.zones) + 1) }
        ensures rises { self.old.steps ≤ self.new.steps }
    {
        self.tree.replace(zone);
    }

    /// The zone of that left edge.
    pub fn get(&self, left: Edge) -> Option<Zone>
        ensures { result ≡ zone_at left self.now.zones }
    {
        self.tree.get(left)
    }

    /// Whether no two zones conflict.
    pub fn clean(&self) -> bool
        ensures { IsTrue result ↔ IsClean self.now.zones }
    {
        !look::conflict(self.all().tree)
    }

    /// Whether no two conflict of these zones and `first`, which comes before them.
    pub fn clean_after(&self, first: &Zone) -> bool
        requires edges { HasOrderedEdges first.now }
        requires before { All (λ z. ComesBefore first.now.left z.left) self.now.zones }
        ensures { IsTrue result ↔ IsClean (first.now ∷ self.now.zones) }
    {
        !look::following(self.all().tree, ZoneSummary::of_one(first)).conflict
    }

    /// The first conflict: the second zone is the first by left edge that conflicts with an earlier forward one,
    /// the first zone is of the earlier forward ones that of greatest right edge.
    pub fn first_conflict(&self) -> Option<(Zone, Zone)>
        ensures first { IfSome result (λ pair. IsFirstConflict self.now.zones pair.0 pair.1) }
        ensures none { IsNone result ↔ IsClean self.now.zones }
    {
        let all = self.all();
        let Some(second) = look::first_meeting(all, ZoneSummary::none()) else {
            return None;
        };
        let Some(first) = look::last_forward_before(all, second.left) else {
            unreachable!()
        };
        Some((first, second))
    }

    /// The first conflict of these zones and `first`, which comes before them.
    pub fn first_conflict_after(&self, first: &Zone) -> Option<(Zone, Zone)>
        requires edges { HasOrderedEdges first.now }
        requires before { All (λ z. ComesBefore first.now.left z.left) self.now.zones }
        ensures first { IfSome result (λ pair. IsFirstConflict (first.now ∷ self.now.zones) pair.0 pair.1) }
        ensures none { IsNone result ↔ IsClean (first.now ∷ self.now.zones) }
    {
        let all = self.all();
        let Some(second) = look::first_meeting(all, ZoneSummary::of_one(first)) else {
            return None;
        };
        // No two conflict before the second zone, so the last forward one has the greatest right edge.
        match look::last_forward_before(all, second.left) {
            Some(last) => Some((last, second)),
            None => Some((*first, second)),
        }
    }
}
