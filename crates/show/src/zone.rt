//! The zones of the values of an atomic register, as they are drawn.

use crate::layout::{Bar, Layout};
use crate::scene::Scene;
use intervals::{Initial, Op, Value, is_same_value};
use register_book::{Side, Witness};
use std::alloc::{AllocError, Global};

/// The zone of a value: from the least end of its operations to their greatest beginning, if that is later (forward),
/// else from the greatest beginning to the least end.
#[derive(Clone, Copy)]
pub struct DrawnZone {
    pub value: Value,
    pub left: u128,
    pub right: u128,
    pub is_forward: bool,
    /// Zones of one direction overlap in no row.
    pub row: usize,
}

/// The zones of the two values of a conflict; empty where there is none.
pub fn conflict_in(alloc: Global, layout: &Layout) -> Result<Vec<DrawnZone>, AllocError> {
    let mut zones = Vec::new(alloc);
    if let Some(Witness::Crossing { a, b, c, d }) = &layout.scene.witness {
        zones.push(zone_between(layout, a, d))?;
        zones.push(zone_between(layout, c, b))?;
    }
    Ok(zones)
}

/// The zone from the end of one side to the beginning of another side of the same value.
fn zone_between(layout: &Layout, least: &Side, greatest: &Side) -> DrawnZone {
    let (end, begin) = (layout.end_place(least), layout.begin_place(greatest));
    DrawnZone {
        value: match greatest {
            Side::Op(op) => op.value(),
            Side::Initial => Value::Nil,
        },
        left: end.min(begin),
        right: end.max(begin),
        is_forward: end <= begin,
        row: 0,
    }
}

/// The zones of the values of the operations that are shown, by their left edges.
pub fn zones_of(
    alloc: Global,
    layout: &Layout,
    initial: Initial,
) -> Result<Vec<DrawnZone>, AllocError> {
    let mut zones = zones_by_value(alloc, layout, initial)?;
    zones.sort_unstable_by_key(|zone| (zone.left, zone.right));
    seat(alloc, &mut zones, true)?;
    seat(alloc, &mut zones, false)?;
    Ok(zones)
}

fn zones_by_value(
    alloc: Global,
    layout: &Layout,
    initial: Initial,
) -> Result<Vec<DrawnZone>, AllocError> {
    let mut zones = Vec::new(alloc);
    for (_, _, number) in &by_value(alloc, layout.scene)? {
        if let Some(bar) = layout.bar(*number) {
            add_bar(&mut zones, &bar, initial)?;
        }
    }
    for zone in &mut zones {
        turn(zone);
    }
    Ok(zones)
}

/// The numbers of the operations whose values are known, by value, and of each value the writes first.
fn by_value(alloc: Global, scene: &Scene) -> Result<Vec<(Value, bool, usize)>, AllocError> {
    let mut numbers = Vec::new(alloc);
    for number in 0..scene.ops.len() {
        let op = &scene.ops[number];
        if op.is_write() || op.end.is_some() {
            numbers.push((op.value(), !op.is_write(), number))?;
        }
    }
    numbers.sort_unstable();
    Ok(numbers)
}

/// Widens the last zone by the bar of an operation of its value, or begins the zone of another value.
fn add_bar(zones: &mut Vec<DrawnZone>, bar: &Bar, initial: Initial) -> Result<(), AllocError> {
    let value = bar.op.value();
    if let Some(zone) = zones.last_mut() {
        if is_same_value(zone.value, value) {
            zone.left = zone.left.min(bar.right);
            zone.right = zone.right.max(bar.left);
            return Ok(());
        }
    }
    let left = if is_at_first(initial, bar.op) {
        0
    } else {
        bar.right
    };
    zones.push(DrawnZone {
        value,
        left,
        right: bar.left,
        is_forward: true,
        row: 0,
    })?;
    Ok(())
}

/// Makes a zone backward if its greatest beginning, so far its right edge, is left of its least end, its left edge.
fn turn(zone: &mut DrawnZone) {
    if zone.right < zone.left {
        let end = zone.left;
        zone.left = zone.right;
        zone.right = end;
        zone.is_forward = false;
    }
}

/// Puts the zones of one direction into rows, each into the first that is free.
fn seat(alloc: Global, zones: &mut [DrawnZone], is_forward: bool) -> Result<(), AllocError> {
    let mut ends = Vec::new(alloc);
    for zone in zones {
        if zone.is_forward == is_forward {
            let row = free_row(&ends, zone.left);
            if row < ends.len() {
                ends[row] = zone.right;
            } else {
                ends.push(zone.right)?;
            }
            zone.row = row;
        }
    }
    Ok(())
}

/// The first row that ends left of a place, or a new one.
fn free_row(ends: &[u128], left: u128) -> usize {
    for (row, end) in ends.iter().enumerate() {
        if *end < left {
            return row;
        }
    }
    ends.len()
}

/// Whether the value of an operation, the first of its value, was there at first. Where the value at first is unknown,
/// any value that nothing wrote is taken for it.
fn is_at_first(initial: Initial, op: &Op) -> bool {
    match initial {
        Initial::Known(first) => is_same_value(first, op.value()),
        Initial::Unknown => !op.is_write(),
    }
}
