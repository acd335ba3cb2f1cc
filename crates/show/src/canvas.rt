//! Where the parts of an SVG picture are.

use crate::layout::{Layout, Window, earlier, layout_of, widest_name};
use crate::measure::{Measure, digits_of, with_last_moment};
use crate::scene::{Scene, Sketch};
use crate::told::number_of;
use crate::zone::{DrawnZone, conflict_in, zones_of};
use intervals::Kind;
use register_book::Side;
use std::alloc::{AllocError, Global};
use timeline::Extent;

/// What is drawn, and where, in units. Each row is a window on one strip, which has all zones, lanes and moments.
#[derive(Drop)]
pub struct Canvas<'s, 't> {
    pub layout: Layout<'s, 't>,
    /// The lane of each operation.
    pub lanes: Vec<usize>,
    /// The zones of all values, of an atomic register all of whose operations are shown.
    pub zones: Vec<DrawnZone>,
    /// How many rows the forward ones have.
    pub forward_rows: u128,
    /// How many rows the backward ones have.
    pub backward_rows: u128,
    /// The zones of the two values of a conflict, where there are no others.
    pub conflict: Vec<DrawnZone>,
    /// The width left of the strip, for the names of lanes.
    pub margin: u128,
    /// The top of the lanes within the strip.
    pub top: u128,
    /// The bottom of the lanes within the strip.
    pub bottom: u128,
}

/// The height of a lane.
pub const LANE: u128 = 24;

/// The height of a bar in its lane.
pub const BAR: u128 = 14;

/// The height of a zone of a conflict.
pub const ZONE: u128 = 21;

/// The height of a row of the zones of all values.
pub const ZONE_ROW: u128 = 15;

/// The height of a line of words.
pub const LINE: u128 = 16;

/// The height of the moments below the lanes.
const AXIS: u128 = 30;

/// The height of what is above the first row.
const HEAD: u128 = 52;

/// The height between two rows.
const BETWEEN: u128 = 12;

const MEASURE: Measure = Measure {
    gap: 16,
    character: 6,
    label: 10,
    fold: 38,
    first: 12,
    last: 44,
    is_centred: true,
};

/// Where all operations are shown, they are closer to each other.
const CLOSE: Measure = Measure { gap: 7, ..MEASURE };

/// The canvas of a sketch, in rows of this width, the names of lanes included.
pub fn canvas_of<'s, 't>(
    alloc: Global,
    sketch: &'s Sketch<'_, 't>,
    width: u32,
) -> Result<Canvas<'s, 't>, AllocError> {
    let (subject, scene) = (&sketch.subject, &sketch.scene);
    let measure = match sketch.extent {
        Extent::All => &CLOSE,
        Extent::Around(_) => &MEASURE,
    };
    let margin = margin_of(scene);
    let width = room_beside(width, margin);
    let measure = with_last_moment(measure, scene);
    let layout = layout_of(alloc, subject, scene, &measure, width)?;
    let lanes = lanes_of(alloc, scene, &layout.lane_ends)?;
    let zones = match (sketch.extent, subject.kind) {
        (Extent::All, Kind::Atomic) => zones_of(alloc, &layout, subject.initial)?,
        _ => Vec::new(alloc),
    };
    let conflict = if zones.is_empty() {
        conflict_in(alloc, &layout)?
    } else {
        Vec::new(alloc)
    };
    let forward_rows = rows_of(&zones, true);
    let backward_rows = rows_of(&zones, false);
    let top = zones_height(forward_rows.saturating_add(backward_rows), &conflict);
    let bottom = (layout.lane_ends.len() as u128)
        .saturating_mul(LANE)
        .saturating_add(top);
    Ok(Canvas {
        layout,
        lanes,
        zones,
        forward_rows,
        backward_rows,
        conflict,
        margin,
        top,
        bottom,
    })
}

/// The width that is left beside the names of lanes, at least 100.
fn room_beside(width: u32, margin: u128) -> u32 {
    let beside = match u32::try_from(margin) {
        Ok(margin) => width.saturating_sub(margin),
        Err(_) => 0,
    };
    beside.max(100)
}

fn zones_height(rows: u128, conflict: &[DrawnZone]) -> u128 {
    if !conflict.is_empty() {
        return 2 * ZONE + 6;
    }
    if rows == 0 {
        return 0;
    }
    rows.saturating_mul(ZONE_ROW).saturating_add(10)
}

/// How many rows the forward or the backward zones have.
fn rows_of(zones: &[DrawnZone], is_forward: bool) -> u128 {
    let mut rows: u128 = 0;
    for zone in zones {
        if zone.is_forward == is_forward {
            rows = rows.max((zone.row as u128).saturating_add(1));
        }
    }
    rows
}

/// The lane of each operation that is shown.
fn lanes_of(alloc: Global, scene: &Scene, ends: &[usize]) -> Result<Vec<usize>, AllocError> {
    let mut lanes = vec![in alloc; 0; scene.ops.len()]?;
    let mut from = 0;
    for lane in 0..ends.len() {
        for number in from..ends[lane] {
            if let Some(seat) = scene.seats.get(number) {
                if seat.op < lanes.len() {
                    lanes[seat.op] = lane;
                }
            }
        }
        from = ends[lane];
    }
    Ok(lanes)
}

/// The width of so many characters.
pub fn wide(characters: usize) -> u128 {
    (characters as u128).saturating_mul(6)
}

/// The width for the widest name, or for the number of operations left out before all.
fn margin_of(scene: &Scene) -> u128 {
    let widest = widest_name(scene, "process ");
    let earlier = match earlier(scene) {
        0 => 0,
        many => digits_of(many).saturating_add(6),
    };
    wide(widest.max(earlier)).saturating_add(28)
}

/// The window of a row on the strip. It ends one unit left of the next, so that no label that ends with it is seen
/// there.
pub fn window_of(layout: &Layout, row: usize) -> Window {
    let from = match layout.starts.get(row) {
        Some(first) if row > 0 => layout.place_of(*first).saturating_sub(4),
        _ => 0,
    };
    let to = match layout.starts.get(row.saturating_add(1)) {
        Some(next) => layout.place_of(*next).saturating_sub(5),
        None => layout.right_edge().saturating_add(tail_width(layout)),
    };
    Window {
        from,
        to: to.max(from),
    }
}

/// The row whose window has this place.
pub fn row_at(layout: &Layout, place: u128) -> usize {
    layout
        .starts
        .partition_point(|start| layout.place_of(*start).saturating_sub(4) <= place)
        .saturating_sub(1)
}

/// The width for the number of operations left out after all.
fn tail_width(layout: &Layout) -> u128 {
    match layout.later() {
        0 => 4,
        many => wide(digits_of(many)).saturating_add(50),
    }
}

pub fn strip_height(canvas: &Canvas) -> u128 {
    canvas.bottom.saturating_add(AXIS)
}

pub fn row_top(canvas: &Canvas, row: usize) -> u128 {
    strip_height(canvas)
        .saturating_add(BETWEEN)
        .saturating_mul(row as u128)
        .saturating_add(HEAD)
}

/// The top of a lane within the strip.
pub fn lane_top(canvas: &Canvas, lane: usize) -> u128 {
    (lane as u128)
        .saturating_mul(LANE)
        .saturating_add(canvas.top)
}

pub fn lane_of(canvas: &Canvas, number: usize) -> usize {
    if number < canvas.lanes.len() {
        canvas.lanes[number]
    } else {
        0
    }
}

/// The middle of the lane of a side, from the top of the strip.
pub fn middle_of(canvas: &Canvas, side: &Side) -> u128 {
    let top = match side {
        Side::Initial => canvas.top,
        Side::Op(op) => match number_of(canvas.layout.scene, op.id) {
            Some(number) => lane_top(canvas, lane_of(canvas, number)),
            None => canvas.top,
        },
    };
    top.saturating_add(LANE / 2)
}

pub fn box_width(label: &str) -> u128 {
    wide(label.len()).saturating_add(10)
}
