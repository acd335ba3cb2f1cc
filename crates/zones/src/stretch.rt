//! The values at fault, and the faulty reads that their stretches show.

ghost use Rattle.std.specs.Prelude.{◌≡◌, List, Option, is_some};
ghost use Rattle.intervals.specs.declared.operation.Op.{Op as AnOp};
ghost use Rattle.intervals.specs.declared.operation.Value.{Value as AValue};
ghost use Rattle.intervals.specs.Terms.{ClaimModel, terms_of};
ghost use Rattle.zones.specs.AtFirst.{first_writeless, first_writeless_but, sole_of, with_other};
ghost use Rattle.zones.specs.Edges.{AreEdges, AreEdgesAt, AreEdgesAtSome};
ghost use Rattle.zones.specs.Fault.{first_early};
ghost use Rattle.zones.specs.Faults.{AreStretched, IsStretchAt, IsStretchAtSome, AreStretchesAt, begin_of_write, write_of};
ghost use Rattle.zones.specs.Index.{AreMembers};
ghost use Rattle.zones.specs.Records.{AreRecords};
ghost use Rattle.zones.specs.Zoned.{AreManyWriters};

use crate::crossing::first_read;
use crate::edges::Edges;
use crate::index::Members;
use crate::records::Records;
use crate::zone_in::is_written;
use intervals::{Claim, Op, OpTable, Value};
use zone_tree::{Edge, Stretch, StretchTree};

/// The stretch of the value, where that is at fault: some judged read of it ended before its write begins, or it
/// has no write, and it is not known to be the initial one.
pub fn stretch_in(edges: &Edges, claim: &Claim) -> Option<Stretch>
    ensures { (ops : List AnOp) (value : AValue) → AreEdges ops value edges.now → IsStretchAt (terms_of claim.now) ops value result }
{
    let Edge::At(end) = edges.read_end else {
        return None;
    };
    if !edges.read_end.comes_before(begin_of(edges)) {
        return None;
    }
    if claim.is_initial(edges.value) {
        return None;
    }
    Some(Stretch {
        end,
        written: is_written(edges),
        value: edges.value,
    })
}

/// Where the write of the value begins; `Never` where there is none.
fn begin_of(edges: &Edges) -> Edge
    ensures { (ops : List AnOp) (value : AValue) → AreEdges ops value edges.now → result ≡ begin_of_write (write_of ops value) }
{
    if Edge::Before.comes_before(edges.write_begin) {
        edges.write_begin
    } else {
        Edge::Never
    }
}

/// The stretches of two optional values.
pub fn stretches_in(
    edges: &(Option<Edges>, Option<Edges>),
    claim: &Claim,
) -> (Option<Stretch>, Option<Stretch>)
    ensures { (ops : List AnOp) (first second : Option AValue) → AreEdgesAt ops first second edges.now → AreStretchesAt (terms_of claim.now) ops first second result }
{
    (
        stretch_in_some(&edges.0, claim),
        stretch_in_some(&edges.1, claim),
    )
}

/// The writeless read that ended first: of the judged reads of values that no write carries, and that are not
/// known to be the initial one.
pub fn first_writeless<'t>(
    stretches: &StretchTree,
    members: &Members,
    table: &OpTable<'t>,
) -> Option<Op<'t>>
    ensures { (claim : ClaimModel) → AreMembers table.now.ops members.now → AreManyWriters claim table.now.ops → AreStretched claim table.now.ops stretches.now.stretches
        → result ≡ first_writeless claim table.now.ops }
{
    let stretch = stretches.first_writeless()?;
    first_read(members, table, stretch.value)
}

/// The writeless read that ended first, and of those of another value the one that ended first.
pub fn first_split<'t>(
    stretches: &StretchTree,
    members: &Members,
    table: &OpTable<'t>,
) -> Option<(Op<'t>, Op<'t>)>
    ensures { (claim : ClaimModel) → AreMembers table.now.ops members.now → AreManyWriters claim table.now.ops → AreStretched claim table.now.ops stretches.now.stretches
        → result ≡ with_other claim table.now.ops (first_writeless claim table.now.ops) }
{
    let first = first_writeless(stretches, members, table)?;
    let other = first_writeless_but(stretches, members, table, first.value())?;
    Some((first, other))
}

/// Of the writeless reads of another value the one that ended first.
fn first_writeless_but<'t>(
    stretches: &StretchTree,
    members: &Members,
    table: &OpTable<'t>,
    value: Value,
) -> Option<Op<'t>>
    ensures { (claim : ClaimModel) → AreMembers table.now.ops members.now → AreManyWriters claim table.now.ops → AreStretched claim table.now.ops stretches.now.stretches
        → result ≡ first_writeless_but value claim table.now.ops }
{
    let stretch = stretches.first_writeless_but(value)?;
    first_read(members, table, stretch.value)
}

/// The early read that ended first, and the write of its value.
pub fn first_early<'t>(
    stretches: &StretchTree,
    members: &Members,
    records: &Records,
    table: &OpTable<'t>,
) -> Option<(Op<'t>, Op<'t>)>
    ensures { (claim : ClaimModel) → AreMembers table.now.ops members.now → AreRecords table.now.ops records.now → AreManyWriters claim table.now.ops → AreStretched claim table.now.ops stretches.now.stretches
        → result ≡ first_early table.now.ops }
{
    let stretch = stretches.first_early()?;
    let read = first_read(members, table, stretch.value)?;
    let write = records.write_of(table, stretch.value)?;
    Some((read, write))
}

/// The value of the writeless reads, where there are some and they have just one.
pub fn sole_value(stretches: &StretchTree) -> Option<Value>
    ensures { (claim : ClaimModel) (ops : List AnOp) → AreManyWriters claim ops → AreStretched claim ops stretches.now.stretches
        → result ≡ sole_of claim ops (first_writeless claim ops) }
{
    let first = stretches.first_writeless()?;
    match stretches.first_writeless_but(first.value) {
        Some(_) => None,
        None => Some(first.value),
    }
}

/// Whether some read is writeless.
pub fn has_writeless(stretches: &StretchTree) -> bool
    ensures { (claim : ClaimModel) (ops : List AnOp) → AreManyWriters claim ops → AreStretched claim ops stretches.now.stretches
        → result ≡ is_some (first_writeless claim ops) }
{
    stretches.first_writeless().is_some()
}

/// Whether writeless reads have several values.
pub fn has_split(stretches: &StretchTree) -> bool
    ensures { (claim : ClaimModel) (ops : List AnOp) → AreManyWriters claim ops → AreStretched claim ops stretches.now.stretches
        → result ≡ is_some (with_other claim ops (first_writeless claim ops)) }
{
    match stretches.first_writeless() {
        Some(first) => stretches.first_writeless_but(first.value).is_some(),
        None => false,
    }
}

/// Whether some read is early.
pub fn has_early(stretches: &StretchTree) -> bool
    ensures { (claim : ClaimModel) (ops : List AnOp) → AreManyWriters claim ops → AreStretched claim ops stretches.now.stretches
        → result ≡ is_some (first_early ops) }
{
    stretches.first_early().is_some()
}

fn stretch_in_some(edges: &Option<Edges>, claim: &Claim) -> Option<Stretch>
    ensures { (ops : List AnOp) (value : Option AValue) → AreEdgesAtSome ops value edges.now → IsStretchAtSome (terms_of claim.now) ops value result }
{
    match edges {
        Some(edges) => stretch_in(edges, claim),
        None => None,
    }
}
