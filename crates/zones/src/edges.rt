//! The edges of a value: where its write begins and ends, where the last of its judged reads begins and where the
//! first of them ends.

ghost use Rattle.std.specs.Prelude.{◌≡◌, ◌≢◌, List, Option, IfSome, false, true, option_copied};
ghost use Rattle.intervals.specs.declared.operation.Op.{Op as AnOp};
ghost use Rattle.intervals.specs.declared.operation.Value.{Value as AValue};
ghost use Rattle.intervals.specs.Operation.{IsJudgedRead};
ghost use Rattle.zone_tree.specs.Edge.{same_edge};
ghost use Rattle.zones.specs.Cluster.{edge_of_end};
ghost use Rattle.zones.specs.Edges.{AreEdges, AreEdgesAt, AreEdgesAtSome, AreWriteEdges, NamesWrite, edges_of_nothing, is_of_nothing, read_part, write_part};
ghost use Rattle.zones.specs.Index.{AreMembers};
ghost use Rattle.zones.specs.Members.{IsChange, IsGreatestBegin, IsLeastEnd};

use crate::index::Members;
use intervals::{Moment, Op, OpId, Value, is_same_value};
use zone_tree::Edge;

/// The id of a value's write, and the edges that make its zone and its stretch. What is not there begins at
/// `Before` and ends at `Never`.
#[derive(Clone, Copy)]
pub struct Edges {
    pub value: Value,
    pub write_id: Option<OpId>,
    pub write_begin: Edge,
    pub write_end: Edge,
    pub read_begin: Edge,
    pub read_end: Edge,
}

/// The edges of a value that no judged operation has.
pub fn of_nothing(value: Value) -> Edges
    ensures { result ≡ edges_of_nothing value }
{
    Edges {
        value,
        write_id: None,
        write_begin: Edge::Before,
        write_end: Edge::Never,
        read_begin: Edge::Before,
        read_end: Edge::Never,
    }
}

/// Whether no judged operation has the value of the edges.
pub fn is_of_nothing(edges: &Edges) -> bool
    ensures { result ≡ is_of_nothing edges.now }
{
    edges.write_id.is_none()
        && edges.read_begin.is_same(Edge::Before)
        && edges.write_begin.is_same(Edge::Before)
        && edges.read_end.is_same(Edge::Never)
        && edges.write_end.is_same(Edge::Never)
}

/// The edges of two values once `old` went and `new` came. The indexes are as they are after that, and are looked
/// into only where a read went that an edge was of.
pub fn edges_after(
    before: &(Option<Edges>, Option<Edges>),
    members: &Members,
    old: &Option<Op>,
    new: &Option<Op>,
) -> (Option<Edges>, Option<Edges>)
    ensures { (ops later : List AnOp) (first second : Option AValue) → AreEdgesAt ops first second before.now → IsChange ops old.now new.now later → AreMembers later members.now
        → AreEdgesAt later first second result }
{
    (
        after_in_some(&before.0, members, old, new),
        after_in_some(&before.1, members, old, new),
    )
}

fn after_in_some(
    before: &Option<Edges>,
    members: &Members,
    old: &Option<Op>,
    new: &Option<Op>,
) -> Option<Edges>
    ensures { (ops later : List AnOp) (value : Option AValue) → AreEdgesAtSome ops value before.now → IsChange ops old.now new.now later → AreMembers later members.now
        → AreEdgesAtSome later value result }
{
    match before {
        Some(edges) => Some(after(edges, members, old, new)),
        None => None,
    }
}

fn after(before: &Edges, members: &Members, old: &Option<Op>, new: &Option<Op>) -> Edges
    ensures { (ops later : List AnOp) → AreEdges ops before.now.value before.now → IsChange ops old.now new.now later → AreMembers later members.now
        → AreEdges later before.now.value result }
{
    let (write_id, write_begin, write_end) = write_after(before, old, new);
    Edges {
        value: before.value,
        write_id,
        write_begin,
        write_end,
        read_begin: read_begin_after(before, members, old, new),
        read_end: read_end_after(before, members, old, new),
    }
}

fn write_after(before: &Edges, old: &Option<Op>, new: &Option<Op>) -> (Option<OpId>, Edge, Edge)
    ensures named { (ops later : List AnOp) → AreEdges ops before.now.value before.now → IsChange ops old.now new.now later → NamesWrite later before.now.value result.0 }
    ensures edges { (ops later : List AnOp) → AreEdges ops before.now.value before.now → IsChange ops old.now new.now later → AreWriteEdges later before.now.value result.1 result.2 }
{
    match write_in(new, before.value) {
        Some(write) => (
            Some(write.id),
            Edge::At(write.begin),
            edge_of_end(write.end),
        ),
        None => match write_in(old, before.value) {
            Some(_) => (None, Edge::Before, Edge::Never),
            None => (before.write_id, before.write_begin, before.write_end),
        },
    }
}

/// Where the last of the judged reads of the value begins after the edit; the index is looked into only where that
/// read went.
fn read_begin_after(before: &Edges, members: &Members, old: &Option<Op>, new: &Option<Op>) -> Edge
    ensures { (ops later : List AnOp) → AreEdges ops before.now.value before.now → IsChange ops old.now new.now later → AreMembers later members.now
        → IsGreatestBegin IsJudgedRead later before.now.value result }
{
    if is_begun_by(before, old) {
        return read_begin(members, before.value);
    }
    match read_in(new, before.value) {
        Some(read) => before.read_begin.max(Edge::At(read.begin)),
        None => before.read_begin,
    }
}

/// Where the first of the judged reads of the value ends after the edit; the index is looked into only where that
/// read went.
fn read_end_after(before: &Edges, members: &Members, old: &Option<Op>, new: &Option<Op>) -> Edge
    ensures { (ops later : List AnOp) → AreEdges ops before.now.value before.now → IsChange ops old.now new.now later → AreMembers later members.now
        → IsLeastEnd IsJudgedRead later before.now.value result }
{
    if is_ended_by(before, old) {
        return read_end(members, before.value);
    }
    match read_in(new, before.value) {
        Some(read) => before.read_end.min(edge_of_end(read.end)),
        None => before.read_end,
    }
}

/// Whether the operation is the read of the value that began last.
fn is_begun_by(edges: &Edges, op: &Option<Op>) -> bool
    ensures { result ≡ false → IfSome (read_part edges.now.value op.now) (λ read. same_edge (Edge.At read.begin) edges.now.read_begin ≡ false) }
{
    match read_in(op, edges.value) {
        Some(read) => Edge::At(read.begin).is_same(edges.read_begin),
        None => false,
    }
}

/// Whether the operation is the read of the value that ended first.
fn is_ended_by(edges: &Edges, op: &Option<Op>) -> bool
    ensures { result ≡ false → IfSome (read_part edges.now.value op.now) (λ read. same_edge (edge_of_end read.end) edges.now.read_end ≡ false) }
{
    match read_in(op, edges.value) {
        Some(read) => edge_of_end(read.end).is_same(edges.read_end),
        None => false,
    }
}

/// Where the first of the judged reads of the value ends; `Never` where there is none.
fn read_end(members: &Members, value: Value) -> Edge
    ensures { (ops : List AnOp) → AreMembers ops members.now → IsLeastEnd IsJudgedRead ops value result }
{
    match members.first_to_end(value) {
        Some((end, _)) => Edge::At(end),
        None => Edge::Never,
    }
}

/// Where the last of the judged reads of the value begins; `Before` where there is none.
fn read_begin(members: &Members, value: Value) -> Edge
    ensures { (ops : List AnOp) → AreMembers ops members.now → IsGreatestBegin IsJudgedRead ops value result }
{
    match members.last_to_begin(value) {
        Some((begin, _)) => Edge::At(begin),
        None => Edge::Before,
    }
}

/// The operation, where it is a write of the value.
fn write_in<'b, 't>(op: &'b Option<Op<'t>>, value: Value) -> Option<&'b Op<'t>>
    ensures { option_copied result ≡ write_part value op.now }
{
    match op {
        Some(op) if op.is_write() && is_same_value(op.value(), value) => Some(op),
        _ => None,
    }
}

/// The operation, where it is a judged read of the value.
fn read_in<'b, 't>(op: &'b Option<Op<'t>>, value: Value) -> Option<&'b Op<'t>>
    ensures { option_copied result ≡ read_part value op.now }
{
    match op {
        Some(op) if op.is_judged_read() && is_same_value(op.value(), value) => Some(op),
        _ => None,
    }
}

pub fn edge_of_end(end: Option<Moment>) -> Edge
    ensures { result ≡ edge_of_end end }
{
    match end {
        Some(end) => Edge::At(end),
        None => Edge::Never,
    }
}
