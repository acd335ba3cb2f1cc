//! Four operations that no order has room for.

ghost use Rattle.std.specs.Prelude.{◌≡◌, ◌≢◌, List, [], Some, nat_lt, MatchOption, IsSomeAnd};
ghost use Rattle.intervals.specs.Edit.{op_of};
ghost use Rattle.zone_tree.specs.Edge.{edge_before};
ghost use Rattle.zones.specs.Members.{IsLastToBegin, HasNoRead, EndsFirstOf, BeginsLastOf, end_or_first, ended_first, began_last};
ghost use Rattle.intervals.specs.declared.operation.Op.{Op};
ghost use Rattle.zone_tree.specs.declared.edge.Edge.TheVariants.{Never};
ghost use Rattle.zone_tree.specs.Zone.{Conflicts};
ghost use Rattle.zones.specs.Cluster.{least_end_of, zone_of, cluster_of, edge_of_end};
ghost use Rattle.zones.specs.Crossing.{HasLeastEnd, AreExtremes};
ghost use Rattle.intervals.specs.Standing.{HasDistinctIds};
ghost use Rattle.intervals.specs.declared.operation.Value.{Value as AValue};
ghost use Rattle.zones.specs.Index.{AreMembers};
ghost use Rattle.zones.specs.Records.{AreRecords};
ghost use Rattle.zones.specs.Zoned.{MayStart, is_that};

use crate::edges::edge_of_end;
use crate::index::Members;
use crate::records::Records;
use intervals::{Op, OpTable, Value, is_same_value};

/// Four operations that no order has room for: `a` and `d` are of one value, `b` and `c` of another, `a` precedes
/// `b` and `c` precedes `d`. `None` is the initial write.
#[derive(Clone, Copy)]
pub struct Crossing<'t> {
    pub a: Option<Op<'t>>,
    pub b: Op<'t>,
    pub c: Option<Op<'t>>,
    pub d: Op<'t>,
}

/// Of two values whose zones conflict the operations that ended first and those that began last.
pub fn extremes<'t>(
    members: &Members,
    records: &Records,
    table: &OpTable<'t>,
    initial: Option<Value>,
    one: Value,
    other: Value,
) -> Option<Crossing<'t>>
    ensures { (start : AValue) → MayStart initial start one → MayStart initial start other → AreMembers table.now.ops members.now → AreRecords table.now.ops records.now → HasDistinctIds table.now.ops
        → Conflicts (zone_of start table.now.ops one) (zone_of start table.now.ops other) → IsSomeAnd result (λ x. AreExtremes start table.now.ops one other x.a x.b x.c x.d) }
{
    let b = last_to_begin(members, records, table, other)?;
    let d = last_to_begin(members, records, table, one)?;
    Some(Crossing {
        a: first_to_end(members, records, table, initial, one),
        b,
        c: first_to_end(members, records, table, initial, other),
        d,
    })
}

/// Of the judged operations of the value the one that ended first; of the initial value the initial write, which
/// is `None`.
fn first_to_end<'t>(
    members: &Members,
    records: &Records,
    table: &OpTable<'t>,
    initial: Option<Value>,
    value: Value,
) -> Option<Op<'t>>
    ensures { (start : AValue) → MayStart initial start value → AreMembers table.now.ops members.now → AreRecords table.now.ops records.now → HasDistinctIds table.now.ops → least_end_of start table.now.ops value ≢ Never
        → HasLeastEnd start table.now.ops value result }
{
    if is_initial(initial, value) {
        return None;
    }
    ended_first(
        records.write_of(table, value),
        first_read(members, table, value),
    )
}

/// Whether the value is the optional initial one.
pub fn is_initial(initial: Option<Value>, value: Value) -> bool
    ensures { result ≡ is_that initial value }
{
    match initial {
        Some(initial) => is_same_value(initial, value),
        None => false,
    }
}

/// Of the judged operations of the value the one that began last.
fn last_to_begin<'t>(
    members: &Members,
    records: &Records,
    table: &OpTable<'t>,
    value: Value,
) -> Option<Op<'t>>
    ensures { AreMembers table.now.ops members.now → AreRecords table.now.ops records.now → HasDistinctIds table.now.ops
        → MatchOption result (cluster_of table.now.ops value ≡ []) (IsLastToBegin table.now.ops value) }
{
    began_last(
        records.write_of(table, value),
        last_read(members, table, value),
    )
}

/// Of the judged reads of the value the one that ended first.
pub fn first_read<'t>(members: &Members, table: &OpTable<'t>, value: Value) -> Option<Op<'t>>
    ensures { AreMembers table.now.ops members.now → HasDistinctIds table.now.ops
        → MatchOption result (HasNoRead table.now.ops value) (λ read. EndsFirstOf table.now.ops value (end_or_first read) read.id × (op_of table.now.ops read.id ≡ Some read)) }
{
    let (_, id) = members.first_to_end(value)?;
    table.get(id).copied()
}

/// Of the judged reads of the value the one that began last.
fn last_read<'t>(members: &Members, table: &OpTable<'t>, value: Value) -> Option<Op<'t>>
    ensures { AreMembers table.now.ops members.now → HasDistinctIds table.now.ops
        → MatchOption result (HasNoRead table.now.ops value) (λ read. BeginsLastOf table.now.ops value read.begin read.id × (op_of table.now.ops read.id ≡ Some read)) }
{
    let (_, id) = members.last_to_begin(value)?;
    table.get(id).copied()
}

/// Of two optional operations the one that ended first; one that has no end ends last.
fn ended_first<'t>(a: Option<Op<'t>>, b: Option<Op<'t>>) -> Option<Op<'t>>
    ensures { result ≡ ended_first a.entry b.entry }
{
    match (a, b) {
        (Some(a), Some(b)) if ends_before(&b, &a) => Some(b),
        (None, b) => b,
        (a, _) => a,
    }
}

/// Of two optional operations the one that began last.
fn began_last<'t>(a: Option<Op<'t>>, b: Option<Op<'t>>) -> Option<Op<'t>>
    ensures { result ≡ began_last a.entry b.entry }
{
    match (a, b) {
        (Some(a), Some(b)) if begins_before(&a, &b) => Some(b),
        (None, b) => b,
        (a, _) => a,
    }
}

/// Whether the first ended before the second did; one that has no end ends last.
fn ends_before(a: &Op, b: &Op) -> bool
    ensures { result ≡ edge_before (edge_of_end a.now.end) (edge_of_end b.now.end) }
{
    edge_of_end(a.end).comes_before(edge_of_end(b.end))
}

fn begins_before(a: &Op, b: &Op) -> bool
    ensures { result ≡ nat_lt a.now.begin.0 b.now.begin.0 }
{
    a.begin.0 < b.begin.0
}
