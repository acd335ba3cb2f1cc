//! Which operations show that an atomic register fails.

ghost use Rattle.std.specs.Prelude.{◌≡◌, ◌↔◌, IfSome, IsNone};
ghost use Rattle.intervals.specs.Standing.{HasDistinctIds};
ghost use Rattle.intervals.specs.Kind.{Holds};
ghost use Rattle.intervals.specs.Terms.{state_of};
ghost use Rattle.zones.specs.AtFirst.{first_split, unwritten_of};
ghost use Rattle.zones.specs.Fault.{first_early};
ghost use Rattle.register_book.specs.Fault.{IsWitness, side_op};
ghost use Rattle.register_book.specs.Judge.{pair_by};

use crate::{Side, Witness};
use intervals::{Kind, Op, OpId, OpTable};
use zones::Clusters;
use zones::laws::{
    faultless_where_no_fault_is_first, first_early_ended_first, first_split_ended_first,
    first_unwritten_ended_first,
};

/// The witness of the register's fault, or `None` where the register holds.
pub fn witness_of<'t>(clusters: &Clusters<'t>) -> Option<Witness<'t>>
    requires kind { clusters.now.claim.kind ≡ Kind.Atomic }
    requires ids { HasDistinctIds clusters.now.ops }
    ensures witness { IfSome result (IsWitness clusters.now.claim clusters.now.ops) }
    ensures none { IsNone result ↔ Holds (state_of clusters.now.claim clusters.now.ops) }
{
    faultless_where_no_fault_is_first();
    if clusters.holds() {
        return None;
    }
    if let Some(read) = first_unwritten(clusters) {
        return Some(Witness::Unwritten(read));
    }
    if let Some((first, second)) = first_split(clusters) {
        return Some(Witness::Split { first, second });
    }
    if let Some((read, write)) = first_early(clusters) {
        return Some(Witness::Early { read, write });
    }
    let crossing = clusters.crossing()?;
    Some(Witness::Crossing {
        a: side_of(crossing.a),
        b: Side::Op(crossing.b),
        c: side_of(crossing.c),
        d: Side::Op(crossing.d),
    })
}

/// The operation, or the initial write where none is given.
fn side_of<'t>(op: Option<Op<'t>>) -> Side<'t>
    ensures { side_op result ≡ op.entry }
{
    match op {
        Some(op) => Side::Op(op),
        None => Side::Initial,
    }
}

/// Where the initial value is known, the unwritten read that ended first.
fn first_unwritten<'t>(clusters: &Clusters<'t>) -> Option<Op<'t>>
    requires { HasDistinctIds clusters.now.ops }
    ensures { result ≡ unwritten_of clusters.now.claim clusters.now.ops }
{
    first_unwritten_ended_first();
    clusters.operations().find(clusters.first_unwritten())
}

/// Where nobody knows the initial value, the first two reads of different values that no write carries.
fn first_split<'t>(clusters: &Clusters<'t>) -> Option<(Op<'t>, Op<'t>)>
    requires { HasDistinctIds clusters.now.ops }
    ensures { result ≡ first_split clusters.now.claim clusters.now.ops }
{
    first_split_ended_first();
    ops_by(clusters.operations(), clusters.first_split())
}

/// The early read that ended first, and the write of its value.
fn first_early<'t>(clusters: &Clusters<'t>) -> Option<(Op<'t>, Op<'t>)>
    requires { HasDistinctIds clusters.now.ops }
    ensures { result ≡ first_early clusters.now.ops }
{
    first_early_ended_first();
    ops_by(clusters.operations(), clusters.first_early())
}

/// The operations of an optional pair of ids; `None` where one is not found.
fn ops_by<'t>(ops: &OpTable<'t>, ids: Option<(OpId, OpId)>) -> Option<(Op<'t>, Op<'t>)>
    ensures { result ≡ pair_by ops.now.ops ids }
{
    let (one, other) = ids?;
    let one = ops.get(one)?;
    let other = ops.get(other)?;
    Some((*one, *other))
}
