//! The zone of a value, from the edges of its cluster.

ghost use Rattle.std.specs.Prelude.{◌≡◌, ◌↔◌, List, Option, IsTrue};
ghost use Rattle.intervals.specs.declared.operation.Op.{Op};
ghost use Rattle.intervals.specs.declared.operation.Value.{Value as AValue};
ghost use Rattle.intervals.specs.Kind.{HasNoWrite};
ghost use Rattle.zones.specs.Cluster.{written_zone, zone_between, zone_of};
ghost use Rattle.zones.specs.Edges.{AreEdges, AreEdgesAt, AreEdgesAtSome};
ghost use Rattle.zones.specs.Members.{HasWrite};
ghost use Rattle.zones.specs.Records.{AreRecords};
ghost use Rattle.zones.specs.Zoned.{IsZoneAt, IsZoneAtSome, AreZonesAt};

use crate::edges::Edges;
use crate::records::Records;
use intervals::Value;
use zone_tree::{Edge, Zone};

/// The zone of the value, where that has a write.
pub fn zone_in(edges: &Edges) -> Option<Zone>
    ensures { (ops : List Op) (value : AValue) → AreEdges ops value edges.now → IsZoneAt ops value result }
{
    if is_written(edges) {
        Some(zone_of(edges))
    } else {
        None
    }
}

fn zone_in_some(edges: &Option<Edges>) -> Option<Zone>
    ensures { (ops : List Op) (value : Option AValue) → AreEdgesAtSome ops value edges.now → IsZoneAtSome ops value result }
{
    match edges {
        Some(edges) => zone_in(edges),
        None => None,
    }
}

/// The zones of two optional values.
pub fn zones_in(edges: &(Option<Edges>, Option<Edges>)) -> (Option<Zone>, Option<Zone>)
    ensures { (ops : List Op) (first second : Option AValue) → AreEdgesAt ops first second edges.now → AreZonesAt ops first second result }
{
    (zone_in_some(&edges.0), zone_in_some(&edges.1))
}

/// Whether the value has a write.
pub fn is_written(edges: &Edges) -> bool
    ensures { (ops : List Op) (value : AValue) → AreEdges ops value edges.now → IsTrue result ↔ HasWrite ops value }
{
    Edge::Before.comes_before(edges.write_begin)
}

/// The zone between the least end and the greatest beginning of the write and the reads.
fn zone_of(edges: &Edges) -> Zone
    ensures { (ops : List Op) (value : AValue) → AreEdges ops value edges.now → result ≡ written_zone ops value }
{
    zone_between(
        edges.write_end.min(edges.read_end),
        edges.write_begin.max(edges.read_begin),
        edges.value,
    )
}

/// The zone of the initial value: its write ended before every moment, and the last of its reads begins last.
pub fn initial_zone(records: &Records, initial: Value) -> Zone
    ensures { (ops : List Op) → AreRecords ops records.now → HasNoWrite ops initial → result ≡ zone_of initial ops initial }
{
    zone_between(Edge::Before, records.edges_at(initial).read_begin, initial)
}

/// Forward from the least end to the greatest beginning where the end comes first, else backward from the
/// beginning to the end.
pub fn zone_between(least: Edge, greatest: Edge, value: Value) -> Zone
    ensures { result ≡ zone_between least greatest value }
{
    if least.comes_before(greatest) {
        Zone {
            left: least,
            right: greatest,
            forward: true,
            value,
        }
    } else {
        Zone {
            left: greatest,
            right: least,
            forward: false,
            value,
        }
    }
}
