//! The records of the values, which hold the edges of each.

ghost use Rattle.std.specs.Prelude.{◌≡◌, ◌<◌, ◌≤◌, ℤ, [], List, Option, Some, None, IfSome, IsNone, IsSome, MatchOption, OnOk, if◌then◌else◌};
ghost use Rattle.std.specs.HashMap.{get, spare};
ghost use Rattle.std.specs.Ordering.{int_eq};
ghost use Rattle.intervals.specs.declared.operation.Op.{Op as AnOp};
ghost use Rattle.intervals.specs.declared.operation.Value.{Value as AValue};
ghost use Rattle.intervals.specs.Kind.{HasNoWrite};
ghost use Rattle.intervals.specs.Standing.{HasDistinctIds};
ghost use Rattle.zones.specs.Edges.{AreEdgesAt, AreEdgesAtSome};
ghost use Rattle.zones.specs.Members.{IsChange, IsTheWriteAt};
ghost use Rattle.zones.specs.Records.{AreRecords, HasNoEmptyRecord, HasRecord, edges_at, put_at, record_of, room_in};
ghost use Rattle.zones.specs.Zoned.{other_value, value_in};

use crate::edges::{Edges, is_of_nothing, of_nothing};
use intervals::{Memory, Op, OpTable, Value};
use std::alloc::Global;
use std::collections::HashMap;

/// The edges of each value. A value that no judged operation has leaves no record; nil always has one.
#[derive(Drop)]
pub struct Records {
    of_nil: Edges,
    of_numbers: HashMap<i64, Edges>,
}

impl Records {
    pub fn new(alloc: Global) -> Self
        ensures { AreRecords [] result }
    {
        Records {
            of_nil: of_nothing(Value::Nil),
            of_numbers: HashMap::new(alloc),
        }
    }

    /// The edges of the value, those of nothing where it has no record.
    pub fn edges_at(&self, value: Value) -> Edges
        ensures { result ≡ edges_at self.now value }
    {
        match value {
            Value::Nil => self.of_nil,
            Value::Int(number) => match self.of_numbers.get(&number) {
                Some(edges) => *edges,
                None => of_nothing(value),
            },
        }
    }

    /// The write of the value, found by the id in its record.
    pub fn write_of<'t>(&self, table: &OpTable<'t>, value: Value) -> Option<Op<'t>>
        ensures { AreRecords table.now.ops self.now → HasDistinctIds table.now.ops
            → MatchOption result (HasNoWrite table.now.ops value) (IsTheWriteAt table.now.ops value) }
    {
        let id = self.edges_at(value).write_id?;
        table.get(id).copied()
    }

    /// The edges of two optional values.
    pub fn edges_in(
        &self,
        first: Option<Value>,
        second: Option<Value>,
    ) -> (Option<Edges>, Option<Edges>)
        ensures { (ops : List AnOp) → AreRecords ops self.now → AreEdgesAt ops first second result }
    {
        (self.edges_in_some(first), self.edges_in_some(second))
    }

    fn edges_in_some(&self, value: Option<Value>) -> Option<Edges>
        ensures { (ops : List AnOp) → AreRecords ops self.now → AreEdgesAtSome ops value result }
    {
        match value {
            Some(value) => Some(self.edges_at(value)),
            None => None,
        }
    }

    /// Makes room for one more record.
    pub fn reserve(&mut self) -> Result<(), Memory>
        ensures records { (ops : List AnOp) → AreRecords ops self.old → AreRecords ops self.new }
        ensures ok { OnOk result (1 ≤ room_in self.new) }
        ensures kept { room_in self.old ≤ room_in self.new }
    {
        self.of_numbers.reserve(1)?;
        Ok(())
    }

    /// Puts the edges of two optional values in their records: that of the operation that went, and that of the
    /// one that came, where it is another.
    pub fn put_both(&mut self, edges: &(Option<Edges>, Option<Edges>))
        requires first { IfSome edges.now.0 (λ e. HasRecord self.old e.value) }
        requires second { IsSome edges.now.1 → 0 < room_in self.old }
        ensures records { (before after : List AnOp) (old new : Option AnOp) → AreRecords before self.old → IsChange before old new after
            → AreEdgesAt after (value_in old) (other_value (value_in old) (value_in new)) edges.now → AreRecords after self.new }
        ensures room { IsNone edges.now.1 → room_in self.old ≤ room_in self.new }
    {
        self.put_in_some(&edges.0);
        self.put_in_some(&edges.1);
    }

    fn put_in_some(&mut self, edges: &Option<Edges>)
        requires { IfSome edges.now (λ e. ¬ HasRecord self.old e.value → 0 < room_in self.old) }
        ensures edges { (value : AValue) → edges_at self.new value ≡ put_at edges.now value (edges_at self.old value) }
        ensures filled { HasNoEmptyRecord self.old → HasNoEmptyRecord self.new }
        ensures kept { IfSome edges.now (λ e. HasRecord self.old e.value) → room_in self.old ≤ room_in self.new }
    {
        match edges {
            Some(edges) => self.put(edges),
            None => {}
        }
    }

    fn put(&mut self, edges: &Edges)
        requires { ¬ HasRecord self.old edges.now.value → 0 < room_in self.old }
        ensures edges { (value : AValue) → edges_at self.new value ≡ put_at (Some edges.now) value (edges_at self.old value) }
        ensures filled { HasNoEmptyRecord self.old → HasNoEmptyRecord self.new }
        ensures kept { HasRecord self.old edges.now.value → room_in self.old ≤ room_in self.new }
    {
        match edges.value {
            Value::Nil => self.of_nil = *edges,
            Value::Int(number) => put_number(&mut self.of_numbers, number, edges),
        }
    }
}

/// Puts the edges of a number in its record. Those that no judged operation has leave no record.
fn put_number(records: &mut HashMap<i64, Edges>, number: i64, edges: &Edges)
    requires { get int_eq records.old number ≡ None → 0 < spare records.old }
    ensures records { (other : ℤ) → get int_eq records.new other ≡ (if int_eq number other then record_of edges.now else get int_eq records.old other) }
    ensures kept { IsSome (get int_eq records.old number) → spare records.old ≤ spare records.new }
{
    if is_of_nothing(edges) {
        records.remove(&number);
        return;
    }
    if let Some(record) = records.get_mut(&number) {
        *record = *edges;
        return;
    }
    let Ok(_) = records.insert(number, *edges) else {
        unreachable!()
    };
}
