//! The places of operations in an order that explains the reads.

ghost use Rattle.std.specs.Prelude.{◌≡◌, IfOk, map};
ghost use Rattle.std.specs.HashMap.{get};
ghost use Rattle.intervals.specs.Operation.{same_id};
ghost use Rattle.show.specs.Rank.{ArePlaces};

use intervals::{Op, OpId};
use std::alloc::{AllocError, Global};
use std::collections::HashMap;

/// The place of each operation of an order, from 1.
pub fn places_of(alloc: Global, order: &[OpId]) -> Result<HashMap<OpId, usize>, AllocError>
    ensures { IfOk result (λ places. ArePlaces order.now places) }
{
    let mut places = HashMap::new(alloc);
    let mut place = order.len();
    while place > 0 {
        places.insert(order[place - 1], place)?;
        place -= 1;
    }
    Ok(places)
}

/// The place of an operation, where the order has it.
pub fn rank_in(places: &HashMap<OpId, usize>, op: &Op) -> Option<usize>
    ensures { result ≡ get same_id places.now op.now.id }
{
    places.get(&op.id).copied()
}

/// The places of these operations.
pub fn ranks_in(
    alloc: Global,
    places: &HashMap<OpId, usize>,
    ops: &[Op],
) -> Result<Vec<Option<usize>>, AllocError>
    ensures { IfOk result (λ ranks. ranks.items ≡ map (λ op. get same_id places.now op.id) ops.now) }
{
    let mut ranks = Vec::with_capacity(alloc, ops.len())?;
    for op in ops {
        ranks.push(rank_in(places, op))?;
    }
    Ok(ranks)
}
