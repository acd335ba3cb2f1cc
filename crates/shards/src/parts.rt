//! Takes the values of all locks out, and puts them under locks again, without memory.

ghost use Rattle.std.specs.Prelude.{◌≡◌, ◌≤◌, All, vec_capacity, vec_len};
ghost use Rattle.std.specs.List.Sorted.{IsNonDecreasingBy};
ghost use Rattle.shards.specs.Shard.{IsKeptShardOf};

use crate::Opening;
use crate::shard::Shard;
use crate::state::ShardState;
use std::sync::Mutex;

/// Takes each value out of its lock, into room that is there for it. The shards are then in the order of their numbers,
/// whatever the order of the locks is.
pub fn take_apart<'t, O: Opening>(
    locks: &mut Vec<Mutex<ShardState<'t, O>>>,
    shards: &mut Vec<Shard<'t>>,
)
    requires empty { vec_len shards.old ≡ 0 }
    requires room { vec_len locks.old ≤ vec_capacity shards.old }
    ensures many { vec_len shards.new ≡ vec_len locks.old }
    ensures kept { All (IsKeptShardOf O.plan) shards.new.items }
    ensures in_order { IsNonDecreasingBy (λ shard. shard.at) shards.new.items }
    ensures empty { vec_len locks.new ≡ 0 }
    ensures room { vec_capacity locks.new ≡ vec_capacity locks.old }
    ensures capacity { vec_capacity shards.new ≡ vec_capacity shards.old }
{
    while let Some(lock) = locks.pop() {
        shards.push_reserved(lock.into_inner().into_shard());
    }
    shards.sort_unstable_by_key(|shard| shard.at);
}

/// Puts each value back under a lock, in the order of the shards' numbers, into room that is there for it.
pub fn put_together<'t, O: Opening>(
    locks: &mut Vec<Mutex<ShardState<'t, O>>>,
    shards: &mut Vec<Shard<'t>>,
)
    requires empty { vec_len locks.old ≡ 0 }
    requires room { vec_len shards.old ≤ vec_capacity locks.old }
    requires kept { All (IsKeptShardOf O.plan) shards.old.items }
    ensures many { vec_len locks.new ≡ vec_len shards.old }
    ensures empty { vec_len shards.new ≡ 0 }
    ensures room { vec_capacity shards.new ≡ vec_capacity shards.old }
{
    shards.sort_unstable_by_key(|shard| u32::MAX - shard.at);
    while let Some(shard) = shards.pop() {
        locks.push_reserved(Mutex::new(ShardState::new(shard)));
    }
}
