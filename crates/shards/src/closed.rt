//! What a closed auditor leaves.

ghost use Rattle.std.specs.Prelude.{◌≡◌, [], All, IfSome, map, option_map};
ghost use Rattle.std.specs.List.{slice_get};
ghost use Rattle.register_book.specs.BookModel.{claimed_of};
ghost use Rattle.shards.specs.Closing.{book_of, changes_of, journal_of};
ghost use Rattle.shards.specs.Shard.{IsEndedShard, ended_of};

use crate::shard::Shard;
use crate::{Entry, VerdictChange};
use intervals::RegId;
use register_book::RegisterBook;
use std::marker::Model;

/// The journals of all shards, and the books that they leave. The journals of an auditor of one thread are there in proofs
/// alone.
#[derive(Drop)]
pub struct Closed<'t> {
    shards: Vec<Shard<'t>>,
}

impl<'t> Model for Closed<'t> {
    ghost use Rattle.std.specs.Prelude.{All, List, map};
    ghost use Rattle.shards.specs.Closing.{ClosedShard};
    ghost use Rattle.shards.specs.Shard.{IsEndedShard, ended_of};

    ghost Value = { List ClosedShard };

    ghost view = { λ c. map ended_of c.shards.items };

    ghost invariant = { λ c. All IsEndedShard c.shards.items };
}

impl<'t> Closed<'t> {
    pub(crate) fn new(shards: Vec<Shard<'t>>) -> Self
        requires { All IsEndedShard shards.items }
        ensures { result ≡ map ended_of shards.entry.items }
    {
        Closed { shards }
    }

    /// The book of a register, as its shard's journal leaves it; none where there is no such register.
    pub fn book(&self, register: RegId) -> Option<&RegisterBook<'t>>
        ensures { option_map (λ book. claimed_of book.now) result ≡ book_of self.now register.0 }
    {
        let many = self.shards.len();
        if many == 0 {
            return None;
        }
        let register = register.0 as usize;
        match self.shards.get(register % many) {
            Some(shard) => shard.books.get(register / many),
            None => None,
        }
    }

    /// The changes of verdicts by the entries of a shard's journal, in order; none where there is no such shard.
    pub fn changes(&self, shard: u32) -> &[VerdictChange]
        ensures { result.now ≡ changes_of self.now shard }
    {
        match self.shards.get(shard as usize) {
            Some(shard) => shard.changes.as_slice(),
            None => no_changes(self),
        }
    }

    /// The feeder of the entry of this number in a shard's journal; none where there is no such entry.
    pub fn feeder_of(&self, shard: u32, number: u64) -> Option<u32>
        ensures { result ≡ option_map (λ entry. entry.feeder) (slice_get (journal_of self.now shard) number) }
    {
        match self.shards.get(shard as usize) {
            Some(shard) => feeder_in(shard, number),
            None => None,
        }
    }

    /// The journal of a shard, where it was kept; none where it was not, or where there is no such shard.
    pub fn journal(&self, shard: u32) -> Option<&[Entry<'t>]>
        ensures { IfSome result (λ journal. journal.now ≡ journal_of self.now shard) }
    {
        match self.shards.get(shard as usize) {
            Some(shard) if shard.keeps => Some(shard.journal.as_slice()),
            _ => None,
        }
    }
}

/// The feeder of the entry of this number in a shard. Where the journal is not kept the shard has the feeder of each entry
/// if there are several feeders; else each entry is by feeder 0.
fn feeder_in(shard: &Shard, number: u64) -> Option<u32>
    requires { IsEndedShard shard.now }
    ensures { result ≡ option_map (λ entry. entry.feeder) (slice_get shard.now.entries number) }
{
    if shard.keeps {
        return Some(shard.journal.get(number as usize)?.feeder);
    }
    if shard.counts.len() > 1 {
        return Some(*shard.by.get(number as usize)?);
    }
    if number < shard.many { Some(0) } else { None }
}

fn no_changes<'a>(_closed: &'a Closed<'_>) -> &'a [VerdictChange]
    ensures { result.now ≡ [] }
{
    &[]
}
