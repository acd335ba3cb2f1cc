//! Which chunks are put on a page whole.

ghost use Rattle.feeders.specs.Pending.{IsPageOf};

use crate::access::Access;
use crate::pages::Pages;
use shards::Opening;
use std::alloc::Global;
use std::sync::Wait;

/// A chunk is long from this many bytes on. Of a shorter one each text that is lent gets a page of its own.
const LONG: usize = 4_096;

/// A long chunk is put on a page if it is the first, or has at most this many bytes for each entry that the feeder
/// made since the long chunk before it began. So what is on pages and not lent grows with the entries, not with
/// what is skipped.
const BYTES_AN_ENTRY: u64 = 256;

/// There are at most this many shards.
const SHARDS: u32 = 64;

/// The length in bytes of a feeder's last long chunk, 0 where there was none, and how many entries the feeder had
/// submitted before it.
#[derive(Clone, Copy)]
pub struct Paging {
    length: usize,
    submitted: u64,
}

impl Paging {
    pub fn new() -> Paging {
        Paging {
            length: 0,
            submitted: 0,
        }
    }

    /// The page of the next chunk of the feeder that has this access; none where it is not put on one, or where memory
    /// for that is refused.
    pub fn page_of<'t, O: Opening, R: Wait>(
        &mut self,
        pages: &'t Pages,
        rt: &R,
        alloc: Global,
        access: &Access<'_, 't, O>,
        piece: &[u8],
    ) -> Option<&'t [u8]>
        ensures { IsPageOf result piece.now }
    {
        if piece.len() < LONG {
            return None;
        }
        let submitted = submitted_by(access);
        let entries = submitted.saturating_sub(self.submitted);
        let is_dense = self.length == 0
            || piece.len() as u64 <= entries.saturating_mul(BYTES_AN_ENTRY);
        *self = Paging {
            length: piece.len(),
            submitted,
        };
        if !is_dense {
            return None;
        }
        pages.push(rt, alloc, piece).ok()
    }
}

/// How many edits the feeder that has this access submitted, in all shards.
fn submitted_by<O: Opening>(access: &Access<'_, '_, O>) -> u64 {
    let mut many = 0u64;
    for shard in 0..SHARDS {
        many = many.saturating_add(access.submitted(shard));
    }
    many
}
