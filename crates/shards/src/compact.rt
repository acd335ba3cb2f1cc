//! An entry that a feeder submitted, in few bytes.

ghost use Rattle.std.specs.Prelude.{◌≡◌, ◌≤◌, ℕ, List, IfSome, length};
ghost use Rattle.shards.specs.declared.entry.NumberedEntry.{NumberedEntry};
ghost use Rattle.shards.specs.Compact.{answer_change, entry_by, entries_wanted, invoked_op};
ghost use Rattle.shards.specs.Steps.{entry_of, numbered_entry};

use crate::{Entry, NumberedEntry};
use intervals::{Act, Change, Edit, Lent, Moment, Op, OpId, OpParts, RegId, Value};
use register_book::Reply;

/// An entry that a feeder submitted. An accepted invocation or answer of the feeder's own is kept by its parts, in
/// less than half the bytes. Any other entry is kept whole, and the row is its place among those.
#[derive(Clone, Copy)]
pub enum CompactEntry<'t> {
    Invoked {
        holds: bool,
        register: RegId,
        number: u64,
        event: u64,
        process: i64,
        act: Act,
        begin: Moment,
        text: &'t [u8],
    },
    Answered {
        holds: bool,
        register: RegId,
        number: u64,
        event: u64,
        value: Option<Value>,
        end: Moment,
        text: &'t [u8],
    },
    Whole(usize),
}

impl<'t> CompactEntry<'t> {
    /// The row of an entry that can be kept by its parts.
    pub fn by_parts(known: &NumberedEntry<'t>) -> Option<CompactEntry<'t>>
        ensures entry { IfSome result (λ row. (whole : List NumberedEntry) → entry_by known.now.entry.feeder whole row ≡ known.now) }
        ensures few { IfSome result (λ row. entries_wanted row ≡ 0) }
    {
        let NumberedEntry { number, entry } = *known;
        let Entry {
            feeder,
            register,
            edit,
            reply: Reply::Accepted { holds },
        } = entry
        else {
            return None;
        };
        match edit {
            Edit::Append(op) if op.id.feeder == feeder => invoked(holds, register, number, &op),
            Edit::Amend(id, change) if id.feeder == feeder => {
                answered(holds, register, number, id, &change)
            }
            _ => None,
        }
    }

    /// The number of the entry; `whole` are the entries that are kept whole.
    pub fn number(&self, whole: &[NumberedEntry<'t>]) -> u64
        requires { entries_wanted self.now ≤ length whole.now }
        ensures { (feeder : ℕ) → result ≡ (entry_by feeder whole.now self.now).number }
    {
        match *self {
            CompactEntry::Invoked { number, .. } => number,
            CompactEntry::Answered { number, .. } => number,
            CompactEntry::Whole(place) => whole[place].number,
        }
    }

    /// The entry, which `feeder` submitted; `whole` are the entries that are kept whole.
    pub fn entry(&self, feeder: u32, whole: &[NumberedEntry<'t>]) -> NumberedEntry<'t>
        requires { entries_wanted self.now ≤ length whole.now }
        ensures { result ≡ entry_by feeder whole.now self.now }
    {
        let (number, register, edit, holds) = match *self {
            CompactEntry::Invoked {
                holds,
                register,
                number,
                event,
                process,
                act,
                begin,
                text,
            } => {
                let id = OpId { feeder, event };
                let op = invoked_op(id, process, act, begin, text);
                (number, register, Edit::Append(op), holds)
            }
            CompactEntry::Answered {
                holds,
                register,
                number,
                event,
                value,
                end,
                text,
            } => {
                let id = OpId { feeder, event };
                let change = answer_change(value, end, text);
                (number, register, Edit::Amend(id, change), holds)
            }
            CompactEntry::Whole(place) => return whole[place],
        };
        NumberedEntry {
            number,
            entry: Entry {
                feeder,
                register,
                edit,
                reply: Reply::Accepted { holds },
            },
        }
    }
}

/// The row of an invocation that was accepted, where the operation has no more than that.
fn invoked<'t>(holds: bool, register: RegId, number: u64, op: &Op<'t>) -> Option<CompactEntry<'t>>
    ensures entry { IfSome result (λ row. (whole : List NumberedEntry) → entry_by op.now.id.feeder whole row ≡ numbered_entry number (entry_of op.now.id.feeder register (Edit.Append op.now) (Reply.Accepted holds))) }
    ensures few { IfSome result (λ row. entries_wanted row ≡ 0) }
{
    match *op {
        Op {
            id,
            process,
            act,
            begin,
            end: None,
            parts: OpParts {
                invocation: text,
                answer: None,
                amendment: None,
            },
        } => Some(CompactEntry::Invoked {
            holds,
            register,
            number,
            event: id.event,
            process,
            act,
            begin,
            text,
        }),
        _ => None,
    }
}

/// The row of an answer that was accepted, where the change is no more than that.
fn answered<'t>(
    holds: bool,
    register: RegId,
    number: u64,
    id: OpId,
    change: &Change<'t>,
) -> Option<CompactEntry<'t>>
    ensures entry { IfSome result (λ row. (whole : List NumberedEntry) → entry_by id.feeder whole row ≡ numbered_entry number (entry_of id.feeder register (Edit.Amend id change.now) (Reply.Accepted holds))) }
    ensures few { IfSome result (λ row. entries_wanted row ≡ 0) }
{
    match *change {
        Change {
            value,
            begin: None,
            end: Some(Some(end)),
            lent: Lent::Answer(text),
        } => Some(CompactEntry::Answered {
            holds,
            register,
            number,
            event: id.event,
            value,
            end,
            text,
        }),
        _ => None,
    }
}

/// An operation that was invoked and has no end, no answer and no amendment.
fn invoked_op<'t>(id: OpId, process: i64, act: Act, begin: Moment, text: &'t [u8]) -> Op<'t>
    ensures { result ≡ invoked_op id process act begin text.entry }
{
    Op {
        id,
        process,
        act,
        begin,
        end: None,
        parts: OpParts {
            invocation: text,
            answer: None,
            amendment: None,
        },
    }
}

/// What an answer changes of its operation.
fn answer_change<'t>(value: Option<Value>, end: Moment, text: &'t [u8]) -> Change<'t>
    ensures { result ≡ answer_change value end text.entry }
{
    Change {
        value,
        begin: None,
        end: Some(Some(end)),
        lent: Lent::Answer(text),
    }
}
