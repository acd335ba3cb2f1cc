//! Edits of a register, and what a change makes of an operation.

ghost use Rattle.std.specs.Prelude.{◌≡◌};
ghost use Rattle.intervals.specs.Edit.{changed, edit_id, act_with, parts_with};

use crate::{Act, Kind, Moment, Op, OpId, OpParts, Value};

/// The element that a change was read from, as text: it becomes the operation's answer, or its amendment.
#[derive(Clone, Copy)]
pub enum Lent<'t> {
    Answer(&'t [u8]),
    Amendment(&'t [u8]),
}

/// What an amendment gives: each part that is there replaces the old one. An end of `Some(None)` takes the
/// operation's end away.
#[derive(Clone, Copy)]
pub struct Change<'t> {
    pub value: Option<Value>,
    pub begin: Option<Moment>,
    pub end: Option<Option<Moment>>,
    pub lent: Lent<'t>,
}

/// An edit of a register: of the operations that stand, or of the claimed kind.
#[derive(Clone, Copy)]
pub enum Edit<'t> {
    Append(Op<'t>),
    Amend(OpId, Change<'t>),
    Withdraw(OpId),
    /// Sets the kind that the register claims to be.
    Claim(Kind),
}

impl Edit<'_> {
    /// The id of the operation that the edit appends, changes or takes out; none of a claim.
    pub fn id(&self) -> Option<OpId>
        ensures { result ≡ edit_id self.now }
    {
        match self {
            Edit::Append(op) => Some(op.id),
            Edit::Amend(id, _) => Some(*id),
            Edit::Withdraw(id) => Some(*id),
            Edit::Claim(_) => None,
        }
    }
}

/// The operation after the change.
pub fn changed<'t>(op: &Op<'t>, change: &Change<'t>) -> Op<'t>
    ensures { result ≡ changed op.now change.now }
{
    Op {
        id: op.id,
        process: op.process,
        act: with_value(op.act, change.value),
        begin: change.begin.unwrap_or(op.begin),
        end: change.end.unwrap_or(op.end),
        parts: with_part(op.parts, change.lent),
    }
}

fn with_value(act: Act, value: Option<Value>) -> Act
    ensures { result ≡ act_with act value }
{
    match (act, value) {
        (act, None) => act,
        (Act::Read(_), Some(new)) => Act::Read(new),
        (Act::Write(_), Some(new)) => Act::Write(new),
    }
}

fn with_part<'t>(parts: OpParts<'t>, lent: Lent<'t>) -> OpParts<'t>
    ensures { result ≡ parts_with parts.entry lent.entry }
{
    match lent {
        Lent::Answer(text) => OpParts {
            answer: Some(text),
            ..parts
        },
        Lent::Amendment(text) => OpParts {
            amendment: Some(text),
            ..parts
        },
    }
}
