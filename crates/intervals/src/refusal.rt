//! Why a register refuses an edit, with the code of each reason.

ghost use Rattle.std.specs.Prelude.{◌≡◌};
ghost use Rattle.intervals.specs.Code.{refusal_code};

use crate::{Holder, Moment, OpId};
use thiserror::Error;

/// Why an edit is refused: the first of these whose condition holds of the operations that stand.
#[derive(Clone, Copy, Debug, PartialEq, Eq, Error)]
pub enum Refusal {
    /// An amendment or a withdrawal names an operation that does not stand.
    #[error("X1 UnknownOp")]
    UnknownOp,
    /// An append has the id of an operation that stands.
    #[error("X2 OpTaken")]
    OpTaken,
    /// The new operation has an end that is not after its beginning.
    #[error("X3 EndNotAfterBegin")]
    EndNotAfterBegin,
    /// The new operation's beginning, else its end, is a moment of another operation: that moment, and whose.
    #[error("X4 MomentTaken")]
    MomentTaken(Moment, OpId),
    /// The new operation's beginning or its end is past 4611686018427387903.
    #[error("X5 MomentTooLarge")]
    MomentTooLarge,
    /// The new operation is a write, and its process is no writer of the register.
    #[error("X6 NotAWriter")]
    NotAWriter,
    /// On a safe or regular register the new operation is a write that overlaps others: the one of them that
    /// begins first.
    #[error("X7 WritesOverlap")]
    WritesOverlap(OpId),
    /// On an atomic register the new operation is a write of a value that another write or the register at first
    /// has: which of the two, and the write's id.
    #[error("X8 ValueTaken")]
    ValueTaken(Holder),
    /// The new operation is a write of a value outside the domain that is given.
    #[error("X9 OutOfDomain")]
    OutOfDomain,
    /// A claim of a register whose kind may not change.
    #[error("X10 ClaimFixed")]
    ClaimFixed,
    /// A claim to be safe or regular, and the writers are not a list of exactly one.
    #[error("X11 ClaimWriters")]
    ClaimWriters,
    /// A claim to be safe or regular, and two writes that stand overlap: of those that overlap another one the one
    /// that begins first, and of those that overlap it the one that begins first.
    #[error("X12 ClaimOverlap")]
    ClaimOverlap(OpId, OpId),
    /// A claim to be atomic, and a write has a value that the register is known to have at first or that a write
    /// appended before it has: the first such write, and what has its value.
    #[error("X13 ClaimRepeats")]
    ClaimRepeats(OpId, Holder),
    /// A claim to be safe or regular, and the initial value is unknown. This is asked after X11 and before X12.
    #[error("X14 ClaimInitial")]
    ClaimInitial,
}

impl Refusal {
    /// The code that users see.
    pub fn code(&self) -> &'static str
        ensures { result.now ≡ refusal_code self.now }
    {
        match self {
            Refusal::UnknownOp => "X1",
            Refusal::OpTaken => "X2",
            Refusal::EndNotAfterBegin => "X3",
            Refusal::MomentTaken(..) => "X4",
            Refusal::MomentTooLarge => "X5",
            Refusal::NotAWriter => "X6",
            Refusal::WritesOverlap(_) => "X7",
            Refusal::ValueTaken(_) => "X8",
            Refusal::OutOfDomain => "X9",
            Refusal::ClaimFixed => "X10",
            Refusal::ClaimWriters => "X11",
            Refusal::ClaimOverlap(..) => "X12",
            Refusal::ClaimRepeats(..) => "X13",
            Refusal::ClaimInitial => "X14",
        }
    }
}
