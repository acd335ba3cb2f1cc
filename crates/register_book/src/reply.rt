//! The reply to an edit of a register: accepted or refused.

use intervals::Refusal;

/// The reply to an edit.
#[derive(Clone, Copy, PartialEq, Eq)]
pub enum Reply {
    /// The edit was carried out; `holds` says whether the register keeps its claim after it.
    Accepted { holds: bool },
    /// Nothing was changed, for this reason.
    Refused(Refusal),
}
