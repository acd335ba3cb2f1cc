//! Which operations an edit is about.

ghost use Rattle.std.specs.Prelude.{◌≡◌, List, option_copied};
ghost use Rattle.intervals.specs.declared.operation.Op.{Op as AnOp};
ghost use Rattle.intervals.specs.Edit.{edit_id, found_by, new_op};

use crate::{Edit, Op, changed};

/// What an edit is about: the operation of its id that stands, and the operation that the edit appends or leaves
/// in its place. It is made once, and lent to the check, the judge and the table.
#[derive(Clone, Copy)]
pub struct Target<'t> {
    /// The slot in which the table looks first. It is a hint alone.
    pub(crate) place: usize,
    pub old: Option<Op<'t>>,
    pub new: Option<Op<'t>>,
}

/// The operation that the edit appends, or leaves in the place of `old`, the one of its id that stands.
pub(crate) fn new_op<'t>(edit: &Edit<'t>, old: Option<&Op<'t>>) -> Option<Op<'t>>
    ensures { (ops : List AnOp) → option_copied old.entry ≡ found_by ops (edit_id edit.now) → result ≡ new_op ops edit.now }
{
    match edit {
        Edit::Append(op) => Some(*op),
        Edit::Amend(_, change) => match old {
            Some(op) => Some(changed(op, change)),
            None => None,
        },
        Edit::Withdraw(_) | Edit::Claim(_) => None,
    }
}
