//! Look-ups: each goes down the one way that the summaries show, and the one past a value two ways at most.

ghost use Rattle.std.specs.Prelude.{◌≡◌, find};
ghost use Rattle.zone_tree.specs.StretchLook.{has_no_write, is_writeless_but, is_read_early};

use crate::Stretch;
use crate::stretch_summary::StretchSummary;
use intervals::{Value, is_same_value};
use summary_tree::Subtree;

/// The first writeless stretch.
#[tactic(auto, using(crate::proofs::StretchLooks::none_writeless, crate::proofs::Finds::find_in_left, crate::proofs::Finds::find_here, crate::proofs::Finds::find_in_right))]
pub fn first_writeless(part: Subtree<Stretch, StretchSummary>) -> Option<Stretch>
    ensures { result ≡ find has_no_write part.entry.tree.now.items }
{
    let Some(node) = part.tree.top() else {
        return None;
    };
    if !node.summary.writeless {
        return None;
    }
    if let Some(stretch) = first_writeless(Subtree { tree: &node.left }) {
        return Some(stretch);
    }
    if !node.item.written {
        return Some(node.item);
    }
    first_writeless(Subtree { tree: &node.right })
}

/// The first writeless stretch of another value than `value`.
#[tactic(auto, using(crate::proofs::StretchLooks::none_writeless_but, crate::proofs::Finds::find_in_left, crate::proofs::Finds::find_here, crate::proofs::Finds::find_in_right))]
pub fn first_writeless_but(part: Subtree<Stretch, StretchSummary>, value: Value) -> Option<Stretch>
    ensures { result ≡ find (is_writeless_but value) part.entry.tree.now.items }
{
    let Some(node) = part.tree.top() else {
        return None;
    };
    if !node.summary.writeless {
        return None;
    }
    if let Some(stretch) = first_writeless_but(Subtree { tree: &node.left }, value) {
        return Some(stretch);
    }
    if is_other(&node.item, value) {
        return Some(node.item);
    }
    first_writeless_but(Subtree { tree: &node.right }, value)
}

fn is_other(stretch: &Stretch, value: Value) -> bool
    ensures { result ≡ is_writeless_but value stretch.now }
{
    !stretch.written && !is_same_value(stretch.value, value)
}

/// The first early stretch.
#[tactic(auto, using(crate::proofs::StretchLooks::none_early, crate::proofs::Finds::find_in_left, crate::proofs::Finds::find_here, crate::proofs::Finds::find_in_right))]
pub fn first_early(part: Subtree<Stretch, StretchSummary>) -> Option<Stretch>
    ensures { result ≡ find is_read_early part.entry.tree.now.items }
{
    let Some(node) = part.tree.top() else {
        return None;
    };
    if !node.summary.early {
        return None;
    }
    if let Some(stretch) = first_early(Subtree { tree: &node.left }) {
        return Some(stretch);
    }
    if node.item.written {
        return Some(node.item);
    }
    first_early(Subtree { tree: &node.right })
}
