//! Look-ups in the tree, which go down where the summaries lead them.

ghost use Rattle.std.specs.Prelude.{◌≡◌, false, MatchOption};
ghost use Rattle.std.specs.List.{find};
ghost use Rattle.zone_tree.specs.Order.{StandInOrder};
ghost use Rattle.summary_tree.specs.Layers.{no_layers};
ghost use Rattle.zone_tree.specs.Summary.{join_zones, summary_of_zones};
ghost use Rattle.zone_tree.specs.Node.{IsTopZone};
ghost use Rattle.zone_tree.specs.Look.{is_following, begins_before, last_that, has_forward, IsMetFirst};

use crate::summary::ZoneSummary;
use crate::{Edge, Zone};
use summary_tree::{Subtree, Summarizes};

/// A tree of zones by left edge, with their summaries.
pub type Tree = summary_tree::Tree<Zone, ZoneSummary>;

type Node = summary_tree::Node<Zone, ZoneSummary>;

/// The top node, with what is known of its sides.
#[tactic(auto, using(crate::proofs::Tops::top_of))]
fn top(tree: &Tree) -> Option<&Node>
    ensures { MatchOption result (tree.now ≡ no_layers) (λ node. IsTopZone node.now tree.now.items) }
{
    tree.top()
}

/// Whether two zones conflict.
#[tactic(auto, using(crate::proofs::Seams::no_bit))]
pub fn conflict(tree: &Tree) -> bool
    ensures { result ≡ (summary_of_zones tree.now.items).conflict }
{
    match top(tree) {
        Some(top) => top.summary.conflict,
        None => false,
    }
}

/// The summary of the earlier zones and the tree's zones after them.
#[tactic(auto, using(crate::proofs::Summaries::none_after))]
pub fn following(tree: &Tree, earlier: ZoneSummary) -> ZoneSummary
    ensures { result ≡ join_zones earlier (summary_of_zones tree.now.items) }
{
    match top(tree) {
        Some(top) => earlier.join(&top.summary),
        None => earlier,
    }
}

impl ZoneSummary {
    /// Whether some zone is forward.
    fn has_forward(&self) -> bool
        ensures { result ≡ has_forward self.now }
    {
        self.first_forward.comes_before(Edge::Never)
    }
}

fn is_following(after: Option<Edge>, zone: &Zone) -> bool
    ensures { result ≡ is_following after zone.now }
{
    match after {
        Some(edge) => edge.comes_before(zone.left),
        None => true,
    }
}

/// The first zone whose left edge comes after the optional edge.
#[tactic(auto, using(crate::proofs::Looks::first_here, crate::proofs::Looks::first_right))]
pub fn first_after(part: Subtree<Zone, ZoneSummary>, after: Option<Edge>) -> Option<Zone>
    requires { StandInOrder part.tree.now.items }
    ensures { result ≡ find (is_following after) part.entry.tree.now.items }
{
    let Some(node) = top(part.tree) else {
        return None;
    };
    if !is_following(after, &node.item) {
        return first_after(Subtree { tree: &node.right }, after);
    }
    first_after(Subtree { tree: &node.left }, after).or(Some(node.item))
}

/// The last forward zone whose left edge comes before that one.
#[tactic(auto, using(crate::proofs::Looks::last_empty, crate::proofs::Looks::none_begins, crate::proofs::Looks::last_in_right, crate::proofs::Looks::last_here, crate::proofs::Looks::last_in_left, crate::proofs::Looks::last_left))]
pub fn last_forward_before(part: Subtree<Zone, ZoneSummary>, edge: Edge) -> Option<Zone>
    requires { StandInOrder part.tree.now.items }
    ensures { result ≡ last_that (begins_before edge) part.entry.tree.now.items }
{
    let Some(node) = top(part.tree) else {
        return None;
    };
    if !node.summary.has_forward() {
        return None;
    }
    if !node.item.left.comes_before(edge) {
        return last_forward_before(Subtree { tree: &node.left }, edge);
    }
    if let Some(zone) = last_forward_before(Subtree { tree: &node.right }, edge) {
        return Some(zone);
    }
    if node.item.forward {
        return Some(node.item);
    }
    last_forward_before(Subtree { tree: &node.left }, edge)
}

/// The first zone of the tree that conflicts with a forward one before it, in the tree or among those seen before.
#[tactic(auto, using(crate::proofs::Meetings::met_empty, crate::proofs::Meetings::met_none, crate::proofs::Meetings::met_left, crate::proofs::Meetings::met_here, crate::proofs::Meetings::met_right))]
pub fn first_meeting(part: Subtree<Zone, ZoneSummary>, seen: ZoneSummary) -> Option<Zone>
    requires { seen.conflict ≡ false }
    ensures { IsMetFirst seen part.entry.tree.now.items result }
{
    let Some(node) = top(part.tree) else {
        return None;
    };
    if !seen.join(&node.summary).conflict {
        return None;
    }
    let earlier = following(&node.left, seen);
    if earlier.conflict {
        return first_meeting(Subtree { tree: &node.left }, seen);
    }
    let so_far = earlier.join(&ZoneSummary::of_one(&node.item));
    if so_far.conflict {
        return Some(node.item);
    }
    first_meeting(Subtree { tree: &node.right }, so_far)
}
