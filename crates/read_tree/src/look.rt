//! Look-ups in the tree, which go down where the summaries lead them.

ghost use Rattle.std.specs.Prelude.{◌≡◌, if◌then◌else◌, Some, None, true, Option};
ghost use Rattle.read_tree.specs.declared.item.Cover.{Cover};
ghost use Rattle.read_tree.specs.Items.{is_uncovered, is_some_uncovered, earlier_read, first_uncovered};
ghost use Rattle.read_tree.specs.Summary.{cover_after, IsSummaryOf};

use crate::summary::{ReadSummary, far_limit};
use crate::{Cover, RowItem};
use intervals::is_same_value;
use summary_tree::Subtree;

/// A tree of items by spot, with their summaries.
pub type Tree = summary_tree::Tree<RowItem, ReadSummary>;

/// The summary of the tree's items.
#[tactic(auto, using(crate::proofs::Joins::summary_of_none))]
fn summary(tree: &Tree) -> ReadSummary
    ensures { IsSummaryOf result tree.now.items }
{
    match tree.top() {
        Some(top) => top.summary,
        None => ReadSummary::none(),
    }
}

/// Whether some read is uncovered, where `before` is the last cover before the tree.
pub fn has_uncovered(tree: &Tree, before: Option<Cover>) -> bool
    ensures { result ≡ is_some_uncovered before tree.now.items }
{
    summary(tree).is_uncovered(before)
}

/// Of `found` and the uncovered reads of the subtree the one that ended first, where `before` is the last cover
/// before the subtree. It does not go down where no read is uncovered, nor where no item is earlier than `found`.
#[tactic(auto, using(crate::proofs::Firsts::around_cover, crate::proofs::Firsts::around_read))]
pub fn earliest(
    part: Subtree<RowItem, ReadSummary>,
    before: Option<Cover>,
    found: Option<RowItem>,
) -> Option<RowItem>
    ensures { result ≡ earlier_read found (first_uncovered before part.entry.tree.now.items) }
{
    let tree = part.tree;
    if has_nothing_earlier(tree, before, found) {
        return found;
    }
    let Some(top) = tree.top() else {
        return found;
    };
    let on_left = earliest(Subtree { tree: &top.left }, before, found);
    let following = cover_following(&top.left, before);
    if top.item.covers {
        return earliest(
            Subtree { tree: &top.right },
            Some(top.item.cover()),
            on_left,
        );
    }
    let with_top = earlier(on_left, short_one(following, top.item));
    earliest(Subtree { tree: &top.right }, following, with_top)
}

/// Whether no read of the tree is uncovered, or no item of it is earlier than `found`.
#[tactic(auto, using(crate::proofs::Firsts::nothing_short))]
fn has_nothing_earlier(tree: &Tree, before: Option<Cover>, found: Option<RowItem>) -> bool
    ensures { result ≡ true → earlier_read found (first_uncovered before tree.now.items) ≡ found }
{
    !has_uncovered(tree, before) || is_no_earlier(tree, found)
}

/// Whether no item of the tree is earlier than `found`.
#[tactic(auto, using(crate::proofs::Firsts::nothing_earlier))]
fn is_no_earlier(tree: &Tree, found: Option<RowItem>) -> bool
    ensures { result ≡ true → (before : Option Cover) → earlier_read found (first_uncovered before tree.now.items) ≡ found }
{
    match found {
        None => false,
        Some(found) => found.moment.0 <= summary(tree).least,
    }
}

/// The last cover of the tree, or `before`, the last one before it, where the tree has none.
fn cover_following(tree: &Tree, before: Option<Cover>) -> Option<Cover>
    ensures { result ≡ cover_after before tree.now.items }
{
    summary(tree).last.or(before)
}

/// Of two optional reads the one that ended first.
fn earlier(a: Option<RowItem>, b: Option<RowItem>) -> Option<RowItem>
    ensures { result ≡ earlier_read a b }
{
    let Some(first) = a else {
        return b;
    };
    let Some(second) = b else {
        return a;
    };
    if second.moment.0 < first.moment.0 {
        b
    } else {
        a
    }
}

/// The read, where it is uncovered.
fn short_one(before: Option<Cover>, read: RowItem) -> Option<RowItem>
    ensures { result ≡ (if is_uncovered before read then Some read else None) }
{
    if is_read_short(before, &read) {
        Some(read)
    } else {
        None
    }
}

fn is_read_short(before: Option<Cover>, read: &RowItem) -> bool
    ensures { result ≡ is_uncovered before read.now }
{
    let Some(cover) = before else {
        return 0 < read.reach;
    };
    if is_same_value(read.value, cover.value) {
        cover.by_value && cover.reach < read.reach
    } else {
        far_limit(&cover) < read.reach
    }
}
