//! A height-balanced tree of boxes (Adelson-Velsky and Landis 1962), generic over its items, the order of
//! their keys and what each node keeps of the items below it.
//!
//! Places are reserved first, which may take memory; then items are put in, which takes none:
//!
//! ```text
//! let mut tree = SummaryTree::new(alloc);
//! tree.reserve(2)?;
//! tree.insert(late);
//! tree.insert(early);
//! tree.remove(early.key())            // Some(early)
//! ```
//!
//! The crate above says what an item is (`Keyed`) and what a summary is (`Summarizes`). It looks things up
//! itself: `SummaryTree::tree` lends the tree of boxes, `Tree::top` its top node, and a node has two
//! trees as its sides, so a look-up is a recursion that the summaries guide. The rows of `read_tree` and
//! `zone_tree` run these calls.
//!
//! Read `specs/Order.antt` first, then the calls in `tree.rt`. Inside:
//!
//!     keyed         what an item is
//!     summarizes    what a summary is
//!     node          the tree of boxes; `keep` asks of each node what `specs/Node.antt` says
//!     balance       rotations, and the way back up, which ends where nothing changed
//!     edit          insertion, removal and replacement: one way down, counted
//!     look          the item of a key
//!     node_pool     spare nodes for reserved places
//!     tree          the calls: a tree, its reserved places and its count of steps
#![tactic(auto)]

mod balance;
mod edit;
mod keyed;
mod look;
mod node;
mod node_pool;
mod summarizes;
mod tree;

pub use keyed::Keyed;
pub use look::Subtree;
pub use node::{Node, Tree};
pub use summarizes::Summarizes;
pub use tree::SummaryTree;
