//! Two trees of one atomic register's history: the zones of its clusters by their left edges, and whether two of them
//! conflict (Gibbons and Korach 1997); and the stretches of its values that are at fault, by their ends.
//!
//! Places are reserved first, which may take memory; then zones or stretches are put in, which takes none. The tree
//! of zones answers with the first conflict:
//!
//!     let mut tree = ZoneTree::new(alloc);
//!     tree.reserve(2)?;
//!     tree.insert(inner);             // backward, from 5 back to 4
//!     tree.insert(outer);             // forward, from 1 to 6
//!     tree.first_conflict()           // Some((outer, inner))
//!     tree.replace(shorter);          // forward, from 1 to 5
//!     tree.clean()                    // true
//!     tree.remove(Edge::At(Moment(1)));
//!
//! The rows of `tests/judge_tests/zones_in_order.rattle` run these calls: the zones above are those of the row
//! `4<5 -<- 1>6 =1>5`.
//!
//! A value is at fault where its first read has no write, or ended before its write begins: where it is *writeless*
//! or *early*. The stretch of such a value says when that read ended, and which of the two it is. The tree of
//! stretches answers with the first of each kind:
//!
//!     let mut tree = StretchTree::new(alloc);
//!     tree.reserve(2)?;
//!     tree.insert(early);             // the first read of 1 ended at 3, and its write begins later
//!     tree.insert(writeless);         // the first read of 2 ended at 5, and it has no write
//!     tree.first_writeless()          // Some(writeless)
//!     tree.first_writeless_but(two)   // None
//!     tree.first_early()              // Some(early)
//!     tree.remove(early.end)          // Some(early)
//!
//! A history that holds has no early value, and no writeless one but perhaps that with which it began, so its tree of
//! stretches is empty or nearly so.
//!
//! Read `specs/Zone.antt` and `specs/Conflict.antt` first: what a zone is and what a conflict; then the calls in
//! `tree.rt`, and in `laws.rt` what the definitions come to. Zones and stretches are each kept in a `summary_tree` by
//! their keys. Inside:
//!
//!     tree             the calls of the tree of zones
//!     zones            the iterator
//!     look             the look-ups, by the summaries
//!     summary          what a node keeps of the zones below it, so that `clean` asks the top alone
//!     stretch_tree     the calls of the tree of stretches
//!     stretch_look     its look-ups
//!     stretch_summary  what a node keeps of the stretches below it
#![tactic(auto)]

mod edge;
pub mod laws;
mod look;
mod stretch;
mod stretch_look;
mod stretch_summary;
mod stretch_tree;
mod summary;
mod tree;
mod zone;
mod zones;

pub use edge::Edge;
pub use stretch::Stretch;
pub use stretch_tree::StretchTree;
pub use tree::ZoneTree;
pub use zone::Zone;
pub use zones::Zones;
