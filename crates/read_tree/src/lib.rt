//! The reads of one register in rows, and covers between them: each says how late a read after it may have
//! begun.
//!
//! Places are reserved first, which may take memory; then items are put in, which takes none. Each item is at
//! a spot: a row and a moment. Whether a read is right is decided by the last cover before it, so a write that
//! comes or goes changes a cover or two, and no read:
//!
//! ```text
//! let mut tree = ReadTree::new(alloc);
//! tree.reserve(3)?;
//! tree.insert(early);                 // ended at 3, reaches to 1
//! tree.insert(late);                  // ended at 9, reaches to 5
//! tree.first_uncovered()              // Some(early)
//! tree.insert(cover);                 // from 2 on, for what reaches to 6 or less
//! tree.has_uncovered()                // false
//! tree.remove(cover.spot())           // Some(cover)
//! ```
//!
//! Read `specs/Items.antt` first, then the calls in `reads.rt`: their clauses are the whole promise, and
//! `laws.rt` has what the definitions come to. The rows of `tests/judge_tests/reads_in_rows.rattle` run these
//! calls.
//!
//! Inside, the items are kept in a `summary_tree` by their spots (`item.rt`): what a node keeps of the items
//! below it is in `summary.rt`, and the look-ups by it are in `look.rt`.
#![tactic(auto)]

mod item;
pub mod laws;
mod look;
mod reads;
mod summary;

pub use item::{Cover, RowItem};
pub use reads::ReadTree;
