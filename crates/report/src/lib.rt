//! The report of a run: for each register its verdict and the operations that show why it fails, the registers
//! to blame, the answers and refusals of each trace, and an order where one is asked for.
//!
//!     report(rt, alloc, &tower, &run, None, &mut out)?
//!     summary(alloc, &tower, &run, least, advice, &mut out)? // what the report says, in at most 59 lines
//!     culprits(alloc, &tower, &run.closed)?          // the registers that fail while their parts hold
//!     let each = find_all(alloc, &tower, &run.closed)?   // what is found of each register
//!     doubts_of(alloc, &each, &run.logs)?            // what was left out of each, and what its failure rests on
//!     standing_counts(alloc, &tower, &run.closed)?   // how many operations stand in all, and the least in one
//!     tower_text(alloc, &tower)?                     // a line for each register of a tower
//!
//! `specs/Report.antt` has the text of a report in terms of what is found of each register
//! (`specs/Finding.antt`), `specs/Summary.antt` that of a summary, `specs/Culprit.antt` who is to blame; the other
//! files of `specs` have the lines.
#![tactic(auto)]

mod batch;
mod brief;
mod counts;
mod culprit;
mod doubt;
mod doubted;
mod failing;
mod fault;
mod few;
mod finding;
mod findings;
pub mod laws;
mod listing;
mod notes;
mod order;
mod refused;
mod section;
mod text;

pub use brief::{count_broken, count_failing, summary};
pub use counts::{Counts, standing_counts};
pub use culprit::{culprits, culprits_in, is_culprit};
pub use doubt::{Doubt, change_rests_on, doubts_of, rests_on, would_write};
pub use doubted::{are_all_in_doubt, is_doubted};
pub use fault::ReportFault;
pub use few::{Least, count_operations, push_few};
pub use finding::{Finding, failing_of, find_all};
pub use findings::RunFindings;
pub use listing::{level_name, tower_text};
pub use notes::push_broken;
pub use order::order_of;
pub use refused::{CodeTally, count_refused, first_refused, push_refused, tallies_of};
pub use section::push_section;
pub use text::report;
