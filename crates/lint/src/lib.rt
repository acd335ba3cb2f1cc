//! What is amiss in the traces that `check` would read, with its place: for `regaudit lint`.
//!
//!     let found = lint_traces(alloc, &tower, &[text], MomentField::Index, &run)?;
//!     found.traces[0].findings               // its refusals in the order of its elements, and where it breaks
//!     let in_file = lint_tower(alloc, tower_text, &found)?;
//!     found.append(in_file)?;
//!     found.status(&[])                      // 2 with an error, else 3 with a warning or a denied note, else 0
//!     push_findings(&mut text, alloc, &sources, &found, Format::Human(3))?;
//!
//! The log of a trace says which elements are refused and why, by their numbers; one pass of the reader gives the bytes
//! of each element, and one cursor their lines and columns. So a finding costs a look-up, however long the text is.
//!
//! What is taken as it is and may not be meant is noted (L1 to L8); a note changes the status only where it is
//! denied. `notes.rt` looks at the elements, `suspect.rt` at the operations that show that registers fail, and
//! `tower.rt` at the tower file, whose fault it makes a finding. `together.rt` has what people read in the block of
//! another finding.
//!
//! Begin with `find::lint_traces`: its clause names what is found by the logs of a run (`specs/Found.antt`): one
//! finding for each refusal and for each break, and no others. `specs/LeftWith.antt` has what was left out with a
//! refused invocation, `specs/Grade.antt` the status, and `specs/Short.antt` the form with a line for each finding;
//! `places` has lines, columns and the spot of an element. The other forms are tested by `rows`.
#![tactic(auto)]

mod bracket;
mod find;
mod finding;
mod github;
mod head;
mod hint;
mod human;
mod json;
mod message;
mod missing;
mod nearest;
mod notes;
mod print;
mod quoted;
mod sentences;
mod short;
mod snippet;
mod source;
mod suggest;
mod suspect;
mod tally;
mod together;
mod tower;
mod writers;

pub use find::lint_traces;
pub use finding::{Amiss, Findings, Grade, Note, Problem, Ties, TraceFindings};
pub use print::{Format, push_findings};
pub use source::SourceText;
pub use tower::{lint_fault, lint_tower};
