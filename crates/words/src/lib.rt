//! The words of the command line: which command they ask for.
//!
//! ```text
//! regaudit check [--tower FILE] [--each KIND] [--shards N] [--moment index|time] [--order NAME]
//!     [--as text|summary|json|edn|github|junit|trace] [--only failing] [--least N] [--least-each N] [--doubt STATUS] TRACE..
//! regaudit watch [--tower FILE] [--each KIND] [--moment index|time] [--shards N] [--as text|json] [--until-fail]
//!     [--settle N] [--least N] [--least-each N] [--doubt STATUS] TRACE..
//! regaudit show [--tower FILE] [--each KIND] [--moment index|time] [--register NAME] [--svg|--html|--ascii]
//!     [--around N] [--all] [--width N] [--theme auto|light|dark] [--colour auto|always|never] [--least N]
//!     [--least-each N] [--doubt STATUS] TRACE..
//! regaudit lint [--tower FILE] [--each KIND] [--moment index|time] [--as human|short|github|json] [--max N]
//!     [--deny CODES] [--colour auto|always|never] [TRACE..]
//! regaudit keys [--kind KIND] [--initial VALUE] [--writers any|first] TRACE..
//! regaudit safe [TRACE]
//! regaudit tower FILE
//! regaudit explain [--colour auto|always|never] [CODE]
//! regaudit version
//! regaudit manual
//! regaudit completion bash|zsh|fish
//! ```
//!
//! ```text
//! read_words(alloc, &["regaudit", "check", "--tower", "bits.edn", "a.edn", "b.edn"])
//!     Ok(Command::Check(Check {
//!         tower: TowerWord::File("bits.edn"),
//!         shards: 1,
//!         moments: MomentField::Index,
//!         order: None,
//!         form: ReportForm::Report,
//!         only_failing: false,
//!         demand: Demand { least: 0, least_each: 0, doubt: 1 },
//!         traces: ["a.edn", "b.edn"],
//!     }))
//! read_words(alloc, &["regaudit", "safe"])                 Ok(Command::Safe(None))
//! read_words(alloc, &["regaudit", "safe", "trace.edn"])    Ok(Command::Safe(Some("trace.edn")))
//! read_words(alloc, &["regaudit", "tower", "--", "-x"])    Ok(Command::Tower("-x"))
//! ```
//!
//! `specs/Words.antt` says what words ask for, and `laws` has cases of it that are written out.
#![tactic(auto)]

mod argument;
mod check;
mod cli;
mod colour;
mod completion;
mod demand;
mod keys;
pub mod laws;
mod lint;
mod manual;
mod show;
mod tower;
mod watch;
mod words;

pub use check::{Check, ReportForm};
pub use colour::ColourWord;
pub use completion::Shell;
pub use demand::Demand;
pub use keys::Keys;
pub use lint::{Lint, LintForm};
pub use manual::help_of_all;
pub use show::{Picture, Show, ThemeWord};
pub use tower::TowerWord;
pub use watch::{LineForm, Watch};
pub use words::{Command, no_text, read_words};
