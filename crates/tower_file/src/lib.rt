//! Reads a tower file: the levels of a tower, its registers, what each claims to be and what it is made of.
//!
//! The file is one EDN map, in a form of this project's own (docs/FORMATS.md). Its levels are listed from the
//! lowest up, registers are numbered in file order, and a register is made of registers of lower levels. A
//! register's value before any write is nil or an integer; of an atomic one it may be `:unknown`. A text says one
//! tower or has one fault, V1 to V8 or V10: that of the text as EDN, else the first in reading order. V9 says that
//! memory was refused.
//!
//! ```text
//! // {:levels [{:name "bits" :registers [{:name 0 :kind :regular :writers [1] :initial 0}]}
//! //           {:name "top" :registers [{:name :x :kind :atomic :writers :any :of [0]}]}]}
//! let tower = Tower::read(alloc, text)?;
//! let many = tower.len();                       // 2
//! let x = tower.find(b":x");                    // Some(RegId(1))
//! let level = tower.level_of(RegId(1));         // Some(1), and level_name(1) is "top", quotes and all
//! let parts = tower.parts_of(RegId(1));         // Some: RegId(0) alone
//! let claim = tower.claim(RegId(1));            // Some: atomic, any process writes it, nil at first
//! ```
//!
//! `Tower::read_located` says with a fault which bytes of the text are wrong:
//!
//! ```text
//! // {:levels [{:name top :registers [{:name x :kind :reguler :writers [0]}]}]}
//! let read = Tower::read_located(alloc, text);  // Err: V2 of the Kind, with the span of :reguler, (48, 56)
//! ```
//!
//! The first row of `FILES` in `tests/form_tests/towers.rattle` is this tower; the other rows of that module
//! have each fault, its place, and each field. Begin with `Tower::read_located`: its clauses name the file as it is
//! written (specs/Form.antt), what it says (specs/Reading.antt), what a text says (specs/Tower.antt) and where its
//! fault is (specs/Located.antt). `laws` has what follows: a text has either one tower or one fault, in one place;
//! unless a register is atomic its initial value is known; and what the text of `one_register` says, worked out token
//! by token.
#![tactic(auto)]

mod element;
mod example;
mod fault;
mod file;
pub mod laws;
mod level;
mod locate;
mod located;
mod place;
mod register;
mod registers;
mod said;
mod text;
mod tower;

pub use element::kind_of;
pub use example::one_register;
pub use fault::{TowerFault, TowerField};
pub use located::LocatedFault;
pub use tower::Tower;
