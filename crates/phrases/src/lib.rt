//! Words that several crates print: names, kinds, verdicts, ids, and why a register fails.
//!
//!     push_printed(&mut text, name_of(&tower, register))?   // a name, as it is printed
//!     push_fault_text(&mut text, witness.ids())?            // wrong 0:3
//!     push_register(&mut text, name, kind, holds, many)?    // register x atomic holds 12
//!
//! `specs/Names.antt` has the words and names, `specs/Fault.antt` and `specs/Register.antt` what is printed of a fault
//! and of a register's verdict. A report (the crate `report`) has these lines, and so have pictures, the output of
//! `watch`, and records.
#![tactic(auto)]

mod fault;
mod names;
mod register;

pub use fault::{push_fault, push_fault_text};
pub use names::{kind_word, name_of, printed_char, push_id, push_printed, verdict_word};
pub use register::push_register;
