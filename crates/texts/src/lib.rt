//! Fixed texts that the program prints: what a code or a word of a report says, and the version.
//!
//! ```text
//! explanation_of("x7")                      what is said of X7, with an example and how to mend it
//! explanation_of("WritesOverlap")           the same, by the name of the code
//! note_of("l5")                             the same, of the code of a note alone
//! message_of_code("X7")                     what the message of `lint` begins with
//! refusals()                                the entries of the codes by which an element is refused
//! push_entry(&mut text, entry)?             all that is said of it
//! push_list(&mut text)?                     a line for each code and word
//! VERSION                                   which build this is
//! ```
//!
//! An entry is written once, in the array of its kind. `specs/Codes.antt` says which codes there are and which one a word
//! names, and `specs/Printing.antt` how an entry is printed; that each code of each fault has an entry is a law.
#![tactic(auto)]

mod entry;
mod form_codes;
mod hints;
mod laws;
mod listed;
mod notes;
mod pair_codes;
mod register_codes;
mod report_words;
mod shard_codes;
mod text_codes;
mod tower_codes;
mod version;

pub use entry::{Explanation, push_entry};
pub use laws::{each_code_has_an_entry, each_name_names_its_code};
pub use listed::{explanation_of, message_of_code, note_of, push_list, refusals};
pub use version::VERSION;
