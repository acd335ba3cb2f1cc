//! The registers that traces name, and the tower file that says so.
//!
//! ```text
//! // {:process 0 :type :invoke :f :write :value [x 5] :index 0} {:process 1 :type :invoke :f :read :value [y nil] :index 1}
//! let mut named = TraceNames::new(alloc);
//! let fault = named.add_trace(text)?;           // None: x, which process 0 writes, and y
//! push_tower(alloc, &mut file, &claim, &named)?;       // {:levels [{:name keys :registers [ {:name x ..} {:name y ..} ]}]}
//! ```
//!
//! `specs/Named.antt` says what traces name, `specs/File.antt` what the tower file is, and `specs/Tower.antt` the tower that
//! it is to say: `is_tower_of` compares one that was read with that.
#![tactic(auto)]

mod file;
pub mod laws;
mod names;
mod tower;

pub use file::{NameClaim, push_tower};
pub use names::TraceNames;
pub use tower::is_tower_of;
