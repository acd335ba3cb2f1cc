//! What a run leaves.

use crate::log::Log;
use shards::Closed;

/// What a run leaves: the journals and the books, and a log for each trace, by the trace's number.
#[derive(Drop)]
pub struct Run<'t> {
    pub closed: Closed<'t>,
    pub logs: Vec<Log<'t>>,
}
