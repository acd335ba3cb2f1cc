//! One run of a row.

use crate::row_files::RowFiles;
use commands::run;
use row_data::{Cut, Pieces, Row};
use std::io;
use std::rt::Files;
use std::sync::Wait;
use std::thread::Threads;

/// What a run writes to its outputs, and the digits of its status.
#[derive(Drop)]
pub struct RowOutcome {
    pub out: Vec<u8>,
    pub err: Vec<u8>,
    pub status: Vec<u8>,
}

/// Runs a row on an input, with texts that come cut by `cut` and an output that takes `room` bytes and is no terminal.
pub fn carried_out<R: Files + AllocGlobal + Threads + Wait + Sync>(
    rt: &R,
    row: &Row,
    input: &[u8],
    cut: Cut,
    room: usize,
) -> io::Result<RowOutcome>
where
    R::File: Send,
{
    let mut taken = vec![in rt.alloc(); 0u8; room]?;
    let mut out = taken.as_mut_slice();
    let mut err = Vec::new(rt.alloc());
    let status = run(
        rt,
        row.handed_over(rt.alloc()),
        false,
        &mut RowFiles::new(rt, row, cut),
        &mut Pieces::new(input, cut),
        &mut out,
        &mut err,
    );
    let written = room.saturating_sub(out.len());
    taken.truncate(written);
    Ok(RowOutcome {
        out: taken,
        err,
        status: format!(in rt.alloc(); "{status}")?.into_bytes(),
    })
}
