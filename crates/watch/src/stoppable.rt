//! Readers that can be stopped.

ghost use Rattle.std.specs.Prelude.{◌≡◌, IfOk, map};

use std::alloc::{AllocError, Global};
use std::io::{Error, ErrorKind, Read, Result as ReadResult};
use std::sync::atomic::{AtomicBool, Ordering};

/// A reader whose calls are refused once a watch is over.
#[derive(Drop)]
pub struct Stoppable<'r, S: Read> {
    reader: S,
    over: &'r AtomicBool,
}

impl<S: Read> Read for Stoppable<'_, S> {
    ghost remaining = { λ r. S.remaining r.reader };

    fn read(&mut self, buf: &mut [u8]) -> ReadResult<usize> {
        if self.over.load(Ordering::SeqCst) {
            return Err(Error::from(ErrorKind::BrokenPipe));
        }
        self.reader.read(buf)
    }
}

/// The readers, which are stopped where `over` is set.
pub fn stopped_by<'r, S: Read + Drop>(
    alloc: Global,
    readers: Vec<S>,
    over: &'r AtomicBool,
) -> Result<Vec<Stoppable<'r, S>>, AllocError>
    ensures { IfOk result (λ wrapped. map (λ one. S.remaining one.reader) wrapped.items ≡ map S.remaining readers.items) }
{
    let mut wrapped = Vec::new(alloc);
    for reader in readers {
        wrapped.push(Stoppable { reader, over })?;
    }
    Ok(wrapped)
}
