//! The files of a row, and those of the folder in which the program runs.

use command_parts::{Cause, Files, HostFiles, Missing};
use row_data::{Cut, Pieces, Row};
use std::io::Read;
use std::{io, rt};

#[derive(Drop)]
pub struct RowFiles<'t, R: rt::Files> {
    row: &'t Row,
    cut: Cut,
    host: HostFiles<'t, R>,
}

impl<'t, R: rt::Files> RowFiles<'t, R> {
    pub fn new(rt: &'t R, row: &'t Row, cut: Cut) -> Self {
        RowFiles {
            row,
            cut,
            host: HostFiles::new(rt),
        }
    }
}

impl<'t, R: rt::Files> Files for RowFiles<'t, R>
where
    R::File: Send,
{
    type Reader = Opened<'t, R::File>;

    fn is_read_once(&mut self, name: &str) -> bool {
        for file in &self.row.files {
            if file.name.as_slice() == name.as_bytes() {
                return false;
            }
        }
        self.host.is_read_once(name)
    }

    fn open(&mut self, name: &str) -> Result<Opened<'t, R::File>, Missing> {
        for file in &self.row.files {
            if file.name.as_slice() == name.as_bytes() {
                return Ok(Opened::OfRow(Pieces::new(&file.bytes, self.cut)));
            }
        }
        Ok(Opened::OfHost(self.host.open(name)?))
    }

    fn cause(&mut self, name: &str) -> Option<Cause> {
        self.host.cause(name)
    }
}

#[derive(Drop)]
pub enum Opened<'t, F> {
    OfRow(Pieces<'t>),
    OfHost(F),
}

impl<F: Read> Read for Opened<'_, F> {
    fn read(&mut self, buf: &mut [u8]) -> io::Result<usize> {
        match self {
            Opened::OfRow(pieces) => pieces.read(buf),
            Opened::OfHost(file) => file.read(buf),
        }
    }
}
