//! Texts that come in pieces.

use std::io::{self, Read};

/// The greatest length of the first piece of a text, and of each later one. Neither is 0.
#[derive(Clone, Copy)]
pub struct Cut {
    pub first: usize,
    pub later: usize,
}

impl Cut {
    pub const WHOLE: Cut = Cut {
        first: usize::MAX,
        later: usize::MAX,
    };

    pub const BYTES: Cut = Cut { first: 1, later: 1 };

    /// Two pieces, cut at a place that is not the beginning.
    pub fn at(place: usize) -> Cut {
        Cut {
            first: place,
            later: usize::MAX,
        }
    }
}

/// A text that is read piece by piece.
#[derive(Drop)]
pub struct Pieces<'t> {
    left: &'t [u8],
    cut: Cut,
}

impl<'t> Pieces<'t> {
    pub fn new(text: &'t [u8], cut: Cut) -> Self {
        Pieces { left: text, cut }
    }
}

impl Read for Pieces<'_> {
    fn read(&mut self, buf: &mut [u8]) -> io::Result<usize> {
        let most = self.cut.first.min(buf.len());
        self.cut.first = self.cut.later;
        self.left.read(&mut buf[..most])
    }
}
