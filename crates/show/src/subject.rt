//! The register that a picture is of.

use intervals::{Initial, Kind, Op, OpId};
use register_book::Witness;

/// A register with its operations: its name, its kind, its value at first, the operations that stand in the order of
/// their appends with some places empty, and the witness, if it fails. The order has all operations, in an order that
/// explains the reads; it is empty where there is none. The notes are sentences, a line each, that come after those of
/// the picture.
#[derive(Clone, Copy)]
pub struct Subject<'a, 't> {
    pub name: &'a [u8],
    pub kind: Kind,
    pub initial: Initial,
    pub slots: &'a [Option<Op<'t>>],
    pub witness: Option<Witness<'t>>,
    pub order: &'a [OpId],
    /// Whether its failure rests on elements that were left out.
    pub in_doubt: bool,
    pub notes: &'a str,
}
