//! What is entered in a journal, and what a call returns.

use intervals::{Edit, Kind, RegId, Value};
use register_book::{Fault, Reply, Witness};

/// An edit that was answered with a receipt, as a journal keeps it: who submitted what, and the reply.
#[derive(Clone, Copy)]
pub struct Entry<'t> {
    pub feeder: u32,
    pub register: RegId,
    pub edit: Edit<'t>,
    pub reply: Reply,
}

/// An entry with its place in the journal of its shard, from 0.
#[derive(Clone, Copy)]
pub struct NumberedEntry<'t> {
    pub number: u64,
    pub entry: Entry<'t>,
}

/// What a feeder gets for an edit: where it was entered, the reply, and the change of the register's verdict, where it
/// made one. An edit that the register refused is entered too.
#[derive(Clone, Copy)]
pub struct Receipt {
    pub shard: u32,
    pub number: u64,
    pub reply: Reply,
    pub change: Option<VerdictChange>,
}

/// The answer to a question: the verdict on a register at that time.
#[derive(Clone, Copy)]
pub struct Answer<'t> {
    pub holds: bool,
    /// How many operations stand, unfinished ones among them.
    pub operations: u64,
    pub fault: Option<Fault>,
    pub witness: Option<Witness<'t>>,
    /// How many entries the journal of the register's shard has at that time.
    pub number: u64,
}

/// A change of the verdict on a register: it holds after an entry and failed before, or it fails and held before.
#[derive(Clone, Copy)]
pub struct VerdictChange {
    /// The number of the entry in the journal of the register's shard.
    pub number: u64,
    pub register: RegId,
    /// The kind that the register claims to be after the entry.
    pub kind: Kind,
    pub holds: bool,
    /// How many operations stand after the entry, unfinished ones among them.
    pub operations: u64,
    pub fault: Option<Fault>,
    /// The values that the operations of the fault read or wrote; none where it holds.
    pub values: [Option<Value>; 2],
}
