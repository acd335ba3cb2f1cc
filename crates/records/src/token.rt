//! The tokens of a record.

use intervals::OpId;

/// A token of a record: a bracket, the key of a field, or a value.
#[derive(Clone, Copy)]
pub enum RecordToken<'a> {
    /// A record begins.
    BeginRecord,
    /// A record ends.
    EndRecord,
    /// A list begins.
    BeginList,
    /// A list ends.
    EndList,
    /// The name of a field.
    Key(&'static str),
    /// One of a fixed set of values: a string in JSON, a keyword in EDN.
    Word(&'static str),
    /// A name or a lent text, as it is printed.
    Text(&'a [u8]),
    /// An operation, by its id.
    Id(OpId),
    /// An element: the number of its trace, and its place there.
    Place(u64, u64),
    Number(u64),
    Integer(i64),
    Flag(bool),
    /// No value: `null` in JSON, `nil` in EDN.
    Nothing,
}
