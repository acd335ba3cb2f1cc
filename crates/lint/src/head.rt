//! Where a finding is, and what it says.

ghost use Rattle.std.specs.Prelude.{◌≡◌, ◌++◌, OnOk, string_bytes};
ghost use Rattle.lint.specs.Head.{finding_head_text, position_text};

use crate::finding::Amiss;
use crate::message::push_message;
use crate::source::SourceText;
use phrases::push_printed;
use places::Location;
use std::alloc::AllocError;

/// The file, the line and the column: `run.edn:3:1`.
pub fn push_place(text: &mut String, source: &SourceText, spot: &Location) -> Result<(), AllocError>
    ensures { OnOk result (string_bytes text.new ≡ string_bytes text.old ++ position_text source.now.name.now spot.now) }
{
    push_printed(text, source.name.as_bytes())?;
    write!(text, ":{}:{}", spot.place.line, spot.place.column)
}

/// The grade, the code and the message: `warning[X7]: a write that overlaps the write 0:0`.
pub fn push_head(text: &mut String, what: &Amiss) -> Result<(), AllocError>
    ensures { OnOk result (string_bytes text.new ≡ string_bytes text.old ++ finding_head_text what.now) }
{
    text.push_str(what.grade().word())?;
    text.push_str("[")?;
    text.push_str(what.code())?;
    text.push_str("]: ")?;
    push_message(text, what)
}
