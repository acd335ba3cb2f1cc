//! The line of a register's verdict.

ghost use Rattle.std.specs.Prelude.{◌≡◌, ◌++◌, OnOk, string_bytes};
ghost use Rattle.phrases.specs.Register.{register_line};

use crate::names::{kind_word, push_printed, verdict_word};
use intervals::Kind;
use std::alloc::AllocError;

/// The line of a register. Where memory is refused, the text may have got a prefix of it.
pub fn push_register(
    text: &mut String,
    name: &[u8],
    kind: Kind,
    holds: bool,
    operations: u64,
) -> Result<(), AllocError>
    ensures { OnOk result (string_bytes text.new ≡ string_bytes text.old ++ register_line name.now kind holds operations) }
{
    text.push_str("register ")?;
    push_printed(text, name)?;
    text.push_str(" ")?;
    text.push_str(kind_word(kind))?;
    text.push_str(" ")?;
    text.push_str(verdict_word(holds))?;
    write!(text, " {operations}\n")
}
