//! Names, ids and words as they are printed.

ghost use Rattle.std.specs.Prelude.{◌≡◌, ◌++◌, OnOk, string_bytes};
ghost use Rattle.phrases.specs.Names.{printed, printed_char, kind_word, verdict_word, id_text, register_name};

use bstr::ByteSlice;
use intervals::{Kind, OpId, RegId};
use std::alloc::AllocError;
use tower_file::Tower;

/// A name or a lent text as it is printed. Where memory is refused, the text may have got a prefix of it.
pub fn push_printed(text: &mut String, name: &[u8]) -> Result<(), AllocError>
    ensures { OnOk result (string_bytes text.new ≡ string_bytes text.old ++ printed name.now) }
{
    for character in name.chars() {
        text.push(printed_char(character))?;
    }
    Ok(())
}

/// A character as it is printed: a space for one below U+0020.
pub fn printed_char(character: char) -> char
    ensures { result ≡ printed_char character }
{
    if character < ' ' { ' ' } else { character }
}

/// A kind as it is printed: safe, regular or atomic.
pub fn kind_word(kind: Kind) -> &'static str
    ensures { result.now ≡ kind_word kind }
{
    match kind {
        Kind::Safe => "safe",
        Kind::Regular => "regular",
        Kind::Atomic => "atomic",
    }
}

/// A verdict as it is printed: holds or fails.
pub fn verdict_word(holds: bool) -> &'static str
    ensures { result.now ≡ verdict_word holds }
{
    if holds { "holds" } else { "fails" }
}

/// The id of an operation: the number of its trace, a colon, and the place of its invocation.
pub fn push_id(text: &mut String, id: OpId) -> Result<(), AllocError>
    ensures { OnOk result (string_bytes text.new ≡ string_bytes text.old ++ id_text id) }
{
    write!(text, "{}:{}", id.feeder, id.event)
}

/// The name of a register, empty where there is none of that number.
pub fn name_of(tower: &Tower, id: RegId) -> &[u8]
    ensures { result.now ≡ register_name tower.now.registers id }
{
    match tower.name(id) {
        Some(name) => name,
        None => b"",
    }
}
