//! The entries that explain codes and words, and how they are printed.

ghost use Rattle.std.specs.Prelude.{◌≡◌, ◌++◌, OnOk, string_bytes};
ghost use Rattle.texts.specs.Printing.{column, entry_text, line_text, part_text};

use std::alloc::AllocError;

/// What is said of a code, or of a word of a report.
#[derive(Clone, Copy)]
pub struct Explanation {
    /// The code or the word, as it is printed.
    pub code: &'static str,
    pub name: &'static str,
    /// What the message of `lint` begins with where a trace or a tower file meets the code; else empty.
    pub message: &'static str,
    /// What becomes of the element, the trace or the run, in one line.
    pub outcome: &'static str,
    /// What the code says, in one line.
    pub what: &'static str,
    /// More of what the code says; may be empty.
    pub more: &'static str,
    /// What it comes from in most cases.
    pub mostly: &'static str,
    /// The tower file of an example that is a trace; else empty.
    pub tower: &'static str,
    /// A trace or a tower file that shows the code, as it is given to the program; or that there is none, in words.
    pub example: &'static str,
    /// How to mend it.
    pub mend: &'static str,
    /// Related codes; may be empty.
    pub see: &'static str,
}

pub(crate) const REFUSES: &str = "refuses one element; the trace goes on; status 3";

pub(crate) const ENDS_THE_RUN: &str = "ends the run with `regaudit: out of memory`; status 2";

pub(crate) const NOT_PRINTED: &str = "The code itself is not printed, and there is no report.";

pub(crate) const NO_EXAMPLE: &str = "none: no text leads here.";

/// The tower file of one safe register.
pub(crate) const ONE_SAFE: &str =
    "{:levels [{:name l :registers [{:name r :kind :safe :writers [0] :initial 0}]}]}";

/// The tower file of one atomic register with any writers.
pub(crate) const ANY_WRITERS: &str =
    "{:levels [{:name l :registers [{:name x :kind :atomic :writers :any}]}]}";

/// The tower file of one atomic register with one writer.
pub(crate) const ONE_WRITER: &str =
    "{:levels [{:name l :registers [{:name x :kind :atomic :writers [0]}]}]}";

/// Adds all that is said of a code.
pub fn push_entry(text: &mut String, entry: &Explanation) -> Result<(), AllocError>
    ensures { OnOk result (string_bytes text.new ≡ string_bytes text.old ++ entry_text entry.now) }
{
    push_headed(text, entry, entry.outcome)?;
    text.push_str("\n")?;
    push_part(text, "", entry.what)?;
    push_part(text, "", entry.more)?;
    text.push_str("\n")?;
    push_part(text, "Mostly:  ", entry.mostly)?;
    push_part(text, "Tower:   ", entry.tower)?;
    push_part(text, "Example: ", entry.example)?;
    push_part(text, "Mend:    ", entry.mend)?;
    push_part(text, "See:     ", entry.see)
}

/// Adds a line of a list: the code, the name and what the code says.
pub(crate) fn push_line(text: &mut String, entry: &Explanation) -> Result<(), AllocError>
    ensures { OnOk result (string_bytes text.new ≡ string_bytes text.old ++ line_text entry.now entry.now.what.now) }
{
    push_headed(text, entry, entry.what)
}

/// Adds a line with the code and the name of an entry, and a text.
fn push_headed(text: &mut String, entry: &Explanation, last: &str) -> Result<(), AllocError>
    ensures { OnOk result (string_bytes text.new ≡ string_bytes text.old ++ line_text entry.now last.now) }
{
    push_column(text, entry.code, 11)?;
    push_column(text, entry.name, 19)?;
    text.push_str(last)?;
    text.push_str("\n")
}

/// Adds a word, and blanks up to so many columns.
fn push_column(text: &mut String, word: &str, columns: usize) -> Result<(), AllocError>
    ensures { OnOk result (string_bytes text.new ≡ string_bytes text.old ++ column columns word.now) }
{
    text.push_str(word)?;
    for _blank in word.len()..columns {
        text.push_str(" ")?;
    }
    Ok(())
}

/// Adds a part of an entry after its head; nothing where the part is empty.
fn push_part(text: &mut String, head: &str, part: &str) -> Result<(), AllocError>
    ensures { OnOk result (string_bytes text.new ≡ string_bytes text.old ++ part_text head.now part.now) }
{
    if part.is_empty() {
        return Ok(());
    }
    text.push_str(head)?;
    text.push_str(part)?;
    text.push_str("\n")
}
