//! Prints findings in one of the forms.

ghost use Rattle.std.specs.Prelude.{◌≡◌, ◌++◌, OnOk, length, string_bytes};
ghost use Rattle.lint.specs.Short.{short_text};

use crate::finding::Findings;
use crate::github::push_github;
use crate::human::push_human;
use crate::json::push_json;
use crate::short::push_short;
use crate::source::SourceText;
use std::alloc::{AllocError, Global};

/// How findings are printed.
#[derive(Clone, Copy)]
pub enum Format {
    /// With the lines that they are in, for people: only the first so many of each code; 0 is all.
    Human(usize),
    /// A line for each, for editors.
    Short,
    /// A workflow command for each, which annotates a file.
    Github,
    /// A JSON record for each.
    Json,
}

/// Adds the findings by trace and place.
pub fn push_findings(
    text: &mut String,
    alloc: Global,
    sources: &[SourceText],
    found: &Findings,
    form: Format,
) -> Result<(), AllocError>
    requires each { length sources.now ≡ length found.now.traces.items }
    ensures short { OnOk result (form ≡ Format.Short → string_bytes text.new ≡ string_bytes text.old ++ short_text sources.now found.now.traces.items) }
{
    match form {
        Format::Human(most) => push_human(text, alloc, sources, found, most),
        Format::Short => push_short(text, sources, found),
        Format::Github => push_github(text, sources, found),
        Format::Json => push_json(text, alloc, sources, found),
    }
}
