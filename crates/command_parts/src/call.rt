//! The words of a call that ask for a tower, a field of moments and traces.

ghost use Rattle.std.specs.Prelude.{◌≡◌, ◌++◌, OnOk, flat_map, map, string_bytes};
ghost use Rattle.words.specs.Words.{asked_tower};
ghost use Rattle.command_parts.specs.Call.{moment_words, option_words, tower_words, trace_word};

use intervals::Kind;
use jepsen_form::MomentField;
use phrases::{kind_word, push_printed};
use std::alloc::AllocError;
use words::TowerWord;

/// Adds the words that ask for a tower; that of atomic registers is asked for by none.
pub fn push_tower_words(text: &mut String, tower: TowerWord) -> Result<(), AllocError>
    ensures { OnOk result (string_bytes text.new ≡ string_bytes text.old ++ tower_words (asked_tower tower.entry)) }
{
    match tower {
        TowerWord::File(name) => push_option(text, "tower", name),
        TowerWord::Each(Kind::Atomic) => Ok(()),
        TowerWord::Each(kind) => push_option(text, "each", kind_word(kind)),
    }
}

/// Adds the words that ask for a field of moments; `:index` is asked for by none.
pub fn push_moment_words(text: &mut String, moments: MomentField) -> Result<(), AllocError>
    ensures { OnOk result (string_bytes text.new ≡ string_bytes text.old ++ moment_words moments) }
{
    match moments {
        MomentField::Index => Ok(()),
        MomentField::Time => push_option(text, "moment", "time"),
    }
}

/// Adds an option with its value, after a blank.
pub fn push_option(text: &mut String, name: &str, value: &str) -> Result<(), AllocError>
    ensures { OnOk result (string_bytes text.new ≡ string_bytes text.old ++ option_words name.now value.now) }
{
    text.push_str(" --")?;
    text.push_str(name)?;
    text.push_str(" ")?;
    push_printed(text, value.as_bytes())
}

/// Adds the names of traces, each after a blank.
pub fn push_trace_words(text: &mut String, traces: &[&str]) -> Result<(), AllocError>
    ensures { OnOk result (string_bytes text.new ≡ string_bytes text.old ++ flat_map trace_word (map (λ name. name.now) traces.now)) }
{
    for name in traces {
        text.push_str(" ")?;
        push_printed(text, name.as_bytes())?;
    }
    Ok(())
}
