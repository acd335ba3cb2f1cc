//! All that is explained, in the order in which it is listed.

ghost use Rattle.std.specs.Prelude.{◌≡◌, ◌++◌, ℕ, List, OnOk, flat_map, option_map, string_bytes};
ghost use Rattle.std.specs.Str.{str_eq_ignore_ascii_case};
ghost use Rattle.texts.specs.Codes.{all_codes, all_named, code_among, code_by_name, code_of, codes_of, entry_among, entry_key, message_of_code, named_codes, named_codes_of, named_refusal_codes, note_codes};
ghost use Rattle.texts.specs.Printing.{AreLines, list_text};

use crate::entry::{Explanation, push_line};
use crate::form_codes::FORM_CODES;
use crate::hints::HINTS;
use crate::notes::NOTES;
use crate::pair_codes::PAIR_CODES;
use crate::register_codes::REGISTER_CODES;
use crate::report_words::REPORT_WORDS;
use crate::shard_codes::SHARD_CODES;
use crate::text_codes::TEXT_CODES;
use crate::tower_codes::TOWER_CODES;
use std::alloc::AllocError;

/// What is said of a code or of a word of a report, by itself or by the name of the code, in capitals or not; none
/// where the word is neither.
pub fn explanation_of(word: &str) -> Option<&'static Explanation>
    ensures { option_map (λ entry. entry.now.code.now) result ≡ code_of word.now }
{
    match entry_of(word) {
        Some(entry) => Some(entry),
        None => entry_named(word),
    }
}

/// What the message of `lint` begins with for a code; empty where it is none that a trace or a tower file meets.
pub fn message_of_code(code: &str) -> &'static str
    ensures { result.now ≡ message_of_code code.now }
{
    let parts: [&'static [Explanation]; 9] = parts();
    match find_in(parts.as_slice(), code, false) {
        Some(entry) => entry.message,
        None => "",
    }
}

/// What is said of the code of a note, in capitals or not; none where it is none.
pub fn note_of(word: &str) -> Option<&'static Explanation>
    ensures { option_map (λ entry. entry.now.code.now) result ≡ code_among note_codes word.now }
{
    find_among(notes(), word, false)
}

/// What is said of the codes of refused elements: of their form, of the pairing and of a register.
pub fn refusals() -> [&'static [Explanation]; 3]
    ensures { flat_map (λ part. named_codes_of part.now) result ≡ named_refusal_codes }
{
    [&FORM_CODES, &PAIR_CODES, &REGISTER_CODES]
}

fn notes() -> &'static [Explanation]
    ensures { codes_of result.now ≡ note_codes }
{
    &NOTES
}

/// The entries, by what they are about.
fn parts() -> [&'static [Explanation]; 9]
    ensures codes { flat_map (λ part. codes_of part.now) result ≡ all_codes }
    ensures named { flat_map (λ part. named_codes_of part.now) result ≡ all_named }
{
    [
        &TEXT_CODES,
        &FORM_CODES,
        &PAIR_CODES,
        &REGISTER_CODES,
        &TOWER_CODES,
        &SHARD_CODES,
        &NOTES,
        &HINTS,
        &REPORT_WORDS,
    ]
}

/// The entries of codes, which have names of one word.
fn code_parts() -> [&'static [Explanation]; 8]
    ensures { flat_map (λ part. named_codes_of part.now) result ≡ named_codes }
{
    [
        &TEXT_CODES,
        &FORM_CODES,
        &PAIR_CODES,
        &REGISTER_CODES,
        &TOWER_CODES,
        &SHARD_CODES,
        &NOTES,
        &HINTS,
    ]
}

fn entry_of(code: &str) -> Option<&'static Explanation>
    ensures { option_map (λ entry. entry.now.code.now) result ≡ code_among all_codes code.now }
{
    let parts: [&'static [Explanation]; 9] = parts();
    find_in(parts.as_slice(), code, false)
}

fn entry_named(name: &str) -> Option<&'static Explanation>
    ensures { option_map (λ entry. entry.now.code.now) result ≡ code_by_name named_codes name.now }
{
    let parts: [&'static [Explanation]; 8] = code_parts();
    find_in(parts.as_slice(), name, true)
}

/// Looks for an entry by its name, or by its code.
fn find_in(
    parts: &[&'static [Explanation]],
    word: &str,
    by_name: bool,
) -> Option<&'static Explanation>
    ensures { option_map (λ entry. entry.now) result ≡ entry_among by_name (flat_map (λ part. part.now) parts.now) word.now }
{
    for part in parts {
        if let Some(entry) = find_among(part, word, by_name) {
            return Some(entry);
        }
    }
    None
}

fn find_among(
    entries: &'static [Explanation],
    word: &str,
    by_name: bool,
) -> Option<&'static Explanation>
    ensures { option_map (λ entry. entry.now) result ≡ entry_among by_name entries.now word.now }
{
    for entry in entries {
        if is_sought(entry, word, by_name) {
            return Some(entry);
        }
    }
    None
}

fn is_sought(entry: &Explanation, word: &str, by_name: bool) -> bool
    ensures { result ≡ str_eq_ignore_ascii_case (entry_key by_name entry.now) word.now }
{
    if by_name {
        entry.name.eq_ignore_ascii_case(word)
    } else {
        entry.code.eq_ignore_ascii_case(word)
    }
}

/// Adds a line for each code and each word: itself, its name and what it says.
pub fn push_list(text: &mut String) -> Result<(), AllocError>
    ensures { OnOk result ((lines : List ℕ) × AreLines all_codes lines × (string_bytes text.new ≡ string_bytes text.old ++ lines)) }
{
    let parts: [&'static [Explanation]; 9] = parts();
    push_parts(text, parts.as_slice())
}

fn push_parts(text: &mut String, parts: &[&'static [Explanation]]) -> Result<(), AllocError>
    ensures { OnOk result (string_bytes text.new ≡ string_bytes text.old ++ flat_map (λ part. list_text part.now) parts.now) }
{
    for part in parts {
        push_lines(text, part)?;
    }
    Ok(())
}

fn push_lines(text: &mut String, entries: &[Explanation]) -> Result<(), AllocError>
    ensures { OnOk result (string_bytes text.new ≡ string_bytes text.old ++ list_text entries.now) }
{
    for entry in entries {
        push_line(text, entry)?;
    }
    Ok(())
}
