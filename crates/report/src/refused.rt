//! What a summary says of refusals.

ghost use Rattle.std.specs.Prelude.{◌≡◌, ◌≤◌, ◌++◌, ◌∷◌, [], IfOk, OnOk, codes, count_by, flat_map, length, string_bytes};
ghost use Rattle.std.specs.List.{insert};
ghost use Rattle.report.specs.Refused.{RefusedCode, by_frequency, code_text, codes_text, first_in, first_refused, is_refused_by, is_refused_line, put_all_by_frequency, put_by_frequency, refused, refused_by, refused_codes, refused_text};
ghost use Rattle.report.specs.Tallied.{tallied, tallied_code};
ghost use Rattle.texts.specs.Codes.{code_in, named_codes_of, named_refusal_codes};

use crate::doubted::push_place;
use logs::{Line, Log, What};
use std::alloc::{AllocError, Global};
use texts::{Explanation, refusals};

/// A code by which elements were refused, its name, and how many they are.
#[derive(Clone, Copy)]
pub struct CodeTally {
    pub code: &'static str,
    pub name: &'static str,
    pub many: u128,
}

/// The line of the refusals: how many, by code, the most frequent first, and where the first of each is.
pub fn push_refused(text: &mut String, alloc: Global, logs: &[Log]) -> Result<(), AllocError>
    ensures { OnOk result (string_bytes text.new ≡ string_bytes text.old ++ refused_text logs.now) }
{
    let many = count_refused(logs);
    if many == 0 {
        return Ok(());
    }
    let tallies = tallies_of(alloc, logs)?;
    write!(text, "refused {many}")?;
    push_tallies(text, logs, &tallies)?;
    text.push_str("\n")
}

/// The codes by which elements were refused, the most frequent first.
pub fn tallies_of(alloc: Global, logs: &[Log]) -> Result<Vec<CodeTally>, AllocError>
    ensures { IfOk result (λ tallies. tallied tallies.items ≡ by_frequency (refused_codes logs.now named_refusal_codes)) }
{
    let parts: [&'static [Explanation]; 3] = refusals();
    let mut tallies = Vec::new(alloc);
    add_parts(&mut tallies, logs, parts.as_slice())?;
    Ok(tallies)
}

fn add_parts(
    tallies: &mut Vec<CodeTally>,
    logs: &[Log],
    parts: &[&'static [Explanation]],
) -> Result<(), AllocError>
    ensures { OnOk result (tallied tallies.new.items ≡ put_all_by_frequency (refused_codes logs.now (flat_map (λ part. named_codes_of part.now) parts.now)) (tallied tallies.old.items)) }
{
    for part in parts {
        add_codes(tallies, logs, part)?;
    }
    Ok(())
}

fn add_codes(
    tallies: &mut Vec<CodeTally>,
    logs: &[Log],
    entries: &'static [Explanation],
) -> Result<(), AllocError>
    ensures { OnOk result (tallied tallies.new.items ≡ put_all_by_frequency (refused_codes logs.now (named_codes_of entries.now)) (tallied tallies.old.items)) }
{
    for entry in entries {
        add_code(tallies, logs, entry)?;
    }
    Ok(())
}

/// Puts a code in its place, where elements were refused by it.
fn add_code(
    tallies: &mut Vec<CodeTally>,
    logs: &[Log],
    entry: &'static Explanation,
) -> Result<(), AllocError>
    ensures { OnOk result (tallied tallies.new.items ≡ put_all_by_frequency (refused_codes logs.now (code_in entry.now ∷ [])) (tallied tallies.old.items)) }
{
    let many = count_refused_by(logs, entry.code);
    if many == 0 {
        return Ok(());
    }
    let at = place_of(tallies, many);
    tallies.insert(
        at,
        CodeTally {
            code: entry.code,
            name: entry.name,
            many,
        },
    )?;
    Ok(())
}

/// Where a code of so many elements has its place: before the first code of fewer.
fn place_of(tallies: &[CodeTally], many: u128) -> usize
    ensures within { result ≤ length tallies.now }
    ensures put { (one : RefusedCode) → one.many ≡ many → put_by_frequency one (tallied tallies.now) ≡ insert (tallied tallies.now) result one }
{
    for at in 0..tallies.len() {
        if tallies[at].many < many {
            return at;
        }
    }
    tallies.len()
}

/// What is said of each of these codes.
fn push_tallies(text: &mut String, logs: &[Log], tallies: &[CodeTally]) -> Result<(), AllocError>
    ensures { OnOk result (string_bytes text.new ≡ string_bytes text.old ++ codes_text logs.now (codes ": ") (tallied tallies.now)) }
{
    let mut before = ": ";
    for tally in tallies {
        text.push_str(before)?;
        push_tally(text, logs, tally)?;
        before = ", ";
    }
    Ok(())
}

fn push_tally(text: &mut String, logs: &[Log], tally: &CodeTally) -> Result<(), AllocError>
    ensures { OnOk result (string_bytes text.new ≡ string_bytes text.old ++ code_text logs.now (tallied_code tally.now)) }
{
    text.push_str(tally.code)?;
    text.push_str(" ")?;
    text.push_str(tally.name)?;
    let many = tally.many;
    write!(text, " {many}")?;
    push_place(text, first_refused(logs, tally.code))
}

/// How many elements were refused.
pub fn count_refused(logs: &[Log]) -> u128
    ensures { result ≡ refused logs.now }
{
    logs.iter().map(|log| count_in(log) as u128).sum()
}

fn count_in(log: &Log) -> usize
    ensures { result ≡ count_by is_refused_line log.now.lines.items }
{
    log.lines.iter().filter(|line| is_refused(line)).count()
}

fn is_refused(line: &Line) -> bool
    ensures { result ≡ is_refused_line line.now }
{
    match line.what {
        What::Refused(_) => true,
        What::Answered(..) => false,
    }
}

fn count_refused_by(logs: &[Log], code: &str) -> u128
    ensures { result ≡ refused_by code.now logs.now }
{
    logs.iter().map(|log| count_by_in(log, code) as u128).sum()
}

fn count_by_in(log: &Log, code: &str) -> usize
    ensures { result ≡ count_by (is_refused_by code.now) log.now.lines.items }
{
    log.lines
        .iter()
        .filter(|line| is_refused_by(line, code))
        .count()
}

/// The first element that was refused by this code: the number of its trace and its place there.
pub fn first_refused(logs: &[Log], code: &str) -> Option<(usize, u64)>
    ensures { result ≡ first_refused code.now 0 logs.now }
{
    for feeder in 0..logs.len() {
        if let Some(event) = first_in(&logs[feeder], code) {
            return Some((feeder, event));
        }
    }
    None
}

fn first_in(log: &Log, code: &str) -> Option<u64>
    ensures { result ≡ first_in code.now log.now }
{
    let line = log.lines.iter().find(|line| is_refused_by(line, code))?;
    Some(line.event)
}

fn is_refused_by(line: &Line, code: &str) -> bool
    ensures { result ≡ is_refused_by code.now line.now }
{
    match &line.what {
        What::Refused(left_out) => left_out.code.code() == code,
        What::Answered(..) => false,
    }
}
