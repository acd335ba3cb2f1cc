//! The lines of a summary on the registers that fail.

ghost use Rattle.std.specs.Prelude.{◌≡◌, ◌++◌, ◌∷◌, [], IfOk, OnOk, codes, flat_map, string_bytes, take};
ghost use Rattle.report.specs.Failing.{blamed_line, culprit_text, first_failing, has_levels, is_other, level_of, level_text, lines_text, more_text, other_line, other_text, others_of, over_part_text, part_name_text, parts_of, reason_text, register_text};

use crate::culprit::is_culprit;
use crate::finding::{Finding, fails};
use crate::findings::RunFindings;
use crate::listing::level_name;
use intervals::RegId;
use phrases::{kind_word, name_of, push_fault, push_printed};
use std::alloc::{AllocError, Global};
use tower_file::Tower;

/// How many culprits have a line, and how many of the other registers that fail.
const LINES: usize = 20;

/// The lines of the culprits.
pub fn push_blamed(text: &mut String, findings: &RunFindings) -> Result<(), AllocError>
    ensures { OnOk result (string_bytes text.new ≡ string_bytes text.old ++ lines_text (blamed_line findings.now.tower.now findings.now.each.now) findings.now.culprits.now) }
{
    push_blamed_lines(text, findings, at_most(findings.culprits, LINES))?;
    push_more_lines(text, findings.culprits.len())
}

/// The lines of the registers that fail and are no culprits.
pub fn push_others(
    text: &mut String,
    findings: &RunFindings,
    others: &[RegId],
) -> Result<(), AllocError>
    ensures { OnOk result (string_bytes text.new ≡ string_bytes text.old ++ lines_text (other_line findings.now.tower.now findings.now.each.now findings.now.failing.now) others.now) }
{
    push_other_lines(text, findings, at_most(others, LINES))?;
    push_more_lines(text, others.len())
}

/// The registers that fail and are no culprits, by number.
pub fn others_in(alloc: Global, tower: &Tower, failing: &[bool]) -> Result<Vec<RegId>, AllocError>
    ensures { IfOk result (λ others. others.items ≡ others_of tower.now failing.now) }
{
    (0..tower.len() as u32)
        .map(|number| RegId(number))
        .filter(|id| is_other(tower, failing, *id))
        .collect(alloc)
}

fn is_other(tower: &Tower, failing: &[bool], id: RegId) -> bool
    ensures { result ≡ is_other tower.now failing.now id }
{
    fails(failing, id.0 as usize) && !is_culprit(tower, failing, id)
}

/// The first items, at most so many.
pub fn at_most<T>(items: &[T], most: usize) -> &[T]
    ensures { result.now ≡ take most items.now }
{
    if items.len() <= most {
        items
    } else {
        &items[..most]
    }
}

fn push_more_lines(text: &mut String, many: usize) -> Result<(), AllocError>
    ensures { OnOk result (string_bytes text.new ≡ string_bytes text.old ++ more_text (codes "  and ") 20 many (codes " more" ++ 10 ∷ [])) }
{
    push_more(text, "  and ", LINES, many, " more\n")
}

/// How many there are beyond the most that are named, with a text before and one after; nothing if there are no more.
pub fn push_more(
    text: &mut String,
    before: &str,
    most: usize,
    many: usize,
    after: &str,
) -> Result<(), AllocError>
    ensures { OnOk result (string_bytes text.new ≡ string_bytes text.old ++ more_text before.now most many after.now) }
{
    if many <= most {
        return Ok(());
    }
    text.push_str(before)?;
    write!(text, "{}", many - most)?;
    text.push_str(after)
}

fn push_blamed_lines(
    text: &mut String,
    findings: &RunFindings,
    ids: &[RegId],
) -> Result<(), AllocError>
    ensures { OnOk result (string_bytes text.new ≡ string_bytes text.old ++ flat_map (blamed_line findings.now.tower.now findings.now.each.now) ids.now) }
{
    for id in ids {
        push_blamed_line(text, findings, *id)?;
    }
    Ok(())
}

fn push_blamed_line(text: &mut String, findings: &RunFindings, id: RegId) -> Result<(), AllocError>
    ensures { OnOk result (string_bytes text.new ≡ string_bytes text.old ++ blamed_line findings.now.tower.now findings.now.each.now id) }
{
    match findings.each.get(id.0 as usize) {
        Some(finding) => push_blamed_text(text, findings.tower, id, finding),
        None => Ok(()),
    }
}

fn push_blamed_text(
    text: &mut String,
    tower: &Tower,
    id: RegId,
    finding: &Finding,
) -> Result<(), AllocError>
    ensures { OnOk result (string_bytes text.new ≡ string_bytes text.old ++ culprit_text tower.now id finding.now) }
{
    text.push_str("  culprit")?;
    push_register(text, tower, id, finding)?;
    push_reason(text, finding)
}

fn push_reason(text: &mut String, finding: &Finding) -> Result<(), AllocError>
    ensures { OnOk result (string_bytes text.new ≡ string_bytes text.old ++ reason_text finding.now) }
{
    match &finding.witness {
        Some(witness) => push_fault(text, witness.ids()),
        None => text.push_str("\n"),
    }
}

fn push_other_lines(
    text: &mut String,
    findings: &RunFindings,
    ids: &[RegId],
) -> Result<(), AllocError>
    ensures { OnOk result (string_bytes text.new ≡ string_bytes text.old ++ flat_map (other_line findings.now.tower.now findings.now.each.now findings.now.failing.now) ids.now) }
{
    for id in ids {
        push_other_line(text, findings, *id)?;
    }
    Ok(())
}

fn push_other_line(text: &mut String, findings: &RunFindings, id: RegId) -> Result<(), AllocError>
    ensures { OnOk result (string_bytes text.new ≡ string_bytes text.old ++ other_line findings.now.tower.now findings.now.each.now findings.now.failing.now id) }
{
    match findings.each.get(id.0 as usize) {
        Some(finding) => push_other_text(text, findings.tower, findings.failing, id, finding),
        None => Ok(()),
    }
}

fn push_other_text(
    text: &mut String,
    tower: &Tower,
    failing: &[bool],
    id: RegId,
    finding: &Finding,
) -> Result<(), AllocError>
    ensures { OnOk result (string_bytes text.new ≡ string_bytes text.old ++ other_text tower.now failing.now id finding.now) }
{
    push_register(text, tower, id, finding)?;
    push_over(text, tower, first_failing(failing, parts_of(tower, id)))
}

/// Says over which part a register fails.
fn push_over(text: &mut String, tower: &Tower, part: Option<RegId>) -> Result<(), AllocError>
    ensures { OnOk result (string_bytes text.new ≡ string_bytes text.old ++ over_part_text tower.now part) }
{
    text.push_str("  fails over ")?;
    push_part_end(text, tower, part)
}

fn push_part_end(text: &mut String, tower: &Tower, part: Option<RegId>) -> Result<(), AllocError>
    ensures { OnOk result (string_bytes text.new ≡ string_bytes text.old ++ part_name_text tower.now part ++ 10 ∷ []) }
{
    push_part(text, tower, part)?;
    text.push_str("\n")
}

fn push_part(text: &mut String, tower: &Tower, part: Option<RegId>) -> Result<(), AllocError>
    ensures { OnOk result (string_bytes text.new ≡ string_bytes text.old ++ part_name_text tower.now part) }
{
    match part {
        Some(part) => push_printed(text, name_of(tower, part)),
        None => Ok(()),
    }
}

/// The first part that fails.
fn first_failing(failing: &[bool], parts: &[RegId]) -> Option<RegId>
    ensures { result ≡ first_failing failing.now parts.now }
{
    parts
        .iter()
        .copied()
        .find(|part| fails(failing, part.0 as usize))
}

fn parts_of(tower: &Tower, id: RegId) -> &[RegId]
    ensures { result.now ≡ parts_of tower.now.registers id }
{
    match tower.parts_of(id) {
        Some(parts) => parts,
        None => &[],
    }
}

/// A register: its level, its name, its kind and how many of its operations stand.
fn push_register(
    text: &mut String,
    tower: &Tower,
    id: RegId,
    finding: &Finding,
) -> Result<(), AllocError>
    ensures { OnOk result (string_bytes text.new ≡ string_bytes text.old ++ register_text tower.now id finding.now) }
{
    push_level(text, tower, id)?;
    text.push_str("  ")?;
    push_printed(text, name_of(tower, id))?;
    text.push_str("  ")?;
    text.push_str(kind_word(finding.kind))?;
    write!(text, "  {}", finding.operations)
}

/// The name of a register's level, where the tower has more than one.
fn push_level(text: &mut String, tower: &Tower, id: RegId) -> Result<(), AllocError>
    ensures { OnOk result (string_bytes text.new ≡ string_bytes text.old ++ level_text tower.now id) }
{
    if !has_levels(tower) {
        return Ok(());
    }
    text.push_str("  ")?;
    push_printed(text, level_name(tower, level_of(tower, id)))
}

fn has_levels(tower: &Tower) -> bool
    ensures { result ≡ has_levels tower.now }
{
    match tower.level_name(1) {
        Some(_) => true,
        None => false,
    }
}

fn level_of(tower: &Tower, id: RegId) -> usize
    ensures { result ≡ level_of tower.now.registers id }
{
    match tower.level_of(id) {
        Some(level) => level,
        None => 0,
    }
}
