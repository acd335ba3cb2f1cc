//! What a summary says where fewer operations stand than were asked for.

ghost use Rattle.std.specs.Prelude.{◌≡◌, ◌++◌, OnOk, count_by, length, string_bytes};
ghost use Rattle.report.specs.Few.{few_each_line, few_each_words, few_line, few_text, few_words, has_fewer, operations};

use crate::finding::Finding;
use std::alloc::AllocError;

pub const TOO_FEW: &str = "too few operations stand: ";

pub const TOO_FEW_IN: &str = "too few operations stand in ";

pub const LEAST: &str = ", where --least is ";

pub const LEAST_EACH: &str = " registers, where --least-each is ";

/// How many operations have to stand, at least.
#[derive(Clone, Copy)]
pub struct Least {
    /// In all registers together.
    pub all: u64,
    /// In each register.
    pub each: u64,
}

/// Adds the lines of what is too few: in all registers together, and in how many of them.
pub fn push_few(text: &mut String, least: Least, findings: &[Finding]) -> Result<(), AllocError>
    ensures { OnOk result (string_bytes text.new ≡ string_bytes text.old ++ few_text least findings.now) }
{
    push_few_of_all(text, findings, least.all)?;
    push_few_of_each(text, findings, least.each)
}

fn push_few_of_all(text: &mut String, findings: &[Finding], least: u64) -> Result<(), AllocError>
    ensures { OnOk result (string_bytes text.new ≡ string_bytes text.old ++ few_line (operations findings.now) least) }
{
    push_few_line(text, count_operations(findings), u128::from(least))
}

fn push_few_of_each(text: &mut String, findings: &[Finding], least: u64) -> Result<(), AllocError>
    ensures { OnOk result (string_bytes text.new ≡ string_bytes text.old ++ few_each_line (count_by (has_fewer least) findings.now) (length findings.now) least) }
{
    push_few_each(text, count_short(findings, least), findings.len(), least)
}

/// How many operations stand in all registers together, by what is found of them.
pub fn count_operations(findings: &[Finding]) -> u128
    ensures { result ≡ operations findings.now }
{
    findings
        .iter()
        .map(|finding| u128::from(finding.operations))
        .sum()
}

/// In how many registers fewer operations stand.
fn count_short(findings: &[Finding], least: u64) -> usize
    ensures { result ≡ count_by (has_fewer least) findings.now }
{
    findings
        .iter()
        .filter(|finding| finding.operations < least)
        .count()
}

fn push_few_line(text: &mut String, many: u128, least: u128) -> Result<(), AllocError>
    ensures { OnOk result (string_bytes text.new ≡ string_bytes text.old ++ few_line many least) }
{
    if many < least {
        push_few_words(text, many, least)
    } else {
        Ok(())
    }
}

fn push_few_words(text: &mut String, many: u128, least: u128) -> Result<(), AllocError>
    ensures { OnOk result (string_bytes text.new ≡ string_bytes text.old ++ few_words many least) }
{
    text.push_str(TOO_FEW)?;
    write!(text, "{many}")?;
    text.push_str(LEAST)?;
    write!(text, "{least}\n")
}

fn push_few_each(text: &mut String, short: usize, many: usize, least: u64) -> Result<(), AllocError>
    ensures { OnOk result (string_bytes text.new ≡ string_bytes text.old ++ few_each_line short many least) }
{
    if short == 0 {
        Ok(())
    } else {
        push_few_each_words(text, short, many, least)
    }
}

fn push_few_each_words(
    text: &mut String,
    short: usize,
    many: usize,
    least: u64,
) -> Result<(), AllocError>
    ensures { OnOk result (string_bytes text.new ≡ string_bytes text.old ++ few_each_words short many least) }
{
    text.push_str(TOO_FEW_IN)?;
    write!(text, "{short} of {many}")?;
    text.push_str(LEAST_EACH)?;
    write!(text, "{least}\n")
}
