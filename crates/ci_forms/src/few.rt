//! What is too few, in the lines of a summary.

ghost use Rattle.std.specs.Prelude.{◌≡◌, IfOk, string_bytes};
ghost use Rattle.report.specs.Few.{few_text};
ghost use Rattle.ci_forms.specs.Facts.{few_of_all, few_of_each};

use report::{Finding, Least, push_few};
use std::alloc::{AllocError, Global};

/// The lines of what is too few.
pub fn few_lines(alloc: Global, findings: &[Finding], least: Least) -> Result<String, AllocError>
    ensures { IfOk result (λ text. string_bytes text ≡ few_text least findings.now) }
{
    let mut text = String::new(alloc);
    push_few(&mut text, least, findings)?;
    Ok(text)
}

/// The line of what is too few in all registers together, or nothing.
pub fn few_of_all(alloc: Global, findings: &[Finding], least: Least) -> Result<String, AllocError>
    ensures { IfOk result (λ text. string_bytes text ≡ few_of_all least findings.now) }
{
    few_lines(
        alloc,
        findings,
        Least {
            all: least.all,
            each: 0,
        },
    )
}

/// The line of what is too few in some registers, or nothing.
pub fn few_of_each(alloc: Global, findings: &[Finding], least: Least) -> Result<String, AllocError>
    ensures { IfOk result (λ text. string_bytes text ≡ few_of_each least findings.now) }
{
    few_lines(
        alloc,
        findings,
        Least {
            all: 0,
            each: least.each,
        },
    )
}
