//! Whether registers fail alike.

ghost use Rattle.std.specs.Prelude.{◌≡◌, true};
ghost use Rattle.std.specs.List.{AllZip};
ghost use Rattle.register_book.specs.Fault.{ids_of};
ghost use Rattle.excerpt.specs.Excerpt.{AreAlike, are_alike, outcome_word, way_word};

use phrases::kind_word;
use register_book::{Fault, Witness};
use report::Finding;

/// Whether each register holds in both, or is of one kind in both and fails in one way.
pub fn all_alike(findings: &[Finding], others: &[Finding]) -> bool
    ensures { result ≡ true → AllZip AreAlike findings.now others.now }
{
    if findings.len() != others.len() {
        return false;
    }
    for number in 0..findings.len() {
        if !are_alike(&findings[number], &others[number]) {
            return false;
        }
    }
    true
}

fn are_alike(finding: &Finding, other: &Finding) -> bool
    ensures { result ≡ are_alike finding.now other.now }
{
    outcome_word(&finding.witness) == outcome_word(&other.witness)
        && (finding.witness.is_none() || kind_word(finding.kind) == kind_word(other.kind))
}

fn outcome_word(witness: &Option<Witness>) -> &'static str
    ensures { result.now ≡ outcome_word witness.now }
{
    match witness {
        Some(witness) => way_word(&witness.ids()),
        None => "holds",
    }
}

fn way_word(fault: &Fault) -> &'static str
    ensures { result.now ≡ way_word fault.now }
{
    match fault {
        Fault::Wrong(_) => "wrong",
        Fault::Unwritten(_) => "unwritten",
        Fault::Split { .. } => "split",
        Fault::Early { .. } => "early",
        Fault::Crossing { .. } => "conflict",
    }
}
