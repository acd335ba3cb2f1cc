//! What is found of the registers when their auditor is closed.

ghost use Rattle.std.specs.Prelude.{◌≡◌, IfOk, IsSome, length};
ghost use Rattle.register_book.specs.BookModel.{claimed_of};
ghost use Rattle.shards.specs.Closing.{book_of};
ghost use Rattle.report.specs.Finding.{AreFailing, AreFindings, IsFinding, IsFindingOf, IsOfTower, fails_in, fails_of, holds_in};

use intervals::{Kind, RegId};
use register_book::{RegisterBook, Witness};
use shards::Closed;
use std::alloc::{AllocError, Global};
use std::unreachable;
use tower_file::Tower;

/// What is found of a register: the kind that it claims to be, how many of its operations stand, unfinished ones among
/// them, and the operations that show that it fails, where it does.
#[derive(Clone, Copy)]
pub struct Finding<'t> {
    pub kind: Kind,
    pub operations: u64,
    pub witness: Option<Witness<'t>>,
}

/// Which registers fail, by number.
pub fn find_failing(alloc: Global, tower: &Tower, closed: &Closed) -> Result<Vec<bool>, AllocError>
    requires of_tower { IsOfTower tower.now closed.now }
    ensures { IfOk result (λ failing. AreFailing closed.now 0 (length tower.now.registers) failing.items) }
{
    let findings = find_all(alloc, tower, closed)?;
    let failing = failing_of(alloc, &findings)?;
    Ok(failing)
}

/// Of each register whether it fails, by what is found of it.
pub fn failing_of(alloc: Global, findings: &[Finding]) -> Result<Vec<bool>, AllocError>
    ensures { IfOk result (λ failing. failing.items ≡ fails_of findings.now) }
{
    findings
        .iter()
        .map(|finding| finding.witness.is_some())
        .collect(alloc)
}

/// What is found of each register, by number.
pub fn find_all<'t>(
    alloc: Global,
    tower: &Tower,
    closed: &Closed<'t>,
) -> Result<Vec<Finding<'t>>, AllocError>
    requires of_tower { IsOfTower tower.now closed.now }
    ensures many { IfOk result (λ findings. length findings.items ≡ length tower.now.registers) }
    ensures found { IfOk result (λ findings. AreFindings closed.now 0 findings.items) }
{
    let mut findings = Vec::new(alloc);
    for number in 0..tower.len() {
        findings.push(finding_of(closed, RegId(number as u32)))?;
    }
    Ok(findings)
}

/// What is found of a register, which has to be there.
pub fn finding_of<'t>(closed: &Closed<'t>, id: RegId) -> Finding<'t>
    requires there { IsSome (book_of closed.now id.0) }
    ensures { IsFindingOf (book_of closed.now id.0) result }
{
    match closed.book(id) {
        Some(book) => found_in(book),
        None => unreachable!(),
    }
}

fn found_in<'t>(book: &RegisterBook<'t>) -> Finding<'t>
    ensures { IsFinding (claimed_of book.now) result }
{
    Finding {
        kind: book.kind(),
        operations: book.len() as u64,
        witness: book.witness(),
    }
}

/// Whether the register of this number fails, by `failing`; false where there is none.
pub fn fails(failing: &[bool], number: usize) -> bool
    ensures { result ≡ fails_in failing.now number }
{
    match failing.get(number) {
        Some(failed) => *failed,
        None => false,
    }
}

/// Whether the register of this number holds, by `failing`; false where there is none.
pub fn holds(failing: &[bool], number: usize) -> bool
    ensures { result ≡ holds_in failing.now number }
{
    match failing.get(number) {
        Some(failed) => !*failed,
        None => false,
    }
}
