//! What a wrong read of a register might have returned, by its book.

ghost use Rattle.std.specs.Prelude.{◌≡◌, IfOk, map, Vec};
ghost use Rattle.std.specs.declared.alloc.Global.{Global as AGlobal};
ghost use Rattle.std.specs.List.{slice_get};
ghost use Rattle.intervals.specs.Table.{ops_in_slots};
ghost use Rattle.intervals.specs.Terms.{terms_of};
ghost use Rattle.shards.specs.Closing.{book_of};
ghost use Rattle.records.specs.declared.allowed.Allowed.{Allowed as AnAllowed};
ghost use Rattle.records.specs.Allowed.{allowed_by};
ghost use Rattle.records.specs.Explained.{AreAllowed, IsAllowedBy, IsAllowedIn, IsAllowedRead, domain_values};

use crate::allowed::{Allowed, allowed_by};
use intervals::{Claim, Kind, Op, RegId, Value};
use register_book::{Witness, WritesAround, writes_around};
use report::{Finding, RunFindings};
use shards::Closed;
use std::alloc::{AllocError, Global};
use tower_file::Tower;

/// For each register what its wrong read might have returned; nothing where none is wrong.
pub fn explain_all(alloc: Global, findings: &RunFindings) -> Result<Vec<Vec<Allowed>>, AllocError>
    ensures { IfOk result (λ all. AreAllowed findings.now.tower.now findings.now.run.now.closed 0 findings.now.each.now (map (λ (allowed : Vec AnAllowed AGlobal). allowed.items) all.items)) }
{
    let mut all = Vec::new(alloc);
    for number in 0..findings.tower.len() {
        let allowed = explain(
            alloc,
            findings.tower,
            &findings.run.closed,
            RegId(number as u32),
            &findings.each[number],
        )?;
        all.push(allowed)?;
    }
    Ok(all)
}

/// What the wrong read of a register might have returned; nothing where there is no such register.
fn explain(
    alloc: Global,
    tower: &Tower,
    closed: &Closed,
    id: RegId,
    finding: &Finding,
) -> Result<Vec<Allowed>, AllocError>
    ensures { IfOk result (λ allowed. IsAllowedIn (slice_get tower.now.registers id.0) (book_of closed.now id.0) finding.now allowed.items) }
{
    match (tower.claim(id), closed.book(id)) {
        (Some(claim), Some(book)) => {
            allowed_of(alloc, finding.kind, claim, book.slots(), &finding.witness)
        }
        _ => Ok(Vec::new(alloc)),
    }
}

fn allowed_of(
    alloc: Global,
    kind: Kind,
    claim: &Claim,
    slots: &[Option<Op>],
    witness: &Option<Witness>,
) -> Result<Vec<Allowed>, AllocError>
    ensures { IfOk result (λ allowed. IsAllowedBy kind (terms_of claim.now) (ops_in_slots slots.now) witness.now allowed.items) }
{
    match witness {
        Some(Witness::Wrong(read)) => allowed_read(alloc, kind, claim, slots, read),
        _ => Ok(Vec::new(alloc)),
    }
}

fn allowed_read(
    alloc: Global,
    kind: Kind,
    claim: &Claim,
    slots: &[Option<Op>],
    read: &Op,
) -> Result<Vec<Allowed>, AllocError>
    ensures { IfOk result (λ allowed. IsAllowedRead kind (terms_of claim.now) (ops_in_slots slots.now) read.now allowed.items) }
{
    let around = writes_around(alloc, slots, read)?;
    allowed_after(alloc, kind, claim, &around)
}

/// The values that a wrong read might have returned, by the writes around it.
fn allowed_after(
    alloc: Global,
    kind: Kind,
    claim: &Claim,
    around: &WritesAround,
) -> Result<Vec<Allowed>, AllocError>
    ensures { IfOk result (λ allowed. allowed.items ≡ allowed_by kind (terms_of claim.now).initial (domain_values (terms_of claim.now).domain) around.now.last around.now.over.items) }
{
    allowed_by(
        alloc,
        kind,
        claim.at_first(),
        domain_of(claim),
        &around.last,
        &around.over,
    )
}

/// The values of the domain; none where there is no domain.
fn domain_of(claim: &Claim) -> &[Value]
    ensures { result.now ≡ domain_values (terms_of claim.now).domain }
{
    match &claim.domain {
        Some(values) => values.as_slice(),
        None => &[],
    }
}
