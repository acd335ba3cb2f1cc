//! Which writes a claim allows beside the operations that stand.

ghost use Rattle.std.specs.Prelude.{◌≡◌, List, find};
ghost use Rattle.intervals.specs.declared.operation.Op.{Op};
ghost use Rattle.intervals.specs.Refusal.{write_refusal, holder_of, ok_unless, is_holder};
ghost use Rattle.intervals.specs.Terms.{ClaimModel, terms_of};
ghost use Rattle.intervals.specs.Standing.{HasDistinctIds};
ghost use Rattle.zones.specs.Records.{AreRecords};
ghost use Rattle.zones.specs.Refused.{refusal_beside};
ghost use Rattle.zones.specs.Zoned.{AreManyWriters};

use crate::records::Records;
use intervals::{Claim, Holder, Op, OpTable, Refusal};

/// The first of `NotAWriter`, `ValueTaken` and `OutOfDomain` that holds of the operation, if it is a write.
pub fn check_write(
    claim: &Claim,
    records: &Records,
    table: &OpTable,
    op: &Op,
) -> Result<(), Refusal>
    ensures { AreRecords table.now.ops records.now → HasDistinctIds table.now.ops → AreManyWriters (terms_of claim.now) table.now.ops
        → result ≡ ok_unless (write_refusal (terms_of claim.now) table.now.ops op.now) }
{
    check_beside(claim, op, holder_of(claim, records, table, op))
}

/// The refusal of the operation, where `holder` has its value.
fn check_beside(claim: &Claim, op: &Op, holder: Option<Holder>) -> Result<(), Refusal>
    ensures { result ≡ ok_unless (refusal_beside (terms_of claim.now) op.now holder) }
{
    if !op.is_write() {
        return Ok(());
    }
    if !claim.may_write(op.process) {
        return Err(Refusal::NotAWriter);
    }
    if let Some(holder) = holder {
        return Err(Refusal::ValueTaken(holder));
    }
    if !claim.has_in_domain(op.value()) {
        return Err(Refusal::OutOfDomain);
    }
    Ok(())
}

/// Who has the value of the operation already: the initial write, or the write of another operation.
fn holder_of(claim: &Claim, records: &Records, table: &OpTable, op: &Op) -> Option<Holder>
    ensures { AreRecords table.now.ops records.now → HasDistinctIds table.now.ops → AreManyWriters (terms_of claim.now) table.now.ops
        → result ≡ holder_of (terms_of claim.now) table.now.ops op.now }
{
    if claim.is_initial(op.value()) {
        return Some(Holder::Initial);
    }
    let write = other_write(records, table, op)?;
    Some(Holder::Op(write.id))
}

/// The write of the operation's value, where that is another operation.
fn other_write<'t>(records: &Records, table: &OpTable<'t>, op: &Op) -> Option<Op<'t>>
    ensures { (claim : ClaimModel) → AreRecords table.now.ops records.now → HasDistinctIds table.now.ops → AreManyWriters claim table.now.ops → result ≡ find (is_holder op.now) table.now.ops }
{
    let write = records.write_of(table, op.value())?;
    if write.has_id(op.id) {
        None
    } else {
        Some(write)
    }
}
