//! The operations that show how a register fails, by themselves.

ghost use Rattle.std.specs.Prelude.{◌≡◌, ◌++◌, IfOk, OnOk, filter};
ghost use Rattle.std.specs.Option.{option_to_list};
ghost use Rattle.intervals.specs.Table.{ops_in_slots};
ghost use Rattle.register_book.specs.declared.fault.Witness.TheVariants.{Wrong};
ghost use Rattle.register_book.specs.Fault.{ops_in_roles};
ghost use Rattle.excerpt.specs.Shown.{IsFound, AreShown, has_value_of, is_one_of, is_their_write, told_by, with_writes};

use intervals::{Op, is_same_value};
use register_book::{InRole, Witness, WritesAround, writes_around};
use std::alloc::{AllocError, Global};

/// Of the operations that stand those that show the failure by themselves, by beginning.
pub fn shown_of<'t>(
    alloc: Global,
    slots: &[Option<Op<'t>>],
    witness: &Witness<'t>,
) -> Result<Vec<Op<'t>>, AllocError>
    ensures { IfOk result (λ shown. AreShown (ops_in_slots slots.now) witness.now shown.items) }
{
    let mut shown = found_of(alloc, slots, witness)?;
    shown.sort_unstable_by_key(|op| op.begin.0);
    Ok(shown)
}

fn found_of<'t>(
    alloc: Global,
    slots: &[Option<Op<'t>>],
    witness: &Witness<'t>,
) -> Result<Vec<Op<'t>>, AllocError>
    ensures { IfOk result (λ found. IsFound (ops_in_slots slots.now) witness.now found.items) }
{
    match witness {
        Witness::Wrong(read) => around(alloc, slots, read),
        _ => with_writes(alloc, slots, &witness.roles()),
    }
}

/// A wrong read, with the write of its value and the write that it missed before it.
fn around<'t>(
    alloc: Global,
    slots: &[Option<Op<'t>>],
    read: &Op<'t>,
) -> Result<Vec<Op<'t>>, AllocError>
    ensures { IfOk result (λ found. IsFound (ops_in_slots slots.now) (Wrong read.now) found.items) }
{
    let around = writes_around(alloc, slots, read)?;
    told_by(alloc, &around, read)
}

fn told_by<'t>(
    alloc: Global,
    around: &WritesAround<'t>,
    read: &Op<'t>,
) -> Result<Vec<Op<'t>>, AllocError>
    ensures { IfOk result (λ shown. shown.items ≡ told_by around.now read.now) }
{
    let mut shown = Vec::new(alloc);
    push_if(&mut shown, &around.source)?;
    push_if(&mut shown, &around.last)?;
    shown.push(*read)?;
    Ok(shown)
}

fn push_if<'t>(shown: &mut Vec<Op<'t>>, op: &Option<Op<'t>>) -> Result<(), AllocError>
    ensures { OnOk result (shown.new.items ≡ shown.old.items ++ option_to_list op.now) }
{
    if let Some(op) = op {
        shown.push(*op)?;
    }
    Ok(())
}

/// The operations of a witness, and before them the writes of their values that are none of them.
fn with_writes<'t>(
    alloc: Global,
    slots: &[Option<Op<'t>>],
    roles: &[Option<InRole<'t>>],
) -> Result<Vec<Op<'t>>, AllocError>
    ensures { IfOk result (λ shown. shown.items ≡ with_writes (ops_in_slots slots.now) (ops_in_roles roles.now)) }
{
    let mut ops = ops_in(alloc, roles)?;
    let mut shown = writes_of(alloc, slots, &ops)?;
    shown.append(&mut ops)?;
    Ok(shown)
}

fn ops_in<'t>(alloc: Global, roles: &[Option<InRole<'t>>]) -> Result<Vec<Op<'t>>, AllocError>
    ensures { IfOk result (λ ops. ops.items ≡ ops_in_roles roles.now) }
{
    let mut ops = Vec::new(alloc);
    for slot in roles {
        if let Some(one) = slot {
            ops.push(one.op)?;
        }
    }
    Ok(ops)
}

/// The writes of the values of these operations that are none of them.
fn writes_of<'t>(
    alloc: Global,
    slots: &[Option<Op<'t>>],
    shown: &[Op<'t>],
) -> Result<Vec<Op<'t>>, AllocError>
    ensures { IfOk result (λ found. found.items ≡ filter (is_their_write shown.now) (ops_in_slots slots.now)) }
{
    let mut found = Vec::new(alloc);
    for slot in slots {
        if let Some(op) = slot {
            if is_their_write(shown, op) {
                found.push(*op)?;
            }
        }
    }
    Ok(found)
}

fn is_their_write(shown: &[Op], op: &Op) -> bool
    ensures { result ≡ is_their_write shown.now op.now }
{
    op.is_write() && has_value_of(shown, op) && !is_one_of(shown, op)
}

fn has_value_of(ops: &[Op], op: &Op) -> bool
    ensures { result ≡ has_value_of ops.now op.now }
{
    ops.iter()
        .any(|other| is_same_value(other.value(), op.value()))
}

fn is_one_of(ops: &[Op], op: &Op) -> bool
    ensures { result ≡ is_one_of ops.now op.now }
{
    ops.iter().any(|other| other.has_id(op.id))
}
