//! The lines of a register: its verdict, and the operations that show why it fails.

ghost use Rattle.std.specs.Prelude.{◌≡◌, ◌++◌, [], OnOk, string_bytes, is_none, flat_map};
ghost use Rattle.std.specs.List.{slice_get};
ghost use Rattle.std.specs.Option.{option_map_or};
ghost use Rattle.register_book.specs.Fault.{ops_in_roles};
ghost use Rattle.report.specs.Section.{part_line, part_line_of, part_lines, section_text, witness_text};

use crate::finding::Finding;
use intervals::{Op, RegId};
use phrases::{push_fault, push_printed, push_register};
use register_book::{InRole, Witness};
use std::alloc::AllocError;
use tower_file::Tower;

/// The lines of a register; nothing where there is none of that number.
pub fn push_section(
    text: &mut String,
    tower: &Tower,
    id: RegId,
    finding: &Finding,
) -> Result<(), AllocError>
    ensures { OnOk result (string_bytes text.new ≡ string_bytes text.old ++ option_map_or (λ register. section_text register finding.now) (slice_get tower.now.registers id.0) []) }
{
    let Some(name) = tower.name(id) else {
        return Ok(());
    };
    push_register(
        text,
        name,
        finding.kind,
        finding.witness.is_none(),
        finding.operations,
    )?;
    match &finding.witness {
        Some(witness) => push_witness(text, witness),
        None => Ok(()),
    }
}

fn push_witness(text: &mut String, witness: &Witness) -> Result<(), AllocError>
    ensures { OnOk result (string_bytes text.new ≡ string_bytes text.old ++ witness_text witness.now) }
{
    push_fault(text, witness.ids())?;
    push_ops(text, &witness.roles())
}

fn push_ops(text: &mut String, slots: &[Option<InRole>]) -> Result<(), AllocError>
    ensures { OnOk result (string_bytes text.new ≡ string_bytes text.old ++ flat_map part_lines (ops_in_roles slots.now)) }
{
    for slot in slots {
        if let Some(one) = slot {
            push_parts(text, &one.op)?;
        }
    }
    Ok(())
}

/// The texts that an operation lends: its invocation, its answer and its last amendment.
fn push_parts(text: &mut String, op: &Op) -> Result<(), AllocError>
    ensures { OnOk result (string_bytes text.new ≡ string_bytes text.old ++ part_lines op.now) }
{
    push_part(text, op.parts.invocation)?;
    push_part_of(text, op.parts.answer)?;
    push_part_of(text, op.parts.amendment)
}

fn push_part_of(text: &mut String, part: Option<&[u8]>) -> Result<(), AllocError>
    ensures { OnOk result (string_bytes text.new ≡ string_bytes text.old ++ part_line_of part.entry) }
{
    match part {
        Some(part) => push_part(text, part),
        None => Ok(()),
    }
}

fn push_part(text: &mut String, part: &[u8]) -> Result<(), AllocError>
    ensures { OnOk result (string_bytes text.new ≡ string_bytes text.old ++ part_line part.now) }
{
    text.push_str("  | ")?;
    push_printed(text, part)?;
    text.push_str("\n")
}
