//! Whether two entries read the same: field by field, texts by their bytes.

ghost use Rattle.std.specs.Prelude.{◌≡◌, ◌↔◌, IsTrue, option_map};
ghost use Rattle.shards.specs.Plain.{plain_entry, plain_edit, plain_op, plain_parts, plain_change, plain_lent};

use crate::Entry;
use intervals::{Change, Edit, Lent, Op, OpParts};

pub fn is_same(a: &Entry, b: &Entry) -> bool
    ensures { IsTrue result ↔ (plain_entry a.now ≡ plain_entry b.now) }
{
    a.feeder == b.feeder
        && a.register == b.register
        && is_same_edit(&a.edit, &b.edit)
        && a.reply == b.reply
}

fn is_same_edit(a: &Edit, b: &Edit) -> bool
    ensures { IsTrue result ↔ (plain_edit a.now ≡ plain_edit b.now) }
{
    match (a, b) {
        (Edit::Append(a), Edit::Append(b)) => is_same_op(a, b),
        (Edit::Amend(id, a), Edit::Amend(other, b)) => *id == *other && is_same_change(a, b),
        (Edit::Withdraw(id), Edit::Withdraw(other)) => *id == *other,
        (Edit::Claim(kind), Edit::Claim(other)) => *kind == *other,
        _ => false,
    }
}

fn is_same_op(a: &Op, b: &Op) -> bool
    ensures { IsTrue result ↔ (plain_op a.now ≡ plain_op b.now) }
{
    a.id == b.id
        && a.process == b.process
        && a.act == b.act
        && a.begin == b.begin
        && a.end == b.end
        && are_same_parts(&a.parts, &b.parts)
}

fn are_same_parts(a: &OpParts, b: &OpParts) -> bool
    ensures { IsTrue result ↔ (plain_parts a.now ≡ plain_parts b.now) }
{
    a.invocation == b.invocation
        && is_same_text(a.answer, b.answer)
        && is_same_text(a.amendment, b.amendment)
}

fn is_same_change(a: &Change, b: &Change) -> bool
    ensures { IsTrue result ↔ (plain_change a.now ≡ plain_change b.now) }
{
    a.value == b.value && a.begin == b.begin && a.end == b.end && is_same_lent(a.lent, b.lent)
}

fn is_same_lent(a: Lent, b: Lent) -> bool
    ensures { IsTrue result ↔ (plain_lent a.entry ≡ plain_lent b.entry) }
{
    match (a, b) {
        (Lent::Answer(a), Lent::Answer(b)) => a == b,
        (Lent::Amendment(a), Lent::Amendment(b)) => a == b,
        _ => false,
    }
}

fn is_same_text(a: Option<&[u8]>, b: Option<&[u8]>) -> bool
    ensures { IsTrue result ↔ (option_map (λ text. text.now) a.entry ≡ option_map (λ text. text.now) b.entry) }
{
    match (a, b) {
        (Some(a), Some(b)) => a == b,
        (None, None) => true,
        _ => false,
    }
}
