//! Whether two changes of verdicts are one, and what two elements are about.

ghost use Rattle.std.specs.Prelude.{◌≡◌, ◌↔◌, IsTrue};

use intervals::Value;
use jepsen_form::Written;
use pairing::About;
use register_book::Fault;
use shards::VerdictChange;

pub fn is_same(a: &VerdictChange, b: &VerdictChange) -> bool
    ensures { IsTrue result ↔ a.now ≡ b.now }
{
    a.number == b.number
        && a.register == b.register
        && a.kind == b.kind
        && a.holds == b.holds
        && a.operations == b.operations
        && are_shown_alike(a, b)
}

/// Whether the same operations show two failures, by their ids and their values; or neither is a failure.
fn are_shown_alike(a: &VerdictChange, b: &VerdictChange) -> bool
    ensures { IsTrue result ↔ ((a.now.fault ≡ b.now.fault) × (a.now.values ≡ b.now.values)) }
{
    are_same_faults(a.fault, b.fault) && are_same_values(a.values, b.values)
}

fn are_same_faults(a: Option<Fault>, b: Option<Fault>) -> bool
    ensures { IsTrue result ↔ a ≡ b }
{
    match (a, b) {
        (Some(a), Some(b)) => is_same_fault(a, b),
        (None, None) => true,
        _ => false,
    }
}

fn is_same_fault(a: Fault, b: Fault) -> bool
    ensures { IsTrue result ↔ a ≡ b }
{
    match (a, b) {
        (Fault::Wrong(read), Fault::Wrong(other)) => read == other,
        (Fault::Unwritten(read), Fault::Unwritten(other)) => read == other,
        (
            Fault::Split { first, second },
            Fault::Split {
                first: one,
                second: other,
            },
        ) => first == one && second == other,
        (
            Fault::Early { read, write },
            Fault::Early {
                read: one,
                write: other,
            },
        ) => read == one && write == other,
        (
            Fault::Crossing { a, b, c, d },
            Fault::Crossing {
                a: e,
                b: f,
                c: g,
                d: h,
            },
        ) => a == e && b == f && c == g && d == h,
        _ => false,
    }
}

fn are_same_values(a: [Option<Value>; 2], b: [Option<Value>; 2]) -> bool
    ensures { IsTrue result ↔ a ≡ b }
{
    let [first, second] = a;
    let [one, other] = b;
    first == one && second == other
}

pub fn is_same_about(a: &About, b: &About) -> bool
    ensures { IsTrue result ↔ a.now ≡ b.now }
{
    a.register == b.register
        && is_same_written(a.written, b.written)
        && a.operation == b.operation
        && a.claims == b.claims
}

fn is_same_written(a: Written, b: Written) -> bool
    ensures { IsTrue result ↔ a ≡ b }
{
    match (a, b) {
        (Written::Nothing, Written::Nothing) => true,
        (Written::Known(value), Written::Known(other)) => value == other,
        (Written::Unread, Written::Unread) => true,
        _ => false,
    }
}
