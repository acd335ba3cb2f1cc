//! What shows that a register breaks its claim: the operations, or their ids.

ghost use Rattle.std.specs.Prelude.{◌≡◌};
ghost use Rattle.register_book.specs.Fault.{id_held, ids_of, in_role, is_one, operations_in, roles_of, side_holder, side_in_role, value_at_side, values_shown};

use intervals::{Holder, Op, OpId, Value};

/// The operations that show that a register breaks its claim, by their ids.
#[derive(Clone, Copy, PartialEq, Eq)]
pub enum Fault {
    /// Safe or regular: the wrong read that ended first.
    Wrong(OpId),
    /// Atomic, where the initial value is known: of the reads of a value that is not the initial one and that
    /// nothing wrote, the one that ended first.
    Unwritten(OpId),
    /// Atomic, where nobody knows the initial value: of the reads of values that nothing wrote, the one that ended
    /// first, and of those of another such value the one that ended first.
    Split {
        first: OpId,
        second: OpId,
    },
    /// Atomic, where there is neither: of the reads that ended before the write of their value began, the one that
    /// ended first, and that write.
    Early {
        read: OpId,
        write: OpId,
    },
    /// Atomic, where there is none of these: `a` and `d` are of one value, `b` and `c` of another, `a` precedes
    /// `b` and `c` precedes `d`. `a` or `c` may be the initial write, which precedes all operations.
    Crossing {
        a: Holder,
        b: Holder,
        c: Holder,
        d: Holder,
    },
}

impl Fault {
    /// The ids of its operations, in four slots of which some may be empty.
    pub fn operations(&self) -> [Option<OpId>; 4]
        ensures { result ≡ operations_in self.now }
    {
        match self {
            Fault::Wrong(read) | Fault::Unwritten(read) => [Some(*read), None, None, None],
            Fault::Split { first, second } => [Some(*first), Some(*second), None, None],
            Fault::Early { read, write } => [Some(*read), Some(*write), None, None],
            Fault::Crossing { a, b, c, d } => [id_of(*a), id_of(*b), id_of(*c), id_of(*d)],
        }
    }
}

/// The id of an operation; none for the initial write.
fn id_of(holder: Holder) -> Option<OpId>
    ensures { result ≡ id_held holder }
{
    match holder {
        Holder::Op(id) => Some(id),
        Holder::Initial => None,
    }
}

/// One of the four in a crossing: an operation, or the initial write.
#[derive(Clone, Copy)]
pub enum Side<'t> {
    Op(Op<'t>),
    Initial,
}

/// The operations that show that a register breaks its claim, in the cases of `Fault`. They are lent as long as
/// the trace.
#[derive(Clone, Copy)]
pub enum Witness<'t> {
    Wrong(Op<'t>),
    Unwritten(Op<'t>),
    Split {
        first: Op<'t>,
        second: Op<'t>,
    },
    Early {
        read: Op<'t>,
        write: Op<'t>,
    },
    Crossing {
        a: Side<'t>,
        b: Side<'t>,
        c: Side<'t>,
        d: Side<'t>,
    },
}

/// What an operation is to the fault of its register.
#[derive(Clone, Copy)]
pub enum Role {
    /// A read that is wrong by what it returned.
    Read,
    /// Two reads that cannot both be right by what they returned.
    FirstRead,
    SecondRead,
    /// A read that ended too early, and the write of its value.
    EarlyRead,
    LateWrite,
    /// The four operations of a crossing; `Bc` where the second and the third are one.
    A,
    B,
    C,
    Bc,
    D,
}

/// An operation of a witness, with its role.
#[derive(Clone, Copy)]
pub struct InRole<'t> {
    pub role: Role,
    pub op: Op<'t>,
}

impl<'t> Witness<'t> {
    /// The operations with their roles, in four slots of which some may be empty. Each operation is there once.
    pub fn roles(&self) -> [Option<InRole<'t>>; 4]
        ensures { result ≡ roles_of self.now }
    {
        match self {
            Witness::Wrong(read) | Witness::Unwritten(read) => {
                [in_role(Role::Read, read), None, None, None]
            }
            Witness::Split { first, second } => [
                in_role(Role::FirstRead, first),
                in_role(Role::SecondRead, second),
                None,
                None,
            ],
            Witness::Early { read, write } => [
                in_role(Role::EarlyRead, read),
                in_role(Role::LateWrite, write),
                None,
                None,
            ],
            Witness::Crossing { a, b, c, d } => {
                if is_one(b, c) {
                    [
                        a.in_role(Role::A),
                        b.in_role(Role::Bc),
                        None,
                        d.in_role(Role::D),
                    ]
                } else {
                    [
                        a.in_role(Role::A),
                        b.in_role(Role::B),
                        c.in_role(Role::C),
                        d.in_role(Role::D),
                    ]
                }
            }
        }
    }

    /// The fault: each operation replaced by its id.
    pub fn ids(&self) -> Fault
        ensures { result ≡ ids_of self.now }
    {
        match self {
            Witness::Wrong(read) => Fault::Wrong(read.id),
            Witness::Unwritten(read) => Fault::Unwritten(read.id),
            Witness::Split { first, second } => Fault::Split {
                first: first.id,
                second: second.id,
            },
            Witness::Early { read, write } => Fault::Early {
                read: read.id,
                write: write.id,
            },
            Witness::Crossing { a, b, c, d } => Fault::Crossing {
                a: a.holder(),
                b: b.holder(),
                c: c.holder(),
                d: d.holder(),
            },
        }
    }

    /// The values that its operations read or wrote. Those of a crossing are of two values: of `b` and `c`, and of `a`
    /// and `d`.
    pub fn values(&self) -> [Option<Value>; 2]
        ensures { result ≡ values_shown self.now }
    {
        match self {
            Witness::Wrong(read) | Witness::Unwritten(read) => [Some(read.value()), None],
            Witness::Split { first, second } => [Some(first.value()), Some(second.value())],
            Witness::Early { read, write } => [Some(read.value()), Some(write.value())],
            Witness::Crossing { b, d, .. } => [b.value(), d.value()],
        }
    }
}

fn in_role<'t>(role: Role, op: &Op<'t>) -> Option<InRole<'t>>
    ensures { result ≡ in_role role op.now }
{
    Some(InRole { role, op: *op })
}

impl<'t> Side<'t> {
    /// The operation of a side in this role; none for the initial write.
    fn in_role(&self, role: Role) -> Option<InRole<'t>>
        ensures { result ≡ side_in_role role self.now }
    {
        match self {
            Side::Op(op) => in_role(role, op),
            Side::Initial => None,
        }
    }

    /// What the operation of a side read or wrote; none for the initial write.
    fn value(&self) -> Option<Value>
        ensures { result ≡ value_at_side self.now }
    {
        match self {
            Side::Op(op) => Some(op.value()),
            Side::Initial => None,
        }
    }

    /// The operation of a side by its id, or that it is the initial write.
    pub fn holder(&self) -> Holder
        ensures { result ≡ side_holder self.now }
    {
        match self {
            Side::Op(op) => Holder::Op(op.id),
            Side::Initial => Holder::Initial,
        }
    }
}

/// Whether two sides of a crossing are one operation.
pub fn is_one(a: &Side, b: &Side) -> bool
    ensures { result ≡ is_one a.now b.now }
{
    match (a, b) {
        (Side::Op(a), Side::Op(b)) => a.has_id(b.id),
        _ => false,
    }
}
