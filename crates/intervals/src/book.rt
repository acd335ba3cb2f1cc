//! The operations of one register that stand, in a table where nothing is prepared.

ghost use Rattle.std.specs.Prelude.{◌≡◌, ◌↔◌, [], List, length, None, OnOk, OnErr, IsSome, IsTrue, option_copied};
ghost use Rattle.intervals.specs.Edit.{op_of, edited, new_op};
ghost use Rattle.intervals.specs.Refusal.{first_refusal, ok_unless};
ghost use Rattle.intervals.specs.Table.{ops_in_slots};

use crate::{Edit, Memory, Op, OpId, OpTable, Refusal};
use std::alloc::Global;
use std::marker::Model;

/// The operations of one register that stand, in the order of their appends.
#[derive(Drop)]
pub struct OpBook<'t> {
    table: OpTable<'t>,
}

impl<'t> Model for OpBook<'t> {
    ghost use Rattle.std.specs.Prelude.{◌≡◌, List, None};
    ghost use Rattle.intervals.specs.declared.operation.Op.{Op};

    ghost Value = { List Op };

    ghost view = { λ b. b.table.ops };

    ghost invariant = { λ b. b.table.prepared ≡ None };
}

impl<'t> OpBook<'t> {
    /// A book without operations.
    pub fn new(alloc: Global) -> Self
        ensures { result ≡ [] }
    {
        OpBook {
            table: OpTable::new(alloc),
        }
    }

    pub fn len(&self) -> usize
        ensures { result ≡ length self.now }
    {
        self.table.len()
    }

    pub fn is_empty(&self) -> bool
        ensures { IsTrue result ↔ (self.now ≡ []) }
    {
        self.table.is_empty()
    }

    /// The operations in the order of their appends. A slot is empty where an operation was withdrawn.
    pub fn slots(&self) -> &[Option<Op<'t>>]
        ensures { ops_in_slots result.now ≡ self.now }
    {
        self.table.slots()
    }

    /// The operation of that id.
    pub fn get(&self, id: OpId) -> Option<&Op<'t>>
        ensures { option_copied result ≡ op_of self.now id }
    {
        self.table.get(id)
    }

    /// The operation that the edit appends or changes, as it is afterwards.
    pub fn new_op(&self, edit: &Edit<'t>) -> Option<Op<'t>>
        ensures { result ≡ new_op self.now edit.now }
    {
        self.table.target(edit).new
    }

    /// The first refusal, from `UnknownOp` to `MomentTooLarge`, that the edit meets. The others depend on the
    /// claim, which the book does not know.
    pub fn check(&self, edit: &Edit<'t>) -> Result<(), Refusal>
        ensures { result ≡ ok_unless (first_refusal self.now edit.now) }
    {
        self.table.check(edit, &self.table.target(edit))
    }

    /// Carries out an edit that `check` accepts. Where memory is refused nothing changes.
    pub fn admit(&mut self, edit: Edit<'t>) -> Result<(), Memory>
        requires { first_refusal self.old edit ≡ None }
        ensures ok { OnOk result (self.new ≡ edited self.old edit.entry) }
        ensures err { OnErr result (self.new ≡ self.old) }
        ensures memory { OnErr result (IsSome (new_op self.old edit.entry)) }
    {
        let target = self.table.target(&edit);
        if let Some(op) = &target.new {
            self.table.prepare(op)?;
        }
        self.table.admit(&edit, &target);
        Ok(())
    }
}
