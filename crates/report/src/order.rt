//! The line of a register's order.

ghost use Rattle.std.specs.Prelude.{◌≡◌, ◌++◌, IfOk, IsSome, OnOk, Some, None, string_bytes, option_map};
ghost use Rattle.register_book.specs.BookModel.{claimed_of};
ghost use Rattle.shards.specs.Closing.{book_of};
ghost use Rattle.report.specs.Order.{IsOrderOf, ids_text, order_line};

use intervals::{Memory, OpId, RegId};
use phrases::{name_of, push_id, push_printed};
use register_book::RegisterBook;
use shards::Closed;
use std::alloc::{AllocError, Global};
use std::unreachable;
use tower_file::Tower;

/// The order of the operations of a register, where it is atomic and holds.
pub fn order_of(alloc: Global, closed: &Closed, id: RegId) -> Result<Option<Vec<OpId>>, Memory>
    requires there { IsSome (book_of closed.now id.0) }
    ensures { IfOk result (λ found. IsOrderOf (book_of closed.now id.0) (option_map (λ ids. ids.items) found)) }
{
    match closed.book(id) {
        Some(book) => order_in(alloc, book),
        None => unreachable!(),
    }
}

fn order_in(alloc: Global, book: &RegisterBook) -> Result<Option<Vec<OpId>>, Memory>
    ensures { IfOk result (λ found. IsOrderOf (Some (claimed_of book.now)) (option_map (λ ids. ids.items) found)) }
{
    book.order(alloc)
}

/// The line of an order, or that there is none.
pub fn push_order(
    text: &mut String,
    tower: &Tower,
    id: RegId,
    found: &Option<Vec<OpId>>,
) -> Result<(), AllocError>
    ensures { OnOk result (string_bytes text.new ≡ string_bytes text.old ++ order_line tower.now.registers (Some (id, option_map (λ ids. ids.items) found.now))) }
{
    text.push_str("order ")?;
    push_printed(text, name_of(tower, id))?;
    match found {
        Some(ids) => push_ids(text, ids)?,
        None => text.push_str(" none")?,
    }
    text.push_str("\n")
}

fn push_ids(text: &mut String, ids: &[OpId]) -> Result<(), AllocError>
    ensures { OnOk result (string_bytes text.new ≡ string_bytes text.old ++ ids_text (Some ids.now)) }
{
    for id in ids {
        text.push_str(" ")?;
        push_id(text, *id)?;
    }
    Ok(())
}
