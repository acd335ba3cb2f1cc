//! The items of the operations in the tree of reads and covers, and how an edit changes them.

ghost use Rattle.std.specs.Prelude.{◌≡◌, ◌↔◌, ◌+◌, ◌<◌, ◌≤◌, ◌++◌, ◌∷◌, ℕ, [], List, length, None, Some, IfSome, IsSome, IsTrue, Contains, true};
ghost use Rattle.intervals.specs.Judging.{first_wrong};
ghost use Rattle.intervals.specs.declared.operation.Op.{Op as AnOp};
ghost use Rattle.intervals.specs.declared.ordered_index.Spot.{Spot as ASpot};
ghost use Rattle.intervals.specs.Operation.{IsWrite};
ghost use Rattle.intervals.specs.Standing.{HasDistinctIds};
ghost use Rattle.intervals.specs.Terms.{ClaimModel, terms_of};
ghost use Rattle.read_tree.specs.declared.item.RowItem.{RowItem as AnItem};
ghost use Rattle.read_tree.specs.Items.{AreItemsInOrder, spot_of_item, item_at_spot};
ghost use Rattle.safe_regular.specs.RowItems.{counted_from_1, reach_by, optional_end, has_rows, item_number, read_reach, cover_reach, initial_reach, read_item, cover_item, initial_item, optional_item_spot, items_without, items_with, items_renewed, HasItemAt, IsFreeFor, IsExchanged, IsRenewed, AreItemsOf, AreLaid, IsNextOf, IsOperationItem, IsItemOf, IsInFront, HasWriteAt, IsCoverBefore, AreOneCover, AreOneCoverIn, KeepsItsCover, MayBeChanged, IsChanged, ComesLastUnfinished, IsCoverBeforeNew};
ghost use Rattle.safe_regular.specs.Change.{IsChangeOf};
ghost use Rattle.safe_regular.specs.Held.{AreOneWriters, CanJudge};
ghost use Rattle.safe_regular.specs.LookUp.{BeginsAfter, NoneFits};
ghost use Rattle.safe_regular.specs.Writes.{AreWrites};

use crate::sentence::is_allowed;
use crate::writes::{Writes, first_after, first_from, last_before, stand_alike};
use intervals::{Claim, Kind, Moment, Op, OpId, OpTable, Spot, Value, is_same_value};
use read_tree::laws::{each_spot_has_a_last_cover, short_reads_are_told};
use read_tree::{ReadTree, RowItem};

fn counted(moment: Moment) -> u64
    ensures { result ≡ counted_from_1 moment.0 }
{
    moment.0.saturating_add(1)
}

fn reach_by(end: Option<Moment>) -> u64
    ensures { result ≡ reach_by end }
{
    match end {
        Some(end) => counted(end),
        None => u64::MAX - 1,
    }
}

fn end_of(op: Option<Op>) -> Option<Moment>
    ensures { result ≡ optional_end op.entry }
{
    let ended = op?;
    ended.end
}

fn has_rows(kind: Kind) -> bool
    ensures { result ≡ has_rows kind }
{
    match kind {
        Kind::Safe => false,
        Kind::Regular => true,
        Kind::Atomic => true,
    }
}

fn read_reach(claim: &Claim, read: &Op) -> u64
    ensures { result ≡ read_reach claim.now.kind (terms_of claim.now) read.now }
{
    match claim.kind {
        Kind::Safe => {
            if is_allowed(claim, read.value()) {
                counted(read.begin)
            } else {
                u64::MAX
            }
        }
        Kind::Regular => counted(read.begin),
        Kind::Atomic => counted(read.begin),
    }
}

fn cover_reach(kind: Kind, end: Option<Moment>, next: Option<Op>) -> u64
    ensures { result ≡ cover_reach kind end next.entry }
{
    match kind {
        Kind::Safe => reach_by(end),
        Kind::Regular => reach_by(end_of(next)),
        Kind::Atomic => reach_by(end_of(next)),
    }
}

fn initial_reach(kind: Kind, next: Option<Op>) -> u64
    ensures { result ≡ initial_reach kind next.entry }
{
    match kind {
        Kind::Safe => 0,
        Kind::Regular => reach_by(end_of(next)),
        Kind::Atomic => reach_by(end_of(next)),
    }
}

fn read_item(claim: &Claim, read: &Op) -> RowItem
    ensures { result ≡ read_item (terms_of claim.now) read.now }
{
    RowItem {
        value: read.value(),
        moment: Moment(counted(Moment(read.end_number()))),
        reach: read_reach(claim, read),
        id: read.id,
        covers: false,
        by_value: has_rows(claim.kind),
    }
}

fn cover_item(claim: &Claim, write: &Op, next: Option<Op>) -> RowItem
    ensures { result ≡ cover_item (terms_of claim.now) write.now next.entry }
{
    RowItem {
        value: write.value(),
        moment: Moment(counted(write.begin)),
        reach: cover_reach(claim.kind, write.end, next),
        id: write.id,
        covers: true,
        by_value: has_rows(claim.kind),
    }
}

/// The cover of the initial value.
fn initial_item(claim: &Claim, next: Option<Op>) -> RowItem
    ensures { result ≡ initial_item (terms_of claim.now) next.entry }
{
    RowItem {
        value: claim.at_first(),
        moment: Moment(0),
        reach: initial_reach(claim.kind, next),
        id: OpId {
            feeder: 0,
            event: 0,
        },
        covers: true,
        by_value: has_rows(claim.kind),
    }
}

fn number_of(op: &Op) -> u64
    ensures { result ≡ item_number op.now }
{
    if op.is_write() {
        op.begin.0
    } else {
        op.end_number()
    }
}

/// The spot of the operation's item, if it has one.
fn spot_of(claim: &Claim, op: &Option<Op>) -> Option<Spot>
    ensures { result ≡ optional_item_spot (terms_of claim.now) op.now }
{
    let Some(op) = op else {
        return None;
    };
    if op.is_write() || op.is_judged_read() {
        let value = if has_rows(claim.kind) {
            op.value()
        } else {
            Value::Nil
        };
        Some(Spot {
            value,
            moment: Moment(counted(Moment(number_of(op)))),
        })
    } else {
        None
    }
}

/// The item of an operation that stands: of a write a cover, of a read that has an end a read, else `None`.
fn item_of(claim: &Claim, writes: &Writes, table: &OpTable, op: &Option<Op>) -> Option<RowItem>
    ensures { AreWrites table.now.ops writes.now → HasDistinctIds table.now.ops → IfSome op.now (Contains table.now.ops)
        → IsItemOf (terms_of claim.now) table.now.ops op.now result }
{
    let Some(op) = op else {
        return None;
    };
    if op.is_write() {
        let next = first_after(writes, table, op.begin);
        return Some(cover_item(claim, op, next));
    }
    if op.is_judged_read() {
        return Some(read_item(claim, op));
    }
    None
}

/// The cover before the write `op`, as it is after the edit, where values have rows: there the next write says how
/// far a cover reaches. `None` where `other` is a write of the same beginning, since the same cover is before
/// that.
fn cover_before(
    claim: &Claim,
    writes: &Writes,
    table: &OpTable,
    other: &Option<Op>,
    op: &Option<Op>,
) -> Option<RowItem>
    ensures { AreWrites table.now.ops writes.now → HasDistinctIds table.now.ops
        → IsCoverBefore (terms_of claim.now) table.now.ops other.now op.now result }
{
    let Some(op) = op else {
        return None;
    };
    if !op.is_write() || !has_rows(claim.kind) || has_write_at(other, op.begin) {
        return None;
    }
    Some(cover_in_front(claim, writes, table, op.begin))
}

/// The cover before the write that comes, where that cover changes. Before an unfinished write that comes after
/// all others it stays as it is: it had no write after it, and the one that it has now has no end, so it reaches
/// as far as before.
fn cover_before_new(
    claim: &Claim,
    writes: &Writes,
    table: &OpTable,
    old: &Option<Op>,
    new: &Option<Op>,
) -> Option<RowItem>
    ensures { AreWrites table.now.ops writes.now → HasDistinctIds table.now.ops
        → IsCoverBeforeNew (terms_of claim.now) table.now.ops old.now new.now result }
{
    if comes_last_unfinished(claim, writes, table, old, new) {
        None
    } else {
        cover_before(claim, writes, table, old, new)
    }
}

/// Whether values have rows and the edit adds an unfinished write after all others, in place of no operation.
fn comes_last_unfinished(
    claim: &Claim,
    writes: &Writes,
    table: &OpTable,
    old: &Option<Op>,
    new: &Option<Op>,
) -> bool
    ensures { AreWrites table.now.ops writes.now → HasDistinctIds table.now.ops → result ≡ true → ComesLastUnfinished table.now.ops old.now new.now }
{
    match (old, new) {
        (None, Some(op)) => has_rows(claim.kind) && is_last_unfinished(writes, table, op),
        _ => false,
    }
}

fn is_last_unfinished(writes: &Writes, table: &OpTable, op: &Op) -> bool
    ensures { AreWrites table.now.ops writes.now → HasDistinctIds table.now.ops → result ≡ true
        → IsWrite op.now × (op.now.end ≡ None) × NoneFits (BeginsAfter op.now.begin.0) table.now.ops }
{
    is_unfinished_write(op) && has_none_after(writes, table, op.begin)
}

fn is_unfinished_write(op: &Op) -> bool
    ensures { result ≡ true → IsWrite op.now × (op.now.end ≡ None) }
{
    op.is_write() && op.end.is_none()
}

fn has_none_after(writes: &Writes, table: &OpTable, moment: Moment) -> bool
    ensures { AreWrites table.now.ops writes.now → HasDistinctIds table.now.ops → result ≡ true → NoneFits (BeginsAfter moment.0) table.now.ops }
{
    match first_after(writes, table, moment) {
        Some(_) => false,
        None => true,
    }
}

fn has_write_at(op: &Option<Op>, moment: Moment) -> bool
    ensures { IsTrue result ↔ HasWriteAt op.now moment.0 }
{
    match op {
        Some(op) => op.is_write() && op.begin.0 == moment.0,
        None => false,
    }
}

/// The cover of the last write that begins before the moment, or of the initial value where none does.
fn cover_in_front(claim: &Claim, writes: &Writes, table: &OpTable, moment: Moment) -> RowItem
    ensures { AreWrites table.now.ops writes.now → HasDistinctIds table.now.ops
        → IsOperationItem (terms_of claim.now) table.now.ops result × IsInFront (terms_of claim.now) table.now.ops moment.0 result }
{
    match last_before(writes, table, moment) {
        Some(write) => {
            let next = first_after(writes, table, write.begin);
            cover_item(claim, &write, next)
        }
        None => {
            let next = first_from(writes, table, Moment(0));
            initial_item(claim, next)
        }
    }
}

/// Puts the cover of the initial value and the items of all operations into an empty tree.
pub fn lay(line: &mut ReadTree, claim: &Claim, writes: &Writes, table: &OpTable)
    requires judged { CanJudge table.now.ops writes.now }
    requires apart { AreOneWriters (terms_of claim.now) table.now.ops }
    requires empty { line.old.items ≡ [] }
    requires room { length table.now.ops + 1 ≤ line.old.free }
    ensures laid { AreItemsOf (terms_of claim.now) table.now.ops line.new.items }
    ensures free { line.old.free ≤ line.new.free + (length table.now.ops + 1) }
{
    let first = first_from(writes, table, Moment(0));
    put_in(line, Some(initial_item(claim, first)));
    let slots = table.slots();
    for slot in slots {
        if let Some(op) = slot {
            lay_one(line, claim, writes, table, op);
        }
    }
    let _ = line.has_uncovered();
}

/// Puts in the item of the next operation, where it has one.
fn lay_one(line: &mut ReadTree, claim: &Claim, writes: &Writes, table: &OpTable, op: &Op)
    requires judged { CanJudge table.now.ops writes.now }
    requires apart { AreOneWriters (terms_of claim.now) table.now.ops }
    requires next { (places : ℕ) × (length table.now.ops + 1 ≤ places) × IsNextOf (terms_of claim.now) table.now.ops places op.now line.old }
    ensures laid { (places : ℕ) (front rest : List AnOp) → length table.now.ops + 1 ≤ places → table.now.ops ≡ front ++ op.now ∷ rest
        → AreLaid (terms_of claim.now) table.now.ops front places line.old → AreLaid (terms_of claim.now) table.now.ops (front ++ op.now ∷ []) places line.new }
{
    let item = item_of(claim, writes, table, &Some(*op));
    put_in(line, item);
}

/// Changes the items after an edit that took `old` out and put `new` in: the item of `old` goes, that of `new`
/// comes, and the covers before both are rebuilt. A cover that does not change is not touched.
pub fn change(
    line: &mut ReadTree,
    claim: &Claim,
    writes: &Writes,
    table: &OpTable,
    old: &Option<Op>,
    new: &Option<Op>,
)
    requires judged { CanJudge table.now.ops writes.now }
    requires change { (ops : List AnOp) × IsChangeOf (terms_of claim.now) ops table.now.ops old.now new.now × AreItemsOf (terms_of claim.now) ops line.old.items }
    requires room { IsSome new.now → 0 < line.old.free }
    ensures laid { AreItemsOf (terms_of claim.now) table.now.ops line.new.items }
    ensures free { new.now ≡ None → line.old.free ≤ line.new.free }
{
    change_item(line, claim, writes, table, old, new);
    let left = cover_before(claim, writes, table, &None, old);
    let come = cover_before_new(claim, writes, table, old, new);
    renew(line, left);
    renew(line, come);
}

/// The wrong read that ended first.
pub fn first_wrong<'t>(line: &ReadTree, table: &OpTable<'t>) -> Option<Op<'t>>
    ensures { (claim : ClaimModel) → AreOneWriters claim table.now.ops → AreItemsOf claim table.now.ops line.now.items → result ≡ first_wrong claim table.now.ops }
{
    each_spot_has_a_last_cover();
    short_reads_are_told();
    let item = line.first_uncovered()?;
    table.find(Some(item.id))
}

/// Whether no read is wrong.
pub fn holds(line: &ReadTree) -> bool
    ensures { (claim : ClaimModel) (ops : List AnOp) → AreOneWriters claim ops → AreItemsOf claim ops line.now.items → IsTrue result ↔ (first_wrong claim ops ≡ None) }
{
    each_spot_has_a_last_cover();
    short_reads_are_told();
    !line.has_uncovered()
}

/// Takes out the item of `old`, and puts in that of `new`. Where values have rows the next write says how far a
/// cover reaches, not the end of its own write: so the cover of a write that keeps its beginning, value and id is
/// not touched.
fn change_item(
    line: &mut ReadTree,
    claim: &Claim,
    writes: &Writes,
    table: &OpTable,
    old: &Option<Op>,
    new: &Option<Op>,
)
    requires judged { CanJudge table.now.ops writes.now }
    requires listed { IfSome new.now (Contains table.now.ops) }
    requires change { MayBeChanged (terms_of claim.now) table.now.ops old.now new.now line.old }
    ensures changed { IsChanged (terms_of claim.now) table.now.ops old.now new.now line.old.items line.new.items }
    ensures free { new.now ≡ None → line.old.free ≤ line.new.free }
{
    if !keeps_its_cover(claim, old, new) {
        let spot = spot_of(claim, old);
        let item = item_of(claim, writes, table, new);
        exchange(line, spot, item);
    }
}

/// Whether values have rows and the operation stays a write of its id, beginning and value: then its cover stays
/// as it is, whatever its end.
fn keeps_its_cover(claim: &Claim, old: &Option<Op>, new: &Option<Op>) -> bool
    ensures { result ≡ true → KeepsItsCover claim.now.kind old.now new.now }
{
    has_rows(claim.kind) && are_one_cover_in(old, new)
}

fn are_one_cover_in(old: &Option<Op>, new: &Option<Op>) -> bool
    ensures { result ≡ true → AreOneCoverIn old.now new.now }
{
    match (old, new) {
        (Some(old), Some(new)) => are_one_cover(old, new),
        _ => false,
    }
}

fn are_one_cover(old: &Op, new: &Op) -> bool
    ensures { result ≡ true → AreOneCover old.now new.now }
{
    stand_alike(old, new) && is_same_value(old.value(), new.value())
}

/// Takes out the item at the spot, and puts the new one in.
fn exchange(line: &mut ReadTree, spot: Option<Spot>, item: Option<RowItem>)
    requires room { IsSome item → 0 < line.old.free }
    requires taken { HasItemAt spot line.old.items }
    requires apart { IsFreeFor spot item line.old.items }
    ensures exchanged { IsExchanged spot item line.old.items line.new.items }
    ensures free { item ≡ None → line.old.free ≤ line.new.free }
{
    if is_place_of(spot, item) {
        renew_in(line, item);
    } else {
        take_out(line, spot);
        put_in(line, item);
    }
}

/// Whether the item belongs at the spot.
fn is_place_of(spot: Option<Spot>, item: Option<RowItem>) -> bool
    ensures { result ≡ true → (s : ASpot) × (x : AnItem) × (spot ≡ Some s) × (item ≡ Some x) × (spot_of_item x ≡ s) }
{
    match (spot, item) {
        (Some(spot), Some(item)) => item.spot() == spot,
        _ => false,
    }
}

fn take_out(line: &mut ReadTree, spot: Option<Spot>)
    ensures items { line.new.items ≡ items_without spot line.old.items }
    ensures free { line.old.free ≤ line.new.free }
{
    if let Some(spot) = spot {
        let _ = line.remove(spot);
    }
}

fn put_in(line: &mut ReadTree, item: Option<RowItem>)
    requires room { IsSome item → 0 < line.old.free }
    requires new_spot { IfSome item (λ x. item_at_spot (spot_of_item x) line.old.items ≡ None) }
    ensures items { line.new.items ≡ items_with item line.old.items }
    ensures free { item ≡ None → line.new.free ≡ line.old.free }
    ensures one { line.old.free ≤ line.new.free + 1 }
{
    if let Some(item) = item {
        line.insert(item);
    }
}

fn renew_in(line: &mut ReadTree, item: Option<RowItem>)
    ensures items { line.new.items ≡ items_renewed item line.old.items }
    ensures free { line.new.free ≡ line.old.free }
{
    if let Some(item) = item {
        line.renew(item);
    }
}

/// Puts the item in the place of the one at its spot.
fn renew(line: &mut ReadTree, item: Option<RowItem>)
    ensures renewed { IsRenewed item line.old.items line.new.items }
    ensures order { AreItemsInOrder line.new.items }
    ensures free { line.new.free ≡ line.old.free }
{
    renew_in(line, item);
    let _ = line.has_uncovered();
}
