//! Rows of reads that are judged one by one, in the order of their ends.

ghost use Rattle.std.specs.Prelude.{◌≡◌, ◌⊎◌, ◌↔◌, ◌<◌, ◌≤◌, ℕ, [], List, length, IfSome, IsSome, IsTrue, None, Some, true, false, OnOk, vec_len, vec_capacity, slice_index_or, ◌+◌};
ghost use Rattle.intervals.specs.declared.operation.Op.{Op as AnOp};
ghost use Rattle.intervals.specs.Judging.{end_number, first_wrong};
ghost use Rattle.intervals.specs.Operation.{IsJudgedRead, IsWrite, Precedes, value_of};
ghost use Rattle.intervals.specs.Terms.{ClaimModel, terms_of};
ghost use Rattle.safe_regular.specs.Change.{IsChangeOf};
ghost use Rattle.safe_regular.specs.Held.{AreOneWriters};
ghost use Rattle.safe_regular.specs.Rows.{AreJudged, AreJudgedAgain, AreKept, AreRising, EndFrom, HasRowRoom, IsEndOf, IsNoneWrong, IsPlaceOf, IsPut, IsPutFor, IsWrongAt, is_wrong_row};
ghost use Rattle.safe_regular.specs.Seen.{AreOneTo, BeginsAfterRead, LeavesAlone};
ghost use Rattle.safe_regular.specs.Writes.{AreWrites};
ghost use Rattle.safe_regular.specs.declared.judged.JudgedRead.{JudgedRead as ARow};
ghost use Rattle.safe_regular.specs.declared.sentence.TheConstants.{LOOKS};

use crate::sentence::{LOOKS, is_wrong};
use crate::writes::Writes;
use intervals::{Claim, Memory, Moment, Op, OpId, OpTable, is_same_value};
use std::alloc::Global;

/// The verdict on the read of that id and end. Where that read is gone its row stays, and is not wrong.
#[derive(Clone, Copy)]
pub struct JudgedRead {
    end: Moment,
    id: OpId,
    wrong: bool,
}

/// A row for each read that has an end, in the order of the ends.
#[derive(Drop)]
pub struct JudgedReads {
    rows: Vec<JudgedRead>,
    /// How many rows are before the first wrong one; where none is wrong, how many there are.
    first: usize,
    /// No judged read begins later: it is the latest beginning of those that were ever put in.
    latest: Moment,
}

impl JudgedReads {
    pub fn new(alloc: Global) -> Self
        ensures rows { result.rows.items ≡ [] }
    {
        JudgedReads {
            rows: Vec::new(alloc),
            first: 0,
            latest: Moment(0),
        }
    }

    /// Makes room for one row more.
    pub fn reserve(&mut self) -> Result<(), Memory>
        ensures rows { self.new.rows.items ≡ self.old.rows.items }
        ensures first { self.new.first ≡ self.old.first }
        ensures latest { self.new.latest ≡ self.old.latest }
        ensures ok { OnOk result (HasRowRoom self.new) }
    {
        self.rows.reserve(1)?;
        Ok(())
    }

    /// The wrong read that ended first.
    pub fn first_wrong<'t>(&self, table: &OpTable<'t>) -> Option<Op<'t>>
        ensures { (claim : ClaimModel) → AreOneWriters claim table.now.ops → AreJudged claim table.now.ops self.now → result ≡ first_wrong claim table.now.ops }
    {
        let row = row_at(self.rows.as_slice(), self.first)?;
        table.find(Some(row.id))
    }

    /// Whether no read is wrong.
    pub fn holds(&self) -> bool
        ensures { (claim : ClaimModel) (ops : List AnOp) → AreOneWriters claim ops → AreJudged claim ops self.now → IsTrue result ↔ (first_wrong claim ops ≡ None) }
    {
        self.rows.len() <= self.first
    }

    /// After an edit that took `old` out and put `new` in, judges again the reads that it can change. It returns
    /// `false` where they are too many or need too many looks; then the rows are of no use any more.
    pub fn change(
        &mut self,
        claim: &Claim,
        writes: &Writes,
        table: &OpTable,
        old: &Option<Op>,
        new: &Option<Op>,
    ) -> bool
        requires room { IsSome new.now → HasRowRoom self.old }
        ensures judged { result ≡ true → AreWrites table.now.ops writes.now → (ops : List AnOp) → IsChangeOf (terms_of claim.now) ops table.now.ops old.now new.now
            → AreJudged (terms_of claim.now) ops self.old → AreJudged (terms_of claim.now) table.now.ops self.new }
        ensures room { new.now ≡ None → HasRowRoom self.old → HasRowRoom self.new }
    {
        let from = first_changed(old, new, self.latest);
        if !self.put(new) {
            return false;
        }
        if !self.judge_ends(claim, writes, table, old, new) {
            return false;
        }
        if !self.judge_from(claim, writes, table, from) {
            return false;
        }
        self.find_first()
    }

    /// Puts in a row for a read that has an end. It returns `false` where that row belongs too far back.
    fn put(&mut self, op: &Option<Op>) -> bool
        requires room { IsSome op.now → HasRowRoom self.old }
        ensures rows { result ≡ true → AreRising self.old.rows.items → IsPutFor op.now self.old.rows.items self.new.rows.items }
        ensures rising { AreRising self.old.rows.items → AreRising self.new.rows.items }
        ensures front { IsNoneWrong self.old.first self.old.rows.items → IsNoneWrong self.new.first self.new.rows.items }
        ensures later { self.old.latest.0 ≤ self.new.latest.0 }
        ensures latest { result ≡ true → (o : AnOp) → op.now ≡ Some o → IsJudgedRead o → o.begin.0 ≤ self.new.latest.0 }
        ensures room { op.now ≡ None → HasRowRoom self.old → HasRowRoom self.new }
    {
        let Some(op) = op else {
            return true;
        };
        if op.is_judged_read() {
            self.put_read(op)
        } else {
            true
        }
    }

    fn put_read(&mut self, read: &Op) -> bool
        requires room { HasRowRoom self.old }
        ensures rows { result ≡ true → AreRising self.old.rows.items
            → (row : ARow) × (row.end.0 ≡ end_number read.now) × (row.id ≡ read.now.id) × IsPut row self.old.rows.items self.new.rows.items }
        ensures rising { AreRising self.old.rows.items → AreRising self.new.rows.items }
        ensures front { IsNoneWrong self.old.first self.old.rows.items → IsNoneWrong self.new.first self.new.rows.items }
        ensures later { self.old.latest.0 ≤ self.new.latest.0 }
        ensures latest { result ≡ true → read.now.begin.0 ≤ self.new.latest.0 }
    {
        let Some(place) = place_back(self.rows.as_slice(), read.end_number()) else {
            return false;
        };
        self.latest = Moment(self.latest.0.max(read.begin.0));
        let row = JudgedRead {
            end: Moment(read.end_number()),
            id: read.id,
            wrong: false,
        };
        put_row(&mut self.rows, &mut self.first, place, row);
        true
    }

    /// Judges `old` and `new` again, where they are reads that have an end. It returns `false` where that needs
    /// too many looks, as do the calls that judge below.
    fn judge_ends(
        &mut self,
        claim: &Claim,
        writes: &Writes,
        table: &OpTable,
        old: &Option<Op>,
        new: &Option<Op>,
    ) -> bool
        ensures kept { AreKept self.old self.new }
        ensures judged { result ≡ true → AreWrites table.now.ops writes.now → AreOneWriters (terms_of claim.now) table.now.ops → AreRising self.old.rows.items
            → AreJudgedAgain (terms_of claim.now) table.now.ops (λ n. IsEndOf old.now n ⊎ IsEndOf new.now n) self.old.rows.items self.new.rows.items }
    {
        if !self.judge_end(claim, writes, table, old) {
            return false;
        }
        self.judge_end(claim, writes, table, new)
    }

    fn judge_end(
        &mut self,
        claim: &Claim,
        writes: &Writes,
        table: &OpTable,
        op: &Option<Op>,
    ) -> bool
        ensures kept { AreKept self.old self.new }
        ensures judged { result ≡ true → AreWrites table.now.ops writes.now → AreOneWriters (terms_of claim.now) table.now.ops → AreRising self.old.rows.items
            → AreJudgedAgain (terms_of claim.now) table.now.ops (IsEndOf op.now) self.old.rows.items self.new.rows.items }
    {
        let Some(op) = op else {
            return true;
        };
        if op.is_judged_read() {
            self.judge_at(claim, writes, table, op.end_number())
        } else {
            true
        }
    }

    /// Judges the row that ends at the moment, if there is one.
    fn judge_at(&mut self, claim: &Claim, writes: &Writes, table: &OpTable, number: u64) -> bool
        ensures kept { AreKept self.old self.new }
        ensures judged { result ≡ true → AreWrites table.now.ops writes.now → AreOneWriters (terms_of claim.now) table.now.ops → AreRising self.old.rows.items
            → AreJudgedAgain (terms_of claim.now) table.now.ops (λ n. n ≡ number) self.old.rows.items self.new.rows.items }
    {
        let place = place_of(self.rows.as_slice(), number);
        if is_end_at(self.rows.as_slice(), place, number) {
            self.judge_row(claim, writes, table, place)
        } else {
            true
        }
    }

    /// Judges the rows that end at the moment or later.
    fn judge_from(&mut self, claim: &Claim, writes: &Writes, table: &OpTable, number: u64) -> bool
        ensures kept { AreKept self.old self.new }
        ensures judged { result ≡ true → AreWrites table.now.ops writes.now → AreOneWriters (terms_of claim.now) table.now.ops → AreRising self.old.rows.items
            → AreJudgedAgain (terms_of claim.now) table.now.ops (λ n. number ≤ n) self.old.rows.items self.new.rows.items }
    {
        let Some(place) = place_back(self.rows.as_slice(), number) else {
            return false;
        };
        self.judge_rows(claim, writes, table, place)
    }

    /// Judges the rows from the place on.
    fn judge_rows(&mut self, claim: &Claim, writes: &Writes, table: &OpTable, at: usize) -> bool
        ensures kept { AreKept self.old self.new }
        ensures judged { result ≡ true → AreWrites table.now.ops writes.now → AreOneWriters (terms_of claim.now) table.now.ops → AreRising self.old.rows.items
            → (number : ℕ) → IsPlaceOf number self.old.rows.items at → AreJudgedAgain (terms_of claim.now) table.now.ops (λ n. number ≤ n) self.old.rows.items self.new.rows.items }
    {
        if self.rows.len() <= at {
            return true;
        }
        if !self.judge_row(claim, writes, table, at) {
            return false;
        }
        self.judge_rows(claim, writes, table, at + 1)
    }

    fn judge_row(&mut self, claim: &Claim, writes: &Writes, table: &OpTable, at: usize) -> bool
        requires within { at < vec_len self.old.rows }
        ensures kept { AreKept self.old self.new }
        ensures judged { result ≡ true → AreWrites table.now.ops writes.now → AreOneWriters (terms_of claim.now) table.now.ops → AreRising self.old.rows.items
            → (number : ℕ) → ((d : ARow) → (slice_index_or self.old.rows.items at d).end.0 ≡ number)
            → AreJudgedAgain (terms_of claim.now) table.now.ops (λ n. n ≡ number) self.old.rows.items self.new.rows.items }
    {
        let row = self.rows[at];
        let Some(wrong) = is_wrong_row(claim, writes, table, &row) else {
            return false;
        };
        self.rows[at] = JudgedRead { wrong, ..row };
        if wrong && at < self.first {
            self.first = at;
        }
        true
    }

    /// Moves `first` on to the first wrong row, or to the end of the rows. It returns `false` where that is too
    /// far on.
    fn find_first(&mut self) -> bool
        ensures rows { self.new.rows ≡ self.old.rows }
        ensures latest { self.new.latest ≡ self.old.latest }
        ensures front { IsNoneWrong self.old.first self.old.rows.items → IsNoneWrong self.new.first self.new.rows.items }
        ensures first { result ≡ true → IsWrongAt self.new.first self.new.rows.items }
        ensures near { self.new.first ≤ self.old.first + LOOKS }
    {
        let Some(first) = first_wrong_from(self.rows.as_slice(), self.first, LOOKS) else {
            return false;
        };
        self.first = first;
        true
    }
}

/// Puts a row at the place for its end: in the place of one that ends with it, or before those that end later.
fn put_row(rows: &mut Vec<JudgedRead>, first: &mut usize, place: usize, row: JudgedRead)
    requires room { vec_len rows.old < vec_capacity rows.old }
    requires within { place ≤ vec_len rows.old }
    requires right { row.wrong ≡ false }
    ensures put { IsPlaceOf row.end.0 rows.old.items place → IsPut row rows.old.items rows.new.items }
    ensures rising { AreRising rows.old.items → IsPlaceOf row.end.0 rows.old.items place → AreRising rows.new.items }
    ensures front { IsNoneWrong first.old rows.old.items → IsNoneWrong first.new rows.new.items }
{
    if is_end_at(rows.as_slice(), place, row.end.0) {
        rows[place] = row;
        return;
    }
    let Ok(()) = rows.insert(place, row) else {
        unreachable!()
    };
    if place <= *first {
        *first = first.saturating_add(1);
    }
}

fn row_at(rows: &[JudgedRead], place: usize) -> Option<JudgedRead>
    ensures there { IfSome result (λ row. (place < length rows.now) × ((d : ARow) → slice_index_or rows.now place d ≡ row)) }
    ensures none { result ≡ None → length rows.now ≤ place }
{
    rows.get(place).copied()
}

fn is_end_at(rows: &[JudgedRead], place: usize, number: u64) -> bool
    ensures there { result ≡ true → (place < length rows.now) × ((d : ARow) → (slice_index_or rows.now place d).end.0 ≡ number) }
    ensures not { result ≡ false → place < length rows.now → (d : ARow) → ¬ ((slice_index_or rows.now place d).end.0 ≡ number) }
{
    match row_at(rows, place) {
        Some(row) => row.end.0 == number,
        None => false,
    }
}

/// The place of the first wrong row from `at` on, or the end of the rows. `None` where that is more than `looks`
/// steps on.
fn first_wrong_from(rows: &[JudgedRead], at: usize, looks: usize) -> Option<usize>
    ensures front { IsNoneWrong at rows.now → IfSome result (λ first. IsNoneWrong first rows.now) }
    ensures wrong { IfSome result (λ first. IsWrongAt first rows.now) }
    ensures near { IfSome result (λ first. first ≤ at + looks) }
{
    let Some(row) = row_at(rows, at) else {
        return Some(at);
    };
    if row.wrong {
        return Some(at);
    }
    if looks == 0 {
        return None;
    }
    first_wrong_from(rows, at + 1, looks - 1)
}

/// The place of the first row that ends at the moment or later. `None` where that is more than `LOOKS` steps back
/// from the end of the rows.
fn place_back(rows: &[JudgedRead], number: u64) -> Option<usize>
    ensures within { IfSome result (λ place. place ≤ length rows.now) }
    ensures place { AreRising rows.now → IfSome result (IsPlaceOf number rows.now) }
    ensures near { IfSome result (λ place. length rows.now ≤ place + LOOKS) }
{
    place_back_from(rows, number, rows.len(), LOOKS)
}

fn place_back_from(rows: &[JudgedRead], number: u64, at: usize, looks: usize) -> Option<usize>
    requires within { at ≤ length rows.now }
    ensures within { IfSome result (λ place. place ≤ length rows.now) }
    ensures place { AreRising rows.now → EndFrom number rows.now at → IfSome result (IsPlaceOf number rows.now) }
    ensures near { IfSome result (λ place. at ≤ place + looks) }
{
    if at == 0 {
        return Some(at);
    }
    if rows[at - 1].end.0 < number {
        return Some(at);
    }
    if looks == 0 {
        return None;
    }
    place_back_from(rows, number, at - 1, looks - 1)
}

/// The place of the first row that ends at the moment or later.
fn place_of(rows: &[JudgedRead], number: u64) -> usize
    ensures place { AreRising rows.now → IsPlaceOf number rows.now result }
{
    match place_back(rows, number) {
        Some(place) => place,
        None => place_among(rows, number),
    }
}

fn place_among(rows: &[JudgedRead], number: u64) -> usize
    ensures place { AreRising rows.now → IsPlaceOf number rows.now result }
{
    rows.partition_point(|row| row.end.0 < number)
}

/// Whether the read of the row's id and end is wrong; one that is gone is not. `None` where that needs too many
/// looks.
fn is_wrong_row(claim: &Claim, writes: &Writes, table: &OpTable, row: &JudgedRead) -> Option<bool>
    ensures { AreWrites table.now.ops writes.now → AreOneWriters (terms_of claim.now) table.now.ops
        → IfSome result (λ wrong. wrong ≡ is_wrong_row (terms_of claim.now) table.now.ops row.now) }
{
    let Some(op) = table.find(Some(row.id)) else {
        return Some(false);
    };
    if op.is_judged_read() && op.end_number() == row.end.0 {
        is_wrong(claim, writes, table, &op)
    } else {
        Some(false)
    }
}

/// The reads that end at this moment or later are to be judged again: it is the first beginning of the writes
/// among `old` and `new`, since a read that ended before it sees the same writes. It is `u64::MAX` where a write
/// keeps its beginning and value, and neither end is before `latest`, after which no read began.
fn first_changed(old: &Option<Op>, new: &Option<Op>, latest: Moment) -> u64
    ensures { (r : AnOp) → r.begin.0 ≤ latest.0 → end_number r < result → LeavesAlone r old.now new.now }
{
    if are_one_past(old, new, latest) {
        u64::MAX
    } else {
        begin_of(old).min(begin_of(new))
    }
}

/// Where the write begins; `u64::MAX` where there is none.
fn begin_of(op: &Option<Op>) -> u64
    ensures { (r : AnOp) → end_number r < result → BeginsAfterRead r op.now }
{
    let Some(op) = op else {
        return u64::MAX;
    };
    if op.is_write() { op.begin.0 } else { u64::MAX }
}

/// Whether a write keeps its beginning and value, and neither end is before the moment.
fn are_one_past(old: &Option<Op>, new: &Option<Op>, latest: Moment) -> bool
    ensures { result ≡ true → (r : AnOp) → r.begin.0 ≤ latest.0 → AreOneTo r old.now new.now }
{
    match (old, new) {
        (Some(old), Some(new)) => {
            begin_alike(old, new) && ends_from(old, latest) && ends_from(new, latest)
        }
        _ => false,
    }
}

fn begin_alike(old: &Op, new: &Op) -> bool
    ensures { result ≡ true → IsWrite old.now × IsWrite new.now × (old.now.begin.0 ≡ new.now.begin.0) × (value_of old.now.act ≡ value_of new.now.act) }
{
    old.is_write()
        && new.is_write()
        && old.begin.0 == new.begin.0
        && is_same_value(old.value(), new.value())
}

fn ends_from(op: &Op, latest: Moment) -> bool
    ensures { result ≡ true → (r : AnOp) → r.begin.0 ≤ latest.0 → ¬ Precedes op.now r }
{
    match op.end {
        Some(end) => latest.0 <= end.0,
        None => true,
    }
}
