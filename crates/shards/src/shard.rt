//! The registers of one shard, with the journal of their edits.

ghost use Rattle.std.specs.Prelude.{◌≡◌, ◌<◌, ◌%◌, ◌/◌, ◌++◌, ◌∷◌, [], ℕ, false, ◌↔◌, IfOk, IfErr, IfSome, IsNone, IsTrue, OnOk, OnErr, length, replicate, map, option_map, option_to_list, Some, None, vec_len, vec_capacity};
ghost use Rattle.std.specs.Option.{option_map_or};
ghost use Rattle.std.specs.List.{slice_get};
ghost use Rattle.shards.specs.declared.fault.ShardFault.TheVariants.{Memory};
ghost use Rattle.intervals.specs.Terms.{unedited};
ghost use Rattle.intervals.specs.Kind.{Holds};
ghost use Rattle.register_book.specs.Fault.{ids_of, values_shown};
ghost use Rattle.register_book.specs.BookModel.{claimed_of};
ghost use Rattle.shards.specs.Plan.{plan_of, claims_of};
ghost use Rattle.shards.specs.Journal.{IsAnswered, count_by};
ghost use Rattle.shards.specs.Shard.{AreBooks, IsKeptShardOf, IsVerdictChangeTo, IsShardOf, held_of};
ghost use Rattle.shards.specs.Steps.{IsStanding, entry_of};
ghost use Rattle.shards.specs.VerdictChange.{IsChangeIfAny};

use crate::ghost_entries::GhostEntries;
use crate::{Answer, Entry, Opening, Receipt, ShardFault, VerdictChange};
use intervals::{Edit, RegId, Value};
use register_book::{Fault, RegisterBook, Witness};
use std::alloc::{AllocError, Global};
use tower_file::Tower;

/// One shard. Book `k` is that of register `k * shards + at`. Count `f` is how many entries are by feeder `f`, and `many`
/// how many there are in all. All entries are there in proofs alone. Where the shard `keeps` its journal, the journal has
/// them; else it is empty, and `by` has the feeder of each entry, in order, if there are several feeders.
#[derive(Drop)]
pub struct Shard<'t> {
    pub at: u32,
    pub shards: u32,
    pub many: u64,
    pub counts: Vec<usize>,
    pub books: Vec<RegisterBook<'t>>,
    pub changes: Vec<VerdictChange>,
    pub entries: GhostEntries<'t>,
    pub keeps: bool,
    pub journal: Vec<Entry<'t>>,
    pub by: Vec<u32>,
}

impl<'t> Shard<'t> {
    /// A shard of a tower before any edit, which keeps its journal or not.
    pub fn new(
        alloc: Global,
        tower: &Tower,
        at: u32,
        shards: u32,
        feeders: u32,
        keeps: bool,
    ) -> Result<Self, ShardFault>
        requires { at < shards }
        ensures keeps { IfOk result (λ shard. shard.keeps ≡ keeps) }
        ensures kept { IfOk result (λ shard. (name : ℕ) → IsShardOf (plan_of name tower.now shards feeders) shard) }
        ensures empty { IfOk result (λ shard. held_of shard ≡ record { at = at; journal = [] }) }
        ensures memory { IfErr result (λ fault. fault ≡ Memory) }
    {
        Ok(Shard {
            at,
            shards,
            many: 0,
            counts: no_counts(alloc, feeders)?,
            books: open_books(alloc, tower, at, shards)?,
            changes: Vec::new(alloc),
            entries: GhostEntries::new(),
            keeps,
            journal: Vec::new(alloc),
            by: Vec::new(alloc),
        })
    }

    /// Carries an edit out, or has the register refuse it, and enters it. All growths come first.
    pub fn enter<O: Opening>(
        &mut self,
        feeder: u32,
        register: RegId,
        edit: &Edit<'t>,
    ) -> Result<Receipt, ShardFault>
        requires kept { IsShardOf O.plan self.old }
        requires here { register.0 % O.plan.shards ≡ self.old.at }
        requires known { register.0 < length O.plan.claims }
        requires feeder { feeder < O.plan.feeders }
        ensures kept { IsShardOf O.plan self.new }
        ensures keeps { self.new.keeps ≡ self.old.keeps }
        ensures journal { IfOk result (λ receipt. held_of self.new ≡ record { at = self.old.at; journal = self.old.entries ++ entry_of feeder register edit.now receipt.reply ∷ [] }) }
        ensures answered { IfOk result (λ receipt. IsAnswered O.plan self.old.at self.old.entries (entry_of feeder register edit.now receipt.reply)) }
        ensures receipt { IfOk result (λ receipt. (receipt.shard ≡ self.old.at) × (receipt.number ≡ length self.old.entries)) }
        ensures change { IfOk result (λ receipt. IsChangeIfAny O.plan self.old.entries (entry_of feeder register edit.now receipt.reply) receipt.change) }
        ensures memory { IfErr result (λ fault. fault ≡ Memory) }
        ensures err { OnErr result (held_of self.new ≡ held_of self.old) }
    {
        let number = self.many;
        let Some(many) = number.checked_add(1) else {
            return Err(ShardFault::Memory);
        };
        let feeders = self.counts.len();
        make_room(&mut self.journal, &mut self.by, self.keeps, feeders)?;
        self.changes.reserve(1)?;
        let slot = (register.0 / self.shards) as usize;
        let book = &mut self.books[slot];
        let held = book.holds();
        let reply = book.apply(*edit)?;
        let change = change_to(book, register, number, held);
        let entry = Entry {
            feeder,
            register,
            edit: *edit,
            reply,
        };
        self.entries.add(&entry);
        keep(&mut self.journal, &mut self.by, self.keeps, feeders, &entry);
        note(&mut self.changes, change);
        self.counts[feeder as usize] += 1;
        self.many = many;
        Ok(Receipt {
            shard: self.at,
            number,
            reply,
            change,
        })
    }

    /// The answer to a question about a register.
    pub fn answer<O: Opening>(&self, register: RegId) -> Answer<'t>
        requires kept { IsShardOf O.plan self.now }
        requires here { register.0 % O.plan.shards ≡ self.now.at }
        requires known { register.0 < length O.plan.claims }
        ensures { IsStanding O.plan register.0 self.now.entries result }
    {
        let slot = (register.0 / self.shards) as usize;
        let book = &self.books[slot];
        let witness = book.witness();
        Answer {
            holds: book.holds(),
            operations: book.len() as u64,
            fault: fault_by(witness),
            witness,
            number: self.many,
        }
    }

    /// How many entries of the journal are by a feeder.
    pub fn count<O: Opening>(&self, feeder: u32) -> u64
        requires kept { IsShardOf O.plan self.now }
        requires feeder { feeder < O.plan.feeders }
        ensures { result ≡ count_by feeder self.now.entries }
    {
        self.counts[feeder as usize] as u64
    }

    /// The journal, where it is kept.
    pub fn kept<O: Opening>(&self) -> &[Entry<'t>]
        requires { IsKeptShardOf O.plan self.now }
        ensures { result.now ≡ self.now.entries }
    {
        self.journal.as_slice()
    }
}

/// Makes room for an entry in a journal that is kept, else for its feeder if there are several.
fn make_room(
    journal: &mut Vec<Entry>,
    by: &mut Vec<u32>,
    keeps: bool,
    feeders: usize,
) -> Result<(), AllocError>
    ensures same { (journal.new.items ≡ journal.old.items) × (by.new.items ≡ by.old.items) }
    ensures journal { OnOk result (IsTrue keeps → vec_len journal.new < vec_capacity journal.new) }
    ensures by { OnOk result (keeps ≡ false → 1 < feeders → vec_len by.new < vec_capacity by.new) }
{
    if keeps {
        journal.reserve(1)
    } else if feeders > 1 {
        by.reserve(1)
    } else {
        Ok(())
    }
}

/// Adds an entry to a journal that is kept, else its feeder if there are several, into room that is there for it.
fn keep<'t>(
    journal: &mut Vec<Entry<'t>>,
    by: &mut Vec<u32>,
    keeps: bool,
    feeders: usize,
    entry: &Entry<'t>,
)
    requires journal { IsTrue keeps → vec_len journal.old < vec_capacity journal.old }
    requires by { keeps ≡ false → 1 < feeders → vec_len by.old < vec_capacity by.old }
    ensures journal { IsTrue keeps → journal.new.items ≡ journal.old.items ++ entry.now ∷ [] }
    ensures by { keeps ≡ false → 1 < feeders → by.new.items ≡ by.old.items ++ entry.now.feeder ∷ [] }
{
    if keeps {
        journal.push_reserved(*entry);
    } else if feeders > 1 {
        by.push_reserved(entry.feeder);
    }
}

/// The change of the verdict on a register by the entry of this number; none where it is as before. `held` says what
/// it was.
fn change_to(book: &RegisterBook, register: RegId, number: u64, held: bool) -> Option<VerdictChange>
    ensures change { IfSome result (IsVerdictChangeTo book.now register number held) }
    ensures none { IsNone result → IsTrue held ↔ Holds (claimed_of book.now) }
{
    let holds = book.holds();
    if holds == held {
        return None;
    }
    let witness = book.witness();
    Some(VerdictChange {
        number,
        register,
        kind: book.kind(),
        holds,
        operations: book.len() as u64,
        fault: fault_by(witness),
        values: values_by(&witness),
    })
}

/// Adds a change, where there is one, into room that is there for it.
fn note(changes: &mut Vec<VerdictChange>, change: Option<VerdictChange>)
    requires room { vec_len changes.old < vec_capacity changes.old }
    ensures { changes.new.items ≡ changes.old.items ++ option_to_list change }
{
    if let Some(change) = change {
        changes.push_reserved(change);
    }
}

/// The fault of a witness: its operations by their ids.
fn fault_by(witness: Option<Witness>) -> Option<Fault>
    ensures { result ≡ option_map ids_of witness.entry }
{
    Some(witness?.ids())
}

/// The values that the operations of a witness read or wrote; none where there is none.
fn values_by(witness: &Option<Witness>) -> [Option<Value>; 2]
    ensures { result ≡ option_map_or values_shown witness.now (None ∷ None ∷ []) }
{
    match witness {
        Some(witness) => witness.values(),
        None => [None, None],
    }
}

fn no_counts(alloc: Global, feeders: u32) -> Result<Vec<usize>, ShardFault>
    ensures counts { IfOk result (λ counts. counts.items ≡ replicate feeders 0) }
    ensures memory { IfErr result (λ fault. fault ≡ Memory) }
{
    Ok(vec![in alloc; 0; feeders as usize]?)
}

/// A book of no operations for each register of a shard.
fn open_books<'t>(
    alloc: Global,
    tower: &Tower,
    at: u32,
    shards: u32,
) -> Result<Vec<RegisterBook<'t>>, ShardFault>
    requires { at < shards }
    ensures books { IfOk result (λ books. (name feeders : ℕ) → AreBooks (plan_of name tower.now shards feeders) at [] (map claimed_of books.items)) }
    ensures memory { IfErr result (λ fault. fault ≡ Memory) }
{
    let mut books = Vec::new(alloc);
    let mut register = at as usize;
    while register < tower.len() {
        open_book(alloc, tower, RegId(register as u32), &mut books)?;
        register += shards as usize;
    }
    Ok(books)
}

/// Adds the book of a register, where there is one of that number.
fn open_book<'t>(
    alloc: Global,
    tower: &Tower,
    id: RegId,
    books: &mut Vec<RegisterBook<'t>>,
) -> Result<(), ShardFault>
    ensures books { OnOk result (map claimed_of books.new.items ≡ map claimed_of books.old.items ++ option_to_list (option_map unedited (slice_get (claims_of tower.now) id.0))) }
    ensures memory { IfErr result (λ fault. fault ≡ Memory) }
{
    if let Some(claim) = tower.claim(id) {
        books.push(RegisterBook::new(alloc, claim)?)?;
    }
    Ok(())
}
