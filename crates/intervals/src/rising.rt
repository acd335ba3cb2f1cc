//! A map of keys that mostly come in rising order.

ghost use Rattle.std.specs.Prelude.{◌≡◌, ◌↔◌, ◌+◌, ◌<◌, ◌≤◌, ℕ, false, All, IfSome, IsTrue, None, Some, length, slice_index_or, OnOk, if◌then◌else◌};
ghost use Rattle.std.specs.declared.cmp.Ordering.TheVariants.{Less};
ghost use Rattle.std.specs.List.{IsFirstMatchOrLen};
ghost use Rattle.intervals.specs.Rising.{AreRising, HasRoom, IsInOrder, value_at, value_in};

use crate::Memory;
use std::alloc::Global;
use std::collections::HashMap;
use std::hash::Hash;

/// A value for each key. A key that comes after those of all rows gets a row of its own, the last one; other keys
/// are found by their hash. Where a key is removed its row stays, without a value.
#[derive(Drop)]
pub struct RisingMap<K: Ord + Hash + Copy, V: Copy> {
    rows: Vec<(K, Option<V>)>,
    others: HashMap<K, V>,
}

impl<K: Ord + Hash + Copy + Drop, V: Copy + Drop> RisingMap<K, V> {
    pub(crate) fn new(alloc: Global) -> Self
        ensures order { IsInOrder K.eq K.cmp result }
        ensures empty { (key : K) → value_at K.eq result key ≡ None }
    {
        RisingMap {
            rows: Vec::new(alloc),
            others: HashMap::new(alloc),
        }
    }

    /// The value of the key.
    pub(crate) fn get(&self, key: K) -> Option<V>
        requires { IsInOrder K.eq K.cmp self.now }
        ensures { result ≡ value_at K.eq self.now key }
    {
        if is_past(self.rows.as_slice(), key) {
            return None;
        }
        match value_of(self.rows.as_slice(), key) {
            Some(value) => Some(value),
            None => self.others.get(&key).copied(),
        }
    }

    /// Makes room for this many more keys.
    pub(crate) fn reserve(&mut self, keys: usize) -> Result<(), Memory>
        ensures order { IsInOrder K.eq K.cmp self.old → IsInOrder K.eq K.cmp self.new }
        ensures values { (key : K) → value_at K.eq self.new key ≡ value_at K.eq self.old key }
        ensures ok { OnOk result (HasRoom self.new keys) }
        ensures kept { (n : ℕ) → HasRoom self.old n → HasRoom self.new n }
    {
        self.rows.reserve(keys)?;
        self.others.reserve(keys)?;
        Ok(())
    }

    /// Puts the value at the key. It takes no memory: there is room.
    pub(crate) fn put(&mut self, key: K, value: V)
        requires order { IsInOrder K.eq K.cmp self.old }
        requires room { HasRoom self.old 1 }
        ensures order { IsInOrder K.eq K.cmp self.new }
        ensures values { (other : K) → value_at K.eq self.new other ≡ (if K.eq key other then Some value else value_at K.eq self.old other) }
        ensures kept { (n : ℕ) → HasRoom self.old (n + 1) → HasRoom self.new n }
    {
        if is_past(self.rows.as_slice(), key) {
            self.rows.push_reserved((key, Some(value)));
        } else if let Some(row) = row_of(self.rows.as_slice(), key) {
            self.rows[row].1 = Some(value);
        } else {
            let Ok(_) = self.others.insert(key, value) else {
                unreachable!()
            };
        }
    }

    /// Removes the value of the key.
    pub(crate) fn remove(&mut self, key: K)
        requires { IsInOrder K.eq K.cmp self.old }
        ensures order { IsInOrder K.eq K.cmp self.new }
        ensures values { (other : K) → value_at K.eq self.new other ≡ (if K.eq key other then None else value_at K.eq self.old other) }
        ensures kept { (n : ℕ) → HasRoom self.old n → HasRoom self.new n }
    {
        if let Some(row) = row_of(self.rows.as_slice(), key) {
            self.rows[row].1 = None;
        }
        self.others.remove(&key);
    }
}

/// Whether the key comes after those of all rows.
fn is_past<K: Ord + Copy, V: Copy>(rows: &[(K, Option<V>)], key: K) -> bool
    requires { AreRising K.cmp rows.now }
    ensures { IsTrue result ↔ All (λ row. K.cmp row.0 key ≡ Less) rows.now }
{
    match rows.last() {
        Some(last) => last.0.cmp(&key).is_lt(),
        None => true,
    }
}

/// The value in the row of the key.
fn value_of<K: Ord + Copy + Drop, V: Copy>(rows: &[(K, Option<V>)], key: K) -> Option<V>
    requires { AreRising K.cmp rows.now }
    ensures { result ≡ value_in K.eq rows.now key }
{
    let row = row_of(rows, key)?;
    rows[row].1
}

/// The number of the row of the key. The latest rows are looked at first.
fn row_of<K: Ord + Copy + Drop, V: Copy>(rows: &[(K, Option<V>)], key: K) -> Option<usize>
    requires { AreRising K.cmp rows.now }
    ensures within { IfSome result (λ i. i < length rows.now) }
    ensures first { IfSome result (IsFirstMatchOrLen (λ row. K.eq key row.0) rows.now) }
    ensures none { result ≡ None → All (λ row. K.eq key row.0 ≡ false) rows.now }
{
    if let Some(row) = late_row_of(rows, key) {
        return Some(row);
    }
    let from = start_for(rows, key);
    match rows[from..].binary_search_by_key(&key, |row| row.0) {
        Ok(place) => Some(from + place),
        Err(_) => None,
    }
}

/// The number of the row of the key, where it is one of the last eight: most look-ups are for these.
fn late_row_of<K: Ord + Copy, V: Copy>(rows: &[(K, Option<V>)], key: K) -> Option<usize>
    requires { AreRising K.cmp rows.now }
    ensures within { IfSome result (λ i. i < length rows.now) }
    ensures first { IfSome result (IsFirstMatchOrLen (λ row. K.eq key row.0) rows.now) }
{
    for back in 1..9 {
        if rows.len() < back {
            return None;
        }
        let row = rows.len() - back;
        if rows[row].0 == key {
            return Some(row);
        }
    }
    None
}

/// The number of a row before which all keys are less: from the end back by steps that grow fourfold.
fn start_for<K: Ord + Copy, V: Copy>(rows: &[(K, Option<V>)], key: K) -> usize
    requires { AreRising K.cmp rows.now }
    ensures within { result ≤ length rows.now }
    ensures less { (i : ℕ) → i < result → K.cmp (slice_index_or rows.now i (key, None)).0 key ≡ Less }
{
    let mut width = 4;
    while width < rows.len() {
        let from = rows.len() - width;
        if rows[from].0.cmp(&key).is_le() {
            return from;
        }
        width = width.saturating_mul(4);
    }
    0
}
