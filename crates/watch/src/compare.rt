//! Whether notices are those of closed journals.

ghost use Rattle.std.specs.Prelude.{◌≡◌, ◌≢◌, ◌↔◌, ◌∷◌, ◌++◌, ◌<◌, List, IfSome, IsNone, IsTrue};
ghost use Rattle.std.specs.Option.{option_to_list};
ghost use Rattle.shards.specs.declared.entry.VerdictChange.{VerdictChange as AChange};
ghost use Rattle.watch.specs.Noted.{IsToldOf};
ghost use Rattle.watch.specs.Watched.{AreTold, AreByEntries, HasEntryBy, IsByEntry, change_in, changes_in};

use crate::same::is_same;
use logs::Notice;
use shards::{Closed, VerdictChange};

/// Whether notices tell, of each shard, the changes of verdicts by the entries of its journal, in order: all of them,
/// or the first ones where the watch stopped; each by the feeder of its entry.
pub fn are_told(notices: &[Notice], closed: &Closed, shards: u32, stopped: bool) -> bool
    requires some { 0 < shards }
    ensures { IsTrue result ↔ (AreTold shards closed.now stopped notices.now × AreByEntries shards closed.now notices.now) }
{
    are_changes(notices, closed, shards, stopped) && are_by_entries(notices, closed, shards)
}

fn are_changes(notices: &[Notice], closed: &Closed, shards: u32, stopped: bool) -> bool
    requires some { 0 < shards }
    ensures { IsTrue result ↔ AreTold shards closed.now stopped notices.now }
{
    for at in 0..shards {
        if !is_told(notices, closed.changes(at), shards, at, stopped) {
            return false;
        }
    }
    true
}

/// Whether notices tell, of one shard, just these changes, or the first of them where the watch stopped.
fn is_told(notices: &[Notice], own: &[VerdictChange], shards: u32, at: u32, stopped: bool) -> bool
    requires some { 0 < shards }
    ensures { IsTrue result ↔ IsToldOf stopped (changes_in shards at notices.now) own.now }
{
    match rest_of(notices, own, shards, at) {
        Some(rest) => stopped || rest.is_empty(),
        None => false,
    }
}

/// What is left of the changes of a shard after those that notices tell; none where they tell others.
fn rest_of<'a>(
    notices: &[Notice],
    own: &'a [VerdictChange],
    shards: u32,
    at: u32,
) -> Option<&'a [VerdictChange]>
    requires some { 0 < shards }
    ensures rest { IfSome result (λ rest. own.now ≡ changes_in shards at notices.now ++ rest.now) }
    ensures none { IsNone result → (more : List AChange) → own.now ≢ changes_in shards at notices.now ++ more }
{
    let mut rest = own;
    for notice in notices {
        rest = left_after(rest, notice, shards, at)?;
    }
    Some(rest)
}

/// What is left of the changes of a shard after the one that a notice tells of it, if it does; none where the first one
/// is another.
fn left_after<'a>(
    changes: &'a [VerdictChange],
    notice: &Notice,
    shards: u32,
    at: u32,
) -> Option<&'a [VerdictChange]>
    requires some { 0 < shards }
    ensures more { IfSome result (λ more. changes.now ≡ option_to_list (change_in shards at notice.now) ++ more.now) }
    ensures none { IsNone result → (more : List AChange) → changes.now ≢ option_to_list (change_in shards at notice.now) ++ more }
{
    match change_in(notice, shards, at) {
        Some(change) => after(changes, &change),
        None => Some(changes),
    }
}

/// The change that a notice tells, where its register is in this shard.
fn change_in(notice: &Notice, shards: u32, at: u32) -> Option<VerdictChange>
    requires some { 0 < shards }
    ensures { result ≡ change_in shards at notice.now }
{
    match notice {
        Notice::Changed { change, .. } => {
            if change.register.0 % shards == at {
                Some(*change)
            } else {
                None
            }
        }
        Notice::Refused { .. } | Notice::Broke { .. } | Notice::Ended { .. } => None,
    }
}

/// What comes after a change; none where the first one is another.
fn after<'a>(changes: &'a [VerdictChange], change: &VerdictChange) -> Option<&'a [VerdictChange]>
    ensures more { IfSome result (λ more. changes.now ≡ change.now ∷ more.now) }
    ensures none { IsNone result → (more : List AChange) → changes.now ≢ change.now ∷ more }
{
    let (first, more) = changes.split_first()?;
    if is_same(first, change) {
        Some(more)
    } else {
        None
    }
}

fn are_by_entries(notices: &[Notice], closed: &Closed, shards: u32) -> bool
    requires some { 0 < shards }
    ensures { IsTrue result ↔ AreByEntries shards closed.now notices.now }
{
    notices
        .iter()
        .all(|notice| is_by_entry(notice, closed, shards))
}

/// Whether the entry of a change is by the feeder that the notice names.
fn is_by_entry(notice: &Notice, closed: &Closed, shards: u32) -> bool
    requires some { 0 < shards }
    ensures { IsTrue result ↔ IsByEntry shards closed.now notice.now }
{
    match notice {
        Notice::Changed { feeder, change, .. } => {
            is_by(closed, change.register.0 % shards, change.number, *feeder)
        }
        Notice::Refused { .. } | Notice::Broke { .. } | Notice::Ended { .. } => true,
    }
}

/// Whether a shard's journal has an entry of this number by this feeder.
fn is_by(closed: &Closed, at: u32, number: u64, feeder: u32) -> bool
    ensures { IsTrue result ↔ HasEntryBy closed.now at number feeder }
{
    match closed.feeder_of(at, number) {
        Some(by) => by == feeder,
        None => false,
    }
}
