//! Which operation has each moment.

ghost use Rattle.std.specs.Prelude.{◌≡◌, ◌==◌, ◌+◌, ℕ, true, None, Some, if◌then◌else◌};
ghost use Rattle.intervals.specs.declared.operation.Moment.{Moment as AMoment};
ghost use Rattle.intervals.specs.Moments.{AreMoments, holder_at};
ghost use Rattle.intervals.specs.Refusal.{is_moment_of, has_early_end, has_large_moment};
ghost use Rattle.intervals.specs.Rising.{HasRoom};

use crate::rising::RisingMap;
use crate::{Moment, Op, OpId};

/// The greatest moment that an operation may have: the sum of two of them, with a sign, fits into 64 bits.
const GREATEST_MOMENT: u64 = 4611686018427387903;

/// Puts the operation's id at its moments.
pub(crate) fn put_moments(moments: &mut RisingMap<Moment, OpId>, op: &Op)
    requires order { AreMoments moments.old }
    requires room { HasRoom moments.old 2 }
    ensures order { AreMoments moments.new }
    ensures holders { (m : AMoment) → holder_at moments.new m ≡ (if is_moment_of op.now m then Some op.now.id else holder_at moments.old m) }
{
    moments.put(op.begin, op.id);
    if let Some(end) = op.end {
        moments.put(end, op.id);
    }
}

/// Takes the operation's id away from the moments that it no longer has, and puts it at those that are new. What
/// it keeps is not touched.
pub(crate) fn move_moments(moments: &mut RisingMap<Moment, OpId>, old: &Op, new: &Op)
    requires order { AreMoments moments.old }
    requires id { old.now.id ≡ new.now.id }
    requires held { (m : AMoment) → is_moment_of old.now m ≡ true → holder_at moments.old m ≡ Some old.now.id }
    requires room { HasRoom moments.old 2 }
    ensures order { AreMoments moments.new }
    ensures holders { (m : AMoment) → holder_at moments.new m ≡ (if is_moment_of new.now m then Some new.now.id else if is_moment_of old.now m then None else holder_at moments.old m) }
{
    leave(moments, old.begin, new);
    if let Some(end) = old.end {
        leave(moments, end, new);
    }
    enter(moments, new.begin, old);
    if let Some(end) = new.end {
        enter(moments, end, old);
    }
}

/// Takes the id away from the moment, unless the operation keeps it.
fn leave(moments: &mut RisingMap<Moment, OpId>, moment: Moment, new: &Op)
    requires { AreMoments moments.old }
    ensures order { AreMoments moments.new }
    ensures holders { (m : AMoment) → holder_at moments.new m ≡ (if moment.0 == m.0 then (if is_moment_of new.now m then holder_at moments.old m else None) else holder_at moments.old m) }
    ensures kept { (n : ℕ) → HasRoom moments.old n → HasRoom moments.new n }
{
    if !has_moment(new, moment) {
        moments.remove(moment);
    }
}

/// Puts the operation's id at the moment, unless it had it already.
fn enter(moments: &mut RisingMap<Moment, OpId>, moment: Moment, old: &Op)
    requires order { AreMoments moments.old }
    requires room { HasRoom moments.old 1 }
    requires held { is_moment_of old.now moment ≡ true → holder_at moments.old moment ≡ Some old.now.id }
    ensures order { AreMoments moments.new }
    ensures holders { (m : AMoment) → holder_at moments.new m ≡ (if moment.0 == m.0 then Some old.now.id else holder_at moments.old m) }
    ensures kept { (n : ℕ) → HasRoom moments.old (n + 1) → HasRoom moments.new n }
{
    if !has_moment(old, moment) {
        moments.put(moment, old.id);
    }
}

/// Takes the operation's id away from its moments.
pub(crate) fn take_moments(moments: &mut RisingMap<Moment, OpId>, op: &Op)
    requires { AreMoments moments.old }
    ensures order { AreMoments moments.new }
    ensures holders { (m : AMoment) → holder_at moments.new m ≡ (if is_moment_of op.now m then None else holder_at moments.old m) }
    ensures kept { (n : ℕ) → HasRoom moments.old n → HasRoom moments.new n }
{
    moments.remove(op.begin);
    if let Some(end) = op.end {
        moments.remove(end);
    }
}

/// Whether the operation has an end that is not after its beginning.
pub(crate) fn ends_too_early(op: &Op) -> bool
    ensures { result ≡ has_early_end op.now }
{
    match op.end {
        Some(end) => end.0 <= op.begin.0,
        None => false,
    }
}

/// Whether the operation begins or ends past the greatest moment.
pub(crate) fn is_too_large(op: &Op) -> bool
    ensures { result ≡ has_large_moment op.now }
{
    let end_is_past = match op.end {
        Some(end) => end.0 > GREATEST_MOMENT,
        None => false,
    };
    op.begin.0 > GREATEST_MOMENT || end_is_past
}

/// Whether the operation begins or ends at the moment.
fn has_moment(op: &Op, moment: Moment) -> bool
    ensures { result ≡ is_moment_of op.now moment }
{
    let ends_then = match op.end {
        Some(end) => end.0 == moment.0,
        None => false,
    };
    op.begin.0 == moment.0 || ends_then
}
