//! Whether what notices note of traces is what the logs have.

ghost use Rattle.std.specs.Prelude.{◌≡◌, ◌≢◌, ◌↔◌, ◌∷◌, ◌++◌, ◌<◌, [], ℕ, List, Some, All, IfSome, IsNone, IsTrue, filter_map};
ghost use Rattle.std.specs.List.{slice_get};
ghost use Rattle.std.specs.Option.{option_to_list};
ghost use Rattle.logs.specs.Code.{refused_code};
ghost use Rattle.logs.specs.declared.log.Log.{Log as ALog};
ghost use Rattle.watch.specs.Left.{notes_left};
ghost use Rattle.watch.specs.Noted.{AreNoted, IsToldOf, Note, feeder_of_notice, note_of, note_of_break, note_of_line, note_of_refusal, notes_of_log};
ghost use Rattle.watch.specs.Noted.Note.{Ended as NoteOfEnd};

use crate::same::is_same_about;
use logs::{Broken, LeftOut, Line, Log, Notice, What};

/// What is left to be noted of a trace.
#[derive(Clone, Copy)]
pub struct Left<'a, 't> {
    pub lines: &'a [Line<'t>],
    pub broken: Option<Broken>,
    pub ended: bool,
}

/// Whether notices note, of each trace, what its log has, in order: all of it, or the first of it where the watch
/// stopped; and none names a trace that there is not.
pub fn are_noted(notices: &[Notice], logs: &[Log], stopped: bool) -> bool
    ensures { IsTrue result ↔ AreNoted logs.now stopped notices.now }
{
    are_named(notices, logs.len()) && are_each_noted(notices, logs, stopped)
}

fn are_named(notices: &[Notice], logs: usize) -> bool
    ensures { IsTrue result ↔ All (λ notice. feeder_of_notice notice < logs) notices.now }
{
    notices
        .iter()
        .all(|notice| (feeder_of(notice) as usize) < logs)
}

/// The feeder that a notice names.
fn feeder_of(notice: &Notice) -> u32
    ensures { result ≡ feeder_of_notice notice.now }
{
    match notice {
        Notice::Changed { feeder, .. } => *feeder,
        Notice::Refused { feeder, .. } => *feeder,
        Notice::Broke { feeder, .. } => *feeder,
        Notice::Ended { feeder, .. } => *feeder,
    }
}

fn are_each_noted(notices: &[Notice], logs: &[Log], stopped: bool) -> bool
    ensures { IsTrue result ↔ ((at : ℕ) (log : ALog) → slice_get logs.now at ≡ Some log → IsToldOf stopped (filter_map (note_of at) notices.now) (notes_of_log log)) }
{
    for at in 0..logs.len() {
        if !is_noted(notices, &logs[at], at, stopped) {
            return false;
        }
    }
    true
}

/// Whether notices note, of one trace, just what its log has, or the first of it where the watch stopped.
fn is_noted(notices: &[Notice], log: &Log, at: usize, stopped: bool) -> bool
    ensures { IsTrue result ↔ IsToldOf stopped (filter_map (note_of at) notices.now) (notes_of_log log.now) }
{
    match rest_of(notices, log, at) {
        Some(rest) => stopped || is_over(rest),
        None => false,
    }
}

/// Whether nothing is left to be noted: not even the end.
fn is_over(left: Left) -> bool
    ensures { IsTrue result ↔ notes_left left.entry ≡ [] }
{
    left.ended && left.broken.is_none() && next_refusal(left.lines).is_none()
}

/// What is left to be noted of a trace after what notices note; none where they note other things.
fn rest_of<'a, 't>(notices: &[Notice], log: &'a Log<'t>, at: usize) -> Option<Left<'a, 't>>
    ensures rest { IfSome result (λ rest. notes_of_log log.now ≡ filter_map (note_of at) notices.now ++ notes_left rest) }
    ensures none { IsNone result → (more : List Note) → notes_of_log log.now ≢ filter_map (note_of at) notices.now ++ more }
{
    let mut left = Left {
        lines: log.lines.as_slice(),
        broken: log.broken,
        ended: false,
    };
    for notice in notices {
        left = left_after(left, notice, at)?;
    }
    Some(left)
}

/// What is left after what a notice notes of the trace, if it does; none where another note is the first one.
fn left_after<'a, 't>(left: Left<'a, 't>, notice: &Notice, at: usize) -> Option<Left<'a, 't>>
    ensures more { IfSome result (λ more. notes_left left.entry ≡ option_to_list (note_of at notice.now) ++ notes_left more) }
    ensures none { IsNone result → (more : List Note) → notes_left left.entry ≢ option_to_list (note_of at notice.now) ++ more }
{
    if feeder_of(notice) as usize != at {
        return Some(left);
    }
    match notice {
        Notice::Changed { .. } => Some(left),
        Notice::Refused {
            place,
            left_out,
            ..
        } => after_refusal(left, *place, left_out),
        Notice::Broke { broken, .. } => after_break(left, *broken),
        Notice::Ended { .. } => after_end(left),
    }
}

/// What is left after a refusal; none where another note is the first one.
fn after_refusal<'a, 't>(left: Left<'a, 't>, place: u64, left_out: &LeftOut) -> Option<Left<'a, 't>>
    ensures more { IfSome result (λ more. notes_left left.entry ≡ note_of_refusal place left_out.now ∷ notes_left more) }
    ensures none { IsNone result → (more : List Note) → notes_left left.entry ≢ note_of_refusal place left_out.now ∷ more }
{
    let (first, found, lines) = next_refusal(left.lines)?;
    if first == place && is_same_refusal(&found, left_out) {
        Some(Left {
            lines,
            broken: left.broken,
            ended: left.ended,
        })
    } else {
        None
    }
}

/// Whether two elements were refused by one code and are about the same.
fn is_same_refusal(a: &LeftOut, b: &LeftOut) -> bool
    ensures { IsTrue result ↔ ((refused_code a.now.code ≡ refused_code b.now.code) × (a.now.about ≡ b.now.about)) }
{
    a.code.code() == b.code.code() && is_same_about(&a.about, &b.about)
}

/// What is left after a break; none where another note is the first one.
fn after_break<'a, 't>(left: Left<'a, 't>, broken: Broken) -> Option<Left<'a, 't>>
    ensures more { IfSome result (λ more. notes_left left.entry ≡ note_of_break broken ∷ notes_left more) }
    ensures none { IsNone result → (more : List Note) → notes_left left.entry ≢ note_of_break broken ∷ more }
{
    if next_refusal(left.lines).is_some() {
        return None;
    }
    let own = left.broken?;
    if own.place == broken.place && own.code.code() == broken.code.code() {
        Some(Left {
            lines: left.lines,
            broken: None,
            ended: left.ended,
        })
    } else {
        None
    }
}

/// What is left after the end; none where another note is the first one.
fn after_end<'a, 't>(left: Left<'a, 't>) -> Option<Left<'a, 't>>
    ensures more { IfSome result (λ more. notes_left left.entry ≡ NoteOfEnd ∷ notes_left more) }
    ensures none { IsNone result → (more : List Note) → notes_left left.entry ≢ NoteOfEnd ∷ more }
{
    if next_refusal(left.lines).is_some() || left.broken.is_some() {
        return None;
    }
    if left.ended {
        return None;
    }
    Some(Left {
        lines: left.lines,
        broken: None,
        ended: true,
    })
}

/// The first refusal among log lines, with its place, and the lines after it.
fn next_refusal<'a, 't>(lines: &'a [Line<'t>]) -> Option<(u64, LeftOut, &'a [Line<'t>])>
    ensures some { IfSome result (λ next. filter_map note_of_line lines.now ≡ note_of_refusal next.0 next.1 ∷ filter_map note_of_line next.2.now) }
    ensures none { IsNone result → filter_map note_of_line lines.now ≡ [] }
{
    for at in 0..lines.len() {
        if let What::Refused(left_out) = lines[at].what {
            return Some((lines[at].event, left_out, &lines[at + 1..]));
        }
    }
    None
}
