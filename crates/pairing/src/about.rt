//! What a refused element is about.

ghost use Rattle.std.specs.Prelude.{◌≡◌};
ghost use Rattle.pairing.specs.About.{about_by, about_edit, gist_of_item, target_beside, written_of, written_of_act, written_of_change, process_if_answer};

use crate::invocation::Invocation;
use crate::step::id;
use intervals::{Act, Change, Edit, Lent, OpId, RegId, Value};
use jepsen_form::{Action, Event, Gist, Item, Stage, Written};

/// What a refused element is about, as far as that is known. Its text may be read by halves, and what it answers or edits
/// need not stand.
#[derive(Clone, Copy)]
pub struct About {
    pub register: Option<RegId>,
    /// What it would have written to the register.
    pub written: Written,
    /// The operation that it answers or edits.
    pub operation: Option<OpId>,
    /// Whether it claims a kind for the register.
    pub claims: bool,
}

/// What a refused edit of a register is about.
pub fn about_edit(register: RegId, edit: &Edit) -> About
    ensures { result ≡ about_edit register edit.now }
{
    let (written, operation, claims) = match edit {
        Edit::Append(op) => (written_of_act(&op.act), None, false),
        Edit::Amend(id, change) => (written_of_change(change), Some(*id), false),
        Edit::Withdraw(id) => (Written::Nothing, Some(*id), false),
        Edit::Claim(_) => (Written::Nothing, None, true),
    };
    About {
        register: Some(register),
        written,
        operation,
        claims,
    }
}

fn written_of_act(act: &Act) -> Written
    ensures { result ≡ written_of_act act.now }
{
    match act {
        Act::Read(_) => Written::Nothing,
        Act::Write(value) => Written::Known(*value),
    }
}

/// What an amendment writes, where it gives a value; an answer writes nothing.
fn written_of_change(change: &Change) -> Written
    ensures { result ≡ written_of_change change.now }
{
    match (change.lent, change.value) {
        (Lent::Amendment(_), Some(value)) => Written::Known(value),
        _ => Written::Nothing,
    }
}

/// What an item says, as the gist of an element.
pub fn gist_of_item(item: &Item) -> Gist
    ensures { result ≡ gist_of_item item.now }
{
    let mut gist = Gist {
        answers: None,
        of: None,
        register: None,
        written: Written::Nothing,
        claims: false,
    };
    match item {
        Item::Event(event) => {
            gist.answers = process_if_answer(event);
            gist.register = event.register;
            gist.written = written_of(event.answer, event.action, event.value);
        }
        Item::Amend { of, change } => {
            gist.of = Some(*of);
            gist.written = written_of_change(change);
        }
        Item::Withdraw { of } => gist.of = Some(*of),
        Item::Claim(register, _) => {
            gist.register = Some(*register);
            gist.claims = true;
        }
        Item::Ask(_) | Item::Skipped => {}
    }
    gist
}

/// The process, where the event is an answer.
fn process_if_answer(event: &Event) -> Option<i64>
    ensures { result ≡ process_if_answer event.now.answer event.now.process }
{
    match event.answer {
        Stage::Invoke => None,
        Stage::Ok | Stage::Fail | Stage::Info => Some(event.process),
    }
}

fn written_of(stage: Stage, action: Action, value: Value) -> Written
    ensures { result ≡ written_of stage action value }
{
    match (stage, action) {
        (Stage::Invoke | Stage::Ok, Action::Write) => Written::Known(value),
        _ => Written::Nothing,
    }
}

/// The place and the register of an operation, by its invocation where the element answers one, else by the register of
/// the invocation at the place that it names.
pub fn target_beside(
    answers: Option<Invocation>,
    of: Option<u64>,
    register: Option<RegId>,
) -> Option<(u64, RegId)>
    ensures { result ≡ target_beside answers of register }
{
    match (answers, of, register) {
        (Some(invocation), _, _) => Some((invocation.place, invocation.register)),
        (None, Some(of), Some(register)) => Some((of, register)),
        _ => None,
    }
}

/// What an element is about, by what can be read of it and by the operation that it answers or edits.
pub fn about_by(feeder: u32, gist: &Gist, target: Option<(u64, RegId)>) -> About
    ensures { result ≡ about_by feeder gist.now target }
{
    About {
        register: match (gist.register, target) {
            (Some(register), _) => Some(register),
            (None, Some((_, register))) => Some(register),
            (None, None) => None,
        },
        written: gist.written,
        operation: match target {
            Some((place, _)) => Some(id(feeder, place)),
            None => None,
        },
        claims: gist.claims,
    }
}
