//! Invocations, and which answers agree with them.

ghost use Rattle.std.specs.Prelude.{◌≡◌};
ghost use Rattle.pairing.specs.Invocation.{invocation_of, answers, is_on, same_act};

use intervals::{RegId, Value};
use jepsen_form::{Action, Event, Item, Stage};

/// What is kept of an invocation until it is answered: its place in the trace, and what it says.
#[derive(Clone, Copy)]
pub struct Invocation {
    pub place: u64,
    pub register: RegId,
    pub action: Action,
    pub value: Value,
}

/// The invocation that the item at this place is, or none.
pub fn invocation_of(place: u64, item: &Item) -> Option<Invocation>
    ensures { result ≡ invocation_of place item.now }
{
    match item {
        Item::Event(event) => invocation_by(place, event),
        _ => None,
    }
}

fn invocation_by(place: u64, event: &Event) -> Option<Invocation>
    ensures { result ≡ invocation_of place (Item.Event event.now) }
{
    match (event.answer, event.register) {
        (Stage::Invoke, Some(register)) => Some(Invocation {
            place,
            register,
            action: event.action,
            value: event.value,
        }),
        _ => None,
    }
}

/// Whether an `:ok` agrees with the invocation.
pub fn is_answer(invocation: &Invocation, event: &Event) -> bool
    ensures { result ≡ answers invocation.now event.now }
{
    is_on(event.register, invocation.register)
        && is_same_act(
            invocation.action,
            event.action,
            invocation.value,
            event.value,
        )
}

fn is_on(register: Option<RegId>, other: RegId) -> bool
    ensures { result ≡ is_on register other }
{
    match register {
        Some(register) => register.0 == other.0,
        None => false,
    }
}

/// Whether the actions are the same and, for writes, the values too.
fn is_same_act(invoked: Action, answered: Action, written: Value, value: Value) -> bool
    ensures { result ≡ same_act invoked answered written value }
{
    match (invoked, answered) {
        (Action::Read, Action::Read) => true,
        (Action::Write, Action::Write) => written == value,
        (Action::Read, Action::Write) => false,
        (Action::Write, Action::Read) => false,
    }
}
