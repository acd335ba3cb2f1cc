//! The step that an item gives.

ghost use Rattle.std.specs.Prelude.{◌≡◌};
ghost use Rattle.pairing.specs.Accepted.{event_fault, edit_fault};
ghost use Rattle.pairing.specs.Step.{id_of, act_of, value_read, append_of, amendment_of, invoke_step, ok_step, event_step, edit_step, unless};

use crate::fault::PairFault;
use crate::invocation::{Invocation, is_answer};
use intervals::{Act, Change, Edit, Lent, Moment, Op, OpId, OpParts, RegId, Value};
use jepsen_form::{Action, Event, Stage};

/// What an item asks for: an edit of a register, or the verdict on one.
#[derive(Clone, Copy)]
pub enum Step<'t> {
    Edit(RegId, Edit<'t>),
    Ask(RegId),
}

/// The step of an event, or why it is refused, by the unanswered invocation of its process.
pub fn event_answer<'t>(
    feeder: u32,
    unanswered: Option<Invocation>,
    place: u64,
    event: &Event<'t>,
) -> Result<Option<Step<'t>>, PairFault>
    ensures { result ≡ unless (event_fault unanswered event.now event.now.answer) (event_step feeder unanswered place event.now event.now.answer) }
{
    match (event.answer, unanswered) {
        (Stage::Invoke, None) => Ok(invoked(feeder, place, event)),
        (Stage::Invoke, Some(_)) => Err(PairFault::ProcessBusy),
        (_, None) => Err(PairFault::NoInvocation),
        (Stage::Ok, Some(invocation)) => {
            if !is_answer(&invocation, event) {
                return Err(PairFault::AnswerMismatch);
            }
            Ok(answered(feeder, &invocation, event))
        }
        (Stage::Fail, Some(invocation)) => Ok(Some(Step::Edit(
            invocation.register,
            Edit::Withdraw(id(feeder, invocation.place)),
        ))),
        (Stage::Info, Some(_)) => Ok(None),
    }
}

/// The step of an edit on the register of the accepted invocation that it names. P2 where there is none.
pub fn edit_answer<'t>(
    register: Option<RegId>,
    edit: Edit<'t>,
) -> Result<Option<Step<'t>>, PairFault>
    ensures { result ≡ unless (edit_fault register) (edit_step register edit.entry) }
{
    match register {
        Some(register) => Ok(Some(Step::Edit(register, edit))),
        None => Err(PairFault::NoInvocation),
    }
}

pub fn id(feeder: u32, place: u64) -> OpId
    ensures { result ≡ id_of feeder place }
{
    OpId {
        feeder,
        event: place,
    }
}

/// The step of an invocation.
fn invoked<'t>(feeder: u32, place: u64, event: &Event<'t>) -> Option<Step<'t>>
    ensures { result ≡ invoke_step feeder place event.now event.now.register event.now.moment }
{
    let register = event.register?;
    let begin = event.moment?;
    Some(Step::Edit(register, append(feeder, place, event, begin)))
}

/// The step of an `:ok`.
fn answered<'t>(feeder: u32, invocation: &Invocation, event: &Event<'t>) -> Option<Step<'t>>
    ensures { result ≡ ok_step feeder invocation.now event.now event.now.moment }
{
    let end = event.moment?;
    Some(Step::Edit(
        invocation.register,
        amendment(feeder, invocation, event, end),
    ))
}

fn append<'t>(feeder: u32, place: u64, event: &Event<'t>, begin: Moment) -> Edit<'t>
    ensures { result ≡ append_of feeder place event.now begin }
{
    Edit::Append(Op {
        id: id(feeder, place),
        process: event.process,
        act: act(event.action, event.value),
        begin,
        end: None,
        parts: OpParts {
            invocation: event.text,
            answer: None,
            amendment: None,
        },
    })
}

fn amendment<'t>(feeder: u32, invocation: &Invocation, event: &Event<'t>, end: Moment) -> Edit<'t>
    ensures { result ≡ amendment_of feeder invocation.now event.now end }
{
    Edit::Amend(
        id(feeder, invocation.place),
        Change {
            value: value_given(event.action, event.value),
            begin: None,
            end: Some(Some(end)),
            lent: Lent::Answer(event.text),
        },
    )
}

fn act(action: Action, value: Value) -> Act
    ensures { result ≡ act_of action value }
{
    match action {
        Action::Read => Act::Read(value),
        Action::Write => Act::Write(value),
    }
}

/// The value that an answer gives its operation: that of a read alone.
fn value_given(action: Action, value: Value) -> Option<Value>
    ensures { result ≡ value_read action value }
{
    match action {
        Action::Read => Some(value),
        Action::Write => None,
    }
}
