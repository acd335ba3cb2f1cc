//! Items: what the elements of a trace are read as.

ghost use Rattle.std.specs.Prelude.{◌≡◌};
ghost use Rattle.jepsen_form.specs.Item.{item_with, lent_with};

use intervals::{Change, Kind, Lent, Moment, RegId, Value};

/// What an operation does to its register.
#[derive(Clone, Copy, Debug)]
pub enum Action {
    Read,
    Write,
}

/// How far an operation has come, as its `:type` says.
#[derive(Clone, Copy, Debug)]
pub enum Stage {
    Invoke,
    Ok,
    Fail,
    Info,
}

/// An event of one process. The register and the moment are there for `Invoke` and `Ok`; the value
/// is `Nil` for an invoked read, for `Fail` and for `Info`. The text is that of the whole element.
#[derive(Clone, Copy)]
pub struct Event<'t> {
    pub process: i64,
    pub answer: Stage,
    pub action: Action,
    pub register: Option<RegId>,
    pub value: Value,
    pub moment: Option<Moment>,
    pub text: &'t [u8],
}

/// What an element of a trace is read as. `of` is the place of an invocation in the same trace. An event of a
/// process that is no integer is skipped.
#[derive(Clone, Copy)]
pub enum Item<'t> {
    Event(Event<'t>),
    Amend { of: u64, change: Change<'t> },
    Withdraw { of: u64 },
    Claim(RegId, Kind),
    Ask(RegId),
    Skipped,
}

impl Item<'_> {
    /// This item with another text to lend in place of its own.
    pub fn with_text<'p>(self, text: &'p [u8]) -> Item<'p>
        ensures { result ≡ item_with text.entry self.entry }
    {
        match self {
            Item::Event(event) => Item::Event(Event {
                process: event.process,
                answer: event.answer,
                action: event.action,
                register: event.register,
                value: event.value,
                moment: event.moment,
                text,
            }),
            Item::Amend { of, change } => Item::Amend {
                of,
                change: Change {
                    value: change.value,
                    begin: change.begin,
                    end: change.end,
                    lent: part_with(change.lent, text),
                },
            },
            Item::Withdraw { of } => Item::Withdraw { of },
            Item::Claim(register, kind) => Item::Claim(register, kind),
            Item::Ask(register) => Item::Ask(register),
            Item::Skipped => Item::Skipped,
        }
    }
}

fn part_with<'p>(lent: Lent, text: &'p [u8]) -> Lent<'p>
    ensures { result ≡ lent_with text.entry lent.entry }
{
    match lent {
        Lent::Answer(_) => Lent::Answer(text),
        Lent::Amendment(_) => Lent::Amendment(text),
    }
}

/// The field that events have their moment under: `:index` or `:time`.
#[derive(Clone, Copy)]
pub enum MomentField {
    Index,
    Time,
}
