//! Operations as the events of a trace.

ghost use Rattle.std.specs.Prelude.{◌≡◌, ◌++◌, IfOk, List, OnOk, Some, codes, string_bytes, ℕ};
ghost use Rattle.std.specs.Fmt.{signed_decimal};
ghost use Rattle.jepsen_form.specs.declared.item.MomentField.{MomentField as AField};
ghost use Rattle.phrases.specs.Names.{kind_word};
ghost use Rattle.excerpt.specs.Event.{act_keyword, answer_text, claim_text, event_text, invoked_value, moment_keyword, moment_text, operation_events, written_value};

use intervals::{Act, Kind, Op, Value};
use jepsen_form::MomentField;
use phrases::kind_word;
use std::alloc::{AllocError, Global};

/// What the events of a register share: its name, and the field that has the moments.
#[derive(Clone, Copy)]
pub struct Shared<'n> {
    pub name: &'n [u8],
    pub moments: MomentField,
}

/// An event of an operation: its process, its type, what it does, its value, and its moment, where it has one.
#[derive(Clone, Copy)]
pub struct PrintedEvent {
    pub process: i64,
    pub kind: &'static str,
    pub act: Act,
    pub value: Value,
    pub moment: Option<u64>,
}

/// Adds the two events of an operation.
pub fn push_operation(
    alloc: Global,
    text: &mut Vec<u8>,
    shared: Shared,
    op: &Op,
) -> Result<(), AllocError>
    ensures { OnOk result (text.new.items ≡ text.old.items ++ operation_events shared.entry.moments shared.entry.name.now op.now) }
{
    push_event(alloc, text, shared, invocation_of(op))?;
    push_event(alloc, text, shared, answer_of(op))
}

fn invocation_of(op: &Op) -> PrintedEvent
    ensures { (moments : AField) (name : List ℕ) → event_text moments name result.process result.kind.now result.act result.value result.moment ≡ event_text moments name op.now.process (codes ":invoke") op.now.act (invoked_value op.now.act) (Some op.now.begin.0) }
{
    PrintedEvent {
        process: op.process,
        kind: ":invoke",
        act: op.act,
        value: invoked_value(op.act),
        moment: Some(op.begin.0),
    }
}

/// The last event: the answer, or that nobody knows how the operation went on.
fn answer_of(op: &Op) -> PrintedEvent
    ensures { (moments : AField) (name : List ℕ) → event_text moments name result.process result.kind.now result.act result.value result.moment ≡ answer_text moments name op.now.process op.now.act op.now.end }
{
    match op.end {
        Some(end) => PrintedEvent {
            process: op.process,
            kind: ":ok",
            act: op.act,
            value: op.value(),
            moment: Some(end.0),
        },
        None => PrintedEvent {
            process: op.process,
            kind: ":info",
            act: op.act,
            value: invoked_value(op.act),
            moment: None,
        },
    }
}

fn invoked_value(act: Act) -> Value
    ensures { result ≡ invoked_value act }
{
    match act {
        Act::Read(_) => Value::Nil,
        Act::Write(value) => value,
    }
}

fn push_event(
    alloc: Global,
    text: &mut Vec<u8>,
    shared: Shared,
    event: PrintedEvent,
) -> Result<(), AllocError>
    ensures { OnOk result (text.new.items ≡ text.old.items ++ event_text shared.entry.moments shared.entry.name.now event.process event.kind.now event.act event.value event.moment) }
{
    text.extend_from_slice(before_name(alloc, event)?.as_bytes())?;
    text.extend_from_slice(shared.name)?;
    text.extend_from_slice(after_name(alloc, shared.moments, event)?.as_bytes())
}

/// What is before the name of the register.
fn before_name(alloc: Global, event: PrintedEvent) -> Result<String, AllocError>
    ensures { IfOk result (λ text. string_bytes text ≡ codes "{:process " ++ signed_decimal event.process ++ codes " :type " ++ event.kind.now ++ codes " :f " ++ act_keyword event.act ++ codes " :value [") }
{
    let mut text = String::new(alloc);
    text.push_str("{:process ")?;
    write!(text, "{}", event.process)?;
    text.push_str(" :type ")?;
    text.push_str(event.kind)?;
    text.push_str(" :f ")?;
    text.push_str(act_keyword(event.act))?;
    text.push_str(" :value [")?;
    Ok(text)
}

/// What is after the name of the register.
fn after_name(
    alloc: Global,
    moments: MomentField,
    event: PrintedEvent,
) -> Result<String, AllocError>
    ensures { IfOk result (λ text. string_bytes text ≡ codes " " ++ written_value event.value ++ codes "]" ++ moment_text moments event.moment ++ codes "}\n") }
{
    let mut text = String::new(alloc);
    text.push_str(" ")?;
    push_value(&mut text, event.value)?;
    text.push_str("]")?;
    push_moment(&mut text, moments, event.moment)?;
    text.push_str("}\n")?;
    Ok(text)
}

fn push_value(text: &mut String, value: Value) -> Result<(), AllocError>
    ensures { OnOk result (string_bytes text.new ≡ string_bytes text.old ++ written_value value) }
{
    match value {
        Value::Nil => text.push_str("nil"),
        Value::Int(number) => write!(text, "{number}"),
    }
}

fn push_moment(
    text: &mut String,
    moments: MomentField,
    moment: Option<u64>,
) -> Result<(), AllocError>
    ensures { OnOk result (string_bytes text.new ≡ string_bytes text.old ++ moment_text moments moment) }
{
    let Some(moment) = moment else {
        return Ok(());
    };
    text.push_str(" ")?;
    text.push_str(moment_keyword(moments))?;
    write!(text, " {moment}")
}

fn act_keyword(act: Act) -> &'static str
    ensures { result.now ≡ act_keyword act }
{
    match act {
        Act::Read(_) => ":read",
        Act::Write(_) => ":write",
    }
}

fn moment_keyword(moments: MomentField) -> &'static str
    ensures { result.now ≡ moment_keyword moments }
{
    match moments {
        MomentField::Index => ":index",
        MomentField::Time => ":time",
    }
}

/// Adds the edit that claims a kind.
pub fn push_claim(
    alloc: Global,
    text: &mut Vec<u8>,
    name: &[u8],
    kind: Kind,
) -> Result<(), AllocError>
    ensures { OnOk result (text.new.items ≡ text.old.items ++ claim_text name.now kind) }
{
    text.extend_from_slice(claim_head(alloc)?.as_bytes())?;
    text.extend_from_slice(name)?;
    text.extend_from_slice(claim_tail(alloc, kind)?.as_bytes())
}

fn claim_head(alloc: Global) -> Result<String, AllocError>
    ensures { IfOk result (λ text. string_bytes text ≡ codes "{:edit :claim :register ") }
{
    let mut text = String::new(alloc);
    text.push_str("{:edit :claim :register ")?;
    Ok(text)
}

fn claim_tail(alloc: Global, kind: Kind) -> Result<String, AllocError>
    ensures { IfOk result (λ text. string_bytes text ≡ codes " :kind :" ++ kind_word kind ++ codes "}\n") }
{
    let mut text = String::new(alloc);
    text.push_str(" :kind :")?;
    text.push_str(kind_word(kind))?;
    text.push_str("}\n")?;
    Ok(text)
}
