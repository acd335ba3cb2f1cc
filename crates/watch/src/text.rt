//! The text of a notice.

ghost use Rattle.std.specs.Prelude.{◌≡◌, ◌↔◌, ◌++◌, ◌∷◌, [], List, IsTrue, OnOk, IfOk, string_bytes};
ghost use Rattle.logs.specs.declared.notice.Notice.{Notice as ANotice};
ghost use Rattle.records.specs.Json.{json_text};
ghost use Rattle.records.specs.Notice.{notice_symbols};
ghost use Rattle.watch.specs.Doubt.{AreLeft, AreLeftFor};
ghost use Rattle.watch.specs.Text.{changed_text, fault_part, line_of_notice, record_of_notice, text_of_notice};

use crate::doubt::LeftSoFar;
use logs::Notice;
use phrases::{kind_word, name_of, push_fault_text, push_printed, verdict_word};
use records::push_notice;
use register_book::Fault;
use report::Doubt;
use shards::VerdictChange;
use std::alloc::{AllocError, Global};
use tower_file::Tower;

/// How a notice is written.
#[derive(Clone, Copy)]
pub enum NoticeForm {
    /// As a line for people.
    Line,
    /// As a record in JSON.
    Record,
}

impl NoticeForm {
    /// Whether it has the lines of elements.
    pub fn has_lines(self) -> bool
        ensures { IsTrue result ↔ self ≡ NoticeForm.Record }
    {
        match self {
            NoticeForm::Line => false,
            NoticeForm::Record => true,
        }
    }
}

/// The text of a notice, with its line end, after others that say which elements were left out.
pub fn notice_text(
    alloc: Global,
    tower: &Tower,
    form: NoticeForm,
    left: &LeftSoFar,
    notice: &Notice,
) -> Result<Vec<u8>, AllocError>
    ensures { IfOk result (λ text. (earlier : List ANotice) → AreLeftFor form earlier left.now → text.items ≡ text_of_notice form tower.now.registers earlier notice.now) }
{
    match form {
        NoticeForm::Line => line_text(alloc, tower, notice),
        NoticeForm::Record => record_text(alloc, tower, left, notice),
    }
}

fn line_text(alloc: Global, tower: &Tower, notice: &Notice) -> Result<Vec<u8>, AllocError>
    ensures { IfOk result (λ text. text.items ≡ line_of_notice tower.now.registers notice.now) }
{
    let mut line = String::new(alloc);
    push_line(&mut line, tower, notice)?;
    Ok(line.into_bytes())
}

fn record_text(
    alloc: Global,
    tower: &Tower,
    left: &LeftSoFar,
    notice: &Notice,
) -> Result<Vec<u8>, AllocError>
    ensures { IfOk result (λ text. (earlier : List ANotice) → AreLeft earlier left.now → text.items ≡ record_of_notice tower.now.registers earlier notice.now) }
{
    let doubt = left.doubt(alloc, notice)?;
    record_with(alloc, tower, notice, &doubt)
}

/// The record of a notice, with what is in doubt.
fn record_with(
    alloc: Global,
    tower: &Tower,
    notice: &Notice,
    doubt: &Doubt,
) -> Result<Vec<u8>, AllocError>
    ensures { IfOk result (λ text. text.items ≡ json_text (notice_symbols tower.now.registers notice.now doubt.now.left_out.items doubt.now.rests_on.items) ++ 10 ∷ []) }
{
    let mut record = Vec::new(alloc);
    push_notice(alloc, &mut record, tower, notice, doubt)?;
    Ok(record)
}

fn push_line(text: &mut String, tower: &Tower, notice: &Notice) -> Result<(), AllocError>
    ensures { OnOk result (string_bytes text.new ≡ string_bytes text.old ++ line_of_notice tower.now.registers notice.now) }
{
    match notice {
        Notice::Changed {
            feeder,
            place,
            change,
            ..
        } => {
            push_changed(text, tower, change)?;
            write!(text, " at {feeder}:{place}")?;
            push_fault_part(text, change.fault)?;
            text.push_str("\n")
        }
        Notice::Refused {
            feeder,
            place,
            left_out,
            ..
        } => {
            write!(text, "refused {feeder}:{place} ")?;
            text.push_str(left_out.code.code())?;
            text.push_str("\n")
        }
        Notice::Broke { feeder, broken, .. } => {
            write!(text, "broken {feeder} ")?;
            text.push_str(broken.code.code())?;
            write!(text, " at {}\n", broken.place)
        }
        Notice::Ended { feeder, elements } => write!(text, "end {feeder} {elements}\n"),
    }
}

fn push_changed(text: &mut String, tower: &Tower, change: &VerdictChange) -> Result<(), AllocError>
    ensures { OnOk result (string_bytes text.new ≡ string_bytes text.old ++ changed_text tower.now.registers change.now) }
{
    text.push_str(verdict_word(change.holds))?;
    text.push_str(" ")?;
    push_printed(text, name_of(tower, change.register))?;
    text.push_str(" ")?;
    text.push_str(kind_word(change.kind))?;
    write!(text, " {}", change.operations)
}

fn push_fault_part(text: &mut String, fault: Option<Fault>) -> Result<(), AllocError>
    ensures { OnOk result (string_bytes text.new ≡ string_bytes text.old ++ fault_part fault) }
{
    match fault {
        Some(fault) => {
            text.push_str(": ")?;
            push_fault_text(text, fault)
        }
        None => Ok(()),
    }
}
