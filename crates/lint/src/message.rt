//! The messages that say what is amiss.

ghost use Rattle.std.specs.Prelude.{◌≡◌, ◌++◌, [], OnOk, string_bytes};
ghost use Rattle.std.specs.Fmt.{decimal};
ghost use Rattle.std.specs.Option.{option_map_or};
ghost use Rattle.lint.specs.Message.{better_text, details_of, field_word, field_text, value_holder_text, operation_text, message_of, note_words, edn_words, noted_text, operations_text, tower_text, tower_word, words_of};

use crate::finding::{Amiss, Note, Ties};
use crate::sentences::*;
use edn_reader::EdnFault;
use intervals::{Holder, OpId, Refusal};
use jepsen_form::{FormFault, FormField, MomentField};
use logs::Code;
use std::alloc::AllocError;
use texts::message_of_code;
use tower_file::{TowerFault, TowerField};

/// Adds the message: the words for what is amiss, and what they end with.
pub fn push_message(text: &mut String, what: &Amiss) -> Result<(), AllocError>
    ensures { OnOk result (string_bytes text.new ≡ string_bytes text.old ++ message_of what.now) }
{
    text.push_str(words(what))?;
    push_details(text, what)
}

fn words(what: &Amiss) -> &'static str
    ensures { result.now ≡ words_of what.now }
{
    match what {
        Amiss::Noted(_, note) => note_words(note),
        Amiss::Refused(..) | Amiss::Broken(_) | Amiss::Tower(_) => message_of_code(what.code()),
    }
}

fn note_words(note: &Note) -> &'static str
    ensures { result.now ≡ note_words note.now }
{
    match note {
        Note::Skipped => SKIPPED,
        Note::NoOperation => NO_OPERATION,
        Note::Unused => UNUSED,
        Note::NoValue => NO_VALUE,
        Note::NearField(_) => NEAR_FIELD,
        Note::Unread(Some(_)) => NEAR_FIELD,
        Note::Unread(None) => UNREAD,
        Note::Unanswered => UNANSWERED,
        Note::SilentWriter(_) => SILENT_WRITER,
        Note::SameMoment(..) => SAME_MOMENT,
        Note::OutOfProportion(_) => OUT_OF_PROPORTION,
        Note::Rests(_) => RESTS,
        Note::RestsOnEdit(_) => RESTS_ON_EDIT,
        Note::RestsOnAnswer(_) => RESTS_ON_ANSWER,
        Note::RestsOnUnread(_) => RESTS_ON_UNREAD,
    }
}

/// What the words for what is amiss end with: a field, a moment, operations, or nothing.
fn push_details(text: &mut String, what: &Amiss) -> Result<(), AllocError>
    ensures { OnOk result (string_bytes text.new ≡ string_bytes text.old ++ details_of what.now) }
{
    match what {
        Amiss::Refused(_, Code::Form(fault)) => push_field(text, fault),
        Amiss::Refused(_, Code::Register(refusal)) => push_operations(text, refusal),
        Amiss::Tower(fault) => push_tower(text, fault),
        Amiss::Noted(_, note) => push_noted(text, note),
        Amiss::Refused(_, Code::Pair(_)) | Amiss::Broken(_) => Ok(()),
    }
}

fn push_noted(text: &mut String, note: &Note) -> Result<(), AllocError>
    ensures { OnOk result (string_bytes text.new ≡ string_bytes text.old ++ noted_text note.now) }
{
    match note {
        Note::NearField(field) => text.push_str(field_word(*field)),
        Note::Unread(Some(field)) => text.push_str(tower_word(*field)),
        Note::SilentWriter(process) => write!(text, "{process}"),
        Note::SameMoment(_, ties) => push_ties(text, ties),
        Note::OutOfProportion(many) => write!(text, "{many}"),
        Note::Rests(operation) => push_id(text, *operation),
        Note::RestsOnEdit(operation) => push_id(text, *operation),
        Note::RestsOnAnswer(operation) => push_id(text, *operation),
        Note::RestsOnUnread(operation) => push_id(text, *operation),
        Note::Unread(None)
        | Note::Skipped
        | Note::NoOperation
        | Note::Unused
        | Note::NoValue
        | Note::Unanswered => Ok(()),
    }
}

fn push_ties(text: &mut String, ties: &Ties) -> Result<(), AllocError>
    ensures { OnOk result (string_bytes text.new ≡ string_bytes text.old ++ decimal ties.now.many ++ option_map_or better_text ties.now.better []) }
{
    write!(text, "{}", ties.many)?;
    match ties.better {
        Some(field) => text.push_str(better_text(field)),
        None => Ok(()),
    }
}

fn better_text(field: MomentField) -> &'static str
    ensures { result.now ≡ better_text field }
{
    match field {
        MomentField::Index => ". None has under :index: try --moment index",
        MomentField::Time => ". None has under :time: try --moment time",
    }
}

/// What the words for a fault of a tower file end with.
fn push_tower(text: &mut String, fault: &TowerFault) -> Result<(), AllocError>
    ensures { OnOk result (string_bytes text.new ≡ string_bytes text.old ++ tower_text fault.now) }
{
    match fault {
        TowerFault::Edn(fault) => text.push_str(edn_words(fault)),
        TowerFault::Shape(field) => text.push_str(tower_word(*field)),
        _ => Ok(()),
    }
}

fn edn_words(fault: &EdnFault) -> &'static str
    ensures { result.now ≡ edn_words fault.now }
{
    match fault {
        EdnFault::Truncated(_) => E1_TRUNCATED,
        EdnFault::StrayClose(_) => E2_STRAY_CLOSE,
        EdnFault::WrongClose(_) => E3_WRONG_CLOSE,
        EdnFault::TooDeep(_) => E4_TOO_DEEP,
        EdnFault::OddMap(_) => E5_ODD_MAP,
        EdnFault::TagWithoutElement(_) => E6_TAG_WITHOUT_ELEMENT,
        EdnFault::Memory(_) => E7_MEMORY,
    }
}

/// A part of a tower file as it is written.
pub fn tower_word(field: TowerField) -> &'static str
    ensures { result.now ≡ tower_word field }
{
    match field {
        TowerField::File => "the file",
        TowerField::Levels => ":levels",
        TowerField::Name => ":name",
        TowerField::Registers => ":registers",
        TowerField::Kind => ":kind",
        TowerField::Writers => ":writers",
        TowerField::Initial => ":initial",
        TowerField::Domain => ":domain",
        TowerField::Parts => ":of",
        TowerField::Fixed => ":fixed",
    }
}

fn push_field(text: &mut String, fault: &FormFault) -> Result<(), AllocError>
    ensures { OnOk result (string_bytes text.new ≡ string_bytes text.old ++ field_text fault.now) }
{
    match fault {
        FormFault::MissingField(field) => text.push_str(field_word(*field)),
        FormFault::DuplicateField(field) => text.push_str(field_word(*field)),
        _ => Ok(()),
    }
}

/// A field of an element as it is written.
pub fn field_word(field: FormField) -> &'static str
    ensures { result.now ≡ field_word field }
{
    match field {
        FormField::Process => ":process",
        FormField::Stage => ":type",
        FormField::Action => ":f",
        FormField::Value => ":value",
        FormField::Moment => ":index or :time",
        FormField::Edit => ":edit",
        FormField::Of => ":of",
        FormField::Begin => ":begin",
        FormField::End => ":end",
        FormField::Ask => ":ask",
        FormField::Register => ":register",
        FormField::Claimed => ":kind",
    }
}

fn push_operations(text: &mut String, refusal: &Refusal) -> Result<(), AllocError>
    ensures { OnOk result (string_bytes text.new ≡ string_bytes text.old ++ operations_text refusal.now) }
{
    match refusal {
        Refusal::MomentTaken(moment, id) => {
            write!(text, "{} of ", moment.0)?;
            push_id(text, *id)
        }
        Refusal::WritesOverlap(id) => push_id(text, *id),
        Refusal::ValueTaken(holder) => push_holder(text, *holder),
        Refusal::ClaimOverlap(one, other) => {
            push_id(text, *one)?;
            text.push_str(" and ")?;
            push_id(text, *other)
        }
        Refusal::ClaimRepeats(id, holder) => {
            push_id(text, *id)?;
            text.push_str(" and ")?;
            push_holder(text, *holder)
        }
        _ => Ok(()),
    }
}

fn push_holder(text: &mut String, holder: Holder) -> Result<(), AllocError>
    ensures { OnOk result (string_bytes text.new ≡ string_bytes text.old ++ value_holder_text holder) }
{
    match holder {
        Holder::Op(id) => push_id(text, id),
        Holder::Initial => text.push_str(AT_FIRST),
    }
}

pub fn push_id(text: &mut String, id: OpId) -> Result<(), AllocError>
    ensures { OnOk result (string_bytes text.new ≡ string_bytes text.old ++ operation_text id) }
{
    write!(text, "{}:{}", id.feeder, id.event)
}
