//! Findings as people read them, each with the line that it is in.

use crate::bracket::{innermost_open, next_map_line};
use crate::finding::{Amiss, Findings, Grade, Note, Problem, TraceFindings};
use crate::head::{push_head, push_place};
use crate::hint::hint_of;
use crate::message::{field_word, push_id, tower_word};
use crate::notes::rests;
use crate::snippet::{push_mark, push_plain, width_of};
use crate::source::SourceText;
use crate::suggest::{
    instead_in_element, meant_in_element, meant_in_tower, meant_key, meant_key_of,
};
use crate::tally::{Count, Tally};
use crate::together::{Together, invocation_with, is_in_block, together_in};
use crate::writers::writers_in;
use edn_reader::EdnFault;
use intervals::{Holder, OpId, Refusal};
use jepsen_form::FormFault;
use logs::{BreakCode, Code};
use pairing::PairFault;
use places::{Location, spot_of_one};
use std::alloc::{AllocError, Global};
use tower_file::TowerFault;

/// For how many findings of each code, at most, a word is suggested that may have been meant.
const SUGGESTED: usize = 3;

/// What is printed from: the files, what was found in them, what of it is in other blocks, and how many of each code
/// are shown.
#[derive(Clone, Copy)]
struct View<'a> {
    alloc: Global,
    sources: &'a [SourceText<'a>],
    found: &'a Findings,
    together: &'a [Together],
    most: usize,
}

/// A finding, its file, where the tower file says who may write, the width of the line numbers, and how many findings
/// of the code were shown before.
#[derive(Clone, Copy)]
struct Case<'c, 'a> {
    view: &'c View<'a>,
    trace: usize,
    source: &'a SourceText<'a>,
    finding: &'a Problem,
    writers: Option<Location>,
    width: usize,
    before: usize,
}

/// Adds the first findings of each code (all, where `most` is 0), each with its line, and how many there are.
pub fn push_human(
    text: &mut String,
    alloc: Global,
    sources: &[SourceText],
    found: &Findings,
    most: usize,
) -> Result<(), AllocError> {
    let together = together_in(alloc, found)?;
    let view = View {
        alloc,
        sources,
        found,
        together: together.as_slice(),
        most,
    };
    let mut tally = Tally::of(alloc, found, together.as_slice())?;
    for trace in 0..found.traces.len() {
        push_trace(text, &view, trace, &mut tally)?;
    }
    push_totals(text, &tally)
}

/// Adds what may help with a trace as a whole, what its failures rest on, its findings, and then its other notes.
fn push_trace(
    text: &mut String,
    view: &View,
    trace: usize,
    tally: &mut Tally,
) -> Result<(), AllocError> {
    let Some(found) = view.found.traces.get(trace) else {
        return Ok(());
    };
    if found.findings.is_empty() && found.notes.is_empty() {
        return Ok(());
    }
    push_hints(text, view, trace, is_of_tower(found))?;
    let (first, others) = rests_and_others(found.notes.as_slice());
    push_notes(text, view, trace, first, 0, tally)?;
    push_problems(text, view, trace, found, tally)?;
    push_notes(text, view, trace, others, first.len(), tally)
}

/// Whether the file is looked at as a tower file. It has no elements then, and of a trace that has none this is noted.
fn is_of_tower(found: &TraceFindings) -> bool {
    found.spots.is_empty() && !found.notes.iter().any(|note| is_of_no_operation(note.what))
}

fn is_of_no_operation(what: Amiss) -> bool {
    match what {
        Amiss::Noted(_, Note::NoOperation) => true,
        _ => false,
    }
}

/// The notes that say what a failure rests on, which come first, and the others.
fn rests_and_others(notes: &[Problem]) -> (&[Problem], &[Problem]) {
    for at in 0..notes.len() {
        if !rests(&notes[at]) {
            return (&notes[..at], &notes[at..]);
        }
    }
    (notes, &[])
}

/// What may help with a file in which something is amiss: by its first bytes, or since it is a copy of an earlier one.
fn push_hints(
    text: &mut String,
    view: &View,
    trace: usize,
    is_tower: bool,
) -> Result<(), AllocError> {
    let Some(source) = view.sources.get(trace) else {
        return Ok(());
    };
    if let Some(hint) = hint_of(source.text, is_tower) {
        write!(
            text,
            "help[{}]: {}: {}\n\n",
            hint.code, source.name, hint.words
        )?;
    }
    if is_given_before(view.sources, trace, source.text) {
        write!(
            text,
            "help[H6]: {}: an earlier file has the same bytes\n\n",
            source.name
        )?;
    }
    Ok(())
}

fn is_given_before(sources: &[SourceText], trace: usize, text: &[u8]) -> bool {
    for earlier in sources.iter().take(trace) {
        if earlier.text == text {
            return true;
        }
    }
    false
}

/// Adds the findings that have a block of their own.
fn push_problems<'a>(
    text: &mut String,
    view: &View<'a>,
    trace: usize,
    found: &'a TraceFindings,
    tally: &mut Tally,
) -> Result<(), AllocError> {
    for at in 0..found.findings.len() {
        if invocation_with(found, at).is_none() {
            push_shown(text, view, trace, &found.findings[at], tally)?;
        }
    }
    Ok(())
}

/// Adds the notes that have a block of their own. So many notes of the trace come before these.
fn push_notes<'a>(
    text: &mut String,
    view: &View<'a>,
    trace: usize,
    notes: &'a [Problem],
    before: usize,
    tally: &mut Tally,
) -> Result<(), AllocError> {
    for at in 0..notes.len() {
        if !is_in_block(view.together, trace, before.saturating_add(at)) {
            push_shown(text, view, trace, &notes[at], tally)?;
        }
    }
    Ok(())
}

/// Adds a finding, unless as many of its code were shown as are.
fn push_shown<'a>(
    text: &mut String,
    view: &View<'a>,
    trace: usize,
    finding: &'a Problem,
    tally: &mut Tally,
) -> Result<(), AllocError> {
    let (Some(source), Some(count)) = (
        view.sources.get(trace),
        tally.show(finding.what.code(), view.most),
    ) else {
        return Ok(());
    };
    let before = count.shown.saturating_sub(1);
    let writers = writers_for(view, source, finding, before);
    let last = last_line(view, trace, finding).max(line_at(&writers));
    let case = Case {
        view,
        trace,
        source,
        finding,
        writers,
        width: width_of(last),
        before,
    };
    push_case(text, &case)?;
    push_left(text, case.width, &count, view.most)
}

/// Where the tower file, which is the last one, says who may write, for the first writes by a process that may not.
fn writers_for(
    view: &View,
    source: &SourceText,
    finding: &Problem,
    before: usize,
) -> Option<Location> {
    match &finding.what {
        Amiss::Refused(_, Code::Register(Refusal::NotAWriter)) if before < SUGGESTED => {
            let element = source.text.get(finding.spot.start..finding.spot.end)?;
            writers_in(view.alloc, view.sources.last()?.text, element)
        }
        _ => None,
    }
}

fn line_at(spot: &Option<Location>) -> usize {
    match spot {
        Some(spot) => spot.place.line,
        None => 0,
    }
}

fn push_case(text: &mut String, case: &Case) -> Result<(), AllocError> {
    push_head(text, &case.finding.what)?;
    text.push_str("\n")?;
    match &case.finding.what {
        Amiss::Refused(event, code) => push_refused(text, case, *event, code)?,
        Amiss::Broken(code) => push_broken(text, case, *code)?,
        Amiss::Tower(fault) => push_fault(text, case, *fault)?,
        Amiss::Noted(_, Note::NoOperation) => push_file(text, case)?,
        Amiss::Noted(event, note) => push_noted(text, case, *event, note)?,
    }
    push_foot(text, case.width)?;
    write!(text, "regaudit explain {}\n", case.finding.what.code())
}

/// The beginning of a line below the lines of a file.
fn push_foot(text: &mut String, width: usize) -> Result<(), AllocError> {
    write!(text, "{:width$} = ", "")
}

/// Where a finding is: the file, the line and the column.
fn push_arrow(text: &mut String, case: &Case, spot: &Location) -> Result<(), AllocError> {
    let width = case.width;
    write!(text, "{:width$}--> ", "")?;
    push_place(text, case.source, spot)
}

/// The end of a line, and an empty line above those of the file.
fn push_gap(text: &mut String, width: usize) -> Result<(), AllocError> {
    write!(text, "\n{:width$} |\n", "")
}

/// The line of a finding, marked, and words behind the mark.
fn push_marked(text: &mut String, case: &Case, words: &str) -> Result<(), AllocError> {
    push_mark(text, case.width, case.source.text, &case.finding.spot, '^')?;
    text.push_str(words)
}

/// A refused element, with the operations that it meets.
fn push_refused(text: &mut String, case: &Case, event: u64, code: &Code) -> Result<(), AllocError> {
    push_arrow(text, case, &case.finding.spot)?;
    write!(text, "  ({}:{event})", case.trace)?;
    push_gap(text, case.width)?;
    let (first, second) = met_in(case.view, case.trace, event, code);
    push_met(text, case, first)?;
    push_met(text, case, second)?;
    push_marked(text, case, " left out")?;
    push_left_with(text, case, event)?;
    push_suggestion(text, case, code)?;
    text.push_str("\n")?;
    push_writers(text, case)?;
    push_once(text, case, code)
}

/// Who may write, where a process that may not did.
fn push_writers(text: &mut String, case: &Case) -> Result<(), AllocError> {
    let (Some(spot), Some(file)) = (&case.writers, case.view.sources.last()) else {
        return Ok(());
    };
    push_elsewhere(text, case.width, file, spot)?;
    push_mark(text, case.width, file.text, spot, '-')?;
    text.push_str(" who may write\n")
}

/// What was left out with a refused invocation, behind its mark.
fn push_left_with(text: &mut String, case: &Case, event: u64) -> Result<(), AllocError> {
    let Some(together) = case.view.together.get(case.trace) else {
        return Ok(());
    };
    match together.left_with(event) {
        Some(left) => left.push(text),
        None => Ok(()),
    }
}

/// What is said of the first refusal of a code.
fn push_once(text: &mut String, case: &Case, code: &Code) -> Result<(), AllocError> {
    let words = once(case, code);
    if words.is_empty() {
        return Ok(());
    }
    push_foot(text, case.width)?;
    text.push_str(words)
}

/// Of another `:f`, what the verdict of its register does not cover; and without a tower file, who may write.
fn once(case: &Case, code: &Code) -> &'static str {
    match (code, case.before) {
        (Code::Form(FormFault::UnsupportedF), 0) => {
            "only reads and writes are judged: a register that meets another :f is not covered by its verdict\n"
        }
        (Code::Register(Refusal::NotAWriter), 0) if case.writers.is_none() => {
            "without a tower file only the process that wrote it first may write: name one by --tower\n"
        }
        _ => "",
    }
}

/// What a refused element may have meant, behind its mark: its key for a field that it lacks, and for the first
/// findings of each code a word. The last file, after the traces, is the tower file.
fn push_suggestion(text: &mut String, case: &Case, code: &Code) -> Result<(), AllocError> {
    let alloc = case.view.alloc;
    let (Some(element), Some(last)) = (refused_text(case), case.view.sources.last()) else {
        return Ok(());
    };
    if let Some((key, field)) = meant_key_of(alloc, element, code)? {
        text.push_str(":")?;
        return push_unread(text, key, field);
    }
    if case.before >= SUGGESTED {
        return Ok(());
    }
    if let Some(word) = meant_in_element(alloc, element, code, last.text)? {
        text.push_str(":")?;
        return push_meant(text, word);
    }
    text.push_str(instead_in_element(alloc, element, code))
}

/// The text of a refused element.
fn refused_text<'a>(case: &Case<'_, 'a>) -> Option<&'a [u8]> {
    let spot = &case.finding.spot;
    case.source.text.get(spot.start..spot.end)
}

/// What is noted of an element, or of a part of a tower file.
fn push_noted(
    text: &mut String,
    case: &Case,
    event: Option<u64>,
    note: &Note,
) -> Result<(), AllocError> {
    push_arrow(text, case, &case.finding.spot)?;
    if let Some(event) = event {
        write!(text, "  ({}:{event})", case.trace)?;
    }
    push_gap(text, case.width)?;
    let other = beside(case.trace, note);
    if is_below(case, other) {
        push_noted_mark(text, case, note)?;
        return push_met(text, case, other);
    }
    push_met(text, case, other)?;
    push_noted_mark(text, case, note)
}

fn push_noted_mark(text: &mut String, case: &Case, note: &Note) -> Result<(), AllocError> {
    push_marked(text, case, "")?;
    push_label(text, note)?;
    text.push_str("\n")
}

/// Whether the invocation of this operation is below the finding, in its file.
fn is_below(case: &Case, id: Option<OpId>) -> bool {
    let Some(id) = id else {
        return false;
    };
    match invocation_of(case.view, &id) {
        Some((_, spot)) => {
            id.feeder as usize == case.trace && spot.start > case.finding.spot.start
        }
        None => false,
    }
}

/// What becomes of what is noted, or what may have been meant.
fn push_label(text: &mut String, note: &Note) -> Result<(), AllocError> {
    match note {
        Note::NearField(field) => push_meant(text, field_word(*field).as_bytes()),
        Note::Unread(Some(field)) => push_meant(text, tower_word(*field).as_bytes()),
        _ => text.push_str(label_of(note)),
    }
}

fn label_of(note: &Note) -> &'static str {
    match note {
        Note::NearField(_) | Note::Unread(_) => " not read",
        Note::Skipped => " skipped",
        Note::NoValue => " taken as nil",
        Note::Unanswered => " never answered",
        Note::Rests(_) | Note::RestsOnEdit(_) | Note::RestsOnAnswer(_) | Note::RestsOnUnread(_) =>
            " left out, and the verdict rests on it",
        Note::Unused => " no operation",
        Note::SilentWriter(_) => " no event",
        Note::SameMoment(..) => " the same moment, for the first time",
        Note::OutOfProportion(_) => " out of proportion, for the first time",
        Note::NoOperation => " taken as it stands",
    }
}

fn push_meant(text: &mut String, word: &[u8]) -> Result<(), AllocError> {
    text.push_str(" did you mean ")?;
    push_plain(text, word)?;
    text.push_str("?")
}

/// A note on a file as a whole.
fn push_file(text: &mut String, case: &Case) -> Result<(), AllocError> {
    let width = case.width;
    write!(text, "{:width$}--> {}\n", "", case.source.name)
}

/// The other event or operation that a note speaks of.
fn beside(trace: usize, note: &Note) -> Option<OpId> {
    match (note, u32::try_from(trace)) {
        (Note::SameMoment(event, _), Ok(feeder)) => Some(OpId {
            feeder,
            event: *event,
        }),
        (
            Note::Rests(operation)
            | Note::RestsOnEdit(operation)
            | Note::RestsOnAnswer(operation)
            | Note::RestsOnUnread(operation),
            _,
        ) => Some(*operation),
        _ => None,
    }
}

/// The operations that a refused element meets: those that its register names, or the invocation that its process waits
/// for an answer to.
fn met_in(view: &View, trace: usize, event: u64, code: &Code) -> (Option<OpId>, Option<OpId>) {
    match code {
        Code::Pair(PairFault::ProcessBusy | PairFault::AnswerMismatch)
        | Code::Register(Refusal::UnknownOp | Refusal::EndNotAfterBegin) => {
            (waited_for(view, trace, event), None)
        }
        _ => met_by(code),
    }
}

/// The invocation that the process of an event waited for an answer to, before it.
fn waited_for(view: &View, trace: usize, event: u64) -> Option<OpId> {
    let found = view.found.traces.get(trace)?;
    let waited = found.waiting.get(event as usize)?;
    Some(OpId {
        feeder: u32::try_from(trace).ok()?,
        event: (*waited)?,
    })
}

/// The operations that a refused edit meets.
fn met_by(code: &Code) -> (Option<OpId>, Option<OpId>) {
    match code {
        Code::Register(
            Refusal::MomentTaken(_, id)
            | Refusal::WritesOverlap(id)
            | Refusal::ValueTaken(Holder::Op(id))
            | Refusal::ClaimRepeats(id, Holder::Initial),
        ) => (Some(*id), None),
        Code::Register(
            Refusal::ClaimOverlap(one, other) | Refusal::ClaimRepeats(other, Holder::Op(one)),
        ) => (Some(*one), Some(*other)),
        _ => (None, None),
    }
}

/// The invocation of an operation: its file and its spot.
fn invocation_of<'a>(view: &View<'a>, id: &OpId) -> Option<(&'a SourceText<'a>, &'a Location)> {
    let trace = id.feeder as usize;
    let (Some(source), Some(found)) = (view.sources.get(trace), view.found.traces.get(trace)) else {
        return None;
    };
    match found.spots.get(id.event as usize) {
        Some(spot) => Some((source, spot)),
        None => None,
    }
}

/// The greatest line number that is shown with a finding of a trace.
fn last_line(view: &View, trace: usize, finding: &Problem) -> usize {
    let line = finding.spot.place.line;
    match &finding.what {
        Amiss::Refused(event, code) => {
            let (first, second) = met_in(view, trace, *event, code);
            line.max(line_of(view, first)).max(line_of(view, second))
        }
        Amiss::Broken(_) | Amiss::Tower(_) | Amiss::Noted(..) => line,
    }
}

fn line_of(view: &View, id: Option<OpId>) -> usize {
    let Some(id) = id else {
        return 0;
    };
    match invocation_of(view, &id) {
        Some((_, spot)) => spot.place.line,
        None => 0,
    }
}

/// An operation that is met, at its invocation.
fn push_met(text: &mut String, case: &Case, id: Option<OpId>) -> Result<(), AllocError> {
    let Some(id) = id else {
        return Ok(());
    };
    let Some((source, spot)) = invocation_of(case.view, &id) else {
        return Ok(());
    };
    if id.feeder as usize != case.trace {
        push_elsewhere(text, case.width, source, spot)?;
    }
    push_mark(text, case.width, source.text, spot, '-')?;
    text.push_str(" ")?;
    push_id(text, id)?;
    text.push_str(if is_unfinished(case.view, &id) {
        ", which has no end\n"
    } else {
        "\n"
    })
}

/// The place of an operation in another file.
fn push_elsewhere(
    text: &mut String,
    width: usize,
    source: &SourceText,
    spot: &Location,
) -> Result<(), AllocError> {
    write!(text, "{:width$}::: ", "")?;
    push_place(text, source, spot)?;
    text.push_str("\n")
}

/// Whether the operation has neither an `:ok` nor a `:fail`.
fn is_unfinished(view: &View, id: &OpId) -> bool {
    match view.found.traces.get(id.feeder as usize) {
        Some(found) => match found.unfinished.get(id.event as usize) {
            Some(is_unfinished) => *is_unfinished,
            None => false,
        },
        None => false,
    }
}

/// Where a text breaks, and how many elements of the trace are judged.
fn push_broken(text: &mut String, case: &Case, code: BreakCode) -> Result<(), AllocError> {
    match code {
        BreakCode::Truncated => push_end(text, case)?,
        BreakCode::WrongClose => push_unfit(text, case)?,
        _ => push_wrong(text, case)?,
    }
    push_judged(text, case)
}

/// The fault of a tower file: the bytes that are wrong, and what may have been meant by them.
fn push_fault(text: &mut String, case: &Case, fault: TowerFault) -> Result<(), AllocError> {
    match fault {
        TowerFault::Edn(EdnFault::Truncated(_)) => push_end(text, case),
        TowerFault::Edn(EdnFault::WrongClose(_)) => push_unfit(text, case),
        TowerFault::Edn(_) => push_wrong(text, case),
        _ => push_part(text, case, fault),
    }
}

/// The part of a tower file that is wrong.
fn push_part(text: &mut String, case: &Case, fault: TowerFault) -> Result<(), AllocError> {
    let (alloc, bytes, spot) = (case.view.alloc, case.source.text, &case.finding.spot);
    push_top(text, case, spot)?;
    push_marked(text, case, "")?;
    if let Some(word) = meant_in_tower(alloc, bytes, fault, spot)? {
        push_meant(text, word)?;
    } else if let Some((key, field)) = meant_key(alloc, bytes, fault, spot)? {
        push_unread(text, key, field)?;
    } else {
        text.push_str(" here")?;
    }
    text.push_str("\n")
}

/// A key that is not read, and the field that may have been meant by it.
fn push_unread(text: &mut String, key: &[u8], field: &str) -> Result<(), AllocError> {
    text.push_str(" its ")?;
    push_plain(text, key)?;
    text.push_str(" is not read:")?;
    push_meant(text, field.as_bytes())
}

/// Where a text ends too early: at the bracket that is open there, if one is.
fn push_end(text: &mut String, case: &Case) -> Result<(), AllocError> {
    match open_at(case)? {
        Some(open) => push_truncated(text, case, &open),
        None => push_wrong(text, case),
    }
}

/// The innermost bracket that is open where a text breaks.
fn open_at(case: &Case) -> Result<Option<Location>, AllocError> {
    let from = read_up_to(case);
    let bytes = case.source.text;
    match innermost_open(case.view.alloc, bytes, from, case.finding.spot.start)? {
        Some(open) => Ok(Some(spot_of_one(bytes, open))),
        None => Ok(None),
    }
}

/// The bracket that is never closed, and the next line inside it that begins with a brace.
fn push_truncated(text: &mut String, case: &Case, open: &Location) -> Result<(), AllocError> {
    let bytes = case.source.text;
    push_top(text, case, open)?;
    push_mark(text, case.width, bytes, open, '^')?;
    text.push_str(" is never closed\n")?;
    let Some(line) = next_map_line(bytes, open.start) else {
        return Ok(());
    };
    push_mark(text, case.width, bytes, &spot_of_one(bytes, line), '-')?;
    text.push_str(" a line that begins with { inside it: is a } missing above?\n")
}

/// The closing bracket at which a text breaks, and the bracket that it does not close.
fn push_unfit(text: &mut String, case: &Case) -> Result<(), AllocError> {
    push_top(text, case, &case.finding.spot)?;
    if let Some(open) = open_at(case)? {
        push_mark(text, case.width, case.source.text, &open, '-')?;
        text.push_str(" is open\n")?;
    }
    push_marked(text, case, " here\n")
}

/// The byte at which a text breaks.
fn push_wrong(text: &mut String, case: &Case) -> Result<(), AllocError> {
    push_top(text, case, &case.finding.spot)?;
    push_marked(text, case, " here\n")
}

/// Where a break or a bracket is.
fn push_top(text: &mut String, case: &Case, spot: &Location) -> Result<(), AllocError> {
    push_arrow(text, case, spot)?;
    push_gap(text, case.width)
}

/// The byte after the last element of a trace.
fn read_up_to(case: &Case) -> usize {
    match case.view.found.traces.get(case.trace) {
        Some(found) => match found.spots.last() {
            Some(spot) => spot.end,
            None => 0,
        },
        None => 0,
    }
}

/// How many elements of a trace are judged.
fn push_judged(text: &mut String, case: &Case) -> Result<(), AllocError> {
    let many = match case.view.found.traces.get(case.trace) {
        Some(found) => found.spots.len(),
        None => 0,
    };
    push_foot(text, case.width)?;
    write!(
        text,
        "elements judged before it: {many}; what follows is not judged (byte {})\n",
        case.finding.spot.start
    )
}

/// An empty line; and above it, after the last finding of a code that is shown, how many more there are.
fn push_left(
    text: &mut String,
    width: usize,
    count: &Count,
    most: usize,
) -> Result<(), AllocError> {
    let left = count.left();
    if most == 0 || count.shown < most || left == 0 {
        return text.push_str("\n");
    }
    push_foot(text, width)?;
    write!(
        text,
        "and {left} more of {}, the last at line {}; --max 0 shows all\n\n",
        count.code, count.last
    )
}

/// How many findings there are of each grade.
fn push_totals(text: &mut String, tally: &Tally) -> Result<(), AllocError> {
    push_total(text, tally, Grade::Error)?;
    text.push_str(", ")?;
    push_total(text, tally, Grade::Warning)?;
    text.push_str(", ")?;
    push_total(text, tally, Grade::Note)?;
    text.push_str("\n")
}

/// How many findings there are of a grade, and of each of its codes.
fn push_total(text: &mut String, tally: &Tally, grade: Grade) -> Result<(), AllocError> {
    let many = tally.of_grade(grade);
    let end = if many == 1 { "" } else { "s" };
    write!(text, "{many} {}{end}", grade.word())?;
    if many > 1 {
        push_counts(text, tally, grade)?;
    }
    Ok(())
}

fn push_counts(text: &mut String, tally: &Tally, grade: Grade) -> Result<(), AllocError> {
    let mut before = " (";
    for count in &tally.counts {
        if count.grade == grade {
            write!(text, "{before}{} {}", count.code, count.many)?;
            before = ", ";
        }
    }
    text.push_str(")")
}
