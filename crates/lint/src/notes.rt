//! What is taken of a trace as it is, and may not be meant. Nothing is left out for it.

use crate::finding::{Amiss, Note, Problem, Ties};
use crate::nearest::{is_absent, meant_by};
use crate::suspect::Suspects;
use edn_reader::{Element, Field, MapView};
use jepsen_form::{Action, Event, FormField, Item, MomentField, Stage, read_item};
use logs::{Code, LeftOut, Line, What};
use places::{Cursor, Elements, Location, spot_in, spot_of_one};
use std::alloc::{AllocError, Global};
use std::collections::{BTreeMap, BTreeSet};
use tower_file::Tower;

/// What the elements of a trace are looked at with.
#[derive(Clone, Copy)]
pub struct Context<'a> {
    pub alloc: Global,
    pub tower: &'a Tower,
    pub field: MomentField,
    pub suspects: &'a Suspects<'a>,
}

/// What is noted of a trace.
#[derive(Drop)]
pub struct Noted {
    pub notes: Vec<Problem>,
    /// For each element, whether it is an invocation that has neither an `:ok` nor a `:fail`.
    pub unfinished: Vec<bool>,
    /// The processes of the trace's events.
    pub processes: BTreeSet<i64>,
    /// For each element, the invocation that its process waited for an answer to, before it.
    pub waiting: Vec<Option<u64>>,
}

/// What is known of a trace after the elements so far.
#[derive(Drop)]
struct TraceSoFar<'a> {
    /// Where the elements are.
    spots: &'a [Location],
    /// The invocations that have no answer so far, by process.
    unanswered: BTreeMap<i64, u64>,
    /// The first event of each moment.
    moments: BTreeMap<u64, u64>,
    /// The events that have the moments of earlier ones.
    ties: First,
    /// The last event that has a moment.
    last: Option<Timed>,
    /// The events whose moments are out of proportion.
    unfit: First,
    invoked: bool,
    noted: Noted,
}

/// Events of which the same is so: how many, and the first of them, by number, with the number of another event.
#[derive(Clone, Copy)]
struct First {
    many: u64,
    first: Option<(u64, u64)>,
}

impl First {
    fn none() -> First {
        First {
            many: 0,
            first: None,
        }
    }

    fn add(&mut self, number: u64, other: u64) {
        self.many = self.many.saturating_add(1);
        if self.first.is_none() {
            self.first = Some((number, other));
        }
    }
}

/// An event that has a moment: its own, and the one before it (0 where there is none).
#[derive(Clone, Copy)]
struct Timed {
    before: u64,
    moment: u64,
    number: u64,
}

/// An element of a trace, by its number, and why it was left out, if it was.
#[derive(Clone, Copy)]
struct NumberedElement<'a> {
    number: u64,
    element: &'a Element<'a>,
    refused: Option<LeftOut>,
}

/// The fields of an event for which a field that is not read may have been meant.
const MEANT: &[FormField] = &[FormField::Process, FormField::Stage, FormField::Value];

/// The notes of a trace, by place. The elements are those of the text, and the lines those of its log.
pub fn notes_of(
    context: &Context,
    text: &[u8],
    found: &Elements,
    lines: &[Line],
) -> Result<Noted, AllocError> {
    let mut cursor = Cursor::new(text);
    let mut watch = TraceSoFar::new(context.alloc, found.spots.as_slice());
    let mut ahead = lines;
    for at in 0..found.elements.len() {
        let number = at as u64;
        ahead = lines_from(ahead, number);
        let seen = NumberedElement {
            number,
            element: &found.elements[at],
            refused: refused_by(ahead, number),
        };
        watch.look_at(context, &mut cursor, &seen)?;
    }
    watch.note_ties(context, found)?;
    watch.end(text)
}

/// The lines of this element and of later ones; at most the first of the lines given is of an earlier one.
fn lines_from<'a, 't>(lines: &'a [Line<'t>], number: u64) -> &'a [Line<'t>] {
    match lines.first() {
        Some(line) if line.event < number => &lines[1..],
        _ => lines,
    }
}

/// Why the element of this number was left out, if the first of the lines says that it was.
fn refused_by(lines: &[Line], number: u64) -> Option<LeftOut> {
    let line = lines.first()?;
    match line.what {
        What::Refused(left_out) if line.event == number => Some(left_out),
        _ => None,
    }
}

impl<'a> TraceSoFar<'a> {
    fn new(alloc: Global, spots: &'a [Location]) -> TraceSoFar<'a> {
        TraceSoFar {
            spots,
            unanswered: BTreeMap::new(alloc),
            moments: BTreeMap::new(alloc),
            ties: First::none(),
            last: None,
            unfit: First::none(),
            invoked: false,
            noted: Noted {
                notes: Vec::new(alloc),
                unfinished: Vec::new(alloc),
                processes: BTreeSet::new(alloc),
                waiting: Vec::new(alloc),
            },
        }
    }

    /// Notes this of the element of this number.
    fn note(&mut self, number: u64, note: Note) -> Result<(), AllocError> {
        match self.spots.get(number as usize) {
            Some(spot) => self.note_at(number, note, *spot),
            None => Ok(()),
        }
    }

    fn note_at(&mut self, number: u64, note: Note, spot: Location) -> Result<(), AllocError> {
        self.noted.notes.push(Problem {
            what: Amiss::Noted(Some(number), note),
            spot,
        })?;
        Ok(())
    }

    fn look_at(
        &mut self,
        context: &Context,
        cursor: &mut Cursor,
        seen: &NumberedElement,
    ) -> Result<(), AllocError> {
        self.noted.unfinished.push(false)?;
        self.noted.waiting.push(None)?;
        if let Some(left_out) = seen.refused {
            if let Some(note) = context
                .suspects
                .note_of(&left_out.about, is_edit(seen.element))
            {
                self.note(seen.number, note)?;
            }
        }
        let Some(map) = seen.element.as_map() else {
            return Ok(());
        };
        match read_item(*seen.element, context.field, context.tower) {
            Ok(Item::Event(event)) => self.look_at_event(context, cursor, &map, &event, seen),
            Ok(Item::Skipped) => self.look_at_skipped(&map, seen.number),
            Ok(_) => Ok(()),
            Err(_) => self.look_at_fields(context.alloc, cursor, &map, MEANT, seen.number),
        }
    }

    fn look_at_skipped(&mut self, map: &MapView, number: u64) -> Result<(), AllocError> {
        if is_skipped_client(map) {
            return self.note(number, Note::Skipped);
        }
        Ok(())
    }

    /// Notes each field that is not read and is near an absent one of these.
    fn look_at_fields(
        &mut self,
        alloc: Global,
        cursor: &mut Cursor,
        map: &MapView,
        fields: &[FormField],
        number: u64,
    ) -> Result<(), AllocError> {
        let mut left = *map;
        while let Some((key, _)) = left.next_pair() {
            if let Some(meant) = meant_by(alloc, &key, map, fields)? {
                self.note_at(number, Note::NearField(meant), spot_in(cursor, &key))?;
            }
        }
        Ok(())
    }

    fn look_at_event(
        &mut self,
        context: &Context,
        cursor: &mut Cursor,
        map: &MapView,
        event: &Event,
        seen: &NumberedElement,
    ) -> Result<(), AllocError> {
        self.noted.processes.insert(event.process)?;
        let waited = self.unanswered.get(&event.process).copied();
        self.set_waiting(seen.number, waited);
        if is_absent(&map.field(b":value")) {
            if wants_value(event) {
                self.note(seen.number, Note::NoValue)?;
            }
            self.look_at_fields(context.alloc, cursor, map, &[FormField::Value], seen.number)?;
        }
        if let Some(moment) = event.moment {
            self.look_at_moment(moment.0, seen.number)?;
            self.look_at_last(moment.0, seen.number);
        }
        if is_of_pairing(&seen.refused) {
            return Ok(());
        }
        self.look_at_stage(event, seen.number)
    }

    /// Pairs invocations with answers, of elements that the pairing took.
    fn look_at_stage(&mut self, event: &Event, number: u64) -> Result<(), AllocError> {
        match event.answer {
            Stage::Invoke => {
                self.invoked = true;
                self.set_unfinished(number, true);
                self.unanswered.insert(event.process, number)?;
            }
            Stage::Ok | Stage::Fail => {
                if let Some(invoked) = self.unanswered.remove(&event.process) {
                    self.set_unfinished(invoked, false);
                }
            }
            Stage::Info => {
                let _ = self.unanswered.remove(&event.process);
            }
        }
        Ok(())
    }

    fn set_unfinished(&mut self, number: u64, is_unfinished: bool) {
        if let Some(slot) = self.noted.unfinished.get_mut(number as usize) {
            *slot = is_unfinished;
        }
    }

    fn set_waiting(&mut self, number: u64, waited: Option<u64>) {
        if let Some(slot) = self.noted.waiting.get_mut(number as usize) {
            *slot = waited;
        }
    }

    fn look_at_moment(&mut self, moment: u64, number: u64) -> Result<(), AllocError> {
        if let Some(earlier) = self.moments.get(&moment).copied() {
            self.ties.add(number, earlier);
            return Ok(());
        }
        self.moments.insert(moment, number)?;
        Ok(())
    }

    /// Counts the last moment if it is out of proportion to the one before it and to this one.
    fn look_at_last(&mut self, moment: u64, number: u64) {
        let mut before = 0;
        if let Some(last) = self.last {
            if is_out_of_proportion(last.before, last.moment, moment) {
                self.unfit.add(last.number, number);
            }
            before = last.moment;
        }
        self.last = Some(Timed {
            before,
            moment,
            number,
        });
    }

    /// Notes how many events have the moments of earlier ones, and how many moments are out of proportion, each of the
    /// first of them.
    fn note_ties(&mut self, context: &Context, found: &Elements) -> Result<(), AllocError> {
        if let Some((number, earlier)) = self.ties.first {
            let ties = Ties {
                many: self.ties.many,
                better: better_field(context, found)?,
            };
            self.note(number, Note::SameMoment(earlier, ties))?;
        }
        match self.unfit.first {
            Some((number, _)) => self.note(number, Note::OutOfProportion(self.unfit.many)),
            None => Ok(()),
        }
    }

    /// The notes, with those of the end of a trace.
    fn end(self, text: &[u8]) -> Result<Noted, AllocError> {
        let TraceSoFar {
            spots,
            unanswered,
            invoked,
            mut noted,
            ..
        } = self;
        for (_, number) in &unanswered {
            if let Some(spot) = spots.get(*number as usize) {
                noted.notes.push(Problem {
                    what: Amiss::Noted(Some(*number), Note::Unanswered),
                    spot: *spot,
                })?;
            }
        }
        noted
            .notes
            .sort_by_key(|note| (!rests(note), note.spot.start))?;
        if !invoked {
            noted.notes.push(Problem {
                what: Amiss::Noted(None, Note::NoOperation),
                spot: spot_of_one(text, 0),
            })?;
        }
        Ok(noted)
    }
}

/// The other field of moments, where each event has a moment of its own there.
fn better_field(context: &Context, found: &Elements) -> Result<Option<MomentField>, AllocError> {
    let other = match context.field {
        MomentField::Index => MomentField::Time,
        MomentField::Time => MomentField::Index,
    };
    let mut seen = BTreeSet::new(context.alloc);
    for element in &found.elements {
        if let Some(_) = moment_in(context, context.field, element) {
            let Some(moment) = moment_in(context, other, element) else {
                return Ok(None);
            };
            if !seen.insert(moment)? {
                return Ok(None);
            }
        }
    }
    Ok(Some(other))
}

/// The moment of an event by this field, where the element is an event that has one.
fn moment_in(context: &Context, field: MomentField, element: &Element) -> Option<u64> {
    match read_item(*element, field, context.tower) {
        Ok(Item::Event(event)) => Some(event.moment?.0),
        _ => None,
    }
}

/// Whether an element has the field `:edit`.
fn is_edit(element: &Element) -> bool {
    match element.as_map() {
        Some(map) => !is_absent(&map.field(b":edit")),
        None => false,
    }
}

/// Whether a moment is at least 1000 times the one before it and the one after it, neither of which is 0.
fn is_out_of_proportion(before: u64, moment: u64, after: u64) -> bool {
    before != 0 && after != 0 && moment / 1000 >= before.max(after)
}

/// Whether an element was left out since it does not fit the events of its process.
fn is_of_pairing(refused: &Option<LeftOut>) -> bool {
    match refused {
        Some(left_out) => match left_out.code {
            Code::Pair(_) => true,
            Code::Form(_) | Code::Register(_) => false,
        },
        None => false,
    }
}

/// Whether a note says that a failure rests on an element that was left out: these come first.
pub fn rests(problem: &Problem) -> bool {
    match &problem.what {
        Amiss::Noted(
            _,
            Note::Rests(_) | Note::RestsOnEdit(_) | Note::RestsOnAnswer(_) | Note::RestsOnUnread(_),
        ) => true,
        Amiss::Noted(..) | Amiss::Refused(..) | Amiss::Broken(_) | Amiss::Tower(_) => false,
    }
}

/// Whether the event is one that has a value: an answer of a read, or an invocation of a write.
fn wants_value(event: &Event) -> bool {
    match (event.answer, event.action) {
        (Stage::Ok, Action::Read) | (Stage::Invoke, Action::Write) => true,
        _ => false,
    }
}

/// Whether the element is a read or a write whose process is neither an integer nor `:nemesis`.
fn is_skipped_client(map: &MapView) -> bool {
    is_of_client(&map.field(b":f")) && is_no_process(&map.field(b":process"))
}

fn is_of_client(action: &Field) -> bool {
    match action {
        Field::Once(word) => word.is_keyword(b":read") || word.is_keyword(b":write"),
        Field::Absent | Field::Twice => false,
    }
}

fn is_no_process(process: &Field) -> bool {
    match process {
        Field::Once(process) => process.as_int().is_none() && !process.is_keyword(b":nemesis"),
        Field::Absent | Field::Twice => false,
    }
}
