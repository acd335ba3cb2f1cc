//! What is amiss in a tower file, and what of it may not be meant.

ghost use Rattle.std.specs.Prelude.{◌≡◌, IfOk};
ghost use Rattle.lint.specs.Tower.{HasNotesAlone, IsOneFault, IsOneFile, spot_of_span};

use crate::finding::{Amiss, Findings, Note, Problem, TraceFindings};
use crate::message::tower_word;
use crate::nearest::is_near;
use edn_reader::{Element, Field, MapView, Reader, VectorView};
use places::{Cursor, Location, spot_of_one};
use std::alloc::{AllocError, Global};
use std::collections::BTreeSet;
use tower_file::{TowerFault, TowerField};

/// Which map of a tower file: the file itself, a level or a register.
#[derive(Clone, Copy)]
enum TowerMap {
    File,
    Level,
    Register,
}

impl TowerMap {
    /// The fields that are read of such a map, those first that may be absent.
    fn fields(self) -> &'static [TowerField] {
        match self {
            TowerMap::File => &[TowerField::Levels],
            TowerMap::Level => &[TowerField::Name, TowerField::Registers],
            TowerMap::Register => &[
                TowerField::Writers,
                TowerField::Initial,
                TowerField::Domain,
                TowerField::Fixed,
                TowerField::Parts,
                TowerField::Name,
                TowerField::Kind,
            ],
        }
    }
}

/// A walk through a tower file.
#[derive(Drop)]
struct Walk<'a> {
    alloc: Global,
    /// What was found in the traces.
    found: &'a Findings,
    /// How many registers come before the next one.
    before: usize,
    noted: Vec<Remark>,
}

/// The bytes of an element, and what is noted of it.
#[derive(Clone, Copy)]
struct Remark {
    start: usize,
    end: usize,
    note: Note,
}

/// The fault of a text that is no tower file, as the one finding of its file.
pub fn lint_fault(
    alloc: Global,
    text: &[u8],
    fault: TowerFault,
    span: Option<(usize, usize)>,
) -> Result<Findings, AllocError>
    ensures found { IfOk result (λ found. IsOneFault text.now fault span found.traces.items) }
{
    let mut findings = Vec::new(alloc);
    findings.push(Problem {
        what: Amiss::Tower(fault),
        spot: spot_of_span(text, span),
    })?;
    one_file(alloc, findings, Vec::new(alloc))
}

/// The notes of a tower file, as those of one file: the fields that are not read; and, by what was found in the traces,
/// the registers that have no operation and the writers that have no event.
pub fn lint_tower(alloc: Global, text: &[u8], found: &Findings) -> Result<Findings, AllocError>
    ensures notes { IfOk result (λ found. HasNotesAlone found.traces.items) }
{
    let mut reader = Reader::new(alloc, text);
    let mut walk = Walk {
        alloc,
        found,
        before: 0,
        noted: Vec::new(alloc),
    };
    if let Ok(Some(file)) = reader.next() {
        walk.note_map(&file, TowerMap::File)?;
        walk.note_levels(&file)?;
    }
    let notes = walk.end(text)?;
    one_file(alloc, Vec::new(alloc), notes)
}

fn one_file(
    alloc: Global,
    findings: Vec<Problem>,
    notes: Vec<Problem>,
) -> Result<Findings, AllocError>
    ensures found { IfOk result (λ found. IsOneFile findings notes found.traces.items) }
{
    let mut traces = Vec::new(alloc);
    traces.push(TraceFindings {
        spots: Vec::new(alloc),
        findings,
        notes,
        unfinished: Vec::new(alloc),
        processes: BTreeSet::new(alloc),
        waiting: Vec::new(alloc),
        left_with: Vec::new(alloc),
    })?;
    Ok(Findings {
        traces,
        unused: Vec::new(alloc),
    })
}

/// The spot of these bytes; that of the first byte of the text where none are given.
fn spot_of_span(text: &[u8], span: Option<(usize, usize)>) -> Location
    ensures { result ≡ spot_of_span text.now span }
{
    match span {
        Some((start, end)) => Location {
            start,
            end,
            place: Cursor::new(text).go_to(start),
        },
        None => spot_of_one(text, 0),
    }
}

impl Walk<'_> {
    fn note(&mut self, element: &Element, note: Note) -> Result<(), AllocError> {
        let (start, end) = element.span();
        self.noted.push(Remark { start, end, note })?;
        Ok(())
    }

    /// The notes, by place.
    fn end(self, text: &[u8]) -> Result<Vec<Problem>, AllocError> {
        let Walk {
            alloc,
            mut noted,
            ..
        } = self;
        noted.sort_by_key(|remark| remark.start)?;
        let mut cursor = Cursor::new(text);
        let mut notes = Vec::new(alloc);
        for remark in &noted {
            notes.push(Problem {
                what: Amiss::Noted(None, remark.note),
                spot: Location {
                    start: remark.start,
                    end: remark.end,
                    place: cursor.go_to(remark.start),
                },
            })?;
        }
        Ok(notes)
    }

    fn note_levels(&mut self, file: &Element) -> Result<(), AllocError> {
        let Some(mut levels) = members_of(file, b":levels") else {
            return Ok(());
        };
        while let Some(level) = levels.next() {
            self.note_map(&level, TowerMap::Level)?;
            self.note_registers(&level)?;
        }
        Ok(())
    }

    fn note_registers(&mut self, level: &Element) -> Result<(), AllocError> {
        let Some(mut registers) = members_of(level, b":registers") else {
            return Ok(());
        };
        while let Some(register) = registers.next() {
            self.note_map(&register, TowerMap::Register)?;
            self.note_register(&register)?;
        }
        Ok(())
    }

    /// Notes a register that has no operation, and the writers of an atomic one that have no event.
    fn note_register(&mut self, register: &Element) -> Result<(), AllocError> {
        let Some(map) = register.as_map() else {
            return Ok(());
        };
        let is_unused = self.found.unused.get(self.before).copied();
        if let (Some(true), Field::Once(name)) = (is_unused, map.field(b":name")) {
            self.note(&name, Note::Unused)?;
        }
        self.before = self.before.saturating_add(1);
        match map.field(b":kind") {
            Field::Once(kind) if kind.is_keyword(b":atomic") => self.note_writers(register),
            _ => Ok(()),
        }
    }

    fn note_writers(&mut self, register: &Element) -> Result<(), AllocError> {
        let Some(mut writers) = members_of(register, b":writers") else {
            return Ok(());
        };
        while let Some(writer) = writers.next() {
            if let Some(process) = writer.as_int() {
                if self.found.is_silent(process) {
                    self.note(&writer, Note::SilentWriter(process))?;
                }
            }
        }
        Ok(())
    }

    /// Notes the fields of a map that are not read.
    fn note_map(&mut self, element: &Element, part: TowerMap) -> Result<(), AllocError> {
        let Some(map) = element.as_map() else {
            return Ok(());
        };
        let mut left = map;
        while let Some((key, _)) = left.next_pair() {
            if !is_one_of(part.fields(), &key) {
                let meant = meant_of(self.alloc, &key, &map, part.fields())?;
                self.note(&key, Note::Unread(meant))?;
            }
        }
        Ok(())
    }
}

/// The names of the registers of a tower file.
pub fn names_in<'t>(alloc: Global, text: &'t [u8]) -> Result<Vec<&'t [u8]>, AllocError> {
    let mut names = Vec::new(alloc);
    let Ok(Some(file)) = Reader::new(alloc, text).next() else {
        return Ok(names);
    };
    let Some(mut levels) = members_of(&file, b":levels") else {
        return Ok(names);
    };
    while let Some(level) = levels.next() {
        push_names(&mut names, &level)?;
    }
    Ok(names)
}

fn push_names<'t>(names: &mut Vec<&'t [u8]>, level: &Element<'t>) -> Result<(), AllocError> {
    let Some(mut registers) = members_of(level, b":registers") else {
        return Ok(());
    };
    while let Some(register) = registers.next() {
        if let Some(map) = register.as_map() {
            if let Field::Once(name) = map.field(b":name") {
                names.push(name.untagged().text())?;
            }
        }
    }
    Ok(())
}

/// The elements of the vector that a map has under a key; none unless the map has that key once.
pub fn members_of<'t>(map: &Element<'t>, key: &[u8]) -> Option<VectorView<'t>> {
    let Some(map) = map.as_map() else {
        return None;
    };
    match map.field(key) {
        Field::Once(vector) => vector.as_vector(),
        Field::Absent | Field::Twice => None,
    }
}

fn is_one_of(fields: &[TowerField], key: &Element) -> bool {
    for field in fields {
        if key.is_keyword(tower_word(*field).as_bytes()) {
            return true;
        }
    }
    false
}

/// The one of these fields that is absent and for which a key that is not read may have been meant.
fn meant_of(
    alloc: Global,
    key: &Element,
    map: &MapView,
    fields: &[TowerField],
) -> Result<Option<TowerField>, AllocError> {
    let Some(word) = key.as_keyword() else {
        return Ok(None);
    };
    for field in fields {
        if is_near(alloc, word, tower_word(*field), map)? {
            return Ok(Some(*field));
        }
    }
    Ok(None)
}
