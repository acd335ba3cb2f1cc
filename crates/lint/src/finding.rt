//! What is amiss in traces and tower files, and the status of a run of `lint`.

ghost use Rattle.std.specs.Prelude.{◌≡◌, ◌++◌, OnOk};
ghost use Rattle.std.specs.List.{list_any};
ghost use Rattle.lint.specs.Idle.{has_event_of, is_silent};
ghost use Rattle.lint.specs.Grade.{finding_code, code_of_note, grade_of, grade_word, has_denied, has_grade, has_note, is_of_code, is_of_grade, lint_status};

use intervals::OpId;
use jepsen_form::{FormField, MomentField};
use logs::{BreakCode, Code};
use places::Location;
use std::alloc::AllocError;
use std::collections::BTreeSet;
use tower_file::{TowerFault, TowerField};

/// What is amiss.
#[derive(Clone, Copy)]
pub enum Amiss {
    /// The element of this number is refused and left out.
    Refused(u64, Code),
    /// The text breaks off here, and what follows is not judged.
    Broken(BreakCode),
    /// The file says no tower, and nothing is judged.
    Tower(TowerFault),
    /// This is taken as it is, though it may not be meant: the element of this number, or another part of a file.
    Noted(Option<u64>, Note),
}

/// What is taken as it is, and may not be meant.
#[derive(Clone, Copy)]
pub enum Note {
    /// An element that looks like a client's read or write is skipped, since its process is no integer.
    Skipped,
    /// No element of the trace invokes an operation.
    NoOperation,
    /// A register of the tower has no operation.
    Unused,
    /// An answer of a read or an invocation of a write has no value.
    NoValue,
    /// A field is not read, and its name is near that of this one, which is absent.
    NearField(FormField),
    /// A field of a tower file is not read; its name may be near that of this one, which is absent.
    Unread(Option<TowerField>),
    /// An invocation has no answer.
    Unanswered,
    /// No trace has an event of this process, which is claimed to write an atomic register.
    SilentWriter(i64),
    /// Events have the moments of earlier ones of the trace: the number of the event before the first of them.
    SameMoment(u64, Ties),
    /// Moments are at least 1000 times the ones before and after them: so many.
    OutOfProportion(u64),
    /// An element is left out that writes the value which this operation read or wrote; the operation shows that its
    /// register fails.
    Rests(OpId),
    /// An edit of this operation is left out, which shows that its register fails; or a claim of that register is.
    RestsOnEdit(OpId),
    /// An answer of this operation is left out, which shows that its register fails.
    RestsOnAnswer(OpId),
    /// An element is left out whose value cannot be read, and this operation shows that its register fails.
    RestsOnUnread(OpId),
}

/// How many events of a trace have the moments of earlier ones, and the field under which none has, if there is such a
/// field.
#[derive(Clone, Copy)]
pub struct Ties {
    pub many: u64,
    pub better: Option<MomentField>,
}

/// How grave a finding is.
#[derive(Clone, Copy)]
pub enum Grade {
    /// Nothing can be judged, or only what is before it.
    Error,
    /// An element is left out.
    Warning,
    /// Nothing is left out.
    Note,
}

/// What is amiss, and where.
#[derive(Clone, Copy)]
pub struct Problem {
    pub what: Amiss,
    pub spot: Location,
}

/// What is found in one trace: its findings by place, its notes by place, and the spots of its elements by number.
#[derive(Drop)]
pub struct TraceFindings {
    pub spots: Vec<Location>,
    pub findings: Vec<Problem>,
    /// Those that say that a failure rests on what was left out (L8) come first.
    pub notes: Vec<Problem>,
    /// For each element, whether it is an invocation that has neither an `:ok` nor a `:fail`.
    pub unfinished: Vec<bool>,
    /// The processes of the trace's events.
    pub processes: BTreeSet<i64>,
    /// For each element, the invocation that its process waited for an answer to, before it.
    pub waiting: Vec<Option<u64>>,
    /// For each refusal, in the order of `findings`, the invocation with which the element was left out.
    pub left_with: Vec<Option<u64>>,
}

/// What is found in all traces, by number.
#[derive(Drop)]
pub struct Findings {
    pub traces: Vec<TraceFindings>,
    /// For each register of the tower, whether none of its operations stands; empty where there is no trace.
    pub unused: Vec<bool>,
}

impl Grade {
    /// The word of a grade.
    pub fn word(self) -> &'static str
        ensures { result.now ≡ grade_word self }
    {
        match self {
            Grade::Error => "error",
            Grade::Warning => "warning",
            Grade::Note => "note",
        }
    }
}

impl Amiss {
    pub fn grade(&self) -> Grade
        ensures { result ≡ grade_of self.now }
    {
        match self {
            Amiss::Refused(..) => Grade::Warning,
            Amiss::Broken(_) | Amiss::Tower(_) => Grade::Error,
            Amiss::Noted(..) => Grade::Note,
        }
    }

    /// The code of what is amiss, as users see it.
    pub fn code(&self) -> &'static str
        ensures { result.now ≡ finding_code self.now }
    {
        match self {
            Amiss::Refused(_, code) => code.code(),
            Amiss::Broken(code) => code.code(),
            Amiss::Tower(fault) => fault.code(),
            Amiss::Noted(_, note) => note.code(),
        }
    }
}

impl Note {
    /// The code of the note, as users see it.
    pub fn code(&self) -> &'static str
        ensures { result.now ≡ code_of_note self.now }
    {
        match self {
            Note::Skipped => "L1",
            Note::NoOperation | Note::Unused => "L2",
            Note::NoValue | Note::NearField(_) => "L3",
            Note::Unread(_) => "L4",
            Note::Unanswered => "L5",
            Note::SilentWriter(_) => "L6",
            Note::SameMoment(..) | Note::OutOfProportion(_) => "L7",
            Note::Rests(_)
            | Note::RestsOnEdit(_)
            | Note::RestsOnAnswer(_)
            | Note::RestsOnUnread(_) => "L8",
        }
    }
}

impl TraceFindings {
    fn has(&self, grade: Grade) -> bool
        ensures { result ≡ list_any (is_of_grade grade) self.now.findings.items }
    {
        self.findings.iter().any(|finding| is_of(finding, grade))
    }
}

impl TraceFindings {
    fn has_event_of(&self, process: i64) -> bool
        ensures { result ≡ has_event_of process self.now }
    {
        self.processes.contains(&process)
    }

    fn has_note(&self, code: &str) -> bool
        ensures { result ≡ list_any (is_of_code code.now) self.now.notes.items }
    {
        self.notes.iter().any(|note| note.what.code() == code)
    }
}

impl Findings {
    /// Adds what others found in their files.
    pub fn append(&mut self, others: Findings) -> Result<(), AllocError>
        ensures { OnOk result (self.new.traces.items ≡ self.old.traces.items ++ others.traces.items) }
    {
        let Findings { traces, .. } = others;
        let mut more = traces;
        self.traces.append(&mut more)
    }

    /// Whether there are traces, and none of them has an event of the process.
    pub fn is_silent(&self, process: i64) -> bool
        ensures { result ≡ is_silent process self.now.traces.items }
    {
        !self.traces.is_empty() && !self.has_event_of(process)
    }

    fn has_event_of(&self, process: i64) -> bool
        ensures { result ≡ list_any (has_event_of process) self.now.traces.items }
    {
        self.traces.iter().any(|trace| trace.has_event_of(process))
    }

    /// The status with which a run ends: 2 with an error, else 3 with a warning or a note whose code is denied, else 0.
    pub fn status(&self, denied: &[&str]) -> u8
        ensures { result ≡ lint_status denied.now self.now.traces.items }
    {
        if self.has(Grade::Error) {
            2
        } else if self.has(Grade::Warning) || self.has_denied(denied) {
            3
        } else {
            0
        }
    }

    fn has_denied(&self, denied: &[&str]) -> bool
        ensures { result ≡ has_denied denied.now self.now.traces.items }
    {
        denied.iter().any(|code| self.has_note(code))
    }

    fn has_note(&self, code: &str) -> bool
        ensures { result ≡ has_note code.now self.now.traces.items }
    {
        self.traces.iter().any(|trace| trace.has_note(code))
    }

    fn has(&self, grade: Grade) -> bool
        ensures { result ≡ has_grade grade self.now.traces.items }
    {
        self.traces.iter().any(|trace| trace.has(grade))
    }
}

fn is_of(finding: &Problem, grade: Grade) -> bool
    ensures { result ≡ is_of_grade grade finding.now }
{
    match (finding.what.grade(), grade) {
        (Grade::Error, Grade::Error)
        | (Grade::Warning, Grade::Warning)
        | (Grade::Note, Grade::Note) => true,
        _ => false,
    }
}
