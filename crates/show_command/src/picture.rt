//! The text of a picture that `show` draws.

ghost use Rattle.std.specs.Prelude.{◌↔◌, ◌<◌, filter, IfSome, IsTrue, length, ◌≡◌, IfOk};
ghost use Rattle.intervals.specs.Table.{ops_in_slots};
ghost use Rattle.report.specs.Finding.{IsOfTower};
ghost use Rattle.show_command.specs.Drawn.{IsDrawnOrder, IsSketchOf, IsSubjectOf, asked_extent, asked_width, drawn_ops, is_drawn, is_drawn_slot, theme_by};
ghost use Rattle.show_command.specs.Shown.{IsDrawn, IsFirstUsed, IsUsed};
ghost use Rattle.show_command.specs.declared.picture.TheConstants.{CELLS, UNITS};
ghost use Rattle.words.specs.Words.{asked_show};

use crate::call::push_call;
use crate::sources::{Sources, push_many};
use command_parts::Judged;
use intervals::{Initial, Memory, Op, OpId, RegId};
use logs::Run;
use phrases::{name_of, push_printed};
use register_book::RegisterBook;
use report::{
    Doubt, Finding, Least, count_broken, count_operations, culprits, doubts_of, find_all,
    is_doubted, push_few, push_section,
};
use shards::Closed;
use show::{
    Look, Sheet, Sketch, Subject, Theme, push_page_end, push_page_head, push_page_lines,
    push_page_link, push_page_part, push_picture, push_timeline,
};
use std::alloc::{AllocError, Global};
use timeline::Extent;
use tower_file::Tower;
use words::{Picture, Show};

/// How many characters a line has where no width is given.
const CELLS: u32 = 100;

/// How many units a row of a drawing has where no width is given.
const UNITS: u32 = 1000;

/// How many registers of a page are unfolded, at most.
const UNFOLDED: usize = 20;

/// What is drawn from: a run over the registers of a tower, what is found of it, what of it is in doubt, and where it
/// comes from.
#[derive(Clone, Copy)]
struct ShownRun<'a, 'b, 't, 'r, 'x, 'n, 's, 'k, 'l> {
    alloc: Global,
    asked: &'a Show<'b>,
    tower: &'t Tower,
    run: &'r Run<'x>,
    findings: &'l [Finding<'x>],
    doubts: &'l [Doubt],
    sources: &'l Sources<'n, 's, 'k>,
}

/// The text of a picture of one register, or of a page of all registers that fail.
pub fn picture(
    alloc: Global,
    asked: &Show,
    tower: &Tower,
    judged: &Judged,
    named: Option<RegId>,
) -> Result<String, Memory>
    requires of_tower { IsOfTower tower.now judged.now.run.closed }
    requires named { IfSome named (λ id. id.0 < length tower.now.registers) }
{
    let run = &judged.run;
    let to_blame = culprits(alloc, tower, &run.closed)?;
    let findings = find_all(alloc, tower, &run.closed)?;
    let doubts = doubts_of(alloc, &findings, &run.logs)?;
    let sources = Sources::of(alloc, &asked.traces, &judged.texts)?;
    let view = ShownRun {
        alloc,
        asked,
        tower,
        run,
        findings: &findings,
        doubts: &doubts,
        sources: &sources,
    };
    picture_of(view, named, &to_blame)
}

fn picture_of(view: ShownRun, named: Option<RegId>, to_blame: &[RegId]) -> Result<String, Memory> {
    let mut text = String::new(view.alloc);
    match (view.asked.picture, named) {
        (Picture::Html, None) => push_page(&mut text, view, to_blame)?,
        _ => match drawn(view.tower, &view.run.closed, named, to_blame) {
            Some(id) => push_one(&mut text, view, id)?,
            None => text.push_str(without_register(view.asked.picture))?,
        },
    }
    Ok(text)
}

/// What is drawn of a tower that has no register.
fn without_register(picture: Picture) -> &'static str {
    match picture {
        Picture::Svg => {
            "<svg xmlns=\"http://www.w3.org/2000/svg\" role=\"img\" width=\"1\" height=\"1\"><title>No register</title></svg>\n"
        }
        _ => "No register\n",
    }
}

/// The register that is drawn: the one that is named, else the first culprit, else, where none fails, the first with an
/// operation, else the first; none where the tower has none.
fn drawn(tower: &Tower, closed: &Closed, named: Option<RegId>, to_blame: &[RegId]) -> Option<RegId>
    ensures { IsDrawn tower.now closed.now named to_blame.now result }
{
    match (named, to_blame) {
        (Some(id), _) => Some(id),
        (None, [first, ..]) => Some(*first),
        (None, []) => first_used(tower, closed),
    }
}

/// The first register with an operation, else the first.
fn first_used(tower: &Tower, closed: &Closed) -> Option<RegId>
    ensures { IsFirstUsed tower.now closed.now result }
{
    for number in 0..tower.len() {
        let id = RegId(number as u32);
        if is_used(closed, id) {
            return Some(id);
        }
    }
    if tower.len() > 0 {
        Some(RegId(0))
    } else {
        None
    }
}

fn is_used(closed: &Closed, id: RegId) -> bool
    ensures { IsTrue result ↔ IsUsed closed.now id.0 }
{
    match closed.book(id) {
        Some(book) => book.len() > 0,
        None => false,
    }
}

/// The picture of one register.
fn push_one(text: &mut String, view: ShownRun, id: RegId) -> Result<(), Memory> {
    if view.asked.picture == Picture::Html {
        push_page_head(text, theme_of(view.asked), "A register and its operations")?;
        push_origin(text, view)?;
        push_part(text, view, id, true)?;
        return push_end(text, view);
    }
    let Some(book) = view.run.closed.book(id) else {
        return Ok(());
    };
    let drawing = drawing_of(view, id, book)?;
    let sketch = sketch_of(view, view.tower, id, book, &drawing)?;
    push_sketch(text, view.alloc, view.asked, &sketch, id)?;
    if view.asked.picture != Picture::Svg {
        push_below(text, "\n", &letters_text(view, &sketch)?)?;
        push_below(text, "\n", &amiss_text(view)?)?;
    }
    Ok(())
}

fn push_below(text: &mut String, before: &str, lines: &str) -> Result<(), AllocError> {
    if lines.is_empty() {
        return Ok(());
    }
    text.push_str(before)?;
    text.push_str(lines)
}

/// Where the operations that have letters are in their files.
fn letters_text(view: ShownRun, sketch: &Sketch) -> Result<String, AllocError> {
    let mut lines = String::new(view.alloc);
    view.sources
        .push_letters(&mut lines, &sketch.scene.letters)?;
    Ok(lines)
}

/// What was not judged: what was refused, where traces broke, and what is too few.
fn amiss_text(view: ShownRun) -> Result<String, AllocError> {
    let mut lines = String::new(view.alloc);
    view.sources
        .push_left_out(&mut lines, view.alloc, &view.run.logs)?;
    let least = Least {
        all: view.asked.demand.least,
        each: view.asked.demand.least_each,
    };
    push_few(&mut lines, least, view.findings)?;
    Ok(lines)
}

/// What the pictures of a page are of: the tower file, or that the traces name the registers, the traces, and what of them
/// was not judged.
fn push_origin(text: &mut String, view: ShownRun) -> Result<(), AllocError> {
    let mut lines = String::new(view.alloc);
    match view.asked.tower.file() {
        Some(name) => push_printed(&mut lines, name.as_bytes())?,
        None => lines.push_str("named in the traces")?,
    }
    push_many(&mut lines, ": ", view.tower.len(), "register")?;
    lines.push_str("\n")?;
    view.sources.push_traces(&mut lines, &view.run.logs)?;
    lines.push_str(&amiss_text(view)?)?;
    push_page_lines(text, &lines)
}

/// Ends a page with the program and the words of the call.
fn push_end(text: &mut String, view: ShownRun) -> Result<(), Memory> {
    let mut line = String::new(view.alloc);
    push_call(&mut line, view.asked)?;
    push_page_end(text, &line)?;
    Ok(())
}

/// A register in lines of a terminal, or as SVG.
fn push_sketch(
    text: &mut String,
    alloc: Global,
    asked: &Show,
    sketch: &Sketch,
    id: RegId,
) -> Result<(), Memory> {
    match asked.picture {
        Picture::Text => push_timeline(text, alloc, sketch, &look_of(asked, false))?,
        Picture::Ascii => push_timeline(text, alloc, sketch, &look_of(asked, true))?,
        Picture::Svg | Picture::Html => {
            push_picture(text, alloc, sketch, &sheet_of(asked, id, true))?
        }
    }
    Ok(())
}

/// A page of all registers that fail, with the culprits unfolded; where none fails, of one that holds.
fn push_page(text: &mut String, view: ShownRun, to_blame: &[RegId]) -> Result<(), Memory> {
    let closed = &view.run.closed;
    let mut failing = Vec::new(view.alloc);
    for number in 0..view.tower.len() {
        let id = RegId(number as u32);
        if closed.book(id).is_some_and(|book| !book.holds()) {
            failing.push(id)?;
        }
    }
    let line = page_title(view, failing.len(), to_blame.len())?;
    push_page_head(text, theme_of(view.asked), &line)?;
    push_origin(text, view)?;
    if failing.is_empty() {
        if let Some(id) = drawn(view.tower, closed, None, to_blame) {
            failing.push(id)?;
        }
    }
    push_links(text, view, &failing)?;
    let mut unfolded: usize = 0;
    for id in &failing {
        let is_unfolded = unfolded < UNFOLDED
            && (to_blame.contains(id) || closed.book(*id).is_some_and(|book| book.holds()));
        if is_unfolded {
            unfolded = unfolded.saturating_add(1);
        }
        push_part(text, view, *id, is_unfolded)?;
    }
    push_end(text, view)
}

/// How many registers fail, or that nothing was judged.
fn page_title(view: ShownRun, failing: usize, blamed: usize) -> Result<String, AllocError> {
    let all = view.tower.len();
    if count_operations(view.findings) == 0 {
        let why = if count_broken(&view.run.logs) > 0 {
            ", and a trace broke"
        } else {
            ""
        };
        return format!(in view.alloc; "Nothing was judged: no operation stands{why}");
    }
    match (failing, all) {
        (0, 1) => format!(in view.alloc; "The register holds"),
        (0, _) => format!(in view.alloc; "None of {all} registers fails"),
        (many, _) => format!(in view.alloc; "{many} of {all} registers fail, {blamed} to blame"),
    }
}

/// A link to each register of a page that has several.
fn push_links(text: &mut String, view: ShownRun, ids: &[RegId]) -> Result<(), Memory> {
    if ids.len() < 2 {
        return Ok(());
    }
    text.push_str("<ul>\n")?;
    for id in ids {
        if let Some(book) = view.run.closed.book(*id) {
            let subject = Subject {
                name: name_of(view.tower, *id),
                kind: book.kind(),
                initial: Initial::Unknown,
                slots: &[],
                witness: book.witness(),
                order: &[],
                in_doubt: is_doubted(view.doubts, *id),
                notes: "",
            };
            push_page_link(text, view.alloc, &subject, id.0)?;
        }
    }
    text.push_str("</ul>\n")?;
    Ok(())
}

/// A register of a page, with where its operations are and what the report says of it.
fn push_part(
    text: &mut String,
    view: ShownRun,
    id: RegId,
    is_unfolded: bool,
) -> Result<(), Memory> {
    let (Some(book), Some(finding)) = (view.run.closed.book(id), view.findings.get(id.0 as usize))
    else {
        return Ok(());
    };
    let drawing = drawing_of(view, id, book)?;
    let sketch = sketch_of(view, view.tower, id, book, &drawing)?;
    let mut section = letters_text(view, &sketch)?;
    if !section.is_empty() {
        section.push_str("\n")?;
    }
    push_section(&mut section, view.tower, id, finding)?;
    let sheet = sheet_of(view.asked, id, false);
    push_page_part(text, view.alloc, &sketch, &sheet, is_unfolded, &section)?;
    Ok(())
}

/// An order that explains the operations of a register that is atomic and holds; of any other register an empty list.
fn order_of(alloc: Global, book: &RegisterBook) -> Result<Vec<OpId>, Memory>
    ensures { IfOk result (λ order. IsDrawnOrder book.now order.items) }
{
    match book.order(alloc)? {
        Some(order) => Ok(order),
        None => Ok(Vec::new(alloc)),
    }
}

/// What is drawn of a register: its operations, an order of them, and the notes below them.
#[derive(Drop)]
struct DrawnRegister<'t> {
    slots: Vec<Option<Op<'t>>>,
    order: Vec<OpId>,
    notes: String,
}

#[tactic(auto, using(crate::proofs::Subjects::drawn_in_slots))]
fn drawing_of<'x>(
    view: ShownRun<'_, '_, '_, '_, 'x, '_, '_, '_, '_>,
    id: RegId,
    book: &RegisterBook<'x>,
) -> Result<DrawnRegister<'x>, Memory>
    ensures order { IfOk result (λ drawing. IsDrawnOrder book.now drawing.order.items) }
    ensures slots { IfOk result (λ drawing. ops_in_slots drawing.slots.items ≡ drawn_ops (asked_show view.entry.asked.now).all book.now.ops) }
{
    let all = view.asked.all;
    let slots = drawn_slots(view.alloc, all, book.slots())?;
    let order = order_of(view.alloc, book)?;
    let mut notes = String::new(view.alloc);
    if !all {
        push_unanswered(&mut notes, count_unanswered(book.slots()))?;
    }
    if let Some(doubt) = view.doubts.get(id.0 as usize) {
        view.sources.push_doubt(&mut notes, &view.run.logs, doubt)?;
    }
    Ok(DrawnRegister {
        slots,
        order,
        notes,
    })
}

/// The operations that are drawn: all, or all but the reads without an answer, which are not judged.
fn drawn_slots<'t>(
    alloc: Global,
    all: bool,
    slots: &[Option<Op<'t>>],
) -> Result<Vec<Option<Op<'t>>>, AllocError>
    ensures { IfOk result (λ drawn. drawn.items ≡ filter (is_drawn_slot all) slots.now) }
{
    slots
        .iter()
        .filter(|slot| is_drawn_slot(all, slot))
        .copied()
        .collect(alloc)
}

fn is_drawn_slot(all: bool, slot: &Option<Op>) -> bool
    ensures { result ≡ is_drawn_slot all slot.now }
{
    match slot {
        Some(op) => is_drawn(all, op),
        None => false,
    }
}

fn is_drawn(all: bool, op: &Op) -> bool
    ensures { result ≡ is_drawn all op.now }
{
    all || op.is_write() || op.end.is_some()
}

/// How many reads have no answer.
fn count_unanswered(slots: &[Option<Op>]) -> u64 {
    let mut many: u64 = 0;
    for slot in slots {
        if let Some(op) = slot {
            if !is_drawn(false, op) {
                many = many.saturating_add(1);
            }
        }
    }
    many
}

fn push_unanswered(text: &mut String, many: u64) -> Result<(), AllocError> {
    match many {
        0 => Ok(()),
        1 => text.push_str("A read without an answer is not shown.\n"),
        _ => write!(text, "{many} reads without an answer are not shown.\n"),
    }
}

/// The sketch of a register, with as much of it as is asked for: all that is drawn of it.
fn sketch_of<'a, 'x>(
    view: ShownRun<'_, '_, '_, '_, 'x, '_, '_, '_, '_>,
    tower: &'a Tower,
    id: RegId,
    book: &RegisterBook<'x>,
    drawing: &'a DrawnRegister<'x>,
) -> Result<Sketch<'a, 'x>, AllocError>
    requires order { IsDrawnOrder book.now drawing.now.order.items }
    requires slots { ops_in_slots drawing.now.slots.items ≡ drawn_ops (asked_show view.asked.now).all book.now.ops }
    ensures { IfOk result (IsSketchOf (asked_show view.entry.asked.now) tower.now view.entry.doubts.now id book.now) }
{
    let subject = subject_of(view, tower, id, book, drawing);
    Sketch::of(view.alloc, subject, extent_of(view.asked))
}

fn subject_of<'a, 'x>(
    view: ShownRun<'_, '_, '_, '_, 'x, '_, '_, '_, '_>,
    tower: &'a Tower,
    id: RegId,
    book: &RegisterBook<'x>,
    drawing: &'a DrawnRegister<'x>,
) -> Subject<'a, 'x>
    requires order { IsDrawnOrder book.now drawing.now.order.items }
    requires slots { ops_in_slots drawing.now.slots.items ≡ drawn_ops (asked_show view.asked.now).all book.now.ops }
    ensures { IsSubjectOf (asked_show view.entry.asked.now) tower.now view.entry.doubts.now id book.now result }
{
    Subject {
        name: match tower.name(id) {
            Some(name) => name,
            None => b"",
        },
        kind: book.kind(),
        initial: match tower.claim(id) {
            Some(claim) => claim.initial,
            None => Initial::Unknown,
        },
        slots: &drawing.slots,
        witness: book.witness(),
        order: &drawing.order,
        in_doubt: is_doubted(view.doubts, id),
        notes: &drawing.notes,
    }
}

fn look_of(asked: &Show, is_ascii: bool) -> Look
    ensures { result ≡ record { width = asked_width asked.now.width CELLS; is_ascii = is_ascii } }
{
    Look {
        width: width_of(asked, CELLS),
        is_ascii,
    }
}

fn sheet_of(asked: &Show, id: RegId, has_style: bool) -> Sheet
    ensures { result ≡ record { width = asked_width asked.now.width UNITS; theme = theme_by asked.now.theme; has_style = has_style; number = id.0 } }
{
    Sheet {
        width: width_of(asked, UNITS),
        theme: theme_of(asked),
        has_style,
        number: id.0,
    }
}

fn extent_of(asked: &Show) -> Extent
    ensures { result ≡ asked_extent (asked_show asked.now) }
{
    if asked.all {
        Extent::All
    } else {
        Extent::Around(asked.around as usize)
    }
}

/// The width that is asked for, or the usual one.
fn width_of(asked: &Show, usual: u32) -> u32
    ensures { result ≡ asked_width asked.now.width usual }
{
    match asked.width {
        Some(width) => match u32::try_from(width) {
            Ok(width) => width,
            Err(_) => u32::MAX,
        },
        None => usual,
    }
}

fn theme_of(asked: &Show) -> Theme
    ensures { result ≡ theme_by asked.now.theme }
{
    match asked.theme {
        words::ThemeWord::Auto => Theme::Auto,
        words::ThemeWord::Light => Theme::Light,
        words::ThemeWord::Dark => Theme::Dark,
    }
}
