//! What a picture shows, whatever it is drawn with.

ghost use Rattle.std.specs.Prelude.{◌≡◌, ◌++◌, IfOk, OnOk, map, string_bytes, true};
ghost use Rattle.std.specs.HashMap.{get};
ghost use Rattle.intervals.specs.Least.{less_of};
ghost use Rattle.intervals.specs.Operation.{same_id};
ghost use Rattle.intervals.specs.Table.{ops_in_slots};
ghost use Rattle.show.specs.Label.{label_by};
ghost use Rattle.show.specs.Scene.{AreAroundOf, IsScene, asked_ids, asked_beside, extent_of, first_to_begin, ids_of_optional};

use crate::front::{front_of, moments_of};
use crate::label::{head_of, push_label};
use crate::letter::{Lettered, letter_for, letters_of};
use crate::rank::{places_of, rank_in, ranks_in};
use crate::subject::Subject;
use intervals::{Op, OpId};
use register_book::{Witness, WritesAround, writes_around};
use std::alloc::{AllocError, Global};
use std::collections::HashMap;
use timeline::{BarSpan, Extent, Mark, Seat, choose, folded, marks, seats, spans};

/// A register and its scene, from which a picture of it is drawn.
#[derive(Drop)]
pub struct Sketch<'a, 't> {
    pub subject: Subject<'a, 't>,
    /// How much of the register was asked for.
    pub extent: Extent,
    pub scene: Scene<'t>,
}

impl<'a, 't> Sketch<'a, 't> {
    /// The sketch of a register, with so much of it.
    pub fn of(
        alloc: Global,
        subject: Subject<'a, 't>,
        extent: Extent,
    ) -> Result<Sketch<'a, 't>, AllocError>
        ensures { IfOk result (λ sketch. (sketch.subject ≡ subject.entry) × (sketch.extent ≡ extent) × IsScene subject.entry extent sketch.scene) }
    {
        let scene = scene_of(alloc, &subject, extent)?;
        Ok(Sketch {
            subject,
            extent,
            scene,
        })
    }
}

/// By what factor more operations are shown of a register that holds, from its first one on.
const FIRST_FOR_EACH: usize = 8;

/// The operations that are shown, by beginning, with their labels, marks and seats.
#[derive(Drop)]
pub struct Scene<'t> {
    pub witness: Option<Witness<'t>>,
    /// The writes around a wrong read; none where the register holds or fails otherwise.
    pub around: WritesAround<'t>,
    pub letters: Vec<Lettered>,
    pub ops: Vec<Op<'t>>,
    /// The place of each operation in an order that explains the reads, from 1.
    pub ranks: Vec<Option<usize>>,
    pub labels: Vec<String>,
    pub marks: Vec<Mark>,
    /// The digits that the moments of all marks begin with, and that their labels leave out.
    pub front: String,
    /// The label of the moment of each mark.
    pub moments: Vec<String>,
    pub spans: Vec<BarSpan>,
    /// How many operations that are not shown began between each mark and the one before it; last, after all.
    pub folded: Vec<usize>,
    pub seats: Vec<Seat>,
    /// How many operations stand, shown or not.
    pub all: usize,
}

/// The scene of a register.
fn scene_of<'t>(
    alloc: Global,
    subject: &Subject<'_, 't>,
    extent: Extent,
) -> Result<Scene<'t>, AllocError>
    ensures { IfOk result (IsScene subject.now extent) }
{
    let around = around_of(alloc, subject.slots, &subject.witness)?;
    let letters = letters_of(alloc, &subject.witness, &around)?;
    let asked = asked_of(alloc, subject.slots, &subject.witness, &around, &letters)?;
    let extent = extent_of(&subject.witness, extent);
    let chosen = choose(alloc, subject.slots, &asked, extent)?;
    let marks = marks(alloc, &chosen.shown)?;
    let spans = spans(alloc, &chosen.shown, &marks)?;
    let folded = folded(alloc, &marks, &chosen.hidden)?;
    let seats = seats(alloc, &chosen.shown)?;
    let places = places_of(alloc, subject.order)?;
    let ranks = ranks_in(alloc, &places, &chosen.shown)?;
    let labels = labels_of(alloc, &chosen.shown, &letters, &places)?;
    let front = front_of(alloc, &marks)?;
    let moments = moments_of(alloc, &marks, front.as_str().len())?;
    let all = chosen.shown.len() + chosen.hidden.len();
    Ok(Scene {
        witness: subject.witness,
        around,
        letters,
        ops: chosen.shown,
        ranks,
        labels,
        marks,
        front,
        moments,
        spans,
        folded,
        seats,
        all,
    })
}

/// The writes around the read of a witness that is a wrong read; else none.
fn around_of<'t>(
    alloc: Global,
    slots: &[Option<Op<'t>>],
    witness: &Option<Witness>,
) -> Result<WritesAround<'t>, AllocError>
    ensures { IfOk result (AreAroundOf (ops_in_slots slots.now) witness.now) }
{
    match witness {
        Some(Witness::Wrong(read)) => writes_around(alloc, slots, read),
        _ => Ok(WritesAround {
            last: None,
            over: Vec::new(alloc),
            source: None,
            later: None,
        }),
    }
}

/// How much is shown of a register: more operations where it holds.
fn extent_of(witness: &Option<Witness>, extent: Extent) -> Extent
    ensures { result ≡ extent_of witness.now extent }
{
    match (witness, extent) {
        (None, Extent::Around(around)) => Extent::Around(around.saturating_mul(FIRST_FOR_EACH)),
        _ => extent,
    }
}

/// The operations that are shown before all others: those that have a letter, and the writes of what a wrong read
/// returned; of a register that holds the operation that began first.
fn asked_of(
    alloc: Global,
    slots: &[Option<Op>],
    witness: &Option<Witness>,
    around: &WritesAround,
    letters: &[Lettered],
) -> Result<Vec<OpId>, AllocError>
    ensures { IfOk result (λ asked. asked.items ≡ asked_ids (ops_in_slots slots.now) witness.now around.now letters.now) }
{
    let mut asked = ids_of(alloc, letters)?;
    ask_beside(&mut asked, slots, witness, around)?;
    Ok(asked)
}

fn ids_of(alloc: Global, letters: &[Lettered]) -> Result<Vec<OpId>, AllocError>
    ensures { IfOk result (λ ids. ids.items ≡ map (λ lettered. lettered.id) letters.now) }
{
    let mut ids = Vec::new(alloc);
    for lettered in letters {
        ids.push(lettered.id)?;
    }
    Ok(ids)
}

fn ask_beside(
    asked: &mut Vec<OpId>,
    slots: &[Option<Op>],
    witness: &Option<Witness>,
    around: &WritesAround,
) -> Result<(), AllocError>
    ensures { OnOk result (asked.new.items ≡ asked.old.items ++ asked_beside (ops_in_slots slots.now) witness.now around.now) }
{
    match witness {
        Some(_) => {
            ask(asked, &around.source)?;
            ask(asked, &around.later)
        }
        None => ask(asked, &first_of(slots)),
    }
}

fn ask(asked: &mut Vec<OpId>, op: &Option<Op>) -> Result<(), AllocError>
    ensures { OnOk result (asked.new.items ≡ asked.old.items ++ ids_of_optional op.now) }
{
    if let Some(op) = op {
        asked.push(op.id)?;
    }
    Ok(())
}

/// The operation that began first.
fn first_of<'t>(slots: &[Option<Op<'t>>]) -> Option<Op<'t>>
    ensures { result ≡ first_to_begin (ops_in_slots slots.now) }
{
    let mut first: Option<Op<'t>> = None;
    for slot in slots {
        if let Some(op) = slot {
            first = earlier_of(first, op);
        }
    }
    first
}

/// The one of two that began first.
fn earlier_of<'t>(found: Option<Op<'t>>, op: &Op<'t>) -> Option<Op<'t>>
    ensures { result ≡ less_of (λ op. op.begin.0) (λ op. true) found.entry op.now }
{
    match found {
        Some(found) => {
            if op.begin.0 < found.begin.0 {
                Some(*op)
            } else {
                Some(found)
            }
        }
        None => Some(*op),
    }
}

fn labels_of(
    alloc: Global,
    ops: &[Op],
    letters: &[Lettered],
    places: &HashMap<OpId, usize>,
) -> Result<Vec<String>, AllocError>
    ensures { IfOk result (λ labels. map (λ label. string_bytes label) labels.items ≡ map (λ op. label_by letters.now (get same_id places.now op.id) op) ops.now) }
{
    let mut labels = Vec::new(alloc);
    for op in ops {
        labels.push(label_of(alloc, op, letters, places)?)?;
    }
    Ok(labels)
}

fn label_of(
    alloc: Global,
    op: &Op,
    letters: &[Lettered],
    places: &HashMap<OpId, usize>,
) -> Result<String, AllocError>
    ensures { IfOk result (λ label. string_bytes label ≡ label_by letters.now (get same_id places.now op.now.id) op.now) }
{
    let mut label = String::new(alloc);
    let head = head_of(letter_for(letters, op.id), rank_in(places, op));
    push_label(&mut label, head, op)?;
    Ok(label)
}
