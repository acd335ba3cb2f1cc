//! The moments that a caption speaks of.

use crate::scene::Scene;
use intervals::{Op, OpId};
use register_book::{InRole, Role};
use std::alloc::{AllocError, Global};

/// The numbers of the marks of these moments, each once, in order.
pub fn told_of(alloc: Global, scene: &Scene) -> Result<Vec<usize>, AllocError> {
    let mut told = Vec::new(alloc);
    if let Some(witness) = &scene.witness {
        for slot in &witness.roles() {
            if let Some(one) = slot {
                add_told(&mut told, scene, one)?;
            }
        }
    }
    told.sort_unstable();
    told.dedup();
    Ok(told)
}

/// Adds the marks of those moments of an operation that the caption speaks of, by its role.
fn add_told(told: &mut Vec<usize>, scene: &Scene, one: &InRole) -> Result<(), AllocError> {
    match one.role {
        Role::B | Role::D | Role::LateWrite => add_mark(told, begin_mark(scene, &one.op)),
        Role::A | Role::C | Role::EarlyRead => add_mark(told, end_mark(scene, &one.op)),
        Role::Bc | Role::Read | Role::FirstRead | Role::SecondRead => {
            add_mark(told, begin_mark(scene, &one.op))?;
            add_mark(told, end_mark(scene, &one.op))
        }
    }
}

fn add_mark(told: &mut Vec<usize>, mark: Option<usize>) -> Result<(), AllocError> {
    if let Some(mark) = mark {
        told.push(mark)?;
    }
    Ok(())
}

/// The mark at which an operation begins, if it is shown.
pub fn begin_mark(scene: &Scene, op: &Op) -> Option<usize> {
    let span = scene.spans.get(number_of(scene, op.id)?)?;
    Some(span.begin)
}

/// The mark at which an operation ends, if it is shown and has an end.
pub fn end_mark(scene: &Scene, op: &Op) -> Option<usize> {
    let span = scene.spans.get(number_of(scene, op.id)?)?;
    span.end
}

/// The number of an operation among those that are shown, if it is.
pub fn number_of(scene: &Scene, id: OpId) -> Option<usize> {
    for number in 0..scene.ops.len() {
        if scene.ops[number].has_id(id) {
            return Some(number);
        }
    }
    None
}
