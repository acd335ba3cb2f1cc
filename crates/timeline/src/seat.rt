//! The lanes that operations are drawn in.

ghost use Rattle.std.specs.Prelude.{◌≡◌, ◌<◌, ◌≤◌, IfOk, IfSome, Some, false, length, true};
ghost use Rattle.std.specs.List.{slice_get};
ghost use Rattle.std.specs.List.Sorted.{IsNonDecreasingBy};
ghost use Rattle.std.specs.Option.{option_map_or};
ghost use Rattle.intervals.specs.declared.operation.Op.{Op as AnOp};
ghost use Rattle.intervals.specs.Operation.{precedes};
ghost use Rattle.timeline.specs.Seat.{AreSeats, AreTaken, TakesLane, is_free, put, seat_of, tail_of};

use intervals::{Op, precedes};
use std::alloc::{AllocError, Global};
use std::unreachable;

/// The lane that an operation is drawn in. A process in a trace has lanes of its own, and of two operations in one
/// lane the first precedes the second.
#[derive(Clone, Copy, PartialEq, Eq, PartialOrd, Ord)]
pub struct Seat {
    pub process: i64,
    pub feeder: u32,
    pub lane: usize,
    /// The number of the operation among those that are shown.
    pub op: usize,
}

/// The last operation of a lane so far.
#[derive(Clone, Copy)]
struct Tail {
    process: i64,
    feeder: u32,
    op: usize,
}

/// The seats of operations, which are given in the order of their beginnings. The seats are in the order of
/// process, trace, lane and beginning. Each operation takes the first lane of its process and trace that is free.
pub fn seats(alloc: Global, ops: &[Op]) -> Result<Vec<Seat>, AllocError>
    requires { IsNonDecreasingBy (λ op. op.begin.0) ops.now }
    ensures { IfOk result (λ seats. AreSeats ops.now seats.items) }
{
    let mut seats = taken(alloc, ops)?;
    seats.sort_unstable();
    Ok(seats)
}

/// The seats in the order of the operations.
fn taken(alloc: Global, ops: &[Op]) -> Result<Vec<Seat>, AllocError>
    requires { IsNonDecreasingBy (λ op. op.begin.0) ops.now }
    ensures { IfOk result (λ seats. AreTaken ops.now seats.items) }
{
    let mut seats = Vec::new(alloc);
    let mut tails = Vec::new(alloc);
    for number in 0..ops.len() {
        seats.push(take_seat(&mut tails, ops, number)?)?;
    }
    Ok(seats)
}

/// The seat of the operation of that number, which takes its lane.
fn take_seat(tails: &mut Vec<Tail>, ops: &[Op], number: usize) -> Result<Seat, AllocError>
    requires { number < length ops.now }
    ensures { IfOk result (λ seat. (op : AnOp) → slice_get ops.now number ≡ Some op → TakesLane ops.now number op tails.old.items seat tails.new.items) }
{
    match ops.get(number) {
        Some(op) => {
            let lane = take_lane(tails, ops, number, op)?;
            Ok(seat_of(op, number, lane))
        }
        None => unreachable!(),
    }
}

fn seat_of(op: &Op, number: usize, lane: usize) -> Seat
    ensures { result ≡ seat_of op.now number lane }
{
    Seat {
        process: op.process,
        feeder: op.id.feeder,
        lane,
        op: number,
    }
}

fn tail_of(op: &Op, number: usize) -> Tail
    ensures { result ≡ tail_of op.now number }
{
    Tail {
        process: op.process,
        feeder: op.id.feeder,
        op: number,
    }
}

/// Makes the operation the last one of the first lane that is free for it, or of a new one, and returns the lane.
fn take_lane(tails: &mut Vec<Tail>, ops: &[Op], number: usize, op: &Op) -> Result<usize, AllocError>
    ensures within { IfOk result (λ lane. lane ≤ length tails.old.items) }
    ensures free { IfOk result (λ lane. IfSome (slice_get tails.old.items lane) (λ tail. is_free ops.now op.now tail ≡ true)) }
    ensures after { IfOk result (λ lane. tails.new.items ≡ put tails.old.items lane (tail_of op.now number)) }
{
    let tail = tail_of(op, number);
    match tails.iter().position(|tail| is_free(tail, ops, op)) {
        Some(lane) => {
            tails[lane] = tail;
            Ok(lane)
        }
        None => {
            let lane = tails.len();
            tails.push(tail)?;
            Ok(lane)
        }
    }
}

/// Whether the lane is of the operation's process and trace, and its last operation precedes the operation.
fn is_free(tail: &Tail, ops: &[Op], op: &Op) -> bool
    ensures { result ≡ is_free ops.now op.now tail.now }
{
    tail.process == op.process && tail.feeder == op.id.feeder && precedes_at(ops, tail.op, op)
}

fn precedes_at(ops: &[Op], number: usize, op: &Op) -> bool
    ensures { result ≡ option_map_or (λ before. precedes before op.now) (slice_get ops.now number) false }
{
    match ops.get(number) {
        Some(before) => precedes(before, op),
        None => false,
    }
}
