//! The judge of an atomic register's history: whether some order of its operations keeps precedence and
//! lets every read return the latest write before it (Gibbons and Korach 1997).
//!
//! A register that many processes write fails in three ways and in no other: a read returns what was
//! never written, a read ends before the write of its value begins, or the zones of two values
//! conflict. `Clusters` takes each edit, keeps the zones, and says after each whether the register holds:
//!
//! ```text
//! let mut clusters = Clusters::new(alloc, &claim)?;     // atomic, nil at first
//! clusters.admit_write(&first)?;       // of 1, from 0 to 1
//! clusters.admit_write(&second)?;      // of 2, from 2 to 9
//! clusters.admit_read(&new)?;          // of 2, from 4 to 5
//! clusters.admit_read(&old)?;          // of 1, from 6 to 7
//! clusters.zone_of(Value::Int(1))      // forward from 1 to 6: its least end is 1, its greatest beginning 6
//! clusters.zone_of(Value::Int(2))      // backward from 4 to 5: its least end is 5, its greatest beginning 4
//! clusters.crossing()                  // 1 comes before 4, and 5 before 6: first ended before new
//!                                      // began, and new ended before old began
//! clusters.drop_read(old_id);
//! clusters.holds()                     // true
//! ```
//!
//! The rows of `tests/judge_tests/many_writers.rattle` run these calls, and `many_writers/short.rattle` there goes
//! over all histories of few operations; `laws::worked_faults` is this history, computed from the definitions.
//!
//! Where nobody knows what a register held at first, it holds if its operations can be arranged from some
//! value that no write carries. So all reads of values without a write must return one value, and that is
//! the initial one; where there are no such reads, any may be. Where they return several values the register
//! fails by a split: `first_split` names two of them. The zone of the initial value is not kept in the tree:
//! it is made when it is asked for, and comes before the tree's zones.
//!
//! Read `specs/Cluster.antt` first: the cluster of a value and its zone; then `specs/AtFirst.antt`, what a
//! register held at first, `specs/Fault.antt`, the three ways to fail, `specs/Crossing.antt`, four
//! operations that no order has room for, and `specs/Turn.antt`, the order in which a faultless
//! register's operations are given. `laws.rt` has what these come to: a register is faultless exactly where
//! it has an arrangement, on every list of operations with distinct moments, ends after beginnings and
//! distinct written values, and so after any edits; an unwritten read, a split, an early read or a crossing
//! excludes every arrangement by itself; an order in turn is an arrangement. Zones, edges and conflicts
//! themselves are those of `zone_tree`.
//!
//! The calls are in `register.rt`. `records.rt` keeps the edges of each value (`edges.rt`): which write it
//! has, where that begins and ends, and where the last of its reads begins and the first of them ends.
//! `index.rt` keeps the ids of the judged reads in two indexes, by their ends and by their beginnings. An
//! edit touches two values at most. It takes their edges from their records, and looks into the indexes only
//! where a read goes that an edge was of. The edges give the zones of the two values (`zone_in.rt`) and,
//! where they are at fault, their stretches (`stretch.rt`). The edit moves the zones in one tree (`moves.rt`)
//! and the stretches in another (`stretch_moves.rt`); the root of each tree answers for the verdict.
//! `prepare` makes the room for one operation ahead: to withdraw others and then to admit it takes no memory.
#![tactic(auto)]

mod crossing;
mod edges;
mod index;
pub mod laws;
mod moves;
mod order;
mod records;
mod register;
mod stretch;
mod stretch_moves;
mod writes;
mod zone_in;

pub use crossing::Crossing;
pub use register::Clusters;
