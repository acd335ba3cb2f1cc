//! What each CI server is told in the same words.

ghost use Rattle.std.specs.Prelude.{◌≡◌, ◌++◌, OnOk, map, string_bytes};
ghost use Rattle.report.specs.Doubted.{first_rested};
ghost use Rattle.ci_forms.specs.Facts.{break_text, doubt_words, facts_of, first_in_slots, first_shown, is_to_blame, op_line, trace_name, why_text};

use crate::told::CiRun;
use intervals::{Kind, OpId, RegId};
use logs::Broken;
use phrases::{kind_word, push_fault_text};
use places::Places;
use register_book::{InRole, Witness};
use report::{Doubt, is_culprit};
use std::alloc::AllocError;

/// What comes before the first element on which a failure rests.
pub const IN_DOUBT: &str = "; in doubt, since elements were left out (first ";

/// Whether a register is a culprit.
pub fn is_to_blame(run: &CiRun, id: RegId) -> bool
    ensures { result ≡ is_to_blame (facts_of run.now) id }
{
    is_culprit(run.tower, run.failing, id)
}

/// The name of a trace, empty where there is none of that number.
pub fn trace_name<'a>(traces: &[&'a str], feeder: usize) -> &'a str
    ensures { result.now ≡ trace_name (map (λ name. name.now) traces.now) feeder }
{
    match traces.get(feeder) {
        Some(name) => *name,
        None => "",
    }
}

/// The line of an operation's invocation; none where it is not known.
pub fn op_line(places: &Places, id: OpId) -> Option<usize>
    ensures { result ≡ op_line places.now id }
{
    match places.locate(u64::from(id.feeder), id.event) {
        Some(spot) => Some(spot.place.line),
        None => None,
    }
}

/// The id of the first operation of a witness, or none.
pub fn first_shown(witness: &Witness) -> Option<OpId>
    ensures { result ≡ first_shown witness.now }
{
    first_in_slots(&witness.roles())
}

fn first_in_slots(slots: &[Option<InRole>]) -> Option<OpId>
    ensures { result ≡ first_in_slots slots.now }
{
    for slot in slots {
        if let Some(one) = slot {
            return Some(one.op.id);
        }
    }
    None
}

/// The first element on which the failure of a register rests, or none.
pub fn first_rested(doubts: &[Doubt], id: RegId) -> Option<(usize, u64)>
    ensures { result ≡ first_rested doubts.now id }
{
    match doubts.get(id.0 as usize) {
        Some(doubt) => doubt.rests_on.first().copied(),
        None => None,
    }
}

/// Adds why a register fails: the kind that it claims to be, the fault, and the first element on which that rests.
#[tactic(auto, unfolding(crate::specs::Facts::why_text))]
pub fn push_why(
    text: &mut String,
    kind: Kind,
    witness: &Witness,
    rests: Option<(usize, u64)>,
) -> Result<(), AllocError>
    ensures { OnOk result (string_bytes text.new ≡ string_bytes text.old ++ why_text kind witness.now rests) }
{
    text.push_str(kind_word(kind))?;
    text.push_str(": ")?;
    push_fault_text(text, witness.ids())?;
    push_doubt(text, rests)
}

#[tactic(auto, unfolding(crate::specs::Facts::doubt_words))]
fn push_doubt(text: &mut String, rests: Option<(usize, u64)>) -> Result<(), AllocError>
    ensures { OnOk result (string_bytes text.new ≡ string_bytes text.old ++ doubt_words rests) }
{
    let Some((feeder, event)) = rests else {
        return Ok(());
    };
    text.push_str(IN_DOUBT)?;
    write!(text, "{feeder}:{event})")
}

/// Adds where a trace broke, and why.
#[tactic(auto, unfolding(crate::specs::Facts::break_text))]
pub fn push_break(text: &mut String, feeder: usize, broken: Broken) -> Result<(), AllocError>
    ensures { OnOk result (string_bytes text.new ≡ string_bytes text.old ++ break_text feeder broken) }
{
    write!(text, "broken {feeder} ")?;
    text.push_str(broken.code.code())?;
    write!(text, " at {}", broken.place)
}
