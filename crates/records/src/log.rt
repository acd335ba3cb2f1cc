//! The records of the traces.

ghost use Rattle.std.specs.Prelude.{◌≡◌, ◌++◌, ◌∷◌, [], OnOk, Option, flat_map, map};
ghost use Rattle.std.specs.Option.{option_to_list};
ghost use Rattle.records.specs.Log.{answer_fields, answer_symbols, break_symbols, broken_symbols, met_by, met_by_edit, met_places, placed_break, placed_refusal, refusal_end, refusal_symbols, refused_symbols};
ghost use Rattle.records.specs.Spot.{holder_record};
ghost use Rattle.records.specs.Symbol.{symbols_of};
ghost use Rattle.records.specs.Value.{holder_symbol};

use crate::field::{
    add_end, add_flag, add_list, add_number, add_place, add_text, add_type, add_word,
};
use crate::spot::{add_holder_place, add_spot, known_token};
use crate::token::RecordToken;
use crate::value::holder_token;
use intervals::{Holder, Refusal};
use logs::{Broken, Code};
use places::Places;
use shards::Answer;
use std::alloc::AllocError;

/// Adds the record of a refusal, with the line of the element.
#[tactic(auto, unfolding(crate::specs::Log::refused_symbols))]
pub fn add_refused<'a>(
    tokens: &mut Vec<RecordToken<'a>>,
    feeder: u64,
    event: u64,
    line: u64,
    code: &Code,
) -> Result<(), AllocError>
    ensures { OnOk result (symbols_of tokens.new.items ≡ symbols_of tokens.old.items ++ refused_symbols feeder event line code.now) }
{
    add_refusal(tokens, feeder, event, code)?;
    tokens.push(RecordToken::EndList)?;
    add_number(tokens, "line", line)?;
    tokens.push(RecordToken::EndRecord)?;
    Ok(())
}

/// Adds the record of a refusal, with where the element is, and what it collides with.
#[tactic(auto, unfolding(crate::specs::Log::placed_refusal))]
pub fn add_placed_refusal<'a>(
    tokens: &mut Vec<RecordToken<'a>>,
    places: &Places,
    feeder: u64,
    event: u64,
    code: &Code,
) -> Result<(), AllocError>
    ensures { OnOk result (symbols_of tokens.new.items ≡ symbols_of tokens.old.items ++ placed_refusal places.now feeder event code.now) }
{
    add_refusal(tokens, feeder, event, code)?;
    tokens.push(RecordToken::EndList)?;
    add_refusal_end(tokens, places, feeder, event, code)
}

/// The end of the record of a refusal: where the element is, and what it collides with.
#[tactic(auto, unfolding(crate::specs::Log::refusal_end))]
fn add_refusal_end<'a>(
    tokens: &mut Vec<RecordToken<'a>>,
    places: &Places,
    feeder: u64,
    event: u64,
    code: &Code,
) -> Result<(), AllocError>
    ensures { OnOk result (symbols_of tokens.new.items ≡ symbols_of tokens.old.items ++ refusal_end places.now feeder event code.now) }
{
    add_spot(tokens, places.locate(feeder, event))?;
    add_list(tokens, "with_places")?;
    add_met_places(tokens, places, code)?;
    add_end(tokens)
}

/// The beginning of the record of a refusal, up to what the element collides with.
#[tactic(auto, unfolding(crate::specs::Log::refusal_symbols))]
fn add_refusal<'a>(
    tokens: &mut Vec<RecordToken<'a>>,
    feeder: u64,
    event: u64,
    code: &Code,
) -> Result<(), AllocError>
    ensures { OnOk result (symbols_of tokens.new.items ≡ symbols_of tokens.old.items ++ refusal_symbols feeder event code.now) }
{
    add_type(tokens, "refused")?;
    add_place(tokens, feeder, event)?;
    add_word(tokens, "code", code.code())?;
    add_list(tokens, "with")?;
    add_met(tokens, code)
}

/// What a refused element collides with.
fn add_met<'a>(tokens: &mut Vec<RecordToken<'a>>, code: &Code) -> Result<(), AllocError>
    ensures { OnOk result (symbols_of tokens.new.items ≡ symbols_of tokens.old.items ++ map holder_symbol (met_by code.now)) }
{
    let (one, other) = met_by(code);
    add_one(tokens, one)?;
    add_one(tokens, other)
}

fn add_one<'a>(tokens: &mut Vec<RecordToken<'a>>, holder: Option<Holder>) -> Result<(), AllocError>
    ensures { OnOk result (symbols_of tokens.new.items ≡ symbols_of tokens.old.items ++ map holder_symbol (option_to_list holder)) }
{
    if let Some(holder) = holder {
        tokens.push(holder_token(holder))?;
    }
    Ok(())
}

/// Where what a refused element collides with is.
fn add_met_places<'a>(
    tokens: &mut Vec<RecordToken<'a>>,
    places: &Places,
    code: &Code,
) -> Result<(), AllocError>
    ensures { OnOk result (symbols_of tokens.new.items ≡ symbols_of tokens.old.items ++ met_places places.now code.now) }
{
    let (one, other) = met_by(code);
    add_one_place(tokens, places, one)?;
    add_one_place(tokens, places, other)
}

fn add_one_place<'a>(
    tokens: &mut Vec<RecordToken<'a>>,
    places: &Places,
    holder: Option<Holder>,
) -> Result<(), AllocError>
    ensures { OnOk result (symbols_of tokens.new.items ≡ symbols_of tokens.old.items ++ flat_map (holder_record places.now) (option_to_list holder)) }
{
    match holder {
        Some(holder) => add_holder_place(tokens, places, holder),
        None => Ok(()),
    }
}

/// What a refused element collides with: two at most.
fn met_by(code: &Code) -> (Option<Holder>, Option<Holder>)
    ensures { met_by code.now ≡ option_to_list result.0 ++ option_to_list result.1 }
{
    match code {
        Code::Register(refusal) => met_by_edit(refusal),
        Code::Form(_) | Code::Pair(_) => (None, None),
    }
}

fn met_by_edit(refusal: &Refusal) -> (Option<Holder>, Option<Holder>)
    ensures { met_by_edit refusal.now ≡ option_to_list result.0 ++ option_to_list result.1 }
{
    match refusal {
        Refusal::MomentTaken(_, id) => (Some(Holder::Op(*id)), None),
        Refusal::WritesOverlap(id) => (Some(Holder::Op(*id)), None),
        Refusal::ValueTaken(holder) => (Some(*holder), None),
        Refusal::ClaimOverlap(one, other) => (Some(Holder::Op(*one)), Some(Holder::Op(*other))),
        Refusal::ClaimRepeats(id, holder) => (Some(Holder::Op(*id)), Some(*holder)),
        _ => (None, None),
    }
}

/// Adds the record of an answer to a question, with where the question is.
#[tactic(auto, unfolding(crate::specs::Log::answer_symbols))]
pub fn add_answer<'a>(
    tokens: &mut Vec<RecordToken<'a>>,
    places: &Places,
    feeder: u64,
    event: u64,
    name: &'a [u8],
    answer: &Answer,
) -> Result<(), AllocError>
    ensures { OnOk result (symbols_of tokens.new.items ≡ symbols_of tokens.old.items ++ answer_symbols places.now feeder event name.now answer.now.holds answer.now.operations) }
{
    add_type(tokens, "answer")?;
    add_place(tokens, feeder, event)?;
    add_answer_fields(tokens, name, answer.holds, answer.operations)?;
    add_spot(tokens, places.locate(feeder, event))?;
    tokens.push(RecordToken::EndRecord)?;
    Ok(())
}

fn add_answer_fields<'a>(
    tokens: &mut Vec<RecordToken<'a>>,
    name: &'a [u8],
    holds: bool,
    operations: u64,
) -> Result<(), AllocError>
    ensures { OnOk result (symbols_of tokens.new.items ≡ symbols_of tokens.old.items ++ answer_fields name.now holds operations) }
{
    add_text(tokens, "register", name)?;
    add_flag(tokens, "holds", holds)?;
    add_number(tokens, "operations", operations)
}

/// Adds the record of a break at this line.
#[tactic(auto, unfolding(crate::specs::Log::broken_symbols))]
pub fn add_broken<'a>(
    tokens: &mut Vec<RecordToken<'a>>,
    feeder: u64,
    broken: Broken,
    line: u64,
) -> Result<(), AllocError>
    ensures { OnOk result (symbols_of tokens.new.items ≡ symbols_of tokens.old.items ++ broken_symbols feeder broken line) }
{
    add_break(tokens, feeder, broken)?;
    add_number(tokens, "line", line)?;
    tokens.push(RecordToken::EndRecord)?;
    Ok(())
}

/// Adds the record of a break, with the line of its byte, which may not be known.
#[tactic(auto, unfolding(crate::specs::Log::placed_break))]
pub fn add_placed_break<'a>(
    tokens: &mut Vec<RecordToken<'a>>,
    places: &Places,
    feeder: u64,
    broken: Broken,
) -> Result<(), AllocError>
    ensures { OnOk result (symbols_of tokens.new.items ≡ symbols_of tokens.old.items ++ placed_break places.now feeder broken) }
{
    add_break(tokens, feeder, broken)?;
    tokens.extend_from_slice(&[
        RecordToken::Key("line"),
        known_token(places.line_of(feeder, broken.place)),
    ])?;
    tokens.push(RecordToken::EndRecord)?;
    Ok(())
}

/// The beginning of the record of a break.
#[tactic(auto, unfolding(crate::specs::Log::break_symbols))]
fn add_break<'a>(
    tokens: &mut Vec<RecordToken<'a>>,
    feeder: u64,
    broken: Broken,
) -> Result<(), AllocError>
    ensures { OnOk result (symbols_of tokens.new.items ≡ symbols_of tokens.old.items ++ break_symbols feeder broken) }
{
    add_type(tokens, "broken")?;
    add_number(tokens, "trace", feeder)?;
    add_word(tokens, "code", broken.code.code())?;
    add_number(tokens, "byte", broken.place)
}
