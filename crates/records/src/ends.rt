//! The first and the last record of a run, and the record of an order.

ghost use Rattle.std.specs.Prelude.{◌≡◌, ◌++◌, ◌∷◌, [], OnOk, map, option_map};
ghost use Rattle.records.specs.Ends.{end_of_records, file_symbol, format_symbols, head_record, ids_symbols, least_symbols, order_symbols, tower_symbols, trace_totals, traces_symbols, verdict_totals};
ghost use Rattle.records.specs.Symbol.{end_list, place, symbol_of, symbols_of, text};

use crate::field::{add_list, add_number, add_text, add_type, add_word};
use crate::token::RecordToken;
use intervals::OpId;
use report::Least;
use std::alloc::AllocError;

/// How many registers there are, fail and are to blame; how many operations stand; how many elements were refused, and
/// how many traces broke.
#[derive(Clone, Copy)]
pub struct Totals {
    pub registers: u64,
    pub failing: u64,
    pub culprits: u64,
    pub operations: u64,
    pub refused: u64,
    pub broken: u64,
}

/// Adds the first record.
#[tactic(auto, unfolding(crate::specs::Ends::head_record))]
pub fn add_head<'a>(
    tokens: &mut Vec<RecordToken<'a>>,
    tower: Option<&'a [u8]>,
    registers: u64,
    traces: &[&'a str],
    moments: &'static str,
) -> Result<(), AllocError>
    ensures { OnOk result (symbols_of tokens.new.items ≡ symbols_of tokens.old.items ++ head_record (option_map (λ name. name.now) tower.entry) registers (map (λ name. name.now) traces.now) moments.now) }
{
    add_type(tokens, "head")?;
    add_format(tokens)?;
    add_tower(tokens, tower, registers)?;
    add_traces(tokens, traces)?;
    add_word(tokens, "moment", moments)?;
    tokens.push(RecordToken::EndRecord)?;
    Ok(())
}

#[tactic(auto, unfolding(crate::specs::Ends::tower_symbols))]
fn add_tower<'a>(
    tokens: &mut Vec<RecordToken<'a>>,
    tower: Option<&'a [u8]>,
    registers: u64,
) -> Result<(), AllocError>
    ensures { OnOk result (symbols_of tokens.new.items ≡ symbols_of tokens.old.items ++ tower_symbols (option_map (λ name. name.now) tower.entry) registers) }
{
    tokens.extend_from_slice(&[RecordToken::Key("tower"), file_token(tower)])?;
    add_number(tokens, "registers", registers)
}

fn file_token<'a>(name: Option<&'a [u8]>) -> RecordToken<'a>
    ensures { symbol_of result ≡ file_symbol (option_map (λ name. name.now) name.entry) }
{
    match name {
        Some(name) => RecordToken::Text(name),
        None => RecordToken::Nothing,
    }
}

#[tactic(auto, unfolding(crate::specs::Ends::traces_symbols))]
fn add_traces<'a>(tokens: &mut Vec<RecordToken<'a>>, traces: &[&'a str]) -> Result<(), AllocError>
    ensures { OnOk result (symbols_of tokens.new.items ≡ symbols_of tokens.old.items ++ traces_symbols (map (λ name. name.now) traces.now)) }
{
    add_list(tokens, "traces")?;
    add_names(tokens, traces)?;
    tokens.push(RecordToken::EndList)?;
    Ok(())
}

#[tactic(auto, unfolding(crate::specs::Ends::format_symbols))]
fn add_format<'a>(tokens: &mut Vec<RecordToken<'a>>) -> Result<(), AllocError>
    ensures { OnOk result (symbols_of tokens.new.items ≡ symbols_of tokens.old.items ++ format_symbols) }
{
    add_number(tokens, "format", 1)?;
    add_text(tokens, "program", b"regaudit")
}

fn add_names<'a>(tokens: &mut Vec<RecordToken<'a>>, names: &[&'a str]) -> Result<(), AllocError>
    ensures { OnOk result (symbols_of tokens.new.items ≡ symbols_of tokens.old.items ++ map text (map (λ name. name.now) names.now)) }
{
    for name in names {
        tokens.push(RecordToken::Text(name.as_bytes()))?;
    }
    Ok(())
}

/// Adds the record of an order.
#[tactic(auto, unfolding(crate::specs::Ends::order_symbols))]
pub fn add_order<'a>(
    tokens: &mut Vec<RecordToken<'a>>,
    name: &'a [u8],
    found: &Option<Vec<OpId>>,
) -> Result<(), AllocError>
    ensures { OnOk result (symbols_of tokens.new.items ≡ symbols_of tokens.old.items ++ order_symbols name.now (option_map (λ ids. ids.items) found.now)) }
{
    add_type(tokens, "order")?;
    add_text(tokens, "register", name)?;
    tokens.push(RecordToken::Key("ids"))?;
    add_found(tokens, found)?;
    tokens.push(RecordToken::EndRecord)?;
    Ok(())
}

fn add_found<'a>(
    tokens: &mut Vec<RecordToken<'a>>,
    found: &Option<Vec<OpId>>,
) -> Result<(), AllocError>
    ensures { OnOk result (symbols_of tokens.new.items ≡ symbols_of tokens.old.items ++ ids_symbols (option_map (λ ids. ids.items) found.now)) }
{
    match found {
        Some(ids) => {
            tokens.push(RecordToken::BeginList)?;
            add_ids(tokens, ids)?;
            tokens.push(RecordToken::EndList)?;
            Ok(())
        }
        None => {
            tokens.push(RecordToken::Nothing)?;
            Ok(())
        }
    }
}

fn add_ids<'a>(tokens: &mut Vec<RecordToken<'a>>, ids: &[OpId]) -> Result<(), AllocError>
    ensures { OnOk result (symbols_of tokens.new.items ≡ symbols_of tokens.old.items ++ map (λ id. place id.feeder id.event) ids.now) }
{
    for id in ids {
        tokens.push(RecordToken::Id(*id))?;
    }
    Ok(())
}

/// Adds the last record.
#[tactic(auto, unfolding(crate::specs::Ends::end_of_records))]
pub fn add_last<'a>(
    tokens: &mut Vec<RecordToken<'a>>,
    status: u64,
    totals: &Totals,
    least: Least,
) -> Result<(), AllocError>
    ensures { OnOk result (symbols_of tokens.new.items ≡ symbols_of tokens.old.items ++ end_of_records status totals.now least) }
{
    add_type(tokens, "end")?;
    add_verdict_totals(tokens, status, totals)?;
    add_trace_totals(tokens, totals)?;
    add_least(tokens, least)?;
    tokens.push(RecordToken::EndRecord)?;
    Ok(())
}

fn add_verdict_totals<'a>(
    tokens: &mut Vec<RecordToken<'a>>,
    status: u64,
    totals: &Totals,
) -> Result<(), AllocError>
    ensures { OnOk result (symbols_of tokens.new.items ≡ symbols_of tokens.old.items ++ verdict_totals status totals.now) }
{
    add_number(tokens, "status", status)?;
    add_number(tokens, "registers", totals.registers)?;
    add_number(tokens, "failing", totals.failing)?;
    add_number(tokens, "culprits", totals.culprits)
}

fn add_trace_totals<'a>(
    tokens: &mut Vec<RecordToken<'a>>,
    totals: &Totals,
) -> Result<(), AllocError>
    ensures { OnOk result (symbols_of tokens.new.items ≡ symbols_of tokens.old.items ++ trace_totals totals.now) }
{
    add_number(tokens, "operations", totals.operations)?;
    add_number(tokens, "refused", totals.refused)?;
    add_number(tokens, "broken", totals.broken)
}

fn add_least<'a>(tokens: &mut Vec<RecordToken<'a>>, least: Least) -> Result<(), AllocError>
    ensures { OnOk result (symbols_of tokens.new.items ≡ symbols_of tokens.old.items ++ least_symbols least) }
{
    add_number(tokens, "least", least.all)?;
    add_number(tokens, "least_each", least.each)
}
