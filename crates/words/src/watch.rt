//! What `watch` asks for.

ghost use Rattle.std.specs.Prelude.{◌≡◌, ◌<◌, ◌≤◌, IfOk, IfSome, codes, length};
ghost use Rattle.std.specs.Option.{option_map};
ghost use Rattle.clap.specs.Words.{found_of, rows_of};
ghost use Rattle.words.specs.Words.{asked_watch, line_form_in, said_in, watch_by};

use crate::check::{count_of, moments_of, shards_of, traces_of};
use crate::demand::{Demand, demand_of};
use crate::show::is_set;
use crate::tower::{TowerWord, tower_of};
use clap::ArgMatches;
use jepsen_form::MomentField;
use std::alloc::{AllocError, Global};

/// What is written of a notice.
#[derive(Clone, Copy)]
pub enum LineForm {
    /// A line for people.
    Text,
    /// A record in JSON.
    Json,
}

/// What `watch` asks for.
#[derive(Drop)]
pub struct Watch<'a> {
    pub tower: TowerWord<'a>,
    /// From 1 to 64.
    pub shards: u32,
    pub moments: MomentField,
    pub form: LineForm,
    /// Whether it ends at the first register that fails.
    pub until_fail: bool,
    /// For how many more elements of each trace a failure is held back.
    pub settle: u64,
    pub demand: Demand,
    /// One or more.
    pub traces: Vec<&'a str>,
}

/// What `watch` asks for by the arguments that `clap` found, or none.
pub(crate) fn watch_of<'a>(
    alloc: Global,
    found: &ArgMatches<'a>,
) -> Result<Option<Watch<'a>>, AllocError>
    ensures asks { IfOk result (λ watch. option_map asked_watch watch ≡ watch_by (rows_of (found_of found.now))) }
    ensures shards { IfOk result (λ watch. IfSome watch (λ watch. (1 ≤ watch.shards) × (watch.shards ≤ 64))) }
    ensures traces { IfOk result (λ watch. IfSome watch (λ watch. 0 < length watch.traces.items)) }
{
    let Some(tower) = tower_of(found) else {
        return Ok(None);
    };
    let Some(moments) = moments_of(found) else {
        return Ok(None);
    };
    let Some(shards) = shards_of(found) else {
        return Ok(None);
    };
    let Some(form) = line_form_of(found) else {
        return Ok(None);
    };
    let Some(settle) = count_of(found, "settle") else {
        return Ok(None);
    };
    let Some(demand) = demand_of(found) else {
        return Ok(None);
    };
    let traces = traces_of(alloc, found)?;
    if traces.is_empty() {
        return Ok(None);
    }
    Ok(Some(Watch {
        tower,
        shards,
        moments,
        form,
        until_fail: is_set(found, "until-fail"),
        settle,
        demand,
        traces,
    }))
}

fn line_form_of(found: &ArgMatches<'_>) -> Option<LineForm>
    ensures { result ≡ said_in line_form_in (codes "as") (rows_of (found_of found.now)) }
{
    line_form_in(found.get_str("as")?)
}

fn line_form_in(text: &str) -> Option<LineForm>
    ensures { result ≡ line_form_in text.now }
{
    if text == "text" {
        Some(LineForm::Text)
    } else if text == "json" {
        Some(LineForm::Json)
    } else {
        None
    }
}
