//! What `lint` asks for.

ghost use Rattle.std.specs.Prelude.{◌≡◌, IfOk, codes, map};
ghost use Rattle.std.specs.Option.{option_map};
ghost use Rattle.clap.specs.Words.{found_of, rows_of};
ghost use Rattle.words.specs.Words.{asked_lint, asked_tower, is_for_people, is_nothing, lint_by, lint_form_in, said_in};

use crate::check::{count_of, moments_of, traces_of};
use crate::colour::{ColourWord, colours_of};
use crate::tower::{TowerWord, tower_of};
use clap::ArgMatches;
use jepsen_form::MomentField;
use std::alloc::{AllocError, Global};

/// How findings are printed.
#[derive(Clone, Copy)]
pub enum LintForm {
    /// With the lines of the file that they are about.
    Human,
    /// A line for each.
    Short,
    /// As annotations of GitHub Actions.
    GitHub,
    /// A JSON record for each.
    Json,
}

/// What `lint` asks for: a tower file, traces, or both.
#[derive(Drop)]
pub struct Lint<'a> {
    pub tower: TowerWord<'a>,
    pub moments: MomentField,
    pub form: LintForm,
    /// How many of each code are shown, or 0 for all.
    pub most: u64,
    /// Codes of notes, with commas between them, that are to count as warnings.
    pub denied: Option<&'a str>,
    pub colours: ColourWord,
    pub traces: Vec<&'a str>,
}

/// What `lint` asks for by the arguments that `clap` found, or none.
pub(crate) fn lint_of<'a>(
    alloc: Global,
    found: &ArgMatches<'a>,
) -> Result<Option<Lint<'a>>, AllocError>
    ensures { IfOk result (λ lint. option_map asked_lint lint ≡ lint_by (rows_of (found_of found.now))) }
{
    let Some(tower) = tower_of(found) else {
        return Ok(None);
    };
    let Some(moments) = moments_of(found) else {
        return Ok(None);
    };
    let Some(form) = lint_form_of(found) else {
        return Ok(None);
    };
    let Some(most) = count_of(found, "max") else {
        return Ok(None);
    };
    let Some(colours) = colours_of(found, is_for_people(form)) else {
        return Ok(None);
    };
    let traces = traces_of(alloc, found)?;
    if is_nothing(&tower, &traces) {
        return Ok(None);
    }
    Ok(Some(Lint {
        tower,
        moments,
        form,
        most,
        denied: found.get_str("deny"),
        colours,
        traces,
    }))
}

/// Whether neither a tower file nor a trace is named.
fn is_nothing(tower: &TowerWord, traces: &[&str]) -> bool
    ensures { result ≡ is_nothing (asked_tower tower.now) (map (λ name. name.now) traces.now) }
{
    match tower {
        TowerWord::File(_) => false,
        TowerWord::Each(_) => traces.is_empty(),
    }
}

/// Whether findings are printed as lines for people, which alone may have colours.
pub(crate) fn is_for_people(form: LintForm) -> bool
    ensures { result ≡ is_for_people form }
{
    match form {
        LintForm::Human => true,
        LintForm::Short | LintForm::GitHub | LintForm::Json => false,
    }
}

pub(crate) fn lint_form_of(found: &ArgMatches<'_>) -> Option<LintForm>
    ensures { result ≡ said_in lint_form_in (codes "as") (rows_of (found_of found.now)) }
{
    lint_form_in(found.get_str("as")?)
}

fn lint_form_in(text: &str) -> Option<LintForm>
    ensures { result ≡ lint_form_in text.now }
{
    if text == "human" {
        Some(LintForm::Human)
    } else if text == "short" {
        Some(LintForm::Short)
    } else if text == "github" {
        Some(LintForm::GitHub)
    } else if text == "json" {
        Some(LintForm::Json)
    } else {
        None
    }
}
