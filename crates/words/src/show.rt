//! What `show` asks for.

ghost use Rattle.std.specs.Prelude.{◌≡◌, ◌<◌, IfOk, IfSome, codes, length};
ghost use Rattle.std.specs.Option.{option_map};
ghost use Rattle.clap.specs.Words.{found_of, rows_of};
ghost use Rattle.words.specs.Words.{asked_show, is_in_lines, is_set, picture_by, picture_in, said_in, show_by, theme_in};

use crate::check::{count_of, moments_of, traces_of};
use crate::colour::{ColourWord, colours_of};
use crate::demand::{Demand, demand_of};
use crate::tower::{TowerWord, tower_of};
use clap::ArgMatches;
use jepsen_form::MomentField;
use std::alloc::{AllocError, Global};

/// How a picture is drawn.
#[derive(Clone, Copy, PartialEq, Eq)]
pub enum Picture {
    /// In lines of a terminal.
    Text,
    /// In lines of a terminal, of ASCII characters alone.
    Ascii,
    /// One picture as SVG.
    Svg,
    /// A page with a picture of each register that fails.
    Html,
}

/// The colours of a picture that is no lines of a terminal.
#[derive(Clone, Copy)]
pub enum ThemeWord {
    /// Light or dark, as the reader's machine asks for.
    Auto,
    Light,
    Dark,
}

/// What `show` asks for.
#[derive(Drop)]
pub struct Show<'a> {
    pub tower: TowerWord<'a>,
    pub moments: MomentField,
    /// The register that is drawn. Where none is named, a culprit if there is one; as HTML, all registers that fail.
    pub register: Option<&'a str>,
    pub picture: Picture,
    /// How many operations are shown before and after each one that shows why the register fails.
    pub around: u64,
    /// Whether all operations are shown.
    pub all: bool,
    /// How wide lines or rows may be, in characters or units; where none is given, 100 characters or 1000 units.
    pub width: Option<u64>,
    pub theme: ThemeWord,
    pub colours: ColourWord,
    pub demand: Demand,
    /// One or more.
    pub traces: Vec<&'a str>,
}

/// What `show` asks for by the arguments that `clap` found, or none.
pub(crate) fn show_of<'a>(
    alloc: Global,
    found: &ArgMatches<'a>,
) -> Result<Option<Show<'a>>, AllocError>
    ensures asks { IfOk result (λ show. option_map asked_show show ≡ show_by (rows_of (found_of found.now))) }
    ensures traces { IfOk result (λ show. IfSome show (λ show. 0 < length show.traces.items)) }
{
    let Some(tower) = tower_of(found) else {
        return Ok(None);
    };
    let Some(moments) = moments_of(found) else {
        return Ok(None);
    };
    let Some(picture) = picture_of(found) else {
        return Ok(None);
    };
    let Some(around) = count_of(found, "around") else {
        return Ok(None);
    };
    let Some(theme) = theme_of(found) else {
        return Ok(None);
    };
    let Some(colours) = colours_of(found, is_in_lines(picture)) else {
        return Ok(None);
    };
    let Some(demand) = demand_of(found) else {
        return Ok(None);
    };
    let traces = traces_of(alloc, found)?;
    if traces.is_empty() {
        return Ok(None);
    }
    Ok(Some(Show {
        tower,
        moments,
        register: found.get_str("register"),
        picture,
        around,
        all: is_set(found, "all"),
        width: count_of(found, "width"),
        theme,
        colours,
        demand,
        traces,
    }))
}

/// Whether a picture is drawn in lines of a terminal, which alone may have colours.
fn is_in_lines(picture: Picture) -> bool
    ensures { result ≡ is_in_lines picture }
{
    match picture {
        Picture::Text | Picture::Ascii => true,
        Picture::Svg | Picture::Html => false,
    }
}

fn picture_of(found: &ArgMatches<'_>) -> Option<Picture>
    ensures { result ≡ picture_by (rows_of (found_of found.now)) }
{
    picture_in(
        is_set(found, "svg"),
        is_set(found, "html"),
        is_set(found, "ascii"),
    )
}

fn picture_in(svg: bool, html: bool, ascii: bool) -> Option<Picture>
    ensures { result ≡ picture_in svg html ascii }
{
    match (svg, html, ascii) {
        (false, false, false) => Some(Picture::Text),
        (false, false, true) => Some(Picture::Ascii),
        (false, true, false) => Some(Picture::Html),
        (true, false, false) => Some(Picture::Svg),
        _ => None,
    }
}

/// Whether the flag of this name is among the arguments.
pub(crate) fn is_set(found: &ArgMatches<'_>, name: &str) -> bool
    ensures { result ≡ is_set name.now (rows_of (found_of found.now)) }
{
    match found.get_str(name) {
        Some(value) => value == "true",
        None => false,
    }
}

fn theme_of(found: &ArgMatches<'_>) -> Option<ThemeWord>
    ensures { result ≡ said_in theme_in (codes "theme") (rows_of (found_of found.now)) }
{
    theme_in(found.get_str("theme")?)
}

fn theme_in(text: &str) -> Option<ThemeWord>
    ensures { result ≡ theme_in text.now }
{
    if text == "auto" {
        Some(ThemeWord::Auto)
    } else if text == "light" {
        Some(ThemeWord::Light)
    } else if text == "dark" {
        Some(ThemeWord::Dark)
    } else {
        None
    }
}
