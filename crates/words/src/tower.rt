//! Which tower a command judges by.

ghost use Rattle.std.specs.Prelude.{◌≡◌, codes};
ghost use Rattle.std.specs.Option.{option_map};
ghost use Rattle.clap.specs.Words.{found_of, rows_of};
ghost use Rattle.words.specs.Words.{asked_tower, file_of, kind_named, tower_by};

use clap::ArgMatches;
use intervals::Kind;

/// The tower that is asked for.
#[derive(Clone, Copy)]
pub enum TowerWord<'a> {
    /// That of the tower file of this name.
    File(&'a str),
    /// That of the registers that the traces name, each of this kind.
    Each(Kind),
}

impl<'a> TowerWord<'a> {
    /// The name of the tower file, where there is one.
    pub fn file(&self) -> Option<&'a str>
        ensures { option_map (λ name. name.now) result ≡ file_of (asked_tower self.now) }
    {
        match self {
            TowerWord::File(name) => Some(*name),
            TowerWord::Each(_) => None,
        }
    }
}

/// The tower that is asked for by the arguments that `clap` found, or none.
pub(crate) fn tower_of<'a>(found: &ArgMatches<'a>) -> Option<TowerWord<'a>>
    ensures { option_map asked_tower result ≡ tower_by (rows_of (found_of found.now)) }
{
    match (found.get_str("tower"), found.get_str("each")) {
        (Some(file), None) => Some(TowerWord::File(file)),
        (None, Some(word)) => Some(TowerWord::Each(kind_named(word)?)),
        (None, None) => Some(TowerWord::Each(Kind::Atomic)),
        (Some(_), Some(_)) => None,
    }
}

/// The kind of this name.
pub(crate) fn kind_named(text: &str) -> Option<Kind>
    ensures { result ≡ kind_named text.now }
{
    if text == "atomic" {
        Some(Kind::Atomic)
    } else if text == "regular" {
        Some(Kind::Regular)
    } else if text == "safe" {
        Some(Kind::Safe)
    } else {
        None
    }
}
