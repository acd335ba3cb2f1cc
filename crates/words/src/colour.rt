//! The colours that `show`, `lint` and `explain` ask for.

ghost use Rattle.std.specs.Prelude.{◌≡◌, codes};
ghost use Rattle.clap.specs.Words.{found_of, rows_of};
ghost use Rattle.words.specs.Words.{colours_in, said_in};

use clap::ArgMatches;

/// Whether what is printed has colours.
#[derive(Clone, Copy)]
pub enum ColourWord {
    /// As the output goes.
    Auto,
    Always,
    Never,
}

/// The colours that the arguments ask for, of lines for people or of something else; none where these do not go together.
pub(crate) fn colours_of(found: &ArgMatches<'_>, for_people: bool) -> Option<ColourWord>
    ensures { result ≡ said_in (colours_in for_people) (codes "colour") (rows_of (found_of found.now)) }
{
    colours_in(for_people, found.get_str("colour")?)
}

fn colours_in(for_people: bool, text: &str) -> Option<ColourWord>
    ensures { result ≡ colours_in for_people text.now }
{
    if text == "never" {
        Some(ColourWord::Never)
    } else if text == "auto" {
        Some(if for_people {
            ColourWord::Auto
        } else {
            ColourWord::Never
        })
    } else if text == "always" && for_people {
        Some(ColourWord::Always)
    } else {
        None
    }
}
