//! The escapes that a terminal takes for colours.

ghost use Rattle.std.specs.Prelude.{◌≡◌};
ghost use Rattle.colours.specs.Painted.{escape};

/// A colour, all but `Dim` in bold letters; or such letters alone, or dim ones.
#[derive(Clone, Copy)]
pub enum TextColour {
    Red,
    Yellow,
    Green,
    Blue,
    Bold,
    Dim,
}

impl TextColour {
    /// The escape with which the colour begins.
    pub(crate) fn escape(self) -> &'static str
        ensures { result.now ≡ escape self }
    {
        match self {
            TextColour::Red => "\u{1b}[1;31m",
            TextColour::Yellow => "\u{1b}[1;33m",
            TextColour::Green => "\u{1b}[1;32m",
            TextColour::Blue => "\u{1b}[1;34m",
            TextColour::Bold => "\u{1b}[1m",
            TextColour::Dim => "\u{1b}[2m",
        }
    }
}

/// The escape with which each colour ends.
pub(crate) const RESET: &str = "\u{1b}[0m";
