//! What a map has under a key: no value, one, or more.

ghost use Rattle.std.specs.Prelude.{◌≡◌, ◌++◌, List, [], ◌∷◌};
ghost use Rattle.edn_reader.specs.Grammar.{ElementModel};
ghost use Rattle.edn_reader.specs.Lent.{piece_of};
ghost use Rattle.edn_reader.specs.Given.{given, seen};

use crate::element::Element;

/// What a map has under a key: no pair, one pair with this value, or more.
#[derive(Clone, Copy)]
pub enum Field<'t> {
    Absent,
    Once(Element<'t>),
    Twice,
}

impl<'t> Field<'t> {
    ghost use Rattle.edn_reader.specs.Given.{one_more};

    /// What the map has under the key once this value is added.
    pub fn one_more(self, value: Element<'t>) -> Field<'t>
        ensures seen { seen result ≡ one_more (seen self.entry) (piece_of value.entry) }
        ensures values { (values : List ElementModel) → seen self.entry ≡ given values → seen result ≡ given (values ++ piece_of value.entry ∷ []) }
    {
        match self {
            Field::Absent => Field::Once(value),
            Field::Once(_) | Field::Twice => Field::Twice,
        }
    }
}
