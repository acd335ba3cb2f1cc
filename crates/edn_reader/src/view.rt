//! Views of maps and vectors, which give what is left in them. They take no memory.

ghost use Rattle.std.specs.Prelude.{◌≡◌, ◌+◌, ◌≤◌, ◌<◌, ◌^◌, List, MatchOption};
ghost use Rattle.edn_reader.specs.Pairs.{HoldsPairs, HoldsMembers};

use crate::element::Element;
use crate::field::Field;
use crate::parts::Parts;

/// The pairs of a map that were not given yet.
#[derive(Clone, Copy)]
pub struct MapView<'t> {
    parts: Parts<'t>,
    ghost following: { 0 < parts.at },
    ghost whole: { ∥ HoldsPairs parts.at parts.left.now ∥₁ },
}

/// The elements of a vector that were not given yet.
#[derive(Clone, Copy)]
pub struct VectorView<'t> {
    parts: Parts<'t>,
    ghost following: { 0 < parts.at },
    ghost whole: { ∥ HoldsMembers parts.at parts.left.now ∥₁ },
}

impl<'t> MapView<'t> {
    ghost use Rattle.edn_reader.specs.Grammar.{ElementModel};
    ghost use Rattle.edn_reader.specs.Lent.{PairsLeft, NextPair, bytes_left};
    ghost use Rattle.edn_reader.specs.Pairs.{HoldsPairs, values_of};
    ghost use Rattle.edn_reader.specs.Given.{given, seen};

    pub(crate) fn new(parts: Parts<'t>) -> MapView<'t>
        requires following { 0 < parts.at }
        requires whole { ∥ HoldsPairs parts.at parts.left.now ∥₁ }
        ensures { result.parts ≡ parts.entry }
    {
        MapView { parts }
    }

    /// The next key and its value; none at the end of the map, and again from then on.
    #[inline(always)]
    pub fn next_pair(&mut self) -> Option<(Element<'t>, Element<'t>)>
        ensures left { (pairs : List (ElementModel × ElementModel)) × PairsLeft self.old pairs }
        ensures pair { (pairs : List (ElementModel × ElementModel)) → PairsLeft self.old pairs → NextPair result self.new pairs }
        ensures shrinks { MatchOption result (self.new ≡ self.old) (λ pair. bytes_left self.new < bytes_left self.old) }
    {
        let mut ahead = self.parts;
        let Some(key) = ahead.next() else {
            return None;
        };
        let Some(value) = ahead.next() else {
            return None;
        };
        *self = MapView::new(ahead);
        Some((key, value))
    }

    /// What the pairs that are left have under a key, a keyword which is given with its colon.
    pub fn field(&self, key: &[u8]) -> Field<'t>
        ensures left { (pairs : List (ElementModel × ElementModel)) × PairsLeft self.now pairs }
        ensures values { (pairs : List (ElementModel × ElementModel)) → PairsLeft self.now pairs → seen result ≡ given (values_of key.now pairs) }
    {
        let mut view = *self;
        let mut found = Field::Absent;
        while let Some((name, value)) = view.next_pair() {
            if name.is_keyword(key) {
                found = found.one_more(value);
            }
        }
        found
    }
}

impl<'t> VectorView<'t> {
    ghost use Rattle.edn_reader.specs.Grammar.{ElementModel};
    ghost use Rattle.edn_reader.specs.Lent.{MembersLeft, NextMember, members_left};
    ghost use Rattle.edn_reader.specs.Pairs.{HoldsMembers};

    pub(crate) fn new(parts: Parts<'t>) -> VectorView<'t>
        requires following { 0 < parts.at }
        requires whole { ∥ HoldsMembers parts.at parts.left.now ∥₁ }
        ensures { result.parts ≡ parts.entry }
    {
        VectorView { parts }
    }

    /// The next element; none at the end of the vector, and again from then on.
    pub fn next(&mut self) -> Option<Element<'t>>
        ensures left { (members : List ElementModel) × MembersLeft self.old members }
        ensures member { (members : List ElementModel) → MembersLeft self.old members → NextMember result self.new members }
        ensures shrinks { MatchOption result (self.new ≡ self.old) (λ element. members_left self.new < members_left self.old) }
    {
        self.parts.next()
    }
}
