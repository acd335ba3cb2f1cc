//! An element that is lent from its input, and what it can be read as.

ghost use Rattle.std.specs.Prelude.{◌≡◌, ◌+◌, ◌≤◌, ◌<◌, ◌^◌, ◌↔◌, ◌≢◌, length, List, MatchOption};
ghost use Rattle.std.specs.Option.{option_map};
ghost use Rattle.edn_reader.specs.Grammar.{IsElement};

use crate::integer;
use crate::parts::Parts;
use crate::step::Span;
use crate::view::{MapView, VectorView};

/// The kind of an element, by its first bytes (docs/FORMATS.md, Elements).
#[derive(Clone, Copy, Debug)]
pub enum ElementKind {
    /// `nil`, `true`, `false`, a keyword, a symbol or a number.
    Atom,
    Char,
    Text,
    List,
    Vector,
    Map,
    Set,
    /// A tag with its element.
    Tagged,
}

/// The kind and the first place of an element without its tags.
#[derive(Clone, Copy)]
pub struct Core {
    pub(crate) kind: ElementKind,
    pub(crate) start: usize,
}

/// An element by the grammar, and its place in the input. It takes no memory.
#[derive(Clone, Copy)]
pub struct Element<'t> {
    text: &'t [u8],
    start: usize,
    kind: ElementKind,
    core: Core,
    ghost fits: { start + length text.now < 2 ^ 64 },
    ghost core_after: { start ≤ core.start },
    ghost core_within: { core.start ≤ start + length text.now },
    ghost whole: { ∥ IsElement (record { kind = kind; start = start; text = text.now; core = core }) ∥₁ },
}

impl<'t> Element<'t> {
    ghost use Rattle.edn_reader.specs.Grammar.{ElementModel, untagged, IsElement};
    ghost use Rattle.edn_reader.specs.Lent.{piece_of, PairsLeft, MembersLeft};
    ghost use Rattle.edn_reader.specs.Integer.{int_of};
    ghost use Rattle.edn_reader.specs.Skipping.{IsInside};
    ghost use Rattle.edn_reader.specs.Taking.{span_of};
    ghost use Rattle.edn_reader.specs.Pairs.{keyword_of, is_nil, is_word, HasPairs, HasMembers};
    ghost use Rattle.edn_reader.specs.declared.element.ElementKind.TheVariants.{Vector, Map};

    pub(crate) fn new(text: &'t [u8], start: usize, kind: ElementKind, core: Core) -> Element<'t>
        requires fits { start + length text.now < 2 ^ 64 }
        requires after { start ≤ core.start }
        requires within { core.start ≤ start + length text.now }
        requires whole { ∥ IsElement (record { kind = kind; start = start; text = text.now; core = core }) ∥₁ }
        ensures { piece_of result ≡ record { kind = kind; start = start; text = text.entry.now; core = core } }
    {
        Element {
            text,
            start,
            kind,
            core,
        }
    }

    /// The bytes of the element, tags included.
    pub fn text(&self) -> &'t [u8]
        ensures { result.now ≡ (piece_of self.now).text }
    {
        let Element { text, .. } = *self;
        text
    }

    /// The place of the first byte of the element, and the one after its last byte.
    pub fn span(&self) -> (usize, usize)
        ensures start { result.0 ≡ (piece_of self.now).start }
        ensures end { result.1 ≡ (piece_of self.now).start + length (piece_of self.now).text }
    {
        (self.start, self.start + self.text.len())
    }

    pub(crate) fn as_span(&self) -> Span
        ensures { result ≡ span_of (piece_of self.now) }
    {
        Span {
            kind: self.kind,
            start: self.start,
            end: self.start + self.text.len(),
            core: self.core,
        }
    }

    /// The kind of the element: `Tagged` where it has a tag.
    pub fn kind(&self) -> ElementKind
        ensures { result ≡ (piece_of self.now).kind }
    {
        let Element { kind, .. } = *self;
        kind
    }

    /// The element without its tags; itself where it has none.
    pub fn untagged(&self) -> Element<'t>
        ensures { piece_of result ≡ untagged (piece_of self.now) }
    {
        let Element {
            text,
            start,
            core,
            ..
        } = *self;
        Element::new(&text[core.start - start..], core.start, core.kind, core)
    }

    /// Whether the element without its tags is the word `nil`.
    pub fn is_nil(&self) -> bool
        ensures { result ≡ is_nil (piece_of self.now) }
    {
        let bare = self.untagged();
        match bare.kind {
            ElementKind::Atom => bare.text == b"nil".as_slice(),
            _ => false,
        }
    }

    /// The integer that the element without its tags is, where it fits 64 bits with a sign.
    pub fn as_int(&self) -> Option<i64>
        ensures { result ≡ int_of (piece_of self.now) }
    {
        let bare = self.untagged();
        match bare.kind {
            ElementKind::Atom => integer::signed(bare.text),
            _ => None,
        }
    }

    /// The bytes of the keyword that the element without its tags is, with the colon.
    pub fn as_keyword(&self) -> Option<&'t [u8]>
        ensures { option_map (λ bytes. bytes.now) result ≡ keyword_of (piece_of self.now) }
    {
        let bare = self.untagged();
        match (bare.kind, bare.text) {
            (ElementKind::Atom, [b':', ..]) => Some(bare.text),
            _ => None,
        }
    }

    /// Whether the element without its tags is this keyword, which is given with its colon.
    pub fn is_keyword(&self, keyword: &[u8]) -> bool
        ensures { result ≡ is_word keyword.now (piece_of self.now) }
    {
        match self.as_keyword() {
            Some(text) => text == keyword,
            None => false,
        }
    }

    /// What is after the opening bracket of the element without its tags, where it is of this kind.
    fn inside(&self, kind: ElementKind, bracket: u8) -> Option<Parts<'t>>
        ensures { IsInside result (piece_of self.now) kind bracket }
    {
        let bare = self.untagged();
        if bare.kind != kind || bare.text.is_empty() || bare.text[0] != bracket {
            return None;
        }
        Some(Parts::new(&bare.text[1..], bare.start + 1))
    }

    /// A view of the map that the element without its tags is.
    pub fn as_map(&self) -> Option<MapView<'t>>
        ensures pairs { MatchOption result ((pairs : List (ElementModel × ElementModel)) → HasPairs (piece_of self.now) pairs → ⊥)
            (λ view. ((piece_of self.now).core.kind ≡ Map) × ((pairs : List (ElementModel × ElementModel)) → HasPairs (piece_of self.now) pairs ↔ PairsLeft view pairs)) }
        ensures some { MatchOption result ((piece_of self.now).core.kind ≢ Map)
            (λ view. (pairs : List (ElementModel × ElementModel)) × HasPairs (piece_of self.now) pairs × PairsLeft view pairs) }
    {
        match self.inside(ElementKind::Map, b'{') {
            Some(parts) => Some(MapView::new(parts)),
            None => None,
        }
    }

    /// A view of the vector that the element without its tags is.
    pub fn as_vector(&self) -> Option<VectorView<'t>>
        ensures members { MatchOption result ((members : List ElementModel) → HasMembers (piece_of self.now) members → ⊥)
            (λ view. ((piece_of self.now).core.kind ≡ Vector) × ((members : List ElementModel) → HasMembers (piece_of self.now) members ↔ MembersLeft view members)) }
        ensures some { MatchOption result ((piece_of self.now).core.kind ≢ Vector)
            (λ view. (members : List ElementModel) × HasMembers (piece_of self.now) members × MembersLeft view members) }
    {
        match self.inside(ElementKind::Vector, b'[') {
            Some(parts) => Some(VectorView::new(parts)),
            None => None,
        }
    }
}
