//! The token at an index: a gap, an element without parts, a bracket, or what begins a tag or a discard.

ghost use Rattle.std.specs.Prelude.{◌≡◌, ◌≤◌, ◌<◌, length, drop};
ghost use Rattle.edn_reader.specs.Grammar.{waits, is_paired, fits, kind_of};
ghost use Rattle.edn_reader.specs.Token.{found_at, lexed};

use crate::bytes::Bracket;
use crate::element::ElementKind;
use crate::resume::{Ahead, begin};

/// What a token opens: a bracket, up to the one that closes it; a tag or a discard, up to the end of one element.
#[derive(Clone, Copy, Default)]
pub enum Opener {
    #[default]
    List,
    Vector,
    Map,
    Set,
    Tag,
    Discard,
}

impl Opener {
    /// Whether it waits for one element, and not for a closing bracket.
    pub fn waits(self) -> bool
        ensures { result ≡ waits self }
    {
        match self {
            Opener::Tag | Opener::Discard => true,
            _ => false,
        }
    }

    /// Whether it holds keys and values in turn.
    pub fn is_paired(self) -> bool
        ensures { result ≡ is_paired self }
    {
        match self {
            Opener::Map => true,
            _ => false,
        }
    }

    pub fn fits(self, bracket: Bracket) -> bool
        ensures { result ≡ fits self bracket }
    {
        match (self, bracket) {
            (Opener::List, Bracket::Round) => true,
            (Opener::Vector, Bracket::Square) => true,
            (Opener::Map, Bracket::Curly) => true,
            (Opener::Set, Bracket::Curly) => true,
            _ => false,
        }
    }

    /// The kind of the element that it begins. A discard begins none, and counts as `Tagged`.
    pub fn kind(self) -> ElementKind
        ensures { result ≡ kind_of self }
    {
        match self {
            Opener::List => ElementKind::List,
            Opener::Vector => ElementKind::Vector,
            Opener::Map => ElementKind::Map,
            Opener::Set => ElementKind::Set,
            Opener::Tag | Opener::Discard => ElementKind::Tagged,
        }
    }
}

#[derive(Clone, Copy)]
pub enum Token {
    /// A white byte or a comment.
    Gap,
    /// An element without parts: an Atom, a Char or a Text.
    Leaf(ElementKind),
    Opens(Opener),
    Closes(Bracket),
    /// A Text that is not closed, or a `#` or a backslash without a byte after it.
    Unfinished,
}

/// A token and the place after its last byte.
#[derive(Clone, Copy)]
pub struct Found {
    pub token: Token,
    pub end: usize,
}

/// The token at an index. Each of its bytes is looked at a bounded number of times.
#[inline(always)]
#[tactic(auto, using(crate::proofs::Resuming::found_whole, crate::proofs::Resuming::found_last))]
pub fn read_token(input: &[u8], at: usize) -> Found
    requires { at < length input.now }
    ensures found { result ≡ found_at at (lexed (drop at input.now)) }
    ensures within { result.end ≤ length input.now }
    ensures forward { at < result.end }
{
    match begin(input, at) {
        Ahead::Whole(found) => found,
        Ahead::Within(part) => Found {
            token: part.last(),
            end: input.len(),
        },
    }
}
