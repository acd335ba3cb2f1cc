//! What each token does to what is open: it opens or closes something, ends an outermost element, or is a fault.

ghost use Rattle.std.specs.Prelude.{◌≡◌, ◌≤◌, ◌<◌, length, IfErr, OnErr};
ghost use Rattle.edn_reader.specs.declared.token.Token.TheVariants.{Opens};
ghost use Rattle.edn_reader.specs.Fault.{IsMemory};
ghost use Rattle.edn_reader.specs.Grammar.{fits, waits, is_paired, kind_of};
ghost use Rattle.edn_reader.specs.Taking.{Gives, GrowthRefused, StaysOpen, completed, closed, opened, taken, plain_span, fault_before};

use crate::bytes::Bracket;
use crate::element::{Core, ElementKind};
use crate::fault::EdnFault;
use crate::nesting::{Nesting, Open};
use crate::token::{Found, Opener, Token};

/// How many brackets, tags and discards may be open at once.
pub const ROOM: usize = 64;

/// An element by its places in the input.
#[derive(Clone, Copy)]
pub struct Span {
    pub kind: ElementKind,
    pub start: usize,
    pub end: usize,
    pub core: Core,
}

pub fn plain_span(kind: ElementKind, start: usize, end: usize) -> Span
    ensures { result ≡ plain_span kind start end }
{
    let core = Core { kind, start };
    Span {
        kind,
        start,
        end,
        core,
    }
}

/// Ends an element and the tags before it. The answer is the span of all that, where it is an outermost element.
#[inline(always)]
fn complete(element: Span, nesting: &mut Nesting) -> Option<Span>
    ensures { Gives (Ok result) nesting.new (completed element nesting.old) }
{
    let mut span = element;
    while let Some(open) = nesting.end_one() {
        match open.opener {
            Opener::Tag => {
                span = Span {
                    kind: ElementKind::Tagged,
                    start: open.place,
                    end: span.end,
                    core: span.core,
                };
            }
            _ => return None,
        }
    }
    Some(span)
}

fn open(place: usize, opener: Opener, nesting: &mut Nesting) -> Result<Option<Span>, EdnFault>
    ensures gives { Gives result nesting.new (opened place opener nesting.old) }
    ensures memory { IfErr result (λ fault. GrowthRefused (Opens opener) place nesting.old fault nesting.new) }
    ensures open { OnErr result (StaysOpen nesting.old nesting.new) }
{
    if nesting.has(ROOM) {
        return Err(EdnFault::TooDeep(place));
    }
    let open = Open {
        place,
        opener,
        odd: false,
    };
    match nesting.push(open) {
        Ok(()) => Ok(None),
        Err(_) => Err(EdnFault::Memory(place)),
    }
}

/// The fault of a closing bracket before which a tag or a discard waits, by the innermost bracket.
fn fault_before(place: usize, bracket: Bracket, waiting: Open, inner: Option<Open>) -> EdnFault
    ensures fault { result ≡ fault_before place bracket waiting inner }
    ensures no_memory { IsMemory result → ⊥ }
{
    match inner {
        None => EdnFault::StrayClose(place),
        Some(inner) => {
            if inner.opener.fits(bracket) {
                EdnFault::TagWithoutElement(waiting.place)
            } else {
                EdnFault::WrongClose(place)
            }
        }
    }
}

#[tactic(auto, unfolding(crate::specs::Taking::closed))]
fn close(
    place: usize,
    end: usize,
    bracket: Bracket,
    nesting: &mut Nesting,
) -> Result<Option<Span>, EdnFault>
    ensures gives { Gives result nesting.new (closed place end bracket nesting.old) }
    ensures memory { IfErr result (λ fault. IsMemory fault → ⊥) }
    ensures open { OnErr result (StaysOpen nesting.old nesting.new) }
{
    let Some(open) = nesting.pop() else {
        return Err(EdnFault::StrayClose(place));
    };
    if open.opener.waits() {
        return Err(fault_before(place, bracket, open, nesting.innermost()));
    }
    if !open.opener.fits(bracket) {
        return Err(EdnFault::WrongClose(place));
    }
    if open.opener.is_paired() && open.odd {
        return Err(EdnFault::OddMap(place));
    }
    Ok(complete(plain_span(open.opener.kind(), open.place, end), nesting))
}

/// Takes the token that was found at a place. The answer is the outermost element that it ends, if it ends one.
#[inline(always)]
#[tactic(auto, unfolding(crate::specs::Taking::taken))]
pub fn take(place: usize, found: Found, nesting: &mut Nesting) -> Result<Option<Span>, EdnFault>
    ensures gives { Gives result nesting.new (taken found.token place found.end nesting.old) }
    ensures memory { IfErr result (λ fault. GrowthRefused found.token place nesting.old fault nesting.new) }
    ensures open { OnErr result (StaysOpen nesting.old nesting.new) }
{
    match found.token {
        Token::Gap => Ok(None),
        Token::Leaf(kind) => Ok(complete(plain_span(kind, place, found.end), nesting)),
        Token::Opens(opener) => open(place, opener, nesting),
        Token::Closes(bracket) => close(place, found.end, bracket, nesting),
        Token::Unfinished => Err(EdnFault::Truncated(found.end)),
    }
}
