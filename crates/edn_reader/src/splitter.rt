//! The splitter reads an input that comes in chunks, and reports where the elements of the whole begin and end.

ghost use Rattle.std.specs.Prelude.{◌≡◌, ◌+◌, ◌≤◌, ◌<◌, ◌^◌, List, [], length, Ok, Some, Err, IfOk, IfSome, IsTrue, ◌↔◌, ℕ};
ghost use Rattle.edn_reader.specs.Splitting.{IsFull};

use crate::element::{Element, ElementKind};
use crate::fault::{EdnFault, wanted_at};
use crate::nesting::Nesting;
use crate::step::{ROOM, Span, plain_span};
use crate::token::Token;
use crate::tokens::{Begun, Reached, read_end, read_piece};
use std::alloc::Global;
use std::marker::Model;

/// Reads an input that comes in chunks, cut anywhere, and keeps none of its bytes. The elements and the first
/// fault are those that a [`Reader`](crate::Reader) finds in the joined chunks. Once it has met a fault of the
/// input, it answers that fault for good. After [`EdnFault::Memory`] it goes on: a call with the bytes that were
/// not taken gives what the refused call would have given.
#[derive(Drop)]
pub struct Splitter {
    nesting: Nesting,
    begun: Begun,
    taken: usize,
    fault: Option<EdnFault>,
    /// The outermost element that ended last.
    ended: Span,
}

/// How much of a chunk was taken.
#[derive(Clone, Copy)]
pub struct Taken {
    /// How many bytes of the chunk were used: all, or those up to the end of an element. The rest is to be given
    /// again, as the beginning of the next chunk.
    pub used: usize,
    /// The outermost element that ended, if one did: the place of its first byte in the joined chunks, and the
    /// place after its last byte.
    pub whole: Option<(u64, u64)>,
}

impl Model for Splitter {
    ghost use Rattle.edn_reader.specs.Splitting.{SplitterModel};

    ghost Value = { SplitterModel };

    ghost view = { λ a. record { taken = a.taken; begun = a.begun; opens = a.nesting; fault = a.fault; ended = a.ended } };
}

/// Whether 64 things are open while what has begun is sure to open one more.
fn is_full(begun: Begun, nesting: &Nesting) -> bool
    ensures { IsFull result begun nesting.now }
{
    match begun.part.last() {
        Token::Opens(_) => nesting.has(ROOM),
        _ => false,
    }
}

impl Splitter {
    ghost use Rattle.edn_reader.specs.Grammar.{ElementModel, IsElement};
    ghost use Rattle.edn_reader.specs.Lent.{piece_of};
    ghost use Rattle.edn_reader.specs.Flat.{BeginsWithElement};
    ghost use Rattle.edn_reader.specs.Splitting.{StandsAfter, TakesOn, EndsOn, IsLast, IsBetweenElements, keep, ended_element};

    /// A splitter that has taken no byte. It takes no memory; the allocator is kept for what will be open.
    pub fn new(alloc: Global) -> Splitter
        ensures { (next : List ℕ) → StandsAfter [] next [] result }
    {
        Splitter {
            nesting: Nesting::new(alloc),
            begun: Begun::nothing(0),
            taken: 0,
            fault: None,
            ended: plain_span(ElementKind::Atom, 0, 0),
        }
    }

    /// How many bytes it has taken, in all chunks.
    pub fn taken(&self) -> u64
        ensures { result ≡ self.now.taken }
    {
        self.taken as u64
    }

    /// The place in the joined chunks from which their bytes may still be needed: no element that is given later
    /// begins before it. It never falls.
    pub fn keep_from(&self) -> u64
        ensures { result ≡ keep self.now }
    {
        let place = match self.begun.part.last() {
            Token::Gap => self.taken,
            _ => self.begun.start,
        };
        self.nesting.outer(place) as u64
    }

    /// The outermost element that ended last, lent from its bytes, wherever they are kept.
    pub fn lend<'a>(&self, text: &'a [u8]) -> Element<'a>
        requires fits { self.now.ended.start + length text.now < 2 ^ 64 }
        requires element { (piece : ElementModel) × IsLast self.now piece × IsElement piece × (piece.text ≡ text.now) }
        ensures { (piece : ElementModel) → IsLast self.now piece → piece.text ≡ text.entry.now → piece_of result ≡ piece }
    {
        Element::new(text, self.ended.start, self.ended.kind, self.ended.core)
    }

    /// Takes the chunk `piece` up to the end of the next outermost element, or whole. An element that needs no
    /// closing byte ends when the byte after it comes, which is not used. Where memory is refused, the bytes
    /// before the one that the fault names are taken: the rest, from that byte on, is the next chunk.
    pub fn take(&mut self, piece: &[u8]) -> Result<Taken, EdnFault>
        requires { self.old.taken + length piece.now < 2 ^ 64 }
        ensures takes { TakesOn piece.now self.old result self.new }
        ensures counted { IfOk result (λ taken. (taken.used ≤ length piece.now) × (self.new.taken ≡ self.old.taken + taken.used)) }
        ensures again { IfSome self.old.fault (λ fault. (result ≡ Err fault) × (self.new ≡ self.old)) }
    {
        if let Some(fault) = self.fault {
            return Err(fault);
        }
        let base = self.taken;
        match read_piece(piece, base, self.begun, &mut self.nesting) {
            Ok(Reached::Ended(span)) => {
                self.taken = span.end;
                self.ended = span;
                self.begun = Begun::nothing(span.end);
                Ok(Taken {
                    used: span.end - base,
                    whole: Some((span.start as u64, span.end as u64)),
                })
            }
            Ok(Reached::Within(begun)) => {
                self.taken = base + piece.len();
                self.begun = begun;
                if is_full(begun, &self.nesting) {
                    let fault = EdnFault::TooDeep(begun.start);
                    self.fault = Some(fault);
                    return Err(fault);
                }
                let used = piece.len();
                Ok(Taken { used, whole: None })
            }
            Err(fault) => match wanted_at(fault) {
                None => {
                    self.fault = Some(fault);
                    Err(fault)
                }
                Some(place) => {
                    if place < base {
                        return Err(EdnFault::Memory(base));
                    }
                    self.taken = place;
                    self.begun = Begun::nothing(place);
                    Err(EdnFault::Memory(place))
                }
            },
        }
    }

    /// Whether nothing is open and no token has begun: the next byte that is taken begins a new one.
    pub fn is_between_elements(&self) -> bool
        ensures { IsTrue result ↔ IsBetweenElements self.now }
    {
        self.begun.start == self.taken && self.nesting.has(0)
    }

    /// Takes the element that the next chunk begins with, after a gap, where it is known: none of its bytes is read.
    pub fn take_known(&mut self, element: &Element) -> Taken
        requires between { IsBetweenElements self.old }
        requires after { self.old.taken ≤ (piece_of element.now).start }
        ensures told { result ≡ ended_element self.old (piece_of element.now) }
        ensures takes { (piece : List ℕ) → BeginsWithElement piece self.old.taken (piece_of element.now) → TakesOn piece self.old (Ok result) self.new }
        ensures last { IsLast self.new (piece_of element.now) }
        ensures taken { self.new.taken ≡ self.old.taken + result.used }
    {
        let before = self.taken;
        let span = element.as_span();
        self.ended = span;
        self.taken = span.end;
        self.begun = Begun::nothing(span.end);
        Taken {
            used: span.end - before,
            whole: Some((span.start as u64, span.end as u64)),
        }
    }

    /// Takes the end of the input. The answer is the places of the element that ended with it, if there is one.
    /// Where memory is refused, the splitter is as it was, and the end may be taken again.
    pub fn end(&mut self) -> Result<Option<(u64, u64)>, EdnFault>
        ensures ends { EndsOn self.old result self.new }
        ensures again { IfSome self.old.fault (λ fault. (result ≡ Err fault) × (self.new ≡ self.old)) }
    {
        if let Some(fault) = self.fault {
            return Err(fault);
        }
        match read_end(self.taken, self.begun, &mut self.nesting) {
            Ok(Some(span)) => {
                self.ended = span;
                self.begun = Begun::nothing(self.taken);
                Ok(Some((span.start as u64, span.end as u64)))
            }
            Ok(None) => {
                self.begun = Begun::nothing(self.taken);
                Ok(None)
            }
            Err(fault) => match wanted_at(fault) {
                None => {
                    self.fault = Some(fault);
                    Err(fault)
                }
                Some(place) => Err(EdnFault::Memory(place)),
            },
        }
    }
}
