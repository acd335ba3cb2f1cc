//! The loop over the tokens of a chunk of an input, up to the end of an outermost element or of the chunk.

ghost use Rattle.std.specs.Prelude.{◌≡◌, ◌+◌, ◌≤◌, ◌<◌, ◌^◌, length, IfOk, IfErr};
ghost use Rattle.edn_reader.specs.Within.{ReadsOn, ReadsPiece, ReadsEnd, IsBetween, EndsBetween, EndsAt, WantsFrom, WantsInPiece, WantsAtEnd};

use crate::fault::EdnFault;
use crate::nesting::Nesting;
use crate::plain::pass_plain;
use crate::resume::{Ahead, Part, begin, read_on};
use crate::step::{Span, take};
use crate::token::Found;

/// The start of the token that the bytes so far end within, and the part of it that they hold. Where the start is
/// the place after the last of these bytes, nothing has begun.
#[derive(Clone, Copy, Default)]
pub struct Begun {
    pub start: usize,
    pub part: Part,
}

impl Begun {
    /// Nothing has begun by this place.
    pub fn nothing(start: usize) -> Begun
        ensures { result ≡ record { start = start; part = Part.Nothing } }
    {
        Begun {
            start,
            part: Part::Nothing,
        }
    }
}

/// How far a chunk was read.
#[derive(Clone, Copy)]
pub enum Reached {
    /// Up to the end of an outermost element.
    Ended(Span),
    /// Up to its own end.
    Within(Begun),
}

/// Reads the chunk `piece`, which begins at place `base` of the input, on from an index at which no token has begun.
#[inline(always)]
pub fn read_tokens(
    piece: &[u8],
    base: usize,
    from: usize,
    nesting: &mut Nesting,
) -> Result<Reached, EdnFault>
    requires within { from ≤ length piece.now }
    requires fits { base + length piece.now < 2 ^ 64 }
    ensures reads { ReadsOn piece.now base from nesting.old result nesting.new }
    ensures between { IfOk result (λ reached. IsBetween (base + from) (base + length piece.now) reached nesting.new) }
    ensures wants { IfErr result (λ fault. WantsFrom (base + from) (length piece.now) fault) }
{
    let mut at = from;
    while at < piece.len() {
        match begin(piece, at) {
            Ahead::Whole(found) => {
                let token = Found {
                    token: found.token,
                    end: base + found.end,
                };
                match take(base + at, token, nesting) {
                    Ok(None) => at = pass_plain(piece, found.end, nesting),
                    Ok(Some(span)) => return Ok(Reached::Ended(span)),
                    Err(fault) => return Err(fault),
                }
            }
            Ahead::Within(part) => {
                return Ok(Reached::Within(Begun {
                    start: base + at,
                    part,
                }));
            }
        }
    }
    Ok(Reached::Within(Begun {
        start: base + at,
        part: Part::Nothing,
    }))
}

/// Reads the chunk `piece`, up to its end or that of an outermost element; first what has begun before it goes on.
pub fn read_piece(
    piece: &[u8],
    base: usize,
    begun: Begun,
    nesting: &mut Nesting,
) -> Result<Reached, EdnFault>
    requires { base + length piece.now < 2 ^ 64 }
    ensures reads { ReadsPiece piece.now base begun nesting.old result nesting.new }
    ensures between { IfOk result (λ reached. EndsBetween base (base + length piece.now) reached nesting.new) }
    ensures wants { IfErr result (λ fault. WantsInPiece base (length piece.now) begun.start nesting.old fault nesting.new) }
{
    if begun.start == base {
        return read_tokens(piece, base, 0, nesting);
    }
    match read_on(piece, 0, begun.part) {
        Ahead::Whole(found) => {
            let token = Found {
                token: found.token,
                end: base + found.end,
            };
            match take(begun.start, token, nesting) {
                Ok(None) => read_tokens(piece, base, found.end, nesting),
                Ok(Some(span)) => Ok(Reached::Ended(span)),
                Err(fault) => Err(fault),
            }
        }
        Ahead::Within(part) => Ok(Reached::Within(Begun {
            start: begun.start,
            part,
        })),
    }
}

/// Takes what has begun as the last token of an input that ends at `end`.
pub fn read_end(end: usize, begun: Begun, nesting: &mut Nesting) -> Result<Option<Span>, EdnFault>
    ensures reads { ReadsEnd end begun nesting.old result nesting.new }
    ensures place { IfOk result (λ span. EndsAt begun.start end span nesting.new) }
    ensures wants { IfErr result (λ fault. WantsAtEnd begun.start nesting.old fault nesting.new) }
{
    if begun.start < end {
        let token = Found {
            token: begun.part.last(),
            end,
        };
        match take(begun.start, token, nesting) {
            Ok(None) => {}
            Ok(Some(span)) => return Ok(Some(span)),
            Err(fault) => return Err(fault),
        }
    }
    if nesting.has(0) {
        Ok(None)
    } else {
        Err(EdnFault::Truncated(end))
    }
}
