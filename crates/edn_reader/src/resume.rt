//! The token at an index, or the part of it that the bytes hold where they end within it, and how that goes on.

ghost use Rattle.std.specs.Prelude.{◌≡◌, ◌≤◌, ◌<◌, [], length, drop};
ghost use Rattle.edn_reader.specs.declared.token.Token.TheVariants.{Leaf, Opens};
ghost use Rattle.edn_reader.specs.declared.token.Opener.TheVariants.{Tag};
ghost use Rattle.edn_reader.specs.declared.resume.Part.TheVariants.{Nothing, Comment, Run, Text, Escape, Hash, Backslash};
ghost use Rattle.edn_reader.specs.Grammar.{opener_of};
ghost use Rattle.edn_reader.specs.Resuming.{last, LooksAhead};

use crate::bytes::{Bracket, ByteClass, classify, comment_end, is_plain, is_white, run_end};
use crate::element::ElementKind;
use crate::token::{Found, Opener, Token};
use memchr::memchr2;

/// What the bytes so far hold of the token that they end within.
#[derive(Clone, Copy, Default)]
pub enum Part {
    /// They end between two tokens.
    #[default]
    Nothing,
    Comment,
    /// A run, which makes this token: an Atom, a Char or a tag.
    Run(Token),
    Text,
    /// A Text, up to and with a backslash that escapes the next byte.
    Escape,
    /// A `#` alone. The next byte decides what it begins.
    Hash,
    /// A backslash alone, which begins a Char.
    Backslash,
}

impl Part {
    /// The token that it is where the input ends here.
    pub fn last(self) -> Token
        ensures { result ≡ last self }
    {
        match self {
            Part::Comment => Token::Gap,
            Part::Run(token) => token,
            _ => Token::Unfinished,
        }
    }
}

/// What the bytes hold from an index on: a token that ends, or the part of one that they end within.
#[derive(Clone, Copy)]
pub enum Ahead {
    Whole(Found),
    Within(Part),
}

/// How a run goes on.
#[inline(always)]
#[tactic(auto, using(crate::proofs::Resuming::run_ended, crate::proofs::Resuming::run_open))]
fn run_on(bytes: &[u8], at: usize, token: Token) -> Ahead
    requires { at ≤ length bytes.now }
    ensures { LooksAhead (Run token) at (drop at bytes.now) result }
{
    let end = run_end(bytes, at);
    if end == bytes.len() {
        Ahead::Within(Part::Run(token))
    } else {
        Ahead::Whole(Found { token, end })
    }
}

/// How a comment goes on.
#[inline(always)]
#[tactic(auto, using(crate::proofs::Resuming::comment_ended, crate::proofs::Resuming::comment_open))]
fn comment_on(bytes: &[u8], at: usize) -> Ahead
    requires { at ≤ length bytes.now }
    ensures { LooksAhead Comment at (drop at bytes.now) result }
{
    let end = comment_end(bytes, at);
    if end == bytes.len() {
        Ahead::Within(Part::Comment)
    } else {
        Ahead::Whole(Found {
            token: Token::Gap,
            end,
        })
    }
}

/// How a Text goes on.
#[inline(always)]
fn text_on(bytes: &[u8], from: usize) -> Ahead
    requires { from ≤ length bytes.now }
    ensures { LooksAhead Text from (drop from bytes.now) result }
{
    let mut at = from;
    while let Some(ahead) = memchr2(b'"', b'\\', &bytes[at..]) {
        let place = at + ahead;
        if bytes[place] == b'"' {
            return Ahead::Whole(Found {
                token: Token::Leaf(ElementKind::Text),
                end: place + 1,
            });
        }
        if place + 1 == bytes.len() {
            return Ahead::Within(Part::Escape);
        }
        at = place + 2;
    }
    Ahead::Within(Part::Text)
}

/// How a Text goes on after a backslash.
#[inline(always)]
#[tactic(auto, using(crate::proofs::Resuming::nothing_ahead, crate::proofs::Resuming::escape_next))]
fn escape_on(bytes: &[u8], at: usize) -> Ahead
    requires { at ≤ length bytes.now }
    ensures { LooksAhead Escape at (drop at bytes.now) result }
{
    if at == bytes.len() {
        return Ahead::Within(Part::Escape);
    }
    text_on(bytes, at + 1)
}

/// How a token goes on that begins with `#`.
#[inline(always)]
#[tactic(auto, using(crate::proofs::Resuming::nothing_ahead, crate::proofs::Resuming::hashed_next, crate::proofs::Resuming::text_next, crate::proofs::Resuming::set_next, crate::proofs::Resuming::discard_next, crate::proofs::Resuming::tag_next))]
fn hash_on(bytes: &[u8], at: usize) -> Ahead
    requires { at ≤ length bytes.now }
    ensures { LooksAhead Hash at (drop at bytes.now) result }
{
    if at == bytes.len() {
        return Ahead::Within(Part::Hash);
    }
    match classify(bytes[at]) {
        ByteClass::Hash => run_on(bytes, at + 1, Token::Leaf(ElementKind::Atom)),
        ByteClass::Quote => text_on(bytes, at + 1),
        ByteClass::Opens(Bracket::Curly) => Ahead::Whole(Found {
            token: Token::Opens(Opener::Set),
            end: at + 1,
        }),
        _ => {
            if bytes[at] == b'_' {
                Ahead::Whole(Found {
                    token: Token::Opens(Opener::Discard),
                    end: at + 1,
                })
            } else {
                run_on(bytes, at, Token::Opens(Opener::Tag))
            }
        }
    }
}

/// How a Char goes on after its backslash.
#[inline(always)]
#[tactic(auto, using(crate::proofs::Resuming::nothing_ahead, crate::proofs::Resuming::character_next))]
fn character_on(bytes: &[u8], at: usize) -> Ahead
    requires { at ≤ length bytes.now }
    ensures { LooksAhead Backslash at (drop at bytes.now) result }
{
    if at == bytes.len() {
        return Ahead::Within(Part::Backslash);
    }
    run_on(bytes, at + 1, Token::Leaf(ElementKind::Char))
}

fn opener_of(bracket: Bracket) -> Opener
    ensures { result ≡ opener_of bracket }
{
    match bracket {
        Bracket::Round => Opener::List,
        Bracket::Square => Opener::Vector,
        Bracket::Curly => Opener::Map,
    }
}

/// The token that begins at an index. Each of its bytes is looked at a bounded number of times.
#[inline(always)]
#[tactic(auto, using(crate::proofs::Resuming::plain_begins, crate::proofs::Resuming::white_begins))]
pub fn begin(bytes: &[u8], at: usize) -> Ahead
    requires { at < length bytes.now }
    ensures { LooksAhead Nothing at (drop at bytes.now) result }
{
    let byte = bytes[at];
    if is_plain(byte) {
        return run_on(bytes, at + 1, Token::Leaf(ElementKind::Atom));
    }
    if is_white(byte) {
        return Ahead::Whole(Found {
            token: Token::Gap,
            end: at + 1,
        });
    }
    begin_sign(bytes, at)
}

/// The token that begins at an index, by the class of its first byte.
#[inline(always)]
#[tactic(auto, using(crate::proofs::Resuming::gap_begins, crate::proofs::Resuming::atom_begins, crate::proofs::Resuming::hash_begins, crate::proofs::Resuming::backslash_begins, crate::proofs::Resuming::comment_begins, crate::proofs::Resuming::text_begins, crate::proofs::Resuming::opens_here, crate::proofs::Resuming::closes_here))]
fn begin_sign(bytes: &[u8], at: usize) -> Ahead
    requires { at < length bytes.now }
    ensures { LooksAhead Nothing at (drop at bytes.now) result }
{
    match classify(bytes[at]) {
        ByteClass::White => Ahead::Whole(Found {
            token: Token::Gap,
            end: at + 1,
        }),
        ByteClass::Plain => run_on(bytes, at + 1, Token::Leaf(ElementKind::Atom)),
        ByteClass::Hash => hash_on(bytes, at + 1),
        ByteClass::Backslash => character_on(bytes, at + 1),
        ByteClass::Semicolon => comment_on(bytes, at + 1),
        ByteClass::Quote => text_on(bytes, at + 1),
        ByteClass::Opens(bracket) => Ahead::Whole(Found {
            token: Token::Opens(opener_of(bracket)),
            end: at + 1,
        }),
        ByteClass::Closes(bracket) => Ahead::Whole(Found {
            token: Token::Closes(bracket),
            end: at + 1,
        }),
    }
}

/// How the token goes on of which the bytes before this index hold a part.
#[inline(always)]
#[tactic(auto, using(crate::proofs::Resuming::nothing_ahead))]
pub fn read_on(bytes: &[u8], at: usize, part: Part) -> Ahead
    requires { at ≤ length bytes.now }
    ensures { LooksAhead part at (drop at bytes.now) result }
{
    match part {
        Part::Nothing => {
            if at == bytes.len() {
                return Ahead::Within(Part::Nothing);
            }
            begin(bytes, at)
        }
        Part::Comment => comment_on(bytes, at),
        Part::Run(token) => run_on(bytes, at, token),
        Part::Text => text_on(bytes, at),
        Part::Escape => escape_on(bytes, at),
        Part::Hash => hash_on(bytes, at),
        Part::Backslash => character_on(bytes, at),
    }
}
