//! Where whole gaps, tags and elements end, found by their tokens without memory.

ghost use Rattle.std.specs.Prelude.{◌≡◌, ◌+◌, ◌≤◌, ◌<◌, ◌^◌, length, MatchOption, IfSome};
ghost use Rattle.edn_reader.specs.Skipping.{counts_after, ended_one, kind_token, is_tag_token, HasToken, SkipsGap, SkipsTags, SkipsElement};

use crate::bytes::white_end;
use crate::element::ElementKind;
use crate::token::{Found, Opener, Token, read_token};

/// The token at an index, kept so that it is read once.
#[derive(Clone, Copy)]
pub struct Lookahead {
    pub at: usize,
    pub found: Found,
}

/// How many brackets are still to end, and how many elements outside of them.
#[derive(Clone, Copy)]
struct OpenCounts {
    brackets: usize,
    elements: usize,
}

fn element_ended(counts: OpenCounts) -> OpenCounts
    ensures { result ≡ ended_one counts }
{
    if counts.brackets > 0 || counts.elements == 0 {
        return counts;
    }
    OpenCounts {
        brackets: 0,
        elements: counts.elements - 1,
    }
}

fn counts_after(token: Token, counts: OpenCounts) -> OpenCounts
    requires { counts.brackets + counts.elements + 1 < 2 ^ 64 }
    ensures { result ≡ counts_after token counts }
{
    let OpenCounts { brackets, elements } = counts;
    match token {
        Token::Gap | Token::Unfinished | Token::Opens(Opener::Tag) => counts,
        Token::Leaf(_) => element_ended(counts),
        Token::Opens(Opener::Discard) => {
            if brackets > 0 {
                return counts;
            }
            OpenCounts {
                brackets,
                elements: elements + 1,
            }
        }
        Token::Opens(_) => OpenCounts {
            brackets: brackets + 1,
            elements,
        },
        Token::Closes(_) => {
            if brackets == 0 {
                return OpenCounts {
                    brackets: 0,
                    elements: 0,
                };
            }
            element_ended(OpenCounts {
                brackets: brackets - 1,
                elements,
            })
        }
    }
}

#[inline(always)]
fn front_at(bytes: &[u8], at: usize) -> Lookahead
    requires { at < length bytes.now }
    ensures present { HasToken bytes.now result }
    ensures at { result.at ≡ at }
{
    Lookahead {
        at,
        found: read_token(bytes, at),
    }
}

/// Where the element ends that begins with this token, or that follows the gap which begins with it.
pub fn end_after(bytes: &[u8], front: Lookahead) -> usize
    requires { HasToken bytes.now front }
    ensures end { SkipsElement bytes.now front.at result }
    ensures within { result ≤ length bytes.now }
    ensures forward { front.at < result }
{
    let mut counts = counts_after(
        front.found.token,
        OpenCounts {
            brackets: 0,
            elements: 1,
        },
    );
    let mut at = front.found.end;
    while at < bytes.len() && (counts.brackets > 0 || counts.elements > 0) {
        let found = read_token(bytes, at);
        counts = counts_after(found.token, counts);
        at = found.end;
    }
    at
}

/// Where the next element ends, after the gap at an index, if there is one.
#[inline(never)]
fn element_end(bytes: &[u8], from: usize) -> usize
    requires { from ≤ length bytes.now }
    ensures end { SkipsElement bytes.now from result }
    ensures within { result ≤ length bytes.now }
    ensures after { from ≤ result }
{
    if from == bytes.len() {
        return from;
    }
    end_after(bytes, front_at(bytes, from))
}

/// The token after the gap at an index; none where the bytes end with the gap.
#[inline(always)]
pub fn after_gap(bytes: &[u8], from: usize) -> Option<Lookahead>
    requires { from ≤ length bytes.now }
    ensures end { MatchOption result (SkipsGap bytes.now from (length bytes.now)) (λ front. SkipsGap bytes.now from front.at) }
    ensures present { IfSome result (λ front. HasToken bytes.now front × (from ≤ front.at)) }
{
    let mut at = white_end(bytes, from);
    while at < bytes.len() {
        let front = front_at(bytes, at);
        match front.found.token {
            Token::Gap => at = front.found.end,
            Token::Opens(Opener::Discard) => at = element_end(bytes, front.found.end),
            _ => return Some(front),
        }
    }
    None
}

/// The first token of the element that begins with `first`, once its tags and the gaps after them are passed.
pub fn after_tags(bytes: &[u8], first: Lookahead) -> Option<Lookahead>
    requires { HasToken bytes.now first }
    ensures end { MatchOption result (SkipsTags bytes.now first.at (length bytes.now)) (λ front. SkipsTags bytes.now first.at front.at) }
    ensures present { IfSome result (λ front. HasToken bytes.now front × (first.at ≤ front.at)) }
{
    let mut front = first;
    while is_tag(front.found.token) {
        match after_gap(bytes, front.found.end) {
            Some(next) => front = next,
            None => return None,
        }
    }
    Some(front)
}

fn is_tag(token: Token) -> bool
    ensures { result ≡ is_tag_token token }
{
    match token {
        Token::Opens(Opener::Tag) => true,
        _ => false,
    }
}

/// The kind of the element that begins with a token; none where no element does.
pub fn kind_of(token: Token) -> Option<ElementKind>
    ensures { result ≡ kind_token token }
{
    match token {
        Token::Leaf(kind) => Some(kind),
        Token::Opens(opener) => Some(opener.kind()),
        _ => None,
    }
}
