//! The elements that are left between the brackets of an element, one after another. This takes no memory.

ghost use Rattle.std.specs.Prelude.{◌≡◌, ◌+◌, ◌≤◌, ◌<◌, ◌^◌, List, [], ◌∷◌, length, drop, MatchOption, IfSome, Some, None};

use crate::element::{Core, Element, ElementKind};
use crate::lookahead::{Lookahead, after_gap, after_tags, end_after, kind_of};
use crate::token::Token;

#[derive(Clone, Copy)]
pub struct Parts<'t> {
    left: &'t [u8],
    at: usize,
    ghost fits: { at + length left.now < 2 ^ 64 },
}

impl<'t> Parts<'t> {
    ghost use Rattle.edn_reader.specs.Grammar.{ElementModel};
    ghost use Rattle.edn_reader.specs.declared.token.Opener.{Opener};
    ghost use Rattle.edn_reader.specs.Lent.{PartsLeft, HoldsParts, NextPart, part_bytes};
    ghost use Rattle.edn_reader.specs.Skipping.{SkipsGap, HasToken};

    pub fn new(left: &'t [u8], at: usize) -> Parts<'t>
        requires { at + length left.now < 2 ^ 64 }
        ensures left { result.left.now ≡ left.entry.now }
        ensures at { result.at ≡ at }
    {
        Parts { left, at }
    }

    /// The next element.
    #[inline(always)]
    pub fn next(&mut self) -> Option<Element<'t>>
        requires { ∥ HoldsParts self.old ∥₁ }
        ensures part { (opener : Opener) (parts : List ElementModel) → PartsLeft opener self.old parts → NextPart opener result self.new parts }
        ensures shrinks { MatchOption result (self.new ≡ self.old) (λ element. part_bytes self.new < part_bytes self.old) }
        ensures forward { self.old.at ≤ self.new.at }
    {
        let Parts { left, at } = *self;
        let first = after_gap(left, 0)?;
        let kind = match first.found.token {
            Token::Leaf(kind) => kind,
            Token::Closes(_) => return None,
            _ => return self.next_at(first),
        };
        let start = at + first.at;
        let end = first.found.end;
        *self = Parts::new(&left[end..], at + end);
        Some(Element::new(&left[first.at..end], start, kind, Core { kind, start }))
    }

    /// The next element, which begins with the token `first`. It works on a copy, so that the fields of `self` can
    /// stay in registers where no bracket or tag is met.
    #[inline(always)]
    fn next_at(&mut self, first: Lookahead) -> Option<Element<'t>>
        requires holds { ∥ HoldsParts self.old ∥₁ }
        requires gap { SkipsGap self.old.left.now 0 first.at }
        requires present { HasToken self.old.left.now first }
        ensures part { (opener : Opener) (parts : List ElementModel) → PartsLeft opener self.old parts → NextPart opener result self.new parts }
        ensures shrinks { MatchOption result (self.new ≡ self.old) (λ element. part_bytes self.new < part_bytes self.old) }
        ensures forward { self.old.at ≤ self.new.at }
    {
        let mut ahead = *self;
        let element = ahead.next_following(first);
        *self = ahead;
        element
    }

    #[inline(never)]
    fn next_following(&mut self, first: Lookahead) -> Option<Element<'t>>
        requires holds { ∥ HoldsParts self.old ∥₁ }
        requires gap { SkipsGap self.old.left.now 0 first.at }
        requires present { HasToken self.old.left.now first }
        ensures part { (opener : Opener) (parts : List ElementModel) → PartsLeft opener self.old parts → NextPart opener result self.new parts }
        ensures shrinks { MatchOption result (self.new ≡ self.old) (λ element. part_bytes self.new < part_bytes self.old) }
        ensures forward { self.old.at ≤ self.new.at }
    {
        let Parts { left, at } = *self;
        let inner = after_tags(left, first)?;
        let kind = kind_of(first.found.token)?;
        let core_kind = kind_of(inner.found.token)?;
        let end = end_after(left, inner);
        *self = Parts::new(&left[end..], at + end);
        let core = Core {
            kind: core_kind,
            start: at + inner.at,
        };
        Some(Element::new(&left[first.at..end], at + first.at, kind, core))
    }
}
