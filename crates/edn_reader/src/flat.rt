//! A map of words, numbers and vectors of these that the bytes begin with, read in one pass.

ghost use Rattle.std.specs.Prelude.{◌≡◌, ◌+◌, ◌≤◌, ◌<◌, ◌^◌, ℕ, List, [], length, IfSome};
ghost use Rattle.edn_reader.specs.declared.element.ElementKind.TheVariants.{Atom};
ghost use Rattle.edn_reader.specs.Flat.{IsWordAt, IsValueAt, IsCoreAt, IsVectorFrom, kind_with, piece_at};
ghost use Rattle.edn_reader.specs.Lent.{piece_of};

use crate::bytes::{is_plain, run_end, white_end};
use crate::element::{Core, Element, ElementKind};

/// A map whose keys are words, and whose values are words and vectors of words, as far as it was read; a word is
/// an Atom. The map has at most one tag, and only white bytes between its parts.
#[derive(Clone, Copy)]
pub struct FlatMap<'t> {
    bytes: &'t [u8],
    /// The place of the first byte of `bytes` in the input. The other places are indices of `bytes`.
    base: usize,
    start: usize,
    core: usize,
    at: usize,
}

/// What comes next in a map.
#[derive(Clone, Copy)]
pub enum FlatPart<'t> {
    /// A key and its value.
    Pair(Element<'t>, Element<'t>),
    /// The end of the map: the whole map as an element.
    End(Element<'t>),
    /// Something else, or the end of the bytes; nothing is said of the map then.
    Other,
}

impl<'t> FlatMap<'t> {
    ghost use Rattle.edn_reader.specs.Grammar.{ElementModel};
    ghost use Rattle.edn_reader.specs.Lent.{piece_of};
    ghost use Rattle.edn_reader.specs.Pairs.{HasPairs};
    ghost use Rattle.edn_reader.specs.Flat.{HasRead, ReadsPart, BeginsWithElement, IsOf, IsBraceAt, Advances};

    /// The map that the bytes begin with, after white bytes. Their first byte is at place `base` of the input.
    /// None where they begin with anything else.
    pub fn open(bytes: &'t [u8], base: usize) -> Option<FlatMap<'t>>
        requires { base + length bytes.now < 2 ^ 64 }
        ensures { IfSome result (λ map. HasRead map [] × IsOf bytes.entry.now base map) }
    {
        let start = white_end(bytes, 0);
        let core = core_at(bytes, start)?;
        if core == bytes.len() || bytes[core] != b'{' {
            return None;
        }
        Some(FlatMap {
            bytes,
            base,
            start,
            core,
            at: core + 1,
        })
    }

    /// The next key and its value, or the end of the map.
    #[inline(always)]
    pub fn next_part(&mut self) -> FlatPart<'t>
        requires { (pairs : List (ElementModel × ElementModel)) × HasRead self.old pairs }
        ensures part { (pairs : List (ElementModel × ElementModel)) → HasRead self.old pairs → ReadsPart result self.old self.new pairs }
        ensures of { IsOf self.old.bytes.now self.old.base self.new }
        ensures advances { Advances result self.old self.new }
    {
        let FlatMap {
            bytes,
            base,
            start,
            core,
            at,
        } = *self;
        let key_at = white_end(bytes, at);
        if key_at < bytes.len() && bytes[key_at] == b'}' {
            return FlatPart::End(self.whole(key_at));
        }
        let Some(key_end) = word_end(bytes, key_at) else {
            return FlatPart::Other;
        };
        let value_at = white_end(bytes, key_end);
        let Some((kind, value_end)) = value_end(bytes, value_at) else {
            return FlatPart::Other;
        };
        *self = FlatMap {
            bytes,
            base,
            start,
            core,
            at: value_end,
        };
        FlatPart::Pair(
            element_between(bytes, base, ElementKind::Atom, key_at, key_end),
            element_between(bytes, base, kind, value_at, value_end),
        )
    }

    /// The map that ends with this brace.
    fn whole(&self, brace: usize) -> Element<'t>
        requires read { (pairs : List (ElementModel × ElementModel)) × HasRead self.now pairs }
        requires brace { IsBraceAt self.now brace }
        ensures { (pairs : List (ElementModel × ElementModel)) → HasRead self.now pairs → BeginsWithElement self.now.bytes.now self.now.base (piece_of result) × HasPairs (piece_of result) pairs }
    {
        let FlatMap {
            bytes,
            base,
            start,
            core,
            ..
        } = *self;
        Element::new(
            &bytes[start..brace + 1],
            base + start,
            kind_with(start, core),
            Core {
                kind: ElementKind::Map,
                start: base + core,
            },
        )
    }
}

/// The element without a tag between two indices.
#[inline(always)]
fn element_between<'t>(
    bytes: &'t [u8],
    base: usize,
    kind: ElementKind,
    from: usize,
    to: usize,
) -> Element<'t>
    requires fits { base + length bytes.now < 2 ^ 64 }
    requires value { IsValueAt bytes.now from kind to }
    ensures { piece_of result ≡ piece_at bytes.entry.now base kind from to }
{
    let start = base + from;
    Element::new(&bytes[from..to], start, kind, Core { kind, start })
}

/// The kind of a map whose core begins at an index: `Tagged` where that is not its start.
fn kind_with(start: usize, core: usize) -> ElementKind
    ensures { result ≡ kind_with start core }
{
    if core == start {
        ElementKind::Map
    } else {
        ElementKind::Tagged
    }
}

/// Where the core begins of an element that has at most one tag, with a plain byte after its `#`.
fn core_at(bytes: &[u8], start: usize) -> Option<usize>
    requires { start ≤ length bytes.now }
    ensures { IfSome result (λ core. IsCoreAt bytes.now start core × (core ≤ length bytes.now)) }
{
    if start == bytes.len() || bytes[start] != b'#' {
        return Some(start);
    }
    let name = start + 1;
    if name == bytes.len() || bytes[name] == b'_' || !is_plain(bytes[name]) {
        return None;
    }
    Some(white_end(bytes, run_end(bytes, name)))
}

/// Where the word ends that begins at an index, if a byte follows it.
#[inline(always)]
fn word_end(bytes: &[u8], at: usize) -> Option<usize>
    requires { at ≤ length bytes.now }
    ensures { IfSome result (λ end. IsWordAt bytes.now at end) }
{
    if at == bytes.len() || !is_plain(bytes[at]) {
        return None;
    }
    let end = run_end(bytes, at + 1);
    if end == bytes.len() {
        return None;
    }
    Some(end)
}

/// The kind of the value that begins at an index, a word or a vector of words, and where it ends.
#[inline(always)]
fn value_end(bytes: &[u8], at: usize) -> Option<(ElementKind, usize)>
    requires { at ≤ length bytes.now }
    ensures { IfSome result (λ found. IsValueAt bytes.now at found.0 found.1) }
{
    if at < bytes.len() && bytes[at] == b'[' {
        let end = vector_end(bytes, at + 1)?;
        return Some((ElementKind::Vector, end));
    }
    let end = word_end(bytes, at)?;
    Some((ElementKind::Atom, end))
}

/// Where the vector of words ends whose elements begin at an index.
#[inline(never)]
fn vector_end(bytes: &[u8], from: usize) -> Option<usize>
    requires { from ≤ length bytes.now }
    ensures { IfSome result (λ end. IsVectorFrom bytes.now from end) }
{
    let mut at = white_end(bytes, from);
    while at < bytes.len() {
        if bytes[at] == b']' {
            return Some(at + 1);
        }
        let end = word_end(bytes, at)?;
        at = white_end(bytes, end);
    }
    None
}
