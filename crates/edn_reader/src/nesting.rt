//! The stack of what is open: brackets, tags and discards, the innermost first.

ghost use Rattle.std.specs.Prelude.{◌≡◌, ◌==◌, ◌≤◌, [], ◌∷◌, length, OnOk, OnErr, MatchOption};
ghost use Rattle.edn_reader.specs.Taking.{EndsOne, odd_inside, with_odd};

use crate::token::Opener;
use smallvec::SmallVec;
use std::alloc::{AllocError, Global};
use std::marker::Model;

/// One thing that is open: its opener, where it begins, and whether it has an odd number of elements so far.
#[derive(Clone, Copy, Default)]
pub struct Open {
    pub place: usize,
    pub opener: Opener,
    pub odd: bool,
}

/// The innermost is kept apart, since each element looks at it. Up to 16 are kept in place, and more on the heap.
#[derive(Drop)]
pub struct Nesting {
    last: Option<Open>,
    around: SmallVec<Open, 15>,
}

impl Model for Nesting {
    ghost use Rattle.std.specs.Prelude.{◌≡◌, ◌≤◌, ◌++◌, List, [], None, reverse};
    ghost use Rattle.std.specs.Option.{option_to_list};
    ghost use Rattle.edn_reader.specs.declared.nesting.Open.{Open};

    ghost Value = { List Open };

    ghost view = { λ a. option_to_list a.last ++ reverse a.around.items };

    ghost invariant = { λ a. (15 ≤ a.around.capacity) × (a.last ≡ None → a.around.items ≡ []) };
}

impl Nesting {
    ghost use Rattle.edn_reader.specs.Fault.{innermost};
    ghost use Rattle.edn_reader.specs.Within.{outer};

    pub fn new(alloc: Global) -> Nesting
        ensures { result ≡ [] }
    {
        Nesting {
            last: None,
            around: SmallVec::new(alloc),
        }
    }

    /// Whether exactly `count` things are open.
    pub fn has(&self, count: usize) -> bool
        ensures { result ≡ (length self.now == count) }
    {
        match self.last {
            Some(_) => count > 0 && self.around.len() == count - 1,
            None => count == 0,
        }
    }

    pub fn push(&mut self, item: Open) -> Result<(), AllocError>
        ensures ok { OnOk result (self.new ≡ item ∷ self.old) }
        ensures err { OnErr result (self.new ≡ self.old) }
        ensures grew { OnErr result (16 ≤ length self.old) }
    {
        if let Some(last) = self.last {
            match self.around.push(last) {
                Ok(()) => {}
                Err(_) => return Err(AllocError),
            }
        }
        self.last = Some(item);
        Ok(())
    }

    pub fn pop(&mut self) -> Option<Open>
        ensures { MatchOption result ((self.old ≡ []) × (self.new ≡ [])) (λ item. self.old ≡ item ∷ self.new) }
    {
        let last = self.last?;
        self.last = self.around.pop();
        Some(last)
    }

    /// Ends an element in what is innermost: a tag or a discard is closed, a bracket has one more element. The
    /// answer is what was innermost.
    #[inline(always)]
    pub fn end_one(&mut self) -> Option<Open>
        ensures { EndsOne result self.old self.new }
    {
        let last = self.last?;
        if last.opener.waits() {
            self.last = self.around.pop();
        } else if let Some(open) = &mut self.last {
            open.odd = !last.odd;
        }
        Some(last)
    }

    /// Whether what is innermost holds an odd number of elements so far, where it is a bracket.
    #[inline(always)]
    pub fn odd_inside(&self) -> Option<bool>
        ensures { result ≡ odd_inside self.now }
    {
        let last = self.last?;
        if last.opener.waits() {
            return None;
        }
        Some(last.odd)
    }

    /// Sets whether what is innermost holds an odd number of elements.
    #[inline(always)]
    pub fn set_odd(&mut self, odd: bool)
        ensures { self.new ≡ with_odd odd self.old }
    {
        if let Some(open) = &mut self.last {
            open.odd = odd;
        }
    }

    /// The place of the outermost thing that is open, or `place` where nothing is.
    pub fn outer(&self, place: usize) -> usize
        ensures { result ≡ outer self.now place }
    {
        match self.around.as_slice().first() {
            Some(open) => open.place,
            None => match self.last {
                Some(open) => open.place,
                None => place,
            },
        }
    }

    /// The innermost bracket; tags and discards are passed over.
    pub fn innermost(&self) -> Option<Open>
        ensures { result ≡ innermost self.now }
    {
        let last = self.last?;
        if !last.opener.waits() {
            return Some(last);
        }
        let around = self.around.as_slice();
        let mut left = around.len();
        while left > 0 {
            left -= 1;
            if !around[left].opener.waits() {
                return Some(around[left]);
            }
        }
        None
    }
}
