//! The reader: one pass over a whole input, which lends its outermost elements.

ghost use Rattle.std.specs.Prelude.{◌≡◌, ◌++◌, ◌≤◌, ◌<◌, ◌∷◌, ◌⊎◌, List, [], length, take, drop, None, Some, Ok, Err, IsNone, IfErr, OnErr, OnOk, IfOk, IfSome, OnSome};
ghost use Rattle.edn_reader.specs.Grammar.{ElementModel};
ghost use Rattle.edn_reader.specs.Text.{IsFront};
ghost use Rattle.edn_reader.specs.Fault.{MemoryOnlyThere};
ghost use Rattle.edn_reader.specs.Taking.{Reads};

use crate::element::Element;
use crate::fault::EdnFault;
use crate::nesting::Nesting;
use crate::step::Span;
use crate::tokens::{Reached, read_end, read_tokens};
use std::alloc::Global;
use std::marker::Model;

/// Lends the outermost elements of an input, one after another. Once it has met a fault, it answers that fault for
/// good.
#[derive(Drop)]
pub struct Reader<'t> {
    input: &'t [u8],
    at: usize,
    nesting: Nesting,
    fault: Option<EdnFault>,
}

impl<'t> Model for Reader<'t> {
    ghost use Rattle.edn_reader.specs.Reading.{ReaderModel};

    ghost Value = { ReaderModel };

    ghost use Rattle.edn_reader.specs.Standing.{IsReaderState};

    ghost view = { λ a. record { input = a.input.now; at = a.at; fault = a.fault } };

    ghost invariant = { λ a. IsReaderState a.input.now a.at a.nesting a.fault };
}

/// Reads up to the end of the next outermost element.
fn read_element(input: &[u8], from: usize, nesting: &mut Nesting) -> Result<Option<Span>, EdnFault>
    requires at { from ≤ length input.now }
    requires none_open { nesting.old ≡ [] }
    ensures reads { Reads input.now from result nesting.new }
    ensures memory { IfErr result (λ fault. (pieces : List ElementModel) → IsFront input.now pieces from → MemoryOnlyThere input.now pieces fault) }
{
    match read_tokens(input, 0, from, nesting) {
        Ok(Reached::Ended(span)) => Ok(Some(span)),
        Ok(Reached::Within(begun)) => read_end(input.len(), begun, nesting),
        Err(fault) => Err(fault),
    }
}

impl<'t> Reader<'t> {
    ghost use Rattle.edn_reader.specs.Grammar.{ElementModel};
    ghost use Rattle.edn_reader.specs.Lent.{piece_of};
    ghost use Rattle.edn_reader.specs.Text.{IsFront, IsText};
    ghost use Rattle.edn_reader.specs.Fault.{FaultOf, IsMemory, MemoryOnlyThere, AreElementsBefore};

    /// A reader at the beginning of the input. It takes no memory; the allocator is kept for what will be open.
    pub fn new(alloc: Global, input: &'t [u8]) -> Reader<'t>
        ensures state { result ≡ record { input = input.entry.now; at = 0; fault = None } }
        ensures begins { IsFront input.entry.now [] 0 }
    {
        Reader {
            input,
            at: 0,
            nesting: Nesting::new(alloc),
            fault: None,
        }
    }

    /// The next outermost element; none at the end of the input, and again from then on.
    pub fn next(&mut self) -> Result<Option<Element<'t>>, EdnFault>
        ensures input { self.new.input ≡ self.old.input }
        ensures element { IfOk result (λ found. IfSome found (λ element.
            (pieces : List ElementModel) → IsFront self.old.input pieces self.old.at → IsFront self.old.input (pieces ++ piece_of element ∷ []) self.new.at)) }
        ensures text { IfOk result (λ found. IfSome found (λ element.
            (piece_of element).text ≡ take (length (piece_of element).text) (drop (piece_of element).start self.old.input))) }
        ensures forward { IfOk result (λ found. IfSome found (λ element.
            (self.old.at < self.new.at) × (self.new.at ≤ length self.old.input))) }
        ensures end { IfOk result (λ found. IsNone found → (self.new ≡ self.old)
            × ((pieces : List ElementModel) → IsFront self.old.input pieces self.old.at → IsText self.old.input pieces)) }
        ensures fault { IfErr result (λ fault. IsMemory fault ⊎ (FaultOf self.old.input fault
            × ((pieces : List ElementModel) → IsFront self.old.input pieces self.old.at → AreElementsBefore self.old.input pieces))) }
        ensures memory { IfErr result (λ fault. (pieces : List ElementModel) → IsFront self.old.input pieces self.old.at → MemoryOnlyThere self.old.input pieces fault) }
        ensures kept { OnErr result (self.new.at ≡ self.old.at) }
        ensures remembered { IfErr result (λ fault. self.new.fault ≡ Some fault) }
        ensures none_yet { OnOk result (self.new.fault ≡ None) }
        ensures again { IfSome self.old.fault (λ fault. (result ≡ Err fault) × (self.new ≡ self.old)) }
    {
        if let Some(fault) = self.fault {
            return Err(fault);
        }
        match read_element(self.input, self.at, &mut self.nesting) {
            Ok(Some(span)) => {
                let text = &self.input[span.start..span.end];
                self.at = span.end;
                Ok(Some(Element::new(text, span.start, span.kind, span.core)))
            }
            Ok(None) => Ok(None),
            Err(fault) => {
                self.fault = Some(fault);
                Err(fault)
            }
        }
    }
}
