//! What traces name.

ghost use Rattle.std.specs.Prelude.{◌≡◌, Option, Some, false, length, IfOk, OnOk};
ghost use Rattle.std.specs.Option.{option_map};
ghost use Rattle.std.specs.List.{slice_get};
ghost use Rattle.edn_reader.specs.Lent.{piece_of};
ghost use Rattle.jepsen_form.specs.Mention.{IsMention, MentionModel, mention_seen};
ghost use Rattle.keys.specs.Kept.{only_name, says_nothing_new};
ghost use Rattle.keys.specs.Named.{NamesAfter, no_names, registers_named, with_mention, with_name};

use edn_reader::{EdnFault, Element, Reader};
use indexmap::IndexMap;
use jepsen_form::{Mention, mention_of};
use std::alloc::{AllocError, Global};
use std::marker::Model;

/// The registers that traces name, in the order in which they come, each with the process that writes it first.
#[derive(Drop)]
pub struct TraceNames {
    alloc: Global,
    by_name: IndexMap<Vec<u8>, Option<i64>>,
    /// The process that writes first, with a name or without.
    first_writer: Option<i64>,
}

impl Model for TraceNames {
    ghost use Rattle.keys.specs.Named.{NamesModel};
    ghost use Rattle.keys.specs.Kept.{names_with};

    ghost Value = { NamesModel };

    ghost view = { λ n. names_with n.by_name.entries n.first_writer };
}

impl TraceNames {
    pub fn new(alloc: Global) -> TraceNames
        ensures { result ≡ no_names }
    {
        TraceNames {
            alloc,
            by_name: IndexMap::new(alloc),
            first_writer: None,
        }
    }

    /// Adds what the elements of a trace say, up to its end or its first fault, and answers that fault, if it has one.
    pub fn add_trace(&mut self, text: &[u8]) -> Result<Option<EdnFault>, AllocError>
        ensures { IfOk result (λ fault. NamesAfter self.old text.now fault self.new) }
    {
        let mut reader = Reader::new(self.alloc, text);
        loop {
            match reader.next() {
                Ok(Some(element)) => self.add_element(&element)?,
                Ok(None) => return Ok(None),
                Err(EdnFault::Memory(_)) => return Err(AllocError),
                Err(fault) => return Ok(Some(fault)),
            }
        }
    }

    /// Adds what an element says of a register.
    fn add_element(&mut self, element: &Element) -> Result<(), AllocError>
        ensures { OnOk result ((mention : Option MentionModel) × IsMention (piece_of element.now) mention × (self.new ≡ with_mention self.old mention)) }
    {
        match mention_of(element) {
            Some(mention) => self.add_mention(mention),
            None => Ok(()),
        }
    }

    /// Adds a mention; one that says nothing new takes no memory.
    fn add_mention(&mut self, mention: Mention) -> Result<(), AllocError>
        ensures { OnOk result (self.new ≡ with_mention self.old (Some (mention_seen mention.entry))) }
    {
        self.first_writer = self.first_writer.or(mention.writer);
        match mention.name {
            Some(name) => self.add_name(name, mention.writer),
            None => Ok(()),
        }
    }

    /// Adds a mention by this name to the registers.
    fn add_name(&mut self, name: &[u8], writer: Option<i64>) -> Result<(), AllocError>
        ensures { OnOk result (self.new ≡ record { registers = with_name self.old.registers name.now writer; first_writer = self.old.first_writer }) }
    {
        if self.says_nothing_new(name, writer) {
            return Ok(());
        }
        let mut key = Vec::new(self.alloc);
        key.extend_from_slice(name)?;
        self.by_name.insert(key, writer)?;
        Ok(())
    }

    /// Whether a mention by this name says nothing new: the name is there, and has a writer or is given none.
    fn says_nothing_new(&self, name: &[u8], writer: Option<i64>) -> bool
        ensures { result ≡ says_nothing_new self.now.registers name.now writer }
    {
        match self.by_name.get(name) {
            Some(first_writer) => first_writer.is_some() || writer.is_none(),
            None => false,
        }
    }

    /// How many registers the tower of what is named has, at least one.
    pub fn registers(&self) -> usize
        ensures { result ≡ length (registers_named self.now) }
    {
        self.by_name.len().max(1)
    }

    /// A register of that tower by its number, from 0: its name, and the process that writes it first.
    pub fn register(&self, number: usize) -> Option<(&[u8], Option<i64>)>
        ensures { option_map (λ named. record { name = named.0.now; writer = named.1 }) result ≡ slice_get (registers_named self.now) number }
    {
        match self.by_name.len() {
            0 => self.only(number, b"r"),
            1 => match self.named(0) {
                Some((name, _)) => self.only(number, name),
                None => None,
            },
            _ => self.named(number),
        }
    }

    /// The one register, by number 0, where it has this name.
    fn only<'a>(&self, number: usize, name: &'a [u8]) -> Option<(&'a [u8], Option<i64>)>
        ensures { option_map (λ named. record { name = named.0.now; writer = named.1 }) result ≡ slice_get (only_name name.entry.now self.now.first_writer) number }
    {
        if number == 0 {
            Some((name, self.first_writer))
        } else {
            None
        }
    }

    /// A register that has a name, by its number, with the process that writes it first.
    fn named(&self, number: usize) -> Option<(&[u8], Option<i64>)>
        ensures { option_map (λ named. record { name = named.0.now; writer = named.1 }) result ≡ slice_get self.now.registers number }
    {
        match self.by_name.get_index(number) {
            Some((name, writer)) => Some((name.as_slice(), *writer)),
            None => None,
        }
    }
}
