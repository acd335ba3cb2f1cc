//! The registers of a tower by number, and by name.

ghost use Rattle.std.specs.Prelude.{◌≡◌, ◌≤◌, ◌<◌, ◌∷◌, ◌++◌, [], length, None, IfSome, OnOk, OnErr, IfErr};
ghost use Rattle.std.specs.Option.{option_map};
ghost use Rattle.std.specs.List.{slice_get};
ghost use Rattle.intervals.specs.Terms.{terms_of, IsKnownUnlessAtomic};
ghost use Rattle.tower_file.specs.Contents.{number_of};
ghost use Rattle.tower_file.specs.Views.{kept_register};
ghost use Rattle.tower_file.specs.Located.{NoneForMemory};
ghost use Rattle.tower_file.specs.declared.fault.TowerFault.TheVariants.{Memory};

use crate::located::LocatedFault;
use indexmap::IndexMap;
use intervals::{Claim, RegId};
use std::alloc::Global;
use std::marker::Model;

/// What is kept of a register beside its name.
#[derive(Drop)]
pub struct NameEntry {
    pub claim: Claim,
    pub level: usize,
    pub parts: Vec<RegId>,
}

/// At most 65,536 registers, in the order in which they were added.
#[derive(Drop)]
pub struct Registers {
    by_name: IndexMap<Vec<u8>, NameEntry>,
}

impl Model for Registers {
    ghost use Rattle.std.specs.Prelude.{◌≤◌, List, map, length};
    ghost use Rattle.tower_file.specs.Contents.{Register};
    ghost use Rattle.tower_file.specs.Views.{kept_register, AreKnown};

    ghost Value = { List Register };

    ghost view = { λ r. map kept_register r.by_name.entries };

    ghost invariant = { λ r. (length r.by_name.entries ≤ 65536) × AreKnown r.by_name.entries };
}

impl Registers {
    pub fn new(alloc: Global) -> Registers
        ensures { result ≡ [] }
    {
        Registers {
            by_name: IndexMap::new(alloc),
        }
    }

    pub fn len(&self) -> usize
        ensures length { result ≡ length self.now }
        ensures most { result ≤ 65536 }
    {
        self.by_name.len()
    }

    /// The number of the register of that name, if there is one.
    pub fn find(&self, name: &[u8]) -> Option<RegId>
        ensures { result ≡ number_of self.now name.now }
    {
        match self.by_name.get_index_of(name) {
            Some(number) => Some(RegId(number as u32)),
            None => None,
        }
    }

    /// The name of a register, and what is kept beside it, if there is such a register.
    pub fn get(&self, id: RegId) -> Option<(&Vec<u8>, &NameEntry)>
        ensures kept { option_map (λ entry. kept_register (entry.0.now, entry.1.now)) result ≡ slice_get self.now id.0 }
        ensures known { IfSome result (λ entry. IsKnownUnlessAtomic (terms_of entry.1.now.claim)) }
    {
        self.by_name.get_index(id.0 as usize)
    }

    /// Adds a register of a new name.
    pub fn push(&mut self, name: Vec<u8>, entry: NameEntry) -> Result<(), LocatedFault>
        requires new { number_of self.old name.items ≡ None }
        requires room { length self.old < 65536 }
        requires known { IsKnownUnlessAtomic (terms_of entry.claim) }
        ensures ok { OnOk result (self.new ≡ self.old ++ kept_register (name, entry) ∷ []) }
        ensures err { OnErr result (self.new ≡ self.old) }
        ensures memory { IfErr result (λ located. located.fault ≡ Memory) }
        ensures nowhere { IfErr result (λ located. NoneForMemory located) }
    {
        self.by_name.insert(name, entry)?;
        Ok(())
    }
}
