//! A tower: its levels and its registers.

ghost use Rattle.std.specs.Prelude.{◌≡◌, ◌≢◌, ◌≤◌, ◌⊎◌, length, Some, Ok, Err, IfOk, IfErr, IfSome};
ghost use Rattle.std.specs.Option.{option_map};
ghost use Rattle.std.specs.List.{slice_get};
ghost use Rattle.intervals.specs.Terms.{terms_of, IsKnownUnlessAtomic};
ghost use Rattle.tower_file.specs.Contents.{TowerModel, number_of};
ghost use Rattle.tower_file.specs.Tower.{IsTowerOf, HasTowerFault, MayWantMemory};
ghost use Rattle.tower_file.specs.Located.{ByteSpan, HasFaultAt, fault_alone, NoneForMemory};
ghost use Rattle.tower_file.specs.declared.fault.TowerFault.{TowerFault as Fault};

use crate::fault::{TowerFault, TowerField};
use crate::file::read_file;
use crate::located::LocatedFault;
use crate::registers::Registers;
use crate::text::locate_text;
use edn_reader::Field;
use edn_reader::laws::{
    each_lent_is_element, members_of_vector, one_division, one_fault, pairs_of_map, text_or_fault,
};
use intervals::{Claim, RegId};
use std::alloc::Global;
use std::marker::Model;

/// The registers of a tower, numbered from 0 in file order, level by level from the lowest.
#[derive(Drop)]
pub struct Tower {
    levels: Vec<Vec<u8>>,
    registers: Registers,
}

impl Model for Tower {
    ghost use Rattle.tower_file.specs.Contents.{TowerModel};
    ghost use Rattle.tower_file.specs.Views.{contents_with};

    ghost Value = { TowerModel };

    ghost view = { λ t. contents_with t.levels t.registers };
}

impl Tower {
    /// Reads a tower file: the tower that it says, or its first fault.
    pub fn read(alloc: Global, bytes: &[u8]) -> Result<Tower, TowerFault>
        ensures tower { IfOk result (λ tower. IsTowerOf bytes.now tower) }
        ensures fault { IfErr result (λ fault. fault ≢ TowerFault.Memory → HasTowerFault bytes.now fault) }
        ensures reads { (tower : TowerModel) → IsTowerOf bytes.now tower → (result ≡ Ok tower) ⊎ (result ≡ Err TowerFault.Memory) }
        ensures refuses { (fault : Fault) → HasTowerFault bytes.now fault → (result ≡ Err fault) ⊎ (result ≡ Err TowerFault.Memory) }
        ensures memory { IfErr result (λ fault. fault ≡ TowerFault.Memory → MayWantMemory bytes.now) }
    {
        match Tower::read_located(alloc, bytes) {
            Ok(tower) => Ok(tower),
            Err(located) => Err(located.fault),
        }
    }

    /// Reads a tower file: the tower that it says, or its first fault and which bytes are wrong.
    pub fn read_located(alloc: Global, bytes: &[u8]) -> Result<Tower, LocatedFault>
        ensures tower { IfOk result (λ tower. IsTowerOf bytes.now tower) }
        ensures fault { IfErr result (λ located. located.fault ≢ TowerFault.Memory → HasTowerFault bytes.now located.fault) }
        ensures span { IfErr result (λ located. located.fault ≢ TowerFault.Memory
            → (span : ByteSpan) × (located.span ≡ Some span) × HasFaultAt bytes.now located.fault span) }
        ensures nowhere { IfErr result (λ located. NoneForMemory located) }
        ensures reads { (tower : TowerModel) → IsTowerOf bytes.now tower → (fault_alone result ≡ Ok tower) ⊎ (fault_alone result ≡ Err TowerFault.Memory) }
        ensures refuses { (fault : Fault) → HasTowerFault bytes.now fault → (fault_alone result ≡ Err fault) ⊎ (fault_alone result ≡ Err TowerFault.Memory) }
        ensures memory { IfErr result (λ located. located.fault ≡ TowerFault.Memory → MayWantMemory bytes.now) }
    {
        each_lent_is_element();
        one_division();
        one_fault();
        text_or_fault();
        pairs_of_map();
        members_of_vector();
        match locate_text(alloc, bytes)? {
            Field::Once(element) => {
                let (levels, registers) = read_file(alloc, &element)?;
                Ok(Tower { levels, registers })
            }
            Field::Absent | Field::Twice => Err(LocatedFault {
                fault: TowerFault::Shape(TowerField::File),
                span: Some((0, bytes.len())),
            }),
        }
    }

    /// How many registers there are.
    pub fn len(&self) -> usize
        ensures length { result ≡ length self.now.registers }
        ensures most { result ≤ 65536 }
    {
        self.registers.len()
    }

    /// What a register claims to be. Of a safe or regular one the initial value is known.
    pub fn claim(&self, id: RegId) -> Option<&Claim>
        ensures claim { option_map (λ claim. terms_of claim.now) result ≡ option_map (λ register. register.claim) (slice_get self.now.registers id.0) }
        ensures known { IfSome result (λ claim. IsKnownUnlessAtomic (terms_of claim.now)) }
    {
        match self.registers.get(id) {
            Some((_, entry)) => Some(&entry.claim),
            None => None,
        }
    }

    /// The name of a register: the bytes of its element without tags.
    pub fn name(&self, id: RegId) -> Option<&[u8]>
        ensures { option_map (λ name. name.now) result ≡ option_map (λ register. register.name) (slice_get self.now.registers id.0) }
    {
        match self.registers.get(id) {
            Some((name, _)) => Some(name.as_slice()),
            None => None,
        }
    }

    /// The number of a register's level, from 0, the lowest.
    pub fn level_of(&self, id: RegId) -> Option<usize>
        ensures { result ≡ option_map (λ register. register.level) (slice_get self.now.registers id.0) }
    {
        match self.registers.get(id) {
            Some((_, entry)) => Some(entry.level),
            None => None,
        }
    }

    /// The name of a level: the bytes of its element without tags.
    pub fn level_name(&self, level: usize) -> Option<&[u8]>
        ensures { option_map (λ name. name.now) result ≡ slice_get self.now.levels level }
    {
        match self.levels.get(level) {
            Some(name) => Some(name.as_slice()),
            None => None,
        }
    }

    /// The registers that a register is made of, in the order in which the file names them.
    pub fn parts_of(&self, id: RegId) -> Option<&[RegId]>
        ensures { option_map (λ parts. parts.now) result ≡ option_map (λ register. register.parts) (slice_get self.now.registers id.0) }
    {
        match self.registers.get(id) {
            Some((_, entry)) => Some(entry.parts.as_slice()),
            None => None,
        }
    }

    /// The register whose name has these bytes.
    pub fn find(&self, name: &[u8]) -> Option<RegId>
        ensures { result ≡ number_of self.now.registers name.now }
    {
        self.registers.find(name)
    }
}
