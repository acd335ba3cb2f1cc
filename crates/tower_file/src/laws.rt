//! Laws of the tower file. Each is the contract of a function that does nothing.

ghost use Rattle.std.specs.Prelude.{◌≡◌, ◌⊎◌, ℕ, List};
ghost use Rattle.tower_file.specs.Alone.{alone_text, alone_tower};
ghost use Rattle.tower_file.specs.Contents.{TowerModel, AreKnownUnlessAtomic};
ghost use Rattle.tower_file.specs.Tower.{IsTowerOf, HasTowerFault};
ghost use Rattle.tower_file.specs.Located.{ByteSpan, HasFaultAt};
ghost use Rattle.tower_file.specs.declared.fault.TowerFault.{TowerFault};
ghost use Rattle.tower_file.specs.declared.fault.TowerFault.TheVariants.{Memory};

use edn_reader::laws::{
    each_is_element, members_of_vector, one_division, one_fault, pairs_of_map, text_or_fault,
};

/// A text says one tower at most.
pub fn one_tower()
    ensures { (bytes : List ℕ) (first second : TowerModel) → IsTowerOf bytes first → IsTowerOf bytes second → first ≡ second }
{
    one_division();
    pairs_of_map();
    members_of_vector();
}

/// A text has one fault of a tower file at most.
pub fn one_tower_fault()
    ensures { (bytes : List ℕ) (first second : TowerFault) → HasTowerFault bytes first → HasTowerFault bytes second → first ≡ second }
{
    one_division();
    one_fault();
    text_or_fault();
    pairs_of_map();
    members_of_vector();
}

/// A text says a tower or has a fault, and not both.
pub fn tower_or_fault()
    ensures one { (bytes : List ℕ) → ((tower : TowerModel) × IsTowerOf bytes tower) ⊎ ((fault : TowerFault) × HasTowerFault bytes fault) }
    ensures not_both { (bytes : List ℕ) (tower : TowerModel) (fault : TowerFault) → IsTowerOf bytes tower → HasTowerFault bytes fault → ⊥ }
{
    each_is_element();
    one_division();
    text_or_fault();
    pairs_of_map();
    members_of_vector();
}

/// A fault has one place in a text at most.
pub fn one_place()
    ensures { (bytes : List ℕ) (fault : TowerFault) (first second : ByteSpan) → HasFaultAt bytes fault first → HasFaultAt bytes fault second → first ≡ second }
{
    one_division();
    text_or_fault();
    pairs_of_map();
    members_of_vector();
}

/// No text has the fault that memory was refused.
pub fn no_text_wants_memory()
    ensures { (bytes : List ℕ) → HasTowerFault bytes Memory → ⊥ }
{}

/// Of each register that a text says to be safe or regular the initial value is known.
pub fn known_unless_atomic()
    ensures { (bytes : List ℕ) (tower : TowerModel) → IsTowerOf bytes tower → AreKnownUnlessAtomic tower.registers }
{}

/// The text of `one_register` says the register `r` on the level `top`, and no other.
pub fn text_of_one_register()
    ensures { IsTowerOf alone_text alone_tower }
{}
