//! Laws of this crate's words, which its users may rely on.

ghost use Rattle.std.specs.Prelude.{◌≡◌, ◌++◌, ◌||◌, ◌∷◌, [], ℕ, ℤ, List, Option, false, map, true};
ghost use Rattle.std.specs.Str.{bytes_eq};
ghost use Rattle.edn_reader.specs.declared.fault.EdnFault.{EdnFault};
ghost use Rattle.keys.specs.Named.{AreEachOnce, AreNamesAfter, NamedModel, NamesModel, has_name, no_names, registers_named, with_name};

/// What traces name has each name once, and so has the tower of it.
pub fn each_name_comes_once()
    ensures { (texts : List (List ℕ)) (faults : List (Option EdnFault)) (named : NamesModel) → AreNamesAfter no_names texts faults named
        → AreEachOnce named.registers × AreEachOnce (registers_named named) }
{}

/// A mention leaves each name and adds its own: where it is new after the others, and else no name moves.
pub fn a_mention_adds_its_name()
    ensures there { (registers : List NamedModel) (name other : List ℕ) (writer : Option ℤ) → has_name (with_name registers name writer) other ≡ (bytes_eq other name || has_name registers other) }
    ensures new { (registers : List NamedModel) (name : List ℕ) (writer : Option ℤ) → has_name registers name ≡ false
        → with_name registers name writer ≡ registers ++ record { name = name; writer = writer } ∷ [] }
    ensures known { (registers : List NamedModel) (name : List ℕ) (writer : Option ℤ) → has_name registers name ≡ true
        → map (λ register. register.name) (with_name registers name writer) ≡ map (λ register. register.name) registers }
{}
