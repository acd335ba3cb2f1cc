//! Laws of this crate's words.

ghost use Rattle.std.specs.Prelude.{◌≡◌, Some, codes};
ghost use Rattle.std.specs.List.{AllByRecursion};
ghost use Rattle.intervals.specs.Code.{refusal_code};
ghost use Rattle.intervals.specs.declared.refusal.Refusal.{Refusal};
ghost use Rattle.tower_file.specs.Tower.{tower_fault_code};
ghost use Rattle.tower_file.specs.declared.fault.TowerFault.{TowerFault};
ghost use Rattle.jepsen_form.specs.Code.{form_fault_code};
ghost use Rattle.jepsen_form.specs.declared.fault.FormFault.{FormFault};
ghost use Rattle.pairing.specs.Code.{pair_fault_code};
ghost use Rattle.pairing.specs.declared.fault.PairFault.{PairFault};
ghost use Rattle.shards.specs.Code.{shard_fault_code};
ghost use Rattle.shards.specs.declared.fault.ShardFault.{ShardFault};
ghost use Rattle.logs.specs.Code.{break_code_of};
ghost use Rattle.logs.specs.declared.log.BreakCode.{BreakCode};
ghost use Rattle.texts.specs.Codes.{IsFoundByName, NamesItself, code_of, codes_of_own_name, hint_codes, note_codes};

/// The code of each fault, of each note and of each hint is one of those that are explained, as it is printed and in
/// small letters.
pub fn each_code_has_an_entry()
    ensures breaks { (code : BreakCode) → NamesItself (break_code_of code) }
    ensures forms { (fault : FormFault) → NamesItself (form_fault_code fault) }
    ensures pairs { (fault : PairFault) → NamesItself (pair_fault_code fault) }
    ensures refusals { (refusal : Refusal) → NamesItself (refusal_code refusal) }
    ensures towers { (fault : TowerFault) → NamesItself (tower_fault_code fault) }
    ensures shards { (fault : ShardFault) → NamesItself (shard_fault_code fault) }
    ensures notes { AllByRecursion NamesItself note_codes }
    ensures hints { AllByRecursion NamesItself hint_codes }
{}

/// The name of each code names it, as it is printed and in small letters; but `Memory`, which four codes have, names
/// the first of them.
pub fn each_name_names_its_code()
    ensures names { AllByRecursion IsFoundByName codes_of_own_name }
    ensures memory { code_of (codes "Memory") ≡ Some (codes "E7") }
{}
