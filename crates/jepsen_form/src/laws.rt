//! Laws of items: an element has one, and it names registers of the tower. Each is proved, and does nothing.

ghost use Rattle.std.specs.Prelude.{◌≡◌, ℕ, List, length, Result, IfOk};
ghost use Rattle.std.specs.Borrow.{Bor};
ghost use Rattle.edn_reader.specs.Grammar.{ElementModel, IsElement};
ghost use Rattle.tower_file.specs.Contents.{TowerModel};
ghost use Rattle.jepsen_form.specs.declared.item.Item.{Item};
ghost use Rattle.jepsen_form.specs.declared.item.MomentField.{MomentField};
ghost use Rattle.jepsen_form.specs.declared.gist.RefusedForm.{RefusedForm};
ghost use Rattle.jepsen_form.specs.Item.{IsItem, answer_with, lying_at};
ghost use Rattle.jepsen_form.specs.Whole.{NamesBelow};

use edn_reader::laws::{members_of_vector, pairs_of_map};

/// For each tower and moment's field an element has one item or fault, wherever its text lies in memory.
pub fn one_item()
    ensures some { (tower : TowerModel) (chosen : MomentField) (piece : ElementModel) → IsElement piece → (item : Result Item RefusedForm) × IsItem tower chosen piece item }
    ensures one { (tower : TowerModel) (chosen : MomentField) (piece : ElementModel) (first second : Result Item RefusedForm) (place : ℕ × ℕ) → IsItem tower chosen piece first → IsItem tower chosen piece second → lying_at place first ≡ lying_at place second }
    ensures elsewhere { (tower : TowerModel) (chosen : MomentField) (piece : ElementModel) (item : Result Item RefusedForm) (text : Bor (List ℕ)) → IsItem tower chosen piece item → text.now ≡ piece.text → IsItem tower chosen piece (answer_with text item) }
{
    pairs_of_map();
    members_of_vector();
}

/// A register that an item names is one of the tower's.
pub fn items_name_registers_of_the_tower()
    ensures { (tower : TowerModel) (chosen : MomentField) (piece : ElementModel) (answer : Result Item RefusedForm) → IsItem tower chosen piece answer → IfOk answer (NamesBelow (length tower.registers)) }
{}
