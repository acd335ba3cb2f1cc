//! Laws of this crate's words, which its users may rely on.

ghost use Rattle.std.specs.Prelude.{◌≡◌, ◌≢◌, ℕ, List, Option};
ghost use Rattle.words.specs.Words.{AskedCheck};
ghost use Rattle.check_command.specs.Checked.{IsChecked};
ghost use Rattle.check_command.specs.Verdict.{IsAudited};

/// At a status other than 2 all was read: each trace of `check`, and the input of `safe`.
pub fn what_was_read_is_whole()
    ensures checked { (asked : AskedCheck) (file : List ℕ) (traces : List (List ℕ)) (status : ℕ) (old new : Option (List ℕ)) → (is : IsChecked asked file traces status old new) → status ≢ 2 → is.read ≡ traces }
    ensures audited { (input : List ℕ) (status : ℕ) (old new : Option (List ℕ)) → (is : IsAudited input status old new) → status ≢ 2 → is.read ≡ input }
{}
