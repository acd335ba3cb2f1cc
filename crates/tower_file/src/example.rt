//! A tower file of one register, as an example.

ghost use Rattle.std.specs.Prelude.{◌≡◌};
ghost use Rattle.tower_file.specs.Alone.{alone_text};

/// The text of a tower of the safe register `r` alone, which process 0 writes and which holds 0 at
/// first. What it says is the law `text_of_one_register`.
pub fn one_register() -> &'static [u8]
    ensures { result.now ≡ alone_text }
{
    b"{:levels [{:name top :registers [{:name r :kind :safe :writers [0] :initial 0}]}]}"
}
