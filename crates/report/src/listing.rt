//! The list of a tower's registers, a line for each.

ghost use Rattle.std.specs.Prelude.{◌≡◌, ◌++◌, [], IfOk, OnOk, string_bytes};
ghost use Rattle.std.specs.Option.{option_map_or};
ghost use Rattle.std.specs.List.{slice_get};
ghost use Rattle.report.specs.Listing.{listing_line, tower_lines, level_name};

use intervals::RegId;
use phrases::{kind_word, push_printed};
use std::alloc::{AllocError, Global};
use tower_file::Tower;

/// A line for each register, by number: its number, the name of its level, its name and its kind.
pub fn tower_text(alloc: Global, tower: &Tower) -> Result<String, AllocError>
    ensures { IfOk result (λ text. string_bytes text ≡ tower_lines tower.now) }
{
    let mut text = String::new(alloc);
    for number in 0..tower.len() {
        push_register(&mut text, tower, RegId(number as u32))?;
    }
    Ok(text)
}

/// The line of a register; nothing where there is none of that number.
fn push_register(text: &mut String, tower: &Tower, id: RegId) -> Result<(), AllocError>
    ensures { OnOk result (string_bytes text.new ≡ string_bytes text.old ++ option_map_or (listing_line tower.now.levels id.0) (slice_get tower.now.registers id.0) []) }
{
    let (Some(name), Some(level), Some(claim)) = (
        tower.name(id),
        tower.level_of(id),
        tower.claim(id),
    ) else {
        return Ok(());
    };
    write!(text, "{} ", id.0)?;
    push_printed(text, level_name(tower, level))?;
    text.push_str(" ")?;
    push_printed(text, name)?;
    text.push_str(" ")?;
    text.push_str(kind_word(claim.kind))?;
    text.push_str("\n")
}

/// The name of a level, empty where there is none of that number.
pub fn level_name(tower: &Tower, level: usize) -> &[u8]
    ensures { result.now ≡ level_name tower.now.levels level }
{
    match tower.level_name(level) {
        Some(name) => name,
        None => b"",
    }
}
