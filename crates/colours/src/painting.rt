//! Paints a text, line by line.

ghost use Rattle.std.specs.Prelude.{◌≤◌, ◌-◌, IfOk, IfSome, OnOk, drop, length, take};
ghost use Rattle.colours.specs.Painted.{Adds, IsInOneLine, IsPainted};

use crate::escapes::{RESET, TextColour};
use crate::line::{blanks_in, cut_of};
use memchr::memchr;
use std::alloc::{AllocError, Global};

/// A text with colours put in.
#[tactic(auto, using(crate::proofs::Adding::at_first))]
pub fn paint(alloc: Global, text: &[u8]) -> Result<Vec<u8>, AllocError>
    ensures { IfOk result (λ painted. IsPainted text.now painted.items) }
{
    let mut painted = Vec::new(alloc);
    let mut at = 0;
    while at < text.len() {
        let end = end_of_line(text, at);
        push_line(&mut painted, &text[at..end])?;
        let next = text.len().min(end.saturating_add(1));
        push_plain(&mut painted, &text[end..next])?;
        at = next;
    }
    Ok(painted)
}

/// Where the line ends that begins at a byte: at its line end, or at the end of the text.
fn end_of_line(text: &[u8], at: usize) -> usize
    requires within { at ≤ length text.now }
    ensures order { at ≤ result }
    ensures within { result ≤ length text.now }
    ensures one_line { IsInOneLine (take (result - at) (drop at text.now)) }
{
    match memchr(b'\n', &text[at..]) {
        Some(found) => at + found,
        None => text.len(),
    }
}

/// Adds a line: its head in a colour, the blanks after that as they are, and the rest in another colour.
#[tactic(auto, using(crate::proofs::Adding::in_three, crate::proofs::Adding::front_of_line, crate::proofs::Adding::rest_of_line))]
fn push_line(painted: &mut Vec<u8>, line: &[u8]) -> Result<(), AllocError>
    requires line { IsInOneLine line.now }
    ensures { OnOk result (Adds line.now painted.old.items painted.new.items) }
{
    let cut = cut_of(line);
    push_part(painted, cut.colour, &line[..cut.head])?;
    let rest = &line[cut.head..];
    let blanks = blanks_in(rest);
    push_plain(painted, &rest[..blanks])?;
    push_part(painted, cut.rest, &rest[blanks..])?;
    Ok(())
}

/// Adds a part of a line in a colour, or as it is.
fn push_part(
    painted: &mut Vec<u8>,
    colour: Option<TextColour>,
    bytes: &[u8],
) -> Result<(), AllocError>
    requires line { IsInOneLine bytes.now }
    ensures { OnOk result (Adds bytes.now painted.old.items painted.new.items) }
{
    match colour {
        Some(colour) if !bytes.is_empty() => push_coloured(painted, colour, bytes),
        _ => push_plain(painted, bytes),
    }
}

#[tactic(auto, using(crate::proofs::Adding::plainly))]
fn push_plain(painted: &mut Vec<u8>, bytes: &[u8]) -> Result<(), AllocError>
    ensures { OnOk result (Adds bytes.now painted.old.items painted.new.items) }
{
    painted.extend_from_slice(bytes)?;
    Ok(())
}

#[tactic(auto, using(crate::proofs::Adding::in_colour))]
fn push_coloured(painted: &mut Vec<u8>, colour: TextColour, bytes: &[u8]) -> Result<(), AllocError>
    requires line { IsInOneLine bytes.now }
    ensures { OnOk result (Adds bytes.now painted.old.items painted.new.items) }
{
    painted.extend_from_slice(colour.escape().as_bytes())?;
    painted.extend_from_slice(bytes)?;
    painted.extend_from_slice(RESET.as_bytes())?;
    Ok(())
}
