//! White bytes and plain runs within a bracket, passed in one loop: they change only its number of elements.

ghost use Rattle.std.specs.Prelude.{◌≡◌, ◌≤◌, length};
ghost use Rattle.edn_reader.specs.Taking.{LeadsOver, LeadsWithin};

use crate::bytes::{is_plain, run_end, white_end};
use crate::nesting::Nesting;

/// Passes white bytes and plain runs from an index on, where what is innermost is a bracket. A run that goes on to
/// the end of the bytes is left.
#[inline(always)]
#[tactic(auto, using(crate::proofs::Leading::leads_inside))]
pub fn pass_plain(input: &[u8], from: usize, nesting: &mut Nesting) -> usize
    requires { from ≤ length input.now }
    ensures leads { LeadsOver input.now from nesting.old result nesting.new }
    ensures within { result ≤ length input.now }
    ensures after { from ≤ result }
{
    let Some(odd) = nesting.odd_inside() else {
        return from;
    };
    let (end, odd) = plain_end(input, from, odd);
    nesting.set_odd(odd);
    end
}

/// Where the white bytes and plain runs end, and whether the bracket then holds an odd number of elements.
#[inline(always)]
fn plain_end(input: &[u8], from: usize, odd_before: bool) -> (usize, bool)
    requires { from ≤ length input.now }
    ensures leads { LeadsWithin input.now from odd_before result.0 result.1 }
    ensures within { result.0 ≤ length input.now }
    ensures after { from ≤ result.0 }
{
    let mut at = white_end(input, from);
    let mut odd = odd_before;
    while at < input.len() && is_plain(input[at]) {
        let end = run_end(input, at + 1);
        if end == input.len() {
            return (at, odd);
        }
        at = white_end(input, end);
        odd = !odd;
    }
    (at, odd)
}
