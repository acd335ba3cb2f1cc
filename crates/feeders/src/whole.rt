//! Reads an input whole, within the limits of a trace.

ghost use Rattle.std.specs.Prelude.{◌≡◌, ◌≤◌, ◌<◌, ◌+◌, ◌^◌, List, Option, ℕ, Ok, Err, IfOk, IfSome, OnOk, length, take, vec_len};
ghost use Rattle.feeders.specs.Source.{AreBytesOf};
ghost use Rattle.feeders.specs.declared.source.TheConstants.{BYTE_LIMIT};

use crate::source::Source;
use logs::BreakCode;
use std::alloc::{AllocError, Global};
use std::io::Read;

/// Why an input was not read whole.
#[derive(Clone, Copy)]
pub enum InputFault {
    /// A read call failed.
    Failed,
    /// It has more than 1,073,741,824 bytes.
    TooLong,
    /// It takes more than 16,777,216 read calls.
    TooManyCalls,
    Memory,
}

/// How many bytes are asked for in one read call.
const CHUNK: usize = 65_536;

/// All the bytes that a reader has left. A read call that is interrupted is made again.
pub fn read_whole<R: Read + Drop>(alloc: Global, reader: R) -> Result<Vec<u8>, InputFault>
    ensures whole { IfOk result (λ bytes. IfSome (R.remaining reader) (λ left. bytes.items ≡ left)) }
    ensures within { IfOk result (λ bytes. vec_len bytes ≤ 2 ^ 30) }
    ensures too_long { result ≡ Err InputFault.TooLong → IfSome (R.remaining reader) (λ left. 2 ^ 30 < length left) }
{
    let mut source = Source::new(reader);
    let mut bytes = Vec::new(alloc);
    let mut used = 0;
    loop {
        let count = read_more(&mut source, &mut bytes, used)?;
        if count == 0 {
            bytes.truncate(used);
            return Ok(bytes);
        }
        used += count;
    }
}

/// Makes one read call, whose bytes go after the used ones, and answers how many there are: 0 only at the end.
fn read_more<R: Read>(
    source: &mut Source<R>,
    bytes: &mut Vec<u8>,
    used: usize,
) -> Result<usize, InputFault>
    requires used { used ≤ vec_len bytes.old }
    requires given { source.old.given ≡ used }
    ensures given { IfOk result (λ count. (first : Option (List ℕ)) → AreBytesOf first (take used bytes.old.items) (R.remaining source.old.reader) source.old.past → AreBytesOf first (take (used + count) bytes.new.items) (R.remaining source.new.reader) source.new.past) }
    ensures end { result ≡ Ok 0 → (first : Option (List ℕ)) → AreBytesOf first (take used bytes.old.items) (R.remaining source.old.reader) source.old.past → IfSome first (λ all. all ≡ take used bytes.new.items) }
    ensures count { IfOk result (λ count. (used + count ≤ vec_len bytes.new) × (source.new.given ≡ used + count)) }
    ensures called { IfOk result (λ _. source.old.calls < source.new.calls) }
    ensures too_long { result ≡ Err InputFault.TooLong → (first : Option (List ℕ)) → AreBytesOf first (take used bytes.old.items) (R.remaining source.old.reader) source.old.past → IfSome first (λ all. BYTE_LIMIT < length all) }
{
    if make_room(bytes, used).is_err() {
        return Err(InputFault::Memory);
    }
    read_after(source, bytes.as_mut_slice(), used)
}

/// Makes one read call into the bytes after the used ones.
fn read_after<R: Read>(
    source: &mut Source<R>,
    bytes: &mut [u8],
    used: usize,
) -> Result<usize, InputFault>
    requires room { used < length bytes.old }
    requires given { source.old.given ≡ used }
    ensures given { IfOk result (λ count. (first : Option (List ℕ)) → AreBytesOf first (take used bytes.old) (R.remaining source.old.reader) source.old.past → AreBytesOf first (take (used + count) bytes.new) (R.remaining source.new.reader) source.new.past) }
    ensures end { result ≡ Ok 0 → (first : Option (List ℕ)) → AreBytesOf first (take used bytes.old) (R.remaining source.old.reader) source.old.past → IfSome first (λ all. all ≡ take used bytes.new) }
    ensures count { IfOk result (λ count. (used + count ≤ length bytes.new) × (source.new.given ≡ used + count)) }
    ensures called { IfOk result (λ _. source.old.calls < source.new.calls) }
    ensures too_long { result ≡ Err InputFault.TooLong → (first : Option (List ℕ)) → AreBytesOf first (take used bytes.old) (R.remaining source.old.reader) source.old.past → IfSome first (λ all. BYTE_LIMIT < length all) }
{
    match source.next(&mut bytes[used..]) {
        Ok(count) => Ok(count),
        Err(BreakCode::TooLong) if source.past => Err(InputFault::TooLong),
        Err(BreakCode::TooLong) => Err(InputFault::TooManyCalls),
        Err(_) => Err(InputFault::Failed),
    }
}

/// Makes room after the used bytes for all that one read call asks for.
fn make_room(bytes: &mut Vec<u8>, used: usize) -> Result<(), AllocError>
    requires used { used ≤ vec_len bytes.old }
    requires within { used ≤ BYTE_LIMIT }
    ensures room { OnOk result (used < vec_len bytes.new) }
    ensures kept { take used bytes.new.items ≡ take used bytes.old.items }
{
    let end = used + CHUNK;
    if end <= bytes.len() {
        return Ok(());
    }
    bytes.resize(end, 0)
}
