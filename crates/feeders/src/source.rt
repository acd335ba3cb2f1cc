//! A reader whose bytes and read calls are counted: the limits of a trace, of standard input and of a tower file.

ghost use Rattle.std.specs.Prelude.{◌≡◌, ◌≤◌, ◌<◌, ◌+◌, ◌++◌, ◌⊎◌, ℕ, true, List, [], Option, Ok, Err, IfOk, IfErr, IfSome, length, take};
ghost use Rattle.feeders.specs.Source.{AreBytesOf};
ghost use Rattle.feeders.specs.declared.source.TheConstants.{BYTE_LIMIT, CALL_LIMIT};

use logs::BreakCode;
use std::io::{ErrorKind, Read};

/// The most bytes that an input may have.
pub const BYTE_LIMIT: usize = 1_073_741_824;

/// The most read calls that an input may take, the one that finds its end among them.
pub const CALL_LIMIT: u32 = 16_777_216;

/// A reader whose bytes and read calls are counted.
#[derive(Drop)]
pub struct Source<R: Read> {
    reader: R,
    /// How many bytes were given so far.
    pub given: usize,
    /// How many read calls were made.
    calls: u32,
    /// Whether the reader gave more bytes than an input may have.
    pub past: bool,
    ghost within: { (given ≤ BYTE_LIMIT) × (calls ≤ CALL_LIMIT) × (past ≡ true → given ≡ BYTE_LIMIT) },
}

impl<R: Read> Source<R> {
    /// A source of what the reader has left, of which nothing was given yet.
    pub fn new(reader: R) -> Source<R>
        ensures given { (first : Option (List ℕ)) → first ≡ R.remaining reader → AreBytesOf first [] (R.remaining result.reader) result.past }
        ensures none { (result.given ≡ 0) × (result.calls ≡ 0) }
        ensures limits { (BYTE_LIMIT ≡ 1073741824) × (CALL_LIMIT ≡ 16777216) }
    {
        Source {
            reader,
            given: 0,
            calls: 0,
            past: false,
        }
    }

    /// Reads the next bytes into the beginning of `buffer`, and answers how many there are: 0 only at the end. An
    /// interrupted call is made again. Bytes past the limit are not given: after those within it the answer is
    /// `TooLong`, as it is when all read calls are used up.
    pub fn next(&mut self, buffer: &mut [u8]) -> Result<usize, BreakCode>
        requires room { 0 < length buffer.old }
        ensures given { IfOk result (λ count. (first : Option (List ℕ)) (bytes : List ℕ) → AreBytesOf first bytes (R.remaining self.old.reader) self.old.past → AreBytesOf first (bytes ++ take count buffer.new) (R.remaining self.new.reader) self.new.past) }
        ensures none_given { IfErr result (λ _. (first : Option (List ℕ)) (bytes : List ℕ) → AreBytesOf first bytes (R.remaining self.old.reader) self.old.past → AreBytesOf first bytes (R.remaining self.new.reader) self.new.past) }
        ensures end { result ≡ Ok 0 → (first : Option (List ℕ)) (bytes : List ℕ) → AreBytesOf first bytes (R.remaining self.old.reader) self.old.past → IfSome first (λ all. all ≡ bytes) }
        ensures count { IfOk result (λ count. (count ≤ length buffer.old) × (self.new.given ≡ self.old.given + count)) }
        ensures no_count { IfErr result (λ _. self.new.given ≡ self.old.given) }
        ensures code { IfErr result (λ code. (code ≡ BreakCode.ReadFailed) ⊎ (code ≡ BreakCode.TooLong)) }
        ensures past { self.old.past ≡ true → result ≡ Err BreakCode.TooLong }
        ensures not_past { result ≡ Err BreakCode.ReadFailed → self.new.past ≡ self.old.past }
        ensures too_long { result ≡ Err BreakCode.TooLong → (self.new.calls ≡ CALL_LIMIT) ⊎ ((self.new.past ≡ true) × (self.new.given ≡ BYTE_LIMIT)) }
        ensures length { length buffer.new ≡ length buffer.old }
        ensures limit { self.new.given ≤ BYTE_LIMIT }
        ensures calls { (self.old.calls ≤ self.new.calls) × (self.new.calls ≤ CALL_LIMIT) }
        ensures called { IfOk result (λ _. self.old.calls < self.new.calls) }
        ensures failed { result ≡ Err BreakCode.ReadFailed → self.old.calls < self.new.calls }
    {
        if self.past {
            return Err(BreakCode::TooLong);
        }
        let room = BYTE_LIMIT - self.given;
        let asked = buffer.len().min(room + 1);
        while self.calls < CALL_LIMIT {
            self.calls += 1;
            match self.reader.read(&mut buffer[..asked]) {
                Ok(count) if count <= room => {
                    self.given += count;
                    return Ok(count);
                }
                Ok(_) => {
                    self.past = true;
                    if room == 0 {
                        return Err(BreakCode::TooLong);
                    }
                    self.given = BYTE_LIMIT;
                    return Ok(room);
                }
                Err(error) if error.kind() == ErrorKind::Interrupted => {}
                Err(_) => return Err(BreakCode::ReadFailed),
            }
        }
        Err(BreakCode::TooLong)
    }
}
