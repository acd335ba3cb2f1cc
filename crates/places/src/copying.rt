//! Readers that keep a copy of what they give.

ghost use Rattle.std.specs.Prelude.{◌≡◌, ◌≤◌, ◌<◌, ◌+◌, IfOk, IfSome, IsTrue, length, map, vec_len};
ghost use Rattle.places.specs.Copied.{AreCopiesOf, IsCopyOf, IsNextIn};

use std::alloc::{AllocError, Global};
use std::io::{Read, Result as ReadResult};
use std::marker::{Brand, Model, PhantomData};
use std::sync::{Mutex, Wait};

/// What a lock forgets of copies: the texts that they are of, as readers have them left before any is read, where they
/// are known. So they are in the type of the copies, and whoever makes these picks them.
pub trait Originals {
    ghost use Rattle.std.specs.Prelude.{ℕ, List, Option};

    ghost texts: { List (Option (List ℕ)) };
}

impl Originals for Brand {
    ghost use Rattle.std.specs.Prelude.{[]};

    ghost texts = { [] };
}

/// What was kept of a text: a prefix of it.
#[derive(Drop)]
pub struct Kept {
    pub bytes: Vec<u8>,
    /// Whether the text was found to end after these bytes.
    pub ended: bool,
}

/// What was kept of the text of this number. Contracts see the number.
#[derive(Drop)]
struct Copy<B: Originals> {
    number: usize,
    bytes: Vec<u8>,
    ended: bool,
    of: PhantomData<B>,
}

impl<B: Originals> Model for Copy<B> {
    ghost use Rattle.std.specs.Prelude.{ℕ};
    ghost use Rattle.places.specs.Copied.{IsCopyOf};

    ghost Value = { ℕ };

    ghost view = { λ a. a.number };

    ghost invariant = { λ a. IsCopyOf B.texts a.number a.bytes.items a.ended };
}

impl<B: Originals> Copy<B> {
    fn new(alloc: Global, number: usize) -> Copy<B> {
        Copy {
            number,
            bytes: Vec::new(alloc),
            ended: false,
            of: PhantomData,
        }
    }

    /// Keeps the next bytes of the text of this number, of which so many were given before, and answers how many were
    /// given then. Nothing more is kept once memory was refused: the answer is none, and the copy stays.
    fn keep(&mut self, number: usize, given: usize, bytes: &[u8], ended: bool) -> Option<usize>
        requires next { IsNextIn B.texts number given bytes.now ended }
        ensures many { IfSome result (λ many. many ≡ given + length bytes.now) }
    {
        if self.number != number || self.bytes.len() != given {
            return None;
        }
        if self.bytes.extend_from_slice(bytes).is_err() {
            return None;
        }
        self.ended = ended;
        Some(self.bytes.len())
    }
}

/// A copy for each of some texts. Contracts see how many.
#[derive(Drop)]
pub struct Copies<B: Originals> {
    copies: Vec<Mutex<Copy<B>>>,
}

impl<B: Originals> Model for Copies<B> {
    ghost use Rattle.std.specs.Prelude.{ℕ, vec_len};

    ghost Value = { ℕ };

    ghost view = { λ a. vec_len a.copies };
}

impl<B: Originals> Copies<B> {
    /// Empty copies of so many texts.
    pub fn new(alloc: Global, texts: usize) -> Result<Copies<B>, AllocError>
        ensures { IfOk result (λ made. made ≡ texts) }
    {
        let mut copies = Vec::new(alloc);
        for number in 0..texts {
            copies.push(Mutex::new(Copy::new(alloc, number)))?;
        }
        Ok(Copies { copies })
    }

    /// What was kept of each text, by number.
    pub fn into_kept(self, alloc: Global) -> Result<Vec<Kept>, AllocError>
        ensures copies { IfOk result (λ kept. AreCopiesOf B.texts kept.items) }
        ensures many { IfOk result (λ kept. vec_len kept ≡ self) }
    {
        let mut kept = Vec::new(alloc);
        for copy in self.copies {
            kept.push(kept_of(copy.into_inner(), kept.len())?)?;
        }
        Ok(kept)
    }
}

/// What was kept of the text of this number. The numbers agree: a lock forgets which one its copy has.
fn kept_of<B: Originals>(copy: Copy<B>, number: usize) -> Result<Kept, AllocError>
    ensures { IfOk result (λ kept. IsCopyOf B.texts number kept.bytes.items kept.ended) }
{
    if copy.number != number {
        return Err(AllocError);
    }
    Ok(Kept {
        bytes: copy.bytes,
        ended: copy.ended,
    })
}

/// A reader that keeps a copy of what it gives. Where memory is refused for the copy, reading goes on.
/// Contracts see the bytes that it will give.
#[derive(Drop)]
pub struct Copying<'r, R, S: Read, B: Originals> {
    rt: &'r R,
    reader: S,
    number: usize,
    /// How many bytes it gave; none once one was not kept.
    given: Option<usize>,
    copy: &'r Mutex<Copy<B>>,
}

impl<'r, R, S: Read, B: Originals> Model for Copying<'r, R, S, B> {
    ghost use Rattle.std.specs.Prelude.{ℕ, List, Option};
    ghost use Rattle.places.specs.Copied.{IsGiving};

    ghost Value = { Option (List ℕ) };

    ghost view = { λ a. S.remaining a.reader };

    ghost invariant = { λ a. IsGiving B.texts a.number a.given (S.remaining a.reader) };
}

impl<R: Wait, S: Read, B: Originals> Read for Copying<'_, R, S, B> {
    ghost remaining = { λ r. r };

    fn read(&mut self, buf: &mut [u8]) -> ReadResult<usize> {
        let count = self.reader.read(buf)?;
        let ended = is_end(count, buf.len());
        if let Some(given) = self.given {
            self.given = self
                .copy
                .lock(self.rt)
                .keep(self.number, given, &buf[..count], ended);
        }
        Ok(count)
    }
}

/// Whether a read call that answered so many bytes found the end, where there was room for so many.
fn is_end(count: usize, room: usize) -> bool
    ensures { IsTrue result → (count ≡ 0) × (0 < room) }
{
    count == 0 && room != 0
}

/// The readers, each of which keeps what it gives in the copy of its number.
pub fn copied_to<'r, R: Wait, S: Read + Drop, B: Originals>(
    rt: &'r R,
    alloc: Global,
    readers: Vec<S>,
    copies: &'r Copies<B>,
) -> Result<Vec<Copying<'r, R, S, B>>, AllocError>
    requires many { vec_len readers ≤ copies.now }
    requires texts { B.texts ≡ map S.remaining readers.items }
    ensures { IfOk result (λ wrapped. map (λ one. one) wrapped.items ≡ map S.remaining readers.items) }
{
    let mut wrapped = Vec::new(alloc);
    let mut number = 0;
    for reader in readers {
        wrapped.push(Copying {
            rt,
            reader,
            number,
            given: Some(0),
            copy: &copies.copies[number],
        })?;
        number += 1;
    }
    Ok(wrapped)
}
