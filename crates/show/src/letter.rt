//! The letters of the operations that a picture is about.

ghost use Rattle.std.specs.Prelude.{◌≡◌, ◌<◌, ◌++◌, ◌∷◌, [], IfOk, OnOk, length};
ghost use Rattle.std.specs.List.{slice_get};
ghost use Rattle.std.specs.Option.{option_map_or};
ghost use Rattle.intervals.specs.Operation.{same_id};
ghost use Rattle.show.specs.Letter.{short_act, around_letters, is_wrong_letter, is_wrong_role, letter_for, letters_by, letters_in, letters_of, over_letters, over_letter, role_word, short_label, word_of};

use intervals::{Op, OpId};
use register_book::{InRole, Role, Witness, WritesAround};
use std::alloc::{AllocError, Global};
use std::unreachable;

/// What a letter says of its operation.
#[derive(Clone, Copy)]
pub enum Letter {
    /// Its role in the witness.
    OfRole(Role),
    /// The last write before a wrong read, and the first three that overlap it.
    LastWrite,
    FirstOver,
    SecondOver,
    ThirdOver,
}

impl Letter {
    /// The letter as it is printed.
    pub fn word(self) -> &'static str
        ensures { result.now ≡ word_of self }
    {
        match self {
            Letter::OfRole(role) => role_word(role),
            Letter::LastWrite => "W1",
            Letter::FirstOver => "W2",
            Letter::SecondOver => "W3",
            Letter::ThirdOver => "W4",
        }
    }
}

/// The letter of an operation in this role, as it is printed.
fn role_word(role: Role) -> &'static str
    ensures { result.now ≡ role_word role }
{
    match role {
        Role::Read | Role::EarlyRead => "R",
        Role::FirstRead => "R1",
        Role::SecondRead => "R2",
        Role::LateWrite => "W",
        Role::A => "A",
        Role::B => "B",
        Role::C => "C",
        Role::Bc => "BC",
        Role::D => "D",
    }
}

/// An operation with its letter.
#[derive(Clone, Copy)]
pub struct Lettered {
    pub id: OpId,
    pub letter: Letter,
}

/// The operations that a picture is about with their letters: those of the witness, and the writes around a wrong read.
pub fn letters_of(
    alloc: Global,
    witness: &Option<Witness>,
    around: &WritesAround,
) -> Result<Vec<Lettered>, AllocError>
    ensures { IfOk result (λ letters. letters.items ≡ letters_of witness.now around.now) }
{
    let mut letters = Vec::new(alloc);
    if let Some(witness) = witness {
        letter_roles(&mut letters, &witness.roles())?;
    }
    letter_around(&mut letters, around)?;
    Ok(letters)
}

fn letter_roles(letters: &mut Vec<Lettered>, slots: &[Option<InRole>]) -> Result<(), AllocError>
    ensures { OnOk result (letters.new.items ≡ letters.old.items ++ letters_in slots.now) }
{
    for slot in slots {
        if let Some(one) = slot {
            give(letters, &one.op, Letter::OfRole(one.role))?;
        }
    }
    Ok(())
}

fn letter_around(letters: &mut Vec<Lettered>, around: &WritesAround) -> Result<(), AllocError>
    ensures { OnOk result (letters.new.items ≡ letters.old.items ++ around_letters around.now) }
{
    if let Some(last) = &around.last {
        give(letters, last, Letter::LastWrite)?;
    }
    letter_over(letters, &around.over)
}

/// Gives letters to the first three of the writes that a wrong read overlaps.
fn letter_over(letters: &mut Vec<Lettered>, over: &[Op]) -> Result<(), AllocError>
    ensures { OnOk result (letters.new.items ≡ letters.old.items ++ over_letters 0 over.now) }
{
    for number in 0..over.len() {
        give_over(letters, over, number)?;
    }
    Ok(())
}

/// Gives a letter to the write of this number, where it has one.
fn give_over(letters: &mut Vec<Lettered>, over: &[Op], number: usize) -> Result<(), AllocError>
    requires { number < length over.now }
    ensures { OnOk result (letters.new.items ≡ letters.old.items ++ option_map_or (letters_by (over_letter number)) (slice_get over.now number) []) }
{
    match over.get(number) {
        Some(op) => give_by(letters, over_letter(number), op),
        None => unreachable!(),
    }
}

fn give_by(letters: &mut Vec<Lettered>, letter: Option<Letter>, op: &Op) -> Result<(), AllocError>
    ensures { OnOk result (letters.new.items ≡ letters.old.items ++ letters_by letter op.now) }
{
    match letter {
        Some(letter) => give(letters, op, letter),
        None => Ok(()),
    }
}

/// The letter of the write of this number among those that a wrong read overlaps, where it has one.
pub fn over_letter(number: usize) -> Option<Letter>
    ensures { result ≡ over_letter number }
{
    match number {
        0 => Some(Letter::FirstOver),
        1 => Some(Letter::SecondOver),
        2 => Some(Letter::ThirdOver),
        _ => None,
    }
}

fn give(letters: &mut Vec<Lettered>, op: &Op, letter: Letter) -> Result<(), AllocError>
    ensures { OnOk result (letters.new.items ≡ letters.old.items ++ record { id = op.now.id; letter = letter } ∷ []) }
{
    letters.push(Lettered { id: op.id, letter })?;
    Ok(())
}

/// The letter of an operation, where it has one.
pub fn letter_for(letters: &[Lettered], id: OpId) -> Option<Letter>
    ensures { result ≡ letter_for letters.now id }
{
    let found = letters.iter().find(|lettered| is_same_id(lettered.id, id))?;
    Some(found.letter)
}

/// What is written of an operation where there is no room for its label: its letter, else `w` or `r`.
pub fn short_label(letters: &[Lettered], op: &Op) -> &'static str
    ensures { result.now ≡ short_label letters.now op.now }
{
    match letter_for(letters, op.id) {
        Some(letter) => letter.word(),
        None => short_act(op),
    }
}

fn short_act(op: &Op) -> &'static str
    ensures { result.now ≡ short_act op.now }
{
    if op.is_write() { "w" } else { "r" }
}

/// Whether the operation is a read that is wrong by itself, without another.
pub fn is_wrong(letters: &[Lettered], id: OpId) -> bool
    ensures { result ≡ is_wrong_letter (letter_for letters.now id) }
{
    match letter_for(letters, id) {
        Some(Letter::OfRole(role)) => is_wrong_role(role),
        _ => false,
    }
}

fn is_wrong_role(role: Role) -> bool
    ensures { result ≡ is_wrong_role role }
{
    match role {
        Role::Read | Role::EarlyRead => true,
        Role::FirstRead | Role::SecondRead | Role::LateWrite => false,
        Role::A | Role::B | Role::C | Role::Bc | Role::D => false,
    }
}

/// Whether two ids are the same.
pub fn is_same_id(a: OpId, b: OpId) -> bool
    ensures { result ≡ same_id a b }
{
    a.feeder == b.feeder && a.event == b.event
}
