//! One line of cells.

ghost use Rattle.std.specs.Prelude.{◌≤◌, length};

use crate::measure::digits_of_moment;
use std::alloc::{AllocError, Global};

const DIGITS: [char; 10] = ['0', '1', '2', '3', '4', '5', '6', '7', '8', '9'];

/// The cells of a line from one place on.
#[derive(Drop)]
pub struct TextLine {
    pub from: u128,
    pub cells: Vec<char>,
}

impl TextLine {
    /// So many blanks.
    pub fn blank(alloc: Global, from: u128, width: usize) -> Result<TextLine, AllocError> {
        Ok(TextLine {
            from,
            cells: vec![in alloc; ' '; width]?,
        })
    }

    /// Puts a character at a place, if the line has that place.
    pub fn put(&mut self, place: u128, character: char) {
        if place < self.from {
            return;
        }
        let Ok(number) = usize::try_from(place - self.from) else {
            return;
        };
        if number < self.cells.len() {
            self.cells[number] = character;
        }
    }

    /// Puts a character at each place from one up to another.
    pub fn fill(&mut self, from: u128, to: u128, character: char) {
        for number in 0..self.cells.len() {
            let place = self.from.saturating_add(number as u128);
            if from <= place && place < to {
                self.cells[number] = character;
            }
        }
    }

    /// Puts the digits of a number one after another, and returns the place after them.
    pub fn put_number(&mut self, place: u128, number: u64) -> u128 {
        let digits = digits_of_moment(number);
        let end = place.saturating_add(digits as u128);
        let mut at = end;
        let mut left = number;
        for _ in 0..digits {
            at = at.saturating_sub(1);
            self.put(at, DIGITS[(left % 10) as usize]);
            left /= 10;
        }
        end
    }

    /// Puts the characters of a text one after another.
    pub fn put_text(&mut self, place: u128, text: &str) {
        let mut at = place;
        for character in text.chars() {
            self.put(at, character);
            at = at.saturating_add(1);
        }
    }

    /// Whether all cells from one place up to another are blank.
    pub fn is_blank(&self, from: u128, to: u128) -> bool {
        for number in 0..self.cells.len() {
            let place = self.from.saturating_add(number as u128);
            if from <= place && place < to && self.cells[number] != ' ' {
                return false;
            }
        }
        true
    }

    /// Whether a cell is not blank.
    pub fn has_some(&self) -> bool {
        end_of(&self.cells) > 0
    }

    /// Adds the line to a text, without the blanks at its end.
    pub fn push(&self, text: &mut String) -> Result<(), AllocError> {
        for character in &self.cells[..end_of(&self.cells)] {
            text.push(*character)?;
        }
        text.push_str("\n")
    }
}

/// How many cells are left without the blanks at the end.
fn end_of(cells: &[char]) -> usize
    ensures { result ≤ length cells.now }
{
    let mut end = cells.len();
    while end > 0 && cells[end - 1] == ' ' {
        end -= 1;
    }
    end
}
