//! Texts with places that are filled.

use crate::label::push_value;
use intervals::Value;
use std::alloc::AllocError;

/// What fills a place.
#[derive(Clone, Copy)]
pub enum Filling<'a> {
    Word(&'a str),
    Number(u128),
    Value(Value),
}

/// Adds a text with a number in place of each `@`.
pub fn push_numbers(text: &mut String, form: &str, numbers: &[u128]) -> Result<(), AllocError> {
    let mut next = 0;
    for part in form.split('@') {
        text.push_str(part)?;
        if next < numbers.len() {
            write!(text, "{}", numbers[next])?;
            next += 1;
        }
    }
    Ok(())
}

/// Adds a text with one of these in place of each `@`.
pub fn push_filled(text: &mut String, form: &str, fillings: &[Filling]) -> Result<(), AllocError> {
    let mut next = 0;
    for part in form.split('@') {
        text.push_str(part)?;
        if next < fillings.len() {
            push_filling(text, &fillings[next])?;
            next += 1;
        }
    }
    Ok(())
}

fn push_filling(text: &mut String, filling: &Filling) -> Result<(), AllocError> {
    match filling {
        Filling::Word(word) => text.push_str(word),
        Filling::Number(number) => write!(text, "{number}"),
        Filling::Value(value) => push_value(text, *value),
    }
}

/// The word for so many operations.
pub fn ops_word(many: usize) -> &'static str {
    if many == 1 { "op" } else { "ops" }
}
