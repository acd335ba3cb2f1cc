//! A picture of what the program says of a file that is cut off or spoilt at each of its places.

use crate::outcome::carried_out;
use row_data::{Cut, Named, Row, Spoil};
use std::alloc::{AllocError, Global};
use std::io;
use std::io::{Error, ErrorKind};
use std::rt::Files;
use std::sync::Wait;
use std::thread::Threads;

/// For each way to spoil the last file, a line that names it, and a letter for each place of the file, with the line
/// ends of the file.
pub fn picture<R: Files + AllocGlobal + Threads + Wait + Sync>(
    rt: &R,
    row: &mut Row,
) -> io::Result<Vec<u8>>
where
    R::File: Send,
{
    let mut picture = Vec::new(rt.alloc());
    let Some(text) = row.files.pop() else {
        return Err(Error::from(ErrorKind::InvalidData));
    };
    let whole = told_of(rt, row, &text.name, text.bytes.clone()?)?;
    for number in 0..row.spoils.len() {
        if let Some(spoil) = row.spoils.get(number).copied() {
            head(spoil, &mut picture)?;
            draw(rt, row, &text, &whole, spoil, &mut picture)?;
        }
    }
    Ok(picture)
}

fn head(spoil: Spoil, picture: &mut Vec<u8>) -> Result<(), AllocError> {
    match spoil {
        Spoil::Front => picture.extend_from_slice(b"front")?,
        Spoil::Byte(byte) => picture.push(byte)?,
    }
    picture.push(b'\n')?;
    Ok(())
}

fn draw<R: Files + AllocGlobal + Threads + Wait + Sync>(
    rt: &R,
    row: &mut Row,
    text: &Named,
    whole: &str,
    spoil: Spoil,
    picture: &mut Vec<u8>,
) -> io::Result<()>
where
    R::File: Send,
{
    for (place, byte) in text.bytes.iter().enumerate() {
        let bytes = spoilt(rt.alloc(), &text.bytes, place, spoil)?;
        let found = told_of(rt, row, &text.name, bytes)?;
        picture.extend_from_slice(letter(whole, &found, place).as_bytes())?;
        if *byte == b'\n' {
            picture.push(b'\n')?;
        }
    }
    Ok(())
}

fn spoilt(alloc: Global, text: &[u8], place: usize, spoil: Spoil) -> Result<Vec<u8>, AllocError> {
    let mut bytes = text.to_vec(alloc)?;
    match spoil {
        Spoil::Front => bytes.truncate(place),
        Spoil::Byte(byte) => {
            if let Some(old) = bytes.get_mut(place) {
                *old = byte;
            }
        }
    }
    Ok(bytes)
}

/// The two outputs and the status of a run with one more file.
fn told_of<R: Files + AllocGlobal + Threads + Wait + Sync>(
    rt: &R,
    row: &mut Row,
    name: &[u8],
    bytes: Vec<u8>,
) -> io::Result<String>
where
    R::File: Send,
{
    let name = name.to_vec(rt.alloc())?;
    row.files.push(Named { name, bytes })?;
    let mut written = carried_out(rt, row, &[], Cut::WHOLE, row.room)?;
    let _ = row.files.pop();
    written.out.extend_from_slice(&written.err)?;
    written.out.extend_from_slice(&written.status)?;
    match String::from_utf8(written.out) {
        Ok(told) => Ok(told),
        Err(_) => Err(Error::from(ErrorKind::InvalidData)),
    }
}

/// A point where the run writes what it writes of the whole file; where the text has a fault, the number of its code if
/// it is at the place itself, else a letter, `a` for the first code; `r` where an element is refused; else `o`.
fn letter(whole: &str, found: &str, place: usize) -> &'static str {
    if found == whole {
        return ".";
    }
    match found.split_once("\nbroken 0 E") {
        Some((_, fault)) => of_fault(fault, place),
        None if found.contains("\nrefused 0:") => "r",
        None => "o",
    }
}

fn of_fault(fault: &str, place: usize) -> &'static str {
    let (code, rest) = fault.split_once(" at ").unwrap_or((fault, ""));
    let (at, _) = rest.split_once("\n").unwrap_or((rest, ""));
    let is_here = at.parse::<usize>().unwrap_or(usize::MAX) == place;
    match (code, is_here) {
        ("1", true) => "1",
        ("2", true) => "2",
        ("3", true) => "3",
        ("4", true) => "4",
        ("5", true) => "5",
        ("6", true) => "6",
        ("1", false) => "a",
        ("2", false) => "b",
        ("3", false) => "c",
        ("4", false) => "d",
        ("5", false) => "e",
        ("6", false) => "f",
        _ => "o",
    }
}
