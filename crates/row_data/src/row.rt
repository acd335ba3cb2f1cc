//! A row: what a run is given, and what it has to write.

use percent_encoding::percent_decode;
use std::alloc::{AllocError, Global};
use std::io;
use std::io::{Error, ErrorKind};
use texts::explanation_of;

/// A row of a file: a run for each input.
#[derive(Drop)]
pub struct Row {
    pub name: String,
    pub words: Vec<Vec<u8>>,
    pub inputs: Vec<Vec<u8>>,
    pub files: Vec<Named>,
    pub out: Vec<u8>,
    pub err: Vec<u8>,
    pub status: Vec<u8>,
    /// How many bytes the output takes.
    pub room: usize,
    /// Whether its texts are also cut in two, at each place in turn.
    pub is_cut: bool,
    /// Whether its output is also too small, by each number of bytes in turn.
    pub is_filled: bool,
    /// What options begin with in what is printed, which has to name each command and option of the manual.
    pub prefix: Option<String>,
    /// The file of the folder that is looked at in place of what is printed.
    pub page: Option<String>,
    /// How its last file is spoilt.
    pub spoils: Vec<Spoil>,
}

/// A file is cut off at each place, or each of its bytes is replaced by this one.
#[derive(Clone, Copy)]
pub enum Spoil {
    Front,
    Byte(u8),
}

#[derive(Drop)]
pub struct Named {
    pub name: Vec<u8>,
    pub bytes: Vec<u8>,
}

/// The row of a text: the name, and then the sections.
pub fn row_of(alloc: Global, text: &str) -> io::Result<Row> {
    let mut sections = text.split("\n= ");
    let mut row = Row {
        name: String::from_str(alloc, sections.next().unwrap_or(""))?,
        words: Vec::new(alloc),
        inputs: Vec::new(alloc),
        files: Vec::new(alloc),
        out: Vec::new(alloc),
        err: Vec::new(alloc),
        status: Vec::new(alloc),
        room: 65_536,
        is_cut: false,
        is_filled: false,
        prefix: None,
        page: None,
        spoils: Vec::new(alloc),
    };
    row.words.push(decoded(alloc, "regaudit")?)?;
    for section in sections {
        take_section(alloc, &mut row, section)?;
    }
    if row.inputs.is_empty() {
        row.inputs.push(Vec::new(alloc))?;
    }
    Ok(row)
}

fn take_section(alloc: Global, row: &mut Row, section: &str) -> io::Result<()> {
    let (head, body) = section.split_once("\n").unwrap_or((section, "%"));
    match head.split_once(" ").unwrap_or((head, "")) {
        ("word", word) => row.words.push(decoded(alloc, word)?)?,
        ("file", name) => row.files.push(Named {
            name: decoded(alloc, name)?,
            bytes: text_of(alloc, body)?,
        })?,
        ("example", code) => take_example(alloc, &mut row.files, code)?,
        ("input", _) => row.inputs.push(text_of(alloc, body)?)?,
        ("inputs", _) => take_inputs(alloc, row, body)?,
        ("out", _) => row.out = text_of(alloc, body)?,
        ("err", _) => row.err = text_of(alloc, body)?,
        ("status", number) => row.status = decoded(alloc, number)?,
        ("room", number) => row.room = number.parse().unwrap_or(0),
        ("times", number) => lengthen(alloc, &mut row.files, number.parse().unwrap_or(0))?,
        ("cut", _) => row.is_cut = true,
        ("filled", _) => row.is_filled = true,
        ("names", prefix) => row.prefix = Some(String::from_str(alloc, prefix)?),
        ("page", name) => row.page = Some(String::from_str(alloc, name)?),
        ("front", _) => row.spoils.push(Spoil::Front)?,
        ("byte", byte) => {
            for byte in decoded(alloc, byte)? {
                row.spoils.push(Spoil::Byte(byte))?;
            }
        }
        _ => return Err(Error::from(ErrorKind::InvalidData)),
    }
    Ok(())
}

/// The two files that `regaudit explain` shows of a code: `tower` and `example`.
fn take_example(alloc: Global, files: &mut Vec<Named>, code: &str) -> io::Result<()> {
    let Some(entry) = explanation_of(code) else {
        return Err(Error::from(ErrorKind::InvalidData));
    };
    files.push(example_file(alloc, "tower", entry.tower)?)?;
    files.push(example_file(alloc, "example", entry.example)?)?;
    Ok(())
}

fn example_file(alloc: Global, name: &str, text: &str) -> Result<Named, AllocError> {
    Ok(Named {
        name: name.as_bytes().to_vec(alloc)?,
        bytes: text.as_bytes().to_vec(alloc)?,
    })
}

/// Makes the last file so many times as long.
fn lengthen(alloc: Global, files: &mut Vec<Named>, times: u32) -> Result<(), AllocError> {
    let mut text = Vec::new(alloc);
    if let Some(file) = files.last_mut() {
        for _ in 0..times {
            text.extend_from_slice(&file.bytes)?;
        }
        file.bytes = text;
    }
    Ok(())
}

/// Takes each line as an input.
fn take_inputs(alloc: Global, row: &mut Row, body: &str) -> io::Result<()> {
    for line in body.lines() {
        row.inputs.push(decoded(alloc, line)?)?;
    }
    Ok(())
}

/// The lines of a section; the last one has no line end where there is a `%` at its end.
fn text_of(alloc: Global, body: &str) -> io::Result<Vec<u8>> {
    if let Some(open) = body.strip_suffix("%") {
        return Ok(decoded(alloc, open)?);
    }
    let mut text = decoded(alloc, body)?;
    text.push(b'\n')?;
    Ok(text)
}

/// The bytes of a text, where `%` and two hexadecimal digits are a byte.
fn decoded(alloc: Global, text: &str) -> Result<Vec<u8>, AllocError> {
    let mut bytes = Vec::new(alloc);
    percent_decode(text.as_bytes()).append_to(&mut bytes)?;
    Ok(bytes)
}

impl Row {
    /// The length of the longest of its files and an input.
    pub fn longest(&self, input: &[u8]) -> usize {
        let mut longest = input.len();
        for file in &self.files {
            longest = longest.max(file.bytes.len());
        }
        longest
    }

    /// The words, as the system hands them over.
    pub fn handed_over(&self, alloc: Global) -> io::Result<Vec<String>> {
        let mut words = Vec::new(alloc);
        for word in &self.words {
            match String::from_utf8(word.clone()?) {
                Ok(word) => words.push(word)?,
                Err(_) => return Err(Error::from(ErrorKind::InvalidData)),
            }
        }
        Ok(words)
    }
}
