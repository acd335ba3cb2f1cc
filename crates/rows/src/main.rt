//! Goes over rows of data: for each row the program's commands are run, and what they write is compared with what the
//! row says. For a file whose rows are all met a line `ok FILE COUNT` is printed; for a row that is not met standard
//! error has its name and what differs, and the status is 1.
//!
//! The file `subjects` names the files of rows, one a line. The text before the first row of a file is for its readers.
//! A row is its name and its sections:
//!
//! ```text
//! === a read after a write
//! = word safe
//! = input
//! {:process 0 :type :invoke :f :write :value 1 :index 0}
//! {:process 0 :type :ok :f :write :value 1 :index 1}
//! {:process 1 :type :invoke :f :read :index 2}
//! {:process 1 :type :ok :f :read :value 1 :index 3}
//! = out
//! register r safe holds 2
//! = status 0
//! ```
//!
//! `= word WORD` is a word after the program's name; `= file NAME` a file, which is taken before one of the folder, and
//! `= times N` makes the last file N times as long; `= example CODE` the files `tower` and `example` that
//! `regaudit explain CODE` shows; `= input` standard input, and `= inputs` several, one a line, with a run for each;
//! `= out` and `= err` what the two outputs have to get; `= room N` an output that takes only N bytes, which is 65536
//! otherwise. What is left out is empty. `= status N` is the last section, since no line after it is of a text. `%` and
//! two hexadecimal digits are a byte, and a `%` at the end of a text takes its last line end away.
//!
//! Each run is made with texts that come whole and with texts that come byte by byte, and, where the row has a line
//! `= cut`, with texts that are cut in two, at each place in turn: what is written has to be equal. Where the row has a
//! line `= filled`, there is a run for each output that takes fewer bytes than the text, from none on: it has to take
//! what it can, and the run has to report that it cannot write.
//!
//! Where a row has a line `= names PREFIX`, what it prints has to name each command and each option of the manual, the
//! options with PREFIX in place of their two hyphens; with `= page NAME`, a file of the folder has to, in place of what
//! is printed. The row's `= out` is what is missing, a line each.
//!
//! Where a row ends with a line `= front`, or with `= byte BYTES`, its `= out` is a picture of the last file, cut off
//! at each place or with each byte replaced by each of these: a letter for each place (`spoilt.rt`).
#![tactic(auto)]

mod complete;
mod outcome;
mod row_files;
mod spoilt;

use crate::complete::missing;
use crate::outcome::carried_out;
use crate::spoilt::picture;
use commands::words_of;
use row_data::{Cut, Row, row_of};
use std::io::Write;
use std::process::ExitCode;
use std::rt::{Env, Files};
use std::sync::Wait;
use std::thread::Threads;
use std::{fs, io};

fn main(rt: HostRuntime) -> ExitCode {
    match is_all_as_said(&rt, &mut rt.stderr()) {
        Ok(true) => ExitCode::SUCCESS,
        Ok(false) => ExitCode::FAILURE,
        Err(error) => {
            let _ = eprintln!(rt; "rows: {error}");
            ExitCode::FAILURE
        }
    }
}

/// Prints the words that were handed over and goes over the rows of each subject. Returns whether all rows are met.
fn is_all_as_said<R: Env + Files + Print + AllocGlobal + Threads + Wait + Sync, E: Write>(
    rt: &R,
    err: &mut E,
) -> io::Result<bool>
where
    R::File: Send,
{
    for word in words_of(rt)?.iter().skip(1) {
        println!(rt; "word [{word}]")?;
    }
    let mut same = true;
    for subject in fs::read_to_string(rt, "subjects")?.lines() {
        same = is_subject_as_said(rt, subject, err)? && same;
    }
    Ok(same)
}

/// Goes over the rows of a file. The text before the first one is for readers.
fn is_subject_as_said<R: Files + Print + AllocGlobal + Threads + Wait + Sync, E: Write>(
    rt: &R,
    subject: &str,
    err: &mut E,
) -> io::Result<bool>
where
    R::File: Send,
{
    let text = fs::read_to_string(rt, subject)?;
    let mut same = true;
    let mut count: u64 = 0;
    for text in text.split("\n=== ").skip(1) {
        same = is_text_as_said(rt, subject, text, err)? && same;
        count = count.saturating_add(1);
    }
    if same {
        println!(rt; "ok {subject} {count}")?;
    }
    Ok(same)
}

/// Whether the row of this text, in that file, is met.
fn is_text_as_said<R: Files + AllocGlobal + Threads + Wait + Sync, E: Write>(
    rt: &R,
    subject: &str,
    text: &str,
    err: &mut E,
) -> io::Result<bool>
where
    R::File: Send,
{
    match row_of(rt.alloc(), text) {
        Ok(mut row) => is_row_as_said(rt, &mut row, err),
        Err(error) => {
            write!(err, "{subject}: {error} in the row {text}\n")?;
            Ok(false)
        }
    }
}

fn is_row_as_said<R: Files + AllocGlobal + Threads + Wait + Sync, E: Write>(
    rt: &R,
    row: &mut Row,
    err: &mut E,
) -> io::Result<bool>
where
    R::File: Send,
{
    if !row.spoils.is_empty() {
        let found = picture(rt, row)?;
        return is_same(row, "picture", &row.out, &found, err);
    }
    if let Some(prefix) = &row.prefix {
        let text = text_of(rt, row)?;
        return is_same(row, "names", &row.out, &missing(rt, &text, prefix)?, err);
    }
    for input in &row.inputs {
        if !is_input_as_said(rt, row, input, err)? {
            return Ok(false);
        }
    }
    Ok(true)
}

/// The text that has to name each command and option: a file of the folder, or what the run prints.
fn text_of<R: Files + AllocGlobal + Threads + Wait + Sync>(rt: &R, row: &Row) -> io::Result<Vec<u8>>
where
    R::File: Send,
{
    match &row.page {
        Some(page) => fs::read(rt, page.as_str()),
        None => Ok(carried_out(rt, row, &[], Cut::WHOLE, row.room)?.out),
    }
}

/// Makes a run of texts that come whole and one of texts that come byte by byte; for a row that is cut, one for each
/// place; and for a row that is filled, one for each number of bytes that its output may take.
fn is_input_as_said<R: Files + AllocGlobal + Threads + Wait + Sync, E: Write>(
    rt: &R,
    row: &Row,
    input: &[u8],
    err: &mut E,
) -> io::Result<bool>
where
    R::File: Send,
{
    let mut same = is_run_as_said(rt, row, input, Cut::WHOLE, err)?
        && is_run_as_said(rt, row, input, Cut::BYTES, err)?;
    if row.is_cut {
        for place in 1..row.longest(input) {
            same = same && is_run_as_said(rt, row, input, Cut::at(place), err)?;
        }
    }
    if row.is_filled {
        for room in 0..row.out.len() {
            same = same && is_filling_as_said(rt, row, input, room, err)?;
        }
    }
    Ok(same)
}

fn is_run_as_said<R: Files + AllocGlobal + Threads + Wait + Sync, E: Write>(
    rt: &R,
    row: &Row,
    input: &[u8],
    cut: Cut,
    err: &mut E,
) -> io::Result<bool>
where
    R::File: Send,
{
    let written = carried_out(rt, row, input, cut, row.room)?;
    let out_is = is_same(row, "out", &row.out, &written.out, err)?;
    let err_is = is_same(row, "err", &row.err, &written.err, err)?;
    let status_is = is_same(row, "status", &row.status, &written.status, err)?;
    Ok(out_is && err_is && status_is)
}

/// An output that is too small has to take what it can, and the run has to report that.
fn is_filling_as_said<R: Files + AllocGlobal + Threads + Wait + Sync, E: Write>(
    rt: &R,
    row: &Row,
    input: &[u8],
    room: usize,
    err: &mut E,
) -> io::Result<bool>
where
    R::File: Send,
{
    let written = carried_out(rt, row, input, Cut::WHOLE, room)?;
    let front = row.out.get(..room).unwrap_or(&[]);
    let out_is = is_same(row, "filled out", front, &written.out, err)?;
    let err_is = is_same(row, "err", b"regaudit: cannot write\n", &written.err, err)?;
    let status_is = is_same(row, "status", b"2", &written.status, err)?;
    Ok(out_is && err_is && status_is)
}

fn is_same<E: Write>(
    row: &Row,
    what: &str,
    expected: &[u8],
    found: &[u8],
    err: &mut E,
) -> io::Result<bool> {
    if expected == found {
        return Ok(true);
    }
    write!(err, "{}: {what} is to be\n", row.name)?;
    err.write_all(expected)?;
    err.write_all(b"and is\n")?;
    err.write_all(found)?;
    Ok(false)
}
