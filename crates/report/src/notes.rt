//! The lines of the traces: refusals, answers, and where one broke.

ghost use Rattle.std.specs.Prelude.{◌≡◌, ◌++◌, OnOk, string_bytes};
ghost use Rattle.report.specs.Notes.{broken_line, log_text, logs_text, note_line};

use logs::{Broken, Line, Log, What};
use phrases::{name_of, push_printed, verdict_word};
use std::alloc::AllocError;
use tower_file::Tower;

/// The lines of all logs, by feeder.
pub fn push_logs(text: &mut String, tower: &Tower, logs: &[Log]) -> Result<(), AllocError>
    ensures { OnOk result (string_bytes text.new ≡ string_bytes text.old ++ logs_text tower.now.registers 0 logs.now) }
{
    for feeder in 0..logs.len() {
        push_log(text, tower, feeder, &logs[feeder])?;
    }
    Ok(())
}

fn push_log(text: &mut String, tower: &Tower, feeder: usize, log: &Log) -> Result<(), AllocError>
    ensures { OnOk result (string_bytes text.new ≡ string_bytes text.old ++ log_text tower.now.registers feeder log.now) }
{
    for line in &log.lines {
        push_line(text, tower, feeder, line)?;
    }
    push_broken(text, feeder, log.broken)
}

fn push_line(text: &mut String, tower: &Tower, feeder: usize, line: &Line) -> Result<(), AllocError>
    ensures { OnOk result (string_bytes text.new ≡ string_bytes text.old ++ note_line tower.now.registers feeder line.now) }
{
    match &line.what {
        What::Refused(left_out) => {
            write!(text, "refused {feeder}:{} ", line.event)?;
            text.push_str(left_out.code.code())?;
            text.push_str("\n")
        }
        What::Answered(register, answer) => {
            write!(text, "answer {feeder}:{} ", line.event)?;
            push_printed(text, name_of(tower, *register))?;
            text.push_str(" ")?;
            text.push_str(verdict_word(answer.holds))?;
            write!(text, " {}\n", answer.operations)
        }
    }
}

/// The line that says where a trace broke, where it did.
pub fn push_broken(
    text: &mut String,
    feeder: usize,
    broken: Option<Broken>,
) -> Result<(), AllocError>
    ensures { OnOk result (string_bytes text.new ≡ string_bytes text.old ++ broken_line feeder broken) }
{
    let Some(broken) = broken else {
        return Ok(());
    };
    write!(text, "broken {feeder} ")?;
    text.push_str(broken.code.code())?;
    write!(text, " at {}\n", broken.place)
}
