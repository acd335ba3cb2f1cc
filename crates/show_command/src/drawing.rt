//! The command `show`.

ghost use Rattle.std.specs.Prelude.{◌≡◌, ◌≢◌, ◌<◌, ℕ, List, IfOk, IfErr, IfSome, length, map};
ghost use Rattle.words.specs.Words.{asked_show, asked_tower};
ghost use Rattle.command_parts.specs.Files.{AreHeld};
ghost use Rattle.command_parts.specs.Tower.{OfTower};
ghost use Rattle.show_command.specs.Shown.{IsShown};

use crate::picture::picture;
use command_parts::{
    CommandFault, Files, Job, OpenedRun, judge, open_run, status_after, write_text,
};
use report::laws::a_run_is_of_its_tower;
use std::io::Write;
use std::mem::forget;
use std::sync::Wait;
use std::thread::Threads;
use words::{Picture, Show};

/// Judges the registers of a tower as `check` does, and writes a picture of one of them, or a page of those that fail.
/// The faults come in the order of those of `check`.
pub fn draw<'a, A: AllocGlobal + Threads + Wait + Sync, F: Files, W: Write>(
    rt: &A,
    asked: &Show<'a>,
    files: &mut F,
    out: &mut W,
) -> Result<u8, CommandFault<'a>>
    requires traces { 0 < length asked.now.traces.items }
    ensures shown { IfOk result (λ status. OfTower (asked_tower asked.entry.now.tower) (F.held files.old) (map (λ name. name.now) asked.entry.now.traces.items) (λ file. (traces : List (List ℕ))
        → AreHeld (F.held files.old) (map (λ name. name.now) asked.entry.now.traces.items) traces
        → IsShown (asked_show asked.entry.now) file traces status (W.contents out.old) (W.contents out.new))) }
    ensures quiet { IfErr result (λ fault. fault ≢ CommandFault.Unwritable → out.new ≡ out.old) }
{
    let alloc = rt.alloc();
    let OpenedRun {
        tower,
        register,
        readers,
        pages,
    } = open_run(alloc, files, asked.tower, asked.register, &asked.traces)?;
    a_run_is_of_its_tower();
    let job = Job {
        rt,
        tower: &tower,
        pages: &pages,
        moments: asked.moments,
        shards: 1,
    };
    let judged = match judge(&job, names_lines(asked.picture), readers) {
        Ok(judged) => judged,
        Err(fault) => return Err(CommandFault::of_run(fault)),
    };
    let Ok(status) = status_after(alloc, asked.demand, &tower, &judged.run) else {
        return Err(CommandFault::Memory);
    };
    let Ok(text) = picture(alloc, asked, &tower, &judged, register) else {
        return Err(CommandFault::Memory);
    };
    match write_text(out, text.as_str()) {
        Ok(()) => {
            // As in `check`, the run is not freed.
            forget(judged);
            forget(pages);
            Ok(status)
        }
        Err(_) => Err(CommandFault::Unwritable),
    }
}

/// Whether a picture of this form names the files and the lines of elements. One as SVG is apart from any text.
fn names_lines(picture: Picture) -> bool {
    picture != Picture::Svg
}
