//! What the runs of the commands begin with.

ghost use Rattle.std.specs.Prelude.{◌≡◌, ◌≢◌, ◌≤◌, ◌<◌, ℕ, List, Some, IfOk, IfErr, IfSome, length, map, option_map, vec_len};
ghost use Rattle.tower_file.specs.Tower.{IsTowerOf};
ghost use Rattle.command_parts.specs.Files.{AreHeld};
ghost use Rattle.words.specs.Words.{asked_tower};
ghost use Rattle.command_parts.specs.Tower.{IsNamed, OfTower};

use crate::fault::CommandFault;
use crate::files::{Files, open_files};
use crate::job::TRACE_LIMIT;
use crate::tower::{asked_for, named};
use feeders::Pages;
use intervals::RegId;
use std::alloc::Global;
use std::io::Read;
use tower_file::Tower;
use words::TowerWord;

/// What a run needs: its tower, the register that is asked for by its name, a reader for each trace, and pages.
#[derive(Drop)]
pub struct OpenedRun<S: Read + Drop + Send> {
    pub tower: Tower,
    pub register: Option<RegId>,
    pub readers: Vec<S>,
    pub pages: Pages,
}

/// Reads the tower and opens all traces. The faults come in this order: too many traces, the tower file, or a trace that
/// cannot be read for what it names, the register, a trace that cannot be opened.
pub fn open_run<'a, F: Files>(
    alloc: Global,
    files: &mut F,
    tower: TowerWord<'a>,
    register: Option<&'a str>,
    traces: &[&'a str],
) -> Result<OpenedRun<F::Reader>, CommandFault<'a>>
    ensures tower { IfOk result (λ opened. OfTower (asked_tower tower.entry) (F.held files.old) (map (λ name. name.now) traces.entry.now) (λ file. IsTowerOf file opened.tower)) }
    ensures named { IfOk result (λ opened. IsNamed opened.tower (option_map (λ name. name.now) register.entry) opened.register) }
    ensures within { IfOk result (λ opened. IfSome opened.register (λ id. id.0 < length opened.tower.registers)) }
    ensures held { IfOk result (λ opened. (texts : List (List ℕ)) → AreHeld (F.held files.old) (map (λ name. name.now) traces.entry.now) texts → map F.Reader.remaining opened.readers.items ≡ map (λ text. Some text) texts) }
    ensures many { IfOk result (λ opened. vec_len opened.readers ≡ length traces.entry.now) }
    ensures most { IfOk result (λ opened. vec_len opened.readers ≤ 256) }
    ensures stays { F.held files.new ≡ F.held files.old }
    ensures quiet { IfErr result (λ fault. fault ≢ CommandFault.Unwritable) }
{
    if traces.len() > TRACE_LIMIT {
        return Err(CommandFault::TooManyTraces);
    }
    let tower = asked_for(alloc, files, tower, traces)?;
    let register = named(&tower, register)?;
    let readers = open_files(alloc, files, traces)?;
    let Ok(pages) = Pages::new(alloc) else {
        return Err(CommandFault::Memory);
    };
    Ok(OpenedRun {
        tower,
        register,
        readers,
        pages,
    })
}
