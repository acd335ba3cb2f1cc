//! What a CI server is told of a run.

ghost use Rattle.std.specs.Prelude.{◌≡◌, length};
ghost use Rattle.report.specs.Finding.{fails_of};

use logs::Log;
use places::Places;
use report::{Doubt, Finding, Least};
use tower_file::Tower;

/// The CI server that reads what is written.
#[derive(Clone, Copy)]
pub enum CiServer {
    /// GitHub, by the workflow commands that annotate files.
    GitHub,
    /// A server that reads the XML of JUnit.
    Junit,
}

/// How a run is written for a CI server, and what is said beside what is found.
#[derive(Clone, Copy)]
pub struct CiForm<'a> {
    pub server: CiServer,
    /// The traces, by their names.
    pub traces: &'a [&'a str],
    /// How many operations have to stand, at least.
    pub least: Least,
}

/// What a CI server is told of a run, lent: of each register, by number, what is found of it, whether it fails, and what is
/// in doubt of it; the logs, and where elements are.
#[derive(Clone, Copy)]
pub struct CiRun<'f, 't> {
    pub form: &'f CiForm<'f>,
    pub tower: &'f Tower,
    pub each: &'f [Finding<'t>],
    pub failing: &'f [bool],
    pub doubts: &'f [Doubt],
    pub logs: &'f [Log<'t>],
    pub places: &'f Places<'f>,
    ghost many: { length each.now ≡ length tower.now.registers },
    ghost failing_are: { failing.now ≡ fails_of each.now },
}
