//! What is found of all registers of a run.

ghost use Rattle.std.specs.Prelude.{◌≡◌, length};
ghost use Rattle.report.specs.Culprit.{culprits_of};
ghost use Rattle.report.specs.Doubt.{AreDoubts};
ghost use Rattle.report.specs.Finding.{fails_of};

use crate::doubt::Doubt;
use crate::finding::Finding;
use intervals::RegId;
use logs::Run;
use tower_file::Tower;

/// What is found of a run over the registers of a tower, lent: of each register, by number, what is found of it and
/// whether it fails, the registers to blame, and what is in doubt of each register.
#[derive(Clone, Copy)]
pub struct RunFindings<'f, 't> {
    pub tower: &'t Tower,
    pub run: &'f Run<'t>,
    pub each: &'f [Finding<'t>],
    pub failing: &'f [bool],
    pub culprits: &'f [RegId],
    pub doubts: &'f [Doubt],
    ghost many: { length each.now ≡ length tower.now.registers },
    ghost failing_are: { failing.now ≡ fails_of each.now },
    ghost culprits_are: { culprits.now ≡ culprits_of tower.now each.now },
    ghost doubts_are: { AreDoubts each.now run.now.logs.items doubts.now },
}
