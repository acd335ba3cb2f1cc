//! What feeders are lent for a whole run.

ghost use Rattle.std.specs.Prelude.{◌≡◌};

use jepsen_form::MomentField;
use shards::{Auditor, Opening};
use std::alloc::Global;
use tower_file::Tower;

/// How the elements of a trace are read, and who is told what comes of them.
#[derive_where(Clone, Copy)]
pub struct Site<'a, 'w, R, G> {
    pub rt: &'a R,
    pub alloc: Global,
    pub gate: &'a G,
    pub tower: &'w Tower,
    pub field: MomentField,
}

/// What each of several feeders is lent: a site, and the auditor that their steps go to.
#[derive_where(Clone, Copy)]
pub struct SharedSite<'a, 'w, 't, O: Opening, R, G> {
    pub rt: &'a R,
    pub alloc: Global,
    pub auditor: &'a Auditor<'t, O>,
    pub gate: &'a G,
    pub tower: &'w Tower,
    pub field: MomentField,
}

impl<'a, 'w, 't, O: Opening, R, G> SharedSite<'a, 'w, 't, O, R, G> {
    /// The site of one of the feeders.
    pub fn site(self) -> Site<'a, 'w, R, G>
        ensures tower { result.tower.now ≡ self.entry.tower.now }
        ensures field { result.field ≡ self.entry.field }
    {
        Site {
            rt: self.rt,
            alloc: self.alloc,
            gate: self.gate,
            tower: self.tower,
            field: self.field,
        }
    }
}
