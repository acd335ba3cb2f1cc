//! What a run is given, beside its traces.

ghost use Rattle.std.specs.Prelude.{◌≡◌};

use crate::site::{SharedSite, Site};
use jepsen_form::MomentField;
use shards::{Auditor, Opening};
use std::alloc::Global;
use tower_file::Tower;

/// What a run lends to its feeders, and how many shards it has.
#[derive_where(Clone, Copy)]
pub struct Setup<'a, 'w, R> {
    pub rt: &'a R,
    pub alloc: Global,
    pub tower: &'w Tower,
    /// Whether moments are read under `:index` or under `:time`.
    pub field: MomentField,
    /// From 1 to 64.
    pub shards: u32,
}

impl<'a, 'w, R> Setup<'a, 'w, R> {
    /// What each of several feeders is lent, given the auditor of the run and its gate.
    pub(crate) fn shared_site<'t, O: Opening, G>(
        self,
        auditor: &'a Auditor<'t, O>,
        gate: &'a G,
    ) -> SharedSite<'a, 'w, 't, O, R, G>
        ensures tower { result.tower.now ≡ self.entry.tower.now }
        ensures field { result.field ≡ self.entry.field }
    {
        SharedSite {
            rt: self.rt,
            alloc: self.alloc,
            auditor,
            gate,
            tower: self.tower,
            field: self.field,
        }
    }

    /// What a lone feeder is lent, given the gate of the run.
    pub(crate) fn site<G>(self, gate: &'a G) -> Site<'a, 'w, R, G>
        ensures tower { result.tower.now ≡ self.entry.tower.now }
        ensures field { result.field ≡ self.entry.field }
    {
        Site {
            rt: self.rt,
            alloc: self.alloc,
            gate,
            tower: self.tower,
            field: self.field,
        }
    }
}
