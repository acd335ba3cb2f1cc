//! The iterator over the zones of a tree.

ghost use Rattle.std.specs.Prelude.{◌≡◌};
ghost use Rattle.std.specs.Iterator.{YieldsFirst, item_count};
ghost use Rattle.zone_tree.specs.Order.{StandInOrder};

use crate::look::{Tree, first_after};
use crate::{Edge, Zone};
use std::marker::Model;
use summary_tree::Subtree;

/// The zones of a tree that are still to come, by left edge: those after the last one that came.
#[derive(Drop)]
pub struct Zones<'z> {
    tree: &'z Tree,
    after: Option<Edge>,
}

impl<'z> Model for Zones<'z> {
    ghost use Rattle.std.specs.Prelude.{List};
    ghost use Rattle.zone_tree.specs.declared.zone.Zone.{Zone};

    ghost Value = { List Zone };

    ghost use Rattle.zone_tree.specs.Order.{StandInOrder};
    ghost use Rattle.zone_tree.specs.Look.{zones_after};

    ghost view = { λ z. zones_after z.after z.tree.now.items };

    ghost invariant = { λ z. StandInOrder z.tree.now.items };
}

impl<'z> Zones<'z> {
    #[tactic(auto, using(crate::proofs::Items::all_following))]
    pub(crate) fn over(tree: &'z Tree) -> Self
        requires { StandInOrder tree.now.items }
        ensures { result ≡ tree.now.items }
    {
        Zones { tree, after: None }
    }
}

impl<'z> Iterator for Zones<'z> {
    type Item = Zone;

    ghost next_gives = { YieldsFirst (λ s. s) };

    ghost remaining = { item_count (λ s. s) };

    #[tactic(auto, using(crate::proofs::Items::next_item, crate::proofs::Items::no_item))]
    fn next(&mut self) -> Option<Zone> {
        let Some(first) = first_after(Subtree { tree: self.tree }, self.after) else {
            return None;
        };
        self.after = Some(first.left);
        Some(first)
    }
}
