//! The items of a tree: reads that have an end, and covers.

ghost use Rattle.std.specs.Prelude.{◌≡◌};
ghost use Rattle.intervals.specs.OrderedIndex.{same_spot};
ghost use Rattle.read_tree.specs.Items.{spot_of_item, cover_of};
ghost use Rattle.read_tree.specs.Order.{spot_before};

use intervals::{Moment, OpId, Spot, Value};
use std::cmp::Ordering;
use summary_tree::Keyed;

/// A read, or a cover. It is in the row of its value where it is by value, else in the one row that there is.
#[derive(Clone, Copy)]
pub struct RowItem {
    /// The value that was read; of a cover, the value of the reads that it is for.
    pub value: Value,
    /// When the read ended; of a cover, the moment from which it covers.
    pub moment: Moment,
    /// Of a read a number that is greater the later it began; of a cover the greatest such number that it covers.
    pub reach: u64,
    pub id: OpId,
    pub covers: bool,
    pub by_value: bool,
}

/// What a cover covers, without its spot.
#[derive(Clone, Copy)]
pub struct Cover {
    pub value: Value,
    pub reach: u64,
    pub by_value: bool,
}

impl RowItem {
    /// The row and the moment of the item. The one row is that of nil.
    pub fn spot(&self) -> Spot
        ensures { result ≡ spot_of_item self.now }
    {
        let value = if self.by_value {
            self.value
        } else {
            Value::Nil
        };
        Spot {
            value,
            moment: self.moment,
        }
    }

    /// The item as a cover, without its spot and its id.
    pub fn cover(&self) -> Cover
        ensures { result ≡ cover_of self.now }
    {
        Cover {
            value: self.value,
            reach: self.reach,
            by_value: self.by_value,
        }
    }
}

impl Keyed for RowItem {
    type Key = Spot;

    ghost key = { spot_of_item };

    ghost comes_before = { spot_before };

    ghost same = { same_spot };

    fn spare() -> Self {
        RowItem {
            value: Value::Nil,
            moment: Moment(0),
            reach: 0,
            id: OpId {
                feeder: 0,
                event: 0,
            },
            covers: false,
            by_value: false,
        }
    }

    #[inline(always)]
    fn key(&self) -> Spot {
        self.spot()
    }

    /// A `Spot` compares with the latest first, so the two change places.
    #[inline(always)]
    fn comes_before(a: Spot, b: Spot) -> bool {
        match b.cmp(&a) {
            Ordering::Less => true,
            _ => false,
        }
    }

    #[inline(always)]
    fn keys_are_in_one_order() {}
}
