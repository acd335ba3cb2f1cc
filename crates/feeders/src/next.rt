//! The next element of a chunk, and its item where one pass over its bytes gives both.

ghost use Rattle.std.specs.Prelude.{◌≡◌, ◌≤◌, ◌<◌, ◌+◌, ◌-◌, ◌^◌, length, take, drop, Ok, Err, IfErr, IfOk, IfSome};
ghost use Rattle.edn_reader.specs.Splitting.{TakesOn};
ghost use Rattle.feeders.specs.Pending.{IsItemOfLast};

use edn_reader::{EdnFault, Splitter, Taken};
use jepsen_form::{Item, MomentField, RefusedForm, read_first};
use tower_file::Tower;

/// How much of a chunk was taken, and the item of the element that ended, where it was read on the way.
#[derive(Drop)]
pub struct Next<'p> {
    pub taken: Taken,
    pub item: Option<Result<Item<'p>, RefusedForm>>,
}

/// Takes a chunk up to the end of the next element, or else to its own end, as the splitter does. Where no element
/// has begun and the chunk begins with one of the usual form, the element and its item are read in one pass; the
/// splitter takes all others.
pub fn take_element<'p>(
    splitter: &mut Splitter,
    piece: &'p [u8],
    field: MomentField,
    tower: &Tower,
) -> Result<Next<'p>, EdnFault>
    requires { splitter.old.taken + length piece.now < 2 ^ 64 }
    ensures takes { IfOk result (λ next. TakesOn piece.entry.now splitter.old (Ok next.taken) splitter.new) }
    ensures counted { IfOk result (λ next. (next.taken.used ≤ length piece.entry.now) × (splitter.new.taken ≡ splitter.old.taken + next.taken.used)) }
    ensures after { IfOk result (λ next. IfSome next.item (λ item. splitter.old.taken ≤ splitter.new.ended.start)) }
    ensures item { IfOk result (λ next. IsItemOfLast tower.now field splitter.new (drop (splitter.new.ended.start - splitter.old.taken) (take next.taken.used piece.entry.now)) next.item) }
    ensures fault { IfErr result (λ fault. TakesOn piece.entry.now splitter.old (Err fault) splitter.new) }
{
    if splitter.is_between_elements() {
        let place = splitter.taken() as usize;
        if let Some((element, item)) = read_first(piece, place, field, tower) {
            return Ok(Next {
                taken: splitter.take_known(&element),
                item: Some(item),
            });
        }
    }
    match splitter.take(piece) {
        Ok(taken) => Ok(Next { taken, item: None }),
        Err(fault) => Err(fault),
    }
}
