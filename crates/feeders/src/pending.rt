//! The element that ended last, until its step is carried out.

ghost use Rattle.std.specs.Prelude.{◌≡◌, ◌<◌, ◌+◌, ◌^◌, Result, IfOk, OnErr, false, length};
ghost use Rattle.edn_reader.specs.Grammar.{ElementModel as APiece, IsElement};
ghost use Rattle.edn_reader.specs.Lent.{piece_of};
ghost use Rattle.edn_reader.specs.Splitting.{IsLast};
ghost use Rattle.jepsen_form.specs.Item.{IsItem, answer_with};
ghost use Rattle.feeders.specs.Lending.{LendsNone, is_lent};
ghost use Rattle.feeders.specs.Pending.{IsItemOfLast, IsPageOf, IsReadAs};
ghost use Rattle.feeders.specs.Progress.{IsAhead};

use crate::pages::Pages;
use crate::progress::Progress;
use crate::site::Site;
use crate::watcher::Watcher;
use edn_reader::{Element, Splitter};
use intervals::{Edit, Memory};
use jepsen_form::laws::one_item;
use jepsen_form::{Item, RefusedForm, Stage, read_item};
use logs::LeftOut;
use pairing::Step;
use std::sync::Wait;

/// What a feeder has of the element that ended last, as long as its step is not carried out.
#[derive(Clone, Copy)]
pub enum Pending<'t> {
    Nothing,
    /// It ended, and its bytes are kept from this place on.
    Whole(usize),
    /// It was read, and its text is on a page.
    Lent(Result<Item<'t>, RefusedForm>),
    /// It was paired: its step, or why it is refused.
    Paired(Result<Option<Step<'t>>, LeftOut>),
}

/// What is known already of an element that has ended: its text, where that is on a page, and its item, where that was
/// read.
#[derive(Clone, Copy)]
pub struct Known<'p, 't> {
    pub page: Option<&'t [u8]>,
    pub item: Option<Result<Item<'p>, RefusedForm>>,
}

/// Reads an element whose text is on no page, and holds its item.
pub fn read_pending<'t, R: Wait, G: Watcher>(
    site: Site<'_, '_, R, G>,
    pages: &'t Pages,
    progress: &mut Progress<'t>,
    element: Element,
) -> Result<Pending<'t>, Memory>
    requires ahead { IsAhead progress.old }
    ensures read { IfOk result (IsReadAs site.entry.tower.now site.entry.field (piece_of element.entry) progress.old progress.new) }
    ensures kept { OnErr result (progress.new ≡ progress.old) }
{
    let item = read_item(element, site.field, site.tower);
    hold_item(site, pages, progress, item, element.text(), None)
}

/// Holds the item of the element that ended last, which has this text. Where the item was not read yet, it is read
/// here.
pub fn hold_last<'t, 'p, R: Wait, G: Watcher>(
    site: Site<'_, '_, R, G>,
    pages: &'t Pages,
    progress: &mut Progress<'t>,
    splitter: &Splitter,
    text: &'p [u8],
    known: Known<'p, 't>,
) -> Result<Pending<'t>, Memory>
    requires ahead { IsAhead progress.old }
    requires fits { splitter.now.ended.start + length text.now < 2 ^ 64 }
    requires element { (piece : APiece) × IsLast splitter.now piece × IsElement piece × (piece.text ≡ text.now) }
    requires page { IsPageOf known.page text.now }
    requires item { IsItemOfLast site.tower.now site.field splitter.now text.now known.item }
    ensures read { (last : APiece) → IsLast splitter.now last → last.text ≡ text.entry.now
        → IfOk result (IsReadAs site.entry.tower.now site.entry.field last progress.old progress.new) }
    ensures kept { OnErr result (progress.new ≡ progress.old) }
{
    match known.item {
        Some(item) => hold_item(site, pages, progress, item, text, known.page),
        None => {
            let item = read_item(splitter.lend(text), site.field, site.tower);
            hold_item(site, pages, progress, item, text, known.page)
        }
    }
}

/// Holds the item of an element with this text, which is lent from `page` where that is given. Else the text is
/// put on a page of its own if its step lends it; if not, the element is paired at once, since its item cannot
/// outlive the text.
pub fn hold_item<'t, R: Wait, G: Watcher>(
    site: Site<'_, '_, R, G>,
    pages: &'t Pages,
    progress: &mut Progress<'t>,
    item: Result<Item, RefusedForm>,
    text: &[u8],
    page: Option<&'t [u8]>,
) -> Result<Pending<'t>, Memory>
    requires ahead { IsAhead progress.old }
    requires page { IsPageOf page text.now }
    ensures read { (piece : APiece) → piece.text ≡ text.now → IsItem site.entry.tower.now site.entry.field piece item.entry
        → IfOk result (IsReadAs site.entry.tower.now site.entry.field piece progress.old progress.new) }
    ensures kept { OnErr result (progress.new ≡ progress.old) }
{
    one_item();
    if let Some(page) = page {
        return Ok(Pending::Lent(from_page(item, page)));
    }
    if is_lent(&item) {
        let page = pages.push(site.rt, site.alloc, text)?;
        return Ok(Pending::Lent(from_page(item, page)));
    }
    let step = progress.pair(item)?;
    Ok(Pending::Paired(unlent(step)))
}

/// The same answer, whose item lends its text from a page.
fn from_page<'t>(item: Result<Item, RefusedForm>, page: &'t [u8]) -> Result<Item<'t>, RefusedForm>
    ensures { result ≡ answer_with page.entry item.entry }
{
    match item {
        Ok(item) => Ok(item.with_text(page)),
        Err(fault) => Err(fault),
    }
}

/// Whether the step of an item may lend its text; false for a fault of the form.
fn is_lent(item: &Result<Item, RefusedForm>) -> bool
    ensures { result ≡ is_lent item.now }
{
    match item {
        Ok(Item::Event(event)) => match event.answer {
            Stage::Invoke | Stage::Ok => true,
            Stage::Fail | Stage::Info => false,
        },
        Ok(Item::Amend { .. }) => true,
        Ok(Item::Withdraw { .. } | Item::Claim(..) | Item::Ask(_) | Item::Skipped) | Err(_) =>
            false,
    }
}

/// The step, which lends no text, with any lifetime.
fn unlent<'t>(step: Result<Option<Step>, LeftOut>) -> Result<Option<Step<'t>>, LeftOut>
    ensures { LendsNone step.entry → result ≡ step.entry }
{
    match step {
        Ok(Some(Step::Edit(register, Edit::Withdraw(id)))) => {
            Ok(Some(Step::Edit(register, Edit::Withdraw(id))))
        }
        Ok(Some(Step::Edit(register, Edit::Claim(kind)))) => {
            Ok(Some(Step::Edit(register, Edit::Claim(kind))))
        }
        Ok(Some(Step::Ask(register))) => Ok(Some(Step::Ask(register))),
        Ok(_) => Ok(None),
        Err(left_out) => Err(left_out),
    }
}
