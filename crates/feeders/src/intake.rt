//! What was taken of a trace that comes in chunks.

ghost use Rattle.std.specs.Prelude.{◌≡◌, ◌+◌, ◌≤◌, ◌<◌, ◌^◌, ◌++◌, ◌∷◌, ◌-◌, [], ℕ, List, Result, length, take, drop, vec_len, vec_capacity, None, Ok, true, IfErr, IfOk, IfSome, OnErr, OnOk};
ghost use Rattle.std.specs.List.{AllZip};
ghost use Rattle.edn_reader.specs.Grammar.{ElementModel as APiece};
ghost use Rattle.edn_reader.specs.Splitting.{IsLast};
ghost use Rattle.jepsen_form.specs.declared.gist.RefusedForm.{RefusedForm as ARefusedForm};
ghost use Rattle.jepsen_form.specs.declared.item.Item.{Item as AnItem};
ghost use Rattle.jepsen_form.specs.Item.{IsItem};
ghost use Rattle.shards.specs.Pass.{PassModel};
ghost use Rattle.shards.specs.Plan.{Plan, claims_of};
ghost use Rattle.feeders.specs.Access.{KeepsOthers};
ghost use Rattle.feeders.specs.Ending.{MayStop};
ghost use Rattle.feeders.specs.Intake.{CanGoOn, GoesOver, GoesTo, HasFed, HasUsed, IsAtEnd};
ghost use Rattle.feeders.specs.TailBuffer.{AreLastBytes};
ghost use Rattle.feeders.specs.Pending.{CanReadBehind, CanSettle, IsBeside, IsItemOfLast, IsPageOf, IsPending, AreSettled, IsToBeCarriedOut, IsToBePaired, count_of, IsTight};
ghost use Rattle.feeders.specs.Progress.{IsAhead, IsAt};
ghost use Rattle.feeders.specs.Readers.{IsNotOfReading};
ghost use Rattle.feeders.specs.Setting.{Setting, setting_of};
ghost use Rattle.logs.specs.Start.{Start};

use crate::access::Access;
use crate::fault::{FeedFault, RunFault};
use crate::line_count::{LineCount, first_bytes};
use crate::next::take_element;
use crate::pages::{Pages, part_of, text_on};
use crate::pending::{Known, Pending, hold_last, read_pending};
use crate::progress::Progress;
use crate::site::Site;
use crate::tail_buffer::TailBuffer;
use crate::watcher::Watcher;
use edn_reader::Splitter;
use edn_reader::laws::each_is_element;
use intervals::Memory;
use jepsen_form::laws::items_name_registers_of_the_tower;
use logs::broken_by;
use pairing::laws::steps_are_on_named_registers;
use shards::Opening;
use std::sync::Wait;

/// What is known of the bytes so far: the splitter after them, those that an element may still need, what their
/// elements came to, and the last element where it is not carried out yet.
#[derive(Drop)]
pub struct Intake<'t> {
    pub splitter: Splitter,
    pub kept: TailBuffer,
    pub progress: Progress<'t>,
    pub pending: Pending<'t>,
}

impl<'t> Intake<'t> {
    /// Reads the element that waits to be read, if any, from its kept bytes, which are then dropped.
    pub fn read_whole<R: Wait, G: Watcher>(
        &mut self,
        site: Site<'_, '_, R, G>,
        pages: &'t Pages,
    ) -> Result<(), Memory>
        requires can { CanSettle self.old }
        ensures pending { (plan : Plan) (start : Start) (items : List (Result AnItem ARefusedForm)) (waiting : List APiece) (pass : PassModel)
            → IsPending (setting_of plan site.entry.tower.now site.entry.field start) items waiting self.old pass
            → IsPending (setting_of plan site.entry.tower.now site.entry.field start) items waiting self.new pass }
        ensures goes { OnOk result (IsToBePaired self.new.pending) }
        ensures refused { OnErr result (count_of self.old.pending ≡ 1) }
        ensures can { CanSettle self.new }
        ensures beside { IsBeside self.old self.new }
        ensures place { self.new.progress.place ≡ self.old.progress.place }
        ensures count { count_of self.new.pending ≡ count_of self.old.pending }
    {
        let Pending::Whole(start) = self.pending else {
            return Ok(());
        };
        let element = self.splitter.lend(self.kept.text(start));
        let pending = read_pending(site, pages, &mut self.progress, element)?;
        self.pending = pending;
        self.kept.restart(self.splitter.taken() as usize);
        Ok(())
    }

    /// Pairs the element that was read, if one waits.
    fn pair_lent(&mut self) -> Result<(), Memory>
        requires can { CanSettle self.old }
        requires read { IsToBePaired self.old.pending }
        ensures pending { (setting : Setting) (items : List (Result AnItem ARefusedForm)) (waiting : List APiece) (pass : PassModel)
            → IsPending setting items waiting self.old pass → IsPending setting items waiting self.new pass }
        ensures goes { OnOk result (IsToBeCarriedOut self.new.pending) }
        ensures refused { OnErr result (count_of self.old.pending ≡ 1) }
        ensures can { CanSettle self.new }
        ensures beside { IsBeside self.old self.new }
        ensures place { self.new.progress.place ≡ self.old.progress.place }
        ensures count { count_of self.new.pending ≡ count_of self.old.pending }
    {
        if let Pending::Lent(item) = self.pending {
            let step = self.progress.pair(item)?;
            self.pending = Pending::Paired(step);
        }
        Ok(())
    }

    /// Carries out the step of the element that was paired, if one waits.
    fn finish_step<O: Opening, R: Wait, G: Watcher>(
        &mut self,
        site: Site<'_, '_, R, G>,
        access: &mut Access<'_, 't, O>,
        line: u64,
    ) -> Result<(), RunFault>
        requires some { 0 < O.plan.shards }
        requires can { CanSettle self.old }
        requires paired { IsToBeCarriedOut self.old.pending }
        ensures settled { OnOk result (self.new.pending ≡ Pending.Nothing) }
        ensures done { OnOk result ((start : Start) (items : List (Result AnItem ARefusedForm)) (waiting : List APiece)
            → IsPending (setting_of O.plan site.entry.tower.now site.entry.field start) items waiting self.old access.old.pass
            → AreSettled (setting_of O.plan site.entry.tower.now site.entry.field start) items waiting self.new.progress access.new.pass) }
        ensures waits { OnErr result ((setting : Setting) (items : List (Result AnItem ARefusedForm)) (waiting : List APiece)
            → setting.plan ≡ O.plan → IsPending setting items waiting self.old access.old.pass → IsPending setting items waiting self.new access.new.pass) }
        ensures others { OnOk result (KeepsOthers O.plan access.old access.new) }
        ensures can { CanSettle self.new }
        ensures beside { IsBeside self.old self.new }
        ensures place { OnOk result (self.new.progress.place ≡ self.old.progress.place + count_of self.old.pending) }
        ensures refused { OnErr result ((self.new.progress.place ≡ self.old.progress.place) × (count_of self.old.pending ≡ 1) × (count_of self.new.pending ≡ 1)) }
        ensures fault { IfErr result (λ fault. (start : Start) (items : List (Result AnItem ARefusedForm)) (waiting pieces : List APiece)
            → IsPending (setting_of O.plan site.entry.tower.now site.entry.field start) items waiting self.old access.old.pass
            → AllZip (IsItem site.entry.tower.now site.entry.field) pieces items → O.plan.claims ≡ claims_of site.entry.tower.now → MayStop O.plan access.new.pass fault) }
    {
        items_name_registers_of_the_tower();
        steps_are_on_named_registers();
        if let Pending::Paired(step) = self.pending {
            if let Err(fault) = self.progress.take_step(site, access, line, step) {
                return Err(fault);
            }
            self.pending = Pending::Nothing;
        }
        Ok(())
    }

    /// Goes on with the element that waits, if any, until its step is carried out.
    pub fn settle<O: Opening, R: Wait, G: Watcher>(
        &mut self,
        site: Site<'_, '_, R, G>,
        pages: &'t Pages,
        access: &mut Access<'_, 't, O>,
        line: u64,
    ) -> Result<(), RunFault>
        requires some { 0 < O.plan.shards }
        requires can { CanSettle self.old }
        ensures settled { OnOk result (self.new.pending ≡ Pending.Nothing) }
        ensures done { OnOk result ((start : Start) (items : List (Result AnItem ARefusedForm)) (waiting : List APiece)
            → IsPending (setting_of O.plan site.entry.tower.now site.entry.field start) items waiting self.old access.old.pass
            → AreSettled (setting_of O.plan site.entry.tower.now site.entry.field start) items waiting self.new.progress access.new.pass) }
        ensures waits { OnErr result ((start : Start) (items : List (Result AnItem ARefusedForm)) (waiting : List APiece)
            → IsPending (setting_of O.plan site.entry.tower.now site.entry.field start) items waiting self.old access.old.pass
            → IsPending (setting_of O.plan site.entry.tower.now site.entry.field start) items waiting self.new access.new.pass) }
        ensures others { OnOk result (KeepsOthers O.plan access.old access.new) }
        ensures can { CanSettle self.new }
        ensures beside { IsBeside self.old self.new }
        ensures place { OnOk result (self.new.progress.place ≡ self.old.progress.place + count_of self.old.pending) }
        ensures refused { OnErr result ((self.new.progress.place ≡ self.old.progress.place) × (count_of self.old.pending ≡ 1) × (count_of self.new.pending ≡ 1)) }
        ensures fault { IfErr result (λ fault. (start : Start) (items : List (Result AnItem ARefusedForm)) (waiting pieces : List APiece)
            → IsPending (setting_of O.plan site.entry.tower.now site.entry.field start) items waiting self.old access.old.pass
            → AllZip (IsItem site.entry.tower.now site.entry.field) pieces items → O.plan.claims ≡ claims_of site.entry.tower.now → MayStop O.plan access.new.pass fault) }
    {
        self.read_whole(site, pages)?;
        self.pair_lent()?;
        self.finish_step(site, access, line)
    }

    /// Takes `front`, the prefix of a chunk with which an element ended that begins at the place `start`. The
    /// element then waits.
    fn take_whole<'p, R: Wait, G: Watcher>(
        &mut self,
        site: Site<'_, '_, R, G>,
        pages: &'t Pages,
        front: &'p [u8],
        start: usize,
        known: Known<'p, 't>,
    ) -> Result<(), Memory>
        requires room { vec_len self.old.kept.bytes + length front.now ≤ vec_capacity self.old.kept.bytes }
        requires ahead { IsAhead self.old.progress }
        requires can { CanReadBehind start front.now self.old }
        requires page { IsPageOf known.page (drop (start - self.old.kept.from) (self.old.kept.bytes.items ++ front.now)) }
        requires item { IsItemOfLast site.tower.now site.field self.old.splitter (drop (start - self.old.kept.from) (self.old.kept.bytes.items ++ front.now)) known.item }
        ensures pending { (plan : Plan) (begun : Start) (items : List (Result AnItem ARefusedForm)) (pass : PassModel) (last : APiece)
            → IsLast self.old.splitter last → last.text ≡ drop (start - self.old.kept.from) (self.old.kept.bytes.items ++ front.entry.now)
            → IsAt plan begun items self.old.progress pass
            → IsPending (setting_of plan site.entry.tower.now site.entry.field begun) items (last ∷ []) self.new pass }
        ensures can { CanSettle self.new }
        ensures holds { (taken : List ℕ) → AreLastBytes taken self.old.kept → AreLastBytes (taken ++ front.entry.now) self.new.kept }
        ensures low { self.new.kept.from ≤ self.old.splitter.taken }
        ensures tight { IsTight self.new }
        ensures beside { (self.new.splitter ≡ self.old.splitter) × (self.new.progress.log.broken ≡ self.old.progress.log.broken) }
        ensures place { self.new.progress.place ≡ self.old.progress.place }
        ensures count { count_of self.new.pending ≡ 1 }
    {
        let end = self.kept.end();
        if start < end {
            self.kept.take(front, start);
            self.pending = Pending::Whole(start);
            return Ok(());
        }
        let text = &front[start - end..];
        match hold_last(site, pages, &mut self.progress, &self.splitter, text, known) {
            Ok(pending) => {
                self.pending = pending;
                self.kept.restart(end + front.len());
                Ok(())
            }
            Err(memory) => {
                self.kept.take(front, start);
                self.pending = Pending::Whole(start);
                Err(memory)
            }
        }
    }

    /// Takes a chunk, which is also on `page` where that is given, up to the end of the next element, which then waits,
    /// or else to its own end. The answer is how many of its bytes were used, or none where the trace broke.
    pub fn hold_next<R: Wait, G: Watcher>(
        &mut self,
        site: Site<'_, '_, R, G>,
        pages: &'t Pages,
        lines: &mut LineCount,
        piece: &[u8],
        page: Option<&'t [u8]>,
    ) -> Result<Option<usize>, FeedFault>
        requires settled { self.old.pending ≡ Pending.Nothing }
        requires can { CanGoOn piece.now self.old }
        requires fits { self.old.splitter.taken + length piece.now < 2 ^ 64 }
        requires page { IsPageOf page piece.now }
        ensures used { IfOk result (λ used. IfSome used (λ used. HasUsed piece.now self.old used self.new
            × (self.new.pending ≡ Pending.Nothing → used ≡ length piece.now) × (self.new.progress.place ≡ self.old.progress.place))) }
        ensures goes { IfOk result (λ used. (plan : Plan) (start : Start) (pass : PassModel) (bytes next : List ℕ)
            → HasFed (setting_of plan site.entry.tower.now site.entry.field start) bytes (piece.now ++ next) self.old pass
            → GoesTo (setting_of plan site.entry.tower.now site.entry.field start) bytes piece.now next used self.new pass) }
        ensures over { result ≡ Ok None → (self.new.pending ≡ Pending.Nothing) × (self.new.progress.place ≡ self.old.progress.place) }
        ensures refused { IfErr result (λ failed. HasUsed piece.now self.old failed.used self.new) }
        ensures waits { IfErr result (λ failed. (plan : Plan) (start : Start) (pass : PassModel) (bytes next : List ℕ)
            → HasFed (setting_of plan site.entry.tower.now site.entry.field start) bytes (piece.now ++ next) self.old pass
            → HasFed (setting_of plan site.entry.tower.now site.entry.field start) (bytes ++ take failed.used piece.now) (drop failed.used piece.now ++ next) self.new pass) }
        ensures memory { IfErr result (λ failed. failed.fault ≡ RunFault.Memory) }
    {
        each_is_element();
        if self.kept.make_room(piece.len()).is_err() {
            let fault = RunFault::Memory;
            return Err(FeedFault { fault, used: 0 });
        }
        let before = self.splitter.taken() as usize;
        let next = match take_element(&mut self.splitter, piece, site.field, site.tower) {
            Ok(next) => next,
            Err(fault) => {
                if let Some(broken) = broken_by(fault) {
                    lines.count_to(&self.kept, piece, before, broken.place as usize);
                    self.progress.log.broken = Some(broken);
                    return Ok(None);
                }
                let used = self.splitter.taken() as usize - before;
                let keep = self.splitter.keep_from() as usize;
                self.kept.take(&piece[..used], keep);
                lines.count_past(first_bytes(piece, used), before, keep);
                let fault = RunFault::Memory;
                return Err(FeedFault { fault, used });
            }
        };
        let used = next.taken.used;
        let Some((start, _)) = next.taken.whole else {
            let open = self.splitter.keep_from() as usize;
            self.kept.take(piece, open);
            lines.count_past(piece, before, open);
            return Ok(Some(used));
        };
        let front = &piece[..used];
        let start = start as usize;
        lines.count_to(&self.kept, front, before, start);
        let known = Known {
            page: text_on(page, before, start, used),
            item: next.item,
        };
        match self.take_whole(site, pages, front, start, known) {
            Ok(()) => Ok(Some(used)),
            Err(memory) => {
                let fault = RunFault::from(memory);
                Err(FeedFault { fault, used })
            }
        }
    }

    /// Takes a chunk as `hold_next` does, and carries out the step of the element that waits then, if any.
    fn take_next<O: Opening, R: Wait, G: Watcher>(
        &mut self,
        site: Site<'_, '_, R, G>,
        pages: &'t Pages,
        access: &mut Access<'_, 't, O>,
        lines: &mut LineCount,
        piece: &[u8],
        page: Option<&'t [u8]>,
    ) -> Result<Option<usize>, FeedFault>
        requires some { 0 < O.plan.shards }
        requires settled { self.old.pending ≡ Pending.Nothing }
        requires can { CanGoOn piece.now self.old }
        requires fits { self.old.splitter.taken + length piece.now < 2 ^ 64 }
        requires page { IsPageOf page piece.now }
        ensures used { IfOk result (λ used. IfSome used (λ used. HasUsed piece.now self.old used self.new × (self.new.pending ≡ Pending.Nothing)
            × (0 < length piece.now → self.old.splitter.taken + self.old.progress.place < self.new.splitter.taken + self.new.progress.place))) }
        ensures goes { IfOk result (λ used. (start : Start) (bytes next : List ℕ) → HasFed (setting_of O.plan site.entry.tower.now site.entry.field start) bytes (piece.now ++ next) self.old access.old.pass
            → GoesTo (setting_of O.plan site.entry.tower.now site.entry.field start) bytes piece.now next used self.new access.new.pass) }
        ensures refused { IfErr result (λ failed. HasUsed piece.now self.old failed.used self.new) }
        ensures waits { IfErr result (λ failed. (start : Start) (bytes next : List ℕ) → HasFed (setting_of O.plan site.entry.tower.now site.entry.field start) bytes (piece.now ++ next) self.old access.old.pass
            → HasFed (setting_of O.plan site.entry.tower.now site.entry.field start) (bytes ++ take failed.used piece.now) (drop failed.used piece.now ++ next) self.new access.new.pass) }
        ensures fault { IfErr result (λ failed. (start : Start) (bytes next : List ℕ) → HasFed (setting_of O.plan site.entry.tower.now site.entry.field start) bytes (piece.now ++ next) self.old access.old.pass
            → O.plan.claims ≡ claims_of site.entry.tower.now → MayStop O.plan access.new.pass failed.fault) }
    {
        let used = match self.hold_next(site, pages, lines, piece, page) {
            Ok(Some(used)) => used,
            Ok(None) => return Ok(None),
            Err(failed) => return Err(failed),
        };
        match self.settle(site, pages, access, lines.line()) {
            Ok(()) => Ok(Some(used)),
            Err(fault) => Err(FeedFault { fault, used }),
        }
    }

    /// Takes a whole chunk, which is also on `page` where that is given, and answers whether the trace goes on:
    /// false where it broke.
    pub fn take_piece<O: Opening, R: Wait, G: Watcher>(
        &mut self,
        site: Site<'_, '_, R, G>,
        pages: &'t Pages,
        access: &mut Access<'_, 't, O>,
        lines: &mut LineCount,
        piece: &[u8],
        page: Option<&'t [u8]>,
    ) -> Result<bool, FeedFault>
        requires some { 0 < O.plan.shards }
        requires can { CanGoOn piece.now self.old }
        requires fits { self.old.splitter.taken + length piece.now < 2 ^ 64 }
        requires page { IsPageOf page piece.now }
        ensures can { result ≡ Ok true → CanGoOn [] self.new × (self.new.pending ≡ Pending.Nothing) × (self.new.splitter.taken ≡ self.old.splitter.taken + length piece.now) }
        ensures goes { IfOk result (λ on. (start : Start) (bytes : List ℕ) → HasFed (setting_of O.plan site.entry.tower.now site.entry.field start) bytes piece.now self.old access.old.pass
            → GoesOver on (setting_of O.plan site.entry.tower.now site.entry.field start) (bytes ++ piece.now) self.new access.new.pass) }
        ensures refused { IfErr result (λ failed. HasUsed piece.now self.old failed.used self.new) }
        ensures waits { IfErr result (λ failed. (start : Start) (bytes : List ℕ) → HasFed (setting_of O.plan site.entry.tower.now site.entry.field start) bytes piece.now self.old access.old.pass
            → HasFed (setting_of O.plan site.entry.tower.now site.entry.field start) (bytes ++ take failed.used piece.now) (drop failed.used piece.now) self.new access.new.pass) }
        ensures fault { IfErr result (λ failed. (start : Start) (bytes : List ℕ) → HasFed (setting_of O.plan site.entry.tower.now site.entry.field start) bytes piece.now self.old access.old.pass
            → O.plan.claims ≡ claims_of site.entry.tower.now → MayStop O.plan access.new.pass failed.fault) }
    {
        if let Err(fault) = self.settle(site, pages, access, lines.line()) {
            return Err(FeedFault { fault, used: 0 });
        }
        let mut at = 0;
        while at < piece.len() {
            let rest = part_of(page, at, piece.len());
            match self.take_next(site, pages, access, lines, &piece[at..], rest) {
                Ok(Some(used)) => at += used,
                Ok(None) => return Ok(false),
                Err(failed) => {
                    return Err(FeedFault {
                        fault: failed.fault,
                        used: at + failed.used,
                    });
                }
            }
        }
        Ok(true)
    }

    /// Takes the end of the trace. An element that ends with it then waits.
    pub fn hold_end(&mut self, lines: &mut LineCount) -> Result<(), Memory>
        requires settled { self.old.pending ≡ Pending.Nothing }
        requires can { CanGoOn [] self.old }
        ensures ends { OnOk result ((setting : Setting) (bytes : List ℕ) (pass : PassModel) → HasFed setting bytes [] self.old pass → IsAtEnd setting bytes self.new pass) }
        ensures by_text { OnOk result (self.old.progress.log.broken ≡ None → IsNotOfReading self.new.progress.log) }
        ensures can { CanSettle self.new }
        ensures place { self.new.progress.place ≡ self.old.progress.place }
        ensures still { OnErr result (CanGoOn [] self.new × (self.new.splitter.taken ≡ self.old.splitter.taken)) }
        ensures open { OnErr result (self.new.pending ≡ Pending.Nothing) }
        ensures waits { OnErr result ((setting : Setting) (bytes : List ℕ) (pass : PassModel) → HasFed setting bytes [] self.old pass → HasFed setting bytes [] self.new pass) }
    {
        each_is_element();
        let at = self.splitter.taken() as usize;
        match self.splitter.end() {
            Ok(None) => Ok(()),
            Ok(Some((start, _))) => {
                lines.count_to(&self.kept, &[], at, start as usize);
                self.pending = Pending::Whole(start as usize);
                Ok(())
            }
            Err(fault) => {
                let Some(broken) = broken_by(fault) else {
                    return Err(Memory);
                };
                lines.count_to(&self.kept, &[], at, broken.place as usize);
                self.progress.log.broken = Some(broken);
                Ok(())
            }
        }
    }

    /// Carries out the step of the element that waits, if any, and takes the end of the trace as `hold_end` does.
    pub fn take_end<O: Opening, R: Wait, G: Watcher>(
        &mut self,
        site: Site<'_, '_, R, G>,
        pages: &'t Pages,
        access: &mut Access<'_, 't, O>,
        lines: &mut LineCount,
    ) -> Result<(), RunFault>
        requires some { 0 < O.plan.shards }
        requires can { CanGoOn [] self.old }
        ensures ends { OnOk result ((start : Start) (bytes : List ℕ) → HasFed (setting_of O.plan site.entry.tower.now site.entry.field start) bytes [] self.old access.old.pass
            → IsAtEnd (setting_of O.plan site.entry.tower.now site.entry.field start) bytes self.new access.new.pass) }
        ensures by_text { OnOk result (self.old.progress.log.broken ≡ None → IsNotOfReading self.new.progress.log) }
        ensures can { CanSettle self.new }
        ensures still { OnErr result (CanGoOn [] self.new × (self.new.splitter.taken ≡ self.old.splitter.taken)) }
        ensures open { OnErr result (self.old.pending ≡ Pending.Nothing → self.new.pending ≡ Pending.Nothing) }
        ensures waits { OnErr result ((start : Start) (bytes : List ℕ) → HasFed (setting_of O.plan site.entry.tower.now site.entry.field start) bytes [] self.old access.old.pass
            → HasFed (setting_of O.plan site.entry.tower.now site.entry.field start) bytes [] self.new access.new.pass) }
        ensures fault { IfErr result (λ fault. (start : Start) (bytes : List ℕ) → HasFed (setting_of O.plan site.entry.tower.now site.entry.field start) bytes [] self.old access.old.pass
            → O.plan.claims ≡ claims_of site.entry.tower.now → MayStop O.plan access.new.pass fault) }
    {
        if let Err(fault) = self.settle(site, pages, access, lines.line()) {
            return Err(fault);
        }
        match self.hold_end(lines) {
            Ok(()) => Ok(()),
            Err(memory) => Err(RunFault::from(memory)),
        }
    }
}
