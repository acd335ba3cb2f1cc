//! A feeder whose trace comes in chunks.

ghost use Rattle.std.specs.Prelude.{◌≡◌, ◌≢◌, ◌+◌, ◌≤◌, ◌<◌, ◌^◌, ◌++◌, [], ℕ, List, length, take, drop, Ok, Some, IfErr, OnErr, OnOk, IsTrue, ◌↔◌, ◌⊎◌};
ghost use Rattle.shards.specs.Pass.{PassModel};
ghost use Rattle.shards.specs.Plan.{Plan, claims_of};
ghost use Rattle.logs.specs.Broken.{is_of_reading};
ghost use Rattle.feeders.specs.Ending.{MayStop};
ghost use Rattle.feeders.specs.Feeding.{IsFedUpTo};
ghost use Rattle.feeders.specs.Intake.{CanGoOn, HasEnded, IsAtEnd};
ghost use Rattle.feeders.specs.Readers.{IsNotOfReading};
ghost use Rattle.feeders.specs.Setting.{IsAtStart, setting_of};
ghost use Rattle.logs.specs.Start.{Start};

use crate::access::Access;
use crate::fault::FeedFault;
use crate::intake::Intake;
use crate::line_count::LineCount;
use crate::pages::Pages;
use crate::paging::Paging;
use crate::pending::Pending;
use crate::progress::Progress;
use crate::site::Site;
use crate::tail_buffer::TailBuffer;
use crate::watcher::Watcher;
use edn_reader::Splitter;
use edn_reader::laws::{no_fault_so_far, told_so_far};
use jepsen_form::MomentField;
use logs::{BreakCode, Broken, Log};
use shards::Opening;
use std::alloc::Global;
use std::marker::Model;
use std::sync::Wait;
use tower_file::Tower;

/// Whether a feeder goes on.
#[derive(Clone, Copy)]
pub enum FeedState {
    /// It takes any chunk, and the end.
    Open,
    /// Memory or a shard refused: it goes on with the rest of the chunk.
    Paused,
    /// Memory or a shard refused after the end of its trace was taken: it is ended again.
    Ending,
    /// Its trace broke.
    Broke,
    /// Its trace was ended.
    Ended,
}

/// Feeds a trace that comes in chunks, which may be cut anywhere, to the registers of a tower. It holds the bytes
/// of an element that has not ended, and puts the texts that its steps lend on pages.
///
/// Where memory or a shard refuses, nothing is lost: after a fault of [`feed`](Feeder::feed) feed it the rest of the
/// chunk, from the byte after those that were used; after one of [`end`](Feeder::end) end it again.
///
/// It tells its gate of changes and refusals only, and not of the break or the end of its trace.
#[derive(Drop)]
pub struct Feeder<'t> {
    alloc: Global,
    field: MomentField,
    tower: &'t Tower,
    pages: &'t Pages,
    intake: Intake<'t>,
    paging: Paging,
    lines: LineCount,
    state: FeedState,
}

impl<'t> Model for Feeder<'t> {
    ghost use Rattle.std.specs.Prelude.{◌≡◌, []};
    ghost use Rattle.feeders.specs.declared.feeder.FeedState.TheVariants.{Open, Ending};
    ghost use Rattle.feeders.specs.declared.pending.Pending.TheVariants.{Nothing};
    ghost use Rattle.feeders.specs.Feeding.{FeederModel};
    ghost use Rattle.feeders.specs.Intake.{CanGoOn};
    ghost use Rattle.feeders.specs.Pending.{CanSettle};

    ghost Value = { FeederModel };

    ghost view = { λ f. record { chosen = f.field; tower = f.tower.now; intake = f.intake; state = f.state } };

    ghost invariant = { λ f. (f.state ≡ Open → CanGoOn [] f.intake × (f.intake.pending ≡ Nothing)) × (f.state ≡ Ending → CanSettle f.intake) };
}

impl<'t> Feeder<'t> {
    /// The feeder of this number, before the first byte of its trace.
    pub fn new(
        alloc: Global,
        feeder: u32,
        field: MomentField,
        tower: &'t Tower,
        pages: &'t Pages,
    ) -> Feeder<'t>
        ensures read { (result.chosen ≡ field) × (result.tower ≡ tower.now) }
        ensures going { (result.state ≡ FeedState.Open) × (result.intake.splitter.taken ≡ 0) }
        ensures fed { (plan : Plan) (start : Start) (pass : PassModel) → IsAtStart plan start pass → start.feeder ≡ feeder → IsFedUpTo plan start [] [] result pass }
    {
        Feeder {
            alloc,
            field,
            tower,
            pages,
            intake: Intake {
                splitter: Splitter::new(alloc),
                kept: TailBuffer::new(alloc),
                progress: Progress::new(alloc, feeder),
                pending: Pending::Nothing,
            },
            paging: Paging::new(),
            lines: LineCount::new(),
            state: FeedState::Open,
        }
    }

    /// Takes `piece`, the next chunk of the trace, and carries out each step as soon as its element has ended.
    /// Once the trace broke or was ended nothing changes. After a fault feed it the rest of the chunk: it goes on
    /// first with the element that had ended last, where that was not carried out.
    pub fn feed<O: Opening, R: Wait, G: Watcher>(
        &mut self,
        rt: &R,
        gate: &G,
        access: &mut Access<'_, 't, O>,
        piece: &[u8],
    ) -> Result<(), FeedFault>
        requires some { 0 < O.plan.shards }
        requires rest { self.old.state ≡ FeedState.Paused → CanGoOn piece.now self.old.intake }
        requires not_ending { self.old.state ≢ FeedState.Ending }
        requires fits { self.old.intake.splitter.taken + length piece.now < 2 ^ 64 }
        ensures fed { OnOk result ((start : Start) (bytes : List ℕ) → IsFedUpTo O.plan start bytes piece.now self.old access.old.pass → IsFedUpTo O.plan start (bytes ++ piece.now) [] self.new access.new.pass) }
        ensures taken { OnOk result (self.new.state ≡ FeedState.Open → self.new.intake.splitter.taken ≡ self.old.intake.splitter.taken + length piece.now) }
        ensures read { (self.new.chosen ≡ self.old.chosen) × (self.new.tower ≡ self.old.tower) }
        ensures goes_on { OnOk result ((self.new.state ≢ FeedState.Paused) × (self.new.state ≢ FeedState.Ending)) }
        ensures stays { OnOk result ((self.new.state ≡ FeedState.Open) ⊎ (self.new.state ≡ FeedState.Broke) ⊎ (self.old.state ≡ FeedState.Ended)) }
        ensures over { self.old.state ≡ FeedState.Broke → (result ≡ Ok tt) × (self.new ≡ self.old) × (access.new ≡ access.old) }
        ensures ended { self.old.state ≡ FeedState.Ended → (result ≡ Ok tt) × (self.new ≡ self.old) × (access.new ≡ access.old) }
        ensures used { IfErr result (λ failed. (failed.used ≤ length piece.now) × (self.new.intake.splitter.taken ≡ self.old.intake.splitter.taken + failed.used)) }
        ensures paused { IfErr result (λ failed. (self.new.state ≡ FeedState.Paused) × CanGoOn (drop failed.used piece.now) self.new.intake) }
        ensures waits { IfErr result (λ failed. (start : Start) (bytes : List ℕ) → IsFedUpTo O.plan start bytes piece.now self.old access.old.pass
            → IsFedUpTo O.plan start (bytes ++ take failed.used piece.now) (drop failed.used piece.now) self.new access.new.pass) }
        ensures fault { IfErr result (λ failed. (start : Start) (bytes : List ℕ) → IsFedUpTo O.plan start bytes piece.now self.old access.old.pass
            → O.plan.claims ≡ claims_of self.old.tower → MayStop O.plan access.new.pass failed.fault) }
    {
        if self.is_over() {
            return Ok(());
        }
        let site = Site {
            rt,
            alloc: self.alloc,
            gate,
            tower: self.tower,
            field: self.field,
        };
        let page = self
            .paging
            .page_of(self.pages, rt, self.alloc, access, piece);
        self.lines.want(gate.wants_lines());
        match self
            .intake
            .take_piece(site, self.pages, access, &mut self.lines, piece, page)
        {
            Ok(true) => {
                self.state = FeedState::Open;
                Ok(())
            }
            Ok(false) => {
                self.state = FeedState::Broke;
                Ok(())
            }
            Err(failed) => {
                self.state = FeedState::Paused;
                Err(failed)
            }
        }
    }

    /// Takes the end of the trace. Once the trace broke or was ended nothing changes. After a fault call it again.
    pub fn end<O: Opening, R: Wait, G: Watcher>(
        &mut self,
        rt: &R,
        gate: &G,
        access: &mut Access<'_, 't, O>,
    ) -> Result<(), FeedFault>
        requires some { 0 < O.plan.shards }
        requires rest { self.old.state ≡ FeedState.Paused → CanGoOn [] self.old.intake }
        ensures fed { OnOk result ((start : Start) (bytes : List ℕ) → IsFedUpTo O.plan start bytes [] self.old access.old.pass
            → HasEnded (setting_of O.plan self.old.tower self.old.chosen start) bytes self.new.intake access.new.pass) }
        ensures read { (self.new.chosen ≡ self.old.chosen) × (self.new.tower ≡ self.old.tower) }
        ensures by_text { OnOk result ((start : Start) (bytes : List ℕ) → IsFedUpTo O.plan start bytes [] self.old access.old.pass → IsNotOfReading self.new.intake.progress.log) }
        ensures closed { OnOk result ((self.new.state ≡ FeedState.Ended) ⊎ (self.new.state ≡ FeedState.Broke)) }
        ensures closes { OnOk result (self.old.state ≡ FeedState.Open → self.new.state ≡ FeedState.Ended) }
        ensures over { self.old.state ≡ FeedState.Broke → (result ≡ Ok tt) × (self.new ≡ self.old) × (access.new ≡ access.old) }
        ensures ended { self.old.state ≡ FeedState.Ended → (result ≡ Ok tt) × (self.new ≡ self.old) × (access.new ≡ access.old) }
        ensures used { IfErr result (λ failed. failed.used ≡ 0) }
        ensures rest { self.new.state ≡ FeedState.Paused → CanGoOn [] self.new.intake }
        ensures waits { IfErr result (λ failed. (start : Start) (bytes : List ℕ) → IsFedUpTo O.plan start bytes [] self.old access.old.pass
            → IsFedUpTo O.plan start bytes [] self.new access.new.pass) }
        ensures fault { IfErr result (λ failed. (start : Start) (bytes : List ℕ) → IsFedUpTo O.plan start bytes [] self.old access.old.pass
            → O.plan.claims ≡ claims_of self.old.tower → MayStop O.plan access.new.pass failed.fault) }
    {
        if self.is_over() {
            return Ok(());
        }
        let site = Site {
            rt,
            alloc: self.alloc,
            gate,
            tower: self.tower,
            field: self.field,
        };
        if self.is_ending() {
            return self.settle_last(site, access);
        }
        if let Err(fault) = self
            .intake
            .take_end(site, self.pages, access, &mut self.lines)
        {
            return Err(FeedFault { fault, used: 0 });
        }
        self.state = FeedState::Ending;
        self.settle_last(site, access)
    }

    /// Goes on with the last element of a trace whose end was taken, until its step is carried out.
    fn settle_last<O: Opening, R: Wait, G: Watcher>(
        &mut self,
        site: Site<'_, '_, R, G>,
        access: &mut Access<'_, 't, O>,
    ) -> Result<(), FeedFault>
        requires some { 0 < O.plan.shards }
        requires ending { self.old.state ≡ FeedState.Ending }
        ensures fed { OnOk result ((start : Start) (bytes : List ℕ) → IsAtEnd (setting_of O.plan site.entry.tower.now site.entry.field start) bytes self.old.intake access.old.pass
            → HasEnded (setting_of O.plan site.entry.tower.now site.entry.field start) bytes self.new.intake access.new.pass × IsNotOfReading self.new.intake.progress.log) }
        ensures read { (self.new.chosen ≡ self.old.chosen) × (self.new.tower ≡ self.old.tower) }
        ensures closes { OnOk result (self.new.state ≡ FeedState.Ended) }
        ensures ending { OnErr result (self.new.state ≡ FeedState.Ending) }
        ensures used { IfErr result (λ failed. failed.used ≡ 0) }
        ensures waits { OnErr result ((start : Start) (bytes : List ℕ) → IsAtEnd (setting_of O.plan site.entry.tower.now site.entry.field start) bytes self.old.intake access.old.pass
            → IsAtEnd (setting_of O.plan site.entry.tower.now site.entry.field start) bytes self.new.intake access.new.pass) }
        ensures fault { IfErr result (λ failed. (start : Start) (bytes : List ℕ) → IsAtEnd (setting_of O.plan site.entry.tower.now site.entry.field start) bytes self.old.intake access.old.pass
            → O.plan.claims ≡ claims_of site.entry.tower.now → MayStop O.plan access.new.pass failed.fault) }
    {
        match self
            .intake
            .settle(site, self.pages, access, self.lines.line())
        {
            Ok(()) => {
                self.state = FeedState::Ended;
                Ok(())
            }
            Err(fault) => Err(FeedFault { fault, used: 0 }),
        }
    }

    /// Whether the end of the trace was taken, and its last element waits.
    fn is_ending(&self) -> bool
        ensures { IsTrue result ↔ (self.now.state ≡ FeedState.Ending) }
    {
        match self.state {
            FeedState::Ending => true,
            FeedState::Open | FeedState::Paused | FeedState::Broke | FeedState::Ended => false,
        }
    }

    /// Whether the trace broke or was ended.
    fn is_over(&self) -> bool
        ensures { IsTrue result ↔ (self.now.state ≡ FeedState.Broke) ⊎ (self.now.state ≡ FeedState.Ended) }
    {
        match self.state {
            FeedState::Broke | FeedState::Ended => true,
            FeedState::Open | FeedState::Paused | FeedState::Ending => false,
        }
    }

    /// What was noted so far.
    pub fn log(&self) -> &Log<'t>
        ensures { result.now ≡ self.now.intake.progress.log }
    {
        &self.intake.progress.log
    }

    /// How many elements were carried out or refused so far.
    pub fn elements(&self) -> u64
        ensures { result ≡ self.now.intake.progress.place }
    {
        self.intake.progress.place
    }

    /// The line, from 1, at which the element begins that ended last, or at which the trace broke; it means nothing where the
    /// gate wants no lines.
    pub fn line(&self) -> u64 {
        self.lines.line()
    }

    /// Whether the trace broke in what was fed.
    pub fn has_broken(&self) -> bool
        ensures { IsTrue result ↔ self.now.state ≡ FeedState.Broke }
    {
        match self.state {
            FeedState::Broke => true,
            FeedState::Open | FeedState::Paused | FeedState::Ending | FeedState::Ended => false,
        }
    }

    /// Ends the trace where its reading broke off: an element that has not ended is dropped.
    pub fn break_off(&mut self, code: BreakCode)
        requires going { self.old.state ≡ FeedState.Open }
        requires reading { IsTrue (is_of_reading code) }
        ensures fed { (plan : Plan) (start : Start) (bytes : List ℕ) (pass : PassModel) → IsFedUpTo plan start bytes [] self.old pass → HasEnded (setting_of plan self.old.tower self.old.chosen start) bytes self.new.intake pass }
        ensures broken { self.new.intake.progress.log.broken ≡ Some (record { code = code; place = self.old.intake.splitter.taken }) }
        ensures read { (self.new.chosen ≡ self.old.chosen) × (self.new.tower ≡ self.old.tower) }
        ensures closes { self.new.state ≡ FeedState.Ended }
    {
        no_fault_so_far();
        told_so_far();
        self.lines.count(&[]);
        self.intake.progress.log.broken = Some(Broken {
            code,
            place: self.intake.splitter.taken(),
        });
        self.state = FeedState::Ended;
    }

    /// What was noted.
    pub fn into_log(self) -> Log<'t>
        ensures { result ≡ self.entry.intake.progress.log }
    {
        let Feeder { intake, .. } = self;
        let Intake { progress, .. } = intake;
        let broken = progress.log.broken;
        progress.into_log(broken)
    }
}
