//! The records of a run.

ghost use Rattle.std.specs.Prelude.{◌≡◌, ◌≤◌, ◌<◌, ◌++◌, ◌∷◌, [], Err, IfErr, IfOk, IfSome, IsSome, List, OnOk, Option, Some, ℕ, flat_map, length, map, option_map, Vec};
ghost use Rattle.std.specs.declared.alloc.Global.{Global as AGlobal};
ghost use Rattle.std.specs.Io.KnownBytes.{Appends};
ghost use Rattle.std.specs.List.{list_any};
ghost use Rattle.shards.specs.Closing.{book_of};
ghost use Rattle.report.specs.Doubt.{left_out_at, rests_at};
ghost use Rattle.report.specs.Finding.{IsOfTower};
ghost use Rattle.report.specs.Order.{IsAsked};
ghost use Rattle.report.specs.Summary.{is_failing};
ghost use Rattle.records.specs.declared.allowed.Allowed.{Allowed as AnAllowed};
ghost use Rattle.records.specs.Ends.{end_of_records, head_record};
ghost use Rattle.records.specs.Line.{record_line};
ghost use Rattle.records.specs.Run.{AreRunPlaces, IsTextOfRecords, asked_records, at_most_u64, broken_records, says_anything, line_record, lines_of, log_records, logs_records, names_elements, names_of, one_record, register_record, registers_records, run_lines, totals_of};
ghost use Rattle.records.specs.Symbol.{symbols_of};

use crate::allowed::Allowed;
use crate::ends::{Totals, add_head, add_last, add_order};
use crate::explained::explain_all;
use crate::line::{Notation, push_record};
use crate::log::{add_answer, add_placed_break, add_placed_refusal};
use crate::register::{LentDoubt, RegisterNames, add_register};
use crate::token::RecordToken;
use intervals::{OpId, RegId};
use logs::{Broken, Line, Log, Run, What};
use phrases::name_of;
use places::Places;
use report::{
    Doubt, Finding, Least, ReportFault, RunFindings, count_broken, count_failing, count_operations,
    count_refused, culprits_in, doubts_of, failing_of, find_all, is_culprit, level_name, order_of,
};
use shards::Closed;
use std::alloc::{AllocError, Global};
use std::io::Write;
use tower_file::Tower;

/// How the records of a run are written, and what they say beside it.
#[derive(Clone, Copy)]
pub struct Form<'a> {
    pub notation: Notation,
    /// Whether only the registers that fail have a record.
    pub only_failing: bool,
    /// The tower file, by its name, where one is named.
    pub tower: Option<&'a str>,
    /// The traces, by their names.
    pub traces: &'a [&'a str],
    /// The word of the field that has the moments.
    pub moments: &'static str,
    /// The register whose order has a record, where one is asked for.
    pub order: Option<RegId>,
    pub status: u8,
    /// How many operations have to stand, at least.
    pub least: Least,
}

/// Writes the records of a run over the registers of a tower, in one write and one flush. The run and the register whose
/// order is asked for have to be of the tower. The texts are those of the traces, by number, and give the lines and the
/// bytes of elements.
pub fn write_records<'x, W: Write>(
    alloc: Global,
    form: &Form,
    tower: &'x Tower,
    run: &Run<'x>,
    texts: &[Vec<u8>],
    out: &mut W,
) -> Result<(), ReportFault>
    requires of_tower { IsOfTower tower.now run.now.closed }
    requires order { IfSome form.now.order (λ id. id.0 < length tower.now.registers) }
    ensures records { OnOk result ((text : List ℕ) × IsTextOfRecords form.now.notation (names_of form.now) form.now.only_failing form.now.status tower.now run.now.closed run.now.logs.items form.now.order (map (λ text. text.items) texts.now) text × Appends (W.contents out.old) (W.contents out.new) text) }
    ensures memory { result ≡ Err ReportFault.Memory → out.new ≡ out.old }
{
    let text = records_text(alloc, form, tower, run, texts)?;
    out.write_all(&text)?;
    out.flush()?;
    Ok(())
}

fn records_text<'x>(
    alloc: Global,
    form: &Form,
    tower: &'x Tower,
    run: &Run<'x>,
    texts: &[Vec<u8>],
) -> Result<Vec<u8>, ReportFault>
    requires of_tower { IsOfTower tower.now run.now.closed }
    requires order { IfSome form.now.order (λ id. id.0 < length tower.now.registers) }
    ensures records { IfOk result (λ text. IsTextOfRecords form.now.notation (names_of form.now) form.now.only_failing form.now.status tower.now run.now.closed run.now.logs.items form.now.order (map (λ text. text.items) texts.now) text.items) }
    ensures memory { IfErr result (λ fault. fault ≡ ReportFault.Memory) }
{
    let each = find_all(alloc, tower, &run.closed)?;
    let failing = failing_of(alloc, &each)?;
    let culprits = culprits_in(alloc, tower, &failing)?;
    let doubts = doubts_of(alloc, &each, &run.logs)?;
    let findings = RunFindings {
        tower,
        run,
        each: &each,
        failing: &failing,
        culprits: &culprits,
        doubts: &doubts,
    };
    let allowed = explain_all(alloc, &findings)?;
    let places = places_of(alloc, texts, &findings)?;
    text_of(alloc, form, &findings, &places, &allowed)
}

/// The places of elements in the texts; none where no record names an element.
fn places_of<'t>(
    alloc: Global,
    texts: &'t [Vec<u8>],
    findings: &RunFindings,
) -> Result<Places<'t>, AllocError>
    ensures { IfOk result (λ places. AreRunPlaces (map (λ text. text.items) texts.entry.now) findings.now.each.now findings.now.run.now.logs.items places) }
{
    if names_elements(findings.each, &findings.run.logs) {
        Places::of(alloc, texts)
    } else {
        Ok(Places::unknown(alloc, texts))
    }
}

/// Whether a record names an element.
fn names_elements(findings: &[Finding], logs: &[Log]) -> bool
    ensures { result ≡ names_elements findings.now logs.now }
{
    any_fails(findings) || any_says_anything(logs)
}

fn any_fails(findings: &[Finding]) -> bool
    ensures { result ≡ list_any is_failing findings.now }
{
    findings.iter().any(is_failing)
}

fn any_says_anything(logs: &[Log]) -> bool
    ensures { result ≡ list_any says_anything logs.now }
{
    logs.iter().any(says_anything)
}

fn is_failing(finding: &Finding) -> bool
    ensures { result ≡ is_failing finding.now }
{
    finding.witness.is_some()
}

fn says_anything(log: &Log) -> bool
    ensures { result ≡ says_anything log.now }
{
    log.lines.first().is_some() || log.broken.is_some()
}

/// The text of the records, by what is found of the run and what the wrong read of each register might have returned.
fn text_of(
    alloc: Global,
    form: &Form,
    findings: &RunFindings,
    places: &Places,
    allowed: &[Vec<Allowed>],
) -> Result<Vec<u8>, ReportFault>
    requires there { IfSome form.now.order (λ id. IsSome (book_of findings.now.run.now.closed id.0)) }
    requires each { length allowed.now ≡ length findings.now.each.now }
    ensures text { IfOk result (λ text. (asked : Option (RegId × Option (List OpId))) × IsAsked findings.now.run.now.closed form.now.order asked
        × (text.items ≡ run_lines places.now form.now.notation (names_of form.now) form.now.only_failing form.now.status findings.now.tower.now findings.now.each.now findings.now.doubts.now (map (λ (allowed : Vec AnAllowed AGlobal). allowed.items) allowed.now) findings.now.run.now.logs.items asked)) }
    ensures memory { IfErr result (λ fault. fault ≡ ReportFault.Memory) }
{
    let totals = totals_of(findings);
    let writer = RecordWriter {
        alloc,
        notation: form.notation,
        only_failing: form.only_failing,
        places,
    };
    let mut text = Vec::new(alloc);
    writer.push_head(&mut text, form, findings.tower)?;
    writer.push_registers(&mut text, findings, allowed)?;
    writer.push_logs(&mut text, findings.tower, &findings.run.logs)?;
    writer.push_asked(&mut text, findings.tower, &findings.run.closed, form.order)?;
    writer.push_last(&mut text, form, &totals)?;
    Ok(text)
}

fn totals_of(findings: &RunFindings) -> Totals
    ensures { result ≡ totals_of findings.now.tower.now findings.now.each.now findings.now.run.now.logs.items }
{
    Totals {
        registers: findings.tower.len() as u64,
        failing: count_failing(findings.each) as u64,
        culprits: findings.culprits.len() as u64,
        operations: at_most_u64(count_operations(findings.each)),
        refused: at_most_u64(count_refused(&findings.run.logs)),
        broken: count_broken(&findings.run.logs) as u64,
    }
}

/// The number, or 2^64 - 1 where it is greater.
fn at_most_u64(number: u128) -> u64
    ensures { result ≡ at_most_u64 number }
{
    number.min(u128::from(u64::MAX)) as u64
}

/// What is in doubt of the register of this number; nothing where there is none.
fn doubt_at(doubts: &[Doubt], number: usize) -> LentDoubt
    ensures left_out { result.left_out.now ≡ left_out_at doubts.now number }
    ensures rests_on { result.rests_on.now ≡ rests_at doubts.now number }
{
    match doubts.get(number) {
        Some(doubt) => LentDoubt {
            left_out: &doubt.left_out,
            rests_on: &doubt.rests_on,
        },
        None => LentDoubt {
            left_out: &[],
            rests_on: &[],
        },
    }
}

/// What writes records: the memory that it takes, the notation, whether only the registers that fail have a record, and
/// where elements are.
#[derive(Clone, Copy)]
struct RecordWriter<'p, 't> {
    alloc: Global,
    notation: Notation,
    only_failing: bool,
    places: &'p Places<'t>,
}

impl RecordWriter<'_, '_> {
    /// Adds a record, on a line of its own.
    fn push(self, text: &mut Vec<u8>, tokens: &[RecordToken]) -> Result<(), AllocError>
        ensures { OnOk result (text.new.items ≡ text.old.items ++ record_line self.entry.notation (symbols_of tokens.now)) }
    {
        push_record(self.alloc, self.notation, text, tokens)
    }

    fn push_head(self, text: &mut Vec<u8>, form: &Form, tower: &Tower) -> Result<(), AllocError>
        ensures { OnOk result (text.new.items ≡ text.old.items ++ record_line self.entry.notation (head_record (option_map (λ name. name.now) form.now.tower) (length tower.now.registers) (map (λ name. name.now) form.now.traces.now) form.now.moments.now)) }
    {
        let mut tokens = Vec::new(self.alloc);
        add_head(
            &mut tokens,
            name_bytes(form.tower),
            tower.len() as u64,
            form.traces,
            form.moments,
        )?;
        self.push(text, &tokens)
    }

    /// Adds the records of the registers, by number.
    fn push_registers(
        self,
        text: &mut Vec<u8>,
        findings: &RunFindings,
        allowed: &[Vec<Allowed>],
    ) -> Result<(), AllocError>
        requires each { length allowed.now ≡ length findings.now.each.now }
        ensures { OnOk result (text.new.items ≡ text.old.items ++ lines_of self.entry.notation (registers_records self.entry.places.now findings.now.tower.now findings.now.failing.now findings.now.doubts.now self.entry.only_failing 0 findings.now.each.now (map (λ (allowed : Vec AnAllowed AGlobal). allowed.items) allowed.now))) }
    {
        for number in 0..findings.tower.len() {
            self.push_one(
                text,
                findings,
                number,
                &findings.each[number],
                &allowed[number],
            )?;
        }
        Ok(())
    }

    /// Adds the record of a register, where it has one.
    fn push_one<'x>(
        self,
        text: &mut Vec<u8>,
        findings: &RunFindings<'_, 'x>,
        number: usize,
        finding: &Finding<'x>,
        allowed: &[Allowed],
    ) -> Result<(), AllocError>
        requires few { number < 65536 }
        ensures { OnOk result (text.new.items ≡ text.old.items ++ lines_of self.entry.notation (one_record self.entry.places.now findings.now.tower.now findings.now.failing.now findings.now.doubts.now self.entry.only_failing number finding.now allowed.now)) }
    {
        if !self.only_failing || finding.witness.is_some() {
            self.push_register(text, findings, number, finding, allowed)
        } else {
            Ok(())
        }
    }

    /// Adds the record of a register; nothing where there is none of that number.
    fn push_register<'x>(
        self,
        text: &mut Vec<u8>,
        findings: &RunFindings<'_, 'x>,
        number: usize,
        finding: &Finding<'x>,
        allowed: &[Allowed],
    ) -> Result<(), AllocError>
        requires few { number < 65536 }
        ensures { OnOk result (text.new.items ≡ text.old.items ++ lines_of self.entry.notation (register_record self.entry.places.now findings.now.tower.now findings.now.failing.now findings.now.doubts.now number finding.now allowed.now)) }
    {
        let id = RegId(number as u32);
        let tower = findings.tower;
        let (Some(name), Some(level)) = (tower.name(id), tower.level_of(id)) else {
            return Ok(());
        };
        let culprit = is_culprit(tower, findings.failing, id);
        let names = RegisterNames {
            number: number as u64,
            level: level_name(tower, level),
            name,
        };
        let doubt = doubt_at(findings.doubts, number);
        let mut tokens = Vec::new(self.alloc);
        add_register(
            &mut tokens,
            self.places,
            &names,
            finding,
            culprit,
            allowed,
            doubt,
        )?;
        self.push(text, &tokens)
    }

    /// Adds the records of the traces, by feeder.
    fn push_logs(self, text: &mut Vec<u8>, tower: &Tower, logs: &[Log]) -> Result<(), AllocError>
        ensures { OnOk result (text.new.items ≡ text.old.items ++ lines_of self.entry.notation (logs_records self.entry.places.now tower.now.registers 0 logs.now)) }
    {
        for feeder in 0..logs.len() {
            self.push_log(text, tower, feeder, &logs[feeder])?;
        }
        Ok(())
    }

    fn push_log(
        self,
        text: &mut Vec<u8>,
        tower: &Tower,
        feeder: usize,
        log: &Log,
    ) -> Result<(), AllocError>
        ensures { OnOk result (text.new.items ≡ text.old.items ++ lines_of self.entry.notation (log_records self.entry.places.now tower.now.registers feeder log.now)) }
    {
        self.push_lines(text, tower, feeder, &log.lines)?;
        self.push_broken(text, feeder, log.broken)
    }

    fn push_lines(
        self,
        text: &mut Vec<u8>,
        tower: &Tower,
        feeder: usize,
        lines: &[Line],
    ) -> Result<(), AllocError>
        ensures { OnOk result (text.new.items ≡ text.old.items ++ lines_of self.entry.notation (map (line_record self.entry.places.now tower.now.registers feeder) lines.now)) }
    {
        for line in lines {
            self.push_line(text, tower, feeder, line)?;
        }
        Ok(())
    }

    fn push_line(
        self,
        text: &mut Vec<u8>,
        tower: &Tower,
        feeder: usize,
        line: &Line,
    ) -> Result<(), AllocError>
        ensures { OnOk result (text.new.items ≡ text.old.items ++ record_line self.entry.notation (line_record self.entry.places.now tower.now.registers feeder line.now)) }
    {
        let mut tokens = Vec::new(self.alloc);
        match &line.what {
            What::Refused(left_out) => add_placed_refusal(
                &mut tokens,
                self.places,
                feeder as u64,
                line.event,
                &left_out.code,
            )?,
            What::Answered(register, answer) => add_answer(
                &mut tokens,
                self.places,
                feeder as u64,
                line.event,
                name_of(tower, *register),
                answer,
            )?,
        }
        self.push(text, &tokens)
    }

    fn push_broken(
        self,
        text: &mut Vec<u8>,
        feeder: usize,
        broken: Option<Broken>,
    ) -> Result<(), AllocError>
        ensures { OnOk result (text.new.items ≡ text.old.items ++ lines_of self.entry.notation (broken_records self.entry.places.now feeder broken)) }
    {
        let Some(broken) = broken else {
            return Ok(());
        };
        let mut tokens = Vec::new(self.alloc);
        add_placed_break(&mut tokens, self.places, feeder as u64, broken)?;
        self.push(text, &tokens)
    }

    /// Adds the record of the order that is asked for, if one is.
    fn push_asked(
        self,
        text: &mut Vec<u8>,
        tower: &Tower,
        closed: &Closed,
        order: Option<RegId>,
    ) -> Result<(), ReportFault>
        requires there { IfSome order (λ id. IsSome (book_of closed.now id.0)) }
        ensures asked { OnOk result ((asked : Option (RegId × Option (List OpId))) × IsAsked closed.now order asked × (text.new.items ≡ text.old.items ++ lines_of self.entry.notation (asked_records tower.now.registers asked))) }
        ensures memory { IfErr result (λ fault. fault ≡ ReportFault.Memory) }
    {
        let Some(id) = order else {
            return Ok(());
        };
        let found = order_of(self.alloc, closed, id)?;
        self.push_order(text, tower, id, &found)?;
        Ok(())
    }

    fn push_order(
        self,
        text: &mut Vec<u8>,
        tower: &Tower,
        id: RegId,
        found: &Option<Vec<OpId>>,
    ) -> Result<(), AllocError>
        ensures { OnOk result (text.new.items ≡ text.old.items ++ lines_of self.entry.notation (asked_records tower.now.registers (Some (id, option_map (λ ids. ids.items) found.now)))) }
    {
        let mut tokens = Vec::new(self.alloc);
        add_order(&mut tokens, name_of(tower, id), found)?;
        self.push(text, &tokens)
    }

    fn push_last(self, text: &mut Vec<u8>, form: &Form, totals: &Totals) -> Result<(), AllocError>
        ensures { OnOk result (text.new.items ≡ text.old.items ++ record_line self.entry.notation (end_of_records form.now.status totals.now form.now.least)) }
    {
        let mut tokens = Vec::new(self.alloc);
        add_last(&mut tokens, u64::from(form.status), totals, form.least)?;
        self.push(text, &tokens)
    }
}

/// The bytes of an optional name.
fn name_bytes<'a>(name: Option<&'a str>) -> Option<&'a [u8]>
    ensures { option_map (λ bytes. bytes.now) result ≡ option_map (λ name. name.now) name.entry }
{
    match name {
        Some(name) => Some(name.as_bytes()),
        None => None,
    }
}
