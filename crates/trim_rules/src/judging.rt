// Which include lines can be taken away, and why others stay.
ghost use Rattle.std.specs.Prelude.{◌≡◌, ◌<◌, ◌+◌, None, Some, IfOk, OnOk, cond, false, length, map};
ghost use Rattle.std.specs.List.{list_any};
ghost use Rattle.std.specs.Option.{option_map, option_map_or, option_or};
ghost use Rattle.analysis.specs.Analysis.{UnitAnalysis};
ghost use Rattle.analysis.specs.Below.include_tree.Walk.{item_text};
ghost use Rattle.analysis.specs.Below.lexer.Tokens.{tokens_of};
ghost use Rattle.analysis.specs.Below.source_files.Files.{Table};
ghost use Rattle.analysis.specs.Below.source_files.HeaderNames.{is_header as is_header_kind};
ghost use Rattle.analysis.specs.Below.source_files.KeptFiles.{kept_at};
ghost use Rattle.trim_rules.specs.Held.{AreReasonsOf};
ghost use Rattle.trim_rules.specs.JudgedLines.{flat, is_open, judged_in, told_judgement, AreKnown};
ghost use Rattle.trim_rules.specs.Judging.{told_of, unless, AreStarted, Learns};
ghost use Rattle.trim_rules.specs.Reasons.{reason, why};
ghost use Rattle.cs_base.specs.declared.positions.Pos.{Pos as Position};
ghost use Rattle.unused_names.specs.Lines.{is_position};
ghost use Rattle.trim_rules.specs.Staying.{event_why, file_has_header, has_header, inclusion_why, is_header_line, names_header, unit_why, AreJudged};

use crate::reached::{items_in, toks_in};
use crate::reasons::{Reason, Why};
use crate::unit_reasons::UnitReasons;
use analysis::{AllUnits, Analysis, Event, KeptFile, UnitAt};
use cs_base::{Kind, Memory, Pos, Tok};
use indexmap::IndexMap;
use line_shape::Item;
use std::alloc::Global;
use unused_names::{is_enter, unneeded};

/// An include line that brings nothing which is used, and why it stays, if it does.
#[derive(Drop)]
pub struct Judged {
    pub at: Pos,
    pub why: Option<Why>,
}

// What is known of each line: why it stays, if it does.
#[derive(Drop)]
struct Judging<'a> {
    whys: IndexMap<(u32, u32), Option<Reason<'a>>>,
}

// A header name.
fn is_header(tok: &Tok) -> bool
    ensures { result ≡ is_header_kind tok.now.kind }
{
    match tok.kind() {
        Kind::Header => true,
        _ => false,
    }
}

// The third token of an item is a header name.
fn names_header(file: &KeptFile, item: &Item) -> bool
    ensures { result ≡ names_header (item_text (tokens_of file.now.number file.now.bytes) item.now) }
{
    match toks_in(file, item).get(2) {
        Some(tok) => is_header(tok),
        None => false,
    }
}

impl<'a> Judging<'a> {
    fn new(alloc: Global) -> Judging<'a>
        ensures { (p : Position) → told_of result.whys p ≡ None }
    {
        Judging {
            whys: IndexMap::new(alloc),
        }
    }

    // What is known of a line from now on.
    fn know(&mut self, p: Pos, why: Option<Reason<'a>>) -> Result<(), Memory>
        ensures { OnOk result ((q : Position) → told_of self.new.whys q ≡ cond (is_position p q) (Some (option_map reason why.entry)) (told_of self.old.whys q)) }
    {
        self.whys.insert((p.file, p.at), why)?;
        Ok(())
    }

    // Each of these lines, as if its operand were expanded.
    fn begun(alloc: Global, lines: &[Pos]) -> Result<Judging<'a>, Memory>
        ensures { IfOk result (λ j. AreStarted lines.now (told_of j.whys)) }
    {
        let mut judging = Judging::new(alloc);
        for p in lines {
            judging.know(*p, Some(Reason::Computed))?;
        }
        Ok(judging)
    }

    // What is known of a line; none where it is not judged.
    fn told(&self, p: Pos) -> Option<Option<Reason<'a>>>
        ensures { option_map (option_map reason) result ≡ told_of self.now.whys p }
    {
        self.whys.get(&(p.file, p.at)).copied()
    }

    // A line is not kept for its operand, if this item is it and names a header.
    fn note_item(&mut self, file: &KeptFile, item: &Item) -> Result<(), Memory>
        ensures { OnOk result (Learns (λ p w. unless (is_header_line p (item_text (tokens_of file.now.number file.now.bytes) item.now)) w)
            (told_of self.old.whys) (told_of self.new.whys)) }
    {
        if !names_header(file, item) {
            return Ok(());
        }
        let Some(_known) = self.told(item.at) else {
            return Ok(());
        };
        self.know(item.at, None)?;
        Ok(())
    }

    fn note_file(&mut self, file: &KeptFile) -> Result<(), Memory>
        ensures { OnOk result (Learns (λ p w. unless (file_has_header p file.now) w) (told_of self.old.whys) (told_of self.new.whys)) }
    {
        let items = items_in(file);
        for item in items {
            self.note_item(file, item)?;
        }
        Ok(())
    }

    // The same for the kept file with this number, if there is one.
    fn note_numbered(&mut self, a: &Analysis, number: u32) -> Result<(), Memory>
        ensures { OnOk result (Learns (λ p w. unless (option_map_or (file_has_header p) (kept_at a.now.value.table number) false) w)
            (told_of self.old.whys) (told_of self.new.whys)) }
    {
        match a.file(number) {
            Some(file) => self.note_file(file),
            None => Ok(()),
        }
    }

    fn note_files(&mut self, a: &Analysis) -> Result<(), Memory>
        ensures { OnOk result (Learns (λ p w. unless (has_header a.now.value.table p) w) (told_of self.old.whys) (told_of self.new.whys)) }
    {
        for number in 0..a.files() {
            self.note_numbered(a, number)?;
        }
        Ok(())
    }

    // An event begins an inclusion by a line that nothing keeps yet.
    fn is_open(&self, event: &Event) -> bool
        ensures { result ≡ is_open (told_of self.now.whys) event.now }
    {
        if !is_enter(event.kind) {
            return false;
        }
        match self.told(event.at) {
            Some(None) => true,
            Some(Some(_)) => false,
            None => false,
        }
    }

    fn any_open(&self, events: &[Event]) -> bool
        ensures { result ≡ list_any (is_open (told_of self.now.whys)) events.now }
    {
        events.iter().any(|event| self.is_open(event))
    }

    // The inclusion that an event begins may keep its line.
    fn note_event(
        &mut self,
        reasons: &UnitReasons<'a>,
        events: &[Event],
        k: usize,
    ) -> Result<(), Memory>
        requires within { k < length events.now }
        requires own { reasons.now.text.now.events ≡ events.now }
        requires count { reasons.now.count ≡ length reasons.now.text.now.toks }
        ensures { OnOk result ((table : Table) (u : UnitAnalysis) → AreReasonsOf table u reasons.now
            → Learns (λ p w. option_or w (event_why table p u k)) (told_of self.old.whys) (told_of self.new.whys)) }
    {
        let event = &events[k];
        if !self.is_open(event) {
            return Ok(());
        }
        let why = reasons.why_in(k);
        self.know(event.at, why)?;
        Ok(())
    }

    // The inclusions of a unit may.
    fn note_unit(
        &mut self,
        alloc: Global,
        a: &'a Analysis,
        unit: &'a UnitAt<'_>,
    ) -> Result<(), Memory>
        ensures { OnOk result (Learns (λ p w. option_or w (unit_why a.now.value.table p unit.now)) (told_of self.old.whys) (told_of self.new.whys)) }
    {
        let events = unit.text().events();
        if !self.any_open(events) {
            return Ok(());
        }
        let reasons = UnitReasons::of(alloc, a, unit)?;
        self.note_events(&reasons, events)?;
        Ok(())
    }

    // So may those of all its events.
    fn note_events(&mut self, reasons: &UnitReasons<'a>, events: &[Event]) -> Result<(), Memory>
        requires own { reasons.now.text.now.events ≡ events.now }
        requires count { reasons.now.count ≡ length reasons.now.text.now.toks }
        ensures { OnOk result ((table : Table) (u : UnitAnalysis) → AreReasonsOf table u reasons.now
            → Learns (λ p w. option_or w (unit_why table p u)) (told_of self.old.whys) (told_of self.new.whys)) }
    {
        for k in 0..events.len() {
            self.note_event(reasons, events, k)?;
        }
        Ok(())
    }

    // The inclusions of all units may.
    fn note_units(
        &mut self,
        alloc: Global,
        a: &'a Analysis,
        units: &'a [UnitAt<'_>],
    ) -> Result<(), Memory>
        requires { units.now ≡ a.now.value.units }
        ensures { OnOk result (Learns (λ p w. option_or w (inclusion_why a.now.value p)) (told_of self.old.whys) (told_of self.new.whys)) }
    {
        for n in 0..units.len() {
            self.note_unit(alloc, a, &units[n])?;
        }
        Ok(())
    }

    // Why a line stays, if it does.
    fn why_of(&self, alloc: Global, p: Pos) -> Result<Option<Why>, Memory>
        ensures { IfOk result (λ w. option_map why w ≡ flat (told_of self.now.whys p)) }
    {
        match self.told(p) {
            Some(Some(reason)) => Ok(Some(reason.kept(alloc)?)),
            Some(None) => Ok(None),
            None => Ok(None),
        }
    }

    // The judgement of a line.
    fn judged(&self, alloc: Global, p: Pos) -> Result<Judged, Memory>
        ensures { IfOk result (λ j. judged_in j ≡ told_judgement (told_of self.now.whys) p) }
    {
        let why = self.why_of(alloc, p)?;
        Ok(Judged { at: p, why })
    }

    // The judgements of lines.
    fn judgements(&self, alloc: Global, lines: &[Pos]) -> Result<Vec<Judged>, Memory>
        ensures { IfOk result (λ js. map judged_in js.items ≡ map (told_judgement (told_of self.now.whys)) lines.now) }
    {
        let mut out = Vec::new(alloc);
        for p in lines {
            out.push(self.judged(alloc, *p)?)?;
        }
        Ok(out)
    }

    // What is known of each of these lines in the end.
    fn of(alloc: Global, all: &'a AllUnits<'_>, lines: &[Pos]) -> Result<Judging<'a>, Memory>
        ensures { IfOk result (λ j. AreKnown all.now.value lines.now (told_of j.whys)) }
    {
        let mut judging = Judging::begun(alloc, lines)?;
        let a = all.analysis();
        let units = all.units();
        judging.note_files(a)?;
        judging.note_units(alloc, a, units)?;
        Ok(judging)
    }
}

/// The judgement of each include line that brings nothing which is used, in the order of their places.
pub fn judge(alloc: Global, a: &Analysis) -> Result<Vec<Judged>, Memory>
    ensures { IfOk result (λ js. AreJudged a.now.value (map judged_in js.items)) }
{
    let lines = unneeded(alloc, a)?;
    let all = lines.as_slice();
    let units = AllUnits::of(alloc, a)?;
    let judging = Judging::of(alloc, &units, all)?;
    let js = judging.judgements(alloc, all)?;
    Ok(js)
}
