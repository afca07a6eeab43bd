// What units begin with alike is processed once, and put in where another unit begins so.
ghost use Rattle.std.specs.Prelude.{◌≡◌, ◌≤◌, ◌+◌, ◌++◌, ◌∷◌, [], None, Some, true, IfOk, IfSome, IsSome, OnOk, length, map, slice_get};
ghost use Rattle.std.specs.Bool.{OnTrue};
ghost use Rattle.std.specs.Str.{bytes_eq};
ghost use Rattle.cs_base.specs.Limits.{most_work};
ghost use Rattle.source_files.specs.Files.{Table};
ghost use Rattle.unit_steps.specs.Below.macro_body.Live.{table_of};
ghost use Rattle.unit_steps.specs.Below.macro_body.Sound.{AllTraced};
ghost use Rattle.unit_steps.specs.Moments.{state_in, IsAble, GoesOn};
ghost use Rattle.include_tree.specs.declared.fronts.Front.{Front as AFront};
ghost use Rattle.include_tree.specs.Fronts.{StartsSo, AreLinesOf, Fits, IsSameTrail, trail_texts, with_piece, with_pieces, front_state, IsAlong, IsFront, AreFronts};

use crate::leads::Lead;
use cs_base::{Memory, Pos, Standard, Text, Unit};
use std::alloc::Global;
use std::rc::Rc;
use unit_steps::{FirstNames, Macros, Progress, UnitText, Work};

const MOST_FRONTS: usize = 8;

const LEAST_TOKENS: u32 = 1024;

/// What a unit begins with before its own file: the number of its pseudo file; and what else headers are found by.
#[derive(Drop)]
pub struct Start {
    pub pseudo: u32,
    pub standard: Standard,
    pub qpath: Vec<Text>,
    pub ipath: Vec<Text>,
}

/// The file of an include line, and where a search for the next file of the name begins in it.
#[derive(Clone, Copy)]
pub struct Line {
    pub number: u32,
    pub behind: Option<u32>,
}

/// Include lines one behind the other, and the text that the file of each gave.
#[derive(Drop)]
pub struct Trail {
    pub lines: Vec<Line>,
    pub pieces: Vec<Rc<UnitText>>,
}

/// What units of one start begin with, and what is known behind it.
#[derive(Drop)]
pub struct Front {
    pub start: Start,
    pub trail: Trail,
    pub toks: u32,
    pub macros: Macros,
    pub names: FirstNames,
    pub work: Work,
    pub once: Vec<u32>,
}

/// What the unit before began with.
#[derive(Drop)]
pub struct Before {
    pub start: Start,
    pub lines: Vec<Line>,
}

/// The fronts that are kept, and what the unit before began with.
#[derive(Drop)]
pub struct Fronts {
    pub all: Vec<Front>,
    pub last: Option<Before>,
}

fn copied_paths(alloc: Global, paths: &[Text]) -> Result<Vec<Text>, Memory>
    ensures { IfOk result (λ all. all.items ≡ paths.now) }
{
    let mut all = Vec::new(alloc);
    for k in 0..paths.len() {
        all.push(Text::new(alloc, paths[k].bytes())?)?;
    }
    Ok(all)
}

fn is_same(a: &Text, b: &Text) -> bool
    ensures { result ≡ bytes_eq a.now b.now }
{
    a.bytes() == b.bytes()
}

// Two lists of paths are the same.
fn are_same(a: &[Text], b: &[Text]) -> bool
    ensures { OnTrue result (a.now ≡ b.now) }
{
    if a.len() != b.len() {
        return false;
    }
    for k in 0..a.len() {
        if is_same(&a[k], &b[k]) {} else {
            return false;
        }
    }
    true
}

impl Start {
    fn of(alloc: Global, unit: &Unit, pseudo: u32) -> Result<Start, Memory>
        ensures { IfOk result (λ start. StartsSo start unit.now pseudo) }
    {
        Ok(Start {
            pseudo,
            standard: unit.standard(),
            qpath: copied_paths(alloc, unit.qpath())?,
            ipath: copied_paths(alloc, unit.ipath())?,
        })
    }

    // A unit with this pseudo file starts so.
    fn is_of(&self, unit: &Unit, pseudo: u32) -> bool
        ensures { OnTrue result (StartsSo self.now unit.now pseudo) }
    {
        self.pseudo == pseudo
            && self.standard == unit.standard()
            && are_same(self.qpath.as_slice(), unit.qpath())
            && are_same(self.ipath.as_slice(), unit.ipath())
    }
}

// It is this line.
fn is_line(line: Line, lead: Lead) -> bool
    ensures { OnTrue result ((line.number ≡ lead.number) × (line.behind ≡ lead.behind)) }
{
    line.number == lead.number && line.behind == lead.behind
}

fn is_same_line(a: Line, b: Line) -> bool {
    a.number == b.number && a.behind == b.behind
}

// These lines begin with those.
fn begins_with(lines: &[Line], front: &[Line]) -> bool {
    for k in 0..front.len() {
        if k >= lines.len() || !is_same_line(lines[k], front[k]) {
            return false;
        }
    }
    true
}

// A text more, which is shared.
fn add_piece(all: &mut Vec<Rc<UnitText>>, piece: &Rc<UnitText>) -> Result<(), Memory>
    ensures { OnOk result (map (λ r. r.value) all.new.items ≡ map (λ r. r.value) all.old.items ++ piece.now.value ∷ []) }
{
    all.push(piece.clone()?)?;
    Ok(())
}

impl Trail {
    pub(crate) fn new(alloc: Global) -> Trail
        ensures { (result.lines.items ≡ []) × (trail_texts result ≡ []) }
    {
        Trail {
            lines: Vec::new(alloc),
            pieces: Vec::new(alloc),
        }
    }

    /// How many lines it has. More than 2^32, which no file has, are answered by `Memory`.
    pub(crate) fn count(&self) -> Result<u32, Memory>
        ensures { IfOk result (λ n. n ≡ length self.now.lines.items) }
    {
        let count = self.lines.len();
        if count > u32::MAX as usize {
            return Err(Memory);
        }
        Ok(count as u32)
    }

    // The same; the texts are shared.
    fn copied(&self, alloc: Global) -> Result<Trail, Memory>
        ensures { IfOk result (λ trail. IsSameTrail trail self.now) }
    {
        let mut pieces = Vec::new(alloc);
        for k in 0..self.pieces.len() {
            add_piece(&mut pieces, &self.pieces[k])?;
        }
        Ok(Trail {
            lines: Vec::from_slice(alloc, &self.lines)?,
            pieces,
        })
    }

    // A line more.
    pub(crate) fn push(&mut self, alloc: Global, line: Line, piece: UnitText) -> Result<(), Memory>
        ensures { OnOk result ((self.new.lines.items ≡ self.old.lines.items ++ line ∷ []) × (trail_texts self.new ≡ trail_texts self.old ++ piece ∷ [])) }
    {
        self.lines.push(line)?;
        self.pieces.push(Rc::new(alloc, piece)?)?;
        Ok(())
    }

    // A file that begins with these lines begins with those of the trail.
    fn leads(&self, leads: &[Lead]) -> bool
        ensures { OnTrue result (AreLinesOf self.now.lines.items leads.now) }
    {
        for k in 0..self.lines.len() {
            if k >= leads.len() || !is_line(self.lines[k], leads[k]) {
                return false;
            }
        }
        true
    }
}

impl Front {
    // What is known at a moment of a unit, behind this trail.
    fn of(
        alloc: Global,
        unit: &Unit,
        pseudo: u32,
        trail: Trail,
        p: &Progress,
    ) -> Result<Front, Memory>
        requires able { IsAble p.now }
        requires place { p.now.behind ≡ None }
        ensures start { IfOk result (λ f. StartsSo f.start unit.now pseudo) }
        ensures trail { IfOk result (λ f. f.trail ≡ trail) }
        ensures state { IfOk result (λ f. (table : Table) → front_state table f ≡ state_in table p.now) }
        ensures little { IfOk result (λ f. f.work.left ≤ most_work) }
        ensures traced { IfOk result (λ f. AllTraced (table_of f.macros)) }
    {
        let start = Start::of(alloc, unit, pseudo)?;
        let macros = p.macros.copied()?;
        let names = p.names.copied()?;
        let once = Vec::from_slice(alloc, &p.once)?;
        Ok(Front {
            start,
            trail,
            toks: p.text.before(),
            macros,
            names,
            work: p.work,
            once,
        })
    }

    // A unit may begin with it.
    fn fits(&self, unit: &Unit, pseudo: u32, leads: &[Lead], most: u32) -> bool
        ensures { OnTrue result (Fits unit.now pseudo leads.now most self.now) }
    {
        self.toks <= most && self.start.is_of(unit, pseudo) && self.trail.leads(leads)
    }
}

impl Fronts {
    /// None is kept.
    pub fn new(alloc: Global) -> Fronts
        ensures { (table : Table) → AreFronts table result.all.items }
    {
        Fronts {
            all: Vec::new(alloc),
            last: None,
        }
    }

    // The place of the longest front that fits.
    fn place(&self, unit: &Unit, pseudo: u32, leads: &[Lead], most: u32) -> Option<usize>
        ensures { IfSome result (λ f. (front : AFront) × (slice_get self.now.all.items f ≡ Some front) × Fits unit.now pseudo leads.now most front) }
    {
        let mut best = None;
        let mut size = 0;
        for k in 0..self.all.len() {
            let count = self.all[k].trail.lines.len();
            if count > size && self.all[k].fits(unit, pseudo, leads, most) {
                best = Some(k);
                size = count;
            }
        }
        best
    }

    // The longest front that fits.
    pub(crate) fn longest(
        &self,
        unit: &Unit,
        pseudo: u32,
        leads: &[Lead],
        most: u32,
    ) -> Option<&Front>
        ensures fits { IfSome result (λ f. Fits unit.now pseudo leads.now most f.now) }
        ensures is { IfSome result (λ f. (table : Table) → AreFronts table self.now.all.items → IsFront table f.now) }
    {
        match self.place(unit, pseudo, leads, most) {
            Some(k) => Some(&self.all[k]),
            None => None,
        }
    }

    // How the unit before went on behind these lines, if it began so.
    pub(crate) fn lines_before(
        &self,
        alloc: Global,
        unit: &Unit,
        pseudo: u32,
        lines: &[Line],
    ) -> Result<Vec<Line>, Memory> {
        match &self.last {
            Some(last) => {
                if last.start.is_of(unit, pseudo) && begins_with(last.lines.as_slice(), lines) {
                    Ok(Vec::from_slice(alloc, &last.lines)?)
                } else {
                    Ok(Vec::new(alloc))
                }
            }
            None => Ok(Vec::new(alloc)),
        }
    }

    // What this unit began with.
    pub(crate) fn tell(
        &mut self,
        alloc: Global,
        unit: &Unit,
        pseudo: u32,
        leads: &[Lead],
    ) -> Result<(), Memory>
        ensures { self.new.all ≡ self.old.all }
    {
        let mut lines = Vec::new(alloc);
        for k in 0..leads.len() {
            lines.push(Line {
                number: leads[k].number,
                behind: leads[k].behind,
            })?;
        }
        self.last = Some(Before {
            start: Start::of(alloc, unit, pseudo)?,
            lines,
        });
        Ok(())
    }

    // Whether a front is worth its while that puts out so many tokens more.
    fn may_keep(&self, from: u32, to: u32) -> bool {
        self.all.len() < MOST_FRONTS && to >= from && to - from >= LEAST_TOKENS
    }

    // A front of what was processed up to here.
    fn add(
        &mut self,
        alloc: Global,
        unit: &Unit,
        pseudo: u32,
        trail: Trail,
        p: &Progress,
    ) -> Result<(), Memory>
        requires able { IsAble p.now }
        requires place { p.now.behind ≡ None }
        ensures { OnOk result ((table : Table) → IsAlong unit.now table pseudo trail (state_in table p.now) p.now.text → AreFronts table self.old.all.items → AreFronts table self.new.all.items) }
    {
        let front = Front::of(alloc, unit, pseudo, trail, p)?;
        self.all.push(front)?;
        Ok(())
    }

    /// The same, where it is worth its while: where enough tokens came behind the first `from`.
    pub(crate) fn keep(
        &mut self,
        alloc: Global,
        unit: &Unit,
        pseudo: u32,
        trail: Trail,
        p: &Progress,
        from: u32,
    ) -> Result<(), Memory>
        requires able { IsAble p.now }
        requires place { p.now.behind ≡ None }
        ensures { OnOk result ((table : Table) → IsAlong unit.now table pseudo trail (state_in table p.now) p.now.text → AreFronts table self.old.all.items → AreFronts table self.new.all.items) }
    {
        if self.may_keep(from, p.text.before()) {
            return self.add(alloc, unit, pseudo, trail, p);
        }
        Ok(())
    }
}

fn lead_in(leads: &[Lead], k: u32) -> &Lead
    requires { IsSome (slice_get leads.now k) }
    ensures { slice_get leads.now k ≡ Some result.now }
{
    match leads.get(k as usize) {
        Some(lead) => lead,
        None => unreachable!(),
    }
}

// The piece of a line, item number `k` of file `main`, is put in.
fn put_piece(
    p: &mut Progress,
    main: u32,
    k: u32,
    lead: Lead,
    piece: &UnitText,
) -> Result<(), Memory>
    requires able { IsAble p.old }
    requires few { length p.old.text.toks + length piece.now.toks ≤ p.old.most }
    ensures most { p.new.most ≡ p.old.most }
    ensures put { OnOk result (p.new ≡ record p.old { text = with_piece main k lead piece.now p.old.text }) }
{
    p.reach(main, k, false)?;
    p.enter(lead.at, lead.number)?;
    p.text.push_text(piece)?;
    p.leave(lead.at, lead.number)?;
    Ok(())
}

// What is known at the end of a front, its text aside.
fn set_end(alloc: Global, front: &Front, p: &mut Progress) -> Result<(), Memory>
    requires able { IsAble p.old }
    requires little { front.now.work.left ≤ most_work }
    requires traced { AllTraced (table_of front.now.macros) }
    ensures goes_on { GoesOn p.old p.new result }
    ensures text { p.new.text ≡ p.old.text }
    ensures state { OnOk result ((table : Table) → state_in table p.new ≡ record (front_state table front.now) { before = length p.old.text.toks; behind = p.old.behind }) }
{
    let macros = front.macros.copied()?;
    let names = front.names.copied()?;
    let once = Vec::from_slice(alloc, &front.once)?;
    p.macros = macros;
    p.names = names;
    p.work = front.work;
    p.once = once;
    Ok(())
}

/// A front is put in at the begin of file `main`, which begins with these lines.
pub(crate) fn put_front(
    alloc: Global,
    front: &Front,
    p: &mut Progress,
    main: u32,
    leads: &[Lead],
) -> Result<Trail, Memory>
    requires able { IsAble p.old }
    requires lines { AreLinesOf front.now.trail.lines.items leads.now }
    requires texts { length (trail_texts front.now.trail) ≡ length front.now.trail.lines.items }
    requires few { length (with_pieces main 0 leads.now (trail_texts front.now.trail) p.old.text).toks ≤ p.old.most }
    requires little { front.now.work.left ≤ most_work }
    requires traced { AllTraced (table_of front.now.macros) }
    ensures goes_on { GoesOn p.old p.new result }
    ensures same { IfOk result (λ trail. IsSameTrail trail front.now.trail) }
    ensures text { OnOk result (p.new.text ≡ with_pieces main 0 leads.now (trail_texts front.now.trail) p.old.text) }
    ensures state { OnOk result ((table : Table) → state_in table p.new ≡ record (front_state table front.now) { before = length p.new.text.toks; behind = p.old.behind }) }
{
    let count = front.trail.count()?;
    for k in 0..count {
        put_piece(
            p,
            main,
            k,
            *lead_in(leads, k),
            &front.trail.pieces[k as usize],
        )?;
    }
    set_end(alloc, front, p)?;
    let trail = front.trail.copied(alloc)?;
    Ok(trail)
}
