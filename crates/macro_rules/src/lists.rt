// Lists of macros and of their calls, in a file.
ghost use Rattle.std.specs.Prelude.{◌≡◌, ◌+◌, ◌-◌, ◌<◌, ◌++◌, ◌∷◌, [], if◌then◌else◌, drop, take, length, IfOk, OnOk};
ghost use Rattle.std.specs.List.{flat_map};
ghost use Rattle.list_cuts.specs.Cuts.{numbers};
ghost use Rattle.macro_rules.specs.Files.{in_items};
ghost use Rattle.macro_rules.specs.Levels.{separates};
ghost use Rattle.macro_rules.specs.Lists.{marks_from, is_open_at, list_at, own_list, own_lists, is_called, call_list, call_lists, item_lists, lists_in};

use crate::files::{is_define, is_run, item_toks, items_in};
use crate::levels::{closes, level_behind, separates};
use crate::lines::has_list;
use crate::positions::Positions;
use analysis::KeptFile;
use cs_base::{Memory, Tok};
use line_shape::{Item, is_open};
use std::alloc::Global;
use std::marker::Model;

/// A list: the numbers of the tokens of its file that are its `(`, the commas between its items, and its `)`. Contracts
/// see a list.
#[derive(Drop)]
pub struct Marks {
    marks: Vec<usize>,
}

impl Model for Marks {
    ghost use Rattle.std.specs.Prelude.{ℕ, List};

    ghost Value = { List ℕ };

    ghost view = { λ m. m.marks.items };
}

impl Marks {
    fn new(marks: Vec<usize>) -> Marks
        ensures { result ≡ marks.items }
    {
        Marks { marks }
    }

    pub fn as_slice(&self) -> &[usize]
        ensures { result.now ≡ self.now }
    {
        self.marks.as_slice()
    }
}

/// The tokens up to a number, of those that there are.
pub(crate) fn tokens_to(toks: &[Tok], to: u32) -> &[Tok]
    ensures { result.now ≡ take to toks.now }
{
    let end = (to as usize).min(toks.len());
    &toks[..end]
}

/// Whether token `k` is a `(`.
pub(crate) fn is_open_at(toks: &[Tok], k: usize) -> bool
    ensures { result ≡ is_open_at toks.now k }
{
    match toks.get(k) {
        Some(tok) => is_open(tok),
        None => false,
    }
}

// Adds the number of a token, if that separates two items.
fn push_mark(marks: &mut Vec<usize>, level: usize, k: usize, tok: &Tok) -> Result<(), Memory>
    ensures { OnOk result (marks.new.items ≡ (if separates level tok.now then marks.old.items ++ k ∷ [] else marks.old.items)) }
{
    if separates(level, tok) {
        marks.push(k)?;
    }
    Ok(())
}

// Adds the list whose `(` is token `begin`, if it has its `)`.
fn push_marks(alloc: Global, out: &mut Vec<Marks>, toks: &[Tok], begin: usize) -> Result<(), Memory>
    requires { begin < length toks.now }
    ensures { OnOk result (out.new.items ≡ out.old.items ++ marks_from (begin ∷ []) 0 (begin + 1) (drop (begin + 1) toks.now)) }
{
    let mut marks = Vec::new(alloc);
    marks.push(begin)?;
    let mut level: usize = 0;
    let mut k = begin + 1;
    'tokens: while k < toks.len() {
        let tok = &toks[k];
        if closes(level, tok) {
            marks.push(k)?;
            out.push(Marks::new(marks))?;
            return Ok(());
        }
        push_mark(&mut marks, level, k, tok)?;
        level = level_behind(level, tok);
        k += 1;
    }
    Ok(())
}

// Adds the list whose `(` is token `k`, if it is one.
fn push_list_at(alloc: Global, out: &mut Vec<Marks>, toks: &[Tok], k: usize) -> Result<(), Memory>
    ensures { OnOk result (out.new.items ≡ out.old.items ++ list_at toks.now k) }
{
    if is_open_at(toks, k) {
        push_marks(alloc, out, toks, k)
    } else {
        Ok(())
    }
}

// Adds the list of a macro, if it is one of these and function-like.
fn push_own(
    alloc: Global,
    out: &mut Vec<Marks>,
    macros: &Positions,
    toks: &[Tok],
    item: &Item,
    line: &[Tok],
    name: &Tok,
) -> Result<(), Memory>
    ensures { OnOk result (out.new.items ≡ out.old.items ++ own_list macros.now toks.now item.now line.now name.now) }
{
    if macros.has(name.at()) && has_list(line) {
        push_list_at(alloc, out, tokens_to(toks, item.to), item.from as usize + 3)
    } else {
        Ok(())
    }
}

// The same for an item.
fn push_item_own(
    alloc: Global,
    out: &mut Vec<Marks>,
    macros: &Positions,
    toks: &[Tok],
    item: &Item,
) -> Result<(), Memory>
    ensures { OnOk result (out.new.items ≡ out.old.items ++ own_lists macros.now toks.now item.now) }
{
    if !is_define(item.kind) {
        return Ok(());
    }
    let line = item_toks(toks, item);
    match line.get(2) {
        Some(name) => push_own(alloc, out, macros, toks, item, line, name),
        None => Ok(()),
    }
}

/// Whether a name that is called stands at token `k`.
pub(crate) fn is_called(calls: &Positions, toks: &[Tok], k: usize) -> bool
    ensures { result ≡ is_called calls.now toks.now k }
{
    match toks.get(k) {
        Some(tok) => calls.has(tok.at()),
        None => false,
    }
}

// Adds the list behind such a name.
fn push_call(
    alloc: Global,
    out: &mut Vec<Marks>,
    calls: &Positions,
    toks: &[Tok],
    k: usize,
) -> Result<(), Memory>
    ensures { OnOk result (out.new.items ≡ out.old.items ++ call_list calls.now toks.now k) }
{
    if is_called(calls, toks, k) {
        push_list_at(alloc, out, toks, k + 1)
    } else {
        Ok(())
    }
}

// The same for the tokens from one number to before another.
fn push_calls(
    alloc: Global,
    out: &mut Vec<Marks>,
    calls: &Positions,
    toks: &[Tok],
    from: u32,
    to: u32,
) -> Result<(), Memory>
    ensures { OnOk result (out.new.items ≡ out.old.items ++ flat_map (call_list calls.now toks.now) (numbers from (to - from))) }
{
    for k in from..to {
        push_call(alloc, out, calls, toks, k as usize)?;
    }
    Ok(())
}

// The same for an item.
fn push_item_calls(
    alloc: Global,
    out: &mut Vec<Marks>,
    calls: &Positions,
    toks: &[Tok],
    item: &Item,
) -> Result<(), Memory>
    ensures { OnOk result (out.new.items ≡ out.old.items ++ call_lists calls.now toks.now item.now) }
{
    if is_run(item.kind) {
        push_calls(
            alloc,
            out,
            calls,
            tokens_to(toks, item.to),
            item.from,
            item.to,
        )
    } else {
        Ok(())
    }
}

// Adds the lists of macros and of calls in an item.
fn push_item(
    alloc: Global,
    out: &mut Vec<Marks>,
    macros: &Positions,
    calls: &Positions,
    toks: &[Tok],
    item: &Item,
) -> Result<(), Memory>
    ensures { OnOk result (out.new.items ≡ out.old.items ++ item_lists macros.now calls.now toks.now item.now) }
{
    push_item_own(alloc, out, macros, toks, item)?;
    push_item_calls(alloc, out, calls, toks, item)
}

fn push_items(
    alloc: Global,
    out: &mut Vec<Marks>,
    macros: &Positions,
    calls: &Positions,
    toks: &[Tok],
    items: &[Item],
) -> Result<(), Memory>
    ensures { OnOk result (out.new.items ≡ out.old.items ++ flat_map (item_lists macros.now calls.now toks.now) items.now) }
{
    for item in items {
        push_item(alloc, out, macros, calls, toks, item)?;
    }
    Ok(())
}

/// The lists of a file: those of macros whose names stand here, and those of calls of names that stand here.
pub(crate) fn lists_in(
    alloc: Global,
    macros: &Positions,
    calls: &Positions,
    file: &KeptFile,
) -> Result<Vec<Marks>, Memory>
    ensures { IfOk result (λ lists. lists.items ≡ lists_in macros.now calls.now file.now) }
{
    let mut out = Vec::new(alloc);
    push_items(
        alloc,
        &mut out,
        macros,
        calls,
        file.text().toks(),
        items_in(file),
    )?;
    Ok(out)
}

fn push_all_calls(
    alloc: Global,
    out: &mut Vec<Marks>,
    calls: &Positions,
    toks: &[Tok],
    items: &[Item],
) -> Result<(), Memory>
    ensures { OnOk result (out.new.items ≡ out.old.items ++ flat_map (call_lists calls.now toks.now) items.now) }
{
    for item in items {
        push_item_calls(alloc, out, calls, toks, item)?;
    }
    Ok(())
}

/// Those of calls alone.
pub(crate) fn call_lists(
    alloc: Global,
    calls: &Positions,
    file: &KeptFile,
) -> Result<Vec<Marks>, Memory>
    ensures { IfOk result (λ lists. lists.items ≡ in_items (call_lists calls.now) file.now) }
{
    let mut out = Vec::new(alloc);
    push_all_calls(alloc, &mut out, calls, file.text().toks(), items_in(file))?;
    Ok(out)
}
