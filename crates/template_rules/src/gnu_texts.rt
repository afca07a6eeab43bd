// Texts for the assembler that have the name of a function.
ghost use Rattle.std.specs.Borrow.{Bor};
ghost use Rattle.std.specs.Prelude.{◌≡◌, ◌-◌, ◌++◌, List, ℕ, map, IfOk, OnOk};
ghost use Rattle.std.specs.List.{flat_map, list_any};
ghost use Rattle.cs_base.specs.declared.causes.Cause.TheVariants as cause;
ghost use Rattle.gnu_lists.specs.WholeWords.{holds_word};
ghost use Rattle.offences.specs.First.{standing, FirstThen};
ghost use Rattle.template_rules.specs.GnuOffences.{brought_place, declared_text, has_word, joined, spellings, text_place, text_toks};

use crate::dependences::spelling_at;
use crate::functions::Functions;
use crate::unit_functions::{UnitFunctions, declares_function};
use analysis::{Analysis, Name};
use cs_base::{Cause, Memory, Tok};
use gnu_lists::{Adjacent, holds_word, push_given};
use offences::{Offence, first_with};
use std::alloc::Global;

/// A cause where token `k` was brought.
pub(crate) fn at_brought(
    a: &Analysis,
    toks: &[Tok],
    k: u32,
    cause: Cause,
    first: Option<Offence>,
) -> Option<Offence>
    ensures { FirstThen a.now.value.table (standing cause (brought_place toks.now k)) first result }
{
    match toks.get(k as usize) {
        Some(tok) => first_with(a, first, tok.at(), cause),
        None => first,
    }
}

// Adds the spelling of a name, if it is that of a declarator of a function.
fn push_spelling<'a>(
    out: &mut Vec<&'a [u8]>,
    unit: &UnitFunctions<'a>,
    name: Name,
) -> Result<(), Memory>
    ensures { OnOk result (map (λ t. t.now) out.new.items ≡ map (λ t. t.now) out.old.items
        ++ declared_text unit.now.class.members unit.now.text.now.toks unit.now.bound.now.names name) }
{
    if declares_function(unit, name) {
        out.push(spelling_at(unit.text.toks(), name.index))?;
    }
    Ok(())
}

// The same for all names of a unit.
fn push_spellings<'a>(out: &mut Vec<&'a [u8]>, unit: &UnitFunctions<'a>) -> Result<(), Memory>
    ensures { OnOk result (map (λ t. t.now) out.new.items ≡ map (λ t. t.now) out.old.items
        ++ flat_map (declared_text unit.now.class.members unit.now.text.now.toks unit.now.bound.now.names) unit.now.bound.now.names) }
{
    let names = unit.bound.names();
    for name in names {
        push_spelling(out, unit, *name)?;
    }
    Ok(())
}

/// The spellings by which the functions are declared.
pub(crate) fn spellings<'a>(
    alloc: Global,
    functions: &Functions<'a>,
) -> Result<Vec<&'a [u8]>, Memory>
    ensures { IfOk result (λ out. map (λ t. t.now) out.items ≡ spellings functions.now.members functions.now.analysis.value) }
{
    let mut out = Vec::new(alloc);
    let units = functions.units();
    for unit in units {
        push_spellings(&mut out, unit)?;
    }
    Ok(out)
}

// What strings side by side give to the assembler.
fn joined(alloc: Global, toks: &[Tok]) -> Result<Vec<u8>, Memory>
    ensures { IfOk result (λ text. text.items ≡ joined toks.now) }
{
    let mut out = Vec::new(alloc);
    for tok in toks {
        push_given(&mut out, tok.text())?;
    }
    Ok(out)
}

// Whether one of these is a word of a text.
fn has_word(text: &[u8], words: &[&[u8]]) -> bool
    ensures { result ≡ has_word text.now (map (λ t. t.now) words.now) }
{
    let mut left = words;
    while let [word, more @ ..] = left {
        if holds_word(word, text) {
            return true;
        }
        left = more;
    }
    false
}

// The tokens of a text.
fn text_toks(toks: &[Tok], text: Adjacent) -> &[Tok]
    ensures { result.now ≡ text_toks toks.now text }
{
    let from = text.from as usize;
    let to = text.to as usize;
    if from > to || from > toks.len() {
        return &[];
    }
    let behind = &toks[from..];
    let count = to - from;
    if count > behind.len() {
        behind
    } else {
        &behind[..count]
    }
}

// `AssemblerText` where a text begins, if it has one of these words.
fn in_text(
    alloc: Global,
    a: &Analysis,
    words: &[&[u8]],
    toks: &[Tok],
    text: Adjacent,
    first: Option<Offence>,
) -> Result<Option<Offence>, Memory>
    ensures { IfOk result (FirstThen a.now.value.table (standing cause.AssemblerText
        (text_place (map (λ t. t.now) words.now) toks.now text)) first) }
{
    let given = joined(alloc, text_toks(toks, text))?;
    if has_word(&given, words) {
        Ok(at_brought(a, toks, text.from, Cause::AssemblerText, first))
    } else {
        Ok(first)
    }
}

/// The same for each of these texts.
pub(crate) fn in_texts(
    alloc: Global,
    a: &Analysis,
    words: &[&[u8]],
    toks: &[Tok],
    texts: &[Adjacent],
    first: Option<Offence>,
) -> Result<Option<Offence>, Memory>
    ensures { IfOk result (FirstThen a.now.value.table (standing cause.AssemblerText
        (flat_map (text_place (map (λ t. t.now) words.now) toks.now) texts.now)) first) }
{
    let mut now = first;
    for text in texts {
        now = in_text(alloc, a, words, toks, *text, now)?;
    }
    Ok(now)
}
