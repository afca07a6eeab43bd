// Texts for the assembler that have a name of a class.
ghost use Rattle.std.specs.Prelude.{◌≡◌, ◌-◌, ◌||◌, ◌++◌, [], IfOk, OnOk};
ghost use Rattle.std.specs.List.{flat_map, list_any};
ghost use Rattle.cs_base.specs.declared.causes.Cause.TheVariants as cause;
ghost use Rattle.offences.specs.First.{standing, FirstThen};
ghost use Rattle.rename_rules.specs.GnuOffences.{is_named, joined, text_toks};
ghost use Rattle.rename_rules.specs.GnuTexts.{at_place, may_be_named, may_name, may_stand, stands_in, text_place_in};
ghost use Rattle.cs_base.specs.Token.{Token};
ghost use Rattle.gnu_lists.specs.Strings.{given_by};
ghost use Rattle.part_respell.specs.Respelled.{spelled};

use crate::renamings::Renaming;
use crate::spelling::spelled;
use analysis::Analysis;
use cs_base::{Cause, Memory, Tok};
use gnu_lists::{Adjacent, holds_word, push_given};
use offences::{Offence, first_with, holds_member};
use std::alloc::Global;

// What strings side by side give to the assembler once members are respelled.
fn joined(alloc: Global, renaming: &Renaming<'_>, toks: &[Tok]) -> Result<Vec<u8>, Memory>
    ensures { IfOk result (λ text. text.items ≡ joined renaming.now.class.members renaming.now.name toks.now) }
{
    let mut out = Vec::new(alloc);
    for tok in toks {
        push_token(alloc, &mut out, renaming, tok)?;
    }
    Ok(out)
}

#[tactic(auto, using(crate::proofs::SpelledLemmas::held_none))]
// Adds what one of them gives. It is spelled as it was where it holds no member.
fn push_token(
    alloc: Global,
    out: &mut Vec<u8>,
    renaming: &Renaming<'_>,
    tok: &Tok,
) -> Result<(), Memory>
    ensures { OnOk result (out.new.items ≡ out.old.items
        ++ given_by (spelled renaming.now.class.members renaming.now.name tok.now)) }
{
    let class = renaming.class();
    if holds_member(class, tok) {
        let text = spelled(alloc, class, renaming.name(), tok)?;
        return push_given(out, &text);
    }
    push_given(out, tok.text())
}

// Whether a text has an old name as a word, or the new one.
fn is_named(name: &[u8], text: &[u8], old: &[u8]) -> bool
    ensures { result ≡ is_named name.now text.now old.now }
{
    holds_word(old, text) || holds_word(name, text)
}

// The same of one of these tokens' spellings.
fn has_name(name: &[u8], text: &[u8], olds: &[Tok]) -> bool
    ensures { result ≡ list_any (λ (t : Token). is_named name.now text.now t.text) olds.now }
{
    olds.iter().any(|tok| is_named(name, text, tok.text()))
}

// Whether the word stands somewhere in the text, whatever is around it.
fn stands_in(word: &[u8], text: &[u8]) -> bool
    ensures { result ≡ stands_in word.now text.now }
{
    let mut rest = text;
    while let [_, behind @ ..] = rest {
        if rest.starts_with(word) {
            return true;
        }
        rest = behind;
    }
    false
}

// So it may: a longer one would have to be looked for in long texts again and again.
fn may_stand(word: &[u8], text: &[u8]) -> bool
    ensures { result ≡ may_stand word.now text.now }
{
    63 < word.len() || stands_in(word, text)
}

// Whether an old name may stand there, or the new one.
fn may_name(name: &[u8], text: &[u8], old: &[u8]) -> bool
    ensures { result ≡ may_name name.now text.now old.now }
{
    may_stand(old, text) || may_stand(name, text)
}

// The same of one of these tokens' spellings.
fn may_have(name: &[u8], text: &[u8], olds: &[Tok]) -> bool
    ensures { result ≡ list_any (λ (t : Token). may_name name.now text.now t.text) olds.now }
{
    olds.iter().any(|tok| may_name(name, text, tok.text()))
}

/// Whether a text that some of these tokens make, side by side, may have a name of the class: the old ones are the spellings
/// of the others.
pub(crate) fn may_be_named(
    alloc: Global,
    renaming: &Renaming<'_>,
    olds: &[Tok],
    toks: &[Tok],
) -> Result<bool, Memory>
    ensures { IfOk result (λ may. may ≡ may_be_named renaming.now.class.members renaming.now.name olds.now toks.now) }
{
    if olds.is_empty() {
        return Ok(false);
    }
    let text = joined(alloc, renaming, toks)?;
    Ok(may_have(renaming.name(), &text, olds))
}

// The tokens of a text.
fn text_toks(toks: &[Tok], text: Adjacent) -> &[Tok]
    ensures { result.now ≡ text_toks toks.now text }
{
    let from = text.from as usize;
    let to = text.to as usize;
    if from > to || from > toks.len() {
        return &[];
    }
    let behind = &toks[from..];
    let count = to - from;
    if count > behind.len() {
        behind
    } else {
        &behind[..count]
    }
}

// `AssemblerText` where a token was brought.
fn at_token(a: &Analysis, toks: &[Tok], k: u32, first: Option<Offence>) -> Option<Offence>
    ensures { FirstThen a.now.value.table (standing cause.AssemblerText (at_place toks.now k)) first result }
{
    match toks.get(k as usize) {
        Some(tok) => first_with(a, first, tok.at(), Cause::AssemblerText),
        None => first,
    }
}

// The same where a text begins, if it has a name of the class.
fn in_text(
    alloc: Global,
    a: &Analysis,
    renaming: &Renaming<'_>,
    olds: &[Tok],
    toks: &[Tok],
    text: Adjacent,
    first: Option<Offence>,
) -> Result<Option<Offence>, Memory>
    ensures { IfOk result (FirstThen a.now.value.table (standing cause.AssemblerText
        (text_place_in renaming.now.class.members renaming.now.name olds.now toks.now text)) first) }
{
    let given = joined(alloc, renaming, text_toks(toks, text))?;
    if has_name(renaming.name(), &given, olds) {
        Ok(at_token(a, toks, text.from, first))
    } else {
        Ok(first)
    }
}

/// `AssemblerText`: where each of these texts begins that has a name of the class; the old ones are the spellings of these
/// tokens.
pub(crate) fn in_texts(
    alloc: Global,
    a: &Analysis,
    renaming: &Renaming<'_>,
    olds: &[Tok],
    toks: &[Tok],
    texts: &[Adjacent],
    first: Option<Offence>,
) -> Result<Option<Offence>, Memory>
    ensures { IfOk result (FirstThen a.now.value.table (standing cause.AssemblerText
        (flat_map (text_place_in renaming.now.class.members renaming.now.name olds.now toks.now) texts.now)) first) }
{
    let mut now = first;
    for text in texts {
        now = in_text(alloc, a, renaming, olds, toks, *text, now)?;
    }
    Ok(now)
}
