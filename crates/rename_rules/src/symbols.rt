// The old spellings of a class by which the assembler may know what it names, and by which projects declare it.
ghost use Rattle.std.specs.Prelude.{◌≡◌, ◌∷◌, [], IfOk, OnOk, slice_get};
ghost use Rattle.std.specs.List.{flat_map, list_any};
ghost use Rattle.std.specs.Option.{option_map_or};
ghost use Rattle.std.specs.Str.{bytes_eq};
ghost use Rattle.cs_base.specs.Token.{Token};
ghost use Rattle.analysis.specs.Below.c_types.Declarations.{has_linkage};
ghost use Rattle.rename_rules.specs.GnuOffences.{held_text, is_label, is_symbol, symbols};
ghost use Rattle.rename_rules.specs.GnuTexts.{AddTexts, HaveTexts, symbol_in};
ghost use Rattle.rename_rules.specs.Undeclared.{declared, HaveNames};

use crate::project_names::{ProjectName, project_of, push_declared};
use analysis::{Bound, EntityKind, Linkage, Name};
use cs_base::{Memory, Tok};
use offences::{Class, holds_member};
use std::alloc::Global;

fn is_label(kind: Option<EntityKind>) -> bool
    ensures { result ≡ is_label kind }
{
    match kind {
        Some(EntityKind::Label) => true,
        _ => false,
    }
}

fn has_linkage(linkage: Linkage) -> bool
    ensures { result ≡ has_linkage linkage }
{
    match linkage {
        Linkage::External | Linkage::Internal => true,
        Linkage::Absent => false,
    }
}

// Whether the assembler may know an entity by its name: it has linkage, or is a label.
fn is_symbol(bound: &Bound, entity: u32) -> bool
    ensures { result ≡ is_symbol bound.now.names entity }
{
    has_linkage(bound.linkage(entity)) || is_label(bound.kind(entity))
}

// Whether one of the tokens is spelled so.
fn is_known(olds: &[Tok], text: &[u8]) -> bool
    ensures { result ≡ list_any (λ (t : Token). bytes_eq t.text text.now) olds.now }
{
    olds.iter().any(|tok| tok.text() == text)
}

// A token comes to those with the old spellings, if it holds a member and its spelling is new among them.
fn push_held(olds: &mut Vec<Tok>, class: &Class<'_>, tok: &Tok) -> Result<(), Memory>
    ensures { OnOk result (AddTexts olds.old.items (held_text class.now.members tok.now) olds.new.items) }
{
    if holds_member(class, tok) {
        return push_new(olds, tok);
    }
    Ok(())
}

fn push_new(olds: &mut Vec<Tok>, tok: &Tok) -> Result<(), Memory>
    ensures { OnOk result (AddTexts olds.old.items (tok.now.text ∷ []) olds.new.items) }
{
    if is_known(olds, tok.text()) {
        return Ok(());
    }
    olds.push(tok.share(tok.gap(), tok.at(), tok.line(), tok.direct())?)?;
    Ok(())
}

// The same for token `k`.
fn push_at(olds: &mut Vec<Tok>, class: &Class<'_>, toks: &[Tok], k: u32) -> Result<(), Memory>
    ensures { OnOk result (AddTexts olds.old.items (option_map_or (held_text class.now.members) (slice_get toks.now k) []) olds.new.items) }
{
    if (k as usize) < toks.len() {
        push_held(olds, class, &toks[k as usize])
    } else {
        Ok(())
    }
}

// The same for the token of a name, if the assembler may know its entity by it.
fn push_name(
    olds: &mut Vec<Tok>,
    class: &Class<'_>,
    bound: &Bound,
    toks: &[Tok],
    name: Name,
) -> Result<(), Memory>
    ensures { OnOk result (AddTexts olds.old.items (symbol_in class.now.members bound.now.names toks.now name) olds.new.items) }
{
    if is_symbol(bound, name.entity) {
        push_at(olds, class, toks, name.index)
    } else {
        Ok(())
    }
}

// The same for each of these names.
fn push_names(
    olds: &mut Vec<Tok>,
    class: &Class<'_>,
    bound: &Bound,
    toks: &[Tok],
    names: &[Name],
) -> Result<(), Memory>
    ensures { OnOk result (AddTexts olds.old.items (flat_map (symbol_in class.now.members bound.now.names toks.now) names.now) olds.new.items) }
{
    for name in names {
        push_name(olds, class, bound, toks, *name)?;
    }
    Ok(())
}

/// The old spellings of a class.
#[derive(Drop)]
pub(crate) struct OldSpellings {
    /// Tokens with those by which the assembler may know what the class names, each spelling once.
    pub texts: Vec<Tok>,
    /// Those by which units declare something of external linkage, in their projects.
    pub names: Vec<ProjectName>,
}

/// Both, of one walk over the units.
pub(crate) fn old_spellings(alloc: Global, class: &Class<'_>) -> Result<OldSpellings, Memory>
    ensures known { IfOk result (λ olds. HaveTexts olds.texts.items (symbols class.now.analysis.value class.now.members)) }
    ensures own { IfOk result (λ olds. HaveNames olds.names.items (declared class.now.analysis.value class.now.members)) }
{
    let a = class.analysis();
    let mut texts = Vec::new(alloc);
    let mut names = Vec::new(alloc);
    for unit in 0..a.units() {
        let one = a.unit(alloc, unit + 1)?;
        let bound = one.bound();
        let text = one.text();
        push_names(&mut texts, class, bound, text.toks(), bound.names())?;
        push_declared(alloc, &mut names, class, project_of(a, unit), &one)?;
    }
    Ok(OldSpellings { texts, names })
}
