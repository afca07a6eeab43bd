// What is known behind the beginning of a unit, and units that are bound on from there.
ghost use Rattle.std.specs.Prelude.{◌≡◌, ◌++◌, [], length, IfOk, IfSome, OnOk};
ghost use Rattle.cs_base.specs.Answer.{Gives};
ghost use Rattle.c99_tree.specs.Joined.{followed};
ghost use Rattle.c_types.specs.Faults.{fault_of};
ghost use Rattle.c_types.specs.Lists.{calls_in, lists_in, bare_in};
ghost use Rattle.scope_bind.specs.Below.name_chains.Frames.{at_first, state};
ghost use Rattle.gnu_bind.specs.Bound.{binding_by};
ghost use Rattle.gnu_bind.specs.Fronts.{BoundFrontValue, IsKnownBehind, IsSpelledAs, walked_by};

use crate::carrying::Way;
use crate::copies;
use crate::known::KnownFront;
use crate::senses::usual_sense;
use crate::tree_tokens::is_below;
use crate::walking::walk;
use c_types::{BindRefusal, Frame, Shown};
use c99_tree::Tree;
use cs_base::{Memory, Standard, Tok};
use scope_bind::{Bound, Facts, bound_behind, count_of, outermost};
use std::alloc::Global;
use std::marker::Model;

/// What is known behind the first external declarations of a unit, and what their tree tells by itself.
#[derive(Drop)]
pub struct BoundFront {
    standard: Standard,
    known: KnownFront,
    frame: Frame,
    shown: Shown,
}

impl Model for BoundFront {
    ghost use Rattle.gnu_bind.specs.Fronts.{BoundFrontValue, bound_front};

    ghost Value = { BoundFrontValue };

    ghost view = { λ f. bound_front f.standard f.known f.frame f.shown };
}

// The external declarations of a unit by its standard, one after another.
fn walk_by(
    facts: &mut Facts<'_>,
    alloc: Global,
    tree: &Tree,
    f: &mut Frame,
    shown: &mut Shown,
    standard: Standard,
) -> Result<(), Memory>
    ensures toks { OnOk result (facts.new.toks ≡ facts.old.toks) }
    ensures walked { OnOk result (state facts.new.facts f.new ≡ walked_by standard facts.old.toks tree.now.under (state facts.old.facts f.old)) }
    ensures lists { OnOk result (shown.new.lists.items ≡ shown.old.lists.items ++ lists_in tree.now.under) }
    ensures calls { OnOk result (shown.new.calls.items ≡ shown.old.calls.items ++ calls_in tree.now.under) }
    ensures bare { OnOk result (shown.new.bare.items ≡ shown.old.bare.items ++ bare_in tree.now.under) }
{
    match standard {
        Standard::C99 | Standard::C11 => scope_bind::walk(facts, alloc, tree, f, shown),
        Standard::Gnu99 | Standard::Gnu11 => walk(facts, alloc, usual_sense(), tree, f, shown),
    }
}

// What is known behind these external declarations: none where something is at fault or waits.
fn known_of(
    alloc: Global,
    toks: &[Tok],
    tree: &Tree,
    shown: &mut Shown,
    standard: Standard,
) -> Result<Option<(KnownFront, Frame)>, Memory>
    requires lists { shown.old.lists.items ≡ [] }
    requires calls { shown.old.calls.items ≡ [] }
    requires bare { shown.old.bare.items ≡ [] }
    ensures known { IfOk result (λ o. IfSome o (λ k. walked_by standard toks.now tree.now.under (at_first (length toks.now)) ≡ state k.0 k.1)) }
    ensures lists { OnOk result (shown.new.lists.items ≡ lists_in tree.now.under) }
    ensures calls { OnOk result (shown.new.calls.items ≡ calls_in tree.now.under) }
    ensures bare { OnOk result (shown.new.bare.items ≡ bare_in tree.now.under) }
{
    let mut frame = outermost(alloc, count_of(toks)?);
    let mut facts = Facts::new(alloc, toks)?;
    walk_by(&mut facts, alloc, tree, &mut frame, shown, standard)?;
    match KnownFront::of(alloc, &facts)? {
        Some(known) => Ok(Some((known, frame))),
        None => Ok(None),
    }
}

impl BoundFront {
    /// What is known behind the external declarations of this tree, which begins a unit of these tokens; none where something
    /// is at fault there, or the tree has the last token.
    pub fn of(
        alloc: Global,
        toks: &[Tok],
        tree: &Tree,
        standard: Standard,
    ) -> Result<Option<BoundFront>, Memory>
        ensures { IfOk result (λ o. IfSome o (λ f. (f.standard ≡ standard) × IsKnownBehind f toks.now tree.now.under)) }
    {
        if toks.len() < 2 || !is_below(tree, toks.len()) {
            return Ok(None);
        }
        let mut shown = Shown::new(alloc);
        match known_of(alloc, toks, tree, &mut shown, standard)? {
            Some((known, frame)) => Ok(Some(BoundFront {
                standard,
                known,
                frame,
                shown,
            })),
            None => Ok(None),
        }
    }

    /// The standard of the unit.
    pub fn standard(&self) -> Standard
        ensures { result ≡ self.now.standard }
    {
        self.standard
    }
}

// What is known behind the same external declarations in these tokens, and the frame there.
fn resumed<'a>(
    alloc: Global,
    front: &BoundFront,
    seen: &[Tok],
    tree: &Tree,
    toks: &'a [Tok],
) -> Result<(Facts<'a>, Frame), Memory>
    requires known { IsKnownBehind front.now seen.now tree.now.under }
    requires begins { IsSpelledAs seen.now toks.now }
    ensures toks { IfOk result (λ r. r.0.toks ≡ toks.now) }
    ensures known { IfOk result (λ r. state r.0.facts r.1 ≡ walked_by front.now.standard toks.now tree.now.under (at_first (length toks.now))) }
{
    let way = Way {
        front: count_of(seen)?,
        text: count_of(toks)?,
    };
    let mut facts = Facts::new(alloc, toks)?;
    front.known.resume(way, &mut facts)?;
    Ok((facts, way.frame(&front.frame)?))
}

/// What each identifier of a unit denotes whose tree is told in two parts, or the first fault: as `bind_by` tells it. Behind the
/// first part these facts are known in the tokens `seen`, with which the unit begins.
pub fn bind_from(
    alloc: Global,
    front: &BoundFront,
    seen: &[Tok],
    tree: &Tree,
    toks: &[Tok],
    rest: &Tree,
) -> Result<Bound, BindRefusal>
    requires known { IsKnownBehind front.now seen.now tree.now.under }
    requires begins { IsSpelledAs seen.now toks.now }
    ensures answer { Gives (λ b. b) fault_of result (binding_by front.now.standard toks.now (followed tree.now rest.now)) }
{
    let (mut facts, mut frame) = resumed(alloc, front, seen, tree, toks)?;
    let mut shown = copies::shown(alloc, &front.shown)?;
    walk_by(
        &mut facts,
        alloc,
        rest,
        &mut frame,
        &mut shown,
        front.standard,
    )?;
    bound_behind(alloc, tree, rest, &facts, shown)
}
