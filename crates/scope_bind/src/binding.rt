// The binding of a unit (ISO/IEC 9899:1999, 6.2.1 to 6.2.3): the walk, and what is told of it.
ghost use Rattle.std.specs.Prelude.{◌≡◌, map, filter, length, Some, IfOk, OnOk, ◌++◌};
ghost use Rattle.cs_base.specs.Answer.{Gives};
ghost use Rattle.c_types.specs.Lists.{bodies_in, lists_in, calls_in, bare_in};
ghost use Rattle.name_chains.specs.Frames.{outermost};
ghost use Rattle.c_types.specs.Faults.{fault_of};
ghost use Rattle.scope_bind.specs.Bound.{range_of, typedefs_of, bound_of, bound_after, facts_of, binding_of};
ghost use Rattle.c_types.specs.Declarations.{is_typedef_name};
ghost use Rattle.scope_bind.specs.Known.{known};
ghost use Rattle.c99_tree.specs.Joined.{joined};

use crate::bound::{Bound, Told};
use crate::facts::Facts;
use crate::naming::{declarators_of, names_of};
use crate::walking::walk;
use c_types::{
    Base, BindRefusal, CType, Cause, Declaration, EntityKind, Fault, Frame, Position, Range, Scope,
    Shown, Words, push_bodies,
};
use c99_tree::{Label, Production, Tree};
use cs_base::{Memory, Tok};
use std::alloc::Global;

/// The frame of a unit of so many tokens.
pub fn outermost(alloc: Global, count: u32) -> Frame
    ensures { result ≡ outermost count }
{
    Frame {
        label: Label {
            production: Production::TranslationUnit,
            alternative: 1,
        },
        nth: 0,
        token: 0,
        scope: Scope {
            depth: 0,
            to: count,
        },
        body: None,
        listing: false,
        alone: false,
        has_body: false,
        base: CType::plain(alloc, Base::Arithmetic),
        words: Words {
            has_typedef: false,
            has_extern: false,
            has_static: false,
            has_any: false,
            anonymous: false,
        },
        kept: None,
        owner: 0,
        given: CType::plain(alloc, Base::Arithmetic),
        found: CType::plain(alloc, Base::Arithmetic),
        position: Position::Beyond,
    }
}

/// How many tokens there are.
pub fn count_of(toks: &[Tok]) -> Result<u32, Memory>
    ensures { IfOk result (λ n. n ≡ length toks.now) }
{
    if toks.len() > u32::MAX as usize {
        return Err(Memory);
    }
    Ok(toks.len() as u32)
}

// What is known at the end of the unit. What its tree tells by itself is told as well.
fn facts_of<'a>(
    alloc: Global,
    toks: &'a [Tok],
    tree: &Tree,
    shown: &mut Shown,
) -> Result<Facts<'a>, Memory>
    ensures facts { IfOk result (λ f. f ≡ known toks.now (facts_of toks.now tree.now.under)) }
    ensures lists { OnOk result (shown.new.lists.items ≡ shown.old.lists.items ++ lists_in tree.now.under) }
    ensures calls { OnOk result (shown.new.calls.items ≡ shown.old.calls.items ++ calls_in tree.now.under) }
    ensures bare { OnOk result (shown.new.bare.items ≡ shown.old.bare.items ++ bare_in tree.now.under) }
{
    let mut frame = outermost(alloc, count_of(toks)?);
    let mut facts = Facts::new(alloc, toks)?;
    walk(&mut facts, alloc, tree, &mut frame, shown)?;
    Ok(facts)
}

fn refusal(fault: Fault) -> BindRefusal
    ensures { fault_of result ≡ Some fault }
{
    let index = fault.index;
    match fault.cause {
        Cause::Undeclared => BindRefusal::Undeclared { index },
        Cause::NoMember => BindRefusal::NoMember { index },
        Cause::NoLabel => BindRefusal::NoLabel { index },
        Cause::Redeclared => BindRefusal::Redeclared { index },
        Cause::TagRedefined => BindRefusal::TagRedefined { index },
        Cause::MixedLinkage => BindRefusal::MixedLinkage { index },
        Cause::DesignatorAfterElision => BindRefusal::DesignatorAfterElision { index },
    }
}

fn is_typedef(d: &Declaration) -> bool
    ensures { result ≡ is_typedef_name d.now.kind }
{
    matches!(d.kind, EntityKind::Typedef)
}

fn range_of(d: &Declaration) -> Range
    ensures { result ≡ range_of d.now }
{
    Range {
        name: d.name_at,
        from: d.from,
        to: d.to,
    }
}

fn ranges_in(alloc: Global, declared: &[Declaration]) -> Result<Vec<Range>, Memory>
    ensures { IfOk result (λ v. v.items ≡ map range_of (filter (λ d. is_typedef_name d.kind) declared.now)) }
{
    Ok(
        declared
            .iter()
            .filter(|d| is_typedef(*d))
            .map(|d| range_of(d))
            .collect(alloc)?,
    )
}

fn typedefs_of(alloc: Global, facts: &Facts<'_>) -> Result<Vec<Range>, Memory>
    ensures { IfOk result (λ v. v.items ≡ typedefs_of facts.now.facts) }
{
    ranges_in(alloc, facts.declared())
}

fn bodies_in(alloc: Global, tree: &Tree) -> Result<Vec<Range>, Memory>
    ensures { IfOk result (λ v. v.items ≡ bodies_in tree.now.under) }
{
    let mut bodies = Vec::new(alloc);
    push_bodies(tree, &mut bodies)?;
    Ok(bodies)
}

fn bound_of(alloc: Global, tree: &Tree, facts: &Facts<'_>, shown: Shown) -> Result<Bound, Memory>
    requires lists { shown.lists.items ≡ lists_in tree.now.under }
    requires calls { shown.calls.items ≡ calls_in tree.now.under }
    requires bare { shown.bare.items ≡ bare_in tree.now.under }
    ensures { IfOk result (λ b. b ≡ bound_of tree.now.under facts.now.facts) }
{
    let count = facts.toks().len();
    let names = names_of(alloc, count, facts)?;
    let told = Told {
        declarators: declarators_of(alloc, count, names.as_slice(), shown.lists)?,
        calls: shown.calls,
        functions: bodies_in(alloc, tree)?,
        bare: shown.bare,
        typedefs: typedefs_of(alloc, facts)?,
    };
    Bound::new(alloc, count, names, told)
}

// The bodies of a unit whose tree is told in two parts.
fn bodies_behind(alloc: Global, front: &Tree, rest: &Tree) -> Result<Vec<Range>, Memory>
    ensures { IfOk result (λ v. v.items ≡ bodies_in (joined front.now.under rest.now.under)) }
{
    let mut bodies = Vec::new(alloc);
    push_bodies(front, &mut bodies)?;
    push_bodies(rest, &mut bodies)?;
    Ok(bodies)
}

// The same as `bound_of` of such a unit.
fn told_behind(
    alloc: Global,
    front: &Tree,
    rest: &Tree,
    facts: &Facts<'_>,
    shown: Shown,
) -> Result<Bound, Memory>
    requires lists { shown.lists.items ≡ lists_in (joined front.now.under rest.now.under) }
    requires calls { shown.calls.items ≡ calls_in (joined front.now.under rest.now.under) }
    requires bare { shown.bare.items ≡ bare_in (joined front.now.under rest.now.under) }
    ensures { IfOk result (λ b. b ≡ bound_of (joined front.now.under rest.now.under) facts.now.facts) }
{
    let count = facts.toks().len();
    let names = names_of(alloc, count, facts)?;
    let told = Told {
        declarators: declarators_of(alloc, count, names.as_slice(), shown.lists)?,
        calls: shown.calls,
        functions: bodies_behind(alloc, front, rest)?,
        bare: shown.bare,
        typedefs: typedefs_of(alloc, facts)?,
    };
    Bound::new(alloc, count, names, told)
}

/// The binding, or the first fault, of what is known at the end of the unit.
pub fn bound_unless(
    alloc: Global,
    tree: &Tree,
    facts: &Facts<'_>,
    shown: Shown,
) -> Result<Bound, BindRefusal>
    requires lists { shown.lists.items ≡ lists_in tree.now.under }
    requires calls { shown.calls.items ≡ calls_in tree.now.under }
    requires bare { shown.bare.items ≡ bare_in tree.now.under }
    ensures { Gives (λ b. b) fault_of result (bound_after tree.now.under facts.now.facts) }
{
    match facts.fault() {
        Some(fault) => Err(refusal(fault)),
        None => Ok(bound_of(alloc, tree, facts, shown)?),
    }
}

/// The same of a unit whose tree is told in two parts: its first external declarations, and the others.
pub fn bound_behind(
    alloc: Global,
    front: &Tree,
    rest: &Tree,
    facts: &Facts<'_>,
    shown: Shown,
) -> Result<Bound, BindRefusal>
    requires lists { shown.lists.items ≡ lists_in (joined front.now.under rest.now.under) }
    requires calls { shown.calls.items ≡ calls_in (joined front.now.under rest.now.under) }
    requires bare { shown.bare.items ≡ bare_in (joined front.now.under rest.now.under) }
    ensures { Gives (λ b. b) fault_of result (bound_after (joined front.now.under rest.now.under) facts.now.facts) }
{
    match facts.fault() {
        Some(fault) => Err(refusal(fault)),
        None => Ok(told_behind(alloc, front, rest, facts, shown)?),
    }
}

/// What each identifier of a translation unit denotes, given the tree of its tokens, or the first fault.
///
/// Tokens go by their index from 0, and an entity by the first token that declares it. Declarations in
/// several scopes are of one entity where they have linkage (ISO/IEC 9899:1999, 6.2.2), and the names of
/// parameters in a function's first list are those in its body (6.9.1). Beside the names it tells the
/// parameter lists of functions, the argument lists of calls by name, the bodies of functions, the names
/// that are parameters only since they are no typedef names (6.7.5.3 paragraph 11), and where typedef
/// names are visible.
///
/// A fault stands at the identifier in question, and the one at the earliest token is named, or at one
/// token the first of these: `Undeclared`, a name that is not visible (6.2.1), or an enumeration that is
/// not complete (6.7.2.3); `NoMember`, a member of what is no complete structure or union or has none of
/// the name (6.5.2.3); `NoLabel` (6.8.6.1); `Redeclared`, a name that is declared in the same scope and
/// name space and is not the same entity (6.7), or a label or member that stands twice (6.8.1, 6.7.2.1);
/// `TagRedefined`, a tag with two lists or of two kinds (6.7.2.3); `MixedLinkage` (6.2.2 paragraph 7);
/// and `DesignatorAfterElision`, a member designated in a brace list behind items that fill it without
/// braces of its own (6.7.8). Nothing else is refused but for want of memory, of which more than 2^32
/// tokens want too much.
pub fn bind(alloc: Global, toks: &[Tok], tree: &Tree) -> Result<Bound, BindRefusal>
    ensures answer { Gives (λ b. b) fault_of result (binding_of toks.now tree.now) }
{
    let mut shown = Shown::new(alloc);
    let facts = facts_of(alloc, toks, tree, &mut shown)?;
    bound_unless(alloc, tree, &facts, shown)
}
