// Identifiers in expressions of GNU C.
ghost use Rattle.std.specs.Prelude.{◌≡◌, ◌+◌, ◌||◌, not, is_some, true, false, if◌then◌else◌, IfOk, OnOk};
ghost use Rattle.std.specs.Option.{option_map, option_map_or};
ghost use Rattle.scope_bind.specs.Known.{known};
ghost use Rattle.scope_bind.specs.Ordinary.{is_func};
ghost use Rattle.c_types.specs.Types.{unknown};
ghost use Rattle.c_types.specs.Declarations.{linked};
ghost use Rattle.gnu_bind.specs.declared.senses.Special.TheVariants.{Usual as AUsual};
ghost use Rattle.gnu_bind.specs.Names.{names_function, is_unseen, is_word, is_implied, implied_entity, implied_function, implied_by, implied, denoting, denoted_type, name_read, name_type, path_read, path_type};

use crate::senses::Special;
use crate::words::{begins_call, is_path_sign, spelling, spelling_behind};
use c_types::{Base, Body, CType, Declaration, EntityKind, Frame, Linkage, Scope, Space};
use cs_base::{Memory, Tok, is_built_in, is_function_word};
use scope_bind::Facts;
use std::alloc::Global;

fn is_inside(body: Option<Body>) -> bool
    ensures { result ≡ option_map_or (λ b. true) body false }
{
    match body {
        Some(_) => true,
        None => false,
    }
}

fn names_function(toks: &[Tok], f: &Frame, i: u32) -> bool
    ensures { result ≡ names_function toks.now f.now i }
{
    (is_inside(f.body) && !f.listing) && is_function_word(spelling(toks, i))
}

fn is_unseen(facts: &Facts<'_>, i: u32) -> bool
    ensures { result ≡ is_unseen facts.now.toks i facts.now.facts }
{
    !facts.visible(Space::Ordinary, i, i).is_some()
}

fn is_unseen_function(facts: &Facts<'_>, i: u32) -> bool
    ensures { result ≡ is_word facts.now.toks AUsual i facts.now.facts }
{
    is_built_in(spelling(facts.toks(), i)) && is_unseen(facts, i)
}

// The identifier denotes nothing.
fn is_word(facts: &Facts<'_>, special: Special, i: u32) -> bool
    ensures { result ≡ is_word facts.now.toks special i facts.now.facts }
{
    match special {
        Special::Word => true,
        Special::Open => is_unseen(facts, i),
        _ => is_unseen_function(facts, i),
    }
}

fn is_func(toks: &[Tok], f: &Frame, i: u32) -> bool
    ensures { result ≡ is_func toks.now f.now i }
{
    (is_inside(f.body) && !f.listing) && spelling(toks, i) == b"__func__".as_slice()
}

// It is called, nothing of its name is visible, and it is not that of the function.
fn is_implied(facts: &Facts<'_>, f: &Frame, i: u32) -> bool
    ensures { result ≡ is_implied facts.now.toks f.now i facts.now.facts }
{
    begins_call(spelling_behind(facts.toks(), i))
        && (is_unseen(facts, i) && !is_func(facts.toks(), f, i))
}

fn implied_entity(facts: &Facts<'_>, i: u32) -> u32
    ensures { result ≡ implied_entity i (linked facts.now.toks i facts.now.facts) }
{
    match facts.linked(i) {
        Some(d) => d.entity,
        None => i,
    }
}

fn implied_function(alloc: Global, scope: Scope, i: u32, entity: u32) -> Result<Declaration, Memory>
    ensures { IfOk result (λ d. d ≡ implied_function scope i entity) }
{
    let from = match i.checked_add(1) {
        Some(from) => from,
        None => return Err(Memory),
    };
    Ok(Declaration {
        space: Space::Ordinary,
        name_at: i,
        entity,
        kind: EntityKind::Function,
        linkage: Linkage::External,
        ctype: CType::plain(alloc, Base::Arithmetic),
        depth: scope.depth,
        from,
        to: scope.to,
        listed: false,
    })
}

// The call of the identifier declares it.
fn imply(facts: &mut Facts<'_>, alloc: Global, scope: Scope, i: u32) -> Result<(), Memory>
    ensures { OnOk result (facts.new ≡ known facts.old.toks (implied facts.old.toks scope i facts.old.facts)) }
{
    let entity = implied_entity(facts, i);
    let d = implied_function(alloc, scope, i, entity)?;
    facts.occur(i, entity, false)?;
    facts.add(d)
}

// An identifier that denotes something.
fn denote(facts: &mut Facts<'_>, alloc: Global, f: &Frame, i: u32) -> Result<(), Memory>
    ensures { OnOk result (facts.new ≡ known facts.old.toks (denoting facts.old.toks f.now i facts.old.facts)) }
{
    if is_implied(facts, f, i) {
        imply(facts, alloc, f.scope, i)
    } else {
        facts.name(f, i)
    }
}

/// An identifier in an expression.
pub(crate) fn read_name(
    facts: &mut Facts<'_>,
    alloc: Global,
    special: Special,
    f: &Frame,
    i: u32,
) -> Result<(), Memory>
    ensures { OnOk result (facts.new ≡ known facts.old.toks (name_read facts.old.toks special f.now i facts.old.facts)) }
{
    if names_function(facts.toks(), f, i) || is_word(facts, special, i) {
        Ok(())
    } else {
        denote(facts, alloc, f, i)
    }
}

fn denoted_type(alloc: Global, facts: &Facts<'_>, f: &Frame, i: u32) -> Result<CType, Memory>
    ensures { IfOk result (λ t. t ≡ denoted_type facts.now.toks f.now i facts.now.facts) }
{
    if is_implied(facts, f, i) {
        Ok(CType::plain(alloc, Base::Arithmetic))
    } else {
        facts.named_type(alloc, f, i)
    }
}

// The type of one that does not name the function.
fn type_of(
    alloc: Global,
    facts: &Facts<'_>,
    special: Special,
    f: &Frame,
    i: u32,
) -> Result<CType, Memory>
    ensures { IfOk result (λ t. t ≡ (if is_word facts.now.toks special i facts.now.facts then unknown else denoted_type facts.now.toks f.now i facts.now.facts)) }
{
    if is_word(facts, special, i) {
        Ok(CType::plain(alloc, Base::Unknown))
    } else {
        denoted_type(alloc, facts, f, i)
    }
}

/// Its type.
pub(crate) fn name_type(
    alloc: Global,
    facts: &Facts<'_>,
    special: Special,
    f: &Frame,
    i: u32,
) -> Result<CType, Memory>
    ensures { IfOk result (λ t. t ≡ name_type facts.now.toks special f.now i facts.now.facts) }
{
    if names_function(facts.toks(), f, i) {
        CType::plain(alloc, Base::Arithmetic).array()
    } else {
        type_of(alloc, facts, special, f, i)
    }
}

/// A token of a path to a member.
pub(crate) fn read_path(facts: &mut Facts<'_>, f: &Frame, i: u32) -> Result<(), Memory>
    ensures { OnOk result (facts.new ≡ known facts.old.toks (path_read facts.old.toks f.now i facts.old.facts)) }
{
    if is_path_sign(spelling(facts.toks(), i)) {
        Ok(())
    } else {
        facts.use_member(&f.found, i)
    }
}

/// The type that the path has come to.
pub(crate) fn path_type(
    alloc: Global,
    facts: &Facts<'_>,
    f: &Frame,
    i: u32,
) -> Result<CType, Memory>
    ensures { IfOk result (λ t. t ≡ path_type facts.now.toks f.now i facts.now.facts) }
{
    if is_path_sign(spelling(facts.toks(), i)) {
        f.found.copied()
    } else {
        facts.member_type(&f.found, i, CType::plain(alloc, Base::Arithmetic))
    }
}
