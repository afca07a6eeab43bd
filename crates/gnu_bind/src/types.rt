// Types of expressions of GNU C: what a node has once one more of its children is read.
ghost use Rattle.std.specs.Prelude.{◌≡◌, ◌==◌, if◌then◌else◌, IfOk};
ghost use Rattle.c_types.specs.Types.{chosen};
ghost use Rattle.gnu_bind.specs.Types.{of_choice, of_primary, of_arguments, of_call, of_specifier, of_block, of_item, of_statement, of_auto, is_extended, of_prefix, type_after};

use crate::senses::{Special, is_choosing, is_fetching, is_value};
use crate::words::{is_extension, spelling};
use c_types::{Base, CType, Frame, is_at, is_node};
use c99_tree::{Label, Production, Tree};
use cs_base::{Memory, Tok};
use scope_bind::{found_after, of_conditional, of_main, of_postfix, of_unary};
use std::alloc::Global;

fn chosen_so_far(f: &Frame, child: &Frame) -> Result<CType, Memory>
    ensures { IfOk result (λ t. t ≡ (if f.now.nth == 0 then child.now.found else (if f.now.nth == 3 then chosen f.now.found child.now.found else f.now.found))) }
{
    if f.nth == 0 {
        child.found.copied()
    } else if f.nth == 3 {
        CType::chosen(f.found.copied()?, child.found.copied()?)
    } else {
        f.found.copied()
    }
}

fn of_choice(special: Special, f: &Frame, child: &Frame) -> Result<CType, Memory>
    ensures { IfOk result (λ t. t ≡ of_choice special f.now child.now) }
{
    if is_choosing(special) {
        chosen_so_far(f, child)
    } else {
        of_conditional(f, child)
    }
}

fn of_primary(alloc: Global, f: &Frame, label: Label, child: &Frame) -> Result<CType, Memory>
    ensures { IfOk result (λ t. t ≡ of_primary f.now label child.now) }
{
    if is_node(label, Production::Block) {
        child.found.copied()?.adjusted()
    } else if f.label.alternative == 6 || f.label.alternative == 9 {
        f.found.copied()
    } else if is_node(label, Production::MemberPath) {
        Ok(CType::plain(alloc, Base::Arithmetic))
    } else {
        child.found.copied()
    }
}

fn of_arguments(special: Special, f: &Frame, child: &Frame) -> Result<CType, Memory>
    ensures { IfOk result (λ t. t ≡ of_arguments special f.now child.now) }
{
    if is_fetching(special) && f.nth == 0 {
        child.found.copied()
    } else {
        f.found.copied()
    }
}

fn of_call(special: Special, f: &Frame, label: Label, child: &Frame) -> Result<CType, Memory>
    ensures { IfOk result (λ t. t ≡ of_call special f.now label child.now) }
{
    if is_fetching(special) && (f.given.is_unknown() && is_node(label, Production::Args)) {
        Ok(child.found.copied()?.target())
    } else {
        of_postfix(f, child)
    }
}

fn of_specifier(alloc: Global, f: &Frame, label: Label, child: &Frame) -> Result<CType, Memory>
    ensures { IfOk result (λ t. t ≡ of_specifier f.now label child.now) }
{
    if is_node(label, Production::Operand) || is_node(label, Production::TypeName) {
        child.found.copied()
    } else {
        of_main(alloc, f, label, child)
    }
}

fn of_block(special: Special, f: &Frame, label: Label, child: &Frame) -> Result<CType, Memory>
    ensures { IfOk result (λ t. t ≡ of_block special f.now label child.now) }
{
    if is_value(special) && is_node(label, Production::BlockItem) {
        child.found.copied()
    } else {
        f.found.copied()
    }
}

fn of_item(special: Special, f: &Frame, label: Label, child: &Frame) -> Result<CType, Memory>
    ensures { IfOk result (λ t. t ≡ of_item special f.now label child.now) }
{
    if is_value(special)
        && (is_node(label, Production::Statement) || is_node(label, Production::BlockItem))
    {
        child.found.copied()
    } else {
        f.found.copied()
    }
}

fn of_statement(special: Special, f: &Frame, label: Label, child: &Frame) -> Result<CType, Memory>
    ensures { IfOk result (λ t. t ≡ of_statement special f.now label child.now) }
{
    if is_value(special) && (f.label.alternative == 15 || is_node(label, Production::BlockItem)) {
        child.found.copied()
    } else {
        f.found.copied()
    }
}

fn of_auto(f: &Frame, label: Label, child: &Frame) -> Result<CType, Memory>
    ensures { IfOk result (λ t. t ≡ of_auto f.now label child.now) }
{
    if is_at(label, Production::Init, 2) {
        child.found.copied()
    } else {
        f.found.copied()
    }
}

fn is_extended(toks: &[Tok], f: &Frame) -> bool
    ensures { result ≡ is_extended toks.now f.now }
{
    f.label.alternative == 1 && is_extension(spelling(toks, f.token))
}

fn of_prefix(alloc: Global, toks: &[Tok], f: &Frame, child: &Frame) -> Result<CType, Memory>
    ensures { IfOk result (λ t. t ≡ of_prefix toks.now f.now child.now) }
{
    if is_extended(toks, f) {
        child.found.copied()
    } else {
        of_unary(alloc, toks, f, child)
    }
}

/// The type of a node of this sense, once this child of it is read.
pub(crate) fn type_after(
    alloc: Global,
    toks: &[Tok],
    special: Special,
    f: &Frame,
    tree: &Tree,
    child: &Frame,
) -> Result<CType, Memory>
    ensures { IfOk result (λ t. t ≡ type_after toks.now f.now.label.production special f.now tree.now.label tree.now.under child.now) }
{
    let label = tree.label();
    match f.label.production {
        Production::Cond => of_choice(special, f, child),
        Production::Unary => of_prefix(alloc, toks, f, child),
        Production::Primary => of_primary(alloc, f, label, child),
        Production::Args => of_arguments(special, f, child),
        Production::Post => of_call(special, f, label, child),
        Production::Main => of_specifier(alloc, f, label, child),
        Production::Operand => child.found.copied(),
        Production::MemberPath => Ok(f.found.copied()?.target()),
        Production::AutoDecl => of_auto(f, label, child),
        Production::Block => of_block(special, f, label, child),
        Production::BlockItem => of_item(special, f, label, child),
        Production::Statement => of_statement(special, f, label, child),
        _ => found_after(alloc, toks, f, tree, child),
    }
}
