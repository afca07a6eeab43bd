// Types of expressions (ISO/IEC 9899:1999, 6.5): what a node has once one more of its children is read.
ghost use Rattle.std.specs.Prelude.{◌≡◌, IfOk};
ghost use Rattle.scope_bind.specs.Expressions.{of_first, of_conditional, of_cast, of_child, of_main, of_type_name, of_declarator, of_postfix, prefixed, of_unary, of_sum, found_after};

use c_types::{Base, CType, Frame, declarator_type, is_at, is_node};
use c99_tree::{Label, Production, Tree};
use cs_base::{Memory, Tok};
use name_chains::is_spelled;
use std::alloc::Global;

fn of_first(f: &Frame, child: &Frame) -> Result<CType, Memory>
    ensures { IfOk result (λ t. t ≡ of_first f.now child.now) }
{
    if f.nth == 0 {
        child.found.copied()
    } else {
        f.found.copied()
    }
}

/// The second and the third operand's (6.5.15).
pub fn of_conditional(f: &Frame, child: &Frame) -> Result<CType, Memory>
    ensures { IfOk result (λ t. t ≡ of_conditional f.now child.now) }
{
    if f.nth == 2 {
        child.found.copied()
    } else if f.nth == 4 {
        CType::chosen(f.found.copied()?, child.found.copied()?)
    } else {
        f.found.copied()
    }
}

fn of_cast(f: &Frame, label: Label, child: &Frame) -> Result<CType, Memory>
    ensures { IfOk result (λ t. t ≡ of_cast f.now label child.now) }
{
    if is_node(label, Production::TypeName) || is_at(label, Production::CastRest, 1) {
        child.found.copied()
    } else {
        f.found.copied()
    }
}

fn of_child(production: Production, f: &Frame, label: Label, child: &Frame) -> Result<CType, Memory>
    ensures { IfOk result (λ t. t ≡ of_child production f.now label child.now) }
{
    if is_node(label, production) {
        child.found.copied()
    } else {
        f.found.copied()
    }
}

/// Specifiers (6.7.2).
pub fn of_main(alloc: Global, f: &Frame, label: Label, child: &Frame) -> Result<CType, Memory>
    ensures { IfOk result (λ t. t ≡ of_main f.now label child.now) }
{
    if is_at(label, Production::Word, 1) {
        Ok(CType::plain(alloc, Base::Nothing))
    } else {
        of_child(Production::StructSpec, f, label, child)
    }
}

fn of_type_name(f: &Frame, tree: &Tree, child: &Frame) -> Result<CType, Memory>
    ensures { IfOk result (λ t. t ≡ of_type_name f.now tree.now.label tree.now.under child.now) }
{
    if is_node(tree.label(), Production::Specs) {
        child.found.copied()
    } else {
        declarator_type(f.found.copied()?, tree)
    }
}

fn of_declarator(f: &Frame, tree: &Tree) -> Result<CType, Memory>
    ensures { IfOk result (λ t. t ≡ of_declarator f.now tree.now.label tree.now.under) }
{
    if is_node(tree.label(), Production::Declarator) {
        declarator_type(f.base.copied()?, tree)
    } else {
        f.found.copied()
    }
}

/// `[` and an expression (6.5.2.1).
pub fn of_postfix(f: &Frame, child: &Frame) -> Result<CType, Memory>
    ensures { IfOk result (λ t. t ≡ of_postfix f.now child.now) }
{
    if f.label.alternative == 1 {
        Ok(f.given.copied()?.subscripted(child.found.copied()?))
    } else {
        f.found.copied()
    }
}

fn prefixed(alloc: Global, toks: &[Tok], sign: u32, t: CType) -> Result<CType, Memory>
    ensures { IfOk result (λ r. r ≡ prefixed toks.now sign t) }
{
    if is_spelled(toks, sign, b"++") || is_spelled(toks, sign, b"--") {
        Ok(t)
    } else if is_spelled(toks, sign, b"&") {
        t.pointer()
    } else if is_spelled(toks, sign, b"*") {
        Ok(t.pointed_to())
    } else {
        Ok(CType::plain(alloc, Base::Arithmetic))
    }
}

/// Unary operators (6.5.3).
pub fn of_unary(alloc: Global, toks: &[Tok], f: &Frame, child: &Frame) -> Result<CType, Memory>
    ensures { IfOk result (λ t. t ≡ of_unary toks.now f.now child.now) }
{
    if f.label.alternative == 1 {
        prefixed(alloc, toks, f.token, child.found.copied()?)
    } else if f.label.alternative == 2 {
        Ok(CType::plain(alloc, Base::Arithmetic))
    } else {
        child.found.copied()
    }
}

fn of_sum(toks: &[Tok], f: &Frame, child: &Frame) -> Result<CType, Memory>
    ensures { IfOk result (λ t. t ≡ of_sum toks.now f.now child.now) }
{
    if f.nth == 0 {
        child.found.copied()
    } else {
        let minus = is_spelled(toks, f.token, b"-");
        Ok(CType::sum(minus, f.found.copied()?, child.found.copied()?))
    }
}

/// The type of a node, once this child of it is read.
pub fn found_after(
    alloc: Global,
    toks: &[Tok],
    f: &Frame,
    tree: &Tree,
    child: &Frame,
) -> Result<CType, Memory>
    ensures { IfOk result (λ t. t ≡ found_after toks.now f.now.label.production f.now tree.now.label tree.now.under child.now) }
{
    let label = tree.label();
    match f.label.production {
        Production::Expr => child.found.copied(),
        Production::Assign => of_first(f, child),
        Production::Cond => of_conditional(f, child),
        Production::Add => of_sum(toks, f, child),
        Production::Cast => of_cast(f, label, child),
        Production::Unary => of_unary(alloc, toks, f, child),
        Production::CastRest => of_child(Production::Post, f, label, child),
        Production::SizeRest => of_child(Production::TypeName, f, label, child),
        Production::SizeLit => of_child(Production::Post, f, label, child),
        Production::Primary => child.found.copied(),
        Production::Post => of_postfix(f, child),
        Production::TypeName => of_type_name(f, tree, child),
        Production::Specs => of_child(Production::Main, f, label, child),
        Production::Main => of_main(alloc, f, label, child),
        Production::StructSpec => child.found.copied(),
        Production::ExtRest => of_declarator(f, tree),
        Production::InitDecl => of_declarator(f, tree),
        Production::Init => child.found.copied(),
        Production::InitItem => of_child(Production::Designator, f, label, child),
        _ => f.found.copied(),
    }
}
