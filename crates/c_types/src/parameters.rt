// The parameters of the names of declarators (ISO/IEC 9899:1999, 6.7.5.3).
ghost use Rattle.std.specs.Prelude.{◌≡◌, ◌+◌, ◌++◌, [], ◌∷◌, if◌then◌else◌, map, Some, false, IfOk, OnOk};
ghost use Rattle.std.specs.Option.{option_map};
ghost use Rattle.c_types.specs.Children.{from_child};
ghost use Rattle.c_types.specs.Trees.{is_node};
ghost use Rattle.c_types.specs.Lists.{even_tokens, is_declaring, lists_in};
ghost use Rattle.c_types.specs.Parameters.{declared_names, ends_in_token, typed, untyped, listed, parameters_of, own_parameters, declarator_parameters, parameters_in};
ghost use Rattle.c_types.specs.ParameterShapes.{parameters_by, parameters_at};

use crate::declarators::{name_below, nearest};
use crate::listing::{is_declaring, push_odd};
use crate::shapes::{first_node, inner_in};
use crate::trees::{Part, child_at, is_at, is_node};
use c99_tree::{Production, Tree};
use cs_base::Memory;
use std::alloc::Global;
use std::marker::Model;

/// How a list of parameters reads: `()`, an identifier list, a parameter type list, or one that ends in `...`.
#[derive(Clone, Copy, Debug, PartialEq, Eq)]
pub enum ParameterForm {
    Empty,
    Identifiers,
    Types,
    Ellipsis,
}

/// The parameters of a list in order, each by the token that is its name, where it has one. Contracts see a list.
#[derive(Drop)]
pub struct ParameterNames {
    names: Vec<Option<u32>>,
}

impl Model for ParameterNames {
    ghost use Rattle.std.specs.Prelude.{ℕ, List, Option};

    ghost Value = { List (Option ℕ) };

    ghost view = { λ p. p.names.items };
}

impl ParameterNames {
    fn new(names: Vec<Option<u32>>) -> ParameterNames
        ensures { result ≡ names.items }
    {
        ParameterNames { names }
    }

    pub fn as_slice(&self) -> &[Option<u32>]
        ensures { result.now ≡ self.now }
    {
        self.names.as_slice()
    }
}

/// The parameters of a name, which is the token that a declarator gives a list of them to.
#[derive(Drop)]
pub struct ParameterList {
    pub name: u32,
    pub form: ParameterForm,
    pub names: ParameterNames,
}

// Child `k`, where it is a parameter declaration.
fn push_declared_at(tree: &Tree, k: u32, out: &mut Vec<Option<u32>>) -> Result<(), Memory>
    ensures { OnOk result (out.new.items ++ declared_names (from_child (k + 1) tree.now.under) ≡ out.old.items ++ declared_names (from_child k tree.now.under)) }
{
    match child_at(tree, k) {
        Part::End => Ok(()),
        Part::Token(_) => Ok(()),
        Part::Node(inner) => {
            if is_node(inner.label(), Production::Param) {
                out.push(name_below(inner))?;
            }
            Ok(())
        }
    }
}

fn declared_names(alloc: Global, list: &Tree) -> Result<ParameterNames, Memory>
    ensures { IfOk result (λ names. names ≡ declared_names list.now.under) }
{
    let mut names = Vec::new(alloc);
    let count = list.len();
    'children: for k in 0..count {
        push_declared_at(list, k, &mut names)?;
    }
    Ok(ParameterNames::new(names))
}

// Whether child `k` is a token, or what was said before where there is none.
fn is_token_at(before: bool, tree: &Tree, k: u32) -> bool
    ensures { ends_in_token result (from_child (k + 1) tree.now.under) ≡ ends_in_token before (from_child k tree.now.under) }
{
    match child_at(tree, k) {
        Part::End => before,
        Part::Token(_) => true,
        Part::Node(_) => false,
    }
}

fn ends_in_token(list: &Tree) -> bool
    ensures { result ≡ ends_in_token false list.now.under }
{
    let mut ends = false;
    let count = list.len();
    'children: for k in 0..count {
        ends = is_token_at(ends, list, k);
    }
    ends
}

fn typed(alloc: Global, name: u32, list: &Tree) -> Result<ParameterList, Memory>
    ensures { IfOk result (λ p. p ≡ typed name list.now.under) }
{
    Ok(ParameterList {
        name,
        form: if ends_in_token(list) {
            ParameterForm::Ellipsis
        } else {
            ParameterForm::Types
        },
        names: declared_names(alloc, list)?,
    })
}

fn named(index: u32) -> Option<u32>
    ensures { result ≡ Some index }
{
    Some(index)
}

fn all_named(alloc: Global, tokens: &[u32]) -> Result<Vec<Option<u32>>, Memory>
    ensures { IfOk result (λ names. names.items ≡ map Some tokens.now) }
{
    Ok(tokens.iter().map(|index| named(*index)).collect(alloc)?)
}

fn identifiers_in(alloc: Global, list: &Tree) -> Result<ParameterNames, Memory>
    ensures { IfOk result (λ names. names ≡ map Some (even_tokens list.now.under)) }
{
    let mut tokens = Vec::new(alloc);
    push_odd(list, 1, &mut tokens)?;
    Ok(ParameterNames::new(all_named(alloc, tokens.as_slice())?))
}

fn untyped(alloc: Global, name: u32, list: &Tree) -> Result<ParameterList, Memory>
    ensures { IfOk result (λ p. p ≡ untyped name list.now.under) }
{
    Ok(ParameterList {
        name,
        form: ParameterForm::Identifiers,
        names: identifiers_in(alloc, list)?,
    })
}

fn listed(alloc: Global, name: u32, list: &Tree) -> Result<ParameterList, Memory>
    ensures { IfOk result (λ p. p ≡ listed name list.now.label list.now.under) }
{
    if is_at(list.label(), Production::Params, 1) {
        untyped(alloc, name, list)
    } else {
        typed(alloc, name, list)
    }
}

fn parameters_by(alloc: Global, name: u32, list: Option<&Tree>) -> Result<ParameterList, Memory>
    ensures { IfOk result (λ p. p ≡ parameters_by name (option_map (λ t. t.now) list.entry)) }
{
    match list {
        Some(inside) => listed(alloc, name, inside),
        None => Ok(ParameterList {
            name,
            form: ParameterForm::Empty,
            names: ParameterNames::new(Vec::new(alloc)),
        }),
    }
}

#[tactic(auto, using(crate::proofs::ParameterLemmas::parameters_shape))]
fn parameters_of(alloc: Global, name: u32, list: &Tree) -> Result<ParameterList, Memory>
    ensures { IfOk result (λ p. p ≡ parameters_of name list.now.under) }
{
    parameters_by(alloc, name, inner_in(list))
}

fn push_of(
    alloc: Global,
    name: u32,
    list: &Tree,
    out: &mut Vec<ParameterList>,
) -> Result<(), Memory>
    ensures { OnOk result (out.new.items ≡ out.old.items ++ parameters_of name list.now.under ∷ []) }
{
    let pushed = parameters_of(alloc, name, list)?;
    out.push(pushed)?;
    Ok(())
}

fn push_own(
    alloc: Global,
    name: Option<u32>,
    nearest: Option<Option<&Tree>>,
    out: &mut Vec<ParameterList>,
) -> Result<(), Memory>
    ensures { OnOk result (out.new.items ≡ out.old.items ++ own_parameters name (option_map (λ o. option_map (λ t. t.now.under) o) nearest.entry)) }
{
    match name {
        Some(index) => match nearest {
            Some(Some(list)) => push_of(alloc, index, list, out),
            Some(None) => Ok(()),
            None => Ok(()),
        },
        None => Ok(()),
    }
}

fn push_by(alloc: Global, first: Option<&Tree>, out: &mut Vec<ParameterList>) -> Result<(), Memory>
    ensures { OnOk result (out.new.items ≡ out.old.items ++ parameters_at (option_map (λ t. t.now) first.entry)) }
{
    match first {
        Some(declarator) => {
            if is_node(declarator.label(), Production::Declarator) {
                push_own(alloc, name_below(declarator), nearest(declarator), out)
            } else {
                Ok(())
            }
        }
        None => Ok(()),
    }
}

#[tactic(auto, using(crate::proofs::ParameterLemmas::declarator_parameters_shape))]
fn push_first(alloc: Global, tree: &Tree, out: &mut Vec<ParameterList>) -> Result<(), Memory>
    ensures { OnOk result (out.new.items ≡ out.old.items ++ (if is_declaring tree.now.label then declarator_parameters tree.now.under else [])) }
{
    if is_declaring(tree.label()) {
        push_by(alloc, first_node(tree), out)
    } else {
        Ok(())
    }
}

// The parameters of the names of declarators below a node.
#[cycle(parameters)]
fn push_parameters(alloc: Global, tree: &Tree, out: &mut Vec<ParameterList>) -> Result<(), Memory>
    ensures { OnOk result (out.new.items ≡ out.old.items ++ parameters_in tree.now.under) }
{
    let count = tree.len();
    'children: for k in 0..count {
        push_parameters_at(alloc, tree, k, out)?;
    }
    Ok(())
}

#[cycle(parameters)]
fn push_parameters_at(
    alloc: Global,
    tree: &Tree,
    k: u32,
    out: &mut Vec<ParameterList>,
) -> Result<(), Memory>
    ensures { OnOk result (out.new.items ++ parameters_in (from_child (k + 1) tree.now.under) ≡ out.old.items ++ parameters_in (from_child k tree.now.under)) }
{
    match child_at(tree, k) {
        Part::End => Ok(()),
        Part::Token(_) => Ok(()),
        Part::Node(inner) => {
            push_first(alloc, inner, out)?;
            push_parameters(alloc, inner, out)
        }
    }
}

/// The parameters of each name that a declarator gives a parameter list to, in order of these names: those that the
/// binding of the unit tells as functions, and the others, such as names of function types.
///
/// A parameter goes by the token that is its name, and by none where it has no declarator or an abstract one; so
/// `(void)` is one parameter without a name. Of an identifier list each identifier is one.
pub fn parameter_lists(alloc: Global, tree: &Tree) -> Result<Vec<ParameterList>, Memory>
    // Each parameter list that is told of the unit belongs to the name that these parameters, in the same place, have.
    ensures lists { IfOk result (λ v. map (λ p. p.name) v.items ≡ map (λ l. l.name) (lists_in tree.now.under)) }
    ensures answer { IfOk result (λ v. v.items ≡ parameters_in tree.now.under) }
{
    let mut out = Vec::new(alloc);
    push_parameters(alloc, tree, &mut out)?;
    Ok(out)
}
