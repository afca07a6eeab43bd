// What is special about a node of GNU C: arguments of attributes, and calls of some built-in functions.
ghost use Rattle.std.specs.Prelude.{◌≡◌, [], ◌+◌, ◌==◌, ◌&&◌, ◌||◌, true, false, if◌then◌else◌};
ghost use Rattle.std.specs.Option.{option_map, option_map_or};
ghost use Rattle.c99_tree.specs.declared.production.Production.TheVariants.{Block as ABlock, BlockItem as AnItem, Statement as AStatement};
ghost use Rattle.c_types.specs.Trees.{is_node};
ghost use Rattle.c_types.specs.Children.{from_child};
ghost use Rattle.c_types.specs.Declarations.{spelling_at};
ghost use Rattle.gnu_bind.specs.Words.{is_word_attribute};
ghost use Rattle.gnu_bind.specs.declared.senses.Special.TheVariants.{Open as AnOpen, Word as AWord};
ghost use Rattle.gnu_bind.specs.Senses.{third_or, second_or, name_behind, attribute_name, callee_by, callee_of, callee_in, begins_with_token, begins_with_two, omits_second, is_value, is_fetching, is_choosing, special_if, declares_labels, is_fetch_by, special_in, is_outside, away, is_homeless, is_labelling, sense_in, usual_sense};

use crate::words::{is_fetch, is_word_attribute, spelling};
use c_types::{
    Body, Frame, Part, child_at, first_node, first_token, is_at, is_node, lone_token, second_node,
};
use c99_tree::{Label, Production, Tree};
use cs_base::Tok;

/// What is special about a node. `Open`: it is the first argument of an attribute, where an identifier of which nothing
/// is visible is a word. `Word`: it is that of an attribute whose first argument is a word. `Fetch`: it is the call of
/// a built-in function that gives what its first argument points to, or its arguments. `Choice`: it is a condition
/// without its second operand. `Value`: it is a block in an expression, or gives the value of one. The node around has
/// the same.
#[derive(Clone, Copy, Debug, PartialEq, Eq)]
pub enum Special {
    Usual,
    Open,
    Word,
    Fetch,
    Choice,
    Value,
}

/// What is special about a node; whether it stands in a block in an expression outside the body of a function; and
/// whether in a block that declares labels.
#[derive(Clone, Copy, Debug, PartialEq, Eq)]
pub struct Sense {
    pub special: Special,
    pub homeless: bool,
    pub labels: bool,
}

/// At the beginning of a unit.
pub(crate) fn usual_sense() -> Sense
    ensures { result ≡ usual_sense }
{
    Sense {
        special: Special::Usual,
        homeless: false,
        labels: false,
    }
}

pub(crate) fn is_value(special: Special) -> bool
    ensures { result ≡ is_value special }
{
    matches!(special, Special::Value)
}

pub(crate) fn is_fetching(special: Special) -> bool
    ensures { result ≡ is_fetching special }
{
    matches!(special, Special::Fetch)
}

pub(crate) fn is_choosing(special: Special) -> bool
    ensures { result ≡ is_choosing special }
{
    matches!(special, Special::Choice)
}

fn special_if(is: bool, special: Special) -> Special
    ensures { result ≡ special_if is special }
{
    if is { special } else { Special::Usual }
}

// Child 3, where it is a token, or the one given.
fn third_or(tree: &Tree, name: u32) -> u32
    ensures { result ≡ third_or (from_child 3 tree.now.under) name }
{
    match child_at(tree, 3) {
        Part::Token(index) => index,
        Part::Node(_) => name,
        Part::End => name,
    }
}

fn second_or(tree: &Tree, name: u32) -> u32
    ensures { result ≡ second_or (from_child 2 tree.now.under) name }
{
    match child_at(tree, 2) {
        Part::Token(_) => third_or(tree, name),
        Part::Node(_) => name,
        Part::End => name,
    }
}

fn name_behind(tree: &Tree, name: u32) -> u32
    ensures { result ≡ name_behind (from_child 1 tree.now.under) name }
{
    match child_at(tree, 1) {
        Part::Token(_) => second_or(tree, name),
        Part::Node(_) => name,
        Part::End => name,
    }
}

// The token that names an attribute.
fn attribute_name(tree: &Tree) -> u32
    ensures { result ≡ attribute_name tree.now.under }
{
    match child_at(tree, 0) {
        Part::Node(word) => name_behind(tree, first_token(word, 0)),
        Part::Token(_) => 0,
        Part::End => 0,
    }
}

fn callee_by(callee: Label, name: Option<u32>, arguments: Label) -> Option<u32>
    ensures { result ≡ callee_by callee name arguments }
{
    match name {
        Some(index) => {
            if is_at(callee, Production::Primary, 1) && is_at(arguments, Production::Post, 2) {
                Some(index)
            } else {
                None
            }
        }
        None => None,
    }
}

fn callee_of(callee: Option<&Tree>, arguments: Option<&Tree>) -> Option<u32>
    ensures { result ≡ callee_of (option_map (λ t. t.now) callee.entry) (option_map (λ t. t.now) arguments.entry) }
{
    match callee {
        Some(primary) => match arguments {
            Some(list) => callee_by(primary.label(), lone_token(primary), list.label()),
            None => None,
        },
        None => None,
    }
}

// The name that is called where the node begins with a name and a list of arguments.
fn callee_in(tree: &Tree) -> Option<u32>
    ensures { result ≡ callee_in tree.now.under }
{
    callee_of(first_node(tree), second_node(tree))
}

fn is_fetch_by(toks: &[Tok], name: Option<u32>) -> bool
    ensures { result ≡ is_fetch_by toks.now name }
{
    match name {
        Some(index) => is_fetch(spelling(toks, index)),
        None => false,
    }
}

// Child `k` is a token.
fn is_token_at(tree: &Tree, k: u32) -> bool
    ensures { result ≡ begins_with_token (from_child k tree.now.under) }
{
    match child_at(tree, k) {
        Part::Token(_) => true,
        Part::Node(_) => false,
        Part::End => false,
    }
}

// Children 1 and 2 are tokens.
fn are_two_next(tree: &Tree) -> bool
    ensures { result ≡ begins_with_two (from_child 1 tree.now.under) }
{
    match child_at(tree, 1) {
        Part::Token(_) => is_token_at(tree, 2),
        Part::Node(_) => false,
        Part::End => false,
    }
}

/// The first two children are tokens.
pub(crate) fn begins_with_two(tree: &Tree) -> bool
    ensures { result ≡ begins_with_two tree.now.under }
{
    match child_at(tree, 0) {
        Part::Token(_) => is_token_at(tree, 1),
        Part::Node(_) => false,
        Part::End => false,
    }
}

fn omits_second(tree: &Tree) -> bool
    ensures { result ≡ omits_second tree.now.under }
{
    match child_at(tree, 0) {
        Part::Node(_) => are_two_next(tree),
        Part::Token(_) => false,
        Part::End => false,
    }
}

// Child `k` declares labels.
fn is_labelling_at(tree: &Tree, k: u32) -> bool
    ensures { declares_labels (from_child k tree.now.under) ≡ (result || declares_labels (from_child (k + 1) tree.now.under)) }
{
    match child_at(tree, k) {
        Part::End => false,
        Part::Token(_) => false,
        Part::Node(inner) => is_at(inner.label(), Production::BlockItem, 7),
    }
}

fn declares_labels(tree: &Tree) -> bool
    ensures { result ≡ declares_labels tree.now.under }
{
    let count = tree.len();
    'children: for k in 0..count {
        if is_labelling_at(tree, k) {
            return true;
        }
    }
    false
}

fn attribute_sense(toks: &[Tok], tree: &Tree) -> Special
    ensures { result ≡ (if is_word_attribute (spelling_at toks.now (attribute_name tree.now.under)) then AWord else AnOpen) }
{
    if is_word_attribute(spelling(toks, attribute_name(tree))) {
        Special::Word
    } else {
        Special::Open
    }
}

fn is_item_of_value(f: &Frame, special: Special) -> bool
    ensures { result ≡ (is_value special && (is_node f.now.label ABlock || (is_node f.now.label AnItem || is_node f.now.label AStatement))) }
{
    is_value(special)
        && (is_node(f.label, Production::Block)
            || (is_node(f.label, Production::BlockItem) || is_node(f.label, Production::Statement)))
}

fn special_in(toks: &[Tok], tree: &Tree, f: &Frame, special: Special) -> Special
    ensures { result ≡ special_in toks.now tree.now.label.production tree.now.under f.now special }
{
    match tree.label().production {
        Production::AttrItem => attribute_sense(toks, tree),
        Production::Args => {
            let is = is_node(f.label, Production::AttrItem) || is_node(f.label, Production::Post);
            special_if(is, special)
        }
        Production::Primary => {
            special_if(is_node(f.label, Production::Args) && f.nth == 0, special)
        }
        Production::Unary => special_if(is_fetch_by(toks, callee_in(tree)), Special::Fetch),
        Production::Post => special_if(is_node(f.label, Production::Unary) && f.nth == 1, special),
        Production::Cond => special_if(omits_second(tree), Special::Choice),
        Production::Block => special_if(is_node(f.label, Production::Primary), Special::Value),
        Production::BlockItem => special_if(is_item_of_value(f, special), Special::Value),
        Production::Statement => {
            let is = is_value(special) && is_node(f.label, Production::BlockItem);
            special_if(is, Special::Value)
        }
        _ => Special::Usual,
    }
}

fn is_inside(body: Option<Body>) -> bool
    ensures { result ≡ option_map_or (λ b. true) body false }
{
    match body {
        Some(_) => true,
        None => false,
    }
}

// Outside the body of a function, or among the declarations before it (6.9.1 paragraph 6).
fn is_outside(f: &Frame) -> bool
    ensures { result ≡ is_outside f.now }
{
    f.listing || !is_inside(f.body)
}

/// The sense in which a label is asked for where it need not stand in a block.
pub(crate) fn away(sense: Sense, f: &Frame) -> Sense
    ensures { result ≡ away sense f.now }
{
    Sense {
        special: sense.special,
        homeless: sense.homeless || is_outside(f),
        labels: sense.labels,
    }
}

fn is_homeless(production: Production, f: &Frame) -> bool
    ensures { result ≡ is_homeless [] production f.now }
{
    match production {
        Production::Block => { is_node(f.label, Production::Primary) && is_outside(f) }
        _ => false,
    }
}

fn is_labelling(tree: &Tree) -> bool
    ensures { result ≡ is_labelling [] tree.now.label.production tree.now.under }
{
    match tree.label().production {
        Production::Block => declares_labels(tree),
        Production::FunBody => declares_labels(tree),
        _ => false,
    }
}

/// The sense of a node in one of this sense.
pub(crate) fn sense_in(toks: &[Tok], tree: &Tree, f: &Frame, sense: Sense) -> Sense
    ensures { result ≡ sense_in toks.now tree.now.label.production tree.now.under f.now sense }
{
    Sense {
        special: special_in(toks, tree, f, sense.special),
        homeless: sense.homeless || is_homeless(tree.label().production, f),
        labels: sense.labels || is_labelling(tree),
    }
}
