// The node that is open. Its last child waits beside the others where it is a node, so that a node with
// no other child, which mostly takes the place of the open one, wants no memory.
ghost use Rattle.std.specs.Prelude.{◌≡◌, ℕ, List, Option, IfOk, OnOk};
ghost use Rattle.cs_base.specs.Token.{Token};
ghost use Rattle.c99_tree.specs.Tree.{node_of, none, leaf, inner, put, collapsed};
ghost use Rattle.c99_read.specs.OpenNode.{with_last};
ghost use Rattle.c99_grammar.specs.Standard.{Grammar};
ghost use Rattle.c99_read.specs.State.{last_declared, has_typedef, last_identifier};

use crate::parts::{has_typedef, is_typedef_part, last_declared, name_below};
use c99_tree::{Label, Tree};
use cs_base::Memory;
use std::alloc::Global;
use std::marker::Model;

/// Contracts see the whole node.
#[derive(Drop)]
pub(crate) struct OpenNode {
    tree: Tree,
    last: Option<Tree>,
}

impl Model for OpenNode {
    ghost use Rattle.c99_tree.specs.Tree.{Node};
    ghost use Rattle.c99_tree.specs.TreeCode.{node_code};
    ghost use Rattle.c99_read.specs.OpenNode.{with_last};

    ghost Value = { Node };

    ghost coded = { node_code };

    ghost view = { λ n. with_last n.tree n.last };
}

impl OpenNode {
    /// A node with no children.
    pub(crate) fn new(alloc: Global, label: Label, first: u32) -> OpenNode
        ensures { result ≡ node_of label first none }
    {
        OpenNode {
            tree: Tree::new(alloc, label, first),
            last: None,
        }
    }

    /// One child more: a token.
    pub(crate) fn push_token(&mut self, index: u32) -> Result<(), Memory>
        ensures { OnOk result (self.new ≡ record self.old { under = put self.old.under (leaf index) }) }
    {
        push_last(&mut self.tree, self.last.take())?;
        self.tree.push_token(index)
    }

    /// One child more: a node.
    pub(crate) fn push_node(&mut self, node: Tree) -> Result<(), Memory>
        ensures { OnOk result (self.new ≡ record self.old { under = put self.old.under (inner node) }) }
    {
        push_last(&mut self.tree, self.last.take())?;
        self.last = Some(node);
        Ok(())
    }

    /// The node.
    pub(crate) fn into_tree(self) -> Result<Tree, Memory>
        ensures { IfOk result (λ tree. tree ≡ self) }
    {
        let OpenNode { mut tree, last } = self;
        end_last(&mut tree, last)?;
        Ok(tree)
    }

    /// The only child, where it is a node, and else the node itself.
    pub(crate) fn collapsed(self) -> Result<Tree, Memory>
        ensures { IfOk result (λ tree. tree ≡ collapsed self) }
    {
        let OpenNode { mut tree, last } = self;
        match last {
            Some(only) => {
                if tree.len() == 0 {
                    return Ok(only);
                }
                tree.end_with(only)?;
                Ok(tree.collapsed())
            }
            None => Ok(tree.collapsed()),
        }
    }

    /// The index of the name of the declarator that stands last.
    pub(crate) fn last_declared(&self) -> Option<u32>
        ensures { result ≡ last_declared self.now.under }
    {
        match &self.last {
            Some(last) => name_below(last),
            None => last_declared(&self.tree),
        }
    }

    /// The specifiers have the word `typedef` among their own words.
    pub(crate) fn has_typedef(&self) -> bool
        ensures { result ≡ has_typedef self.now.under }
    {
        match &self.last {
            Some(last) => has_typedef(&self.tree) || is_typedef_part(last),
            None => has_typedef(&self.tree),
        }
    }

    /// A node with the same tokens.
    pub(crate) fn tokens(&self) -> &Tree
        ensures { (g : Grammar) (toks : List Token) (found : Option ℕ) → last_identifier g toks result.now.under found ≡ last_identifier g toks self.now.under found }
    {
        &self.tree
    }
}

// The last child goes to the others.
fn push_last(tree: &mut Tree, last: Option<Tree>) -> Result<(), Memory>
    ensures { OnOk result (tree.new ≡ with_last tree.old last) }
{
    match last {
        Some(node) => tree.push_node(node),
        None => Ok(()),
    }
}

// The same, and none follows.
fn end_last(tree: &mut Tree, last: Option<Tree>) -> Result<(), Memory>
    ensures { OnOk result (tree.new ≡ with_last tree.old last) }
{
    match last {
        Some(node) => tree.end_with(node),
        None => Ok(()),
    }
}
