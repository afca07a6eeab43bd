// Nodes, and what stands below them.
ghost use Rattle.std.specs.Prelude.{◌≡◌, ◌<◌, ◌^◌, ◌++◌, ◌∷◌, [], OnOk, OnErr};
ghost use Rattle.std.specs.Option.{option_map};
ghost use Rattle.c99_tree.specs.Tree.{node_of, none, leaf, inner, put, count_of, part_at, collapsed};
ghost use Rattle.c99_tree.specs.Children.{shown, part_of, forest_of, is_lone};

use crate::production::Label;
use cs_base::Memory;
use std::alloc::Global;
use std::marker::Model;

#[cycle(tree)]
#[derive(Drop)]
enum Branch {
    Token(u32),
    Inner(Tree),
}

/// A node. Contracts see its label, its first token and the forest below it.
///
/// Where `leads` is set, the first token is the first child, and `children` are the others: so a node of one
/// token wants no memory.
#[cycle(tree)]
#[derive(Drop)]
pub struct Tree {
    label: Label,
    leads: bool,
    first: u32,
    children: Vec<Branch>,
}

impl Model for Tree {
    ghost use Rattle.std.specs.Prelude.{◌<◌, ◌^◌, length};
    ghost use Rattle.c99_tree.specs.Tree.{Node, node_of, size_of};
    ghost use Rattle.c99_tree.specs.TreeCode.{node_code};

    ghost Value = { Node };

    ghost coded = { node_code };

    ghost use Rattle.c99_tree.specs.Children.{forest_of, led, led_count};

    ghost view = { λ t. node_of t.label t.first (led t.leads t.first (forest_of t.children.items)) };

    ghost invariant = { λ t. led_count t.leads (length t.children.items) < 2 ^ 32 };

    ghost size = { λ n. size_of n.under };

    ghost use Rattle.c99_tree.specs.TreeFalls.{deepest_le-led};

    ghost size_decreases = { λ a h. deepest_le-led a.leads a.first a.children.items };
}

/// A child of a node: a token, by its index, or a node.
#[derive(Clone, Copy)]
pub enum Child<'a> {
    Token(u32),
    Node(&'a Tree),
}

// Adds a child. The last one takes no more room than it needs.
fn push(children: &mut Vec<Branch>, branch: Branch, is_last: bool) -> Result<(), Memory>
    ensures items { OnOk result (children.new.items ≡ children.old.items ++ branch ∷ []) }
    ensures unchanged { OnErr result (children.new.items ≡ children.old.items) }
{
    if is_last {
        children.reserve_exact(1)?;
    }
    children.push(branch)?;
    Ok(())
}

fn is_lone(children: &[Branch]) -> bool
    ensures { result ≡ is_lone children.now }
{
    match children {
        [Branch::Inner(_)] => true,
        _ => false,
    }
}

// Child number `k` from 0 of these, if there are so many.
fn child_of(children: &[Branch], k: u32) -> Option<Child<'_>>
    ensures { option_map shown result ≡ part_at (forest_of children.now) k }
{
    match children.get(k as usize) {
        Some(Branch::Token(index)) => Some(Child::Token(*index)),
        Some(Branch::Inner(tree)) => Some(Child::Node(tree)),
        None => None,
    }
}

impl Tree {
    /// A node with no children.
    pub fn new(alloc: Global, label: Label, first: u32) -> Tree
        ensures { result ≡ node_of label first none }
    {
        Tree {
            label,
            leads: false,
            first,
            children: Vec::new(alloc),
        }
    }

    pub fn label(&self) -> Label
        ensures { result ≡ self.now.label }
    {
        self.label
    }

    /// The index of the first token, or of the next one where the node has none.
    pub fn first(&self) -> u32
        ensures { result ≡ self.now.first }
    {
        self.first
    }

    /// How many children the node has.
    pub fn len(&self) -> u32
        ensures { result ≡ count_of self.now.under }
    {
        let others = self.children.len() as u32;
        if self.leads { others + 1 } else { others }
    }

    /// Child number `k` from 0, if there are so many.
    pub fn child(&self, k: u32) -> Option<Child<'_>>
        ensures { option_map shown result ≡ part_at self.now.under k }
    {
        if !self.leads {
            return child_of(self.children.as_slice(), k);
        }
        if k == 0 {
            Some(Child::Token(self.first))
        } else {
            child_of(self.children.as_slice(), k - 1)
        }
    }

    /// One child more: a token. A node has fewer than 2^32 children.
    pub fn push_token(&mut self, index: u32) -> Result<(), Memory>
        ensures ok { OnOk result (self.new ≡ record self.old { under = put self.old.under (leaf index) }) }
        ensures unchanged { OnErr result (self.new ≡ self.old) }
    {
        if index == self.first && !self.leads && self.children.is_empty() {
            self.leads = true;
            return Ok(());
        }
        // Mostly the last child, where it is the first that takes room.
        let is_last = self.children.is_empty();
        self.push(Branch::Token(index), is_last)
    }

    /// One child more: a node. On `Memory` the node is dropped.
    pub fn push_node(&mut self, tree: Tree) -> Result<(), Memory>
        ensures ok { OnOk result (self.new ≡ record self.old { under = put self.old.under (inner tree) }) }
        ensures unchanged { OnErr result (self.new ≡ self.old) }
    {
        self.push(Branch::Inner(tree), false)
    }

    /// The same, where no child follows: the node takes no more room than it needs.
    pub fn end_with(&mut self, tree: Tree) -> Result<(), Memory>
        ensures ok { OnOk result (self.new ≡ record self.old { under = put self.old.under (inner tree) }) }
        ensures unchanged { OnErr result (self.new ≡ self.old) }
    {
        self.push(Branch::Inner(tree), true)
    }

    /// The only child, where it is a node, and else the node itself.
    pub fn collapsed(mut self) -> Tree
        ensures { result ≡ collapsed self }
    {
        if self.leads || !is_lone(self.children.as_slice()) {
            return self;
        }
        match self.children.pop() {
            Some(Branch::Inner(only)) => only,
            _ => unreachable!(),
        }
    }

    fn push(&mut self, branch: Branch, is_last: bool) -> Result<(), Memory>
        ensures ok { OnOk result (self.new ≡ record self.old { under = put self.old.under (part_of branch) }) }
        ensures unchanged { OnErr result (self.new ≡ self.old) }
    {
        if self.children.len() >= u32::MAX as usize - 1 {
            return Err(Memory);
        }
        push(&mut self.children, branch, is_last)?;
        Ok(())
    }
}
