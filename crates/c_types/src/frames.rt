// What is known inside a node.

use crate::types::CType;
use c99_tree::Label;

/// A scope: how many there are around it, and the token before which it ends.
#[derive(Clone, Copy, Debug, PartialEq, Eq)]
pub struct Scope {
    pub depth: u32,
    pub to: u32,
}

/// A function's body, by its braces.
#[derive(Clone, Copy, Debug, PartialEq, Eq)]
pub struct Body {
    pub from: u32,
    pub to: u32,
}

/// The next place in a brace list: the one with the number, one that no rule gives, or one past the end.
#[derive(Clone, Copy, Debug, PartialEq, Eq)]
pub enum Position {
    Numbered(u32),
    Lost,
    Beyond,
}

/// The storage-class specifiers (6.7.1) among some specifiers, not inside a structure's. `anonymous`: a structure or
/// union stands among them with a list and without a tag.
#[derive(Clone, Copy, Debug, PartialEq, Eq)]
pub struct Words {
    pub has_typedef: bool,
    pub has_extern: bool,
    pub has_static: bool,
    pub has_any: bool,
    pub anonymous: bool,
}

/// The node's label, how many of its children are read, and the last token that a child is.
/// The scope; the function's body, and whether the declarations between list and body are read.
/// `alone`: the specifiers are followed by a semicolon alone; `has_body`: a list in braces follows a tag.
/// The type that the nearest specifiers name, and their words; the end of the list that a body begins with;
/// and the structure or union whose members are read.
/// The type given to the node, that found so far, and the next place in a brace list.
#[derive(Drop)]
pub struct Frame {
    pub label: Label,
    pub nth: u32,
    pub token: u32,
    pub scope: Scope,
    pub body: Option<Body>,
    pub listing: bool,
    pub alone: bool,
    pub has_body: bool,
    pub base: CType,
    pub words: Words,
    pub kept: Option<u32>,
    pub owner: u32,
    pub given: CType,
    pub found: CType,
    pub position: Position,
}
