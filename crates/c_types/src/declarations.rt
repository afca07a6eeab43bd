// Declarations with their ranges, what is bound, and what is wrong.

use crate::entity::{EntityKind, Linkage};
use crate::types::CType;

/// A name space (6.2.3): ordinary identifiers, tags, the members of each structure or union by its number,
/// and the labels of each function by the token that begins its body; labels that a block declares (GNU C) go by 0, where
/// no body begins. `Inner`: a name of an anonymous member of a structure or union, which is found among its members (C11,
/// 6.7.2.1 paragraph 13); `Unnamed`: the place of one.
#[derive(Clone, Copy, Debug, PartialEq, Eq)]
pub enum Space {
    Ordinary,
    Tags,
    Members(u32),
    Inner(u32),
    Unnamed(u32),
    Labels(u32),
}

/// A declaration: its name space, the token that is its name, and its entity by the first token that
/// declares it. Its range goes from a token to before another; `depth` counts the scopes around its own.
/// `listed` says that an identifier list declares it.
#[derive(Drop)]
pub struct Declaration {
    pub space: Space,
    pub name_at: u32,
    pub entity: u32,
    pub kind: EntityKind,
    pub linkage: Linkage,
    pub ctype: CType,
    pub depth: u32,
    pub from: u32,
    pub to: u32,
    pub listed: bool,
}

/// An identifier that is bound: its token, its entity, and whether it declares it.
#[derive(Clone, Copy, Debug, PartialEq, Eq)]
pub struct Occurrence {
    pub index: u32,
    pub entity: u32,
    pub declares: bool,
}

/// A name that is not visible (6.2.1), a member that is not there (6.5.2.3), a label that is not there
/// (6.8.6.1), a name declared twice (6.7), a tag with another list or of another kind (6.7.2.3), both
/// linkages (6.2.2 paragraph 7), and a member designated where no rule gives the place (6.7.8).
#[derive(Clone, Copy, Debug, PartialEq, Eq)]
pub enum Cause {
    Undeclared,
    NoMember,
    NoLabel,
    Redeclared,
    TagRedefined,
    MixedLinkage,
    DesignatorAfterElision,
}

/// A cause, at an identifier.
#[derive(Clone, Copy, Debug, PartialEq, Eq)]
pub struct Fault {
    pub cause: Cause,
    pub index: u32,
}
