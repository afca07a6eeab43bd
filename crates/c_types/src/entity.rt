// What a name denotes.

/// What kind of thing an entity is.
#[derive(Clone, Copy, Debug, PartialEq, Eq)]
pub enum EntityKind {
    Object,
    Function,
    Typedef,
    Parameter,
    Enumerator,
    Tag,
    Member,
    Label,
}

/// The linkage of an entity (ISO/IEC 9899:1999, 6.2.2).
#[derive(Clone, Copy, Debug, PartialEq, Eq)]
pub enum Linkage {
    External,
    Internal,
    Absent,
}
