// Why a text is not read or not bound, in the words of the rows.
use c99_read::ReadRefusal;
use scope_bind::BindRefusal;
use std::alloc::{AllocError, Global};

/// Why a text is no unit of the grammar, and at which token.
pub fn unread(alloc: Global, refusal: ReadRefusal) -> Result<String, AllocError> {
    let (words, index) = match refusal {
        ReadRefusal::Syntax { index } => ("syntax", index),
        ReadRefusal::TooDeep { index } => ("too deep", index),
        ReadRefusal::Memory => ("no memory", 0),
    };
    format!(in alloc; "{words} at token {index}")
}

/// What is wrong with the names of a unit, and at which token.
pub fn unbound(alloc: Global, refusal: BindRefusal) -> Result<String, AllocError> {
    let (words, index) = match refusal {
        BindRefusal::Undeclared { index } => ("undeclared", index),
        BindRefusal::NoMember { index } => ("no member", index),
        BindRefusal::NoLabel { index } => ("no label", index),
        BindRefusal::Redeclared { index } => ("redeclared", index),
        BindRefusal::TagRedefined { index } => ("tag redefined", index),
        BindRefusal::MixedLinkage { index } => ("mixed linkage", index),
        BindRefusal::DesignatorAfterElision { index } => ("designator after elision", index),
        BindRefusal::Memory => ("no memory", 0),
    };
    format!(in alloc; "{words} at token {index}")
}
