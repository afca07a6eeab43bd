// Tokens whose text and origins are shared.
ghost use Rattle.std.specs.Prelude.{◌≡◌, ◌++◌, IfOk, filter};
ghost use Rattle.line_shape.specs.Signs.{is_name};

use cs_base::{Memory, Tok};
use line_shape::is_name;
use std::alloc::Global;

/// The same token.
pub fn shared(tok: &Tok) -> Result<Tok, Memory>
    ensures { IfOk result (λ t. t ≡ tok.now) }
{
    tok.share(tok.gap(), tok.at(), tok.line(), tok.direct())
}

/// The same tokens.
pub fn all_shared(alloc: Global, toks: &[Tok]) -> Result<Vec<Tok>, Memory>
    ensures { IfOk result (λ all. all.items ≡ toks.now) }
{
    let mut all = Vec::with_capacity(alloc, toks.len())?;
    push_shared(&mut all, toks)?;
    Ok(all)
}

/// Adds the same tokens.
pub fn push_shared(all: &mut Vec<Tok>, toks: &[Tok]) -> Result<(), Memory>
    ensures { IfOk result (λ _. all.new.items ≡ all.old.items ++ toks.now) }
{
    for tok in toks {
        all.push(shared(tok)?)?;
    }
    Ok(())
}

/// The identifiers among the tokens.
pub fn names_shared(alloc: Global, toks: &[Tok]) -> Result<Vec<Tok>, Memory>
    ensures { IfOk result (λ names. names.items ≡ filter is_name toks.now) }
{
    let mut names = Vec::new(alloc);
    for tok in toks {
        if is_name(tok) {
            names.push(shared(tok)?)?;
        }
    }
    Ok(names)
}
