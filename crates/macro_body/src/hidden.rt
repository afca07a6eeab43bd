// Tokens with their hide sets, and the labels that a replacement gives them (6.10.3.1, 6.10.3.4).
ghost use Rattle.std.specs.Prelude.{◌≡◌, ◌++◌, ◌∷◌, [], List, map, IfOk, false};
ghost use Rattle.macro_body.specs.Hides.{hidden};
ghost use Rattle.macro_body.specs.Substitution.{put_in, moved_in, with_gap, argument_for};

use crate::hide_set::HideSet;
use crate::shared_tokens::shared;
use cs_base::{Memory, Tok};
use std::alloc::Global;
use std::marker::Model;

/// A token and its hide set.
#[derive(Drop)]
pub struct HiddenTok {
    pub tok: Tok,
    pub hides: HideSet,
}

impl Model for HiddenTok {
    ghost use Rattle.macro_body.specs.Hides.{Hidden, hidden};

    ghost Value = { Hidden };

    ghost view = { λ h. hidden h.tok h.hides };
}

impl HiddenTok {
    pub fn new(tok: Tok, hides: HideSet) -> HiddenTok
        ensures { result ≡ hidden tok hides }
    {
        HiddenTok { tok, hides }
    }

    pub fn tok(&self) -> &Tok
        ensures { result.now ≡ self.now.tok }
    {
        &self.tok
    }

    pub fn hides(&self) -> &HideSet
        ensures { result.now ≡ self.now.hides }
    {
        &self.hides
    }

    pub fn into_hides(self) -> HideSet
        ensures { result ≡ self.hides }
    {
        let HiddenTok { tok: _tok, hides } = self;
        hides
    }

    /// The same, under a label of white space, and not as it stands in the source.
    pub fn moved(&self, alloc: Global, gap: bool) -> Result<HiddenTok, Memory>
        ensures { IfOk result (λ h. h ≡ hidden (record self.now.tok { gap = gap; direct = false }) self.now.hides) }
    {
        let tok = &self.tok;
        Ok(HiddenTok {
            tok: tok.share(gap, tok.at(), tok.line(), false)?,
            hides: self.hides.copy(alloc)?,
        })
    }

    /// The same, under a label of white space.
    pub fn with_gap(&self, alloc: Global, gap: bool) -> Result<HiddenTok, Memory>
        ensures { IfOk result (λ h. h ≡ hidden (record self.now.tok { gap = gap }) self.now.hides) }
    {
        let tok = &self.tok;
        Ok(HiddenTok {
            tok: tok.share(gap, tok.at(), tok.line(), tok.direct())?,
            hides: self.hides.copy(alloc)?,
        })
    }

    /// The same token and names.
    pub fn copy(&self, alloc: Global) -> Result<HiddenTok, Memory>
        ensures { IfOk result (λ h. h ≡ self.now) }
    {
        Ok(HiddenTok {
            tok: shared(&self.tok)?,
            hides: self.hides.copy(alloc)?,
        })
    }

    pub fn into_tok(self) -> Tok
        ensures { result ≡ self.tok }
    {
        self.tok
    }
}

/// A list of tokens with their hide sets, as one value. Contracts see the list.
#[derive(Drop)]
pub struct HiddenToks {
    toks: Vec<HiddenTok>,
}

impl Model for HiddenToks {
    ghost use Rattle.std.specs.Prelude.{List};
    ghost use Rattle.macro_body.specs.Hides.{Hidden};

    ghost Value = { List Hidden };

    ghost view = { λ h. h.toks.items };
}

impl HiddenToks {
    pub fn new(toks: Vec<HiddenTok>) -> HiddenToks
        ensures { result ≡ toks.items }
    {
        HiddenToks { toks }
    }

    pub fn as_slice(&self) -> &[HiddenTok]
        ensures { result.now ≡ self.now }
    {
        self.toks.as_slice()
    }

    pub fn into_toks(self) -> Vec<HiddenTok>
        ensures { result.items ≡ self }
    {
        self.toks
    }
}

/// A token that stands where a macro's name stands, under this label of white space.
pub fn put_in(name: &Tok, gap: bool, tok: &Tok) -> Result<Tok, Memory>
    ensures { IfOk result (λ t. t ≡ put_in name.now gap tok.now) }
{
    tok.share(gap, name.at(), name.line(), false)
}

/// A token alone.
pub fn only(alloc: Global, h: HiddenTok) -> Result<Vec<HiddenTok>, Memory>
    ensures { IfOk result (λ all. all.items ≡ h ∷ []) }
{
    let mut all = Vec::with_capacity(alloc, 1)?;
    all.push(h)?;
    Ok(all)
}

/// The tokens that stand for a parameter: those of its argument, the first with the white space of the
/// parameter.
pub fn argument_for(
    alloc: Global,
    parameter: &Tok,
    argument: &[HiddenTok],
) -> Result<Vec<HiddenTok>, Memory>
    ensures { IfOk result (λ all. all.items ≡ argument_for parameter.now argument.now) }
{
    let mut all = Vec::with_capacity(alloc, argument.len())?;
    push_argument(&mut all, alloc, parameter, argument)?;
    Ok(all)
}

/// Adds the tokens that stand for a parameter.
pub fn push_argument(
    all: &mut Vec<HiddenTok>,
    alloc: Global,
    parameter: &Tok,
    argument: &[HiddenTok],
) -> Result<(), Memory>
    ensures { IfOk result (λ _. all.new.items ≡ all.old.items ++ argument_for parameter.now argument.now) }
{
    if let [first, rest @ ..] = argument {
        all.push(first.moved(alloc, parameter.gap())?)?;
        push_moved(all, alloc, rest)?;
    }
    Ok(())
}

/// Adds the tokens of an argument, each with its own white space.
pub fn push_moved(
    all: &mut Vec<HiddenTok>,
    alloc: Global,
    argument: &[HiddenTok],
) -> Result<(), Memory>
    ensures { IfOk result (λ _. all.new.items ≡ all.old.items ++ map moved_in argument.now) }
{
    for h in argument {
        all.push(h.moved(alloc, h.tok().gap())?)?;
    }
    Ok(())
}
