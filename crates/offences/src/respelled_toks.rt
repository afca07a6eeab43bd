// Tokens as they stand behind a renaming.
ghost use Rattle.std.specs.Prelude.{◌≡◌, ◌++◌, ◌∷◌, [], IfOk, IsTrue, OnOk, Some, None, length, map};
ghost use Rattle.cs_base.specs.Token.{IsToken, IsTraced, token};
ghost use Rattle.analysis.specs.Below.lexer.Places.{origins_from};
ghost use Rattle.analysis.specs.Changed.{renamed_token, renamed_link};
ghost use Rattle.offences.specs.Moves.{put_by, renaming_by, spell_by, spell_of, trace_by, trace_of};

use crate::moves::Moves;
use crate::puts::Put;
use crate::still_toks::are_still;
use cs_base::{Link, Memory, Pos, Tok};
use std::alloc::Global;

#[tactic(auto, using(crate::proofs::StillLemmas::token_same))]
/// Whether a token stays as it is: its characters, and where it was brought.
pub fn stays(moves: &Moves, tok: &Tok) -> bool
    ensures { IsTrue result → renamed_token (renaming_by moves.now) tok.now ≡ tok.now }
{
    moves.keeps(tok.at()) && are_still(moves, tok, tok.text())
}

/// Whether all these tokens do.
pub fn toks_stay(moves: &Moves, toks: &[Tok]) -> bool
    ensures { IsTrue result → map (renamed_token (renaming_by moves.now)) toks.now ≡ toks.now }
{
    for tok in toks {
        if !stays(moves, tok) {
            return false;
        }
    }
    true
}

/// Whether the tokens of all these links do.
pub fn links_stay(moves: &Moves, links: &[Link]) -> bool
    ensures { IsTrue result → map (renamed_link (renaming_by moves.now)) links.now ≡ links.now }
{
    for link in links {
        if !link_stays(moves, link) {
            return false;
        }
    }
    true
}

#[tactic(auto, using(crate::proofs::StillLemmas::link_same))]
fn link_stays(moves: &Moves, link: &Link) -> bool
    ensures { IsTrue result → renamed_link (renaming_by moves.now) link.now ≡ link.now }
{
    stays(moves, &link.x) && stays(moves, &link.y)
}

/// The token, with its new spelling, origins and position. One whose characters stay shares its text and origins.
pub fn renamed_tok(alloc: Global, moves: &Moves, tok: &Tok) -> Result<Tok, Memory>
    ensures { IfOk result (λ t. t ≡ renamed_token (renaming_by moves.now) tok.now) }
{
    renamed_over(
        alloc,
        moves,
        tok,
        &mut Vec::new(alloc),
        &mut Vec::new(alloc),
    )
}

// The same; new characters and their origins are put into these lists, which many tokens can share.
fn renamed_over(
    alloc: Global,
    moves: &Moves,
    tok: &Tok,
    text: &mut Vec<u8>,
    origins: &mut Vec<Option<Pos>>,
) -> Result<Tok, Memory>
    ensures { IfOk result (λ t. t ≡ renamed_token (renaming_by moves.now) tok.now) }
{
    if are_still(moves, tok, tok.text()) {
        return tok.share(tok.gap(), moves.moved(tok.at()), tok.line(), tok.direct());
    }
    respelled_tok(alloc, moves, tok, text, origins)
}

// The same, of new characters.
fn respelled_tok(
    alloc: Global,
    moves: &Moves,
    tok: &Tok,
    text: &mut Vec<u8>,
    origins: &mut Vec<Option<Pos>>,
) -> Result<Tok, Memory>
    ensures { IfOk result (λ t. t ≡ renamed_token (renaming_by moves.now) tok.now) }
{
    text.clear();
    origins.clear();
    respell(moves, tok, tok.text(), text, origins)?;
    tok_of(
        alloc,
        tok,
        text.as_slice(),
        origins.as_slice(),
        moves.moved(tok.at()),
    )
}

#[tactic(auto, using(crate::proofs::TokLemmas::padded_long))]
// The token with another spelling, one origin for each of its characters, and another position.
fn tok_of(
    alloc: Global,
    tok: &Tok,
    text: &[u8],
    origins: &[Option<Pos>],
    at: Pos,
) -> Result<Tok, Memory>
    requires each { length origins.now ≡ length text.now }
    requires traced { IsTraced tok.now.kind origins.now }
    ensures { IfOk result (λ t. t ≡ token tok.now.kind text.now origins.now tok.now.gap at tok.now.line tok.now.direct) }
{
    Tok::new(
        alloc,
        tok.kind(),
        text,
        origins,
        tok.gap(),
        at,
        tok.line(),
        tok.direct(),
    )
}

// Adds the new characters of a token, and their origins.
fn respell(
    moves: &Moves,
    tok: &Tok,
    chars: &[u8],
    text: &mut Vec<u8>,
    origins: &mut Vec<Option<Pos>>,
) -> Result<(), Memory>
    requires same { chars.now ≡ tok.now.text }
    requires sound { IsToken tok.now }
    ensures text { OnOk result (text.new.items ≡ text.old.items ++ spell_by moves.now tok.now.origins tok.now.text) }
    ensures origins { OnOk result (origins.new.items ≡ origins.old.items ++ trace_by moves.now tok.now.origins tok.now.text) }
{
    for k in 0..chars.len() {
        push_for(moves, tok.origins(k as u32), chars[k], text, origins)?;
    }
    Ok(())
}

// Adds what stands for a character with this origin.
fn push_for(
    moves: &Moves,
    origin: Option<Pos>,
    c: u8,
    text: &mut Vec<u8>,
    origins: &mut Vec<Option<Pos>>,
) -> Result<(), Memory>
    ensures text { OnOk result (text.new.items ≡ text.old.items ++ spell_of moves.now origin c) }
    ensures origins { OnOk result (origins.new.items ≡ origins.old.items ++ trace_of moves.now origin c) }
{
    match origin {
        Some(p) => push_put(moves, p, c, text, origins),
        None => push_one(c, text, origins),
    }
}

// Adds a character that comes from no file.
fn push_one(c: u8, text: &mut Vec<u8>, origins: &mut Vec<Option<Pos>>) -> Result<(), Memory>
    ensures text { OnOk result (text.new.items ≡ text.old.items ++ c ∷ []) }
    ensures origins { OnOk result (origins.new.items ≡ origins.old.items ++ None ∷ []) }
{
    text.push(c)?;
    origins.push(None)?;
    Ok(())
}

// Adds what stands for the character at a position.
fn push_put(
    moves: &Moves,
    p: Pos,
    c: u8,
    text: &mut Vec<u8>,
    origins: &mut Vec<Option<Pos>>,
) -> Result<(), Memory>
    ensures text { OnOk result (text.new.items ≡ text.old.items ++ put_by moves.now p c) }
    ensures origins { OnOk result (origins.new.items ≡ origins.old.items ++ trace_of moves.now (Some p) c) }
{
    match moves.put(p) {
        Put::Character => {
            text.push(c)?;
            push_origins(origins, moves.moved(p), 1)
        }
        Put::Name => {
            text.extend_from_slice(&moves.name)?;
            let len = moves.name.len();
            if len > u32::MAX as usize {
                return Err(Memory);
            }
            push_origins(origins, moves.moved(p), len as u32)
        }
        Put::Nothing => Ok(()),
    }
}

// Adds the origins of so many characters from one on. A character of number 2^32 is answered by `Memory`.
fn push_origins(origins: &mut Vec<Option<Pos>>, from: Pos, len: u32) -> Result<(), Memory>
    ensures { OnOk result (origins.new.items ≡ origins.old.items ++ origins_from from.file from.at len) }
{
    for k in 0..len {
        if k > u32::MAX - from.at {
            return Err(Memory);
        }
        origins.push(Some(Pos {
            file: from.file,
            at: from.at + k,
        }))?;
    }
    Ok(())
}

/// Tokens in order.
pub fn renamed_toks(alloc: Global, moves: &Moves, toks: &[Tok]) -> Result<Vec<Tok>, Memory>
    ensures { IfOk result (λ r. r.items ≡ map (renamed_token (renaming_by moves.now)) toks.now) }
{
    let mut renamed = Vec::with_capacity(alloc, toks.len())?;
    let mut text = Vec::new(alloc);
    let mut origins = Vec::new(alloc);
    for tok in toks {
        renamed.push(renamed_over(alloc, moves, tok, &mut text, &mut origins)?)?;
    }
    Ok(renamed)
}

/// Links in order.
pub fn renamed_links(alloc: Global, moves: &Moves, links: &[Link]) -> Result<Vec<Link>, Memory>
    ensures { IfOk result (λ r. r.items ≡ map (renamed_link (renaming_by moves.now)) links.now) }
{
    let mut renamed = Vec::with_capacity(alloc, links.len())?;
    let mut text = Vec::new(alloc);
    let mut origins = Vec::new(alloc);
    for link in links {
        renamed.push(renamed_one(alloc, moves, link, &mut text, &mut origins)?)?;
    }
    Ok(renamed)
}

fn renamed_one(
    alloc: Global,
    moves: &Moves,
    link: &Link,
    text: &mut Vec<u8>,
    origins: &mut Vec<Option<Pos>>,
) -> Result<Link, Memory>
    ensures { IfOk result (λ l. l ≡ renamed_link (renaming_by moves.now) link.now) }
{
    Ok(Link {
        x: renamed_over(alloc, moves, &link.x, text, origins)?,
        y: renamed_over(alloc, moves, &link.y, text, origins)?,
    })
}
