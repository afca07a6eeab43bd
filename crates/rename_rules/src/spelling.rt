// The new spelling of a token.
ghost use Rattle.std.specs.Prelude.{◌≡◌, ◌++◌, ◌∷◌, [], IfOk, OnOk};
ghost use Rattle.std.specs.Option.{option_map_or};
ghost use Rattle.cs_base.specs.Token.{origin_at};
ghost use Rattle.part_respell.specs.Respelled.{put_for, put_in, spelled};

use cs_base::{Memory, Part, Pos, Tok};
use offences::{Class, member_over};
use std::alloc::Global;

// Adds what stands for a character at a position, which lies in this member or in none.
fn push_put(
    out: &mut Vec<u8>,
    member: Option<Part>,
    name: &[u8],
    pos: Pos,
    byte: u8,
) -> Result<(), Memory>
    ensures { OnOk result (out.new.items ≡ out.old.items ++ option_map_or (put_in name.now pos) member (byte ∷ [])) }
{
    match member {
        None => {
            out.push(byte)?;
        }
        Some(part) => {
            if part.start.at == pos.at {
                out.extend_from_slice(name)?;
            }
        }
    }
    Ok(())
}

// Adds what stands for character `k` of a token.
fn push_character(
    out: &mut Vec<u8>,
    class: &Class<'_>,
    name: &[u8],
    tok: &Tok,
    k: u32,
    byte: u8,
) -> Result<(), Memory>
    ensures { OnOk result (out.new.items ≡ out.old.items ++ put_for class.now.members name.now (origin_at tok.now k) byte) }
{
    match tok.origins(k) {
        Some(pos) => push_put(out, member_over(class, pos), name, pos, byte),
        None => {
            out.push(byte)?;
            Ok(())
        }
    }
}

/// The new spelling of a token: each member of the class in it is replaced by the name.
pub fn spelled(alloc: Global, class: &Class<'_>, name: &[u8], tok: &Tok) -> Result<Vec<u8>, Memory>
    ensures { IfOk result (λ text. text.items ≡ spelled class.now.members name.now tok.now) }
{
    let mut out = Vec::new(alloc);
    let text = tok.text();
    for k in 0..text.len() {
        push_character(&mut out, class, name, tok, k as u32, text[k])?;
    }
    Ok(out)
}
