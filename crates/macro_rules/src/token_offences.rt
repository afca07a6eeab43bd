// What tokens of units say against a new order of a macro's parameters: names that are called, and that stay.
ghost use Rattle.std.specs.Prelude.{◌≡◌, ◌++◌, OnOk};
ghost use Rattle.std.specs.List.{flat_map};
ghost use Rattle.cs_base.specs.Token.{origin_at};
ghost use Rattle.macro_rules.specs.Offences.{origin_offences, token_offences, is_string, kept_offences, text_offences};
ghost use Rattle.cs_base.specs.declared.causes.Cause.TheVariants as cause;

use crate::name_offences::push_at;
use crate::positions::Positions;
use analysis::UnitText;
use cs_base::{Cause, Kind, Memory, Tok};
use offences::{Offence, length};

// Adds a cause at character `k` of a token, if that comes from the first one of a name that is called.
fn push_origin(
    out: &mut Vec<Offence>,
    cause: Cause,
    calls: &Positions,
    tok: &Tok,
    k: u32,
) -> Result<(), Memory>
    ensures { OnOk result (out.new.items ≡ out.old.items ++ origin_offences cause calls.now (origin_at tok.now k)) }
{
    match tok.origins(k) {
        Some(p) => {
            if calls.has(p) {
                push_at(out, cause, p)
            } else {
                Ok(())
            }
        }
        None => Ok(()),
    }
}

// The same at all characters.
fn push_token(
    out: &mut Vec<Offence>,
    cause: Cause,
    calls: &Positions,
    tok: &Tok,
) -> Result<(), Memory>
    ensures { OnOk result (out.new.items ≡ out.old.items ++ token_offences cause calls.now tok.now) }
{
    let count = length(tok);
    for k in 0..count {
        push_origin(out, cause, calls, tok, k)?;
    }
    Ok(())
}

fn is_string(kind: Kind) -> bool
    ensures { result ≡ is_string kind }
{
    match kind {
        Kind::Str => true,
        _ => false,
    }
}

// Adds `NotExpanded` at a token that is no string.
fn push_kept(out: &mut Vec<Offence>, calls: &Positions, tok: &Tok) -> Result<(), Memory>
    ensures { OnOk result (out.new.items ≡ out.old.items ++ kept_offences calls.now tok.now) }
{
    if is_string(tok.kind()) {
        Ok(())
    } else {
        push_token(out, Cause::NotExpanded, calls, tok)
    }
}

fn push_all_kept(out: &mut Vec<Offence>, calls: &Positions, toks: &[Tok]) -> Result<(), Memory>
    ensures { OnOk result (out.new.items ≡ out.old.items ++ flat_map (kept_offences calls.now) toks.now) }
{
    for tok in toks {
        push_kept(out, calls, tok)?;
    }
    Ok(())
}

// Adds `Stringized` at these tokens.
fn push_strings(out: &mut Vec<Offence>, calls: &Positions, toks: &[Tok]) -> Result<(), Memory>
    ensures { OnOk result (out.new.items ≡ out.old.items ++ flat_map (token_offences cause.Stringized calls.now) toks.now) }
{
    for tok in toks {
        push_token(out, Cause::Stringized, calls, tok)?;
    }
    Ok(())
}

/// Both in a unit.
pub(crate) fn push_text(
    out: &mut Vec<Offence>,
    calls: &Positions,
    text: &UnitText,
) -> Result<(), Memory>
    ensures { OnOk result (out.new.items ≡ out.old.items ++ text_offences calls.now text.now) }
{
    push_all_kept(out, calls, text.toks())?;
    push_all_kept(out, calls, text.pasted())?;
    push_strings(out, calls, text.stringized())
}
