// The tokens that hold members of a class.
ghost use Rattle.std.specs.Prelude.{◌≡◌, ◌++◌, ◌∷◌, [], filter, IfOk, OnOk, Some};
ghost use Rattle.std.specs.Option.{option_map_or};
ghost use Rattle.cs_base.specs.Token.{has_origins};
ghost use Rattle.analysis.specs.Below.source_files.KeptFiles.{kept_at};
ghost use Rattle.analysis.specs.FileTokens.{kept_tokens, table_tokens};
ghost use Rattle.rename_rules.specs.Tokens.{holders, pasted_tokens};
ghost use Rattle.offences.specs.Tokens.{holds_member};

use analysis::KeptFile;
use cs_base::{Kind, Memory, Tok};
use offences::{Class, holds_member};
use std::alloc::Global;

// Adds a token, if it holds a member.
fn push(out: &mut Vec<Tok>, class: &Class<'_>, tok: &Tok) -> Result<(), Memory>
    ensures { OnOk result (out.new.items ≡ out.old.items ++ filter (holds_member class.now.members) (tok.now ∷ [])) }
{
    if holds_member(class, tok) {
        out.push(tok.share(tok.gap(), tok.at(), tok.line(), tok.direct())?)?;
    }
    Ok(())
}

// Adds those of these tokens that hold one.
fn push_all(out: &mut Vec<Tok>, class: &Class<'_>, toks: &[Tok]) -> Result<(), Memory>
    ensures { OnOk result (out.new.items ≡ out.old.items ++ filter (holds_member class.now.members) toks.now) }
{
    for tok in toks {
        push(out, class, tok)?;
    }
    Ok(())
}

fn has_origins(kind: Kind) -> bool
    ensures { result ≡ has_origins kind }
{
    match kind {
        Kind::Ident | Kind::Number => true,
        _ => false,
    }
}

// Adds a token of a file, if it has parts and holds a member.
fn push_file_token(out: &mut Vec<Tok>, class: &Class<'_>, tok: &Tok) -> Result<(), Memory>
    ensures { OnOk result (out.new.items ≡ out.old.items ++ filter (holds_member class.now.members) (filter (λ t. has_origins t.kind) (tok.now ∷ []))) }
{
    if has_origins(tok.kind()) {
        push(out, class, tok)
    } else {
        Ok(())
    }
}

// Adds those of a file.
fn push_file(out: &mut Vec<Tok>, class: &Class<'_>, file: &KeptFile) -> Result<(), Memory>
    ensures { OnOk result (out.new.items ≡ out.old.items ++ filter (holds_member class.now.members) (kept_tokens file.now)) }
{
    let toks = file.text().toks();
    for tok in toks {
        push_file_token(out, class, tok)?;
    }
    Ok(())
}

// Adds those of the kept file with this number, if there is one.
fn push_numbered(out: &mut Vec<Tok>, class: &Class<'_>, file: u32) -> Result<(), Memory>
    ensures { OnOk result (out.new.items ≡ out.old.items ++ filter (holds_member class.now.members) (option_map_or kept_tokens (kept_at class.now.analysis.value.table file) [])) }
{
    match class.analysis().file(file) {
        Some(kept) => push_file(out, class, kept),
        None => Ok(()),
    }
}

// Adds those of all kept files.
fn push_files(out: &mut Vec<Tok>, class: &Class<'_>) -> Result<(), Memory>
    ensures { OnOk result (out.new.items ≡ out.old.items ++ filter (holds_member class.now.members) (table_tokens 0 class.now.analysis.value.table)) }
{
    let a = class.analysis();
    for file in 0..a.files() {
        push_numbered(out, class, file)?;
    }
    Ok(())
}

// Adds those of the pasted tokens.
fn push_pasted(alloc: Global, out: &mut Vec<Tok>, class: &Class<'_>) -> Result<(), Memory>
    ensures { OnOk result (out.new.items ≡ out.old.items ++ filter (holds_member class.now.members) (pasted_tokens class.now.analysis.value)) }
{
    let a = class.analysis();
    for unit in 0..a.units() {
        let one = a.unit(alloc, unit + 1)?;
        let text = one.text();
        push_all(out, class, text.pasted())?;
    }
    Ok(())
}

/// The tokens that hold members of a class: those of files, the numbers that units brought, and pasted tokens.
pub fn holders(alloc: Global, class: &Class<'_>) -> Result<Vec<Tok>, Memory>
    ensures { IfOk result (λ toks. toks.items ≡ holders class.now.analysis.value class.now.members) }
{
    let mut out = Vec::new(alloc);
    push_files(&mut out, class)?;
    push_all(&mut out, class, class.analysis().numbers_brought())?;
    push_pasted(alloc, &mut out, class)?;
    Ok(out)
}
