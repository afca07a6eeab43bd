// The file tokens of a workspace, and the table of classes that has each of them.
ghost use Rattle.std.specs.Prelude.{◌≡◌, ◌++◌, ◌∷◌, [], filter, map, IfOk, OnOk};
ghost use Rattle.std.specs.Option.{option_map_or};
ghost use Rattle.cs_base.specs.Token.{has_origins};
ghost use Rattle.eclass_map.specs.ClassTable.{AreLinks, HasParts};
ghost use Rattle.include_tree.specs.Below.source_files.KeptFiles.{kept_at};
ghost use Rattle.analysis.specs.BroughtNumbers.{AreNumbers, all_brought};
ghost use Rattle.analysis.specs.Classes.{HasFileTokens};
ghost use Rattle.analysis.specs.FileTokens.{kept_tokens, span_of, table_tokens};

use crate::accepted::Accepted;
use crate::adding::Adding;
use crate::number_order::each_once;
use cs_base::{Kind, Memory, Tok};
use eclass_map::Classes;
use include_tree::KeptFile;
use macro_expand::all_shared;
use std::alloc::Global;

/// The table of classes whose tokens are the file tokens, and none of which are linked yet. Numbers of lines
/// come first, since their file has number 0, and then each kept file by its number; so tokens are added in the
/// order of their places. Tokens that overlap, and characters past the numbers that they can have, are answered
/// by `Memory`.
pub(crate) fn file_classes(alloc: Global, a: &Accepted, numbers: &[Tok]) -> Result<Classes, Memory>
    requires { AreNumbers (all_brought a.now.units) numbers.now }
    ensures tokens { IfOk result (λ t. HasFileTokens a.now t) }
    ensures links { IfOk result (λ t. AreLinks [] t) }
    ensures parts { IfOk result (λ t. HasParts t) }
{
    let mut adding = Adding::new(alloc);
    add_toks(&mut adding, numbers)?;
    add_files(&mut adding, a)?;
    Ok(adding.into_classes())
}

/// Numbers that units brought, one for each place, in the order of their places.
pub(crate) fn numbers(alloc: Global, brought: &[Tok]) -> Result<Vec<Tok>, Memory>
    ensures { IfOk result (λ numbers. AreNumbers brought.now numbers.items) }
{
    each_once(alloc, all_shared(alloc, brought)?)
}

// Adds all of these tokens.
fn add_toks(adding: &mut Adding, toks: &[Tok]) -> Result<(), Memory>
    ensures { OnOk result (adding.new ≡ adding.old ++ map span_of toks.now) }
{
    for tok in toks {
        adding.add(tok)?;
    }
    Ok(())
}

// Adds the file tokens of kept files.
fn add_files(adding: &mut Adding, a: &Accepted) -> Result<(), Memory>
    ensures { OnOk result (adding.new ≡ adding.old ++ map span_of (table_tokens 0 a.now.table)) }
{
    for number in 0..a.files() {
        add_numbered(adding, a, number)?;
    }
    Ok(())
}

// Adds those of the kept file with this number, if there is one.
fn add_numbered(adding: &mut Adding, a: &Accepted, number: u32) -> Result<(), Memory>
    ensures { OnOk result (adding.new ≡ adding.old ++ map span_of (option_map_or kept_tokens (kept_at a.now.table number) [])) }
{
    match a.file(number) {
        Some(file) => add_file(adding, file),
        None => Ok(()),
    }
}

fn add_file(adding: &mut Adding, file: &KeptFile) -> Result<(), Memory>
    ensures { OnOk result (adding.new ≡ adding.old ++ map span_of (kept_tokens file.now)) }
{
    let toks = file.text().toks();
    for tok in toks {
        add_tok(adding, tok)?;
    }
    Ok(())
}

// Adds a token, if it is a file token.
fn add_tok(adding: &mut Adding, tok: &Tok) -> Result<(), Memory>
    ensures { OnOk result (adding.new ≡ adding.old ++ map span_of (filter (λ t. has_origins t.kind) (tok.now ∷ []))) }
{
    if has_origins(tok.kind()) {
        adding.add(tok)
    } else {
        Ok(())
    }
}

fn has_origins(kind: Kind) -> bool
    ensures { result ≡ has_origins kind }
{
    match kind {
        Kind::Ident | Kind::Number => true,
        _ => false,
    }
}
