// The items of a file, and their tokens.
ghost use Rattle.std.specs.Prelude.{◌≡◌};
ghost use Rattle.analysis.specs.FileTokens.{span_of};
ghost use Rattle.unseen_names.specs.Words.{is_define, is_run, item_toks, items_in};

use analysis::KeptFile;
use cs_base::{Part, Pos, Tok};
use line_shape::{Item, ItemKind};

/// Its directive lines and its runs.
pub(crate) fn items_in(file: &KeptFile) -> &[Item]
    ensures { result.now ≡ items_in file.now }
{
    let _text = file.text();
    file.items()
}

pub(crate) fn is_define(kind: ItemKind) -> bool
    ensures { result ≡ is_define kind }
{
    match kind {
        ItemKind::Define => true,
        _ => false,
    }
}

pub(crate) fn is_run(kind: ItemKind) -> bool
    ensures { result ≡ is_run kind }
{
    match kind {
        ItemKind::Run => true,
        _ => false,
    }
}

/// The tokens of an item, of those of its file.
pub(crate) fn item_toks<'a>(toks: &'a [Tok], item: &Item) -> &'a [Tok]
    ensures { result.now ≡ item_toks toks.now item.now }
{
    let from = item.from as usize;
    let end = (item.to as usize).min(toks.len());
    if from < end { &toks[from..end] } else { &[] }
}

/// Where a token begins, and how many characters it has.
pub(crate) fn span_of(tok: &Tok) -> Part
    ensures { result ≡ span_of tok.now }
{
    Part {
        start: tok.origins(0).unwrap_or(Pos { file: 0, at: 0 }),
        len: tok.text().len() as u32,
    }
}
