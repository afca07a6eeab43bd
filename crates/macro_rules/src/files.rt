// The items of a file, and their tokens.
ghost use Rattle.std.specs.Prelude.{◌≡◌};
ghost use Rattle.macro_rules.specs.Files.{is_define, is_run, item_toks, items_in};

use analysis::KeptFile;
use cs_base::Tok;
use line_shape::{Item, ItemKind};

/// Its directive lines and its runs.
pub(crate) fn items_in(file: &KeptFile) -> &[Item]
    ensures { result.now ≡ items_in file.now }
{
    let _text = file.text();
    file.items()
}

pub(crate) fn is_define(kind: ItemKind) -> bool
    ensures { result ≡ is_define kind }
{
    match kind {
        ItemKind::Define => true,
        _ => false,
    }
}

pub(crate) fn is_run(kind: ItemKind) -> bool
    ensures { result ≡ is_run kind }
{
    match kind {
        ItemKind::Run => true,
        _ => false,
    }
}

/// The tokens of an item, of those of its file.
pub(crate) fn item_toks<'a>(toks: &'a [Tok], item: &Item) -> &'a [Tok]
    ensures { result.now ≡ item_toks toks.now item.now }
{
    let from = item.from as usize;
    let end = (item.to as usize).min(toks.len());
    if from < end { &toks[from..end] } else { &[] }
}
