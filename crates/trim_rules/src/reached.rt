// The items that a unit reached, and their tokens.
ghost use Rattle.std.specs.Prelude.{◌≡◌};
ghost use Rattle.std.specs.List.{slice_range};
ghost use Rattle.std.specs.Option.{option_map};
ghost use Rattle.analysis.specs.Below.lexer.Tokens.{tokens_of, firsts_of};
ghost use Rattle.analysis.specs.Below.line_shape.Items.{items_of};
ghost use Rattle.analysis.specs.Naming.{item_at as numbered_item};
ghost use Rattle.trim_rules.specs.Inside.{is_pragma, is_pragma_kind, item_reached, toks_reached};
ghost use Rattle.trim_rules.specs.Lent.{text_of};

use analysis::{Analysis, KeptFile, Reached};
use cs_base::Tok;
use line_shape::{Item, ItemKind};

/// The items of a file.
pub(crate) fn items_in(file: &KeptFile) -> &[Item]
    ensures { result.now ≡ items_of (tokens_of file.now.number file.now.bytes) (firsts_of file.now.bytes) }
{
    let _text = file.text();
    file.items()
}

// The tokens from one number to before another, of those that there are.
fn between(toks: &[Tok], from: usize, to: usize) -> &[Tok]
    ensures { result.now ≡ slice_range toks.now from to }
{
    let end = to.min(toks.len());
    if from < end { &toks[from..end] } else { &[] }
}

/// The tokens of an item of a file.
pub(crate) fn toks_in<'a>(file: &'a KeptFile, item: &Item) -> &'a [Tok]
    ensures { result.now ≡ slice_range (tokens_of file.now.number file.now.bytes) item.now.from item.now.to }
{
    between(file.text().toks(), item.from as usize, item.to as usize)
}

/// An item with its file.
#[derive(Clone, Copy)]
pub(crate) struct Placed<'a> {
    pub file: &'a KeptFile,
    pub item: &'a Item,
}

// The item with this number of a file.
fn item_at(file: &KeptFile, k: usize) -> Option<Placed<'_>>
    ensures { option_map text_of result ≡ numbered_item k file.now }
{
    match items_in(file).get(k) {
        Some(item) => Some(Placed { file, item }),
        None => None,
    }
}

// The item that was reached.
fn item_reached<'a>(a: &'a Analysis, reached: &Reached) -> Option<Placed<'a>>
    ensures { option_map text_of result ≡ item_reached a.now.value.table reached.now }
{
    match a.file(reached.file) {
        Some(file) => item_at(file, reached.item as usize),
        None => None,
    }
}

/// Its tokens.
pub(crate) fn toks_reached<'a>(a: &'a Analysis, reached: &Reached) -> &'a [Tok]
    ensures { result.now ≡ toks_reached a.now.value.table reached.now }
{
    match item_reached(a, reached) {
        Some(placed) => toks_in(placed.file, placed.item),
        None => &[],
    }
}

fn is_pragma_kind(kind: ItemKind) -> bool
    ensures { result ≡ is_pragma_kind kind }
{
    match kind {
        ItemKind::Pragma => true,
        _ => false,
    }
}

/// Whether it is a pragma.
pub(crate) fn is_pragma(a: &Analysis, reached: &Reached) -> bool
    ensures { result ≡ is_pragma a.now.value.table reached.now }
{
    match item_reached(a, reached) {
        Some(placed) => is_pragma_kind(placed.item.kind),
        None => false,
    }
}
