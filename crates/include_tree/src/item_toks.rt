// The items of a kept file, each with its tokens.
ghost use Rattle.std.specs.Prelude.{◌≡◌, ◌≤◌, ◌&&◌, IsTrue, IfSome, Some, length, slice_get, slice_range};
ghost use Rattle.std.specs.List.{list_all};
ghost use Rattle.std.specs.Option.{option_map};
ghost use Rattle.source_files.specs.Below.line_shape.declared.items.ItemKind.TheVariants.{Define};
ghost use Rattle.source_files.specs.Below.line_shape.Items.{line_kind};
ghost use Rattle.unit_steps.specs.Below.macro_body.declared.definitions.Definition.{Definition as Macro};
ghost use Rattle.unit_steps.specs.Below.macro_body.Defining.{defined_by};
ghost use Rattle.unit_steps.specs.Below.macro_body.Sound.{is_traced, is_low};
ghost use Rattle.source_files.specs.Sources.{source_kept};
ghost use Rattle.unit_steps.specs.SourceTexts.{source_in};
ghost use Rattle.include_tree.specs.ItemTexts.{item_in};
ghost use Rattle.include_tree.specs.Walk.{items_in};

use cs_base::{Pos, Tok};
use source_files::{Item, ItemKind, KeptFile};
use unit_steps::SourceText;

/// An item of a file: its kind, the position of its first token, and its tokens.
#[derive(Clone, Copy)]
pub struct ItemToks<'a> {
    pub kind: ItemKind,
    pub at: Pos,
    pub toks: &'a [Tok],
}

/// The file, as it is processed.
pub(crate) fn source_of(file: &KeptFile) -> SourceText<'_>
    ensures { source_kept file.now ≡ Some (source_in result) }
{
    SourceText {
        number: file.number(),
        path: file.path(),
        text: file.text(),
    }
}

// The tokens of an item, among those of its file.
fn toks_of(toks: &[Tok], item: Item) -> &[Tok]
    requires order { item.from ≤ item.to }
    requires within { item.to ≤ length toks.now }
    ensures { result.now ≡ slice_range toks.now item.from item.to }
{
    &toks[item.from as usize..item.to as usize]
}

/// Item number `k` of the file.
pub(crate) fn item_at(file: &KeptFile, k: u32) -> Option<ItemToks<'_>>
    ensures answer { IfSome (source_kept file.now) (λ source. option_map item_in result ≡ slice_get (items_in source) k) }
    ensures sound { IfSome result (λ i. IsTrue (list_all (λ t. is_traced t && is_low t) i.toks.now)) }
    ensures defines { IfSome result (λ i. i.kind ≡ Define → (line_kind i.toks.now ≡ Define) × ((m : Macro) → defined_by i.toks.now ≡ Some m → IsTrue (list_all is_traced m.body))) }
{
    match file.items().get(k as usize) {
        Some(item) => {
            let toks = toks_of(file.text().toks(), *item);
            Some(ItemToks {
                kind: item.kind,
                at: item.at,
                toks,
            })
        }
        None => None,
    }
}
