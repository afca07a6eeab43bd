// The walk over a file's tokens, one item at a time.
ghost use Rattle.std.specs.Prelude.{◌≡◌, ◌+◌, ◌<◌, ◌^◌, [], ◌∷◌, length, IfOk};
ghost use Rattle.line_shape.specs.Items.{line_kind, item_of, items_of, Follow};
ghost use Rattle.line_shape.specs.Walk.{is_hash_at, IsItemEnd};

use crate::directive::line_kind;
use crate::items::Item;
use crate::signs::is_hash;
use cs_base::{Memory, Tok};
use lexer::FileText;
use std::alloc::Global;

/// The items of a source file.
pub fn shape(alloc: Global, text: &FileText) -> Result<Vec<Item>, Memory>
    // Each token stands in one item, and the items are in the order of the tokens.
    ensures covers { IfOk result (λ items. Follow 0 (length text.now.toks) items.items) }
    ensures answer { IfOk result (λ items. items.items ≡ items_of text.now.toks text.now.firsts) }
{
    let toks = text.toks();
    if toks.len() > u32::MAX as usize {
        return Err(Memory);
    }
    let mut items = Vec::new(alloc);
    let mut from: usize = 0;
    'items: while from < toks.len() {
        let to = item_end(text, toks, from);
        items.push(item(alloc, &toks[from..to], from as u32)?)?;
        from = to;
    }
    Ok(items)
}

// The number of the first token behind the item that begins at `from`: a directive ends with its line,
// and a run before the next directive.
fn item_end(text: &FileText, toks: &[Tok], from: usize) -> usize
    requires tokens { toks.now ≡ text.now.toks }
    requires few { length toks.now < 2 ^ 32 }
    requires inside { from < length toks.now }
    ensures { IsItemEnd (is_hash_at toks.now from) toks.now text.now.firsts from result }
{
    let directive = is_hash_at(toks, from);
    for k in from + 1..toks.len() {
        if text.begins_line(k as u32) && (directive || is_hash_at(toks, k)) {
            return k;
        }
    }
    toks.len()
}

#[tactic(auto, unfolding(crate::specs::Walk::is_hash_at))]
fn is_hash_at(toks: &[Tok], k: usize) -> bool
    ensures { result ≡ is_hash_at toks.now k }
{
    match toks.get(k) {
        Some(tok) => is_hash(tok),
        None => false,
    }
}

// The item of these tokens, the first of which has this number.
fn item(alloc: Global, toks: &[Tok], from: u32) -> Result<Item, Memory>
    requires some { 0 < length toks.now }
    requires few { from + length toks.now < 2 ^ 32 }
    ensures { IfOk result (λ item. item_of (line_kind toks.now) from toks.now ≡ item ∷ []) }
{
    let kind = line_kind(alloc, toks)?;
    let first = &toks[0];
    let last = &toks[toks.len() - 1];
    Ok(Item {
        kind,
        at: first.at(),
        first_line: first.line(),
        last_line: last.line(),
        from,
        to: from + toks.len() as u32,
    })
}
