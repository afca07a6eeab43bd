// The identifiers of a spelling in the files that may be edited.
ghost use Rattle.std.specs.Prelude.{◌≡◌, ◌++◌, [], IfOk, OnOk};
ghost use Rattle.std.specs.List.{flat_map};
ghost use Rattle.std.specs.Option.{option_map_or};
ghost use Rattle.analysis.specs.Below.source_files.KeptFiles.{kept_at};
ghost use Rattle.unseen_names.specs.Words.{edited_words, file_words, item_words, line_words, name_words, word, words_of};

use crate::files::{item_toks, items_in, span_of};
use crate::lines::{has_parameter, is_spelled, operands};
use crate::pragmas::push_pragmas;
use analysis::{Analysis, KeptFile};
use cs_base::{Memory, Part, Tok};
use line_shape::{Item, ItemKind, is_name};
use std::alloc::Global;

/// Where words are sought.
#[derive(Clone, Copy, Debug, PartialEq, Eq)]
pub enum Source {
    /// Among the tokens.
    Names,
    /// In the string literals of `_Pragma` operators.
    Pragmas,
}

// Adds where a token stands, if it is such an identifier.
fn push_word(out: &mut Vec<Part>, name: &[u8], tok: &Tok) -> Result<(), Memory>
    ensures { OnOk result (out.new.items ≡ out.old.items ++ word name.now tok.now) }
{
    if is_name(tok) && is_spelled(name, tok) {
        out.push(span_of(tok))?;
    }
    Ok(())
}

// Those of tokens.
fn push_words(out: &mut Vec<Part>, name: &[u8], toks: &[Tok]) -> Result<(), Memory>
    ensures { OnOk result (out.new.items ≡ out.old.items ++ flat_map (word name.now) toks.now) }
{
    for tok in toks {
        push_word(out, name, tok)?;
    }
    Ok(())
}

// Those of an item with these tokens, unless it is the line of a macro with such a parameter.
fn push_names(out: &mut Vec<Part>, name: &[u8], kind: ItemKind, line: &[Tok]) -> Result<(), Memory>
    ensures { OnOk result (out.new.items ≡ out.old.items ++ name_words name.now kind line.now) }
{
    if has_parameter(name, kind, line) {
        return Ok(());
    }
    push_words(out, name, operands(kind, line))
}

// Those of an item with these tokens, from one source.
fn push_line(
    out: &mut Vec<Part>,
    source: Source,
    name: &[u8],
    kind: ItemKind,
    line: &[Tok],
) -> Result<(), Memory>
    ensures { OnOk result (out.new.items ≡ out.old.items ++ line_words source name.now kind line.now) }
{
    match source {
        Source::Names => push_names(out, name, kind, line),
        Source::Pragmas => push_pragmas(out, name, operands(kind, line)),
    }
}

// Those of the items of a file with these tokens.
fn push_items(
    out: &mut Vec<Part>,
    source: Source,
    name: &[u8],
    toks: &[Tok],
    items: &[Item],
) -> Result<(), Memory>
    ensures { OnOk result (out.new.items ≡ out.old.items ++ flat_map (item_words source name.now toks.now) items.now) }
{
    for item in items {
        push_line(out, source, name, item.kind, item_toks(toks, item))?;
    }
    Ok(())
}

// Those of a file.
fn push_file(
    out: &mut Vec<Part>,
    source: Source,
    name: &[u8],
    file: &KeptFile,
) -> Result<(), Memory>
    ensures { OnOk result (out.new.items ≡ out.old.items ++ file_words source name.now file.now) }
{
    push_items(out, source, name, file.text().toks(), items_in(file))
}

// Those of a file that may be edited.
fn push_edited(
    out: &mut Vec<Part>,
    a: &Analysis,
    source: Source,
    name: &[u8],
    file: &KeptFile,
) -> Result<(), Memory>
    ensures { OnOk result (out.new.items ≡ out.old.items ++ edited_words a.now.value source name.now file.now) }
{
    if a.read_only(file.number()) {
        return Ok(());
    }
    push_file(out, source, name, file)
}

// The same of the kept file with a number, if there is one.
fn push_numbered(
    out: &mut Vec<Part>,
    a: &Analysis,
    source: Source,
    name: &[u8],
    number: u32,
) -> Result<(), Memory>
    ensures { OnOk result (out.new.items ≡ out.old.items
        ++ option_map_or (edited_words a.now.value source name.now) (kept_at a.now.value.table number) []) }
{
    match a.file(number) {
        Some(file) => push_edited(out, a, source, name, file),
        None => Ok(()),
    }
}

/// Where the identifiers of this spelling stand.
pub(crate) fn words_of(
    alloc: Global,
    a: &Analysis,
    source: Source,
    name: &[u8],
) -> Result<Vec<Part>, Memory>
    ensures { IfOk result (λ words. words.items ≡ words_of a.now.value source name.now) }
{
    let mut out = Vec::new(alloc);
    for number in 0..a.files() {
        push_numbered(&mut out, a, source, name, number)?;
    }
    Ok(out)
}
