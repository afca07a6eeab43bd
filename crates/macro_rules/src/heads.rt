// The macros of a class, and how many parameters they have.
ghost use Rattle.std.specs.Prelude.{◌≡◌, ◌++◌, [], None, IfOk, OnOk};
ghost use Rattle.std.specs.List.{flat_map};
ghost use Rattle.std.specs.Option.{option_map_or};
ghost use Rattle.analysis.specs.Below.source_files.KeptFiles.{kept_at};
ghost use Rattle.macro_rules.specs.Counting.{sooner, count_in};
ghost use Rattle.macro_rules.specs.Files.{in_items};
ghost use Rattle.macro_rules.specs.Macros.{head_of, own_head, in_define, heads_of};

use crate::files::{is_define, item_toks, items_in};
use crate::lines::{is_fixed, parameters_of};
use crate::positions::Positions;
use analysis::{Analysis, KeptFile};
use cs_base::{Memory, Pos, Tok};
use line_shape::Item;
use offences::compare;
use std::alloc::Global;
use std::cmp::Ordering;

/// The beginning of a macro's definition: where its name stands, how many parameters it has, and whether it has a list of
/// them that does not end in `...`.
#[derive(Clone, Copy, Debug, PartialEq, Eq)]
pub struct Head {
    pub at: Pos,
    pub count: usize,
    pub fixed: bool,
}

fn head_of(line: &[Tok], name: &Tok) -> Head
    ensures { result ≡ head_of line.now name.now }
{
    Head {
        at: name.at(),
        count: parameters_of(line),
        fixed: is_fixed(line),
    }
}

// Adds that of a line, if it defines one of these macros.
fn push_line(
    out: &mut Vec<Head>,
    macros: &Positions,
    line: &[Tok],
    name: &Tok,
) -> Result<(), Memory>
    ensures { OnOk result (out.new.items ≡ out.old.items ++ own_head macros.now line.now name.now) }
{
    if macros.has(name.at()) {
        out.push(head_of(line, name))?;
    }
    Ok(())
}

// The same for an item.
fn push_item(
    out: &mut Vec<Head>,
    macros: &Positions,
    toks: &[Tok],
    item: &Item,
) -> Result<(), Memory>
    ensures { OnOk result (out.new.items ≡ out.old.items ++ in_define (own_head macros.now) toks.now item.now) }
{
    if !is_define(item.kind) {
        return Ok(());
    }
    let line = item_toks(toks, item);
    match line.get(2) {
        Some(name) => push_line(out, macros, line, name),
        None => Ok(()),
    }
}

fn push_items(
    out: &mut Vec<Head>,
    macros: &Positions,
    toks: &[Tok],
    items: &[Item],
) -> Result<(), Memory>
    ensures { OnOk result (out.new.items ≡ out.old.items ++ flat_map (in_define (own_head macros.now) toks.now) items.now) }
{
    for item in items {
        push_item(out, macros, toks, item)?;
    }
    Ok(())
}

fn push_file(out: &mut Vec<Head>, macros: &Positions, file: &KeptFile) -> Result<(), Memory>
    ensures { OnOk result (out.new.items ≡ out.old.items ++ in_items (in_define (own_head macros.now)) file.now) }
{
    push_items(out, macros, file.text().toks(), items_in(file))
}

fn push_numbered(
    out: &mut Vec<Head>,
    macros: &Positions,
    a: &Analysis,
    number: u32,
) -> Result<(), Memory>
    ensures { OnOk result (out.new.items ≡ out.old.items
        ++ option_map_or (in_items (in_define (own_head macros.now))) (kept_at a.now.value.table number) []) }
{
    match a.file(number) {
        Some(file) => push_file(out, macros, file),
        None => Ok(()),
    }
}

/// The macros whose names stand here, in the order of files.
pub(crate) fn heads(alloc: Global, a: &Analysis, macros: &Positions) -> Result<Vec<Head>, Memory>
    ensures { IfOk result (λ heads. heads.items ≡ heads_of macros.now a.now.value.table) }
{
    let mut out = Vec::new(alloc);
    for number in 0..a.files() {
        push_numbered(&mut out, macros, a, number)?;
    }
    Ok(out)
}

// Of two macros the one whose name stands first.
fn sooner(a: &Analysis, best: Option<Head>, head: Head) -> Head
    ensures { result ≡ sooner a.now.value.table best head }
{
    match best {
        Some(other) => match compare(a, head.at, other.at) {
            Ordering::Less => head,
            _ => other,
        },
        None => head,
    }
}

/// How many parameters the first of these macros has by its place.
pub(crate) fn count_in(a: &Analysis, heads: &[Head]) -> usize
    ensures { result ≡ count_in a.now.value.table heads.now }
{
    let mut best = None;
    for head in heads {
        best = Some(sooner(a, best, *head));
    }
    match best {
        Some(head) => head.count,
        None => 0,
    }
}
