// The macros in whose replacement lists names stand (ISO/IEC 9899:1999, 6.10.3).
ghost use Rattle.std.specs.Prelude.{◌≡◌, ◌∷◌, [], None, map, IfOk, OnOk};
ghost use Rattle.std.specs.List.{flat_map};
ghost use Rattle.std.specs.Option.{option_copied, option_map_or};
ghost use Rattle.analysis.specs.Below.lexer.Tokens.{tokens_of, firsts_of};
ghost use Rattle.line_shape.specs.Items.{items_of};
ghost use Rattle.analysis.specs.Below.source_files.KeptFiles.{kept_at};
ghost use Rattle.cs_base.specs.declared.positions.Pos.{Pos as Position};
ghost use Rattle.calls_of.specs.Bodies.{owned, owned_by, owned_in_item, owned_in_file, owned_from, owner_of};
ghost use Rattle.calls_of.specs.Owners.{owner_at, owner_with, Grew};

use crate::bodies::{between, is_define, list_behind};
use analysis::{Analysis, KeptFile};
use cs_base::{Memory, Pos, Tok};
use indexmap::IndexMap;
use line_shape::Item;
use std::alloc::Global;

/// For a position the name of the macro in whose replacement list a token begins there. The names are lent by the
/// files of an analysis.
#[derive(Drop)]
pub(crate) struct Owners<'a> {
    names: IndexMap<(u32, u32), &'a Tok>,
}

impl<'a> Owners<'a> {
    fn new(alloc: Global) -> Owners<'a>
        ensures { (p : Position) → owner_at result.names p ≡ None }
    {
        Owners {
            names: IndexMap::new(alloc),
        }
    }

    /// The name of the macro in whose replacement list a token begins there.
    pub(crate) fn at(&self, pos: Pos) -> Option<&'a Tok>
        ensures { option_copied result ≡ owner_at self.now.names pos }
    {
        self.names.get(&(pos.file, pos.at)).copied()
    }

    // A token that begins at a position comes into the table.
    fn keep_at(&mut self, name: &'a Tok, pos: Pos) -> Result<(), Memory>
        ensures { OnOk result ((p : Position) → owner_at self.new.names p ≡ owner_with name.now pos (owner_at self.old.names) p) }
    {
        if self.at(pos).is_none() {
            self.names.insert((pos.file, pos.at), name)?;
        }
        Ok(())
    }

    // A token of the replacement list of the macro with this name comes into the table.
    fn keep(&mut self, name: &'a Tok, tok: &Tok) -> Result<(), Memory>
        ensures { OnOk result (Grew (owned name.now tok.now ∷ []) (owner_at self.old.names) (owner_at self.new.names)) }
    {
        match tok.origins(0) {
            Some(pos) => self.keep_at(name, pos),
            None => Ok(()),
        }
    }

    // Those of a replacement list come into it.
    fn keep_all(&mut self, name: &'a Tok, toks: &[Tok]) -> Result<(), Memory>
        ensures { OnOk result (Grew (map (owned name.now) toks.now) (owner_at self.old.names) (owner_at self.new.names)) }
    {
        for tok in toks {
            self.keep(name, tok)?;
        }
        Ok(())
    }

    // Those of a `define` line.
    fn keep_line(&mut self, line: &'a [Tok]) -> Result<(), Memory>
        ensures { OnOk result (Grew (owned_by line.now) (owner_at self.old.names) (owner_at self.new.names)) }
    {
        match line.get(2) {
            Some(name) => self.keep_all(name, list_behind(&line[3..])),
            None => Ok(()),
        }
    }

    // Those of an item of a file with these tokens.
    fn keep_item(&mut self, toks: &'a [Tok], item: &Item) -> Result<(), Memory>
        ensures { OnOk result (Grew (owned_in_item toks.now item.now) (owner_at self.old.names) (owner_at self.new.names)) }
    {
        if is_define(item.kind) {
            self.keep_line(between(toks, item.from as usize, item.to as usize))
        } else {
            Ok(())
        }
    }

    // Those of each of these items.
    fn keep_items(&mut self, toks: &'a [Tok], items: &[Item]) -> Result<(), Memory>
        ensures { OnOk result (Grew (flat_map (owned_in_item toks.now) items.now) (owner_at self.old.names) (owner_at self.new.names)) }
    {
        for item in items {
            self.keep_item(toks, item)?;
        }
        Ok(())
    }

    // Those of a file.
    fn keep_file(&mut self, file: &'a KeptFile) -> Result<(), Memory>
        ensures { OnOk result (Grew (owned_in_file file.now) (owner_at self.old.names) (owner_at self.new.names)) }
    {
        self.keep_items(file.text().toks(), items_in(file))
    }

    // Those of the kept file with this number, if there is one.
    fn keep_numbered(&mut self, a: &'a Analysis, number: u32) -> Result<(), Memory>
        ensures { OnOk result (Grew (option_map_or owned_in_file (kept_at a.now.value.table number) []) (owner_at self.old.names) (owner_at self.new.names)) }
    {
        match a.file(number) {
            Some(file) => self.keep_file(file),
            None => Ok(()),
        }
    }

    // Those of all files.
    fn keep_files(&mut self, a: &'a Analysis) -> Result<(), Memory>
        ensures { OnOk result (Grew (owned_from 0 a.now.value.table) (owner_at self.old.names) (owner_at self.new.names)) }
    {
        for number in 0..a.files() {
            self.keep_numbered(a, number)?;
        }
        Ok(())
    }

    /// The table of an analysis.
    pub(crate) fn of(alloc: Global, a: &'a Analysis) -> Result<Owners<'a>, Memory>
        ensures { IfOk result (λ o. (p : Position) → owner_at o.names p ≡ owner_of a.now.value p) }
    {
        let mut owners = Owners::new(alloc);
        owners.keep_files(a)?;
        Ok(owners)
    }
}

// The items of a file.
fn items_in(file: &KeptFile) -> &[Item]
    ensures { result.now ≡ items_of (tokens_of file.now.number file.now.bytes) (firsts_of file.now.bytes) }
{
    let _text = file.text();
    file.items()
}
