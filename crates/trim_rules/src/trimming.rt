// Files in which include lines are null directives.
ghost use Rattle.std.specs.Prelude.{◌≡◌, ◌≤◌, ◌<◌, ◌+◌, ◌^◌, ◌++◌, ◌∷◌, ◌==◌, [], IfOk, IsUtf8, MatchBool, OnOk, Some, false, ⊤, drop, length, map};
ghost use Rattle.std.specs.List.{flat_map};
ghost use Rattle.std.specs.Option.{option_map_or};
ghost use Rattle.cs_base.specs.declared.positions.Pos.{Pos as Position};
ghost use Rattle.edited_files.specs.Edited.{with_each};
ghost use Rattle.analysis.specs.FileTokens.{span_of};
ghost use Rattle.analysis.specs.Below.include_tree.PseudoFiles.{is_pseudo};
ghost use Rattle.analysis.specs.Below.lexer.Tokens.{tokens_of, firsts_of};
ghost use Rattle.analysis.specs.Below.line_shape.Items.{items_of};
ghost use Rattle.analysis.specs.Below.source_files.KeptFiles.{kept_at};
ghost use Rattle.analysis.specs.Below.source_files.Tables.{AreText};
ghost use Rattle.part_respell.specs.Order.{AreInOrder};
ghost use Rattle.part_respell.specs.Respelled.{respelled};
ghost use Rattle.trim_rules.specs.Gone.{in_line, AreGone, AreAllGone};
ghost use Rattle.trim_rules.specs.Made.{edit_made, AgreeOn};
ghost use Rattle.trim_rules.specs.Trimmed.{behind_hash, edit_in, edits_of, is_line, lines_in};
ghost use Rattle.unused_names.specs.Lines.{has_position};

use crate::reached::{items_in, toks_in};
use analysis::{Analysis, KeptFile};
use cs_base::{Edits, Memory, Part, Pos, Tok};
use edited_files::TextEdits;
use indexmap::IndexSet;
use line_shape::Item;
use part_respell::respell;
use std::alloc::Global;
use std::marker::Model;

/// Lines, each by the position of its `#`. Contracts see a list.
#[derive(Drop)]
pub struct Lines {
    list: Vec<Pos>,
    set: IndexSet<(u32, u32)>,
}

impl Model for Lines {
    ghost use Rattle.std.specs.Prelude.{List};
    ghost use Rattle.cs_base.specs.declared.positions.Pos.{Pos as Position};
    ghost use Rattle.unused_names.specs.Lines.{has_position};
    ghost use Rattle.trim_rules.specs.Made.{AgreeOn};

    ghost Value = { List Position };

    ghost view = { λ l. l.list.items };

    ghost invariant = { λ l. AgreeOn (has_position l.set) l.list.items };
}

fn no_positions(alloc: Global) -> IndexSet<(u32, u32)>
    ensures { (p : Position) → has_position result p ≡ false }
{
    IndexSet::new(alloc)
}

// The positions of lines.
fn positions_of(alloc: Global, lines: &[Pos]) -> Result<IndexSet<(u32, u32)>, Memory>
    ensures { IfOk result (λ set. AgreeOn (has_position set) lines.now) }
{
    let mut set = no_positions(alloc);
    for p in lines {
        set.insert((p.file, p.at))?;
    }
    Ok(set)
}

impl Lines {
    pub fn new(alloc: Global, list: Vec<Pos>) -> Result<Lines, Memory>
        ensures { IfOk result (λ lines. lines ≡ list.items) }
    {
        let set = positions_of(alloc, &list)?;
        Ok(Lines { list, set })
    }

    /// Whether the position is that of one of them.
    pub fn has(&self, p: Pos) -> bool
        ensures { result ≡ is_line self.now p }
    {
        self.set.contains(&(p.file, p.at))
    }
}

/// New bytes of a file, and how many of its lines are null directives now.
#[derive(Drop)]
pub struct TrimmedFile {
    pub bytes: Vec<u8>,
    pub count: u32,
}

// A token from its first character on.
fn part_of(tok: &Tok) -> Part
    ensures { result ≡ span_of tok.now }
{
    let start = match tok.origins(0) {
        Some(p) => p,
        None => Pos { file: 0, at: 0 },
    };
    Part {
        start,
        len: tok.text().len() as u32,
    }
}

// Adds the tokens behind the first.
fn push_parts(parts: &mut Vec<Part>, toks: &[Tok]) -> Result<(), Memory>
    ensures { OnOk result (parts.new.items ≡ parts.old.items ++ map span_of (drop 1 toks.now)) }
{
    match toks {
        [] => Ok(()),
        [_, rest @ ..] => push_each(parts, rest),
    }
}

// Adds these tokens.
fn push_each(parts: &mut Vec<Part>, toks: &[Tok]) -> Result<(), Memory>
    ensures { OnOk result (parts.new.items ≡ parts.old.items ++ map span_of toks.now) }
{
    for tok in toks {
        parts.push(part_of(tok))?;
    }
    Ok(())
}

// The name of a pseudo file.
fn is_pseudo(path: &[u8]) -> bool
    ensures { result ≡ is_pseudo path.now }
{
    match path {
        [first, ..] => *first == b'<',
        [] => false,
    }
}

// The tokens that go, and how many lines they stand in.
#[derive(Drop)]
struct Gone {
    parts: Vec<Part>,
    count: u32,
}

impl Gone {
    // Those of an item go too, if it is one of the lines.
    fn add(&mut self, lines: &Lines, file: &KeptFile, item: &Item) -> Result<(), Memory>
        ensures parts { OnOk result (self.new.parts.items ≡ self.old.parts.items ++ flat_map behind_hash (in_line lines.now file.now item.now)) }
        ensures count { OnOk result (self.new.count ≡ self.old.count + length (in_line lines.now file.now item.now)) }
    {
        if !lines.has(item.at) {
            return Ok(());
        }
        if self.count == u32::MAX {
            return Err(Memory);
        }
        push_parts(&mut self.parts, toks_in(file, item))?;
        self.count += 1;
        Ok(())
    }

    // None.
    fn none(alloc: Global) -> Gone
        ensures parts { result.parts.items ≡ [] }
        ensures count { result.count ≡ 0 }
    {
        Gone {
            parts: Vec::new(alloc),
            count: 0,
        }
    }

    // Those of the lines in a file.
    fn of(alloc: Global, lines: &Lines, file: &KeptFile) -> Result<Gone, Memory>
        ensures { IfOk result (λ gone. AreAllGone lines.now file.now gone.parts.items gone.count) }
    {
        let mut gone = Gone::none(alloc);
        if is_pseudo(file.path()) {
            return Ok(gone);
        }
        gone.add_each(lines, file)?;
        Ok(gone)
    }

    // No line goes.
    fn is_empty(&self) -> bool
        ensures { result ≡ (self.now.count == 0) }
    {
        self.count == 0
    }

    // Those of all lines among the items of a file.
    fn add_each(&mut self, lines: &Lines, file: &KeptFile) -> Result<(), Memory>
        requires { AreGone lines.now file.now [] self.old.parts.items self.old.count }
        ensures { OnOk result (AreGone lines.now file.now (items_of (tokens_of file.now.number file.now.bytes) (firsts_of file.now.bytes)) self.new.parts.items self.new.count) }
    {
        let items = items_in(file);
        for item in items {
            self.add(lines, file, item)?;
        }
        Ok(())
    }
}

// The parts stand in the file one behind the other, none before the character. So do all tokens of a file.
fn are_in_order(file: u32, parts: &[Part]) -> bool
    ensures { MatchBool result (AreInOrder file 0 parts.now) ⊤ }
{
    let mut from = 0u64;
    for part in parts {
        if part.start.file != file || part.len == 0 || (part.start.at as u64) < from {
            return false;
        }
        from = part.start.at as u64 + part.len as u64;
    }
    true
}

// The bytes of a file without these tokens.
fn without(alloc: Global, file: &KeptFile, parts: &[Part]) -> Result<Vec<u8>, Memory>
    ensures { IfOk result (λ bytes. bytes.items ≡ respelled parts.now [] file.now.number file.now.bytes) }
{
    if !are_in_order(file.number(), parts) {
        return Err(Memory);
    }
    let bytes = file.bytes();
    match respell(
        alloc,
        file.number(),
        bytes,
        file.text(),
        parts,
        &[],
        bytes.len(),
    )? {
        Some(made) => Ok(made),
        None => Err(Memory),
    }
}

/// A file in which the lines are null directives; none where no line stands in it.
pub fn trimmed(alloc: Global, lines: &Lines, file: &KeptFile) -> Result<Option<TrimmedFile>, Memory>
    ensures { IfOk result (λ made. edit_made file.now made ≡ edit_in lines.now file.now) }
{
    let gone = Gone::of(alloc, lines, file)?;
    if gone.is_empty() {
        return Ok(None);
    }
    let bytes = without(alloc, file, &gone.parts)?;
    Ok(Some(TrimmedFile {
        bytes,
        count: gone.count,
    }))
}

// The edit of a file with these bytes.
fn put_made(
    alloc: Global,
    edits: &mut TextEdits,
    file: &KeptFile,
    made: &TrimmedFile,
) -> Result<(), Memory>
    requires { IsUtf8 file.now.path }
    ensures { OnOk result (edits.new ≡ with_each (edit_made file.now (Some made.now)) edits.old) }
{
    edits.put(alloc, file.path(), &made.bytes, made.count)
}

// The edit of a file.
fn put_file(
    alloc: Global,
    edits: &mut TextEdits,
    lines: &Lines,
    file: &KeptFile,
) -> Result<(), Memory>
    requires text { IsUtf8 file.now.path }
    ensures { OnOk result (edits.new ≡ with_each (edit_in lines.now file.now) edits.old) }
{
    let made = trimmed(alloc, lines, file)?;
    match made {
        Some(new) => put_made(alloc, edits, file, &new),
        None => Ok(()),
    }
}

// The same for the file with a number, if it is kept.
fn put_numbered(
    alloc: Global,
    edits: &mut TextEdits,
    lines: &Lines,
    a: &Analysis,
    number: u32,
) -> Result<(), Memory>
    requires text { AreText a.now.value.table }
    ensures { OnOk result (edits.new ≡ with_each (option_map_or (edit_in lines.now) (kept_at a.now.value.table number) []) edits.old) }
{
    match a.file(number) {
        Some(file) => put_file(alloc, edits, lines, file),
        None => Ok(()),
    }
}

/// The edits of the files in which these lines stand.
pub fn edits(alloc: Global, lines: &Lines, a: &Analysis) -> Result<Edits, Memory>
    ensures { IfOk result (λ edits. edits ≡ edits_of lines.now a.now.value.table) }
{
    let mut edits = TextEdits::new(alloc);
    for number in 0..a.files() {
        put_numbered(alloc, &mut edits, lines, a, number)?;
    }
    edits.edits(alloc)
}
