// The units of a workspace that are preprocessed.
ghost use Rattle.std.specs.Prelude.{◌≡◌, ◌≤◌, ◌-◌, Some, length, slice_get, option_copied};
ghost use Rattle.cs_base.specs.Limits.{most_units};
ghost use Rattle.include_tree.specs.Below.source_files.Files.{absent_at};
ghost use Rattle.include_tree.specs.Below.source_files.KeptFiles.{kept_at};
ghost use Rattle.include_tree.specs.Below.source_files.Tables.{AreText, HasEachOnce};

use include_tree::{Cache, KeptFile, UnitText};
use std::marker::Model;

/// The texts of the units of a workspace, and the files that they were read from. Contracts see the texts
/// in order, and what each number of a file stands for.
#[derive(Drop)]
pub struct Texts {
    texts: Vec<UnitText>,
    cache: Cache,
}

impl Model for Texts {
    ghost use Rattle.std.specs.Prelude.{◌≤◌, length};
    ghost use Rattle.cs_base.specs.Limits.{most_units};
    ghost use Rattle.analysis.specs.Texts.{TextsValue, texts_and};

    ghost Value = { TextsValue };

    ghost view = { λ t. texts_and t.texts.items t.cache.table };

    ghost invariant = { λ t. length t.texts.items ≤ most_units };
}

impl Texts {
    ghost use Rattle.analysis.specs.Texts.{texts_and};

    pub(crate) fn new(texts: Vec<UnitText>, cache: Cache) -> Texts
        requires few { length texts.items ≤ most_units }
        ensures answer { result ≡ texts_and texts.items cache.table }
    {
        Texts { texts, cache }
    }

    /// How many units there are.
    pub fn units(&self) -> u32
        ensures { result ≡ length self.now.texts }
    {
        self.texts.len() as u32
    }

    /// The text of a unit; units count from 1.
    pub fn text(&self, unit: u32) -> &UnitText
        requires first { 1 ≤ unit }
        requires last { unit ≤ length self.now.texts }
        ensures { slice_get self.now.texts (unit - 1) ≡ Some result.now }
    {
        &self.texts[unit as usize - 1]
    }

    /// How many numbers of files are given: those from 0 to before this one. Each is that of a path of its own,
    /// which is text. Takes no memory.
    pub fn files(&self) -> u32
        ensures answer { result ≡ length self.now.table }
        ensures once { HasEachOnce self.now.table }
        ensures text { AreText self.now.table }
    {
        self.cache.numbers()
    }

    /// The kept file with this number: none exactly where the number is 0, is past the table, or is that of
    /// a path without a kept file. Takes no memory.
    pub fn file(&self, number: u32) -> Option<&KeptFile>
        ensures { option_copied result ≡ kept_at self.now.table number }
    {
        self.cache.file(number)
    }

    /// The path that has this number, if no file was there when it was asked for. Takes no memory.
    pub fn absent(&self, number: u32) -> Option<&[u8]>
        ensures { option_copied result ≡ absent_at self.now.table number }
    {
        self.cache.absent(number)
    }
}
