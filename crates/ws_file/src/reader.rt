// Reading a workspace file, line by line.
ghost use Rattle.std.specs.Prelude.{◌≡◌, ◌≢◌, ◌≤◌, ◌+◌, [], IfOk, IsTrue, length};
ghost use Rattle.cs_base.specs.Units.{is_writable};
ghost use Rattle.cs_base.specs.Limits.{most_bytes, most_units};
ghost use Rattle.ws_file.specs.declared.words.LineWord.{LineWord};

use crate::copies::{copied_settings, copied_text, copied_texts};
use crate::line_parts::{trimmed, word_and_rest};
use crate::text_tests::{
    begins_with_nondigit, defines_fit, ends_with_backslash, has_bad_ends, is_bad_include,
    is_bad_path, is_comment, is_identifier, is_one_word, is_text, is_utf8,
};
use crate::words::{LineWord, word_of};
use crate::workspaces::Workspace;
use cs_base::{MOST_BYTES, Memory, Setting, Standard, Text, Unit, normal_path};
use std::alloc::Global;
use std::marker::Model;

/// What the lines read so far say. Contracts see the reading of `specs/Reading.antt`.
#[derive(Drop)]
pub struct Reader {
    project: Text,
    qpath: Vec<Text>,
    ipath: Vec<Text>,
    settings: Vec<Setting>,
    includes: Vec<Text>,
    units: Vec<Unit>,
    readonly: Vec<Text>,
    standard: Standard,
}

impl Model for Reader {
    ghost use Rattle.ws_file.specs.Reading.{Reading, reading};
    ghost use Rattle.ws_file.specs.Taking.{IsReading};

    ghost Value = { Reading };

    ghost view = { λ r. reading r.project r.qpath.items r.ipath.items r.settings.items r.includes.items r.units.items r.readonly.items r.standard };

    ghost invariant = { λ r. IsReading (reading r.project r.qpath.items r.ipath.items r.settings.items r.includes.items r.units.items r.readonly.items r.standard) };
}

impl Reader {
    ghost use Rattle.cs_base.specs.Paths.{normal_path_of};
    ghost use Rattle.ws_file.specs.Workspace.{workspace};
    ghost use Rattle.ws_file.specs.Reading.{at_first, with_project, with_standard, with_quoted_directory, with_directory, with_prefix, with_define, with_undefine, with_include, with_unit, with_word, with_text, with_line};
    ghost use Rattle.ws_file.specs.Taking.{Takes, IsTrimmed, has_no_feed};

    /// Before the first line.
    pub fn new(alloc: Global) -> Result<Reader, Memory>
        ensures { IfOk result (λ r. r ≡ at_first) }
    {
        Ok(Reader {
            project: Text::new(alloc, b"default")?,
            qpath: Vec::new(alloc),
            ipath: Vec::new(alloc),
            settings: Vec::new(alloc),
            includes: Vec::new(alloc),
            units: Vec::new(alloc),
            readonly: Vec::new(alloc),
            standard: Standard::C99,
        })
    }

    /// How many units there are.
    pub fn units(&self) -> usize
        ensures { result ≡ length self.now.units }
    {
        self.units.len()
    }

    /// The workspace of the lines read.
    pub fn finish(self) -> Workspace
        requires { length self.units ≤ most_units }
        ensures { result ≡ workspace self.units self.readonly }
    {
        let Reader {
            project: _,
            qpath: _,
            ipath: _,
            settings: _,
            includes: _,
            units,
            readonly,
            standard: _,
        } = self;
        Workspace::new(units, readonly)
    }

    // `project NAME`.
    fn take_project(&mut self, alloc: Global, name: &[u8]) -> Result<bool, Memory>
        requires writable { IsTrue (is_writable name.now) }
        requires some { name.now ≢ [] }
        ensures { IfOk result (λ taken. Takes (with_project name.now self.old) taken self.new) }
    {
        if !is_one_word(name) {
            return Ok(false);
        }
        self.project = Text::new(alloc, name)?;
        self.qpath.clear();
        self.ipath.clear();
        self.settings.clear();
        self.includes.clear();
        self.standard = Standard::C99;
        Ok(true)
    }

    // `standard c99`, `standard c11`, `standard gnu99` or `standard gnu11`.
    fn take_standard(&mut self, name: &[u8]) -> bool
        ensures { Takes (with_standard name.now self.old) result self.new }
    {
        if is_text(name, b"c99") {
            self.standard = Standard::C99;
            true
        } else if is_text(name, b"c11") {
            self.standard = Standard::C11;
            true
        } else if is_text(name, b"gnu99") {
            self.standard = Standard::Gnu99;
            true
        } else if is_text(name, b"gnu11") {
            self.standard = Standard::Gnu11;
            true
        } else {
            false
        }
    }

    // `qpath DIR`.
    fn take_quoted_directory(&mut self, alloc: Global, path: &[u8]) -> Result<bool, Memory>
        requires writable { IsTrue (is_writable path.now) }
        ensures { IfOk result (λ taken. Takes (with_quoted_directory (normal_path_of path.now) self.old) taken self.new) }
    {
        let directory = normal_path(alloc, path)?;
        if has_bad_ends(directory.bytes()) {
            return Ok(false);
        }
        self.qpath.push(directory)?;
        Ok(true)
    }

    // `ipath DIR`.
    fn take_directory(&mut self, alloc: Global, path: &[u8]) -> Result<bool, Memory>
        requires writable { IsTrue (is_writable path.now) }
        ensures { IfOk result (λ taken. Takes (with_directory (normal_path_of path.now) self.old) taken self.new) }
    {
        let directory = normal_path(alloc, path)?;
        if has_bad_ends(directory.bytes()) {
            return Ok(false);
        }
        self.ipath.push(directory)?;
        Ok(true)
    }

    // `readonly PREFIX`.
    fn take_prefix(&mut self, alloc: Global, prefix: &[u8]) -> Result<bool, Memory>
        requires writable { IsTrue (is_writable prefix.now) }
        requires some { prefix.now ≢ [] }
        ensures { IfOk result (λ taken. Takes (with_prefix prefix.now self.old) taken self.new) }
    {
        self.readonly.push(Text::new(alloc, prefix)?)?;
        Ok(true)
    }

    // `define REST`.
    fn take_define(&mut self, alloc: Global, rest: &[u8]) -> Result<bool, Memory>
        requires writable { IsTrue (is_writable rest.now) }
        ensures { IfOk result (λ taken. Takes (with_define rest.now self.old) taken self.new) }
    {
        if !begins_with_nondigit(rest) {
            return Ok(false);
        }
        self.settings
            .push(Setting::Define(Text::new(alloc, rest)?))?;
        Ok(true)
    }

    // `undefine NAME`.
    fn take_undefine(&mut self, alloc: Global, name: &[u8]) -> Result<bool, Memory>
        ensures { IfOk result (λ taken. Takes (with_undefine name.now self.old) taken self.new) }
    {
        if !is_identifier(name) {
            return Ok(false);
        }
        self.settings
            .push(Setting::Undefine(Text::new(alloc, name)?))?;
        Ok(true)
    }

    // `include PATH`.
    fn take_include(&mut self, alloc: Global, path: &[u8]) -> Result<bool, Memory>
        requires writable { IsTrue (is_writable path.now) }
        ensures { IfOk result (λ taken. Takes (with_include (normal_path_of path.now) self.old) taken self.new) }
    {
        let path = normal_path(alloc, path)?;
        if is_bad_include(path.bytes()) {
            return Ok(false);
        }
        self.includes.push(path)?;
        Ok(true)
    }

    // `file PATH`.
    fn take_unit(&mut self, alloc: Global, path: &[u8]) -> Result<bool, Memory>
        requires writable { IsTrue (is_writable path.now) }
        ensures { IfOk result (λ taken. Takes (with_unit (normal_path_of path.now) self.old) taken self.new) }
    {
        let path = normal_path(alloc, path)?;
        let settings = self.settings.as_slice();
        let includes = self.includes.as_slice();
        if is_bad_path(path.bytes()) || !defines_fit(self.standard, settings, includes) {
            return Ok(false);
        }
        let project = copied_text(alloc, &self.project)?;
        let qpath = copied_texts(alloc, self.qpath.as_slice())?;
        let ipath = copied_texts(alloc, self.ipath.as_slice())?;
        let settings = copied_settings(alloc, self.settings.as_slice())?;
        let includes = copied_texts(alloc, self.includes.as_slice())?;
        let unit = Unit::new(
            project,
            path,
            qpath,
            ipath,
            settings,
            includes,
            self.standard,
        );
        self.units.push(unit)?;
        Ok(true)
    }

    #[tactic(auto, unfolding(crate::specs::Reading::with_word))]
    // A line of this word and rest.
    fn take_word(&mut self, alloc: Global, word: LineWord, rest: &[u8]) -> Result<bool, Memory>
        requires writable { IsTrue (is_writable rest.now) }
        requires some { rest.now ≢ [] }
        ensures { IfOk result (λ taken. Takes (with_word word rest.now self.old) taken self.new) }
    {
        match word {
            LineWord::Project => self.take_project(alloc, rest),
            LineWord::Standard => Ok(self.take_standard(rest)),
            LineWord::Qpath => self.take_quoted_directory(alloc, rest),
            LineWord::Ipath => self.take_directory(alloc, rest),
            LineWord::Readonly => self.take_prefix(alloc, rest),
            LineWord::Define => self.take_define(alloc, rest),
            LineWord::Undefine => self.take_undefine(alloc, rest),
            LineWord::Include => self.take_include(alloc, rest),
            LineWord::File => self.take_unit(alloc, rest),
            LineWord::Other => Ok(false),
        }
    }

    #[tactic(auto, unfolding(crate::specs::Reading::with_text))]
    // A line without the blanks at its ends.
    fn take_text(&mut self, alloc: Global, text: &[u8]) -> Result<bool, Memory>
        requires { IsTrimmed text.now }
        ensures { IfOk result (λ taken. Takes (with_text text.now self.old) taken self.new) }
    {
        if ends_with_backslash(text) {
            return Ok(false);
        }
        if is_comment(text) {
            return Ok(true);
        }
        let (word, rest) = word_and_rest(text);
        if is_text(rest, b"") {
            return Ok(false);
        }
        self.take_word(alloc, word_of(word), rest)
    }

    #[tactic(auto, unfolding(crate::specs::Reading::with_line))]
    /// A line that begins at this byte of the file; false where it is bad.
    pub fn take_line(&mut self, alloc: Global, start: usize, line: &[u8]) -> Result<bool, Memory>
        requires { IsTrue (has_no_feed line.now) }
        ensures taken { IfOk result (λ taken. Takes (with_line start line.now self.old) taken self.new) }
        ensures within { IfOk result (λ taken. IsTrue taken → start + length line.now ≤ most_bytes) }
    {
        if start > MOST_BYTES || line.len() > MOST_BYTES - start {
            return Ok(false);
        }
        if !is_utf8(line) {
            return Ok(false);
        }
        self.take_text(alloc, trimmed(line))
    }
}
