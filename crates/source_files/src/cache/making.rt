// Pseudo files, and tokens that are counted.
ghost use Rattle.std.specs.Prelude.{◌≡◌, ◌≤◌, ◌+◌, true, false, None, is_some, IfOk, IfErr, IfSome, IsSome, option_copied};
ghost use Rattle.std.specs.Str.{bytes_eq, is_utf8};
ghost use Rattle.cs_base.specs.Limits.{most_tokens, most_tokens_of_all};
ghost use Rattle.lexer.specs.FileText.{file_text};
ghost use Rattle.source_files.specs.Limits.{the_limits};
ghost use Rattle.source_files.specs.Files.{Made, lines_path, carried, found_at, made_path, numbered};
ghost use Rattle.source_files.specs.Faults.{first_place};
ghost use Rattle.source_files.specs.Opening.{opening};
ghost use Rattle.source_files.specs.Sources.{unit_most, source_at, GivesOpening};
ghost use Rattle.source_files.specs.Answers.{IsNoReadFault, Keeps};

use super::{Cache, text_fault};
use crate::kept_file::KeptFile;
use crate::opening::first_place;
use crate::pre_fault::PreFault;
use crate::slot::Slot;
use cs_base::{MOST_TOKENS, MOST_TOKENS_OF_ALL};
use std::alloc::Global;

impl Cache {
    // How many tokens the next unit may have.
    pub fn most(&self) -> u32
        ensures answer { result ≡ unit_most self.now.toks }
        ensures low { result ≤ most_tokens }
        ensures room { self.now.toks + result ≤ most_tokens_of_all }
    {
        let room = MOST_TOKENS_OF_ALL - self.toks;
        if room < MOST_TOKENS {
            room
        } else {
            MOST_TOKENS
        }
    }

    // So many tokens more.
    pub fn count(&mut self, toks: u32)
        requires { self.old.toks + toks ≤ most_tokens_of_all }
        ensures { self.new ≡ carried self.old.table (self.old.toks + toks) }
    {
        self.toks += toks;
    }

    // The path was met.
    pub fn has(&self, path: &[u8]) -> bool
        requires { bytes_eq path.now lines_path ≡ false }
        ensures { result ≡ is_some (found_at path.now self.now.table) }
    {
        self.table.find(path).is_some()
    }

    // The path of the first pseudo file with this text, if there is one.
    pub fn made(&self, text: &[u8]) -> Option<&[u8]>
        ensures answer { option_copied result ≡ made_path text.now self.now.table }
        ensures other { IfSome (made_path text.now self.now.table) (λ path. bytes_eq path lines_path ≡ false) }
    {
        self.table.made(text)
    }

    // A pseudo file of this path and these bytes gets the next number, which is told; or the fault of its
    // text.
    pub fn make(&mut self, alloc: Global, path: &[u8], bytes: Vec<u8>) -> Result<u32, PreFault>
        requires fresh { found_at path.now self.old.table ≡ None }
        requires text { is_utf8 path.now ≡ true }
        ensures answer { GivesOpening result (opening the_limits file_text (first_place path.now) path.now (numbered path.now (Made bytes.items) self.old.table)) self.new.table }
        ensures there { IfOk result (λ n. IsSome (source_at self.new.table n)) }
        ensures keeps { Keeps self.old self.new }
        ensures no_read { IfErr result IsNoReadFault }
    {
        let place = first_place(alloc, path)?;
        let number = self.table.next_number();
        match KeptFile::read(alloc, number, path, bytes) {
            Ok(file) => {
                self.table.push(path, Slot::Made(file))?;
                Ok(number)
            }
            Err(unread) => Err(text_fault(alloc, path, &place, unread.refusal)),
        }
    }
}
