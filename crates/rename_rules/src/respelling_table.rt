// The old and new spellings of the tokens that hold members of a class.
ghost use Rattle.std.specs.Prelude.{◌≡◌, ◌&&◌, IfOk, OnOk};
ghost use Rattle.std.specs.List.{list_any};
ghost use Rattle.std.specs.Str.{bytes_eq};
ghost use Rattle.rename_rules.specs.LibraryNames.{is_library_name};
ghost use Rattle.rename_rules.specs.Respellings.{RespellingValue, respelling, respelling_of, Adds, AreRespellings, is_old, is_new, is_clash};

use crate::library_names::is_library_name;
use crate::spelling::spelled;
use cs_base::{Memory, Tok};
use offences::Class;
use std::alloc::Global;
use std::marker::Model;

/// The old and the new spelling of a token.
#[derive(Drop)]
pub struct Respelling {
    old: Vec<u8>,
    new: Vec<u8>,
}

impl Model for Respelling {
    ghost use Rattle.rename_rules.specs.Respellings.{RespellingValue, respelling};

    ghost Value = { RespellingValue };

    ghost view = { λ r. respelling r.old.items r.new.items };
}

impl Respelling {
    fn is_old(&self, text: &[u8]) -> bool
        ensures { result ≡ is_old text.now self.now }
    {
        self.old.as_slice() == text
    }

    fn is_new(&self, text: &[u8]) -> bool
        ensures { result ≡ is_new text.now self.now }
    {
        self.new.as_slice() == text
    }

    fn is_clash(&self, old: &[u8], new: &[u8]) -> bool
        ensures { result ≡ is_clash old.now new.now self.now }
    {
        self.is_new(new) && !self.is_old(old)
    }

    fn is_same(&self, old: &[u8], new: &[u8]) -> bool
        ensures { result ≡ (is_old old.now self.now && is_new new.now self.now) }
    {
        self.is_old(old) && self.is_new(new)
    }

    fn is_of_library(&self) -> bool
        ensures { result ≡ is_library_name self.now.new }
    {
        is_library_name(&self.new)
    }
}

/// Whether a token had this spelling.
pub fn is_old_spelling(table: &[Respelling], text: &[u8]) -> bool
    ensures { result ≡ list_any (is_old text.now) table.now }
{
    table.iter().any(|r| r.is_old(text))
}

/// Whether a token gets this spelling.
pub fn is_new_spelling(table: &[Respelling], text: &[u8]) -> bool
    ensures { result ≡ list_any (is_new text.now) table.now }
{
    table.iter().any(|r| r.is_new(text))
}

/// Whether a token that had another spelling gets the new one.
pub fn is_clash(table: &[Respelling], old: &[u8], new: &[u8]) -> bool
    ensures { result ≡ list_any (is_clash old.now new.now) table.now }
{
    table.iter().any(|r| r.is_clash(old, new))
}

/// Whether a token gets a spelling that is a name of the library.
pub(crate) fn has_library_name(table: &[Respelling]) -> bool
    ensures { result ≡ list_any (λ (r : RespellingValue). is_library_name r.new) table.now }
{
    table.iter().any(|r| r.is_of_library())
}

// Whether the spellings stand in the table.
fn is_known(table: &[Respelling], old: &[u8], new: &[u8]) -> bool
    ensures { result ≡ list_any (λ r. is_old old.now r && is_new new.now r) table.now }
{
    table.iter().any(|r| r.is_same(old, new))
}

// Adds the spellings of a token, if they are new to the table.
fn add(alloc: Global, table: &mut Vec<Respelling>, old: &[u8], new: Vec<u8>) -> Result<(), Memory>
    ensures { OnOk result (Adds (respelling old.now new.items) table.old.items table.new.items) }
{
    if is_known(table, old, &new) {
        return Ok(());
    }
    let kept = Vec::from_slice(alloc, old)?;
    table.push(Respelling { old: kept, new })?;
    Ok(())
}

/// The spellings of these tokens, each pair once.
pub fn respellings(
    alloc: Global,
    class: &Class<'_>,
    name: &[u8],
    toks: &[Tok],
) -> Result<Vec<Respelling>, Memory>
    ensures { IfOk result (λ table. AreRespellings class.now.members name.now toks.now table.items) }
{
    let mut table = Vec::new(alloc);
    for tok in toks {
        let new = spelled(alloc, class, name, tok)?;
        add(alloc, &mut table, tok.text(), new)?;
    }
    Ok(table)
}
