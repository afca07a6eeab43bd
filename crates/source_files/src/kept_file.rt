// A source file that is kept: its number, its path, its bytes, its text and its items.
ghost use Rattle.std.specs.Prelude.{◌≡◌, true, Ok, Err, IfOk, IfErr, IfSome, OnOk, OnErr, is_ok};
ghost use Rattle.lexer.specs.FileText.{TextValue, file_text};
ghost use Rattle.lexer.specs.Refusal.{fault_of};
ghost use Rattle.line_shape.specs.Items.{items_of};
ghost use Rattle.source_files.specs.KeptFiles.{kept};

use cs_base::{Memory, Text};
use lexer::{FileText, LexRefusal, lex};
use line_shape::{Item, shape};
use std::alloc::Global;
use std::marker::Model;

/// A source file that was opened without a fault, or a pseudo file. Contracts see its number, its path
/// and its bytes.
#[derive(Drop)]
pub struct KeptFile {
    number: u32,
    path: Text,
    bytes: Vec<u8>,
    text: FileText,
    items: Vec<Item>,
}

impl Model for KeptFile {
    ghost use Rattle.source_files.specs.KeptFiles.{KeptValue, kept, IsKept};

    ghost Value = { KeptValue };

    ghost view = { λ f. kept f.number f.path f.bytes.items };

    ghost invariant = { λ f. IsKept f.number f.bytes.items f.text f.items.items };
}

impl KeptFile {
    /// The number that its positions have.
    pub fn number(&self) -> u32
        ensures { result ≡ self.now.number }
    {
        self.number
    }

    pub fn path(&self) -> &[u8]
        ensures { result.now ≡ self.now.path }
    {
        self.path.bytes()
    }

    pub fn bytes(&self) -> &[u8]
        ensures { result.now ≡ self.now.bytes }
    {
        self.bytes.as_slice()
    }

    /// Its text: the tokens, and where their characters stand.
    pub fn text(&self) -> &FileText
        ensures { file_text self.now.number self.now.bytes ≡ Ok result.now }
    {
        &self.text
    }

    /// Its directive lines and runs.
    pub fn items(&self) -> &[Item]
        ensures { (text : TextValue) → file_text self.now.number self.now.bytes ≡ Ok text → result.now ≡ items_of text.toks text.firsts }
    {
        self.items.as_slice()
    }

    // The file gets other bytes, or these have a fault.
    pub(crate) fn edit(&mut self, alloc: Global, bytes: Vec<u8>) -> Result<(), LexRefusal>
        ensures ok { OnOk result (self.new ≡ kept self.old.number self.old.path bytes.items) }
        ensures readable { OnOk result (is_ok (file_text self.old.number bytes.items) ≡ true) }
        ensures refused { IfErr result (λ e. IfSome (fault_of e) (λ fault. file_text self.old.number bytes.items ≡ Err fault)) }
        ensures unchanged { OnErr result (self.new ≡ self.old) }
    {
        let text = lex(alloc, self.number, bytes.as_slice())?;
        let items = shape(alloc, &text)?;
        self.bytes = bytes;
        self.text = text;
        self.items = items;
        Ok(())
    }

    // Reads a file, or gives the fault of its text, and its bytes back.
    pub(crate) fn read(
        alloc: Global,
        number: u32,
        path: &[u8],
        bytes: Vec<u8>,
    ) -> Result<KeptFile, Unread>
        ensures ok { IfOk result (λ f. f ≡ kept number path.now bytes.items) }
        ensures readable { OnOk result (is_ok (file_text number bytes.items) ≡ true) }
        ensures refused { IfErr result (λ e. IfSome (fault_of e.refusal) (λ fault. file_text number bytes.items ≡ Err fault)) }
        ensures back { IfErr result (λ e. e.bytes ≡ bytes) }
    {
        let text = match lex(alloc, number, bytes.as_slice()) {
            Ok(text) => text,
            Err(refusal) => return Err(Unread { refusal, bytes }),
        };
        match parts_of(alloc, path, &text) {
            Ok((path, items)) => Ok(KeptFile {
                number,
                path,
                bytes,
                text,
                items,
            }),
            Err(_) => Err(Unread {
                refusal: LexRefusal::Memory,
                bytes,
            }),
        }
    }
}

// A file that was not read: why, and its bytes.
#[derive(Drop)]
pub(crate) struct Unread {
    pub refusal: LexRefusal,
    pub bytes: Vec<u8>,
}

// What is kept beside a text.
fn parts_of(alloc: Global, path: &[u8], text: &FileText) -> Result<(Text, Vec<Item>), Memory>
    ensures { IfOk result (λ parts. (parts.0 ≡ path.now) × (parts.1.items ≡ items_of text.now.toks text.now.firsts)) }
{
    let items = shape(alloc, text)?;
    let path = Text::new(alloc, path)?;
    Ok((path, items))
}
