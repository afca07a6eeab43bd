// Lines of a batch file as values.
ghost use Rattle.std.specs.Prelude.{◌≡◌, IsUtf8};

use cs_base::Text;
use std::marker::Model;
use std::str;

/// A line that asks for a rename. Contracts see the record of its place, of the new name, and of whether strings that `#`
/// makes may follow.
#[derive(Drop)]
pub struct BatchLine {
    path: Text,
    line: u32,
    column: u32,
    name: Text,
    strings: bool,
}

impl Model for BatchLine {
    ghost use Rattle.std.specs.Prelude.{IsUtf8};
    ghost use Rattle.batch_run.specs.Line.{LineValue, line_value};

    ghost Value = { LineValue };

    ghost view = { λ l. line_value l.path l.line l.column l.name l.strings };

    ghost invariant = { λ l. IsUtf8 l.path };
}

impl BatchLine {
    ghost use Rattle.batch_run.specs.Line.{line_value};

    /// A rename of what stands at this place.
    pub fn new(path: Text, line: u32, column: u32, name: Text, strings: bool) -> BatchLine
        requires { IsUtf8 path }
        ensures { result ≡ line_value path line column name strings }
    {
        BatchLine {
            path,
            line,
            column,
            name,
            strings,
        }
    }

    /// The path of the place, in its normal form.
    pub fn path(&self) -> &str
        ensures { result.now ≡ self.now.path }
    {
        match str::from_utf8(self.path.bytes()) {
            Ok(text) => text,
            Err(_) => unreachable!(),
        }
    }

    /// The line of the place, from 1.
    pub fn line(&self) -> u32
        ensures { result ≡ self.now.line }
    {
        self.line
    }

    /// The column of the place, from 1.
    pub fn column(&self) -> u32
        ensures { result ≡ self.now.column }
    {
        self.column
    }

    /// The new name, as written.
    pub fn name(&self) -> &[u8]
        ensures { result.now ≡ self.now.name }
    {
        self.name.bytes()
    }

    /// Whether strings that `#` makes may follow the renaming (6.10.3.2).
    pub fn strings(&self) -> bool
        ensures { result ≡ self.now.strings }
    {
        self.strings
    }
}
