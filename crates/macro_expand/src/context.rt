// What stays the same while a list of tokens is expanded.
ghost use Rattle.std.specs.Prelude.{◌≡◌, ◌≤◌, ◌<◌, ◌+◌, option_copied, IfSome, IsTrue};
ghost use Rattle.std.specs.List.{list_all};
ghost use Rattle.macro_body.specs.Live.{table_of};
ghost use Rattle.macro_expand.specs.Expansion.{macro_of};
ghost use Rattle.macro_body.specs.Sound.{is_traced, AllTraced};

use macro_body::{Definition, HiddenTok, Macros, is_name};
use std::alloc::Global;

/// So many arguments may be expanded inside one another (this project's limit).
pub const DEEPEST: u32 = 200;

/// What stays the same while a list of tokens is expanded: the macros, the path of the file, and how
/// many arguments are being expanded around the list.
#[derive(Drop)]
pub struct Context<'a> {
    pub alloc: Global,
    pub macros: &'a Macros,
    pub path: &'a [u8],
    pub depth: u32,
    ghost bodies: { AllTraced (table_of macros.now) },
    ghost shallow: { depth ≤ 200 },
}

impl<'a> Context<'a> {
    ghost use Rattle.macro_expand.specs.Going.{setting_of};

    /// The same inside one more argument.
    pub fn inside(&self) -> Context<'a>
        requires shallow { self.now.depth < 200 }
        ensures setting { setting_of result ≡ setting_of self.now }
        ensures depth { result.depth ≡ self.now.depth + 1 }
    {
        Context {
            alloc: self.alloc,
            macros: self.macros,
            path: self.path,
            depth: self.depth + 1,
        }
    }

    /// The macro that replaces a token, if one does.
    pub fn macro_of(&self, t: &HiddenTok) -> Option<&'a Definition>
        ensures answer { option_copied result ≡ macro_of (setting_of self.now).table t.now }
        ensures traced { IfSome result (λ m. IsTrue (list_all is_traced m.now.body)) }
    {
        let name = t.tok();
        if !is_name(name) {
            return None;
        }
        let macros = self.macros;
        match macros.find(name.text()) {
            Some(m) if !t.hides().contains(name.text()) => Some(m),
            _ => None,
        }
    }
}
