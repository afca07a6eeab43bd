// Marks on the tokens of files.
ghost use Rattle.std.specs.Prelude.{◌≡◌, ◌≤◌, IfOk, OnOk, false, true, length, replicate, slice_set, slice_index_or};
ghost use Rattle.analysis.specs.Marking.{is_marked, SetsMark, MarksNames};

use cs_base::{Memory, Tok};
use macro_expand::is_name;
use std::alloc::Global;
use std::marker::Model;

/// A mark for each token of a file. Contracts see the list of them.
#[derive(Drop)]
pub(crate) struct Marks {
    of_tokens: Vec<bool>,
}

impl Model for Marks {
    ghost use Rattle.std.specs.Prelude.{List, Bool};

    ghost Value = { List Bool };

    ghost view = { λ m. m.of_tokens.items };
}

impl Marks {
    // No mark for so many tokens.
    pub(crate) fn new(alloc: Global, tokens: usize) -> Result<Marks, Memory>
        ensures { IfOk result (λ m. m ≡ replicate tokens false) }
    {
        Ok(Marks {
            of_tokens: vec![in alloc; false; tokens]?,
        })
    }

    // Marks a token, where there is one with this number.
    fn set(&mut self, token: usize)
        ensures { self.new ≡ slice_set self.old token true }
    {
        if token < self.of_tokens.len() {
            self.of_tokens[token] = true;
        }
    }

    fn is_set(&self, token: usize) -> bool
        ensures { result ≡ slice_index_or self.now token false }
    {
        if token < self.of_tokens.len() {
            self.of_tokens[token]
        } else {
            false
        }
    }
}

/// Whether a token of a file is marked.
pub(crate) fn is_marked(marks: &[Marks], file: u32, token: usize) -> bool
    ensures { result ≡ is_marked marks.now file token }
{
    if (file as usize) < marks.len() {
        marks[file as usize].is_set(token)
    } else {
        false
    }
}

// Marks a token of a file; there is room for its mark.
fn mark(marks: &mut Vec<Marks>, file: u32, token: usize) -> Result<(), Memory>
    ensures { OnOk result (SetsMark file token marks.old.items marks.new.items) }
{
    if (file as usize) < marks.len() {
        marks[file as usize].set(token);
    }
    if is_marked(marks, file, token) {
        Ok(())
    } else {
        Err(Memory)
    }
}

/// Marks the identifiers of a file among its tokens from one number to before another.
pub(crate) fn mark_names(
    marks: &mut Vec<Marks>,
    file: u32,
    toks: &[Tok],
    from: usize,
    to: usize,
) -> Result<(), Memory>
    requires { to ≤ length toks.now }
    ensures { OnOk result (MarksNames file toks.now from to marks.old.items marks.new.items) }
{
    for k in from..to {
        if is_name(&toks[k]) {
            match mark(marks, file, k) {
                Ok(()) => (),
                Err(refusal) => return Err(refusal),
            }
        }
    }
    Ok(())
}
