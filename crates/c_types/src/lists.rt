// Lists of names and of tokens that a binding tells.
ghost use Rattle.std.specs.Prelude.{◌≡◌};

use std::alloc::Global;
use std::marker::Model;

/// Token indices, in order. Contracts see a list.
#[derive(Drop)]
pub struct Indices {
    indices: Vec<u32>,
}

impl Model for Indices {
    ghost use Rattle.std.specs.Prelude.{ℕ, List};

    ghost Value = { List ℕ };

    ghost view = { λ i. i.indices.items };
}

impl Indices {
    pub fn new(indices: Vec<u32>) -> Indices
        ensures { result ≡ indices.items }
    {
        Indices { indices }
    }

    pub fn as_slice(&self) -> &[u32]
        ensures { result.now ≡ self.now }
    {
        self.indices.as_slice()
    }
}

/// A list in parentheses that belongs to a name: its parentheses, and the commas between its items.
#[derive(Drop)]
pub struct List {
    pub name: u32,
    pub begin: u32,
    pub close: u32,
    pub commas: Indices,
}

/// From one token to another, and the name that it belongs to: the braces of a function's body, or the
/// tokens at which a typedef name is visible, the last one not among them.
#[derive(Clone, Copy, Debug, PartialEq, Eq)]
pub struct Range {
    pub name: u32,
    pub from: u32,
    pub to: u32,
}
