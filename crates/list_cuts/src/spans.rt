// Where the items of a list stand in a file.
ghost use Rattle.std.specs.Prelude.{◌≡◌};

use std::alloc::Global;
use std::marker::Model;

/// An item of a list: from its first byte to behind its last one.
#[derive(Clone, Copy, Debug, PartialEq, Eq)]
pub struct Span {
    pub begin: usize,
    pub end: usize,
}

/// The items of a list, in order. Contracts see a list.
#[derive(Drop)]
pub struct ListSpans {
    items: Vec<Span>,
}

impl Model for ListSpans {
    ghost use Rattle.std.specs.Prelude.{List};
    ghost use Rattle.list_cuts.specs.declared.spans.Span.{Span};

    ghost Value = { List Span };

    ghost view = { λ l. l.items.items };
}

impl ListSpans {
    pub fn new(items: Vec<Span>) -> ListSpans
        ensures { result ≡ items.items }
    {
        ListSpans { items }
    }

    pub fn as_slice(&self) -> &[Span]
        ensures { result.now ≡ self.now }
    {
        self.items.as_slice()
    }
}
