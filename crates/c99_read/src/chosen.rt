// What is read next: an alternative of a production.

use c99_grammar::Item;

/// An alternative that was chosen, with its number.
#[derive(Clone, Copy)]
pub(crate) struct Chosen {
    pub(crate) number: u8,
    pub(crate) body: &'static Item,
}
