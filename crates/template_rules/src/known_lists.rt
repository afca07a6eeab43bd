// What is known of a list from one before it.
ghost use Rattle.std.specs.Prelude.{◌≡◌, true, List};
ghost use Rattle.cs_base.specs.Token.{Token};
ghost use Rattle.offences.specs.Class.{ClassValue};
ghost use Rattle.template_rules.specs.Asking.{IsKnown, IsServed};

use crate::item_units::is_item;
use crate::list_macros::is_same_list;
use analysis::Reached;
use c_types::List as NameList;
use cs_base::Tok;

/// An item, and a list of a unit, if there is one, of which it is known that each of its marks has a list of the functions at
/// its positions wherever the item is processed.
#[derive(Clone, Copy)]
pub(crate) struct Known<'a> {
    pub(crate) list: Option<&'a NameList>,
    pub(crate) item: Reached,
}

/// Nothing is known.
pub(crate) fn nothing_known<'a>() -> Known<'a>
    ensures { (class : ClassValue) (toks : List Token) → IsKnown class toks result }
{
    let item = Reached {
        file: 0,
        item: 0,
        evaluated: false,
        events: 0,
        before: 0,
    };
    Known { list: None, item }
}

// Whether a list stands at the positions of another, and two items are one.
fn is_alike(toks: &[Tok], other: &NameList, of: Reached, list: &NameList, item: Reached) -> bool
    ensures { (class : ClassValue) → IsServed class toks.now other.now of → result ≡ true → IsServed class toks.now list.now item }
{
    if !is_item(of, item) {
        return false;
    }
    is_same_list(toks, toks, list, other)
}

/// Whether it is known of a list for an item, since it stands at the positions of the one of which it is.
pub(crate) fn is_known(toks: &[Tok], known: &Known<'_>, list: &NameList, item: Reached) -> bool
    ensures { (class : ClassValue) → IsKnown class toks.now known.now → result ≡ true → IsServed class toks.now list.now item }
{
    match known.list {
        Some(other) => is_alike(toks, other, known.item, list, item),
        None => false,
    }
}
