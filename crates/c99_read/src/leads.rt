// How an alternative begins whose node may be left out, or that is one token.
ghost use Rattle.std.specs.Prelude.{◌≡◌, true};
ghost use Rattle.c99_grammar.specs.Items.{◌·◌};
ghost use Rattle.c99_grammar.specs.ItemsOf.{item_of};
ghost use Rattle.c99_tree.specs.declared.production.Production.{Production};
ghost use Rattle.c99_read.specs.Leading.{is_optional};
ghost use Rattle.c99_read.specs.Leads.{Leads};
ghost use Rattle.c99_read.specs.State.{collapses};

use crate::parts::{collapses, is_declarator, is_specs};
use c99_grammar::{Class, Item, Test};
use c99_tree::Production;

/// With a production that is all of it, with one behind which an item may follow, with a token that is all of it, or in
/// another way.
#[derive(Clone, Copy)]
pub(crate) enum Lead {
    Alone(Production),
    Before(Production, &'static Item),
    Single(&'static [Class]),
    Otherwise,
}

fn is_optional(item: &Item) -> bool
    ensures { result ≡ is_optional (item_of item.now) }
{
    match item {
        Item::Maybe(_) => true,
        Item::Many(Test::Own, _) => true,
        _ => false,
    }
}

// How one item begins behind which another one stands.
fn lead_before(first: &Item, rest: &'static Item) -> Lead
    ensures { (p : Production) → collapses p ≡ true → Leads p (item_of first.now · item_of rest.now) result }
{
    match first {
        Item::Part(production) => {
            if is_optional(rest) {
                Lead::Before(*production, rest)
            } else {
                Lead::Otherwise
            }
        }
        _ => Lead::Otherwise,
    }
}

// How an alternative begins whose node may be left out.
fn lead_in(body: &'static Item) -> Lead
    ensures { (p : Production) → collapses p ≡ true → Leads p (item_of body.now) result }
{
    match body {
        Item::Part(first) => Lead::Alone(*first),
        Item::Then(first, rest) => lead_before(first, *rest),
        _ => Lead::Otherwise,
    }
}

/// How this alternative of the production begins.
pub(crate) fn lead_of(production: Production, body: &'static Item) -> Lead
    ensures { Leads production (item_of body.now) result }
{
    if collapses(production) {
        return lead_in(body);
    }
    if is_declarator(production) || is_specs(production) {
        return Lead::Otherwise;
    }
    match body {
        Item::One(classes) => Lead::Single(*classes),
        _ => Lead::Otherwise,
    }
}
