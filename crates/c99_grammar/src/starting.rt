// Where productions and items start.
ghost use Rattle.std.specs.Prelude.{◌≡◌, [], ◌∷◌, ◌++◌};
ghost use Rattle.std.specs.List.{list_any};
ghost use Rattle.c99_grammar.specs.declared.classes.Class.TheVariants.{Colon, End, LeftBracket, LeftParen};
ghost use Rattle.c99_grammar.specs.Classes.{among};
ghost use Rattle.c99_grammar.specs.ItemsOf.{ask_of, item_of, test_of};
ghost use Rattle.c99_grammar.specs.Starting.{production_starts, asks, holds, is_pair, is_passed, starts};
ghost use Rattle.c99_grammar.specs.First.{before_colon, pairs};
ghost use Rattle.c99_grammar.specs.GnuFirst.{two_brackets, one_bracket, qualifying, typing, gnu_pairs};
ghost use Rattle.c99_grammar.specs.Standard.{iso, gnu, grammar};

use crate::classes::Class;
use crate::dialects::{Dialect, Edition};
use crate::first::starts_with;
use crate::items::{Ask, Item, Test};
use c99_tree::Production;

fn is_colon(class: Class) -> bool
    ensures { result ≡ among (Colon ∷ []) class }
{
    matches!(class, Class::Colon)
}

fn is_bracket(class: Class) -> bool
    ensures { result ≡ among (LeftBracket ∷ []) class }
{
    matches!(class, Class::LeftBracket)
}

fn is_paren(class: Class) -> bool
    ensures { result ≡ among (LeftParen ∷ []) class }
{
    matches!(class, Class::LeftParen)
}

fn is_end(class: Class) -> bool
    ensures { result ≡ among (End ∷ []) class }
{
    matches!(class, Class::End)
}

// A typedef name before a colon: a label (6.8.1).
fn is_before_colon(class: Class, behind: Class, _dialect: Dialect) -> bool
    ensures { result ≡ list_any (λ pair. is_pair (grammar _dialect) pair class behind) before_colon }
{
    matches!(class, Class::TypedefName) && is_colon(behind)
}

// Two brackets, which begin attributes.
fn is_two_brackets(class: Class, behind: Class) -> bool
    ensures { result ≡ list_any (λ pair. is_pair gnu pair class behind) two_brackets }
{
    matches!(class, Class::LeftBracket) && is_bracket(behind)
}

// One bracket alone.
fn is_one_bracket(class: Class, behind: Class) -> bool
    ensures { result ≡ list_any (λ pair. is_pair gnu pair class behind) one_bracket }
{
    matches!(class, Class::LeftBracket) && !is_bracket(behind)
}

// The qualifier `_Atomic`.
fn is_qualifying(class: Class, behind: Class) -> bool
    ensures { result ≡ list_any (λ pair. is_pair gnu pair class behind) qualifying }
{
    matches!(class, Class::Atomic) && !is_paren(behind)
}

// `_Atomic` before a parenthesis, which is a type (C11 6.7.2.4 paragraph 4).
fn is_typing(class: Class, behind: Class) -> bool
    ensures { result ≡ list_any (λ pair. is_pair gnu pair class behind) typing }
{
    matches!(class, Class::Atomic) && is_paren(behind)
}

// A qualifier or attributes.
fn is_modifying(class: Class, behind: Class) -> bool
    ensures { result ≡ list_any (λ pair. is_pair gnu pair class behind) (qualifying ++ two_brackets) }
{
    is_qualifying(class, behind) || is_two_brackets(class, behind)
}

// A designator.
fn is_designating(class: Class, behind: Class) -> bool
    ensures { result ≡ list_any (λ pair. is_pair gnu pair class behind) (one_bracket ++ before_colon) }
{
    is_one_bracket(class, behind) || is_before_colon(class, behind, Dialect::Gnu)
}

// A label or attributes.
fn is_labelling(class: Class, behind: Class) -> bool
    ensures { result ≡ list_any (λ pair. is_pair gnu pair class behind) (before_colon ++ two_brackets) }
{
    is_before_colon(class, behind, Dialect::Gnu) || is_two_brackets(class, behind)
}

// The production starts with the class by an edition because of what stands behind it.
fn starts_before_by_edition(
    production: Production,
    class: Class,
    behind: Class,
    edition: Edition,
) -> bool
    ensures { result ≡ list_any (λ pair. is_pair (iso edition) pair class behind) (pairs production edition) }
{
    match production {
        Production::Statement => is_before_colon(class, behind, Dialect::Iso(edition)),
        Production::Sub => is_before_colon(class, behind, Dialect::Iso(edition)),
        _ => false,
    }
}

// .. by GNU C.
fn starts_before_by_gnu(production: Production, class: Class, behind: Class) -> bool
    ensures { result ≡ list_any (λ pair. is_pair gnu pair class behind) (gnu_pairs production) }
{
    match production {
        Production::TranslationUnit => is_two_brackets(class, behind),
        Production::External => is_two_brackets(class, behind),
        Production::FunBody => is_two_brackets(class, behind),
        Production::Declaration => is_two_brackets(class, behind),
        Production::Specs => is_two_brackets(class, behind),
        Production::Main => is_typing(class, behind),
        Production::Mod => is_modifying(class, behind),
        Production::Qual => is_qualifying(class, behind),
        Production::Members => is_two_brackets(class, behind),
        Production::Member => is_two_brackets(class, behind),
        Production::Suffix => is_one_bracket(class, behind),
        Production::Params => is_two_brackets(class, behind),
        Production::Param => is_two_brackets(class, behind),
        Production::Pdecl => is_one_bracket(class, behind),
        Production::Pdirect => is_one_bracket(class, behind),
        Production::TypeName => is_two_brackets(class, behind),
        Production::Adecl => is_one_bracket(class, behind),
        Production::Adirect => is_one_bracket(class, behind),
        Production::InitList => is_designating(class, behind),
        Production::InitItem => is_designating(class, behind),
        Production::Designator => is_one_bracket(class, behind),
        Production::Post => is_one_bracket(class, behind),
        Production::BlockItem => is_two_brackets(class, behind),
        Production::Statement => is_labelling(class, behind),
        Production::Sub => is_labelling(class, behind),
        Production::ForInit => is_two_brackets(class, behind),
        Production::Attr => is_two_brackets(class, behind),
        Production::Association => is_two_brackets(class, behind),
        _ => false,
    }
}

// The production starts with the class because of what stands behind it.
fn starts_before(production: Production, class: Class, behind: Class, dialect: Dialect) -> bool
    ensures { result ≡ list_any (λ pair. is_pair (grammar dialect) pair class behind) ((grammar dialect).pairs production) }
{
    match dialect {
        Dialect::Iso(edition) => starts_before_by_edition(production, class, behind, edition),
        Dialect::Gnu => starts_before_by_gnu(production, class, behind),
    }
}

/// The production starts with the class, before the class behind.
pub fn production_starts(
    production: Production,
    class: Class,
    behind: Class,
    dialect: Dialect,
) -> bool
    ensures { result ≡ production_starts (grammar dialect) production class behind }
{
    starts_with(production, class, dialect) || starts_before(production, class, behind, dialect)
}

/// The class is one of these, which are few.
pub fn is_among(class: Class, classes: &[Class]) -> bool
    ensures { result ≡ among classes.now class }
{
    match classes {
        [] => false,
        [first, more @ ..] => *first == class || is_among(class, more),
    }
}

/// What is asked is true of the class.
pub(crate) fn asks(ask: &Ask, class: Class, dialect: Dialect) -> bool
    ensures { result ≡ asks (grammar dialect) (ask_of ask.now) class }
{
    match ask {
        Ask::Is(classes) => is_among(class, classes),
        Ask::IsNot(classes) => !is_among(class, classes),
        Ask::Begins(production) => starts_with(*production, class, dialect),
        Ask::IsOrBegins(classes, production) => {
            is_among(class, classes) || starts_with(*production, class, dialect)
        }
    }
}

// Actions and optional items are passed over.
fn is_passed(item: &Item) -> bool
    ensures { result ≡ is_passed (item_of item.now) }
{
    match item {
        Item::Act(_) => true,
        Item::Maybe(_) => true,
        Item::Many(_, _) => true,
        Item::Then(first, second) => is_passed(first) && is_passed(second),
        _ => false,
    }
}

/// The item starts with the class, before the class behind.
pub fn starts(item: &Item, class: Class, behind: Class, dialect: Dialect) -> bool
    ensures { result ≡ starts (grammar dialect) (item_of item.now) class behind }
{
    match item {
        Item::One(classes) => is_among(class, classes),
        Item::Part(production) => production_starts(*production, class, behind, dialect),
        Item::EndOfText => is_end(class),
        Item::Act(_) => false,
        // Most lists begin with a token.
        Item::Then(Item::One(classes), _) => is_among(class, classes),
        Item::Then(first, second) => {
            if is_passed(first) {
                starts(first, class, behind, dialect) || starts(second, class, behind, dialect)
            } else {
                starts(first, class, behind, dialect)
            }
        }
        Item::Choice(first, second) => {
            starts(first, class, behind, dialect) || starts(second, class, behind, dialect)
        }
        Item::Maybe(only) => starts(only, class, behind, dialect),
        Item::Many(test, only) => holds(
            test,
            starts(only, class, behind, dialect),
            class,
            behind,
            dialect,
        ),
        Item::Deep(production) => production_starts(*production, class, behind, dialect),
    }
}

/// The test holds of the class before the class behind; `started` says whether its item starts there.
pub fn holds(test: &Test, started: bool, class: Class, behind: Class, dialect: Dialect) -> bool
    ensures { result ≡ holds (grammar dialect) (test_of test.now) started class behind }
{
    match test {
        Test::Own => started,
        Test::Otherwise => true,
        Test::Next(ask) => asks(ask, class, dialect),
        Test::NextTwo(ask, ask_behind) => asks(ask, class, dialect)
            && asks(ask_behind, behind, dialect),
    }
}
