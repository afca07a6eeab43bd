// What tokens stand for, by their places in the tree (ISO/IEC 9899:1999, 6.2.3 and Annex A).
ghost use Rattle.std.specs.Prelude.{◌≡◌, ◌&&◌, ◌==◌, ◌%◌};
ghost use Rattle.c99_tree.specs.declared.production.Production.TheVariants.{Post as APost, Statement as AStatement};
ghost use Rattle.scope_bind.specs.Roles.{role_if, role_of};

use c99_tree::Production;

/// What a token stands for: an identifier in an expression, a typedef name, the tag of a structure or union,
/// the tag of an enumeration, a name in an identifier list, a member behind `.`, behind `->` and in a
/// designator, a label, and a label behind `goto`. The name of a declarator is declared where the declarator
/// ends, and an enumeration constant where its enumerator does.
#[derive(Clone, Copy, Debug, PartialEq, Eq)]
pub enum Role {
    Plain,
    Primary,
    TypeName,
    Tag,
    EnumerationTag,
    Listed,
    Member,
    PointedMember,
    Designated,
    Label,
    Jump,
}

fn role_if(is: bool, role: Role) -> Role
    ensures { result ≡ role_if is role }
{
    if is { role } else { Role::Plain }
}

fn post_role(alternative: u8, nth: u32) -> Role
    ensures { result ≡ role_of APost alternative nth }
{
    if alternative == 3 && nth == 1 {
        Role::Member
    } else {
        role_if(alternative == 4 && nth == 1, Role::PointedMember)
    }
}

fn statement_role(alternative: u8, nth: u32) -> Role
    ensures { result ≡ role_of AStatement alternative nth }
{
    if alternative == 1 && nth == 0 {
        Role::Label
    } else {
        role_if(alternative == 10 && nth == 1, Role::Jump)
    }
}

/// The role of a child that is a token, by the production, the alternative and how many children stand before it.
pub fn role_of(production: Production, alternative: u8, nth: u32) -> Role
    ensures { result ≡ role_of production alternative nth }
{
    match production {
        Production::Primary => role_if(alternative == 1, Role::Primary),
        Production::Main => role_if(alternative == 4 && nth == 0, Role::TypeName),
        Production::SuRest => role_if(alternative == 1 && nth == 0, Role::Tag),
        Production::EnRest => role_if(alternative == 1 && nth == 0, Role::EnumerationTag),
        Production::Params => role_if(alternative == 1 && nth % 2 == 0, Role::Listed),
        Production::Post => post_role(alternative, nth),
        Production::Designator => role_if(alternative == 1 && nth == 1, Role::Designated),
        Production::Statement => statement_role(alternative, nth),
        _ => Role::Plain,
    }
}
