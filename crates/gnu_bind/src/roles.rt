// What tokens stand for in GNU C, by their places in the tree.
ghost use Rattle.std.specs.Prelude.{◌≡◌, ◌&&◌, ◌==◌, ◌%◌};
ghost use Rattle.c99_tree.specs.declared.production.Production.TheVariants.{SuRest as ABody, InitItem as AnItem, Statement as AStatement};
ghost use Rattle.gnu_bind.specs.Roles.{gnu_if, is_brace, role_in};

use c99_tree::Production;
use scope_bind::{Role, role_of};

/// What a token stands for: what it does in the standards; an identifier in an expression; a label that a block
/// declares, a label, a label that is jumped to, and one whose address is taken; a token of a path to a member; and the
/// `}` of a structure or union without members.
#[derive(Clone, Copy, Debug, PartialEq, Eq)]
pub enum GnuRole {
    Standard(Role),
    Name,
    BlockLabel,
    Label,
    Jump,
    Address,
    Path,
    Brace,
}

fn gnu_if(is: bool, role: GnuRole) -> GnuRole
    ensures { result ≡ gnu_if is role }
{
    if is {
        role
    } else {
        GnuRole::Standard(Role::Plain)
    }
}

fn is_brace(alternative: u8, nth: u32) -> bool
    ensures { result ≡ is_brace alternative nth }
{
    (alternative == 1 && nth == 2) || (alternative == 2 && nth == 1)
}

fn body_role(alternative: u8, nth: u32) -> GnuRole
    ensures { result ≡ role_in ABody alternative nth }
{
    if is_brace(alternative, nth) {
        GnuRole::Brace
    } else {
        GnuRole::Standard(role_of(Production::SuRest, alternative, nth))
    }
}

fn item_role(alternative: u8, nth: u32) -> GnuRole
    ensures { result ≡ role_in AnItem alternative nth }
{
    if alternative == 2 && nth == 0 {
        GnuRole::Standard(Role::Designated)
    } else {
        GnuRole::Standard(Role::Plain)
    }
}

fn statement_role(alternative: u8, nth: u32) -> GnuRole
    ensures { result ≡ role_in AStatement alternative nth }
{
    if alternative == 1 && nth == 0 {
        GnuRole::Label
    } else {
        gnu_if(alternative == 10 && nth == 1, GnuRole::Jump)
    }
}

/// The role of a child that is a token, by the production, the alternative and how many children stand before it.
pub(crate) fn role_in(production: Production, alternative: u8, nth: u32) -> GnuRole
    ensures { result ≡ role_in production alternative nth }
{
    match production {
        Production::Primary => gnu_if(alternative == 1, GnuRole::Name),
        Production::SuRest => body_role(alternative, nth),
        Production::InitItem => item_role(alternative, nth),
        Production::Unary => gnu_if(alternative == 4 && nth == 1, GnuRole::Address),
        Production::MemberPath => GnuRole::Path,
        Production::BlockItem => gnu_if(alternative == 7 && nth % 2 == 1, GnuRole::BlockLabel),
        Production::Statement => statement_role(alternative, nth),
        Production::AsmPart => gnu_if(alternative == 1 && nth % 2 == 1, GnuRole::Jump),
        _ => GnuRole::Standard(role_of(production, alternative, nth)),
    }
}
