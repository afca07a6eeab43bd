// Why a text is not read or bound, and at which token.
ghost use Rattle.std.specs.Prelude.{◌≡◌, IfOk, IsSome};
ghost use Rattle.std.specs.Option.{option_map};
ghost use Rattle.cs_base.specs.Answer.{Gives};
ghost use Rattle.c99_read.specs.Answer.{stop_of};
ghost use Rattle.c99_read.specs.Reading.{read_of};
ghost use Rattle.c99_read.specs.Below.c99_grammar.Dialects.{dialect};
ghost use Rattle.c99_read.specs.Below.c99_grammar.Standard.{grammar};
ghost use Rattle.gnu_bind.specs.Below.c_types.Faults.{fault_of as name_fault_of};
ghost use Rattle.gnu_bind.specs.Below.scope_bind.Causes.{cause_of, index_of};
ghost use Rattle.gnu_bind.specs.Bound.{binding_by};
ghost use Rattle.analysis.specs.Accepting.{told_of_stop};
ghost use Rattle.unit_checks.specs.Findings.{name_stop, reading_stop};

use c99_read::{Dialect, ReadRefusal, read};
use c99_tree::Tree;
use cs_base::{Cause, Memory, Standard, Tok};
use gnu_bind::{BindRefusal, bind_by};
use std::alloc::Global;

// Why the reader refused, and at which token: none where it was memory.
fn told_of_stop(refusal: ReadRefusal) -> Option<(u32, Cause)>
    ensures { result ≡ option_map told_of_stop (stop_of refusal) }
{
    match refusal {
        ReadRefusal::Syntax { index } => Some((index, Cause::Syntax)),
        ReadRefusal::TooDeep { index } => Some((index, Cause::TooDeep)),
        ReadRefusal::Memory => None,
    }
}

// Why the binder refused, and at which token: none where it was memory.
fn told_of_name(refusal: BindRefusal) -> Option<(u32, Cause)>
    ensures { result ≡ option_map (λ f. (index_of f, cause_of f)) (name_fault_of refusal) }
{
    match refusal {
        BindRefusal::Undeclared { index } => Some((index, Cause::Undeclared)),
        BindRefusal::NoMember { index } => Some((index, Cause::NoMember)),
        BindRefusal::NoLabel { index } => Some((index, Cause::NoLabel)),
        BindRefusal::Redeclared { index } => Some((index, Cause::Redeclared)),
        BindRefusal::TagRedefined { index } => Some((index, Cause::TagRedefined)),
        BindRefusal::MixedLinkage { index } => Some((index, Cause::MixedLinkage)),
        BindRefusal::DesignatorAfterElision { index } => Some((
            index,
            Cause::DesignatorAfterElision,
        )),
        BindRefusal::Memory => None,
    }
}

// What was told, unless memory ran out.
fn told(stop: Option<(u32, Cause)>) -> Result<Option<(u32, Cause)>, Memory>
    ensures same { IfOk result (λ s. s ≡ stop) }
    ensures some { IfOk result (λ s. IsSome stop) }
{
    match stop {
        Some(stop) => Ok(Some(stop)),
        None => Err(Memory),
    }
}

// Why the names of a tree do not bind by a standard, and at which token.
fn name_stop(
    alloc: Global,
    toks: &[Tok],
    tree: &Tree,
    standard: Standard,
) -> Result<Option<(u32, Cause)>, Memory>
    ensures { IfOk result (λ stop. stop ≡ name_stop (binding_by standard toks.now tree.now)) }
{
    match bind_by(alloc, toks, tree, standard) {
        Ok(_bound) => Ok(None),
        Err(refusal) => told(told_of_name(refusal)),
    }
}

// The tree of tokens by a standard. `Memory` for 2^32 of them and more.
fn read_toks(alloc: Global, toks: &[Tok], standard: Standard) -> Result<Tree, ReadRefusal>
    ensures { Gives (λ tree. tree) stop_of result (read_of (grammar (dialect standard)) toks.now) }
{
    if toks.len() > u32::MAX as usize {
        return Err(ReadRefusal::Memory);
    }
    read(alloc, toks, Dialect::of(standard))
}

/// Why tokens are not read by a standard, or their names do not bind, and at which token.
pub(crate) fn reading_stop(
    alloc: Global,
    toks: &[Tok],
    standard: Standard,
) -> Result<Option<(u32, Cause)>, Memory>
    ensures { IfOk result (λ stop. stop ≡ reading_stop standard toks.now) }
{
    match read_toks(alloc, toks, standard) {
        Ok(tree) => name_stop(alloc, toks, &tree, standard),
        Err(refusal) => told(told_of_stop(refusal)),
    }
}
