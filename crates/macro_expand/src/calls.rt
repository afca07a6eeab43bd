// Calls of function-like macros (6.10.3 paragraphs 4 and 10 to 12).
ghost use Rattle.std.specs.Prelude.{◌≡◌, ◌+◌, ◌<◌, ◌^◌, IfOk, [], ◌&&◌, if◌then◌else◌};
ghost use Rattle.std.specs.Option.{option_map};
ghost use Rattle.macro_expand.specs.Calls.{role_of, level_after, separates, fewer, call_from, commas_of, is_blank, with_rest, completed_by, completed, lacks_rest, are_enough, arguments_of};
ghost use Rattle.macro_body.specs.Macro.{arity};
ghost use Rattle.macro_expand.specs.Following.{role_as, call_before};

use crate::rest::Rest;
use cs_base::{Memory, Tok};
use macro_body::{Definition, HiddenToks, HideSet, is_close, is_comma, is_open, rest_number};
use std::alloc::Global;
use std::mem;

/// The arguments of a call as they stand, and the hide set of its `)`.
#[derive(Drop)]
pub struct CallToks {
    pub arguments: Vec<HiddenToks>,
    pub close: HideSet,
}

/// What a token behind the `(` of a call is: the `)` of the call, a comma that separates arguments, or
/// a token of an argument.
#[derive(Clone, Copy, Debug, PartialEq, Eq)]
pub enum CallRole {
    Closes,
    Separates,
    Belongs,
}

/// Takes the tokens of a call, its `(` being taken, up to its `)`: none where that is missing.
pub fn take_call(
    alloc: Global,
    rest: &mut Rest,
    mut commas: Option<usize>,
) -> Result<Option<CallToks>, Memory>
    ensures { IfOk result (λ call. call_before call rest.new ≡ call_from rest.old commas 0) }
{
    let mut finished = Vec::new(alloc);
    let mut present = Vec::new(alloc);
    let mut level = 0;
    'toks: while let Some(next) = rest.take()? {
        match role_of(commas, level, next.tok()) {
            CallRole::Closes => {
                finished.push(HiddenToks::new(present))?;
                return Ok(Some(CallToks {
                    arguments: finished,
                    close: next.into_hides(),
                }));
            }
            CallRole::Separates => {
                let _comma = next.into_tok();
                finished.push(HiddenToks::new(mem::replace(&mut present, Vec::new(alloc))))?;
                commas = fewer(commas);
            }
            CallRole::Belongs => {
                level = level_after(next.tok(), level);
                present.push(next)?;
            }
        }
    }
    Ok(None)
}

// What a token is, so many parentheses of the arguments being open.
fn role_of(commas: Option<usize>, level: usize, tok: &Tok) -> CallRole
    ensures { role_as result ≡ role_of commas level tok.now }
{
    if level > 0 {
        CallRole::Belongs
    } else if is_close(tok) {
        CallRole::Closes
    } else if is_comma(tok) && separates(commas) {
        CallRole::Separates
    } else {
        CallRole::Belongs
    }
}

// How many parentheses are open behind a token.
fn level_after(tok: &Tok, level: usize) -> usize
    requires { level + 1 < 2 ^ 64 }
    ensures { result ≡ level_after tok.now level }
{
    if is_open(tok) {
        level + 1
    } else if is_close(tok) {
        level.saturating_sub(1)
    } else {
        level
    }
}

// Whether a comma separates, so many being left that do.
fn separates(commas: Option<usize>) -> bool
    ensures { result ≡ separates commas }
{
    match commas {
        Some(0) => false,
        _ => true,
    }
}

// How many commas are left behind one that separates.
fn fewer(commas: Option<usize>) -> Option<usize>
    ensures { result ≡ fewer commas }
{
    match commas {
        Some(count) => Some(count.saturating_sub(1)),
        None => None,
    }
}

/// How many commas separate the arguments of a macro, if not all.
pub fn commas_of(m: &Definition) -> Option<usize>
    ensures { result ≡ commas_of m.now }
{
    rest_number(m)
}

/// The arguments of a call, or none where their number is wrong (6.10.3 paragraph 4).
pub fn arguments_of(
    m: &Definition,
    arguments: Vec<HiddenToks>,
) -> Result<Option<Vec<HiddenToks>>, Memory>
    ensures { IfOk result (λ raw. option_map (λ r. r.items) raw ≡ arguments_of m.now arguments.items) }
{
    let arguments = completed(m, arguments)?;
    if are_enough(m, arguments.len()) {
        Ok(Some(arguments))
    } else {
        Ok(None)
    }
}

// Whether a call may have so many arguments: in GNU C also none for the variable arguments.
fn are_enough(m: &Definition, count: usize) -> bool
    ensures { result ≡ are_enough m.now count }
{
    count == arity(m) || lacks_rest(m, count, rest_number(m))
}

fn lacks_rest(m: &Definition, count: usize, rest: Option<usize>) -> bool
    ensures { result ≡ lacks_rest m.now count rest }
{
    match rest {
        Some(named) => m.gnu && count == named,
        None => false,
    }
}

// The arguments, none where nothing stands between the parentheses of a macro without parameters.
fn completed(m: &Definition, arguments: Vec<HiddenToks>) -> Result<Vec<HiddenToks>, Memory>
    ensures { IfOk result (λ all. all.items ≡ completed m.now arguments.items) }
{
    completed_by(m, arguments, rest_number(m))
}

// The same, so many parameters standing before the variable arguments if the macro has these.
fn completed_by(
    m: &Definition,
    arguments: Vec<HiddenToks>,
    rest: Option<usize>,
) -> Result<Vec<HiddenToks>, Memory>
    ensures { IfOk result (λ all. all.items ≡ completed_by m.now arguments.items rest) }
{
    match rest {
        Some(named) => with_rest(m.gnu, named, arguments),
        None => Ok(without_blank(arity(m) == 0, arguments)),
    }
}

// No arguments where nothing stands between the parentheses.
fn without_blank(alone: bool, mut arguments: Vec<HiddenToks>) -> Vec<HiddenToks>
    ensures { result.items ≡ (if alone && is_blank arguments.items then [] else arguments.items) }
{
    if alone && is_blank(&arguments) {
        arguments.clear();
    }
    arguments
}

// The variable arguments are empty where they are missing, and stay away in GNU C.
fn with_rest(
    gnu: bool,
    named: usize,
    mut arguments: Vec<HiddenToks>,
) -> Result<Vec<HiddenToks>, Memory>
    ensures { IfOk result (λ all. all.items ≡ with_rest gnu named arguments.items) }
{
    if gnu {
        return Ok(without_blank(named == 0, arguments));
    }
    if arguments.len() == named {
        let none = Vec::new(*arguments.allocator());
        arguments.push(HiddenToks::new(none))?;
    }
    Ok(arguments)
}

// How many arguments a call of a macro has.
fn arity(m: &Definition) -> usize
    ensures { result ≡ arity m.now }
{
    let named = m.params.as_slice().len();
    if m.variadic { named + 1 } else { named }
}

// Whether nothing stands between the parentheses of a call.
fn is_blank(arguments: &[HiddenToks]) -> bool
    ensures { result ≡ is_blank arguments.now }
{
    match arguments {
        [only] => only.as_slice().is_empty(),
        _ => false,
    }
}
