// What follows in an expansion.
ghost use Rattle.std.specs.Prelude.{◌≡◌, ◌++◌, [], List, map, reverse, option_copied, option_map, IfOk};
ghost use Rattle.macro_body.specs.Live.{table_of};
ghost use Rattle.macro_body.specs.Hides.{Hidden, hidden, hide_more};
ghost use Rattle.macro_expand.specs.Frames.{AreFilled, rest_of, rests_above, lent_toks, IsRaised};
ghost use Rattle.macro_expand.specs.Following.{first_of, is_macro_name, IsTaken, IsPlain, IsPopped};

use cs_base::{Memory, Tok};
use macro_body::{AddedNames, HiddenTok, HideSet, Macros, is_name, shared};
use std::alloc::Global;
use std::marker::Model;
use std::mem;

/// Tokens that are lent, and that nothing was put before yet: a run, whose tokens have empty hide sets, or
/// an argument.
#[derive(Clone, Copy)]
pub enum Lent<'a> {
    Run(&'a [Tok]),
    Argument(&'a [HiddenTok]),
}

impl<'a> Lent<'a> {
    fn first(&self) -> Option<&Tok>
        ensures { option_copied result ≡ option_map (λ h. h.tok) (first_of (lent_toks self.now)) }
    {
        match self {
            Lent::Run(toks) => toks.first(),
            Lent::Argument([first, ..]) => Some(first.tok()),
            Lent::Argument([]) => None,
        }
    }

    // The next token, which is taken away here and stays where it is lent from.
    fn take(&mut self, alloc: Global) -> Result<Option<HiddenTok>, Memory>
        ensures { IfOk result (λ taken. IsTaken taken (lent_toks self.old) (lent_toks self.new)) }
    {
        match *self {
            Lent::Run([first, rest @ ..]) => {
                *self = Lent::Run(rest);
                Ok(Some(unhidden_tok(alloc, first)?))
            }
            Lent::Argument([first, rest @ ..]) => {
                *self = Lent::Argument(rest);
                Ok(Some(first.copy(alloc)?))
            }
            Lent::Run([]) => Ok(None),
            Lent::Argument([]) => Ok(None),
        }
    }

    // The next token of a run, which is taken away here, where no macro has its name.
    fn take_plain(&mut self, macros: &Macros) -> Result<Option<Tok>, Memory>
        ensures { IfOk result (λ taken. IsPlain (table_of macros.now) taken (lent_toks self.old) (lent_toks self.new)) }
    {
        match *self {
            Lent::Run([first, rest @ ..]) => {
                if is_macro(first, macros) {
                    return Ok(None);
                }
                *self = Lent::Run(rest);
                Ok(Some(shared(first)?))
            }
            _ => Ok(None),
        }
    }
}

// Whether a token is the name of a macro.
fn is_macro(tok: &Tok, macros: &Macros) -> bool
    ensures { result ≡ is_macro_name (table_of macros.now) tok.now }
{
    is_name(tok) && macros.find(tok.text()).is_some()
}

// The token that is kept at the end, taken away without its hide set, where no macro has its name.
fn pop_plain(toks: &mut Vec<HiddenTok>, macros: &Macros) -> Option<Tok>
    ensures { IsPopped (table_of macros.now) result toks.old.items toks.new.items }
{
    match last_tok(toks) {
        Some(tok) if !is_macro(tok, macros) => {}
        _ => return None,
    }
    match toks.pop() {
        Some(tok) => Some(tok.into_tok()),
        None => None,
    }
}

/// What is left of a result that was put before what followed: the next token is kept at the end. The
/// names are not available to any of them.
#[derive(Drop)]
pub struct Frame {
    toks: Vec<HiddenTok>,
    names: AddedNames,
}

/// The tokens that follow in an expansion: what is left of each result that was put before others, and what
/// was lent below them all. No token of what was lent moves before it is taken, and none of a result gets the
/// names of its frame before. Contracts see the list, the next one first.
#[derive(Drop)]
pub struct Rest<'a> {
    alloc: Global,
    toks: Vec<HiddenTok>,
    names: AddedNames,
    below: Vec<Frame>,
    lent: Lent<'a>,
}

impl<'a> Model for Rest<'a> {
    ghost use Rattle.std.specs.Prelude.{List, ◌++◌};
    ghost use Rattle.macro_body.specs.Hides.{Hidden};
    ghost use Rattle.macro_expand.specs.Frames.{AreFilled, rest_of, rests_above, lent_toks};

    ghost Value = { List Hidden };

    ghost view = { λ r. rest_of r.names r.toks.items ++ rests_above r.below.items (lent_toks r.lent) };

    ghost invariant = { λ r. AreFilled r.below.items };
}

impl<'a> Rest<'a> {
    pub fn new(alloc: Global, lent: Lent<'a>) -> Rest<'a>
        ensures { result ≡ lent_toks lent.entry }
    {
        Rest {
            alloc,
            toks: Vec::new(alloc),
            names: AddedNames::none(alloc),
            below: Vec::new(alloc),
            lent,
        }
    }

    /// The next token, if there is one.
    pub fn first(&self) -> Option<&Tok>
        ensures { option_copied result ≡ option_map (λ h. h.tok) (first_of self.now) }
    {
        match self.toks.last() {
            Some(tok) => Some(tok.tok()),
            None => match self.below.last() {
                Some(frame) => last_tok(&frame.toks),
                None => self.lent.first(),
            },
        }
    }

    /// The next token, taken away, if there is one.
    pub fn take(&mut self) -> Result<Option<HiddenTok>, Memory>
        ensures { IfOk result (λ taken. IsTaken taken self.old self.new) }
    {
        raise(&mut self.toks, &mut self.names, &mut self.below);
        match self.toks.pop() {
            Some(tok) => Ok(Some(self.names.added_to(tok)?)),
            None => self.lent.take(self.alloc),
        }
    }

    /// The next token, taken away without its hide set, where no macro has its name.
    pub fn take_plain(&mut self, macros: &Macros) -> Result<Option<Tok>, Memory>
        ensures { IfOk result (λ taken. IsPlain (table_of macros.now) taken self.old self.new) }
    {
        raise(&mut self.toks, &mut self.names, &mut self.below);
        if self.toks.is_empty() {
            return self.lent.take_plain(macros);
        }
        Ok(pop_plain(&mut self.toks, macros))
    }

    /// Puts tokens before all others, to which further names are not available.
    pub fn put(&mut self, toks: Vec<HiddenTok>, names: HideSet) -> Result<(), Memory>
        ensures { IfOk result (λ _. self.new ≡ map (hide_more names) toks.items ++ self.old) }
    {
        let mut toks = toks;
        toks.reverse();
        let names = AddedNames::new(self.alloc, names)?;
        let toks = mem::replace(&mut self.toks, toks);
        let names = mem::replace(&mut self.names, names);
        push_frame(&mut self.below, toks, names)
    }
}

// Where a frame has no token left, the one below it takes its place.
fn raise(toks: &mut Vec<HiddenTok>, names: &mut AddedNames, below: &mut Vec<Frame>)
    requires filled { AreFilled below.old.items }
    ensures filled { AreFilled below.new.items }
    ensures same { (low : List Hidden) → rest_of names.new toks.new.items ++ rests_above below.new.items low
        ≡ rest_of names.old toks.old.items ++ rests_above below.old.items low }
    ensures raised { IsRaised toks.new.items below.new.items }
{
    if toks.is_empty() {
        if let Some(frame) = below.pop() {
            *toks = frame.toks;
            *names = frame.names;
        }
    }
}

// Puts what is left of a result above the frames, if anything is.
fn push_frame(below: &mut Vec<Frame>, toks: Vec<HiddenTok>, names: AddedNames) -> Result<(), Memory>
    requires filled { AreFilled below.old.items }
    ensures filled { AreFilled below.new.items }
    ensures answer { IfOk result (λ _. (low : List Hidden) → rests_above below.new.items low
        ≡ rest_of names toks.items ++ rests_above below.old.items low) }
{
    if !toks.is_empty() {
        below.push(Frame { toks, names })?;
    }
    Ok(())
}

// The token that is kept at the end.
fn last_tok(toks: &[HiddenTok]) -> Option<&Tok>
    ensures { option_copied result ≡ option_map (λ h. h.tok) (first_of (reverse toks.now)) }
{
    match toks.last() {
        Some(tok) => Some(tok.tok()),
        None => None,
    }
}

// A token of a run with an empty hide set.
fn unhidden_tok(alloc: Global, tok: &Tok) -> Result<HiddenTok, Memory>
    ensures { IfOk result (λ h. h ≡ hidden tok.now []) }
{
    Ok(HiddenTok::new(shared(tok)?, HideSet::new(alloc)))
}
