// The names of the open scopes, and what open declarators were given (6.2.1).
ghost use Rattle.std.specs.Prelude.{◌≡◌, ◌==◌, ◌<◌, [], ◌∷◌, length, get_or, position, reverse, Some, unwrap_or, IfSome, OnOk};
ghost use Rattle.c99_read.specs.State.{Head, in_innermost, with_scope_ended, with_head, head_closed, given_names, no_names, declaration};

use crate::file_names::FileNames;
use cs_base::Memory;
use std::alloc::Global;
use std::marker::Model;
use std::mem;

/// A declaration: the index of the token that is its name, and whether it declares a typedef name.
#[derive(Clone, Copy)]
pub(crate) struct Declaration {
    pub name_at: u32,
    pub typedef: bool,
}

/// An open declarator: how many scopes were open when it began, and the names that were given to it.
#[derive(Drop)]
pub(crate) struct OpenHead {
    scopes_open: usize,
    given: Option<Vec<Declaration>>,
}

impl Model for OpenHead {
    ghost use Rattle.std.specs.Prelude.{reverse};
    ghost use Rattle.std.specs.Option.{option_map};
    ghost use Rattle.c99_read.specs.State.{Head};

    ghost Value = { Head };

    ghost view = { λ h. record { scopes_open = h.scopes_open; given = option_map (λ v. reverse v.items) h.given } };
}

impl OpenHead {
    fn new(scopes_open: usize) -> OpenHead
        ensures { result ≡ record { scopes_open = scopes_open; given = None } }
    {
        OpenHead {
            scopes_open,
            given: None,
        }
    }

    fn is_at(&self, scopes_open: usize) -> bool
        ensures { result ≡ (self.now.scopes_open == scopes_open) }
    {
        self.scopes_open == scopes_open
    }

    // The declarator gets the names, if none were given to it before.
    fn give(&mut self, alloc: Global, names: &[Declaration]) -> Result<(), Memory>
        ensures { OnOk result (self.new ≡ record self.old { given = Some (unwrap_or self.old.given (reverse names.now)) }) }
    {
        if self.given.is_some() {
            return Ok(());
        }
        self.given = Some(Vec::from_slice(alloc, names)?);
        Ok(())
    }

    fn into_given(self, alloc: Global) -> Vec<Declaration>
        ensures { reverse result.items ≡ unwrap_or self.given [] }
    {
        match self.given {
            Some(names) => names,
            None => Vec::new(alloc),
        }
    }
}

/// The open scopes and declarators. Contracts see the record of specs/State.antt, whose lists have the
/// latest declaration first.
#[derive(Drop)]
pub(crate) struct NameTable {
    inner: Vec<Declaration>,
    outer: Vec<Vec<Declaration>>,
    ended: Vec<Declaration>,
    heads: Vec<OpenHead>,
    kept: Vec<Declaration>,
}

impl Model for NameTable {
    ghost use Rattle.std.specs.Prelude.{◌∷◌, map, reverse};
    ghost use Rattle.c99_read.specs.State.{Names};

    ghost Value = { Names };

    ghost view = { λ t. record {
      scopes = reverse t.inner.items ∷ map (λ s. reverse s.items) (reverse t.outer.items);
      ended = reverse t.ended.items;
      heads = t.heads.items;
      kept = reverse t.kept.items;
    } };
}

impl NameTable {
    pub(crate) fn new(alloc: Global) -> NameTable
        ensures { result ≡ no_names }
    {
        NameTable {
            inner: Vec::new(alloc),
            outer: Vec::new(alloc),
            ended: Vec::new(alloc),
            heads: Vec::new(alloc),
            kept: Vec::new(alloc),
        }
    }

    /// A scope begins.
    pub(crate) fn begin(&mut self) -> Result<(), Memory>
        ensures { OnOk result (self.new ≡ record self.old { scopes = [] ∷ self.old.scopes }) }
    {
        let fresh = Vec::new(*self.inner.allocator());
        let scope = mem::replace(&mut self.inner, fresh);
        self.outer.push(scope)?;
        Ok(())
    }

    /// The innermost scope ends. The outermost one stays.
    pub(crate) fn end(&mut self)
        ensures { self.new ≡ with_scope_ended self.old self.old.scopes }
    {
        match self.outer.pop() {
            Some(next) => self.ended = mem::replace(&mut self.inner, next),
            None => (),
        }
    }

    /// A declaration in the innermost scope.
    pub(crate) fn declare(&mut self, name_at: u32, typedef: bool) -> Result<(), Memory>
        ensures { OnOk result (self.new ≡ record self.old { scopes = in_innermost self.old.scopes (declaration name_at typedef) }) }
    {
        self.inner.push(Declaration { name_at, typedef })?;
        Ok(())
    }

    /// A declarator begins.
    pub(crate) fn open_head(&mut self) -> Result<(), Memory>
        ensures ok { OnOk result (self.new ≡ with_head self.old) }
        ensures scopes { self.new.scopes ≡ self.old.scopes }
    {
        let head = OpenHead::new(self.outer.len() + 1);
        self.heads.push(head)?;
        Ok(())
    }

    /// The last open declarator is closed, and its names are kept.
    pub(crate) fn close_head(&mut self)
        ensures { self.new ≡ head_closed self.old }
    {
        let alloc = *self.inner.allocator();
        self.kept = match self.heads.pop() {
            Some(head) => head.into_given(alloc),
            None => Vec::new(alloc),
        };
    }

    /// The names of the scope that ended go to the outermost declarator that began in this scope.
    pub(crate) fn keep(&mut self) -> Result<(), Memory>
        ensures scopes { self.new.scopes ≡ self.old.scopes }
        ensures ok { OnOk result (self.new ≡ record self.old { heads = given_names (length self.old.scopes) self.old.ended self.old.heads }) }
    {
        match self.head_here() {
            Some(k) => self.give_to(k),
            None => Ok(()),
        }
    }

    /// How many scopes are open.
    fn scopes_open(&self) -> usize
        ensures { result ≡ length self.now.scopes }
    {
        self.outer.len() + 1
    }

    // The outermost declarator that began with so many scopes open.
    fn head_at(&self, scopes_open: usize) -> Option<usize>
        ensures { result ≡ position (λ h. h.scopes_open == scopes_open) self.now.heads }
    {
        self.heads.iter().position(|head| head.is_at(scopes_open))
    }

    // The outermost declarator that began in the present scope.
    fn head_here(&self) -> Option<usize>
        ensures { result ≡ position (λ h. h.scopes_open == length self.now.scopes) self.now.heads }
    {
        self.head_at(self.scopes_open())
    }

    // The names of the scope that ended go to this declarator.
    fn give_to(&mut self, k: usize) -> Result<(), Memory>
        requires { position (λ h. h.scopes_open == length self.old.scopes) self.old.heads ≡ Some k }
        ensures scopes { self.new.scopes ≡ self.old.scopes }
        ensures ok { OnOk result (self.new ≡ record self.old { heads = given_names (length self.old.scopes) self.old.ended self.old.heads }) }
    {
        let alloc = *self.inner.allocator();
        self.heads[k].give(alloc, self.ended.as_slice())
    }

    /// How many names are kept.
    pub(crate) fn kept_len(&self) -> usize
        ensures { result ≡ length self.now.kept }
    {
        self.kept.len()
    }

    /// The kept name number `k` from the first declared.
    pub(crate) fn kept_at(&self, k: usize) -> Declaration
        requires { k < length self.now.kept }
        ensures { result ≡ get_or (reverse self.now.kept) k result }
    {
        self.kept[k]
    }

    /// The names, where the outermost scope alone is open and no declarator is.
    pub(crate) fn into_file(self) -> Option<FileNames>
        ensures { IfSome result (λ f. f ≡ self) }
    {
        if !self.outer.is_empty() || !self.heads.is_empty() {
            return None;
        }
        let NameTable {
            inner,
            ended,
            kept,
            ..
        } = self;
        Some(FileNames {
            open: inner,
            ended,
            kept,
        })
    }

    /// The scope that ended last and the declarator read last had the names that these had.
    pub(crate) fn recall(&mut self, alloc: Global, names: &FileNames) -> Result<(), Memory>
        ensures ok { OnOk result (self.new ≡ record self.old { ended = names.now.ended; kept = names.now.kept }) }
        ensures scopes { self.new.scopes ≡ self.old.scopes }
    {
        let ended = Vec::from_slice(alloc, names.ended.as_slice())?;
        let kept = Vec::from_slice(alloc, names.kept.as_slice())?;
        self.ended = ended;
        self.kept = kept;
        Ok(())
    }
}
