// How far a text has been read, and the steps that move on in it.
ghost use Rattle.std.specs.Prelude.{◌≡◌, ◌<◌, ◌≤◌, ◌+◌, ◌^◌, length, map, IfOk, IfErr, IfSome, [], ◌∷◌, Some, None, Err, Ok, OnOk, OnErr, IsErr};
ghost use Rattle.c99_tree.specs.Names.{outermost};
ghost use Rattle.c99_tree.specs.Tree.{collapsed};
ghost use Rattle.c99_read.specs.Answer.{Reads, Opens, Wraps, Closes, Starts, Takes, with_built, behind};
ghost use Rattle.c99_read.specs.declared.faults.ReadRefusal.TheVariants.{Syntax, Memory as NoMemory};
ghost use Rattle.c99_grammar.specs.Classes.{among};
ghost use Rattle.c99_grammar.specs.Items.{scope, end, declare, name, keep, again};
ghost use Rattle.c99_read.specs.Reading.{take_one, at_end, enter, syntax};
ghost use Rattle.c99_read.specs.State.{class_at, acted, names_opened, names_closed, nearest, finished, spelled_scopes, with_scope_ended, with_declared, last_identifier, no_names};
ghost use Rattle.c99_grammar.specs.TokenClasses.{base_class};
ghost use Rattle.c99_grammar.specs.Standard.{grammar};
ghost use Rattle.c99_read.specs.Kept.{Reading};
ghost use Rattle.c99_read.specs.Standing.{IsStand};

use crate::ahead::{Ahead, look_ahead, moved_on, spelling};
use crate::faults::ReadRefusal;
use crate::file_names::FileNames;
use crate::identifiers::last_identifier;
use crate::names::NameTable;
use crate::open_node::OpenNode;
use crate::parts::{collapses, is_declarator, is_specs};
use c99_grammar::{Class, Dialect, base_class, is_among};
use c99_tree::{Label, Production, Tree, Visible};
use cs_base::{Memory, Tok};
use std::alloc::{AllocError, Global};
use std::marker::Model;
use std::mem;

/// Contracts see the reading of specs/Kept.antt: the dialect, and the state of specs/State.antt.
#[derive(Drop)]
pub(crate) struct Reader<'a> {
    dialect: Dialect,
    toks: &'a [Tok],
    classes: Vec<Class>,
    at: usize,
    ahead: Ahead,
    names: NameTable,
    visible: Visible,
    near: bool,
    built: OpenNode,
    alloc: Global,
}

impl<'a> Model for Reader<'a> {
    ghost use Rattle.c99_grammar.specs.Standard.{grammar};
    ghost use Rattle.c99_read.specs.Kept.{Reading, IsKept};

    ghost Value = { Reading };

    ghost use Rattle.std.specs.Coded.{codes};
    ghost use Rattle.c99_tree.specs.TreeCode.{forest_code};

    ghost coded = { Prim.hlevel (codes, forest_code) };

    ghost view = { λ r. record {
      dialect = r.dialect;
      state = record { toks = r.toks.now; at = r.at; names = r.names; near = r.near; built = r.built };
    } };

    ghost invariant = { λ r. IsKept (grammar r.dialect) r.toks.now r.classes.items r.at r.names r.visible r.ahead };
}

/// What was open around a node.
#[derive(Drop)]
pub(crate) struct Outer {
    built: OpenNode,
    near: bool,
}

/// Where a node begins: at which token, and whether the nearest specifiers had the word `typedef` there.
#[derive(Clone, Copy)]
pub(crate) struct Begun {
    at: u32,
    near: bool,
}

/// Where a reader stands between two external declarations: at which token, with which names, and the node around the unit
/// as far as it is built.
#[derive(Drop)]
pub(crate) struct Stand {
    pub(crate) at: usize,
    pub(crate) names: FileNames,
    pub(crate) tree: Tree,
}

/// How deep constructs may nest.
const DEEPEST: usize = 256;

/// The label of the node around a whole text, which is that of the text.
const UNIT: Label = Label {
    production: Production::TranslationUnit,
    alternative: 1,
};

pub(crate) type Read = Result<(), ReadRefusal>;

impl<'a> Reader<'a> {
    /// Before the first token. The node that is open takes that of the whole text.
    pub(crate) fn new(
        alloc: Global,
        toks: &'a [Tok],
        dialect: Dialect,
    ) -> Result<Reader<'a>, ReadRefusal>
        requires few { length toks.now < 2 ^ 32 }
        ensures { Starts result dialect toks.now }
    {
        match classes_of(alloc, toks, dialect) {
            Ok(classes) => {
                let visible = Visible::new(alloc);
                Ok(Reader {
                    dialect,
                    toks,
                    ahead: look_ahead(dialect, toks, classes.as_slice(), &visible, 0),
                    classes,
                    at: 0,
                    names: NameTable::new(alloc),
                    visible,
                    near: false,
                    built: OpenNode::new(alloc, UNIT, 0),
                    alloc,
                })
            }
            Err(_) => Err(ReadRefusal::Memory),
        }
    }

    /// What was read: the only node of the open node, if there is one.
    pub(crate) fn into_tree(self) -> Result<Tree, Memory>
        ensures { IfOk result (λ tree. tree ≡ collapsed self.entry.state.built) }
    {
        self.built.collapsed()
    }

    /// The node around the unit.
    pub(crate) fn into_unit(self) -> Result<Tree, Memory>
        ensures { IfOk result (λ tree. tree ≡ self.entry.state.built) }
    {
        self.built.into_tree()
    }

    /// Which token is next.
    pub(crate) fn at(&self) -> usize
        ensures answer { result ≡ self.now.state.at }
        ensures within { self.now.state.at ≤ length self.now.state.toks }
    {
        self.at
    }

    /// Where the reader stands, if that is between two external declarations and it has seen the next two tokens.
    pub(crate) fn into_stand(self) -> Result<Option<Stand>, Memory>
        ensures { IfOk result (λ o. IfSome o (λ stand. IsStand stand self.entry.state)) }
    {
        let Reader {
            toks,
            at,
            names,
            near,
            built,
            ..
        } = self;
        if near || toks.len() < 2 || at >= toks.len() - 1 {
            return Ok(None);
        }
        let tree = built.into_tree()?;
        if tree.label() != UNIT || tree.first() != 0 {
            return Ok(None);
        }
        match names.into_file() {
            Some(names) => Ok(Some(Stand { at, names, tree })),
            None => Ok(None),
        }
    }

    /// Before the first token, the reader goes on at this one, with these names.
    pub(crate) fn resume(&mut self, names: &FileNames, at: usize, dialect: Dialect) -> Read
        requires by { self.old.dialect ≡ dialect }
        requires first { self.old.state.names ≡ no_names }
        requires within { at ≤ length self.old.state.toks }
        ensures by { self.new.dialect ≡ dialect }
        ensures answer { OnOk result (self.new.state ≡ record self.old.state { at = at; names = names.now }) }
        ensures memory { IfErr result (λ e. e ≡ NoMemory) }
    {
        let outcome = recall(
            self.toks,
            &mut self.names,
            &mut self.visible,
            self.alloc,
            names,
        );
        self.at = at;
        self.ahead = look_ahead(
            dialect,
            self.toks,
            self.classes.as_slice(),
            &self.visible,
            self.at,
        );
        outcome?;
        Ok(())
    }

    /// The class of the next token.
    pub(crate) fn class_here(&self, dialect: Dialect) -> Class
        requires by { self.now.dialect ≡ dialect }
        ensures { result ≡ class_at (grammar dialect) self.now.state self.now.state.at }
    {
        self.ahead.here
    }

    /// The class of the token behind the next one.
    pub(crate) fn class_behind(&self, dialect: Dialect) -> Class
        requires by { self.now.dialect ≡ dialect }
        ensures { result ≡ class_at (grammar dialect) self.now.state (self.now.state.at + 1) }
    {
        self.ahead.behind
    }

    /// The next token is of one of the classes.
    pub(crate) fn is(&self, classes: &[Class], dialect: Dialect) -> bool
        requires by { self.now.dialect ≡ dialect }
        ensures { result ≡ among classes.now (class_at (grammar dialect) self.now.state self.now.state.at) }
    {
        is_among(self.class_here(dialect), classes)
    }

    /// The token behind the next one is of one of the classes.
    pub(crate) fn is_then(&self, classes: &[Class], dialect: Dialect) -> bool
        requires by { self.now.dialect ≡ dialect }
        ensures { result ≡ among classes.now (class_at (grammar dialect) self.now.state (self.now.state.at + 1)) }
    {
        is_among(self.class_behind(dialect), classes)
    }

    /// Nothing that may follow starts here.
    pub(crate) fn syntax(&self) -> Read
        ensures { Reads result self.now.state (Err (syntax self.now.state.at)) }
    {
        Err(ReadRefusal::Syntax {
            index: self.at as u32,
        })
    }

    /// The same, in the place of a node.
    pub(crate) fn no_node(&self) -> Result<Tree, ReadRefusal>
        ensures { result ≡ Err (Syntax self.now.state.at) }
    {
        Err(ReadRefusal::Syntax {
            index: self.at as u32,
        })
    }

    #[tactic(auto, unfolding(crate::specs::Reading::take_one))]
    /// A token of one of the classes becomes a child of the open node.
    pub(crate) fn take(&mut self, classes: &[Class], dialect: Dialect) -> Read
        requires by { self.old.dialect ≡ dialect }
        ensures by { self.new.dialect ≡ dialect }
        ensures answer { Reads result self.new.state (take_one (grammar dialect) classes.now self.old.state) }
    {
        if self.at >= self.toks.len() {
            return self.syntax();
        }
        if !self.is(classes, dialect) {
            return self.syntax();
        }
        self.built.push_token(self.at as u32)?;
        self.move_on(dialect);
        Ok(())
    }

    // The token behind the next one is next.
    fn move_on(&mut self, dialect: Dialect)
        requires by { self.old.dialect ≡ dialect }
        requires within { self.old.state.at < length self.old.state.toks }
        ensures by { self.new.dialect ≡ dialect }
        ensures answer { self.new.state ≡ record self.old.state { at = self.old.state.at + 1 } }
    {
        self.ahead = moved_on(
            dialect,
            self.ahead,
            self.toks,
            self.classes.as_slice(),
            &self.visible,
            self.at,
        );
        self.at += 1;
    }

    #[tactic(auto, unfolding(crate::specs::Reading::at_end))]
    /// No token is left.
    pub(crate) fn finish(&self) -> Read
        ensures { Reads result self.now.state (at_end self.now.state) }
    {
        if self.at == self.toks.len() {
            Ok(())
        } else {
            self.syntax()
        }
    }

    #[tactic(auto, unfolding(crate::specs::Reading::enter))]
    /// One level deeper, where something starts here.
    pub(crate) fn enter(&self, depth: usize, started: bool) -> Read
        ensures answer { Reads result self.now.state (enter depth started self.now.state) }
        ensures below { OnOk result (depth < 256) }
    {
        if !started {
            return self.syntax();
        }
        if depth < DEEPEST {
            Ok(())
        } else {
            Err(ReadRefusal::TooDeep {
                index: self.at as u32,
            })
        }
    }

    /// What is put in place of what is open, before a node is opened.
    pub(crate) fn outer(&self) -> Outer {
        Outer {
            built: OpenNode::new(self.alloc, UNIT, 0),
            near: self.near,
        }
    }

    /// A node is opened. What was open before is put there, for `close`: so it lies in one place as long as the node is open.
    #[inline(never)]
    pub(crate) fn open(
        &mut self,
        production: Production,
        alternative: u8,
        outer: &mut Outer,
        dialect: Dialect,
    ) -> Read
        requires by { self.old.dialect ≡ dialect }
        ensures by { self.new.dialect ≡ dialect }
        ensures answer { Opens result outer.new self.old.state self.new.state production alternative }
    {
        open_names(&mut self.names, production)?;
        let label = Label {
            production,
            alternative,
        };
        let node = OpenNode::new(self.alloc, label, self.at as u32);
        outer.built = mem::replace(&mut self.built, node);
        outer.near = self.near;
        Ok(())
    }

    /// What a node that begins here begins with.
    pub(crate) fn begun(&self) -> Begun
        ensures at { result.at ≡ self.now.state.at }
        ensures near { result.near ≡ self.now.state.near }
    {
        Begun {
            at: self.at as u32,
            near: self.near,
        }
    }

    /// A node ends that began there, and the nearest specifiers are again those of before.
    pub(crate) fn end(&mut self, begun: Begun, dialect: Dialect)
        requires by { self.old.dialect ≡ dialect }
        ensures by { self.new.dialect ≡ dialect }
        ensures answer { self.new.state ≡ record self.old.state { near = begun.near } }
    {
        self.near = begun.near;
    }

    /// A node that began there is opened, with its first child. What was open before is put there, for `close`.
    #[inline(never)]
    pub(crate) fn wrap(
        &mut self,
        production: Production,
        alternative: u8,
        begun: Begun,
        first: Tree,
        outer: &mut Outer,
        dialect: Dialect,
    ) -> Read
        requires by { self.old.dialect ≡ dialect }
        ensures by { self.new.dialect ≡ dialect }
        ensures answer { Wraps result outer.new self.old.state self.new.state (record { production = production; alternative = alternative }) begun first }
    {
        let label = Label {
            production,
            alternative,
        };
        let mut node = OpenNode::new(self.alloc, label, begun.at);
        node.push_node(first)?;
        outer.built = mem::replace(&mut self.built, node);
        outer.near = begun.near;
        Ok(())
    }

    /// The open node is closed and given, and what was open before is open again.
    #[inline(never)]
    pub(crate) fn close(
        &mut self,
        outer: &mut Outer,
        production: Production,
        dialect: Dialect,
    ) -> Result<Tree, ReadRefusal>
        requires by { self.old.dialect ≡ dialect }
        ensures by { self.new.dialect ≡ dialect }
        ensures answer { Closes result self.old.state self.new.state production outer.old }
    {
        close_names(&mut self.names, production);
        self.near = nearest(production, &self.built, outer.near);
        let around = mem::replace(&mut outer.built, OpenNode::new(self.alloc, UNIT, 0));
        let node = mem::replace(&mut self.built, around);
        let node = finished(production, node)?;
        Ok(node)
    }

    /// The node of a production that is a token of one of the classes.
    #[inline(never)]
    pub(crate) fn single(
        &mut self,
        production: Production,
        alternative: u8,
        classes: &[Class],
        dialect: Dialect,
    ) -> Result<Tree, ReadRefusal>
        requires by { self.old.dialect ≡ dialect }
        ensures by { self.new.dialect ≡ dialect }
        ensures answer { Takes result self.old.state self.new.state (grammar dialect) (record { production = production; alternative = alternative }) classes.now }
    {
        if self.at >= self.toks.len() {
            return self.no_node();
        }
        if !self.is(classes, dialect) {
            return self.no_node();
        }
        let label = Label {
            production,
            alternative,
        };
        let mut node = Tree::new(self.alloc, label, self.at as u32);
        node.push_token(self.at as u32)?;
        self.move_on(dialect);
        Ok(node)
    }

    /// A node becomes a child of the open node.
    #[inline(never)]
    pub(crate) fn push(&mut self, node: Tree, dialect: Dialect) -> Read
        requires by { self.old.dialect ≡ dialect }
        ensures by { self.new.dialect ≡ dialect }
        ensures answer { Reads result self.new.state (Ok (with_built self.old.state (behind self.old.state.built node))) }
    {
        self.built.push_node(node)?;
        Ok(())
    }

    #[tactic(auto, unfolding(crate::specs::State::acted))]
    /// A scope begins.
    pub(crate) fn begin_scope(&mut self, dialect: Dialect) -> Read
        requires by { self.old.dialect ≡ dialect }
        ensures by { self.new.dialect ≡ dialect }
        ensures answer { Reads result self.new.state (Ok (acted (grammar dialect) scope self.old.state)) }
    {
        let outcome = begin_scope(self.toks, &mut self.names, &mut self.visible, self.alloc);
        self.ahead = look_ahead(
            dialect,
            self.toks,
            self.classes.as_slice(),
            &self.visible,
            self.at,
        );
        outcome?;
        Ok(())
    }

    #[tactic(auto, unfolding(crate::specs::State::acted))]
    /// A scope ends.
    pub(crate) fn end_scope(&mut self, dialect: Dialect) -> Read
        requires by { self.old.dialect ≡ dialect }
        ensures by { self.new.dialect ≡ dialect }
        ensures answer { Reads result self.new.state (Ok (acted (grammar dialect) end self.old.state)) }
    {
        end_scope(self.toks, &mut self.names, &mut self.visible);
        self.ahead = look_ahead(
            dialect,
            self.toks,
            self.classes.as_slice(),
            &self.visible,
            self.at,
        );
        Ok(())
    }

    // The name at a token is declared.
    fn declare_at(&mut self, name_at: u32, typedef: bool, dialect: Dialect) -> Read
        requires by { self.old.dialect ≡ dialect }
        ensures by { self.new.dialect ≡ dialect }
        ensures answer { Reads result self.new.state (Ok (record self.old.state { names = with_declared self.old.state.names (Some name_at) typedef })) }
    {
        let outcome = declare(
            self.toks,
            &mut self.names,
            &mut self.visible,
            self.alloc,
            name_at,
            typedef,
        );
        self.ahead = look_ahead(
            dialect,
            self.toks,
            self.classes.as_slice(),
            &self.visible,
            self.at,
        );
        outcome?;
        Ok(())
    }

    #[tactic(auto, unfolding(crate::specs::State::acted))]
    /// The declarator that stands just before is declared, if there is one and it has a name.
    pub(crate) fn declare(&mut self, dialect: Dialect) -> Read
        requires by { self.old.dialect ≡ dialect }
        ensures by { self.new.dialect ≡ dialect }
        ensures answer { Reads result self.new.state (Ok (acted (grammar dialect) declare self.old.state)) }
    {
        match self.built.last_declared() {
            Some(name_at) => self.declare_at(name_at, self.near, dialect),
            None => Ok(()),
        }
    }

    #[tactic(auto, unfolding(crate::specs::State::acted))]
    /// The last identifier of the open node is declared, as no typedef name.
    pub(crate) fn declare_name(&mut self, dialect: Dialect) -> Read
        requires by { self.old.dialect ≡ dialect }
        ensures by { self.new.dialect ≡ dialect }
        ensures answer { Reads result self.new.state (Ok (acted (grammar dialect) name self.old.state)) }
    {
        match self.last_identifier(dialect) {
            Some(name_at) => self.declare_at(name_at, false, dialect),
            None => Ok(()),
        }
    }

    // The last identifier among the tokens of the open node.
    fn last_identifier(&self, dialect: Dialect) -> Option<u32>
        requires by { self.now.dialect ≡ dialect }
        ensures { result ≡ last_identifier (grammar dialect) self.now.state.toks self.now.state.built.under None }
    {
        last_identifier(
            dialect,
            self.toks,
            self.classes.as_slice(),
            self.built.tokens(),
        )
    }

    #[tactic(auto, unfolding(crate::specs::State::acted))]
    /// The names of the scope just ended go to the outermost declarator that began in this scope.
    pub(crate) fn keep(&mut self, dialect: Dialect) -> Read
        requires by { self.old.dialect ≡ dialect }
        ensures by { self.new.dialect ≡ dialect }
        ensures answer { Reads result self.new.state (Ok (acted (grammar dialect) keep self.old.state)) }
    {
        self.names.keep()?;
        Ok(())
    }

    #[tactic(auto, unfolding(crate::specs::State::acted))]
    /// A scope begins, with the names that were given to the declarator read last.
    pub(crate) fn again(&mut self, dialect: Dialect) -> Read
        requires by { self.old.dialect ≡ dialect }
        ensures by { self.new.dialect ≡ dialect }
        ensures answer { Reads result self.new.state (Ok (acted (grammar dialect) again self.old.state)) }
    {
        self.begin_scope(dialect)?;
        let count = self.names.kept_len();
        'names: for k in 0..count {
            let kept = self.names.kept_at(k);
            self.declare_at(kept.name_at, kept.typedef, dialect)?;
        }
        Ok(())
    }
}

fn classes_of(alloc: Global, toks: &[Tok], dialect: Dialect) -> Result<Vec<Class>, AllocError>
    ensures { IfOk result (λ classes. classes.items ≡ map (base_class (grammar dialect)) toks.now) }
{
    toks.iter()
        .map(|tok| base_class(tok, dialect))
        .collect(alloc)
}

fn open_names(names: &mut NameTable, production: Production) -> Result<(), Memory>
    ensures ok { OnOk result (names.new ≡ names_opened production names.old) }
    ensures scopes { OnOk result (names.new.scopes ≡ names.old.scopes) }
    ensures unchanged { OnErr result (names.new.scopes ≡ names.old.scopes) }
{
    if is_declarator(production) {
        names.open_head()
    } else {
        Ok(())
    }
}

fn close_names(names: &mut NameTable, production: Production)
    ensures answer { names.new ≡ names_closed production names.old }
    ensures scopes { names.new.scopes ≡ names.old.scopes }
{
    if is_declarator(production) {
        names.close_head();
    }
}

// Whether the nearest specifiers have the word `typedef`, once the node is closed.
fn nearest(production: Production, node: &OpenNode, near: bool) -> bool
    ensures { result ≡ nearest production node.now near }
{
    if is_specs(production) {
        node.has_typedef()
    } else {
        near
    }
}

// The node as a child of what stands around it.
fn finished(production: Production, node: OpenNode) -> Result<Tree, Memory>
    ensures { IfOk result (λ tree. tree ≡ finished production node) }
{
    if collapses(production) {
        node.collapsed()
    } else {
        node.into_tree()
    }
}

fn begin_scope(
    toks: &[Tok],
    names: &mut NameTable,
    visible: &mut Visible,
    alloc: Global,
) -> Result<(), Memory>
    requires visible_of { visible.old ≡ spelled_scopes toks.now names.old.scopes }
    ensures ok { OnOk result (names.new ≡ record names.old { scopes = [] ∷ names.old.scopes }) }
    ensures visible_of { visible.new ≡ spelled_scopes toks.now names.new.scopes }
{
    match names.begin() {
        Ok(()) => (),
        Err(_) => return forget(names, visible, alloc),
    }
    match visible.push_scope() {
        Ok(()) => Ok(()),
        Err(_) => forget(names, visible, alloc),
    }
}

fn end_scope(toks: &[Tok], names: &mut NameTable, visible: &mut Visible)
    requires visible_of { visible.old ≡ spelled_scopes toks.now names.old.scopes }
    ensures answer { names.new ≡ with_scope_ended names.old names.old.scopes }
    ensures visible_of { visible.new ≡ spelled_scopes toks.now names.new.scopes }
{
    names.end();
    visible.pop_scope();
}

fn declare(
    toks: &[Tok],
    names: &mut NameTable,
    visible: &mut Visible,
    alloc: Global,
    name_at: u32,
    typedef: bool,
) -> Result<(), Memory>
    requires visible_of { visible.old ≡ spelled_scopes toks.now names.old.scopes }
    ensures ok { OnOk result (names.new ≡ with_declared names.old (Some name_at) typedef) }
    ensures visible_of { visible.new ≡ spelled_scopes toks.now names.new.scopes }
{
    match names.declare(name_at, typedef) {
        Ok(()) => (),
        Err(_) => return forget(names, visible, alloc),
    }
    match visible.declare(spelling(toks, name_at as usize), typedef) {
        Ok(()) => Ok(()),
        Err(_) => forget(names, visible, alloc),
    }
}

// The names of file scope are declared one after another, and the others are recalled.
fn recall(
    toks: &[Tok],
    names: &mut NameTable,
    visible: &mut Visible,
    alloc: Global,
    kept: &FileNames,
) -> Result<(), Memory>
    requires first { names.old ≡ no_names }
    requires visible_of { visible.old ≡ spelled_scopes toks.now names.old.scopes }
    ensures ok { OnOk result (names.new ≡ kept.now) }
    ensures visible_of { visible.new ≡ spelled_scopes toks.now names.new.scopes }
{
    let count = kept.len();
    'names: for k in 0..count {
        let d = kept.at(k);
        declare(toks, names, visible, alloc, d.name_at, d.typedef)?;
    }
    names.recall(alloc, kept)
}

// Where memory ran out no name is known any more, and the two tables still say the same.
fn forget(names: &mut NameTable, visible: &mut Visible, alloc: Global) -> Result<(), Memory>
    ensures names { names.new ≡ no_names }
    ensures visible { visible.new ≡ outermost }
    ensures memory { IsErr result }
{
    *names = NameTable::new(alloc);
    *visible = Visible::new(alloc);
    Err(Memory)
}
