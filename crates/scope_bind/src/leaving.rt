// What is known once a node is left: what it declares, and the frame around it.
ghost use Rattle.std.specs.Prelude.{◌≡◌, ◌==◌, [], if◌then◌else◌, OnOk};
ghost use Rattle.name_chains.specs.Members.{with_anonymous};
ghost use Rattle.scope_bind.specs.Known.{known};
ghost use Rattle.scope_bind.specs.Walk.{declared_in, parameter_in, facts_after, kept_after, frame_after};

use crate::expressions::found_after;
use crate::facts::Facts;
use crate::initializers::position_after;
use crate::tags::number_in;
use c_types::{Body, Frame, first_list, is_node, last_token, name_below, words_of};
use c99_tree::{Production, Tree};
use cs_base::{Memory, Tok};
use std::alloc::Global;

impl Facts<'_> {
    // A declarator is complete.
    fn declare_in(&mut self, f: &Frame, tree: &Tree) -> Result<(), Memory>
        ensures { OnOk result (self.new ≡ known self.old.toks (declared_in self.old.toks f.now.label.production f.now tree.now.label tree.now.under self.old.facts)) }
    {
        match f.label.production {
            Production::ExtRest => self.declare_object(f, tree, name_below(tree)),
            Production::InitDecl => self.declare_object(f, tree, name_below(tree)),
            Production::Mdecl => self.declare_member_name(f, tree, name_below(tree)),
            _ => Ok(()),
        }
    }

    fn parameter_in(&mut self, f: &Frame, tree: &Tree) -> Result<(), Memory>
        ensures { OnOk result (self.new ≡ known self.old.toks (parameter_in self.old.toks f.now.label.production f.now tree.now.label tree.now.under self.old.facts)) }
    {
        match f.label.production {
            Production::Param => self.declare_parameter(f, tree, name_below(tree)),
            _ => Ok(()),
        }
    }

    // A member without a declarator, where a semicolon alone stands behind its specifiers.
    fn close_member(&mut self, alloc: Global, f: &Frame, tree: &Tree) -> Result<(), Memory>
        ensures { OnOk result (self.new ≡ known self.old.toks (if tree.now.label.alternative == 1 then with_anonymous self.old.toks f.now tree.now.first self.old.facts else self.old.facts)) }
    {
        if tree.label().alternative == 1 {
            self.declare_anonymous(alloc, f, tree.first())
        } else {
            Ok(())
        }
    }

    /// A node is left.
    #[inline(never)]
    pub fn leave(
        &mut self,
        alloc: Global,
        f: &Frame,
        tree: &Tree,
        body: Option<Body>,
    ) -> Result<(), Memory>
        ensures { OnOk result (self.new ≡ known self.old.toks (facts_after self.old.toks tree.now.label.production tree.now.first f.now tree.now.label tree.now.under body self.old.facts)) }
    {
        match tree.label().production {
            Production::Declarator => self.declare_in(f, tree),
            Production::Pdecl => self.parameter_in(f, tree),
            Production::Enumerator => {
                let last = last_token(tree, tree.first());
                self.declare_enumerator(alloc, f, tree.first(), last)
            }
            Production::MemRest => self.close_member(alloc, f, tree),
            Production::Members => self.complete(number_in(&f.found)),
            Production::Enumerators => self.complete(number_in(&f.found)),
            Production::FunBody => self.join_jumps(body),
            _ => Ok(()),
        }
    }
}

fn kept_after(f: &Frame, tree: &Tree) -> Option<u32>
    ensures { result ≡ kept_after [] f.now tree.now.label tree.now.under }
{
    if is_node(tree.label(), Production::Declarator) {
        first_list(tree)
    } else {
        f.kept
    }
}

/// A child is left: the frame around goes on with what it has found.
#[inline(never)]
pub(crate) fn go_on(
    alloc: Global,
    toks: &[Tok],
    f: &mut Frame,
    tree: &Tree,
    child: &Frame,
) -> Result<(), Memory>
    ensures { OnOk result (f.new ≡ frame_after toks.now f.old tree.now.label tree.now.under child.now) }
{
    let nth = match f.nth.checked_add(1) {
        Some(nth) => nth,
        None => return Err(Memory),
    };
    let found = found_after(alloc, toks, f, tree, child)?;
    let position = position_after(f, tree, child)?;
    let kept = kept_after(f, tree);
    if is_node(tree.label(), Production::Specs) {
        f.base = child.found.copied()?;
        f.words = words_of(tree);
    }
    f.nth = nth;
    f.kept = kept;
    f.found = found;
    f.position = position;
    Ok(())
}
