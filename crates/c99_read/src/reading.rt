// Reading by the table: a production, the items of an alternative, and repetitions.
ghost use Rattle.std.specs.Prelude.{ℕ, ◌≡◌, ◌≤◌, ◌<◌, ◌+◌, nat_lt, true, Ok, IfOk, OnOk};
ghost use Rattle.std.specs.Option.{option_map};
ghost use Rattle.c99_read.specs.Answer.{IsBegun, Reads, ReadsNode};
ghost use Rattle.c99_grammar.specs.Items.{choice, deep, many, maybe, own, part, ◌·◌};
ghost use Rattle.c99_grammar.specs.ItemsOf.{action_of, item_of, test_of};
ghost use Rattle.c99_read.specs.Choosing.{choice_of, chosen};
ghost use Rattle.c99_read.specs.Leading.{CanBeLeftOut};
ghost use Rattle.c99_read.specs.Levels.{height, level_of, size, Met};
ghost use Rattle.c99_read.specs.Operators.{is_binary, operand_of, rest_of, rung, rungs};
ghost use Rattle.c99_read.specs.Reading.{may, step, alternative, whole, produce, repeat};
ghost use Rattle.c99_read.specs.Sound.{is_met};
ghost use Rattle.c99_grammar.specs.Standard.{grammar};
ghost use Rattle.c99_read.specs.State.{State, acted, class_at, collapses};
ghost use Rattle.c99_read.specs.Fronts.{external, externals, behind_children, IsSameNode};
ghost use Rattle.c99_tree.specs.Tree.{Forest};
ghost use Rattle.c99_tree.specs.declared.production.Production.TheVariants.{Cast, External};

use crate::chosen::Chosen;
use crate::faults::ReadRefusal;
use crate::leads::{Lead, lead_of};
use crate::operators::{is_assign, is_binary, is_sign, over, rest_of, rung_of, rungs};
use crate::reader::{Begun, Read, Reader};
use c99_grammar::{Action, Dialect, Item, Test, alternatives, holds, production_starts, starts};
use c99_tree::{Production, Tree};
use cs_base::Memory;

impl<'a> Reader<'a> {
    #[cycle(reading)]
    /// A production, at a depth.
    pub(crate) fn produce(&mut self, depth: usize, production: Production, dialect: Dialect) -> Read
        requires by { self.old.dialect ≡ dialect }
        requires deep { depth ≤ 256 }
        ensures by { self.new.dialect ≡ dialect }
        ensures answer { Reads result self.new.state (whole (grammar dialect) depth (produce production) self.old.state) }
    {
        let node = self.node(depth, production, dialect)?;
        self.push(node, dialect)
    }

    #[cycle(reading)]
    #[inline(never)]
    // The node of a production, which does not depend on the open node.
    fn node(
        &mut self,
        depth: usize,
        production: Production,
        dialect: Dialect,
    ) -> Result<Tree, ReadRefusal>
        requires by { self.old.dialect ≡ dialect }
        requires deep { depth ≤ 256 }
        ensures by { self.new.dialect ≡ dialect }
        ensures answer { ReadsNode result self.old.state self.new.state (whole (grammar dialect) depth (produce production)) }
    {
        if is_binary(production) {
            if self.begins(Production::Cast, dialect) {
                return self.binary(depth, production, dialect);
            }
            return self.no_node();
        }
        match self.chosen(production, dialect) {
            Some(chosen) => {
                self.alternative(depth, production, chosen.number, chosen.body, dialect)
            }
            None => self.no_node(),
        }
    }

    #[cycle(reading)]
    // The node of an operand and of what operators join to it: the innermost operand is read, and then each production
    // over it, from the innermost out. Most have no operator, and are their operand. All of them have one frame.
    fn binary(
        &mut self,
        depth: usize,
        production: Production,
        dialect: Dialect,
    ) -> Result<Tree, ReadRefusal>
        requires by { self.old.dialect ≡ dialect }
        requires deep { depth ≤ 256 }
        requires binary { is_binary production ≡ true }
        requires starts { may (grammar dialect) own (part Cast) self.old.state ≡ true }
        ensures by { self.new.dialect ≡ dialect }
        ensures answer { ReadsNode result self.old.state self.new.state (whole (grammar dialect) depth (produce production)) }
    {
        let begun = self.begun();
        let mut node = self.node(depth, Production::Cast, dialect)?;
        let mut read = Production::Cast;
        let mut left = rungs(production);
        'rungs: while left > 0 {
            // Mostly no operator follows, and nothing is joined any more.
            if self.is_past(production, dialect) {
                self.end(begun, dialect);
                return Ok(node);
            }
            read = over(read);
            node = self.over_first(depth, read, begun, node, dialect)?;
            left -= 1;
        }
        Ok(node)
    }

    #[cycle(reading)]
    // The node of a production whose first operand was read: that operand, where no operator follows.
    fn over_first(
        &mut self,
        depth: usize,
        production: Production,
        begun: Begun,
        first: Tree,
        dialect: Dialect,
    ) -> Result<Tree, ReadRefusal>
        requires by { self.old.dialect ≡ dialect }
        requires deep { depth ≤ 256 }
        requires binary { is_binary production ≡ true }
        ensures by { self.new.dialect ≡ dialect }
        ensures answer { (s : State) → IsBegun begun s → may (grammar dialect) own (part Cast) s ≡ true
            → ReadsNode (Ok first) s self.old.state (whole (grammar dialect) depth (produce (operand_of production)))
            → ReadsNode result s self.new.state (whole (grammar dialect) depth (produce production)) }
    {
        if self.goes_on(production, dialect) {
            let rest = rest_of(production, dialect);
            self.joined(depth, production, 1, begun, first, rest, dialect)
        } else {
            self.end(begun, dialect);
            Ok(first)
        }
    }

    #[cycle(reading)]
    #[inline(never)]
    // A node is opened for the child that was read first, and what follows is read.
    fn joined(
        &mut self,
        depth: usize,
        production: Production,
        number: u8,
        begun: Begun,
        first: Tree,
        rest: &Item,
        dialect: Dialect,
    ) -> Result<Tree, ReadRefusal>
        requires by { self.old.dialect ≡ dialect }
        requires deep { depth ≤ 256 }
        requires optional { CanBeLeftOut production (item_of rest.now) }
        requires low { height (item_of rest.now) ≤ level_of production }
        requires short { size (item_of rest.now) < 100 }
        requires met { Met (item_of rest.now) }
        ensures by { self.new.dialect ≡ dialect }
        ensures answer { (s : State) (below : Production) → IsBegun begun s
            → ReadsNode (Ok first) s self.old.state (whole (grammar dialect) depth (produce below))
            → ReadsNode result s self.new.state (alternative (grammar dialect) (whole (grammar dialect)) depth production number (part below · item_of rest.now)) }
    {
        let mut outer = self.outer();
        self.wrap(production, number, begun, first, &mut outer, dialect)?;
        self.item(depth, rest, dialect)?;
        self.close(&mut outer, production, dialect)
    }

    // An operator of the production is next.
    fn goes_on(&self, production: Production, dialect: Dialect) -> bool
        requires by { self.now.dialect ≡ dialect }
        requires binary { is_binary production ≡ true }
        ensures { result ≡ may (grammar dialect) own (rest_of production dialect) self.now.state }
    {
        if is_assign(production) {
            self.begins(Production::Asgop, dialect)
        } else {
            is_sign(production, self.class_here(dialect))
        }
    }

    // No operator of the production, or of one that stands under it, is next.
    fn is_past(&self, production: Production, dialect: Dialect) -> bool
        requires by { self.now.dialect ≡ dialect }
        ensures { result ≡ nat_lt (rungs production) (rung (class_at (grammar dialect) self.now.state self.now.state.at)) }
    {
        rungs(production) < rung_of(self.class_here(dialect))
    }

    // The first alternative that may be read here.
    fn chosen(&self, production: Production, dialect: Dialect) -> Option<Chosen>
        requires by { self.now.dialect ≡ dialect }
        ensures { option_map choice_of result ≡ chosen (grammar dialect) self.now.state 1 ((grammar dialect).table production) }
    {
        let rows = alternatives(production, dialect);
        let count = rows.len();
        'turns: for k in 0..count {
            let row = &rows[k];
            if self.may(&row.test, &row.body, dialect) {
                return Some(Chosen {
                    number: k as u8 + 1,
                    body: &row.body,
                });
            }
        }
        None
    }

    // The item may be read here.
    fn may(&self, test: &Test, item: &Item, dialect: Dialect) -> bool
        requires by { self.now.dialect ≡ dialect }
        ensures { result ≡ may (grammar dialect) (test_of test.now) (item_of item.now) self.now.state }
    {
        holds(
            test,
            self.starts_here(item, dialect),
            self.class_here(dialect),
            self.class_behind(dialect),
            dialect,
        )
    }

    // The item starts here.
    fn starts_here(&self, item: &Item, dialect: Dialect) -> bool
        requires by { self.now.dialect ≡ dialect }
        ensures { result ≡ may (grammar dialect) own (item_of item.now) self.now.state }
    {
        starts(
            item,
            self.class_here(dialect),
            self.class_behind(dialect),
            dialect,
        )
    }

    // The production starts here.
    fn begins(&self, production: Production, dialect: Dialect) -> bool
        requires by { self.now.dialect ≡ dialect }
        ensures { result ≡ may (grammar dialect) own (part production) self.now.state }
    {
        production_starts(
            production,
            self.class_here(dialect),
            self.class_behind(dialect),
            dialect,
        )
    }

    #[cycle(reading)]
    // The node of an alternative. Where its node may be left out, the first child is read before it is opened.
    fn alternative(
        &mut self,
        depth: usize,
        production: Production,
        number: u8,
        body: &'static Item,
        dialect: Dialect,
    ) -> Result<Tree, ReadRefusal>
        requires by { self.old.dialect ≡ dialect }
        requires deep { depth ≤ 256 }
        requires low { height (item_of body.now) ≤ level_of production }
        requires short { size (item_of body.now) < 100 }
        requires met { Met (item_of body.now) }
        ensures by { self.new.dialect ≡ dialect }
        ensures answer { ReadsNode result self.old.state self.new.state (alternative (grammar dialect) (whole (grammar dialect)) depth production number (item_of body.now)) }
    {
        match lead_of(production, body) {
            Lead::Alone(first) => self.alone(depth, first, dialect),
            Lead::Before(first, rest) => self.led(depth, production, number, first, rest, dialect),
            Lead::Single(classes) => self.single(production, number, classes, dialect),
            Lead::Otherwise => self.opened(depth, production, number, body, dialect),
        }
    }

    #[cycle(reading)]
    // The node of an alternative that is one production, where it is left out.
    fn alone(
        &mut self,
        depth: usize,
        first: Production,
        dialect: Dialect,
    ) -> Result<Tree, ReadRefusal>
        requires by { self.old.dialect ≡ dialect }
        requires deep { depth ≤ 256 }
        ensures by { self.new.dialect ≡ dialect }
        ensures answer { (p : Production) (n : ℕ) → collapses p ≡ true
            → ReadsNode result self.old.state self.new.state (alternative (grammar dialect) (whole (grammar dialect)) depth p n (part first)) }
    {
        let begun = self.begun();
        let node = self.node(depth, first, dialect)?;
        self.end(begun, dialect);
        Ok(node)
    }

    #[cycle(reading)]
    // The node of an alternative that begins with a production and may end there.
    fn led(
        &mut self,
        depth: usize,
        production: Production,
        number: u8,
        first: Production,
        rest: &'static Item,
        dialect: Dialect,
    ) -> Result<Tree, ReadRefusal>
        requires by { self.old.dialect ≡ dialect }
        requires deep { depth ≤ 256 }
        requires optional { CanBeLeftOut production (item_of rest.now) }
        requires first { level_of first < level_of production }
        requires low { height (item_of rest.now) ≤ level_of production }
        requires short { size (item_of rest.now) < 100 }
        requires met { Met (item_of rest.now) }
        ensures by { self.new.dialect ≡ dialect }
        ensures answer { ReadsNode result self.old.state self.new.state (alternative (grammar dialect) (whole (grammar dialect)) depth production number (part first · item_of rest.now)) }
    {
        let begun = self.begun();
        let node = self.node(depth, first, dialect)?;
        if self.starts_here(rest, dialect) {
            self.joined(depth, production, number, begun, node, rest, dialect)
        } else {
            self.end(begun, dialect);
            Ok(node)
        }
    }

    #[cycle(reading)]
    // A node is opened, its items are read, and it is closed.
    fn opened(
        &mut self,
        depth: usize,
        production: Production,
        number: u8,
        body: &Item,
        dialect: Dialect,
    ) -> Result<Tree, ReadRefusal>
        requires by { self.old.dialect ≡ dialect }
        requires deep { depth ≤ 256 }
        requires low { height (item_of body.now) ≤ level_of production }
        requires short { size (item_of body.now) < 100 }
        requires met { Met (item_of body.now) }
        ensures by { self.new.dialect ≡ dialect }
        ensures answer { ReadsNode result self.old.state self.new.state (alternative (grammar dialect) (whole (grammar dialect)) depth production number (item_of body.now)) }
    {
        let mut outer = self.outer();
        self.open(production, number, &mut outer, dialect)?;
        self.item(depth, body, dialect)?;
        self.close(&mut outer, production, dialect)
    }

    #[cycle(reading)]
    // An item.
    fn item(&mut self, depth: usize, item: &Item, dialect: Dialect) -> Read
        requires by { self.old.dialect ≡ dialect }
        requires deep { depth ≤ 256 }
        requires met { Met (item_of item.now) }
        ensures by { self.new.dialect ≡ dialect }
        ensures answer { Reads result self.new.state (step (grammar dialect) (whole (grammar dialect)) depth (item_of item.now) self.old.state) }
    {
        match item {
            Item::One(classes) => self.take(classes, dialect),
            Item::Part(production) => self.produce(depth, *production, dialect),
            Item::EndOfText => self.finish(),
            Item::Act(action) => self.act(action, dialect),
            Item::Then(first, second) => {
                self.item(depth, first, dialect)?;
                self.item(depth, second, dialect)
            }
            Item::Choice(first, second) => self.either(depth, first, second, dialect),
            Item::Maybe(only) => self.maybe(depth, only, dialect),
            Item::Many(test, only) => self.repeated(depth, test, only, dialect),
            Item::Deep(production) => self.deep(depth, *production, dialect),
        }
    }

    #[cycle(reading)]
    // The first of two items that starts.
    fn either(&mut self, depth: usize, first: &Item, second: &Item, dialect: Dialect) -> Read
        requires by { self.old.dialect ≡ dialect }
        requires deep { depth ≤ 256 }
        requires first { Met (item_of first.now) }
        requires second { Met (item_of second.now) }
        ensures by { self.new.dialect ≡ dialect }
        ensures answer { Reads result self.new.state (step (grammar dialect) (whole (grammar dialect)) depth (choice (item_of first.now) (item_of second.now)) self.old.state) }
    {
        if self.starts_here(first, dialect) {
            self.item(depth, first, dialect)
        } else if self.starts_here(second, dialect) {
            self.item(depth, second, dialect)
        } else {
            self.syntax()
        }
    }

    #[cycle(reading)]
    // An item at most once.
    fn maybe(&mut self, depth: usize, item: &Item, dialect: Dialect) -> Read
        requires by { self.old.dialect ≡ dialect }
        requires deep { depth ≤ 256 }
        requires met { Met (item_of item.now) }
        ensures by { self.new.dialect ≡ dialect }
        ensures answer { Reads result self.new.state (step (grammar dialect) (whole (grammar dialect)) depth (maybe (item_of item.now)) self.old.state) }
    {
        if self.starts_here(item, dialect) {
            self.item(depth, item, dialect)
        } else {
            Ok(())
        }
    }

    #[cycle(reading)]
    // An item any number of times.
    fn repeated(&mut self, depth: usize, test: &Test, item: &Item, dialect: Dialect) -> Read
        requires by { self.old.dialect ≡ dialect }
        requires deep { depth ≤ 256 }
        requires repeated { is_met (repeat (test_of test.now) (item_of item.now)) ≡ true }
        requires met { Met (item_of item.now) }
        ensures by { self.new.dialect ≡ dialect }
        ensures answer { Reads result self.new.state (step (grammar dialect) (whole (grammar dialect)) depth (many (test_of test.now) (item_of item.now)) self.old.state) }
    {
        'turns: while self.may(test, item, dialect) {
            self.item(depth, item, dialect)?;
        }
        Ok(())
    }

    #[cycle(reading)]
    // A production one level deeper.
    fn deep(&mut self, depth: usize, production: Production, dialect: Dialect) -> Read
        requires by { self.old.dialect ≡ dialect }
        requires deep { depth ≤ 256 }
        ensures by { self.new.dialect ≡ dialect }
        ensures answer { Reads result self.new.state (step (grammar dialect) (whole (grammar dialect)) depth (deep (part production)) self.old.state) }
    {
        self.enter(depth, self.begins(production, dialect))?;
        self.produce(depth + 1, production, dialect)
    }

    // What is done between items.
    fn act(&mut self, action: &Action, dialect: Dialect) -> Read
        requires by { self.old.dialect ≡ dialect }
        ensures by { self.new.dialect ≡ dialect }
        ensures answer { Reads result self.new.state (Ok (acted (grammar dialect) (action_of action.now) self.old.state)) }
    {
        match action {
            Action::Scope => self.begin_scope(dialect),
            Action::End => self.end_scope(dialect),
            Action::Declare => self.declare(dialect),
            Action::Name => self.declare_name(dialect),
            Action::Keep => self.keep(dialect),
            Action::Again => self.again(dialect),
        }
    }

    /// An external declaration, if one starts here.
    fn external(&mut self, dialect: Dialect) -> Read
        requires by { self.old.dialect ≡ dialect }
        ensures by { self.new.dialect ≡ dialect }
        ensures answer { Reads result self.new.state (external (grammar dialect) self.old.state) }
    {
        if !self.begins(Production::External, dialect) {
            return self.syntax();
        }
        self.produce(0, Production::External, dialect)
    }

    /// External declarations up to this token or one behind it, and how many these are.
    pub(crate) fn externals_to(&mut self, end: usize, dialect: Dialect) -> Result<u32, ReadRefusal>
        requires by { self.old.dialect ≡ dialect }
        ensures answer { IfOk result (λ k. externals (grammar dialect) k self.old.state ≡ Ok self.new.state) }
    {
        let mut count = 0;
        'turns: while self.at() < end {
            self.external(dialect)?;
            count = next_count(count)?;
        }
        Ok(count)
    }

    /// External declarations as long as one starts. What they become does not depend on the children that the open node has.
    pub(crate) fn externals(&mut self, dialect: Dialect) -> Read
        requires by { self.old.dialect ≡ dialect }
        ensures by { self.new.dialect ≡ dialect }
        ensures answer { (f : Forest) → Reads result (behind_children f self.new.state)
            (step (grammar dialect) (whole (grammar dialect)) 0 (many own (part External)) (behind_children f self.old.state)) }
        ensures unit { OnOk result (IsSameNode self.old.state.built self.new.state.built) }
    {
        'turns: while self.begins(Production::External, dialect) {
            let node = self.node(0, Production::External, dialect)?;
            self.push(node, dialect)?;
        }
        Ok(())
    }
}

fn next_count(count: u32) -> Result<u32, Memory>
    ensures { IfOk result (λ n. n ≡ count + 1) }
{
    match count.checked_add(1) {
        Some(next) => Ok(next),
        None => Err(Memory),
    }
}
