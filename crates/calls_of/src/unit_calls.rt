// The calls of a unit (ISO/IEC 9899:1999, 6.5.2.2, 6.9.1, 6.10.3).
ghost use Rattle.std.specs.Prelude.{◌≡◌, ◌++◌, Some, false, length, OnOk};
ghost use Rattle.std.specs.List.{flat_map, range_with_len};
ghost use Rattle.std.specs.Option.{option_copied, option_map_or, option_to_list};
ghost use Rattle.analysis.specs.Below.scope_bind.Bound.{is_function_name};
ghost use Rattle.analysis.specs.Below.scope_bind.Names.{kind_at};
ghost use Rattle.analysis.specs.Below.unit_steps.declared.events.EventKind.TheVariants.{Replaced};
ghost use Rattle.calls_of.specs.Graphs.{event_node};
ghost use Rattle.calls_of.specs.InUnits.{first_of, function_node, macro_around, function_around, caller_of, entity_call, direct_call, replacing, replacement_call, unit_calls, function_named, unit_nodes};

use crate::call::{NamedCall, call_for, push_call};
use crate::known::Known;
use crate::named::{Named, event_node, node_named, push_node};
use crate::nodes::NodeKind;
use crate::one_unit::OneUnit;
use crate::open_bodies::body_at;
use analysis::{EntityKind, Event, EventKind, List, is_external};
use cs_base::{Memory, Pos, Tok};

impl<'a> OneUnit<'a> {
    // The first occurrence of an entity.
    fn first_of(&self, known: &Known<'a>, entity: u32) -> Option<&'a Tok>
        ensures { option_copied result ≡ first_of known.now self.now entity }
    {
        let toks = self.toks;
        let tok = toks.get(entity as usize)?;
        if is_external(self.bound.linkage(entity)) {
            known.first(self.project, tok.text())
        } else {
            Some(tok)
        }
    }

    /// The node of a function.
    pub(crate) fn function_node(&self, known: &Known<'a>, entity: u32) -> Option<Named<'a>>
        ensures { result ≡ function_node known.now self.now entity }
    {
        match self.first_of(known, entity) {
            Some(tok) => node_named(NodeKind::Function, tok),
            None => None,
        }
    }

    // The macro in whose replacement list a name stands.
    fn macro_around(&self, known: &Known<'a>, tok: &Tok) -> Option<Named<'a>>
        ensures { result ≡ macro_around known.now self.now tok.now }
    {
        match known.owner(tok) {
            Some(name) => node_named(NodeKind::Macro, name),
            None => None,
        }
    }

    // The function whose body is open behind so many tokens.
    fn function_around(&self, known: &Known<'a>, before: u32) -> Option<Named<'a>>
        ensures { result ≡ function_around known.now self.now before }
    {
        let name = body_at(&self.bodies, before)?;
        let entity = self.bound.entity(name)?;
        self.function_node(known, entity)
    }

    // The caller of a name behind so many tokens.
    fn caller_of(&self, known: &Known<'a>, before: u32, tok: &Tok) -> Option<Named<'a>>
        ensures { result ≡ caller_of known.now self.now before tok.now }
    {
        match self.macro_around(known, tok) {
            Some(node) => Some(node),
            None => self.function_around(known, before),
        }
    }

    // Whether an entity is a function.
    fn is_function(&self, entity: u32) -> bool
        ensures { result ≡ option_map_or is_function_name (kind_at self.now.bound.now.names entity) false }
    {
        match self.bound.kind(entity) {
            Some(EntityKind::Function) => true,
            _ => false,
        }
    }

    // The call of an entity by its name, token `k`, if it is a function.
    fn entity_call(
        &self,
        known: &Known<'a>,
        k: u32,
        tok: &Tok,
        entity: u32,
    ) -> Option<NamedCall<'a>>
        ensures { option_to_list result ≡ entity_call known.now self.now k tok.now entity }
    {
        if self.is_function(entity) {
            call_for(
                self.caller_of(known, k, tok),
                self.function_node(known, entity),
            )
        } else {
            None
        }
    }

    // The call whose callee is the name of a list of arguments.
    fn direct_call(&self, known: &Known<'a>, list: &List) -> Option<NamedCall<'a>>
        ensures { option_to_list result ≡ direct_call known.now self.now list.now }
    {
        let toks = self.toks;
        let tok = toks.get(list.name as usize)?;
        let entity = self.bound.entity(list.name)?;
        self.entity_call(known, list.name, tok, entity)
    }

    // The call of the macro whose name stands there in its definition, if it stands anywhere.
    fn replacing(
        &self,
        known: &Known<'a>,
        name: &'a Tok,
        def: Option<Pos>,
        before: u32,
    ) -> Option<NamedCall<'a>>
        ensures { option_to_list result ≡ replacing known.now self.now Replaced (Some name.now) def before }
    {
        match def {
            Some(at) => call_for(
                self.caller_of(known, before, name),
                Some(Named::new(NodeKind::Macro, name.text(), at)),
            ),
            None => None,
        }
    }

    // That of an event which replaces a name.
    fn replaced(&self, known: &Known<'a>, event: &'a Event) -> Option<NamedCall<'a>>
        ensures { option_to_list result ≡ replacing known.now self.now Replaced event.now.name event.now.def event.now.before }
    {
        match &event.name {
            Some(name) => self.replacing(known, name, event.def, event.before),
            None => None,
        }
    }

    // That of an event, if it replaces a name.
    fn replacement_call(&self, known: &Known<'a>, event: &'a Event) -> Option<NamedCall<'a>>
        ensures { option_to_list result ≡ replacement_call known.now self.now event.now }
    {
        match event.kind {
            EventKind::Replaced => self.replaced(known, event),
            _ => None,
        }
    }

    // Adds the call of a list of arguments.
    fn add_direct(
        &self,
        known: &Known<'a>,
        calls: &mut Vec<NamedCall<'a>>,
        list: &List,
    ) -> Result<(), Memory>
        ensures { OnOk result (calls.new.items ≡ calls.old.items ++ direct_call known.now self.now list.now) }
    {
        push_call(calls, self.direct_call(known, list))
    }

    // Adds the calls of lists of arguments.
    fn add_all_direct(
        &self,
        known: &Known<'a>,
        calls: &mut Vec<NamedCall<'a>>,
        lists: &[List],
    ) -> Result<(), Memory>
        ensures { OnOk result (calls.new.items ≡ calls.old.items ++ flat_map (direct_call known.now self.now) lists.now) }
    {
        for list in lists {
            self.add_direct(known, calls, list)?;
        }
        Ok(())
    }

    // Adds the call that an event is, if it is one.
    fn add_replacement(
        &self,
        known: &Known<'a>,
        calls: &mut Vec<NamedCall<'a>>,
        event: &'a Event,
    ) -> Result<(), Memory>
        ensures { OnOk result (calls.new.items ≡ calls.old.items ++ replacement_call known.now self.now event.now) }
    {
        push_call(calls, self.replacement_call(known, event))
    }

    // Adds the calls of macros.
    fn add_replacements(
        &self,
        known: &Known<'a>,
        calls: &mut Vec<NamedCall<'a>>,
        events: &'a [Event],
    ) -> Result<(), Memory>
        ensures { OnOk result (calls.new.items ≡ calls.old.items ++ flat_map (replacement_call known.now self.now) events.now) }
    {
        for event in events {
            self.add_replacement(known, calls, event)?;
        }
        Ok(())
    }

    /// Adds all calls in the unit.
    pub(crate) fn push_calls(
        &self,
        known: &Known<'a>,
        events: &'a [Event],
        calls: &mut Vec<NamedCall<'a>>,
    ) -> Result<(), Memory>
        ensures { OnOk result (calls.new.items ≡ calls.old.items ++ unit_calls known.now self.now events.now) }
    {
        self.add_all_direct(known, calls, self.bound.calls())?;
        self.add_replacements(known, calls, events)
    }

    // The function that token `k` is the first one of in the unit.
    fn function_named(&self, known: &Known<'a>, k: u32) -> Option<Named<'a>>
        ensures { option_to_list result ≡ function_named known.now self.now k }
    {
        if self.is_function(k) {
            self.function_node(known, k)
        } else {
            None
        }
    }

    // Adds the function that token `k` is the first one of.
    fn add_function(
        &self,
        known: &Known<'a>,
        nodes: &mut Vec<Named<'a>>,
        k: u32,
    ) -> Result<(), Memory>
        ensures { OnOk result (nodes.new.items ≡ nodes.old.items ++ function_named known.now self.now k) }
    {
        push_node(nodes, self.function_named(known, k))
    }

    // Adds the functions of the unit.
    fn add_functions(&self, known: &Known<'a>, nodes: &mut Vec<Named<'a>>) -> Result<(), Memory>
        ensures { OnOk result (nodes.new.items ≡ nodes.old.items ++ flat_map (function_named known.now self.now) (range_with_len 0 (length self.now.toks.now))) }
    {
        if self.toks.len() > u32::MAX as usize {
            return Err(Memory);
        }
        for k in 0..self.toks.len() {
            self.add_function(known, nodes, k as u32)?;
        }
        Ok(())
    }

    /// Adds the macros that the unit defines, and its functions.
    pub(crate) fn push_nodes(
        &self,
        known: &Known<'a>,
        events: &'a [Event],
        nodes: &mut Vec<Named<'a>>,
    ) -> Result<(), Memory>
        ensures { OnOk result (nodes.new.items ≡ nodes.old.items ++ unit_nodes known.now self.now events.now) }
    {
        add_all_defined(nodes, events)?;
        self.add_functions(known, nodes)
    }
}

// Adds the macro that an event defines, if it does.
fn add_defined<'a>(nodes: &mut Vec<Named<'a>>, event: &'a Event) -> Result<(), Memory>
    ensures { OnOk result (nodes.new.items ≡ nodes.old.items ++ event_node event.now) }
{
    push_node(nodes, event_node(event))
}

// Adds the macros that `define` lines define.
fn add_all_defined<'a>(nodes: &mut Vec<Named<'a>>, events: &'a [Event]) -> Result<(), Memory>
    ensures { OnOk result (nodes.new.items ≡ nodes.old.items ++ flat_map event_node events.now) }
{
    for event in events {
        add_defined(nodes, event)?;
    }
    Ok(())
}
