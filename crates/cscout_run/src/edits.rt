// Edits over an analysis, by what is asked.
ghost use Rattle.std.specs.Prelude.{◌≡◌, IfOk, IsUtf8};
ghost use Rattle.offences.specs.Answers.{GivesOne};
ghost use Rattle.offences.specs.Refusals.{refusal_of};
ghost use Rattle.command_words.specs.Asking.{edit_value, rename_value, template_value};
ghost use Rattle.command_words.specs.Request.{rename_asked, template_asked, macro_asked};
ghost use Rattle.cscout_run.specs.Asks.{IsEdit, KeepsOver};

use analysis::Analysis;
use command_words::requests::{Rename, Reordering};
use command_words::{Edit, order_of};
use cs_base::{Edits, Text, normal_path};
use macro_plan::plan_macro;
use offences::PlanFault;
use rename_plan::plan_rename;
use std::alloc::Global;
use std::str;
use template_plan::plan_template;

/// The edits that are asked for, or why they are refused.
pub(crate) fn edits_of(alloc: Global, a: &Analysis, edit: &Edit<'_>) -> Result<Edits, PlanFault>
    ensures answer { GivesOne (λ edits. edits) refusal_of result (IsEdit (edit_value edit.now) a.now.value) }
    // Over each source with this analysis, once the edits are made, what is promised of the edit is kept.
    ensures keeps { IfOk result (λ edits. KeepsOver (edit_value edit.now) a.now.value edits) }
{
    match edit {
        Edit::Renaming(q) => renaming(alloc, a, q),
        Edit::Template(q) => reordering(alloc, a, q),
        Edit::Macro(q) => turning(alloc, a, q),
    }
}

// The edits of a renaming.
fn renaming(alloc: Global, a: &Analysis, q: &Rename<'_>) -> Result<Edits, PlanFault>
    ensures answer { GivesOne (λ edits. edits) refusal_of result (IsEdit (rename_asked (rename_value q.now)) a.now.value) }
    ensures keeps { IfOk result (λ edits. KeepsOver (rename_asked (rename_value q.now)) a.now.value edits) }
{
    let path = normal_path(alloc, q.path.as_bytes())?;
    plan_rename(
        alloc,
        a,
        path_text(&path),
        q.line,
        q.column,
        q.name.as_bytes(),
        q.strings,
    )
}

// The edits of a new order of parameters.
fn reordering(alloc: Global, a: &Analysis, q: &Reordering<'_>) -> Result<Edits, PlanFault>
    ensures answer { GivesOne (λ edits. edits) refusal_of result (IsEdit (template_asked (template_value q.now)) a.now.value) }
    ensures keeps { IfOk result (λ edits. KeepsOver (template_asked (template_value q.now)) a.now.value edits) }
{
    let path = normal_path(alloc, q.path.as_bytes())?;
    let order = order_of(alloc, q.order.as_bytes())?;
    plan_template(alloc, a, path_text(&path), q.line, q.column, &order)
}

// The edits of a new order of a macro's parameters.
fn turning(alloc: Global, a: &Analysis, q: &Reordering<'_>) -> Result<Edits, PlanFault>
    ensures answer { GivesOne (λ edits. edits) refusal_of result (IsEdit (macro_asked (template_value q.now)) a.now.value) }
    ensures keeps { IfOk result (λ edits. KeepsOver (macro_asked (template_value q.now)) a.now.value edits) }
{
    let path = normal_path(alloc, q.path.as_bytes())?;
    let order = order_of(alloc, q.order.as_bytes())?;
    plan_macro(alloc, a, path_text(&path), q.line, q.column, &order)
}

/// The path as text.
pub(crate) fn path_text(path: &Text) -> &str
    requires { IsUtf8 path.now }
    ensures { result.now ≡ path.now }
{
    match str::from_utf8(path.bytes()) {
        Ok(text) => text,
        Err(_) => unreachable!(),
    }
}
