// Reports over an analysis, by what is asked.
ghost use Rattle.std.specs.Prelude.{◌≡◌};
ghost use Rattle.command_words.specs.Asking.{class_value, report_value};
ghost use Rattle.command_words.specs.Request.{calls_asked, class_asked, find_asked};
ghost use Rattle.cscout_run.specs.Asks.{IsReportAnswer};
ghost use Rattle.cscout_run.specs.Shapes.{shown};
ghost use Rattle.cscout_run.specs.Steps.{IsQueried, Tells, find_stop};

use crate::stops::{Stop, Why};
use analysis::Analysis;
use calls_of::{graph, print_calls};
use command_words::Report;
use command_words::requests::NamedClass;
use cs_base::{Place, normal_path};
use find_names::{FindRefusal, find};
use offences::Refusal;
use query_report::{Query, QueryRefusal, report};
use std::alloc::Global;

/// The text of the report that is asked for.
pub(crate) fn report_of(alloc: Global, a: &Analysis, asked: &Report<'_>) -> Result<Vec<u8>, Stop>
    ensures { Tells (λ text. shown text.items) (IsReportAnswer (report_value asked.now) a.now.value) result }
{
    match asked {
        Report::Class(q) => class_of_name(alloc, a, q),
        Report::Unused => queried(alloc, a, &Query::Unused),
        Report::Includes => queried(alloc, a, &Query::Includes),
        Report::Calls => calls(alloc, a),
        Report::Find(query) => found(alloc, a, query),
    }
}

// The class of a name.
fn class_of_name(alloc: Global, a: &Analysis, q: &NamedClass<'_>) -> Result<Vec<u8>, Stop>
    ensures { Tells (λ text. shown text.items) (IsReportAnswer (class_asked (class_value q.now)) a.now.value) result }
{
    let path = normal_path(alloc, q.path.as_bytes())?;
    let named = Query::Class(Place {
        path,
        line: q.line,
        column: q.column,
    });
    queried(alloc, a, &named)
}

// A query of three kinds.
fn queried(alloc: Global, a: &Analysis, q: &Query) -> Result<Vec<u8>, Stop>
    ensures { Tells (λ text. shown text.items) (IsQueried q.now a.now.value) result }
{
    match report(alloc, a, q) {
        Ok(text) => Ok(text),
        Err(QueryRefusal::NoName) => Err(Stop::Refused(Why::Refusal(Refusal::NoName))),
        Err(QueryRefusal::Memory) => Err(Stop::Memory),
    }
}

// Who calls whom.
fn calls(alloc: Global, a: &Analysis) -> Result<Vec<u8>, Stop>
    ensures { Tells (λ text. shown text.items) (IsReportAnswer calls_asked a.now.value) result }
{
    let calls = graph(alloc, a)?;
    Ok(print_calls(alloc, a, &calls)?)
}

// The classes that satisfy a query.
fn found(alloc: Global, a: &Analysis, query: &str) -> Result<Vec<u8>, Stop>
    ensures { Tells (λ text. shown text.items) (IsReportAnswer (find_asked query.now) a.now.value) result }
{
    match find(alloc, a, query.as_bytes()) {
        Ok(text) => Ok(text),
        Err(refusal) => Err(find_stop(refusal)),
    }
}

// Why nothing is found, as an early end of the run.
fn find_stop(refusal: FindRefusal) -> Stop
    ensures { result ≡ find_stop refusal }
{
    match refusal {
        FindRefusal::BadQuery { at } => Stop::Refused(Why::BadQuery(at)),
        FindRefusal::TooDeep { at } => Stop::Refused(Why::DeepQuery(at)),
        FindRefusal::Memory => Stop::Memory,
    }
}
