// The message of an early end, told in pieces: it wants no memory.
ghost use Rattle.std.specs.Prelude.{◌≡◌};
ghost use Rattle.batch_run.specs.Batch.{refusal_line};
ghost use Rattle.cscout_run.specs.Stopping.{status_of, line_of, fault_line, why_line};
ghost use Rattle.command_words.specs.Telling.{Told};

use crate::status::Status;
use crate::stops::{Fault, Stop, Why};
use command_words::{tell, tell_batch, tell_line, tell_offence, tell_query, tell_unit};
use cs_base::Sink;
use offences::Refusal;

/// Tells the line of an early end, and gives its status. `ws` is the workspace file.
pub fn tell_stop<E: Sink>(err: &mut E, ws: &str, stop: &Stop) -> Status
    ensures status { result ≡ status_of stop.now }
    ensures told { Told (line_of ws.now stop.now)
        (E.bytes err.old) (E.bytes err.new) (E.failed_writes err.old) (E.failed_writes err.new) }
{
    match stop {
        Stop::Workspace(fault) => {
            tell_fault(err, ws, fault);
            Status::Workspace
        }
        Stop::Unread(path) => {
            tell(err, &[b"cannot read ", path.bytes()]);
            Status::ReadFault
        }
        Stop::Refused(why) => {
            tell_why(err, why);
            Status::Refused
        }
        Stop::Memory => {
            tell(err, &[b"out of memory"]);
            Status::Memory
        }
    }
}

// A workspace that is not there or not accepted.
fn tell_fault<E: Sink>(err: &mut E, ws: &str, fault: &Fault)
    ensures { Told (fault_line ws.now fault.now)
        (E.bytes err.old) (E.bytes err.new) (E.failed_writes err.old) (E.failed_writes err.new) }
{
    match fault {
        Fault::Absent => tell(err, &[b"no workspace file ", ws.as_bytes()]),
        Fault::BadLine { line } => tell_line(err, ws.as_bytes(), *line, b"bad workspace line"),
        Fault::TooManyUnits { line } => tell_line(err, ws.as_bytes(), *line, b"too many units"),
        Fault::Unit { unit, place, cause } => tell_unit(err, *unit, place, *cause),
    }
}

// A refusal of what is asked for.
fn tell_why<E: Sink>(err: &mut E, why: &Why)
    ensures { Told (why_line why.now)
        (E.bytes err.old) (E.bytes err.new) (E.failed_writes err.old) (E.failed_writes err.new) }
{
    match why {
        Why::NoUnit => tell(err, &[b"refused: ", b"no unit"]),
        Why::BadBatch(line) => tell_batch(err, *line),
        Why::BadQuery(at) => tell_query(err, b"bad query", *at),
        Why::DeepQuery(at) => tell_query(err, b"query too deep", *at),
        Why::Refusal(refusal) => tell_refusal(err, refusal),
    }
}

// A refusal of an edit.
fn tell_refusal<E: Sink>(err: &mut E, refusal: &Refusal)
    ensures { Told (refusal_line refusal.now)
        (E.bytes err.old) (E.bytes err.new) (E.failed_writes err.old) (E.failed_writes err.new) }
{
    match refusal {
        Refusal::BadName => tell(err, &[b"refused: ", b"bad name"]),
        Refusal::NoName => tell(err, &[b"refused: ", b"no name"]),
        Refusal::NotAFunction => tell(err, &[b"refused: ", b"not a function"]),
        Refusal::NotAMacro => tell(err, &[b"refused: ", b"not a macro"]),
        Refusal::BadOrder => tell(err, &[b"refused: ", b"bad order"]),
        Refusal::Offence { place, cause } => tell_offence(err, place, *cause),
    }
}
