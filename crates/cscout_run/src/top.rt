// The top call: the words, then everything that may want memory, then the puts, then one write.
ghost use Rattle.std.specs.Prelude.{◌≡◌, ◌↔◌, IfSome, map, string_bytes, None};
ghost use Rattle.cs_base.specs.Outside.{Writes, Faults, write_failed};
ghost use Rattle.command_words.specs.Request.{asked};
ghost use Rattle.cscout_run.specs.Answer.{IsAnswer};
ghost use Rattle.cscout_run.specs.Outcome.{world, Ends};
ghost use Rattle.cscout_run.specs.Promise.{KeepsPromise, KeepsRefused};
ghost use Rattle.cscout_run.specs.Shapes.{ready_status};

use crate::preparing::prepare;
use crate::status::Status;
use crate::telling::tell_stop;
use command_words::{asked, tell, workspace_file};
use cs_base::{Files, Sink, Wrote};
use edited_files::{Applied, apply};
use std::alloc::Global;

/// Runs the program on the words after its name.
pub fn run<F: Files, O: Sink, E: Sink>(
    alloc: Global,
    words: &[String],
    files: &mut F,
    out: &mut O,
    err: &mut E,
) -> Status
    // Usage comes exactly where the words are of no form.
    ensures usage { (result ≡ Status.Usage) ↔ (asked (map string_bytes words.now) ≡ None) }
    // Status, files, output and messages are those of an answer; what failed is answered, and nothing else.
    ensures outcome { Ends (IsAnswer (map string_bytes words.now))
        (world (F.told files.old) (O.bytes out.old) (O.failed_writes out.old) (E.bytes err.old) (E.failed_writes err.old))
        (world (F.told files.new) (O.bytes out.new) (O.failed_writes out.new) (E.bytes err.new) (E.failed_writes err.new))
        result }
    // A rename that is done has changed the named class, and nothing else; a new order has moved the items of the functions' lists,
    // and nothing else; a batch that is done has run its lines.
    ensures promise { result ≡ Status.Done → IfSome (F.told files.old).held (λ before.
        IfSome (F.told files.new).held (KeepsPromise (asked (map string_bytes words.now)) before)) }
    // So has a batch some of whose lines were refused.
    ensures refused { result ≡ Status.Refused → IfSome (F.told files.old).held (λ before.
        IfSome (F.told files.new).held (KeepsRefused (asked (map string_bytes words.now)) before)) }
{
    let Some(request) = asked(words) else {
        tell(err, &[b"bad command line"]);
        return Status::Usage;
    };
    let ready = match prepare(alloc, &request, files) {
        Ok(ready) => ready,
        Err(stop) => return tell_stop(err, workspace_file(&request), &stop),
    };
    if let Applied::Failed { written } = apply(&ready.edits, files) {
        tell(err, &[b"cannot write ", ready.edits.path(written)]);
        return Status::WriteFault;
    }
    if let Wrote::Failed = write_text(out, ready.text.as_slice()) {
        tell(err, &[b"cannot write output"]);
        return Status::WriteFault;
    }
    ready_status(ready.refused)
}

/// How a run ends that nothing stopped.
pub(crate) fn ready_status(refused: bool) -> Status
    ensures { result ≡ ready_status refused }
{
    if refused {
        Status::Refused
    } else {
        Status::Done
    }
}

/// Writes the text in one call, and makes none where it is empty.
pub(crate) fn write_text<O: Sink>(out: &mut O, text: &[u8]) -> Wrote
    ensures bytes { Writes text.now (O.bytes out.old) (O.bytes out.new) result }
    ensures faults { Faults (write_failed result) (O.failed_writes out.old) (O.failed_writes out.new) }
{
    if text.is_empty() {
        return Wrote::Done;
    }
    out.write(text)
}
