// The program behind the word `--diff`: what would change is told, and nothing is put.
ghost use Rattle.std.specs.Prelude.{◌≡◌, ◌↔◌, ◌<◌, ◌++◌, [], IfErr, IfOk, IfSome, OnOk, length, map, slice_get, string_bytes, None};
ghost use Rattle.std.specs.List.{flat_map};
ghost use Rattle.cs_base.specs.Outside.{ReadsOnly, bytes_at};
ghost use Rattle.command_words.specs.Asking.{request_value, workspace_file};
ghost use Rattle.command_words.specs.Request.{asked};
ghost use Rattle.cscout_run.specs.Answer.{IsRequestAnswer};
ghost use Rattle.cscout_run.specs.Outcome.{world, Ends};
ghost use Rattle.cscout_run.specs.Shown.{IsShown, IsShownAnswer, diff_of, held_bytes};
ghost use Rattle.cscout_run.specs.Steps.{IsLateStop, Prepares, reads_of};

use crate::preparing::{Ready, prepare};
use crate::status::Status;
use crate::stops::Stop;
use crate::telling::tell_stop;
use crate::top::{ready_status, write_text};
use command_words::{Request, asked, tell, workspace_file};
use cs_base::{Edits, Files, Got, Sink, Text, Wrote};
use line_diff::push_diff;
use std::alloc::Global;

/// Runs the program on the words after its name and the word `--diff`: it answers as `run` does, but the diffs of the edits stand
/// behind its output, and no file is put.
pub fn show<F: Files, O: Sink, E: Sink>(
    alloc: Global,
    words: &[String],
    files: &mut F,
    out: &mut O,
    err: &mut E,
) -> Status
    // Usage comes exactly where the words are of no form.
    ensures usage { (result ≡ Status.Usage) ↔ (asked (map string_bytes words.now) ≡ None) }
    // Status, output and messages are those of an answer as it is shown; what failed is answered, and nothing else.
    ensures outcome { Ends (IsShownAnswer (map string_bytes words.now))
        (world (F.told files.old) (O.bytes out.old) (O.failed_writes out.old) (E.bytes err.old) (E.failed_writes err.old))
        (world (F.told files.new) (O.bytes out.new) (O.failed_writes out.new) (E.bytes err.new) (E.failed_writes err.new))
        result }
    // Whatever the status is, every file holds what it held, and no put was tried.
    ensures held { (F.told files.new).held ≡ (F.told files.old).held }
    ensures puts { (F.told files.new).puts ≡ (F.told files.old).puts }
{
    let Some(request) = asked(words) else {
        tell(err, &[b"bad command line"]);
        return Status::Usage;
    };
    let ready = match prepare_shown(alloc, &request, files) {
        Ok(ready) => ready,
        Err(stop) => return tell_stop(err, workspace_file(&request), &stop),
    };
    if let Wrote::Failed = write_text(out, ready.text.as_slice()) {
        tell(err, &[b"cannot write output"]);
        return Status::WriteFault;
    }
    ready_status(ready.refused)
}

// All of the answer to a request as it is shown but its output.
fn prepare_shown<F: Files>(
    alloc: Global,
    request: &Request<'_>,
    files: &mut F,
) -> Result<Ready, Stop>
    ensures answer { IfSome (F.told files.old).held (λ fs.
        Prepares (workspace_file request.now) (IsShown fs (IsRequestAnswer fs (request_value request.now))) result) }
    ensures none { IfOk result (λ ready. ready.edits ≡ []) }
    ensures faults { ReadsOnly (F.told files.old) (F.told files.new) (reads_of result) }
{
    let ready = prepare(alloc, request, files)?;
    as_shown(alloc, ready, files)
}

// What stands ready as it is shown: the diffs of the edits stand behind the text, and no edit is left.
fn as_shown<F: Files>(alloc: Global, ready: Ready, files: &mut F) -> Result<Ready, Stop>
    ensures text { IfSome (F.told files.old).held (λ fs.
        IfOk result (λ shown. shown.text.items ≡ ready.text.items ++ flat_map (diff_of fs) ready.edits)) }
    ensures none { IfOk result (λ shown. shown.edits ≡ []) }
    ensures refused { IfOk result (λ shown. shown.refused ≡ ready.refused) }
    ensures stops { IfErr result IsLateStop }
    ensures faults { ReadsOnly (F.told files.old) (F.told files.new) (reads_of result) }
{
    let Ready {
        edits,
        mut text,
        refused,
    } = ready;
    push_diffs(alloc, &mut text, &edits, files)?;
    Ok(Ready {
        edits: Edits::new(alloc),
        text,
        refused,
    })
}

// Adds the diff of each edit, in order of path.
fn push_diffs<F: Files>(
    alloc: Global,
    text: &mut Vec<u8>,
    edits: &Edits,
    files: &mut F,
) -> Result<(), Stop>
    ensures text { IfSome (F.told files.old).held (λ fs.
        OnOk result (text.new.items ≡ text.old.items ++ flat_map (diff_of fs) edits.now)) }
    ensures stops { IfErr result IsLateStop }
    ensures faults { ReadsOnly (F.told files.old) (F.told files.new) (reads_of result) }
{
    for k in 0..edits.len() {
        push_edit(alloc, text, edits, k, files)?;
    }
    Ok(())
}

// Adds the diff of edit `k`.
fn push_edit<F: Files>(
    alloc: Global,
    text: &mut Vec<u8>,
    edits: &Edits,
    k: u32,
    files: &mut F,
) -> Result<(), Stop>
    requires { k < length edits.now }
    ensures text { IfSome (F.told files.old).held (λ fs.
        IfSome (slice_get edits.now k) (λ e. OnOk result (text.new.items ≡ text.old.items ++ diff_of fs e))) }
    ensures stops { IfErr result IsLateStop }
    ensures faults { ReadsOnly (F.told files.old) (F.told files.new) (reads_of result) }
{
    let old = held_text(alloc, edits.path_text(k), files)?;
    push_diff(alloc, text, edits.path(k), old.as_slice(), edits.bytes(k))?;
    Ok(())
}

// What the path holds. A file that is not there has no byte.
fn held_text<F: Files>(alloc: Global, path: &str, files: &mut F) -> Result<Vec<u8>, Stop>
    ensures text { IfSome (F.told files.old).held (λ fs. IfOk result (λ bytes. bytes.items ≡ held_bytes (bytes_at path.now fs))) }
    ensures stops { IfErr result IsLateStop }
    ensures faults { ReadsOnly (F.told files.old) (F.told files.new) (reads_of result) }
{
    match files.read(alloc, path) {
        Got::Bytes(bytes) => Ok(bytes),
        Got::Absent => Ok(Vec::new(alloc)),
        Got::Failed => Err(Stop::Unread(Text::new(alloc, path.as_bytes())?)),
        Got::Memory => Err(Stop::Memory),
    }
}
