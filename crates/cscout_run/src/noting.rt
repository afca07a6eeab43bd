// The note behind the message of a run: what is wrong with its words, or why its place names nothing.
ghost use Rattle.std.specs.Prelude.{◌≡◌, ℕ, List, Option, IfErr, IfOk, IfSome, map, string_bytes};
ghost use Rattle.std.specs.Option.{option_map};
ghost use Rattle.cs_base.specs.Outside.{ReadsOnly};
ghost use Rattle.command_words.specs.Asking.{ask_value, class_value, edit_value, report_value, request_value};
ghost use Rattle.command_words.specs.Request.{asked, class_at};
ghost use Rattle.analysis.specs.Analysis.{analysis_of};
ghost use Rattle.analysis.specs.Below.source_files.Files.{source_of};
ghost use Rattle.unnamed_places.specs.Unnamed.{IsUnnamed};
ghost use Rattle.cscout_run.specs.Answer.{workspace_at};
ghost use Rattle.cscout_run.specs.Noted.{IsNote, IsNoted, IsPlaceNote, IsRefusedNote, IsWhyIn, IsWhyOver, TellsNote, edit_place, late, note_text, place_asked, report_place};
ghost use Rattle.cscout_run.specs.Steps.{IsLateStop, reads_of};

use crate::analysing::analysis_over;
use crate::edits::path_text;
use crate::status::Status;
use crate::stops::Stop;
use crate::workspace_files::read_workspace;
use analysis::Analysis;
use command_words::requests::NamedClass;
use command_words::{Ask, Edit, Report, Request, asked};
use cs_base::{Files, Sink, Text, normal_path};
use lexer::is_identifier;
use std::alloc::Global;
use std::mem;
use unnamed_places::{FailedStep, tell_unnamed, unnamed};
use usage_notes::tell_usage;
use ws_file::Workspace;

/// A note behind the message of a run.
#[derive(Drop)]
pub enum Note {
    /// There is none.
    Nothing,
    /// The words are of no form.
    Words,
    /// The place names nothing.
    Place {
        path: Text,
        line: u32,
        column: u32,
        why: FailedStep,
    },
}

/// Tells the note behind a run on these words that ended so, by `run` or by `show`. The workspace of a request about a place that
/// was refused is read and analysed once more.
pub fn explain<F: Files, E: Sink>(
    alloc: Global,
    words: &[String],
    status: Status,
    files: &mut F,
    err: &mut E,
) -> Result<(), Stop>
    // One line more, or none: the note, and none where a read failed or memory ran out.
    ensures told { (line : Option (List ℕ))
        × TellsNote line (E.bytes err.old) (E.bytes err.new) (E.failed_writes err.old) (E.failed_writes err.new)
        × IfSome (F.told files.old).held (λ fs. IsNoted (IsNote (map string_bytes words.now) fs status) result line) }
    ensures faults { ReadsOnly (F.told files.old) (F.told files.new) (reads_of result) }
{
    match note_on(alloc, words, status, files) {
        Ok(note) => {
            tell_note(err, words, &note);
            Ok(())
        }
        Err(stop) => Err(stop),
    }
}

// Tells a note on these words.
fn tell_note<E: Sink>(err: &mut E, words: &[String], note: &Note)
    ensures { TellsNote (note_text (map string_bytes words.now) note.now)
        (E.bytes err.old) (E.bytes err.new) (E.failed_writes err.old) (E.failed_writes err.new) }
{
    match note {
        Note::Nothing => {}
        Note::Words => tell_usage(err, words),
        Note::Place {
            path,
            line,
            column,
            why,
        } => tell_unnamed(err, path.bytes(), *line, *column, *why),
    }
}

// ---- notes

// The note behind a run on these words that ended so.
fn note_on<F: Files>(
    alloc: Global,
    words: &[String],
    status: Status,
    files: &mut F,
) -> Result<Note, Stop>
    ensures answer { IfSome (F.told files.old).held (λ fs. IfOk result (λ note.
        IsNote (map string_bytes words.now) fs status (note_text (map string_bytes words.now) note))) }
    ensures stops { IfErr result IsLateStop }
    ensures faults { ReadsOnly (F.told files.old) (F.told files.new) (reads_of result) }
{
    match status {
        Status::Usage => Ok(Note::Words),
        Status::Refused => note_on_refused(alloc, words, files),
        _ => Ok(Note::Nothing),
    }
}

// The note on a request that is refused.
fn note_on_refused<F: Files>(alloc: Global, words: &[String], files: &mut F) -> Result<Note, Stop>
    ensures answer { IfSome (F.told files.old).held (λ fs. IfOk result (λ note.
        IsRefusedNote (asked (map string_bytes words.now)) fs (note_text (map string_bytes words.now) note))) }
    ensures stops { IfErr result IsLateStop }
    ensures faults { ReadsOnly (F.told files.old) (F.told files.new) (reads_of result) }
{
    match asked(words) {
        Some(request) => note_on_request(alloc, &request, files),
        None => Ok(Note::Nothing),
    }
}

// The same of what words ask for.
fn note_on_request<F: Files>(
    alloc: Global,
    request: &Request<'_>,
    files: &mut F,
) -> Result<Note, Stop>
    ensures answer { IfSome (F.told files.old).held (λ fs. IfOk result (λ note.
        (words : List (List ℕ)) → IsRefusedNote (Some (request_value request.now)) fs (note_text words note))) }
    ensures stops { IfErr result IsLateStop }
    ensures faults { ReadsOnly (F.told files.old) (F.told files.new) (reads_of result) }
{
    match request {
        Request::Over(ws, ask) => note_over(alloc, ws, place_of(ask), files),
        Request::Help => Ok(Note::Nothing),
        Request::Version => Ok(Note::Nothing),
        Request::Generated(_) => Ok(Note::Nothing),
    }
}

// The note on a place, if there is one.
fn note_over<F: Files>(
    alloc: Global,
    ws: &str,
    place: Option<NamedClass<'_>>,
    files: &mut F,
) -> Result<Note, Stop>
    ensures answer { IfSome (F.told files.old).held (λ fs. IfOk result (λ note.
        (words : List (List ℕ)) → IsPlaceNote ws.now fs (option_map class_value place.entry) (note_text words note))) }
    ensures stops { IfErr result IsLateStop }
    ensures faults { ReadsOnly (F.told files.old) (F.told files.new) (reads_of result) }
{
    match place {
        Some(q) => note_at(alloc, ws, &q, files),
        None => Ok(Note::Nothing),
    }
}

// The note on a place.
fn note_at<F: Files>(
    alloc: Global,
    ws: &str,
    q: &NamedClass<'_>,
    files: &mut F,
) -> Result<Note, Stop>
    ensures answer { IfSome (F.told files.old).held (λ fs. IfOk result (λ note.
        (words : List (List ℕ)) → IsPlaceNote ws.now fs (Some (class_value q.now)) (note_text words note))) }
    ensures stops { IfErr result IsLateStop }
    ensures faults { ReadsOnly (F.told files.old) (F.told files.new) (reads_of result) }
{
    let Ok(path) = normal_path(alloc, q.path.as_bytes()) else {
        return Err(Stop::Memory);
    };
    match why_in(alloc, ws, path_text(&path), q.line, q.column, files) {
        Ok(Some(why)) => Ok(Note::Place {
            path,
            line: q.line,
            column: q.column,
            why,
        }),
        Ok(None) => Ok(Note::Nothing),
        Err(stop) => Err(stop),
    }
}

// ---- why a place names nothing

// Over the workspace of a workspace file, if it has one.
fn why_in<F: Files>(
    alloc: Global,
    ws: &str,
    path: &str,
    line: u32,
    column: u32,
    files: &mut F,
) -> Result<Option<FailedStep>, Stop>
    ensures answer { IfSome (F.told files.old).held (λ fs. IfOk result (IsWhyIn (class_at path.now line column) fs (workspace_at ws.now fs))) }
    ensures stops { IfErr result IsLateStop }
    ensures faults { ReadsOnly (F.told files.old) (F.told files.new) (reads_of result) }
{
    match read_workspace(alloc, ws, files) {
        Ok(ws) => why_over(alloc, &ws, path, line, column, files),
        Err(stop) => late(stop),
    }
}

// Over a workspace, if its units are accepted.
fn why_over<F: Files>(
    alloc: Global,
    ws: &Workspace,
    path: &str,
    line: u32,
    column: u32,
    files: &mut F,
) -> Result<Option<FailedStep>, Stop>
    ensures answer { IfSome (F.told files.old).held (λ fs.
        IfOk result (IsWhyOver (class_at path.now line column) (analysis_of (source_of fs) ws.now))) }
    ensures stops { IfErr result IsLateStop }
    ensures faults { ReadsOnly (F.told files.old) (F.told files.new) (reads_of result) }
{
    match analysis_over(alloc, ws, files) {
        Ok(analysis) => Ok(why_at(analysis, path, line, column)),
        Err(stop) => late(stop),
    }
}

// Over an analysis, which is not taken apart.
fn why_at(a: Analysis, path: &str, line: u32, column: u32) -> Option<FailedStep>
    ensures { IsUnnamed a.value path.now line column result }
{
    let why = unnamed(&a, path, line, column);
    mem::forget(a);
    why
}

// An early end for want of a workspace or an analysis: there is nothing to say of the place.
fn late(stop: Stop) -> Result<Option<FailedStep>, Stop>
    ensures { result ≡ late stop }
{
    match stop {
        Stop::Workspace(_) => Ok(None),
        Stop::Refused(_) => Ok(None),
        Stop::Unread(path) => Err(Stop::Unread(path)),
        Stop::Memory => Err(Stop::Memory),
    }
}

// ---- places

// The place that is asked about, if there is one.
fn place_of<'a>(ask: &Ask<'a>) -> Option<NamedClass<'a>>
    ensures { option_map class_value result ≡ place_asked (ask_value ask.now) }
{
    match ask {
        Ask::Report(report) => place_of_report(report),
        Ask::Edit(edit) => place_of_edit(edit),
        _ => None,
    }
}

fn place_of_report<'a>(report: &Report<'a>) -> Option<NamedClass<'a>>
    ensures { option_map class_value result ≡ report_place (report_value report.now) }
{
    match report {
        Report::Class(q) => Some(NamedClass {
            path: q.path,
            line: q.line,
            column: q.column,
        }),
        _ => None,
    }
}

// A rename to what is no identifier is refused before its place is looked at.
fn place_of_edit<'a>(edit: &Edit<'a>) -> Option<NamedClass<'a>>
    ensures { option_map class_value result ≡ edit_place (edit_value edit.now) }
{
    match edit {
        Edit::Renaming(q) => {
            if is_identifier(q.name.as_bytes()) {
                Some(NamedClass {
                    path: q.path,
                    line: q.line,
                    column: q.column,
                })
            } else {
                None
            }
        }
        Edit::Template(q) | Edit::Macro(q) => Some(NamedClass {
            path: q.path,
            line: q.line,
            column: q.column,
        }),
    }
}
