//! CScout: renames identifiers of C programs, preprocesses their units, and tells what must be spelled alike.
//!
//! `main` hands the words behind the program's name and the real files and streams to `run` of `cscout_run`, which is
//! the whole program, or what follows the word `--diff` to its `show`, and behind `--why` calls its `explain` after either. It goes to the folder of `-C`
//! before, and ends with the number of the status. Where standard error is a terminal, a line there says which file is
//! being read, from two seconds on (`progress_line.rt`); it is wiped before anything is written. Start from
//! `cscout_run`.
#![tactic(auto)]

mod progress_line;
mod watched;

use command_words::tell;
use cs_base::{Files, Sink};
use cscout_run::{HostFiles, HostSink, Status, explain, run, show};
use progress_line::Progress;
use std::process::ExitCode;
use std::{env, io};
use watched::{WatchedFiles, WatchedSink};

fn main(rt: HostRuntime) -> ExitCode {
    ExitCode::from(run_over_host(&rt) as u8)
}

// Runs the program over the real files and streams, beside which a terminal has the line of what is being read.
fn run_over_host(rt: &HostRuntime) -> Status {
    let progress = Progress::new(rt);
    let status = run_beside(rt, &progress);
    progress.wipe();
    status
}

// Runs the program. An argument that is no text makes a faulty command line, which is told as one.
fn run_beside(rt: &HostRuntime, progress: &Progress) -> Status {
    let mut out = WatchedSink {
        progress,
        sink: HostSink::new(rt.stdout()),
    };
    let mut err = WatchedSink {
        progress,
        sink: HostSink::new(rt.stderr()),
    };
    let words = match words_of(rt) {
        Ok(words) => words,
        Err(e) if e.kind() == io::ErrorKind::InvalidData => {
            tell(&mut err, &[b"bad command line"]);
            return Status::Usage;
        }
        Err(_) => return no_memory(&mut err),
    };
    match HostFiles::new(rt) {
        Ok(files) => {
            let mut files = WatchedFiles { progress, files };
            run_there(rt, words.as_slice(), &mut files, &mut out, &mut err)
        }
        Err(_) => no_memory(&mut err),
    }
}

// Runs the program on the words. `-C DIR` in front of them goes to that folder first: all paths are relative to it then.
fn run_there<F: Files, O: Sink, E: Sink>(
    rt: &HostRuntime,
    words: &[String],
    files: &mut F,
    out: &mut O,
    err: &mut E,
) -> Status {
    let Some((folder, more)) = folder_of(words) else {
        return run_words(rt, words, files, out, err);
    };
    if env::set_current_dir(rt, folder).is_err() {
        tell(err, &[b"cannot read ", folder.as_bytes()]);
        return Status::ReadFault;
    }
    run_words(rt, more, files, out, err)
}

// The folder that the words begin with, and the words behind it.
fn folder_of(words: &[String]) -> Option<(&str, &[String])> {
    match words {
        [first, folder, more @ ..] if first.as_str() == "-C" => Some((folder.as_str(), more)),
        _ => None,
    }
}

// Runs the program on the words. Behind `--why` it tells the note behind its message, if there is one.
fn run_words<F: Files, O: Sink, E: Sink>(
    rt: &HostRuntime,
    words: &[String],
    files: &mut F,
    out: &mut O,
    err: &mut E,
) -> Status {
    match words.split_first() {
        Some((first, more)) if first.as_str() == "--why" => {
            let status = run_command(rt, more, files, out, err);
            let _told = explain(rt.alloc(), command_of(more), status, files, err);
            status
        }
        _ => run_command(rt, words, files, out, err),
    }
}

// The words behind `--diff`, if that is the first.
fn command_of(words: &[String]) -> &[String] {
    match words.split_first() {
        Some((first, more)) if first.as_str() == "--diff" => more,
        _ => words,
    }
}

// Runs the program on the words. Behind `--diff` it shows what would change.
fn run_command<F: Files, O: Sink, E: Sink>(
    rt: &HostRuntime,
    words: &[String],
    files: &mut F,
    out: &mut O,
    err: &mut E,
) -> Status {
    match words.split_first() {
        Some((first, more)) if first.as_str() == "--diff" => show(
            rt.alloc(),
            more,
            files,
            out,
            err,
        ),
        _ => run(rt.alloc(), words, files, out, err),
    }
}

fn no_memory<E: Sink>(err: &mut E) -> Status {
    tell(err, &[b"out of memory"]);
    Status::Memory
}

// The arguments behind the program's name.
fn words_of(rt: &HostRuntime) -> io::Result<Vec<String>> {
    let mut words = Vec::new(rt.alloc());
    for word in env::args(rt)?.skip(1) {
        words.push(word)?;
    }
    Ok(words)
}
