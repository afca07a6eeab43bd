// The real files and streams. They tell no content, and count what failed.
ghost use Rattle.std.specs.Prelude.{None};
ghost use Rattle.cs_base.specs.Outside.{files_told};

use cs_base::{Files, Got, Memory, Put, Sink, Wrote};
use std::alloc::Global;
use std::fs::File;
use std::io::{ErrorKind, Read, Write};
use std::{fs, io};

// A file of more bytes is not read.
const MOST_BYTES: u64 = 67_108_864;

// Room for the name of the file beside.
const NAME_ROOM: usize = 8_192;

// What the name of the file beside has more than that of its file.
const BESIDE: &str = ".cscout-new";

/// The files of the system. A put writes a file beside and renames it, so that the path holds its old or
/// its new bytes at any time.
#[derive(Drop)]
pub struct HostFiles<'a> {
    rt: &'a HostRuntime,
    beside: String,
    failed_reads: u64,
    failed_puts: u64,
}

impl<'a> HostFiles<'a> {
    /// Takes the room for the name of the file beside.
    pub fn new(rt: &'a HostRuntime) -> Result<HostFiles<'a>, Memory> {
        Ok(HostFiles {
            rt,
            beside: String::with_capacity(rt.alloc(), NAME_ROOM)?,
            failed_reads: 0,
            failed_puts: 0,
        })
    }
}

impl<'a> Files for HostFiles<'a> {
    ghost told = { λ f. files_told None f.failed_reads f.failed_puts None };

    fn read(&mut self, alloc: Global, path: &str) -> Got {
        match read_file(self.rt, alloc, path) {
            Ok(bytes) => Got::Bytes(bytes),
            Err(e) => match e.kind() {
                ErrorKind::NotFound | ErrorKind::NotADirectory => Got::Absent,
                ErrorKind::OutOfMemory => Got::Memory,
                _ => {
                    self.failed_reads = self.failed_reads.saturating_add(1);
                    Got::Failed
                }
            },
        }
    }

    fn put(&mut self, path: &str, bytes: &[u8]) -> Put {
        match replace(self.rt, &mut self.beside, path, bytes) {
            Ok(()) => Put::Done,
            Err(_) => {
                self.failed_puts = self.failed_puts.saturating_add(1);
                Put::Failed
            }
        }
    }
}

// The bytes of the file, unless they are too many.
fn read_file(rt: &HostRuntime, alloc: Global, path: &str) -> io::Result<Vec<u8>> {
    let mut bytes = Vec::new(alloc);
    let file = File::open(rt, path)?;
    file.take(MOST_BYTES + 1).read_to_end(&mut bytes)?;
    if bytes.len() as u64 > MOST_BYTES {
        return Err(io::Error::from(ErrorKind::FileTooLarge));
    }
    Ok(bytes)
}

// Lets the path hold the bytes, by way of a file beside. Where that fails, the file beside goes.
fn replace(rt: &HostRuntime, beside: &mut String, path: &str, bytes: &[u8]) -> io::Result<()> {
    if path.len() > NAME_ROOM - BESIDE.len() {
        return Err(io::Error::from(ErrorKind::InvalidFilename));
    }
    beside.clear();
    beside.push_str(path)?;
    beside.push_str(BESIDE)?;
    let file = File::create_new(rt, beside.as_str())?;
    let written = write_new(rt, file, path, bytes).and_then(|()| fs::rename(
        rt,
        beside.as_str(),
        path,
    ));
    if written.is_err() {
        let _ = fs::remove_file(rt, beside.as_str());
    }
    written
}

// Writes the new file, which gets the permissions of the old one.
fn write_new(rt: &HostRuntime, mut file: File, path: &str, bytes: &[u8]) -> io::Result<()> {
    match fs::metadata(rt, path) {
        Ok(old) => file.set_permissions(old.permissions())?,
        Err(e) if e.kind() == ErrorKind::NotFound => {}
        Err(e) => return Err(e),
    }
    file.write_all(bytes)?;
    file.sync_all()
}

/// A stream of the system.
#[derive(Drop)]
pub struct HostSink<W: Write + Drop> {
    stream: W,
    failed_writes: u64,
}

impl<W: Write + Drop> HostSink<W> {
    pub fn new(stream: W) -> HostSink<W> {
        HostSink {
            stream,
            failed_writes: 0,
        }
    }
}

impl<W: Write + Drop> Sink for HostSink<W> {
    ghost bytes = { λ _. None };

    ghost failed_writes = { λ s. s.failed_writes };

    fn write(&mut self, piece: &[u8]) -> Wrote {
        let written = self
            .stream
            .write_all(piece)
            .and_then(|()| self.stream.flush());
        if written.is_err() {
            self.failed_writes = self.failed_writes.saturating_add(1);
            return Wrote::Failed;
        }
        Wrote::Done
    }
}
