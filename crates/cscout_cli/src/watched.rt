// Files and streams beside which a terminal tells what is being read.
use crate::progress_line::Progress;
use cs_base::{Files, Got, Put, Sink, Wrote};
use std::alloc::Global;

/// Files whose reads are told.
#[derive(Drop)]
pub(crate) struct WatchedFiles<'a, F: Files + Drop> {
    pub(crate) progress: &'a Progress<'a>,
    pub(crate) files: F,
}

impl<'a, F: Files + Drop> Files for WatchedFiles<'a, F> {
    ghost told = { λ w. F.told w.files };

    fn read(&mut self, alloc: Global, path: &str) -> Got {
        self.progress.tell(path);
        self.files.read(alloc, path)
    }

    fn put(&mut self, path: &str, bytes: &[u8]) -> Put {
        self.progress.wipe();
        self.files.put(path, bytes)
    }
}

/// A stream that may be the same terminal.
#[derive(Drop)]
pub(crate) struct WatchedSink<'a, S: Sink + Drop> {
    pub(crate) progress: &'a Progress<'a>,
    pub(crate) sink: S,
}

impl<'a, S: Sink + Drop> Sink for WatchedSink<'a, S> {
    ghost bytes = { λ w. S.bytes w.sink };

    ghost failed_writes = { λ w. S.failed_writes w.sink };

    fn write(&mut self, piece: &[u8]) -> Wrote {
        self.progress.wipe();
        self.sink.write(piece)
    }
}
