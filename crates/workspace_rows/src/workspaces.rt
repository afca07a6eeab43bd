// Workspaces in memory.
use analysis::{Analysis, analyse_within};
use std::alloc::{AllocError, Global};
use std::test::Fail;
use ws_file::{Workspace, read_ws};

/// The workspace of a text.
pub fn workspace(alloc: Global, text: &str) -> Result<Workspace, Fail> {
    match read_ws(alloc, text.as_bytes()) {
        Ok(ws) => Ok(ws),
        Err(_) => Err(AllocError)?,
    }
}

/// The analysis of a workspace, which is accepted; units of at most so many tokens together are kept. The files are held, each
/// as `PATH:TEXT` with `@` between them.
pub fn analysed(alloc: Global, ws: &str, files: &str, room: usize) -> Result<Analysis, Fail> {
    let ws = workspace(alloc, ws)?;
    let mut files = row_tools::held(alloc, files)?;
    match analyse_within(alloc, &ws, &mut files, room) {
        Ok(analysis) => Ok(analysis),
        Err(_) => Err(AllocError)?,
    }
}
