// The workspace of a file.
ghost use Rattle.std.specs.Prelude.{◌≡◌, ◌≤◌, ◌+◌, IsTrue, OnOk, length};
ghost use Rattle.cs_base.specs.Answer.{Gives};
ghost use Rattle.cs_base.specs.Limits.{most_bytes, most_units};
ghost use Rattle.ws_file.specs.Reading.{with_line, checked, workspace_of};
ghost use Rattle.ws_file.specs.Refusal.{fault_of};
ghost use Rattle.ws_file.specs.Taking.{has_no_feed};

use crate::line_parts::first_line;
use crate::reader::Reader;
use crate::refusal::WsRefusal;
use crate::workspaces::Workspace;
use cs_base::MOST_UNITS;
use std::alloc::Global;

/// The workspace that the file describes, or its first fault.
pub fn read_ws(alloc: Global, bytes: &[u8]) -> Result<Workspace, WsRefusal>
    ensures answer { Gives (λ ws. ws) fault_of result (workspace_of bytes.now) }
{
    let mut reader = Reader::new(alloc)?;
    let mut rest = bytes;
    let mut number: u32 = 1;
    let mut start: usize = 0;
    'lines: while !rest.is_empty() {
        let (line, more) = first_line(rest);
        take_line(&mut reader, alloc, number, start, line)?;
        start = start + line.len() + 1;
        number += 1;
        rest = more;
    }
    Ok(reader.finish())
}

// Takes the line of this number, or refuses it.
fn take_line(
    reader: &mut Reader,
    alloc: Global,
    number: u32,
    start: usize,
    line: &[u8],
) -> Result<(), WsRefusal>
    requires { IsTrue (has_no_feed line.now) }
    ensures answer { Gives (λ _. reader.new) fault_of result (checked number (with_line start line.now reader.old)) }
    ensures within { OnOk result (start + length line.now ≤ most_bytes) }
    ensures few { OnOk result (length reader.new.units ≤ most_units) }
{
    if !reader.take_line(alloc, start, line)? {
        return Err(WsRefusal::BadLine { line: number });
    }
    if reader.units() > MOST_UNITS {
        return Err(WsRefusal::TooManyUnits { line: number });
    }
    Ok(())
}
