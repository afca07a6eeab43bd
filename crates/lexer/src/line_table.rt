// The table of line starts, by which lines and columns are looked up without the text.
ghost use Rattle.std.specs.Prelude.{◌≡◌, ◌≤◌, ◌<◌, ◌+◌, nat_lt, if◌then◌else◌, IfOk, Some, None, length};
ghost use Rattle.cs_base.specs.Limits.{most_bytes};
ghost use Rattle.lexer.specs.LineTable.{line_starts as starts_of, place_in as place, offset_in as offset, IsTable, Found};

use cs_base::Memory;
use std::alloc::Global;

#[tactic(auto, unfolding(crate::specs::LineTable::line_starts))]
/// Where the lines of a file begin.
pub(crate) fn line_starts(alloc: Global, bytes: &[u8]) -> Result<Vec<u32>, Memory>
    requires { length bytes.now ≤ most_bytes }
    ensures { IfOk result (λ starts. starts.items ≡ starts_of bytes.now) }
{
    let mut starts = Vec::new(alloc);
    starts.push(0)?;
    let mut rest = bytes;
    let mut at = 0;
    while let [c, after @ ..] = rest {
        at += 1;
        if *c == b'\n' {
            starts.push(at)?;
        }
        rest = after;
    }
    Ok(starts)
}

// How many lines begin at the character or before it.
fn lines_to(starts: &[u32], len: u32, at: u32) -> usize
    requires { IsTable len starts.now }
    ensures bound { result ≤ length starts.now }
    ensures found { Found starts.now at result }
{
    starts.partition_point(|start| *start <= at)
}

/// The line and the column of a character of the file, both from 1.
pub(crate) fn place_in(starts: &[u32], len: u32, at: u32) -> (u32, u32)
    requires table { IsTable len starts.now }
    requires within { at < len }
    ensures { result ≡ place starts.now at }
{
    let line = lines_to(starts, len, at);
    (line as u32, at - starts[line - 1] + 1)
}

/// The character that `n` characters of the line with this index precede, if the line has it.
pub(crate) fn offset_in(starts: &[u32], len: u32, index: usize, n: u32) -> Option<u32>
    requires { IsTable len starts.now }
    ensures { result ≡ offset starts.now len index n }
{
    let start = *starts.get(index)?;
    let end = match starts.get(index + 1) {
        Some(next) => *next,
        None => len,
    };
    if start as u64 + (n as u64) < end as u64 {
        Some(start + n)
    } else {
        None
    }
}
