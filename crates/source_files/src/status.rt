// How it stands with the file of a path.
ghost use Rattle.std.specs.Prelude.{◌≡◌, false, not};
ghost use Rattle.std.specs.Str.{bytes_eq};
ghost use Rattle.source_files.specs.Files.{lines_path, found_at};
ghost use Rattle.source_files.specs.Statuses.{IsStatus, is_missing};

use crate::shared_table::SharedTable;
use crate::slot::Slot;

// There is none; it is kept under this number; or it was not opened yet, and has this number and so
// many bytes.
#[derive(Clone, Copy)]
pub(crate) enum Status {
    Missing,
    Kept(u32),
    Unread(u32, usize),
}

pub(crate) fn status_of(table: &SharedTable, path: &[u8]) -> Status
    requires { bytes_eq path.now lines_path ≡ false }
    ensures { IsStatus table.now path.now result }
{
    match table.find(path) {
        None => Status::Missing,
        Some((_number, Slot::Absent)) => Status::Missing,
        Some((number, Slot::Unopened(bytes))) => Status::Unread(number, bytes.len()),
        Some((number, Slot::Opened(file))) => {
            let _text = file.text();
            Status::Kept(number)
        }
        Some((number, Slot::Made(file))) => {
            let _text = file.text();
            Status::Kept(number)
        }
    }
}

// There is a file under a path.
pub(crate) fn is_there(table: &SharedTable, path: &[u8]) -> bool
    requires { bytes_eq path.now lines_path ≡ false }
    ensures { is_missing (found_at path.now table.now) ≡ not result }
{
    match status_of(table, path) {
        Status::Missing => false,
        Status::Kept(_) => true,
        Status::Unread(_, _) => true,
    }
}
