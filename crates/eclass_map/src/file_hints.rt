// Where the tokens of each file are thought to begin among those of all files. Who takes such a hint tests it.
ghost use Rattle.std.specs.Prelude.{◌≡◌, ◌+◌, ◌<◌, ◌≤◌, ◌⊎◌, ◌++◌, length, replicate, slice_index_or, vec_len, vec_capacity};

/// How many tokens are thought to stand in front of those of a file: all of them, where nothing is known of it.
pub fn hint(files: &[usize], file: usize, count: usize) -> usize
    ensures { result ≡ slice_index_or files.now file count }
{
    if file < files.len() {
        files[file]
    } else {
        count
    }
}

/// How many hints there have to be more, so that a file has one. None for a file number past the count of tokens:
/// so hints take no more room than tokens.
pub fn missing_hints(files: &[usize], file: u32, count: usize) -> usize
    ensures reach { file ≤ count → file < length files.now + result }
    ensures few { (result ≡ 0) ⊎ (length files.now + result ≤ count + 1) }
{
    let file = file as usize;
    if files.len() <= file && file <= count {
        file - files.len() + 1
    } else {
        0
    }
}

/// Adds so many hints, all of them the same; there is room for them.
pub fn add_hints(files: &mut Vec<usize>, more: usize, index: usize)
    requires room { vec_len files.old + more ≤ vec_capacity files.old }
    ensures { files.new.items ≡ files.old.items ++ replicate more index }
{
    for _ in 0..more {
        files.push(index).unwrap();
    }
}
