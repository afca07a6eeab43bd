// Files in memory.
use cs_base::{MemFiles, Memory};
use std::alloc::Global;

/// The files of a text, each as `PATH:TEXT`, with `@` between them. Of several with one path the first counts.
pub fn held(alloc: Global, text: &str) -> Result<MemFiles, Memory> {
    let mut files = MemFiles::new(alloc);
    for block in text.split('@') {
        if let Some((path, bytes)) = block.split_once(':') {
            if files.bytes(path).is_none() {
                files.add(path, bytes.as_bytes())?;
            }
        }
    }
    Ok(files)
}
