// Parts in the order of the paths of their files; worked by hand.
use crate::workspaces::analysed;
use analysis::Analysis;
use std::alloc::{AllocError, Global};
use std::test::Fail;

// The files in which the first members of classes stand, in order; a file once where several stand in a row.
fn shown(alloc: Global, a: &Analysis) -> Result<Vec<u8>, AllocError> {
    let mut out = Vec::new(alloc);
    let mut last = None;
    for part in a.firsts() {
        let file = part.start.file;
        if last != Some(file) {
            out.extend_from_slice(format!(in alloc; "{file} ")?.as_bytes())?;
            last = Some(file);
        }
    }
    Ok(out)
}

// Number 1 is `<defines 1>`, with which both units begin, 2 is `b.c` and 3 is `a.c`; 0 is `<lines>`.
#[test]
fn parts_stand_in_the_order_of_the_paths_of_their_files(rt: HostRuntime) -> Result<(), Fail> {
    let alloc = rt.alloc();
    let a = analysed(
        alloc,
        "file b.c\nfile a.c\n",
        "a.c:int a = __LINE__;\n@b.c:int b;\n",
        100,
    )?;
    let text = shown(alloc, &a)?;
    assert_eq!(rt; text.as_slice(), b"1 0 3 2 ".as_slice());
    Ok(())
}
