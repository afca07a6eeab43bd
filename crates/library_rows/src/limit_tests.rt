// The longest line of a batch file, and one more.
use batch_run::{BatchRefusal, read_batch};
use std::test::Fail;

#[test]
fn a_line_ends_within_two_to_the_22_bytes(rt: HostRuntime) -> Result<(), Fail> {
    let alloc = rt.alloc();
    let mut file = Vec::from_slice(alloc, b"rename a.c 1 5 ")?;
    for _ in 0..4_194_289u32 {
        file.push(b'x')?;
    }
    assert_eq!(rt; read_batch(alloc, file.as_slice())?.len(), 1);
    file.push(b'\n')?;
    assert_eq!(rt; read_batch(alloc, file.as_slice())?.len(), 1);
    file.extend_from_slice(b"\n")?;
    assert!(rt;
        matches!(
            read_batch(alloc, file.as_slice()),
            Err(BatchRefusal::BadLine { line: 2 })
        )
    );
    Ok(())
}
