// Whole runs over files and sinks in memory, and the adapters over one real file.
use crate::batches::{Ended, FOUR_ENDED, FOUR_FILES, FOUR_REFUSED, FOUR_REFUSED_ENDED};
use crate::reports::{
    FAILING_CLASSES, FAILING_LISTS, FAILING_NOTHING, FAILING_READS, FAILING_REPORTS,
};
use crate::tables::{FAILING, Failing, ROWS, Row, TWO_FILES};
use crate::trims::FAILING_TRIMS;
use cs_base::{Files, Got, MemFiles, MemSink, Memory, Put};
use cscout_run::{HostFiles, Status, run};
use row_tools::held;
use std::alloc::Global;
use std::fs::Permissions;
use std::os::unix::fs::PermissionsExt;
use std::process::Abort;
use std::test::Fail;
use std::{env, fs, process};

fn words_of(alloc: Global, text: &str) -> Result<Vec<String>, Memory> {
    let mut words = Vec::new(alloc);
    for word in text.split(' ') {
        words.push(String::from_str(alloc, word)?)?;
    }
    Ok(words)
}

// Whether each file of the text is held.
fn holds(files: &MemFiles, text: &str) -> bool {
    for block in text.split('@') {
        if let Some((path, bytes)) = block.split_once(':') {
            if files.bytes(path) != Some(bytes.as_bytes()) {
                return false;
            }
        }
    }
    true
}

// A sink with room, whose write of this number fails.
fn sink(alloc: Global, call: u32) -> Result<MemSink, Memory> {
    let mut sink = MemSink::new(alloc);
    sink.reserve(2_000)?;
    if call > 0 {
        sink.fail_at(call)?;
    }
    Ok(sink)
}

// Runs the row, and asserts what it leaves.
fn check<R: Abort + AllocGlobal>(
    rt: &R,
    row: &Row,
    call: u32,
    out_call: u32,
    err_call: u32,
) -> Result<(), Memory> {
    let mut files = held(rt.alloc(), row.files)?;
    files.reserve(2_000)?;
    if call > 0 {
        files.fail_at(call)?;
    }
    let mut out = sink(rt.alloc(), out_call)?;
    let mut err = sink(rt.alloc(), err_call)?;
    let words = words_of(rt.alloc(), row.words)?;
    let status = run(rt.alloc(), words.as_slice(), &mut files, &mut out, &mut err);
    assert_eq!(rt; status, row.status, "status at {}", row.words);
    assert!(rt;
        out.bytes() == row.out.as_bytes(),
        "output at {}",
        row.words
    );
    assert!(rt;
        err.bytes() == row.err.as_bytes(),
        "message at {}",
        row.words
    );
    assert!(rt; holds(&files, row.after), "files at {}", row.words);
    Ok(())
}

// Runs the row, the call of its number failing, and asserts what it leaves.
fn check_failing<R: Abort + AllocGlobal>(rt: &R, failing: &Failing) -> Result<(), Memory> {
    check(
        rt,
        &failing.row,
        failing.call,
        failing.out_call,
        failing.err_call,
    )
}

#[test]
fn runs_answer_as_worked_by_hand(rt: HostRuntime) -> Result<(), Memory> {
    for row in &ROWS {
        check(&rt, row, 0, 0, 0)?;
    }
    for failing in &FAILING {
        check_failing(&rt, failing)?;
    }
    Ok(())
}

#[test]
fn reports_end_where_a_call_fails(rt: HostRuntime) -> Result<(), Memory> {
    for failing in &FAILING_REPORTS {
        check_failing(&rt, failing)?;
    }
    for failing in &FAILING_CLASSES {
        check_failing(&rt, failing)?;
    }
    for failing in &FAILING_LISTS {
        check_failing(&rt, failing)?;
    }
    for failing in &FAILING_READS {
        check_failing(&rt, failing)?;
    }
    for failing in &FAILING_NOTHING {
        check_failing(&rt, failing)?;
    }
    Ok(())
}

#[test]
fn a_trim_ends_where_a_call_fails(rt: HostRuntime) -> Result<(), Memory> {
    for failing in &FAILING_TRIMS {
        check_failing(&rt, failing)?;
    }
    Ok(())
}

// Runs the batch over these files, and asserts what it leaves.
fn check_batch<R: Abort + AllocGlobal>(
    rt: &R,
    files: &'static str,
    ended: &Ended,
) -> Result<(), Memory> {
    let row = Row {
        files,
        words: "w.cs batch s",
        after: ended.after,
        out: ended.out,
        err: ended.err,
        status: ended.status,
    };
    check(rt, &row, ended.call, ended.out_call, 0)
}

#[test]
fn a_batch_ends_where_a_call_fails(rt: HostRuntime) -> Result<(), Memory> {
    for ended in &FOUR_ENDED {
        check_batch(&rt, FOUR_FILES, ended)?;
    }
    for ended in &FOUR_REFUSED_ENDED {
        check_batch(&rt, FOUR_REFUSED, ended)?;
    }
    Ok(())
}

// Two texts, with so many copies of a piece behind each.
fn repeated(
    alloc: Global,
    first: &str,
    piece: &str,
    then: &str,
    other: &str,
    count: u32,
) -> Result<String, Memory> {
    let mut text = String::from_str(alloc, first)?;
    for _ in 0..count {
        text.push_str(piece)?;
    }
    text.push_str(then)?;
    for _ in 0..count {
        text.push_str(other)?;
    }
    Ok(text)
}

// What `tokens 1` tells of a unit with this text.
fn check_unit<R: Abort + AllocGlobal>(
    rt: &R,
    text: &str,
    out: &str,
    err: &str,
    status: Status,
) -> Result<(), Memory> {
    let mut files = MemFiles::new(rt.alloc());
    files.add("w.cs", b"file a.c\n")?;
    if files.bytes("a.c").is_none() {
        files.add("a.c", text.as_bytes())?;
    }
    let mut told = sink(rt.alloc(), 0)?;
    let mut messages = sink(rt.alloc(), 0)?;
    let words = words_of(rt.alloc(), "w.cs tokens 1")?;
    let answered = run(
        rt.alloc(),
        words.as_slice(),
        &mut files,
        &mut told,
        &mut messages,
    );
    assert_eq!(rt; answered, status);
    assert!(rt; told.bytes() == out.as_bytes());
    assert!(rt; messages.bytes() == err.as_bytes());
    Ok(())
}

#[test]
fn units_keep_within_the_limits(rt: HostRuntime) -> Result<(), Memory> {
    // Argument expansions inside each other: 200 are allowed.
    let call = "#define I(x) x\nint y = ";
    let deep = repeated(rt.alloc(), call, "I(", "1", ")", 201)?;
    check_unit(
        &rt,
        deep.as_str(),
        "",
        "cscout: unit 1: a.c:2:409: too deep\n",
        Status::Workspace,
    )?;
    let shallow = repeated(rt.alloc(), call, "I(", "1", ")", 200)?;
    check_unit(&rt, shallow.as_str(), "int\ny\n=\n1\n", "", Status::Done)?;
    // A file of 2^22 bytes and one more.
    let large = repeated(rt.alloc(), "", " ", "", "", 4_194_305)?;
    check_unit(
        &rt,
        large.as_str(),
        "",
        "cscout: unit 1: a.c:1:1: file too large\n",
        Status::Workspace,
    )?;
    Ok(())
}

// Files in memory, one read of which finds no memory.
#[derive(Drop)]
struct Forgetful {
    files: MemFiles,
    reads: u32,
    forgets: u32,
}

impl Files for Forgetful {
    ghost use Rattle.cs_base.specs.World.{told_of};

    ghost told = { λ f. told_of f.files };

    fn read(&mut self, alloc: Global, path: &str) -> Got {
        self.reads = self.reads.saturating_add(1);
        if self.reads == self.forgets {
            return Got::Memory;
        }
        self.files.read(alloc, path)
    }

    fn put(&mut self, path: &str, bytes: &[u8]) -> Put {
        self.files.put(path, bytes)
    }
}

// Runs these words over these files, the read of this number without memory, and asserts that nothing is left and told but that.
fn check_forgetful<R: Abort + AllocGlobal>(
    rt: &R,
    texts: &str,
    words: &str,
    forgets: u32,
) -> Result<(), Memory> {
    let mut files = held(rt.alloc(), texts)?;
    files.reserve(2_000)?;
    let mut files = Forgetful {
        files,
        reads: 0,
        forgets,
    };
    let mut out = sink(rt.alloc(), 0)?;
    let mut err = sink(rt.alloc(), 0)?;
    let words = words_of(rt.alloc(), words)?;
    let status = run(rt.alloc(), words.as_slice(), &mut files, &mut out, &mut err);
    assert_eq!(rt; status, Status::Memory);
    assert!(rt; out.bytes().is_empty());
    assert!(rt; err.bytes() == "cscout: out of memory\n".as_bytes());
    assert!(rt; holds(&files.files, texts));
    Ok(())
}

#[test]
fn a_read_without_memory_leaves_all_files(rt: HostRuntime) -> Result<(), Memory> {
    for forgets in 1..4 {
        check_forgetful(&rt, TWO_FILES, "w.cs rename a.c 1 5 count", forgets)?;
    }
    for forgets in 1..7 {
        check_forgetful(&rt, FOUR_FILES, "w.cs batch s", forgets)?;
    }
    Ok(())
}

// What a read gave, as text.
fn shown(got: &Got) -> &[u8] {
    match got {
        Got::Bytes(bytes) => bytes.as_slice(),
        Got::Absent => b"absent",
        Got::Failed => b"failed",
        Got::Memory => b"memory",
    }
}

#[test]
fn adapters_read_and_replace_a_real_file(rt: HostRuntime) -> Result<(), Fail> {
    let folder = env::temp_dir(&rt)?;
    let id = process::id(rt.process());
    let path = format!(in rt.alloc(); "{}/cscout-test-{id}", folder.as_str())?;
    let beside = format!(in rt.alloc(); "{}.cscout-new", path.as_str())?;
    let below = format!(in rt.alloc(); "{}/below", path.as_str())?;
    fs::write(&rt, path.as_str(), "old")?;
    fs::set_permissions(&rt, path.as_str(), Permissions::from_mode(0o640))?;
    let mut files = HostFiles::new(&rt)?;
    assert!(rt; shown(&files.read(rt.alloc(), path.as_str())) == "old".as_bytes());
    assert_eq!(rt; files.put(path.as_str(), b"new bytes"), Put::Done);
    assert!(rt; shown(&files.read(rt.alloc(), path.as_str())) == "new bytes".as_bytes());
    let mode = fs::metadata(&rt, path.as_str())?.permissions().mode();
    assert_eq!(rt; mode & 0o777, 0o640);
    assert!(rt; shown(&files.read(rt.alloc(), beside.as_str())) == "absent".as_bytes());
    assert!(rt; shown(&files.read(rt.alloc(), below.as_str())) == "absent".as_bytes());
    assert!(rt; shown(&files.read(rt.alloc(), folder.as_str())) == "failed".as_bytes());
    assert_eq!(rt; files.put(below.as_str(), b"new"), Put::Failed);
    // A file that stands where the file beside would is not touched, and the put fails.
    fs::write(&rt, beside.as_str(), "mine")?;
    assert_eq!(rt; files.put(path.as_str(), b"newer"), Put::Failed);
    assert!(rt; shown(&files.read(rt.alloc(), beside.as_str())) == "mine".as_bytes());
    assert!(rt; shown(&files.read(rt.alloc(), path.as_str())) == "new bytes".as_bytes());
    fs::remove_file(&rt, beside.as_str())?;
    fs::remove_file(&rt, path.as_str())?;
    Ok(())
}
