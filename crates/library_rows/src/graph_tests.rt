// What is asked of graphs of calls, worked by hand from the definitions.
use analysis::analyse;
use calls_of::{Graph, graph};
use cs_base::Memory;
use std::alloc::{AllocError, Global};
use std::test::Fail;
use ws_file::read_ws;

// The graph of the calls of the unit `a.c`, which is accepted. The files are held, each as `PATH:TEXT` with `@` between them.
fn graph_of(alloc: Global, files: &str) -> Result<Graph, Fail> {
    let Ok(ws) = read_ws(alloc, b"file a.c\n") else {
        return Err(AllocError)?;
    };
    let mut files = row_tools::held(alloc, files)?;
    match analyse(alloc, &ws, &mut files) {
        Ok(analysis) => Ok(graph(alloc, &analysis)?),
        Err(_) => Err(AllocError)?,
    }
}

// The number of the first node with a name, if there is one.
fn numbered(calls: &Graph, name: &str) -> Option<u32> {
    for k in 0..calls.len() {
        if let Some(node) = calls.node(k) {
            if node.name.bytes() == name.as_bytes() {
                return Some(k);
            }
        }
    }
    None
}

// The names of nodes, with a blank behind each.
fn names(alloc: Global, calls: &Graph, numbers: &[u32]) -> Result<Vec<u8>, Memory> {
    let mut text = Vec::new(alloc);
    for number in numbers {
        if let Some(node) = calls.node(*number) {
            text.extend_from_slice(node.name.bytes())?;
            text.push(b' ')?;
        }
    }
    Ok(text)
}

// What is asked of a node.
#[derive(Clone, Copy)]
enum Question {
    Callers,
    Callees,
    Reachable,
}

// The numbers of the nodes that answer a question; none where there is no such node.
fn answer(alloc: Global, calls: &Graph, question: Question, node: u32) -> Result<Vec<u32>, Memory> {
    if node >= calls.len() {
        return Ok(Vec::new(alloc));
    }
    match question {
        Question::Callers => calls.callers(alloc, node),
        Question::Callees => calls.callees(alloc, node),
        Question::Reachable => calls.reachable(alloc, node),
    }
}

// The names of the nodes that answer a question to the node with a name; a dash where there is no such node.
fn told(alloc: Global, calls: &Graph, question: Question, name: &str) -> Result<Vec<u8>, Memory> {
    match numbered(calls, name) {
        Some(node) => {
            let numbers = answer(alloc, calls, question, node)?;
            names(alloc, calls, &numbers)
        }
        None => Ok(Vec::from_slice(alloc, b"-")?),
    }
}

// A macro calls a function, and a function both.
#[test]
fn a_graph_tells_callers_callees_and_what_is_reached(rt: HostRuntime) -> Result<(), Fail> {
    let alloc = rt.alloc();
    let calls = graph_of(
        alloc,
        "a.c:#define TWO(x) add(x, x)\nint add(int a, int b);\nint top(int n) { return TWO(n) + add(n, 1); }\n",
    )?;
    for (question, name, want) in [
        (Question::Callers, "add", "TWO top "),
        (Question::Callees, "TWO", "add "),
        (Question::Reachable, "top", "TWO add "),
        (Question::Callers, "top", ""),
    ] {
        let text = told(alloc, &calls, question, name)?;
        assert_eq!(rt; text.as_slice(), want.as_bytes(), "{name}");
    }
    Ok(())
}

// A chain leads from a function back to it.
#[test]
fn a_recursive_function_reaches_itself_once(rt: HostRuntime) -> Result<(), Fail> {
    let alloc = rt.alloc();
    let calls = graph_of(
        alloc,
        "a.c:int g(void);\nint f(void) { return g() + f(); }\nint g(void) { return f(); }\n",
    )?;
    let text = told(alloc, &calls, Question::Reachable, "f")?;
    assert_eq!(rt; text.as_slice(), b"g f ".as_slice());
    Ok(())
}
