// Lists in short texts, with the spans of their items, worked by hand.
use cs_base::Memory;
use list_cuts::{ListSpans, Span, arrange, is_order};
use std::alloc::Global;
use std::test::Fail;

// A text; its lists, `;` between them, each of items from a byte to before another, `,` between them; the order; and the
// text in that order, or nothing where this is no order.
struct Row {
    text: &'static str,
    lists: &'static str,
    order: &'static str,
    want: &'static str,
}

const ROWS: [Row; 9] = [
    Row {
        text: "f(1, 2);",
        lists: "2-3,5-6",
        order: "2,1",
        want: "f(2, 1);",
    },
    // A list inside an item changes too, and goes along.
    Row {
        text: "f(f(1, 2), g(3))",
        lists: "2-9,11-15;4-5,7-8",
        order: "2,1",
        want: "f(g(3), f(2, 1))",
    },
    // Place k takes item `order[k]`; comments and white space between items stay.
    Row {
        text: "f(a,\n  b /* x */ , c)",
        lists: "2-3,7-8,19-20",
        order: "2,3,1",
        want: "f(b,\n  c /* x */ , a)",
    },
    // Items of unlike length, and a list behind another one.
    Row {
        text: "f(x + y, 1); f(0, (z))",
        lists: "2-7,9-10;15-16,18-21",
        order: "2,1",
        want: "f(1, x + y); f((z), 0)",
    },
    // An item that is empty, as an argument of a macro may be.
    Row {
        text: "M(,ab)",
        lists: "2-2,3-5",
        order: "2,1",
        want: "M(ab,)",
    },
    Row {
        text: "f(void)",
        lists: "2-6",
        order: "1",
        want: "f(void)",
    },
    // No orders of two items.
    Row {
        text: "f(1, 2);",
        lists: "2-3,5-6",
        order: "2,2",
        want: "",
    },
    Row {
        text: "f(1, 2);",
        lists: "2-3,5-6",
        order: "1,3",
        want: "",
    },
    Row {
        text: "f(1, 2);",
        lists: "2-3,5-6",
        order: "0,1",
        want: "",
    },
];

fn number(text: &str) -> usize {
    text.parse::<usize>().unwrap_or(0)
}

// The items of a list.
fn spans_of(alloc: Global, text: &str) -> Result<ListSpans, Memory> {
    let mut items = Vec::new(alloc);
    for item in text.split(',') {
        if let Some((begin, end)) = item.split_once('-') {
            items.push(Span {
                begin: number(begin),
                end: number(end),
            })?;
        }
    }
    Ok(ListSpans::new(items))
}

fn lists_of(alloc: Global, text: &str) -> Result<Vec<ListSpans>, Memory> {
    let mut lists = Vec::new(alloc);
    for list in text.split(';') {
        lists.push(spans_of(alloc, list)?)?;
    }
    Ok(lists)
}

fn order_of(alloc: Global, text: &str) -> Result<Vec<usize>, Memory> {
    let mut order = Vec::new(alloc);
    for word in text.split(',') {
        order.push(number(word))?;
    }
    Ok(order)
}

// What a row gives.
fn given(alloc: Global, row: &Row) -> Result<Vec<u8>, Memory> {
    let lists = lists_of(alloc, row.lists)?;
    let order = order_of(alloc, row.order)?;
    if is_order(alloc, order.len(), &order)? {
        arrange(alloc, row.text.as_bytes(), &lists, &order)
    } else {
        Ok(Vec::new(alloc))
    }
}

#[test]
fn items_change_places(rt: HostRuntime) -> Result<(), Fail> {
    for row in ROWS.iter() {
        let made = given(rt.alloc(), row)?;
        assert_eq!(rt;
            made.as_slice(),
            row.want.as_bytes(),
            "{} {}",
            row.text,
            row.order
        );
    }
    Ok(())
}
