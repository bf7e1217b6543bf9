// Document 01's shelf examples and traps, and Pool, Subtract of ranges, counted category lists and lists without repeats of document 02: sheets are built, the gate derives, and what its output says is written with both signs.
#![tactic(auto)]

ghost use Rattle.std.specs.Prelude.{◌≡◌};

mod sheet; // operands
mod show; // what bytes say

use base::{Bound, Component};
use sheet::{Ends, Sheet, whole};

// The node number of every call.
const CALL_NODE: u32 = 9;

// What the length in a reply is multiplied by.
const LENGTH_UNIT: u64 = 4294967296;

// Makes a call, writes its operands and its answer, and gives the derived sheet.
fn derive(rt: &impl Print, component: u32, left: &[u8], right: &[u8]) -> Sheet
    ensures { (left.exit.now ≡ left.entry.now) × (right.exit.now ≡ right.entry.now) }
{
    let _ = print!(rt; "{} ", words::component(component));
    show::sheet(rt, left);
    if !right.is_empty() {
        let _ = print!(rt; ", ");
        show::sheet(rt, right);
    }
    let mut out = Sheet::zeros();
    let reply = gate::propagate_property(component, CALL_NODE, left, right, &mut out.bytes);
    out.len = (reply / LENGTH_UNIT) as usize;
    let _ = print!(rt; " -> ");
    match reply % LENGTH_UNIT {
        0 => show::sheet(rt, out.as_slice()),
        code => {
            let _ = print!(rt; "refused with {code}");
        }
    }
    out
}

fn line_end(rt: &impl Print) {
    let _ = println!(rt; "");
}

// Abs and Negative do not read the right sheet: it has no byte.
fn alone(rt: &impl Print, component: u32, left: Sheet) {
    derive(rt, component, left.as_slice(), b"");
    line_end(rt);
}

fn pair(rt: &impl Print, component: u32, left: Sheet, right: Sheet) {
    derive(rt, component, left.as_slice(), right.as_slice());
    line_end(rt);
}

// A difference, and Abs of the sheet that it wrote.
fn next_step(rt: &impl Print, left: Sheet, right: Sheet) {
    let difference = derive(rt, Component::SUBTRACT, left.as_slice(), right.as_slice());
    line_end(rt);
    alone(rt, Component::ABS, difference);
}

// Ranges of one column.
fn ranges(rt: &impl Print, component: u32, e: Ends, f: Ends) {
    pair(rt, component, Sheet::range(e, 1), Sheet::range(f, 1));
}

// Two values on each side: `lists` lists on the left, one of 10 and 11 on the right.
fn with_categories(rt: &impl Print, component: u32, a: i64, b: i64, lists: u8, columns: u8) {
    pair(
        rt,
        component,
        Sheet::categories(a, b, lists, columns),
        Sheet::categories(10, 11, 1, columns),
    );
}

// A remainder keeps the node of its left operand.
fn node_of_modulo(rt: &impl Print) {
    let left = Sheet::range(whole(0, 1), 1).with_node(77);
    let right = Sheet::range(whole(3, 8), 1);
    let out = derive(rt, Component::MODULO, left.as_slice(), right.as_slice());
    let _ = print!(rt; "; node ");
    show::node(rt, left.as_slice());
    let _ = print!(rt; " -> node ");
    show::node(rt, out.as_slice());
    line_end(rt);
}

// Two private operands of one dataset, with other numbers of rows.
fn rows_of_one_dataset(rt: &impl Print) {
    let left = Sheet::range(whole(1, 2), 1).private(5);
    let right = Sheet::range(whole(10, 20), 1).private(3);
    let out = derive(rt, Component::ADD, left.as_slice(), right.as_slice());
    let _ = print!(rt; "; rows ");
    show::rows(rt, left.as_slice());
    let _ = print!(rt; " and ");
    show::rows(rt, right.as_slice());
    let _ = print!(rt; " -> rows ");
    show::rows(rt, out.as_slice());
    line_end(rt);
}

fn starred(rt: &impl Print) {
    alone(rt, Component::ABS, Sheet::range(whole(-5, 3), 1));
    alone(rt, Component::ABS, Sheet::range(whole(-7, -2), 1));
    alone(rt, Component::ABS, Sheet::range(whole(0, 5), 1));
    ranges(rt, Component::ADD, whole(1, 2), whole(10, 20));
    ranges(rt, Component::SUBTRACT, whole(0, 1), whole(0, 5));
    ranges(rt, Component::MULTIPLY, whole(-2, 3), whole(4, 5));
    ranges(rt, Component::DIVIDE, whole(-7, 7), whole(2, 3));
    ranges(rt, Component::DIVIDE, whole(1, 10), whole(0, 5));
    ranges(
        rt,
        Component::DIVIDE,
        whole(1, 10),
        Ends(Bound::Absent, Bound::Whole(5)),
    );
}

fn starred_too(rt: &impl Print) {
    ranges(rt, Component::MODULO, whole(0, 1), whole(3, 8));
    ranges(rt, Component::MODULO, whole(0, 1), whole(0, 8));
    alone(
        rt,
        Component::NEGATIVE,
        Sheet::range(Ends(Bound::Whole(-5), Bound::Absent), 1),
    );
    alone(
        rt,
        Component::NEGATIVE,
        Sheet::range(whole(-9223372036854775808, 0), 1),
    );
    with_categories(rt, Component::ADD, 1, 2, 1, 1);
}

fn not_starred(rt: &impl Print) {
    alone(rt, Component::ABS, Sheet::categories(-3, 3, 1, 1));
    for columns in 16..18 {
        let left = Sheet::range(whole(1, 2), columns);
        pair(
            rt,
            Component::ADD,
            left,
            Sheet::range(whole(10, 20), columns),
        );
    }
}

fn traps(rt: &impl Print) {
    alone(rt, Component::ABS, Sheet::range(whole(0, 5), 1));
    node_of_modulo(rt);
    with_categories(rt, Component::ADD, 1, 2, 2, 3);
    rows_of_one_dataset(rt);
}

fn pooled(rt: &impl Print) {
    ranges(rt, Component::POOL, whole(1, 2), whole(-3, 5));
    ranges(
        rt,
        Component::POOL,
        Ends(Bound::Whole(1), Bound::Absent),
        whole(-3, 5),
    );
    with_categories(rt, Component::POOL, 11, 2, 1, 1);
    with_categories(rt, Component::POOL, 1, 2, 2, 2);
}

// Each end crosses: it is absent if one of its own two is, and leaves 64 bits by itself.
fn differences(rt: &impl Print) {
    next_step(
        rt,
        Sheet::range(whole(0, 1), 1),
        Sheet::range(whole(0, 5), 1),
    );
    ranges(
        rt,
        Component::SUBTRACT,
        whole(4, 9),
        Ends(Bound::Absent, Bound::Whole(3)),
    );
    ranges(
        rt,
        Component::SUBTRACT,
        whole(-5, -2),
        whole(-9223372036854775808, -9223372036854775808),
    );
    ranges(
        rt,
        Component::SUBTRACT,
        whole(-1, 4),
        whole(-9223372036854775808, 3),
    );
}

// One list, or one for each column. A list holds each result once, and another list may hold it too.
fn counted(rt: &impl Print) {
    with_categories(rt, Component::ADD, 1, 2, 2, 2);
    with_categories(rt, Component::ADD, 1, 2, 2, 1);
    with_categories(rt, Component::POOL, 1, 2, 2, 3);
    alone(rt, Component::ABS, Sheet::categories(-3, 3, 2, 2));
    alone(rt, Component::NEGATIVE, Sheet::categories(-3, 3, 1, 1));
}

fn main(rt: HostRuntime) {
    let _ = println!(rt; "Starred");
    starred(&rt);
    starred_too(&rt);
    let _ = println!(rt; "Not starred");
    not_starred(&rt);
    let _ = println!(rt; "Traps");
    traps(&rt);
    let _ = println!(rt; "Pool");
    pooled(&rt);
    let _ = println!(rt; "Subtract of ranges");
    differences(&rt);
    let _ = println!(rt; "Category lists");
    counted(&rt);
}
