// What a sheet's bytes say, in words. The examples' sheets have no groups. What cannot be written is left out, and what follows is tried all the same.
ghost use Rattle.std.specs.Prelude.{◌≡◌, ◌<◌};

use crate::sheet;
use base::form;

// The byte at a place; past the end, 0.
fn byte_at(s: &[u8], at: usize) -> u8 {
    s.get(at).copied().unwrap_or(0)
}

// A count; of the examples' it is all in the first byte.
fn count_at(s: &[u8], at: usize) -> usize
    ensures { result < 256 }
{
    usize::from(byte_at(s, at))
}

// What is said of a place past the end.
fn missing(rt: &impl Print) {
    let _ = print!(rt; "missing");
}

// The signed number whose two's complement is `v`, with its sign.
fn signed(rt: &impl Print, v: u64) {
    let sign = if v < 0x8000_0000_0000_0000 { '+' } else { '-' };
    let _ = print!(rt; "{sign}{}", words::magnitude(v));
}

// The 64 bits at a place, as a signed number.
fn number_at(rt: &impl Print, s: &[u8], at: usize)
    ensures { s.exit.now ≡ s.entry.now }
{
    if s.len() < 8 || s.len() - 8 < at {
        missing(rt);
        return;
    }
    signed(rt, base::u64_at(s, at));
}

// The number at a place, if its mark says that it is present.
fn marked(rt: &impl Print, s: &[u8], mark: usize, at: usize)
    ensures { s.exit.now ≡ s.entry.now }
{
    match s.get(mark) {
        None => missing(rt),
        Some(0) => {
            let _ = print!(rt; "absent");
        }
        Some(_) => number_at(rt, s, at),
    }
}

fn end_at(rt: &impl Print, s: &[u8], at: usize)
    requires { at < 65536 }
    ensures { s.exit.now ≡ s.entry.now }
{
    marked(rt, s, at, at + 1);
}

// Entry i of the range's n.
fn entry(rt: &impl Print, s: &[u8], n: usize, i: usize)
    requires { (n < 256) × (i < n) }
    ensures { s.exit.now ≡ s.entry.now }
{
    let lower = form::NARROW_ARRAYS_AT + form::END_WIDTH * i;
    let _ = print!(rt; "[");
    end_at(rt, s, lower);
    let _ = print!(rt; ", ");
    end_at(rt, s, lower + form::END_WIDTH * n);
    let _ = print!(rt; "]");
}

fn range(rt: &impl Print, s: &[u8])
    ensures { s.exit.now ≡ s.entry.now }
{
    let n = count_at(s, sheet::LISTS_AT);
    for i in 0..n {
        entry(rt, s, n, i);
    }
}

// Category i of t, if it is of list k.
fn category(rt: &impl Print, s: &[u8], t: usize, i: usize, k: usize)
    requires { (t < 256) × (i < t) }
    ensures { s.exit.now ≡ s.entry.now }
{
    let place = form::NARROW_ARRAYS_AT + i;
    if count_at(s, place) != k {
        return;
    }
    if 0 < i && count_at(s, place - 1) == k {
        let _ = print!(rt; ", ");
    }
    number_at(rt, s, form::NARROW_ARRAYS_AT + t + form::VALUE_WIDTH * i);
}

fn values(rt: &impl Print, s: &[u8], k: usize)
    ensures { s.exit.now ≡ s.entry.now }
{
    let t = count_at(s, sheet::CATEGORIES_AT);
    for i in 0..t {
        category(rt, s, t, i, k);
    }
}

// The lists; one without values is written too.
fn categories(rt: &impl Print, s: &[u8])
    ensures { s.exit.now ≡ s.entry.now }
{
    for k in 0..count_at(s, sheet::LISTS_AT) {
        let _ = print!(rt; "{{");
        values(rt, s, k);
        let _ = print!(rt; "}}");
    }
}

// The nature, and the columns where there are several.
pub(crate) fn sheet(rt: &impl Print, s: &[u8])
    ensures { s.exit.now ≡ s.entry.now }
{
    let nature = byte_at(s, form::NATURE_AT);
    if nature == form::WHOLE_RANGE {
        range(rt, s);
    } else if nature == form::WHOLE_LISTS {
        categories(rt, s);
    } else {
        let _ = print!(rt; "nothing");
    }
    let columns = byte_at(s, form::COLUMNS_AT);
    if columns != 1 {
        let _ = print!(rt; " over {columns} columns");
    }
}

pub(crate) fn node(rt: &impl Print, s: &[u8])
    ensures { s.exit.now ≡ s.entry.now }
{
    number_at(rt, s, form::NODE_AT);
}

pub(crate) fn rows(rt: &impl Print, s: &[u8])
    ensures { s.exit.now ≡ s.entry.now }
{
    marked(rt, s, form::ROWS_MARK_AT, form::ROWS_AT);
}
