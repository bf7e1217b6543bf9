// Checks 4 and 5 of the arrays behind a sheet's head: one pass over each that is not left early.
#![tactic(auto)]

ghost use Rattle.std.specs.Prelude.{◌≡◌, ◌+◌, ◌≤◌, not, ◌&&◌, ◌||◌, length, ◌==◌};
ghost use Rattle.std.specs.Float.Ieee.Scale.{finite};
ghost use Rattle.base.specs.Form.{form_of};
ghost use Rattle.base.specs.Decode.{as_float, end_at};
ghost use Rattle.base.specs.Checks.{holds_from, mark_permitted, number_permitted, lists_permitted, bool_permitted, end_to_end, crossed, unbounded};
ghost use Rattle.base.specs.Sized.{RangeFits, ListsFit};
ghost use Rattle.base.specs.Entries.{span_holds};
ghost use Rattle.array_checks.specs.Found.{EntryFaults};

use base::form;
use base::form::Form;
use base::number::Number;

// What a pass finds.
#[derive(Clone, Copy)]
pub struct Faults {
    // 4 fails.
    pub fields: bool,
    // 5 fails.
    pub bounds: bool,
}

// ---- 4, an end

// 0 for a mark of 1, and for a mark of 0 with 64 zero bits: words are gathered by `|`, without a branch.
pub fn end_word(mark: u8, bits: u64) -> u64
    ensures { (result == 0) ≡ (mark == 1 || (mark == 0 && bits == 0)) }
{
    let m = mark as u64;
    (m & 0xfe) | (std::num::wrapping_sub_u64(m, 1) & bits)
}

// The same of the mark at `at` and the bits behind it.
fn end_fault(s: &[u8], at: usize) -> u64
    requires { at + 9 ≤ length s.now }
    ensures { (result == 0) ≡ mark_permitted at (at + 1) s.now }
{
    end_word(base::byte_at(s, at), base::u64_at(s, at + 1))
}

// ---- 5, an entry

// The bits of a float's exponent.
const EXPONENT: u64 = 0x7ff0_0000_0000_0000;

// Whether bits are an infinity's or a NaN's: the exponent is all ones.
fn is_far(bits: u64) -> bool
    ensures { result ≡ not (finite (as_float bits)) }
{
    (bits & EXPONENT) == EXPONENT
}

fn is_unbounded(s: &[u8], at: usize) -> bool
    requires { at + 9 ≤ length s.now }
    ensures { result ≡ unbounded (end_at as_float at s.now) }
{
    (base::byte_at(s, at) != 0) & is_far(base::u64_at(s, at + 1))
}

#[tactic(auto, using(crate::proofs::Marked::crossed_is))]
fn crossed<N: Number>(s: &[u8], lower: usize, upper: usize) -> bool
    requires { (lower + 9 ≤ length s.now) × (upper + 9 ≤ length s.now) }
    ensures { result ≡ crossed N.kind (end_at N.read lower s.now) (end_at N.read upper s.now) }
{
    let a = N::at(s, lower + 1);
    let c = N::at(s, upper + 1);
    (base::byte_at(s, lower) != 0) & (base::byte_at(s, upper) != 0) & c.is_below(a)
}

// The entry whose ends stand at `lower` and `upper`.
fn span_fails(s: &[u8], floats: bool, lower: usize, upper: usize) -> bool
    requires { (lower + 9 ≤ length s.now) × (upper + 9 ≤ length s.now) }
    ensures { result ≡ not (span_holds floats s.now lower upper) }
{
    if floats {
        return is_unbounded(s, lower) | is_unbounded(s, upper) | crossed::<f64>(s, lower, upper);
    }
    crossed::<i64>(s, lower, upper)
}

// ---- 4 and 5 of a range

// The n entries of a range: one pass gathers both answers. Which of the two counts is the caller's to say.
pub fn entry_faults(f: Form, s: &[u8], floats: bool, g: usize, n: usize) -> Faults
    requires { RangeFits (form_of f) s.now g n }
    ensures { EntryFaults (form_of f) floats s.now n result }
{
    let mut bad: u64 = 0;
    let mut unordered = false;
    for i in 0..n {
        let lower = f.lower_at(g, i);
        let upper = f.upper_at(g, n, i);
        bad |= end_fault(s, lower) | end_fault(s, upper);
        unordered |= span_fails(s, floats, lower, upper);
    }
    Faults {
        fields: bad != 0,
        bounds: unordered,
    }
}

// ---- 4, categories

// Whether no list number is below the one before it, and each is below n. Where none falls, the last is the greatest and is tested for all. Before the
// first stands 0, which no number is below.
fn numbers_permitted(f: Form, s: &[u8], g: usize, n: usize, t: usize) -> bool
    requires { ListsFit (form_of f) s.now g n t }
    ensures { result ≡ holds_from t 0 (number_permitted (form_of f) s.now) }
{
    let mut fallen = false;
    let mut last = 0;
    for i in 0..t {
        let number = base::list_number(f, s, g, n, t, i);
        fallen |= number < last;
        last = number;
    }
    !fallen & ((t == 0) | (last < n))
}

// Whether each of t values is 0 or 1.
fn bools_permitted(f: Form, s: &[u8], g: usize, n: usize, t: usize) -> bool
    requires { ListsFit (form_of f) s.now g n t }
    ensures { result ≡ holds_from t 0 (bool_permitted (form_of f) s.now) }
{
    let mut bad = false;
    for i in 0..t {
        bad |= 1 < base::u64_at(s, f.value_at(g, t, i));
    }
    !bad
}

pub fn lists_permitted(f: Form, s: &[u8], g: usize, n: usize, t: usize) -> bool
    requires { ListsFit (form_of f) s.now g n t }
    ensures { result ≡ lists_permitted (form_of f) s.now }
{
    let numbers = numbers_permitted(f, s, g, n, t);
    if base::nature_of(f, s) == form::BOOL_LISTS {
        return numbers & bools_permitted(f, s, g, n, t);
    }
    numbers
}

// ---- 4, texts

// Whether the t texts lie end to end from 0 to the area's end. Lengths of 32 bits are added in 64.
pub fn texts_permitted(f: Form, s: &[u8], g: usize, n: usize, t: usize) -> bool
    requires { ListsFit (form_of f) s.now g n t }
    ensures { result ≡ end_to_end (form_of f) s.now t 0 0 }
{
    let mut bad = false;
    let mut at: u64 = 0;
    for i in 0..t {
        let v = base::u64_at(s, f.value_at(g, t, i));
        bad |= v % 0x1_0000_0000 != at;
        at += v / 0x1_0000_0000;
    }
    !bad & (at == base::area_size(f, s) as u64)
}
