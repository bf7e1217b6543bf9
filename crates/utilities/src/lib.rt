// Lists of whole numbers without repeats: first occurrences stay. Lists spread over columns.
#![tactic(auto)]

ghost use Rattle.std.specs.Prelude.{◌≡◌, ◌≤◌, ◌<◌, length, take, replicate};
ghost use Rattle.numbers.specs.Kind.{eq_z};
ghost use Rattle.utilities.specs.Lists.{has};
ghost use Rattle.utilities.specs.Columns.{spreads};
ghost use Rattle.utilities.specs.Noted.{Notes, Hinting, hint_count, hint_at, held};

// Whether a list of n goes with the columns: one for all of them, or one for each.
pub fn spreads(columns: usize, n: usize) -> bool
    ensures { result ≡ spreads columns n }
{
    (n == columns) | (n == 1)
}

// Whether x is among the first n values. `contains` takes half as long again where there are many.
fn has(s: &[i64], n: usize, x: i64) -> bool
    requires { n ≤ length s.now }
    ensures { result ≡ has eq_z x (take n s.now) }
{
    for y in &s[..n] {
        if *y == x {
            return true;
        }
    }
    false
}

// ---- hints

// How many hints there are: one for each low byte of a value. A hint is 0 as long as no value with its low byte was noted.
pub const HINTS: usize = 256;

// No value was noted yet: every hint is 0.
pub fn clear_hints(hints: &mut [u8])
    requires { length hints.old ≡ hint_count }
    ensures { hints.new ≡ replicate hint_count 0 }
{
    for i in 0..HINTS {
        hints[i] = 0;
    }
}

// Where the hint of x stands.
fn hint_at(x: i64) -> usize
    ensures { result ≡ hint_at x }
{
    (octets::complement(x) % 256) as usize
}

// That a value was noted behind n others. Where n is too great for a byte the hint is a wrong one, which costs time alone.
fn hint_of(n: usize) -> u8
    ensures { 0 < result }
{
    ((n % 255) as u8) + 1
}

// `has`: a hint of 0 tells that x is new, another where it may stand.
fn has_hinted(s: &[i64], n: usize, x: i64, hints: &[u8], at: usize) -> bool
    requires { (n ≤ length s.now) × Hinting hints.now (take n s.now) × (at ≡ hint_at x) }
    ensures { result ≡ has eq_z x (take n s.now) }
{
    let hint = octets::wide(hints[at]);
    if hint == 0 {
        return false;
    }
    if hint <= n {
        if s[hint - 1] == x {
            return true;
        }
    }
    has(s, n, x)
}

// A value goes behind the first n, unless it is among them; the answer is how many there are then, or none where there is no room for one more. The hints go on
// telling which values were noted.
pub fn note_hinted(out: &mut [i64], n: usize, x: i64, hints: &mut [u8]) -> Option<usize>
    requires { (n ≤ length out.old) × Hinting hints.old (take n out.old) }
    ensures { Notes n x out.old out.new result × Hinting hints.new (take (held n result) out.new) }
{
    let at = hint_at(x);
    if has_hinted(out, n, x, hints, at) {
        return Some(n);
    }
    if n < out.len() {
        hints[at] = hint_of(n);
        out[n] = x;
        return Some(n + 1);
    }
    None
}
