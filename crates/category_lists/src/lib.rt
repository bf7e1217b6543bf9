// Categories: their rules, the lists of a sheet column by column, and the lists of a result written into two lent buffers.
#![tactic(auto)]

ghost use Rattle.std.specs.Prelude.{◌≡◌, List, [], ℕ, ◌+◌, ◌*◌, ◌^◌, ◌≤◌, ◌<◌, ℤ, length, take, get_or};
ghost use Rattle.numbers.specs.Result.{Result, ok};
ghost use Rattle.numbers.specs.Kind.{fitting, eq_z};
ghost use Rattle.utilities.specs.Lists.{firsts, noted};
ghost use Rattle.utilities.specs.Noted.{Begins, Hinting, hint_count};
ghost use Rattle.base.specs.Form.{form_of, list_count};
ghost use Rattle.base.specs.Decode.{as_whole, lists};
ghost use Rattle.base.specs.Components.{family_of};
ghost use Rattle.base.specs.declared.Family.TheVariants as Fam;
ghost use Rattle.category_lists.specs.Categories.{abs_whole, rule_of};
ghost use Rattle.category_lists.specs.Columnwise.{Listed, Reaches, Alike, pick, spread_of, lesser_of};
ghost use Rattle.category_lists.specs.Answers.{Arrays, Stored, Grown, Columns, gathered};

use base::form::Form;
use base::refusals::Refusal;
use base::{Component, form};
use writer::Parts;

// ---- the rules

// -2^63 has no magnitude in 64 signed bits.
fn magnitude(a: i64) -> Option<i64>
    ensures { fitting result ≡ abs_whole a }
{
    if 0 <= a {
        return Some(a);
    }
    numbers::checked_neg(a)
}

// The rule of Abs or Negative.
pub fn mapping(c: Component, a: i64) -> Option<i64>
    requires { family_of c ≡ Fam.Unary }
    ensures { fitting result ≡ rule_of c a a }
{
    match c {
        Component::Abs => magnitude(a),
        Component::Negative => numbers::checked_neg(a),
        _ => None,
    }
}

// The rule of Add, Subtract, Multiply or Divide.
pub fn category(c: Component, a: i64, b: i64) -> Option<i64>
    requires { family_of c ≡ Fam.Pair }
    ensures { fitting result ≡ rule_of c a b }
{
    match c {
        Component::Add => numbers::checked_add(a, b),
        Component::Subtract => numbers::checked_sub(a, b),
        Component::Multiply => numbers::checked_mul(a, b),
        Component::Divide => numbers::checked_div(a, b),
        _ => None,
    }
}

// ---- an operand's lists

// List j of a sheet, without repeats, goes to the start of out. Returns how many values it has.
fn list_into(f: Form, s: &[u8], j: usize, out: &mut [i64], hints: &mut [u8]) -> usize
    requires { Listed (form_of f) s.now × (j < list_count (form_of f) s.now) × ((form_of f).category_limit ≤ length out.old) × (length hints.old ≡ hint_count) }
    ensures { Begins (firsts eq_z (get_or (lists (form_of f) s.now as_whole) j [])) result out.old out.new }
{
    let sizes = base::sizes_at(f, s);
    let g = sizes.groups;
    let lists = sizes.lists;
    let t = sizes.categories;
    utilities::clear_hints(hints);
    let mut n = 0;
    for i in 0..t {
        if base::list_number(f, s, g, lists, t, i) == j {
            let v = base::i64_at(s, f.value_at(g, t, i));
            // There is room for every category of a sheet.
            let Some(m) = utilities::note_hinted(out, n, v, hints) else {
                return n;
            };
            n = m;
        }
    }
    n
}

// The list of column j: one list stands for every column.
pub fn column_list(f: Form, s: &[u8], j: usize, out: &mut [i64], hints: &mut [u8]) -> usize
    requires { Listed (form_of f) s.now × Reaches (form_of f) s.now j × ((form_of f).category_limit ≤ length out.old) × (length hints.old ≡ hint_count) }
    ensures { Begins (firsts eq_z (pick (lists (form_of f) s.now as_whole) j)) result out.old out.new }
{
    let sizes = base::sizes_at(f, s);
    if sizes.lists == 1 {
        return list_into(f, s, 0, out, hints);
    }
    list_into(f, s, j, out, hints)
}

// ---- a result's list

// A result goes behind the k that were noted, unless it is among them. Returns how many there are then, or one more than there is room for.
pub fn note_result(store: &mut [i64], k: usize, v: i64, hints: &mut [u8]) -> usize
    requires { (k ≤ length store.old + 1) × (length store.old < 2 ^ 32) × Hinting hints.old (take k store.old) }
    ensures { (result ≤ length store.old + 1) × Hinting hints.new (take result store.new) × ((seen : List ℤ) → Stored k store.old seen → Stored result store.new (noted eq_z seen v)) }
{
    if store.len() < k {
        return k;
    }
    let Some(m) = utilities::note_hinted(store, k, v, hints) else {
        return k + 1;
    };
    m
}

// ---- the columns, gathered

// List j, of k values, goes behind the t categories that were written. Returns how many there are then, or one more than the limit.
pub fn append_list(
    f: Form,
    store: &[i64],
    k: usize,
    j: usize,
    t: usize,
    numbers: &mut [u8],
    values: &mut [u8],
) -> usize
    requires k_bound { (k ≤ (form_of f).category_limit + 1) × (length store.now ≡ (form_of f).category_limit) × (j < (form_of f).list_limit) × (t ≤ (form_of f).category_limit + 1) }
    requires arrays { Arrays (form_of f) numbers.old values.old }
    ensures { (result ≤ (form_of f).category_limit + 1) × ((xs : List ℤ) → Stored k store.now xs → Grown (form_of f) xs j t numbers.old values.old result numbers.new values.new) }
{
    let limit = f.category_limit();
    if limit < t + k {
        return limit + 1;
    }
    let mut at = f.numbers_length(t);
    let mut place = form::VALUE_WIDTH * t;
    for &v in &store[..k] {
        at = writer::put_number(f, numbers, at, j);
        place = octets::put_i64(values, place, v);
    }
    t + k
}

// n lists of t categories, of a nature.
pub fn gather(f: Form, nature: u8, n: usize, t: usize) -> Result<Parts, Refusal>
    requires { (n ≤ (form_of f).list_limit) × (t ≤ (form_of f).category_limit + 1) }
    ensures { result ≡ gathered (form_of f) nature n t }
{
    if f.category_limit() < t {
        return Err(Refusal::OverTheLimit);
    }
    Ok(Parts {
        nature,
        entries: n,
        values: t,
        text: 0,
        first: f.numbers_length(t),
        second: form::VALUE_WIDTH * t,
    })
}

// The column behind those that are as column j: where each operand has one list, all are.
pub fn column_end(f: Form, left: &[u8], right: &[u8], j: usize, n: usize) -> usize
    requires { Listed (form_of f) left.now × Listed (form_of f) right.now × (j < n) }
    ensures { (j < result) × (result ≤ n) × Alike (form_of f) left.now right.now j result }
{
    let l = base::sizes_at(f, left);
    let r = base::sizes_at(f, right);
    if l.lists == 1 {
        if r.lists == 1 {
            return n;
        }
    }
    j + 1
}

// The columns from j up to end, which have the same list of k values, go behind the t categories that were written.
pub fn append_columns(
    f: Form,
    store: &[i64],
    k: usize,
    j: usize,
    end: usize,
    t: usize,
    numbers: &mut [u8],
    values: &mut [u8],
) -> usize
    requires k_bound { (k ≤ (form_of f).category_limit + 1) × (length store.now ≡ (form_of f).category_limit) × (j ≤ end) × (end ≤ (form_of f).list_limit) × (t ≤ (form_of f).category_limit + 1) }
    requires arrays { Arrays (form_of f) numbers.old values.old }
    ensures { (each : ℕ → Result (List ℤ)) (n : ℕ) (xs : List ℤ) → Stored k store.now xs → end ≤ n → ((i : ℕ) → j ≤ i → i < end → each i ≡ ok xs) → Columns (form_of f) each n j t numbers.old values.old → Columns (form_of f) each n end result numbers.new values.new }
{
    let mut total = t;
    for i in j..end {
        total = append_list(f, store, k, i, total, numbers, values);
    }
    total
}

// How many columns n lists have.
pub fn spread(columns: usize, n: usize) -> usize
    ensures { result ≡ spread_of columns n }
{
    if n == 1 { columns } else { n }
}

// How far two operands' lists go together. Lists that 29 has passed go over all columns.
#[tactic(auto, using(crate::proofs::Columnwise::lesser_is))]
pub fn lesser(a: usize, b: usize) -> usize
    ensures { result ≡ lesser_of a b }
{
    a.min(b)
}
