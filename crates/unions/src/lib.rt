// Categories united by Pool: of two sheets, left's lists followed by right's, repeats gone, written into two lent buffers.
#![tactic(auto)]

ghost use Rattle.std.specs.Prelude.{◌≡◌, List, ◌++◌, ◌+◌, ◌^◌, ◌≤◌, ◌<◌, ℤ, length, take};
ghost use Rattle.numbers.specs.Result.{and_then};
ghost use Rattle.numbers.specs.Kind.{eq_z};
ghost use Rattle.utilities.specs.Lists.{firsts_from, firsts};
ghost use Rattle.utilities.specs.Noted.{Hinting, hint_count};
ghost use Rattle.base.specs.Form.{form_of, list_count};
ghost use Rattle.base.specs.Decode.{as_whole, lists, nature_in};
ghost use Rattle.writer.specs.Written.{derived_in, in_writing, lists_room, Within};
ghost use Rattle.category_lists.specs.Categories.{kept_to};
ghost use Rattle.category_lists.specs.Columnwise.{Listed, each_from};
ghost use Rattle.category_lists.specs.Answers.{Stores, Arrays, Stored, lists_written};
ghost use Rattle.calls.specs.Natures.{united_nature};
ghost use Rattle.unions.specs.Code.{Uniting, union_of};

use base::form::Form;
use base::refusals::Refusal;
use writer::Parts;

// The first n values go behind the k that were noted, each unless it is among them. Returns how many there are then, or one more than there is room for.
fn note_values(store: &mut [i64], k: usize, values: &[i64], n: usize, hints: &mut [u8]) -> usize
    requires { (k ≤ length store.old + 1) × (length store.old < 2 ^ 32) × (n ≤ length values.now) × Hinting hints.old (take k store.old) }
    ensures { (result ≤ length store.old + 1) × Hinting hints.new (take result store.new) × ((seen : List ℤ) → Stored k store.old seen → Stored result store.new (firsts_from eq_z seen (take n values.now))) }
{
    let mut count = k;
    for &v in &values[..n] {
        count = category_lists::note_result(store, count, v, hints);
    }
    count
}

// The first l of us and then the first r of bs, each value once. Returns as note_values does.
fn note_both(
    store: &mut [i64],
    us: &[i64],
    l: usize,
    bs: &[i64],
    r: usize,
    hints: &mut [u8],
) -> usize
    requires { (length store.old < 2 ^ 32) × (l ≤ length us.now) × (r ≤ length bs.now) × (length hints.old ≡ hint_count) }
    ensures { (result ≤ length store.old + 1) × Stored result store.new (firsts eq_z (take l us.now ++ take r bs.now)) }
{
    utilities::clear_hints(hints);
    let m = note_values(store, 0, us, l, hints);
    note_values(store, m, bs, r, hints)
}

// n columns in order, of each left's list and then right's.
fn unions_into(
    f: Form,
    nature: u8,
    n: usize,
    left: &[u8],
    right: &[u8],
    us: &mut [i64],
    bs: &mut [i64],
    store: &mut [i64],
    hints: &mut [u8],
    numbers: &mut [u8],
    values: &mut [u8],
) -> Result<Parts, Refusal>
    requires listed { Listed (form_of f) left.now × ((list_count (form_of f) left.now ≡ 1 → ⊥) → n ≤ list_count (form_of f) left.now) }
    requires listed_2 { Listed (form_of f) right.now × ((list_count (form_of f) right.now ≡ 1 → ⊥) → n ≤ list_count (form_of f) right.now) }
    requires n_bound { n ≤ (form_of f).list_limit }
    requires stores { Stores (form_of f) us.old bs.old store.old hints.old × Arrays (form_of f) numbers.old values.old }
    ensures { (derived_in result numbers.new values.new ≡ lists_written (form_of f) nature (each_from (union_of eq_z (lists (form_of f) left.now as_whole) (lists (form_of f) right.now as_whole)) n 0)) × Within (form_of f) (lists_room (form_of f)) numbers.new values.new result }
{
    let mut t = 0;
    let mut j = 0;
    // No `for`: a turn takes all columns from j up to end, which are alike.
    while j < n {
        let l = category_lists::column_list(f, left, j, us, hints);
        let r = category_lists::column_list(f, right, j, bs, hints);
        let k = note_both(store, us, l, bs, r, hints);
        let end = category_lists::column_end(f, left, right, j, n);
        t = category_lists::append_columns(f, store, k, j, end, t, numbers, values);
        j = end;
    }
    category_lists::gather(f, nature, n, t)
}

// The two operands' lists united, over as many columns as both have.
pub fn lists_united(
    f: Form,
    columns: usize,
    left: &[u8],
    right: &[u8],
    us: &mut [i64],
    bs: &mut [i64],
    store: &mut [i64],
    hints: &mut [u8],
    numbers: &mut [u8],
    values: &mut [u8],
) -> Result<Parts, Refusal>
    requires uniting { Uniting (form_of f) left.now right.now × (0 < columns) × (columns ≤ (form_of f).column_limit) }
    requires stores { Stores (form_of f) us.old bs.old store.old hints.old × Arrays (form_of f) numbers.old values.old }
    ensures { (derived_in result numbers.new values.new ≡ in_writing (form_of f) (and_then (united_nature columns (nature_in (form_of f) left.now) (nature_in (form_of f) right.now)) (kept_to (form_of f).category_limit))) × Within (form_of f) (lists_room (form_of f)) numbers.new values.new result }
{
    let l = base::sizes_at(f, left);
    let r = base::sizes_at(f, right);
    let n = category_lists::lesser(
        category_lists::spread(columns, l.lists),
        category_lists::spread(columns, r.lists),
    );
    let nature = base::nature_of(f, left);
    unions_into(
        f, nature, n, left, right, us, bs, store, hints, numbers, values,
    )
}
