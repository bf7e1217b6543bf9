// Categories mapped by Abs and Negative: from the lists of one sheet, the lists of the result, written into two lent buffers.
#![tactic(auto)]

ghost use Rattle.std.specs.Prelude.{◌≡◌, true, ◌≤◌, ◌<◌};
ghost use Rattle.numbers.specs.Kind.{eq_z};
ghost use Rattle.base.specs.Form.{form_of, list_count};
ghost use Rattle.base.specs.Decode.{as_whole, lists};
ghost use Rattle.base.specs.Components.{family_of};
ghost use Rattle.base.specs.declared.Family.TheVariants as Fam;
ghost use Rattle.writer.specs.Written.{in_writing, derived_in, lists_room, Within};
ghost use Rattle.category_lists.specs.Categories.{mapped, limited, rule_of};
ghost use Rattle.category_lists.specs.Columnwise.{Listed, each_from, column_of};
ghost use Rattle.category_lists.specs.Answers.{Stores, Arrays};

use base::form::Form;
use base::refusals::Refusal;
use base::{Component, form};
use writer::Parts;

// n columns in order, of each its values mapped, each result once. The first value that fails ends the whole of it; too many categories refuse only when
// every value has passed.
fn maps_into(
    f: Form,
    c: Component,
    n: usize,
    left: &[u8],
    us: &mut [i64],
    store: &mut [i64],
    hints: &mut [u8],
    numbers: &mut [u8],
    values: &mut [u8],
) -> Result<Parts, Refusal>
    requires listed { Listed (form_of f) left.now × ((list_count (form_of f) left.now ≡ 1 → ⊥) → n ≤ list_count (form_of f) left.now) × (family_of c ≡ Fam.Unary) }
    requires n_bound { n ≤ (form_of f).list_limit }
    requires stores { Stores (form_of f) us.old us.old store.old hints.old × Arrays (form_of f) numbers.old values.old }
    ensures { (derived_in result numbers.new values.new ≡ in_writing (form_of f) (limited (form_of f).category_limit (each_from (column_of true eq_z (rule_of c) (lists (form_of f) left.now as_whole) (lists (form_of f) left.now as_whole)) n 0))) × Within (form_of f) (lists_room (form_of f)) numbers.new values.new result }
{
    let mut refused = None;
    let mut t = 0;
    let mut j = 0;
    // No `for`: a turn takes all columns from j up to end, which are alike.
    'product: while j < n {
        let l = category_lists::column_list(f, left, j, us, hints);
        utilities::clear_hints(hints);
        let mut k = 0;
        for &a in &us[..l] {
            let Some(v) = category_lists::mapping(c, a) else {
                refused = Some(Refusal::Leaves64Bits);
                break 'product;
            };
            k = category_lists::note_result(store, k, v, hints);
        }
        let end = category_lists::column_end(f, left, left, j, n);
        t = category_lists::append_columns(f, store, k, j, end, t, numbers, values);
        j = end;
    }
    if let Some(refusal) = refused {
        return Err(refusal);
    }
    category_lists::gather(f, form::WHOLE_LISTS, n, t)
}

// Abs and Negative: left's lists mapped.
pub fn lists_alone(
    f: Form,
    c: Component,
    columns: usize,
    left: &[u8],
    us: &mut [i64],
    store: &mut [i64],
    hints: &mut [u8],
    numbers: &mut [u8],
    values: &mut [u8],
) -> Result<Parts, Refusal>
    requires listed { Listed (form_of f) left.now × (0 < columns) × (columns ≤ (form_of f).column_limit) × (family_of c ≡ Fam.Unary) }
    requires stores { Stores (form_of f) us.old us.old store.old hints.old × Arrays (form_of f) numbers.old values.old }
    ensures { (derived_in result numbers.new values.new ≡ in_writing (form_of f) (limited (form_of f).category_limit (mapped eq_z (rule_of c) columns (lists (form_of f) left.now as_whole)))) × Within (form_of f) (lists_room (form_of f)) numbers.new values.new result }
{
    let sizes = base::sizes_at(f, left);
    let n = category_lists::spread(columns, sizes.lists);
    maps_into(f, c, n, left, us, store, hints, numbers, values)
}
