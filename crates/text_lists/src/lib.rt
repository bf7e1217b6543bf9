// Texts of two sheets joined by Add or united by Pool: the lists of the result, written into two lent buffers.
#![tactic(auto)]

ghost use Rattle.std.specs.Prelude.{◌≡◌, map, ◌≤◌, ◌<◌};
ghost use Rattle.numbers.specs.Result.{and_then};
ghost use Rattle.utilities.specs.Lists.{list_from};
ghost use Rattle.base.specs.Form.{form_of, list_count};
ghost use Rattle.base.specs.Sheet.{text_lists};
ghost use Rattle.base.specs.Decode.{lists, text_in};
ghost use Rattle.writer.specs.Written.{derived_in, in_writing, texts_room, Within};
ghost use Rattle.category_lists.specs.Categories.{kept};
ghost use Rattle.category_lists.specs.Answers.{TextStores};
ghost use Rattle.texts.specs.Joins.{join_at};
ghost use Rattle.text_lists.specs.Codes.{Joining, together, column_codes};

use base::form::Form;
use base::refusals::Refusal;
use writer::Parts;

// n columns in order, of each the texts joined or united; 26, then 28.
fn texts_into(
    f: Form,
    joins: bool,
    n: usize,
    left: &[u8],
    right: &[u8],
    us: &mut [i64],
    bs: &mut [i64],
    store: &mut [i64],
    numbers: &mut [u8],
    values: &mut [u8],
) -> Result<Parts, Refusal>
    requires joining { Joining (form_of f) left.now right.now × ((list_count (form_of f) left.now ≡ 1 → ⊥) → n ≤ list_count (form_of f) left.now) × ((list_count (form_of f) right.now ≡ 1 → ⊥) → n ≤ list_count (form_of f) right.now) × (n ≤ (form_of f).list_limit) }
    requires text_stores { TextStores (form_of f) us.old bs.old store.old numbers.old values.old }
    ensures { (derived_in result numbers.new values.new ≡ in_writing (form_of f) (kept (form_of f) (text_lists (list_from n 0 (λ j. map (join_at (form_of f) left.now right.now) (column_codes joins (form_of f) left.now right.now j)))))) × Within (form_of f) (texts_room (form_of f)) numbers.new values.new result }
{
    let mut t = 0;
    let mut j = 0;
    // No `for`: a turn takes all columns from j up to end, which are alike.
    while j < n {
        let l = texts::column_texts(f, left, j, us);
        let r = texts::column_texts(f, right, j, bs);
        let k = text_columns::note_column(f, joins, left, right, us, l, bs, r, store);
        let end = category_lists::column_end(f, left, right, j, n);
        t = category_lists::append_columns(f, store, k, j, end, t, numbers, values);
        j = end;
    }
    if f.category_limit() < t {
        return Err(Refusal::OverTheLimit);
    }
    text_areas::lay_texts(f, left, right, n, t, values)
}

// The two operands' texts, joined or united, over as many columns as both have.
pub fn texts_together(
    f: Form,
    joins: bool,
    columns: usize,
    left: &[u8],
    right: &[u8],
    us: &mut [i64],
    bs: &mut [i64],
    store: &mut [i64],
    numbers: &mut [u8],
    values: &mut [u8],
) -> Result<Parts, Refusal>
    requires joining { Joining (form_of f) left.now right.now × (0 < columns) × (columns ≤ (form_of f).column_limit) }
    requires text_stores { TextStores (form_of f) us.old bs.old store.old numbers.old values.old }
    ensures { (derived_in result numbers.new values.new ≡ in_writing (form_of f) (and_then (together joins columns (lists (form_of f) left.now (text_in (form_of f) left.now)) (lists (form_of f) right.now (text_in (form_of f) right.now))) (λ ns. kept (form_of f) (text_lists ns)))) × Within (form_of f) (texts_room (form_of f)) numbers.new values.new result }
{
    let l = base::sizes_at(f, left);
    let r = base::sizes_at(f, right);
    let n = category_lists::lesser(
        category_lists::spread(columns, l.lists),
        category_lists::spread(columns, r.lists),
    );
    texts_into(f, joins, n, left, right, us, bs, store, numbers, values)
}
