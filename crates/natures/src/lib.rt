// `propagate_unary_nature` and `propagate_binary_nature`: 17 to 26, 28 and 29, and the nature derived, its arrays at the start of two lent buffers.
#![tactic(auto)]

ghost use Rattle.std.specs.Prelude.{◌≡◌, false, List, ℕ};
ghost use Rattle.numbers.specs.Result.{ok};
ghost use Rattle.base.specs.Form.{form_of};
ghost use Rattle.base.specs.Sheet.{absent};
ghost use Rattle.base.specs.Components.{family_of, is_unary};
ghost use Rattle.base.specs.declared.Family.TheVariants as Fam;
ghost use Rattle.base.specs.Decode.{nature_in};
ghost use Rattle.writer.specs.Written.{in_writing, derived_in, Within};
ghost use Rattle.calls.specs.Natures.{unary_nature, binary_nature};
ghost use Rattle.lending.specs.Code.{Read, Ready, Lent, arrays_room, nature_room};
ghost use Rattle.list_natures.specs.Code.{Reached};

use base::form::Form;
use base::refusals::Refusal;
use base::{Component, form};
use writer::Parts;

// An absent nature, which has no arrays.
fn nothing_stated(f: Form) -> Result<Parts, Refusal>
    ensures { (room : ℕ) (a b : List ℕ) → (derived_in result a b ≡ in_writing (form_of f) (ok absent)) × Within (form_of f) room a b result }
{
    Ok(Parts {
        nature: form::ABSENT_NATURE,
        entries: 0,
        values: 0,
        text: 0,
        first: 0,
        second: 0,
    })
}

pub fn propagate_binary_nature(
    f: Form,
    c: Component,
    data_type: u8,
    columns: usize,
    left: &[u8],
    right: &[u8],
    us: &mut [i64],
    bs: &mut [i64],
    store: &mut [i64],
    hints: &mut [u8],
    first: &mut [u8],
    second: &mut [u8],
) -> Result<Parts, Refusal>
    requires read { Read (form_of f) left.now × Read (form_of f) right.now × Ready (form_of f) columns first.old second.old × Reached (form_of f) c data_type right.now × (is_unary (family_of c) ≡ false) }
    requires lent { Lent (family_of c) (form_of f) left.now right.now us.old bs.old store.old hints.old first.old second.old }
    ensures { (derived_in result first.new second.new ≡ in_writing (form_of f) (binary_nature (form_of f) c data_type columns (nature_in (form_of f) left.now) (nature_in (form_of f) right.now))) × Within (form_of f) (nature_room (family_of c) (form_of f) left.now right.now) first.new second.new result }
{
    let x = base::nature_of(f, left);
    let y = base::nature_of(f, right);
    if x == form::ABSENT_NATURE
        || y == form::ABSENT_NATURE
        || form::is_range(x) != form::is_range(y)
    {
        return nothing_stated(f);
    }
    if !form::is_range(x) {
        return list_natures::propagate_binary_categorical_nature(
            f, c, data_type, columns, left, right, us, bs, store, hints, first, second,
        );
    }
    if x != y {
        return Err(Refusal::RangeKinds);
    }
    ranges::range_pair(
        f,
        c,
        data_type,
        x == form::FLOAT_RANGE,
        columns,
        left,
        right,
        first,
        second,
    )
}

// Abs and Negative.
pub fn propagate_unary_nature(
    f: Form,
    c: Component,
    data_type: u8,
    columns: usize,
    s: &[u8],
    us: &mut [i64],
    store: &mut [i64],
    hints: &mut [u8],
    first: &mut [u8],
    second: &mut [u8],
) -> Result<Parts, Refusal>
    requires read { Read (form_of f) s.now × Ready (form_of f) columns first.old second.old × (family_of c ≡ Fam.Unary) }
    requires lent { Lent (family_of c) (form_of f) s.now s.now us.old us.old store.old hints.old first.old second.old }
    ensures { (derived_in result first.new second.new ≡ in_writing (form_of f) (unary_nature (form_of f).category_limit c data_type columns (nature_in (form_of f) s.now))) × Within (form_of f) (arrays_room (family_of c) (form_of f) s.now s.now) first.new second.new result }
{
    let x = base::nature_of(f, s);
    if x == form::ABSENT_NATURE {
        return nothing_stated(f);
    }
    if form::is_range(x) {
        return ranges::range_pair(
            f,
            c,
            data_type,
            x == form::FLOAT_RANGE,
            columns,
            s,
            s,
            first,
            second,
        );
    }
    list_natures::propagate_unary_categorical_nature(
        f, c, data_type, columns, s, us, store, hints, first, second,
    )
}
