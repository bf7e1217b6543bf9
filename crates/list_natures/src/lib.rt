// `propagate_unary_categorical_nature` and `propagate_binary_categorical_nature`: 19 to 26, 28 and 29, and the nature derived, its arrays at the start of two lent buffers.
#![tactic(auto)]

ghost use Rattle.std.specs.Prelude.{◌≡◌, true, false};
ghost use Rattle.base.specs.Form.{form_of};
ghost use Rattle.base.specs.Components.{family_of, is_unary};
ghost use Rattle.base.specs.declared.Family.TheVariants as Fam;
ghost use Rattle.base.specs.Decode.{nature_in};
ghost use Rattle.writer.specs.Written.{in_writing, derived_in, Within};
ghost use Rattle.calls.specs.Natures.{combined_nature, lists_pair, lists_alone};
ghost use Rattle.lending.specs.Code.{Ready, Lent, arrays_room, nature_room};
ghost use Rattle.category_lists.specs.Answers.{TextStores};
ghost use Rattle.text_lists.specs.Codes.{Joining};
ghost use Rattle.list_codes.specs.Code.{Lists, joins};
ghost use Rattle.list_natures.specs.Code.{Reached};

use base::form::Form;
use base::refusals::Refusal;
use base::{Component, form};
use writer::Parts;

// Two operands of text that 19, 20, 29 and 21 passed: 22, then their texts joined.
fn joined_texts(
    f: Form,
    c: Component,
    data_type: u8,
    columns: usize,
    left: &[u8],
    right: &[u8],
    us: &mut [i64],
    bs: &mut [i64],
    store: &mut [i64],
    first: &mut [u8],
    second: &mut [u8],
) -> Result<Parts, Refusal>
    requires { Joining (form_of f) left.now right.now × Ready (form_of f) columns first.old second.old × (joins c ≡ true → TextStores (form_of f) us.old bs.old store.old first.old second.old) }
    ensures { (derived_in result first.new second.new ≡ in_writing (form_of f) (combined_nature (form_of f) c data_type columns (nature_in (form_of f) left.now) (nature_in (form_of f) right.now))) × Within (form_of f) (nature_room (family_of c) (form_of f) left.now right.now) first.new second.new result }
{
    if !list_codes::joins(c) {
        return Err(Refusal::NoRule);
    }
    text_lists::texts_together(f, true, columns, left, right, us, bs, store, first, second)
}

// Two category operands: 19, 20, 29, 21 and 22, then the product.
pub fn propagate_binary_categorical_nature(
    f: Form,
    c: Component,
    data_type: u8,
    columns: usize,
    left: &[u8],
    right: &[u8],
    us: &mut [i64],
    bs: &mut [i64],
    store: &mut [i64],
    hints: &mut [u8],
    first: &mut [u8],
    second: &mut [u8],
) -> Result<Parts, Refusal>
    requires lists { Lists (form_of f) left.now × Lists (form_of f) right.now × Ready (form_of f) columns first.old second.old × Reached (form_of f) c data_type right.now × (is_unary (family_of c) ≡ false) }
    requires lent { Lent (family_of c) (form_of f) left.now right.now us.old bs.old store.old hints.old first.old second.old }
    ensures { (derived_in result first.new second.new ≡ in_writing (form_of f) (lists_pair (form_of f) c data_type columns (nature_in (form_of f) left.now) (nature_in (form_of f) right.now))) × Within (form_of f) (nature_room (family_of c) (form_of f) left.now right.now) first.new second.new result }
{
    list_codes::both_lists_code(f, columns, left, right)?;
    let x = base::nature_of(f, left);
    if x == form::TEXT_LISTS {
        return joined_texts(
            f, c, data_type, columns, left, right, us, bs, store, first, second,
        );
    }
    if x != form::WHOLE_LISTS || !list_codes::has_rule(c) {
        return Err(Refusal::NoRule);
    }
    categories::lists_pair(
        f, c, columns, left, right, us, bs, store, hints, first, second,
    )
}

// One category operand: 19, 20, 29 and 22, then the mapping.
pub fn propagate_unary_categorical_nature(
    f: Form,
    c: Component,
    data_type: u8,
    columns: usize,
    s: &[u8],
    us: &mut [i64],
    store: &mut [i64],
    hints: &mut [u8],
    first: &mut [u8],
    second: &mut [u8],
) -> Result<Parts, Refusal>
    requires lists { Lists (form_of f) s.now × Ready (form_of f) columns first.old second.old × (family_of c ≡ Fam.Unary) }
    requires lent { Lent (family_of c) (form_of f) s.now s.now us.old us.old store.old hints.old first.old second.old }
    ensures { (derived_in result first.new second.new ≡ in_writing (form_of f) (lists_alone (form_of f).category_limit c data_type columns (nature_in (form_of f) s.now))) × Within (form_of f) (arrays_room (family_of c) (form_of f) s.now s.now) first.new second.new result }
{
    let x = base::nature_of(f, s);
    let sizes = base::sizes_at(f, s);
    list_codes::lists_code(columns, x, sizes.lists)?;
    if x != form::WHOLE_LISTS {
        return Err(Refusal::NoRule);
    }
    category_maps::lists_alone(f, c, columns, s, us, store, hints, first, second)
}
