// The nature that Pool derives: 17 to 21 and 29, then 26 and 28, its arrays at the start of two lent buffers.
#![tactic(auto)]

ghost use Rattle.std.specs.Prelude.{◌≡◌};
ghost use Rattle.numbers.specs.Result.{and_then};
ghost use Rattle.base.specs.Form.{form_of};
ghost use Rattle.base.specs.Decode.{nature_in};
ghost use Rattle.base.specs.Components.{family_of};
ghost use Rattle.base.specs.declared.Family.TheVariants as Fam;
ghost use Rattle.category_lists.specs.Categories.{kept};
ghost use Rattle.calls.specs.Natures.{lists_united, pool_nature};
ghost use Rattle.lending.specs.Code.{Read, Ready, Lent, nature_room};
ghost use Rattle.list_codes.specs.Code.{Lists};
ghost use Rattle.writer.specs.Written.{in_writing, derived_in, Within};

use base::form::Form;
use base::refusals::Refusal;
use base::{Component, form};
use writer::Parts;

// Two category operands of Pool: 19, 20, 29 and 21, then left's lists followed by right's.
fn united_categorical_nature(
    f: Form,
    columns: usize,
    left: &[u8],
    right: &[u8],
    us: &mut [i64],
    bs: &mut [i64],
    store: &mut [i64],
    hints: &mut [u8],
    first: &mut [u8],
    second: &mut [u8],
) -> Result<Parts, Refusal>
    requires lists { Lists (form_of f) left.now × Lists (form_of f) right.now × Ready (form_of f) columns first.old second.old }
    requires lent { Lent Fam.Pool (form_of f) left.now right.now us.old bs.old store.old hints.old first.old second.old }
    ensures { (derived_in result first.new second.new ≡ in_writing (form_of f) (and_then (lists_united columns (nature_in (form_of f) left.now) (nature_in (form_of f) right.now)) (kept (form_of f)))) × Within (form_of f) (nature_room Fam.Pool (form_of f) left.now right.now) first.new second.new result }
{
    list_codes::both_lists_code(f, columns, left, right)?;
    if base::nature_of(f, left) == form::TEXT_LISTS {
        return text_lists::texts_together(
            f, false, columns, left, right, us, bs, store, first, second,
        );
    }
    unions::lists_united(f, columns, left, right, us, bs, store, hints, first, second)
}

// The nature derived of two: their lists united where both hold categories.
pub fn pooled_nature(
    f: Form,
    c: Component,
    data_type: u8,
    columns: usize,
    left: &[u8],
    right: &[u8],
    us: &mut [i64],
    bs: &mut [i64],
    store: &mut [i64],
    hints: &mut [u8],
    first: &mut [u8],
    second: &mut [u8],
) -> Result<Parts, Refusal>
    requires read { Read (form_of f) left.now × Read (form_of f) right.now × Ready (form_of f) columns first.old second.old × (family_of c ≡ Fam.Pool) }
    requires lent { Lent (family_of c) (form_of f) left.now right.now us.old bs.old store.old hints.old first.old second.old }
    ensures { (derived_in result first.new second.new ≡ in_writing (form_of f) (and_then (pool_nature c data_type columns (nature_in (form_of f) left.now) (nature_in (form_of f) right.now)) (kept (form_of f)))) × Within (form_of f) (nature_room (family_of c) (form_of f) left.now right.now) first.new second.new result }
{
    if lending::holds_categories(f, left) & lending::holds_categories(f, right) {
        return united_categorical_nature(
            f, columns, left, right, us, bs, store, hints, first, second,
        );
    }
    natures::propagate_binary_nature(
        f, c, data_type, columns, left, right, us, bs, store, hints, first, second,
    )
}
