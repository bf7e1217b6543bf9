// Checks 3 to 5 of a sheet. Each test is computed whole, without a branch where it has no loop: a sheet that passes has every test made anyway.
#![tactic(auto)]

ghost use Rattle.std.specs.Prelude.{◌≡◌, false, ◌+◌, ◌≤◌, ◌<◌, eqb, length};
ghost use Rattle.base.specs.Form.{form_of, byte_at, later_at, later_count, fields_end};
ghost use Rattle.base.specs.Checks.{read, holds_from, sizes_fail, field_permitted, gap_permitted, values_permitted, columns_permitted, key_permitted, groups_permitted};
ghost use Rattle.base.specs.Sized.{GroupsFit, ListsFit};
ghost use Rattle.checks.specs.Found.{NatureFaults, tail_permitted, head_bytes, head_fault, around_text};
ghost use Rattle.base.specs.Code.{code_of};
ghost use Rattle.base.specs.Refusals.{code_in};

use array_checks::Faults;
use base::form;
use base::form::Form;
use base::refusals::Refusal;

// ---- 3

// Whether a size exceeds its limit, or the length is not what the sizes call for.
fn sizes_fail(f: Form, s: &[u8]) -> bool
    ensures { result ≡ sizes_fail (form_of f) s.now }
{
    if s.len() < f.arrays_at() {
        return true;
    }
    let sizes = base::sizes_at(f, s);
    let g = sizes.groups;
    let n = sizes.lists;
    let t = sizes.categories;
    if f.group_limit() < g {
        return true;
    }
    if f.list_limit() < n {
        return true;
    }
    if f.category_limit() < t {
        return true;
    }
    let a = base::area_size(f, s);
    (f.text_limit() < a) | (s.len() != f.called_for(base::nature_of(f, s), g, n, t, a))
}

// ---- 4, the fields of one value

// A nature other than text has no area: the last mark and the seven bytes behind it, which are then zero, are one number of 64 bits. What a text has there is
// tested with its area.
fn tail_permitted(f: Form, s: &[u8]) -> bool
    requires { (form_of f).arrays_at ≤ length s.now }
    ensures { result ≡ tail_permitted (form_of f) s.now }
{
    (base::u64_in(f, s, form::SAMPLE_MARK_AT) < 256) | (base::nature_of(f, s) == form::TEXT_LISTS)
}

// Whether the bytes between the last field and the arrays are zero.
fn gap_permitted(f: Form, s: &[u8]) -> bool
    requires { (form_of f).arrays_at ≤ length s.now }
    ensures { result ≡ gap_permitted (form_of f) s.now }
{
    match f {
        Form::Narrow => true,
        Form::Wide => base::u16_at(s, form::WIDE_FIELDS_END) == 0,
    }
}

fn bytes_permitted(f: Form, s: &[u8]) -> bool
    requires { (form_of f).arrays_at ≤ length s.now }
    ensures { result ≡ head_bytes (form_of f) s.now }
{
    (base::nature_of(f, s) <= form::LAST_NATURE)
        & (base::byte_in(f, s, form::TYPE_AT) <= form::LAST_TYPE)
        & (base::byte_in(f, s, form::NULLITY_AT) <= 1)
        & (base::byte_in(f, s, form::RELEASABLE_AT) <= 1)
        & (base::byte_in(f, s, form::NOT_EMPTY_AT) <= 1)
        & (base::byte_in(f, s, form::ORDERED_AT) <= 1)
        & tail_permitted(f, s)
        & gap_permitted(f, s)
}

// 0 where a field's mark is permitted, with its 64 bits, by their places in 01: words are gathered by `|`, without a branch.
fn field_word(f: Form, s: &[u8], mark: usize, at: usize) -> u64
    requires { ((form_of f).arrays_at ≤ length s.now) × (mark < fields_end) × (at + 8 ≤ fields_end) }
    ensures { eqb result 0 ≡ field_permitted (form_of f) s.now mark at }
{
    array_checks::end_word(base::byte_in(f, s, mark), base::u64_in(f, s, at))
}

fn columns_permitted(f: Form, s: &[u8]) -> bool
    requires { (form_of f).arrays_at ≤ length s.now }
    ensures { result ≡ columns_permitted (form_of f) s.now }
{
    let columns = base::u64_in(f, s, form::COLUMNS_AT);
    (base::byte_in(f, s, form::COLUMNS_MARK_AT) == 0)
        | ((0 < columns) & (columns <= f.column_limit()))
}

fn values_permitted(f: Form, s: &[u8]) -> bool
    requires { (form_of f).arrays_at ≤ length s.now }
    ensures { result ≡ values_permitted (form_of f) s.now }
{
    let bad = field_word(f, s, form::ROWS_MARK_AT, form::ROWS_AT)
        | field_word(f, s, form::COLUMNS_MARK_AT, form::COLUMNS_AT)
        | field_word(f, s, form::DATASET_MARK_AT, form::DATASET_AT)
        | field_word(f, s, form::DIMENSIONALITY_MARK_AT, form::DIMENSIONALITY_AT)
        | field_word(f, s, form::SAMPLE_MARK_AT, form::SAMPLE_AT);
    (bad == 0) & columns_permitted(f, s)
}

// ---- 4, the groups

// Key i of g: its kind, and for a Bool its value.
fn key_permitted(f: Form, s: &[u8], g: usize, i: usize) -> bool
    requires { GroupsFit (form_of f) s.now g × (i < g) }
    ensures { result ≡ key_permitted (form_of f) s.now i }
{
    let at = f.key_at(g, i);
    let kind = base::byte_at(s, at);
    (0 < kind)
        & (kind <= form::LAST_KEY)
        & ((kind != form::BOOL_KEY) | (base::u64_at(s, at + 1) <= 1))
}

#[tactic(auto, using(base::proofs::Holding::held), unfolding(base::specs::Checks::groups_permitted))]
fn groups_permitted(f: Form, s: &[u8], g: usize) -> bool
    requires { GroupsFit (form_of f) s.now g }
    ensures { result ≡ groups_permitted (form_of f) s.now }
{
    for i in 0..g {
        if !key_permitted(f, s, g, i) {
            return false;
        }
    }
    true
}

// ---- 4, the text area

// Whether the four bytes behind the area's size are zero.
fn later_permitted(f: Form, s: &[u8]) -> bool
    requires { (form_of f).arrays_at ≤ length s.now }
    ensures { result ≡ holds_from later_count later_at (λ k. eqb (byte_at (form_of f) k s.now) 0) }
{
    base::u32_in(f, s, form::LATER_AT) == 0
}

// Whether the area of t texts is permitted, with the bytes around its size.
fn area_permitted(f: Form, s: &[u8], g: usize, n: usize, t: usize) -> bool
    requires { ListsFit (form_of f) s.now g n t }
    ensures { result ≡ around_text (form_of f) s.now t }
{
    (base::byte_in(f, s, form::RESERVED_AT) == 0)
        & later_permitted(f, s)
        & array_checks::texts_permitted(f, s, g, n, t)
}

// ---- 4 of all that stands before the nature's arrays; 4 and 5 of the nature, and of the text area

// Whether a field of one value, a group or the area's size has none of its permitted values.
fn head_fails(f: Form, s: &[u8]) -> bool
    requires { sizes_fail (form_of f) s.now ≡ false }
    ensures { result ≡ head_fault (form_of f) s.now }
{
    let sizes = base::sizes_at(f, s);
    let g = sizes.groups;
    !(bytes_permitted(f, s) & values_permitted(f, s) & groups_permitted(f, s, g))
}

// What has no range passes 5.
fn nature_faults(f: Form, s: &[u8]) -> Faults
    requires { sizes_fail (form_of f) s.now ≡ false }
    ensures { NatureFaults (form_of f) s.now result }
{
    let sizes = base::sizes_at(f, s);
    let g = sizes.groups;
    let n = sizes.lists;
    let t = sizes.categories;
    let nature = base::nature_of(f, s);
    if nature == form::ABSENT_NATURE {
        return Faults {
            fields: (n != 0) | (t != 0),
            bounds: false,
        };
    }
    if form::is_range(nature) {
        let entries = array_checks::entry_faults(f, s, nature == form::FLOAT_RANGE, g, n);
        return Faults {
            fields: (t != 0) | entries.fields,
            bounds: entries.bounds,
        };
    }
    if nature == form::TEXT_LISTS {
        return Faults {
            fields: !(array_checks::lists_permitted(f, s, g, n, t) & area_permitted(f, s, g, n, t)),
            bounds: false,
        };
    }
    Faults {
        fields: !array_checks::lists_permitted(f, s, g, n, t),
        bounds: false,
    }
}

// ---- checks 3 to 5

// The first check of 3 to 5 that the sheet breaks.
pub fn check_sheet(f: Form, s: &[u8]) -> Result<(), Refusal>
    ensures { code_in result ≡ code_of (read (form_of f) s.now) }
{
    if sizes_fail(f, s) {
        return Err(Refusal::Sizes);
    }
    if head_fails(f, s) {
        return Err(Refusal::Fields);
    }
    // One pass finds both: 5 is answered where all of 4 has passed.
    let nature = nature_faults(f, s);
    if nature.fields {
        return Err(Refusal::Fields);
    }
    if nature.bounds {
        return Err(Refusal::Bounds);
    }
    Ok(())
}
