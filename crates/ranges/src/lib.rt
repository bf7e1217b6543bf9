// Ranges, column by column.
#![tactic(auto)]

ghost use Rattle.std.specs.Prelude.{◌≡◌, true, false, ◌*◌, ◌^◌, ◌≤◌, ◌<◌, length};
ghost use Rattle.utilities.specs.Columns.{spreads};
ghost use Rattle.base.specs.Form.{form_of, nature_at, byte_at, is_range_nature};
ghost use Rattle.base.specs.Checks.{sizes_fail};
ghost use Rattle.base.specs.Sized.{RangeFits};
ghost use Rattle.writer.specs.Written.{in_writing, derived_in, ends_room, Within};
ghost use Rattle.base.specs.Refusals.{told};
ghost use Rattle.ends.specs.Ranges.{range_nature};
ghost use Rattle.ranges.specs.Chained.{entry_of, range_at, column_ends, column_at, range_number, range_parts, columns_from};

use base::form::Form;
use base::refusals::Refusal;
use base::{Component, Sizes, form};
use ends::Range;
use writer::Parts;

// The entry of n that column j takes: its own, or the only one.
fn entry_of(columns: usize, n: usize, j: usize) -> usize
    requires { (spreads columns n ≡ true) × (j < columns) }
    ensures { (result ≡ entry_of n j) × (result < n) }
{
    if n == 1 { 0 } else { j }
}

// Entry i of n.
fn entry_at(f: Form, s: &[u8], float: bool, g: usize, n: usize, i: usize) -> Range
    requires { RangeFits (form_of f) s.now g n × (i < n) }
    ensures { result ≡ range_at (form_of f) float s.now i }
{
    let lower = base::bound_at(s, float, f.lower_at(g, i));
    let upper = base::bound_at(s, float, f.upper_at(g, n, i));
    Range { lower, upper }
}

// The ends of one column. Modulo has no end rule for whole ranges of a type other than Int.
fn column(c: Component, data_type: u8, float: bool, x: Range, y: Range) -> Result<Range, Refusal>
    ensures { told result ≡ column_ends float c data_type x y }
{
    if float {
        return float_ends::float_end_rule(c, x, y);
    }
    if (c.number() == Component::MODULO) & (data_type != form::INT_TYPE) {
        return ends::unknown();
    }
    whole_ends::whole_end_rule(c, x, y)
}

// The ends of column j.
fn column_at(
    f: Form,
    c: Component,
    data_type: u8,
    float: bool,
    columns: usize,
    left: &[u8],
    l: Sizes,
    right: &[u8],
    r: Sizes,
    j: usize,
) -> Result<Range, Refusal>
    requires { RangeFits (form_of f) left.now l.groups l.lists × (spreads columns l.lists ≡ true) × RangeFits (form_of f) right.now r.groups r.lists × (spreads columns r.lists ≡ true) × (j < columns) }
    ensures { told result ≡ column_at (form_of f) float c data_type left.now right.now j }
{
    let i = entry_of(columns, l.lists, j);
    let x = entry_at(f, left, float, l.groups, l.lists, i);
    let k = entry_of(columns, r.lists, j);
    let y = entry_at(f, right, float, r.groups, r.lists, k);
    column(c, data_type, float, x, y)
}

// The nature's number in 01.
fn range_number(float: bool) -> u8
    ensures { result ≡ range_number float }
{
    if float {
        form::FLOAT_RANGE
    } else {
        form::WHOLE_RANGE
    }
}

// A range whose lowers and uppers stand in the two buffers.
fn range_parts(float: bool, columns: usize) -> Parts
    requires { columns < 2 ^ 32 }
    ensures { result ≡ range_parts float columns }
{
    let length = form::END_WIDTH * columns;
    Parts {
        nature: range_number(float),
        entries: columns,
        values: 0,
        text: 0,
        first: length,
        second: length,
    }
}

// Appends the ends of each column, or answers the first refusal.
fn put_columns(
    f: Form,
    c: Component,
    data_type: u8,
    float: bool,
    columns: usize,
    left: &[u8],
    l: Sizes,
    right: &[u8],
    r: Sizes,
    lowers: &mut [u8],
    uppers: &mut [u8],
) -> Result<Parts, Refusal>
    requires { RangeFits (form_of f) left.now l.groups l.lists × (spreads columns l.lists ≡ true) × RangeFits (form_of f) right.now r.groups r.lists × (spreads columns r.lists ≡ true) × (columns ≤ (form_of f).column_limit) × (9 * columns ≤ length lowers.old) × (9 * columns ≤ length uppers.old) }
    ensures { (derived_in result lowers.new uppers.new ≡ columns_from (range_number float) (column_at (form_of f) float c data_type left.now right.now) columns 0) × Within (form_of f) (ends_room (form_of f)) lowers.new uppers.new result }
{
    let mut at = 0;
    for j in 0..columns {
        let z = column_at(f, c, data_type, float, columns, left, l, right, r, j)?;
        base::put_bound(lowers, at, z.lower);
        at = base::put_bound(uppers, at, z.upper);
    }
    Ok(range_parts(float, columns))
}

// The range derived of two sheets' ranges, which are both float or both whole: its lowers and uppers stand at the start of the two buffers.
pub fn range_pair(
    f: Form,
    c: Component,
    data_type: u8,
    float: bool,
    columns: usize,
    left: &[u8],
    right: &[u8],
    lowers: &mut [u8],
    uppers: &mut [u8],
) -> Result<Parts, Refusal>
    requires { (sizes_fail (form_of f) left.now ≡ false) × (is_range_nature (byte_at (form_of f) nature_at left.now) ≡ true) × (sizes_fail (form_of f) right.now ≡ false) × (is_range_nature (byte_at (form_of f) nature_at right.now) ≡ true) × (columns ≤ (form_of f).column_limit) × (9 * columns ≤ length lowers.old) × (9 * columns ≤ length uppers.old) }
    ensures { (derived_in result lowers.new uppers.new ≡ in_writing (form_of f) (range_nature (form_of f) float c data_type columns left.now right.now)) × Within (form_of f) (ends_room (form_of f)) lowers.new uppers.new result }
{
    let l = base::sizes_at(f, left);
    if !utilities::spreads(columns, l.lists) {
        return Err(Refusal::UnevenList);
    }
    let r = base::sizes_at(f, right);
    if !utilities::spreads(columns, r.lists) {
        return Err(Refusal::UnevenList);
    }
    put_columns(
        f, c, data_type, float, columns, left, l, right, r, lowers, uppers,
    )
}
