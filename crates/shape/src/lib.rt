// Columns, rows and fields of two operands: `propagate_binary_shape`, and the fields that a component derives; beside them the groups.
#![tactic(auto)]

ghost use Rattle.std.specs.Prelude.{◌≡◌};
ghost use Rattle.base.specs.Code.{stated, head_fields};
ghost use Rattle.shape.specs.Shape.{greater_option, greater_present, row_spreads, rows_agree, rows_of, columns_of, columns_absent, columns_clash, columns_unequal, widest, same_dataset, rows_clash};
ghost use Rattle.shape.specs.Fields.{pair_fields, copy_fields};

use base::Head;

pub mod groups;

// ---- values that may be absent

// The greater of the two; an absent value is the least.
pub fn greater_option(x: Option<i64>, y: Option<i64>) -> Option<i64>
    ensures { stated result ≡ greater_option (stated x) (stated y) }
{
    x.max(y)
}

// The greater of the two, absent if either is.
fn greater_present(x: Option<i64>, y: Option<i64>) -> Option<i64>
    ensures { stated result ≡ greater_present (stated x) (stated y) }
{
    Some(x?.max(y?))
}

// ---- columns

// A column count, 0 where it is absent.
pub fn columns_of(h: Head) -> u64
    ensures { result ≡ columns_of (head_fields h) }
{
    h.columns.unwrap_or(0)
}

pub fn columns_absent(h: Head) -> bool
    ensures { result ≡ columns_absent (head_fields h) }
{
    h.columns.is_none()
}

// The counts differ and neither is 1.
pub fn columns_clash(l: Head, r: Head) -> bool
    ensures { result ≡ columns_clash (head_fields l) (head_fields r) }
{
    let x = columns_of(l);
    let y = columns_of(r);
    (x != y) & (x != 1) & (y != 1)
}

// Pool takes no other counts than equal ones.
pub fn columns_unequal(l: Head, r: Head) -> bool
    ensures { result ≡ columns_unequal (head_fields l) (head_fields r) }
{
    columns_of(l) != columns_of(r)
}

// The columns of a pair's result.
pub fn widest(l: Head, r: Head) -> u64
    ensures { result ≡ widest (head_fields l) (head_fields r) }
{
    columns_of(l).max(columns_of(r))
}

// ---- rows

pub fn same_dataset(l: Head, r: Head) -> bool
    ensures { result ≡ same_dataset (head_fields l) (head_fields r) }
{
    l.dataset == r.dataset
}

// An operand spreads over the other's rows.
fn row_spreads(h: Head) -> bool
    ensures { result ≡ row_spreads (head_fields h) }
{
    h.releasable & (h.rows == Some(1))
}

// One of the two spreads, or the counts are equal and present.
fn rows_agree(l: Head, r: Head) -> bool
    ensures { result ≡ rows_agree (head_fields l) (head_fields r) }
{
    row_spreads(l) | row_spreads(r) | (l.rows.is_some() & (l.rows == r.rows))
}

// Unequal rows of one dataset do not clash: their count is absent.
pub fn rows_clash(l: Head, r: Head) -> bool
    ensures { result ≡ rows_clash (head_fields l) (head_fields r) }
{
    !rows_agree(l, r) & !same_dataset(l, r)
}

// The rows of a pair's result.
pub fn rows_of(l: Head, r: Head) -> Option<i64>
    ensures { stated result ≡ rows_of (head_fields l) (head_fields r) }
{
    if !rows_agree(l, r) {
        return None;
    }
    greater_present(l.rows, r.rows)
}

// ---- the fields that a component derives

// The fields of Add, Subtract, Multiply and Divide; `more` is what Divide adds to the nullity.
pub fn pair_head(more: bool, l: Head, r: Head) -> Head
    ensures { head_fields result ≡ pair_fields more (head_fields l) (head_fields r) }
{
    Head {
        data_type: l.data_type,
        nullity: l.nullity | r.nullity | more,
        releasable: l.releasable & r.releasable,
        not_empty: l.not_empty & r.not_empty,
        ordered: true,
        c_stability: l.c_stability.max(r.c_stability),
        aggregator: 0,
        rows: rows_of(l, r),
        columns: Some(widest(l, r)),
        dataset: l.dataset,
        dimensionality: greater_option(l.dimensionality, r.dimensionality),
        sample: l.sample,
    }
}

// The fields of Modulo, Log and Power: left's, but for two.
pub fn copy_head(l: Head, r: Head) -> Head
    ensures { head_fields result ≡ copy_fields (head_fields l) (head_fields r) }
{
    Head {
        not_empty: l.not_empty & r.not_empty,
        dimensionality: greater_option(l.dimensionality, r.dimensionality),
        ..l
    }
}
