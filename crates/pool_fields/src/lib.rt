// The rows' sum (24) and the fields of Pool; and what refuses where the rows leave 64 bits.
#![tactic(auto)]

ghost use Rattle.std.specs.Prelude.{◌≡◌};
ghost use Rattle.base.specs.Code.{stated, head_fields};
ghost use Rattle.shape.specs.Shape.{rows_sum};
ghost use Rattle.shape.specs.Fields.{pool_fields};
ghost use Rattle.pool_fields.specs.Code.{rows_in, late, behind_rows_by};

use base::Head;
use base::refusals::{Refusal, Refusing};
use writer::Parts;

// The rows of two arrays stacked; none where their sum leaves 64 bits.
#[tactic(auto, using(numbers::proofs::Bits::reads), unfolding(shape::specs::Shape::rows_sum))]
pub fn rows_sum(x: Option<i64>, y: Option<i64>) -> Option<Option<i64>>
    ensures { rows_in result ≡ rows_sum (stated x) (stated y) }
{
    let Some(a) = x else {
        return Some(None);
    };
    let Some(b) = y else {
        return Some(None);
    };
    let n = numbers::checked_add(a, b)?;
    Some(Some(n))
}

// The fields of Pool, with its rows.
#[tactic(auto, unfolding(shape::specs::Fields::pool_fields))]
pub fn pool_head(rows: Option<i64>, l: Head, r: Head) -> Head
    ensures { head_fields result ≡ pool_fields (stated rows) (head_fields l) (head_fields r) }
{
    Head {
        data_type: l.data_type,
        nullity: l.nullity | r.nullity,
        releasable: l.releasable & r.releasable,
        not_empty: l.not_empty | r.not_empty,
        ordered: false,
        c_stability: l.c_stability.max(r.c_stability),
        aggregator: 0,
        rows,
        columns: Some(shape::widest(l, r)),
        dataset: None,
        dimensionality: shape::greater_option(l.dimensionality, r.dimensionality),
        sample: None,
    }
}

// The refusals of a nature that come behind 24 of the rows.
fn is_late(number: u32) -> bool
    ensures { result ≡ late number }
{
    number == Refusal::OverTheLimit.number() || number == Refusal::TooMuchText.number()
}

// What refuses where the rows leave 64 bits: 24 comes behind 17 to 21 and 29, and before 26 and 28. Any other number is handed on.
pub fn behind_rows<E: Refusing>(derived: Result<Parts, E>) -> E
    ensures { E.number result ≡ behind_rows_by E.number derived }
{
    match derived {
        Err(refusal) if !is_late(refusal.number()) => refusal,
        Ok(_) | Err(_) => E::of(Refusal::Leaves64Bits),
    }
}
