// Products and quotients of whole ends, for Multiply and Divide. An entry is [a, c] on the left and [d, f] on the right.
// Not one with `float_corners`, by document 01: "generic `optimize` becomes two functions over shared facts".
#![tactic(auto)]

ghost use Rattle.std.specs.Prelude.{◌≡◌};
ghost use Rattle.numbers.specs.Kind.{whole, fitting};
ghost use Rattle.base.specs.Refusals.{told};
ghost use Rattle.base.specs.Code.{whole_end, of_whole};
ghost use Rattle.ends.specs.Ends.{corners, mul_corners, mul_ends, div_corners, div_upper, div_lower, div_present, div_by, div_ends};
ghost use Rattle.ends.specs.Code.{whole_span, ends_of};

use base::Bound;
use base::refusals::Refusal;
use ends::{Range, greater, greatest, least, lesser};
use numbers::Integer;

// ---- Multiply

// The least and the greatest of four results.
fn corners(
    p: Option<Integer>,
    q: Option<Integer>,
    r: Option<Integer>,
    s: Option<Integer>,
) -> Result<Range, Refusal>
    ensures { told result ≡ ends_of of_whole (corners whole (fitting p) (fitting q) (fitting r) (fitting s)) }
{
    let Some(a) = p else {
        return Err(Refusal::Leaves64Bits);
    };
    let Some(b) = q else {
        return Err(Refusal::Leaves64Bits);
    };
    let Some(c) = r else {
        return Err(Refusal::Leaves64Bits);
    };
    let Some(d) = s else {
        return Err(Refusal::Leaves64Bits);
    };
    Ok(Range {
        lower: Bound::Whole(least(a, b, c, d)),
        upper: Bound::Whole(greatest(a, b, c, d)),
    })
}

// Multiply's `optimize`.
fn optimize_product(a: Integer, c: Integer, d: Integer, f: Integer) -> Result<Range, Refusal>
    ensures { told result ≡ ends_of of_whole (mul_corners whole a c d f) }
{
    corners(
        numbers::checked_mul(a, d),
        numbers::checked_mul(a, f),
        numbers::checked_mul(c, d),
        numbers::checked_mul(c, f),
    )
}

// Multiply's `optimize_wrapper`.
#[tactic(auto, using(ends::proofs::Rules::both_on, numbers::proofs::Bits::reads), unfolding(ends::specs::Ends::mul_ends))]
pub fn mul_ends(x: Range, y: Range) -> Result<Range, Refusal>
    ensures { told result ≡ ends_of of_whole (mul_ends whole (whole_span x) (whole_span y)) }
{
    let Some((a, c)) = ends::pair::<Integer>(x) else {
        return ends::unknown();
    };
    let Some((d, f)) = ends::pair::<Integer>(y) else {
        return ends::unknown();
    };
    optimize_product(a, c, d, f)
}

// ---- Divide

fn div_corners(a: Integer, c: Integer, d: Integer, f: Integer) -> Result<Range, Refusal>
    ensures { told result ≡ ends_of of_whole (div_corners whole a c d f) }
{
    corners(
        numbers::checked_div(a, f),
        numbers::checked_div(a, d),
        numbers::checked_div(c, f),
        numbers::checked_div(c, d),
    )
}

fn div_upper(a: Integer, c: Integer, f: Integer) -> Result<Range, Refusal>
    ensures { told result ≡ ends_of of_whole (div_upper whole a c f) }
{
    let Some(p) = numbers::checked_div(a, f) else {
        return Err(Refusal::Leaves64Bits);
    };
    let Some(q) = numbers::checked_div(c, f) else {
        return Err(Refusal::Leaves64Bits);
    };
    Ok(Range {
        lower: Bound::Absent,
        upper: Bound::Whole(greater(p, q)),
    })
}

fn div_lower(a: Integer, c: Integer, d: Integer) -> Result<Range, Refusal>
    ensures { told result ≡ ends_of of_whole (div_lower whole a c d) }
{
    let Some(p) = numbers::checked_div(a, d) else {
        return Err(Refusal::Leaves64Bits);
    };
    let Some(q) = numbers::checked_div(c, d) else {
        return Err(Refusal::Leaves64Bits);
    };
    Ok(Range {
        lower: Bound::Whole(lesser(p, q)),
        upper: Bound::Absent,
    })
}

// Divide's `optimize`: by whether the divisor may be zero, and at which end.
fn optimize_quotient(a: Integer, c: Integer, d: Integer, f: Integer) -> Result<Range, Refusal>
    ensures { told result ≡ ends_of of_whole (div_present whole a c d f) }
{
    if 0 < d {
        return div_corners(a, c, d, f);
    }
    if f < 0 {
        return div_corners(a, c, d, f);
    }
    if d == 0 {
        if f == 0 {
            return ends::unknown();
        }
        return div_upper(a, c, f);
    }
    if f == 0 {
        return div_lower(a, c, d);
    }
    ends::unknown()
}

// The divisor's ends may be absent.
fn div_by(a: Integer, c: Integer, lower: Bound, upper: Bound) -> Result<Range, Refusal>
    ensures { told result ≡ ends_of of_whole (div_by whole a c (whole_end lower) (whole_end upper)) }
{
    let Bound::Whole(d) = lower else {
        let Bound::Whole(f) = upper else {
            return Err(Refusal::MayMeetZero);
        };
        if f < 0 {
            return ends::unknown();
        }
        return Err(Refusal::MayMeetZero);
    };
    let Bound::Whole(f) = upper else {
        if 0 < d {
            return ends::unknown();
        }
        return Err(Refusal::MayMeetZero);
    };
    optimize_quotient(a, c, d, f)
}

// Divide's `optimize_wrapper`: the left ends come first, and the divisor's only then.
#[tactic(auto, using(ends::proofs::Rules::both_on, numbers::proofs::Bits::reads), unfolding(ends::specs::Ends::div_ends))]
pub fn div_ends(x: Range, y: Range) -> Result<Range, Refusal>
    ensures { told result ≡ ends_of of_whole (div_ends whole (whole_span x) (whole_span y)) }
{
    let lower = y.lower;
    let upper = y.upper;
    let Some((a, c)) = ends::pair::<Integer>(x) else {
        return ends::unknown();
    };
    div_by(a, c, lower, upper)
}
