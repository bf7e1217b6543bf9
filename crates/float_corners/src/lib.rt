// Products and quotients of float ends, for Multiply and Divide. An entry is [a, c] on the left and [d, f] on the right.
// Not one with `whole_corners`, by document 01: "generic `optimize` becomes two functions over shared facts".
#![tactic(auto)]

ghost use Rattle.std.specs.Prelude.{◌≡◌};
ghost use Rattle.numbers.specs.Result.{ok};
ghost use Rattle.numbers.specs.Kind.{float};
ghost use Rattle.base.specs.Refusals.{told};
ghost use Rattle.base.specs.Code.{float_end, of_float};
ghost use Rattle.ends.specs.Ends.{corners, mul_corners, mul_ends, div_corners, div_upper, div_lower, div_present, div_by, div_ends};
ghost use Rattle.ends.specs.Code.{float_span, ends_of};

use base::Bound;
use base::refusals::Refusal;
use ends::{Range, greater, greatest, least, lesser};
use numbers::Float;

// ---- Multiply

// The least and the greatest of four results.
fn corners(a: Float, b: Float, c: Float, d: Float) -> Result<Range, Refusal>
    ensures { told result ≡ ends_of of_float (corners float (ok a) (ok b) (ok c) (ok d)) }
{
    Ok(Range {
        lower: Bound::Float(least(a, b, c, d)),
        upper: Bound::Float(greatest(a, b, c, d)),
    })
}

// Multiply's `optimize`.
fn optimize_product(a: Float, c: Float, d: Float, f: Float) -> Result<Range, Refusal>
    ensures { told result ≡ ends_of of_float (mul_corners float a c d f) }
{
    corners(a * d, a * f, c * d, c * f)
}

// Multiply's `optimize_wrapper`.
#[tactic(auto, using(ends::proofs::Rules::both_on), unfolding(ends::specs::Ends::mul_ends))]
pub fn mul_ends(x: Range, y: Range) -> Result<Range, Refusal>
    ensures { told result ≡ ends_of of_float (mul_ends float (float_span x) (float_span y)) }
{
    let Some((a, c)) = ends::pair::<Float>(x) else {
        return ends::unknown();
    };
    let Some((d, f)) = ends::pair::<Float>(y) else {
        return ends::unknown();
    };
    optimize_product(a, c, d, f)
}

// ---- Divide

fn div_corners(a: Float, c: Float, d: Float, f: Float) -> Result<Range, Refusal>
    ensures { told result ≡ ends_of of_float (div_corners float a c d f) }
{
    corners(a / f, a / d, c / f, c / d)
}

fn div_upper(a: Float, c: Float, f: Float) -> Result<Range, Refusal>
    ensures { told result ≡ ends_of of_float (div_upper float a c f) }
{
    Ok(Range {
        lower: Bound::Absent,
        upper: Bound::Float(greater(a / f, c / f)),
    })
}

fn div_lower(a: Float, c: Float, d: Float) -> Result<Range, Refusal>
    ensures { told result ≡ ends_of of_float (div_lower float a c d) }
{
    Ok(Range {
        lower: Bound::Float(lesser(a / d, c / d)),
        upper: Bound::Absent,
    })
}

// Divide's `optimize`: by whether the divisor may be zero, and at which end.
fn optimize_quotient(a: Float, c: Float, d: Float, f: Float) -> Result<Range, Refusal>
    ensures { told result ≡ ends_of of_float (div_present float a c d f) }
{
    if 0.0 < d {
        return div_corners(a, c, d, f);
    }
    if f < 0.0 {
        return div_corners(a, c, d, f);
    }
    if d == 0.0 {
        if f == 0.0 {
            return ends::unknown();
        }
        return div_upper(a, c, f);
    }
    if f == 0.0 {
        return div_lower(a, c, d);
    }
    ends::unknown()
}

// The divisor's ends may be absent.
fn div_by(a: Float, c: Float, lower: Bound, upper: Bound) -> Result<Range, Refusal>
    ensures { told result ≡ ends_of of_float (div_by float a c (float_end lower) (float_end upper)) }
{
    let Bound::Float(d) = lower else {
        let Bound::Float(f) = upper else {
            return Err(Refusal::MayMeetZero);
        };
        if f < 0.0 {
            return ends::unknown();
        }
        return Err(Refusal::MayMeetZero);
    };
    let Bound::Float(f) = upper else {
        if 0.0 < d {
            return ends::unknown();
        }
        return Err(Refusal::MayMeetZero);
    };
    optimize_quotient(a, c, d, f)
}

// Divide's `optimize_wrapper`: the left ends come first, and the divisor's only then.
#[tactic(auto, using(ends::proofs::Rules::both_on), unfolding(ends::specs::Ends::div_ends))]
pub fn div_ends(x: Range, y: Range) -> Result<Range, Refusal>
    ensures { told result ≡ ends_of of_float (div_ends float (float_span x) (float_span y)) }
{
    let lower = y.lower;
    let upper = y.upper;
    let Some((a, c)) = ends::pair::<Float>(x) else {
        return ends::unknown();
    };
    div_by(a, c, lower, upper)
}
