// The end rules of the ten components on floats. An entry is [a, c] on the left and [d, f] on the right.
#![tactic(auto)]

ghost use Rattle.std.specs.Prelude.{◌≡◌};
ghost use Rattle.numbers.specs.Result.{ok};
ghost use Rattle.numbers.specs.Kind.{float};
ghost use Rattle.base.specs.Refusals.{told};
ghost use Rattle.base.specs.Code.{float_end, of_float};
ghost use Rattle.ends.specs.Ends.{from_two, from_one, end_rule};
ghost use Rattle.ends.specs.Code.{float_span, end_of, ends_of};

use base::refusals::Refusal;
use base::{Bound, Component};
use ends::Range;

// ---- Add, Subtract, Modulo: unless the ends that a new end needs are present, it is absent. Whole ends may be refused with 24 and have functions of their
// own: one for both kinds would give what may be refused, where these give an end.

#[tactic(auto, unfolding(ends::specs::Ends::from_two))]
fn add_end(x: Bound, y: Bound) -> Bound
    ensures { ok result ≡ end_of of_float (from_two float.add (float_end x) (float_end y)) }
{
    let Bound::Float(a) = x else {
        return Bound::Absent;
    };
    let Bound::Float(b) = y else {
        return Bound::Absent;
    };
    Bound::Float(a + b)
}

#[tactic(auto, unfolding(ends::specs::Ends::from_two))]
fn sub_end(x: Bound, y: Bound) -> Bound
    ensures { ok result ≡ end_of of_float (from_two float.sub (float_end x) (float_end y)) }
{
    let Bound::Float(a) = x else {
        return Bound::Absent;
    };
    let Bound::Float(b) = y else {
        return Bound::Absent;
    };
    Bound::Float(a - b)
}

// Remainders by a divisor that is at most x lie below it.
#[tactic(auto, unfolding(ends::specs::Ends::from_one))]
fn last_end(x: Bound) -> Bound
    ensures { ok result ≡ end_of of_float (from_one float.last (float_end x)) }
{
    let Bound::Float(a) = x else {
        return Bound::Absent;
    };
    Bound::Float(a)
}

// ---- the choice by component

// Abs and Negative read x alone, Modulo y alone.
#[tactic(auto, using(ends::proofs::Rules::rule_absent, ends::proofs::Answers::add_ends_lem, ends::proofs::Answers::sub_ends_lem, ends::proofs::Answers::pool_ends_lem), unfolding(ends::specs::Ends::end_rule))]
pub fn float_end_rule(c: Component, x: Range, y: Range) -> Result<Range, Refusal>
    ensures { told result ≡ ends_of of_float (end_rule float c (float_span x) (float_span y)) }
{
    match c {
        Component::Abs => float_signs::abs_ends(x),
        Component::Add => Ok(Range {
            lower: add_end(x.lower, y.lower),
            upper: add_end(x.upper, y.upper),
        }),
        Component::Subtract => Ok(Range {
            lower: sub_end(x.lower, y.upper),
            upper: sub_end(x.upper, y.lower),
        }),
        Component::Multiply => float_corners::mul_ends(x, y),
        Component::Divide => float_corners::div_ends(x, y),
        Component::Modulo => Ok(Range {
            lower: Bound::Float(0.0),
            upper: last_end(y.upper),
        }),
        Component::Log | Component::Power => ends::unknown(),
        Component::Negative => float_signs::neg_ends(x),
        Component::Pool => Ok(Range {
            lower: ends::pool_lower::<f64>(x.lower, y.lower),
            upper: ends::pool_upper::<f64>(x.upper, y.upper),
        }),
    }
}
