// The end rules of the ten components on whole numbers. An entry is [a, c] on the left and [d, f] on the right.
#![tactic(auto)]

ghost use Rattle.std.specs.Prelude.{◌≡◌};
ghost use Rattle.numbers.specs.Kind.{whole, fitting};
ghost use Rattle.base.specs.Refusals.{told};
ghost use Rattle.base.specs.Code.{whole_end, of_whole};
ghost use Rattle.ends.specs.Ends.{present, from_two, from_one, abs_lower, abs_upper, abs_ends, end_rule};
ghost use Rattle.ends.specs.Code.{whole_span, end_of, ends_of};

use base::refusals::Refusal;
use base::{Bound, Component};
use ends::Range;
use numbers::Integer;

// A result that leaves 64 bits is refused.
fn end_of(r: Option<Integer>) -> Result<Bound, Refusal>
    ensures { told result ≡ end_of of_whole (present (fitting r)) }
{
    let Some(z) = r else {
        return Err(Refusal::Leaves64Bits);
    };
    Ok(Bound::Whole(z))
}

// ---- Add, Subtract, Negative, Modulo: unless the ends that a new end needs are present, it is absent

#[tactic(auto, unfolding(ends::specs::Ends::from_two))]
fn add_end(x: Bound, y: Bound) -> Result<Bound, Refusal>
    ensures { told result ≡ end_of of_whole (from_two whole.add (whole_end x) (whole_end y)) }
{
    let Bound::Whole(a) = x else {
        return Ok(Bound::Absent);
    };
    let Bound::Whole(b) = y else {
        return Ok(Bound::Absent);
    };
    end_of(numbers::checked_add(a, b))
}

#[tactic(auto, unfolding(ends::specs::Ends::from_two))]
fn sub_end(x: Bound, y: Bound) -> Result<Bound, Refusal>
    ensures { told result ≡ end_of of_whole (from_two whole.sub (whole_end x) (whole_end y)) }
{
    let Bound::Whole(a) = x else {
        return Ok(Bound::Absent);
    };
    let Bound::Whole(b) = y else {
        return Ok(Bound::Absent);
    };
    end_of(numbers::checked_sub(a, b))
}

#[tactic(auto, unfolding(ends::specs::Ends::from_one))]
fn neg_end(x: Bound) -> Result<Bound, Refusal>
    ensures { told result ≡ end_of of_whole (from_one whole.neg (whole_end x)) }
{
    let Bound::Whole(a) = x else {
        return Ok(Bound::Absent);
    };
    end_of(numbers::checked_neg(a))
}

// The last remainder by a divisor that is at most x.
#[tactic(auto, unfolding(ends::specs::Ends::from_one))]
fn last_end(x: Bound) -> Result<Bound, Refusal>
    ensures { told result ≡ end_of of_whole (from_one whole.last (whole_end x)) }
{
    let Bound::Whole(a) = x else {
        return Ok(Bound::Absent);
    };
    end_of(numbers::checked_sub(a, 1))
}

// ---- Abs

#[tactic(auto, unfolding(ends::specs::Ends::abs_lower))]
fn abs_lower(a: Integer, c: Integer) -> Option<Integer>
    ensures { fitting result ≡ abs_lower whole a c }
{
    if 0 < a {
        Some(a)
    } else {
        numbers::checked_neg(c)
    }
}

// The sum may leave 64 bits where both ends do not.
#[tactic(auto, unfolding(ends::specs::Ends::abs_upper))]
fn abs_upper(a: Integer, c: Integer) -> Option<Integer>
    ensures { fitting result ≡ abs_upper whole a c }
{
    let Some(s) = numbers::checked_add(a, c) else {
        return None;
    };
    if 0 < s {
        Some(c)
    } else {
        numbers::checked_neg(a)
    }
}

#[tactic(auto, using(ends::proofs::Rules::both_on, ends::proofs::Answers::both_answer, numbers::proofs::Bits::reads), unfolding(ends::specs::Ends::abs_ends))]
fn abs_ends(x: Range) -> Result<Range, Refusal>
    ensures { told result ≡ ends_of of_whole (abs_ends whole (whole_span x)) }
{
    let Some((a, c)) = ends::pair::<Integer>(x) else {
        return ends::unknown();
    };
    ends::both(end_of(abs_lower(a, c)), end_of(abs_upper(a, c)))
}

// ---- the choice by component

// Abs and Negative read x alone, Modulo y alone.
#[tactic(auto, using(ends::proofs::Rules::rule_absent, ends::proofs::Answers::add_ends_lem, ends::proofs::Answers::sub_ends_lem, ends::proofs::Answers::neg_ends_lem, ends::proofs::Answers::mod_ends_lem, ends::proofs::Answers::pool_ends_lem), unfolding(ends::specs::Ends::end_rule))]
pub fn whole_end_rule(c: Component, x: Range, y: Range) -> Result<Range, Refusal>
    ensures { told result ≡ ends_of of_whole (end_rule whole c (whole_span x) (whole_span y)) }
{
    match c {
        Component::Abs => abs_ends(x),
        Component::Add => ends::both(add_end(x.lower, y.lower), add_end(x.upper, y.upper)),
        Component::Subtract => ends::both(sub_end(x.lower, y.upper), sub_end(x.upper, y.lower)),
        Component::Multiply => whole_corners::mul_ends(x, y),
        Component::Divide => whole_corners::div_ends(x, y),
        Component::Modulo => ends::both(Ok(Bound::Whole(0)), last_end(y.upper)),
        Component::Log | Component::Power => ends::unknown(),
        Component::Negative => ends::both(neg_end(x.upper), neg_end(x.lower)),
        Component::Pool => Ok(Range {
            lower: ends::pool_lower::<i64>(x.lower, y.lower),
            upper: ends::pool_upper::<i64>(x.upper, y.upper),
        }),
    }
}
