// The sign steps of Abs and Negative on floats. An entry is [a, c].
#![tactic(auto)]

ghost use Rattle.std.specs.Prelude.{◌≡◌};
ghost use Rattle.std.specs.Float.Ieee.{neg};
ghost use Rattle.numbers.specs.Result.{ok};
ghost use Rattle.numbers.specs.Kind.{float};
ghost use Rattle.base.specs.Encode.{float_bits};
ghost use Rattle.base.specs.Refusals.{told};
ghost use Rattle.base.specs.Code.{float_end, of_float};
ghost use Rattle.ends.specs.Ends.{from_one, neg_ends, abs_lower, abs_upper, abs_ends};
ghost use Rattle.ends.specs.Signs.{Number, NumberEnd, Numbers, copied, negated, end_copied, end_negated, neg_bits, abs_lower_bits, abs_upper_bits, abs_bits};
ghost use Rattle.ends.specs.Code.{float_span, end_of, ends_of};
ghost use Rattle.float_signs.specs.Code.{ends_bits};

use base::Bound;
use base::refusals::Refusal;
use ends::Range;
use numbers::Float;

// ---- copy and negate of IEEE 754-2008, 5.5.1

// Keeps all 64 bits.
fn copy(x: Float) -> Float
    ensures value { result ≡ x }
    ensures bits { Number x → float_bits result ≡ copied x }
{
    x
}

// Flips bit 63 and keeps the others, of zeros and infinities too. `0.0 - x` would make 0.0 of both zeros.
fn negate(x: Float) -> Float
    ensures value { result ≡ neg x }
    ensures bits { Number x → float_bits result ≡ negated x }
{
    -x
}

// ---- Negative

fn neg_end(x: Bound) -> Bound
    ensures end { ok result ≡ end_of of_float (from_one float.neg (float_end x)) }
    ensures bits { NumberEnd (float_end x) → end_copied (float_end result) ≡ end_negated (float_end x) }
{
    let Bound::Float(a) = x else {
        return Bound::Absent;
    };
    Bound::Float(negate(a))
}

pub fn neg_ends(x: Range) -> Result<Range, Refusal>
    ensures ends { told result ≡ ends_of of_float (neg_ends float (float_span x)) }
    ensures bits { Numbers (float_span x) → ends_bits (told result) ≡ ok (neg_bits (float_span x)) }
{
    let lower = x.lower;
    let upper = x.upper;
    let l = neg_end(upper);
    let u = neg_end(lower);
    Ok(Range { lower: l, upper: u })
}

// ---- Abs

fn abs_lower(a: Float, c: Float) -> Float
    ensures value { ok result ≡ abs_lower float a c }
    ensures bits { Number a → Number c → float_bits result ≡ abs_lower_bits a c }
{
    if 0.0 < a { copy(a) } else { negate(c) }
}

fn abs_upper(a: Float, c: Float) -> Float
    ensures value { ok result ≡ abs_upper float a c }
    ensures bits { Number a → Number c → float_bits result ≡ abs_upper_bits a c }
{
    if 0.0 < a + c { copy(c) } else { negate(a) }
}

#[tactic(auto, using(ends::proofs::Rules::both_on, ends::proofs::Signs::bits_on_lem), unfolding(ends::specs::Ends::abs_ends))]
pub fn abs_ends(x: Range) -> Result<Range, Refusal>
    ensures ends { told result ≡ ends_of of_float (abs_ends float (float_span x)) }
    ensures bits { Numbers (float_span x) → ends_bits (told result) ≡ ok (abs_bits (float_span x)) }
{
    let Some((a, c)) = ends::pair::<Float>(x) else {
        return ends::unknown();
    };
    Ok(Range {
        lower: Bound::Float(abs_lower(a, c)),
        upper: Bound::Float(abs_upper(a, c)),
    })
}
