// The number types, and arithmetic on 64 signed bits: the exact result, or the answer that it leaves the type.
#![tactic(auto)]

ghost use Rattle.std.specs.Prelude.{◌≡◌, ◌+ℤ◌, ◌-ℤ◌, ◌*ℤ◌, neg_ℤ};
ghost use Rattle.numbers.specs.Checked.{checked_of, quotient_of};

pub type Integer = i64;

pub type Float = f64;

#[tactic(auto, using(crate::proofs::Laws::checked_says))]
pub fn checked_add(a: Integer, b: Integer) -> Option<Integer>
    ensures { result ≡ checked_of (a +ℤ b) }
{
    a.checked_add(b)
}

// Every number but the least has a negation.
#[tactic(auto, using(crate::proofs::Laws::checked_says))]
pub fn checked_neg(a: Integer) -> Option<Integer>
    ensures { result ≡ checked_of (neg_ℤ a) }
{
    a.checked_neg()
}

#[tactic(auto, using(crate::proofs::Laws::checked_says))]
pub fn checked_sub(a: Integer, b: Integer) -> Option<Integer>
    ensures { result ≡ checked_of (a -ℤ b) }
{
    a.checked_sub(b)
}

#[tactic(auto, using(crate::proofs::Laws::checked_says))]
pub fn checked_mul(a: Integer, b: Integer) -> Option<Integer>
    ensures { result ≡ checked_of (a *ℤ b) }
{
    a.checked_mul(b)
}

// Rounded toward zero. A zero divisor has no quotient. A lesser magnitude has quotient 0 by a greater, without a division.
#[tactic(auto, using(crate::proofs::Laws::quotient_says, crate::proofs::Laws::quotient_lesser))]
pub fn checked_div(a: Integer, b: Integer) -> Option<Integer>
    ensures { result ≡ quotient_of a b }
{
    if a.unsigned_abs() < b.unsigned_abs() {
        return Some(0);
    }
    a.checked_div(b)
}
