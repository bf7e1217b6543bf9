// What the end rules of whole ranges and of float ranges share.
#![tactic(auto)]

ghost use Rattle.std.specs.Prelude.{◌≡◌};
ghost use Rattle.numbers.specs.Result.{ok};
ghost use Rattle.numbers.specs.Kind.{lesser, greater, least, greatest};
ghost use Rattle.base.specs.Refusals.{told, told_by};
ghost use Rattle.base.specs.Code.{stated};
ghost use Rattle.ends.specs.Ends.{from_two};
ghost use Rattle.ends.specs.Code.{absent_ends, both_ends, two_of, end_of};

use base::Bound;
use base::number::Number;
use base::refusals::{Refusal, Refusing};

// An entry of a range.
#[derive(Clone, Copy)]
pub struct Range {
    pub lower: Bound,
    pub upper: Bound,
}

pub fn unknown() -> Result<Range, Refusal>
    ensures { told result ≡ absent_ends }
{
    Ok(Range {
        lower: Bound::Absent,
        upper: Bound::Absent,
    })
}

// The lower end's refusal comes first.
pub fn both<E: Refusing>(lower: Result<Bound, E>, upper: Result<Bound, E>) -> Result<Range, E>
    ensures { told_by E.number result ≡ both_ends (told_by E.number lower) (told_by E.number upper) }
{
    Ok(Range {
        lower: lower?,
        upper: upper?,
    })
}

// Both ends of an entry, by the `let .. else` of 01. A bound of the other kind counts as absent.
pub fn pair<N: Number>(x: Range) -> Option<(N, N)>
    ensures { stated result ≡ two_of (N.end x.lower) (N.end x.upper) }
{
    let Some(a) = N::of(x.lower) else {
        return None;
    };
    let Some(c) = N::of(x.upper) else {
        return None;
    };
    Some((a, c))
}

// ---- the lesser and the greater: of equal numbers the first is the lesser and the last the greater, which settles the sign of zero

pub fn lesser<N: Number>(x: N, y: N) -> N
    ensures { result ≡ lesser N.kind x y }
{
    if y.is_below(x) { y } else { x }
}

pub fn greater<N: Number>(x: N, y: N) -> N
    ensures { result ≡ greater N.kind x y }
{
    if y.is_below(x) { x } else { y }
}

pub fn least<N: Number>(a: N, b: N, c: N, d: N) -> N
    ensures { result ≡ least N.kind a b c d }
{
    lesser(lesser(lesser(a, b), c), d)
}

pub fn greatest<N: Number>(a: N, b: N, c: N, d: N) -> N
    ensures { result ≡ greatest N.kind a b c d }
{
    greater(greater(greater(a, b), c), d)
}

// ---- Pool: the lesser lower and the greater upper, left's on a tie

#[tactic(auto, unfolding(crate::specs::Ends::from_two))]
pub fn pool_lower<N: Number>(x: Bound, y: Bound) -> Bound
    ensures { ok result ≡ end_of N.bound (from_two (λ a d. ok (lesser N.kind a d)) (N.end x) (N.end y)) }
{
    let Some(a) = N::of(x) else {
        return Bound::Absent;
    };
    let Some(d) = N::of(y) else {
        return Bound::Absent;
    };
    lesser(a, d).bound()
}

// On a tie `greater` gives its second argument.
#[tactic(auto, unfolding(crate::specs::Ends::from_two))]
pub fn pool_upper<N: Number>(x: Bound, y: Bound) -> Bound
    ensures { ok result ≡ end_of N.bound (from_two (λ c f. ok (greater N.kind f c)) (N.end x) (N.end y)) }
{
    let Some(c) = N::of(x) else {
        return Bound::Absent;
    };
    let Some(f) = N::of(y) else {
        return Bound::Absent;
    };
    greater(f, c).bound()
}
