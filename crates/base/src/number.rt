// The element kind, i64 or f64: what the code that serves both asks of one. `kind` is the definitions' account of it.
ghost use Rattle.std.specs.Prelude.{◌≡◌, ◌+◌, ◌≤◌, ℕ, length, refl};
ghost use Rattle.std.proofs.Math.Option.{Option, none, some};
ghost use Rattle.numbers.specs.Kind.{Kind, whole, float};
ghost use Rattle.octets.specs.Le.{le_at};
ghost use Rattle.base.specs.Decode.{as_whole, as_float};
ghost use Rattle.base.specs.Code.{stated, whole_end, float_end, of_whole, of_float};
ghost use Rattle.base.specs.declared.Bound.{Bound};
ghost use Rattle.base.specs.declared.Bound.TheVariants.{Absent};

use crate::Bound;

pub trait Number: Copy {
    ghost kind: { Kind Self };
    // A bound as an end of a range of the kind.
    ghost end: { Bound → Option Self };
    // And back.
    ghost bound: { Option Self → Bound };
    // 64 bits as a number of the kind.
    ghost read: { ℕ → Self };

    // A bound of the other kind counts as absent.
    fn of(b: Bound) -> Option<Self>
        ensures { stated result ≡ end b };

    fn bound(self) -> Bound
        ensures { result ≡ bound (some self) };

    // The number whose bytes stand at a place.
    fn at(s: &[u8], at: usize) -> Self
        requires { at + 8 ≤ length s.now }
        ensures { result ≡ read (le_at 8 at s.now) };

    fn is_below(self, other: Self) -> bool
        ensures { result ≡ kind.lt self other };

    fn zero() -> Self
        ensures { result ≡ kind.zero };

    fn one() -> Self
        ensures { result ≡ kind.one };

    ghost absent: { bound none ≡ Absent };
}

impl Number for i64 {
    ghost kind = { whole };

    ghost end = { whole_end };

    ghost bound = { of_whole };

    ghost read = { as_whole };

    ghost absent = { refl };

    fn of(b: Bound) -> Option<i64> {
        let Bound::Whole(z) = b else {
            return None;
        };
        Some(z)
    }

    fn bound(self) -> Bound {
        Bound::Whole(self)
    }

    fn at(s: &[u8], at: usize) -> i64 {
        crate::i64_at(s, at)
    }

    fn is_below(self, other: i64) -> bool {
        self < other
    }

    fn zero() -> i64 {
        0
    }

    fn one() -> i64 {
        1
    }
}

impl Number for f64 {
    ghost kind = { float };

    ghost end = { float_end };

    ghost bound = { of_float };

    ghost read = { as_float };

    ghost absent = { refl };

    fn of(b: Bound) -> Option<f64> {
        let Bound::Float(x) = b else {
            return None;
        };
        Some(x)
    }

    fn bound(self) -> Bound {
        Bound::Float(self)
    }

    fn at(s: &[u8], at: usize) -> f64 {
        crate::f64_at(s, at)
    }

    fn is_below(self, other: f64) -> bool {
        self < other
    }

    fn zero() -> f64 {
        0.0
    }

    fn one() -> f64 {
        1.0
    }
}
