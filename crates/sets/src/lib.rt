// Sets of numbers below 64, each the bits of one number.
#![tactic(auto)]

ghost use Rattle.std.specs.Prelude.{◌≡◌, ◌<◌, ◌^◌};
ghost use Rattle.sets.specs.Sets.{in_set};

// Every number below 64.
pub const FULL: u64 = 18446744073709551615;

// Whether k is in a set.
pub fn has(set: u64, k: usize) -> bool
    requires { k < 64 }
    ensures { result ≡ in_set set k }
{
    (set >> k) % 2 == 1
}

// The set of k alone.
pub fn only(k: usize) -> u64
    requires { k < 64 }
    ensures { result ≡ 2 ^ k }
{
    1 << k
}
