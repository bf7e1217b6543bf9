// What programs write about sheets: the names of the components, and the magnitude of a number with a sign.
#![tactic(auto)]

ghost use Rattle.std.specs.Prelude.{◌≡◌};
ghost use Rattle.words.specs.Names.{name_of};
ghost use Rattle.words.specs.Signed.{magnitude_of};

use base::Component;

// The descriptor of the standard output.
pub const STDOUT: i32 = 1;

// A component's name; any other number is none.
pub fn component(n: u32) -> &'static str
    ensures { result.now ≡ name_of n }
{
    match n {
        Component::ABS => "Abs",
        Component::ADD => "Add",
        Component::SUBTRACT => "Subtract",
        Component::MULTIPLY => "Multiply",
        Component::DIVIDE => "Divide",
        Component::MODULO => "Modulo",
        Component::LOG => "Log",
        Component::POWER => "Power",
        Component::NEGATIVE => "Negative",
        Component::POOL => "Pool",
        _ => "no component",
    }
}

// The magnitude of the signed number whose two's complement is `v`.
#[tactic(auto, using(std::proofs::lemmas::Bool::Decides::nat_tests), unfolding(crate::specs::Signed::magnitude_of))]
pub fn magnitude(v: u64) -> u64
    ensures { result ≡ magnitude_of v }
{
    if v < 0x8000_0000_0000_0000 { v } else { !v + 1 }
}
