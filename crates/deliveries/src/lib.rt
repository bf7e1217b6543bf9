// The delivery of a derived sheet into a lent buffer, and 27.
#![tactic(auto)]

ghost use Rattle.std.specs.Prelude.{◌≡◌, length};
ghost use Rattle.calls.specs.Single.{delivery};
ghost use Rattle.deliveries.specs.Code.{step_in_by, Held, given_by};

use base::refusals::{Refusal, Refusing};

// Delivers what a step left at the start of `scratch`, or refuses with 27. A refusal leaves every byte of `out` as it was, and is handed on whatever its number.
#[tactic(auto, using(crate::proofs::Deliveries::delivery_fits, crate::proofs::Deliveries::delivery_short, crate::proofs::Deliveries::delivery_refused))]
pub fn deliver_sheet<E: Refusing>(
    put: Result<usize, E>,
    scratch: &[u8],
    out: &mut [u8],
) -> Result<usize, E>
    requires { Held put (length scratch.now) }
    ensures { (given_by E.number result out.new ≡ delivery (step_in_by E.number put scratch.now) out.old) × Held result (length scratch.now) }
{
    let n = put?;
    if octets::deliver(out, scratch, n) {
        Ok(n)
    } else {
        Err(E::of(Refusal::NoRoom))
    }
}
