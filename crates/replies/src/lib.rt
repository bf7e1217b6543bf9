// The reply of a call: a code and a value, of a step that is delivered, of a plan that was walked and of a node that is shown.
#![tactic(auto)]

ghost use Rattle.std.specs.Prelude.{◌≡◌, List, ℕ, ◌^◌, ◌<◌, length};
ghost use Rattle.calls.specs.Single.{packed, delivery};
ghost use Rattle.deliveries.specs.Code.{step_in_by, Held};
ghost use Rattle.base.specs.Form.{narrow};
ghost use Rattle.calls.specs.Walk.{sheet_in};
ghost use Rattle.plan_leaves.specs.Code.{SlotIn, walked, Ended};
ghost use Rattle.rights.specs.Reveal.{showing};
ghost use Rattle.replies.specs.Reply.{replied};

use base::refusals::{Refusal, Refusing};
use plan_leaves::Walked;

// What the value of a reply is multiplied by.
const VALUE_UNIT: u64 = 4294967296;

// The code in the low 32 bits, the value in the high 32.
pub fn reply(code: u32, value: usize) -> u64
    requires { value < 2 ^ 32 }
    ensures { result ≡ packed code value }
{
    (code as u64) + VALUE_UNIT * (value as u64)
}

// Delivers what a step left in the scratch, and replies. A refusal leaves every byte of `out` as it was.
pub fn deliver_reply<E: Refusing>(put: Result<usize, E>, scratch: &[u8], out: &mut [u8]) -> u64
    requires { Held put (length scratch.now) × (length scratch.now < 2 ^ 32) }
    ensures { replied result out.new ≡ delivery (step_in_by E.number put scratch.now) out.old }
{
    let delivered = deliveries::deliver_sheet(put, scratch, out);
    match delivered {
        Ok(n) => reply(0, n),
        Err(refusal) => reply(refusal.number(), 0),
    }
}

// The reply of a plan that was walked to its end or to a refusal.
pub fn walked_reply(answer: Walked) -> u64
    requires { Ended answer }
    ensures { (nodes : ℕ) (p work : List ℕ) → replied result work ≡ walked nodes p answer work }
{
    match answer {
        Walked::Accepted(nodes) => reply(0, nodes),
        Walked::Refused(refusal, node) => reply(refusal.number(), node),
        Walked::Next(k) => 0,
    }
}

// Delivers node k's sheet from the work buffer, and replies. A short output stays unwritten.
pub fn show_reply(work: &[u8], k: usize, out: &mut [u8]) -> u64
    requires { SlotIn work.now k }
    ensures { replied result out.new ≡ showing (sheet_in narrow k work.now) out.old }
{
    let start = k * plan_leaves::SLOT;
    let end = plan_leaves::sheet_end(work, k);
    let n = end - start;
    if octets::deliver(out, &work[start..end], n) {
        return reply(0, n);
    }
    reply(Refusal::NoRoom.number(), plan_leaves::NO_NODE)
}
