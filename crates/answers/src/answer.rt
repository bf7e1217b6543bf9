// What the gate answers, held against what a list says, and the buffers that it is lent.
ghost use Rattle.std.specs.Prelude.{◌≡◌, true, ◌/◌, ◌%◌, ◌^◌, length};
ghost use Rattle.std.proofs.Math.Option.{some};
ghost use Rattle.base.specs.Form.{narrow};
ghost use Rattle.calls.specs.Single.{outcome};
ghost use Rattle.plan_form.specs.Form.{node_limit};
ghost use Rattle.calls.specs.Walk as Walk;
ghost use Rattle.replies.specs.Reply.{replied};
ghost use Rattle.answers.specs.Texts as Texts;
ghost use Rattle.answers.specs.Answers.{Confirms};

use crate::{Outcome, Said};

// The most bytes of a buffer that a line may ask for: what the most nodes take, as the list's largest work buffer does.
pub const ROOM: usize = plan_form::NODE_LIMIT * plan_leaves::SLOT;

// What a buffer holds where the list lays nothing.
const FILL: u8 = 165;

// What the value in a reply is multiplied by.
const VALUE_UNIT: u64 = 4294967296;

// A field's number.
pub(crate) fn number_at(line: &[u8], k: usize) -> Option<u32>
    ensures { result ≡ Texts.number_at k line.now }
{
    lines::decimal(lines::field(line, k))
}

// The length stands beside, since lending a part needs it.
#[tactic(auto, unfolding(crate::specs::Texts::filled))]
pub(crate) fn filled() -> [u8; ROOM]
    ensures node_limit_value { Walk.slot_at narrow node_limit ≡ length result }
    ensures value { result ≡ Texts.filled (Walk.slot_at narrow node_limit) }
{
    [FILL; ROOM]
}

pub fn code_of(reply: u64) -> u64
    ensures { result ≡ reply % 2 ^ 32 }
{
    reply % VALUE_UNIT
}

pub fn value_of(reply: u64) -> u64
    ensures { result ≡ reply / 2 ^ 32 }
{
    reply / VALUE_UNIT
}

// Whether the gate's reply and the lent buffer are what the list says.
fn agrees(reply: u64, lent: &[u8], code: u32, value: u64, expected: &[u8]) -> bool
    ensures { (result ≡ true → replied reply lent.now ≡ outcome code value expected.now) × (replied reply lent.now ≡ outcome code value expected.now → result ≡ true) }
{
    code_of(reply) == u64::from(code) && value_of(reply) == value && lent == expected
}

// They agree where the list has what the gate answered: code, value and every byte.
pub(crate) fn compared(
    said: Said,
    reply: u64,
    lent: &[u8],
    code: u32,
    value: u64,
    expected: &[u8],
) -> Outcome
    ensures { Confirms result (some (replied reply lent.now)) (some (outcome code value expected.now)) }
{
    if agrees(reply, lent, code, value, expected) {
        Outcome::Agrees(said)
    } else {
        Outcome::Differs(said, reply)
    }
}
