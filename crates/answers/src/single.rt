// A line `component node left right out_len code result mark`, and the call that it asks for.
ghost use Rattle.std.specs.Prelude.{IfSome};
ghost use Rattle.answers.specs.Answers.{Confirms};
ghost use Rattle.answers.specs.CallLine.{call_asks, call_stores, call_defined, call_stored};

use crate::{Outcome, Said, Told, answer};

const FIELDS: usize = 8;

// The numbers of a line, but for the output's length.
#[derive(Clone, Copy)]
struct Call {
    component: u32,
    node: u32,
    code: u32,
}

fn is_mark(s: &[u8]) -> bool {
    matches!(s, b"rust" | b"added" | b"decided")
}

fn in_form(line: &[u8]) -> bool {
    lines::fields(line) == FIELDS && is_mark(lines::field(line, 7))
}

// Reads the operands and the result, makes the call, and compares.
fn compared(
    line: &[u8],
    call: Call,
    left: &mut [u8],
    right: &mut [u8],
    out: &mut [u8],
    expected: &mut [u8],
) -> Option<Outcome>
    ensures { IfSome result (λ o. Confirms o (call_asks line.now call.component call.node out.old) (call_stores line.now call.code expected.old)) }
{
    let l = lines::bytes_of(lines::field(line, 2), left)?;
    let r = lines::bytes_of(lines::field(line, 3), right)?;
    let n = lines::bytes_of(lines::field(line, 6), expected)?;
    let reply = gate::propagate_property(call.component, call.node, &left[..l], &right[..r], out);
    let said = Said {
        component: call.component,
        told: Told::of_code(call.code, 0, 0),
    };
    Some(answer::compared(said, reply, out, call.code, n as u64, expected))
}

pub(crate) fn judged(line: &[u8], out: &mut [u8], expected: &mut [u8]) -> Option<Outcome>
    ensures { IfSome result (λ o. Confirms o (call_defined line.now out.old) (call_stored line.now expected.old)) }
{
    if !in_form(line) {
        return None;
    }
    let call = Call {
        component: answer::number_at(line, 0)?,
        node: answer::number_at(line, 1)?,
        code: answer::number_at(line, 5)?,
    };
    let mut left = io::buffer();
    let mut right = io::buffer();
    compared(line, call, &mut left, &mut right, out, expected)
}
