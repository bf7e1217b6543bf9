// A line `plan work_len leaves code value result`, and the plan call that it asks for.
ghost use Rattle.std.specs.Prelude.{IfSome};
ghost use Rattle.answers.specs.Answers.{Confirms};
ghost use Rattle.answers.specs.PlanLine.{plan_asks, plan_stores, plan_stored};

use crate::{Outcome, Said, Told, answer};

const FIELDS: usize = 6;

// The numbers of a line, but for the work buffer's length.
#[derive(Clone, Copy)]
struct Call {
    code: u32,
    value: u32,
}

// Reads the plan, lays out the buffers, makes the call, and compares.
fn compared(
    line: &[u8],
    call: Call,
    plan: &mut [u8],
    work: &mut [u8],
    expected: &mut [u8],
) -> Option<Outcome>
    ensures { IfSome result (λ o. Confirms o (plan_asks line.now work.old) (plan_stores line.now call.code call.value expected.old)) }
{
    let n = lines::bytes_of(lines::field(line, 0), plan)?;
    let leaves = slots::laid_out(line, work, expected)?;
    let reply = gate::propagate_properties(&plan[..n], work);
    let said = Said {
        component: 0,
        told: Told::of_code(call.code, call.value, leaves),
    };
    Some(answer::compared(
        said,
        reply,
        work,
        call.code,
        u64::from(call.value),
        expected,
    ))
}

pub(crate) fn judged(line: &[u8], work: &mut [u8], expected: &mut [u8]) -> Option<Outcome>
    ensures { IfSome result (λ o. Confirms o (plan_asks line.now work.old) (plan_stored line.now expected.old)) }
{
    if lines::fields(line) != FIELDS {
        return None;
    }
    let call = Call {
        code: answer::number_at(line, 3)?,
        value: answer::number_at(line, 4)?,
    };
    let mut plan = io::buffer();
    compared(line, call, &mut plan, work, expected)
}
