// One step of a plan, taken on the work buffer.
#![tactic(auto)]

ghost use Rattle.std.specs.Prelude.{◌≡◌, true};
ghost use Rattle.base.specs.Form.{narrow};
ghost use Rattle.deliveries.specs.Code.{given};
ghost use Rattle.lending.specs.Code.{holds_categories};
ghost use Rattle.plan_form.specs.Form.{left_of};
ghost use Rattle.calls.specs.Walk.{sheet_in, step_on};
ghost use Rattle.plan_leaves.specs.Code.{Steppable};
ghost use Rattle.plan_step.specs.Code.{Rooms, Large};

use base::Component;
use base::form::Form;
use base::refusals::Refusal;

// Takes step k as the single call does with its node number. It reads its operands' slots and writes its own.
pub fn step_on(
    plan: &[u8],
    k: usize,
    work: &mut [u8],
    first: &mut [u8],
    second: &mut [u8],
    us: &mut [i64],
    bs: &mut [i64],
    store: &mut [i64],
    hints: &mut [u8],
    scratch: &mut [u8],
) -> Result<usize, Refusal>
    requires steppable { Steppable plan.now k work.old × Rooms narrow first.old second.old scratch.old }
    requires large { holds_categories narrow (sheet_in narrow (left_of plan.now k) work.old) ≡ true → Large narrow us.old bs.old store.old hints.old first.old second.old scratch.old }
    ensures { given result work.new ≡ step_on narrow plan.now k work.old }
{
    let numbered = Component::from_number(plan_form::component_number(plan, k));
    let Some(c) = numbered else {
        // No plan that passed 1 has such a component.
        return Err(Refusal::NoComponent);
    };
    let left = plan_form::left_operand(plan, k);
    let right = plan_form::right_operand(plan, k);
    let left_start = left * plan_leaves::SLOT;
    let right_start = right * plan_leaves::SLOT;
    let own = k * plan_leaves::SLOT;
    let sheets = &work[..];
    let left_end = plan_leaves::sheet_end(sheets, left);
    let right_end = plan_leaves::sheet_end(sheets, right);
    let put = transforms::step(
        Form::Narrow,
        c,
        k as u32,
        &sheets[left_start..left_end],
        &sheets[right_start..right_end],
        first,
        second,
        us,
        bs,
        store,
        hints,
        scratch,
    );
    deliveries::deliver_sheet(put, scratch, &mut work[own..])
}
