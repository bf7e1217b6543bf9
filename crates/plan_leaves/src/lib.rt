// A plan before its first step: slots, leaves, 1 and 27.
#![tactic(auto)]

ghost use Rattle.std.specs.Prelude.{◌≡◌, false, ltb, length};
ghost use Rattle.base.specs.Form.{narrow};
ghost use Rattle.base.specs.Checks.{read};
ghost use Rattle.base.specs.Code.{code_of};
ghost use Rattle.base.specs.Refusals.{code_in};
ghost use Rattle.lending.specs.Code.{holds_categories};
ghost use Rattle.sets.specs.Sets.{full_set};
ghost use Rattle.plan_form.specs.Form.{node_count, left_of, plan_fails};
ghost use Rattle.calls.specs.Walk.{slot_at, sheet_in};
ghost use Rattle.plan_leaves.specs.Code.{SlotIn, EndsAt, Steppable, walked, Walkable, LeavesSay, Begun};
ghost use Rattle.calls.specs.Walk as Walk;

use base::form::Form;
use base::refusals::Refusal;

// A work buffer has a slot for each node.
pub const SLOT: usize = base::form::NARROW_LONGEST;

// The node of a refusal that no node is at fault for.
pub const NO_NODE: usize = 65535;

// How far a plan was walked: to its end, with the node count; to a refusal and its node; or to the step that is next. `rights::admitted` says by the last that the
// call goes on.
#[derive(Clone, Copy)]
pub enum Walked {
    Accepted(usize),
    Refused(Refusal, usize),
    Next(usize),
}

// Where node k's sheet ends in the work buffer. A sheet is as long as its sizes call for, and ends with its slot.
pub fn sheet_end(work: &[u8], k: usize) -> usize
    requires { SlotIn work.now k }
    ensures { EndsAt work.now k result }
{
    let start = k * SLOT;
    let end = start + SLOT;
    let n = base::length_called_for(Form::Narrow, &work[start..end]);
    if SLOT < n {
        return end;
    }
    start + n
}

// The first check of 3 to 5 that node k's sheet breaks.
pub fn check_leaf(work: &[u8], k: usize) -> Result<(), Refusal>
    requires { SlotIn work.now k }
    ensures { code_in result ≡ code_of (read narrow (sheet_in narrow k work.now)) }
{
    let start = k * SLOT;
    let end = sheet_end(work, k);
    checks::check_sheet(Form::Narrow, &work[start..end])
}

// Whether step k may use the category stores: the nature tells, which stands in every slot.
pub fn may_use_stores(plan: &[u8], k: usize, work: &[u8]) -> bool
    requires { Steppable plan.now k work.now }
    ensures { result ≡ holds_categories narrow (sheet_in narrow (left_of plan.now k) work.now) }
{
    let start = plan_form::left_operand(plan, k) * SLOT;
    let end = start + SLOT;
    lending::holds_categories(Form::Narrow, &work[start..end])
}

// All leaves of a set of nodes pass 3 to 5 before any step.
pub fn check_leaves(plan: &[u8], nodes: u64, work: &[u8]) -> Walked
    requires { Walkable plan.now work.now }
    ensures { LeavesSay nodes plan.now work.now result }
{
    let leaves = plan_form::leaf_count(plan);
    for k in 0..leaves {
        if sets::has(nodes, k) {
            if let Err(refusal) = check_leaf(work, k) {
                return Walked::Refused(refusal, k);
            }
        }
    }
    Walked::Next(leaves)
}

// 27: whether the work buffer lacks a slot for some node of the plan.
pub fn lacks_slots(plan: &[u8], work: &[u8]) -> bool
    requires { plan_fails plan.now ≡ false }
    ensures { result ≡ ltb (length work.now) (slot_at narrow (node_count plan.now)) }
{
    work.len() < plan_form::node_count(plan) * SLOT
}

// 1, 27 of the work buffer, and the leaves: the first step is next, or there is none, or the plan is refused.
pub fn begin(plan: &[u8], work: &[u8]) -> Walked
    ensures { (walked full_set plan.now result work.now ≡ Walk.plan narrow plan.now work.now) × Begun plan.now work.now result }
{
    if plan_form::plan_fails(plan) {
        return Walked::Refused(Refusal::Malformed, NO_NODE);
    }
    if lacks_slots(plan, work) {
        return Walked::Refused(Refusal::NoRoom, NO_NODE);
    }
    let leaves = check_leaves(plan, sets::FULL, work);
    let Walked::Next(k) = leaves else {
        return leaves;
    };
    if k == plan_form::node_count(plan) {
        return Walked::Accepted(k);
    }
    Walked::Next(k)
}
