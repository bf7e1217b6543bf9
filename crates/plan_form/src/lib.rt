// The plan's form, read from its bytes, and refusal 1.
#![tactic(auto)]

ghost use Rattle.std.specs.Prelude.{◌≡◌, ◌+◌, ◌*◌, ◌≤◌, length};
ghost use Rattle.base.specs.Checks.{holds_from};
ghost use Rattle.base.specs.Components.{component_of};
ghost use Rattle.plan_form.specs.Form.{node_count, leaf_count, step_count, steps_at, component_number, operands, left_of, right_of, step_permitted, plan_fails};
ghost use Rattle.plan_form.specs.Code.{StepOf};

use base::Component;

pub const NODE_LIMIT: usize = 32;

// The two sizes.
const NODES_AT: usize = 0;

const LEAVES_AT: usize = 2;

// Where the arrays begin, behind the two sizes.
const STEPS_AT: usize = 4;

// The bytes that a step takes in each array, and in both.
const NUMBER_BYTES: usize = 4;

const STEP_BYTES: usize = 2 * NUMBER_BYTES;

// What right is multiplied by in left + 65,536 × right.
const RIGHT_UNIT: u32 = 65536;

// 01: "Two 16-bit sizes: nodes N (1 to 32), leaves K (1 to N)".
pub fn node_count(plan: &[u8]) -> usize
    requires { steps_at ≤ length plan.now }
    ensures { result ≡ node_count plan.now }
{
    octets::u16_at(plan, NODES_AT) as usize
}

pub fn leaf_count(plan: &[u8]) -> usize
    requires { steps_at ≤ length plan.now }
    ensures { result ≡ leaf_count plan.now }
{
    octets::u16_at(plan, LEAVES_AT) as usize
}

// The component's number of node k, a step.
pub fn component_number(plan: &[u8], k: usize) -> u32
    requires { StepOf plan.now k }
    ensures { result ≡ component_number plan.now k }
{
    let leaves = leaf_count(plan);
    octets::u32_at(plan, STEPS_AT + NUMBER_BYTES * (k - leaves))
}

// Both operands of node k, a step, as they are stored.
fn operand_pair(plan: &[u8], k: usize) -> u32
    requires { StepOf plan.now k }
    ensures { result ≡ operands plan.now k }
{
    let leaves = leaf_count(plan);
    let steps = node_count(plan) - leaves;
    octets::u32_at(
        plan,
        STEPS_AT + NUMBER_BYTES * steps + NUMBER_BYTES * (k - leaves),
    )
}

pub fn left_operand(plan: &[u8], k: usize) -> usize
    requires { StepOf plan.now k }
    ensures { result ≡ left_of plan.now k }
{
    (operand_pair(plan, k) % RIGHT_UNIT) as usize
}

pub fn right_operand(plan: &[u8], k: usize) -> usize
    requires { StepOf plan.now k }
    ensures { result ≡ right_of plan.now k }
{
    (operand_pair(plan, k) / RIGHT_UNIT) as usize
}

// 01: "Operands are earlier nodes, counted from 0; for 1 and 9 both are the same".
fn step_permitted(plan: &[u8], k: usize) -> bool
    requires { StepOf plan.now k }
    ensures { result ≡ step_permitted plan.now (component_of (component_number plan.now k)) k }
{
    let numbered = Component::from_number(component_number(plan, k));
    let Some(c) = numbered else {
        return false;
    };
    let left = left_operand(plan, k);
    let right = right_operand(plan, k);
    (left < k) & (right < k) & (!c.family().is_unary() | (left == right))
}

#[tactic(auto, using(base::proofs::Holding::held))]
fn steps_permitted(plan: &[u8]) -> bool
    requires { length plan.now ≡ steps_at + 8 * step_count plan.now }
    ensures { result ≡ holds_from (step_count plan.now) (leaf_count plan.now) (λ k. step_permitted plan.now (component_of (component_number plan.now k)) k) }
{
    for k in leaf_count(plan)..node_count(plan) {
        if !step_permitted(plan, k) {
            return false;
        }
    }
    true
}

// 1: "The plan is malformed". The length is tested before the steps are read.
pub fn plan_fails(plan: &[u8]) -> bool
    ensures { result ≡ plan_fails plan.now }
{
    if plan.len() < STEPS_AT {
        return true;
    }
    let n = node_count(plan);
    let leaves = leaf_count(plan);
    if n == 0 {
        return true;
    }
    if NODE_LIMIT < n {
        return true;
    }
    if leaves == 0 {
        return true;
    }
    if n < leaves {
        return true;
    }
    if plan.len() != STEPS_AT + STEP_BYTES * (n - leaves) {
        return true;
    }
    !steps_permitted(plan)
}
