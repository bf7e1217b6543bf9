// What a node stands on.
#![tactic(auto)]

ghost use Rattle.std.specs.Prelude.{◌≡◌, ℕ, ◌^◌, ◌<◌, ◌≤◌, length, get_or};
ghost use Rattle.plan_form.specs.Form.{node_limit};
ghost use Rattle.sets.specs.Sets.{in_set};
ghost use Rattle.standing.specs.Standing.{stands};
ghost use Rattle.standing.specs.Code.{NodeOf, gathered};

// Unites the sets that node `wanted` and all it stands on have of their own: every node's own set goes in, and up to `wanted` each place has the union of what its
// node stands on afterwards.
pub fn gather(plan: &[u8], wanted: usize, sets: &mut [u64]) -> u64
    requires { NodeOf plan.now wanted × (node_limit ≤ length sets.old) }
    ensures { result ≡ gathered plan.now (λ k. get_or sets.old k 0) wanted }
{
    // `..=wanted` would ask twice in each turn whether it is the last.
    for k in plan_form::leaf_count(plan)..wanted + 1 {
        let left = plan_form::left_operand(plan, k);
        let right = plan_form::right_operand(plan, k);
        sets[k] |= sets[left] | sets[right];
    }
    sets[wanted]
}

// Each node in a set of its own.
fn singles(sets: &mut [u64])
    requires { length sets.old ≤ 64 }
    ensures { (k : ℕ) → k < length sets.old → get_or sets.new k 0 ≡ 2 ^ k }
{
    for k in 0..sets.len() {
        sets[k] = sets::only(k);
    }
}

// The nodes that `wanted` stands on, itself included.
pub fn stands_on(plan: &[u8], wanted: usize) -> u64
    requires { NodeOf plan.now wanted }
    ensures { (j : ℕ) → in_set result j ≡ stands plan.now wanted j }
{
    let mut nodes = [0u64; plan_form::NODE_LIMIT];
    singles(&mut nodes);
    gather(plan, wanted, &mut nodes)
}
