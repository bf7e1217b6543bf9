// The steps of a plan, taken one after the other on the work buffer.
#![tactic(auto)]

ghost use Rattle.std.specs.Prelude.{◌≡◌, true, ◌≤◌};
ghost use Rattle.base.specs.Form.{narrow};
ghost use Rattle.plan_form.specs.Form.{node_count, leaf_count};
ghost use Rattle.calls.specs.Walk.{walk};
ghost use Rattle.plan_step.specs.Code.{Rooms, Large};
ghost use Rattle.plan_leaves.specs.Code.{nodes_from, walked, Walkable};
ghost use Rattle.plan.specs.Code.{Reaches};

use plan_leaves::Walked;

// Those steps of a set of nodes that come from node `from` on. Where the category stores are not lent, it stops before the first step that may use them. After
// a refusal, earlier steps' sheets stand and no other byte has changed.
pub fn take_steps(
    plan: &[u8],
    nodes: u64,
    from: usize,
    lent: bool,
    work: &mut [u8],
    first: &mut [u8],
    second: &mut [u8],
    us: &mut [i64],
    bs: &mut [i64],
    store: &mut [i64],
    hints: &mut [u8],
    scratch: &mut [u8],
) -> Walked
    requires walkable { Walkable plan.now work.old × (leaf_count plan.now ≤ from) × (from ≤ node_count plan.now) }
    requires rooms { Rooms narrow first.old second.old scratch.old × (lent ≡ true → Large narrow us.old bs.old store.old hints.old first.old second.old scratch.old) }
    ensures { (walked nodes plan.now result work.new ≡ walk narrow plan.now (nodes_from nodes plan.now from) work.old) × Reaches lent plan.now result }
{
    let count = plan_form::node_count(plan);
    for k in from..count {
        if sets::has(nodes, k) {
            if !lent && plan_leaves::may_use_stores(plan, k, work) {
                return Walked::Next(k);
            }
            if let Err(refusal) = plan_step::step_on(
                plan, k, work, first, second, us, bs, store, hints, scratch,
            ) {
                return Walked::Refused(refusal, k);
            }
        }
    }
    Walked::Accepted(count)
}
