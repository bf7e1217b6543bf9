// The steps of a plan, in buffers that are made here.
#![tactic(auto)]

ghost use Rattle.std.specs.Prelude.{◌≡◌, ◌≤◌};
ghost use Rattle.base.specs.Form.{narrow};
ghost use Rattle.plan_form.specs.Form.{node_count, leaf_count};
ghost use Rattle.calls.specs.Walk.{walk};
ghost use Rattle.plan_leaves.specs.Code.{nodes_from, walked, Walkable, Ended};
ghost use Rattle.walks.specs.Sizes.{Sizes};
ghost use Rattle.plan.specs.Code.{Reaches};

use base::form;
use plan_leaves::Walked;

// Those steps of a set of nodes that come from node `from` on, in buffers of these sizes, which are made here: of the second array, of the category stores, of the
// hints and of the sheet. Only where they have room for all that a step may do is `lent` said, and else it stops before the first step that may need it.
fn steps_in_buffers<
    const SECOND: usize,
    const STORES: usize,
    const HINTS: usize,
    const SHEET: usize,
>(plan: &[u8], nodes: u64, from: usize, lent: bool, work: &mut [u8]) -> Walked
    requires walkable { Walkable plan.now work.old × (leaf_count plan.now ≤ from) × (from ≤ node_count plan.now) }
    requires sizes { Sizes narrow lent lent SECOND STORES HINTS SHEET }
    ensures { (walked nodes plan.now result work.new ≡ walk narrow plan.now (nodes_from nodes plan.now from) work.old) × Reaches lent plan.now result }
{
    let mut first = [0u8; form::NARROW_ENDS_ROOM];
    let mut second = [0u8; SECOND];
    let mut us = [0i64; STORES];
    let mut bs = [0i64; STORES];
    let mut store = [0i64; STORES];
    let mut hints = [0u8; HINTS];
    let mut scratch = [0u8; SHEET];
    plan::take_steps(
        plan,
        nodes,
        from,
        lent,
        work,
        &mut first,
        &mut second,
        &mut us,
        &mut bs,
        &mut store,
        &mut hints,
        &mut scratch,
    )
}

// The steps of a set of nodes from node `from` on: in buffers for ranges, and from the first step that may use the category stores on in buffers for all.
pub fn walk_steps(plan: &[u8], nodes: u64, from: usize, work: &mut [u8]) -> Walked
    requires { Walkable plan.now work.old × (from ≡ leaf_count plan.now) }
    ensures { (walked nodes plan.now result work.new ≡ walk narrow plan.now (nodes_from nodes plan.now from) work.old) × Ended result }
{
    let ranges = steps_in_buffers::<
        { form::NARROW_ENDS_ROOM },
        0,
        0,
        { form::NARROW_RANGE_LONGEST },
    >(plan, nodes, from, false, work);
    let Walked::Next(m) = ranges else {
        return ranges;
    };
    steps_in_buffers::<
        { form::NARROW_TEXTS_ROOM },
        { form::NARROW_CATEGORY_LIMIT },
        { utilities::HINTS },
        { form::NARROW_LONGEST },
    >(plan, nodes, m, true, work)
}
