// The calls that Rust sees, and C through `gate_c`, each with a reply of a code and a value: the single call derives a sheet in a lent buffer, the plan call one for each step in a
// lent work buffer, and the call that shows a node delivers one of these to a reader.
#![tactic(auto)]

ghost use Rattle.std.specs.Prelude.{◌≡◌, ◌%◌, ◌^◌};
ghost use Rattle.base.specs.Form.{narrow};
ghost use Rattle.calls.specs.Single.{single};
ghost use Rattle.calls.specs.Walk as Walk;
ghost use Rattle.containment.specs.Demand.{Contained};
ghost use Rattle.replies.specs.Reply.{replied, shown};
ghost use Rattle.rights.specs.Reveal.{reveal};
ghost use Rattle.reveal_laws.specs.Runs.{SameRights, Alike, AsPlanned};

use base::form::Form;
use base::refusals::Refusal;
use base::{Component, form};
use plan_leaves::Walked;

mod buffers;

// Only a step that may join or unite texts has room for an area, and only one that maps, combines or unites categories the stores.
#[tactic(auto, using(replies::proofs::Packed::reply_is), unfolding(calls::specs::Single::single, calls::specs::Single::single_of))]
pub fn propagate_property(
    component: u32,
    node: u32,
    left: &[u8],
    right: &[u8],
    out: &mut [u8],
) -> u64
    ensures { replied result out.new ≡ single narrow component node left.now right.now out.old }
{
    let numbered = Component::from_number(component);
    let Some(c) = numbered else {
        return replies::reply(Refusal::NoComponent.number(), 0);
    };
    if lending::joins_texts(Form::Narrow, c, left, right) {
        return buffers::step_in_buffers::<
            { form::NARROW_TEXTS_ROOM },
            { form::NARROW_CATEGORY_LIMIT },
            { utilities::HINTS },
            { form::NARROW_LONGEST },
        >(c, node, left, right, out);
    }
    if lending::joins_lists(Form::Narrow, c, left, right) {
        return buffers::step_in_buffers::<
            { form::NARROW_VALUES_ROOM },
            { form::NARROW_CATEGORY_LIMIT },
            { utilities::HINTS },
            { form::NARROW_LISTS_LONGEST },
        >(c, node, left, right, out);
    }
    buffers::step_in_buffers::<{ form::NARROW_ENDS_ROOM }, 0, 0, { form::NARROW_RANGE_LONGEST }>(
        c, node, left, right, out,
    )
}

// `contained` is demand 3, of the work buffer as it was handed in and as it is left.
pub fn propagate_properties(plan: &[u8], work: &mut [u8]) -> u64
    ensures bytes { replied result work.new ≡ Walk.plan narrow plan.now work.old }
    ensures contained { result % 2 ^ 32 ≡ 0 → Contained narrow plan.now work.old work.new }
{
    let begun = plan_leaves::begin(plan, work);
    let Walked::Next(k) = begun else {
        return replies::walked_reply(begun);
    };
    replies::walked_reply(walks::walk_steps(plan, sets::FULL, k, work))
}

// The wanted node's sheet, in an output of its own, if the reader may see it. `rights` and `alike` say what every other run with the same plan, owners, reader and
// wanted node has in common with this one, `planned` what the plan call has.
pub fn reveal_node(
    plan: &[u8],
    owners: &[u8],
    reader: u64,
    wanted: u32,
    work: &mut [u8],
    out: &mut [u8],
) -> u64
    ensures bytes { shown result work.new out.new ≡ reveal narrow plan.now owners.now reader wanted work.old out.old }
    ensures rights { SameRights narrow plan.now owners.now reader wanted work.old out.old (shown result work.new out.new) }
    ensures alike { Alike narrow plan.now owners.now reader wanted work.old out.old (shown result work.new out.new) }
    ensures planned { AsPlanned narrow plan.now owners.now reader wanted work.old out.old (shown result work.new out.new) }
{
    let node = wanted as usize;
    let admitted = rights::admitted(plan, owners, reader, node, work);
    let Walked::Next(_) = admitted else {
        return replies::walked_reply(admitted);
    };
    let nodes = standing::stands_on(plan, node);
    let leaves = plan_leaves::check_leaves(plan, nodes, work);
    let Walked::Next(k) = leaves else {
        return replies::walked_reply(leaves);
    };
    let steps = walks::walk_steps(plan, nodes, k, work);
    let Walked::Accepted(_) = steps else {
        return replies::walked_reply(steps);
    };
    replies::show_reply(work, node, out)
}
