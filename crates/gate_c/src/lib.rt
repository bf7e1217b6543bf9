// The three calls as C and Rust see them: each is the gate's function of that name, under the C calling convention, with the same promises.
#![tactic(auto)]

ghost use Rattle.std.specs.Prelude.{◌≡◌, ◌%◌, ◌^◌};
ghost use Rattle.base.specs.Form.{narrow};
ghost use Rattle.calls.specs.Single.{single, step, delivery};
ghost use Rattle.calls.specs.Walk as Walk;
ghost use Rattle.containment.specs.Demand.{Contained};
ghost use Rattle.replies.specs.Reply.{replied, shown};
ghost use Rattle.rights.specs.Reveal.{reveal};
ghost use Rattle.reveal_laws.specs.Runs.{SameRights, Alike, AsPlanned};

#[unsafe(no_mangle)]
pub extern "C" fn propagate_property(
    component: u32,
    node: u32,
    left: &[u8],
    right: &[u8],
    out: &mut [u8],
) -> u64
    ensures { replied result out.new ≡ single narrow component node left.now right.now out.old }
{
    gate::propagate_property(component, node, left, right, out)
}

#[unsafe(no_mangle)]
pub extern "C" fn propagate_properties(plan: &[u8], work: &mut [u8]) -> u64
    ensures bytes { replied result work.new ≡ Walk.plan narrow plan.now work.old }
    ensures contained { result % 2 ^ 32 ≡ 0 → Contained narrow plan.now work.old work.new }
{
    gate::propagate_properties(plan, work)
}

#[unsafe(no_mangle)]
pub extern "C" fn reveal_node(
    plan: &[u8],
    owners: &[u8],
    reader: u64,
    wanted: u32,
    work: &mut [u8],
    out: &mut [u8],
) -> u64
    ensures bytes { shown result work.new out.new ≡ reveal narrow plan.now owners.now reader wanted work.old out.old }
    ensures rights { SameRights narrow plan.now owners.now reader wanted work.old out.old (shown result work.new out.new) }
    ensures alike { Alike narrow plan.now owners.now reader wanted work.old out.old (shown result work.new out.new) }
    ensures planned { AsPlanned narrow plan.now owners.now reader wanted work.old out.old (shown result work.new out.new) }
{
    gate::reveal_node(plan, owners, reader, wanted, work, out)
}
