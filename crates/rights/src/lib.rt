// Which rink may see which node: the call that shows one node, before any sheet is read.
#![tactic(auto)]

ghost use Rattle.std.specs.Prelude.{◌≡◌, false, ℕ, ◌*◌, ◌<◌, ◌≤◌, length, get_or};
ghost use Rattle.plan_form.specs.Form.{node_limit, leaf_count, plan_fails};
ghost use Rattle.standing.specs.Code.{NodeOf};
ghost use Rattle.rights.specs.Rights as Rights;
ghost use Rattle.rights.specs.Rights.{owner_bytes, owner_set, owners_of};
ghost use Rattle.rights.specs.Reveal.{call_fails};
ghost use Rattle.rights.specs.Code.{Admitted};

use base::refusals::Refusal;
use plan_leaves::Walked;

// The bytes of a leaf's owner set.
const OWNER_BYTES: usize = 8;

// As many owners as show a node to everybody.
const FEWEST_SHOWN: u32 = 5;

// The owner sets of the leaves, each in its place.
fn leaf_sets(plan: &[u8], owners: &[u8], sets: &mut [u64])
    requires { (plan_fails plan.now ≡ false) × (length owners.now ≡ owner_bytes * leaf_count plan.now) × (node_limit ≤ length sets.old) }
    ensures by_index { (k : ℕ) → k < leaf_count plan.now → get_or sets.new k 0 ≡ owner_set owners.now k }
    ensures by_index_2 { (k : ℕ) → leaf_count plan.now ≤ k → get_or sets.new k 0 ≡ get_or sets.old k 0 }
{
    for k in 0..plan_form::leaf_count(plan) {
        sets[k] = octets::u64_at(owners, OWNER_BYTES * k);
    }
}

// The owners of a node: those of all leaves that it stands on.
fn owners_of(plan: &[u8], owners: &[u8], wanted: usize) -> u64
    requires { NodeOf plan.now wanted × (length owners.now ≡ owner_bytes * leaf_count plan.now) }
    ensures { result ≡ owners_of plan.now owners.now wanted }
{
    let mut sets = [0u64; plan_form::NODE_LIMIT];
    leaf_sets(plan, owners, &mut sets);
    standing::gather(plan, wanted, &mut sets)
}

// All owners lie in the reader's set, or there are five or more.
fn seen(owners: u64, reader: u64) -> bool
    ensures { result ≡ Rights.seen owners reader }
{
    ((owners | reader) == reader) | (FEWEST_SHOWN <= u64::count_ones(owners))
}

// 1: the plan is malformed, the node is not in it, or there are other than as many owner sets as leaves.
fn call_fails(plan: &[u8], owners: &[u8], wanted: usize) -> bool
    ensures { result ≡ call_fails plan.now owners.now wanted }
{
    if plan_form::plan_fails(plan) {
        return true;
    }
    if plan_form::node_count(plan) <= wanted {
        return true;
    }
    owners.len() != OWNER_BYTES * plan_form::leaf_count(plan)
}

// 1, 27 of the work buffer, and 30: the leaves that the wanted node stands on are next, or the call is refused.
pub fn admitted(plan: &[u8], owners: &[u8], reader: u64, wanted: usize, work: &[u8]) -> Walked
    ensures { Admitted plan.now owners.now reader wanted work.now result }
{
    if call_fails(plan, owners, wanted) {
        return Walked::Refused(Refusal::Malformed, plan_leaves::NO_NODE);
    }
    if plan_leaves::lacks_slots(plan, work) {
        return Walked::Refused(Refusal::NoRoom, plan_leaves::NO_NODE);
    }
    if !seen(owners_of(plan, owners, wanted), reader) {
        return Walked::Refused(Refusal::NotSeen, wanted);
    }
    Walked::Next(wanted)
}
