// The groups of two sheets: `propagate_binary_group_id`.
ghost use Rattle.std.specs.Prelude.{◌≡◌, false, ◌<◌};
ghost use Rattle.base.specs.Form.{form_of};
ghost use Rattle.base.specs.Decode.{groups_in};
ghost use Rattle.base.specs.Checks.{holds_from, sizes_fail};
ghost use Rattle.base.specs.Sized.{GroupsFit};
ghost use Rattle.shape.specs.Shape.{same_groups};
ghost use Rattle.shape.specs.Asked.{groups_meet};

use base::form;
use base::form::Form;

// Group i of g: partition, kind and value.
fn same_group(f: Form, left: &[u8], right: &[u8], g: usize, i: usize) -> bool
    requires { GroupsFit (form_of f) left.now g × GroupsFit (form_of f) right.now g × (i < g) }
    ensures { result ≡ groups_meet (form_of f) g left.now right.now i }
{
    let partition = f.partition_at(i);
    let key = f.key_at(g, i);
    let x = base::i64_at(left, key + 1);
    let y = base::i64_at(right, key + 1);
    (base::u32_at(left, partition) == base::u32_at(right, partition))
        & (base::byte_at(left, key) == base::byte_at(right, key))
        & (x == y)
}

// g groups on either side, in order.
#[tactic(auto, using(base::proofs::Holding::held))]
fn all_same(f: Form, left: &[u8], right: &[u8], g: usize) -> bool
    requires { GroupsFit (form_of f) left.now g × GroupsFit (form_of f) right.now g }
    ensures { result ≡ holds_from g 0 (groups_meet (form_of f) g left.now right.now) }
{
    for i in 0..g {
        if !same_group(f, left, right, g, i) {
            return false;
        }
    }
    true
}

// Equal in count and in order.
pub fn same_groups(f: Form, left: &[u8], right: &[u8]) -> bool
    requires { (sizes_fail (form_of f) left.now ≡ false) × (sizes_fail (form_of f) right.now ≡ false) }
    ensures { result ≡ same_groups (groups_in (form_of f) left.now) (groups_in (form_of f) right.now) }
{
    let ours = base::sizes_at(f, left);
    let theirs = base::sizes_at(f, right);
    let g = ours.groups;
    let h = theirs.groups;
    if g != h {
        return false;
    }
    all_same(f, left, right, g)
}
