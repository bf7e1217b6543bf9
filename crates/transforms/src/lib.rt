// The single step: `propagate_property` of the ten components, from the operands' bytes to the derived sheet's.
#![tactic(auto)]

ghost use Rattle.std.specs.Prelude.{◌≡◌, length};
ghost use Rattle.base.specs.Form.{form_of};
ghost use Rattle.base.specs.Components.{family_of};
ghost use Rattle.base.specs.Refusals.{code_in};
ghost use Rattle.calls.specs.Single.{step};
ghost use Rattle.lending.specs.Code.{Lent, Buffers};
ghost use Rattle.deliveries.specs.Code.{step_in, Held};
ghost use Rattle.transforms.specs.Code.{right_code_of};

use base::form::Form;
use base::refusals::Refusal;
use base::{Component, Family};

// 3 to 5 of the right sheet, where the family reads it.
#[tactic(auto, unfolding(crate::specs::Code::right_code_of))]
fn right_code(f: Form, family: Family, right: &[u8]) -> Result<(), Refusal>
    ensures { code_in result ≡ right_code_of (form_of f) family right.now }
{
    if family.is_unary() {
        return Ok(());
    }
    checks::check_sheet(f, right)
}

// The derived sheet at the start of a buffer with room for what may be derived, or the refusal.
pub fn step(
    f: Form,
    c: Component,
    node: u32,
    left: &[u8],
    right: &[u8],
    first: &mut [u8],
    second: &mut [u8],
    us: &mut [i64],
    bs: &mut [i64],
    store: &mut [i64],
    hints: &mut [u8],
    out: &mut [u8],
) -> Result<usize, Refusal>
    requires { Buffers (family_of c) (form_of f) left.now right.now first.old second.old out.old × Lent (family_of c) (form_of f) left.now right.now us.old bs.old store.old hints.old first.old second.old }
    ensures { (step_in result out.new ≡ step (form_of f) c node left.now right.now) × Held result (length out.old) }
{
    checks::check_sheet(f, left)?;
    let family = c.family();
    right_code(f, family, right)?;
    match family {
        Family::Unary => steps::step_unary(f, c, left, first, second, us, store, hints, out),
        Family::Pair => steps::step_pair(
            f, c, node, left, right, first, second, us, bs, store, hints, out,
        ),
        Family::Copy => steps::step_copy(
            f, c, left, right, first, second, us, bs, store, hints, out,
        ),
        Family::Pool => pooling::step_pool(
            f, c, node, left, right, first, second, us, bs, store, hints, out,
        ),
    }
}
