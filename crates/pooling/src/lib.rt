// The step of Pool: from operands that passed 3 to 5, the derived sheet at the start of a buffer.
#![tactic(auto)]

ghost use Rattle.std.specs.Prelude.{◌≡◌, pos, length};
ghost use Rattle.numbers.specs.Result.{ok, and_then};
ghost use Rattle.base.specs.Form.{form_of};
ghost use Rattle.base.specs.Decode.{decode};
ghost use Rattle.base.specs.Encode.{encode};
ghost use Rattle.base.specs.Components.{family_of};
ghost use Rattle.base.specs.declared.Family.TheVariants as Fam;
ghost use Rattle.shape.specs.Fields.{with_node};
ghost use Rattle.calls.specs.Derive.{derive_pool};
ghost use Rattle.lending.specs.Code.{Read, Lent, Buffers};
ghost use Rattle.deliveries.specs.Code.{step_in, Held};

use base::Component;
use base::form::Form;
use base::refusals::Refusal;

pub fn step_pool(
    f: Form,
    c: Component,
    node: u32,
    left: &[u8],
    right: &[u8],
    first: &mut [u8],
    second: &mut [u8],
    us: &mut [i64],
    bs: &mut [i64],
    store: &mut [i64],
    hints: &mut [u8],
    out: &mut [u8],
) -> Result<usize, Refusal>
    requires read { Read (form_of f) left.now × Read (form_of f) right.now × (family_of c ≡ Fam.Pool) }
    requires buffers { Buffers (family_of c) (form_of f) left.now right.now first.old second.old out.old × Lent (family_of c) (form_of f) left.now right.now us.old bs.old store.old hints.old first.old second.old }
    ensures { (step_in result out.new ≡ and_then (derive_pool (form_of f) c (decode (form_of f) left.now) (decode (form_of f) right.now)) (λ s. ok (encode (form_of f) (with_node (pos node) s)))) × Held result (length out.old) }
{
    let l = base::read_head(f, left);
    let r = base::read_head(f, right);
    orders::pool_code(f, left, right, l, r)?;
    let columns = shape::widest(l, r) as usize;
    let derived = pool_nature::pooled_nature(
        f,
        c,
        l.data_type,
        columns,
        left,
        right,
        us,
        bs,
        store,
        hints,
        first,
        second,
    );
    let Some(rows) = pool_fields::rows_sum(l.rows, r.rows) else {
        return Err(pool_fields::behind_rows(derived));
    };
    let p = derived?;
    let h = pool_fields::pool_head(rows, l, r);
    Ok(writer::put_pair(
        f,
        out,
        p,
        first,
        second,
        h,
        node as i64,
        left,
        right,
        l.releasable,
    ))
}
