// The step of each family but Pool: from operands that passed 3 to 5, the derived sheet at the start of a buffer.
#![tactic(auto)]

ghost use Rattle.std.specs.Prelude.{◌≡◌, pos, length};
ghost use Rattle.numbers.specs.Result.{ok, and_then};
ghost use Rattle.base.specs.Form.{form_of};
ghost use Rattle.base.specs.Decode.{decode};
ghost use Rattle.base.specs.Encode.{encode};
ghost use Rattle.base.specs.Components.{family_of};
ghost use Rattle.base.specs.declared.Family.TheVariants as Fam;
ghost use Rattle.shape.specs.Fields.{with_node};
ghost use Rattle.calls.specs.Derive.{derive_unary, derive_pair, derive_copy};
ghost use Rattle.lending.specs.Code.{Read, Lent, Buffers};
ghost use Rattle.deliveries.specs.Code.{step_in, Held};

use base::Component;
use base::form::Form;
use base::refusals::Refusal;

// Abs and Negative copy their operand but for its nature.
pub fn step_unary(
    f: Form,
    c: Component,
    left: &[u8],
    first: &mut [u8],
    second: &mut [u8],
    us: &mut [i64],
    store: &mut [i64],
    hints: &mut [u8],
    out: &mut [u8],
) -> Result<usize, Refusal>
    requires read { Read (form_of f) left.now × (family_of c ≡ Fam.Unary) }
    requires buffers { Buffers (family_of c) (form_of f) left.now left.now first.old second.old out.old × Lent (family_of c) (form_of f) left.now left.now us.old us.old store.old hints.old first.old second.old }
    ensures { (step_in result out.new ≡ and_then (derive_unary (form_of f) c (decode (form_of f) left.now)) (λ s. ok (encode (form_of f) s))) × Held result (length out.old) }
{
    let h = base::read_head(f, left);
    orders::unary_code(h)?;
    let columns = shape::columns_of(h) as usize;
    let p = natures::propagate_unary_nature(
        f,
        c,
        h.data_type,
        columns,
        left,
        us,
        store,
        hints,
        first,
        second,
    )?;
    Ok(writer::put_sheet(f, out, p, first, second, h, base::node_at(f, left), left))
}

// Add, Subtract, Multiply and Divide.
pub fn step_pair(
    f: Form,
    c: Component,
    node: u32,
    left: &[u8],
    right: &[u8],
    first: &mut [u8],
    second: &mut [u8],
    us: &mut [i64],
    bs: &mut [i64],
    store: &mut [i64],
    hints: &mut [u8],
    out: &mut [u8],
) -> Result<usize, Refusal>
    requires read { Read (form_of f) left.now × Read (form_of f) right.now × (family_of c ≡ Fam.Pair) }
    requires buffers { Buffers (family_of c) (form_of f) left.now right.now first.old second.old out.old × Lent (family_of c) (form_of f) left.now right.now us.old bs.old store.old hints.old first.old second.old }
    ensures { (step_in result out.new ≡ and_then (derive_pair (form_of f) c (decode (form_of f) left.now) (decode (form_of f) right.now)) (λ s. ok (encode (form_of f) (with_node (pos node) s)))) × Held result (length out.old) }
{
    let l = base::read_head(f, left);
    let r = base::read_head(f, right);
    orders::pair_code(f, left, right, l, r)?;
    let columns = shape::widest(l, r) as usize;
    let p = natures::propagate_binary_nature(
        f,
        c,
        l.data_type,
        columns,
        left,
        right,
        us,
        bs,
        store,
        hints,
        first,
        second,
    )?;
    let more = bounds::zero::adds_nullity(f, c, right);
    let h = shape::pair_head(more, l, r);
    Ok(writer::put_pair(
        f,
        out,
        p,
        first,
        second,
        h,
        node as i64,
        left,
        right,
        l.releasable,
    ))
}

// Modulo, Log and Power copy left but for a few fields.
pub fn step_copy(
    f: Form,
    c: Component,
    left: &[u8],
    right: &[u8],
    first: &mut [u8],
    second: &mut [u8],
    us: &mut [i64],
    bs: &mut [i64],
    store: &mut [i64],
    hints: &mut [u8],
    out: &mut [u8],
) -> Result<usize, Refusal>
    requires read { Read (form_of f) left.now × Read (form_of f) right.now × (family_of c ≡ Fam.Copy) }
    requires buffers { Buffers (family_of c) (form_of f) left.now right.now first.old second.old out.old × Lent (family_of c) (form_of f) left.now right.now us.old bs.old store.old hints.old first.old second.old }
    ensures { (step_in result out.new ≡ and_then (derive_copy (form_of f) c (decode (form_of f) left.now) (decode (form_of f) right.now)) (λ s. ok (encode (form_of f) s))) × Held result (length out.old) }
{
    let l = base::read_head(f, left);
    let r = base::read_head(f, right);
    orders::copy_code(f, c, left, right, l, r)?;
    let columns = shape::columns_of(l) as usize;
    let p = natures::propagate_binary_nature(
        f,
        c,
        l.data_type,
        columns,
        left,
        right,
        us,
        bs,
        store,
        hints,
        first,
        second,
    )?;
    orders::last_code(f, left, right, l, r)?;
    let h = shape::copy_head(l, r);
    let node = base::node_at(f, left);
    Ok(writer::put_pair(f, out, p, first, second, h, node, left, right, l.releasable))
}
