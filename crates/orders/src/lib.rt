// Checks 6 to 16: the first that fails. One that reads groups or entries is made only where none before it has failed; those of the
// heads alone are made together.
#![tactic(auto)]

ghost use Rattle.std.specs.Prelude.{◌≡◌, false, not, ◌&&◌, [], ◌∷◌, eqb};
ghost use Rattle.numbers.specs.Result.{check, first_failing};
ghost use Rattle.base.specs.Form.{form_of};
ghost use Rattle.base.specs.Decode.{groups_in, nature_in, decode};
ghost use Rattle.base.specs.Bounds.{lowers_positive};
ghost use Rattle.base.specs.Checks.{sizes_fail};
ghost use Rattle.base.specs.Refusals.{number_of, code_in};
ghost use Rattle.base.specs.Code.{stated, head_fields};
ghost use Rattle.shape.specs.Shape.{both_private, same_groups};
ghost use Rattle.orders.specs.Orders.{aggregated, not_one, sampled, operand_checks, unary_checks, shape_checks, pair_checks, stack_checks, pool_checks, modulo_checks, data_checks, log_checks, power_checks, bound_checks, copy_checks, last_checks};
ghost use Rattle.orders.specs.Parts.{Operand, first, operands_code, only};

use base::form::Form;
use base::refusals::Refusal;
use base::{Component, Head, form};
use shape::groups;

// The refusal of a check that fails, else what the later ones say.
fn first(refusal: Refusal, fails: bool, rest: Result<(), Refusal>) -> Result<(), Refusal>
    ensures { code_in result ≡ first (number_of refusal) fails (code_in rest) }
{
    if fails { Err(refusal) } else { rest }
}

// ---- 6 and 7

fn aggregated(h: Head) -> bool
    ensures { result ≡ aggregated (head_fields h) }
{
    !h.releasable & (h.aggregator != 0)
}

// The sample proportion is compared as a float.
fn not_one(sample: Option<u64>) -> bool
    ensures { result ≡ not_one (stated sample) }
{
    let Some(bits) = sample else {
        return false;
    };
    octets::float_of(bits) != 1.0
}

fn sampled(h: Head) -> bool
    ensures { result ≡ sampled (head_fields h) }
{
    let sample = h.sample;
    !h.releasable & not_one(sample)
}

fn operand_code(h: Head) -> Result<(), Refusal>
    ensures { code_in result ≡ first_failing (operand_checks (head_fields h)) }
{
    first(
        Refusal::Aggregated,
        aggregated(h),
        first(Refusal::Sampled, sampled(h), Ok(())),
    )
}

// 6 and 7 of both operands, left's before right's.
fn operands_code(l: Head, r: Head) -> Result<(), Refusal>
    ensures { code_in result ≡ operands_code (head_fields l) (head_fields r) 0 }
{
    operand_code(l)?;
    operand_code(r)
}

// Abs and Negative.
pub fn unary_code(h: Head) -> Result<(), Refusal>
    ensures { code_in result ≡ first_failing (unary_checks (head_fields h)) }
{
    first(
        Refusal::Aggregated,
        aggregated(h),
        first(Refusal::NoColumns, shape::columns_absent(h), Ok(())),
    )
}

// ---- 8 to 14

fn both_private(l: Head, r: Head) -> bool
    ensures { result ≡ both_private (head_fields l) (head_fields r) }
{
    !l.releasable & !r.releasable
}

// Groups are compared only where neither operand is releasable.
fn groups_clash(f: Form, left: &[u8], right: &[u8], l: Head, r: Head) -> bool
    requires { (sizes_fail (form_of f) left.now ≡ false) × (sizes_fail (form_of f) right.now ≡ false) }
    ensures { result ≡ (both_private (head_fields l) (head_fields r) && not (same_groups (groups_in (form_of f) left.now) (groups_in (form_of f) right.now))) }
{
    if both_private(l, r) {
        return !groups::same_groups(f, left, right);
    }
    false
}

// 9 to 14.
fn shape_code(l: Head, r: Head) -> Result<(), Refusal>
    ensures { code_in result ≡ first_failing (shape_checks (only (head_fields l)) (only (head_fields r))) }
{
    let private = both_private(l, r);
    let datasets = private & !shape::same_dataset(l, r);
    let stabilities = private & (l.c_stability != r.c_stability);
    let absent = shape::columns_absent(l) | shape::columns_absent(r);
    let columns = shape::columns_clash(l, r);
    let rows = shape::rows_clash(l, r);
    let types = l.data_type != r.data_type;
    let rest = first(Refusal::Rows, rows, first(Refusal::Types, types, Ok(())));
    let sizes = first(
        Refusal::NoColumns,
        absent,
        first(Refusal::Columns, columns, rest),
    );
    first(
        Refusal::Datasets,
        datasets,
        first(Refusal::Stabilities, stabilities, sizes),
    )
}

// Add, Subtract, Multiply and Divide.
pub fn pair_code(f: Form, left: &[u8], right: &[u8], l: Head, r: Head) -> Result<(), Refusal>
    requires { Operand (form_of f) left.now l × Operand (form_of f) right.now r }
    ensures { code_in result ≡ first_failing (pair_checks (decode (form_of f) left.now) (decode (form_of f) right.now)) }
{
    operands_code(l, r)?;
    let clash = groups_clash(f, left, right, l, r);
    first(Refusal::Groups, clash, shape_code(l, r))
}

// 11, 12 and 14 of Pool.
fn stack_code(l: Head, r: Head) -> Result<(), Refusal>
    ensures { code_in result ≡ first_failing (stack_checks (only (head_fields l)) (only (head_fields r))) }
{
    let absent = shape::columns_absent(l) | shape::columns_absent(r);
    let columns = shape::columns_unequal(l, r);
    let types = l.data_type != r.data_type;
    first(
        Refusal::NoColumns,
        absent,
        first(
            Refusal::Columns,
            columns,
            first(Refusal::Types, types, Ok(())),
        ),
    )
}

// Pool.
pub fn pool_code(f: Form, left: &[u8], right: &[u8], l: Head, r: Head) -> Result<(), Refusal>
    requires { Operand (form_of f) left.now l × Operand (form_of f) right.now r }
    ensures { code_in result ≡ first_failing (pool_checks (decode (form_of f) left.now) (decode (form_of f) right.now)) }
{
    operands_code(l, r)?;
    let clash = groups_clash(f, left, right, l, r);
    first(Refusal::Groups, clash, stack_code(l, r))
}

// ---- 14 to 16

fn both_of(l: Head, r: Head, kind: u8) -> bool
    ensures { result ≡ (eqb (head_fields l).data_type kind && eqb (head_fields r).data_type kind) }
{
    (l.data_type == kind) & (r.data_type == kind)
}

// 15, by whether the lowers are there as the component wants them; then 16, where they are not all above 0.
fn positive_code(f: Form, s: &[u8], present: bool) -> Result<(), Refusal>
    requires { sizes_fail (form_of f) s.now ≡ false }
    ensures { code_in result ≡ first_failing (check 15 (not present) ∷ check 16 (not (lowers_positive (nature_in (form_of f) s.now))) ∷ []) }
{
    if !present {
        return Err(Refusal::BoundKinds);
    }
    first(Refusal::Condition, !bounds::lowers_positive(f, s), Ok(()))
}

fn modulo_code(f: Form, right: &[u8], l: Head, r: Head) -> Result<(), Refusal>
    requires { Operand (form_of f) right.now r }
    ensures { code_in result ≡ first_failing (modulo_checks (only (head_fields l)) (decode (form_of f) right.now)) }
{
    if both_of(l, r, form::INT_TYPE) {
        return positive_code(f, right, bounds::whole_lowers_present(f, right));
    }
    if both_of(l, r, form::FLOAT_TYPE) {
        return positive_code(f, right, bounds::lowers_present(f, right));
    }
    Err(Refusal::Types)
}

fn power_code(f: Form, right: &[u8], l: Head, r: Head) -> Result<(), Refusal>
    requires { Operand (form_of f) right.now r }
    ensures { code_in result ≡ first_failing (power_checks (only (head_fields l)) (decode (form_of f) right.now)) }
{
    if both_of(l, r, form::INT_TYPE) {
        if !bounds::whole_lowers_present(f, right) {
            return Err(Refusal::BoundKinds);
        }
        return first(
            Refusal::Condition,
            !bounds::lowers_non_negative(f, right),
            Ok(()),
        );
    }
    first(Refusal::Types, !both_of(l, r, form::FLOAT_TYPE), Ok(()))
}

// 15 and 16 of the data. Of the two that are 15 the one that reads no entry comes first.
fn data_code(f: Form, left: &[u8], right: &[u8]) -> Result<(), Refusal>
    requires { (sizes_fail (form_of f) left.now ≡ false) × (sizes_fail (form_of f) right.now ≡ false) }
    ensures { code_in result ≡ first_failing (data_checks (decode (form_of f) left.now) (decode (form_of f) right.now)) }
{
    if bounds::is_whole_range(f, left) & bounds::is_whole_range(f, right) {
        return Err(Refusal::BoundKinds);
    }
    positive_code(f, left, bounds::lowers_present(f, left))
}

// 15 and 16 are done for the base, then for the data.
fn log_code(f: Form, left: &[u8], right: &[u8], l: Head) -> Result<(), Refusal>
    requires { Operand (form_of f) left.now l × (sizes_fail (form_of f) right.now ≡ false) }
    ensures { code_in result ≡ first_failing (log_checks (decode (form_of f) left.now) (decode (form_of f) right.now)) }
{
    if l.data_type != form::FLOAT_TYPE {
        return Err(Refusal::Types);
    }
    if !(bounds::lowers_present(f, right) & bounds::uppers_present(f, right)) {
        return Err(Refusal::BoundKinds);
    }
    if !bounds::all_suit_as_base(f, right) {
        return Err(Refusal::Condition);
    }
    data_code(f, left, right)
}

fn bound_code(
    f: Form,
    c: Component,
    left: &[u8],
    right: &[u8],
    l: Head,
    r: Head,
) -> Result<(), Refusal>
    requires { Operand (form_of f) left.now l × Operand (form_of f) right.now r }
    ensures { code_in result ≡ first_failing (bound_checks c (decode (form_of f) left.now) (decode (form_of f) right.now)) }
{
    match c {
        Component::Abs => Ok(()),
        Component::Add => Ok(()),
        Component::Subtract => Ok(()),
        Component::Multiply => Ok(()),
        Component::Divide => Ok(()),
        Component::Modulo => modulo_code(f, right, l, r),
        Component::Log => log_code(f, left, right, l),
        Component::Power => power_code(f, right, l, r),
        Component::Negative => Ok(()),
        Component::Pool => Ok(()),
    }
}

// Modulo, Log and Power, before their nature is derived.
pub fn copy_code(
    f: Form,
    c: Component,
    left: &[u8],
    right: &[u8],
    l: Head,
    r: Head,
) -> Result<(), Refusal>
    requires { Operand (form_of f) left.now l × Operand (form_of f) right.now r }
    ensures { code_in result ≡ first_failing (copy_checks c (decode (form_of f) left.now) (decode (form_of f) right.now)) }
{
    operands_code(l, r)?;
    bound_code(f, c, left, right, l, r)?;
    first(Refusal::NoColumns, shape::columns_absent(l), Ok(()))
}

// Modulo, Log and Power, after it.
pub fn last_code(f: Form, left: &[u8], right: &[u8], l: Head, r: Head) -> Result<(), Refusal>
    requires { Operand (form_of f) left.now l × Operand (form_of f) right.now r }
    ensures { code_in result ≡ first_failing (last_checks (decode (form_of f) left.now) (decode (form_of f) right.now)) }
{
    first(Refusal::Groups, groups_clash(f, left, right, l, r), Ok(()))
}
