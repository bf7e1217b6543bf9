// Divide's nullity: whether the right sheet sets it.
ghost use Rattle.std.specs.Prelude.{◌≡◌, false, ◌||◌};
ghost use Rattle.std.specs.Float.Ieee as Ieee;
ghost use Rattle.numbers.specs.Kind.{zero_float};
ghost use Rattle.base.specs.Form.{form_of};
ghost use Rattle.base.specs.Decode.{nature_in};
ghost use Rattle.base.specs.Checks.{holds_from, sizes_fail, fields_fail};
ghost use Rattle.base.specs.Sized.{ListsFit};
ghost use Rattle.shape.specs.Fields.{divisor_sets_nullity, is_divide, adds_nullity};
ghost use Rattle.bounds.specs.Asked.{value_apart};

use crate::{Ask, every_entry};
use base::form::Form;
use base::{Component, form};

fn nan_or_zero(x: f64) -> bool
    ensures { result ≡ (Ieee.is_nan x || Ieee.eq x zero_float) }
{
    x.is_nan() | (x == 0.0)
}

// None of the t values is NaN or a zero, in whichever list it stands.
#[tactic(auto, using(base::proofs::Holding::held))]
fn values_apart(f: Form, s: &[u8], g: usize, n: usize, t: usize) -> bool
    requires { ListsFit (form_of f) s.now g n t }
    ensures { result ≡ holds_from t 0 (value_apart (form_of f) s.now) }
{
    for i in 0..t {
        let x = base::f64_at(s, f.value_at(g, t, i));
        if nan_or_zero(x) {
            return false;
        }
    }
    true
}

fn divisor_sets_nullity(f: Form, s: &[u8]) -> bool
    requires { (sizes_fail (form_of f) s.now ≡ false) × (fields_fail (form_of f) s.now ≡ false) }
    ensures { result ≡ divisor_sets_nullity (nature_in (form_of f) s.now) }
{
    let sizes = base::sizes_at(f, s);
    let g = sizes.groups;
    let n = sizes.lists;
    let t = sizes.categories;
    let nature = base::nature_of(f, s);
    if nature == form::FLOAT_RANGE {
        return !every_entry(f, s, Ask::Apart);
    }
    if nature == form::FLOAT_LISTS {
        return !values_apart(f, s, g, n, t);
    }
    nature == form::ABSENT_NATURE
}

fn is_divide(c: Component) -> bool
    ensures { result ≡ is_divide c }
{
    matches!(c, Component::Divide)
}

// What the component adds to the nullity, s being the right sheet.
#[tactic(auto, unfolding(shape::specs::Fields::adds_nullity))]
pub fn adds_nullity(f: Form, c: Component, s: &[u8]) -> bool
    requires { (sizes_fail (form_of f) s.now ≡ false) × (fields_fail (form_of f) s.now ≡ false) }
    ensures { result ≡ adds_nullity c (nature_in (form_of f) s.now) }
{
    is_divide(c) && divisor_sets_nullity(f, s)
}
