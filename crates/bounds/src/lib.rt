// What the ends of a range are asked: by Modulo, Log and Power before they derive, and by Divide for its nullity.
#![tactic(auto)]

ghost use Rattle.std.specs.Prelude.{◌≡◌, false, not, ◌<◌};
ghost use Rattle.numbers.specs.Kind.{span_of, whole, float};
ghost use Rattle.base.specs.Form.{form_of};
ghost use Rattle.base.specs.Sheet.{is_whole_range};
ghost use Rattle.base.specs.Decode.{nature_in};
ghost use Rattle.base.specs.Bounds.{is_present, above, under, every_entry, lowers_present, uppers_present, whole_lowers_present, lowers_positive, lowers_non_negative, all_suit_as_base};
ghost use Rattle.base.specs.Checks.{holds_from, sizes_fail};
ghost use Rattle.base.specs.Sized.{RangeFits};
ghost use Rattle.shape.specs.Fields.{spans_zero};
ghost use Rattle.bounds.specs.Asked.{asked, entry_asked};

use base::form::Form;
use base::number::Number;
use base::{Bound, form};

pub mod zero; // the nullity that Divide adds

// The question, one for every entry.
#[derive(Clone, Copy)]
enum Ask {
    LowerPresent,
    UpperPresent,
    LowerPositive,
    LowerNonNegative,
    Base,
    // The entry does not make Divide add nullity.
    Apart,
}

// ---- one end

fn is_present<N: Number>(b: Bound) -> bool
    ensures { result ≡ is_present (N.end b) }
{
    N::of(b).is_some()
}

fn is_above<N: Number>(b: Bound, limit: N) -> bool
    ensures { result ≡ above N.kind limit (N.end b) }
{
    let Some(x) = N::of(b) else {
        return false;
    };
    limit.is_below(x)
}

fn is_under<N: Number>(b: Bound, limit: N) -> bool
    ensures { result ≡ under N.kind limit (N.end b) }
{
    let Some(x) = N::of(b) else {
        return false;
    };
    x.is_below(limit)
}

// ---- one entry

// Neither `d < 0 < f`, nor one end alone on the far side of 0, nor no end at all.
fn apart<N: Number>(lower: Bound, upper: Bound) -> bool
    ensures { result ≡ not (spans_zero N.kind (N.end lower) (N.end upper)) }
{
    let zero = N::zero();
    match (N::of(lower), N::of(upper)) {
        (Some(d), Some(f)) => !(d.is_below(zero) & zero.is_below(f)),
        (Some(d), None) => !zero.is_below(d),
        (None, Some(f)) => !f.is_below(zero),
        (None, None) => false,
    }
}

fn asked<N: Number>(ask: Ask, lower: Bound, upper: Bound) -> bool
    ensures { result ≡ asked N.kind ask (span_of (N.end lower) (N.end upper)) }
{
    let zero = N::zero();
    let one = N::one();
    match ask {
        Ask::LowerPresent => is_present::<N>(lower),
        Ask::UpperPresent => is_present::<N>(upper),
        Ask::LowerPositive => is_above(lower, zero),
        Ask::LowerNonNegative => is_present::<N>(lower) & !is_under(lower, zero),
        Ask::Base => (is_above(lower, zero) & is_under(upper, one)) | is_above(lower, one),
        Ask::Apart => apart::<N>(lower, upper),
    }
}

// Entry i of n.
fn entry_asked(f: Form, s: &[u8], ask: Ask, floats: bool, g: usize, n: usize, i: usize) -> bool
    requires { RangeFits (form_of f) s.now g n × (i < n) }
    ensures { result ≡ entry_asked (form_of f) ask floats s.now i }
{
    let lower = base::bound_at(s, floats, f.lower_at(g, i));
    let upper = base::bound_at(s, floats, f.upper_at(g, n, i));
    if floats {
        return asked::<f64>(ask, lower, upper);
    }
    asked::<i64>(ask, lower, upper)
}

// ---- every entry

#[tactic(auto, using(base::proofs::Holding::held))]
fn entries_asked(f: Form, s: &[u8], ask: Ask, floats: bool, g: usize, n: usize) -> bool
    requires { RangeFits (form_of f) s.now g n }
    ensures { result ≡ holds_from n 0 (entry_asked (form_of f) ask floats s.now) }
{
    for i in 0..n {
        if !entry_asked(f, s, ask, floats, g, n, i) {
            return false;
        }
    }
    true
}

// Whether the sheet is a range whose every entry passes.
fn every_entry(f: Form, s: &[u8], ask: Ask) -> bool
    requires { sizes_fail (form_of f) s.now ≡ false }
    ensures { result ≡ every_entry (asked whole ask) (asked float ask) (nature_in (form_of f) s.now) }
{
    let sizes = base::sizes_at(f, s);
    let g = sizes.groups;
    let n = sizes.lists;
    let nature = base::nature_of(f, s);
    if nature == form::WHOLE_RANGE {
        return entries_asked(f, s, ask, false, g, n);
    }
    if nature == form::FLOAT_RANGE {
        return entries_asked(f, s, ask, true, g, n);
    }
    false // categories and an absent nature have no bounds
}

pub fn is_whole_range(f: Form, s: &[u8]) -> bool
    requires { sizes_fail (form_of f) s.now ≡ false }
    ensures { result ≡ is_whole_range (nature_in (form_of f) s.now) }
{
    base::nature_of(f, s) == form::WHOLE_RANGE
}

// `lower_float` gives its list.
#[tactic(auto, unfolding(base::specs::Bounds::lowers_present))]
pub fn lowers_present(f: Form, s: &[u8]) -> bool
    requires { sizes_fail (form_of f) s.now ≡ false }
    ensures { result ≡ lowers_present (nature_in (form_of f) s.now) }
{
    every_entry(f, s, Ask::LowerPresent)
}

// `upper_float` gives its list.
#[tactic(auto, unfolding(base::specs::Bounds::uppers_present))]
pub fn uppers_present(f: Form, s: &[u8]) -> bool
    requires { sizes_fail (form_of f) s.now ≡ false }
    ensures { result ≡ uppers_present (nature_in (form_of f) s.now) }
{
    every_entry(f, s, Ask::UpperPresent)
}

// `lower_int` gives its list.
#[tactic(auto, unfolding(base::specs::Bounds::whole_lowers_present))]
pub fn whole_lowers_present(f: Form, s: &[u8]) -> bool
    requires { sizes_fail (form_of f) s.now ≡ false }
    ensures { result ≡ whole_lowers_present (nature_in (form_of f) s.now) }
{
    is_whole_range(f, s) & lowers_present(f, s)
}

#[tactic(auto, unfolding(base::specs::Bounds::lowers_positive))]
pub fn lowers_positive(f: Form, s: &[u8]) -> bool
    requires { sizes_fail (form_of f) s.now ≡ false }
    ensures { result ≡ lowers_positive (nature_in (form_of f) s.now) }
{
    every_entry(f, s, Ask::LowerPositive)
}

#[tactic(auto, unfolding(base::specs::Bounds::lowers_non_negative))]
pub fn lowers_non_negative(f: Form, s: &[u8]) -> bool
    requires { sizes_fail (form_of f) s.now ≡ false }
    ensures { result ≡ lowers_non_negative (nature_in (form_of f) s.now) }
{
    every_entry(f, s, Ask::LowerNonNegative)
}

#[tactic(auto, unfolding(base::specs::Bounds::all_suit_as_base))]
pub fn all_suit_as_base(f: Form, s: &[u8]) -> bool
    requires { sizes_fail (form_of f) s.now ≡ false }
    ensures { result ≡ all_suit_as_base (nature_in (form_of f) s.now) }
{
    every_entry(f, s, Ask::Base)
}
