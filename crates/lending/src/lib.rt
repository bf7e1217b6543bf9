// What a step is lent: the category stores only where categories are mapped, combined or united.
#![tactic(auto)]

ghost use Rattle.std.specs.Prelude.{◌≡◌};
ghost use Rattle.base.specs.Form.{form_of};
ghost use Rattle.base.specs.Components.{family_of};
ghost use Rattle.lending.specs.Code.{holds_categories, holds_texts, holds_lists, joins_lists, joins_texts};

use base::form::Form;
use base::{Component, Family, form};

// Whether a sheet has texts.
pub fn holds_texts(f: Form, s: &[u8]) -> bool
    ensures { result ≡ holds_texts (form_of f) s.now }
{
    if s.len() < f.arrays_at() {
        return false;
    }
    base::nature_of(f, s) == form::TEXT_LISTS
}

// Whether a sheet has whole categories, which alone are mapped, and combined by every rule.
pub fn holds_lists(f: Form, s: &[u8]) -> bool
    ensures { result ≡ holds_lists (form_of f) s.now }
{
    if s.len() < f.arrays_at() {
        return false;
    }
    base::nature_of(f, s) == form::WHOLE_LISTS
}

// Whether a sheet has categories of any kind.
pub fn holds_categories(f: Form, s: &[u8]) -> bool
    ensures { result ≡ holds_categories (form_of f) s.now }
{
    if s.len() < f.arrays_at() {
        return false;
    }
    form::WHOLE_LISTS <= base::nature_of(f, s)
}

// Whether a step maps, combines or unites categories: only then does it use the stores that it is lent.
pub fn joins_lists(f: Form, c: Component, left: &[u8], right: &[u8]) -> bool
    ensures { result ≡ joins_lists (family_of c) (form_of f) left.now right.now }
{
    if !holds_categories(f, left) {
        return false;
    }
    let family = c.family();
    match family {
        Family::Unary => holds_lists(f, left),
        Family::Pair => holds_lists(f, left) & holds_lists(f, right),
        Family::Copy => false,
        Family::Pool => holds_categories(f, right),
    }
}

// Whether a step may join or unite texts: only then does it use room for an area.
pub fn joins_texts(f: Form, c: Component, left: &[u8], right: &[u8]) -> bool
    ensures { result ≡ joins_texts (family_of c) (form_of f) left.now right.now }
{
    if !holds_texts(f, left) {
        return false;
    }
    let family = c.family();
    match family {
        Family::Unary => false,
        Family::Pair => holds_texts(f, right),
        Family::Copy => false,
        Family::Pool => holds_texts(f, right),
    }
}
