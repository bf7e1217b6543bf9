// 19 to 21 and 29 of category operands, and which components have the rules that 22 asks for.
#![tactic(auto)]

ghost use Rattle.std.specs.Prelude.{◌≡◌};
ghost use Rattle.numbers.specs.Result.{first_failing};
ghost use Rattle.base.specs.Form.{form_of};
ghost use Rattle.base.specs.Components.{family_of};
ghost use Rattle.base.specs.Refusals.{code_in};
ghost use Rattle.calls.specs.Natures.{list_checks_of};
ghost use Rattle.list_codes.specs.Code.{Lists, has_rule, joins, both_lists_code_of};

use base::form::Form;
use base::refusals::Refusal;
use base::{Component, Family, form};

// 19, 20 and 29 of one category operand, by the output's columns.
#[tactic(auto, unfolding(numbers::specs::Result::first_failing))]
pub fn lists_code(columns: usize, nature: u8, lists: usize) -> Result<(), Refusal>
    ensures { code_in result ≡ first_failing (list_checks_of columns nature lists) }
{
    if nature == form::FLOAT_LISTS {
        return Err(Refusal::FloatCategories);
    }
    if lists == 0 {
        return Err(Refusal::NoLists);
    }
    if !utilities::spreads(columns, lists) {
        return Err(Refusal::ListCount);
    }
    Ok(())
}

// Whether there is code for the rule for whole categories. Those of Modulo and Int Power are never asked: 15 comes first.
pub fn has_rule(c: Component) -> bool
    ensures { result ≡ has_rule (family_of c) }
{
    matches!(c.family(), Family::Unary | Family::Pair)
}

// 19, 20 and 29 of two category operands, left's before right's, then 21.
pub fn both_lists_code(f: Form, columns: usize, left: &[u8], right: &[u8]) -> Result<(), Refusal>
    requires { Lists (form_of f) left.now × Lists (form_of f) right.now }
    ensures { code_in result ≡ both_lists_code_of (form_of f) columns left.now right.now }
{
    let x = base::nature_of(f, left);
    let y = base::nature_of(f, right);
    let l = base::sizes_at(f, left);
    lists_code(columns, x, l.lists)?;
    let r = base::sizes_at(f, right);
    lists_code(columns, y, r.lists)?;
    if x != y {
        return Err(Refusal::CategoryKinds);
    }
    Ok(())
}

// Whether the component has a rule for texts.
pub fn joins(c: Component) -> bool
    ensures { result ≡ joins c }
{
    matches!(c, Component::Add)
}
