// The single call in buffers that are made here, of sizes that its caller gives.
#![tactic(auto)]

ghost use Rattle.std.specs.Prelude.{◌≡◌};
ghost use Rattle.base.specs.Components.{family_of};
ghost use Rattle.base.specs.Form.{narrow};
ghost use Rattle.calls.specs.Single.{step, delivery};
ghost use Rattle.lending.specs.Code.{joins_lists, joins_texts};
ghost use Rattle.replies.specs.Reply.{replied};
ghost use Rattle.walks.specs.Sizes.{Sizes};

use base::form::Form;
use base::{Component, form};

// Sizes of the second array, of the category stores, of the hints and of the sheet.
pub(crate) fn step_in_buffers<
    const SECOND: usize,
    const STORES: usize,
    const HINTS: usize,
    const SHEET: usize,
>(c: Component, node: u32, left: &[u8], right: &[u8], out: &mut [u8]) -> u64
    requires { Sizes narrow (joins_lists (family_of c) narrow left.now right.now) (joins_texts (family_of c) narrow left.now right.now) SECOND STORES HINTS SHEET }
    ensures { replied result out.new ≡ delivery (step narrow c node left.now right.now) out.old }
{
    let mut first = [0u8; form::NARROW_ENDS_ROOM];
    let mut second = [0u8; SECOND];
    let mut us = [0i64; STORES];
    let mut bs = [0i64; STORES];
    let mut store = [0i64; STORES];
    let mut hints = [0u8; HINTS];
    let mut scratch = [0u8; SHEET];
    let put = transforms::step(
        Form::Narrow,
        c,
        node,
        left,
        right,
        &mut first,
        &mut second,
        &mut us,
        &mut bs,
        &mut store,
        &mut hints,
        &mut scratch,
    );
    replies::deliver_reply(put, &scratch, out)
}
