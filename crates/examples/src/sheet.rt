// The examples' operands, in buffers of zeros of the longest sheet's length: type Int, releasable, one row, node 7.
ghost use Rattle.std.specs.Prelude.{◌≡◌, ◌≤◌, length, take};
ghost use Rattle.base.specs.Form.{narrow, longest, called_for, whole_range_nature, whole_lists_nature};
ghost use Rattle.base.specs.declared.Bound.TheVariants as Bound;

use base::{Bound, form};

// The sizes behind the first, in the narrow form.
pub const LISTS_AT: usize = form::NARROW_SIZE_WIDTH;

pub const CATEGORIES_AT: usize = 2 * form::NARROW_SIZE_WIDTH;

const NODE: u8 = 7;

const DATASET: u8 = 8;

// The lower and the upper end of a range.
#[derive(Clone, Copy)]
pub struct Ends(pub Bound, pub Bound);

pub(crate) fn whole(a: i64, c: i64) -> Ends
    ensures { (result.0 ≡ Bound.Whole a) × (result.1 ≡ Bound.Whole c) }
{
    Ends(Bound::Whole(a), Bound::Whole(c))
}

// A sheet, at the start of a buffer of zeros.
#[derive(Clone, Copy)]
pub struct Sheet {
    pub bytes: [u8; form::NARROW_LONGEST],
    pub len: usize,
}

impl Sheet {
    pub(crate) fn zeros() -> Self {
        Sheet {
            bytes: [0; form::NARROW_LONGEST],
            len: 0,
        }
    }

    pub(crate) fn as_slice(&self) -> &[u8]
        ensures { result.now ≡ take self.now.len self.now.bytes }
    {
        &self.bytes[..self.len.min(form::NARROW_LONGEST)]
    }

    // A whole range of one entry, which stands for every column.
    pub(crate) fn range(e: Ends, columns: u8) -> Self
        ensures { result.len ≡ called_for narrow whole_range_nature 0 1 0 0 }
    {
        let mut s = Sheet::zeros();
        head(&mut s.bytes, form::WHOLE_RANGE, 1, columns);
        let next = base::put_bound(&mut s.bytes, form::NARROW_ARRAYS_AT, e.0);
        s.len = base::put_bound(&mut s.bytes, next, e.1);
        s
    }

    // Two whole categories, in one list or in two.
    pub(crate) fn categories(a: i64, b: i64, lists: u8, columns: u8) -> Self
        ensures { result.len ≡ called_for narrow whole_lists_nature 0 lists 2 0 }
    {
        let mut s = Sheet::zeros();
        head(&mut s.bytes, form::WHOLE_LISTS, lists, columns);
        octets::put_u8(&mut s.bytes, CATEGORIES_AT, 2);
        let second = octets::put_u8(&mut s.bytes, form::NARROW_ARRAYS_AT, 0);
        let values = octets::put_u8(&mut s.bytes, second, if lists == 1 { 0 } else { 1 });
        let next = octets::put_i64(&mut s.bytes, values, a);
        s.len = octets::put_i64(&mut s.bytes, next, b);
        s
    }

    pub(crate) fn with_node(mut self, n: u8) -> Self {
        node(&mut self.bytes, n);
        self
    }

    // Not releasable, of one dataset.
    pub(crate) fn private(mut self, n: u8) -> Self {
        rows(&mut self.bytes, n);
        octets::put_u8(&mut self.bytes, form::RELEASABLE_AT, 0);
        octets::put_u8(&mut self.bytes, form::DATASET_MARK_AT, 1);
        octets::put_u8(&mut self.bytes, form::DATASET_AT, DATASET);
        self
    }
}

// The fields that every operand has; each number fits the first of its bytes.
fn head(s: &mut [u8], nature: u8, lists: u8, columns: u8)
    requires { longest narrow ≤ length s.old }
{
    octets::put_u8(s, LISTS_AT, lists);
    octets::put_u8(s, form::NATURE_AT, nature);
    octets::put_u8(s, form::TYPE_AT, form::INT_TYPE);
    octets::put_u8(s, form::RELEASABLE_AT, 1);
    rows(s, 1);
    octets::put_u8(s, form::COLUMNS_MARK_AT, 1);
    octets::put_u8(s, form::COLUMNS_AT, columns);
    node(s, NODE);
}

fn node(s: &mut [u8], n: u8)
    requires { longest narrow ≤ length s.old }
{
    octets::put_u8(s, form::NODE_AT, n);
}

fn rows(s: &mut [u8], n: u8)
    requires { longest narrow ≤ length s.old }
{
    octets::put_u8(s, form::ROWS_MARK_AT, 1);
    octets::put_u8(s, form::ROWS_AT, n);
}
