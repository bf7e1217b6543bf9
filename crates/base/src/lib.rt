// The sheet: its form, its readers, its records, and the components by their numbers.
#![tactic(auto)]

ghost use Rattle.std.specs.Prelude.{◌≡◌, ◌+◌, ◌≤◌, ◌<◌, length, get_or};
ghost use Rattle.octets.specs.Le.{le_at};
ghost use Rattle.octets.specs.Wrote.{Wrote};
ghost use Rattle.base.specs.Form.{form_of, place, byte_at, nature_at, node_at, fields_end, area_size, length_called_for};
ghost use Rattle.base.specs.Decode.{as_whole, as_float, as_bits, flag_at, field_at, list_number, fields_in};
ghost use Rattle.base.specs.Components.{number_of, component_of, family_of, is_unary};
ghost use Rattle.base.specs.Code.{bound_at, bound_bytes, stated, head_fields};
ghost use Rattle.base.specs.Sized.{SizesIn, ListsFit};

pub mod form; // the stored forms: limits, places and numbers
pub mod number; // the element kind, for the code that serves both
pub mod refusals; // their numbers
mod view; // one view of a sheet's bytes

use form::Form;

// 01: "A bound is absent, a whole number or a float".
#[derive(Clone, Copy)]
pub enum Bound {
    Absent,
    Whole(i64),
    Float(f64),
}

// The fields of one value.
#[derive(Clone, Copy)]
pub struct Head {
    pub data_type: u8,
    pub nullity: bool,
    pub releasable: bool,
    pub not_empty: bool,
    pub ordered: bool,
    pub c_stability: u32,
    pub aggregator: u32,
    pub rows: Option<i64>,
    pub columns: Option<u64>,
    pub dataset: Option<i64>,
    pub dimensionality: Option<i64>,
    pub sample: Option<u64>,
}

// The sizes that a sheet begins with.
#[derive(Clone, Copy)]
pub struct Sizes {
    pub groups: usize,
    pub lists: usize,
    pub categories: usize,
}

#[derive(Clone, Copy)]
pub enum Component {
    Abs,
    Add,
    Subtract,
    Multiply,
    Divide,
    Modulo,
    Log,
    Power,
    Negative,
    Pool,
}

// The components by the sheets that they read, the order of their checks and the fields that they derive.
#[derive(Clone, Copy)]
pub enum Family {
    // Abs and Negative, which read left alone.
    Unary,
    // Add, Subtract, Multiply and Divide.
    Pair,
    // Modulo, Log and Power, which copy left but for a few fields.
    Copy,
    // Pool, which stacks two arrays.
    Pool,
}

// 01: "associated constants of a Component type, with an associated function from number to component"; so no discriminants and no `TryFrom`.
impl Component {
    pub const ABS: u32 = 1;

    pub const ADD: u32 = 2;

    pub const SUBTRACT: u32 = 3;

    pub const MULTIPLY: u32 = 4;

    pub const DIVIDE: u32 = 5;

    pub const MODULO: u32 = 6;

    pub const LOG: u32 = 7;

    pub const POWER: u32 = 8;

    pub const NEGATIVE: u32 = 9;

    pub const POOL: u32 = 10;

    pub fn from_number(n: u32) -> Option<Component>
        ensures { result ≡ component_of n }
    {
        match n {
            Component::ABS => Some(Component::Abs),
            Component::ADD => Some(Component::Add),
            Component::SUBTRACT => Some(Component::Subtract),
            Component::MULTIPLY => Some(Component::Multiply),
            Component::DIVIDE => Some(Component::Divide),
            Component::MODULO => Some(Component::Modulo),
            Component::LOG => Some(Component::Log),
            Component::POWER => Some(Component::Power),
            Component::NEGATIVE => Some(Component::Negative),
            Component::POOL => Some(Component::Pool),
            _ => None,
        }
    }

    pub fn number(self) -> u32
        ensures { result ≡ number_of self }
    {
        match self {
            Component::Abs => Self::ABS,
            Component::Add => Self::ADD,
            Component::Subtract => Self::SUBTRACT,
            Component::Multiply => Self::MULTIPLY,
            Component::Divide => Self::DIVIDE,
            Component::Modulo => Self::MODULO,
            Component::Log => Self::LOG,
            Component::Power => Self::POWER,
            Component::Negative => Self::NEGATIVE,
            Component::Pool => Self::POOL,
        }
    }

    pub fn family(self) -> Family
        ensures { result ≡ family_of self }
    {
        match self {
            Component::Abs => Family::Unary,
            Component::Add => Family::Pair,
            Component::Subtract => Family::Pair,
            Component::Multiply => Family::Pair,
            Component::Divide => Family::Pair,
            Component::Modulo => Family::Copy,
            Component::Log => Family::Copy,
            Component::Power => Family::Copy,
            Component::Negative => Family::Unary,
            Component::Pool => Family::Pool,
        }
    }
}

impl Family {
    // Abs and Negative do not read the right sheet.
    pub fn is_unary(self) -> bool
        ensures { result ≡ is_unary self }
    {
        matches!(self, Family::Unary)
    }
}

// ---- one reading of a sheet, through its view

pub fn byte_at(s: &[u8], at: usize) -> u8
    requires { at < length s.now }
    ensures { result ≡ get_or s.now at 0 }
{
    view::byte_in(view::view_of(s), at)
}

pub fn u16_at(s: &[u8], at: usize) -> usize
    requires { at + 2 ≤ length s.now }
    ensures { result ≡ le_at 2 at s.now }
{
    view::size_in(view::view_of(s), at)
}

pub fn u32_at(s: &[u8], at: usize) -> u32
    requires { at + 4 ≤ length s.now }
    ensures { result ≡ le_at 4 at s.now }
{
    view::u32_in(view::view_of(s), at)
}

pub fn u64_at(s: &[u8], at: usize) -> u64
    requires { at + 8 ≤ length s.now }
    ensures { result ≡ le_at 8 at s.now }
{
    view::u64_in(view::view_of(s), at)
}

pub fn i64_at(s: &[u8], at: usize) -> i64
    requires { at + 8 ≤ length s.now }
    ensures { result ≡ as_whole (le_at 8 at s.now) }
{
    view::i64_in(view::view_of(s), at)
}

pub fn f64_at(s: &[u8], at: usize) -> f64
    requires { at + 8 ≤ length s.now }
    ensures { result ≡ as_float (le_at 8 at s.now) }
{
    view::f64_in(view::view_of(s), at)
}

// ---- bounds

// The bound at `at`: a mark, and 64 bits that are a float's or a signed number's.
pub fn bound_at(s: &[u8], float: bool, at: usize) -> Bound
    requires { at + 9 ≤ length s.now }
    ensures { result ≡ bound_at float at s.now }
{
    view::bound_in(view::view_of(s), float, at)
}

// Appends a bound at `at`; an absent one is all zero bits.
pub fn put_bound(buf: &mut [u8], at: usize, b: Bound) -> usize
    requires { at + 9 ≤ length buf.old }
    ensures { Wrote buf.old at 9 (bound_bytes b) buf.new result }
{
    match b {
        Bound::Absent => {
            let next = octets::put_u8(buf, at, 0);
            octets::put_u64(buf, next, 0)
        }
        Bound::Whole(z) => {
            let next = octets::put_u8(buf, at, 1);
            octets::put_i64(buf, next, z)
        }
        Bound::Float(x) => {
            let next = octets::put_u8(buf, at, 1);
            octets::put_f64(buf, next, x)
        }
    }
}

// ---- the sizes

fn size_at(f: Form, s: &[u8], at: usize) -> usize
    requires { at + (form_of f).size_width ≤ length s.now }
    ensures { result ≡ le_at (form_of f).size_width at s.now }
{
    match f {
        Form::Narrow => u16_at(s, at),
        Form::Wide => u32_at(s, at) as usize,
    }
}

pub fn sizes_at(f: Form, s: &[u8]) -> Sizes
    requires { (form_of f).arrays_at ≤ length s.now }
    ensures { SizesIn (form_of f) s.now result }
{
    let w = f.size_width();
    Sizes {
        groups: size_at(f, s, 0),
        lists: size_at(f, s, w),
        categories: size_at(f, s, 2 * w),
    }
}

// The size of the text area.
pub fn area_size(f: Form, s: &[u8]) -> usize
    requires { (form_of f).arrays_at ≤ length s.now }
    ensures { result ≡ area_size (form_of f) s.now }
{
    u16_at(s, f.place(form::AREA_SIZE_AT))
}

// The length that the sizes call for, whether or not they keep to their limits.
pub fn length_called_for(f: Form, s: &[u8]) -> usize
    requires { (form_of f).arrays_at ≤ length s.now }
    ensures { result ≡ length_called_for (form_of f) s.now }
{
    let sizes = sizes_at(f, s);
    let g = sizes.groups;
    let n = sizes.lists;
    let t = sizes.categories;
    f.called_for(nature_of(f, s), g, n, t, area_size(f, s))
}

// ---- a field, by its place in 01

pub fn byte_in(f: Form, s: &[u8], k: usize) -> u8
    requires { ((form_of f).arrays_at ≤ length s.now) × (k < fields_end) }
    ensures { result ≡ byte_at (form_of f) k s.now }
{
    byte_at(s, f.place(k))
}

pub fn u32_in(f: Form, s: &[u8], k: usize) -> u32
    requires { ((form_of f).arrays_at ≤ length s.now) × (k + 4 ≤ fields_end) }
    ensures { result ≡ le_at 4 (place (form_of f) k) s.now }
{
    u32_at(s, f.place(k))
}

pub fn u64_in(f: Form, s: &[u8], k: usize) -> u64
    requires { ((form_of f).arrays_at ≤ length s.now) × (k + 8 ≤ fields_end) }
    ensures { result ≡ le_at 8 (place (form_of f) k) s.now }
{
    u64_at(s, f.place(k))
}

fn i64_in(f: Form, s: &[u8], k: usize) -> i64
    requires { ((form_of f).arrays_at ≤ length s.now) × (k + 8 ≤ fields_end) }
    ensures { result ≡ as_whole (le_at 8 (place (form_of f) k) s.now) }
{
    i64_at(s, f.place(k))
}

fn flag_in(f: Form, s: &[u8], k: usize) -> bool
    requires { ((form_of f).arrays_at ≤ length s.now) × (k < fields_end) }
    ensures { result ≡ flag_at (form_of f) s.now k }
{
    byte_in(f, s, k) != 0
}

// The signed 64 bits at k, where the mark is not 0.
fn option_i64_in(f: Form, s: &[u8], mark: usize, k: usize) -> Option<i64>
    requires { ((form_of f).arrays_at ≤ length s.now) × (mark < fields_end) × (k + 8 ≤ fields_end) }
    ensures { stated result ≡ field_at (form_of f) s.now as_whole mark k }
{
    if byte_in(f, s, mark) == 0 {
        return None;
    }
    Some(i64_in(f, s, k))
}

// The 64 bits at k, where the mark is not 0.
fn option_u64_in(f: Form, s: &[u8], mark: usize, k: usize) -> Option<u64>
    requires { ((form_of f).arrays_at ≤ length s.now) × (mark < fields_end) × (k + 8 ≤ fields_end) }
    ensures { stated result ≡ field_at (form_of f) s.now as_bits mark k }
{
    if byte_in(f, s, mark) == 0 {
        return None;
    }
    Some(u64_in(f, s, k))
}

pub fn read_head(f: Form, s: &[u8]) -> Head
    requires { (form_of f).arrays_at ≤ length s.now }
    ensures { head_fields result ≡ fields_in (form_of f) s.now }
{
    Head {
        data_type: byte_in(f, s, form::TYPE_AT),
        nullity: flag_in(f, s, form::NULLITY_AT),
        releasable: flag_in(f, s, form::RELEASABLE_AT),
        not_empty: flag_in(f, s, form::NOT_EMPTY_AT),
        ordered: flag_in(f, s, form::ORDERED_AT),
        c_stability: u32_in(f, s, form::C_STABILITY_AT),
        aggregator: u32_in(f, s, form::AGGREGATOR_AT),
        rows: option_i64_in(f, s, form::ROWS_MARK_AT, form::ROWS_AT),
        columns: option_u64_in(f, s, form::COLUMNS_MARK_AT, form::COLUMNS_AT),
        dataset: option_i64_in(f, s, form::DATASET_MARK_AT, form::DATASET_AT),
        dimensionality: option_i64_in(f, s, form::DIMENSIONALITY_MARK_AT, form::DIMENSIONALITY_AT),
        sample: option_u64_in(f, s, form::SAMPLE_MARK_AT, form::SAMPLE_AT),
    }
}

// The number of the node that made the sheet.
pub fn node_at(f: Form, s: &[u8]) -> i64
    requires { (form_of f).arrays_at ≤ length s.now }
    ensures { result ≡ as_whole (le_at 8 (place (form_of f) node_at) s.now) }
{
    i64_in(f, s, form::NODE_AT)
}

// The number of its nature.
pub fn nature_of(f: Form, s: &[u8]) -> u8
    requires { (form_of f).arrays_at ≤ length s.now }
    ensures { result ≡ byte_at (form_of f) nature_at s.now }
{
    byte_in(f, s, form::NATURE_AT)
}

// ---- a category's list number

// List number i of t. Each arm computes its place, so that a loop over the numbers, once it is made for one form, goes by a known stride.
pub fn list_number(f: Form, s: &[u8], g: usize, n: usize, t: usize, i: usize) -> usize
    requires { ListsFit (form_of f) s.now g n t × (i < t) }
    ensures { result ≡ list_number (form_of f) s.now g i }
{
    let start = f.entries_at(g);
    match f {
        Form::Narrow => octets::wide(byte_at(s, start + form::NARROW_NUMBER_WIDTH * i)),
        Form::Wide => u16_at(s, start + form::WIDE_NUMBER_WIDTH * i),
    }
}
