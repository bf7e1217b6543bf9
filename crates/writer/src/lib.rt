// Derived natures in two buffers, and the sheet written from one.
#![tactic(auto)]

ghost use Rattle.std.specs.Prelude.{◌≡◌, cond, ◌+◌, ◌-◌, ◌*◌, ◌^◌, ◌≤◌, ◌<◌, length, take, drop};
ghost use Rattle.octets.specs.Le.{le_bytes};
ghost use Rattle.octets.specs.Wrote.{Wrote};
ghost use Rattle.base.specs.Form.{form_of, place, fields_end, group_count, entries_at};
ghost use Rattle.base.specs.Decode.{as_bits, groups_in};
ghost use Rattle.base.specs.Encode.{whole_bits, flag, mark, bits_of, mark_bytes, value_bytes, flag_bytes, presence_bytes, size_bytes, gap_bytes, front_bytes};
ghost use Rattle.base.specs.Code.{stated, head_fields};
ghost use Rattle.writer.specs.Written.{sheet_from, parts_in};
ghost use Rattle.writer.specs.Room.{Room};

use base::form::Form;
use base::{Head, form};

// A derived nature whose two arrays stand at the start of two lent buffers: lowers and uppers of a range, or list numbers and values of categories, behind
// which texts have their area.
#[derive(Clone, Copy)]
pub struct Parts {
    // Its number in 01.
    pub nature: u8,
    // The size of the text area, of 16 bits: it lies beside the nature, so that these parts are no longer to copy than without it.
    pub text: u16,
    // The list count n and the category count t.
    pub entries: usize,
    pub values: usize,
    // How many bytes the two arrays have.
    pub first: usize,
    pub second: usize,
}

// ---- a field as a byte or as 64 bits

fn flag_byte(b: bool) -> u8
    ensures { result ≡ flag b }
{
    b as u8
}

fn mark<T: Copy>(v: Option<T>) -> u8
    ensures { result ≡ mark (stated v) }
{
    v.is_some() as u8
}

fn signed_bits(v: Option<i64>) -> u64
    ensures { result ≡ bits_of whole_bits (stated v) }
{
    match v {
        None => 0,
        Some(z) => octets::complement(z),
    }
}

fn plain_bits(v: Option<u64>) -> u64
    ensures { result ≡ bits_of as_bits (stated v) }
{
    v.unwrap_or(0)
}

// ---- the parts of a sheet: each appends at `at`, and returns the place behind what it wrote

// The `n` bytes of `src` that stand at `from`: of a sheet, or of an array that goes into one.
pub fn put_bytes(buf: &mut [u8], at: usize, src: &[u8], from: usize, n: usize) -> usize
    requires { (at + n ≤ length buf.old) × (from + n ≤ length src.now) }
    ensures { Wrote buf.old at n (take n (drop from src.now)) buf.new result }
{
    for i in 0..n {
        buf[at + i] = src[from + i];
    }
    at + n
}

// A size: 16 bits or 32.
fn put_size(f: Form, buf: &mut [u8], at: usize, v: usize) -> usize
    requires { (at + (form_of f).size_width ≤ length buf.old) × (v < 256 ^ (form_of f).size_width) }
    ensures { Wrote buf.old at (form_of f).size_width (le_bytes (form_of f).size_width v) buf.new result }
{
    match f {
        Form::Narrow => octets::put_u16(buf, at, v as u16),
        Form::Wide => octets::put_u32(buf, at, v as u32),
    }
}

// A list number: 8 bits or 16.
pub fn put_number(f: Form, buf: &mut [u8], at: usize, j: usize) -> usize
    requires { (at + (form_of f).number_width ≤ length buf.old) × (j < (form_of f).list_limit) }
    ensures { Wrote buf.old at (form_of f).number_width (le_bytes (form_of f).number_width j) buf.new result }
{
    match f {
        Form::Narrow => octets::put_u8(buf, at, j as u8),
        Form::Wide => octets::put_u16(buf, at, j as u16),
    }
}

// The sizes, which a sheet begins with.
fn put_sizes(
    f: Form,
    buf: &mut [u8],
    at: usize,
    groups: usize,
    entries: usize,
    values: usize,
) -> usize
    requires { (at + 3 * (form_of f).size_width ≤ length buf.old) × (groups ≤ (form_of f).group_limit) × (entries ≤ (form_of f).list_limit) × (values ≤ (form_of f).category_limit) }
    ensures { Wrote buf.old at (3 * (form_of f).size_width) (size_bytes (form_of f) groups entries values) buf.new result }
{
    let end = put_size(f, buf, at, groups);
    let end = put_size(f, buf, end, entries);
    put_size(f, buf, end, values)
}

// 01's bytes 6 to 11.
fn put_flags(buf: &mut [u8], at: usize, nature: u8, head: Head) -> usize
    requires { at + 6 ≤ length buf.old }
    ensures { Wrote buf.old at 6 (flag_bytes nature (head_fields head)) buf.new result }
{
    let end = octets::put_u8(buf, at, nature);
    let end = octets::put_u8(buf, end, head.data_type);
    let end = octets::put_u8(buf, end, flag_byte(head.nullity));
    let end = octets::put_u8(buf, end, flag_byte(head.releasable));
    let end = octets::put_u8(buf, end, flag_byte(head.not_empty));
    octets::put_u8(buf, end, flag_byte(head.ordered))
}

// 01's bytes 20 to 24.
fn put_presence(buf: &mut [u8], at: usize, head: Head) -> usize
    requires { at + 5 ≤ length buf.old }
    ensures { Wrote buf.old at 5 (presence_bytes (head_fields head)) buf.new result }
{
    let end = octets::put_u8(buf, at, mark(head.rows));
    let end = octets::put_u8(buf, end, mark(head.columns));
    let end = octets::put_u8(buf, end, mark(head.dataset));
    let end = octets::put_u8(buf, end, mark(head.dimensionality));
    octets::put_u8(buf, end, mark(head.sample))
}

// 01's bytes 6 to 31: the size of the text area between zeros at the end.
fn put_marks(buf: &mut [u8], at: usize, nature: u8, text: u16, head: Head) -> usize
    requires { at + 26 ≤ length buf.old }
    ensures { Wrote buf.old at 26 (mark_bytes nature text (head_fields head)) buf.new result }
{
    let end = put_flags(buf, at, nature, head);
    let end = octets::put_u32(buf, end, head.c_stability);
    let end = octets::put_u32(buf, end, head.aggregator);
    let end = put_presence(buf, end, head);
    let end = octets::put_u8(buf, end, 0);
    let end = octets::put_u16(buf, end, text);
    octets::put_u32(buf, end, 0)
}

// 01's bytes 32 to 71.
fn put_values(buf: &mut [u8], at: usize, head: Head) -> usize
    requires { at + 40 ≤ length buf.old }
    ensures { Wrote buf.old at 40 (value_bytes (head_fields head)) buf.new result }
{
    let end = octets::put_u64(buf, at, signed_bits(head.rows));
    let end = octets::put_u64(buf, end, plain_bits(head.columns));
    let end = octets::put_u64(buf, end, signed_bits(head.dataset));
    let end = octets::put_u64(buf, end, signed_bits(head.dimensionality));
    octets::put_u64(buf, end, plain_bits(head.sample))
}

// The zero bytes between the last field and the arrays: none or two.
fn put_gap(f: Form, buf: &mut [u8], at: usize) -> usize
    requires { at + ((form_of f).arrays_at - place (form_of f) fields_end) ≤ length buf.old }
    ensures { Wrote buf.old at ((form_of f).arrays_at - place (form_of f) fields_end) (gap_bytes (form_of f)) buf.new result }
{
    match f {
        Form::Narrow => at,
        Form::Wide => octets::put_u16(buf, at, 0),
    }
}

// All that stands before the arrays.
fn put_front(f: Form, buf: &mut [u8], groups: usize, p: Parts, head: Head, node: i64) -> usize
    requires { ((form_of f).arrays_at ≤ length buf.old) × (groups ≤ (form_of f).group_limit) × (p.entries ≤ (form_of f).list_limit) × (p.values ≤ (form_of f).category_limit) × (p.text ≤ (form_of f).text_limit) }
    ensures { Wrote buf.old 0 (form_of f).arrays_at (front_bytes (form_of f) groups p.nature p.entries p.values p.text (head_fields head) node) buf.new result }
{
    let end = put_sizes(f, buf, 0, groups, p.entries, p.values);
    let end = put_marks(buf, end, p.nature, p.text, head);
    let end = put_values(buf, end, head);
    let end = octets::put_i64(buf, end, node);
    put_gap(f, buf, end)
}

// The sheet with the fields of `head`, the groups of the sheet `source`, and a nature whose arrays stand in `first` and `second`.
pub fn put_sheet(
    f: Form,
    buf: &mut [u8],
    p: Parts,
    first: &[u8],
    second: &[u8],
    head: Head,
    node: i64,
    source: &[u8],
) -> usize
    requires { Room (form_of f) p first.now second.now source.now buf.old }
    ensures { Wrote buf.old 0 (entries_at (form_of f) (group_count (form_of f) source.now) + p.first + p.second) (sheet_from (form_of f) (head_fields head) node (groups_in (form_of f) source.now) (parts_in p first.now second.now)) buf.new result }
{
    let sizes = base::sizes_at(f, source);
    let groups = sizes.groups;
    let arrays = f.arrays_at();
    let end = put_front(f, buf, groups, p, head, node);
    let end = put_bytes(buf, end, source, arrays, form::GROUP_WIDTH * groups);
    let end = put_bytes(buf, end, first, 0, p.first);
    put_bytes(buf, end, second, 0, p.second)
}

// The groups are right's where left is releasable, else left's.
pub fn put_pair(
    f: Form,
    out: &mut [u8],
    p: Parts,
    first: &[u8],
    second: &[u8],
    h: Head,
    node: i64,
    left: &[u8],
    right: &[u8],
    switch: bool,
) -> usize
    requires { Room (form_of f) p first.now second.now left.now out.old × Room (form_of f) p first.now second.now right.now out.old }
    ensures { (result ≤ length out.old) × (take result out.new ≡ sheet_from (form_of f) (head_fields h) node (cond switch (groups_in (form_of f) right.now) (groups_in (form_of f) left.now)) (parts_in p first.now second.now)) }
{
    if switch {
        return put_sheet(f, out, p, first, second, h, node, right);
    }
    put_sheet(f, out, p, first, second, h, node, left)
}
