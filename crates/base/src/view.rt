// 01: "A sheet is read through one view of its bytes". Each function of the view leaves the work to one of the slice and an offset.
ghost use Rattle.std.specs.Prelude.{◌≡◌, ◌+◌, ◌≤◌, ◌<◌, length, get_or};
ghost use Rattle.octets.specs.Le.{le_at};
ghost use Rattle.base.specs.Decode.{as_whole, as_float};
ghost use Rattle.base.specs.Code.{bound_at};

use crate::Bound;

#[derive(Clone, Copy)]
pub struct SheetView<'a> {
    pub bytes: &'a [u8],
}

pub fn view_of<'a>(bytes: &'a [u8]) -> SheetView<'a>
    ensures { result.bytes ≡ bytes.entry }
{
    SheetView { bytes }
}

// ---- the work, on the slice and an offset

fn byte_at(s: &[u8], at: usize) -> u8
    requires { at < length s.now }
    ensures { result ≡ get_or s.now at 0 }
{
    s[at]
}

// A size, of 16 bits.
fn size_at(s: &[u8], at: usize) -> usize
    requires { at + 2 ≤ length s.now }
    ensures { result ≡ le_at 2 at s.now }
{
    octets::u16_at(s, at) as usize
}

// A bound: a mark, and 64 bits that are a float's or a signed number's.
fn bound_at(s: &[u8], float: bool, at: usize) -> Bound
    requires { at + 9 ≤ length s.now }
    ensures { result ≡ bound_at float at s.now }
{
    if s[at] == 0 {
        return Bound::Absent;
    }
    if float {
        Bound::Float(octets::f64_at(s, at + 1))
    } else {
        Bound::Whole(octets::i64_at(s, at + 1))
    }
}

// ---- the same through the view

pub fn byte_in<'a>(v: SheetView<'a>, at: usize) -> u8
    requires { at < length v.bytes.now }
    ensures { result ≡ get_or v.entry.bytes.now at 0 }
{
    byte_at(v.bytes, at)
}

pub fn size_in<'a>(v: SheetView<'a>, at: usize) -> usize
    requires { at + 2 ≤ length v.bytes.now }
    ensures { result ≡ le_at 2 at v.entry.bytes.now }
{
    size_at(v.bytes, at)
}

pub fn u32_in<'a>(v: SheetView<'a>, at: usize) -> u32
    requires { at + 4 ≤ length v.bytes.now }
    ensures { result ≡ le_at 4 at v.entry.bytes.now }
{
    octets::u32_at(v.bytes, at)
}

pub fn i64_in<'a>(v: SheetView<'a>, at: usize) -> i64
    requires { at + 8 ≤ length v.bytes.now }
    ensures { result ≡ as_whole (le_at 8 at v.entry.bytes.now) }
{
    octets::i64_at(v.bytes, at)
}

pub fn u64_in<'a>(v: SheetView<'a>, at: usize) -> u64
    requires { at + 8 ≤ length v.bytes.now }
    ensures { result ≡ le_at 8 at v.entry.bytes.now }
{
    octets::u64_at(v.bytes, at)
}

pub fn f64_in<'a>(v: SheetView<'a>, at: usize) -> f64
    requires { at + 8 ≤ length v.bytes.now }
    ensures { result ≡ as_float (le_at 8 at v.entry.bytes.now) }
{
    octets::f64_at(v.bytes, at)
}

pub fn bound_in<'a>(v: SheetView<'a>, float: bool, at: usize) -> Bound
    requires { at + 9 ≤ length v.bytes.now }
    ensures { result ≡ bound_at float at v.entry.bytes.now }
{
    bound_at(v.bytes, float, at)
}
