// Little-endian numbers in byte slices: read, converted, appended; and the delivery into a lent buffer.
#![tactic(auto)]

ghost use Rattle.std.specs.Prelude.{◌≡◌, [], ◌∷◌, ◌+◌, ◌≤◌, ◌<◌, length, take, leb};
ghost use Rattle.std.specs.Float.{binary64};
ghost use Rattle.std.specs.Float.Ieee.{of_bits, to_bits};
ghost use Rattle.std.specs.Int.{w64};
ghost use Rattle.std.proofs.Common.{to_z, of_z};
ghost use Rattle.octets.specs.Le.{le_at, le_bytes};
ghost use Rattle.octets.specs.Wrote.{Wrote};
ghost use Rattle.octets.specs.Deliver.{delivered};

// ---- 64 bits as a signed number and as a float

// The signed number whose two's complement is `v`. `!` asks nothing, where a cast of a high `v` would not fit.
pub fn signed(v: u64) -> i64
    ensures { result ≡ to_z w64 v }
{
    if v < 0x8000_0000_0000_0000 {
        v as i64
    } else {
        !((!v) as i64)
    }
}

// The two's complement of `z`.
pub fn complement(z: i64) -> u64
    ensures { result ≡ of_z w64 z }
{
    if 0 <= z { z as u64 } else { !((!z) as u64) }
}

// The float of a bit pattern. Every NaN pattern gives the one NaN, so that no pattern is ruled out.
pub fn float_of(v: u64) -> f64
    ensures { result ≡ of_bits binary64 v }
{
    if 0x7ff0_0000_0000_0000 < v % 0x8000_0000_0000_0000 {
        0.0 / 0.0
    } else {
        f64::from_bits(v)
    }
}

// The bit pattern of a float, and of a NaN the one that `to_bits` names.
pub fn pattern(x: f64) -> u64
    ensures { result ≡ to_bits binary64 x }
{
    if x != x {
        0x7ff8_0000_0000_0000
    } else {
        f64::to_bits(x)
    }
}

// ---- readers: the number that stands at `at`

// A byte as a size: a call of it asks nothing of the byte, where a cast asks that it fits.
pub fn wide(x: u8) -> usize
    ensures { (result ≡ x) × (result < 256) }
{
    x as usize
}

pub fn u16_at(s: &[u8], at: usize) -> u16
    requires { at + 2 ≤ length s.now }
    ensures { result ≡ le_at 2 at s.now }
{
    (wide(s[at]) + wide(s[at + 1]) * 256) as u16
}

pub fn u32_at(s: &[u8], at: usize) -> u32
    requires { at + 4 ≤ length s.now }
    ensures { result ≡ le_at 4 at s.now }
{
    let low = u16_at(s, at);
    let high = u16_at(s, at + 2);
    (low as u32) + (high as u32) * 65536
}

pub fn u64_at(s: &[u8], at: usize) -> u64
    requires { at + 8 ≤ length s.now }
    ensures { result ≡ le_at 8 at s.now }
{
    let low = u32_at(s, at);
    let high = u32_at(s, at + 4);
    (low as u64) + (high as u64) * 4294967296
}

pub fn i64_at(s: &[u8], at: usize) -> i64
    requires { at + 8 ≤ length s.now }
    ensures { result ≡ to_z w64 (le_at 8 at s.now) }
{
    signed(u64_at(s, at))
}

pub fn f64_at(s: &[u8], at: usize) -> f64
    requires { at + 8 ≤ length s.now }
    ensures { result ≡ of_bits binary64 (le_at 8 at s.now) }
{
    float_of(u64_at(s, at))
}

// ---- writers: each appends at `at`, and returns the place behind what it wrote

pub fn put_u8(buf: &mut [u8], at: usize, v: u8) -> usize
    requires { at + 1 ≤ length buf.old }
    ensures { Wrote buf.old at 1 (v ∷ []) buf.new result }
{
    buf[at] = v;
    at + 1
}

pub fn put_u16(buf: &mut [u8], at: usize, v: u16) -> usize
    requires { at + 2 ≤ length buf.old }
    ensures { Wrote buf.old at 2 (le_bytes 2 v) buf.new result }
{
    let mid = put_u8(buf, at, (v % 256) as u8);
    put_u8(buf, mid, (v / 256) as u8)
}

pub fn put_u32(buf: &mut [u8], at: usize, v: u32) -> usize
    requires { at + 4 ≤ length buf.old }
    ensures { Wrote buf.old at 4 (le_bytes 4 v) buf.new result }
{
    let mid = put_u16(buf, at, (v % 65536) as u16);
    put_u16(buf, mid, (v / 65536) as u16)
}

pub fn put_u64(buf: &mut [u8], at: usize, v: u64) -> usize
    requires { at + 8 ≤ length buf.old }
    ensures { Wrote buf.old at 8 (le_bytes 8 v) buf.new result }
{
    let mid = put_u32(buf, at, (v % 4294967296) as u32);
    put_u32(buf, mid, (v / 4294967296) as u32)
}

pub fn put_i64(buf: &mut [u8], at: usize, v: i64) -> usize
    requires { at + 8 ≤ length buf.old }
    ensures { Wrote buf.old at 8 (le_bytes 8 (of_z w64 v)) buf.new result }
{
    put_u64(buf, at, complement(v))
}

pub fn put_f64(buf: &mut [u8], at: usize, v: f64) -> usize
    requires { at + 8 ≤ length buf.old }
    ensures { Wrote buf.old at 8 (le_bytes 8 (to_bits binary64 v)) buf.new result }
{
    put_u64(buf, at, pattern(v))
}

// ---- delivery

// Copies the first `len` bytes of `src` to the start of `out`; where they do not fit, `out` stays as it was. No `copy_from_slice`: the static library would need
// `memmove` from outside for it.
pub fn deliver(out: &mut [u8], src: &[u8], len: usize) -> bool
    requires { len ≤ length src.now }
    ensures { (result ≡ leb len (length out.old)) × (out.new ≡ delivered out.old (take len src.now)) }
{
    if out.len() < len {
        return false;
    }
    for i in 0..len {
        out[i] = src[i];
    }
    true
}
