// Lists as text: the lines of an input, the fields of a line, the number or the bytes of a field.
#![tactic(auto)]

ghost use Rattle.std.specs.Prelude.{◌≡◌, ◌-◌, ◌≤◌, ◌<◌, length, IfSome};
ghost use Rattle.lines.specs.Window.{Open, Inside, slid};
ghost use Rattle.lines.specs.Fields.{Found, is_comment, field_count, field_of};
ghost use Rattle.lines.specs.Digits.{hex_digit, joined, number_more, number_of};
ghost use Rattle.lines.specs.Bytes.{bytes_in, field_bytes, Puts};

// Where a line ends, what stands between two fields, and the field that stands for no bytes.
pub const LINE_END: u8 = b'\n';

pub const BLANK: u8 = b' ';

pub const NO_BYTES: &[u8] = b"-";

// The bytes of a buffer that were read and not handed out yet: from `at` to `end`.
#[derive(Clone, Copy)]
pub struct Window {
    pub at: usize,
    pub end: usize,
}

// A line, from `from` to `to` in the buffer, and the window behind it.
#[derive(Clone, Copy)]
pub struct Line {
    pub from: usize,
    pub to: usize,
    pub rest: Window,
}

// ---- lines

// The first place of `b` from `from` on, or the length.
pub fn find(s: &[u8], from: usize, b: u8) -> usize
    requires { from ≤ length s.now }
    ensures { Found b s.now from result }
{
    let rest = &s[from..];
    from + rest.iter().position(|x| *x == b).unwrap_or(rest.len())
}

// Moves the bytes from `at` to `end` to the buffer's start.
fn slide(buf: &mut [u8], at: usize, end: usize) -> usize
    requires { (at ≤ end) × (end ≤ length buf.old) }
    ensures { (result ≡ end - at) × (buf.new ≡ slid at (end - at) buf.old) }
{
    buf.copy_within(at..end, 0);
    end - at
}

// The next line of the input `fd`, of which `w` is already in the buffer. A line that is longer than the buffer comes in pieces.
pub fn next(fd: i32, buf: &mut [u8], w: Window) -> Option<Line>
    requires { Open w (length buf.old) }
    ensures { IfSome result (λ line. Inside line (length buf.new)) }
{
    let line = first(buf, w);
    if line.to < w.end {
        return Some(line);
    }
    let kept = slide(buf, w.at, w.end);
    let end = kept + io::read_full(fd, &mut buf[kept..]);
    if end == 0 {
        return None;
    }
    Some(first(buf, Window { at: 0, end }))
}

// The line at the start of a window, or the window where no line ends in it.
fn first(buf: &[u8], w: Window) -> Line
    requires { Open w (length buf.now) }
    ensures { Inside result (length buf.now) }
{
    let to = find(&buf[..w.end], w.at, LINE_END);
    let at = if to < w.end { to + 1 } else { to };
    Line {
        from: w.at,
        to,
        rest: Window { at, end: w.end },
    }
}

// Whether a line of a list says nothing: it is empty, or begins with `#`.
pub fn is_comment(line: &[u8]) -> bool
    ensures { result ≡ is_comment line.now }
{
    matches!(line, [] | [b'#', ..])
}

// ---- fields

// How many fields a line has.
pub fn fields(s: &[u8]) -> usize
    ensures { result ≡ field_count s.now }
{
    s.split(|b| *b == BLANK).count()
}

// Field k of a line, counted from 0; past the last one, no bytes.
pub fn field(s: &[u8], k: usize) -> &[u8]
    ensures { result.now ≡ field_of k s.now }
{
    let Some(field) = s.split(|b| *b == BLANK).nth(k) else {
        return &[];
    };
    field
}

// ---- numbers and bytes

// A lower-case hexadecimal digit.
#[tactic(auto, using(std::proofs::lemmas::Bool::Decides::nat_tests), unfolding(crate::specs::Digits::hex_digit))]
fn hex_digit(b: u8) -> Option<u8>
    ensures { (result ≡ hex_digit b) × IfSome result (λ d. d < 16) }
{
    match b {
        b'0'..=b'9' => Some(b - b'0'),
        b'a'..=b'f' => Some(b - b'a' + 10),
        _ => None,
    }
}

// The byte of two hexadecimal digits.
#[tactic(auto, unfolding(crate::specs::Digits::joined))]
fn byte(high: u8, low: u8) -> Option<u8>
    ensures { result ≡ joined (hex_digit high) (hex_digit low) }
{
    let h = hex_digit(high)?;
    let l = hex_digit(low)?;
    Some(h * 16 + l)
}

// A decimal number of 32 bits: one digit or more, and nothing else.
pub fn decimal(s: &[u8]) -> Option<u32>
    ensures { result ≡ number_of s.now }
{
    if s.is_empty() {
        return None;
    }
    let mut value = 0;
    for b in s {
        value = decimal_more(value, *b)?;
    }
    Some(value)
}

// A number with one decimal digit more.
#[tactic(auto, using(std::proofs::lemmas::Bool::Decides::nat_tests), unfolding(crate::specs::Digits::number_more))]
fn decimal_more(value: u32, b: u8) -> Option<u32>
    ensures { result ≡ number_more value b }
{
    if !b.is_ascii_digit() {
        return None;
    }
    value.checked_mul(10)?.checked_add(u32::from(b - b'0'))
}

// Puts the bytes of a field at the start of `out`, and says how many: two lower-case hexadecimal digits a byte, or `-` for none.
pub fn bytes_of(s: &[u8], out: &mut [u8]) -> Option<usize>
    ensures puts { Puts result (field_bytes s.now) out.old out.new }
    ensures within { IfSome result (λ n. n ≤ length out.new) }
{
    if s.is_empty() {
        return None;
    }
    if s == NO_BYTES {
        return Some(0);
    }
    pairs(s, out)
}

fn pairs(s: &[u8], out: &mut [u8]) -> Option<usize>
    ensures puts { Puts result (bytes_in s.now) out.old out.new }
    ensures within { IfSome result (λ n. n ≤ length out.new) }
{
    if s.len() % 2 == 1 {
        return None;
    }
    let n = s.len() / 2;
    if out.len() < n {
        return None;
    }
    for i in 0..n {
        out[i] = byte(s[2 * i], s[2 * i + 1])?;
    }
    Some(n)
}
