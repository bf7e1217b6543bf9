// Texts laid behind their values: the area of a derived sheet, and 28.
#![tactic(auto)]

ghost use Rattle.std.specs.Prelude.{◌≡◌, List, map, ℕ, ◌+◌, ◌*◌, ◌^◌, ◌≤◌, ◌<◌, ℤ, pos, length, take, drop, get_or};
ghost use Rattle.octets.specs.Le.{le_at, le_bytes};
ghost use Rattle.octets.specs.Wrote.{Wrote};
ghost use Rattle.base.specs.Form.{form_of};
ghost use Rattle.base.specs.Encode.{whole_bits, list_bytes, spot};
ghost use Rattle.texts.specs.Joins.{join_in, JoinLies, join_at};
ghost use Rattle.text_areas.specs.Areas.{AreaLaid};

use base::form;
use base::form::Form;
use base::refusals::Refusal;
use writer::Parts;

// The bytes of a join go to `at`, left's part first. Returns the place behind them.
fn put_join(f: Form, buf: &mut [u8], at: usize, left: &[u8], right: &[u8], c: u64) -> usize
    requires { JoinLies (form_of f) left.now right.now c × (at + length (join_in (form_of f) left.now right.now c) ≤ length buf.old) }
    ensures { Wrote buf.old at (length (join_in (form_of f) left.now right.now c)) (join_in (form_of f) left.now right.now c) buf.new result }
{
    let p = texts::left_part(c);
    let q = texts::right_part(c);
    let from = texts::area_of(f, left) + texts::part_start(p);
    let end = writer::put_bytes(buf, at, left, from, texts::part_length(p));
    let from = texts::area_of(f, right) + texts::part_start(q);
    writer::put_bytes(buf, end, right, from, texts::part_length(q))
}

// The value of a text: where it starts, and its length.
fn spot(start: usize, size: usize) -> u64
    requires { (start < 2 ^ 32) × (size < 2 ^ 32) }
    ensures { result ≡ spot start size }
{
    (start as u64) + 0x1_0000_0000 * (size as u64)
}

// A text's value goes over the join that stood at `at`; what stands behind it stays. Returns the place behind it.
fn put_spot(values: &mut [u8], at: usize, start: usize, size: usize) -> usize
    requires { (at + 8 ≤ length values.old) × (start < 2 ^ 32) × (size < 2 ^ 32) }
    ensures { Wrote values.old at 8 (le_bytes 8 (spot start size)) values.new result × (drop result values.new ≡ drop result values.old) }
{
    let end = at + form::VALUE_WIDTH;
    octets::put_u64(&mut values[at..end], 0, spot(start, size));
    end
}

// The t joins that stand at the start of `values` become starts and lengths, and their bytes an area behind these; 28 where it is too long.
pub fn lay_texts(
    f: Form,
    left: &[u8],
    right: &[u8],
    n: usize,
    t: usize,
    values: &mut [u8],
) -> Result<Parts, Refusal>
    requires n_bound { (n ≤ (form_of f).list_limit) × (t ≤ (form_of f).category_limit) × (8 * (form_of f).category_limit + (form_of f).text_limit ≤ length values.old) }
    requires by_index { (i : ℕ) → i < t → JoinLies (form_of f) left.now right.now (le_at 8 (8 * i) values.old) }
    ensures { (cs : List ℤ) → take (8 * t) values.old ≡ list_bytes whole_bits cs → ((i : ℕ) → i < t → whole_bits (get_or cs i (pos 0)) < 2 ^ 64) → AreaLaid (form_of f) n t (map (join_at (form_of f) left.now right.now) cs) values.new result }
{
    let limit = f.text_limit();
    let area = form::VALUE_WIDTH * t;
    let mut at = 0;
    for i in 0..t {
        let place = form::VALUE_WIDTH * i;
        let c = octets::u64_at(values, place);
        let size = texts::join_length(c);
        if limit < at + size {
            return Err(Refusal::TooMuchText);
        }
        put_spot(values, place, at, size);
        put_join(f, values, area + at, left, right, c);
        at += size;
    }
    Ok(Parts {
        nature: form::TEXT_LISTS,
        entries: n,
        values: t,
        text: at as u16,
        first: f.numbers_length(t),
        second: area + at,
    })
}
