// Texts of a sheet, each kept as where it stands there, and the join of two as the two places: joins are compared without being stored.
#![tactic(auto)]

ghost use Rattle.std.specs.Prelude.{◌≡◌, List, [], ◌+◌, ◌^◌, ◌≤◌, ◌<◌, ℤ, length, take, get_or};
ghost use Rattle.utilities.specs.Lists.{has, noted, firsts};
ghost use Rattle.base.specs.Form.{form_of, group_count, category_count, list_count, area_at};
ghost use Rattle.base.specs.Decode.{lists, start_in, length_in};
ghost use Rattle.base.specs.Encode.{whole_bits};
ghost use Rattle.category_lists.specs.Categories.{same_text};
ghost use Rattle.category_lists.specs.Columnwise.{Reaches};
ghost use Rattle.category_lists.specs.Answers.{Stored};
ghost use Rattle.texts.specs.Joins.{part_start, part_length, part_of, left_part, right_part, join_of, as_part, part_in, join_in, PartLies, JoinLies, same_join};
ghost use Rattle.texts.specs.Code.{Texts, Starts, Joins, parts_of};

use base::form::Form;

// ---- parts and joins

// A stored value as a part: its start and its length, which a sheet that passed 4 has below 2^16.
fn part(v: u64) -> u64
    requires { (start_in v < 2 ^ 16) × (length_in v < 2 ^ 16) }
    ensures { (result ≡ part_of v) × (result < 2 ^ 32) }
{
    v % 0x1_0000_0000 + 0x1_0000 * (v / 0x1_0000_0000)
}

// Left's part, and above it right's.
pub fn join(p: u64, q: u64) -> u64
    requires { (p < 2 ^ 32) × (q < 2 ^ 32) }
    ensures { result ≡ join_of p q }
{
    p + 0x1_0000_0000 * q
}

pub fn part_start(p: u64) -> usize
    ensures { (result ≡ part_start p) × (result < 2 ^ 16) }
{
    (p % 0x1_0000) as usize
}

pub fn part_length(p: u64) -> usize
    requires { p < 2 ^ 32 }
    ensures { (result ≡ part_length p) × (result < 2 ^ 16) }
{
    (p / 0x1_0000) as usize
}

pub fn left_part(c: u64) -> u64
    ensures { (result ≡ left_part c) × (result < 2 ^ 32) }
{
    c % 0x1_0000_0000
}

pub fn right_part(c: u64) -> u64
    ensures { (result ≡ right_part c) × (result < 2 ^ 32) }
{
    c / 0x1_0000_0000
}

// Where the text area of a sheet begins.
pub fn area_of(f: Form, s: &[u8]) -> usize
    requires { area_at (form_of f) (group_count (form_of f) s.now) (category_count (form_of f) s.now) ≤ length s.now }
    ensures { result ≡ area_at (form_of f) (group_count (form_of f) s.now) (category_count (form_of f) s.now) }
{
    let sizes = base::sizes_at(f, s);
    f.area_at(sizes.groups, sizes.categories)
}

// Byte i of a part.
fn part_byte(f: Form, s: &[u8], p: u64, i: usize) -> u8
    requires { PartLies (form_of f) s.now p × (i < part_length p) }
    ensures { result ≡ get_or (part_in (form_of f) s.now p) i 0 }
{
    base::byte_at(s, area_of(f, s) + part_start(p) + i)
}

pub fn join_length(c: u64) -> usize
    ensures { result ≡ part_length (left_part c) + part_length (right_part c) }
{
    part_length(left_part(c)) + part_length(right_part(c))
}

// Byte i of a join.
fn join_byte(f: Form, left: &[u8], right: &[u8], c: u64, i: usize) -> u8
    requires { JoinLies (form_of f) left.now right.now c × (i < part_length (left_part c) + part_length (right_part c)) }
    ensures { result ≡ get_or (join_in (form_of f) left.now right.now c) i 0 }
{
    let p = left_part(c);
    let n = part_length(p);
    if i < n {
        return part_byte(f, left, p, i);
    }
    part_byte(f, right, right_part(c), i - n)
}

// Whether two joins have the same bytes.
fn same_join(f: Form, left: &[u8], right: &[u8], a: u64, b: u64) -> bool
    requires { JoinLies (form_of f) left.now right.now a × JoinLies (form_of f) left.now right.now b }
    ensures { result ≡ same_text (join_in (form_of f) left.now right.now a) (join_in (form_of f) left.now right.now b) }
{
    let n = join_length(a);
    if n != join_length(b) {
        return false;
    }
    for i in 0..n {
        if join_byte(f, left, right, a, i) != join_byte(f, left, right, b, i) {
            return false;
        }
    }
    true
}

// ---- joins without repeats

// Whether a join is among the first k.
fn has_join(f: Form, left: &[u8], right: &[u8], store: &[i64], k: usize, z: i64) -> bool
    requires { (k ≤ length store.now) × Joins (form_of f) left.now right.now k store.now × JoinLies (form_of f) left.now right.now (whole_bits z) }
    ensures { result ≡ has (same_join (form_of f) left.now right.now) z (take k store.now) }
{
    let c = octets::complement(z);
    for &v in &store[..k] {
        if same_join(f, left, right, c, octets::complement(v)) {
            return true;
        }
    }
    false
}

// A join goes behind the k that were noted, unless it is among them. Returns how many there are then, or one more than there is room for.
pub fn note_join(f: Form, left: &[u8], right: &[u8], store: &mut [i64], k: usize, z: i64) -> usize
    requires { (k ≤ length store.old + 1) × (length store.old < 2 ^ 32) × Joins (form_of f) left.now right.now k store.old × JoinLies (form_of f) left.now right.now (whole_bits z) }
    ensures { (result ≤ length store.old + 1) × Joins (form_of f) left.now right.now result store.new × ((seen : List ℤ) → Stored k store.old seen → Stored result store.new (noted (same_join (form_of f) left.now right.now) seen z)) }
{
    if store.len() < k {
        return k;
    }
    if has_join(f, left, right, store, k, z) {
        return k;
    }
    if k < store.len() {
        store[k] = z;
    }
    k + 1
}

// ---- an operand's lists

// List j of a sheet, without repeats, as parts at the start of out. Returns how many there are.
fn text_list(f: Form, s: &[u8], j: usize, out: &mut [i64]) -> usize
    requires { Texts (form_of f) s.now × (j < list_count (form_of f) s.now) × (length out.old ≡ (form_of f).category_limit) }
    ensures { Starts (firsts (same_join (form_of f) s.now s.now) (get_or (lists (form_of f) s.now as_part) j [])) result out.new }
{
    let sizes = base::sizes_at(f, s);
    let g = sizes.groups;
    let lists = sizes.lists;
    let t = sizes.categories;
    let mut n = 0;
    for i in 0..t {
        if base::list_number(f, s, g, lists, t, i) == j {
            let p = part(base::u64_at(s, f.value_at(g, t, i)));
            n = note_join(f, s, s, out, n, octets::signed(p));
        }
    }
    n
}

// The list of column j: one list stands for every column.
pub fn column_texts(f: Form, s: &[u8], j: usize, out: &mut [i64]) -> usize
    requires { Texts (form_of f) s.now × Reaches (form_of f) s.now j × (length out.old ≡ (form_of f).category_limit) }
    ensures { Starts (parts_of (form_of f) s.now j) result out.new }
{
    let sizes = base::sizes_at(f, s);
    if sizes.lists == 1 {
        return text_list(f, s, 0, out);
    }
    text_list(f, s, j, out)
}
