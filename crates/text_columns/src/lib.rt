// A column's texts of two sheets, joined by Add or united by Pool: each once, as where it lies.
#![tactic(auto)]

ghost use Rattle.std.specs.Prelude.{ℕ, ◌+◌, ◌^◌, ◌≤◌, ◌<◌, pos, length, take, get_or};
ghost use Rattle.utilities.specs.Lists.{firsts};
ghost use Rattle.base.specs.Form.{form_of};
ghost use Rattle.base.specs.Encode.{whole_bits};
ghost use Rattle.category_lists.specs.Answers.{Stored};
ghost use Rattle.texts.specs.Joins.{same_join, PartLies};
ghost use Rattle.texts.specs.Code.{Joins};
ghost use Rattle.text_columns.specs.Codes.{pair_codes, both_codes, codes_by};

use base::form::Form;

// Every text of left with every text of right, left outer. Returns how many there are, or one more than there is room for.
fn note_pairs(
    f: Form,
    left: &[u8],
    right: &[u8],
    us: &[i64],
    l: usize,
    bs: &[i64],
    r: usize,
    store: &mut [i64],
) -> usize
    requires l_in_bounds { (l ≤ length us.now) × (r ≤ length bs.now) × (length store.old < 2 ^ 32) }
    requires by_index { ((i : ℕ) → i < l → PartLies (form_of f) left.now (whole_bits (get_or us.now i (pos 0)))) × ((i : ℕ) → i < r → PartLies (form_of f) right.now (whole_bits (get_or bs.now i (pos 0)))) }
    ensures { (result ≤ length store.old + 1) × Joins (form_of f) left.now right.now result store.new × Stored result store.new (firsts (same_join (form_of f) left.now right.now) (pair_codes (take l us.now) (take r bs.now))) }
{
    let rights = &bs[..r];
    let mut k = 0;
    for &a in &us[..l] {
        let p = octets::complement(a);
        for &b in rights {
            let z = octets::signed(texts::join(p, octets::complement(b)));
            k = texts::note_join(f, left, right, store, k, z);
        }
    }
    k
}

// Left's texts, and then right's. Returns as note_pairs does.
fn note_both(
    f: Form,
    left: &[u8],
    right: &[u8],
    us: &[i64],
    l: usize,
    bs: &[i64],
    r: usize,
    store: &mut [i64],
) -> usize
    requires l_in_bounds { (l ≤ length us.now) × (r ≤ length bs.now) × (length store.old < 2 ^ 32) }
    requires by_index { ((i : ℕ) → i < l → PartLies (form_of f) left.now (whole_bits (get_or us.now i (pos 0)))) × ((i : ℕ) → i < r → PartLies (form_of f) right.now (whole_bits (get_or bs.now i (pos 0)))) × PartLies (form_of f) left.now 0 × PartLies (form_of f) right.now 0 }
    ensures { (result ≤ length store.old + 1) × Joins (form_of f) left.now right.now result store.new × Stored result store.new (firsts (same_join (form_of f) left.now right.now) (both_codes (take l us.now) (take r bs.now))) }
{
    let mut k = 0;
    for &z in &us[..l] {
        k = texts::note_join(f, left, right, store, k, z);
    }
    for &b in &bs[..r] {
        let z = octets::signed(texts::join(0, octets::complement(b)));
        k = texts::note_join(f, left, right, store, k, z);
    }
    k
}

// Joined or united, by the flag. Returns as note_pairs does.
pub fn note_column(
    f: Form,
    joins: bool,
    left: &[u8],
    right: &[u8],
    us: &[i64],
    l: usize,
    bs: &[i64],
    r: usize,
    store: &mut [i64],
) -> usize
    requires l_in_bounds { (l ≤ length us.now) × (r ≤ length bs.now) × (length store.old < 2 ^ 32) }
    requires by_index { ((i : ℕ) → i < l → PartLies (form_of f) left.now (whole_bits (get_or us.now i (pos 0)))) × ((i : ℕ) → i < r → PartLies (form_of f) right.now (whole_bits (get_or bs.now i (pos 0)))) × PartLies (form_of f) left.now 0 × PartLies (form_of f) right.now 0 }
    ensures { (result ≤ length store.old + 1) × Joins (form_of f) left.now right.now result store.new × Stored result store.new (firsts (same_join (form_of f) left.now right.now) (codes_by joins (take l us.now) (take r bs.now))) }
{
    if joins {
        return note_pairs(f, left, right, us, l, bs, r, store);
    }
    note_both(f, left, right, us, l, bs, r, store)
}
