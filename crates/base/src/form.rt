// The stored form of a sheet: limits, places and numbers, as specs/Form.antt has them. The code has them from here alone.
ghost use Rattle.std.specs.Prelude.{◌≡◌, ◌+◌, ◌*◌, ◌^◌, ◌≤◌, ◌<◌};
ghost use Rattle.base.specs.Form.{form_of, place, fields_end, is_range_nature, entries_at, partition_at, key_at, lower_at, upper_at, number_at, value_at, area_at, called_for};

// ---- what every form has: places as 01 has them, which a form may shift, and widths

// One byte each.
pub const NATURE_AT: usize = 6;

pub const TYPE_AT: usize = 7;

pub const NULLITY_AT: usize = 8;

pub const RELEASABLE_AT: usize = 9;

pub const NOT_EMPTY_AT: usize = 10;

pub const ORDERED_AT: usize = 11;

// 32 bits each.
pub const C_STABILITY_AT: usize = 12;

pub const AGGREGATOR_AT: usize = 16;

// Marks of presence, and a byte behind them that is zero.
pub const ROWS_MARK_AT: usize = 20;

pub const COLUMNS_MARK_AT: usize = 21;

pub const DATASET_MARK_AT: usize = 22;

pub const DIMENSIONALITY_MARK_AT: usize = 23;

pub const SAMPLE_MARK_AT: usize = 24;

pub const RESERVED_AT: usize = 25;

// The size of the text area, of 16 bits, and four bytes more that are zero.
pub const AREA_SIZE_AT: usize = 26;

pub const LATER_AT: usize = 28;

// 64 bits each.
pub const ROWS_AT: usize = 32;

pub const COLUMNS_AT: usize = 40;

pub const DATASET_AT: usize = 48;

pub const DIMENSIONALITY_AT: usize = 56;

pub const SAMPLE_AT: usize = 64;

pub const NODE_AT: usize = 72;

// The place behind the last field.
pub const FIELDS_END: usize = 80;

// The bytes that one element of an array takes.
pub const PARTITION_WIDTH: usize = 4;

pub const KEY_WIDTH: usize = 9;

pub const GROUP_WIDTH: usize = PARTITION_WIDTH + KEY_WIDTH;

pub const END_WIDTH: usize = 9;

pub const ENTRY_WIDTH: usize = 2 * END_WIDTH;

pub const VALUE_WIDTH: usize = 8;

// Natures.
pub const ABSENT_NATURE: u8 = 0;

pub const WHOLE_RANGE: u8 = 1;

pub const FLOAT_RANGE: u8 = 2;

pub const WHOLE_LISTS: u8 = 3;

pub const BOOL_LISTS: u8 = 4;

pub const FLOAT_LISTS: u8 = 5;

pub const TEXT_LISTS: u8 = 6;

pub const LAST_NATURE: u8 = TEXT_LISTS;

// Data types that rules look at.
pub const FLOAT_TYPE: u8 = 3;

pub const INT_TYPE: u8 = 4;

pub const LAST_TYPE: u8 = INT_TYPE;

// Kinds of a group's index.
pub const BOOL_KEY: u8 = 2;

pub const LAST_KEY: u8 = 3;

// Whether a nature is a range, of either kind.
pub fn is_range(nature: u8) -> bool
    ensures { result ≡ is_range_nature nature }
{
    (nature == WHOLE_RANGE) | (nature == FLOAT_RANGE)
}

// ---- what a form has of its own

// A stored form: 01's, and the wider one of 02, S-10, which no call takes yet.
#[derive(Clone, Copy)]
pub enum Form {
    Narrow,
    Wide,
}

// 01's form.
pub const NARROW_GROUP_LIMIT: usize = 4;

pub const NARROW_LIST_LIMIT: usize = 16;

pub const NARROW_CATEGORY_LIMIT: usize = 128;

pub const NARROW_COLUMN_LIMIT: u64 = 16;

pub const NARROW_TEXT_LIMIT: usize = 1024;

pub const NARROW_SIZE_WIDTH: usize = 2;

pub const NARROW_NUMBER_WIDTH: usize = 1;

pub const NARROW_SHIFT: usize = 0;

pub const NARROW_ARRAYS_AT: usize = 80;

// The longest sheet of categories that are no texts.
pub const NARROW_LISTS_LONGEST: usize = NARROW_ARRAYS_AT
    + GROUP_WIDTH * NARROW_GROUP_LIMIT
    + (NARROW_NUMBER_WIDTH + VALUE_WIDTH) * NARROW_CATEGORY_LIMIT;

// The longest sheet, and a plan's slot.
pub const NARROW_LONGEST: usize = NARROW_LISTS_LONGEST + NARROW_TEXT_LIMIT;

// The longest sheet of a range.
pub const NARROW_RANGE_LONGEST: usize = NARROW_ARRAYS_AT
    + GROUP_WIDTH * NARROW_GROUP_LIMIT
    + ENTRY_WIDTH * NARROW_LIST_LIMIT;

// The buffers of a derived nature: lowers or uppers of a range, which are also room enough for all list numbers; values of categories.
pub const NARROW_ENDS_ROOM: usize = END_WIDTH * NARROW_LIST_LIMIT;

pub const NARROW_VALUES_ROOM: usize = VALUE_WIDTH * NARROW_CATEGORY_LIMIT;

// Values of texts, with the area behind them.
pub const NARROW_TEXTS_ROOM: usize = NARROW_VALUES_ROOM + NARROW_TEXT_LIMIT;

// 02's wider form.
const WIDE_GROUP_LIMIT: usize = 4;

const WIDE_LIST_LIMIT: usize = 64;

const WIDE_CATEGORY_LIMIT: usize = 1024;

const WIDE_COLUMN_LIMIT: u64 = 64;

const WIDE_TEXT_LIMIT: usize = 1024;

const WIDE_SIZE_WIDTH: usize = 4;

pub const WIDE_NUMBER_WIDTH: usize = 2;

const WIDE_SHIFT: usize = 6;

const WIDE_ARRAYS_AT: usize = 88;

pub const WIDE_FIELDS_END: usize = FIELDS_END + WIDE_SHIFT;

impl Form {
    // ---- limits and widths, each with a bound for the sums above it

    pub fn group_limit(self) -> usize
        ensures { (result ≡ (form_of self).group_limit) × (result ≤ 4) }
    {
        match self {
            Form::Narrow => NARROW_GROUP_LIMIT,
            Form::Wide => WIDE_GROUP_LIMIT,
        }
    }

    pub fn list_limit(self) -> usize
        ensures { (result ≡ (form_of self).list_limit) × (result ≤ 64) }
    {
        match self {
            Form::Narrow => NARROW_LIST_LIMIT,
            Form::Wide => WIDE_LIST_LIMIT,
        }
    }

    pub fn category_limit(self) -> usize
        ensures { (result ≡ (form_of self).category_limit) × (result ≤ 1024) }
    {
        match self {
            Form::Narrow => NARROW_CATEGORY_LIMIT,
            Form::Wide => WIDE_CATEGORY_LIMIT,
        }
    }

    pub fn column_limit(self) -> u64
        ensures { (result ≡ (form_of self).column_limit) × (result ≤ 64) }
    {
        match self {
            Form::Narrow => NARROW_COLUMN_LIMIT,
            Form::Wide => WIDE_COLUMN_LIMIT,
        }
    }

    pub fn text_limit(self) -> usize
        ensures { (result ≡ (form_of self).text_limit) × (result ≤ 1024) }
    {
        match self {
            Form::Narrow => NARROW_TEXT_LIMIT,
            Form::Wide => WIDE_TEXT_LIMIT,
        }
    }

    pub fn size_width(self) -> usize
        ensures { (result ≡ (form_of self).size_width) × (result ≤ 4) }
    {
        match self {
            Form::Narrow => NARROW_SIZE_WIDTH,
            Form::Wide => WIDE_SIZE_WIDTH,
        }
    }

    pub fn shift(self) -> usize
        ensures { (result ≡ (form_of self).shift) × (result ≤ 6) }
    {
        match self {
            Form::Narrow => NARROW_SHIFT,
            Form::Wide => WIDE_SHIFT,
        }
    }

    pub fn arrays_at(self) -> usize
        ensures { (result ≡ (form_of self).arrays_at) × (result ≤ 88) }
    {
        match self {
            Form::Narrow => NARROW_ARRAYS_AT,
            Form::Wide => WIDE_ARRAYS_AT,
        }
    }

    // ---- places

    // A field's place in this form, from its place in 01.
    pub fn place(self, k: usize) -> usize
        requires { k ≤ fields_end }
        ensures { result ≡ place (form_of self) k }
    {
        k + self.shift()
    }

    // The bytes of i list numbers: the one product of a width and a count.
    pub fn numbers_length(self, i: usize) -> usize
        requires { i < 2 ^ 32 }
        ensures { (result ≡ (form_of self).number_width * i) × (result ≤ 2 * i) }
    {
        match self {
            Form::Narrow => NARROW_NUMBER_WIDTH * i,
            Form::Wide => WIDE_NUMBER_WIDTH * i,
        }
    }

    // Where a range's or a category's arrays begin.
    pub fn entries_at(self, g: usize) -> usize
        requires { g < 2 ^ 32 }
        ensures { (result ≡ entries_at (form_of self) g) × (result ≤ 88 + 13 * g) }
    {
        self.arrays_at() + GROUP_WIDTH * g
    }

    pub fn partition_at(self, i: usize) -> usize
        requires { i ≤ (form_of self).group_limit }
        ensures { result ≡ partition_at (form_of self) i }
    {
        self.arrays_at() + PARTITION_WIDTH * i
    }

    pub fn key_at(self, g: usize, i: usize) -> usize
        requires { (g ≤ (form_of self).group_limit) × (i ≤ (form_of self).group_limit) }
        ensures { result ≡ key_at (form_of self) g i }
    {
        self.arrays_at() + PARTITION_WIDTH * g + KEY_WIDTH * i
    }

    pub fn upper_at(self, g: usize, n: usize, i: usize) -> usize
        requires { (g ≤ (form_of self).group_limit) × (n ≤ (form_of self).list_limit) × (i ≤ (form_of self).list_limit) }
        ensures { result ≡ upper_at (form_of self) g n i }
    {
        self.entries_at(g) + END_WIDTH * n + END_WIDTH * i
    }

    pub fn lower_at(self, g: usize, i: usize) -> usize
        requires { (g ≤ (form_of self).group_limit) × (i ≤ (form_of self).list_limit) }
        ensures { result ≡ lower_at (form_of self) g i }
    {
        self.entries_at(g) + END_WIDTH * i
    }

    pub fn number_at(self, g: usize, i: usize) -> usize
        requires { (g ≤ (form_of self).group_limit) × (i ≤ (form_of self).category_limit) }
        ensures { result ≡ number_at (form_of self) g i }
    {
        self.entries_at(g) + self.numbers_length(i)
    }

    pub fn value_at(self, g: usize, t: usize, i: usize) -> usize
        requires { (g ≤ (form_of self).group_limit) × (t ≤ (form_of self).category_limit) × (i ≤ (form_of self).category_limit) }
        ensures { result ≡ value_at (form_of self) g t i }
    {
        self.entries_at(g) + self.numbers_length(t) + VALUE_WIDTH * i
    }

    // Where the text area begins.
    pub fn area_at(self, g: usize, t: usize) -> usize
        requires { (g < 2 ^ 32) × (t < 2 ^ 32) }
        ensures { (result ≡ area_at (form_of self) g t) × (result ≤ 88 + 13 * g + 10 * t) }
    {
        self.entries_at(g) + self.numbers_length(t) + VALUE_WIDTH * t
    }

    // The length that a nature and sizes of 32 bits call for.
    pub fn called_for(self, nature: u8, g: usize, n: usize, t: usize, a: usize) -> usize
        requires { (g < 2 ^ 32) × (n < 2 ^ 32) × (t < 2 ^ 32) × (a < 2 ^ 32) }
        ensures { result ≡ called_for (form_of self) nature g n t a }
    {
        if is_range(nature) {
            return self.entries_at(g) + ENTRY_WIDTH * n + a;
        }
        self.area_at(g, t) + a
    }
}
