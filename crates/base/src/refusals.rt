// Why a call is refused, by 01's and 02's numbers. 25 is missing: no call gives it.
ghost use Rattle.std.specs.Prelude.{◌≡◌, ℕ};
ghost use Rattle.base.specs.Refusals.{number_of};

#[derive(Clone, Copy)]
pub enum Refusal {
    // The plan is malformed.
    Malformed = 1,

    // The component is not 1 to 10.
    NoComponent = 2,

    // A size over its limit, or a length that the sizes do not call for.
    Sizes = 3,

    // A field without a permitted value.
    Fields = 4,

    // A float bound that is not finite, or a lower bound above its upper.
    Bounds = 5,

    // An operand that is not releasable has an aggregator.
    Aggregated = 6,

    // An operand that is not releasable has a sample proportion other than 1.
    Sampled = 7,

    // Of two operands that are not releasable: their groups differ.
    Groups = 8,

    // Their dataset ids differ.
    Datasets = 9,

    // Their c-stabilities differ.
    Stabilities = 10,

    // A column count is absent.
    NoColumns = 11,

    // The column counts differ and neither is 1.
    Columns = 12,

    // The row counts clash.
    Rows = 13,

    // The data types do not suit the component.
    Types = 14,

    // The bounds that Log, Modulo or Power read are of another kind, or one is absent.
    BoundKinds = 15,

    // Those bounds break the component's condition.
    Condition = 16,

    // One range is whole, the other float.
    RangeKinds = 17,

    // A bound list has neither one entry nor one per output column.
    UnevenList = 18,

    // Float categories are to be combined or mapped.
    FloatCategories = 19,

    // A category operand has no lists.
    NoLists = 20,

    // The category kinds differ.
    CategoryKinds = 21,

    // The component has no rule for this category kind.
    NoRule = 22,

    // Divide may meet zero.
    MayMeetZero = 23,

    // Whole-number arithmetic leaves 64 signed bits, or a category divides by zero.
    Leaves64Bits = 24,

    // More categories than a sheet holds.
    OverTheLimit = 26,

    // The output or the work buffer is too short.
    NoRoom = 27,

    // The result's text exceeds what a sheet holds.
    TooMuchText = 28,

    // The number of category lists is neither one nor the output's column count.
    ListCount = 29,

    // The reader may not see the node.
    NotSeen = 30,
}

impl Refusal {
    pub fn number(self) -> u32
        ensures { result ≡ number_of self }
    {
        self as u32
    }
}

// What stands for a refusal: one of those that are named, or any number, for what hands on whatever refused.
pub trait Refusing: Copy {
    ghost number: { Self → ℕ };

    fn number(self) -> u32
        ensures { result ≡ number self };

    fn of(refusal: Refusal) -> Self
        ensures { number result ≡ number_of refusal };
}

impl Refusing for Refusal {
    ghost number = { number_of };

    fn number(self) -> u32 {
        Refusal::number(self)
    }

    fn of(refusal: Refusal) -> Refusal {
        refusal
    }
}

impl Refusing for u32 {
    ghost number = { λ k. k };

    fn number(self) -> u32 {
        self
    }

    fn of(refusal: Refusal) -> u32 {
        Refusal::number(refusal)
    }
}
