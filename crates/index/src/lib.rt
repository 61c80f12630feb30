// What a range list asks of the indexes that its ranges lie between: a position, and an order that follows it.
#![tactic(auto)]

ghost use Rattle.std.specs.Prelude.{◌≡◌, ℕ, ◌+◌, ◌<◌, max, min, ◌==◌, nat_lt};

// No `Ord`: a type is an index by its positions alone, whatever else it is compared by.
pub trait Index: Copy {
    // where an index stands, counted from the least
    ghost position: { Self → ℕ };

    // The index that no other is before.
    fn least() -> Self
        ensures { position result ≡ 0 };

    // Whether this index stands before the other.
    fn before(self, other: Self) -> bool
        ensures { result ≡ nat_lt (position self) (position other) };

    // equal positions mean equal indexes
    ghost apart: { (a b : Self) → position a ≡ position b → a ≡ b };
}

// An index that has a next one; only adding a single index to a list asks for it.
pub trait Stepping: Index {
    // The index one position on, which is not past the bound.
    fn next(self, bound: Self) -> Self
        requires { Self.Index.position self < Self.Index.position bound }
        ensures { Self.Index.position result ≡ Self.Index.position self + 1 };
}

// Byte addresses.
impl Index for u64 {
    ghost position = { λ x. x };

    ghost apart = { λ a b same. same };

    // The first byte.
    fn least() -> u64 {
        u64::MIN
    }

    // Whether this byte stands before the other.
    fn before(self, other: u64) -> bool {
        self < other
    }
}

// Layers.
impl Index for u32 {
    ghost position = { λ x. x };

    ghost apart = { λ a b same. same };

    // The first layer.
    fn least() -> u32 {
        u32::MIN
    }

    // Whether this layer stands before the other.
    fn before(self, other: u32) -> bool {
        other > self
    }
}

impl Stepping for u32 {
    // The next layer.
    fn next(self, bound: u32) -> u32 {
        1 + self
    }
}

// The one of two indexes that stands later. This and the next two stand on `before`, the one order that an index has.
pub fn later<I: Index>(a: I, b: I) -> I
    ensures { I.Index.position result ≡ max (I.Index.position a) (I.Index.position b) }
{
    if a.before(b) { b } else { a }
}

// The one of two indexes that stands earlier.
pub fn earlier<I: Index>(a: I, b: I) -> I
    ensures { I.Index.position result ≡ min (I.Index.position a) (I.Index.position b) }
{
    if a.before(b) { a } else { b }
}

// Whether two indexes have one position.
pub fn same<I: Index>(a: I, b: I) -> bool
    ensures { result ≡ (I.Index.position a == I.Index.position b) }
{
    !a.before(b) && !b.before(a)
}
