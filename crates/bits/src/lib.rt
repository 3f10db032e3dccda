// Rows and sets of symbols as sets of bits.
// A set's word is known here alone: code above uses these functions, and contracts speak of the set's number.
#![tactic(auto)]

ghost use Rattle.std.specs.Prelude.{◌≡◌, not, ◌-◌, ◌*◌, ◌/◌, ◌%◌, ◌^◌, ◌≤◌, ◌<◌, eqb, ltb, replicate};
ghost use Rattle.std.specs.Int.Bits.{bit_and, bit_or, bit_xor};
ghost use Rattle.bits.specs.BitSets.{has, with, below, count, overlap};
ghost use Rattle.bits.specs.Lists.{first_from};
ghost use Rattle.bits.specs.Numerals.{set_width, numeral, numerals, first_difference};

// A row of a code, a set of symbols or a pattern: bit 0 is the lowest.
#[derive(Clone, Copy, Default)]
pub struct BitSet {
    word: u64,
}

// How many elements a set can have.
pub const SET_WIDTH: usize = 64;

// As many sets as a set can have elements: the rows of a code, patterns and pivots.
pub type BitSets = [BitSet; SET_WIDTH];

// The set without an element.
pub fn empty() -> BitSet
    ensures { numeral result ≡ 0 }
{
    BitSet { word: 0 }
}

// Sets without an element.
pub fn empty_sets() -> BitSets
    ensures { numerals result ≡ replicate set_width 0 }
{
    [empty(); SET_WIDTH]
}

// The sum over the field of two elements.
pub fn sum(a: BitSet, b: BitSet) -> BitSet
    ensures { numeral result ≡ bit_xor (numeral a) (numeral b) }
{
    BitSet {
        word: a.word ^ b.word,
    }
}

// The lowest element in which two sets differ; SET_WIDTH where they are equal.
pub fn first_difference(a: BitSet, b: BitSet) -> usize
    ensures lowest { result ≡ first_difference (numeral a) (numeral b) }
    ensures equal { ltb result set_width ≡ not (eqb (numeral a) (numeral b)) }
{
    u64::trailing_zeros(a.word ^ b.word) as usize
}

// Whether the set has no element.
pub fn is_empty(set: BitSet) -> bool
    ensures { result ≡ eqb (numeral set) 0 }
{
    set.word == 0
}

// Whether the set has this element.
pub fn has(set: BitSet, bit: usize) -> bool
    requires { bit < set_width }
    ensures { result ≡ has (numeral set) bit }
{
    (set.word >> bit) % 2 == 1
}

// Whether a number, which may be any, is an element of the set.
pub fn is_element(set: BitSet, number: usize) -> bool
    ensures { result ≡ has (numeral set) number }
{
    if SET_WIDTH <= number {
        return false;
    }
    has(set, number)
}

// The set with this element besides.
pub fn with(set: BitSet, bit: usize) -> BitSet
    requires { bit < set_width }
    ensures { numeral result ≡ with (numeral set) bit }
{
    BitSet {
        word: set.word | (1u64 << bit),
    }
}

// The set of the numbers below a bound.
pub fn below(bound: usize) -> BitSet
    requires { bound ≤ set_width }
    ensures { numeral result ≡ below bound }
{
    if bound == SET_WIDTH {
        return BitSet {
            word: 0xffff_ffff_ffff_ffff,
        };
    }
    BitSet {
        word: (1u64 << bound) - 1,
    }
}

// How many elements the set has.
pub fn count(set: BitSet) -> usize
    ensures { result ≡ count (numeral set) }
{
    u64::count_ones(set.word) as usize
}

// The elements that two sets share.
pub fn common(a: BitSet, b: BitSet) -> BitSet
    ensures { numeral result ≡ bit_and (numeral a) (numeral b) }
{
    BitSet {
        word: a.word & b.word,
    }
}

// The elements of either set.
pub fn union(a: BitSet, b: BitSet) -> BitSet
    ensures { numeral result ≡ bit_or (numeral a) (numeral b) }
{
    BitSet {
        word: a.word | b.word,
    }
}

// The lowest element from a bound on; SET_WIDTH where there is none.
pub fn lowest_from(set: BitSet, bound: usize) -> usize
    requires { bound ≤ set_width }
    ensures { result ≡ first_from (has (numeral set)) bound (set_width - bound) }
{
    first_difference(set, common(set, below(bound)))
}

// Whether two sets share an odd number of elements.
pub fn odd_overlap(a: BitSet, b: BitSet) -> bool
    ensures { result ≡ eqb (overlap (numeral a) (numeral b)) 1 }
{
    count(common(a, b)) % 2 == 1
}

// The set whose number this is.
pub fn of_word(word: u64) -> BitSet
    ensures { numeral result ≡ word }
{
    BitSet { word }
}

// The number of the elements below 64.
pub fn low_word(set: BitSet) -> u64
    ensures { result ≡ numeral set % 2 ^ 64 }
{
    set.word
}

// Byte `at` of the set's number, the lowest first.
pub fn byte_of(set: BitSet, at: usize) -> u8
    requires { at < 8 }
    ensures { result ≡ numeral set / 2 ^ (8 * at) % 256 }
{
    ((set.word >> (8 * at)) % 256) as u8
}
