// Elimination by patterns: the rows' pivots and the patterns that remain.
#![tactic(auto)]

ghost use Rattle.std.specs.Prelude.{◌≡◌, ◌≤◌, eqb, length};
ghost use Rattle.bits.specs.BitSets.{overlap};
ghost use Rattle.bits.specs.Numerals.{set_width, numeral, numerals};
ghost use Rattle.gf2.specs.InnerElimination.{pivot_for, reduce_patterns, remaining, pivots, units};
ghost use Rattle.elimination.specs.InnerPatterns.{first_nonempty};

use bits::{BitSet, SET_WIDTH, common, empty, is_empty, odd_overlap, sum, with};
use fixed_lists::FixedList;

// A list of at most as many sets as a set can have elements: patterns, pivots, subsets, equations.
pub type SetList = FixedList<BitSet, SET_WIDTH>;

// A list of these sets.
pub fn listed(sets: &[BitSet]) -> SetList
    requires { length sets.now ≤ set_width }
    ensures { result.items ≡ sets.now }
{
    let mut list = SetList::new();
    for set in sets {
        list.push(*set);
    }
    list
}

// The patterns that elimination starts from.
pub fn unit_patterns(width: usize) -> SetList
    requires { width ≤ set_width }
    ensures { numerals result.items ≡ units width }
{
    let mut patterns = SetList::new();
    for bit in 0..width {
        patterns.push(with(empty(), bit));
    }
    patterns
}

// Whether a pattern overlaps a row oddly. Nothing is counted where they share nothing: an empty pattern or an empty row costs no overlap.
pub fn is_odd(pattern: BitSet, row: BitSet) -> bool
    ensures { result ≡ eqb (overlap (numeral pattern) (numeral row)) 1 }
{
    if is_empty(common(pattern, row)) {
        return false;
    }
    odd_overlap(pattern, row)
}

// The first of the patterns that overlaps the row oddly; 0 where there is none.
pub fn pivot_for(patterns: &[BitSet], row: BitSet) -> BitSet
    ensures { numeral result ≡ pivot_for (numerals patterns.now) (numeral row) }
{
    for pattern in patterns {
        if is_odd(*pattern, row) {
            return *pattern;
        }
    }
    empty()
}

// The first set, or the second where the first is empty.
fn first_nonempty(first: BitSet, second: BitSet) -> BitSet
    ensures { numeral result ≡ first_nonempty (numeral first) (numeral second) }
{
    if is_empty(first) {
        return second;
    }
    first
}

// A row taken in: its pivot is added to every pattern that overlaps it oddly. Overlaps are dear, so pivot and patterns come from one pass, and an
// empty row, as every lost one is, needs none.
fn take_in(patterns: &mut [BitSet], row: BitSet) -> BitSet
    ensures pivot { numeral result ≡ pivot_for (numerals patterns.old) (numeral row) }
    ensures reduced { numerals patterns.new ≡ reduce_patterns (numerals patterns.old) (numeral row) }
{
    let mut pivot = empty();
    if is_empty(row) {
        return pivot;
    }
    for pattern in patterns {
        if is_odd(*pattern, row) {
            pivot = first_nonempty(pivot, *pattern);
            *pattern = sum(*pattern, pivot);
        }
    }
    pivot
}

// The rows taken in, one after the other: their pivots are answered, and the patterns that remain take the places of the others.
pub fn eliminate(patterns: &mut [BitSet], rows: &[BitSet]) -> SetList
    requires { length rows.now ≤ set_width }
    ensures remaining { numerals patterns.new ≡ remaining (numerals patterns.old) (numerals rows.now) }
    ensures pivots { numerals result.items ≡ pivots (numerals patterns.old) (numerals rows.now) }
{
    let mut pivots = SetList::new();
    for row in rows {
        pivots.push(take_in(patterns, *row));
    }
    pivots
}

#[cfg(test)]
mod tests;
