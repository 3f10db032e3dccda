// What the known symbols of an array say of the wanted ones: elimination over the known rows, a pattern that shows a wanted symbol out of reach,
// and for each wanted symbol the subset of the known ones that sums to it; and where some are out of reach, the patterns that are lost with them.
#![tactic(auto)]

ghost use Rattle.std.specs.Prelude.{◌≡◌, ◌≤◌, length, take};
ghost use Rattle.bits.specs.BitSets.{has};
ghost use Rattle.bits.specs.Lists.{symbols_in};
ghost use Rattle.bits.specs.Numerals.{set_width, numeral, numerals};
ghost use Rattle.gf2.specs.InnerElimination.{remaining, pivots, back_substitute, nonempty, units};
ghost use Rattle.gf2.specs.InnerSubsetPlans.{survivors};
ghost use Rattle.solve.specs.InnerSolving.{odd_pattern, wanted_subsets};
ghost use Rattle.spans.specs.InnerSpans.{lost_patterns};

use back_substitution::back_substitute;
use bits::{BitSet, BitSets, empty, has, is_empty};
pub use elimination::SetList;
use elimination::{eliminate, pivot_for, unit_patterns};

// Those of some sets that are not empty, in order.
pub fn nonempty_sets(sets: &[BitSet]) -> SetList
    requires { length sets.now ≤ set_width }
    ensures { numerals result.items ≡ nonempty (numerals sets.now) }
{
    let mut gathered = SetList::new();
    for set in sets {
        if !is_empty(*set) {
            gathered.push(*set);
        }
    }
    gathered
}

// The rows of the known symbols, and empty ones for the others: symbols keep their numbers.
pub fn surviving_rows(rows: &[BitSet], known: BitSet) -> SetList
    requires { length rows.now ≤ set_width }
    ensures { numerals result.items ≡ survivors (has (numeral known)) (numerals rows.now) }
{
    let mut surviving = SetList::new();
    for (s, row) in rows.iter().enumerate() {
        let kept = if has(known, s) { *row } else { empty() };
        surviving.push(kept);
    }
    surviving
}

// Elimination over the known symbols: their rows, the pivot of each, and the patterns that remain.
#[derive(Clone, Copy)]
pub struct Elimination {
    pub surviving: SetList,
    pub pivots: SetList,
    pub remaining: SetList,
    ghost one_each: { length pivots.items ≡ length surviving.items },
}

// The known ones of the code's rows taken in, from the unit patterns of the data symbols on. The rows come as an array by value, the form that
// document 01 names.
#[tactic(auto, using(bits::proofs::NumeralLaws::numerals_take))]
pub fn eliminate_known(
    rows: BitSets,
    symbols: usize,
    data_symbols: usize,
    known: BitSet,
) -> Elimination
    requires rows_fit { symbols ≤ set_width }
    requires data_fit { data_symbols ≤ set_width }
    ensures surviving { numerals result.surviving.items ≡ survivors (has (numeral known)) (take symbols (numerals rows)) }
    ensures pivots { numerals result.pivots.items ≡ pivots (units data_symbols) (survivors (has (numeral known)) (take symbols (numerals rows))) }
    ensures remaining { numerals result.remaining.items ≡ remaining (units data_symbols) (survivors (has (numeral known)) (take symbols (numerals rows))) }
{
    let surviving = surviving_rows(&rows[..symbols], known);
    let units = unit_patterns(data_symbols);
    let count = units.len();
    let mut patterns = units.array();
    let pivots = eliminate(&mut patterns[..count], surviving.as_slice());
    Elimination {
        surviving,
        pivots,
        remaining: SetList::begun(patterns, count),
    }
}

impl Elimination {
    // The subset of the known symbols that the pivots take out of a row.
    pub fn subset(&self, row: BitSet) -> BitSet
        ensures { numeral result ≡ back_substitute (numerals self.now.pivots.items) (numerals self.now.surviving.items) (numeral row) }
    {
        back_substitute(self.pivots.as_slice(), self.surviving.as_slice(), row)
    }

    // For each wanted symbol the subset of the known ones that the pivots take out of its row, and none for the others.
    pub fn wanted_subsets(&self, rows: &[BitSet], wanted: BitSet) -> SetList
        requires { length rows.now ≤ set_width }
        ensures { numerals result.items ≡ wanted_subsets (numerals self.now.pivots.items) (numerals self.now.surviving.items) (numerals rows.now) (length rows.now) (has (numeral wanted)) }
    {
        let mut subsets = SetList::new();
        for (target, row) in rows.iter().enumerate() {
            let subset = if has(wanted, target) {
                self.subset(*row)
            } else {
                empty()
            };
            subsets.push(subset);
        }
        subsets
    }

    // The first of the patterns that remain to overlap a wanted row oddly, or the empty set.
    pub fn odd_pattern(&self, rows: &[BitSet], wanted: BitSet) -> BitSet
        requires { length rows.now ≤ set_width }
        ensures { numeral result ≡ odd_pattern (numerals self.now.remaining.items) (numerals rows.now) (symbols_in (has (numeral wanted)) 0 (length rows.now)) }
    {
        for (s, row) in rows.iter().enumerate() {
            if has(wanted, s) {
                let pattern = pivot_for(self.remaining.as_slice(), *row);
                if !is_empty(pattern) {
                    return pattern;
                }
            }
        }
        empty()
    }

    // Elimination run on over the wanted rows: of the patterns that remain those that a wanted row takes as its pivot.
    pub fn lost_patterns(&self, rows: &[BitSet], wanted: BitSet) -> SetList
        requires { length rows.now ≤ set_width }
        ensures { numerals result.items ≡ lost_patterns (numerals self.now.remaining.items) (survivors (has (numeral wanted)) (numerals rows.now)) }
    {
        let wanted_rows = surviving_rows(rows, wanted);
        let count = self.remaining.len();
        let mut patterns = self.remaining.array();
        let lost = eliminate(&mut patterns[..count], wanted_rows.as_slice());
        nonempty_sets(lost.as_slice())
    }
}
