// Cheaper sets of survivors by swaps: a wanted symbol's set is XORed with an equation among the survivors where that lowers the sum of the charges.
#![tactic(auto)]

ghost use Rattle.std.specs.Prelude.{◌≡◌, ℕ, ◌≤◌, ◌<◌, true, false, length, set, IfSome, IfNone};
ghost use Rattle.bits.specs.BitSets.{has};
ghost use Rattle.bits.specs.Numerals.{set_width, numeral, numerals};
ghost use Rattle.codes.specs.LinearCodes.{LayoutWithin};
ghost use Rattle.codes.specs.Layouts.{symbols_of};
ghost use Rattle.gf2.specs.Plans.{PlacesBelow};
ghost use Rattle.prices.specs.InnerPrices.{Strips};
ghost use Rattle.prices.specs.Prices.{sum_of};
ghost use Rattle.swaps.specs.Swaps.{read_by, Settled, terms_of};

use bits::{BitSet, BitSets, empty, has, sum, union};
use codes::Layout;
use prices::{DiskStates, strips_of, sum_of};
use solve::SetList;

// The most swaps that are made.
pub const MOST_SWAPS: usize = 1024;

// A swap: the wanted symbol whose set takes an equation in.
#[derive(Clone, Copy)]
struct Swap {
    target: usize,
    equation: usize,
}

// Where swaps have led: what reading the sets costs, how many swaps were made, and whether no single one lowers the sum any more.
#[derive(Clone, Copy)]
pub struct Settling {
    pub cost: f64,
    pub swaps: usize,
    pub settled: bool,
}

// The terms on which symbols are read: the array, the state and the strip of each disk, the equations among the survivors, and the wanted symbols.
#[derive(Clone, Copy)]
struct ReadingTerms {
    layout: Layout,
    states: DiskStates,
    strips: BitSets,
    equations: SetList,
    wanted: BitSet,
    ghost within: { LayoutWithin layout },
    ghost strips_are: { Strips layout (numerals strips) },
    ghost wanted_below: { PlacesBelow (symbols_of layout) (has (numeral wanted)) },
}

// The symbols that any of the sets has.
pub fn read_by(sets: &[BitSet]) -> BitSet
    ensures { numeral result ≡ read_by (numerals sets.now) }
{
    let mut read = empty();
    for set in sets {
        read = union(read, *set);
    }
    read
}

// The symbols that any set but one has.
fn read_by_others(sets: &[BitSet], target: usize) -> BitSet
    requires { target < length sets.now }
    ensures { numeral result ≡ read_by (set (numerals sets.now) target 0) }
{
    union(read_by(&sets[..target]), read_by(&sets[target + 1..]))
}

impl ReadingTerms {
    ghost use Rattle.swaps.specs.InnerSwaps.{terms, lowers_with, Searchable, LoweringAmong, Lowering};

    // The sum of the charges for the symbols that are read.
    fn cost(&self, read: BitSet) -> f64
        ensures { result ≡ sum_of self.now.layout self.now.states (has (numeral read)) }
    {
        sum_of(self.layout, &self.states, &self.strips, read)
    }

    // The first of the equations that, XORed into a symbol's own set, makes the sum lower than it is.
    fn lowering_equation(&self, others: BitSet, own: BitSet, cost: f64) -> Option<usize>
        ensures found { IfSome result (λ e. (e < length self.now.equations.items) × (lowers_with (terms self.now) (numeral others) (numeral own) cost e ≡ true)) }
        ensures none { IfNone result ((e : ℕ) → e < length self.now.equations.items → lowers_with (terms self.now) (numeral others) (numeral own) cost e ≡ false) }
    {
        for (e, equation) in self.equations.as_slice().iter().enumerate() {
            let read = union(others, sum(own, *equation));
            if self.cost(read) < cost {
                return Some(e);
            }
        }
        None
    }

    // A swap that lowers the sum, of the symbols from `first` on and before `end`.
    fn swap_among(&self, sets: &[BitSet], cost: f64, first: usize, end: usize) -> Option<Swap>
        requires { Searchable (terms self.now) (numerals sets.now) cost × (end ≤ symbols_of self.now.layout) }
        ensures { LoweringAmong (terms self.now) (numerals sets.now) first end result }
    {
        for target in first..end {
            if has(self.wanted, target) {
                let others = read_by_others(sets, target);
                if let Some(equation) = self.lowering_equation(others, sets[target], cost) {
                    return Some(Swap { target, equation });
                }
            }
        }
        None
    }

    // A swap that lowers the sum. It is looked for from a symbol on, then before it, so that symbols just passed are not tried anew at once.
    fn next_swap(&self, sets: &[BitSet], cost: f64, from: usize) -> Option<Swap>
        requires { Searchable (terms self.now) (numerals sets.now) cost × (from ≤ symbols_of self.now.layout) }
        ensures { Lowering (terms self.now) (numerals sets.now) result }
    {
        let late = self.swap_among(sets, cost, from, self.layout.symbols());
        if late.is_some() {
            return late;
        }
        self.swap_among(sets, cost, 0, from)
    }
}

// Swaps, one after the other, until none lowers the sum or 1,024 are made.
pub fn settle(
    layout: Layout,
    states: &DiskStates,
    equations: SetList,
    wanted: BitSet,
    sets: &mut [BitSet],
) -> Settling
    requires { LayoutWithin layout × PlacesBelow (symbols_of layout) (has (numeral wanted)) × (symbols_of layout ≤ length sets.old) }
    ensures { Settled (terms_of layout states.now (numerals equations.items) wanted) (numerals sets.old) (numerals sets.new) result.cost result.swaps result.settled }
{
    let terms = ReadingTerms {
        layout,
        states: *states,
        strips: strips_of(layout),
        equations,
        wanted,
    };
    let mut cost = terms.cost(read_by(sets));
    let mut from = 0;
    for swaps in 0..MOST_SWAPS {
        let Some(swap) = terms.next_swap(sets, cost, from) else {
            return Settling {
                cost,
                swaps,
                settled: true,
            };
        };
        sets[swap.target] = sum(sets[swap.target], terms.equations.as_slice()[swap.equation]);
        cost = terms.cost(read_by(sets));
        from = swap.target;
    }
    Settling {
        cost,
        swaps: MOST_SWAPS,
        settled: terms.next_swap(sets, cost, from).is_none(),
    }
}
