// Equations among the known symbols of an array: sets of them whose rows sum to zero.
#![tactic(auto)]

ghost use Rattle.std.specs.Prelude.{◌≡◌, ◌&&◌, ◌≤◌, ◌<◌, eqb, length, take};
ghost use Rattle.bits.specs.BitSets.{has};
ghost use Rattle.bits.specs.Numerals.{set_width, numeral, numerals};
ghost use Rattle.gf2.specs.InnerElimination.{units};
ghost use Rattle.spans.specs.InnerSpans.{row_equations, unpivoted, equations_of};

use bits::{BitSet, BitSets, empty, has, is_empty, sum, with};
use solve::{Elimination, SetList, eliminate_known, nonempty_sets};

// Whether a symbol is known and its row has no pivot.
fn is_unpivoted(pivot: BitSet, known: BitSet, s: usize) -> bool
    requires { s < set_width }
    ensures { result ≡ (has (numeral known) s && eqb (numeral pivot) 0) }
{
    has(known, s) && is_empty(pivot)
}

// For each known symbol without a pivot the subset that the pivots take out of its row, and the symbol itself. Of a row with a pivot that would be empty.
fn row_equations(eliminated: &Elimination, known: BitSet) -> SetList
    ensures { numerals result.items ≡ row_equations (numerals eliminated.now.pivots.items) (numerals eliminated.now.surviving.items)
        (length eliminated.now.surviving.items) (unpivoted (numerals eliminated.now.pivots.items) (has (numeral known))) }
{
    let pivots = eliminated.pivots.as_slice();
    let surviving = eliminated.surviving.as_slice();
    let mut equations = SetList::new();
    for (s, row) in surviving.iter().enumerate() {
        let equation = if is_unpivoted(pivots[s], known, s) {
            sum(eliminated.subset(*row), with(empty(), s))
        } else {
            empty()
        };
        equations.push(equation);
    }
    equations
}

// The equations that elimination over the known rows gives.
pub fn equations_among(rows: BitSets, symbols: usize, data_symbols: usize, known: BitSet) -> SetList
    requires rows_fit { symbols ≤ set_width }
    requires data_fit { data_symbols ≤ set_width }
    ensures { numerals result.items ≡ equations_of (units data_symbols) (has (numeral known)) (take symbols (numerals rows)) }
{
    let eliminated = eliminate_known(rows, symbols, data_symbols, known);
    let of_rows = row_equations(&eliminated, known);
    nonempty_sets(of_rows.as_slice())
}
