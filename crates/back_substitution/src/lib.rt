// Back substitution over lists of sets: which rows the pivots take out of a row.
#![tactic(auto)]

ghost use Rattle.std.specs.Prelude.{◌≡◌, ◌≤◌, length};
ghost use Rattle.bits.specs.Numerals.{set_width, numeral, numerals};
ghost use Rattle.gf2.specs.InnerElimination.{back_substitute};

use bits::{BitSet, empty, sum, with};
use elimination::is_odd;

// The subset of the rows that the pivots take out of a row, from the last to the first.
pub fn back_substitute(pivots: &[BitSet], rows: &[BitSet], row: BitSet) -> BitSet
    requires one_each { length pivots.now ≡ length rows.now }
    requires fits { length rows.now ≤ set_width }
    ensures { numeral result ≡ back_substitute (numerals pivots.now) (numerals rows.now) (numeral row) }
{
    let mut subset = empty();
    let mut left = row;
    for s in (0..rows.len()).rev() {
        if is_odd(pivots[s], left) {
            left = sum(left, rows[s]);
            subset = with(subset, s);
        }
    }
    subset
}
