// A family's generator matrix, and so its code: the row of each symbol.
#![tactic(auto)]

ghost use Rattle.std.specs.Prelude.{◌≡◌, true, ◌+◌, ◌≤◌, ◌<◌};
ghost use Rattle.bits.specs.Numerals.{numeral};
ghost use Rattle.codes.specs.Codes.{linear};
ghost use Rattle.codes.specs.Layouts.{symbols_of};
ghost use Rattle.family_codes.specs.Families.{listed, family_height, family_layout, q_row, parity_row, family_row, family_code};
ghost use Rattle.family_entries.specs.InnerEntries.{number_of};
ghost use Rattle.family_matrices.specs.InnerDataSums.{data_sum};

use bits::{BitSet, empty, empty_sets, sum};
use codes::Code;
use family_codes::Family;
use family_codes::listed::{data_disks_of, layout_of};
use family_entries::{Parity, entry_of, identity_row};

// The sum over the data disks in a row of a parity disk; for Q also on the diagonal after the last row.
fn data_sum(family: Family, parity: Parity, row: usize) -> BitSet
    requires { (listed family ≡ true) × (row ≤ family_height family) × (parity ≡ Parity.P → row < family_height family) }
    ensures { numeral result ≡ data_sum family (number_of parity) row }
{
    let disks = data_disks_of(family);
    let mut total = empty();
    for disk in 0..disks {
        total = sum(total, entry_of(family, parity, row, disk));
    }
    total
}

// Row `row` of row-diagonal's Q. Its diagonal meets the row parity disk, disk p - 1, one row further.
fn row_diagonal_q(p: usize, row: usize) -> BitSet
    requires { (listed (Family.RowDiagonal p) ≡ true) × (row + 1 < p) }
    ensures { numeral result ≡ q_row (Family.RowDiagonal p) row }
{
    let family = Family::RowDiagonal { p };
    let of_data = data_sum(family, Parity::Q, row);
    let from = row + 1;
    if p - 1 <= from {
        return of_data;
    }
    sum(of_data, data_sum(family, Parity::P, from))
}

// Row `row` of EVENODD's Q. S is the sum on diagonal p - 1, which is no row's own.
fn even_odd_q(p: usize, row: usize) -> BitSet
    requires { (listed (Family.EvenOdd p) ≡ true) × (row + 1 < p) }
    ensures { numeral result ≡ q_row (Family.EvenOdd p) row }
{
    let family = Family::EvenOdd { p };
    let s = data_sum(family, Parity::Q, p - 1);
    let diagonal = data_sum(family, Parity::Q, row);
    sum(s, diagonal)
}

// Row `row` of Q. Single parity has none.
fn q_row(family: Family, row: usize) -> BitSet
    requires { (listed family ≡ true) × (row < family_height family) }
    ensures { numeral result ≡ q_row family row }
{
    match family {
        Family::SingleParity { .. } => empty(),
        Family::Liberation { .. } => data_sum(family, Parity::Q, row),
        Family::RowDiagonal { p } => row_diagonal_q(p, row),
        Family::EvenOdd { p } => even_odd_q(p, row),
    }
}

// Row `row` of a parity disk.
fn parity_row(family: Family, parity: Parity, row: usize) -> BitSet
    requires { (listed family ≡ true) × (row < family_height family) }
    ensures { numeral result ≡ parity_row family (number_of parity) row }
{
    match parity {
        Parity::P => data_sum(family, Parity::P, row),
        Parity::Q => q_row(family, row),
    }
}

// The row of a symbol.
fn row_of(family: Family, symbol: usize) -> BitSet
    requires { (listed family ≡ true) × (symbol < symbols_of (family_layout family)) }
    ensures { numeral result ≡ family_row family symbol }
{
    let layout = layout_of(family);
    let data_disks = data_disks_of(family);
    let disk = layout.disk_of(symbol);
    let row = symbol - layout.first_symbol(disk);
    if disk < data_disks {
        return identity_row(family, disk, row);
    }
    let parity = if disk == data_disks {
        Parity::P
    } else {
        Parity::Q
    };
    parity_row(family, parity, row)
}

// The whole code.
pub fn code_of(family: Family) -> Code
    requires { listed family ≡ true }
    ensures { linear result ≡ family_code family }
{
    let layout = layout_of(family);
    let symbols = layout.symbols();
    let data_symbols = layout.first_symbol(data_disks_of(family));
    let mut rows = empty_sets();
    for symbol in 0..symbols {
        rows[symbol] = row_of(family, symbol);
    }
    Code {
        layout,
        data_symbols,
        rows,
    }
}
