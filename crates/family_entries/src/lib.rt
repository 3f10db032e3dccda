// What a row of the generator matrix takes of a disk.
#![tactic(auto)]

ghost use Rattle.std.specs.Prelude.{◌≡◌, true, ◌+◌, ◌≤◌, ◌<◌};
ghost use Rattle.bits.specs.Numerals.{numeral};
ghost use Rattle.family_codes.specs.Families.{listed, data_disks, family_height, entry, liberation_entry, extra_entry, diagonal_entry};
ghost use Rattle.family_entries.specs.InnerEntries.{number_of, q_entry, entry_of};

use bits::{BitSet, empty, sum, with};
use family_codes::Family;
use family_codes::listed::layout_of;

// The parity disks, behind the data disks.
#[derive(Clone, Copy)]
pub enum Parity {
    P,
    Q,
}

// The identity row of data disk `disk`, row `row`.
pub fn identity_row(family: Family, disk: usize, row: usize) -> BitSet
    requires { (listed family ≡ true) × (disk < data_disks family) × (row < family_height family) }
    ensures { numeral result ≡ entry family disk row }
{
    let layout = layout_of(family);
    let symbol = layout.first_symbol(disk) + row;
    with(empty(), symbol)
}

// What Liberation's Q takes besides: of disk 0 nothing, of any other disk one row, in one row of Q.
fn extra_entry(family: Family, w: usize, row: usize, disk: usize) -> BitSet
    requires { (listed family ≡ true) × (family_height family ≡ w) × (disk < data_disks family) }
    ensures { numeral result ≡ extra_entry family w row disk }
{
    let extra_row = disk * (w - 1) / 2 % w;
    if disk < 1 || extra_row != row {
        return empty();
    }
    identity_row(family, disk, (extra_row + disk - 1) % w)
}

// What Liberation's Q takes of a disk.
fn liberation_entry(family: Family, w: usize, row: usize, disk: usize) -> BitSet
    requires { (listed family ≡ true) × (family_height family ≡ w) × (row ≤ w) × (disk < data_disks family) }
    ensures { numeral result ≡ liberation_entry family w row disk }
{
    let diagonal = identity_row(family, disk, (row + disk) % w);
    sum(diagonal, extra_entry(family, w, row, disk))
}

// What a diagonal takes of a data disk. Its row p - 1 is none of the disk.
fn diagonal_entry(family: Family, p: usize, row: usize, disk: usize) -> BitSet
    requires { (listed family ≡ true) × (family_height family + 1 ≡ p) × (row < p) × (disk < p) × (disk < data_disks family) }
    ensures { numeral result ≡ diagonal_entry (entry family) p row disk }
{
    let from = (row + p - disk) % p;
    if p - 1 <= from {
        return empty();
    }
    identity_row(family, disk, from)
}

// What a row of Q takes of a data disk; also on the diagonal after the last row. Single parity has no Q.
fn q_entry(family: Family, row: usize, disk: usize) -> BitSet
    requires { (listed family ≡ true) × (row ≤ family_height family) × (disk < data_disks family) }
    ensures { numeral result ≡ q_entry family row disk }
{
    match family {
        Family::SingleParity { .. } => empty(),
        Family::Liberation { w, .. } => liberation_entry(family, w, row, disk),
        Family::RowDiagonal { p } | Family::EvenOdd { p } => diagonal_entry(family, p, row, disk),
    }
}

// What a row of a parity disk takes of a data disk; for Q also on the diagonal after the last row.
pub fn entry_of(family: Family, parity: Parity, row: usize, disk: usize) -> BitSet
    requires { (listed family ≡ true) × (row ≤ family_height family) × (parity ≡ Parity.P → row < family_height family) × (disk < data_disks family) }
    ensures { numeral result ≡ entry_of family (number_of parity) row disk }
{
    match parity {
        Parity::P => identity_row(family, disk, row),
        Parity::Q => q_entry(family, row, disk),
    }
}
