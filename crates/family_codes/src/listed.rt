// Refusal 36, and the layout of a family that it lets through.
ghost use Rattle.std.specs.Prelude.{◌≡◌, true};
ghost use Rattle.family_codes.specs.Families.{listed, three_five_or_seven, data_disks, family_height, parity_disks, family_layout};

use super::Family;
use codes::Layout;

fn three_five_or_seven(number: usize) -> bool
    ensures { result ≡ three_five_or_seven number }
{
    matches!(number, 3 | 5 | 7)
}

// k and r may be any numbers: n and r are held to their limits before N is computed.
#[tactic(auto, unfolding(crate::specs::Families::listed))]
fn single_parity_listed(data_disks: usize, rows: usize) -> bool
    ensures { result ≡ listed (Family.SingleParity data_disks rows) }
{
    1 <= data_disks && 1 <= rows && data_disks <= 63 && rows <= 32 && (data_disks + 1) * rows <= 64
}

#[tactic(auto, unfolding(crate::specs::Families::listed))]
fn liberation_listed(w: usize, data_disks: usize) -> bool
    ensures { result ≡ listed (Family.Liberation w data_disks) }
{
    three_five_or_seven(w) && 2 <= data_disks && data_disks <= w
}

// Whether the parameters are listed, and n, r and N are within their limits.
pub fn is_listed(family: Family) -> bool
    ensures { result ≡ listed family }
{
    match family {
        Family::SingleParity { data_disks, rows } => single_parity_listed(data_disks, rows),
        Family::Liberation { w, data_disks } => liberation_listed(w, data_disks),
        Family::RowDiagonal { p } | Family::EvenOdd { p } => three_five_or_seven(p),
    }
}

// The number of data disks.
pub fn data_disks_of(family: Family) -> usize
    requires { listed family ≡ true }
    ensures { result ≡ data_disks family }
{
    match family {
        Family::SingleParity { data_disks, .. } | Family::Liberation { data_disks, .. } =>
            data_disks,
        Family::RowDiagonal { p } => p - 1,
        Family::EvenOdd { p } => p,
    }
}

// r, the rows of a disk.
fn height_of(family: Family) -> usize
    requires { listed family ≡ true }
    ensures { result ≡ family_height family }
{
    match family {
        Family::SingleParity { rows, .. } => rows,
        Family::Liberation { w, .. } => w,
        Family::RowDiagonal { p } | Family::EvenOdd { p } => p - 1,
    }
}

// One parity disk, or P and Q.
fn parity_disks_of(family: Family) -> usize
    ensures { result ≡ parity_disks family }
{
    match family {
        Family::SingleParity { .. } => 1,
        Family::Liberation { .. } | Family::RowDiagonal { .. } | Family::EvenOdd { .. } => 2,
    }
}

// n and r.
pub fn layout_of(family: Family) -> Layout
    requires { listed family ≡ true }
    ensures { result ≡ family_layout family }
{
    Layout {
        disks: data_disks_of(family) + parity_disks_of(family),
        height: height_of(family),
    }
}
