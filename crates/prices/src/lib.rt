// What reading costs: the state of each disk, its charge for the symbols that are read of it, and the sum of the charges in disk order.
#![tactic(auto)]

ghost use Rattle.std.specs.Prelude.{◌≡◌};
ghost use Rattle.bits.specs.BitSets.{has};
ghost use Rattle.bits.specs.Numerals.{numeral, numerals};
ghost use Rattle.codes.specs.Codes.{LayoutWithin};
ghost use Rattle.prices.specs.Prices.{charge, sum_of};
ghost use Rattle.prices.specs.InnerPrices.{Strips};

use bits::{BitSet, BitSets, common, count, empty_sets};
use codes::Layout;
use losses::strip_of;

pub mod states; // states.rt: which states a disk can be in
pub mod kinds; // kinds.rt: states from kinds, prices and factors, as C hands them over

// A disk is away, or idle at a price per symbol, or busy at a price and a factor.
#[derive(Clone, Copy)]
pub enum DiskState {
    Away,
    Idle { price: f64 },
    Busy { price: f64, factor: f64 },
}

// A state for each disk that an array can have.
pub type DiskStates = [DiskState; 64];

// The charge of a disk of which so many symbols are read. Each product is rounded once.
pub fn charge(state: DiskState, reads: usize) -> f64
    ensures { result ≡ charge state reads }
{
    let symbols = std::num::nearest_u64_to_f64(reads as u64);
    match state {
        DiskState::Away => 0.0,
        DiskState::Idle { price } => symbols * price,
        DiskState::Busy { price, factor } => symbols * price * factor,
    }
}

// The symbols of each disk of the array.
pub fn strips_of(layout: Layout) -> BitSets
    requires { LayoutWithin layout }
    ensures { Strips layout (numerals result) }
{
    let mut strips = empty_sets();
    for disk in 0..layout.disks {
        strips[disk] = strip_of(layout, disk);
    }
    strips
}

// The charges of the disks, each for the symbols that are read of its strip, added in disk order from zero. Each sum is rounded once.
pub fn sum_of(layout: Layout, states: &DiskStates, strips: &BitSets, read: BitSet) -> f64
    requires { LayoutWithin layout × Strips layout (numerals strips.now) }
    ensures { result ≡ sum_of layout states.now (has (numeral read)) }
{
    let mut sum = 0.0;
    for disk in 0..layout.disks {
        let reads = count(common(read, strips[disk]));
        sum += charge(states[disk], reads);
    }
    sum
}
