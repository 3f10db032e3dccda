// States from kinds, prices and factors, each a list with an entry a disk: kind 0 is away, 1 idle, 2 busy.
ghost use Rattle.std.specs.Prelude.{◌≡◌, slice_index_or};
ghost use Rattle.prices.specs.Kinds.{no_number, no_kind, state_of_kind, states_told, NoStateWhereMissing};

use crate::{DiskState, DiskStates};

// The kind of a disk; 3 where it isn't there.
fn kind_at(kinds: &[u8], disk: usize) -> u8
    ensures { result ≡ slice_index_or kinds.now disk no_kind }
{
    kinds.get(disk).copied().unwrap_or(3)
}

// The price or the factor of a disk; -1, which is neither, where it isn't there.
#[tactic(auto, using(crate::proofs::KindLaws::no_number_is))]
fn number_at(numbers: &[f64], disk: usize) -> f64
    ensures { result ≡ slice_index_or numbers.now disk no_number }
{
    numbers.get(disk).copied().unwrap_or(-1.0)
}

// The state of a disk by its kind, its price and its factor; one that no disk can be in where the kind is another.
fn state_of_kind(kind: u8, price: f64, factor: f64) -> DiskState
    ensures { result ≡ state_of_kind kind price factor }
{
    match kind {
        0 => DiskState::Away,
        1 => DiskState::Idle { price },
        2 => DiskState::Busy { price, factor },
        _ => DiskState::Idle { price: -1.0 },
    }
}

// The states of all disks that an array can have. What a kind doesn't use is not looked at; where an entry that it uses isn't there, or the kind is another,
// the state is one that no disk can be in.
pub fn states_told(kinds: &[u8], prices: &[f64], factors: &[f64]) -> DiskStates
    ensures told { result ≡ states_told kinds.now prices.now factors.now }
    ensures missing { NoStateWhereMissing kinds.now prices.now factors.now result }
{
    let mut states = [DiskState::Away; 64];
    for disk in 0..64 {
        let kind = kind_at(kinds, disk);
        let state = state_of_kind(kind, number_at(prices, disk), number_at(factors, disk));
        states[disk] = state;
    }
    states
}
